//! How the trees of statements, declarations and programs are made, with the outline that each has.

ghost use Rattle.std.specs.Prelude.{◌≡◌, ◌++◌};
ghost use Rattle.std.specs.List.{flat_map};
ghost use Rattle.hera_syntax.specs.Grammar as phrases;
ghost use Rattle.hera_syntax.specs.Outline.{expr_outline, hold, node, skip, some_args_outline};
ghost use Rattle.hera_syntax.specs.Programs.{attr_outline, attr_row, attrs_outline, block_outline, else_if_row, func_outline, func_row, kind_outline, last_else, last_main_outline, main_outline, outline, param_outline, param_row, params_outline, proc_outline, proc_row, relation_outline, relation_row, schema_outline, some_params_outline, some_text_outline, some_value_outline, stmt_outline, stmt_row, type_outline};

use super::*;

impl KindTree {
    /// A kind, by its keyword.
    pub fn new(word: Token) -> KindTree
        ensures { kind_outline result ≡ node phrases.kind 0 ++ hold word }
    {
        KindTree { word }
    }
}

impl AttrTree {
    /// An attribute.
    pub fn new(name: Token, kind: KindTree) -> AttrTree
        ensures { attr_outline result ≡ node phrases.attr 0 ++ hold name ++ kind_outline kind }
    {
        AttrTree { name, kind }
    }
}

impl Attrs {
    /// A list of attributes.
    pub fn new(first: AttrTree, rest: Vec<AttrTree>) -> Attrs
        ensures { attrs_outline result ≡ node phrases.attrs 0 ++ attr_outline first ++ flat_map attr_row rest.items ++ node phrases.more_attrs 1 }
    {
        Attrs { first, rest }
    }
}

impl SchemaTree {
    /// The schema of a relation, by its name.
    pub fn name(name: Token) -> SchemaTree
        ensures { schema_outline result ≡ node phrases.schema 0 ++ hold name }
    {
        SchemaTree::Name(name)
    }

    /// A schema that is written out.
    pub fn written(bracket: Token, attrs: Attrs) -> SchemaTree
        ensures { schema_outline result ≡ node phrases.schema 1 ++ hold bracket ++ attrs_outline attrs ++ skip phrases.close_paren }
    {
        SchemaTree::Written { bracket, attrs }
    }
}

impl TypeTree {
    /// The type of scalars of a kind.
    pub fn kind(kind: KindTree) -> TypeTree
        ensures { type_outline result ≡ node phrases.type_tree 0 ++ kind_outline kind }
    {
        TypeTree::Kind(kind)
    }

    /// The type of deltas.
    pub fn delta(word: Token) -> TypeTree
        ensures { type_outline result ≡ node phrases.type_tree 1 ++ hold word }
    {
        TypeTree::Delta(word)
    }

    /// The type of the relations of a schema.
    pub fn rel(word: Token, schema: SchemaTree) -> TypeTree
        ensures { type_outline result ≡ node phrases.type_tree 2 ++ hold word ++ schema_outline schema }
    {
        TypeTree::Rel { word, schema }
    }

    /// The type of the tuples of a schema.
    pub fn tuple(word: Token, schema: SchemaTree) -> TypeTree
        ensures { type_outline result ≡ node phrases.type_tree 3 ++ hold word ++ schema_outline schema }
    {
        TypeTree::Tuple { word, schema }
    }
}

impl Param {
    /// A parameter.
    pub fn new(type_tree: TypeTree, name: Token) -> Param
        ensures { param_outline result ≡ node phrases.param 0 ++ type_outline type_tree ++ hold name }
    {
        Param { type_tree, name }
    }
}

impl Params {
    /// A list of parameters.
    pub fn new(first: Param, rest: Vec<Param>) -> Params
        ensures { params_outline result ≡ node phrases.params 0 ++ param_outline first ++ flat_map param_row rest.items ++ node phrases.more_params 1 }
    {
        Params { first, rest }
    }
}

impl Block {
    /// A block.
    pub fn new(bracket: Token, stmts: Vec<StmtTree>) -> Block
        ensures { block_outline result ≡ node phrases.block 0 ++ hold bracket ++ flat_map stmt_row stmts.items ++ node phrases.stmts 1 ++ skip phrases.close_brace }
    {
        Block { bracket, stmts }
    }
}

impl ElseIf {
    /// An `else if`.
    pub fn new(word: Token, bracket: Token, condition: Expr, block: Block) -> ElseIf
        ensures { else_if_row result ≡ node phrases.else_part 0 ++ skip phrases.else_word ++ node phrases.after_else 0 ++ hold word ++ hold bracket ++ expr_outline condition ++ skip phrases.close_paren ++ block_outline block }
    {
        ElseIf {
            word,
            bracket,
            condition,
            block,
        }
    }
}

impl StmtTree {
    /// A declaration of a local.
    pub fn declare(type_tree: TypeTree, name: Token, value: Expr) -> StmtTree
        ensures { stmt_outline result ≡ node phrases.stmt 0 ++ type_outline type_tree ++ hold name ++ skip phrases.equals ++ expr_outline value ++ skip phrases.semicolon }
    {
        StmtTree::Declare {
            type_tree,
            name,
            value,
        }
    }

    /// An assignment.
    pub fn assign(name: Token, value: Expr) -> StmtTree
        ensures { stmt_outline result ≡ node phrases.stmt 1 ++ hold name ++ node phrases.named 0 ++ skip phrases.equals ++ expr_outline value ++ skip phrases.semicolon }
    {
        StmtTree::Assign { name, value }
    }

    /// A call of a proc.
    pub fn call(name: Token, bracket: Token, args: Option<ArgTrees>) -> StmtTree
        ensures { stmt_outline result ≡ node phrases.stmt 1 ++ hold name ++ node phrases.named 1 ++ hold bracket ++ some_args_outline args ++ skip phrases.close_paren ++ skip phrases.semicolon }
    {
        StmtTree::Call {
            name,
            bracket,
            args,
        }
    }

    /// An `if`.
    pub fn branch(
        word: Token,
        bracket: Token,
        condition: Expr,
        block: Block,
        else_ifs: Vec<ElseIf>,
        last: Option<Block>,
    ) -> StmtTree
        ensures { stmt_outline result ≡ node phrases.stmt 2 ++ hold word ++ hold bracket ++ expr_outline condition ++ skip phrases.close_paren ++ block_outline block ++ flat_map else_if_row else_ifs.items ++ last_else last }
    {
        StmtTree::If {
            word,
            bracket,
            condition,
            block,
            else_ifs,
            last,
        }
    }

    /// A `while`.
    pub fn repeat(word: Token, bracket: Token, condition: Expr, block: Block) -> StmtTree
        ensures { stmt_outline result ≡ node phrases.stmt 3 ++ hold word ++ hold bracket ++ expr_outline condition ++ skip phrases.close_paren ++ block_outline block }
    {
        StmtTree::While {
            word,
            bracket,
            condition,
            block,
        }
    }

    /// A `foreach`.
    pub fn foreach(word: Token, bracket: Token, name: Token, over: Expr, block: Block) -> StmtTree
        ensures { stmt_outline result ≡ node phrases.stmt 4 ++ hold word ++ hold bracket ++ hold name ++ skip phrases.in_word ++ expr_outline over ++ skip phrases.close_paren ++ block_outline block }
    {
        StmtTree::Foreach {
            word,
            bracket,
            name,
            over,
            block,
        }
    }

    /// `print` of a value.
    pub fn print(word: Token, value: Expr) -> StmtTree
        ensures { stmt_outline result ≡ node phrases.stmt 5 ++ hold word ++ expr_outline value ++ skip phrases.semicolon }
    {
        StmtTree::Print { word, value }
    }

    /// `apply` of a value.
    pub fn apply(word: Token, value: Expr) -> StmtTree
        ensures { stmt_outline result ≡ node phrases.stmt 6 ++ hold word ++ expr_outline value ++ skip phrases.semicolon }
    {
        StmtTree::Apply { word, value }
    }

    /// `assert` of a value.
    pub fn assert(word: Token, value: Expr) -> StmtTree
        ensures { stmt_outline result ≡ node phrases.stmt 7 ++ hold word ++ expr_outline value ++ skip phrases.semicolon }
    {
        StmtTree::Assert { word, value }
    }

    /// A `commit`, with or without a label.
    pub fn commit(word: Token, label: Option<Token>) -> StmtTree
        ensures { stmt_outline result ≡ node phrases.stmt 8 ++ hold word ++ some_text_outline label ++ skip phrases.semicolon }
    {
        StmtTree::Commit { word, label }
    }

    /// A `rollback`.
    pub fn rollback(word: Token) -> StmtTree
        ensures { stmt_outline result ≡ node phrases.stmt 9 ++ hold word ++ skip phrases.semicolon }
    {
        StmtTree::Rollback(word)
    }

    /// A `return`.
    pub fn give_back(word: Token, value: Option<Expr>) -> StmtTree
        ensures { stmt_outline result ≡ node phrases.stmt 10 ++ hold word ++ some_value_outline value ++ skip phrases.semicolon }
    {
        StmtTree::Return { word, value }
    }
}

impl Relation {
    /// A declared relation.
    pub fn new(word: Token, name: Token, bracket: Token, attrs: Attrs) -> Relation
        ensures { relation_outline result ≡ node phrases.relation 0 ++ hold word ++ hold name ++ hold bracket ++ attrs_outline attrs ++ skip phrases.close_paren ++ skip phrases.semicolon }
    {
        Relation {
            word,
            name,
            bracket,
            attrs,
        }
    }
}

impl Func {
    /// A func.
    pub fn new(
        word: Token,
        type_tree: TypeTree,
        name: Token,
        bracket: Token,
        params: Option<Params>,
        block: Block,
    ) -> Func
        ensures { func_outline result ≡ node phrases.func 0 ++ hold word ++ type_outline type_tree ++ hold name ++ hold bracket ++ some_params_outline params ++ skip phrases.close_paren ++ block_outline block }
    {
        Func {
            word,
            type_tree,
            name,
            bracket,
            params,
            block,
        }
    }
}

impl Proc {
    /// A proc.
    pub fn new(
        word: Token,
        name: Token,
        bracket: Token,
        params: Option<Params>,
        block: Block,
    ) -> Proc
        ensures { proc_outline result ≡ node phrases.proc 0 ++ hold word ++ hold name ++ hold bracket ++ some_params_outline params ++ skip phrases.close_paren ++ block_outline block }
    {
        Proc {
            word,
            name,
            bracket,
            params,
            block,
        }
    }
}

impl Main {
    /// The main block.
    pub fn new(word: Token, block: Block) -> Main
        ensures { main_outline result ≡ node phrases.main 0 ++ hold word ++ block_outline block }
    {
        Main { word, block }
    }
}

impl Tree {
    /// A program.
    pub fn new(
        relations: Vec<Relation>,
        funcs: Vec<Func>,
        procs: Vec<Proc>,
        main: Option<Main>,
    ) -> Tree
        ensures { outline result ≡ node phrases.program 0 ++ flat_map relation_row relations.items ++ node phrases.relations 1 ++ flat_map func_row funcs.items ++ node phrases.funcs 1 ++ flat_map proc_row procs.items ++ node phrases.procs 1 ++ last_main_outline main }
    {
        Tree {
            relations,
            funcs,
            procs,
            main,
        }
    }
}
