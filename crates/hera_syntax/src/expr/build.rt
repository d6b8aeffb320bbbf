//! How the trees of expressions are made, with the outline that each has.

ghost use Rattle.std.specs.Prelude.{◌≡◌, ◌≤◌, ◌++◌, length};
ghost use Rattle.std.specs.List.{flat_map};
ghost use Rattle.hera_syntax.specs.Grammar as phrases;
ghost use Rattle.hera_syntax.specs.Outline.{agg_outline, agg_row, aggs_outline, args_outline, args_row, atom_outline, atoms_outline, atoms_row, binding_outline, bindings_outline, bindings_row, comparison_rest, expr_outline, field_outline, hold, line_outline, lines_outline, lines_row, more_of, name_row, named_agg_outline, names_outline, node, operand_outline, post_outline, prefix_outline, prime_outline, production_of, renaming_outline, renaming_row, renamings_outline, skip, tail_outline, tail_row};

use super::*;

impl Tail {
    /// An operator and its right operand.
    pub fn new(op: Token, operand: OperandTree) -> Tail
        ensures { tail_outline result ≡ hold op ++ operand_outline operand }
    {
        Tail { op, operand }
    }
}

impl OperandTree {
    /// An expression of the next level.
    pub fn inner(inner: Box<Expr>) -> OperandTree
        ensures { operand_outline result ≡ expr_outline inner.value }
    {
        OperandTree::Inner(inner)
    }

    /// The operand of the last level.
    pub fn prefix(prefix: Prefix) -> OperandTree
        ensures { operand_outline result ≡ prefix_outline prefix }
    {
        OperandTree::Prefix(prefix)
    }
}

impl Expr {
    /// A chain of operands. A comparison is none: it has at most one operator.
    pub fn chain(level: Level, first: OperandTree, rest: Vec<Tail>) -> Expr
        requires { ¬ (level ≡ Level.Comparisons) }
        ensures { expr_outline result ≡ node (production_of level) 0 ++ operand_outline first ++ flat_map (tail_row level) rest.items ++ node (more_of level) 1 }
    {
        Expr { level, first, rest }
    }

    /// A comparison, or with no tail a sum that is not compared.
    pub fn comparison(first: OperandTree, rest: Vec<Tail>) -> Expr
        requires { length rest.items ≤ 1 }
        ensures { expr_outline result ≡ node phrases.cmp 0 ++ operand_outline first ++ comparison_rest rest.items }
    {
        Expr {
            level: Level::Comparisons,
            first,
            rest,
        }
    }
}

impl Prefix {
    /// An operand with no sign.
    pub fn plain(operand: Post) -> Prefix
        ensures { prefix_outline result ≡ node phrases.prefix 1 ++ post_outline operand }
    {
        Prefix { op: None, operand }
    }

    /// A sign and its operand.
    pub fn new(op: Token, operand: Post) -> Prefix
        ensures { prefix_outline result ≡ node phrases.prefix 0 ++ hold op ++ post_outline operand }
    {
        Prefix {
            op: Some(op),
            operand,
        }
    }
}

impl Post {
    /// An operand, and the attribute that is taken of it.
    pub fn new(operand: Box<Prime>, field: Option<Token>) -> Post
        ensures { post_outline result ≡ node phrases.post 0 ++ prime_outline operand.value ++ field_outline field }
    {
        Post { operand, field }
    }
}

impl Prime {
    /// An int literal.
    pub fn int(token: Token) -> Prime
        ensures { prime_outline result ≡ node phrases.prime 0 ++ hold token }
    {
        Prime::Int(token)
    }

    /// A text literal.
    pub fn text(token: Token) -> Prime
        ensures { prime_outline result ≡ node phrases.prime 1 ++ hold token }
    {
        Prime::Text(token)
    }

    /// `true`
    pub fn true_word(token: Token) -> Prime
        ensures { prime_outline result ≡ node phrases.prime 2 ++ hold token }
    {
        Prime::True(token)
    }

    /// `false`
    pub fn false_word(token: Token) -> Prime
        ensures { prime_outline result ≡ node phrases.prime 3 ++ hold token }
    {
        Prime::False(token)
    }

    /// `fail`
    pub fn fail_word(token: Token) -> Prime
        ensures { prime_outline result ≡ node phrases.prime 4 ++ hold token }
    {
        Prime::Fail(token)
    }

    /// A name that no bracket follows.
    pub fn name(token: Token) -> Prime
        ensures { prime_outline result ≡ node phrases.prime 5 ++ hold token ++ node phrases.call 1 }
    {
        Prime::Name(token)
    }

    /// A call of nothing.
    pub fn empty_call(name: Token, bracket: Token) -> Prime
        ensures { prime_outline result ≡ node phrases.prime 5 ++ hold name ++ node phrases.call 0 ++ hold bracket ++ node phrases.some_args 1 ++ skip phrases.close_paren }
    {
        Prime::Call {
            name,
            bracket,
            args: None,
        }
    }

    /// A call.
    pub fn call(name: Token, bracket: Token, args: Box<ArgTrees>) -> Prime
        ensures { prime_outline result ≡ node phrases.prime 5 ++ hold name ++ node phrases.call 0 ++ hold bracket ++ (node phrases.some_args 0 ++ args_outline args.value) ++ skip phrases.close_paren }
    {
        Prime::Call {
            name,
            bracket,
            args: Some(args),
        }
    }

    /// An expression in brackets.
    pub fn paren(bracket: Token, inner: Box<Expr>) -> Prime
        ensures { prime_outline result ≡ node phrases.prime 6 ++ hold bracket ++ expr_outline inner.value ++ skip phrases.close_paren }
    {
        Prime::Paren { bracket, inner }
    }

    /// A tuple literal.
    pub fn row(bracket: Token, bindings: Box<Bindings>) -> Prime
        ensures { prime_outline result ≡ node phrases.prime 7 ++ hold bracket ++ bindings_outline bindings.value ++ skip phrases.close_square }
    {
        Prime::Row { bracket, bindings }
    }

    /// A delta literal of nothing.
    pub fn empty_delta(bracket: Token) -> Prime
        ensures { prime_outline result ≡ node phrases.prime 8 ++ hold bracket ++ node phrases.some_atoms 1 ++ skip phrases.close_brace }
    {
        Prime::Delta {
            bracket,
            atoms: None,
        }
    }

    /// A delta literal.
    pub fn delta(bracket: Token, atoms: Box<Atoms>) -> Prime
        ensures { prime_outline result ≡ node phrases.prime 8 ++ hold bracket ++ (node phrases.some_atoms 0 ++ atoms_outline atoms.value) ++ skip phrases.close_brace }
    {
        Prime::Delta {
            bracket,
            atoms: Some(atoms),
        }
    }

    /// A relation literal of nothing.
    pub fn empty_rows(word: Token, bracket: Token, name: Token, brace: Token) -> Prime
        ensures { prime_outline result ≡ node phrases.prime 9 ++ hold word ++ hold bracket ++ hold name ++ skip phrases.close_paren ++ hold brace ++ node phrases.some_lines 1 ++ skip phrases.close_brace }
    {
        Prime::Rows {
            word,
            bracket,
            name,
            brace,
            lines: None,
        }
    }

    /// A relation literal.
    pub fn rows(
        word: Token,
        bracket: Token,
        name: Token,
        brace: Token,
        lines: Box<LineTrees>,
    ) -> Prime
        ensures { prime_outline result ≡ node phrases.prime 9 ++ hold word ++ hold bracket ++ hold name ++ skip phrases.close_paren ++ hold brace ++ (node phrases.some_lines 0 ++ lines_outline lines.value) ++ skip phrases.close_brace }
    {
        Prime::Rows {
            word,
            bracket,
            name,
            brace,
            lines: Some(lines),
        }
    }

    /// A `select` or `map`.
    pub fn walk(word: Token, bracket: Token, name: Token, over: Box<Expr>, body: Box<Expr>) -> Prime
        ensures { prime_outline result ≡ node phrases.prime 10 ++ hold word ++ hold bracket ++ hold name ++ skip phrases.in_word ++ expr_outline over.value ++ skip phrases.colon ++ expr_outline body.value ++ skip phrases.close_paren }
    {
        Prime::Walk {
            word,
            bracket,
            name,
            over,
            body,
        }
    }

    /// A projection.
    pub fn project(word: Token, bracket: Token, over: Box<Expr>, names: Names) -> Prime
        ensures { prime_outline result ≡ node phrases.prime 11 ++ hold word ++ hold bracket ++ expr_outline over.value ++ skip phrases.semicolon ++ names_outline names ++ skip phrases.close_paren }
    {
        Prime::Project {
            word,
            bracket,
            over,
            names,
        }
    }

    /// A renaming.
    pub fn rename(word: Token, bracket: Token, over: Box<Expr>, renamings: Renamings) -> Prime
        ensures { prime_outline result ≡ node phrases.prime 12 ++ hold word ++ hold bracket ++ expr_outline over.value ++ skip phrases.semicolon ++ renamings_outline renamings ++ skip phrases.close_paren }
    {
        Prime::Rename {
            word,
            bracket,
            over,
            renamings,
        }
    }

    /// An operator on two relations.
    pub fn pair(word: Token, bracket: Token, left: Box<Expr>, right: Box<Expr>) -> Prime
        ensures { prime_outline result ≡ node phrases.prime 13 ++ hold word ++ hold bracket ++ expr_outline left.value ++ skip phrases.comma ++ expr_outline right.value ++ skip phrases.close_paren }
    {
        Prime::Pair {
            word,
            bracket,
            left,
            right,
        }
    }

    /// A grouping.
    pub fn group(
        word: Token,
        bracket: Token,
        over: Box<Expr>,
        names: Names,
        aggs: NamedAggs,
    ) -> Prime
        ensures { prime_outline result ≡ node phrases.prime 14 ++ hold word ++ hold bracket ++ expr_outline over.value ++ skip phrases.semicolon ++ skip phrases.by_word ++ names_outline names ++ skip phrases.semicolon ++ aggs_outline aggs ++ skip phrases.close_paren }
    {
        Prime::Group {
            word,
            bracket,
            over,
            names,
            aggs,
        }
    }

    /// A `count`, `empty` or `isfail`.
    pub fn measure(word: Token, bracket: Token, over: Box<Expr>) -> Prime
        ensures { prime_outline result ≡ node phrases.prime 15 ++ hold word ++ hold bracket ++ expr_outline over.value ++ skip phrases.close_paren }
    {
        Prime::Measure {
            word,
            bracket,
            over,
        }
    }

    /// A `sum`, `min` or `max`.
    pub fn fold(word: Token, bracket: Token, over: Box<Expr>, name: Token) -> Prime
        ensures { prime_outline result ≡ node phrases.prime 16 ++ hold word ++ hold bracket ++ expr_outline over.value ++ skip phrases.comma ++ hold name ++ skip phrases.close_paren }
    {
        Prime::Fold {
            word,
            bracket,
            over,
            name,
        }
    }

    /// A `bulk`.
    pub fn bulk(word: Token, bracket: Token, sign: Token, name: Token, over: Box<Expr>) -> Prime
        ensures { prime_outline result ≡ node phrases.prime 17 ++ hold word ++ hold bracket ++ hold sign ++ hold name ++ skip phrases.comma ++ expr_outline over.value ++ skip phrases.close_paren }
    {
        Prime::Bulk {
            word,
            bracket,
            sign,
            name,
            over,
        }
    }

    /// An `ins` or `del`.
    pub fn part(word: Token, bracket: Token, name: Token, over: Box<Expr>) -> Prime
        ensures { prime_outline result ≡ node phrases.prime 18 ++ hold word ++ hold bracket ++ hold name ++ skip phrases.comma ++ expr_outline over.value ++ skip phrases.close_paren }
    {
        Prime::Part {
            word,
            bracket,
            name,
            over,
        }
    }
}

impl ArgTrees {
    /// A list.
    pub fn new(first: Expr, rest: Vec<Expr>) -> ArgTrees
        ensures { args_outline result ≡ node phrases.args 0 ++ expr_outline first ++ flat_map args_row rest.items ++ node phrases.more_args 1 }
    {
        ArgTrees { first, rest }
    }
}

impl Bindings {
    /// A list.
    pub fn new(first: Binding, rest: Vec<Binding>) -> Bindings
        ensures { bindings_outline result ≡ node phrases.bindings 0 ++ binding_outline first ++ flat_map bindings_row rest.items ++ node phrases.more_bindings 1 }
    {
        Bindings { first, rest }
    }
}

impl Atoms {
    /// A list.
    pub fn new(first: Atom, rest: Vec<Atom>) -> Atoms
        ensures { atoms_outline result ≡ node phrases.atoms 0 ++ atom_outline first ++ flat_map atoms_row rest.items ++ node phrases.more_atoms 1 }
    {
        Atoms { first, rest }
    }
}

impl LineTrees {
    /// A list.
    pub fn new(first: LineTree, rest: Vec<LineTree>) -> LineTrees
        ensures { lines_outline result ≡ node phrases.lines 0 ++ line_outline first ++ flat_map lines_row rest.items ++ node phrases.more_lines 1 }
    {
        LineTrees { first, rest }
    }
}

impl Binding {
    /// An attribute and its value.
    pub fn new(name: Token, value: Expr) -> Binding
        ensures { binding_outline result ≡ node phrases.binding 0 ++ hold name ++ skip phrases.equals ++ expr_outline value }
    {
        Binding { name, value }
    }
}

impl Atom {
    /// A signed atom.
    pub fn new(sign: Token, name: Token, bracket: Token, args: ArgTrees) -> Atom
        ensures { atom_outline result ≡ node phrases.atom 0 ++ hold sign ++ hold name ++ hold bracket ++ args_outline args ++ skip phrases.close_paren }
    {
        Atom {
            sign,
            name,
            bracket,
            args,
        }
    }
}

impl LineTree {
    /// A line of a relation literal.
    pub fn new(bracket: Token, args: ArgTrees) -> LineTree
        ensures { line_outline result ≡ node phrases.line 0 ++ hold bracket ++ args_outline args ++ skip phrases.close_paren }
    {
        LineTree { bracket, args }
    }
}

impl Names {
    /// A list of names.
    pub fn new(first: Token, rest: Vec<Token>) -> Names
        ensures { names_outline result ≡ node phrases.names 0 ++ hold first ++ flat_map name_row rest.items ++ node phrases.more_names 1 }
    {
        Names { first, rest }
    }
}

impl Renaming {
    /// A new name and the old one.
    pub fn new(new: Token, old: Token) -> Renaming
        ensures { renaming_outline result ≡ node phrases.renaming 0 ++ hold new ++ skip phrases.equals ++ hold old }
    {
        Renaming { new, old }
    }
}

impl Renamings {
    /// A list of renamings.
    pub fn new(first: Renaming, rest: Vec<Renaming>) -> Renamings
        ensures { renamings_outline result ≡ node phrases.renamings 0 ++ renaming_outline first ++ flat_map renaming_row rest.items ++ node phrases.more_renamings 1 }
    {
        Renamings { first, rest }
    }
}

impl AggTree {
    /// A `count`.
    pub fn count(word: Token) -> AggTree
        ensures { agg_outline result ≡ node phrases.agg 0 ++ hold word }
    {
        AggTree::Count(word)
    }

    /// A `sum`, `min` or `max` of an attribute.
    pub fn of(word: Token, bracket: Token, name: Token) -> AggTree
        ensures { agg_outline result ≡ node phrases.agg 1 ++ hold word ++ hold bracket ++ hold name ++ skip phrases.close_paren }
    {
        AggTree::Of {
            word,
            bracket,
            name,
        }
    }
}

impl NamedAgg {
    /// An aggregate and its name.
    pub fn new(name: Token, agg: AggTree) -> NamedAgg
        ensures { named_agg_outline result ≡ node phrases.named_agg 0 ++ hold name ++ skip phrases.equals ++ agg_outline agg }
    {
        NamedAgg { name, agg }
    }
}

impl NamedAggs {
    /// A list of aggregates.
    pub fn new(first: NamedAgg, rest: Vec<NamedAgg>) -> NamedAggs
        ensures { aggs_outline result ≡ node phrases.aggs 0 ++ named_agg_outline first ++ flat_map agg_row rest.items ++ node phrases.more_aggs 1 }
    {
        NamedAggs { first, rest }
    }
}
