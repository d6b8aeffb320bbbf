//! Expressions.

ghost use Rattle.std.specs.Prelude.{◌≡◌, ◌<◌, ◌≤◌, [], ◌∷◌, ◌++◌, length, IfOk, OnOk, IsErrOf};
ghost use Rattle.hera_syntax.specs.Grammar.{keep, leave, phrase};
ghost use Rattle.hera_syntax.specs.Grammar as phrases;
ghost use Rattle.hera_syntax.specs.Operators.{operand_of, operators_of};
ghost use Rattle.hera_syntax.specs.Outline.{args_outline, atom_outline, atoms_outline, binding_outline, bindings_outline, expr_outline, hold, line_outline, lines_outline, operand_outline, post_outline, prefix_outline, prime_outline, production_of, skip, some_args_outline, tail_outline};
ghost use Rattle.hera_parser_exprs.specs.Reading.{Tells, Gives, Sticks};

use crate::forms::PrimeForm;
use crate::parser::{Items, Parser, Stop, joined};
use crate::terminals::{
    BRACE, BY, CLOSE_BRACE, CLOSE_PAREN, CLOSE_SQUARE, CMP_OPS, COLON, COMMA, EQUALS, EXPR_STARTS,
    FOLD_WORDS, GROUP, IN, MEASURE_WORDS, NAME, PAIR_WORDS, PAREN, PART_WORDS, PREFIX_OPS, PROJECT,
    RENAME, SEMICOLON, SIGNS, SQUARE, WALK_WORDS,
};
use hera_syntax::{
    ArgTrees, Atom, Atoms, Binding, Bindings, Expr, Level, LineTree, LineTrees, OperandTree, Post,
    Prefix, Prime, Tail, Terminal, Token,
};
use std::alloc::Global;

impl<'a> Parser<'a> {
    /// An expression.
    pub fn expr(&mut self, alloc: Global) -> Result<Expr, Stop>
        ensures reads { IfOk result (λ tree. Gives (phrase phrases.expr ∷ []) self.old (expr_outline tree) [] self.new) }
        ensures sticks { IsErrOf result Stop.Syntax → Sticks (phrase phrases.expr ∷ []) self.old self.new }
        ensures shorter { OnOk result (length self.new < length self.old) }
    {
        self.level(alloc, Level::Whens)
    }

    /// An expression of a level.
    #[cycle(expr)]
    fn level(&mut self, alloc: Global, level: Level) -> Result<Expr, Stop>
        ensures reads { IfOk result (λ tree. Gives (phrase (production_of level) ∷ []) self.old (expr_outline tree) [] self.new) }
        ensures sticks { IsErrOf result Stop.Syntax → Sticks (phrase (production_of level) ∷ []) self.old self.new }
        ensures shorter { OnOk result (length self.new < length self.old) }
    {
        match level {
            Level::Comparisons => self.comparison(alloc),
            _ => self.chain(alloc, level),
        }
    }

    /// A chain of operands of a level, which is not that of comparisons.
    #[cycle(expr)]
    fn chain(&mut self, alloc: Global, level: Level) -> Result<Expr, Stop>
        requires { ¬ (level ≡ Level.Comparisons) }
        ensures reads { IfOk result (λ tree. Gives (phrase (production_of level) ∷ []) self.old (expr_outline tree) [] self.new) }
        ensures sticks { IsErrOf result Stop.Syntax → Sticks (phrase (production_of level) ∷ []) self.old self.new }
        ensures shorter { OnOk result (length self.new < length self.old) }
    {
        let first = self.operand(alloc, level)?;
        let mut items = Items::new(alloc, first);
        'rest: while self.next_is(level.operators()) {
            let tail = self.tail(alloc, level);
            items = items.with(tail)?;
        }
        let Items { first, rest } = items;
        Ok(Expr::chain(level, first, rest))
    }

    /// `sum (op sum)?`, with one comparison at most
    #[cycle(expr)]
    fn comparison(&mut self, alloc: Global) -> Result<Expr, Stop>
        ensures reads { IfOk result (λ tree. Gives (phrase phrases.cmp ∷ []) self.old (expr_outline tree) [] self.new) }
        ensures sticks { IsErrOf result Stop.Syntax → Sticks (phrase phrases.cmp ∷ []) self.old self.new }
        ensures shorter { OnOk result (length self.new < length self.old) }
    {
        let first = self.operand(alloc, Level::Comparisons)?;
        if !self.next_is(CMP_OPS) {
            return Ok(Expr::comparison(first, Vec::new(alloc)));
        }
        let tail = self.tail(alloc, Level::Comparisons);
        let alone = Items::new(alloc, first);
        let items = alone.with(tail)?;
        let Items { first, rest } = items;
        Ok(Expr::comparison(first, rest))
    }

    /// An operator of a level and its right operand.
    #[cycle(expr)]
    fn tail(&mut self, alloc: Global, level: Level) -> Result<Tail, Stop>
        ensures reads { IfOk result (λ tree. Gives (keep (operators_of level) ∷ phrase (operand_of level) ∷ []) self.old (tail_outline tree) [] self.new) }
        ensures sticks { IsErrOf result Stop.Syntax → Sticks (keep (operators_of level) ∷ phrase (operand_of level) ∷ []) self.old self.new }
        ensures shorter { OnOk result (length self.new < length self.old) }
    {
        let op = self.keep(level.operators())?;
        let operand = self.operand(alloc, level);
        let both = joined(op, operand)?;
        let (op, operand) = both;
        Ok(Tail::new(op, operand))
    }

    /// An operand of a level.
    #[cycle(expr)]
    fn operand(&mut self, alloc: Global, level: Level) -> Result<OperandTree, Stop>
        ensures reads { IfOk result (λ tree. Gives (phrase (operand_of level) ∷ []) self.old (operand_outline tree) [] self.new) }
        ensures sticks { IsErrOf result Stop.Syntax → Sticks (phrase (operand_of level) ∷ []) self.old self.new }
        ensures shorter { OnOk result (length self.new < length self.old) }
    {
        let Some(below) = level.below() else {
            let prefix = self.prefix_level(alloc)?;
            return Ok(OperandTree::prefix(prefix));
        };
        let inner = self.level(alloc, below)?;
        let boxed = Box::new(alloc, inner)?;
        Ok(OperandTree::inner(boxed))
    }

    /// `('-' | '!')? post`
    #[cycle(expr)]
    fn prefix_level(&mut self, alloc: Global) -> Result<Prefix, Stop>
        ensures reads { IfOk result (λ tree. Gives (phrase phrases.prefix ∷ []) self.old (prefix_outline tree) [] self.new) }
        ensures sticks { IsErrOf result Stop.Syntax → Sticks (phrase phrases.prefix ∷ []) self.old self.new }
        ensures shorter { OnOk result (length self.new < length self.old) }
    {
        if !self.next_is(PREFIX_OPS) {
            let plain = self.post(alloc)?;
            return Ok(Prefix::plain(plain));
        }
        let op = self.keep(PREFIX_OPS)?;
        let operand = self.post(alloc);
        let both = joined(op, operand)?;
        let (op, operand) = both;
        Ok(Prefix::new(op, operand))
    }

    /// `prime ('.' name)?`
    #[cycle(expr)]
    fn post(&mut self, alloc: Global) -> Result<Post, Stop>
        ensures reads { IfOk result (λ tree. Gives (phrase phrases.post ∷ []) self.old (post_outline tree) [] self.new) }
        ensures sticks { IsErrOf result Stop.Syntax → Sticks (phrase phrases.post ∷ []) self.old self.new }
        ensures shorter { OnOk result (length self.new < length self.old) }
    {
        let operand = self.prime(alloc)?;
        let both = self.field_behind(alloc, operand)?;
        let (operand, field) = both;
        Ok(Post::new(operand, field))
    }

    /// `'(' expr ')'`
    #[cycle(expr)]
    fn paren(&mut self, alloc: Global) -> Result<Prime, Stop>
        requires { Tells phrases.prime 6 self.old }
        ensures reads { IfOk result (λ tree. Gives (phrase phrases.prime ∷ []) self.old (prime_outline tree) [] self.new) }
        ensures sticks { IsErrOf result Stop.Syntax → Sticks (phrase phrases.prime ∷ []) self.old self.new }
        ensures shorter { OnOk result (length self.new < length self.old) }
    {
        let bracket = self.keep(PAREN)?;
        let inner = self.level(alloc, Level::Whens);
        let part = self.boxed_until(alloc, bracket, inner, CLOSE_PAREN)?;
        let (bracket, inner) = part;
        Ok(Prime::paren(bracket, inner))
    }

    /// A tuple literal.
    #[cycle(expr)]
    fn row(&mut self, alloc: Global) -> Result<Prime, Stop>
        requires { Tells phrases.prime 7 self.old }
        ensures reads { IfOk result (λ tree. Gives (phrase phrases.prime ∷ []) self.old (prime_outline tree) [] self.new) }
        ensures sticks { IsErrOf result Stop.Syntax → Sticks (phrase phrases.prime ∷ []) self.old self.new }
        ensures shorter { OnOk result (length self.new < length self.old) }
    {
        let bracket = self.keep(SQUARE)?;
        let bindings = self.bindings(alloc);
        let part = self.boxed_until(alloc, bracket, bindings, CLOSE_SQUARE)?;
        let (bracket, bindings) = part;
        Ok(Prime::row(bracket, bindings))
    }

    /// A delta literal.
    #[cycle(expr)]
    fn delta(&mut self, alloc: Global) -> Result<Prime, Stop>
        requires { Tells phrases.prime 8 self.old }
        ensures reads { IfOk result (λ tree. Gives (phrase phrases.prime ∷ []) self.old (prime_outline tree) [] self.new) }
        ensures sticks { IsErrOf result Stop.Syntax → Sticks (phrase phrases.prime ∷ []) self.old self.new }
        ensures shorter { OnOk result (length self.new < length self.old) }
    {
        let bracket = self.keep(BRACE)?;
        if !self.next_is(SIGNS) {
            let empty = self.ended_by(bracket, CLOSE_BRACE)?;
            return Ok(Prime::empty_delta(empty));
        }
        let atoms = self.atoms(alloc);
        let part = self.boxed_until(alloc, bracket, atoms, CLOSE_BRACE)?;
        let (bracket, atoms) = part;
        Ok(Prime::delta(bracket, atoms))
    }

    /// A relation literal.
    #[cycle(expr)]
    fn rows(&mut self, alloc: Global) -> Result<Prime, Stop>
        requires { Tells phrases.prime 9 self.old }
        ensures reads { IfOk result (λ tree. Gives (phrase phrases.prime ∷ []) self.old (prime_outline tree) [] self.new) }
        ensures sticks { IsErrOf result Stop.Syntax → Sticks (phrase phrases.prime ∷ []) self.old self.new }
        ensures shorter { OnOk result (length self.new < length self.old) }
    {
        let head = self.rows_head()?;
        if !self.next_is(PAREN) {
            let empty = self.ended_by(head, CLOSE_BRACE)?;
            let (((word, bracket), name), brace) = empty;
            return Ok(Prime::empty_rows(word, bracket, name, brace));
        }
        let lines = self.lines(alloc);
        let part = self.boxed_until(alloc, head, lines, CLOSE_BRACE)?;
        let ((((word, bracket), name), brace), lines) = part;
        Ok(Prime::rows(word, bracket, name, brace, lines))
    }

    /// A `select` or `map`.
    #[cycle(expr)]
    fn walk(&mut self, alloc: Global) -> Result<Prime, Stop>
        requires { Tells phrases.prime 10 self.old }
        ensures reads { IfOk result (λ tree. Gives (phrase phrases.prime ∷ []) self.old (prime_outline tree) [] self.new) }
        ensures sticks { IsErrOf result Stop.Syntax → Sticks (phrase phrases.prime ∷ []) self.old self.new }
        ensures shorter { OnOk result (length self.new < length self.old) }
    {
        let head = self.naming(WALK_WORDS, IN)?;
        let over = self.level(alloc, Level::Whens);
        let part = self.boxed_until(alloc, head, over, COLON)?;
        let body = self.level(alloc, Level::Whens);
        let part = self.boxed_until(alloc, part, body, CLOSE_PAREN)?;
        let ((((word, bracket), name), over), body) = part;
        Ok(Prime::walk(word, bracket, name, over, body))
    }

    /// A keyword, a bracket, an expression and the terminal that ends it.
    #[cycle(expr)]
    fn opened(
        &mut self,
        alloc: Global,
        words: &[Terminal],
        end: Terminal,
    ) -> Result<((Token, Token), Box<Expr>), Stop>
        ensures reads { IfOk result (λ part. Gives (keep words.now ∷ keep phrases.paren ∷ phrase phrases.expr ∷ leave end ∷ []) self.old (hold part.0.0 ++ hold part.0.1 ++ expr_outline part.1.value ++ skip end) [] self.new) }
        ensures sticks { IsErrOf result Stop.Syntax → Sticks (keep words.now ∷ keep phrases.paren ∷ phrase phrases.expr ∷ leave end ∷ []) self.old self.new }
        ensures shorter { OnOk result (length self.new < length self.old) }
    {
        let head = self.bracketed(words)?;
        let over = self.level(alloc, Level::Whens);
        self.boxed_until(alloc, head, over, end)
    }

    /// A projection.
    #[cycle(expr)]
    fn project(&mut self, alloc: Global) -> Result<Prime, Stop>
        requires { Tells phrases.prime 11 self.old }
        ensures reads { IfOk result (λ tree. Gives (phrase phrases.prime ∷ []) self.old (prime_outline tree) [] self.new) }
        ensures sticks { IsErrOf result Stop.Syntax → Sticks (phrase phrases.prime ∷ []) self.old self.new }
        ensures shorter { OnOk result (length self.new < length self.old) }
    {
        let part = self.opened(alloc, PROJECT, SEMICOLON)?;
        let names = self.names(alloc);
        let part = self.joined_until(part, names, CLOSE_PAREN)?;
        let (((word, bracket), over), names) = part;
        Ok(Prime::project(word, bracket, over, names))
    }

    /// A renaming.
    #[cycle(expr)]
    fn rename(&mut self, alloc: Global) -> Result<Prime, Stop>
        requires { Tells phrases.prime 12 self.old }
        ensures reads { IfOk result (λ tree. Gives (phrase phrases.prime ∷ []) self.old (prime_outline tree) [] self.new) }
        ensures sticks { IsErrOf result Stop.Syntax → Sticks (phrase phrases.prime ∷ []) self.old self.new }
        ensures shorter { OnOk result (length self.new < length self.old) }
    {
        let part = self.opened(alloc, RENAME, SEMICOLON)?;
        let renamings = self.renamings(alloc);
        let part = self.joined_until(part, renamings, CLOSE_PAREN)?;
        let (((word, bracket), over), renamings) = part;
        Ok(Prime::rename(word, bracket, over, renamings))
    }

    /// A `union`, `minus`, `inter` or `join`.
    #[cycle(expr)]
    fn pair(&mut self, alloc: Global) -> Result<Prime, Stop>
        requires { Tells phrases.prime 13 self.old }
        ensures reads { IfOk result (λ tree. Gives (phrase phrases.prime ∷ []) self.old (prime_outline tree) [] self.new) }
        ensures sticks { IsErrOf result Stop.Syntax → Sticks (phrase phrases.prime ∷ []) self.old self.new }
        ensures shorter { OnOk result (length self.new < length self.old) }
    {
        let part = self.opened(alloc, PAIR_WORDS, COMMA)?;
        let right = self.level(alloc, Level::Whens);
        let part = self.boxed_until(alloc, part, right, CLOSE_PAREN)?;
        let (((word, bracket), left), right) = part;
        Ok(Prime::pair(word, bracket, left, right))
    }

    /// A grouping.
    #[cycle(expr)]
    fn group(&mut self, alloc: Global) -> Result<Prime, Stop>
        requires { Tells phrases.prime 14 self.old }
        ensures reads { IfOk result (λ tree. Gives (phrase phrases.prime ∷ []) self.old (prime_outline tree) [] self.new) }
        ensures sticks { IsErrOf result Stop.Syntax → Sticks (phrase phrases.prime ∷ []) self.old self.new }
        ensures shorter { OnOk result (length self.new < length self.old) }
    {
        let part = self.opened(alloc, GROUP, SEMICOLON)?;
        let part = self.ended_by(part, BY)?;
        let names = self.names(alloc);
        let part = self.joined_until(part, names, SEMICOLON)?;
        let aggs = self.aggs(alloc);
        let part = self.joined_until(part, aggs, CLOSE_PAREN)?;
        let ((((word, bracket), over), names), aggs) = part;
        Ok(Prime::group(word, bracket, over, names, aggs))
    }

    /// A `count`, `empty` or `isfail`.
    #[cycle(expr)]
    fn measure(&mut self, alloc: Global) -> Result<Prime, Stop>
        requires { Tells phrases.prime 15 self.old }
        ensures reads { IfOk result (λ tree. Gives (phrase phrases.prime ∷ []) self.old (prime_outline tree) [] self.new) }
        ensures sticks { IsErrOf result Stop.Syntax → Sticks (phrase phrases.prime ∷ []) self.old self.new }
        ensures shorter { OnOk result (length self.new < length self.old) }
    {
        let part = self.opened(alloc, MEASURE_WORDS, CLOSE_PAREN)?;
        let ((word, bracket), over) = part;
        Ok(Prime::measure(word, bracket, over))
    }

    /// A `sum`, `min` or `max`.
    #[cycle(expr)]
    fn fold(&mut self, alloc: Global) -> Result<Prime, Stop>
        requires { Tells phrases.prime 16 self.old }
        ensures reads { IfOk result (λ tree. Gives (phrase phrases.prime ∷ []) self.old (prime_outline tree) [] self.new) }
        ensures sticks { IsErrOf result Stop.Syntax → Sticks (phrase phrases.prime ∷ []) self.old self.new }
        ensures shorter { OnOk result (length self.new < length self.old) }
    {
        let part = self.opened(alloc, FOLD_WORDS, COMMA)?;
        let part = self.kept_behind(part, NAME)?;
        let part = self.ended_by(part, CLOSE_PAREN)?;
        let (((word, bracket), over), name) = part;
        Ok(Prime::fold(word, bracket, over, name))
    }

    /// A `bulk`.
    #[cycle(expr)]
    fn bulk(&mut self, alloc: Global) -> Result<Prime, Stop>
        requires { Tells phrases.prime 17 self.old }
        ensures reads { IfOk result (λ tree. Gives (phrase phrases.prime ∷ []) self.old (prime_outline tree) [] self.new) }
        ensures sticks { IsErrOf result Stop.Syntax → Sticks (phrase phrases.prime ∷ []) self.old self.new }
        ensures shorter { OnOk result (length self.new < length self.old) }
    {
        let head = self.bulk_head()?;
        let over = self.level(alloc, Level::Whens);
        let part = self.boxed_until(alloc, head, over, CLOSE_PAREN)?;
        let ((((word, bracket), sign), name), over) = part;
        Ok(Prime::bulk(word, bracket, sign, name, over))
    }

    /// An `ins` or `del`.
    #[cycle(expr)]
    fn part(&mut self, alloc: Global) -> Result<Prime, Stop>
        requires { Tells phrases.prime 18 self.old }
        ensures reads { IfOk result (λ tree. Gives (phrase phrases.prime ∷ []) self.old (prime_outline tree) [] self.new) }
        ensures sticks { IsErrOf result Stop.Syntax → Sticks (phrase phrases.prime ∷ []) self.old self.new }
        ensures shorter { OnOk result (length self.new < length self.old) }
    {
        let head = self.naming(PART_WORDS, COMMA)?;
        let over = self.level(alloc, Level::Whens);
        let part = self.boxed_until(alloc, head, over, CLOSE_PAREN)?;
        let (((word, bracket), name), over) = part;
        Ok(Prime::part(word, bracket, name, over))
    }

    /// `name` or `name '(' args? ')'`
    #[cycle(expr)]
    fn name_or_call(&mut self, alloc: Global) -> Result<Prime, Stop>
        requires { Tells phrases.prime 5 self.old }
        ensures reads { IfOk result (λ tree. Gives (phrase phrases.prime ∷ []) self.old (prime_outline tree) [] self.new) }
        ensures sticks { IsErrOf result Stop.Syntax → Sticks (phrase phrases.prime ∷ []) self.old self.new }
        ensures shorter { OnOk result (length self.new < length self.old) }
    {
        let name = self.keep(NAME)?;
        if !self.next_is(PAREN) {
            return Ok(Prime::name(name));
        }
        let head = self.kept_behind(name, PAREN)?;
        if !self.next_is(EXPR_STARTS) {
            let empty = self.ended_by(head, CLOSE_PAREN)?;
            let (name, bracket) = empty;
            return Ok(Prime::empty_call(name, bracket));
        }
        let args = self.args(alloc);
        let part = self.boxed_until(alloc, head, args, CLOSE_PAREN)?;
        let ((name, bracket), args) = part;
        Ok(Prime::call(name, bracket, args))
    }

    /// An expression that no operator splits.
    #[cycle(expr)]
    fn prime(&mut self, alloc: Global) -> Result<Prime, Stop>
        ensures reads { IfOk result (λ tree. Gives (phrase phrases.prime ∷ []) self.old (prime_outline tree) [] self.new) }
        ensures sticks { IsErrOf result Stop.Syntax → Sticks (phrase phrases.prime ∷ []) self.old self.new }
        ensures shorter { OnOk result (length self.new < length self.old) }
    {
        match self.prime_form() {
            PrimeForm::Int => self.int(),
            PrimeForm::Text => self.text(),
            PrimeForm::True => self.true_word(),
            PrimeForm::False => self.false_word(),
            PrimeForm::Fail => self.fail_word(),
            PrimeForm::Name => self.name_or_call(alloc),
            PrimeForm::Paren => self.paren(alloc),
            PrimeForm::Row => self.row(alloc),
            PrimeForm::Delta => self.delta(alloc),
            PrimeForm::Rows => self.rows(alloc),
            PrimeForm::Walk => self.walk(alloc),
            PrimeForm::Project => self.project(alloc),
            PrimeForm::Rename => self.rename(alloc),
            PrimeForm::Pair => self.pair(alloc),
            PrimeForm::Group => self.group(alloc),
            PrimeForm::Measure => self.measure(alloc),
            PrimeForm::Fold => self.fold(alloc),
            PrimeForm::Bulk => self.bulk(alloc),
            PrimeForm::Part => self.part(alloc),
        }
    }

    /// `expr (',' expr)*`
    #[cycle(expr)]
    pub(crate) fn args(&mut self, alloc: Global) -> Result<ArgTrees, Stop>
        ensures reads { IfOk result (λ tree. Gives (phrase phrases.args ∷ []) self.old (args_outline tree) [] self.new) }
        ensures sticks { IsErrOf result Stop.Syntax → Sticks (phrase phrases.args ∷ []) self.old self.new }
        ensures shorter { OnOk result (length self.new < length self.old) }
    {
        let first = self.level(alloc, Level::Whens)?;
        let mut items = Items::new(alloc, first);
        'rest: while self.takes(COMMA) {
            let item = self.level(alloc, Level::Whens);
            items = items.with(item)?;
        }
        let Items { first, rest } = items;
        Ok(ArgTrees::new(first, rest))
    }

    /// `name '=' expr (',' name '=' expr)*`
    #[cycle(expr)]
    fn bindings(&mut self, alloc: Global) -> Result<Bindings, Stop>
        ensures reads { IfOk result (λ tree. Gives (phrase phrases.bindings ∷ []) self.old (bindings_outline tree) [] self.new) }
        ensures sticks { IsErrOf result Stop.Syntax → Sticks (phrase phrases.bindings ∷ []) self.old self.new }
        ensures shorter { OnOk result (length self.new < length self.old) }
    {
        let first = self.binding(alloc)?;
        let mut items = Items::new(alloc, first);
        'rest: while self.takes(COMMA) {
            let item = self.binding(alloc);
            items = items.with(item)?;
        }
        let Items { first, rest } = items;
        Ok(Bindings::new(first, rest))
    }

    /// `atom (',' atom)*`
    #[cycle(expr)]
    fn atoms(&mut self, alloc: Global) -> Result<Atoms, Stop>
        ensures reads { IfOk result (λ tree. Gives (phrase phrases.atoms ∷ []) self.old (atoms_outline tree) [] self.new) }
        ensures sticks { IsErrOf result Stop.Syntax → Sticks (phrase phrases.atoms ∷ []) self.old self.new }
        ensures shorter { OnOk result (length self.new < length self.old) }
    {
        let first = self.atom(alloc)?;
        let mut items = Items::new(alloc, first);
        'rest: while self.takes(COMMA) {
            let item = self.atom(alloc);
            items = items.with(item)?;
        }
        let Items { first, rest } = items;
        Ok(Atoms::new(first, rest))
    }

    /// `line (',' line)*`
    #[cycle(expr)]
    fn lines(&mut self, alloc: Global) -> Result<LineTrees, Stop>
        ensures reads { IfOk result (λ tree. Gives (phrase phrases.lines ∷ []) self.old (lines_outline tree) [] self.new) }
        ensures sticks { IsErrOf result Stop.Syntax → Sticks (phrase phrases.lines ∷ []) self.old self.new }
        ensures shorter { OnOk result (length self.new < length self.old) }
    {
        let first = self.line(alloc)?;
        let mut items = Items::new(alloc, first);
        'rest: while self.takes(COMMA) {
            let item = self.line(alloc);
            items = items.with(item)?;
        }
        let Items { first, rest } = items;
        Ok(LineTrees::new(first, rest))
    }

    /// `name '=' expr`
    #[cycle(expr)]
    fn binding(&mut self, alloc: Global) -> Result<Binding, Stop>
        ensures reads { IfOk result (λ tree. Gives (phrase phrases.binding ∷ []) self.old (binding_outline tree) [] self.new) }
        ensures sticks { IsErrOf result Stop.Syntax → Sticks (phrase phrases.binding ∷ []) self.old self.new }
        ensures shorter { OnOk result (length self.new < length self.old) }
    {
        let head = self.name_before(EQUALS)?;
        let value = self.level(alloc, Level::Whens);
        let part = joined(head, value)?;
        let (name, value) = part;
        Ok(Binding::new(name, value))
    }

    /// `('+' | '-') name '(' args ')'`
    #[cycle(expr)]
    fn atom(&mut self, alloc: Global) -> Result<Atom, Stop>
        ensures reads { IfOk result (λ tree. Gives (phrase phrases.atom ∷ []) self.old (atom_outline tree) [] self.new) }
        ensures sticks { IsErrOf result Stop.Syntax → Sticks (phrase phrases.atom ∷ []) self.old self.new }
        ensures shorter { OnOk result (length self.new < length self.old) }
    {
        let head = self.atom_head()?;
        let args = self.args(alloc);
        let part = self.joined_until(head, args, CLOSE_PAREN)?;
        let (((sign, name), bracket), args) = part;
        Ok(Atom::new(sign, name, bracket, args))
    }

    /// `'(' args ')'`
    #[cycle(expr)]
    fn line(&mut self, alloc: Global) -> Result<LineTree, Stop>
        ensures reads { IfOk result (λ tree. Gives (phrase phrases.line ∷ []) self.old (line_outline tree) [] self.new) }
        ensures sticks { IsErrOf result Stop.Syntax → Sticks (phrase phrases.line ∷ []) self.old self.new }
        ensures shorter { OnOk result (length self.new < length self.old) }
    {
        let bracket = self.keep(PAREN)?;
        let args = self.args(alloc);
        let part = self.joined_until(bracket, args, CLOSE_PAREN)?;
        let (bracket, args) = part;
        Ok(LineTree::new(bracket, args))
    }

    /// `args?`
    pub fn some_args(&mut self, alloc: Global) -> Result<Option<ArgTrees>, Stop>
        ensures reads { IfOk result (λ tree. Gives (phrase phrases.some_args ∷ []) self.old (some_args_outline tree) [] self.new) }
        ensures sticks { IsErrOf result Stop.Syntax → Sticks (phrase phrases.some_args ∷ []) self.old self.new }
        ensures no_longer { OnOk result (length self.new ≤ length self.old) }
    {
        if !self.next_is(EXPR_STARTS) {
            return Ok(None);
        }
        let inner = self.args(alloc)?;
        Ok(Some(inner))
    }
}
