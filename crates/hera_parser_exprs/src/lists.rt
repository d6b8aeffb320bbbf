//! Names, renamings and aggregates.

ghost use Rattle.std.specs.Prelude.{◌≡◌, ◌<◌, ◌≤◌, [], ◌∷◌, ◌++◌, length, IfOk, OnOk, IsErrOf};
ghost use Rattle.hera_syntax.specs.declared.words.Keyword.TheVariants as keys;
ghost use Rattle.hera_syntax.specs.Grammar.{keep, leave, phrase, word};
ghost use Rattle.hera_syntax.specs.Grammar as phrases;
ghost use Rattle.hera_syntax.specs.Outline.{agg_outline, aggs_outline, field_outline, hold, named_agg_outline, names_outline, renaming_outline, renamings_outline, skip};
ghost use Rattle.hera_parser_exprs.specs.Reading.{Gives, Sticks};

use crate::parser::{Items, Parser, Stop, joined};
use crate::terminals::{
    BRACE, BULK, CLOSE_PAREN, COMMA, COUNT, DOT, EQUALS, FOLD_WORDS, NAME, PAREN, ROWS, SIGNS,
};
use hera_syntax::{AggTree, NamedAgg, NamedAggs, Names, Renaming, Renamings, Terminal, Token};
use std::alloc::Global;

impl<'a> Parser<'a> {
    /// `name (',' name)*`
    pub(crate) fn names(&mut self, alloc: Global) -> Result<Names, Stop>
        ensures reads { IfOk result (λ tree. Gives (phrase phrases.names ∷ []) self.old (names_outline tree) [] self.new) }
        ensures sticks { IsErrOf result Stop.Syntax → Sticks (phrase phrases.names ∷ []) self.old self.new }
        ensures shorter { OnOk result (length self.new < length self.old) }
    {
        let first = self.keep(NAME)?;
        let mut items = Items::new(alloc, first);
        'rest: while self.takes(COMMA) {
            let item = self.keep(NAME);
            items = items.with(item)?;
        }
        let Items { first, rest } = items;
        Ok(Names::new(first, rest))
    }

    /// A keyword and a bracket.
    pub fn bracketed(&mut self, words: &[Terminal]) -> Result<(Token, Token), Stop>
        ensures reads { IfOk result (λ head. Gives (keep words.now ∷ keep phrases.paren ∷ []) self.old (hold head.0 ++ hold head.1) [] self.new) }
        ensures sticks { IsErrOf result Stop.Syntax → Sticks (keep words.now ∷ keep phrases.paren ∷ []) self.old self.new }
        ensures shorter { OnOk result (length self.new < length self.old) }
    {
        let word = self.keep(words)?;
        self.kept_behind(word, PAREN)
    }

    /// A name and the terminal that stands behind it.
    pub(crate) fn name_before(&mut self, end: Terminal) -> Result<Token, Stop>
        ensures reads { IfOk result (λ name. Gives (keep phrases.name ∷ leave end ∷ []) self.old (hold name ++ skip end) [] self.new) }
        ensures sticks { IsErrOf result Stop.Syntax → Sticks (keep phrases.name ∷ leave end ∷ []) self.old self.new }
        ensures shorter { OnOk result (length self.new < length self.old) }
    {
        let name = self.keep(NAME)?;
        self.ended_by(name, end)
    }

    /// A sign, a name and a bracket.
    pub(crate) fn atom_head(&mut self) -> Result<((Token, Token), Token), Stop>
        ensures reads { IfOk result (λ head. Gives (keep phrases.signs ∷ keep phrases.name ∷ keep phrases.paren ∷ []) self.old (hold head.0.0 ++ hold head.0.1 ++ hold head.1) [] self.new) }
        ensures sticks { IsErrOf result Stop.Syntax → Sticks (keep phrases.signs ∷ keep phrases.name ∷ keep phrases.paren ∷ []) self.old self.new }
        ensures shorter { OnOk result (length self.new < length self.old) }
    {
        let sign = self.keep(SIGNS)?;
        let head = self.kept_behind(sign, NAME)?;
        self.kept_behind(head, PAREN)
    }

    /// `'bulk' '(' ('+' | '-') name ','`
    pub(crate) fn bulk_head(&mut self) -> Result<(((Token, Token), Token), Token), Stop>
        ensures reads { IfOk result (λ head. Gives (keep (word keys.Bulk ∷ []) ∷ keep phrases.paren ∷ keep phrases.signs ∷ keep phrases.name ∷ leave phrases.comma ∷ []) self.old (hold head.0.0.0 ++ hold head.0.0.1 ++ hold head.0.1 ++ hold head.1 ++ skip phrases.comma) [] self.new) }
        ensures sticks { IsErrOf result Stop.Syntax → Sticks (keep (word keys.Bulk ∷ []) ∷ keep phrases.paren ∷ keep phrases.signs ∷ keep phrases.name ∷ leave phrases.comma ∷ []) self.old self.new }
        ensures shorter { OnOk result (length self.new < length self.old) }
    {
        let head = self.bracketed(BULK)?;
        let head = self.kept_behind(head, SIGNS)?;
        let head = self.kept_behind(head, NAME)?;
        self.ended_by(head, COMMA)
    }

    /// `'rows' '(' name ')' '{'`
    pub(crate) fn rows_head(&mut self) -> Result<(((Token, Token), Token), Token), Stop>
        ensures reads { IfOk result (λ head. Gives (keep (word keys.Rows ∷ []) ∷ keep phrases.paren ∷ keep phrases.name ∷ leave phrases.close_paren ∷ keep phrases.brace ∷ []) self.old (hold head.0.0.0 ++ hold head.0.0.1 ++ hold head.0.1 ++ skip phrases.close_paren ++ hold head.1) [] self.new) }
        ensures sticks { IsErrOf result Stop.Syntax → Sticks (keep (word keys.Rows ∷ []) ∷ keep phrases.paren ∷ keep phrases.name ∷ leave phrases.close_paren ∷ keep phrases.brace ∷ []) self.old self.new }
        ensures shorter { OnOk result (length self.new < length self.old) }
    {
        let named = self.naming(ROWS, CLOSE_PAREN)?;
        self.kept_behind(named, BRACE)
    }

    /// A keyword, a bracket, a name and the terminal that stands behind it.
    pub fn naming(
        &mut self,
        words: &[Terminal],
        end: Terminal,
    ) -> Result<((Token, Token), Token), Stop>
        ensures reads { IfOk result (λ head. Gives (keep words.now ∷ keep phrases.paren ∷ keep phrases.name ∷ leave end ∷ []) self.old (hold head.0.0 ++ hold head.0.1 ++ hold head.1 ++ skip end) [] self.new) }
        ensures sticks { IsErrOf result Stop.Syntax → Sticks (keep words.now ∷ keep phrases.paren ∷ keep phrases.name ∷ leave end ∷ []) self.old self.new }
        ensures shorter { OnOk result (length self.new < length self.old) }
    {
        let head = self.bracketed(words)?;
        let head = self.kept_behind(head, NAME)?;
        self.ended_by(head, end)
    }

    /// `name '=' name`
    fn renaming(&mut self) -> Result<Renaming, Stop>
        ensures reads { IfOk result (λ tree. Gives (phrase phrases.renaming ∷ []) self.old (renaming_outline tree) [] self.new) }
        ensures sticks { IsErrOf result Stop.Syntax → Sticks (phrase phrases.renaming ∷ []) self.old self.new }
        ensures shorter { OnOk result (length self.new < length self.old) }
    {
        let new = self.name_before(EQUALS)?;
        let old = self.keep(NAME);
        let both = joined(new, old)?;
        let (new, old) = both;
        Ok(Renaming::new(new, old))
    }

    /// `name '=' name (',' name '=' name)*`
    pub(crate) fn renamings(&mut self, alloc: Global) -> Result<Renamings, Stop>
        ensures reads { IfOk result (λ tree. Gives (phrase phrases.renamings ∷ []) self.old (renamings_outline tree) [] self.new) }
        ensures sticks { IsErrOf result Stop.Syntax → Sticks (phrase phrases.renamings ∷ []) self.old self.new }
        ensures shorter { OnOk result (length self.new < length self.old) }
    {
        let first = self.renaming()?;
        let mut items = Items::new(alloc, first);
        'rest: while self.takes(COMMA) {
            let item = self.renaming();
            items = items.with(item)?;
        }
        let Items { first, rest } = items;
        Ok(Renamings::new(first, rest))
    }

    /// `'count' | ('sum' | 'min' | 'max') '(' name ')'`
    fn agg(&mut self) -> Result<AggTree, Stop>
        ensures reads { IfOk result (λ tree. Gives (phrase phrases.agg ∷ []) self.old (agg_outline tree) [] self.new) }
        ensures sticks { IsErrOf result Stop.Syntax → Sticks (phrase phrases.agg ∷ []) self.old self.new }
        ensures shorter { OnOk result (length self.new < length self.old) }
    {
        if self.next_is(COUNT) {
            let count = self.keep(COUNT)?;
            return Ok(AggTree::count(count));
        }
        let head = self.naming(FOLD_WORDS, CLOSE_PAREN)?;
        let ((word, bracket), name) = head;
        Ok(AggTree::of(word, bracket, name))
    }

    /// `name '=' agg`
    fn named_agg(&mut self) -> Result<NamedAgg, Stop>
        ensures reads { IfOk result (λ tree. Gives (phrase phrases.named_agg ∷ []) self.old (named_agg_outline tree) [] self.new) }
        ensures sticks { IsErrOf result Stop.Syntax → Sticks (phrase phrases.named_agg ∷ []) self.old self.new }
        ensures shorter { OnOk result (length self.new < length self.old) }
    {
        let head = self.name_before(EQUALS)?;
        let agg = self.agg();
        let both = joined(head, agg)?;
        let (name, agg) = both;
        Ok(NamedAgg::new(name, agg))
    }

    /// `name '=' agg (',' name '=' agg)*`
    pub(crate) fn aggs(&mut self, alloc: Global) -> Result<NamedAggs, Stop>
        ensures reads { IfOk result (λ tree. Gives (phrase phrases.aggs ∷ []) self.old (aggs_outline tree) [] self.new) }
        ensures sticks { IsErrOf result Stop.Syntax → Sticks (phrase phrases.aggs ∷ []) self.old self.new }
        ensures shorter { OnOk result (length self.new < length self.old) }
    {
        let first = self.named_agg()?;
        let mut items = Items::new(alloc, first);
        'rest: while self.takes(COMMA) {
            let item = self.named_agg();
            items = items.with(item)?;
        }
        let Items { first, rest } = items;
        Ok(NamedAggs::new(first, rest))
    }

    /// `('.' name)?`, beside the part that stands before it, in a box.
    pub(crate) fn field_behind<T: Drop>(
        &mut self,
        alloc: Global,
        part: T,
    ) -> Result<(Box<T>, Option<Token>), Stop>
        ensures same { IfOk result (λ both. both.0.value ≡ part) }
        ensures reads { IfOk result (λ both. Gives (phrase phrases.field ∷ []) self.old (field_outline both.1) [] self.new) }
        ensures sticks { IsErrOf result Stop.Syntax → Sticks (phrase phrases.field ∷ []) self.old self.new }
        ensures no_longer { OnOk result (length self.new ≤ length self.old) }
    {
        let given = Box::new(alloc, part)?;
        if !self.next_is(&[DOT]) {
            return Ok((given, None));
        }
        self.skip(DOT)?;
        let name = self.keep(NAME)?;
        Ok((given, Some(name)))
    }
}
