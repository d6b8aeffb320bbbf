//! The forms of an expression that no operator splits, and literals.

ghost use Rattle.std.specs.Prelude.{◌<◌, [], ◌∷◌, length, take, IfOk, OnOk, IsErrOf};
ghost use Rattle.hera_syntax.specs.Grammar.{alternatives, phrase};
ghost use Rattle.hera_syntax.specs.Grammar as phrases;
ghost use Rattle.hera_syntax.specs.Outline.{prime_outline};
ghost use Rattle.hera_parser_exprs.specs.Numbers.{prime_number};
ghost use Rattle.hera_parser_exprs.specs.Reading.{BeginsNone, Tells, Gives, Sticks};

use crate::parser::{Parser, Stop};
use crate::terminals::{
    BRACE, BULK, FAIL, FALSE, FOLD_WORDS, GROUP, INT, MEASURE_WORDS, NAME, PAIR_WORDS, PAREN,
    PROJECT, RENAME, ROWS, SQUARE, TEXT, TRUE, WALK_WORDS,
};
use hera_syntax::Prime;

/// The form of an expression that no operator splits.
#[derive(Clone, Copy)]
pub enum PrimeForm {
    /// An int literal.
    Int,
    /// A text literal.
    Text,
    /// `true`
    True,
    /// `false`
    False,
    /// `fail`
    Fail,
    /// A name or a call.
    Name,
    /// An expression in brackets.
    Paren,
    /// A tuple literal.
    Row,
    /// A delta literal.
    Delta,
    /// A relation literal.
    Rows,
    /// A `select` or `map`.
    Walk,
    /// A projection.
    Project,
    /// A renaming.
    Rename,
    /// A `union`, `minus`, `inter` or `join`.
    Pair,
    /// A grouping.
    Group,
    /// A `count`, `empty` or `isfail`.
    Measure,
    /// A `sum`, `min` or `max`.
    Fold,
    /// A `bulk`.
    Bulk,
    /// An `ins` or `del`.
    Part,
}

impl<'a> Parser<'a> {
    /// The form that the next token tells. It is the last one where the token begins none.
    pub(crate) fn prime_form(&self) -> PrimeForm
        ensures { Tells phrases.prime (prime_number result) self.now }
    {
        if self.next_is(INT) {
            return PrimeForm::Int;
        }
        if self.next_is(TEXT) {
            return PrimeForm::Text;
        }
        if self.next_is(TRUE) {
            return PrimeForm::True;
        }
        if self.next_is(FALSE) {
            return PrimeForm::False;
        }
        if self.next_is(FAIL) {
            return PrimeForm::Fail;
        }
        if self.next_is(NAME) {
            return PrimeForm::Name;
        }
        if self.next_is(PAREN) {
            return PrimeForm::Paren;
        }
        if self.next_is(SQUARE) {
            return PrimeForm::Row;
        }
        if self.next_is(BRACE) {
            return PrimeForm::Delta;
        }
        self.keyword_form()
    }

    /// The form that the next token tells, where it is none of the first nine.
    fn keyword_form(&self) -> PrimeForm
        requires { BeginsNone (take 9 (alternatives phrases.prime)) self.now }
        ensures { Tells phrases.prime (prime_number result) self.now }
    {
        if self.next_is(ROWS) {
            return PrimeForm::Rows;
        }
        if self.next_is(WALK_WORDS) {
            return PrimeForm::Walk;
        }
        if self.next_is(PROJECT) {
            return PrimeForm::Project;
        }
        if self.next_is(RENAME) {
            return PrimeForm::Rename;
        }
        if self.next_is(PAIR_WORDS) {
            return PrimeForm::Pair;
        }
        if self.next_is(GROUP) {
            return PrimeForm::Group;
        }
        if self.next_is(MEASURE_WORDS) {
            return PrimeForm::Measure;
        }
        if self.next_is(FOLD_WORDS) {
            return PrimeForm::Fold;
        }
        if self.next_is(BULK) {
            return PrimeForm::Bulk;
        }
        PrimeForm::Part
    }

    /// An int literal.
    pub(crate) fn int(&mut self) -> Result<Prime, Stop>
        requires { Tells phrases.prime 0 self.old }
        ensures reads { IfOk result (λ tree. Gives (phrase phrases.prime ∷ []) self.old (prime_outline tree) [] self.new) }
        ensures sticks { IsErrOf result Stop.Syntax → Sticks (phrase phrases.prime ∷ []) self.old self.new }
        ensures shorter { OnOk result (length self.new < length self.old) }
    {
        let token = self.keep(INT)?;
        Ok(Prime::int(token))
    }

    /// A text literal.
    pub(crate) fn text(&mut self) -> Result<Prime, Stop>
        requires { Tells phrases.prime 1 self.old }
        ensures reads { IfOk result (λ tree. Gives (phrase phrases.prime ∷ []) self.old (prime_outline tree) [] self.new) }
        ensures sticks { IsErrOf result Stop.Syntax → Sticks (phrase phrases.prime ∷ []) self.old self.new }
        ensures shorter { OnOk result (length self.new < length self.old) }
    {
        let token = self.keep(TEXT)?;
        Ok(Prime::text(token))
    }

    /// `true`
    pub(crate) fn true_word(&mut self) -> Result<Prime, Stop>
        requires { Tells phrases.prime 2 self.old }
        ensures reads { IfOk result (λ tree. Gives (phrase phrases.prime ∷ []) self.old (prime_outline tree) [] self.new) }
        ensures sticks { IsErrOf result Stop.Syntax → Sticks (phrase phrases.prime ∷ []) self.old self.new }
        ensures shorter { OnOk result (length self.new < length self.old) }
    {
        let token = self.keep(TRUE)?;
        Ok(Prime::true_word(token))
    }

    /// `false`
    pub(crate) fn false_word(&mut self) -> Result<Prime, Stop>
        requires { Tells phrases.prime 3 self.old }
        ensures reads { IfOk result (λ tree. Gives (phrase phrases.prime ∷ []) self.old (prime_outline tree) [] self.new) }
        ensures sticks { IsErrOf result Stop.Syntax → Sticks (phrase phrases.prime ∷ []) self.old self.new }
        ensures shorter { OnOk result (length self.new < length self.old) }
    {
        let token = self.keep(FALSE)?;
        Ok(Prime::false_word(token))
    }

    /// `fail`
    pub(crate) fn fail_word(&mut self) -> Result<Prime, Stop>
        requires { Tells phrases.prime 4 self.old }
        ensures reads { IfOk result (λ tree. Gives (phrase phrases.prime ∷ []) self.old (prime_outline tree) [] self.new) }
        ensures sticks { IsErrOf result Stop.Syntax → Sticks (phrase phrases.prime ∷ []) self.old self.new }
        ensures shorter { OnOk result (length self.new < length self.old) }
    {
        let token = self.keep(FAIL)?;
        Ok(Prime::fail_word(token))
    }
}
