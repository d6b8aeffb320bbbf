ghost use Rattle.std.specs.Prelude.{◌≡◌, ◌≤◌, ◌<◌, [], ◌∷◌, ◌++◌, length, List, drop, true, false, IfOk, OnOk, IsErrOf, Ok};
ghost use Rattle.hera_syntax.specs.Grammar.{keep, leave};
ghost use Rattle.hera_syntax.specs.Outline.{hold, skip};
ghost use Rattle.hera_syntax.specs.declared.token.Token.{Token};
ghost use Rattle.hera_parser_exprs.specs.Reading.{stands, next_terminal, Gives, Sticks};
ghost use Rattle.hera_parser_exprs.specs.Parts.{Grown, StopsInOrAt};

use hera_syntax::{Terminal, Token};
use std::alloc::{AllocError, AllocFailed, Global};
use std::marker::Model;

/// Why the reading stops.
#[derive(Debug, Drop)]
pub enum Stop {
    /// The next token cannot stand here.
    Syntax,
    /// No memory for the tree.
    Memory,
}

impl From<AllocError> for Stop {
    ghost from_gives = { λ _ e. e ≡ Memory };

    ghost use Rattle.hera_parser_exprs.specs.declared.parser.Stop.TheVariants.{Memory};

    fn from(_: AllocError) -> Stop {
        Stop::Memory
    }
}

impl<T: Drop> From<AllocFailed<T>> for Stop {
    ghost from_gives = { λ _ e. e ≡ Memory };

    ghost use Rattle.hera_parser_exprs.specs.declared.parser.Stop.TheVariants.{Memory};

    fn from(_: AllocFailed<T>) -> Stop {
        Stop::Memory
    }
}

/// Reads tokens from the left. A clause sees the tokens that are left.
#[derive(Drop)]
pub struct Parser<'a> {
    tokens: &'a [Token],
    at: usize,
}

/// What is read of a list: its first item, and those behind it.
#[derive(Drop)]
pub struct Items<A, T> {
    /// The first item.
    pub first: A,
    /// Those behind it, in order.
    pub rest: Vec<T>,
}

impl<A: Drop, T: Drop> Items<A, T> {
    /// The first item alone.
    pub fn new(alloc: Global, first: A) -> Items<A, T>
        ensures first { result.first ≡ first }
        ensures alone { result.rest.items ≡ [] }
    {
        Items {
            first,
            rest: Vec::new(alloc),
        }
    }

    /// With what was read as one item more. The error is that of the reading, or want of memory.
    pub fn with(self, read: Result<T, Stop>) -> Result<Items<A, T>, Stop>
        ensures first { IfOk result (λ items. items.first ≡ self.first) }
        ensures one_more { IfOk result (λ items. Grown read self.rest.items items.rest.items) }
        ensures stops { IsErrOf result Stop.Syntax → IsErrOf read Stop.Syntax }
    {
        let item = read?;
        let Items { first, mut rest } = self;
        rest.push(item)?;
        Ok(Items { first, rest })
    }
}

/// A list with what was read as one item more. The error is that of the reading, or want of memory.
pub fn pushed<T: Drop>(list: Vec<T>, read: Result<T, Stop>) -> Result<Vec<T>, Stop>
    ensures one_more { IfOk result (λ longer. Grown read list.items longer.items) }
    ensures stops { IsErrOf result Stop.Syntax → IsErrOf read Stop.Syntax }
{
    let item = read?;
    let mut longer = list;
    longer.push(item)?;
    Ok(longer)
}

/// The part that stands before, beside what was read behind it. The error is that of the reading.
pub fn joined<A: Drop, T: Drop>(before: A, read: Result<T, Stop>) -> Result<(A, T), Stop>
    ensures same { IfOk result (λ both. both.0 ≡ before) }
    ensures read { IfOk result (λ both. read ≡ Ok both.1) }
    ensures stops { IsErrOf result Stop.Syntax → IsErrOf read Stop.Syntax }
{
    let part = read?;
    Ok((before, part))
}

impl<'a> Model for Parser<'a> {
    ghost Value = { List Token };

    ghost view = { λ p. drop p.at p.tokens.now };

    ghost invariant = { λ p. p.at ≤ length p.tokens.now };
}

impl<'a> Parser<'a> {
    /// At the first token.
    pub fn new(tokens: &'a [Token]) -> Parser<'a>
        ensures { result ≡ tokens.now }
    {
        Parser { tokens, at: 0 }
    }

    /// How many tokens are left.
    pub fn left(&self) -> usize
        ensures { result ≡ length self.now }
    {
        self.tokens.len() - self.at
    }

    /// Whether the next token is one of these.
    pub fn next_is(&self, terminals: &[Terminal]) -> bool
        ensures { result ≡ stands terminals.now (next_terminal self.now) }
    {
        if self.at < self.tokens.len() {
            return self.tokens[self.at].kind.terminal().is_one_of(terminals);
        }
        false
    }

    /// Takes the next token, which has to be one of these.
    fn expect(&mut self, terminals: &[Terminal]) -> Result<&'a Token, Stop>
        ensures reads { IfOk result (λ t. Gives (keep terminals.now ∷ []) self.old (hold t.now) [] self.new) }
        ensures sticks { IsErrOf result Stop.Syntax → Sticks (keep terminals.now ∷ []) self.old self.new }
        ensures shorter { OnOk result (length self.new < length self.old) }
    {
        if !self.next_is(terminals) {
            return Err(Stop::Syntax);
        }
        let token = &self.tokens[self.at];
        self.at += 1;
        Ok(token)
    }

    /// A copy of the next token, which has to be one of these and is taken.
    pub fn keep(&mut self, terminals: &[Terminal]) -> Result<Token, Stop>
        ensures reads { IfOk result (λ t. Gives (keep terminals.now ∷ []) self.old (hold t) [] self.new) }
        ensures sticks { IsErrOf result Stop.Syntax → Sticks (keep terminals.now ∷ []) self.old self.new }
        ensures shorter { OnOk result (length self.new < length self.old) }
    {
        let token = self.expect(terminals)?;
        Ok(token.copy()?)
    }

    /// Passes over the next token, which has to be this one.
    pub fn skip(&mut self, terminal: Terminal) -> Result<(), Stop>
        ensures reads { OnOk result (Gives (leave terminal ∷ []) self.old (skip terminal) [] self.new) }
        ensures sticks { IsErrOf result Stop.Syntax → Sticks (leave terminal ∷ []) self.old self.new }
        ensures shorter { OnOk result (length self.new < length self.old) }
    {
        if !self.next_is(&[terminal]) {
            return Err(Stop::Syntax);
        }
        self.at += 1;
        Ok(())
    }

    /// Passes over the next token if it is this one, and tells whether it was.
    pub fn takes(&mut self, terminal: Terminal) -> bool
        ensures told { result ≡ stands (terminal ∷ []) (next_terminal self.old) }
        ensures reads { result ≡ true → Gives (leave terminal ∷ []) self.old (skip terminal) [] self.new }
        ensures shorter { result ≡ true → length self.new < length self.old }
        ensures stays { result ≡ false → self.new ≡ self.old }
    {
        if !self.next_is(&[terminal]) {
            return false;
        }
        self.at += 1;
        true
    }

    /// Passes over the next token, which has to be this one, and hands back the part that it ends.
    pub fn ended_by<T: Drop>(&mut self, part: T, terminal: Terminal) -> Result<T, Stop>
        ensures same { IfOk result (λ given. given ≡ part) }
        ensures reads { OnOk result (Gives (leave terminal ∷ []) self.old (skip terminal) [] self.new) }
        ensures sticks { IsErrOf result Stop.Syntax → Sticks (leave terminal ∷ []) self.old self.new }
        ensures shorter { OnOk result (length self.new < length self.old) }
    {
        self.skip(terminal)?;
        Ok(part)
    }

    /// The part that stands before, beside what was read behind it, once the terminal that has to end
    /// them is passed over.
    pub fn joined_until<A: Drop, T: Drop>(
        &mut self,
        before: A,
        read: Result<T, Stop>,
        end: Terminal,
    ) -> Result<(A, T), Stop>
        ensures same { IfOk result (λ both. both.0 ≡ before) }
        ensures read { IfOk result (λ both. read ≡ Ok both.1) }
        ensures reads { OnOk result (Gives (leave end ∷ []) self.old (skip end) [] self.new) }
        ensures sticks { IsErrOf result Stop.Syntax → StopsInOrAt read Stop.Syntax end self.old self.new }
        ensures shorter { OnOk result (length self.new < length self.old) }
    {
        let part = read?;
        self.skip(end)?;
        Ok((before, part))
    }

    /// The part that stands before, beside what was read behind it in a box, once the terminal that
    /// has to end them is passed over.
    pub(crate) fn boxed_until<A: Drop, T: Drop>(
        &mut self,
        alloc: Global,
        before: A,
        read: Result<T, Stop>,
        end: Terminal,
    ) -> Result<(A, Box<T>), Stop>
        ensures same { IfOk result (λ both. both.0 ≡ before) }
        ensures read { IfOk result (λ both. read ≡ Ok both.1.value) }
        ensures reads { OnOk result (Gives (leave end ∷ []) self.old (skip end) [] self.new) }
        ensures sticks { IsErrOf result Stop.Syntax → StopsInOrAt read Stop.Syntax end self.old self.new }
        ensures shorter { OnOk result (length self.new < length self.old) }
    {
        let part = read?;
        let given = Box::new(alloc, part)?;
        self.skip(end)?;
        Ok((before, given))
    }

    /// A copy of the next token, which has to be one of these and is taken, beside the part that stands
    /// before it.
    pub fn kept_behind<T: Drop>(
        &mut self,
        part: T,
        terminals: &[Terminal],
    ) -> Result<(T, Token), Stop>
        ensures same { IfOk result (λ both. both.0 ≡ part) }
        ensures reads { IfOk result (λ both. Gives (keep terminals.now ∷ []) self.old (hold both.1) [] self.new) }
        ensures sticks { IsErrOf result Stop.Syntax → Sticks (keep terminals.now ∷ []) self.old self.new }
        ensures shorter { OnOk result (length self.new < length self.old) }
    {
        let token = self.keep(terminals)?;
        Ok((part, token))
    }
}
