use crate::Token;
use std::marker::Model;

/// The most bytes of a script, and so the most tokens.
pub const SCRIPT_LIMIT: usize = 1_048_576;

/// The most brackets that are open at once.
pub const DEPTH_LIMIT: u32 = 64;

/// The tokens of a script, and the script's length in bytes. There are at most [`SCRIPT_LIMIT`] of them, their
/// offsets ascend, at most [`DEPTH_LIMIT`] brackets are open at once, names have an identifier's shape, ints are in
/// range and texts are texts.
#[derive(Drop)]
pub struct Tokens {
    items: Vec<Token>,
    script: usize,
}

impl Model for Tokens {
    ghost use Rattle.std.specs.Prelude.{List, ℕ};
    ghost use Rattle.hera_syntax.specs.declared.token.Token.{Token};
    ghost use Rattle.hera_syntax.specs.Tokens.{AreTokens};

    ghost Value = { List Token × ℕ };

    ghost view = { λ t. (t.items.items, t.script) };

    ghost invariant = { λ t. AreTokens t.items.items };
}

impl Tokens {
    ghost use Rattle.std.specs.Prelude.{◌≡◌};
    ghost use Rattle.hera_syntax.specs.Tokens.{AreTokens};

    /// The tokens of a script of `script` bytes.
    pub fn new(items: Vec<Token>, script: usize) -> Tokens
        requires { AreTokens items.items }
        ensures { result ≡ (items.items, script) }
    {
        Tokens { items, script }
    }

    /// The tokens in their order.
    pub fn items(&self) -> &[Token]
        ensures items { result.now ≡ self.now.0 }
        ensures keeps { AreTokens self.now.0 }
    {
        self.items.as_slice()
    }

    /// The script's length in bytes.
    pub fn script_len(&self) -> usize
        ensures { result ≡ self.now.1 }
    {
        self.script
    }
}
