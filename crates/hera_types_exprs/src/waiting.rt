//! What waits for the phrases behind it.

ghost use Rattle.std.specs.Prelude.{◌≡◌};

use hera_rules::Typed;

/// A typed phrase that waits for the phrases behind it.
pub struct Waiting {
    pub typed: Typed,
}

impl Drop for Waiting {
    fn drop(self) {
        let Waiting { typed } = self;
        drop(typed);
    }
}

impl Waiting {
    /// The phrase.
    pub fn into_typed(self) -> Typed
        ensures { result ≡ self.typed }
    {
        let Waiting { typed } = self;
        typed
    }
}
