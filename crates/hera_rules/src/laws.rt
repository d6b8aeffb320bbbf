//! The laws of typing.

ghost use Rattle.hera_rules.specs.Exactness.{PhrasesAreDecided, ScriptsAreDecided};

/// Each phrase, and each script, is typed in one way, or has one first fault, and never both.
pub fn typing_is_exact()
    ensures phrases { PhrasesAreDecided }
    ensures scripts { ScriptsAreDecided }
{}
