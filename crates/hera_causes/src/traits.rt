ghost use Rattle.std.specs.Prelude.{ℕ, ◌+◌, List, Option, MatchResult, drop};
ghost use Rattle.std.specs.Io.{ReadsAtMost};
ghost use Rattle.std.specs.Io.KnownBytes.{ReadConsumes, WriteAppends};
ghost use Rattle.hera_causes.specs.Causes.{HasCause, TakesSome};

use crate::Failed;

/// Where bytes come from.
pub trait Source {
    /// The bytes still to come, where that is told. A source over a real file tells nothing.
    ghost left: { Self → Option (List ℕ) };

    /// How often a read has failed, a count that never falls.
    ghost faults: { Self → ℕ };

    /// Reads some bytes to the front of `buf` and gives their number. They are the first that were left, and are then
    /// gone. For a nonempty buffer the number is 0 exactly at the end. It is `Failed` only where the count of faults
    /// rose in this call (or stands at the last value of a `u64`), and then nothing that was left is gone. After an `Ok`
    /// the count is as it was.
    fn read(&mut self, buf: &mut [u8]) -> Result<usize, Failed>
        ensures bound { ReadsAtMost result buf.new }
        ensures bytes { ReadConsumes (left self.old) (left self.new) result buf.new }
        ensures cause { HasCause (faults self.old) (faults self.new) result };
}

/// Where bytes go.
pub trait Output {
    /// The bytes so far, where that is told. A real output tells nothing.
    ghost emitted: { Self → Option (List ℕ) };

    /// How often an emission has failed, a count that never falls.
    ghost output_faults: { Self → ℕ };

    /// From the first moment to the second, this many bytes of the piece were emitted. What else that says of the two
    /// moments is up to the implementation.
    ghost passed: { Self → Self → List ℕ → ℕ → Type 0 };

    /// Appends the first bytes of the piece and gives their number: at least one, where the piece has any. It is
    /// `Failed` only where the count of faults rose in this call (or stands at the last value of a `u64`), and then
    /// nothing was appended. After an `Ok` the count is as it was.
    fn emit(&mut self, bytes: &[u8]) -> Result<usize, Failed>
        ensures bound { TakesSome result bytes.now }
        ensures bytes { WriteAppends (emitted self.old) (emitted self.new) result bytes.now }
        ensures moments { MatchResult result (λ n. passed self.old self.new bytes.now n) (λ _. passed self.old self.new bytes.now 0) }
        ensures cause { HasCause (output_faults self.old) (output_faults self.new) result };

    /// A moment is followed by itself, with none of the piece emitted.
    ghost passed_none: { (a : Self) (piece : List ℕ) → passed a a piece 0 };

    /// The rest of a piece follows its first bytes.
    ghost passed_on: { (a b c : Self) (piece : List ℕ) (n m : ℕ) → passed a b piece n → passed b c (drop n piece) m → passed a c piece (n + m) };
}
