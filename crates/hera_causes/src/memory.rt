//! Sources and outputs in memory. Some follow a list of pieces, and the quiet ones never fail.
use crate::piece::allowed;
use crate::stock::Stock;
use crate::{Failed, Output, Piece, Pieces, Source};
use std::alloc::Global;

/// A source over bytes in memory, whose k-th read follows the k-th piece of a list. Behind the list each read gives
/// all that it can. Its count of faults rises by one with each failed read and stays at the last value of a `u64`.
#[derive(Drop)]
pub struct MemSource {
    left: Stock,
    pieces: Pieces,
    faults: u64,
}

/// A source over bytes in memory that never fails: its count of faults is 0 for ever.
#[derive(Drop)]
pub struct QuietSource {
    left: Stock,
}

/// An output that keeps the bytes it took, and whose k-th emission follows the k-th piece of a list. Behind the list
/// each emission takes all. Where it finds no memory to keep the bytes, the emission fails, and `starved`, a count
/// beside that of all failures, rises too.
#[derive(Drop)]
pub struct MemOutput {
    bytes: Vec<u8>,
    pieces: Pieces,
    faults: u64,
    starved: u64,
}

/// An output that takes all bytes, keeps and tells none, and never fails: its count of faults is 0 for ever.
#[derive(Drop)]
pub struct QuietOutput;

impl MemSource {
    ghost use Rattle.std.specs.Prelude.{◌≡◌};
    ghost use Rattle.hera_causes.specs.Memory.{source_left, source_pieces, source_faults};

    /// A source of these bytes that follows these pieces. Nothing has failed yet.
    pub fn new(bytes: Vec<u8>, pieces: Vec<Piece>) -> Self
        ensures left { source_left result ≡ bytes.items }
        ensures pieces { source_pieces result ≡ pieces.items }
        ensures faults { source_faults result ≡ 0 }
    {
        MemSource {
            left: Stock::new(bytes),
            pieces: Pieces::new(pieces),
            faults: 0,
        }
    }
}

impl Source for MemSource {
    ghost use Rattle.std.specs.Prelude.{◌≡◌, Some, Ok, IsErr, MatchOption, min, length};
    ghost use Rattle.std.specs.Io.{ReadsAtMost};
    ghost use Rattle.std.specs.Io.KnownBytes.{ReadConsumes};
    ghost use Rattle.hera_causes.specs.Causes.{HasCause};
    ghost use Rattle.hera_causes.specs.Pieces.{next_piece, later_pieces, allowed_of};
    ghost use Rattle.hera_causes.specs.Memory.{source_left, source_pieces, source_faults};

    ghost left = { λ s. Some (source_left s) };

    ghost faults = { source_faults };

    fn read(&mut self, buf: &mut [u8]) -> Result<usize, Failed>
        ensures bound { ReadsAtMost result buf.new }
        ensures bytes { ReadConsumes (Some (source_left self.old)) (Some (source_left self.new)) result buf.new }
        ensures cause { HasCause (source_faults self.old) (source_faults self.new) result }

        // It follows its piece.
        ensures follows { MatchOption (allowed_of (next_piece (source_pieces self.old)) (min (length buf.old) (length (source_left self.old))))
            (IsErr result) (λ n. result ≡ Ok n) }
        ensures pieces { source_pieces self.new ≡ later_pieces (source_pieces self.old) }
    {
        match allowed(self.pieces.take_next(), buf.len().min(self.left.len())) {
            Some(n) => {
                self.left.give(buf, n);
                Ok(n)
            }
            None => {
                self.faults = self.faults.saturating_add(1);
                Err(Failed)
            }
        }
    }
}

impl QuietSource {
    ghost use Rattle.std.specs.Prelude.{◌≡◌};
    ghost use Rattle.hera_causes.specs.Memory.{quiet_left};

    /// A source of these bytes.
    pub fn new(bytes: Vec<u8>) -> Self
        ensures { quiet_left result ≡ bytes.items }
    {
        QuietSource {
            left: Stock::new(bytes),
        }
    }
}

impl Source for QuietSource {
    ghost use Rattle.std.specs.Prelude.{◌≡◌, Some, Ok, min, length};
    ghost use Rattle.std.specs.Io.{ReadsAtMost};
    ghost use Rattle.std.specs.Io.KnownBytes.{ReadConsumes};
    ghost use Rattle.hera_causes.specs.Causes.{HasCause};
    ghost use Rattle.hera_causes.specs.Memory.{quiet_left};

    ghost left = { λ s. Some (quiet_left s) };

    ghost faults = { λ _. 0 };

    fn read(&mut self, buf: &mut [u8]) -> Result<usize, Failed>
        ensures bound { ReadsAtMost result buf.new }
        ensures bytes { ReadConsumes (Some (quiet_left self.old)) (Some (quiet_left self.new)) result buf.new }
        ensures cause { HasCause 0 0 result }

        // It gives all that it can.
        ensures gives { result ≡ Ok (min (length buf.old) (length (quiet_left self.old))) }
    {
        let n = buf.len().min(self.left.len());
        self.left.give(buf, n);
        Ok(n)
    }
}

impl MemOutput {
    ghost use Rattle.std.specs.Prelude.{◌≡◌, []};
    ghost use Rattle.hera_causes.specs.Memory.{output_bytes, output_pieces, output_faults_of, output_starved};

    /// An output that took nothing yet and follows these pieces.
    pub fn new(alloc: Global, pieces: Vec<Piece>) -> Self
        ensures bytes { output_bytes result ≡ [] }
        ensures pieces { output_pieces result ≡ pieces.items }
        ensures faults { output_faults_of result ≡ 0 }
        ensures starved { output_starved result ≡ 0 }
    {
        MemOutput {
            bytes: Vec::new(alloc),
            pieces: Pieces::new(pieces),
            faults: 0,
            starved: 0,
        }
    }

    /// The bytes that it took so far, in order.
    pub fn bytes(&self) -> &[u8]
        ensures { result.now ≡ output_bytes self.now }
    {
        &self.bytes
    }
}

impl Output for MemOutput {
    ghost use Rattle.std.specs.Prelude.{◌≡◌, ◌≤◌, ◌++◌, ◌⊎◌, Some, Ok, IsErr, OnErr, MatchOption, MatchResult, take, length};
    ghost use Rattle.std.specs.Io.KnownBytes.{WriteAppends};
    ghost use Rattle.hera_causes.specs.Causes.{HasCause, TakesSome, Rose};
    ghost use Rattle.hera_causes.specs.Pieces.{next_piece, later_pieces, allowed_of};
    ghost use Rattle.hera_causes.specs.Memory.{output_bytes, output_pieces, output_faults_of, output_starved, GrewBy, GrewBy-none, GrewBy-on};

    ghost emitted = { λ o. Some (output_bytes o) };

    ghost output_faults = { output_faults_of };

    ghost passed = { GrewBy };

    ghost passed_none = { GrewBy-none };

    ghost passed_on = { GrewBy-on };

    fn emit(&mut self, bytes: &[u8]) -> Result<usize, Failed>
        ensures bound { TakesSome result bytes.now }
        ensures bytes { WriteAppends (Some (output_bytes self.old)) (Some (output_bytes self.new)) result bytes.now }
        ensures moments { MatchResult result (λ n. GrewBy self.old self.new bytes.now n) (λ _. GrewBy self.old self.new bytes.now 0) }
        ensures cause { HasCause (output_faults_of self.old) (output_faults_of self.new) result }

        // It follows its piece, or finds no memory.
        ensures follows { MatchOption (allowed_of (next_piece (output_pieces self.old)) (length bytes.now))
            (IsErr result) (λ n. (result ≡ Ok n) ⊎ (IsErr result × Rose (output_starved self.old) (output_starved self.new))) }
        ensures pieces { output_pieces self.new ≡ later_pieces (output_pieces self.old) }
        ensures starved { output_starved self.old ≤ output_starved self.new }
    {
        match allowed(self.pieces.take_next(), bytes.len()) {
            Some(n) => {
                if self.bytes.extend_from_slice(&bytes[..n]).is_ok() {
                    return Ok(n);
                }
                self.starved = self.starved.saturating_add(1);
            }
            None => {}
        }
        self.faults = self.faults.saturating_add(1);
        Err(Failed)
    }
}

impl QuietOutput {
    /// The output that takes all.
    pub fn new() -> Self {
        QuietOutput
    }
}

impl Output for QuietOutput {
    ghost use Rattle.std.specs.Prelude.{◌≡◌, None, Ok, MatchResult, length};
    ghost use Rattle.std.specs.Io.KnownBytes.{WriteAppends};
    ghost use Rattle.hera_causes.specs.Causes.{HasCause, TakesSome};

    ghost emitted = { λ _. None };

    ghost output_faults = { λ _. 0 };

    ghost passed = { λ _ _ _ _. Unit {0} };

    ghost passed_none = { λ _ _. tt };

    ghost passed_on = { λ _ _ _ _ _ _ _ _. tt };

    fn emit(&mut self, bytes: &[u8]) -> Result<usize, Failed>
        ensures bound { TakesSome result bytes.now }
        ensures bytes { WriteAppends None None result bytes.now }
        ensures moments { MatchResult result (λ _. Unit {0}) (λ _. Unit {0}) }
        ensures cause { HasCause 0 0 result }

        // It takes all.
        ensures takes { result ≡ Ok (length bytes.now) }
    {
        Ok(bytes.len())
    }
}
