//! Records that are ready to be sealed.

use std::alloc::AllocError;
use std::marker::Model;
use thiserror::Error;

/// A record that is ready to be sealed. Contracts see its body, which is its bytes before the next
/// gate, and the place of its own gate.
#[derive(Drop)]
pub struct Prepared {
    /// The body, and the next gate, which is closed.
    bytes: Vec<u8>,
    end: u64,
}

/// Why no record is prepared.
#[derive(Debug, Drop, Error)]
pub enum PrepareFault {
    /// The record and the next gate end behind the limit: at `need`.
    #[error("the record needs {need} bytes, and the limit is {limit}")]
    Full { need: u128, limit: u64 },
    /// No memory for the record.
    #[error("out of memory")]
    Memory,
}

impl Model for Prepared {
    ghost use Rattle.std.specs.Prelude.{◌≡◌, ◌-◌, ◌^◌, ◌<◌, ℕ, List, [], ◌∷◌, ◌++◌, length, take};
    ghost use Rattle.commit_journal.specs.Record.{Record};

    ghost Value = { Record };

    ghost view = { λ p. record { body = take (length p.bytes.items - 1) p.bytes.items; end = p.end } };

    ghost invariant = { λ p. (p.end < 2 ^ 32) × (p.bytes.items ≡ take (length p.bytes.items - 1) p.bytes.items ++ 0 ∷ []) };
}

impl Prepared {
    ghost use Rattle.std.specs.Prelude.{◌≡◌, ◌^◌, ◌+◌, ◌<◌, [], ◌∷◌, ◌++◌, length, IfOk};

    /// The record with this body.
    pub(crate) fn new(mut body: Vec<u8>, end: u64) -> Result<Prepared, AllocError>
        requires { end < 2 ^ 32 }
        ensures body { IfOk result (λ p. p.body ≡ body.items) }
        ensures end { IfOk result (λ p. p.end ≡ end) }
    {
        body.push(0)?;
        Ok(Prepared { bytes: body, end })
    }

    /// The bytes behind the record's gate: the body, and the next gate, which is closed.
    pub(crate) fn bytes(&self) -> &[u8]
        ensures { result.now ≡ self.now.body ++ 0 ∷ [] }
    {
        &self.bytes
    }

    /// The place of the gate behind the record, which is the next one once the record is sealed.
    pub fn next_gate(&self) -> u64
        ensures { result ≡ self.now.end + length self.now.body + 1 }
    {
        self.end + self.bytes.as_slice().len() as u64
    }

    /// The place of the record's gate.
    pub(crate) fn end(&self) -> u64
        ensures at { result ≡ self.now.end }
        ensures small { result < 2 ^ 32 }
    {
        let _ = &self.bytes;
        self.end
    }
}
