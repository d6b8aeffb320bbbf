ghost use Rattle.std.specs.Prelude.{◌≡◌, None};

use crate::retried::print_some;
use hera_causes::{Failed, Output};
use std::marker::Model;

/// Standard output. It tells nothing of the bytes so far: clauses see its count of faults. That rises by one with each
/// write that fails, or takes no byte of a piece that has some, and stays at the last value of a `u64`.
#[derive(Drop)]
pub(crate) struct StandardOutput<'a, P: Print> {
    rt: &'a P,
    faults: u64,
}

impl<'a, P: Print> Model for StandardOutput<'a, P> {
    ghost use Rattle.std.specs.Prelude.{ℕ};

    ghost Value = { ℕ };

    ghost view = { λ output. output.faults };
}

impl<'a, P: Print> StandardOutput<'a, P> {
    /// The output, of which no write has failed.
    pub(crate) fn new(rt: &'a P) -> StandardOutput<'a, P>
        ensures { result ≡ 0 }
    {
        StandardOutput { rt, faults: 0 }
    }
}

impl<'a, P: Print> Output for StandardOutput<'a, P> {
    ghost emitted = { λ _. None };

    ghost output_faults = { λ faults. faults };

    ghost passed = { λ _ _ _ _. Unit {0} };

    ghost passed_none = { λ _ _. tt };

    ghost passed_on = { λ _ _ _ _ _ _ _ _. tt };

    fn emit(&mut self, bytes: &[u8]) -> Result<usize, Failed> {
        if bytes.is_empty() {
            return Ok(0);
        }
        match print_some(self.rt, bytes) {
            Ok(n) if n > 0 => Ok(n),
            _ => {
                self.faults = self.faults.saturating_add(1);
                Err(Failed)
            }
        }
    }
}

#[cfg(test)]
mod tests {
    use super::*;
    use hera_causes::emit_all;
    use std::cell::Cell;
    use std::fmt::Display;
    use std::io::{Error, ErrorKind, Result};
    use std::test::Fail;

    /// An output that takes so many bytes of each piece, once so many signals have interrupted it.
    #[derive(Drop)]
    struct Sink {
        takes: usize,
        signals: Cell<u8>,
    }

    impl Sink {
        fn new(takes: usize, signals: u8) -> Sink {
            Sink {
                takes,
                signals: Cell::new(signals),
            }
        }
    }

    impl Print for Sink {
        fn print<D: Display + Drop>(&self, _value: D) -> Result<()> {
            Err(Error::from(ErrorKind::Unsupported))
        }

        fn println<D: Display + Drop>(&self, _value: D) -> Result<()> {
            Err(Error::from(ErrorKind::Unsupported))
        }

        fn write_all(&self, _bytes: &[u8]) -> Result<()> {
            Err(Error::from(ErrorKind::Unsupported))
        }

        fn write_some(&self, bytes: &[u8]) -> Result<usize> {
            let signals = self.signals.get();
            self.signals.set(signals.saturating_sub(1));
            if signals > 0 {
                return Err(Error::from(ErrorKind::Interrupted));
            }
            Ok(self.takes.min(bytes.len()))
        }
    }

    #[test]
    fn a_piece_that_is_not_taken_is_a_fault(rt: HostRuntime) -> std::result::Result<(), Fail> {
        let slow = Sink::new(1, 2);
        let mut output = StandardOutput::new(&slow);
        assert!(rt; emit_all(&mut output, b"14\n").is_ok());
        assert_eq!(rt; output.faults, 0);
        let full = Sink::new(0, 0);
        let mut output = StandardOutput::new(&full);
        assert!(rt; emit_all(&mut output, b"14\n").is_err());
        assert_eq!(rt; output.faults, 1);
        assert!(rt; emit_all(&mut output, b"").is_ok());
        Ok(())
    }
}
