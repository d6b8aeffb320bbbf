//! The lines of commits and of the ends of runs, put behind a text.
ghost use Rattle.std.specs.Prelude.{◌≡◌, ◌++◌, OnOk};
ghost use Rattle.hera_meaning.specs.Printed.{commit_text, trap_name, trap_line, spent_line};
ghost use Rattle.hera_machine.specs.Ends.{last_text};

use hera_meaning::TrapName;
use hera_meaning::writing::{put, put_number};
use hera_steps::End;
use std::alloc::AllocError;

/// Puts the line of the commit of this number.
#[tactic(auto, unfolding(hera_meaning::specs::Printed::commit_text))]
pub fn put_commit(text: &mut Vec<u8>, number: usize) -> Result<(), AllocError>
    ensures { OnOk result (text.new.items ≡ text.old.items ++ commit_text number) }
{
    put(text, b"commit ")?;
    put_number(text, number as u128)?;
    put(text, b"\n")
}

/// The name of a trap.
fn name_of(name: TrapName) -> &'static str
    ensures { result.now ≡ trap_name name }
{
    match name {
        TrapName::DivZero => "DivZero",
        TrapName::Overflow => "Overflow",
        TrapName::EmptyMin => "EmptyMin",
        TrapName::ApplyFail => "ApplyFail",
        TrapName::WhenFail => "WhenFail",
        TrapName::ReadFail => "ReadFail",
        TrapName::Assert => "Assert",
    }
}

/// Puts the last line of a run that ends so. That of a run that is done is empty.
pub fn put_end(text: &mut Vec<u8>, end: End) -> Result<(), AllocError>
    ensures { OnOk result (text.new.items ≡ text.old.items ++ last_text end) }
{
    match end {
        End::Done | End::Stuck => put(text, b""),
        End::Trap(name, at) => put_trap(text, name, at),
        End::Spent => put_spent(text),
    }
}

/// Puts the line of a trap.
#[tactic(auto, unfolding(hera_meaning::specs::Printed::trap_line, hera_meaning::specs::Printed::end_text))]
fn put_trap(text: &mut Vec<u8>, name: TrapName, at: u32) -> Result<(), AllocError>
    ensures { OnOk result (text.new.items ≡ text.old.items ++ trap_line name at) }
{
    put(text, b"trap ")?;
    put(text, name_of(name).as_bytes())?;
    put(text, b" at ")?;
    put_number(text, at as u128)?;
    put(text, b"\n")
}

/// Puts the line of a run that has no turn left.
#[tactic(auto, unfolding(hera_meaning::specs::Printed::spent_line))]
fn put_spent(text: &mut Vec<u8>) -> Result<(), AllocError>
    ensures { OnOk result (text.new.items ≡ text.old.items ++ spent_line) }
{
    put(text, b"turns spent\n")
}
