//! The lines of commits and of the ends of runs.
ghost use Rattle.std.specs.Prelude.{◌≡◌, IfOk};
ghost use Rattle.hera_meaning.specs.Printed.{commit_text};
ghost use Rattle.hera_machine.specs.Ends.{last_text};

use hera_machine::{End, put_commit, put_end};
use hera_meaning::Line;
use std::alloc::{AllocError, Global};

/// The line of the commit of this number.
pub(crate) fn commit_line(alloc: Global, number: usize) -> Result<Line, AllocError>
    ensures { IfOk result (λ line. line ≡ commit_text number) }
{
    let mut text = Vec::new(alloc);
    put_commit(&mut text, number)?;
    Ok(Line::new(text))
}

/// The last line of a run that ends so. That of a run that is done is empty.
pub(crate) fn last_line(alloc: Global, end: End) -> Result<Line, AllocError>
    ensures { IfOk result (λ line. line ≡ last_text end) }
{
    let mut text = Vec::new(alloc);
    put_end(&mut text, end)?;
    Ok(Line::new(text))
}
