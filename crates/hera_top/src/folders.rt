//! The commands that look at a folder alone.
ghost use Rattle.hera_outcome.specs.Passages.{passage, start};
ghost use Rattle.hera_outcome.specs.Told.{Answered};
ghost use Rattle.hera_top.specs.Commands.{Finds, IsWidened};
ghost use Rattle.hera_words.specs.declared.command.Command.{Command};

use crate::dumping::text_of_store;
use hera_outcome::{Ending, Refusal, Stop, tell};
use hera_row::Catalogue;
use hera_run::open_folder;
use hera_store::{CheckFault, WidenFault};
use hera_volume::Outside;
use hera_words::Command;
use rel_format::HALF_LIMIT;
use std::alloc::Global;

/// Prints every relation of the database in the folder.
pub(crate) fn dump<W: Outside>(alloc: Global, outside: &mut W) -> Result<Ending, Stop>
    ensures answered { Answered (Finds (start W.Outside.own outside.old) Command.Dump) result (passage W.Output W.Outside.own outside.old outside.new) }
{
    let store = open_folder(alloc, outside)?;
    let text = text_of_store(alloc, &store)?;
    tell(outside, &text)
}

/// Writes the other half of the database in the folder anew and selects it.
pub(crate) fn checkpoint<W: Outside>(alloc: Global, outside: &mut W) -> Result<Ending, Stop>
    ensures answered { Answered (Finds (start W.Outside.own outside.old) Command.Checkpoint) result (passage W.Output W.Outside.own outside.old outside.new) }
{
    let store = open_folder(alloc, outside)?;
    match store.checkpoint(outside, HALF_LIMIT) {
        Ok(()) => tell(outside, b"checkpointed\n"),
        Err(CheckFault::Full { .. }) => Err(Stop::Full),
        Err(CheckFault::Device) => Err(Stop::Device),
        Err(CheckFault::Memory) => Err(Stop::Memory),
        Err(CheckFault::Closed) => unreachable!(),
    }
}

/// Widens the database in the folder to this catalogue.
pub(crate) fn widen_to<W: Outside>(
    alloc: Global,
    catalogue: &Catalogue,
    outside: &mut W,
) -> Result<Ending, Stop>
    ensures answered { Answered (IsWidened catalogue.now (start W.Outside.own outside.old)) result (passage W.Output W.Outside.own outside.old outside.new) }
{
    let store = open_folder(alloc, outside)?;
    match store.widen(outside, catalogue, HALF_LIMIT) {
        Ok(()) => tell(outside, b"widened\n"),
        Err(WidenFault::Narrows { relation }) => Err(Stop::Refused(Refusal::Narrows { relation })),
        Err(WidenFault::Full { .. }) => Err(Stop::Full),
        Err(WidenFault::Device) => Err(Stop::Device),
        Err(WidenFault::Memory) => Err(Stop::Memory),
        Err(WidenFault::Closed) => unreachable!(),
    }
}
