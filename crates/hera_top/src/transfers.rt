//! The commands on a relation of the database in a folder.
ghost use Rattle.std.specs.Prelude.{◌≡◌, List, [], ◌∷◌};
ghost use Rattle.hera_host.specs.Tables.{Host};
ghost use Rattle.hera_outcome.specs.Passages.{passage};
ghost use Rattle.hera_words.specs.declared.command.Command.{Command};
ghost use Rattle.hera_top.specs.Commands.{IsAnswered};
ghost use Rattle.hera_top.specs.Sources.{seen};

use crate::sources::read_source;
use hera_causes::Source;
use hera_outcome::{Ending, Stop};
use hera_transfer::{DATA_LIMIT, import};
use hera_volume::Outside;
use std::alloc::Global;

/// Reads a file and adds its rows to the relation of a name.
pub(crate) fn import_source<S: Source, W: Outside>(
    alloc: Global,
    name: &[u8],
    source: &mut S,
    outside: &mut W,
) -> Result<Ending, Stop>
    ensures answered { (hosts : List Host) → IsAnswered hosts name.now Command.Import (seen S.left S.faults source.old ∷ []) (seen S.left S.faults source.new ∷ []) result (passage W.Output W.Outside.own outside.old outside.new) }
{
    let file = read_source(alloc, source, DATA_LIMIT)?;
    import(alloc, name, file, outside)
}
