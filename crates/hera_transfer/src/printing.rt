//! A relation of a database in a folder, printed as CSV.
ghost use Rattle.std.specs.Prelude.{◌≡◌, ◌<◌, length, IfOk};
ghost use Rattle.hera_meaning.specs.Deltas.{IsState, schema_of, rows_at};
ghost use Rattle.hera_csv.specs.Writers.{csv_of};
ghost use Rattle.hera_store.specs.Standing.{database_of};
ghost use Rattle.hera_outcome.specs.Passages.{passage, start};
ghost use Rattle.hera_outcome.specs.Told.{Answered};
ghost use Rattle.hera_transfer.specs.Transfers.{ExportsTo};

use crate::naming::relation_named;
use hera_csv::write_rows;
use hera_meaning::{Line, RelId};
use hera_outcome::{Ending, Refusal, Stop, tell};
use hera_run::open_folder;
use hera_store::Store;
use hera_volume::Outside;
use std::alloc::{AllocError, Global};
use when_overlay::{Layers, View};

/// The text of a relation after the store's commits.
fn text_of(alloc: Global, store: &Store, rel: RelId) -> Result<Line, AllocError>
    requires there { rel.0 < length store.now.base.catalogue }
    requires state { IsState store.now.base.catalogue (database_of store.now).state }
    ensures { IfOk result (λ line. line ≡ csv_of (schema_of store.now.base.catalogue rel.0) (rows_at (database_of store.now).state rel.0)) }
{
    let layers = Layers::new(alloc);
    let view = View {
        base: store.base(),
        commits: store.commits(),
        layers: &layers,
        tip: None,
    };
    let rows = view.indexed(rel);
    write_rows(alloc, &store.base().catalogue().decl(rel).schema, &rows)
}

/// Prints the names of the attributes of the relation of a name in the folder's database, and then its rows, as CSV. The
/// files read as before.
///
/// `Refused` tells that there is no whole database, or no relation of that name; that is still to be told. At `Device` and
/// `Memory` nothing was emitted, at `Output` a prefix of the text.
pub fn export<W: Outside>(alloc: Global, name: &[u8], outside: &mut W) -> Result<Ending, Stop>
    ensures answered { Answered (ExportsTo name.now (start W.Outside.own outside.old)) result (passage W.Output W.Outside.own outside.old outside.new) }
{
    let store = open_folder(alloc, outside)?;
    let Some(rel) = relation_named(&store, name) else {
        return Err(Stop::Refused(Refusal::NoRelation));
    };
    let text = text_of(alloc, &store, rel)?;
    tell(outside, text.bytes())
}
