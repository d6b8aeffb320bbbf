//! The rows of a CSV file, added to a relation of a database in a folder.
ghost use Rattle.std.specs.Prelude.{◌≡◌, ◌<◌, true, length, All, IfOk, IfErr};
ghost use Rattle.hera_meaning.specs.Rows.{IsRow};
ghost use Rattle.rel_format.specs.Versions.{is_old};
ghost use Rattle.hera_store.specs.Standing.{database_of};
ghost use Rattle.hera_outcome.specs.Answers.{number_of, IsFault};
ghost use Rattle.hera_outcome.specs.Passages.{passage, start};
ghost use Rattle.hera_outcome.specs.Told.{Answered, IsToldBehind};
ghost use Rattle.hera_run.specs.Action.{IsProper};
ghost use Rattle.hera_run.specs.Folder.{outcome_from};
ghost use Rattle.hera_run.specs.Opening.{IsOpen, IsUnwritten};
ghost use Rattle.hera_run.specs.declared.carry.Action.{Action};
ghost use Rattle.hera_transfer.specs.Transfers.{ImportsTo, addition, imported_text, stored_and_told};
ghost use Rattle.hera_transfer.specs.Reading.{IsReadFor, IsUnread, IsMadeNew, IsAdding, IsUnadded};

use crate::naming::relation_named;
use delta_atoms::Delta;
use hera_csv::{CsvFault, read_rows};
use hera_meaning::{Line, RelId, Schema, Sign};
use hera_outcome::{Ending, Refusal, Stop, tell};
use hera_rows::RowSet;
use hera_run::{keep_in, open_folder, rewrite};
use hera_store::Store;
use hera_volume::Outside;
use std::alloc::{AllocError, Global};

/// The most bytes of a file.
pub const DATA_LIMIT: usize = 67_108_864;

/// The rows of a file for a relation, and its schema.
#[derive(Drop)]
struct FileRows {
    schema: Schema,
    rows: RowSet,
}

/// What an import stores, and then says.
#[derive(Drop)]
struct Planned {
    delta: Delta,
    line: Line,
}

/// Reads the rows of a file for the relation of a name.
fn read(alloc: Global, store: &Store, name: &[u8], file: Vec<u8>) -> Result<FileRows, Stop>
    ensures read { IfOk result (λ read. IsReadFor store.now.base.catalogue name.now file.items read.schema read.rows) }
    ensures valid { IfOk result (λ read. All (IsRow read.schema) read.rows) }
    ensures unread { IfErr result (IsUnread store.now.base.catalogue name.now file.items) }
{
    let Some(rel) = relation_named(store, name) else {
        return Err(Stop::Refused(Refusal::NoRelation));
    };
    let schema = store.base().catalogue().decl(rel).schema.copy()?;
    match read_rows(alloc, &schema, file) {
        Ok(rows) => Ok(FileRows { schema, rows }),
        Err(CsvFault::Record { number }) => Err(Stop::Refused(Refusal::Record { number })),
        Err(CsvFault::Memory) => Err(Stop::Memory),
    }
}

/// Rewrites the half of an open folder in format 2, where it has format 1.
fn made_new<W: Outside>(alloc: Global, store: Store, outside: &mut W) -> Result<Store, Stop>
    requires opens { IsOpen store (passage W.Output W.Outside.own outside.old outside.old) }
    ensures made { IfOk result (λ next. IsMadeNew store next (passage W.Output W.Outside.own outside.old outside.new)) }
    ensures old { IfErr result (λ stop. is_old store.base.version ≡ true) }
    ensures unwritten { IfErr result (λ stop. IsUnwritten store stop (passage W.Output W.Outside.own outside.old outside.new)) }
{
    if store.old_format() {
        rewrite(alloc, store, outside)
    } else {
        Ok(store)
    }
}

/// What adds rows to the relation of this number, and tells it.
fn added(alloc: Global, rel: RelId, rows: &RowSet) -> Result<Planned, AllocError>
    ensures delta { IfOk result (λ planned. planned.delta ≡ addition rel.0 rows.now) }
    ensures line { IfOk result (λ planned. planned.line ≡ imported_text (length rows.now)) }
{
    let line = imported_line(alloc, rows.len())?;
    let delta = Delta::bulk(alloc, Sign::Plus, rel, rows)?;
    Ok(Planned { delta, line })
}

/// The line that tells so many rows.
fn imported_line(alloc: Global, count: usize) -> Result<Line, AllocError>
    ensures { IfOk result (λ line. line ≡ imported_text count) }
{
    Ok(Line::new(format!(in alloc; "imported {count}\n")?.into_bytes()))
}

/// What adds the rows of a file to the relation of a name in a store.
fn plan(alloc: Global, store: &Store, name: &[u8], read: FileRows) -> Result<Planned, Stop>
    requires valid { All (IsRow read.schema) read.rows }
    ensures added { IfOk result (λ planned. IsAdding store.now.base.catalogue name.now read.schema read.rows planned.delta planned.line) }
    ensures proper { IfOk result (λ planned. IsProper store.now.base.catalogue (Action.Store planned.delta)) }
    ensures unadded { IfErr result (IsUnadded store.now.base.catalogue name.now read.schema) }
{
    let Some(rel) = relation_named(store, name) else {
        return Err(Stop::Refused(Refusal::NoRelation));
    };
    if !store.base().catalogue().decl(rel).schema.same(&read.schema) {
        return Err(Stop::Refused(Refusal::NoRelation));
    }
    Ok(added(alloc, rel, &read.rows)?)
}

/// Stores what is added, and then tells it.
fn store_and_tell<W: Outside>(
    mut store: Store,
    planned: Planned,
    outside: &mut W,
) -> Result<Ending, Stop>
    requires opens { IsOpen store (passage W.Output W.Outside.own outside.old outside.old) }
    requires proper { IsProper store.base.catalogue (Action.Store planned.delta) }
    ensures told { IsToldBehind (outcome_from (database_of store) store.end (stored_and_told (database_of store).state planned.delta planned.line)) (number_of result) (passage W.Output W.Outside.own outside.old outside.new) }
    ensures fault { IfErr result IsFault }
{
    let Planned { delta, line } = planned;
    keep_in(outside, &mut store, delta)?;
    tell(outside, line.bytes())
}

/// Adds the rows of a CSV file to the relation of a name in the folder's database: one commit, and then a line tells how many
/// rows the file has, each counted once. A half of format 1 is rewritten in format 2 first.
///
/// `Refused` tells that there is no whole database, no relation of that name, or which record is the first that is not good;
/// that is still to be told, and nothing is done. `Full` tells that the commit, or the rewriting, needs more than 268,435,456
/// bytes; then nothing is stored. At `Device` and `Memory` the folder has the database before or all of it, and at `Output`
/// all of it. A stop at any moment, once the files are synced, leaves a cut of both events.
pub fn import<W: Outside>(
    alloc: Global,
    name: &[u8],
    file: Vec<u8>,
    outside: &mut W,
) -> Result<Ending, Stop>
    ensures answered { Answered (ImportsTo name.now file.items (start W.Outside.own outside.old)) result (passage W.Output W.Outside.own outside.old outside.new) }
{
    let old = open_folder(alloc, outside)?;
    let read = read(alloc, &old, name, file)?;
    let store = made_new(alloc, old, outside)?;
    let planned = plan(alloc, &store, name, read)?;
    store_and_tell(store, planned, outside)
}
