//! The walk through rows up to the first one that breaks a guard.
ghost use Rattle.std.specs.Prelude.{◌≡◌, ◌++◌, All, IfOk, IfSome, Some, ◌<◌, false, length, nat_eq, slice_get};
ghost use Rattle.std.specs.List.{list_any};
ghost use Rattle.std.specs.Option.{option_map};
ghost use Rattle.hera_meaning.specs.Rows.{IsRow, field_at};
ghost use Rattle.hera_meaning.specs.Deltas.{IsState, IsDeltaOf, is_fail};
ghost use Rattle.hera_meaning.specs.Hosts.{host_at};
ghost use Rattle.hera_row.specs.Fields.{told};
ghost use Rattle.hera_host.specs.Tables.{specs_of};
ghost use Rattle.when_overlay.specs.Changed.{after_all};
ghost use Rattle.when_overlay.specs.Layered.{IsTip, path};
ghost use Rattle.hera_guard.specs.Guards.{Suits, AreGuards, refuses, is_broken, broken, row_breaks, rows_breaks, breaks, first, added_of, IsBreakOf};
ghost use Rattle.hera_guard.specs.Suiting.{SuitsIn, SuitRelation};

use crate::table::{Break, Guard};
use delta_atoms::Delta;
use hera_host::HostTable;
use hera_meaning::{HostAnswer, RelId, Scalar, ScalarRef, Schema, Sign, Text};
use hera_row::{Catalogue, field};
use hera_rows::{RowBuf, RowMark, Sorted};
use std::alloc::{AllocError, Global};
use when_overlay::View;

/// The scalar with a text of its own.
fn owned(alloc: Global, value: ScalarRef<'_>) -> Result<Scalar, AllocError>
    ensures { IfOk result (λ scalar. scalar ≡ told value.entry) }
{
    match value {
        ScalarRef::Int(v) => Ok(Scalar::Int(v)),
        ScalarRef::Bool(b) => Ok(Scalar::Bool(b)),
        ScalarRef::Text(bytes) => match Text::new(alloc, bytes) {
            Ok(text) => Ok(Scalar::Text(text)),
            Err(_) => Err(AllocError),
        },
    }
}

/// Whether the guard's host answers false for the row's field at the guard's place.
fn refuses(
    alloc: Global,
    guard: &Guard,
    hosts: &HostTable,
    schema: &Schema,
    row: &[u8],
) -> Result<bool, AllocError>
    requires suits { Suits schema.now hosts.now.names guard.now }
    requires row { IsRow schema.now row.now }
    ensures { IfOk result (λ no. no ≡ refuses (host_at (specs_of hosts.now.names) guard.now.host) (field_at schema.now row.now guard.now.place)) }
{
    let arg = owned(alloc, field(schema, row, guard.place))?;
    match hosts.call(guard.host, &arg) {
        HostAnswer::Bool(yes) => Ok(!yes),
        HostAnswer::Int(_) => Ok(false),
    }
}

/// Whether it is a guard of the relation, and its host answers false for the row's field at its place.
fn is_broken(
    alloc: Global,
    guard: &Guard,
    hosts: &HostTable,
    schema: &Schema,
    rel: RelId,
    row: &[u8],
) -> Result<bool, AllocError>
    requires suits { SuitsIn schema.now rel.0 hosts.now.names guard.now }
    requires row { IsRow schema.now row.now }
    ensures { IfOk result (λ broken. broken ≡ is_broken (specs_of hosts.now.names) schema.now rel.0 row.now guard.now) }
{
    if guard.rel.0 != rel.0 {
        return Ok(false);
    }
    refuses(alloc, guard, hosts, schema, row)
}

/// Whether a guard is one of the relation.
fn is_guarded(guards: &[Guard], rel: RelId) -> bool
    ensures { result ≡ list_any (λ g. nat_eq g.rel.0 rel.0) guards.now }
{
    guards.iter().any(|guard| guard.rel.0 == rel.0)
}

/// The guard of this number.
fn guard_at(guards: &[Guard], i: usize) -> &Guard
    requires { i < length guards.now }
    ensures { slice_get guards.now i ≡ Some result.now }
{
    &guards[i]
}

/// The number of the first guard that the row of the relation breaks.
fn first_of_row(
    alloc: Global,
    guards: &[Guard],
    hosts: &HostTable,
    schema: &Schema,
    rel: RelId,
    row: &[u8],
) -> Result<Option<usize>, AllocError>
    requires suit { SuitRelation schema.now rel.0 hosts.now.names guards.now }
    requires row { IsRow schema.now row.now }
    ensures { IfOk result (λ found. option_map (λ n. broken n rel.0 row.now) found ≡ first (row_breaks (specs_of hosts.now.names) schema.now rel.0 row.now 0 guards.now)) }
{
    for i in 0..guards.len() {
        let broken = is_broken(alloc, guard_at(guards, i), hosts, schema, rel, row)?;
        if broken {
            return Ok(Some(i));
        }
    }
    Ok(None)
}

/// The first of the rows of a relation that breaks a guard. No row is looked at where the relation has none.
fn first_in<S: Sorted>(
    alloc: Global,
    guards: &[Guard],
    hosts: &HostTable,
    schema: &Schema,
    rel: RelId,
    rows: &S,
) -> Result<Option<Break>, AllocError>
    requires suit { SuitRelation schema.now rel.0 hosts.now.names guards.now }
    requires rows { All (IsRow schema.now) (S.rows rows.now) }
    ensures { IfOk result (λ found. found ≡ first (rows_breaks (specs_of hosts.now.names) guards.now schema.now rel.0 (S.rows rows.now))) }
{
    if !is_guarded(guards, rel) {
        return Ok(None);
    }
    let mut last: Option<&[u8]> = None;
    let mut mark = RowMark::start();
    while let Some(row) = rows.above_from(last, &mut mark) {
        if let Some(guard) = first_of_row(alloc, guards, hosts, schema, rel, row)? {
            let row = RowBuf::new(alloc, row)?;
            return Ok(Some(Break { guard, rel, row }));
        }
        last = Some(row);
    }
    Ok(None)
}

/// The first row of the view's state that breaks a guard, relation after relation.
pub(crate) fn first_stored(
    alloc: Global,
    guards: &[Guard],
    view: &View<'_>,
    hosts: &HostTable,
) -> Result<Option<Break>, AllocError>
    requires guards { AreGuards view.now.base.now.catalogue hosts.now.names guards.now }
    requires tip { IsTip view.now.layers.now.layers view.now.tip }
    requires state { IsState view.now.base.now.catalogue (after_all view.now.base.now.state (view.now.commits.now ++ path view.now.layers.now.layers view.now.tip)) }
    ensures known { IfOk result (λ found. IfSome found (IsBreakOf view.now.base.now.catalogue guards.now)) }
    ensures first { IfOk result (λ found. found ≡ first (breaks (specs_of hosts.now.names) guards.now view.now.base.now.catalogue (after_all view.now.base.now.state (view.now.commits.now ++ path view.now.layers.now.layers view.now.tip)))) }
{
    let catalogue = view.base.catalogue();
    for number in 0..catalogue.len() as u16 {
        let rel = RelId(number);
        if let Some(found) = first_in(
            alloc,
            guards,
            hosts,
            &catalogue.decl(rel).schema,
            rel,
            &view.indexed(rel),
        )? {
            return Ok(Some(found));
        }
    }
    Ok(None)
}

/// The first of the rows that the delta puts in that breaks a guard, relation after relation.
pub(crate) fn first_added(
    alloc: Global,
    guards: &[Guard],
    catalogue: &Catalogue,
    delta: &Delta,
    hosts: &HostTable,
) -> Result<Option<Break>, AllocError>
    requires guards { AreGuards catalogue.now hosts.now.names guards.now }
    requires proper { is_fail delta.now ≡ false }
    requires rows { IsDeltaOf catalogue.now delta.now }
    ensures known { IfOk result (λ found. IfSome found (IsBreakOf catalogue.now guards.now)) }
    ensures first { IfOk result (λ found. found ≡ first (breaks (specs_of hosts.now.names) guards.now catalogue.now (added_of catalogue.now delta.now))) }
{
    for number in 0..catalogue.len() as u16 {
        let rel = RelId(number);
        if let Some(found) = first_in(
            alloc,
            guards,
            hosts,
            &catalogue.decl(rel).schema,
            rel,
            delta.part(rel, Sign::Plus),
        )? {
            return Ok(Some(found));
        }
    }
    Ok(None)
}
