//! A database with new relations and new attributes, printed.
ghost use Rattle.std.specs.Prelude.{◌≡◌, ◌≤◌, ◌<◌, None, Some, length, map, true, All, IfOk, IfErr, IfSome, OnOk};
ghost use Rattle.hera_meaning.specs.declared.schemas.TheConstants.{RELATIONS_LIMIT};
ghost use Rattle.hera_meaning.specs.Rows.{IsRow};
ghost use Rattle.hera_meaning.specs.Catalogues.{IsCatalogue};
ghost use Rattle.hera_meaning.specs.Wider.{is_prefix, keeps, Wider, first_narrowed, widened_row};
ghost use Rattle.rel_format.specs.declared.version.TheConstants.{PAGE_TWO};
ghost use Rattle.rel_format.specs.Journal.{half_limit};
ghost use Rattle.rel_format.specs.Pages.{paged};
ghost use Rattle.half_writer.specs.Written.{AreRows, IsFirstFull, with_rel, need_of};
ghost use Rattle.hera_store.specs.Standing.{AreOver, database_over};
ghost use Rattle.hera_store.specs.Widened.{widened, rows_under, BeginsAs};
ghost use Rattle.hera_store.specs.Faults.{IsWidePrintRefusal, IsWideningRefusal, IsNarrowing, half_with};

use crate::WidenFault;
use delta_atoms::Delta;
use half_writer::{HalfFault, HalfWriter};
use hera_meaning::{RelDecl, RelId, Schema};
use hera_row::{Catalogue, is_prefix, widen_row};
use hera_rows::{RowMark, RowSet, Sorted};
use rel_pages::Base;
use std::alloc::{AllocError, Global};
use when_overlay::{Layers, View};

impl From<AllocError> for WidenFault {
    ghost use Rattle.std.specs.Prelude.{◌≡◌};
    ghost use Rattle.hera_store.specs.declared.faults.WidenFault.TheVariants.{Memory};

    ghost from_gives = { λ _ e. e ≡ Memory };

    fn from(_: AllocError) -> Self {
        WidenFault::Memory
    }
}

impl From<HalfFault> for WidenFault {
    ghost use Rattle.std.specs.Prelude.{◌≡◌};
    ghost use Rattle.hera_store.specs.Faults.{widen_fault};

    ghost from_gives = { λ fault e. e ≡ widen_fault fault };

    fn from(fault: HalfFault) -> Self {
        match fault {
            HalfFault::Full { need, limit } => WidenFault::Full {
                need: need as u128,
                limit,
            },
            HalfFault::Memory => WidenFault::Memory,
        }
    }
}

/// Whether the catalogue has a relation of this name whose schema begins with this one.
fn is_kept(catalogue: &Catalogue, decl: &RelDecl) -> bool
    ensures { result ≡ keeps catalogue.now decl.now }
{
    match catalogue.find(decl.name.bytes()) {
        Some(rel) => is_prefix(&decl.schema, &catalogue.decl(rel).schema),
        None => false,
    }
}

/// The first relation of the old catalogue that the new one does not keep.
fn first_narrowed<'c>(old: &'c Catalogue, new: &Catalogue) -> Option<&'c RelDecl>
    ensures none { result ≡ None → Wider old.now new.now }
    ensures some { IfSome result (λ decl. first_narrowed old.now new.now ≡ Some decl.now.name) }
{
    for number in 0..old.len() as u16 {
        let decl = old.decl(RelId(number));
        if !is_kept(new, decl) {
            return Some(decl);
        }
    }
    None
}

/// Refuses a catalogue that narrows a relation.
fn check_wider(old: &Catalogue, new: &Catalogue) -> Result<(), WidenFault>
    ensures wider { OnOk result (Wider old.now new.now) }
    ensures narrows { IfErr result (IsNarrowing old.now new.now) }
{
    match first_narrowed(old, new) {
        Some(decl) => Err(WidenFault::Narrows {
            relation: decl.name.copy()?,
        }),
        None => Ok(()),
    }
}

/// The rows, each with the added fields behind it.
fn collect_widened<S: Sorted>(
    alloc: Global,
    old: &Schema,
    new: &Schema,
    rows: &S,
) -> Result<RowSet, AllocError>
    requires prefix { is_prefix old.now new.now ≡ true }
    requires rows { All (IsRow old.now) (S.rows rows.now) }
    ensures { IfOk result (λ set. set ≡ map (widened_row old.now new.now) (S.rows rows.now)) }
{
    let mut set = RowSet::new(alloc);
    let mut last: Option<&[u8]> = None;
    let mut mark = RowMark::start();
    while let Some(row) = rows.above_from(last, &mut mark) {
        let wide = widen_row(alloc, old, new, row)?;
        set.push_last(wide.bytes())?;
        last = Some(row);
    }
    Ok(set)
}

/// Adds the rows of a relation, each with the added fields behind it. Where none is added, they are not collected.
fn add_rows<S: Sorted>(
    alloc: Global,
    writer: &mut HalfWriter,
    old: &Schema,
    new: &Schema,
    rows: &S,
) -> Result<(), HalfFault>
    requires more { writer.old.added < RELATIONS_LIMIT }
    requires prefix { is_prefix old.now new.now ≡ true }
    requires rows { All (IsRow old.now) (S.rows rows.now) }
    requires wide { AreRows (map (widened_row old.now new.now) (S.rows rows.now)) }
    ensures add { OnOk result (writer.new ≡ with_rel PAGE_TWO writer.old (map (widened_row old.now new.now) (S.rows rows.now))) }
    ensures room { OnOk result (need_of writer.new ≤ writer.new.limit) }
    ensures full { IfErr result (IsFirstFull PAGE_TWO (need_of writer.old) (length (paged PAGE_TWO (map (widened_row old.now new.now) (S.rows rows.now)))) writer.old.limit) }
{
    if old.len() == new.len() {
        return writer.add(rows);
    }
    match collect_widened(alloc, old, new, rows) {
        Ok(set) => writer.add(&set),
        Err(_) => Err(HalfFault::Memory),
    }
}

/// Adds the rows that the base has after the commits under the name of this relation, widened to its schema.
fn add_relation(
    alloc: Global,
    writer: &mut HalfWriter,
    base: &Base,
    commits: &[Delta],
    decl: &RelDecl,
) -> Result<(), HalfFault>
    requires more { writer.old.added < RELATIONS_LIMIT }
    requires over { AreOver base.now commits.now }
    requires kept { BeginsAs base.now.catalogue decl.now }
    requires wide { AreRows (rows_under base.now commits.now decl.now) }
    ensures add { OnOk result (writer.new ≡ with_rel PAGE_TWO writer.old (rows_under base.now commits.now decl.now)) }
    ensures room { OnOk result (need_of writer.new ≤ writer.new.limit) }
    ensures full { IfErr result (IsFirstFull PAGE_TWO (need_of writer.old) (length (paged PAGE_TWO (rows_under base.now commits.now decl.now))) writer.old.limit) }
{
    let layers = Layers::new(alloc);
    let view = View {
        base,
        commits,
        layers: &layers,
        tip: None,
    };
    let catalogue = base.catalogue();
    match catalogue.find(decl.name.bytes()) {
        Some(rel) => {
            let old = &catalogue.decl(rel).schema;
            add_rows(alloc, writer, old, &decl.schema, &view.indexed(rel))
        }
        None => writer.add(&RowSet::new(alloc)),
    }
}

/// The bytes of the half that has the base's state after the commits in its pages, widened to this catalogue, which
/// narrows none of the base's relations.
fn wide_half(
    alloc: Global,
    base: &Base,
    commits: &[Delta],
    catalogue: &Catalogue,
    limit: u64,
) -> Result<Vec<u8>, WidenFault>
    requires over { AreOver base.now commits.now }
    requires wider { Wider base.now.catalogue catalogue.now }
    requires limit { limit ≤ half_limit }
    ensures catalogue { OnOk result (IsCatalogue catalogue.now) }
    ensures half { IfOk result (λ bytes. bytes.items ≡ half_with (widened (database_over base.now commits.now) catalogue.now)) }
    ensures fits { OnOk result (length (half_with (widened (database_over base.now commits.now) catalogue.now)) ≤ limit) }
    ensures refusal { IfErr result (IsWidePrintRefusal (widened (database_over base.now commits.now) catalogue.now) limit) }
{
    let mut writer = HalfWriter::new(alloc, catalogue, limit)?;
    for number in 0..catalogue.len() as u16 {
        add_relation(
            alloc,
            &mut writer,
            base,
            commits,
            catalogue.decl(RelId(number)),
        )?;
    }
    Ok(writer.finish()?)
}

/// The same for any catalogue: one that narrows a relation is refused.
pub(crate) fn widened_bytes(
    alloc: Global,
    base: &Base,
    commits: &[Delta],
    catalogue: &Catalogue,
    limit: u64,
) -> Result<Vec<u8>, WidenFault>
    requires over { AreOver base.now commits.now }
    requires limit { limit ≤ half_limit }
    ensures wider { OnOk result (Wider base.now.catalogue catalogue.now) }
    ensures catalogue { OnOk result (IsCatalogue catalogue.now) }
    ensures half { IfOk result (λ bytes. bytes.items ≡ half_with (widened (database_over base.now commits.now) catalogue.now)) }
    ensures fits { OnOk result (length (half_with (widened (database_over base.now commits.now) catalogue.now)) ≤ limit) }
    ensures refusal { IfErr result (IsWideningRefusal (database_over base.now commits.now) catalogue.now limit) }
{
    check_wider(base.catalogue(), catalogue)?;
    wide_half(alloc, base, commits, catalogue, limit)
}
