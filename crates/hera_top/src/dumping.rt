//! The text of all relations of a database.
ghost use Rattle.std.specs.Prelude.{◌≡◌, ◌<◌, ◌++◌, length, slice_get, true, Some, IfOk, OnOk};
ghost use Rattle.std.specs.List.{list_all};
ghost use Rattle.hera_meaning.specs.Deltas.{IsState};
ghost use Rattle.hera_meaning.specs.Printed.{table_text};
ghost use Rattle.hera_meaning.specs.Rows.{is_row};
ghost use Rattle.hera_store.specs.Standing.{database_of};
ghost use Rattle.hera_top.specs.Dumping.{relation_text};
ghost use Rattle.hera_top.specs.Commands.{tables_text};

use delta_atoms::Value;
use hera_meaning::writing::put;
use hera_meaning::{Line, RelId, Schema, Shape};
use hera_print::{decl_line, value_line};
use hera_rows::RowSet;
use hera_store::Store;
use std::alloc::{AllocError, Global};
use when_overlay::{Layers, View};

/// The rows of a relation after the store's commits.
fn rows_of(alloc: Global, store: &Store, rel: RelId) -> Result<RowSet, AllocError>
    requires { rel.0 < length store.now.base.catalogue }
    ensures { IfOk result (λ rows. slice_get (database_of store.now).state rel.0 ≡ Some rows) }
{
    let layers = Layers::new(alloc);
    let view = View {
        base: store.base(),
        commits: store.commits(),
        layers: &layers,
        tip: None,
    };
    view.indexed(rel).collect(alloc)
}

/// The lines of these rows as a relation of this schema.
#[tactic(auto, unfolding(hera_meaning::specs::Printed::text_of))]
fn table_line(alloc: Global, schema: &Schema, rows: RowSet) -> Result<Line, AllocError>
    requires { list_all (is_row schema.now) rows ≡ true }
    ensures { IfOk result (λ line. line ≡ table_text schema.now rows) }
{
    let shape = Shape::Rel(schema.copy()?);
    let value = Value::Rel(rows);
    value_line(alloc, &shape, &value, &[])
}

/// Puts the declaration and the rows of a relation.
fn put_relation(
    alloc: Global,
    text: &mut Vec<u8>,
    store: &Store,
    rel: RelId,
) -> Result<(), AllocError>
    requires there { rel.0 < length store.now.base.catalogue }
    requires state { IsState store.now.base.catalogue (database_of store.now).state }
    ensures { OnOk result (text.new.items ≡ text.old.items ++ relation_text store.now.base.catalogue (database_of store.now).state rel.0) }
{
    let decl = store.base().catalogue().decl(rel);
    let line = decl_line(alloc, decl)?;
    let rows = rows_of(alloc, store, rel)?;
    let table = table_line(alloc, &decl.schema, rows)?;
    put(text, line.bytes())?;
    put(text, table.bytes())?;
    Ok(())
}

/// The text of all relations: of each its declaration and its rows.
pub(crate) fn text_of_store(alloc: Global, store: &Store) -> Result<Vec<u8>, AllocError>
    requires { IsState store.now.base.catalogue (database_of store.now).state }
    ensures { IfOk result (λ text. text.items ≡ tables_text store.now.base.catalogue (database_of store.now).state) }
{
    let mut text = Vec::new(alloc);
    let count = store.base().catalogue().len();
    for rel in 0..count {
        put_relation(alloc, &mut text, store, RelId(rel as u16))?;
    }
    Ok(text)
}
