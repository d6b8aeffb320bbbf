//! Whether relations that are operands fit an operation.
ghost use Rattle.std.specs.Prelude.{◌≡◌, ◌&&◌};
ghost use Rattle.std.specs.List.{list_all};
ghost use Rattle.std.specs.Option.{option_copied};
ghost use Rattle.hera_meaning.specs.Rows.{is_row};
ghost use Rattle.hera_meaning.specs.Fits.{fits_of};
ghost use Rattle.hera_fits.specs.Tables.{is_relational, tables};
ghost use Rattle.hera_reads.specs.Seeing.{rows_seen};
ghost use Rattle.hera_frames.specs.Kinds.{left_of, right_of, PassAlike};

use hera_fits::fits_rel;
use hera_meaning::{Op, Schema};
use hera_reads::Seen;

/// Whether `prim_rel` has an answer over these relations, as `fits_rel` tells. Each row of a relation that is named
/// is of its schema. So no row of one is looked at where that schema has the kinds that the operation asks for. It
/// takes no memory.
pub fn fits_seen(op: &Op, a: &Seen<'_>, b: &Seen<'_>) -> bool
    ensures { result ≡ (is_relational op.now && fits_of op.now (tables op.now (rows_seen a.now) (rows_seen b.now))) }
{
    fits_rel(op, &doubtful(left_of(op), a), &doubtful(right_of(op), b))
}

/// The schema that the operation names for its first operand.
fn left_of(op: &Op) -> Option<&Schema>
    ensures { option_copied result ≡ left_of op.now }
{
    match op {
        Op::Project(schema, _) => Some(schema),
        Op::Group(schema, _, _) => Some(schema),
        Op::Sum(schema, _) => Some(schema),
        Op::Min(schema, _) => Some(schema),
        Op::Max(schema, _) => Some(schema),
        Op::Join(left, _) => Some(left),
        _ => None,
    }
}

/// The schema that the operation names for its second operand.
fn right_of(op: &Op) -> Option<&Schema>
    ensures { option_copied result ≡ right_of op.now }
{
    match op {
        Op::Join(_, right) => Some(right),
        _ => None,
    }
}

/// The rows that have to be looked at to know whether all are of a schema.
fn doubtful<'a>(schema: Option<&Schema>, rows: &Seen<'a>) -> Seen<'a>
    ensures { PassAlike (option_copied schema.entry) (rows_seen result) (rows_seen rows.now) }
{
    match schema {
        None => Seen::Nothing,
        Some(schema) => doubtful_of(schema, rows),
    }
}

/// The rows that have to be looked at to know whether all are of this schema.
fn doubtful_of<'a>(schema: &Schema, rows: &Seen<'a>) -> Seen<'a>
    ensures { list_all (is_row schema.now) (rows_seen result) ≡ list_all (is_row schema.now) (rows_seen rows.now) }
{
    match rows {
        Seen::Nothing => Seen::Nothing,
        Seen::Held(set) => Seen::Held(set),
        Seen::Named(view) => if view.is_of(schema) {
            Seen::Nothing
        } else {
            Seen::Named(view.again())
        },
    }
}
