//! Which operations relations fit that need not be held as values: any sorted sets.
ghost use Rattle.std.specs.Prelude.{◌≡◌, ◌&&◌, true};
ghost use Rattle.hera_meaning.specs.Values.{table};
ghost use Rattle.hera_meaning.specs.Fits.{all_meet, fits_of, wants};
ghost use Rattle.hera_fits.specs.Tables.{is_relational, tables};

use crate::ops::is_relational;
use crate::places::is_good_op;
use crate::shapes::has_kinds;
use hera_meaning::Op;
use hera_rows::Sorted;

/// Whether the operation may be done on these relations where they stand: it is one on relations alone, and fits these two, of
/// which one that takes a single operand has the first. Rows are looked at where the operation names a
/// schema. It takes no memory.
pub fn fits_rel<A: Sorted, B: Sorted>(op: &Op, a: &A, b: &B) -> bool
    ensures { result ≡ (is_relational op.now && fits_of op.now (tables op.now (A.rows a.now) (B.rows b.now))) }
{
    is_relational(op) && is_good_op(op) && have_kinds(op, a, b)
}

/// Whether the rows are of the schemas that the operation names.
fn have_kinds<A: Sorted, B: Sorted>(op: &Op, a: &A, b: &B) -> bool
    requires { is_relational op.now ≡ true }
    ensures { result ≡ all_meet (wants op.now (table (A.rows a.now))) (tables op.now (A.rows a.now) (B.rows b.now)) }
{
    match op {
        Op::Project(schema, _) => has_kinds(schema, a),
        Op::Group(schema, _, _) => has_kinds(schema, a),
        Op::Sum(schema, _) => has_kinds(schema, a),
        Op::Min(schema, _) => has_kinds(schema, a),
        Op::Max(schema, _) => has_kinds(schema, a),
        Op::Join(left, right) => has_kinds(left, a) && has_kinds(right, b),
        _ => true,
    }
}
