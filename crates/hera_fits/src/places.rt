//! The places and schemas of an operation.
ghost use Rattle.std.specs.Prelude.{◌≡◌, ◌≤◌, cond, not, length};
ghost use Rattle.std.specs.List.{list_all};
ghost use Rattle.hera_sets.specs.Rows.{is_same};
ghost use Rattle.hera_meaning.specs.declared.schemas.TheConstants.{ATTRS_LIMIT};
ghost use Rattle.hera_meaning.specs.Scalars.{is_same_kind};
ghost use Rattle.hera_meaning.specs.Relations.{has_name, lacking, can_join};
ghost use Rattle.hera_meaning.specs.Fits.{is_place, is_int_at, is_good_agg, is_good_op};
ghost use Rattle.hera_fits.specs.Joins.{goes_with};

use hera_meaning::{ATTRS_LIMIT, Agg, Attr, Kind, Op, Schema};
use hera_sets::is_same;

/// Whether an attribute stands at the place.
fn is_place(schema: &Schema, i: usize) -> bool
    ensures { result ≡ is_place schema.now i }
{
    i < schema.len()
}

/// Whether the kind is that of ints.
fn is_int(kind: Kind) -> bool
    ensures { result ≡ is_same_kind kind Kind.Int }
{
    kind == Kind::Int
}

/// Whether an int stands at the place.
#[tactic(auto, using(crate::proofs::PlaceTests::int_past))]
fn is_int_at(schema: &Schema, i: usize) -> bool
    ensures { result ≡ is_int_at schema.now i }
{
    i < schema.len() && is_int(schema.attr(i).kind)
}

/// Whether each place is one of the schema's.
fn are_places(schema: &Schema, places: &[usize]) -> bool
    ensures { result ≡ list_all (is_place schema.now) places.now }
{
    places.iter().all(|place| is_place(schema, *place))
}

/// Whether the aggregate's place is in range, and an int stands there if it is summed.
fn is_good_agg(schema: &Schema, agg: Agg) -> bool
    ensures { result ≡ is_good_agg schema.now agg }
{
    match agg {
        Agg::Count => true,
        Agg::Sum(i) => is_int_at(schema, i),
        Agg::Min(i) => is_place(schema, i),
        Agg::Max(i) => is_place(schema, i),
    }
}

fn are_good_aggs(schema: &Schema, aggs: &[Agg]) -> bool
    ensures { result ≡ list_all (is_good_agg schema.now) aggs.now }
{
    aggs.iter().all(|agg| is_good_agg(schema, *agg))
}

/// Whether both attributes have the same name.
fn same_name(a: &Attr, b: &Attr) -> bool
    ensures { result ≡ is_same a.now.name b.now.name }
{
    is_same(a.name.bytes(), b.name.bytes())
}

/// Whether the attributes have different names, or one kind.
fn goes_with(a: &Attr, b: &Attr) -> bool
    ensures { result ≡ goes_with a.now b.now }
{
    !same_name(a, b) || a.kind == b.kind
}

/// Whether the attribute goes with each one of the schema.
fn goes_with_all(a: &Attr, right: &Schema) -> bool
    ensures { result ≡ list_all (goes_with a.now) right.now }
{
    for i in 0..right.len() {
        if !goes_with(a, right.attr(i)) {
            return false;
        }
    }
    true
}

/// Whether all attributes of both schemas that have one name have one kind.
fn all_go_together(left: &Schema, right: &Schema) -> bool
    ensures { result ≡ list_all (λ a. list_all (goes_with a) right.now) left.now }
{
    for i in 0..left.len() {
        if !goes_with_all(left.attr(i), right) {
            return false;
        }
    }
    true
}

/// Whether the schema has no attribute of this name.
fn lacks(schema: &Schema, name: &[u8]) -> bool
    ensures { result ≡ not (has_name schema.now name.now) }
{
    schema.position(name).is_none()
}

/// 1 for true, 0 for false.
fn one_if(counts: bool) -> usize
    ensures { result ≡ cond counts 1 0 }
{
    if counts { 1 } else { 0 }
}

/// How many attributes of the right schema the left lacks.
fn lacking_len(left: &Schema, right: &Schema) -> usize
    ensures count { result ≡ length (lacking left.now right.now) }
    ensures few { result ≤ ATTRS_LIMIT }
{
    let mut count = 0;
    for i in 0..right.len() {
        count += one_if(lacks(left, right.attr(i).name.bytes()));
    }
    count
}

/// Whether common attributes have one kind, and the joined schema has at most 16 attributes.
fn can_join(left: &Schema, right: &Schema) -> bool
    ensures { result ≡ can_join left.now right.now }
{
    all_go_together(left, right) && left.len() + lacking_len(left, right) <= ATTRS_LIMIT
}

/// Whether the operation's places are in range, a place that is summed is an int, and the schemas of a
/// join go together.
pub fn is_good_op(op: &Op) -> bool
    ensures { result ≡ is_good_op op.now }
{
    match op {
        Op::Field(schema, i) => is_place(schema, *i),
        Op::Project(schema, places) => are_places(schema, places.items()),
        Op::Join(left, right) => can_join(left, right),
        Op::Group(schema, by, aggs) => {
            are_places(schema, by.items()) && are_good_aggs(schema, aggs.items())
        }
        Op::Sum(schema, i) => is_int_at(schema, *i),
        Op::Min(schema, i) => is_place(schema, *i),
        Op::Max(schema, i) => is_place(schema, *i),
        _ => true,
    }
}
