//! A left row and a right row.
ghost use Rattle.std.specs.Prelude.{◌≡◌, ◌<◌, ℕ, List, [], true, drop, length, slice_get, Some, IfOk, IfSome};
ghost use Rattle.hera_meaning.specs.Rows.{pieces};
ghost use Rattle.hera_meaning.specs.Relations.{piece_at, has_name, piece_named, agree, joined};
ghost use Rattle.rel_algebra.specs.Fronts.{begins};
ghost use Rattle.join_exec.specs.Leading.{ArePlaces, leading_of, shared_of};

use hera_meaning::Schema;
use hera_rows::RowBuf;
use hera_sets::is_same;
use rel_algebra::piece;
use std::alloc::{AllocError, Global};

/// For each attribute of the right schema, its place in the left, if the left has it too. A join finds these once, for
/// all rows.
pub fn places_of(
    alloc: Global,
    left: &Schema,
    right: &Schema,
) -> Result<Vec<Option<usize>>, AllocError>
    ensures { IfOk result (λ places. ArePlaces left.now right.now places.items) }
{
    let mut places = Vec::with_capacity(alloc, right.len())?;
    for place in 0..right.len() {
        places.push(left.position(right.attr(place).name.bytes()))?;
    }
    Ok(places)
}

/// The place in the left schema of the right one's attribute at this place, if the left has it too.
#[inline]
fn place_at(places: &[Option<usize>], place: usize) -> Option<usize>
    requires { place < length places.now }
    ensures { slice_get places.now place ≡ Some result }
{
    places[place]
}

/// Whether the left lacks the right schema's second attribute, or there is none.
fn one_leads(left: &Schema, right: &Schema, places: &[Option<usize>]) -> bool
    requires places { ArePlaces left.now right.now places.now }
    ensures { (row : List ℕ) → result ≡ true → leading_of left.now row (drop 1 right.now) ≡ [] }
{
    if places.len() <= 1 {
        return true;
    }
    place_at(places, 1).is_none()
}

/// The place in the left schema of the right one's first attribute, where that alone leads.
pub fn one_leading(left: &Schema, right: &Schema, places: &[Option<usize>]) -> Option<usize>
    requires places { ArePlaces left.now right.now places.now }
    ensures { (row : List ℕ) → IfSome result (λ place. piece_at (pieces left.now row) place ≡ leading_of left.now row right.now) }
{
    if places.is_empty() || !one_leads(left, right, places) {
        return None;
    }
    place_at(places, 0)
}

/// The fields of a left row at the leading attributes of the right schema, up to the first that the
/// left lacks. Each right row that agrees with the left row begins with them.
pub fn leading(
    alloc: Global,
    left: &Schema,
    right: &Schema,
    places: &[Option<usize>],
    row: &[u8],
) -> Result<RowBuf, AllocError>
    requires places { ArePlaces left.now right.now places.now }
    ensures fields { IfOk result (λ front. front ≡ leading_of left.now row.now right.now) }
    ensures sought { IfOk result (λ front. (other : List ℕ) → agree left.now right.now (row.now, other) ≡ true → begins front other ≡ true) }
{
    let mut front = Vec::new(alloc);
    for place in 0..places.len() {
        match place_at(places, place) {
            Some(ours) => front.extend_from_slice(piece(left, row, ours))?,
            None => return Ok(RowBuf::from_vec(front)),
        }
    }
    Ok(RowBuf::from_vec(front))
}

/// Whether the attributes of the right schema that the left has too stand before those that it lacks. It says how to
/// join, and not what.
pub fn leads(places: &[Option<usize>]) -> bool {
    let mut lacking = false;
    for place in places {
        if place.is_none() {
            lacking = true;
        } else if lacking {
            return false;
        }
    }
    true
}

/// The fields of a row of the schema at the attributes of the right schema that the left has too.
pub fn shared(
    alloc: Global,
    left: &Schema,
    right: &Schema,
    schema: &Schema,
    row: &[u8],
) -> Result<RowBuf, AllocError>
    ensures { IfOk result (λ key. key ≡ shared_of left.now right.now schema.now row.now) }
{
    let mut key = Vec::new(alloc);
    for place in 0..right.len() {
        let name = right.attr(place).name.bytes();
        if has_name(left, name) {
            key.extend_from_slice(piece_named(schema, row, name))?;
        }
    }
    Ok(RowBuf::from_vec(key))
}

/// Whether the two rows are equal on the common attributes.
pub fn agree(
    left: &Schema,
    right: &Schema,
    places: &[Option<usize>],
    row: &[u8],
    other: &[u8],
) -> bool
    requires places { ArePlaces left.now right.now places.now }
    ensures { result ≡ agree left.now right.now (row.now, other.now) }
{
    for place in 0..places.len() {
        if let Some(ours) = place_at(places, place) {
            if !is_same(piece(left, row, ours), piece(right, other, place)) {
                return false;
            }
        }
    }
    true
}

/// The left row, and behind it the fields of the right row that the left lacks.
pub fn joined(
    alloc: Global,
    left: &Schema,
    right: &Schema,
    places: &[Option<usize>],
    row: &[u8],
    other: &[u8],
) -> Result<RowBuf, AllocError>
    requires places { ArePlaces left.now right.now places.now }
    ensures { IfOk result (λ both. both ≡ joined left.now right.now (row.now, other.now)) }
{
    let mut both = Vec::with_capacity(alloc, row.len().saturating_add(other.len()))?;
    both.extend_from_slice(row)?;
    for place in 0..places.len() {
        if place_at(places, place).is_none() {
            both.extend_from_slice(piece(right, other, place))?;
        }
    }
    Ok(RowBuf::from_vec(both))
}

/// Whether an attribute has this name.
fn has_name(schema: &Schema, name: &[u8]) -> bool
    ensures { result ≡ has_name schema.now name.now }
{
    schema.position(name).is_some()
}

/// The bytes of the field of this name, and none where no attribute has it.
fn piece_named<'a>(schema: &Schema, row: &'a [u8], name: &[u8]) -> &'a [u8]
    ensures { result.now ≡ piece_named name.now schema.now (pieces schema.now row.entry.now) }
{
    match schema.position(name) {
        Some(place) => piece(schema, row, place),
        None => &row[..0],
    }
}
