//! How far the ranges go that begin at the places of a body.

ghost use Rattle.std.specs.Prelude.{◌≡◌, ◌<◌, ◌≤◌, ◌-◌, ◌+◌, ℕ, List, [], ◌∷◌, length, slice_get, Some, IfOk, OnOk};
ghost use Rattle.hera_noted.specs.declared.ways.Sources.{Sources as PlainSources};
ghost use Rattle.hera_noted.specs.Ends.{Fall, IsFarthestIn, AreStops, AreGates, IsLimit};

use crate::ways::Sources;
use std::alloc::{AllocError, Global};

/// A place to which ways lead, and the first from which one does.
#[derive(Clone, Copy, PartialEq, Eq, Debug)]
pub struct Gate {
    pub place: usize,
    pub first: usize,
}

/// How many places are above a limit, of places that fall.
fn count_above(places: &[usize], limit: usize) -> usize
    requires { Fall places.now }
    ensures within { result ≤ length places.now }
    ensures above { (i p : ℕ) → slice_get places.now i ≡ Some p → i < result → limit < p }
    ensures rest { (i p : ℕ) → slice_get places.now i ≡ Some p → result ≤ i → p ≤ limit }
{
    let mut low = 0;
    let mut high = places.len();
    while low < high {
        let middle = low + (high - low) / 2;
        if limit < places[middle] {
            low = middle + 1;
        } else {
            high = middle;
        }
    }
    low
}

/// The ends into which no way leads from behind, for the place before the ones that are done.
fn put_stop(stops: &mut Vec<usize>, all: &[Sources], from: usize) -> Result<(), AllocError>
    requires from { from < length all.now }
    requires stops { AreStops all.now (from + 1) stops.old.items }
    ensures { OnOk result (AreStops all.now from stops.new.items) }
{
    let kept = count_above(stops.as_slice(), all[from].last);
    stops.truncate(kept);
    stops.push(from)?;
    Ok(())
}

/// How many gates are left when the last ones are dropped to which no way leads from before a place.
fn count_kept(gates: &[Gate], from: usize) -> usize
    ensures within { result ≤ length gates.now }
    ensures dropped { (i : ℕ) → (g : Gate) → slice_get gates.now i ≡ Some g → result ≤ i → from ≤ g.first }
    ensures last { (i : ℕ) → (g : Gate) → slice_get gates.now i ≡ Some g → i + 1 ≡ result → g.first < from }
{
    for n in 0..gates.len() {
        let at = gates.len() - 1 - n;
        if gates[at].first < from {
            return at + 1;
        }
    }
    0
}

/// The places to which ways lead from before, for the place before the ones that are done.
fn put_gate(gates: &mut Vec<Gate>, all: &[Sources], from: usize) -> Result<(), AllocError>
    requires from { from < length all.now }
    requires gates { AreGates all.now (from + 1) gates.old.items }
    ensures { OnOk result (AreGates all.now from gates.new.items) }
{
    let first = all[from].first;
    let kept = count_kept(gates.as_slice(), from);
    gates.truncate(kept);
    if from <= first {
        return Ok(());
    }
    gates.push(Gate { place: from, first })?;
    Ok(())
}

/// The farthest end into which no way leads from before, in a body of so many places.
fn limit(gates: &[Gate], count: usize) -> usize
    ensures { (all : List PlainSources) → (from : ℕ) → length all ≡ count → from ≤ count → AreGates all from gates.now → IsLimit all from result }
{
    match gates.last() {
        Some(gate) => gate.place,
        None => count,
    }
}

/// The farthest stop up to a limit.
fn stop_within(stops: &[usize], limit: usize) -> usize
    requires fall { Fall stops.now }
    requires some { (i : ℕ) × (p : ℕ) × (slice_get stops.now i ≡ Some p) × (p ≤ limit) }
    ensures stop { (i : ℕ) × (slice_get stops.now i ≡ Some result) }
    ensures within { result ≤ limit }
    ensures farthest { (i p : ℕ) → slice_get stops.now i ≡ Some p → p ≤ limit → p ≤ result }
{
    let place = count_above(stops, limit);
    stops[place]
}

/// The end of the range that begins at the place before the ones that are done.
fn end_at(
    stops: &mut Vec<usize>,
    gates: &mut Vec<Gate>,
    all: &[Sources],
    from: usize,
) -> Result<usize, AllocError>
    requires from { from < length all.now }
    requires stops { AreStops all.now (from + 1) stops.old.items }
    requires gates { AreGates all.now (from + 1) gates.old.items }
    ensures stops { OnOk result (AreStops all.now from stops.new.items) }
    ensures gates { OnOk result (AreGates all.now from gates.new.items) }
    ensures end { IfOk result (IsFarthestIn all.now from) }
{
    put_stop(stops, all, from)?;
    put_gate(gates, all, from)?;
    let limit = limit(gates.as_slice(), all.len());
    Ok(stop_within(stops.as_slice(), limit))
}

/// A list of one number.
fn list_of_one(alloc: Global, number: usize) -> Result<Vec<usize>, AllocError>
    ensures { IfOk result (λ list. list.items ≡ number ∷ []) }
{
    Ok(vec![in alloc; number]?)
}

/// The farthest end of a range for each place at which it may begin, from the one behind the body on down to the
/// first.
pub fn farthest_ends(alloc: Global, all: &[Sources]) -> Result<Vec<usize>, AllocError>
    ensures long { IfOk result (λ ends. length ends.items ≡ length all.now + 1) }
    ensures ends { IfOk result (λ ends. (n e : ℕ) → slice_get ends.items n ≡ Some e → IsFarthestIn all.now (length all.now - n) e) }
{
    let count = all.len();
    let mut stops = list_of_one(alloc, count)?;
    let mut gates = Vec::new(alloc);
    let mut ends = list_of_one(alloc, count)?;
    for n in 0..count {
        ends.push(end_at(&mut stops, &mut gates, all, count - 1 - n)?)?;
    }
    Ok(ends)
}
