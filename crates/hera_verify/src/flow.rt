//! The look at what is known of a machine at each address: one pass over them.
ghost use Rattle.std.specs.Prelude.{◌≡◌, ◌<◌, ◌≤◌, ◌+◌, ◌^◌, ◌&&◌, not, ℕ, [], None, Some, false, IfOk, length, replicate, slice_get};
ghost use Rattle.hera_typed.specs.Notes.{notes_of};
ghost use Rattle.hera_typed.specs.Points.{Point};
ghost use Rattle.hera_typed.specs.Effects.{home};
ghost use Rattle.hera_typed.specs.Pass.{Found, behind_walk, from_point, step, begun_with};
ghost use Rattle.hera_host.specs.Tables.{specs_of};
ghost use Rattle.hera_stacks.specs.Stacked.{Grows};
ghost use Rattle.hera_effects.specs.Spots.{IsSpot};
ghost use Rattle.hera_verify.specs.Calls.{AreCalls};
ghost use Rattle.hera_verify.specs.Looks.{FindsFlow};
ghost use Rattle.hera_verify.specs.Slots.{IsReach};
ghost use Rattle.hera_verify.specs.Tables.{IsTable, Keeps, IsPlaced, IsWalked, HasPassed, begun_at, AreStarts, if_behind};

use crate::calls::{Calls, effect_once, no_calls};
use crate::reaches::{Reach, first_reach};
use crate::tables::Table;
use hera_code::{Bodies, Code, Instr};
use hera_effects::{Around, Spot, gathers_behind, is_placed};
use hera_stacks::Stacks;
use hera_typed::pass_is_exact;
use std::alloc::{AllocError, Global};

/// A body and its addresses.
#[derive(Clone, Copy)]
pub(crate) struct Place {
    pub body: usize,
    pub reach: Reach,
}

/// What is kept of the addresses that were passed: what was found, what calls leave, the body of the last one, and whether
/// what stands behind it may stand behind a walk, if it is one.
#[derive(Drop)]
pub(crate) struct Walker {
    pub table: Table,
    pub calls: Calls,
    pub place: Place,
    pub behind: bool,
}

/// The body of an address, from one on that has begun by then.
fn place_at(code: &Code, place: Place, a: usize) -> Place
    requires place { IsPlaced code.now a place }
    ensures place { IsPlaced code.now a result }
    ensures home { home code.now a ≡ result.body }
{
    let mut own = place;
    while !own.reach.has(a) {
        own = next_place(code, own, a);
    }
    own
}

/// The next body, where that has begun, too.
fn next_place(code: &Code, place: Place, a: usize) -> Place
    requires place { IsPlaced code.now a place }
    requires more { home code.now a ≡ place.body → ⊥ }
    ensures place { IsPlaced code.now a result }
    ensures next { result.body ≡ place.body + 1 }
{
    let _count = code.bodies.len();
    Place {
        body: place.body + 1,
        reach: place.reach.next(code, place.body),
    }
}

/// Marks where a body begins, if it is an address of the code.
fn begin(spots: &mut Vec<Option<Spot>>, at: usize)
    ensures { spots.new.items ≡ begun_at spots.old.items at }
{
    if at < spots.len() {
        spots[at] = Some(Spot {
            operands: 0,
            walks: 0,
            layers: 0,
        });
    }
}

/// At first the starts of the bodies are known.
fn starts(alloc: Global, count: usize, bodies: &Bodies) -> Result<Vec<Option<Spot>>, AllocError>
    ensures { IfOk result (λ spots. AreStarts count bodies.now (length bodies.now) spots.items) }
{
    let mut spots = vec![in alloc; None; count]?;
    for k in 0..bodies.len() {
        let Some(body) = bodies.get(k) else {
            unreachable!();
        };
        begin(&mut spots, body.at as usize);
    }
    Ok(spots)
}

/// No mark at any of so many addresses.
fn no_marks(alloc: Global, count: usize) -> Result<Vec<bool>, AllocError>
    ensures { IfOk result (λ marks. marks.items ≡ replicate count false) }
{
    Ok(vec![in alloc; false; count]?)
}

/// Before all addresses.
fn first(alloc: Global, around: &Around) -> Result<Walker, AllocError>
    requires { 1 ≤ length around.now.code.now.bodies }
    ensures { IfOk result (λ walker. IsWalked around.now.code.now around.now.relations.now (specs_of around.now.hosts.now.names) (notes_of around.now.notes.now) [] walker 0 (begun_with around.now.code.now around.now.relations.now (specs_of around.now.hosts.now.names) (notes_of around.now.notes.now))) }
{
    let count = around.code.instrs.len();
    let spots = starts(alloc, count, &around.code.bodies)?;
    let broken = no_marks(alloc, count)?;
    Ok(Walker {
        table: Table {
            spots,
            broken,
            far: None,
        },
        calls: no_calls(alloc, count),
        place: Place {
            body: 0,
            reach: first_reach(around.code),
        },
        behind: true,
    })
}

/// From what is known at an address of a body.
fn from_spot(
    alloc: Global,
    around: &Around,
    stacks: &mut Stacks,
    table: &mut Table,
    calls: &mut Calls,
    place: Place,
    a: usize,
    instr: &Instr,
    spot: Spot,
) -> Result<bool, AllocError>
    requires small { a + 1 < 2 ^ 32 }
    requires there { place.body < length around.now.code.now.bodies }
    requires reach { IsReach around.now.code.now place.body place.reach }
    requires home { home around.now.code.now a ≡ place.body }
    requires calls { AreCalls around.now.code.now around.now.relations.now (specs_of around.now.hosts.now.names) (notes_of around.now.notes.now) stacks.old calls.old }
    ensures grows { Grows stacks.old stacks.new }
    ensures follows { (f : Found) → (p : Point) → IsTable stacks.old (length around.now.code.now.instrs) table.old f → IsSpot stacks.old spot p → IfOk result (λ ok. Keeps stacks.new (length around.now.code.now.instrs) table.new ok (from_point around.now.code.now around.now.relations.now (specs_of around.now.hosts.now.names) (notes_of around.now.notes.now) a instr.now (Some p) f)) }
    ensures kept { (p : Point) → IsSpot stacks.old spot p → IfOk result (λ ok. AreCalls around.now.code.now around.now.relations.now (specs_of around.now.hosts.now.names) (notes_of around.now.notes.now) stacks.new calls.new) }
{
    let ways = effect_once(alloc, around, stacks, calls, place.body, a, instr, spot)?;
    match ways {
        Some(ways) => {
            stacks.tell_shared();
            Ok(table.follow_all(place.reach, a, ways))
        }
        None => Ok(false),
    }
}

/// Whether an address isn't broken, may stand behind a walk, and has an instruction that may stand there.
fn may_go(broken: bool, behind: bool, placed: bool) -> bool
    ensures { result ≡ (not broken && behind) && placed }
{
    !broken && behind && placed
}

/// One address, where nothing below it is broken.
fn step(
    alloc: Global,
    around: &Around,
    stacks: &mut Stacks,
    table: &mut Table,
    calls: &mut Calls,
    place: Place,
    a: usize,
    instr: &Instr,
    behind: bool,
) -> Result<bool, AllocError>
    requires small { a + 1 < 2 ^ 32 }
    requires within { a < length table.old.spots.items }
    requires marked { a < length table.old.broken.items }
    requires there { place.body < length around.now.code.now.bodies }
    requires reach { IsReach around.now.code.now place.body place.reach }
    requires home { home around.now.code.now a ≡ place.body }
    requires behind { behind ≡ behind_walk around.now.code.now around.now.relations.now (specs_of around.now.hosts.now.names) (notes_of around.now.notes.now) a }
    requires calls { AreCalls around.now.code.now around.now.relations.now (specs_of around.now.hosts.now.names) (notes_of around.now.notes.now) stacks.old calls.old }
    ensures grows { Grows stacks.old stacks.new }
    ensures steps { (f : Found) → IsTable stacks.old (length around.now.code.now.instrs) table.old f → IfOk result (λ ok. Keeps stacks.new (length around.now.code.now.instrs) table.new ok (step around.now.code.now around.now.relations.now (specs_of around.now.hosts.now.names) (notes_of around.now.notes.now) a instr.now f)) }
    ensures kept { (f : Found) → IsTable stacks.old (length around.now.code.now.instrs) table.old f → IfOk result (λ ok. AreCalls around.now.code.now around.now.relations.now (specs_of around.now.hosts.now.names) (notes_of around.now.notes.now) stacks.new calls.new) }
{
    let broken = table.is_broken(a);
    let placed = is_placed(around, place.body, a, instr);
    if !may_go(broken, behind, placed) {
        return Ok(false);
    }
    match table.spot_at(a) {
        Some(spot) => from_spot(alloc, around, stacks, table, calls, place, a, instr, spot),
        None => Ok(true),
    }
}

/// The instruction at the next address.
fn pass_one(
    alloc: Global,
    around: &Around,
    stacks: &mut Stacks,
    walker: &mut Walker,
    a: usize,
    instr: &Instr,
) -> Result<bool, AllocError>
    requires small { a + 1 < 2 ^ 32 }
    requires here { slice_get around.now.code.now.instrs a ≡ Some instr.now }
    requires walked { (f : Found) × IsWalked around.now.code.now around.now.relations.now (specs_of around.now.hosts.now.names) (notes_of around.now.notes.now) stacks.old walker.old a f }
    ensures { IfOk result (λ on. HasPassed around.now.code.now around.now.relations.now (specs_of around.now.hosts.now.names) (notes_of around.now.notes.now) stacks.new walker.new a on) }
{
    let place = place_at(around.code, walker.place, a);
    walker.place = place;
    let on = step(
        alloc,
        around,
        stacks,
        &mut walker.table,
        &mut walker.calls,
        place,
        a,
        instr,
        walker.behind,
    )?;
    walker.behind = gathers_behind(around, place.body, a, instr);
    Ok(on)
}

/// The least broken address behind the code, if one is.
fn broken_behind(walker: &Walker, count: usize) -> Option<u32>
    requires { count < 2 ^ 32 }
    ensures { result ≡ if_behind walker.now.behind count walker.now.table.far }
{
    if walker.behind {
        walker.table.far
    } else {
        Some(count as u32)
    }
}

/// The least address up to which no points meet the rules on instructions.
pub(crate) fn look(alloc: Global, around: &Around) -> Result<Option<u32>, AllocError>
    requires some { 1 ≤ length around.now.code.now.bodies }
    requires short { length around.now.code.now.instrs < 2 ^ 32 }
    ensures { IfOk result (λ found. FindsFlow around.now.code.now around.now.relations.now (specs_of around.now.hosts.now.names) (notes_of around.now.notes.now) found) }
{
    pass_is_exact();
    let count = around.code.instrs.len();
    let mut stacks = Stacks::with_capacity(alloc, count)?;
    let mut walker = first(alloc, around)?;
    for a in 0..count {
        let Some(instr) = around.code.instrs.get(a) else {
            unreachable!();
        };
        let on = pass_one(alloc, around, &mut stacks, &mut walker, a, instr)?;
        if !on {
            return Ok(Some(a as u32));
        }
    }
    Ok(broken_behind(&walker, count))
}
