//! Calls, and makings of relations, each of which is looked at once for what it names and its operands.
ghost use Rattle.std.specs.Prelude.{◌≡◌, ◌<◌, ◌+◌, ◌^◌, ℕ, Some, List, IfOk};
ghost use Rattle.hera_meaning.specs.declared.schemas.RelDecl.{RelDecl};
ghost use Rattle.hera_meaning.specs.Hosts.{Hosts};
ghost use Rattle.hera_code.specs.declared.instrs.Code.{Code as PlainCode};
ghost use Rattle.hera_code.specs.declared.instrs.Instr.{Instr as PlainInstr};
ghost use Rattle.hera_typed.specs.Points.{Point};
ghost use Rattle.hera_typed.specs.Notes.{notes_of};
ghost use Rattle.hera_typed.specs.Effects.{Body_note, effect};
ghost use Rattle.hera_host.specs.Tables.{specs_of};
ghost use Rattle.hera_stacks.specs.declared.stacks.Node.{Node};
ghost use Rattle.hera_stacks.specs.Stacked.{AreOperands, Grows};
ghost use Rattle.hera_effects.specs.Spots.{IsSpot};
ghost use Rattle.hera_effects.specs.Ways.{Both, AreWays};
ghost use Rattle.hera_verify.specs.Calls.{IsKnown, call_of, making_of, Replaces, AreLeft, AreCalls};

use hera_code::Instr;
use hera_effects::{Around, Spot, Ways, effect};
use hera_meaning::Op;
use hera_stacks::Stacks;
use std::alloc::{AllocError, Global};
use std::collections::BTreeMap;

/// How many operands of calls and makings of relations are looked at for each instruction of the code, at most. Code of
/// a script needs one, since each operand there is taken once.
const LOOKS_PER_INSTR: usize = 16;
/// How many are looked at beside, however short the code is.
const FREE_LOOKS: usize = 1_048_576;

/// What calls leave, by the number of the body and that of the operands, what makings of relations leave, by the count
/// of tuples and the number of the operands, and how many operands may still be looked at.
#[derive(Drop)]
pub(crate) struct Calls {
    pub left: BTreeMap<(u32, u32), u32>,
    pub made: BTreeMap<(u32, u32), u32>,
    pub looks: usize,
}

/// None was looked at, of code with so many instructions.
pub(crate) fn no_calls(alloc: Global, instrs: usize) -> Calls
    ensures { (code : PlainCode) → (rels : List RelDecl) → (hosts : Hosts) → (notes : List Body_note) → (nodes : List Node) → AreCalls code rels hosts notes nodes result }
{
    Calls {
        left: BTreeMap::new(alloc),
        made: BTreeMap::new(alloc),
        looks: instrs
            .saturating_mul(LOOKS_PER_INSTR)
            .saturating_add(FREE_LOOKS),
    }
}

/// On to the next address with these operands.
fn on(a: usize, spot: Spot, operands: u32) -> Ways
    requires { a + 1 < 2 ^ 32 }
    ensures first { result.first ≡ Some (a + 1) }
    ensures second { result.second ≡ None }
    ensures point { result.point ≡ Some (record { operands = operands; walks = spot.walks; layers = spot.layers }) }
{
    Ways {
        first: Some(a as u32 + 1),
        second: None,
        point: Some(Spot {
            operands,
            walks: spot.walks,
            layers: spot.layers,
        }),
    }
}

/// Where an instruction of a number goes on that was looked at.
fn known(left: &BTreeMap<(u32, u32), u32>, number: u32, a: usize, spot: Spot) -> Option<Ways>
    requires { a + 1 < 2 ^ 32 }
    ensures { (code : PlainCode) → (rels : List RelDecl) → (hosts : Hosts) → (notes : List Body_note) → (nodes : List Node) → (is : ℕ → ℕ → PlainInstr) → (k at : ℕ) → (p : Point) → AreLeft code rels hosts notes nodes is left.now → IsSpot nodes spot p → IsKnown nodes result (effect code rels hosts notes k a (is number at) p) }
{
    match left.get(&(number, spot.operands)) {
        Some(operands) => Some(on(a, spot, *operands)),
        None => None,
    }
}

/// Takes down what an instruction of a number leaves.
fn remember(
    left: &mut BTreeMap<(u32, u32), u32>,
    number: u32,
    operands: u32,
    ways: Option<Ways>,
) -> Result<(), AllocError>
    ensures { (code : PlainCode) → (rels : List RelDecl) → (hosts : Hosts) → (notes : List Body_note) → (nodes : List Node) → (is : ℕ → ℕ → PlainInstr) → (k a at : ℕ) → (p : Point) → Replaces code rels hosts notes (is number) → AreLeft code rels hosts notes nodes is left.old → AreOperands nodes operands p.operands → Both (AreWays nodes) ways (effect code rels hosts notes k a (is number at) p) → IfOk result (λ done. AreLeft code rels hosts notes nodes is left.new) }
{
    let Some(ways) = ways else {
        return Ok(());
    };
    let Some(spot) = ways.point else {
        return Ok(());
    };
    left.insert((number, operands), spot.operands)?;
    Ok(())
}

/// An instruction of a number that was not looked at.
fn look_at(
    alloc: Global,
    around: &Around,
    stacks: &mut Stacks,
    left: &mut BTreeMap<(u32, u32), u32>,
    k: usize,
    a: usize,
    instr: &Instr,
    number: u32,
    spot: Spot,
) -> Result<Option<Ways>, AllocError>
    requires small { a + 1 < 2 ^ 32 }
    ensures grows { Grows stacks.old stacks.new }
    ensures effect { (p : Point) → IsSpot stacks.old spot p → IfOk result (λ r. Both (AreWays stacks.new) r (effect around.now.code.now around.now.relations.now (specs_of around.now.hosts.now.names) (notes_of around.now.notes.now) k a instr.now p)) }
    ensures kept { (is : ℕ → ℕ → PlainInstr) → (at : ℕ) → (p : Point) → instr.now ≡ is number at → Replaces around.now.code.now around.now.relations.now (specs_of around.now.hosts.now.names) (notes_of around.now.notes.now) (is number) → IsSpot stacks.old spot p → AreLeft around.now.code.now around.now.relations.now (specs_of around.now.hosts.now.names) (notes_of around.now.notes.now) stacks.old is left.old → IfOk result (λ r. AreLeft around.now.code.now around.now.relations.now (specs_of around.now.hosts.now.names) (notes_of around.now.notes.now) stacks.new is left.new) }
{
    let ways = effect(alloc, around, stacks, k, a, instr, spot)?;
    remember(left, number, spot.operands, ways)?;
    Ok(ways)
}

/// Where an instruction of a number goes on, looked at where that is not known.
fn once(
    alloc: Global,
    around: &Around,
    stacks: &mut Stacks,
    left: &mut BTreeMap<(u32, u32), u32>,
    k: usize,
    a: usize,
    instr: &Instr,
    number: u32,
    spot: Spot,
) -> Result<Option<Ways>, AllocError>
    requires small { a + 1 < 2 ^ 32 }
    ensures grows { Grows stacks.old stacks.new }
    ensures effect { (is : ℕ → ℕ → PlainInstr) → (at : ℕ) → (p : Point) → instr.now ≡ is number at → IsSpot stacks.old spot p → AreLeft around.now.code.now around.now.relations.now (specs_of around.now.hosts.now.names) (notes_of around.now.notes.now) stacks.old is left.old → IfOk result (λ r. Both (AreWays stacks.new) r (effect around.now.code.now around.now.relations.now (specs_of around.now.hosts.now.names) (notes_of around.now.notes.now) k a instr.now p)) }
    ensures kept { (is : ℕ → ℕ → PlainInstr) → (at : ℕ) → (p : Point) → instr.now ≡ is number at → Replaces around.now.code.now around.now.relations.now (specs_of around.now.hosts.now.names) (notes_of around.now.notes.now) (is number) → IsSpot stacks.old spot p → AreLeft around.now.code.now around.now.relations.now (specs_of around.now.hosts.now.names) (notes_of around.now.notes.now) stacks.old is left.old → IfOk result (λ r. AreLeft around.now.code.now around.now.relations.now (specs_of around.now.hosts.now.names) (notes_of around.now.notes.now) stacks.new is left.new) }
{
    match known(left, number, a, spot) {
        Some(ways) => Ok(Some(ways)),
        None => look_at(alloc, around, stacks, left, k, a, instr, number, spot),
    }
}

/// Counts a look at so many operands, of which there are no more than instructions before the address, where there was
/// none at them. Too many are refused, so that the time grows with the code alone.
fn allow(
    left: &BTreeMap<(u32, u32), u32>,
    looks: &mut usize,
    a: usize,
    number: u32,
    spot: Spot,
    taken: u32,
) -> Result<(), AllocError> {
    if left.get(&(number, spot.operands)).is_none() {
        let taken = a.min(taken as usize);
        *looks = looks.checked_sub(taken).ok_or(AllocError)?;
    }
    Ok(())
}

/// How many parameters a body has, if there is one of this number.
fn params_of(around: &Around, body: u32) -> u32 {
    match around.code.bodies.get(body as usize) {
        Some(body) => body.params,
        None => 0,
    }
}

/// Where a call goes on.
fn call_once(
    alloc: Global,
    around: &Around,
    stacks: &mut Stacks,
    calls: &mut Calls,
    k: usize,
    a: usize,
    instr: &Instr,
    j: u32,
    spot: Spot,
) -> Result<Option<Ways>, AllocError>
    requires small { a + 1 < 2 ^ 32 }
    requires call { instr.now ≡ call_of j 0 }
    requires calls { AreCalls around.now.code.now around.now.relations.now (specs_of around.now.hosts.now.names) (notes_of around.now.notes.now) stacks.old calls.old }
    ensures grows { Grows stacks.old stacks.new }
    ensures effect { (p : Point) → IsSpot stacks.old spot p → IfOk result (λ r. Both (AreWays stacks.new) r (effect around.now.code.now around.now.relations.now (specs_of around.now.hosts.now.names) (notes_of around.now.notes.now) k a instr.now p)) }
    ensures kept { (p : Point) → IsSpot stacks.old spot p → IfOk result (λ r. AreCalls around.now.code.now around.now.relations.now (specs_of around.now.hosts.now.names) (notes_of around.now.notes.now) stacks.new calls.new) }
{
    let taken = params_of(around, j);
    allow(&calls.left, &mut calls.looks, a, j, spot, taken)?;
    once(alloc, around, stacks, &mut calls.left, k, a, instr, j, spot)
}

/// Where a making of a relation goes on.
fn make_once(
    alloc: Global,
    around: &Around,
    stacks: &mut Stacks,
    calls: &mut Calls,
    k: usize,
    a: usize,
    instr: &Instr,
    count: u32,
    spot: Spot,
) -> Result<Option<Ways>, AllocError>
    requires small { a + 1 < 2 ^ 32 }
    requires making { (at : ℕ) × (instr.now ≡ making_of count at) }
    requires calls { AreCalls around.now.code.now around.now.relations.now (specs_of around.now.hosts.now.names) (notes_of around.now.notes.now) stacks.old calls.old }
    ensures grows { Grows stacks.old stacks.new }
    ensures effect { (p : Point) → IsSpot stacks.old spot p → IfOk result (λ r. Both (AreWays stacks.new) r (effect around.now.code.now around.now.relations.now (specs_of around.now.hosts.now.names) (notes_of around.now.notes.now) k a instr.now p)) }
    ensures kept { (p : Point) → IsSpot stacks.old spot p → IfOk result (λ r. AreCalls around.now.code.now around.now.relations.now (specs_of around.now.hosts.now.names) (notes_of around.now.notes.now) stacks.new calls.new) }
{
    allow(&calls.made, &mut calls.looks, a, count, spot, count)?;
    once(
        alloc,
        around,
        stacks,
        &mut calls.made,
        k,
        a,
        instr,
        count,
        spot,
    )
}

/// How many tuples the instruction makes a relation of, if it makes one.
fn made_of(instr: &Instr) -> Option<u32>
    ensures { (count : ℕ) → result ≡ Some count → (at : ℕ) × (instr.now ≡ making_of count at) }
{
    let Instr::Prim(op, _) = instr else {
        return None;
    };
    match op {
        Op::MakeRel(count) => Some(*count),
        _ => None,
    }
}

/// Where an instruction goes on, as `effect` says. A call is looked at once for its body and its operands, and a making
/// of a relation for its count and its operands.
pub(crate) fn effect_once(
    alloc: Global,
    around: &Around,
    stacks: &mut Stacks,
    calls: &mut Calls,
    k: usize,
    a: usize,
    instr: &Instr,
    spot: Spot,
) -> Result<Option<Ways>, AllocError>
    requires small { a + 1 < 2 ^ 32 }
    requires calls { AreCalls around.now.code.now around.now.relations.now (specs_of around.now.hosts.now.names) (notes_of around.now.notes.now) stacks.old calls.old }
    ensures grows { Grows stacks.old stacks.new }
    ensures effect { (p : Point) → IsSpot stacks.old spot p → IfOk result (λ r. Both (AreWays stacks.new) r (effect around.now.code.now around.now.relations.now (specs_of around.now.hosts.now.names) (notes_of around.now.notes.now) k a instr.now p)) }
    ensures kept { (p : Point) → IsSpot stacks.old spot p → IfOk result (λ r. AreCalls around.now.code.now around.now.relations.now (specs_of around.now.hosts.now.names) (notes_of around.now.notes.now) stacks.new calls.new) }
{
    if let Instr::Call(j) = instr {
        return call_once(alloc, around, stacks, calls, k, a, instr, *j, spot);
    }
    match made_of(instr) {
        Some(count) => make_once(alloc, around, stacks, calls, k, a, instr, count, spot),
        None => effect(alloc, around, stacks, k, a, instr, spot),
    }
}
