//! Code run by hand: some that no generator made, and some over few rows and over many.
ghost use Rattle.std.specs.Prelude.{◌≡◌, true, [], None, Ok, IfOk};
ghost use Rattle.hera_machine.specs.Counted.{AreCountsOver};
ghost use Rattle.hera_machine.specs.Over.{state_over};
ghost use Rattle.hera_machine.specs.declared.events.Status.TheVariants.{Working};

use crate::samples::numbers;
use delta_atoms::Value;
use hera_code::{Bodies, BodyInfo, Code, Instr, Instrs};
use hera_fits::fits_rel;
use hera_host::HostTable;
use hera_machine::{End, Event, Machine};
use hera_meaning::{Const, Op, RelDecl, RelId, Scalar, Shape, Sign, Text};
use hera_prims::prim_rel;
use hera_reads::Counts;
use hera_rows::RowSet;
use rel_format::{PAGE_HEAD, PAGE_ONE};
use rel_pages::{Base, PageRel, read_half};
use std::alloc::{AllocError, Global};
use std::mem::size_of;
use std::process::Abort;
use std::test::Fail;

/// Who found no memory.
#[derive(Debug, Drop)]
enum Starved {
    /// A step of the machine, or the place made for its next operand.
    Machine,
    /// What makes the machine, the code or the base, or keeps what is printed.
    Other,
}

impl From<AllocError> for Starved {
    fn from(_: AllocError) -> Starved {
        Starved::Other
    }
}

/// A relation of one int.
fn relation(alloc: Global, name: &[u8]) -> Result<RelDecl, Fail> {
    let name = Text::new(alloc, name)?;
    let schema = numbers(alloc)?;
    Ok(RelDecl { name, schema })
}

/// The code of a main without slots that has these instructions.
fn code_of(alloc: Global, instrs: Vec<Instr>) -> Result<Code, Fail> {
    let main = BodyInfo {
        at: 0,
        params: 0,
        slots: 0,
        func: false,
    };
    let bodies = Bodies::new(Vec::from_array(alloc, [main])?);
    let instrs = Instrs::new(instrs);
    Ok(Code { instrs, bodies })
}

/// The event of a step, or that the machine found no memory for it.
fn moved(answer: Result<Event, AllocError>) -> Result<Event, Starved>
    ensures { IfOk result (λ event. answer ≡ Ok event) }
{
    match answer {
        Ok(event) => Ok(event),
        Err(AllocError) => Err(Starved::Machine),
    }
}

/// Executes an instruction, puts what it prints behind the rest, and tells whether the code goes on.
fn step(
    rt: &impl Abort,
    machine: &mut Machine,
    counts: &mut Counts,
    base: &Base,
    hosts: &HostTable,
    printed: &mut Vec<u8>,
) -> Result<bool, Starved>
    requires waits { machine.old.waits ≡ None }
    requires works { machine.old.status ≡ Working }
    requires counted { AreCountsOver (state_over base.now.state []) machine.old counts.old }
    ensures waits { IfOk result (λ on. on ≡ true → machine.new.waits ≡ None) }
    ensures works { IfOk result (λ on. on ≡ true → machine.new.status ≡ Working) }
    ensures counted { IfOk result (λ on. on ≡ true → AreCountsOver (state_over base.now.state []) machine.new counts.new) }
{
    match moved(machine.advance(base, &[], counts, hosts))? {
        Event::Quiet => Ok(true),
        Event::Out(line) => {
            printed.extend_from_slice(line.bytes())?;
            Ok(true)
        }
        Event::Commit => {
            assert!(rt; false);
            Ok(false)
        }
        Event::Ended(end) => {
            assert_eq!(rt; end, End::Done);
            Ok(false)
        }
    }
}

/// What code prints up to its end, with each instruction executed once.
fn printed(
    rt: &impl Abort,
    alloc: Global,
    code: &Code,
    relations: &[RelDecl],
    base: &Base,
) -> Result<Vec<u8>, Starved> {
    let hosts = HostTable::new(alloc);
    let mut machine = Machine::new(alloc, code, relations, 1)?;
    let mut counts = Counts::new(alloc, relations.len())?;
    let mut printed = Vec::new(alloc);
    'steps: for _ in 0..code.instrs.len() {
        if !step(rt, &mut machine, &mut counts, base, &hosts, &mut printed)? {
            break 'steps;
        }
    }
    Ok(printed)
}

/// The base with the empty relation R(a int).
fn base(alloc: Global) -> Result<Base, Fail> {
    let bytes = Vec::from_slice(alloc, b"HERA0001\0\x01\x01R\x01\x01a\x01\0\0\0\0\0")?;
    Ok(read_half(alloc, bytes)?)
}

/// R is pushed, then the tuple 1 is applied to it, and then what was pushed is counted and printed.
fn code(alloc: Global) -> Result<Code, Fail> {
    let schema = numbers(alloc)?;
    let instrs = [
        Instr::Rel(RelId(0)),
        Instr::Push(Const::Scalar(Scalar::Int(1))),
        Instr::Prim(Op::MakeRow(schema), 0),
        Instr::Prim(Op::Atom(Sign::Plus, RelId(0)), 0),
        Instr::Apply(0),
        Instr::Prim(Op::Count, 0),
        Instr::Print(Shape::Int),
        Instr::Halt,
    ];
    code_of(alloc, Vec::from_array(alloc, instrs)?)
}

#[test]
fn values_and_events_have_few_bytes(rt: HostRuntime) -> Result<(), Fail> {
    assert_eq!(rt; size_of::<Scalar>(), 16);
    assert_eq!(rt; size_of::<Value>(), 48);
    assert_eq!(rt; size_of::<Event>(), 32);
    Ok(())
}

/// A relation that was pushed has the rows of that moment.
#[test]
fn an_operand_keeps_the_rows_of_its_moment(rt: HostRuntime) -> Result<(), Fail> {
    let alloc = rt.alloc();
    let base = base(alloc)?;
    let relations = Vec::from_array(alloc, [relation(alloc, b"R")?])?;
    let code = code(alloc)?;
    let outcome = printed(&rt, alloc, &code, &relations, &base);
    drop(code);
    drop(relations);
    drop(base);
    let printed = outcome?;
    assert!(rt; printed.as_slice() == b"0\n".as_slice());
    Ok(())
}

/// Puts zeros behind so many bytes of a page of format 1, up to its end.
fn fill_page(bytes: &mut Vec<u8>, used: usize) -> Result<(), AllocError> {
    for _ in used..PAGE_ONE {
        bytes.push(0)?;
    }
    Ok(())
}

/// Puts a page with so many rows of one int behind the others, each the next after the last one.
fn put_page(bytes: &mut Vec<u8>, rel: u16, last: &mut u64, count: u16) -> Result<(), AllocError> {
    bytes.extend_from_slice(&rel.to_be_bytes())?;
    bytes.extend_from_slice(&count.to_be_bytes())?;
    for _ in 0..count {
        *last = last.wrapping_add(1);
        bytes.extend_from_slice(&last.to_be_bytes())?;
    }
    fill_page(bytes, PAGE_HEAD + 8 * usize::from(count))
}

/// The base with Q(a int), which holds 1, and R(a int), which holds the ints from 1 on: so many full pages
/// of them, and then a page of so many.
fn two_relations(alloc: Global, full: u8, rest: u16) -> Result<Base, Fail> {
    let mut bytes = Vec::from_slice(alloc, b"HERA0001\0\x02\x01Q\x01\x01a\x01\x01R\x01\x01a\x01")?;
    bytes.extend_from_slice(&(u32::from(full) + 2).to_be_bytes())?;
    // An int is kept with its sign turned.
    put_page(&mut bytes, 0, &mut (1 << 63), 1)?;
    let mut last = 1 << 63;
    for _ in 0..full {
        put_page(&mut bytes, 1, &mut last, 1023)?;
    }
    put_page(&mut bytes, 1, &mut last, rest)?;
    // The closed gate.
    bytes.push(0)?;
    Ok(read_half(alloc, bytes)?)
}

/// Puts the code of `R when {+R(0)}` behind the others.
fn put_read(alloc: Global, instrs: &mut Vec<Instr>) -> Result<(), Fail> {
    let schema = numbers(alloc)?;
    instrs.push(Instr::Push(Const::Scalar(Scalar::Int(0))))?;
    instrs.push(Instr::Prim(Op::MakeRow(schema), 0))?;
    instrs.push(Instr::Prim(Op::Atom(Sign::Plus, RelId(1)), 0))?;
    instrs.push(Instr::Enter(0))?;
    instrs.push(Instr::Rel(RelId(1)))?;
    instrs.push(Instr::Leave)?;
    Ok(())
}

/// Puts the code of `print count(R when {+R(0)}) > 5; print count(join(Q, R when {+R(0)}));` there.
fn put_counts(alloc: Global, instrs: &mut Vec<Instr>) -> Result<(), Fail> {
    put_read(alloc, instrs)?;
    instrs.push(Instr::Prim(Op::Count, 0))?;
    instrs.push(Instr::Push(Const::Scalar(Scalar::Int(5))))?;
    instrs.push(Instr::Prim(Op::Gt, 0))?;
    instrs.push(Instr::Print(Shape::Bool))?;
    instrs.push(Instr::Rel(RelId(0)))?;
    put_read(alloc, instrs)?;
    let left = numbers(alloc)?;
    let right = numbers(alloc)?;
    instrs.push(Instr::Prim(Op::Join(left, right), 0))?;
    instrs.push(Instr::Prim(Op::Count, 0))?;
    instrs.push(Instr::Print(Shape::Int))?;
    instrs.push(Instr::Halt)?;
    Ok(())
}

/// The code that the generator makes of these two statements, but for the places of its marks.
fn counts(alloc: Global) -> Result<Code, Fail> {
    let mut instrs = Vec::new(alloc);
    match put_counts(alloc, &mut instrs) {
        Ok(()) => code_of(alloc, instrs),
        Err(e) => {
            drop(instrs);
            Err(e)
        }
    }
}

/// Prints what the two statements count over a base.
fn count_over(rt: &impl Abort, alloc: Global, base: &Base) -> Result<(), Fail> {
    let relations = Vec::from_array(alloc, [relation(alloc, b"Q")?, relation(alloc, b"R")?])?;
    let code = counts(alloc)?;
    let outcome = printed(rt, alloc, &code, &relations, base);
    drop(code);
    drop(relations);
    let printed = outcome?;
    assert!(rt; printed.as_slice() == b"true\n1\n".as_slice());
    Ok(())
}

/// As many allocations of the machine may be refused here as over many rows.
#[test]
fn few_rows_are_counted_and_joined(rt: HostRuntime) -> Result<(), Fail> {
    let base = two_relations(rt.alloc(), 0, 10)?;
    let outcome = count_over(&rt, rt.alloc(), &base);
    drop(base);
    outcome
}

/// As many allocations of the machine may be refused here as over few rows.
#[test]
fn many_rows_are_counted_and_joined(rt: HostRuntime) -> Result<(), Fail> {
    let base = two_relations(rt.alloc(), 9, 793)?;
    let outcome = count_over(&rt, rt.alloc(), &base);
    drop(base);
    outcome
}

/// The int that the operation gives of a relation's rows, read where they stand.
fn int_of(rt: &impl Abort, alloc: Global, op: &Op, rows: &PageRel<'_>) -> Option<i64> {
    // The second operand, which an operation on one relation doesn't look at.
    let none = RowSet::new(alloc);
    assert!(rt; fits_rel(op, rows, &none));
    match prim_rel(alloc, op, rows, &none) {
        Ok(Value::Scalar(Scalar::Int(v))) => Some(v),
        _ => None,
    }
}

/// An operation on a relation reads it where it stands.
#[test]
fn the_greatest_of_1_and_2_is_2(rt: HostRuntime) -> Result<(), Fail> {
    let base = two_relations(rt.alloc(), 0, 2)?;
    assert!(rt; base.catalogue().len() == 2);
    let op = Op::Max(numbers(rt.alloc())?, 0);
    let greatest = int_of(&rt, rt.alloc(), &op, &base.rel(RelId(1)));
    drop(op);
    assert!(rt; greatest == Some(2));
    Ok(())
}
