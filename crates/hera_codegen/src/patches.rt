//! Instructions put behind others, and jumps that are written once their address is known.

ghost use Rattle.std.specs.Prelude.{◌≡◌, ◌<◌, ◌+◌, [], ◌∷◌, ◌++◌, length, true, false, IfOk, OnOk, slice_set};
ghost use Rattle.hera_code.specs.declared.instrs.Instr.TheVariants.{Walk, Next, Back, Yield, Jump, Unless};
ghost use Rattle.hera_code.specs.Scheme.{leaves, push_bool as bool_push};
ghost use Rattle.hera_codegen.specs.Holes.{filled};

use hera_code::Instr;
use hera_meaning::{Const, Scalar};
use std::alloc::AllocError;

/// One more instruction.
pub fn put(code: &mut Vec<Instr>, instr: Instr) -> Result<(), AllocError>
    ensures { OnOk result (code.new.items ≡ code.old.items ++ instr ∷ []) }
{
    code.push(instr)?;
    Ok(())
}

/// The address of the next instruction. More than 2^32 - 1 instructions are answered as want of memory; a
/// sound program has fewer.
pub fn here(code: &Vec<Instr>) -> Result<u32, AllocError>
    ensures { IfOk result (λ a. a ≡ length code.now.items) }
{
    match u32::try_from(code.len()) {
        Ok(address) => Ok(address),
        Err(_) => Err(AllocError),
    }
}

/// The address that is n instructions behind the next one.
fn ahead(code: &Vec<Instr>, n: u32) -> Result<u32, AllocError>
    ensures { IfOk result (λ a. a ≡ length code.now.items + n) }
{
    match here(code)?.checked_add(n) {
        Some(address) => Ok(address),
        None => Err(AllocError),
    }
}

/// Writes an instruction in the place of another, where there is one.
fn fill(code: &mut Vec<Instr>, at: usize, instr: Instr)
    ensures { code.new.items ≡ slice_set code.old.items at instr }
{
    if at < code.len() {
        code[at] = instr;
    }
}

/// Writes a Jump to an address in each of these places.
fn fill_jumps(code: &mut Vec<Instr>, holes: &[usize], address: u32)
    ensures { code.new.items ≡ filled (Jump address) holes.now code.old.items }
{
    for hole in holes {
        fill(code, *hole, Instr::Jump(address));
    }
}

/// Writes an Unless with an address in each of these places.
fn fill_unless(code: &mut Vec<Instr>, holes: &[usize], address: u32)
    ensures { code.new.items ≡ filled (Unless address) holes.now code.old.items }
{
    for hole in holes {
        fill(code, *hole, Instr::Unless(address));
    }
}

fn push_bool(value: bool) -> Instr
    ensures { result ≡ bool_push value }
{
    Instr::Push(Const::Scalar(Scalar::Bool(value)))
}

/// The value of `&&` without operands, which no program has.
pub fn put_false(code: &mut Vec<Instr>) -> Result<(), AllocError>
    ensures { OnOk result (code.new.items ≡ code.old.items ++ bool_push false ∷ []) }
{
    put(code, push_bool(false))
}

/// What stands behind the last operand of `&&`: Jump to behind all, and Push false, to which the Unlesses
/// in these places go.
pub fn close_every(code: &mut Vec<Instr>, holes: &[usize]) -> Result<(), AllocError>
    ensures { OnOk result (code.new.items ≡ filled (Unless (length code.old.items + 1)) holes.now (code.old.items ++ Jump (length code.old.items + 2) ∷ bool_push false ∷ [])) }
{
    let behind = ahead(code, 2)?;
    put(code, Instr::Jump(behind))?;
    let decided = here(code)?;
    put(code, push_bool(false))?;
    fill_unless(code, holes, decided);
    Ok(())
}

/// What stands in front of the Jump behind an operand of `||`: Unless to behind that Jump, and Push true.
pub fn put_decision(code: &mut Vec<Instr>) -> Result<(), AllocError>
    ensures { OnOk result (code.new.items ≡ code.old.items ++ Unless (length code.old.items + 3) ∷ bool_push true ∷ []) }
{
    let next = ahead(code, 3)?;
    put(code, Instr::Unless(next))?;
    put(code, push_bool(true))
}

/// A number of Leaves.
pub fn put_leaves(code: &mut Vec<Instr>, n: usize) -> Result<(), AllocError>
    ensures { OnOk result (code.new.items ≡ code.old.items ++ leaves n) }
{
    for _i in 0..n {
        put(code, Instr::Leave)?;
    }
    Ok(())
}

/// Opens a walk: Walk, and a Next whose address is written later. Gives the address of the Next.
pub fn open_walk(code: &mut Vec<Instr>, slot: u32) -> Result<u32, AllocError>
    ensures code { OnOk result (code.new.items ≡ code.old.items ++ Walk ∷ Next slot 0 ∷ []) }
    ensures start { IfOk result (λ start. start ≡ length code.old.items + 1) }
{
    put(code, Instr::Walk)?;
    let start = here(code)?;
    put(code, Instr::Next(slot, 0))?;
    Ok(start)
}

/// Goes back to the Next at `start`, which goes on behind this.
pub fn close_walk(code: &mut Vec<Instr>, slot: u32, start: u32) -> Result<(), AllocError>
    ensures { OnOk result (code.new.items ≡ slice_set (code.old.items ++ Back start ∷ []) start (Next slot (length code.old.items + 1))) }
{
    put(code, Instr::Back(start))?;
    let end = here(code)?;
    fill(code, start as usize, Instr::Next(slot, end));
    Ok(())
}

/// Closes a walk that gathers by this instruction, and yields what it gathered.
pub fn close_gathering(
    code: &mut Vec<Instr>,
    slot: u32,
    start: u32,
    gatherer: Instr,
) -> Result<(), AllocError>
    ensures { OnOk result (code.new.items ≡ slice_set ((code.old.items ++ gatherer ∷ []) ++ Back start ∷ []) start (Next slot (length code.old.items + 1 + 1)) ++ Yield ∷ []) }
{
    put(code, gatherer)?;
    close_walk(code, slot, start)?;
    put(code, Instr::Yield)
}

/// Puts an Unless whose address is written later, and gives its place.
pub fn open_unless(code: &mut Vec<Instr>) -> Result<usize, AllocError>
    ensures code { OnOk result (code.new.items ≡ code.old.items ++ Unless 0 ∷ []) }
    ensures hole { IfOk result (λ hole. hole ≡ length code.old.items) }
{
    let hole = code.len();
    put(code, Instr::Unless(0))?;
    Ok(hole)
}

/// Puts an Unless whose address is written later, and notes its place.
pub fn note_unless(code: &mut Vec<Instr>, holes: &mut Vec<usize>) -> Result<(), AllocError>
    ensures code { OnOk result (code.new.items ≡ code.old.items ++ Unless 0 ∷ []) }
    ensures holes { OnOk result (holes.new.items ≡ holes.old.items ++ length code.old.items ∷ []) }
{
    holes.push(code.len())?;
    put(code, Instr::Unless(0))
}

/// Writes an Unless whose address is n instructions behind the next one.
pub fn close_unless(code: &mut Vec<Instr>, hole: usize, n: u32) -> Result<(), AllocError>
    ensures { OnOk result (code.new.items ≡ slice_set code.old.items hole (Unless (length code.old.items + n))) }
{
    let address = ahead(code, n)?;
    fill(code, hole, Instr::Unless(address));
    Ok(())
}

/// Puts a Jump whose address is written later, and notes its place.
pub fn open_jump(code: &mut Vec<Instr>, holes: &mut Vec<usize>) -> Result<(), AllocError>
    ensures code { OnOk result (code.new.items ≡ code.old.items ++ Jump 0 ∷ []) }
    ensures holes { OnOk result (holes.new.items ≡ holes.old.items ++ length code.old.items ∷ []) }
{
    holes.push(code.len())?;
    put(code, Instr::Jump(0))
}

/// Writes a Jump to the next instruction in each of these places.
pub fn close_jumps(code: &mut Vec<Instr>, holes: &[usize]) -> Result<(), AllocError>
    ensures { OnOk result (code.new.items ≡ filled (Jump (length code.old.items)) holes.now code.old.items) }
{
    let behind = here(code)?;
    fill_jumps(code, holes, behind);
    Ok(())
}
