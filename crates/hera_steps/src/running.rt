//! A machine at work: what it is, and which function does which instruction. The functions stand by
//! themes, one an instruction.
ghost use Rattle.std.specs.Prelude.{◌≡◌, ◌≤◌, ◌+◌, ◌<◌, ◌^◌, List, [], true, false, None, Some, IfOk, IsOk, OnOk, OnErr, length, slice_get};
ghost use Rattle.hera_meaning.specs.Deltas.{State, atoms};
ghost use Rattle.hera_meaning.specs.Hosts.{Hosts};
ghost use Rattle.hera_meaning.specs.Worlds.{locals_from};
ghost use Rattle.hera_meaning.specs.declared.schemas.RelDecl.{RelDecl as PlainDecl};
ghost use Rattle.hera_host.specs.Tables.{specs_of};
ghost use Rattle.hera_code.specs.Forward.{Forward};
ghost use Rattle.hera_code.specs.Machine as machine;
ghost use Rattle.hera_code.specs.Machine.{code_step, quiet};
ghost use Rattle.hera_steps.specs.Sparing.{is_sparing};
ghost use Rattle.hera_steps.specs.Telling.{ending_at, step_at, TellsNearer, TellsKnown};
ghost use Rattle.hera_steps.specs.Working.{Work, machine_at};

mod calls;
mod changes;
mod hosts;
mod jumps;
mod prims;
mod relations;
mod values;
mod walks;

use crate::events::{End, Told};
use delta_atoms::Delta;
use hera_code::{Code, Instr};
use hera_flat::Flat;
use hera_frames::{Callers, Operands, release};
use hera_host::HostTable;
use hera_meaning::{Const, Op, RelDecl, Scalar};
use hera_reads::{Changes, Stack, Walk};
use hera_values::Locals;
pub use relations::RelationAnswer;
use std::alloc::{AllocError, Global};
use std::marker::Model;
use when_overlay::Stored;

/// A machine at work.
#[derive(Drop)]
pub struct Running<'c> {
    alloc: Global,
    /// The address of the instruction at hand.
    pub at: usize,
    /// The operands.
    pub operands: Operands,
    /// The slots.
    pub locals: Locals,
    walks: Stack<Walk>,
    /// The deltas under which it reads.
    pub changes: Changes<'c>,
    /// How many of the layers under which the running frame reads it has pushed itself.
    own: usize,
    /// The number of the first layer that no frame that waits names.
    floor: usize,
    callers: Callers,
    /// Whether a frame that waits may name a relation.
    names_below: bool,
    turns: u64,
}

impl<'c> Model for Running<'c> {
    ghost use Rattle.hera_steps.specs.Working.{Work};
    ghost use Rattle.hera_frames.specs.Waiting.{IsUpheld};

    ghost Value = { Work };

    ghost view = { λ r. record {
      at = r.at;
      operands = r.operands.items;
      spare = r.operands.spare;
      locals = r.locals;
      walks = r.walks;
      relations = r.changes.catalogue;
      layers = r.changes.layers;
      tip = r.changes.tip;
      own = r.own;
      callers = r.callers;
      turns = r.turns;
    } };

    ghost invariant = { λ r. IsUpheld r.changes r.own r.floor r.operands.items r.walks r.names_below r.callers };
}

/// What an instruction needs was not there, or was of another kind.
fn stuck() -> Result<Told, AllocError>
    ensures { result ≡ Ok (Told.Ended End.Stuck) }
{
    Ok(Told::Ended(End::Stuck))
}

/// Quiet, or the run's end.
#[inline]
fn told(end: Option<End>) -> Told
    ensures { (s : State) → (w : Work) → step_at s result w ≡ ending_at s end w }
{
    match end {
        None => Told::Quiet,
        Some(end) => Told::Ended(end),
    }
}

impl<'c> Running<'c> {
    /// The machine as main starts.
    pub fn start(
        alloc: Global,
        relations: &'c [RelDecl],
        slots: u32,
        turns: u64,
    ) -> Result<Running<'c>, AllocError>
        ensures relations { IfOk result (λ r. r.relations ≡ relations.entry.now) }
        ensures start { IfOk result (λ r. (s : State) → machine_at s r ≡ record { at = 0; operands = []; locals = locals_from slots []; walks = []; layers = []; own = 0; callers = []; pending = atoms []; turns = turns }) }
    {
        Ok(Running {
            alloc,
            at: 0,
            operands: Operands::new(alloc),
            locals: Locals::start(alloc, slots)?,
            walks: Stack::new(alloc),
            changes: Changes::new(alloc, relations)?,
            own: 0,
            floor: 0,
            callers: Callers::new(alloc),
            names_below: false,
            turns,
        })
    }

    /// Makes the place for at least `n` further operands.
    pub fn reserve(&mut self, n: usize) -> Result<(), AllocError>
        ensures spare { OnOk result (n ≤ self.new.spare) }
        ensures rest { self.new ≡ record self.old { spare = self.new.spare } }
        ensures err { OnErr result (self.new ≡ self.old) }
    {
        self.operands.reserve(n)
    }

    /// Executes the instruction at hand.
    #[inline(never)]
    pub fn one(
        &mut self,
        code: &Code,
        stored: &Stored<'_>,
        hosts: &HostTable,
    ) -> Result<Told, AllocError>
        ensures steps { let s = stored.now.state in IfOk result (λ told. step_at s told self.new ≡ code_step code.now self.old.relations (specs_of hosts.now.names) s (machine_at s self.old)) }
        ensures no_copy { is_sparing self.old.spare (slice_get code.now.instrs self.old.at) ≡ true → IsOk result }
        ensures nearer { Forward code.now → IfOk result (TellsNearer (length code.now.instrs) (machine_at [] self.old) (machine_at [] self.new)) }
        ensures known { IfOk result (TellsKnown self.old.relations) }
        ensures relations { self.new.relations ≡ self.old.relations }
    {
        // for the proof alone: addresses of code are below 2^64 - 1, and the pending delta is of the relations
        let _len = code.instrs.len();
        let _count = self.changes.len();
        match code.instrs.get(self.at) {
            None => Ok(Told::Ended(End::Stuck)),
            Some(instr) => self.execute(instr, code, stored, hosts),
        }
    }

    /// Executes an instruction: it is tried first, and what that leaves is done in full.
    fn execute(
        &mut self,
        instr: &Instr,
        code: &Code,
        stored: &Stored<'_>,
        hosts: &HostTable,
    ) -> Result<Told, AllocError>
        requires next { self.old.at + 1 < 2 ^ 64 }
        ensures act { let s = stored.now.state in IfOk result (λ told. step_at s told self.new ≡ machine.act code.now self.old.relations (specs_of hosts.now.names) (Some instr.now) s (machine_at s self.old)) }
        ensures no_copy { is_sparing self.old.spare (Some instr.now) ≡ true → IsOk result }
        ensures relations { self.new.relations ≡ self.old.relations }
    {
        if self.try_one(instr, code, stored) {
            return Ok(Told::Quiet);
        }
        self.act_and_release(instr, code, stored, hosts)
    }

    /// Does an instruction, and drops the layers that nothing names behind it.
    fn act_and_release(
        &mut self,
        instr: &Instr,
        code: &Code,
        stored: &Stored<'_>,
        hosts: &HostTable,
    ) -> Result<Told, AllocError>
        requires next { self.old.at + 1 < 2 ^ 64 }
        ensures act { let s = stored.now.state in IfOk result (λ told. step_at s told self.new ≡ machine.act code.now self.old.relations (specs_of hosts.now.names) (Some instr.now) s (machine_at s self.old)) }
        ensures no_copy { is_sparing self.old.spare (Some instr.now) ≡ true → IsOk result }
        ensures relations { self.new.relations ≡ self.old.relations }
    {
        let told = self.act(instr, code, stored, hosts)?;
        self.release();
        Ok(told)
    }

    /// Drops the newest layers that nothing names any more. It takes no memory.
    fn release(&mut self)
        ensures step { (s : State) → machine_at s self.new ≡ machine_at s self.old }
        ensures relations { self.new.relations ≡ self.old.relations }
    {
        release(&mut self.changes, self.floor, &self.operands, &self.walks);
    }

    /// What each instruction does.
    fn act(
        &mut self,
        instr: &Instr,
        code: &Code,
        stored: &Stored<'_>,
        hosts: &HostTable,
    ) -> Result<Told, AllocError>
        requires next { self.old.at + 1 < 2 ^ 64 }
        ensures act { let s = stored.now.state in IfOk result (λ told. step_at s told self.new ≡ machine.act code.now self.old.relations (specs_of hosts.now.names) (Some instr.now) s (machine_at s self.old)) }
        ensures no_copy { is_sparing self.old.spare (Some instr.now) ≡ true → IsOk result }
        ensures relations { self.new.relations ≡ self.old.relations }
    {
        match instr {
            Instr::Push(constant) => self.push(constant),
            Instr::Load(i) => self.load(*i),
            Instr::Store(i) => self.store(stored, *i),
            Instr::Rel(r) => self.rel(stored, *r),
            Instr::Prim(op, at) => self.prim(stored, op, *at),
            Instr::Host(h) => self.host(hosts, *h),
            Instr::Jump(a) => Ok(told(self.jump(code, *a))),
            Instr::Unless(a) => Ok(told(self.unless(code, *a))),
            Instr::Back(a) => Ok(told(self.back(code, *a))),
            Instr::Enter(at) => self.enter(*at),
            Instr::Leave => Ok(self.leave()),
            Instr::Walk => self.open_walk(code, stored),
            Instr::Next(i, a) => self.next(code, stored, *i, *a),
            Instr::Keep => Ok(told(self.keep()?)),
            Instr::Gather => self.gather(),
            Instr::Yield => self.yield_set(),
            Instr::Drop => self.drop_walk(),
            Instr::Call(k) => self.call(code, stored, *k),
            Instr::Ret => Ok(told(self.ret())),
            Instr::RetVal => self.ret_val(stored),
            Instr::Print(shape) => self.print(stored, shape),
            Instr::Apply(at) => self.apply(stored, *at),
            Instr::Commit => self.commit(),
            Instr::Rollback => self.rollback(stored),
            Instr::Assert(at) => self.assert(*at),
            Instr::Halt => Ok(Told::Ended(End::Done)),
        }
    }

    /// Executes an instruction, if it is a common one on ints, bools and tuples. Where it does not answer true, for want of
    /// memory too, nothing has changed.
    #[inline(always)]
    pub fn try_one(&mut self, instr: &Instr, code: &Code, stored: &Stored<'_>) -> bool
        requires { self.old.at + 1 < 2 ^ 64 }
        ensures act { (rels : List PlainDecl) → (hosts : Hosts) → let s = stored.now.state in result ≡ true → quiet (machine_at s self.new) ≡ machine.act code.now rels hosts (Some instr.now) s (machine_at s self.old) }
        ensures kept { result ≡ false → self.new ≡ self.old }
        ensures layers { self.new.layers ≡ self.old.layers }
        ensures relations { self.new.relations ≡ self.old.relations }
    {
        match instr {
            Instr::Push(Const::Scalar(Scalar::Int(n))) => self.try_push(Flat::Int(*n)),
            Instr::Push(Const::Scalar(Scalar::Bool(b))) => self.try_push(Flat::Bool(*b)),
            Instr::Load(i) => self.try_load(*i),
            Instr::Store(i) => self.try_store(*i),
            Instr::Prim(Op::Field(schema, i), at) => self.try_field(schema, *i, *at),
            Instr::Prim(op, at) => self.try_prim(op, *at),
            Instr::Jump(a) => match self.jump(code, *a) {
                None => true,
                Some(_) => false,
            },
            Instr::Unless(a) => match self.unless(code, *a) {
                None => true,
                Some(_) => false,
            },
            Instr::Back(a) => match self.back(code, *a) {
                None => true,
                Some(_) => false,
            },
            Instr::Next(i, a) => self.try_next(code, stored, *i, *a),
            Instr::Keep => match self.keep() {
                Ok(None) => true,
                Ok(Some(_)) => false,
                Err(_) => false,
            },
            Instr::Call(k) => self.try_call(code, *k),
            Instr::Ret => match self.ret() {
                None => true,
                Some(_) => false,
            },
            Instr::RetVal => self.try_ret_val(),
            _ => false,
        }
    }
}
