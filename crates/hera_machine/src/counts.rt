//! Counts of relations that are named, from what is known of how many rows relations have after the pending delta.
ghost use Rattle.std.specs.Prelude.{◌≡◌, ◌≢◌, ◌+◌, ◌<◌, ◌≤◌, ◌^◌, [], ◌∷◌, ℕ, List, Some, true, false, drop, length, slice_get, IfSome};
ghost use Rattle.hera_meaning.specs.Deltas.{Delta as PlainDelta, apply_of};
ghost use Rattle.hera_meaning.specs.Hosts.{Hosts};
ghost use Rattle.hera_meaning.specs.Values.{Value, table};
ghost use Rattle.hera_meaning.specs.declared.schemas.RelDecl.{RelDecl as PlainDecl};
ghost use Rattle.hera_code.specs.Forward.{Forward};
ghost use Rattle.hera_code.specs.Machine.{quiet, code_step, on_some, answers, as_delta};
ghost use Rattle.hera_reads.specs.Branched.{pending_of};
ghost use Rattle.hera_reads.specs.Counted.{AreCounts};
ghost use Rattle.hera_machine.specs.Counted.{AreCountsBehind, is_apply, is_rollback};
ghost use Rattle.hera_steps.specs.Descends.{left};
ghost use Rattle.hera_steps.specs.Finding.{IsFound, found_step};
ghost use Rattle.hera_machine.specs.Standing.{GoesQuietly};
ghost use Rattle.hera_steps.specs.Working.{machine_at};
ghost use Rattle.hera_steps.specs.declared.running.relations.RelationAnswer.TheVariants.{Answer};

use hera_code::{Code, Instr};
use hera_frames::Operand;
use hera_meaning::Op;
use hera_reads::Counts;
use hera_steps::{RelationAnswer, Running};
use hera_values::Datum;
use when_overlay::Stored;

/// Whether the instruction changes the pending delta by another one.
fn is_apply(instr: &Instr) -> bool
    ensures { result ≡ is_apply instr.now }
{
    match instr {
        Instr::Apply(_) => true,
        _ => false,
    }
}

/// Whether the instruction lets the pending delta go.
fn is_rollback(instr: &Instr) -> bool
    ensures { result ≡ is_rollback instr.now }
{
    match instr {
        Instr::Rollback => true,
        _ => false,
    }
}

/// What a count gives of a relation with so many rows.
fn number_of(count: u64) -> Datum
    requires { count < 2 ^ 63 }
    ensures { (rows : List (List ℕ)) → count ≡ length rows → IsFound Op.Count (table rows ∷ []) (Answer result) }
{
    Datum::Int(count as i64)
}

/// Counts the tuples of the newest operand, if the instruction at hand says so and that names a relation. Where it is
/// known how many rows the relation has after the pending delta, only the rows that the layers upon that name are
/// looked for. It takes no memory.
pub(crate) fn count(work: &mut Running<'_>, code: &Code, stored: &Stored<'_>, counts: &mut Counts)
    requires { AreCounts (apply_of stored.now.state (pending_of work.old.layers)) counts.old }
    ensures quietly { (rels : List PlainDecl) → (hosts : Hosts) → let s = stored.now.state in GoesQuietly code.now rels hosts s (machine_at s work.old) (machine_at s work.new) }
    ensures less { Forward code.now → left (length code.now.instrs) (machine_at [] work.new) ≤ left (length code.now.instrs) (machine_at [] work.old) }
    ensures layers { work.new.layers ≡ work.old.layers }
    ensures relations { work.new.relations ≡ work.old.relations }
    ensures counted { AreCounts (apply_of stored.now.state (pending_of work.old.layers)) counts.new }
{
    // for the proof alone: addresses of code are below 2^64 - 1
    let _len = code.instrs.len();
    let Some(Instr::Prim(Op::Count, at)) = code.instrs.get(work.at) else {
        return;
    };
    let _counted = count_newest(work, stored, counts, *at);
}

/// Counts the tuples of the newest operand, if that names a relation. Where it does not answer true, nothing has
/// changed but what is known.
fn count_newest(work: &mut Running<'_>, stored: &Stored<'_>, counts: &mut Counts, at: u32) -> bool
    requires next { work.old.at + 1 < 2 ^ 64 }
    requires counted { AreCounts (apply_of stored.now.state (pending_of work.old.layers)) counts.old }
    ensures done { let s = stored.now.state in result ≡ true → quiet (machine_at s work.new) ≡ on_some 1 (machine_at s work.old).operands (λ args vs. answers at Op.Count args vs (machine_at s work.old)) }
    ensures kept { result ≡ false → work.new ≡ work.old }
    ensures layers { work.new.layers ≡ work.old.layers }
    ensures relations { work.new.relations ≡ work.old.relations }
    ensures counted { AreCounts (apply_of stored.now.state (pending_of work.old.layers)) counts.new }
{
    let Some(number) = newest_count(work, stored, counts) else {
        return false;
    };
    match work.answer(1, RelationAnswer::Answer(number), at) {
        Ok(_) => true,
        Err(_) => unreachable!(),
    }
}

/// How many rows the newest operand has, if that names a relation and they are at most 2^63 - 1.
fn newest_count(work: &Running<'_>, stored: &Stored<'_>, counts: &mut Counts) -> Option<Datum>
    requires { AreCounts (apply_of stored.now.state (pending_of work.now.layers)) counts.old }
    ensures some { IfSome result (λ number. work.now.operands ≢ []) }
    ensures found { let s = stored.now.state in IfSome result (λ number. (at : ℕ) → found_step at (drop 1 (machine_at s work.now).operands) (machine_at s work.now) (Answer number) ≡ on_some 1 (machine_at s work.now).operands (λ args vs. answers at Op.Count args vs (machine_at s work.now))) }
    ensures counted { AreCounts (apply_of stored.now.state (pending_of work.now.layers)) counts.new }
{
    let Some(Operand::Named { rel, tip }) = work.operands.newest(0) else {
        return None;
    };
    if usize::from(rel.0) >= stored.len() {
        return None;
    }
    let count = counts.count(&work.changes, stored, *rel, *tip)?;
    Some(number_of(count))
}

/// Goes on to the counts behind the instruction at hand, which has to be executed next.
pub(crate) fn foresee(work: &Running<'_>, code: &Code, stored: &Stored<'_>, counts: &mut Counts)
    requires { AreCounts (apply_of stored.now.state (pending_of work.now.layers)) counts.old }
    ensures { (rels : List PlainDecl) → (hosts : Hosts) → let s = stored.now.state in AreCountsBehind s counts.new (code_step code.now rels hosts s (machine_at s work.now)) }
{
    // for the proof alone: the pending delta is not `fail`
    let _count = work.changes.len();
    let Some(instr) = code.instrs.get(work.at) else {
        return;
    };
    if is_apply(instr) {
        foresee_apply(work, stored, counts);
        return;
    }
    if is_rollback(instr) {
        counts.forget();
        return;
    }
}

/// Goes on to the counts after the newest operand, if that is a delta.
fn foresee_apply(work: &Running<'_>, stored: &Stored<'_>, counts: &mut Counts)
    requires { AreCounts (apply_of stored.now.state (pending_of work.now.layers)) counts.old }
    ensures { let s = stored.now.state in (v : Value) → (d : PlainDelta) → slice_get (machine_at s work.now).operands 0 ≡ Some v → as_delta v ≡ Some d → AreCounts (apply_of (apply_of s (pending_of work.now.layers)) d) counts.new }
{
    let Some(newest) = work.operands.newest(0) else {
        return;
    };
    let Some(delta) = newest.delta() else {
        return;
    };
    counts.go_on(&work.changes, stored, delta);
}
