//! Records of deltas made ready.
ghost use Rattle.std.specs.Prelude.{◌≡◌, ◌≤◌, ◌<◌, ◌^◌, false, IfOk, IfErr, OnOk};
ghost use Rattle.hera_meaning.specs.Deltas.{is_fail};
ghost use Rattle.delta_atoms.specs.Atoms.{atoms_in};
ghost use Rattle.rel_format.specs.Journal.{record_of, half_limit};
ghost use Rattle.commit_journal.specs.Prepare.{need_of, IsRefusal};

use crate::writing::{record_bytes, record_len};
use crate::{PrepareFault, Prepared};
use delta_atoms::Delta;
use std::alloc::Global;

/// Makes the record of a delta ready, whose gate is at `end`. `Full` comes exactly where the record
/// and the next gate end behind the limit, and tells both numbers.
pub fn prepare(alloc: Global, delta: &Delta, end: u64, limit: u64) -> Result<Prepared, PrepareFault>
    requires known { is_fail delta.now ≡ false }
    requires limit { limit ≤ half_limit }
    ensures body { IfOk result (λ p. p.body ≡ record_of (atoms_in delta.now)) }
    ensures end { IfOk result (λ p. p.end ≡ end) }
    ensures fits { OnOk result (need_of (atoms_in delta.now) end ≤ limit) }
    ensures refusal { IfErr result (IsRefusal (atoms_in delta.now) end limit) }
{
    let Some(len) = record_len(delta) else {
        return Err(PrepareFault::Memory);
    };
    let Some(need) = len.checked_add(end as u128 + 2) else {
        return Err(PrepareFault::Memory);
    };
    if need > limit as u128 {
        return Err(PrepareFault::Full { need, limit });
    }
    match record_bytes(alloc, delta, len as usize + 1) {
        Ok(body) => made(body, end),
        Err(_) => Err(PrepareFault::Memory),
    }
}

/// The record with this body.
fn made(body: Vec<u8>, end: u64) -> Result<Prepared, PrepareFault>
    requires { end < 2 ^ 32 }
    ensures body { IfOk result (λ p. p.body ≡ body.items) }
    ensures end { IfOk result (λ p. p.end ≡ end) }
    ensures err { IfErr result (λ e. e ≡ PrepareFault.Memory) }
{
    match Prepared::new(body, end) {
        Ok(prepared) => Ok(prepared),
        Err(_) => Err(PrepareFault::Memory),
    }
}
