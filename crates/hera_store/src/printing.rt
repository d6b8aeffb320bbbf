//! The half of a database, printed.
ghost use Rattle.std.specs.Prelude.{◌≡◌, ◌≤◌, length, IfOk, IfErr, OnOk};
ghost use Rattle.rel_format.specs.Journal.{half_limit};
ghost use Rattle.hera_store.specs.Standing.{AreOver, database_over};
ghost use Rattle.hera_store.specs.Faults.{IsPrintRefusal, half_with};

use crate::CheckFault;
use delta_atoms::Delta;
use half_writer::{HalfFault, HalfWriter};
use hera_meaning::RelId;
use rel_pages::Base;
use std::alloc::{AllocError, Global};
use when_overlay::{Layers, View};

impl From<AllocError> for CheckFault {
    ghost use Rattle.std.specs.Prelude.{◌≡◌};
    ghost use Rattle.hera_store.specs.declared.faults.CheckFault.TheVariants.{Memory};

    ghost from_gives = { λ _ e. e ≡ Memory };

    fn from(_: AllocError) -> Self {
        CheckFault::Memory
    }
}

impl From<HalfFault> for CheckFault {
    ghost use Rattle.std.specs.Prelude.{◌≡◌};
    ghost use Rattle.hera_store.specs.Faults.{check_fault};

    ghost from_gives = { λ fault e. e ≡ check_fault fault };

    fn from(fault: HalfFault) -> Self {
        match fault {
            HalfFault::Full { need, limit } => CheckFault::Full {
                need: need as u128,
                limit,
            },
            HalfFault::Memory => CheckFault::Memory,
        }
    }
}

/// The bytes of the half that has the base's state after the commits in its pages.
pub(crate) fn half_bytes(
    alloc: Global,
    base: &Base,
    commits: &[Delta],
    limit: u64,
) -> Result<Vec<u8>, CheckFault>
    requires over { AreOver base.now commits.now }
    requires limit { limit ≤ half_limit }
    ensures half { IfOk result (λ bytes. bytes.items ≡ half_with (database_over base.now commits.now)) }
    ensures fits { OnOk result (length (half_with (database_over base.now commits.now)) ≤ limit) }
    ensures refusal { IfErr result (IsPrintRefusal (database_over base.now commits.now) limit) }
{
    let layers = Layers::new(alloc);
    let view = View {
        base,
        commits,
        layers: &layers,
        tip: None,
    };
    let mut writer = HalfWriter::new(alloc, base.catalogue(), limit)?;
    for number in 0..base.catalogue().len() as u16 {
        writer.add(&view.indexed(RelId(number)))?;
    }
    Ok(writer.finish()?)
}
