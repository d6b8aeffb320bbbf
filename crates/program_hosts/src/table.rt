//! The table of them.
ghost use Rattle.std.specs.Prelude.{◌≡◌, true, ◌+◌, ◌<◌, ◌^◌, ◌++◌, [], ◌∷◌, IfOk, OnOk, length};
ghost use Rattle.hera_host.specs.Calls.{AnswersAs, has_width};
ghost use Rattle.hera_host.specs.Tables.{host};
ghost use Rattle.program_hosts.specs.Lent.{band_spec, bucket_spec, clamp_spec, is_sku_spec, lent_hosts};

use hera_host::{HostCall, HostFn, HostTable};
use hera_meaning::{HostSpec, Text};
use std::alloc::{AllocError, Global};

/// The table of the four hosts, each with the closure that answers for it: `band` from 0 to 100, `bucket` of 10, `is_sku`
/// of `SKU-` and `clamp` from 0 to 100.
pub fn program_hosts(
    alloc: Global,
    band: HostCall,
    bucket: HostCall,
    is_sku: HostCall,
    clamp: HostCall,
) -> Result<HostTable, AllocError>
    requires band { AnswersAs (HostCall.pre band) (HostCall.post band) band_spec }
    requires bucket { AnswersAs (HostCall.pre bucket) (HostCall.post bucket) bucket_spec }
    requires is_sku { AnswersAs (HostCall.pre is_sku) (HostCall.post is_sku) is_sku_spec }
    requires clamp { AnswersAs (HostCall.pre clamp) (HostCall.post clamp) clamp_spec }
    ensures { IfOk result (λ table. table.names ≡ lent_hosts) }
{
    let mut table = HostTable::new(alloc);
    lend(
        alloc,
        &mut table,
        b"band",
        HostSpec::Band { lo: 0, hi: 100 },
        band,
    )?;
    lend(
        alloc,
        &mut table,
        b"bucket",
        HostSpec::Bucket { width: 10 },
        bucket,
    )?;
    let Ok(text) = Text::new(alloc, b"SKU-") else {
        return Err(AllocError);
    };
    lend(
        alloc,
        &mut table,
        b"is_sku",
        HostSpec::Prefix { text },
        is_sku,
    )?;
    lend(
        alloc,
        &mut table,
        b"clamp",
        HostSpec::Clamp { lo: 0, hi: 100 },
        clamp,
    )?;
    Ok(table)
}

/// Puts one more host behind the others.
fn lend(
    alloc: Global,
    table: &mut HostTable,
    name: &[u8],
    spec: HostSpec,
    call: HostCall,
) -> Result<(), AllocError>
    requires room { length table.old.names + 1 < 2 ^ 32 }
    requires width { has_width spec ≡ true }
    requires answers { AnswersAs (HostCall.pre call) (HostCall.post call) spec }
    ensures { OnOk result (table.new.names ≡ table.old.names ++ host name.now spec ∷ []) }
{
    let Ok(name) = Text::new(alloc, name) else {
        return Err(AllocError);
    };
    match table.add(HostFn::new(name, spec, call)) {
        Ok(()) => Ok(()),
        Err(_) => Err(AllocError),
    }
}
