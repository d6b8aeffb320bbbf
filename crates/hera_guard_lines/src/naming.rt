//! The guards that lines mean.
ghost use Rattle.std.specs.Prelude.{◌≡◌, ◌⊎◌, ◌<◌, IfOk, IfErr, length};
ghost use Rattle.hera_meaning.specs.Scalars.{is_same_kind};
ghost use Rattle.hera_meaning.specs.Forms.{kind_at};
ghost use Rattle.hera_guard.specs.Guards.{IsGuard, AreGuards};
ghost use Rattle.hera_guard_lines.specs.Naming.{Mean, FirstFault, meaning_of, means, faulty, fits};

use crate::lines::{GuardLine, GuardLines};
use hera_guard::{Guard, GuardTable};
use hera_host::HostTable;
use hera_meaning::{Kind, Schema};
use hera_row::Catalogue;
use std::alloc::{AllocError, Global};
use thiserror::Error;

/// Why the names of lines mean no guards.
#[derive(Debug, Drop, Error)]
pub enum NameFault {
    /// No relation, no attribute of it, or no host function has the name at this offset.
    #[error("nothing has this name")]
    Unknown { at: u32 },
    /// The host function named at this offset answers no bool, or does not take the attribute's kind.
    #[error("the host function does not fit the attribute")]
    Mismatch { at: u32 },
    /// No memory for the guards.
    #[error("out of memory")]
    Memory,
}

impl From<AllocError> for NameFault {
    ghost from_gives = { λ _ e. e ≡ Memory };

    ghost use Rattle.hera_guard_lines.specs.declared.naming.NameFault.TheVariants.{Memory};

    fn from(_: AllocError) -> NameFault {
        NameFault::Memory
    }
}

/// Whether the kinds are one.
fn same_kind(a: Kind, b: Kind) -> bool
    ensures { result ≡ is_same_kind a b }
{
    a == b
}

/// The kind of the attribute at this place.
fn kind_at(schema: &Schema, place: usize) -> Kind
    requires { place < length schema.now }
    ensures { result ≡ kind_at schema.now place }
{
    schema.attr(place).kind
}

/// Whether the host answers a bool, and takes the kind of the attribute.
fn fits(schema: &Schema, place: usize, hosts: &HostTable, host: u32) -> bool
    requires place { place < length schema.now }
    requires host { host < length hosts.now.names }
    ensures { result ≡ fits schema.now place hosts.now.names host }
{
    let answers = same_kind(Kind::Bool, hosts.result(host));
    let takes = same_kind(kind_at(schema, place), hosts.param(host));
    answers && takes
}

/// The guard that a line means, or its fault.
fn guard_of(line: &GuardLine, catalogue: &Catalogue, hosts: &HostTable) -> Result<Guard, NameFault>
    ensures means { IfOk result (λ guard. meaning_of catalogue.now hosts.now.names line.now ≡ means guard) }
    ensures suits { IfOk result (IsGuard catalogue.now hosts.now.names) }
    ensures faulty { IfErr result (λ fault. meaning_of catalogue.now hosts.now.names line.now ≡ faulty fault) }
{
    let relation = line.relation.name.bytes();
    let attribute = line.attribute.name.bytes();
    let host_name = line.host.name.bytes();
    let Some(rel) = catalogue.find(relation) else {
        return Err(NameFault::Unknown {
            at: line.relation.at,
        });
    };
    let decl = catalogue.decl(rel);
    let Some(place) = decl.schema.position(attribute) else {
        return Err(NameFault::Unknown {
            at: line.attribute.at,
        });
    };
    let Some(host) = hosts.find(host_name) else {
        return Err(NameFault::Unknown { at: line.host.at });
    };
    let fit = fits(&decl.schema, place, hosts, host);
    if fit {
        Ok(Guard { rel, place, host })
    } else {
        Err(NameFault::Mismatch { at: line.host.at })
    }
}

/// The guards that the lines mean, in the order of the lines. Each line is looked at in order, and of each the relation,
/// the attribute and the host: Unknown comes at the first that is not there, and Mismatch at a host that answers no bool
/// or does not take the attribute's kind.
pub fn guards_of(
    alloc: Global,
    lines: &GuardLines,
    catalogue: &Catalogue,
    hosts: &HostTable,
) -> Result<GuardTable, NameFault>
    ensures mean { IfOk result (λ table. Mean catalogue.now hosts.now.names lines.now table) }
    ensures are { IfOk result (λ table. AreGuards catalogue.now hosts.now.names table) }
    ensures refused { IfErr result (λ fault. (fault ≡ NameFault.Memory) ⊎ FirstFault catalogue.now hosts.now.names lines.now fault) }
{
    let mut table = GuardTable::new(alloc);
    let items = lines.items();
    for line in items {
        let guard = guard_of(line, catalogue, hosts)?;
        table.add(catalogue, hosts, guard.rel, guard.place, guard.host)?;
    }
    Ok(table)
}
