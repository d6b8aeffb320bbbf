//! The first three passes over a script.

ghost use Rattle.hera_rules.specs.Agrees.{Gives};
ghost use Rattle.hera_rules.specs.Environments.{env_of};
ghost use Rattle.hera_rules.specs.Programs.{env_row};
ghost use Rattle.hera_rules.specs.ReadActs.{script_of};

use crate::relations::relations_of;
use crate::signatures::{funcs_of, procs_of, relation_names, with_funcs, with_procs};
use hera_host::HostNames;
use hera_rules::{Globals, TypeFault};
use hera_syntax::Tree;
use hera_types_parts::GlobalNames;
use std::alloc::Global;

/// What the global names of a script mean, or the first fault among them: the first three passes, which look at the
/// relations, then at the names of funcs and procs, then at their signatures. `Memory` tells nothing of the script.
pub fn globals_of<'a>(
    alloc: Global,
    tree: &Tree,
    hosts: &'a HostNames,
) -> Result<GlobalNames<'a>, TypeFault>
    ensures { Gives env_of result (env_row hosts.now (script_of tree.now)) }
{
    let relations = relations_of(alloc, &tree.relations)?;
    let own = relation_names(alloc, &relations)?;
    let some = with_funcs(alloc, own, &tree.funcs)?;
    let taken = with_procs(alloc, some, &tree.procs)?;
    let funcs = funcs_of(alloc, &relations, &taken, &tree.funcs)?;
    let procs = procs_of(alloc, &relations, &taken, funcs.len(), &tree.procs)?;
    let globals = Globals {
        relations,
        funcs,
        procs,
        hosts,
    };
    Ok(GlobalNames::new(alloc, globals)?)
}
