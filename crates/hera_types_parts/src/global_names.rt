//! What the global names of a script mean, each found by its name.

ghost use Rattle.hera_meaning.specs.Deltas.{schema_of};
ghost use Rattle.hera_rules.specs.Environments.{env_of, func_named, is_global, proc_named, relation_named};
ghost use Rattle.std.specs.Option.{option_copied, option_map};
ghost use Rattle.std.specs.Prelude.{length, IfOk, IfSome, ◌<◌, ◌≡◌};

use crate::name_sets::{NameSet, item_at, names_of_funcs, names_of_procs};
use hera_host::HostNames;
use hera_meaning::{RelId, Schema};
use hera_rules::{FuncSig, Globals, ProcSig, Relations};
use std::alloc::{AllocError, Global};
use std::marker::Model;

/// What the global names of a script mean. A look-up of a name takes no longer where there are more.
pub struct GlobalNames<'a> {
    globals: Globals<'a>,
    funcs: NameSet,
    procs: NameSet,
}

/// It is a function so that the proofs of whoever lets the names go do not go through their parts.
impl<'a> Drop for GlobalNames<'a> {
    fn drop(self) {
        let GlobalNames {
            globals: _,
            funcs: _,
            procs: _,
        } = self;
    }
}

impl<'a> Model for GlobalNames<'a> {
    ghost use Rattle.std.specs.Prelude.{map, ◌≡◌};
    ghost use Rattle.hera_rules.specs.declared.env.Globals.{Globals};
    ghost use Rattle.hera_types_parts.specs.NameSets.{func_name, proc_name};

    ghost Value = { Globals };

    ghost view = { λ g. g.globals };

    ghost invariant = { λ g. (g.funcs ≡ map func_name g.globals.funcs.items) × (g.procs ≡ map proc_name g.globals.procs.items) };
}

impl<'a> GlobalNames<'a> {
    /// These names. Where two funcs or two procs have one name, which the second pass rules out, it answers
    /// AllocError.
    pub fn new(alloc: Global, globals: Globals<'a>) -> Result<GlobalNames<'a>, AllocError>
        ensures { IfOk result (λ names. names ≡ globals.entry) }
    {
        let funcs = names_of_funcs(alloc, &globals.funcs)?;
        let procs = names_of_procs(alloc, &globals.procs)?;
        Ok(GlobalNames {
            globals,
            funcs,
            procs,
        })
    }

    /// The declared relations.
    pub fn relations(&self) -> &Relations
        ensures { result.now ≡ self.now.relations }
    {
        &self.globals.relations
    }

    /// The number of the relation of this name.
    pub fn relation(&self, name: &[u8]) -> Option<RelId>
        ensures place { option_map (λ r. r.0) result ≡ relation_named name.now self.now.relations }
        ensures within { IfSome result (λ r. r.0 < length self.now.relations) }
    {
        self.globals.relations.find(name)
    }

    /// The schema of a relation.
    pub fn schema(&self, rel: RelId) -> &Schema
        requires { rel.0 < length self.now.relations }
        ensures { result.now ≡ schema_of self.now.relations rel.0 }
    {
        self.globals.relations.schema(rel)
    }

    /// The funcs in order.
    pub fn funcs(&self) -> &[FuncSig]
        ensures { result.now ≡ self.now.funcs.items }
    {
        &self.globals.funcs
    }

    /// The procs in order.
    pub fn procs(&self) -> &[ProcSig]
        ensures { result.now ≡ self.now.procs.items }
    {
        &self.globals.procs
    }

    /// The host functions.
    pub fn hosts(&self) -> &HostNames
        ensures { result.now ≡ self.now.hosts.now }
    {
        self.globals.hosts
    }

    /// The declared relations alone.
    pub fn into_relations(self) -> Relations
        ensures { result ≡ self.entry.relations }
    {
        let GlobalNames {
            globals,
            funcs: _,
            procs: _,
        } = self;
        let Globals {
            relations,
            funcs: _,
            procs: _,
            hosts: _,
        } = globals;
        relations
    }

    /// The func of a name.
    pub fn func(&self, name: &[u8]) -> Option<&FuncSig>
        ensures { option_copied result ≡ func_named name.now self.now.funcs.items }
    {
        item_at(&self.globals.funcs, self.funcs.place(name))
    }

    /// The proc of a name.
    pub fn procedure(&self, name: &[u8]) -> Option<&ProcSig>
        ensures { option_copied result ≡ proc_named name.now self.now.procs.items }
    {
        item_at(&self.globals.procs, self.procs.place(name))
    }

    /// Whether a relation, a func or a proc has the name.
    pub fn has(&self, name: &[u8]) -> bool
        ensures { result ≡ is_global (env_of self.now) name.now }
    {
        self.relation(name).is_some() || self.func(name).is_some() || self.procedure(name).is_some()
    }
}
