//! The table of host functions.
ghost use Rattle.std.specs.Prelude.{◌≡◌, true, ◌+◌, ◌<◌, ◌^◌, ◌++◌, [], ◌∷◌, ◌↔◌, IsSome, IsSomeAnd, IfSome, OnOk, IfErr, length, map};
ghost use Rattle.hera_meaning.specs.Hosts.{host_at, host_of};
ghost use Rattle.hera_meaning.specs.Scalars.{is_kind};
ghost use Rattle.hera_host.specs.Tables.{AreHosts, host, specs_of, host_named, takes_at, gives_at};

use crate::host::HostFn;
use crate::names::HostNames;
use hera_meaning::{HostAnswer, Kind, Scalar};
use std::alloc::Global;
use thiserror::Error;

/// Why a host function was not added to a table.
#[derive(Debug, Drop, Error)]
pub enum HostFault {
    /// A host of the table has this name.
    #[error("a host function has this name")]
    NameTaken,
    /// No memory for one more host.
    #[error("out of memory")]
    Memory,
}

/// The host functions that a script may call. A host's number is its place.
#[derive(Drop)]
pub struct HostTable {
    pub names: HostNames,
    fns: Vec<HostFn>,
    ghost listed: { names ≡ map (λ f. host f.name f.spec) fns.items },
}

impl HostTable {
    /// The table without hosts. It takes no memory.
    pub fn new(alloc: Global) -> HostTable
        ensures { result.names ≡ [] }
    {
        HostTable {
            names: HostNames::new(alloc),
            fns: Vec::new(alloc),
        }
    }

    /// How many there are.
    pub fn len(&self) -> u32
        ensures count { result ≡ length self.now.names }
        ensures valid { AreHosts self.now.names }
    {
        self.names.len()
    }

    /// Puts one more behind the others, which then has the number `len`. `NameTaken` comes exactly where a host of the
    /// table has its name, `Memory` where there is no memory for it; the host comes back, and the table is as before.
    pub fn add(&mut self, new: HostFn) -> Result<(), (HostFn, HostFault)>
        requires { length self.old.names + 1 < 2 ^ 32 }
        ensures added { OnOk result (self.new.names ≡ self.old.names ++ host new.name new.spec ∷ []) }
        ensures unchanged { IfErr result (λ refusal. (refusal.0 ≡ new) × (self.new.names ≡ self.old.names)) }
        ensures taken { (result ≡ Err (new, HostFault.NameTaken)) ↔ IsSome (host_named new.name self.old.names) }
    {
        if self.names.find(new.name.bytes()).is_some() {
            return Err((new, HostFault::NameTaken));
        }
        let Ok(listed) = new.listed() else {
            return Err((new, HostFault::Memory));
        };
        if self.fns.reserve(1).is_err() || self.names.push(listed).is_err() {
            return Err((new, HostFault::Memory));
        }
        match self.fns.push(new) {
            Ok(()) => Ok(()),
            Err(_) => unreachable!(),
        }
    }

    /// The number of the host of this name, `None` exactly where there is none.
    pub fn find(&self, name: &[u8]) -> Option<u32>
        ensures number { result ≡ host_named name.now self.now.names }
        ensures within { IfSome result (λ id. id < length self.now.names) }
    {
        self.names.find(name)
    }

    /// The kind of the argument of the host of this number.
    pub fn param(&self, id: u32) -> Kind
        requires { id < length self.now.names }
        ensures { result ≡ takes_at self.now.names id }
    {
        self.names.param(id)
    }

    /// The kind of the answer of the host of this number.
    pub fn result(&self, id: u32) -> Kind
        requires { id < length self.now.names }
        ensures { result ≡ gives_at self.now.names id }
    {
        self.names.result(id)
    }

    /// What the host of this number answers for an argument of its kind. It takes no memory.
    pub fn call(&self, id: u32, arg: &Scalar) -> HostAnswer
        requires number { id < length self.now.names }
        requires kind { is_kind (takes_at self.now.names id) arg.now ≡ true }
        ensures answer { IsSomeAnd (host_at (specs_of self.now.names) id) (λ spec. result ≡ host_of spec arg.now) }
    {
        self.fns[id as usize].answer(arg)
    }
}
