ghost use Rattle.std.specs.Prelude.{◌≡◌, true, ◌+◌, ◌<◌, ◌^◌, ◌++◌, [], ◌∷◌, IfSome, OnOk, OnErr, length};
ghost use Rattle.hera_meaning.specs.Sound.{is_spec};
ghost use Rattle.hera_meaning.specs.Hosts.{host_takes, host_gives};
ghost use Rattle.hera_host.specs.Tables.{AreHosts, host_named, takes_at, gives_at};
ghost use Rattle.hera_sets.specs.Rows.{is_same};

use hera_meaning::{HostSpec, Kind, Name};
use hera_sets::is_same;
use std::alloc::{AllocError, Global};
use std::marker::Model;

/// A host function as it is typed: its name, and what it answers for its argument.
#[derive(Drop)]
pub(crate) struct Listed {
    pub(crate) name: Name,
    pub(crate) spec: HostSpec,
}

impl Model for Listed {
    ghost use Rattle.hera_host.specs.Tables.{Host};

    ghost Value = { Host };

    ghost view = { λ h. record { name = h.name; spec = h.spec } };
}

impl Listed {
    /// Whether the host has this name.
    fn is_named(&self, name: &[u8]) -> bool
        ensures { result ≡ is_same name.now self.now.name }
    {
        is_same(name, self.name.bytes())
    }

    /// The kind of the argument.
    fn param(&self) -> Kind
        ensures { result ≡ host_takes self.now.spec }
    {
        match &self.spec {
            HostSpec::Prefix { .. } => Kind::Text,
            _ => Kind::Int,
        }
    }

    /// The kind of the answer.
    fn result(&self) -> Kind
        ensures { result ≡ host_gives self.now.spec }
    {
        match &self.spec {
            HostSpec::Band { .. } | HostSpec::Prefix { .. } => Kind::Bool,
            _ => Kind::Int,
        }
    }
}

/// The place of the host of this name.
fn place_of(hosts: &[Listed], name: &[u8]) -> Option<usize>
    ensures place { result ≡ host_named name.now hosts.now }
    ensures within { IfSome result (λ i. i < length hosts.now) }
{
    hosts.iter().position(|host| host.is_named(name))
}

/// The names of the host functions that a script may call, and what they answer. A host's number is its place.
#[derive(Drop)]
pub struct HostNames {
    hosts: Vec<Listed>,
}

impl Model for HostNames {
    ghost use Rattle.std.specs.Prelude.{List};
    ghost use Rattle.hera_host.specs.Tables.{Host};

    ghost Value = { List Host };

    ghost use Rattle.std.specs.Prelude.{◌<◌, ◌^◌, length};
    ghost use Rattle.hera_host.specs.Tables.{AreHosts};

    ghost view = { λ t. t.hosts.items };

    ghost invariant = { λ t. (length t.hosts.items < 2 ^ 32) × AreHosts t.hosts.items };
}

impl HostNames {
    /// No hosts. It takes no memory.
    pub fn new(alloc: Global) -> HostNames
        ensures { result ≡ [] }
    {
        HostNames {
            hosts: Vec::new(alloc),
        }
    }

    /// How many there are.
    pub fn len(&self) -> u32
        ensures count { result ≡ length self.now }
        ensures valid { AreHosts self.now }
    {
        self.hosts.len() as u32
    }

    /// Puts one more behind the others.
    pub(crate) fn push(&mut self, listed: Listed) -> Result<(), AllocError>
        requires valid { is_spec listed.spec ≡ true }
        requires room { length self.old + 1 < 2 ^ 32 }
        ensures added { OnOk result (self.new ≡ self.old ++ listed ∷ []) }
        ensures unchanged { OnErr result (self.new ≡ self.old) }
    {
        self.hosts.push(listed)?;
        Ok(())
    }

    /// The number of the host of this name, `None` exactly where there is none.
    pub fn find(&self, name: &[u8]) -> Option<u32>
        ensures number { result ≡ host_named name.now self.now }
        ensures within { IfSome result (λ id. id < length self.now) }
    {
        match place_of(&self.hosts, name) {
            Some(place) => Some(place as u32),
            None => None,
        }
    }

    /// The kind of the argument of the host of this number.
    pub fn param(&self, id: u32) -> Kind
        requires { id < length self.now }
        ensures { result ≡ takes_at self.now id }
    {
        self.hosts[id as usize].param()
    }

    /// The kind of the answer of the host of this number.
    pub fn result(&self, id: u32) -> Kind
        requires { id < length self.now }
        ensures { result ≡ gives_at self.now id }
    {
        self.hosts[id as usize].result()
    }
}
