//! What names mean, and what a phrase is typed as.

ghost use Rattle.std.specs.Prelude.{◌≡◌, ◌<◌, ◌≤◌, ◌++◌, [], ◌∷◌, length, IfSome, OnOk};
ghost use Rattle.std.specs.Option.{option_map};
ghost use Rattle.hera_meaning.specs.declared.schemas.TheConstants.{RELATIONS_LIMIT};
ghost use Rattle.hera_meaning.specs.Deltas.{schema_of};
ghost use Rattle.hera_sets.specs.Rows.{is_same};
ghost use Rattle.hera_rules.specs.Environments.{relation_named};

use crate::words::Joint;
use hera_host::HostNames;
use hera_meaning::{Core, Name, RelDecl, RelId, Schema, Shape};
use hera_sets::is_same;
use std::alloc::{AllocError, Global};
use std::marker::Model;

/// A visible local.
#[derive(Drop)]
pub struct Local {
    pub name: Name,
    pub slot: u32,
    pub shape: Shape,
}

impl Local {
    ghost use Rattle.std.specs.Prelude.{◌≡◌, IfOk};

    /// A copy.
    pub fn copy(&self) -> Result<Local, AllocError>
        ensures { IfOk result (λ copy. copy ≡ self.now) }
    {
        let name = self.name.copy()?;
        let shape = self.shape.copy()?;
        Ok(Local {
            name,
            slot: self.slot,
            shape,
        })
    }
}

/// Locals, the oldest first.
#[derive(Drop)]
pub struct LocalList {
    items: Vec<Local>,
}

impl Model for LocalList {
    ghost use Rattle.std.specs.Prelude.{List};
    ghost use Rattle.hera_rules.specs.declared.env.Local.{Local};

    ghost Value = { List Local };

    ghost view = { λ l. l.items.items };
}

/// A func: its name, the number of its body, the type that it returns and its parameters.
#[derive(Drop)]
pub struct FuncSig {
    pub name: Name,
    pub number: u32,
    pub result: Shape,
    pub params: LocalList,
}

/// A proc: its name, the number of its body and its parameters.
#[derive(Drop)]
pub struct ProcSig {
    pub name: Name,
    pub number: u32,
    pub params: LocalList,
}

/// The declared relations, at most 256. A relation's number is its place.
#[derive(Drop)]
pub struct Relations {
    decls: Vec<RelDecl>,
}

impl Model for Relations {
    ghost use Rattle.std.specs.Prelude.{List, length, ◌≤◌};
    ghost use Rattle.hera_meaning.specs.declared.schemas.TheConstants.{RELATIONS_LIMIT};
    ghost use Rattle.hera_meaning.specs.declared.schemas.RelDecl.{RelDecl};

    ghost Value = { List RelDecl };

    ghost view = { λ r. r.decls.items };

    ghost invariant = { λ r. length r.decls.items ≤ RELATIONS_LIMIT };
}

/// What the global names of a script mean, and the host functions.
#[derive(Drop)]
pub struct Globals<'a> {
    pub relations: Relations,
    pub funcs: Vec<FuncSig>,
    pub procs: Vec<ProcSig>,
    pub hosts: &'a HostNames,
}

/// The visible locals, and the first slot that is free.
#[derive(Drop)]
pub struct LocalScope {
    pub locals: Vec<Local>,
    pub next: u32,
}

/// A phrase's type and core.
#[derive(Drop)]
pub struct Typed {
    pub shape: Shape,
    pub core: Core,
}

/// One operand of a chain behind the first.
#[derive(Drop)]
pub struct Item {
    pub joint: Joint,
    pub at: u32,
    pub arg: Core,
}

impl LocalList {
    /// These locals.
    pub fn new(items: Vec<Local>) -> LocalList
        ensures { result ≡ items.items }
    {
        LocalList { items }
    }

    /// The locals in order.
    pub fn items(&self) -> &[Local]
        ensures { result.now ≡ self.now }
    {
        &self.items
    }
}

impl Relations {
    /// No relation.
    pub fn new(alloc: Global) -> Relations
        ensures { result ≡ [] }
    {
        Relations {
            decls: Vec::new(alloc),
        }
    }

    /// How many there are.
    pub fn len(&self) -> usize
        ensures count { result ≡ length self.now }
        ensures few { length self.now ≤ RELATIONS_LIMIT }
    {
        self.decls.len()
    }

    /// The number of the relation of this name.
    pub fn find(&self, name: &[u8]) -> Option<RelId>
        ensures place { option_map (λ r. r.0) result ≡ relation_named name.now self.now }
        ensures within { IfSome result (λ r. r.0 < length self.now) }
    {
        match place_of(&self.decls, name) {
            Some(place) => Some(RelId(place as u16)),
            None => None,
        }
    }

    /// The schema of a relation.
    pub fn schema(&self, rel: RelId) -> &Schema
        requires { rel.0 < length self.now }
        ensures { result.now ≡ schema_of self.now rel.0 }
    {
        &self.decls[rel.0 as usize].schema
    }

    /// One relation more.
    pub fn push(&mut self, decl: RelDecl) -> Result<(), AllocError>
        requires { length self.old < RELATIONS_LIMIT }
        ensures { OnOk result (self.new ≡ self.old ++ decl ∷ []) }
    {
        self.decls.push(decl)?;
        Ok(())
    }

    /// The declarations in order.
    pub fn into_decls(self) -> Vec<RelDecl>
        ensures { result.items ≡ self }
    {
        self.decls
    }

    /// The declarations in order.
    pub fn decls(&self) -> &[RelDecl]
        ensures decls { result.now ≡ self.now }
        ensures few { length self.now ≤ RELATIONS_LIMIT }
    {
        &self.decls
    }
}

/// The place of the relation of this name.
fn place_of(decls: &[RelDecl], name: &[u8]) -> Option<usize>
    ensures place { result ≡ relation_named name.now decls.now }
    ensures within { IfSome result (λ i. i < length decls.now) }
{
    decls
        .iter()
        .position(|decl| is_same(name, decl.name.bytes()))
}
