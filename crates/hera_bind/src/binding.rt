//! Binding of a program to a catalogue.

ghost use Rattle.std.specs.Prelude.{◌≡◌, ◌↔◌, ℕ, List, IfOk, OnOk, Err, IsTrue, MatchOption};
ghost use Rattle.hera_meaning.specs.declared.schemas.RelDecl.{RelDecl};
ghost use Rattle.hera_meaning.specs.Catalogues.{IsCatalogue};
ghost use Rattle.hera_meaning.specs.Hosts.{Hosts};
ghost use Rattle.hera_meaning.specs.Plain.{program_of};
ghost use Rattle.hera_meaning.specs.Sound.{Sound};
ghost use Rattle.hera_rules.specs.Bound.{bound, Differs, Has};
ghost use Rattle.hera_bind.specs.Having.{AllHas, IsFirstMissing};

use crate::statements::bind_bodies;
use hera_meaning::{Name, Program, RelDecl, RelId};
use hera_row::Catalogue;
use std::alloc::{AllocError, Global};
use std::fmt;
use thiserror::Error;

/// Why a program is not bound. The causes are tested in this order.
#[derive(Drop, Error)]
pub enum BindFault {
    /// The first declared relation that the catalogue has not with an equal schema.
    #[error("a relation differs")]
    Differs { relation: Name },
    /// No memory for the catalogue's declarations.
    #[error("out of memory")]
    Memory,
}

// A name has no `Debug`, so the fault shows its kind alone.
impl fmt::Debug for BindFault {
    fn fmt<W: fmt::Write>(&self, f: &mut fmt::Formatter<W>) -> fmt::Result {
        match self {
            BindFault::Differs { relation: _ } => f.write_str("Differs"),
            BindFault::Memory => f.write_str("Memory"),
        }
    }
}

/// Whether the catalogue has the relation with an equal schema.
fn has(catalogue: &Catalogue, decl: &RelDecl) -> bool
    ensures { IsTrue result ↔ Has catalogue.now decl.now }
{
    match catalogue.find(decl.name.bytes()) {
        Some(number) => catalogue.decl(number).schema.same(&decl.schema),
        None => false,
    }
}

/// The place of the first declared relation that the catalogue has not with an equal schema, and `None`
/// where it has all of them, so that a program of these relations binds to it. It takes no memory.
pub fn first_missing(catalogue: &Catalogue, own: &[RelDecl]) -> Option<usize>
    ensures { MatchOption result (AllHas catalogue.now own.now) (IsFirstMissing catalogue.now own.now) }
{
    for (i, decl) in own.iter().enumerate() {
        if !has(catalogue, decl) {
            return Some(i);
        }
    }
    None
}

/// Copies of the catalogue's declarations.
fn copies(alloc: Global, catalogue: &Catalogue) -> Result<Vec<RelDecl>, AllocError>
    ensures copied { IfOk result (λ decls. decls.items ≡ catalogue.now) }
    ensures valid { IsCatalogue catalogue.now }
{
    let mut decls = Vec::new(alloc);
    for i in 0..catalogue.len() {
        decls.push(catalogue.decl(RelId(i as u16)).copy()?)?;
    }
    Ok(decls)
}

/// The program with the catalogue's relations and numbers. It may declare fewer relations than the
/// catalogue has; it is gone after a refusal.
pub fn bind(alloc: Global, program: Program, catalogue: &Catalogue) -> Result<Program, BindFault>
    ensures bound { IfOk result (λ p. program_of p ≡ bound (program_of program) catalogue.now) }
    ensures has { OnOk result (AllHas catalogue.now program.relations.items) }
    ensures differs { (name : List ℕ) → (result ≡ Err (BindFault.Differs name)) ↔ Differs catalogue.now program.relations.items name }
    ensures sound { IfOk result (λ p. (hosts : Hosts) → Sound (program_of program) hosts → Sound (program_of p) hosts) }
{
    let Program {
        mut relations,
        mut bodies,
    } = program;
    if let Some(place) = first_missing(catalogue, &relations) {
        let RelDecl { name, schema: _ } = relations.remove(place);
        return Err(BindFault::Differs { relation: name });
    }
    let decls = match copies(alloc, catalogue) {
        Ok(decls) => decls,
        Err(_) => return Err(BindFault::Memory),
    };
    bind_bodies(&relations, catalogue, &mut bodies);
    Ok(Program {
        relations: decls,
        bodies,
    })
}
