//! The catalogue: the relations of a database by number and by name.
ghost use Rattle.std.specs.Prelude.{◌≡◌, ◌↔◌, ◌<◌, ◌≤◌, true, false, [], ◌∷◌, ◌++◌, length, map, slice_get, All, Some, IfOk, OnOk, OnErr};
ghost use Rattle.std.specs.Option.{option_map};
ghost use Rattle.hera_sets.specs.Rows.{holds};
ghost use Rattle.hera_meaning.specs.declared.schemas.TheConstants.{RELATIONS_LIMIT};
ghost use Rattle.hera_meaning.specs.Schemas.{names_of};
ghost use Rattle.hera_meaning.specs.Identifiers.{IsIdentifier};
ghost use Rattle.hera_meaning.specs.Catalogues.{IsCatalogue, decl_name};
ghost use Rattle.hera_row.specs.Numbers.{number_named};

use hera_meaning::{Name, RELATIONS_LIMIT, RelDecl, RelId, Schema};
use indexmap::IndexMap;
use std::alloc::{AllocError, Global};
use std::marker::Model;
use thiserror::Error;

/// At most 256 declarations of relations with distinct names, in which every name has an
/// identifier's shape. A relation's number is its place, counted from 0.
#[derive(Drop)]
pub struct Catalogue {
    /// Each declaration under the bytes of its name.
    decls: IndexMap<Vec<u8>, RelDecl>,
}

impl Model for Catalogue {
    ghost use Rattle.std.specs.Prelude.{List};
    ghost use Rattle.hera_meaning.specs.declared.schemas.RelDecl.{RelDecl};
    ghost use Rattle.hera_row.specs.Entries.{decls_of, IsNumbered};

    ghost Value = { List RelDecl };

    ghost view = { λ c. decls_of c.decls.entries };

    ghost invariant = { λ c. IsNumbered c.decls.entries };
}

/// Why a declaration is refused. The causes are tested in this order.
#[derive(Debug, Drop, Error)]
pub enum CatalogueFault {
    /// A relation of this name is there.
    #[error("the catalogue has a relation of this name")]
    NameTaken,
    /// There are 256 relations.
    #[error("a catalogue has at most 256 relations")]
    TooMany,
    /// No memory for the declaration.
    #[error("out of memory")]
    Memory,
}

impl Catalogue {
    /// The catalogue without relations. It takes no memory.
    pub fn new(alloc: Global) -> Catalogue
        ensures { result ≡ [] }
    {
        Catalogue {
            decls: IndexMap::new(alloc),
        }
    }

    /// Adds a relation, whose number is how many there were. After a refusal all is as before.
    pub fn add(&mut self, name: Name, schema: Schema) -> Result<RelId, CatalogueFault>
        requires name { IsIdentifier name }
        requires attrs { All IsIdentifier (names_of schema) }
        ensures number { IfOk result (λ id. id.0 ≡ length self.old) }
        ensures added { OnOk result (self.new ≡ self.old ++ record { name = name; schema = schema } ∷ []) }
        ensures taken { (result ≡ Err CatalogueFault.NameTaken) ↔ (holds (map decl_name self.old) name ≡ true) }
        ensures full { (result ≡ Err CatalogueFault.TooMany) ↔ ((holds (map decl_name self.old) name ≡ false) × (length self.old ≡ RELATIONS_LIMIT)) }
        ensures err { OnErr result (self.new ≡ self.old) }
    {
        if self.find(name.bytes()).is_some() {
            return Err(CatalogueFault::NameTaken);
        }
        let number = self.len();
        if number >= RELATIONS_LIMIT {
            return Err(CatalogueFault::TooMany);
        }
        match self.put(name, schema) {
            Ok(()) => Ok(RelId(number as u16)),
            Err(_) => Err(CatalogueFault::Memory),
        }
    }

    /// How many relations there are.
    pub fn len(&self) -> usize
        ensures count { result ≡ length self.now }
        ensures valid { IsCatalogue self.now }
    {
        self.decls.len()
    }

    /// The number of the relation of this name. It takes no memory.
    pub fn find(&self, name: &[u8]) -> Option<RelId>
        ensures number { option_map (λ id. id.0) result ≡ number_named name.now self.now }
        ensures valid { IsCatalogue self.now }
    {
        let number = self.decls.get_index_of(name)?;
        Some(RelId(number as u16))
    }

    /// The declaration of the relation of this number.
    pub fn decl(&self, rel: RelId) -> &RelDecl
        requires { rel.0 < length self.now }
        ensures decl { slice_get self.now rel.0 ≡ Some result.now }
        ensures valid { IsCatalogue self.now }
    {
        match self.decls.get_index(rel.0 as usize) {
            Some((_, decl)) => decl,
            None => unreachable!(),
        }
    }

    /// Puts a declaration of a new name behind the others.
    fn put(&mut self, name: Name, schema: Schema) -> Result<(), AllocError>
        requires name { IsIdentifier name }
        requires attrs { All IsIdentifier (names_of schema) }
        requires new { holds (map decl_name self.old) name ≡ false }
        requires few { length self.old < RELATIONS_LIMIT }
        ensures ok { OnOk result (self.new ≡ self.old ++ record { name = name; schema = schema } ∷ []) }
        ensures err { OnErr result (self.new ≡ self.old) }
    {
        prove!(schema.len() > 0);
        let key = Vec::from_slice(*self.decls.allocator(), name.bytes())?;
        self.decls.insert(key, RelDecl { name, schema })?;
        Ok(())
    }
}
