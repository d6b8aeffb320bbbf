ghost use Rattle.std.specs.Prelude.{◌≡◌, ◌<◌, false, [], ◌∷◌, ◌++◌, map, length, IfOk, OnOk};
ghost use Rattle.hera_sets.specs.Rows.{holds};
ghost use Rattle.hera_meaning.specs.declared.schemas.TheConstants.{RELATIONS_LIMIT};
ghost use Rattle.hera_meaning.specs.Catalogues.{IsCatalogue, IsDecl, decl_name};

use hera_meaning::RelDecl;
use hera_row::{Catalogue, CatalogueFault};
use std::alloc::{AllocError, Global};

/// Adds a relation of a new name behind the others.
fn add_relation(catalogue: &mut Catalogue, relation: &RelDecl) -> Result<(), AllocError>
    requires decl { IsDecl relation.now }
    requires new { holds (map decl_name catalogue.old) relation.now.name ≡ false }
    requires few { length catalogue.old < RELATIONS_LIMIT }
    ensures { OnOk result (catalogue.new ≡ catalogue.old ++ relation.now ∷ []) }
{
    match catalogue.add(relation.name.copy()?, relation.schema.copy()?) {
        Ok(_) => Ok(()),
        Err(CatalogueFault::Memory) => Err(AllocError),
        Err(CatalogueFault::NameTaken | CatalogueFault::TooMany) => unreachable!(),
    }
}

/// The catalogue of a program's relations.
pub(crate) fn catalogue_of(alloc: Global, relations: &[RelDecl]) -> Result<Catalogue, AllocError>
    requires { IsCatalogue relations.now }
    ensures { IfOk result (λ catalogue. catalogue ≡ relations.now) }
{
    let mut catalogue = Catalogue::new(alloc);
    for relation in relations {
        add_relation(&mut catalogue, relation)?;
    }
    Ok(catalogue)
}
