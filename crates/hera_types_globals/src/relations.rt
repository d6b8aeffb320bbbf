//! The first pass over a script: its relations.

ghost use Rattle.std.specs.Prelude.{◌≡◌, ◌<◌, [], OnOk, map, length};
ghost use Rattle.hera_sets.specs.Rows.{holds};
ghost use Rattle.hera_meaning.specs.declared.schemas.TheConstants.{RELATIONS_LIMIT};
ghost use Rattle.hera_meaning.specs.Catalogues.{decl_name};
ghost use Rattle.hera_rules.specs.Agrees.{Gives};
ghost use Rattle.hera_rules.specs.Programs.{relation_name, relations_row};
ghost use Rattle.hera_types_globals.specs.Passes.{relation_row};
ghost use Rattle.hera_rules.specs.Read.{word_of};
ghost use Rattle.hera_rules.specs.ReadActs.{relation_phrase};

use hera_meaning::{Name, RELATIONS_LIMIT, RelDecl};
use hera_rules::{Relations, TypeFault};
use hera_syntax::{Relation, Token};
use hera_types_checks::check_fields;
use hera_types_parts::{made, name_bytes, name_copy};
use std::alloc::Global;

/// Whether one of the relations has this name.
fn is_declared(relations: &Relations, name: &[u8]) -> bool
    ensures { result ≡ holds (map decl_name relations.now) name.now }
{
    relations.find(name).is_some()
}

/// The name of a relation: no earlier relation has it, and it is not the 257th.
fn relation_name_of(alloc: Global, relations: &Relations, token: &Token) -> Result<Name, TypeFault>
    ensures name { Gives (λ name. name) result (relation_name relations.now (word_of token.now)) }
    ensures few { OnOk result (length relations.now < RELATIONS_LIMIT) }
{
    if is_declared(relations, name_bytes(token)) {
        return Err(TypeFault::Repeated { at: token.at });
    }
    if relations.len() >= RELATIONS_LIMIT {
        return Err(TypeFault::TooMany { at: token.at });
    }
    name_copy(alloc, token)
}

/// The declaration of a relation behind these.
fn relation_of(alloc: Global, relations: &Relations, tree: &Relation) -> Result<RelDecl, TypeFault>
    ensures decl { Gives (λ decl. decl) result (relation_row relations.now (relation_phrase tree.now)) }
    ensures few { OnOk result (length relations.now < RELATIONS_LIMIT) }
{
    let attrs = check_fields(alloc, &tree.attrs)?;
    let name = relation_name_of(alloc, relations, &tree.name)?;
    let schema = made(attrs)?;
    Ok(RelDecl { name, schema })
}

/// The relations of a script.
pub fn relations_of(alloc: Global, trees: &[Relation]) -> Result<Relations, TypeFault>
    ensures { Gives (λ relations. relations) result (relations_row [] (map relation_phrase trees.now)) }
{
    let mut relations = Relations::new(alloc);
    for tree in trees {
        let decl = relation_of(alloc, &relations, tree)?;
        relations.push(decl)?;
    }
    Ok(relations)
}
