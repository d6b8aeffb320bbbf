//! What names mean.

ghost use Rattle.hera_rules.specs.Agrees.{Gives, typing_of};
ghost use Rattle.hera_rules.specs.Environments.{env_of, is_taken};
ghost use Rattle.hera_rules.specs.Read.{word_of};
ghost use Rattle.hera_rules.specs.Rules.{kind_type, name_row};
ghost use Rattle.std.specs.Prelude.{◌≡◌};

use crate::global_names::GlobalNames;
use crate::local_names::LocalNames;
use crate::tokens::name_bytes;
use hera_meaning::{Core, Kind, Shape};
use hera_rules::{TypeFault, Typed};
use hera_syntax::Token;

/// Whether a visible local, a relation, a func or a proc has the name.
pub fn has_name(globals: &GlobalNames, scope: &LocalNames, name: &[u8]) -> bool
    ensures { result ≡ is_taken (env_of globals.now) scope.now.locals.items name.now }
{
    scope.local(name).is_some() || globals.has(name)
}

/// The type of a kind.
pub fn type_of_kind(kind: Kind) -> Shape
    ensures { result ≡ kind_type kind }
{
    match kind {
        Kind::Int => Shape::Int,
        Kind::Bool => Shape::Bool,
        Kind::Text => Shape::Text,
    }
}

/// A name: a visible local, else a relation.
#[tactic(auto, using(hera_meaning::proofs::PlainLaws::plain))]
pub fn check_name(
    globals: &GlobalNames,
    scope: &LocalNames,
    token: &Token,
) -> Result<Typed, TypeFault>
    ensures { Gives typing_of result (name_row (env_of globals.now) scope.now.locals.items (word_of token.now)) }
{
    let name = name_bytes(token);
    if let Some(local) = scope.local(name) {
        let shape = local.shape.copy()?;
        return Ok(Typed {
            shape,
            core: Core::Local(local.slot),
        });
    }
    let Some(rel) = globals.relation(name) else {
        return Err(TypeFault::Unknown { at: token.at });
    };
    let schema = globals.schema(rel).copy()?;
    Ok(Typed {
        shape: Shape::Rel(schema),
        core: Core::Rel(rel),
    })
}
