//! The catalogue's numbers of a program's relations.

ghost use Rattle.std.specs.Prelude.{◌≡◌};
ghost use Rattle.hera_meaning.specs.declared.scalars.RelId.{RelId};
ghost use Rattle.hera_rules.specs.Bound.{name_at, number_in, bound_id, bound_op};

use hera_meaning::{Op, RelDecl, RelId};
use hera_row::Catalogue;

/// The name of a relation by its number; no name where there is none.
fn name_of(own: &[RelDecl], rel: RelId) -> &[u8]
    ensures { result.now ≡ name_at own.now rel.0 }
{
    match own.get(rel.0 as usize) {
        Some(decl) => decl.name.bytes(),
        None => &[],
    }
}

/// The catalogue's number of the relation that a program numbers `rel`, by its name.
pub fn number_of(own: &[RelDecl], catalogue: &Catalogue, rel: RelId) -> RelId
    ensures { result ≡ bound_id own.now catalogue.now rel }
{
    match catalogue.find(name_of(own, rel)) {
        Some(number) => number,
        None => RelId(0),
    }
}

/// Renumbers the relation of an operation.
pub fn bind_op(own: &[RelDecl], catalogue: &Catalogue, op: &mut Op)
    ensures { op.new ≡ bound_op own.now catalogue.now op.old }
{
    match op {
        Op::Atom(_, rel) => *rel = number_of(own, catalogue, *rel),
        Op::Bulk(_, rel) => *rel = number_of(own, catalogue, *rel),
        Op::Ins(rel) => *rel = number_of(own, catalogue, *rel),
        Op::Del(rel) => *rel = number_of(own, catalogue, *rel),
        _ => {}
    }
}
