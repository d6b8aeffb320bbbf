//! What is known of an operation without its operands.
ghost use Rattle.std.specs.Prelude.{◌≡◌};
ghost use Rattle.hera_meaning.specs.Fits.{arity};
ghost use Rattle.hera_fits.specs.Tables.{asks_relations, is_relational, takes_relations};

use hera_meaning::Op;

/// How many operands the operation takes.
pub fn arity(op: &Op) -> usize
    ensures { result ≡ arity op.now }
{
    match op {
        Op::Neg => 1,
        Op::Not => 1,
        Op::Field(_, _) => 1,
        Op::MakeRow(schema) => schema.len(),
        Op::MakeRel(n) => *n as usize,
        Op::Project(_, _) => 1,
        Op::Group(_, _, _) => 1,
        Op::Count => 1,
        Op::Empty => 1,
        Op::Sum(_, _) => 1,
        Op::Min(_, _) => 1,
        Op::Max(_, _) => 1,
        Op::Atom(_, _) => 1,
        Op::Bulk(_, _) => 1,
        Op::Ins(_) => 1,
        Op::Del(_) => 1,
        Op::IsFail => 1,
        _ => 2,
    }
}

/// Whether each operand of the operation has to be a relation.
fn asks_relations(op: &Op) -> bool
    ensures { result ≡ asks_relations op.now }
{
    match op {
        Op::Project(_, _) => true,
        Op::Union | Op::Minus | Op::Inter => true,
        Op::Join(_, _) => true,
        Op::Group(_, _, _) => true,
        Op::Count | Op::Empty => true,
        Op::Sum(_, _) => true,
        Op::Min(_, _) => true,
        Op::Max(_, _) => true,
        _ => false,
    }
}

/// Whether the operation may be one on relations alone, which `prim_rel` reads where they stand: it
/// asks for relations, or is one of `==` and `!=`.
pub(crate) fn is_relational(op: &Op) -> bool
    ensures { result ≡ is_relational op.now }
{
    match op {
        Op::Eq => true,
        Op::Ne => true,
        _ => asks_relations(op),
    }
}

/// Whether an operand of the operation may be a relation. Of the others, none fits with a relation
/// among its operands.
pub fn takes_relations(op: &Op) -> bool
    ensures { result ≡ takes_relations op.now }
{
    match op {
        Op::In => true,
        Op::Bulk(_, _) => true,
        _ => is_relational(op),
    }
}
