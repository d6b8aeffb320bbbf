//! Which operands fit an operation.
ghost use Rattle.std.specs.Prelude.{◌≡◌};
ghost use Rattle.hera_meaning.specs.Fits.{a_scalar, in_kind_order, two, fits_of, wants, all_meet};
ghost use Rattle.hera_meaning.specs.Values.{operand};

use crate::Args;
use crate::places::is_good_op;
use crate::wants::{
    Want, are_fields, are_tuples, are_two, in_order_with_first, is_one, like_first,
};
use hera_meaning::{Kind, Op};

/// Whether the operands fit the operation: there are as many as it takes, each of the kind that it
/// asks and with rows of the schema that it names; and its places are in range. It takes no memory.
pub fn fits(op: &Op, args: &Args) -> bool
    ensures { result ≡ fits_of op.now args.now }
{
    is_good_op(op) && are_wanted(op, args)
}

/// Whether the operands are those that the operation takes.
fn are_wanted(op: &Op, args: &Args) -> bool
    ensures { result ≡ all_meet (wants op.now (operand args.now 0)) args.now }
{
    match op {
        Op::Neg => is_one(args, Want::Scalar(Kind::Int)),
        Op::Not => is_one(args, Want::Scalar(Kind::Bool)),
        Op::Add | Op::Sub | Op::Mul | Op::Div | Op::Rem => are_two_ints(args),
        Op::Eq | Op::Ne => are_two(args, like_first(args), like_first(args)),
        Op::Lt | Op::Le | Op::Gt | Op::Ge => are_ordered(args),
        Op::In => are_two(args, Want::Row, Want::Rel),
        Op::Field(schema, _) => is_one(args, Want::RowOf(schema)),
        Op::MakeRow(schema) => are_fields(args, schema),
        Op::MakeRel(n) => are_tuples(args, *n as usize),
        Op::Project(schema, _) => is_one(args, Want::RelOf(schema)),
        Op::Union | Op::Minus | Op::Inter => are_two(args, Want::Rel, Want::Rel),
        Op::Join(left, right) => are_two(args, Want::RelOf(left), Want::RelOf(right)),
        Op::Group(schema, _, _) => is_one(args, Want::RelOf(schema)),
        Op::Count | Op::Empty => is_one(args, Want::Rel),
        Op::Sum(schema, _) => is_one(args, Want::RelOf(schema)),
        Op::Min(schema, _) => is_one(args, Want::RelOf(schema)),
        Op::Max(schema, _) => is_one(args, Want::RelOf(schema)),
        Op::Atom(_, _) => is_one(args, Want::Row),
        Op::Bulk(_, _) => is_one(args, Want::Rel),
        Op::Ins(_) | Op::Del(_) | Op::IsFail => is_one(args, Want::Delta),
        Op::Smash | Op::Merge => are_two(args, Want::Delta, Want::Delta),
    }
}

/// Whether there are two ints.
fn are_two_ints(args: &Args) -> bool
    ensures { result ≡ all_meet (two (a_scalar Kind.Int)) args.now }
{
    are_two(args, Want::Scalar(Kind::Int), Want::Scalar(Kind::Int))
}

/// Whether there are two texts where the first operand is a text, and else two ints.
fn are_ordered(args: &Args) -> bool
    ensures { result ≡ all_meet (two (in_kind_order (operand args.now 0))) args.now }
{
    are_two(args, in_order_with_first(args), in_order_with_first(args))
}
