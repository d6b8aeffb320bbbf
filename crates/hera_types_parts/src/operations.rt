//! Operations with the types of what they give.

ghost use Rattle.hera_meaning.specs.Plain.{expr_of};
ghost use Rattle.hera_rules.specs.Agrees.{typing_of};
ghost use Rattle.hera_types_parts.specs.Operations.{over_one, over_two};
ghost use Rattle.hera_rules.specs.declared.fault.TypeFault.TheVariants as fault;
ghost use Rattle.std.specs.Prelude.{IfErr, IfOk, ◌≡◌};

use crate::lists::{binary, into_core, unary};
use hera_meaning::{Op, Shape};
use hera_rules::{TypeFault, Typed};
use std::alloc::Global;

/// An operation, and the type of what it gives.
#[derive(Drop)]
pub struct Operation {
    pub op: Op,
    pub shape: Shape,
}

/// The operation over one operand.
pub fn on_one(
    alloc: Global,
    operation: Operation,
    value: Typed,
    at: u32,
) -> Result<Typed, TypeFault>
    ensures typed { IfOk result (λ v. typing_of v ≡ over_one (expr_of value.core) at operation) }
    ensures refused { IfErr result (λ f. f ≡ fault.Memory) }
{
    let Operation { op, shape } = operation;
    match unary(alloc, op, into_core(value), at) {
        Ok(core) => Ok(Typed { shape, core }),
        Err(_) => {
            drop(shape);
            Err(TypeFault::Memory)
        }
    }
}

/// The operation over two operands.
pub fn on_two(
    alloc: Global,
    operation: Operation,
    left: Typed,
    right: Typed,
    at: u32,
) -> Result<Typed, TypeFault>
    ensures typed { IfOk result (λ v. typing_of v ≡ over_two (expr_of left.core) (expr_of right.core) at operation) }
    ensures refused { IfErr result (λ f. f ≡ fault.Memory) }
{
    let Operation { op, shape } = operation;
    match binary(alloc, op, into_core(left), into_core(right), at) {
        Ok(core) => Ok(Typed { shape, core }),
        Err(_) => {
            drop(shape);
            Err(TypeFault::Memory)
        }
    }
}
