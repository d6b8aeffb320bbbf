//! Lists of typed phrases and of cores.

ghost use Rattle.hera_meaning.specs.Plain.{expr_of, exprs_in};
ghost use Rattle.hera_meaning.specs.Trees.{prim};
ghost use Rattle.hera_rules.specs.Agrees.{typings_of};
ghost use Rattle.hera_rules.specs.Rules.{exprs_from, one_expr, two_exprs};
ghost use Rattle.std.specs.Prelude.{IfErr, IfOk, OnOk, [], ◌++◌, ◌∷◌, ◌≡◌};
ghost use Rattle.hera_rules.specs.declared.fault.TypeFault.TheVariants as fault;

use hera_meaning::{Core, Op};
use hera_rules::{TypeFault, Typed};
use std::alloc::{AllocError, Global};

/// One item more.
pub fn put<T: Drop>(items: &mut Vec<T>, item: T) -> Result<(), AllocError>
    ensures { OnOk result (items.new.items ≡ items.old.items ++ item ∷ []) }
{
    items.push(item)?;
    Ok(())
}

/// The expression in a box.
pub fn boxed(alloc: Global, core: Core) -> Result<Box<Core>, AllocError>
    ensures { IfOk result (λ b. b.value ≡ core) }
{
    Ok(Box::new(alloc, core)?)
}

/// A list of one item.
fn list_of_one<T: Drop>(alloc: Global, item: T) -> Result<Vec<T>, AllocError>
    ensures { IfOk result (λ all. all.items ≡ item ∷ []) }
{
    let mut all = Vec::new(alloc);
    put(&mut all, item)?;
    Ok(all)
}

/// A list of two items.
fn list_of_two<T: Drop>(alloc: Global, first: T, second: T) -> Result<Vec<T>, AllocError>
    ensures { IfOk result (λ all. all.items ≡ first ∷ second ∷ []) }
{
    let mut all = Vec::new(alloc);
    put(&mut all, first)?;
    put(&mut all, second)?;
    Ok(all)
}

/// The operation of one operand.
#[tactic(auto, using(hera_meaning::proofs::PlainLaws::plain))]
pub fn unary(alloc: Global, op: Op, core: Core, at: u32) -> Result<Core, AllocError>
    ensures { IfOk result (λ e. expr_of e ≡ prim op (one_expr (expr_of core)) at) }
{
    match list_of_one(alloc, core) {
        Ok(args) => Ok(Core::Prim(op, args, at)),
        Err(error) => {
            drop(op);
            Err(error)
        }
    }
}

/// The operation of two operands.
#[tactic(auto, using(hera_meaning::proofs::PlainLaws::plain))]
pub fn binary(alloc: Global, op: Op, left: Core, right: Core, at: u32) -> Result<Core, AllocError>
    ensures { IfOk result (λ e. expr_of e ≡ prim op (two_exprs (expr_of left) (expr_of right)) at) }
{
    match list_of_two(alloc, left, right) {
        Ok(args) => Ok(Core::Prim(op, args, at)),
        Err(error) => {
            drop(op);
            Err(error)
        }
    }
}

/// The core of a typed phrase.
pub fn into_core(value: Typed) -> Core
    ensures { result ≡ value.core }
{
    let Typed { shape, core } = value;
    drop(shape);
    core
}

/// The cores of typed phrases.
pub fn cores(alloc: Global, values: Vec<Typed>) -> Result<Vec<Core>, AllocError>
    ensures { IfOk result (λ all. exprs_in all.items ≡ exprs_from (typings_of values.items)) }
{
    let mut all = Vec::new(alloc);
    for value in values {
        let core = into_core(value);
        put(&mut all, core)?;
    }
    Ok(all)
}

/// A count as a number of 32 bits. Where it is greater, which no script's text makes, it answers Memory.
pub fn number_of(count: usize) -> Result<u32, TypeFault>
    ensures number { IfOk result (λ number. number ≡ count) }
    ensures refused { IfErr result (λ f. f ≡ fault.Memory) }
{
    if count > 0xffff_ffff {
        return Err(TypeFault::Memory);
    }
    Ok(count as u32)
}
