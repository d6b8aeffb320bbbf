//! The core of a chain.

ghost use Rattle.hera_meaning.specs.Plain.{expr_of, exprs_in, hypos_in, links_in};
ghost use Rattle.hera_meaning.specs.Trees.{then_expr};
ghost use Rattle.hera_rules.specs.Agrees.{steps_of};
ghost use Rattle.hera_rules.specs.Rules.{args_from, chain_core, hypos_from, links_from, op_in};
ghost use Rattle.std.specs.Prelude.{IfOk, ◌≡◌};

use hera_meaning::{Core, Hypo, Link, Op};
use hera_rules::{Item, Joint};
use hera_types_parts::{boxed, put};
use std::alloc::{AllocError, Global};

/// An operand as a link.
fn link_of_item(item: Item) -> Link
    ensures { result ≡ record { op = op_in item.joint; arg = item.arg; at = item.at } }
{
    let Item { joint, at, arg } = item;
    Link {
        op: op_of_joint(joint),
        arg,
        at,
    }
}

/// An operand as a delta of a `when`.
fn hypo_of_item(item: Item) -> Hypo
    ensures { result ≡ record { delta = item.arg; at = item.at } }
{
    let Item { joint, at, arg } = item;
    drop(joint);
    Hypo { delta: arg, at }
}

/// The core of an operand.
fn arg_of_item(item: Item) -> Core
    ensures { result ≡ item.arg }
{
    let Item { joint, at: _, arg } = item;
    drop(joint);
    arg
}

/// The links of a chain.
fn links_of_items(alloc: Global, items: Vec<Item>) -> Result<Vec<Link>, AllocError>
    ensures { IfOk result (λ all. links_in all.items ≡ links_from (steps_of items.items)) }
{
    let mut all = Vec::new(alloc);
    for item in items {
        put(&mut all, link_of_item(item))?;
    }
    Ok(all)
}

/// The operation of an operator.
fn op_of_joint(joint: Joint) -> Op
    ensures { result ≡ op_in joint }
{
    match joint {
        Joint::Arithmetic(op) => op,
        Joint::Equality(op) => op,
        Joint::Order(op) => op,
        Joint::Deltas(op) => op,
        _ => Op::In,
    }
}

/// The deltas of a `when`.
fn hypos_of_items(alloc: Global, items: Vec<Item>) -> Result<Vec<Hypo>, AllocError>
    ensures { IfOk result (λ all. hypos_in all.items ≡ hypos_from (steps_of items.items)) }
{
    let mut all = Vec::new(alloc);
    for item in items {
        put(&mut all, hypo_of_item(item))?;
    }
    Ok(all)
}

/// The operands of `&&` or `||`.
fn args_of_items(alloc: Global, first: Core, items: Vec<Item>) -> Result<Vec<Core>, AllocError>
    ensures { IfOk result (λ all. exprs_in all.items ≡ then_expr (expr_of first) (args_from (steps_of items.items))) }
{
    let mut all = Vec::new(alloc);
    put(&mut all, first)?;
    for item in items {
        put(&mut all, arg_of_item(item))?;
    }
    Ok(all)
}

/// The core of a chain: its first operand where there is no other.
#[tactic(auto, using(hera_meaning::proofs::PlainLaws::plain))]
pub fn chain_of(alloc: Global, first: Core, items: Vec<Item>) -> Result<Core, AllocError>
    ensures { IfOk result (λ core. expr_of core ≡ chain_core (expr_of first) (steps_of items.items)) }
{
    match items.first() {
        None => Ok(first),
        Some(item) => match &item.joint {
            Joint::When => {
                let start = boxed(alloc, first)?;
                let hypos = hypos_of_items(alloc, items)?;
                Ok(Core::When(start, hypos))
            }
            Joint::And => Ok(Core::And(args_of_items(alloc, first, items)?)),
            Joint::Or => Ok(Core::Or(args_of_items(alloc, first, items)?)),
            _ => {
                let start = boxed(alloc, first)?;
                let links = links_of_items(alloc, items)?;
                Ok(Core::Chain(start, links))
            }
        },
    }
}
