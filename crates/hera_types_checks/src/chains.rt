//! Chains of operands.

ghost use Rattle.hera_meaning.specs.Plain.{expr_of};
ghost use Rattle.hera_rules.specs.Agrees.{steps_of, typing_of};
ghost use Rattle.hera_rules.specs.Rules.{chain_core, joint_row, typing};
ghost use Rattle.std.specs.Prelude.{Err, IfErr, IfOk, MatchResult, Ok, [], ◌++◌, ◌∷◌, ◌≡◌, ◌≢◌};
ghost use Rattle.hera_rules.specs.declared.fault.TypeFault.TheVariants as fault;

use crate::chain_cores::chain_of;
use crate::operands::check_joint;
use hera_meaning::{Core, Shape};
use hera_rules::{Item, Joint, TypeFault, Typed};
use hera_types_parts::put;
use std::alloc::Global;

/// The operands of a chain so far: the type of all of them, the first, and the others.
pub struct Chain {
    pub shape: Shape,
    pub first: Core,
    pub items: Vec<Item>,
}

impl Drop for Chain {
    fn drop(self) {
        let Chain {
            shape,
            first,
            items,
        } = self;
        drop((shape, first, items));
    }
}

impl Chain {
    /// A chain of one operand.
    pub fn new(alloc: Global, first: Typed) -> Chain
        ensures shape { result.shape ≡ first.shape }
        ensures core { result.first ≡ first.core }
        ensures items { result.items.items ≡ [] }
    {
        let Typed { shape, core } = first;
        Chain {
            shape,
            first: core,
            items: Vec::new(alloc),
        }
    }

    /// The chain with one operand more.
    pub fn join(self, joint: Joint, at: u32, operand: Typed) -> Result<Chain, TypeFault>
        ensures row { MatchResult result (λ chain. joint_row joint at self.shape operand.shape ≡ Ok chain.shape) (λ f. f ≢ fault.Memory → joint_row joint at self.shape operand.shape ≡ Err f) }
        ensures first { IfOk result (λ chain. chain.first ≡ self.first) }
        ensures steps { IfOk result (λ chain. steps_of chain.items.items ≡ steps_of self.items.items ++ record { joint = joint; at = at; arg = expr_of operand.core } ∷ []) }
    {
        let Chain {
            shape,
            first,
            mut items,
        } = self;
        let Typed {
            shape: right,
            core: arg,
        } = operand;
        match check_joint(&joint, at, shape, &right) {
            Ok(shape) => {
                drop(right);
                match put(&mut items, Item { joint, at, arg }) {
                    Ok(()) => Ok(Chain {
                        shape,
                        first,
                        items,
                    }),
                    Err(_) => {
                        drop((shape, first, items));
                        Err(TypeFault::Memory)
                    }
                }
            }
            Err(fault) => {
                drop((first, items, joint, arg, right));
                Err(fault)
            }
        }
    }

    /// The chain's type and core.
    pub fn finish(self, alloc: Global) -> Result<Typed, TypeFault>
        ensures typed { IfOk result (λ v. typing_of v ≡ typing self.shape (chain_core (expr_of self.first) (steps_of self.items.items))) }
        ensures refused { IfErr result (λ f. f ≡ fault.Memory) }
    {
        let Chain {
            shape,
            first,
            items,
        } = self;
        let core = chain_of(alloc, first, items)?;
        Ok(Typed { shape, core })
    }
}
