//! The operands of an operation.
ghost use Rattle.std.specs.Prelude.{◌≡◌, [], ◌∷◌, length, slice_get, OnOk, MatchOption};
ghost use Rattle.std.specs.Option.{option_map};
ghost use Rattle.delta_atoms.specs.Plain.{value_of};

use delta_atoms::Value;
use hera_meaning::Scalar;
use smallvec::SmallVec;
use std::alloc::{AllocError, Global};
use std::default::MadeWith;
use std::marker::Model;

/// One operand. A place that is not in use holds the int 0.
#[derive(Drop)]
struct OperandRead {
    value: Value,
}

impl MadeWith<Global> for OperandRead {
    fn made_with(_alloc: Global) -> OperandRead {
        OperandRead {
            value: Value::Scalar(Scalar::Int(0)),
        }
    }
}

/// The operands of an operation, in order. Four have their place in the vector itself.
///
/// They are put in from the last to the first, as they come off a stack.
#[derive(Drop)]
pub struct Args {
    items: SmallVec<OperandRead, 4>,
}

impl Model for Args {
    ghost use Rattle.std.specs.Prelude.{List};
    ghost use Rattle.hera_meaning.specs.Values as plain;
    ghost use Rattle.delta_atoms.specs.Plain.{value_of};
    ghost use Rattle.hera_fits.specs.Newest.{newest};

    ghost Value = { List plain.Value };

    ghost view = { λ a. newest (λ o. value_of o.value) a.items.items };
}

impl Args {
    /// No operands. It takes no memory.
    pub fn new(alloc: Global) -> Args
        ensures { result ≡ [] }
    {
        Args {
            items: SmallVec::new(alloc),
        }
    }

    /// Puts an operand in front of the others.
    #[tactic(auto, using(crate::proofs::Stacks::newest_push))]
    pub fn push_front(&mut self, value: Value) -> Result<(), AllocError>
        ensures { OnOk result (self.new ≡ value_of value ∷ self.old) }
    {
        self.items.push(OperandRead { value })?;
        Ok(())
    }

    /// Takes the first operand off.
    #[tactic(auto, using(crate::proofs::Stacks::newest_push))]
    pub fn pop_front(&mut self) -> Option<Value>
        ensures { MatchOption result ((self.old ≡ []) × (self.new ≡ [])) (λ v. self.old ≡ value_of v ∷ self.new) }
    {
        match self.items.pop() {
            None => None,
            Some(OperandRead { value }) => Some(value),
        }
    }

    /// How many operands there are.
    #[tactic(auto, using(crate::proofs::Stacks::newest_length))]
    pub fn len(&self) -> usize
        ensures { result ≡ length self.now }
    {
        self.items.len()
    }

    /// The operand at place `i`, counted from 0.
    #[tactic(auto, using(crate::proofs::Stacks::places))]
    pub fn get(&self, i: usize) -> Option<&Value>
        ensures { option_map (λ v. value_of v.now) result ≡ slice_get self.now i }
    {
        let count = self.items.len();
        if i < count {
            Some(&self.items.as_slice()[count - 1 - i].value)
        } else {
            None
        }
    }
}
