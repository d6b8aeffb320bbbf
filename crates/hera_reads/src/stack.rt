//! Stacks.
ghost use Rattle.std.specs.Prelude.{◌≡◌, [], ◌∷◌, length, OnOk, OnErr, MatchOption};
ghost use Rattle.hera_fits.specs.Newest.{newest};

use std::alloc::{AllocError, Global};
use std::marker::Model;

/// A stack, seen with the newest first.
#[derive(Drop)]
pub struct Stack<T> {
    pub(crate) items: Vec<T>,
}

impl<T> Model for Stack<T> {
    ghost use Rattle.std.specs.Prelude.{List};
    ghost use Rattle.hera_fits.specs.Newest.{newest};

    ghost Value = { List T };

    ghost view = { λ s. newest (λ x. x) s.items.items };
}

impl<T: Drop> Stack<T> {
    /// The empty stack. It takes no memory.
    pub fn new(alloc: Global) -> Stack<T>
        ensures { result ≡ [] }
    {
        Stack {
            items: Vec::new(alloc),
        }
    }

    /// The stack of these items, the oldest of which comes first. It takes no memory.
    pub fn of(items: Vec<T>) -> Stack<T>
        ensures { result ≡ newest (λ x. x) items.items }
    {
        Stack { items }
    }

    /// The items, the oldest first. It takes no memory.
    pub fn into_items(self) -> Vec<T>
        ensures { self ≡ newest (λ x. x) result.items }
    {
        let Stack { items } = self;
        items
    }

    /// Drops all items. Their places stay.
    #[inline]
    pub fn clear(&mut self)
        ensures { self.new ≡ [] }
    {
        self.items.clear();
    }

    /// Puts an item upon the others. Without memory the item is gone, and the others stay.
    #[tactic(auto, using(hera_fits::proofs::Stacks::newest_push))]
    pub fn push(&mut self, item: T) -> Result<(), AllocError>
        ensures ok { OnOk result (self.new ≡ item ∷ self.old) }
        ensures err { OnErr result (self.new ≡ self.old) }
    {
        self.items.push(item)?;
        Ok(())
    }

    /// Takes the newest item off. It takes no memory.
    #[tactic(auto, using(hera_fits::proofs::Stacks::newest_push))]
    pub fn pop(&mut self) -> Option<T>
        ensures { MatchOption result ((self.old ≡ []) × (self.new ≡ [])) (λ x. self.old ≡ x ∷ self.new) }
    {
        self.items.pop()
    }

    /// How many items there are.
    #[tactic(auto, using(hera_fits::proofs::Stacks::newest_length))]
    pub fn len(&self) -> usize
        ensures { result ≡ length self.now }
    {
        self.items.len()
    }

    /// The items, the oldest first.
    pub fn oldest_first(&self) -> &[T]
        ensures { self.now ≡ newest (λ x. x) result.now }
    {
        &self.items
    }
}
