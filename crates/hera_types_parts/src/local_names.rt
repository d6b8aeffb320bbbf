//! The visible locals, each found by its name, and the slots that are taken.

ghost use Rattle.hera_rules.specs.Agrees.{Keeps};
ghost use Rattle.hera_rules.specs.Environments.{local_named};
ghost use Rattle.std.specs.Option.{option_copied};
ghost use Rattle.std.specs.Prelude.{length, take, IfErr, IfOk, OnOk, [], ◌++◌, ◌∷◌, ◌≡◌};
ghost use Rattle.hera_rules.specs.declared.fault.TypeFault.TheVariants as fault;

use crate::name_sets::{NameSet, add_new, item_at};
use hera_rules::{Local, LocalScope, TypeFault};
use std::alloc::{AllocError, Global};
use std::marker::Model;

/// The visible locals, no two of one name, and the first slot that is free. A look-up of a local takes no
/// longer where there are more.
#[derive(Drop)]
pub struct LocalNames {
    scope: LocalScope,
    names: NameSet,
}

impl Model for LocalNames {
    ghost use Rattle.std.specs.Prelude.{map, ◌≡◌};
    ghost use Rattle.hera_rules.specs.Programs.{local_name};
    ghost use Rattle.hera_rules.specs.declared.env.LocalScope.{LocalScope};

    ghost Value = { LocalScope };

    ghost view = { λ s. s.scope };

    ghost invariant = { λ s. s.names ≡ map local_name s.scope.locals.items };
}

impl LocalNames {
    /// No local, and this slot free.
    pub fn new(alloc: Global, next: u32) -> LocalNames
        ensures locals { result.locals.items ≡ [] }
        ensures next { result.next ≡ next }
    {
        LocalNames {
            scope: LocalScope {
                locals: Vec::new(alloc),
                next,
            },
            names: NameSet::new(alloc),
        }
    }

    /// How many locals are visible.
    pub fn visible(&self) -> usize
        ensures { result ≡ length self.now.locals.items }
    {
        self.scope.locals.len()
    }

    /// The first slot that is free.
    pub fn next_slot(&self) -> u32
        ensures { result ≡ self.now.next }
    {
        self.scope.next
    }

    /// The visible local of a name.
    pub fn local(&self, name: &[u8]) -> Option<&Local>
        ensures { option_copied result ≡ local_named name.now self.now.locals.items }
    {
        item_at(&self.scope.locals, self.names.place(name))
    }

    /// The next slot.
    pub fn take_slot(&mut self) -> Result<u32, TypeFault>
        ensures slot { IfOk result (λ i. i ≡ self.old.next) }
        ensures keeps { OnOk result (Keeps self.old self.new 1) }
        ensures memory { IfErr result (λ f. f ≡ fault.Memory) }
    {
        let slot = self.scope.next;
        match slot.checked_add(1) {
            Some(next) => {
                self.scope.next = next;
                Ok(slot)
            }
            None => Err(TypeFault::Memory),
        }
    }

    /// One visible local more. Where one has its name already, which the rules rule out, it answers AllocError.
    pub fn push_local(&mut self, local: Local) -> Result<(), AllocError>
        ensures locals { OnOk result (self.new.locals.items ≡ self.old.locals.items ++ local ∷ []) }
        ensures next { self.new.next ≡ self.old.next }
    {
        let before = self.scope.locals.len();
        add_new(&mut self.names, local.name.bytes())?;
        match self.scope.locals.push(local) {
            Ok(()) => Ok(()),
            Err(_) => {
                self.names.truncate(before);
                Err(AllocError)
            }
        }
    }

    /// Leaves the locals behind the first `depth`.
    pub fn leave(&mut self, depth: usize)
        ensures locals { self.new.locals.items ≡ take depth self.old.locals.items }
        ensures next { self.new.next ≡ self.old.next }
    {
        self.scope.locals.truncate(depth);
        self.names.truncate(depth);
    }
}
