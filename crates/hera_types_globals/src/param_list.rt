//! Parameters, looked up by their names.

ghost use Rattle.std.specs.Prelude.{◌≡◌, ◌++◌, [], ◌∷◌, false, IfOk, map, length};
ghost use Rattle.hera_sets.specs.Rows.{holds};
ghost use Rattle.hera_rules.specs.Programs.{local_name};

use hera_rules::{Local, LocalList};
use hera_types_parts::NameSet;
use std::alloc::{AllocError, Global};
use std::marker::Model;

/// Parameters in their order, each of a name of its own.
#[derive(Drop)]
pub struct ParamList {
    items: Vec<Local>,
    names: NameSet,
}

impl Model for ParamList {
    ghost use Rattle.std.specs.Prelude.{◌≡◌, List, map};
    ghost use Rattle.hera_rules.specs.declared.env.Local.{Local};
    ghost use Rattle.hera_rules.specs.Programs.{local_name};

    ghost Value = { List Local };

    ghost view = { λ p. p.items.items };

    ghost invariant = { λ p. p.names ≡ map local_name p.items.items };
}

impl ParamList {
    /// No parameter.
    pub fn new(alloc: Global) -> ParamList
        ensures { result ≡ [] }
    {
        ParamList {
            items: Vec::new(alloc),
            names: NameSet::new(alloc),
        }
    }

    /// How many there are.
    pub fn len(&self) -> usize
        ensures { result ≡ length self.now }
    {
        self.items.len()
    }

    /// Whether one of them has the name.
    pub fn has(&self, name: &[u8]) -> bool
        ensures { result ≡ holds (map local_name self.now) name.now }
    {
        self.names.has(name)
    }

    /// These, and behind them one of a new name.
    pub fn with(self, local: Local) -> Result<ParamList, AllocError>
        requires { holds (map local_name self) local.name ≡ false }
        ensures { IfOk result (λ more. more ≡ self ++ local ∷ []) }
    {
        let ParamList {
            mut items,
            mut names,
        } = self;
        names.add(local.name.bytes())?;
        items.push(local)?;
        Ok(ParamList { items, names })
    }

    /// The parameters as locals.
    pub fn into_locals(self) -> LocalList
        ensures { result ≡ self }
    {
        LocalList::new(self.items)
    }
}
