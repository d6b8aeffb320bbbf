//! Names, looked up by their bytes.

ghost use Rattle.hera_rules.specs.Rules.{repeat_in, word_names};
ghost use Rattle.hera_sets.specs.Rows.{holds, is_same};
ghost use Rattle.hera_types_parts.specs.NameSets.{at_place, func_name, proc_name};
ghost use Rattle.hera_types_parts.specs.Tests.{Tests};
ghost use Rattle.std.specs.List.{position};
ghost use Rattle.std.specs.Option.{option_copied};
ghost use Rattle.std.specs.Prelude.{false, map, take, IfOk, OnErr, OnOk, [], ◌++◌, ◌∷◌, ◌≡◌};

use hera_rules::{FuncSig, ProcSig, TypeFault, Word};
use indexmap::IndexSet;
use std::alloc::{AllocError, Global};
use std::marker::Model;

/// Names in the order in which they were added, none twice.
pub struct NameSet {
    names: IndexSet<Vec<u8>>,
}

/// It is a function so that the proofs of whoever lets a set go do not go through its parts.
impl Drop for NameSet {
    fn drop(self) {
        let NameSet { names: _ } = self;
    }
}

impl Model for NameSet {
    ghost use Rattle.std.specs.Prelude.{List, ℕ};
    ghost use Rattle.hera_types_parts.specs.NameSets.{names_in};

    ghost Value = { List (List ℕ) };

    ghost view = { λ s. names_in s.names.keys };
}

impl NameSet {
    /// No name.
    pub fn new(alloc: Global) -> NameSet
        ensures { result ≡ [] }
    {
        NameSet {
            names: IndexSet::new(alloc),
        }
    }

    /// Whether it has the name.
    pub fn has(&self, name: &[u8]) -> bool
        ensures { result ≡ holds self.now name.now }
    {
        self.names.contains(name)
    }

    /// The place of the name.
    pub fn place(&self, name: &[u8]) -> Option<usize>
        ensures { result ≡ position (is_same name.now) self.now }
    {
        self.names.get_index_of(name)
    }

    /// Adds a name that it has not, as the last one.
    pub fn add(&mut self, name: &[u8]) -> Result<(), AllocError>
        requires { holds self.old name.now ≡ false }
        ensures added { OnOk result (self.new ≡ self.old ++ name.now ∷ []) }
        ensures kept { OnErr result (self.new ≡ self.old) }
    {
        let key = Vec::from_slice(*self.names.allocator(), name)?;
        self.names.insert(key)?;
        Ok(())
    }

    /// Keeps the first `count` names.
    pub fn truncate(&mut self, count: usize)
        ensures { self.new ≡ take count self.old }
    {
        self.names.truncate(count);
    }
}

/// A name more, as the last one. Where it is there already, it answers AllocError.
pub fn add_new(names: &mut NameSet, name: &[u8]) -> Result<(), AllocError>
    ensures added { OnOk result (names.new ≡ names.old ++ name.now ∷ []) }
    ensures kept { OnErr result (names.new ≡ names.old) }
{
    if names.has(name) {
        return Err(AllocError);
    }
    names.add(name)
}

/// The item at a place, if there is one.
pub fn item_at<T>(items: &[T], place: Option<usize>) -> Option<&T>
    ensures { option_copied result ≡ at_place items.now place }
{
    match place {
        Some(i) => items.get(i),
        None => None,
    }
}

/// The names of funcs. Where two are one, which the second pass rules out, it answers AllocError.
pub fn names_of_funcs(alloc: Global, funcs: &[FuncSig]) -> Result<NameSet, AllocError>
    ensures { IfOk result (λ names. names ≡ map func_name funcs.now) }
{
    let mut names = NameSet::new(alloc);
    for func in funcs {
        add_new(&mut names, func.name.bytes())?;
    }
    Ok(names)
}

/// The names of procs. Where two are one, which the second pass rules out, it answers AllocError.
pub fn names_of_procs(alloc: Global, procs: &[ProcSig]) -> Result<NameSet, AllocError>
    ensures { IfOk result (λ names. names ≡ map proc_name procs.now) }
{
    let mut names = NameSet::new(alloc);
    for proc in procs {
        add_new(&mut names, proc.name.bytes())?;
    }
    Ok(names)
}

/// The names of words, of which none stands twice. The fault is that of the first whose name stands before.
pub fn distinct_names(alloc: Global, words: &[Word]) -> Result<NameSet, TypeFault>
    ensures names { IfOk result (λ names. names ≡ word_names words.now) }
    ensures repeat { Tests result (repeat_in [] words.now) }
{
    let mut names = NameSet::new(alloc);
    for word in words {
        let name = word.name.bytes();
        if names.has(name) {
            return Err(TypeFault::Repeated { at: word.at });
        }
        names.add(name)?;
    }
    Ok(names)
}
