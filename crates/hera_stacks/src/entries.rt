//! What stands first in lists, each kept once.
ghost use Rattle.std.specs.Prelude.{◌≡◌, ◌<◌, ◌+◌, ◌*◌, ◌↔◌, ◌∷◌, ◌++◌, [], List, None, Some, IsTrue, IfOk, length, slice_get};
ghost use Rattle.std.specs.BTreeMap.{get};
ghost use Rattle.hera_stacks.specs.declared.entries.Entry.{Entry as PlainEntry};
ghost use Rattle.hera_stacks.specs.Flat.{digit};
ghost use Rattle.hera_stacks.specs.Kept.{order, seen_number, numbers_of, AreFound};

use crate::forms::{FlatForm, FlatSeen, Kinds, same_form};
use hera_meaning::Kind;
use std::alloc::{AllocError, Global};
use std::collections::BTreeMap;

/// What stands first in a list: an operand, which gathers nothing, or an open walk.
#[derive(Clone, Copy)]
pub(crate) struct Entry {
    pub seen: FlatSeen,
    pub gathers: Kinds,
}

/// Entries, each once, and their places by two numbers that tell them apart.
#[derive(Drop)]
pub(crate) struct Entries {
    pub all: Vec<Entry>,
    pub places: BTreeMap<(u64, u64), u32>,
}

/// The digit of a kind.
fn kind_number(kind: Kind) -> u64
    ensures { result ≡ digit kind }
{
    match kind {
        Kind::Int => 1,
        Kind::Bool => 2,
        Kind::Text => 3,
    }
}

/// A number for kinds and a digit below 8.
fn kinds_number(kinds: Kinds, digit: u64) -> Result<u64, AllocError>
    ensures { IfOk result (λ n. n ≡ 8 * kinds.digits + digit) }
{
    if kinds.digits >= 1 << 60 || digit > 7 {
        return Err(AllocError);
    }
    Ok(8 * kinds.digits + digit)
}

/// A number for what is known of a value.
fn seen_number(seen: FlatSeen) -> Result<u64, AllocError>
    ensures { IfOk result (λ n. n ≡ seen_number seen) }
{
    match seen {
        FlatSeen::NoRows => Ok(0),
        FlatSeen::Known(FlatForm::Delta) => Ok(4),
        FlatSeen::Known(FlatForm::Scalar(kind)) => Ok(8 * kind_number(kind)),
        FlatSeen::Known(FlatForm::Tuple(kinds)) => kinds_number(kinds, 1),
        FlatSeen::Known(FlatForm::Table(kinds)) => kinds_number(kinds, 2),
    }
}

/// The numbers of an entry.
fn numbers_of(entry: Entry) -> Result<(u64, u64), AllocError>
    ensures { IfOk result (λ numbers. numbers ≡ numbers_of entry) }
{
    let seen = seen_number(entry.seen)?;
    Ok((seen, entry.gathers.digits))
}

/// Whether the same is known.
fn same_seen(a: FlatSeen, b: FlatSeen) -> bool
    ensures { IsTrue result ↔ (a ≡ b) }
{
    match (a, b) {
        (FlatSeen::Known(f), FlatSeen::Known(g)) => same_form(f, g),
        (FlatSeen::NoRows, FlatSeen::NoRows) => true,
        _ => false,
    }
}

/// Whether the entries are the same.
fn same_entry(a: Entry, b: Entry) -> bool
    ensures { IsTrue result ↔ (a ≡ b) }
{
    same_seen(a.seen, b.seen) && a.gathers.digits == b.gathers.digits
}

impl Entries {
    /// No entry. It takes no memory.
    pub(crate) fn new(alloc: Global) -> Entries
        ensures { result.all.items ≡ [] }
    {
        Entries {
            all: Vec::new(alloc),
            places: BTreeMap::new(alloc),
        }
    }

    /// The entry at a place.
    pub(crate) fn get(&self, place: u32) -> Entry
        requires { place < length self.now.all.items }
        ensures { slice_get self.now.all.items place ≡ Some result }
    {
        self.all[place as usize]
    }

    /// The place, where the entry stands there.
    fn found(&self, place: u32, entry: Entry) -> Result<u32, AllocError>
        ensures { IfOk result (λ at. slice_get self.now.all.items at ≡ Some entry) }
    {
        let Some(own) = self.all.get(place as usize) else {
            return Err(AllocError);
        };
        if same_entry(*own, entry) {
            Ok(place)
        } else {
            Err(AllocError)
        }
    }

    /// Puts an entry that is not there behind the others.
    fn add(&mut self, numbers: (u64, u64), entry: Entry) -> Result<u32, AllocError>
        requires own { numbers ≡ numbers_of entry }
        requires absent { get order self.old.places numbers ≡ None }
        requires found { AreFound self.old.all.items self.old.places }
        ensures found { AreFound self.new.all.items self.new.places }
        ensures grows { (more : List PlainEntry) × (self.new.all.items ≡ self.old.all.items ++ more) }
        ensures place { IfOk result (λ place. slice_get self.new.all.items place ≡ Some entry) }
    {
        let place = place_behind(self.all.len())?;
        self.places.insert(numbers, place)?;
        self.all.push(entry)?;
        Ok(place)
    }

    /// The place of an entry. Other entries keep theirs.
    pub(crate) fn place_of(&mut self, entry: Entry) -> Result<u32, AllocError>
        requires found { AreFound self.old.all.items self.old.places }
        ensures found { AreFound self.new.all.items self.new.places }
        ensures grows { (more : List PlainEntry) × (self.new.all.items ≡ self.old.all.items ++ more) }
        ensures place { IfOk result (λ place. slice_get self.new.all.items place ≡ Some entry) }
    {
        let numbers = numbers_of(entry)?;
        match self.places.get(&numbers) {
            Some(place) => self.found(*place, entry),
            None => self.add(numbers, entry),
        }
    }
}

/// The place behind so many entries.
fn place_behind(count: usize) -> Result<u32, AllocError>
    ensures { IfOk result (λ place. place ≡ count) }
{
    if count < 4_294_967_295 {
        Ok(count as u32)
    } else {
        Err(AllocError)
    }
}
