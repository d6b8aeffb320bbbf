//! Journals read.
ghost use Rattle.std.specs.Prelude.{◌≡◌, ◌≤◌, ◌+◌, ℕ, true, false, List, [], ◌∷◌, ◌++◌, length, IfOk, IfErr, OnOk};
ghost use Rattle.std.specs.Option.{option_map};
ghost use Rattle.hera_sets.specs.Rows.{is_past};
ghost use Rattle.hera_meaning.specs.Deltas.{Atom, key_of, is_fail, IsDelta};
ghost use Rattle.delta_atoms.specs.Atoms.{atoms_in, with_last};
ghost use Rattle.delta_atoms.specs.Refs.{atom_in, bound_of};
ghost use Rattle.commit_journal.specs.Table.{Opened, at_gate, at_atom_count, at_sign, behind_atom, with_atom, last_atom};
ghost use Rattle.commit_journal.specs.Places.{Reads, JournalIs};

use crate::fields::{atom_count_at, gate_at, rel_at, row_at, sign_at};
use delta_atoms::{AtomRef, Delta};
use hera_meaning::RelId;
use hera_row::Catalogue;
use std::alloc::Global;
use thiserror::Error;

/// The byte of an open gate.
const OPEN: u8 = 1;

/// The records of a journal.
#[derive(Drop)]
pub struct Journal {
    /// The delta of each record, in order. None is `fail`.
    pub deltas: Vec<Delta>,
    /// The place of the first gate that is not open.
    pub end: u64,
}

/// Why bytes are no journal.
#[derive(Debug, Drop, Error)]
pub enum ScanFault {
    /// A field breaks its rule, or does not lie wholly in the bytes.
    #[error("the journal is damaged")]
    Damaged { at: u64 },
    /// No memory for the deltas.
    #[error("out of memory")]
    Memory,
}

/// The damage at this place.
fn damaged(at: usize) -> ScanFault
    ensures { result ≡ ScanFault.Damaged at }
{
    ScanFault::Damaged { at: at as u64 }
}

/// Puts an atom behind the others.
fn push(delta: &mut Delta, atom: AtomRef<'_>) -> Result<(), ScanFault>
    requires known { is_fail delta.old ≡ false }
    requires last { IsDelta (with_last delta.old (atom_in atom)) }
    ensures ok { OnOk result (delta.new ≡ with_last delta.old (atom_in atom.entry)) }
    ensures err { IfErr result (λ e. e ≡ ScanFault.Memory) }
{
    match delta.push_last(atom.sign, atom.rel, atom.row) {
        Ok(()) => Ok(()),
        Err(_) => Err(ScanFault::Memory),
    }
}

/// Puts a delta behind the others.
fn push_delta(deltas: &mut Vec<Delta>, delta: Delta) -> Result<(), ScanFault>
    ensures ok { OnOk result (deltas.new.items ≡ deltas.old.items ++ delta ∷ []) }
    ensures err { IfErr result (λ e. e ≡ ScanFault.Memory) }
{
    match deltas.push(delta) {
        Ok(()) => Ok(()),
        Err(_) => Err(ScanFault::Memory),
    }
}

/// The atom at a place, behind the one before it, and the place behind it.
fn atom_at<'a>(
    bytes: &'a [u8],
    at: usize,
    rels: &Catalogue,
    before: Option<AtomRef<'_>>,
) -> Result<(AtomRef<'a>, usize), ScanFault>
    requires { at ≤ length bytes.now }
    ensures within { IfOk result (λ x. x.1 ≤ length bytes.entry.now) }
    ensures behind { IfOk result (λ x. at ≤ x.1) }
    ensures past { IfOk result (λ x. is_past (bound_of before.entry) (key_of (atom_in x.0)) ≡ true) }
    ensures read { (start : ℕ) (o : Opened) (more : ℕ) → last_atom o.atoms ≡ option_map atom_in before.entry →
        Reads rels.now bytes.entry.now start at (at_sign o more) (λ a. behind_atom (with_atom o (atom_in a)) more) result }
{
    let Some(sign) = sign_at(bytes, at) else {
        return Err(damaged(at));
    };
    let Some(rel) = rel_at(bytes, at + 1, rels.len(), before) else {
        return Err(damaged(at + 1));
    };
    let schema = &rels.decl(RelId(rel)).schema;
    let Some(row) = row_at(schema, bytes, at + 3, before, rel) else {
        return Err(damaged(at + 3));
    };
    let atom = AtomRef {
        sign,
        rel: RelId(rel),
        row,
    };
    Ok((atom, at + 3 + row.len()))
}

/// The record at a place, as a delta, and the place behind it.
fn record_at(
    alloc: Global,
    bytes: &[u8],
    at: usize,
    rels: &Catalogue,
) -> Result<(Delta, usize), ScanFault>
    requires { at ≤ length bytes.now }
    ensures within { IfOk result (λ x. x.1 ≤ length bytes.now) }
    ensures behind { IfOk result (λ x. at + 4 ≤ x.1) }
    ensures known { IfOk result (λ x. is_fail x.0 ≡ false) }
    ensures read { (start : ℕ) (records : List (List Atom)) →
        Reads rels.now bytes.now start at (at_atom_count records) (λ delta. at_gate (records ++ atoms_in delta ∷ [])) result }
{
    let Some(count) = atom_count_at(bytes, at) else {
        return Err(damaged(at));
    };
    let mut delta = Delta::empty(alloc);
    let mut at = at + 4;
    let mut last: Option<AtomRef<'_>> = None;
    for _ in 0..count {
        let (atom, behind) = atom_at(bytes, at, rels, last)?;
        push(&mut delta, atom)?;
        at = behind;
        last = Some(atom);
    }
    Ok((delta, at))
}

/// Reads the journal from its first gate on: the deltas of its records, and the place of the first
/// gate that is not open, behind which nothing is read. `Damaged` tells the place of the first field
/// that breaks its rule or does not lie wholly in the bytes.
pub fn scan(alloc: Global, bytes: &[u8], at: usize, rels: &Catalogue) -> Result<Journal, ScanFault>
    ensures { JournalIs rels.now bytes.now at result }
{
    if at > bytes.len() {
        return Err(damaged(at));
    }
    let mut deltas = Vec::new(alloc);
    let mut gate = at;
    loop {
        let Some(byte) = gate_at(bytes, gate) else {
            return Err(damaged(gate));
        };
        if byte != OPEN {
            let end = gate as u64;
            return Ok(Journal { deltas, end });
        }
        let (delta, behind) = record_at(alloc, bytes, gate + 1, rels)?;
        push_delta(&mut deltas, delta)?;
        gate = behind;
    }
}
