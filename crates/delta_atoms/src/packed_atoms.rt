//! The atoms of a delta, packed by relation and sign.
ghost use Rattle.std.specs.Prelude.{◌≡◌, [], ◌∷◌, ◌++◌, length, IfOk, OnOk, OnErr};
ghost use Rattle.std.specs.List.{find};
ghost use Rattle.std.specs.Option.{option_map};
ghost use Rattle.hera_meaning.specs.Deltas.{atoms, IsDelta, joint_atoms};
ghost use Rattle.delta_atoms.specs.Atoms.{atom_of, bulk_of, atoms_in, part_of, is_after};
ghost use Rattle.delta_atoms.specs.Refs.{atom_in, bound_of};

use super::parts::{self, DeltaPart};
use super::{AtomMark, AtomRef, Delta, edits};
use hera_meaning::{RelId, Sign};
use hera_rows::RowSet;
use std::alloc::{AllocError, Global};
use std::marker::Model;

/// The atoms of a delta that is not `fail`, seen as their list: for each relation the rows to put in, and those to
/// take out.
#[derive(Drop)]
pub(crate) struct PackedAtoms {
    parts: Vec<DeltaPart>,
    /// Lent for a relation that has no part.
    nothing: RowSet,
    alloc: Global,
}

impl Model for PackedAtoms {
    ghost use Rattle.std.specs.Prelude.{◌≡◌, List, []};
    ghost use Rattle.hera_meaning.specs.Deltas.{Atom};
    ghost use Rattle.delta_atoms.specs.Parts.{atoms_of, ArePacked};

    ghost Value = { List Atom };

    ghost view = { λ p. atoms_of p.parts.items };

    ghost invariant = { λ p. ArePacked p.parts.items × (p.nothing ≡ []) };
}

impl PackedAtoms {
    /// No atoms. It takes no memory.
    pub(crate) fn new(alloc: Global) -> PackedAtoms
        ensures { result ≡ [] }
    {
        PackedAtoms {
            parts: Vec::new(alloc),
            nothing: RowSet::new(alloc),
            alloc,
        }
    }

    /// Each of the rows with the sign.
    pub(crate) fn bulk(
        alloc: Global,
        sign: Sign,
        rel: RelId,
        rows: &RowSet,
    ) -> Result<PackedAtoms, AllocError>
        ensures { IfOk result (λ kept. kept ≡ bulk_of sign rel.0 rows.now) }
    {
        // for the proof alone: the rows ascend
        let _len = rows.len();
        let mut parts = Vec::new(alloc);
        parts.push(DeltaPart::one_side(alloc, sign, rel, rows)?)?;
        Ok(PackedAtoms {
            parts,
            nothing: RowSet::new(alloc),
            alloc,
        })
    }

    /// How many relations have a part. The atoms ascend.
    pub(crate) fn relations(&self) -> usize
        ensures { IsDelta (atoms self.now) }
    {
        self.parts.len()
    }

    /// The rows of the relation's atoms with this sign.
    pub(crate) fn part(&self, rel: RelId, sign: Sign) -> &RowSet
        ensures rows { result.now ≡ part_of self.now rel.0 sign }
        ensures valid { IsDelta (atoms self.now) }
    {
        match parts::search(&self.parts, rel) {
            Ok(i) => self.parts[i].side(sign),
            Err(_) => &self.nothing,
        }
    }

    /// How many atoms there are.
    pub(crate) fn count(&self) -> u128
        ensures { result ≡ length self.now }
    {
        parts::count(&self.parts)
    }

    /// The first atom past the bound in order of relation and then row, whatever the bound's sign.
    /// It is looked for beside the mark first, which is then set.
    pub(crate) fn above<'s>(
        &'s self,
        bound: Option<AtomRef<'_>>,
        mark: &mut AtomMark,
    ) -> Option<AtomRef<'s>>
        ensures next { option_map atom_in result ≡ find (is_after (bound_of bound.entry)) self.now }
        ensures valid { IsDelta (atoms self.now) }
    {
        parts::first_after(&self.parts, bound, mark)
    }

    /// Puts an atom behind all others, which is greater by relation and then row. Without memory all
    /// is as before.
    pub(crate) fn push_last(&mut self, sign: Sign, rel: RelId, row: &[u8]) -> Result<(), AllocError>
        requires { IsDelta (atoms (self.old ++ atom_of sign rel.0 row.now ∷ [])) }
        ensures ok { OnOk result (self.new ≡ self.old ++ atom_of sign rel.0 row.now ∷ []) }
        ensures err { OnErr result (self.new ≡ self.old) }
    {
        edits::push_last(&mut self.parts, self.alloc, sign, rel, row)
    }

    /// Puts the atoms of the second delta over these, as in a smash. Without memory all is as before.
    pub(crate) fn put_over(&mut self, second: &Delta) -> Result<(), AllocError>
        ensures ok { OnOk result (self.new ≡ joint_atoms self.old (atoms_in second.now)) }
        ensures err { OnErr result (self.new ≡ self.old) }
    {
        edits::put_over(&mut self.parts, self.alloc, second)
    }

    /// Puts the atoms of the first delta under these, as in a smash. Without memory all is as before.
    pub(crate) fn put_under(&mut self, first: &Delta) -> Result<(), AllocError>
        ensures ok { OnOk result (self.new ≡ joint_atoms (atoms_in first.now) self.old) }
        ensures err { OnErr result (self.new ≡ self.old) }
    {
        edits::put_under(&mut self.parts, self.alloc, first)
    }

    /// The same atoms in a place of their own.
    pub(crate) fn copy(&self) -> Result<PackedAtoms, AllocError>
        ensures { IfOk result (λ copy. copy ≡ self.now) }
    {
        let alloc = self.alloc;
        let mut copies = Vec::with_capacity(alloc, self.parts.len())?;
        for part in &self.parts {
            copies.push(part.copy()?)?;
        }
        Ok(PackedAtoms {
            parts: copies,
            nothing: RowSet::new(alloc),
            alloc,
        })
    }
}
