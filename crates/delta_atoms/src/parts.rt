//! One relation's part of a delta, and lists of such parts.
ghost use Rattle.std.specs.Prelude.{◌≡◌, IfOk, OnOk, OnErr, MatchResult, List, ℕ, Option, ◌+◌, [], length};
ghost use Rattle.std.specs.List.{find, flat_map};
ghost use Rattle.std.specs.Option.{option_map, option_copied};
ghost use Rattle.hera_sets.specs.Rows.{is_past};
ghost use Rattle.delta_atoms.specs.Atoms.{is_after, atom_of};
ghost use Rattle.delta_atoms.specs.Parts.{side, atoms_at, atoms_of, lesser, IsPackedPart, AreOrdered, AreApart, ArePacked};
ghost use Rattle.delta_atoms.specs.Refs.{atom_in, bound_of};
ghost use Rattle.delta_atoms.specs.Edits.{put_in, taken_out, one_side, IsAt, IsGap, HaveSame, Puts, Takes};

use super::{AtomMark, AtomRef};
use hera_meaning::{RelId, Sign};
use hera_rows::{RowSet, Sorted};
use hera_sets::is_below;
use std::alloc::{AllocError, Global};

/// The rows of a relation to put in, and those to take out.
#[derive(Drop)]
pub(crate) struct DeltaPart {
    pub(crate) rel: RelId,
    pub(crate) plus: RowSet,
    pub(crate) minus: RowSet,
}

impl DeltaPart {
    /// A part with these rows on one side.
    pub(crate) fn one_side(
        alloc: Global,
        sign: Sign,
        rel: RelId,
        rows: &RowSet,
    ) -> Result<DeltaPart, AllocError>
        ensures { IfOk result (λ part. part ≡ one_side sign rel.0 rows.now) }
    {
        match sign {
            Sign::Plus => Ok(DeltaPart {
                rel,
                plus: rows.copy()?,
                minus: RowSet::new(alloc),
            }),
            Sign::Minus => Ok(DeltaPart {
                rel,
                plus: RowSet::new(alloc),
                minus: rows.copy()?,
            }),
        }
    }

    /// The rows with the sign.
    pub(crate) fn side(&self, sign: Sign) -> &RowSet
        ensures { result.now ≡ side sign self.now }
    {
        match sign {
            Sign::Plus => &self.plus,
            Sign::Minus => &self.minus,
        }
    }

    pub(crate) fn copy(&self) -> Result<DeltaPart, AllocError>
        ensures { IfOk result (λ copy. copy ≡ self.now) }
    {
        Ok(DeltaPart {
            rel: self.rel,
            plus: self.plus.copy()?,
            minus: self.minus.copy()?,
        })
    }

    /// The first atom whose row lies past the bound. It is looked for beside the mark first, which is then set.
    fn next<'s>(&'s self, bound: Option<&[u8]>, mark: &mut AtomMark) -> Option<AtomRef<'s>>
        ensures { option_map atom_in result ≡ lesser self.now.rel.0 (find (is_past (option_copied bound.entry)) self.now.plus) (find (is_past (option_copied bound.entry)) self.now.minus) }
    {
        let plus = self.plus.above_near(bound, mark.plus);
        let minus = self.minus.above_near(bound, mark.minus);
        mark.plus = plus.spot;
        mark.minus = minus.spot;
        match (plus.row, minus.row) {
            (None, None) => None,
            (Some(row), None) => Some(self.atom(Sign::Plus, row)),
            (None, Some(row)) => Some(self.atom(Sign::Minus, row)),
            (Some(plus), Some(minus)) => {
                if is_below(minus, plus) {
                    Some(self.atom(Sign::Minus, minus))
                } else {
                    Some(self.atom(Sign::Plus, plus))
                }
            }
        }
    }

    /// An atom of this relation.
    fn atom<'s>(&self, sign: Sign, row: &'s [u8]) -> AtomRef<'s>
        ensures { atom_in result ≡ atom_of sign self.now.rel.0 row.now }
    {
        AtomRef {
            sign,
            rel: self.rel,
            row,
        }
    }

    /// The first atom past the bound, whose sign says nothing.
    fn above<'s>(&'s self, bound: Option<AtomRef<'_>>, mark: &mut AtomMark) -> Option<AtomRef<'s>>
        requires { IsPackedPart self.now }
        ensures { option_map atom_in result ≡ find (is_after (bound_of bound.entry)) (atoms_at self.now) }
    {
        match bound {
            None => self.next(None, mark),
            Some(last) => {
                if last.rel.0 < self.rel.0 {
                    self.next(None, mark)
                } else if last.rel.0 == self.rel.0 {
                    self.next(Some(last.row), mark)
                } else {
                    None
                }
            }
        }
    }

    /// Puts a row in on one side. Without memory all is as before.
    fn put(&mut self, sign: Sign, row: &[u8]) -> Result<(), AllocError>
        ensures ok { OnOk result (self.new ≡ put_in sign row.now self.old) }
        ensures err { OnErr result (self.new ≡ self.old) }
    {
        match sign {
            Sign::Plus => {
                self.plus.insert(row)?;
            }
            Sign::Minus => {
                self.minus.insert(row)?;
            }
        }
        Ok(())
    }

    /// Takes a row out of one side, if it is there.
    fn take(&mut self, sign: Sign, row: &[u8])
        ensures { self.new ≡ taken_out sign row.now self.old }
    {
        match sign {
            Sign::Plus => {
                let _held = self.plus.remove(row);
            }
            Sign::Minus => {
                let _held = self.minus.remove(row);
            }
        }
    }
}

/// The first atom past the bound, whose sign says nothing. It is looked for beside the mark first, which is then set.
pub(crate) fn first_after<'s>(
    parts: &'s [DeltaPart],
    bound: Option<AtomRef<'_>>,
    mark: &mut AtomMark,
) -> Option<AtomRef<'s>>
    requires { ArePacked parts.now }
    ensures { option_map atom_in result ≡ find (is_after (bound_of bound.entry)) (atoms_of parts.now) }
{
    for part in parts {
        if let Some(atom) = part.above(bound, mark) {
            return Some(atom);
        }
    }
    None
}

/// How many atoms the parts have.
pub(crate) fn count(parts: &[DeltaPart]) -> u128
    requires { AreOrdered parts.now }
    ensures { result ≡ length (atoms_of parts.now) }
{
    let mut count = 0;
    for part in parts {
        let _number = part.rel.0;
        count += part.plus.len() as u128 + part.minus.len() as u128;
    }
    count
}

/// The place of a relation that is there, and else the place at which it would be.
pub(crate) fn search(parts: &[DeltaPart], rel: RelId) -> Result<usize, usize>
    requires { AreOrdered parts.now }
    ensures { MatchResult result (IsAt parts.now rel.0) (IsGap parts.now rel.0) }
{
    let mut low = 0;
    let mut high = parts.len();
    while low < high {
        let middle = low + (high - low) / 2;
        let found = parts[middle].rel.0;
        if found < rel.0 {
            low = middle + 1;
        } else if rel.0 < found {
            high = middle;
        } else {
            return Ok(middle);
        }
    }
    Err(low)
}

/// The place of a relation, for which a part without rows is made if it has none.
fn open(parts: &mut Vec<DeltaPart>, alloc: Global, rel: RelId) -> Result<usize, AllocError>
    requires { AreOrdered parts.old.items }
    ensures ordered { AreOrdered parts.new.items }
    ensures same { HaveSame parts.old.items parts.new.items }
    ensures place { IfOk result (IsAt parts.new.items rel.0) }
{
    match search(parts, rel) {
        Ok(i) => Ok(i),
        Err(i) => {
            let part = DeltaPart {
                rel,
                plus: RowSet::new(alloc),
                minus: RowSet::new(alloc),
            };
            parts.insert(i, part)?;
            Ok(i)
        }
    }
}

/// Puts an atom's row in on its side. Without memory the rows are as before.
pub(crate) fn put_row(
    parts: &mut Vec<DeltaPart>,
    alloc: Global,
    sign: Sign,
    rel: RelId,
    row: &[u8],
) -> Result<(), AllocError>
    requires { AreOrdered parts.old.items }
    ensures ordered { AreOrdered parts.new.items }
    ensures ok { OnOk result (Puts (atom_of sign rel.0 row.now) parts.old.items parts.new.items) }
    ensures err { OnErr result (HaveSame parts.old.items parts.new.items) }
{
    let i = open(parts, alloc, rel)?;
    parts[i].put(sign, row)?;
    Ok(())
}

/// Takes a row out of one side of a relation, if it is there.
pub(crate) fn take_row(parts: &mut Vec<DeltaPart>, sign: Sign, rel: RelId, row: &[u8])
    requires { AreOrdered parts.old.items }
    ensures ordered { AreOrdered parts.new.items }
    ensures taken { Takes (atom_of sign rel.0 row.now) parts.old.items parts.new.items }
{
    if let Ok(i) = search(parts, rel) {
        parts[i].take(sign, row);
    }
}
