//! Deltas.
ghost use Rattle.std.specs.Prelude.{◌≡◌, ◌↔◌, IsTrue, true, false, List, [], ◌∷◌, ◌++◌, length, IfOk, OnOk, OnErr};
ghost use Rattle.std.specs.List.{find};
ghost use Rattle.std.specs.Option.{option_map};
ghost use Rattle.hera_meaning.specs.Deltas.{fail, atoms, is_fail, IsDelta, smash_of};
ghost use Rattle.hera_meaning.specs.Values.{same_atom, same_sign};
ghost use Rattle.delta_atoms.specs.Atoms.{atom_of, bulk_of, atoms_in, sign_at, have_relation, part_of, with_last, is_after};
ghost use Rattle.delta_atoms.specs.Refs.{atom_in, bound_of};

use super::packed_atoms::PackedAtoms;
use super::{AtomMark, AtomRef};
use hera_meaning::{RelId, Sign};
use hera_rows::{RowSet, Sorted};
use hera_sets::is_same;
use std::alloc::{AllocError, Global};
use std::marker::Model;

/// How a delta is kept: atoms stand on the heap from the first one on. A delta that has none lends the empty set of
/// rows, for any relation.
#[derive(Drop)]
enum Form {
    /// `fail`.
    Fail(RowSet),
    /// No atoms.
    Empty(RowSet),
    /// Atoms.
    Atoms(Box<PackedAtoms>),
}

/// A proposed update: signed atoms, or `fail`.
///
/// It is seen as `fail`, or as the list of its atoms, ascending by relation and then row, in which no
/// relation and row stand twice. So no atom has both signs.
pub struct Delta {
    form: Form,
    alloc: Global,
}

/// It is a function so that the proofs of whoever lets a delta go do not go through its forms.
impl Drop for Delta {
    fn drop(self) {
        let Delta { form: _, alloc: _ } = self;
    }
}

impl Model for Delta {
    ghost use Rattle.hera_meaning.specs.Deltas.{Delta as PlainDelta};

    ghost Value = { PlainDelta };

    ghost use Rattle.delta_atoms.specs.Kept.{delta_of, LendsNothing};

    ghost view = { λ d. delta_of d.form };

    ghost invariant = { λ d. LendsNothing d.form };
}

impl Delta {
    /// The delta without atoms.
    pub fn empty(alloc: Global) -> Delta
        ensures { result ≡ atoms [] }
    {
        Delta {
            form: Form::Empty(RowSet::new(alloc)),
            alloc,
        }
    }

    /// The delta that is `fail`.
    pub fn fail(alloc: Global) -> Delta
        ensures { result ≡ fail }
    {
        Delta {
            form: Form::Fail(RowSet::new(alloc)),
            alloc,
        }
    }

    /// The delta of these atoms.
    fn of(alloc: Global, kept: PackedAtoms) -> Result<Delta, AllocError>
        ensures { IfOk result (λ delta. delta ≡ atoms kept) }
    {
        Ok(Delta {
            form: Form::Atoms(Box::new(alloc, kept)?),
            alloc,
        })
    }

    /// The delta of one atom.
    pub fn atom(alloc: Global, sign: Sign, rel: RelId, row: &[u8]) -> Result<Delta, AllocError>
        ensures { IfOk result (λ delta. delta ≡ atoms (atom_of sign rel.0 row.now ∷ [])) }
    {
        let mut delta = Delta::empty(alloc);
        delta.push_last(sign, rel, row)?;
        Ok(delta)
    }

    /// The delta that has each of the rows with the sign.
    pub fn bulk(alloc: Global, sign: Sign, rel: RelId, rows: &RowSet) -> Result<Delta, AllocError>
        ensures { IfOk result (λ delta. delta ≡ atoms (bulk_of sign rel.0 rows.now)) }
    {
        if rows.len() == 0 {
            return Ok(Delta::empty(alloc));
        }
        Delta::of(alloc, PackedAtoms::bulk(alloc, sign, rel, rows)?)
    }

    /// Whether the delta is `fail`. It takes no memory.
    pub fn is_fail(&self) -> bool
        ensures fails { result ≡ is_fail self.now }
        ensures valid { IsDelta self.now }
    {
        match &self.form {
            Form::Fail(_) => true,
            Form::Empty(_) => false,
            Form::Atoms(kept) => {
                // for the proof alone: its atoms ascend
                let _relations = kept.relations();
                false
            }
        }
    }

    /// Whether some atom is of the relation. It takes no memory.
    pub fn touches(&self, rel: RelId) -> bool
        requires { is_fail self.now ≡ false }
        ensures { result ≡ have_relation (atoms_in self.now) rel.0 }
    {
        self.part(rel, Sign::Plus).len() > 0 || self.part(rel, Sign::Minus).len() > 0
    }

    /// The sign of the atom with this relation and row, if there is one. It takes no memory.
    pub fn sign(&self, rel: RelId, row: &[u8]) -> Option<Sign>
        requires { is_fail self.now ≡ false }
        ensures { result ≡ sign_at (atoms_in self.now) (rel.0 ∷ row.now) }
    {
        if self.part(rel, Sign::Plus).has(row) {
            Some(Sign::Plus)
        } else if self.part(rel, Sign::Minus).has(row) {
            Some(Sign::Minus)
        } else {
            None
        }
    }

    /// The rows of the relation's atoms with this sign. It takes no memory.
    pub fn part(&self, rel: RelId, sign: Sign) -> &RowSet
        requires { is_fail self.now ≡ false }
        ensures rows { result.now ≡ part_of (atoms_in self.now) rel.0 sign }
        ensures valid { IsDelta self.now }
    {
        match &self.form {
            Form::Fail(nothing) | Form::Empty(nothing) => nothing,
            Form::Atoms(kept) => kept.part(rel, sign),
        }
    }

    /// How many atoms there are. It takes no memory.
    pub fn count(&self) -> u128
        requires { is_fail self.now ≡ false }
        ensures { result ≡ length (atoms_in self.now) }
    {
        match &self.form {
            Form::Fail(_) | Form::Empty(_) => 0,
            Form::Atoms(kept) => kept.count(),
        }
    }

    /// The first atom past the bound in order of relation and then row, whatever the bound's sign:
    /// the first of all where there is no bound. `fail` has none. It takes no memory.
    pub fn above<'s>(&'s self, bound: Option<AtomRef<'_>>) -> Option<AtomRef<'s>>
        ensures next { option_map atom_in result ≡ find (is_after (bound_of bound.entry)) (atoms_in self.now) }
        ensures valid { IsDelta self.now }
    {
        self.above_from(bound, &mut AtomMark::start())
    }

    /// The first atom past the bound, as `above` finds it. It is looked for beside the mark first, which is then set to
    /// where it stands: a walk that hands on each atom and its mark searches for none. Any mark is right.
    pub fn above_from<'s>(
        &'s self,
        bound: Option<AtomRef<'_>>,
        mark: &mut AtomMark,
    ) -> Option<AtomRef<'s>>
        ensures next { option_map atom_in result ≡ find (is_after (bound_of bound.entry)) (atoms_in self.now) }
        ensures valid { IsDelta self.now }
    {
        match &self.form {
            Form::Fail(_) | Form::Empty(_) => None,
            Form::Atoms(kept) => kept.above(bound, mark),
        }
    }

    /// Whether both are `fail`, or have the same atoms. It takes no memory, and stops at the first
    /// difference.
    pub fn equal(&self, other: &Delta) -> bool
        ensures { IsTrue result ↔ (self.now ≡ other.now) }
    {
        if self.is_fail() {
            return other.is_fail();
        }
        if other.is_fail() {
            return false;
        }
        self.same_atoms(other)
    }

    /// Whether both have the same atoms.
    fn same_atoms(&self, other: &Delta) -> bool
        ensures { IsTrue result ↔ (atoms_in self.now ≡ atoms_in other.now) }
    {
        let mut last: Option<AtomRef<'_>> = None;
        let mut left = AtomMark::start();
        let mut right = AtomMark::start();
        loop {
            let atom = self.above_from(last, &mut left);
            if are_same(atom, other.above_from(last, &mut right)) {
                match atom {
                    None => return true,
                    Some(a) => last = Some(a),
                }
            } else {
                return false;
            }
        }
    }

    /// Puts an atom behind all others, which is greater by relation and then row. Without memory all
    /// is as before.
    pub fn push_last(&mut self, sign: Sign, rel: RelId, row: &[u8]) -> Result<(), AllocError>
        requires known { is_fail self.old ≡ false }
        requires last { IsDelta (with_last self.old (atom_of sign rel.0 row.now)) }
        ensures ok { OnOk result (self.new ≡ with_last self.old (atom_of sign rel.0 row.now)) }
        ensures err { OnErr result (self.new ≡ self.old) }
    {
        match &mut self.form {
            Form::Fail(_) => Ok(()),
            Form::Empty(_) => {
                let mut kept = PackedAtoms::new(self.alloc);
                kept.push_last(sign, rel, row)?;
                *self = Delta::of(self.alloc, kept)?;
                Ok(())
            }
            Form::Atoms(kept) => kept.push_last(sign, rel, row),
        }
    }

    /// Puts the second delta over this one, which is their smash: each atom of the second with its
    /// sign, and each atom of this one whose relation and row the second does not hold. It is `fail`
    /// where either is. Without memory all is as before.
    pub fn smash_with(&mut self, second: &Delta) -> Result<(), AllocError>
        ensures ok { OnOk result (self.new ≡ smash_of self.old second.now) }
        ensures err { OnErr result (self.new ≡ self.old) }
    {
        if second.is_fail() {
            *self = Delta::fail(self.alloc);
            return Ok(());
        }
        match &mut self.form {
            Form::Fail(_) => Ok(()),
            Form::Empty(_) => {
                *self = second.copy()?;
                Ok(())
            }
            Form::Atoms(kept) => kept.put_over(second),
        }
    }

    /// Puts the first delta under this one, which is their smash: each atom of this one with its sign, and each atom of the
    /// first whose relation and row this one does not hold. It is `fail` where either is. Without memory all is as before.
    pub fn smash_under(&mut self, first: &Delta) -> Result<(), AllocError>
        ensures ok { OnOk result (self.new ≡ smash_of first.now self.old) }
        ensures err { OnErr result (self.new ≡ self.old) }
    {
        if first.is_fail() {
            self.make_fail();
            return Ok(());
        }
        match &mut self.form {
            Form::Fail(_) => Ok(()),
            Form::Empty(_) => {
                *self = first.copy()?;
                Ok(())
            }
            Form::Atoms(kept) => kept.put_under(first),
        }
    }

    /// Makes this delta `fail`. It takes no memory.
    pub fn make_fail(&mut self)
        ensures { self.new ≡ fail }
    {
        *self = Delta::fail(self.alloc);
    }

    /// A delta of its own that equals this one.
    pub fn copy(&self) -> Result<Delta, AllocError>
        ensures { IfOk result (λ copy. copy ≡ self.now) }
    {
        match &self.form {
            Form::Fail(_) => Ok(Delta::fail(self.alloc)),
            Form::Empty(_) => Ok(Delta::empty(self.alloc)),
            Form::Atoms(kept) => Delta::of(self.alloc, kept.copy()?),
        }
    }
}

/// Whether both are no atom, or the same one.
fn are_same(x: Option<AtomRef<'_>>, y: Option<AtomRef<'_>>) -> bool
    ensures { IsTrue result ↔ (option_map atom_in x.entry ≡ option_map atom_in y.entry) }
{
    match (x, y) {
        (None, None) => true,
        (Some(a), Some(b)) => same_atom(a, b),
        _ => false,
    }
}

/// Whether both have the same sign, relation and row.
fn same_atom(a: AtomRef<'_>, b: AtomRef<'_>) -> bool
    ensures { result ≡ same_atom (atom_in a.entry) (atom_in b.entry) }
{
    same_sign(a.sign, b.sign) && a.rel.0 == b.rel.0 && is_same(a.row, b.row)
}

fn same_sign(a: Sign, b: Sign) -> bool
    ensures { result ≡ same_sign a b }
{
    match (a, b) {
        (Sign::Plus, Sign::Plus) | (Sign::Minus, Sign::Minus) => true,
        _ => false,
    }
}
