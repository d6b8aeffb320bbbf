//! Few deltas that do what many commits do.
ghost use Rattle.std.specs.Prelude.{◌≡◌, ◌≤◌, ◌<◌, ◌^◌, ◌*◌, ◌+◌, ◌++◌, ◌∷◌, true, false, [], List, Some, length, take, slice_get, IfOk, OnOk, OnErr};
ghost use Rattle.std.specs.List.{list_all};
ghost use Rattle.hera_meaning.specs.declared.schemas.RelDecl.{RelDecl as PlainDecl};
ghost use Rattle.hera_meaning.specs.Deltas.{Delta as PlainDelta, State, apply_of, is_fail};
ghost use Rattle.hera_meaning.specs.Fits.{is_delta_of};
ghost use Rattle.when_overlay.specs.Changed.{after_all};
ghost use Rattle.commit_levels.specs.Merging.{IsMerged, IsJoined, AreFalling, size};

use delta_atoms::Delta;
use smash_merge::smash;
use std::alloc::{AllocError, Global};
use std::marker::Model;

/// Few deltas that do to a state what the commits that were put in do, in order. None is `fail`.
///
/// Each has more than twice the atoms of the next one, so there are few of them, and an atom is merged a few times.
#[derive(Drop)]
pub struct Levels {
    deltas: Vec<Delta>,
    alloc: Global,
}

impl Model for Levels {
    ghost use Rattle.std.specs.Prelude.{◌≡◌, true, List};
    ghost use Rattle.std.specs.List.{list_all};
    ghost use Rattle.hera_meaning.specs.Deltas.{Delta as PlainDelta};
    ghost use Rattle.commit_levels.specs.Merging.{is_proper, AreFalling};

    ghost Value = { List PlainDelta };

    ghost view = { λ l. l.deltas.items };

    ghost invariant = { λ l. (list_all is_proper l.deltas.items ≡ true) × AreFalling l.deltas.items };
}

/// The newest deltas merged into one, and how many are left of those before.
#[derive(Drop)]
pub(crate) struct Merged {
    pub(crate) keep: usize,
    pub(crate) newest: Delta,
}

impl Levels {
    /// No commits. It takes no memory.
    pub fn new(alloc: Global) -> Levels
        ensures { result ≡ [] }
    {
        Levels {
            deltas: Vec::new(alloc),
            alloc,
        }
    }

    /// What these commits do, in order.
    pub fn of(alloc: Global, commits: &[Delta]) -> Result<Levels, AllocError>
        ensures does { (s : State) → IfOk result (λ levels. after_all s levels ≡ after_all s commits.now) }
        ensures known { (rels : List PlainDecl) → list_all (is_delta_of rels) commits.now ≡ true → IfOk result (λ levels. list_all (is_delta_of rels) levels ≡ true) }
    {
        let mut levels = Levels::new(alloc);
        for delta in commits {
            levels.push(delta)?;
        }
        Ok(levels)
    }

    /// The deltas, in order.
    pub fn deltas(&self) -> &[Delta]
        ensures deltas { result.now ≡ self.now }
        // There are few: their number is at most the logarithm of how many atoms the first has, and one more.
        ensures few { (first : PlainDelta) → slice_get self.now 0 ≡ Some first → 2 ^ length self.now ≤ 2 * (size first + 1) }
    {
        &self.deltas
    }

    /// Puts a commit behind the others: what they and then it do to a state, the deltas do from then on. One that is
    /// `fail` changes nothing. Without memory the deltas are as before.
    pub fn push(&mut self, delta: &Delta) -> Result<(), AllocError>
        ensures does { (s : State) → OnOk result (after_all s self.new ≡ apply_of (after_all s self.old) delta.now) }
        ensures known { (rels : List PlainDecl) → list_all (is_delta_of rels) self.old ≡ true → is_delta_of rels delta.now ≡ true → OnOk result (list_all (is_delta_of rels) self.new ≡ true) }
        ensures err { OnErr result (self.new ≡ self.old) }
    {
        if delta.is_fail() {
            return Ok(());
        }
        let Merged { keep, newest } = self.merged(delta)?;
        if keep < self.deltas.len() {
            self.deltas[keep] = newest;
            self.deltas.truncate(keep + 1);
        } else {
            self.deltas.push(newest)?;
        }
        Ok(())
    }

    /// A delta merged with those before it that are not more than twice as large.
    fn merged(&self, delta: &Delta) -> Result<Merged, AllocError>
        requires { is_fail delta.now ≡ false }
        ensures merged { IfOk result (λ m. IsMerged self.now delta.now m.keep m.newest) }
        ensures falls { IfOk result (λ m. AreFalling (take m.keep self.now ++ m.newest ∷ [])) }
    {
        let mut keep = self.deltas.len();
        let mut newest = delta.copy()?;
        while keep > 0 {
            match self.joined(keep - 1, &newest)? {
                None => return Ok(Merged { keep, newest }),
                Some(both) => newest = both,
            }
            keep -= 1;
        }
        Ok(Merged { keep, newest })
    }

    /// A level merged with what comes behind it, unless it is more than twice as large.
    fn joined(&self, i: usize, newest: &Delta) -> Result<Option<Delta>, AllocError>
        requires within { i < length self.now }
        requires known { is_fail newest.now ≡ false }
        ensures { IfOk result (IsJoined self.now i newest.now) }
    {
        let older = &self.deltas[i];
        if older.count() / 2 > newest.count() {
            return Ok(None);
        }
        Ok(Some(smash(self.alloc, older, newest)?))
    }
}
