//! The deltas under which a machine reads.
ghost use Rattle.std.specs.Prelude.{true, ◌≡◌, ◌≢◌, ◌<◌, ◌+◌, ◌^◌, ℕ, [], ◌∷◌, None, Some, false, suc, max, drop, length, slice_get, OnOk, OnErr, IfOk, IfSome};
ghost use Rattle.std.specs.List.{list_all};
ghost use Rattle.std.specs.Option.{option_copied};
ghost use Rattle.hera_meaning.specs.Deltas.{State, atoms, is_fail, apply_of, rows_at};
ghost use Rattle.hera_meaning.specs.Rows.{is_row};
ghost use Rattle.hera_meaning.specs.Fits.{is_delta_of};
ghost use Rattle.when_overlay.specs.Changed.{after_all};
ghost use Rattle.when_overlay.specs.Layered.{AreLayers};
ghost use Rattle.hera_reads.specs.Branched.{pending_of, under, seen_at, lowest};
ghost use Rattle.hera_reads.specs.Counted.{IsCount};

use crate::kinds::have_same_kinds;
use crate::{Sight, Stack};
use delta_atoms::Delta;
use hera_meaning::{RelDecl, RelId, Schema};
use hera_rows::ROWS_LIMIT;
use hera_values::let_go;
use std::alloc::{AllocError, Global};
use std::marker::Model;
use when_overlay::{Change, IndexedHyp, Layers, Stored, View, change_of};

/// The deltas under which a machine reads: the pending delta, and upon it those of `when`. None is `fail`.
///
/// They are layers of a tree, whose root is the pending delta with the number 0. The machine reads under one
/// of them, the tip. A layer that it has left stays as long as it is named.
#[derive(Drop)]
pub struct Changes<'c> {
    /// The relations that the layers may name: each atom of a layer holds a row of one of them.
    catalogue: &'c [RelDecl],
    layers: Layers,
    /// The number of each layer's parent, which for the pending delta is its own.
    parents: Stack<usize>,
    tip: usize,
}

impl<'c> Model for Changes<'c> {
    ghost use Rattle.std.specs.Prelude.{◌≡◌, ◌<◌, length};
    ghost use Rattle.hera_reads.specs.Branched.{Branches, IsTree, AreKnown, parents_of};

    ghost Value = { Branches };

    ghost view = { λ c. record { catalogue = c.catalogue.now; layers = c.layers.layers; tip = c.tip } };

    ghost invariant = { λ c. IsTree c.layers.layers × (c.parents ≡ parents_of c.layers.layers) × (c.tip < length c.layers.layers) × AreKnown c.catalogue.now c.layers.layers };
}

impl<'c> Changes<'c> {
    /// The pending delta without atoms, and no layers upon it.
    pub fn new(alloc: Global, catalogue: &'c [RelDecl]) -> Result<Changes<'c>, AllocError>
        ensures { IfOk result (λ c. c ≡ record { catalogue = catalogue.entry.now; layers = record { parent = None; delta = atoms [] } ∷ []; tip = 0 }) }
    {
        let mut layers = Layers::new(alloc);
        layers.reserve(1)?;
        layers.push(None, Delta::empty(alloc));
        let mut parents = Stack::new(alloc);
        parents.push(0)?;
        Ok(Changes {
            catalogue,
            layers,
            parents,
            tip: 0,
        })
    }

    /// The relations that the layers may name.
    pub fn catalogue(&self) -> &'c [RelDecl]
        ensures { result.now ≡ self.now.catalogue }
    {
        self.catalogue
    }

    /// How many layers there are, with the pending delta.
    pub fn len(&self) -> usize
        ensures count { result ≡ length self.now.layers }
        ensures tip { self.now.tip < result }
        ensures known { is_fail (pending_of self.now.layers) ≡ false }
        ensures of { is_delta_of self.now.catalogue (pending_of self.now.layers) ≡ true }
    {
        self.layers.len()
    }

    /// The number of the layer under which the machine reads.
    pub fn tip(&self) -> usize
        ensures tip { result ≡ self.now.tip }
        ensures within { result < length self.now.layers }
        ensures fits { length (under self.now.layers result) + 1 < 2 ^ 64 }
    {
        // for the proof alone: the count of layers fits
        let _count = self.layers.len();
        self.tip
    }

    /// Puts a layer upon the one under which the machine reads, which is the new one from then on.
    pub fn enter(&mut self, delta: Delta) -> Result<(), AllocError>
        requires known { is_fail delta ≡ false }
        requires of { is_delta_of self.old.catalogue delta ≡ true }
        ensures ok { OnOk result (self.new ≡ record self.old { layers = record { parent = Some self.old.tip; delta = delta } ∷ self.old.layers; tip = length self.old.layers }) }
        ensures upon { OnOk result (under self.new.layers self.new.tip ≡ delta ∷ under self.old.layers self.old.tip) }
        ensures err { OnErr result (self.new ≡ self.old) }
    {
        self.layers.reserve(1)?;
        self.parents.push(self.tip)?;
        self.tip = self.layers.push(Some(self.tip), delta);
        Ok(())
    }

    /// Goes back to the layer below the one under which the machine reads, if there is one. No layer is
    /// dropped, and it takes no memory.
    pub fn leave(&mut self)
        ensures layers { self.new.layers ≡ self.old.layers }
        ensures catalogue { self.new.catalogue ≡ self.old.catalogue }
        ensures below { under self.new.layers self.new.tip ≡ drop 1 (under self.old.layers self.old.tip) }
        ensures within { self.new.tip < length self.new.layers }
    {
        let tip = self.tip();
        self.tip = self.below(tip);
    }

    /// The number of the layer below one, which for the pending delta is its own.
    fn below(&self, i: usize) -> usize
        requires { i < length self.now.layers }
        ensures below { under self.now.layers result ≡ drop 1 (under self.now.layers i) }
        ensures within { result < length self.now.layers }
    {
        // for the proof alone: each parent is an earlier layer
        let _count = self.layers.len();
        match self.parents.oldest_first().get(i) {
            Some(number) => *number,
            None => 0,
        }
    }

    /// Goes to the layer of this number. It takes no memory.
    pub fn go_to(&mut self, tip: usize)
        requires { tip < length self.old.layers }
        ensures { self.new ≡ record self.old { tip = tip } }
    {
        self.tip = tip;
    }

    /// Drops the newest layer, under which the machine doesn't read.
    fn drop_newest(&mut self)
        requires { self.old.tip + 1 < length self.old.layers }
        ensures { self.new ≡ record self.old { layers = drop 1 self.old.layers } }
    {
        self.parents.pop();
        let_go(self.layers.pop());
    }

    /// Drops the newest layers, but for the oldest `n` ones and the one under which the machine reads. It
    /// takes no memory.
    pub fn keep_lowest(&mut self, n: usize)
        ensures { self.new ≡ record self.old { layers = lowest (max n (suc self.old.tip)) self.old.layers } }
    {
        let tip = self.tip();
        let count = self.len();
        let needed = n.max(tip + 1);
        for _ in needed..count {
            self.drop_newest();
        }
    }

    /// Puts another delta in the pending one's place, and gives that one. It takes no memory.
    pub fn replace_pending(&mut self, delta: Delta) -> Delta
        requires known { is_fail delta ≡ false }
        requires of { is_delta_of self.old.catalogue delta ≡ true }
        ensures of { is_delta_of self.old.catalogue result ≡ true }
        ensures catalogue { self.new.catalogue ≡ self.old.catalogue }
        ensures old { result ≡ pending_of self.old.layers }
        ensures known { is_fail result ≡ false }
        ensures pending { pending_of self.new.layers ≡ delta }
        ensures others { (k : ℕ) → under self.new.layers k ≡ under self.old.layers k }
        ensures count { length self.new.layers ≡ length self.old.layers }
        ensures tip { self.new.tip ≡ self.old.tip }
    {
        // for the proof alone: no layer is `fail`
        let _count = self.layers.len();
        self.layers.replace(0, delta)
    }

    /// The rows of a relation after the commits, the pending delta and the layers up to this one. Where
    /// there is no layer of this number, they are those after the pending delta. It takes no memory.
    pub fn rel<'a>(&'a self, stored: &'a Stored<'a>, rel: RelId, tip: usize) -> IndexedHyp<'a>
        requires { rel.0 < length stored.now.catalogue }
        ensures { slice_get (seen_at stored.now.state self.now.layers tip) rel.0 ≡ Some result }
    {
        let view = View {
            base: stored.base(),
            commits: stored.commits(),
            layers: &self.layers,
            tip: Some(self.there(tip)),
        };
        view.indexed(rel)
    }

    /// The rows of a relation after the commits and the pending delta. It takes no memory.
    pub(crate) fn pending_rel<'a>(&'a self, stored: &'a Stored<'a>, rel: RelId) -> IndexedHyp<'a>
        requires { rel.0 < length stored.now.catalogue }
        ensures { slice_get (apply_of stored.now.state (pending_of self.now.layers)) rel.0 ≡ Some result }
    {
        // for the proof alone: the layers are a tree
        let _count = self.layers.len();
        self.rel(stored, rel, 0)
    }

    /// How the layer of this number, which is not the pending delta, changes the number of rows that a relation has under
    /// the layer below; none where there are 2^64 or more. Only the rows that it names are looked for. It takes no memory.
    fn change(&self, stored: &Stored<'_>, rel: RelId, i: usize, below: usize) -> Option<Change>
        requires there { rel.0 < length stored.now.catalogue }
        requires within { i < length self.now.layers }
        requires upon { i ≢ 0 }
        requires below { under self.now.layers below ≡ drop 1 (under self.now.layers i) }
        requires below_within { below < length self.now.layers }
        ensures lower { length (under self.now.layers below) < length (under self.now.layers i) }
        ensures change { let s = stored.now.state in IfSome result (λ change. length (rows_at (seen_at s self.now.layers i) rel.0) + change.taken_out ≡ length (rows_at (seen_at s self.now.layers below) rel.0) + change.put_in) }
    {
        let rows = self.rel(stored, rel, below);
        change_of(&rows, rel, self.layers.delta(i))
    }

    /// How many rows a relation has under the layer of this number, from how many it has after the pending delta; none
    /// for more than 2^63 - 1. Only the rows that the layers upon that name are looked for. It takes no memory.
    pub(crate) fn count_upon(
        &self,
        stored: &Stored<'_>,
        rel: RelId,
        tip: usize,
        pending: u64,
    ) -> Option<u64>
        requires there { rel.0 < length stored.now.catalogue }
        requires pending { IsCount (apply_of stored.now.state (pending_of self.now.layers)) rel.0 pending }
        ensures { IfSome result (IsCount (seen_at stored.now.state self.now.layers tip) rel.0) }
    {
        // for the proof alone: the layers are a tree
        let _count = self.layers.len();
        let mut at = self.there(tip);
        let mut put_in: u64 = 0;
        let mut taken_out: u64 = 0;
        while at != 0 {
            let below = self.below(at);
            let change = self.change(stored, rel, at, below)?;
            put_in = put_in.checked_add(change.put_in)?;
            taken_out = taken_out.checked_add(change.taken_out)?;
            at = below;
        }
        let count = pending.checked_add(put_in)?.checked_sub(taken_out)?;
        if count <= ROWS_LIMIT {
            Some(count)
        } else {
            None
        }
    }

    /// The same rows as `rel` gives, with the schema of which they are known to be. It takes no memory.
    pub fn sight<'a>(&'a self, stored: &'a Stored<'a>, rel: RelId, tip: usize) -> Sight<'a>
        requires { rel.0 < length stored.now.catalogue }
        ensures { slice_get (seen_at stored.now.state self.now.layers tip) rel.0 ≡ Some result }
    {
        let tip = self.there(tip);
        let schema = self.known_schema(stored, rel);
        Sight::new(self.rel(stored, rel, tip), schema)
    }

    /// The schema of the base's relation, where the one that the layers may name has the same kinds: then each
    /// row of the base is of it, and each that the commits or the layers put in.
    fn known_schema<'a>(&'a self, stored: &'a Stored<'a>, rel: RelId) -> Option<&'a Schema>
        requires { rel.0 < length stored.now.catalogue }
        ensures { IfSome result (λ schema. (tip : ℕ) → tip < length self.now.layers → list_all (is_row schema.now) (rows_at (seen_at stored.now.state self.now.layers tip) rel.0) ≡ true) }
    {
        // for the proof alone: no layer is `fail`
        let _count = self.layers.len();
        let _commits = stored.commits();
        let schema = &stored.base().catalogue().decl(rel).schema;
        match decl_at(self.catalogue, rel) {
            Some(own) if have_same_kinds(schema, &own.schema) => Some(schema),
            _ => None,
        }
    }

    /// The number, if there is a layer of it, and else that of the pending delta.
    fn there(&self, tip: usize) -> usize
        ensures valid { AreLayers self.now.layers }
        ensures within { result < length self.now.layers }
        ensures seen { (s : State) → seen_at s self.now.layers result ≡ seen_at s self.now.layers tip }
    {
        if tip < self.layers.len() { tip } else { 0 }
    }
}

/// The declaration of a relation, if the catalogue has it.
fn decl_at(catalogue: &[RelDecl], rel: RelId) -> Option<&RelDecl>
    ensures { option_copied result ≡ slice_get catalogue.now rel.0 }
{
    catalogue.get(usize::from(rel.0))
}
