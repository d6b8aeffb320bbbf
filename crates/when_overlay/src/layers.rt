//! Layers of deltas.
ghost use Rattle.std.specs.Prelude.{◌≡◌, ◌≢◌, ◌<◌, ◌≤◌, ◌+◌, [], ◌∷◌, Some, None, Option, ℕ, false, length, IfSome, OnOk, OnErr};
ghost use Rattle.std.specs.Option.{option_map};
ghost use Rattle.hera_meaning.specs.Deltas.{is_fail};
ghost use Rattle.when_overlay.specs.Layered.{AreLayers, delta_at, layer_at, with_delta};

use delta_atoms::Delta;
use std::alloc::{AllocError, Global};
use std::marker::Model;
use std::mem::replace;

/// A delta upon an earlier layer, or upon none.
#[derive(Drop)]
pub(crate) struct Layer {
    pub(crate) parent: Option<usize>,
    pub(crate) delta: Delta,
}

/// Deltas, none `fail`, each upon an earlier one or upon none.
///
/// They are seen with the newest first, beside the number of further ones for which the place is there. A
/// layer's number is how many were there before it.
#[derive(Drop)]
pub struct Layers {
    items: Vec<Layer>,
}

impl Model for Layers {
    ghost use Rattle.std.specs.Prelude.{◌-◌};
    ghost use Rattle.std.specs.Vec.{vec_capacity, vec_len};
    ghost use Rattle.when_overlay.specs.Layered.{Pile, newest_first, AreLayers};

    ghost Value = { Pile };

    ghost view = { λ s. record { layers = newest_first s.items.items; spare = vec_capacity s.items - vec_len s.items } };

    ghost invariant = { λ s. AreLayers (newest_first s.items.items) };
}

impl Layers {
    /// No layers. It takes no memory.
    pub fn new(alloc: Global) -> Layers
        ensures { result.layers ≡ [] }
    {
        Layers {
            items: Vec::new(alloc),
        }
    }

    /// How many layers there are.
    #[tactic(auto, using(crate::proofs::Layering::lengths))]
    pub fn len(&self) -> usize
        ensures count { result ≡ length self.now.layers }
        ensures valid { AreLayers self.now.layers }
    {
        self.items.len()
    }

    /// Makes the place for at least `n` further layers. The layers stay, and without memory the places too.
    pub fn reserve(&mut self, n: usize) -> Result<(), AllocError>
        ensures layers { self.new.layers ≡ self.old.layers }
        ensures ok { OnOk result (n ≤ self.new.spare) }
        ensures err { OnErr result (self.new ≡ self.old) }
    {
        self.items.reserve(n)
    }

    /// Puts a layer upon an earlier one, or upon none, and gives its number. It takes no memory.
    #[tactic(auto, using(crate::proofs::Layering::pushed))]
    pub fn push(&mut self, parent: Option<usize>, delta: Delta) -> usize
        requires spare { 0 < self.old.spare }
        requires known { is_fail delta ≡ false }
        requires parent { IfSome parent (λ i. i < length self.old.layers) }
        ensures number { result ≡ length self.old.layers }
        ensures layers { self.new.layers ≡ record { parent = parent; delta = delta } ∷ self.old.layers }
        ensures spare { self.old.spare ≤ self.new.spare + 1 }
    {
        let number = self.items.len();
        match self.items.push(Layer { parent, delta }) {
            Ok(()) => number,
            Err(_) => unreachable!(),
        }
    }

    /// Takes the newest layer off, and gives its delta. It takes no memory.
    pub fn pop(&mut self) -> Delta
        requires { self.old.layers ≢ [] }
        ensures layers { (parent : Option ℕ) × (self.old.layers ≡ record { parent = parent; delta = result } ∷ self.new.layers) }
        ensures spare { self.new.spare ≡ self.old.spare + 1 }
    {
        match self.items.pop() {
            Some(layer) => layer.delta,
            None => unreachable!(),
        }
    }

    /// Puts another delta in the place of a layer's, and gives that one. It takes no memory.
    pub fn replace(&mut self, i: usize, delta: Delta) -> Delta
        requires there { i < length self.old.layers }
        requires known { is_fail delta ≡ false }
        ensures old { delta_at self.old.layers i ≡ Some result }
        ensures layers { self.new.layers ≡ with_delta self.old.layers i delta }
        ensures spare { self.new.spare ≡ self.old.spare }
    {
        replace(&mut self.items[i].delta, delta)
    }

    /// The delta of the layer of this number.
    pub fn delta(&self, i: usize) -> &Delta
        requires { i < length self.now.layers }
        ensures delta { delta_at self.now.layers i ≡ Some result.now }
        ensures valid { AreLayers self.now.layers }
    {
        &self.layer(i).delta
    }

    /// The layer of this number.
    pub(crate) fn layer(&self, i: usize) -> &Layer
        requires { i < length self.now.layers }
        ensures layer { layer_at self.now.layers i ≡ Some result.now }
        ensures valid { AreLayers self.now.layers }
    {
        &self.items[i]
    }
}
