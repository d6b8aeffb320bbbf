//! What the pass over the addresses has found.
ghost use Rattle.std.specs.Prelude.{◌≡◌, ◌<◌, ◌≤◌, ◌↔◌, ℕ, IsTrue, List, Option, None, Some, true, length, slice_get, slice_set};
ghost use Rattle.hera_meaning.specs.declared.schemas.RelDecl.{RelDecl};
ghost use Rattle.hera_meaning.specs.Hosts.{Hosts};
ghost use Rattle.hera_code.specs.declared.instrs.Code.{Code as PlainCode};
ghost use Rattle.hera_typed.specs.Points.{Point};
ghost use Rattle.hera_typed.specs.Effects.{Body_note, Goal, home};
ghost use Rattle.hera_typed.specs.Pass.{Found, with_point, with_broken, fails, meets_point, follows_point, follow, follow_all};
ghost use Rattle.hera_stacks.specs.declared.stacks.Node.{Node};
ghost use Rattle.hera_stacks.specs.Stacked.{IsShared};
ghost use Rattle.hera_effects.specs.Spots.{IsSpot};
ghost use Rattle.hera_effects.specs.Ways.{Both, AreWays, listed, all_to};
ghost use Rattle.hera_verify.specs.Slots.{IsReach};
ghost use Rattle.hera_verify.specs.Tables.{IsNearest, IsTable, Keeps};

use crate::reaches::Reach;
use hera_effects::{Spot, Ways};

/// What is known at each address of the code, which of them are broken, and the least broken address behind them.
#[derive(Drop)]
pub(crate) struct Table {
    pub spots: Vec<Option<Spot>>,
    pub broken: Vec<bool>,
    pub far: Option<u32>,
}

/// The lesser of a broken address and another.
fn nearer(far: Option<u32>, to: u32) -> Option<u32>
    ensures { (len : ℕ) → (f : Found) → len ≤ to → IsNearest len f.broken far → IsNearest len (with_broken to f).broken result }
{
    match far {
        Some(far) => if to < far { Some(to) } else { Some(far) },
        None => Some(to),
    }
}

/// Puts what is known at an address.
fn put_spot(spots: &mut Vec<Option<Spot>>, to: usize, spot: Spot)
    requires { to < length spots.old.items }
    ensures { spots.new.items ≡ slice_set spots.old.items to (Some spot) }
{
    spots[to] = Some(spot);
}

/// Marks an address.
fn put_mark(broken: &mut Vec<bool>, to: usize)
    requires { to < length broken.old.items }
    ensures { broken.new.items ≡ slice_set broken.old.items to true }
{
    broken[to] = true;
}

/// Whether the same is known.
fn same_spot(a: Spot, b: Spot) -> bool
    ensures { IsTrue result ↔ (a ≡ b) }
{
    a == b
}

impl Table {
    /// What is known at an address of the code.
    pub(crate) fn spot_at(&self, at: usize) -> Option<Spot>
        requires { at < length self.now.spots.items }
        ensures { slice_get self.now.spots.items at ≡ Some result }
    {
        self.spots[at]
    }

    /// Whether an address of the code is broken.
    pub(crate) fn is_broken(&self, at: usize) -> bool
        requires { at < length self.now.broken.items }
        ensures { slice_get self.now.broken.items at ≡ Some result }
    {
        self.broken[at]
    }

    /// Marks an address as broken.
    fn mark(&mut self, to: u32)
        ensures { (nodes : List Node) → (len : ℕ) → (f : Found) → IsTable nodes len self.old f → IsTable nodes len self.new (with_broken to f) }
    {
        let at = to as usize;
        if at < self.broken.len() {
            put_mark(&mut self.broken, at);
        } else {
            self.far = nearer(self.far, to);
        }
    }

    /// Puts what is known at an address of the code.
    fn put(&mut self, to: usize, spot: Spot)
        requires { to < length self.old.spots.items }
        ensures { (nodes : List Node) → (len : ℕ) → (f : Found) → (q : Point) → IsTable nodes len self.old f → IsSpot nodes spot q → IsTable nodes len self.new (with_point to q f) }
    {
        put_spot(&mut self.spots, to, spot);
    }

    /// A way that can't be followed: false where the address to which it leads was passed.
    fn fail(&mut self, a: usize, to: u32) -> bool
        ensures { (nodes : List Node) → (len : ℕ) → (f : Found) → (code : PlainCode) → (rels : List RelDecl) → (hosts : Hosts) → (notes : List Body_note) → IsTable nodes len self.old f → Keeps nodes len self.new result (fails code rels hosts notes a to f) }
    {
        if a >= to as usize {
            return false;
        }
        self.mark(to);
        true
    }

    /// A way to an address of which nothing is known.
    fn found(&mut self, a: usize, to: u32, spot: Spot) -> bool
        requires { to < length self.old.spots.items }
        ensures { (nodes : List Node) → (len : ℕ) → (f : Found) → (q : Point) → (code : PlainCode) → (rels : List RelDecl) → (hosts : Hosts) → (notes : List Body_note) → IsTable nodes len self.old f → IsSpot nodes spot q → Keeps nodes len self.new result (meets_point code rels hosts notes a to q None f) }
    {
        if to as usize <= a {
            return false;
        }
        self.put(to as usize, spot);
        true
    }

    /// A way to an address of which something is known.
    fn meet(&mut self, a: usize, to: u32, spot: Spot, known: Spot) -> bool
        ensures { (nodes : List Node) → (len : ℕ) → (f : Found) → (q r : Point) → (code : PlainCode) → (rels : List RelDecl) → (hosts : Hosts) → (notes : List Body_note) → IsShared nodes → IsTable nodes len self.old f → IsSpot nodes spot q → IsSpot nodes known r → Keeps nodes len self.new result (meets_point code rels hosts notes a to q (Some r) f) }
    {
        if same_spot(spot, known) {
            return true;
        }
        self.fail(a, to)
    }

    /// A way to an address of the code, with what is known then.
    fn arrive(&mut self, a: usize, to: u32, spot: Spot) -> bool
        requires { to < length self.old.spots.items }
        ensures { (nodes : List Node) → (len : ℕ) → (f : Found) → (q : Point) → (code : PlainCode) → (rels : List RelDecl) → (hosts : Hosts) → (notes : List Body_note) → IsShared nodes → IsTable nodes len self.old f → IsSpot nodes spot q → Keeps nodes len self.new result (meets_point code rels hosts notes a to q (f.points to) f) }
    {
        match self.spot_at(to as usize) {
            None => self.found(a, to, spot),
            Some(known) => self.meet(a, to, spot, known),
        }
    }

    /// The same, where no point will do if nothing is known.
    fn arrive_if(&mut self, a: usize, to: u32, spot: Option<Spot>) -> bool
        requires { to < length self.old.spots.items }
        ensures { (nodes : List Node) → (len : ℕ) → (f : Found) → (q : Option Point) → (code : PlainCode) → (rels : List RelDecl) → (hosts : Hosts) → (notes : List Body_note) → IsShared nodes → IsTable nodes len self.old f → Both (IsSpot nodes) spot q → Keeps nodes len self.new result (follows_point code rels hosts notes a to q f) }
    {
        match spot {
            None => self.fail(a, to),
            Some(spot) => self.arrive(a, to, spot),
        }
    }

    /// A way from an address of a body.
    fn follow(&mut self, reach: Reach, a: usize, to: u32, spot: Option<Spot>) -> bool
        ensures { (nodes : List Node) → (f : Found) → (q : Option Point) → (code : PlainCode) → (rels : List RelDecl) → (hosts : Hosts) → (notes : List Body_note) → IsShared nodes → IsTable nodes (length code.instrs) self.old f → Both (IsSpot nodes) spot q → home code a < length code.bodies → IsReach code (home code a) reach → Keeps nodes (length code.instrs) self.new result (follow code rels hosts notes a (record { to = to; point = q }) f) }
    {
        if (to as usize) < self.spots.len() && reach.has(to as usize) {
            self.arrive_if(a, to, spot)
        } else {
            self.fail(a, to)
        }
    }

    /// A way, where there is one.
    fn follow_if(&mut self, reach: Reach, a: usize, to: Option<u32>, spot: Option<Spot>) -> bool
        ensures { (nodes : List Node) → (f : Found) → (q : Option Point) → (code : PlainCode) → (rels : List RelDecl) → (hosts : Hosts) → (notes : List Body_note) → IsShared nodes → IsTable nodes (length code.instrs) self.old f → Both (IsSpot nodes) spot q → home code a < length code.bodies → IsReach code (home code a) reach → Keeps nodes (length code.instrs) self.new result (follow_all code rels hosts notes a (all_to (listed to None) q) f) }
    {
        match to {
            Some(to) => self.follow(reach, a, to, spot),
            None => true,
        }
    }

    /// All ways from an address of a body.
    pub(crate) fn follow_all(&mut self, reach: Reach, a: usize, ways: Ways) -> bool
        ensures { (nodes : List Node) → (f : Found) → (gs : List Goal) → (code : PlainCode) → (rels : List RelDecl) → (hosts : Hosts) → (notes : List Body_note) → IsShared nodes → IsTable nodes (length code.instrs) self.old f → AreWays nodes ways gs → home code a < length code.bodies → IsReach code (home code a) reach → Keeps nodes (length code.instrs) self.new result (follow_all code rels hosts notes a gs f) }
    {
        if !self.follow_if(reach, a, ways.first, ways.point) {
            return false;
        }
        self.follow_if(reach, a, ways.second, ways.point)
    }
}
