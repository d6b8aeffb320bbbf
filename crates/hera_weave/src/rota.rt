//! The order of steps that a number tells.
ghost use Rattle.std.specs.Prelude.{vec_len, ◌≡◌, ◌≢◌, ◌<◌, ◌++◌, ◌∷◌, ◌%◌, [], List, ℕ, cond, false, None, Some, IfOk, is_some, length, slice_get};
ghost use Rattle.std.specs.List.{remove};
ghost use Rattle.hera_meaning.specs.Deltas.{Delta, State};
ghost use Rattle.hera_meaning.specs.Hosts.{Hosts};
ghost use Rattle.hera_sessions.specs.Sessions.{Task};
ghost use Rattle.hera_sessions.specs.Weaving.{woven, closes_next, is_open};
ghost use Rattle.hera_sessions.specs.Turns.{IsOrdered, next_number};
ghost use Rattle.hera_weave.specs.Looms.{Loom, StandsFor, state_behind, is_none_in};
ghost use Rattle.hera_weave.specs.Rotas.{IsDue, Turn};

use std::alloc::{AllocError, Global};
use std::marker::Model;

/// Whose step comes next, as a number tells.
///
/// Let `x` be the number, and `c` how many sessions have not closed. The next step is that of the session at place
/// `x mod c` of these, in ascending order. Then `x` becomes `x / c`, and the number again where that is 0.
#[derive(Drop)]
pub struct Rota {
    order: u64,
    number: u64,
    opens: Vec<usize>,
}

impl Model for Rota {
    ghost use Rattle.hera_weave.specs.Rotas.{Turn};

    ghost Value = { Turn };

    ghost view = { λ r. record { order = r.order; number = r.number; opens = r.opens.items } };
}

impl Rota {
    /// That of so many sessions, before their first step.
    pub fn new(alloc: Global, order: u64, sessions: usize) -> Result<Rota, AllocError>
        ensures due { (tasks : List Task) → (s : State) → (hosts : Hosts) → length tasks ≡ sessions → IfOk result (IsDue tasks s hosts []) }
        ensures order { IfOk result (λ r. r.order ≡ order) }
    {
        let mut opens = Vec::new(alloc);
        for session in 0..sessions {
            opens.push(session)?;
        }
        Ok(Rota {
            order,
            number: order,
            opens,
        })
    }

    /// The session whose step comes next; None where all have closed. It takes no memory.
    pub fn next(&self) -> Option<usize>
        ensures { result ≡ slice_get self.now.opens (self.now.number % length self.now.opens) }
    {
        let count = self.opens.len() as u64;
        if count == 0 {
            return None;
        }
        let place = self.number % count;
        Some(self.opens[place as usize])
    }

    /// Goes on behind the step of that session, at which it closed or did not. It takes no memory.
    pub fn pass(&mut self, session: usize, closes: bool)
        requires next { slice_get self.old.opens (self.old.number % length self.old.opens) ≡ Some session }
        ensures due { (tasks : List Task) → (s : State) → (hosts : Hosts) → (schedule : List ℕ) → IsDue tasks s hosts schedule self.old → closes ≡ is_some (closes_next tasks s hosts session (woven tasks s hosts schedule)) → IsDue tasks s hosts (schedule ++ session ∷ []) self.new }
        ensures order { self.new.order ≡ self.old.order }
    {
        let count = self.opens.len() as u64;
        if count == 0 {
            return;
        }
        let place = self.number % count;
        self.number = next_number(self.order, self.number, count);
        without(&mut self.opens, place as usize, closes);
    }
}

/// Takes the session at a place out, if it closed.
fn without(opens: &mut Vec<usize>, place: usize, closes: bool)
    requires { place < vec_len opens.old }
    ensures { opens.new.items ≡ cond closes (remove opens.old.items place) opens.old.items }
{
    if closes {
        opens.remove(place);
    }
}

/// What stands for the number at the next step, where so many sessions are open.
fn next_number(order: u64, number: u64, count: u64) -> u64
    requires { count ≢ 0 }
    ensures { result ≡ next_number order number count }
{
    let rest = number / count;
    if rest == 0 { order } else { rest }
}

/// A session that is due is there and has not closed. Where none is due, all have closed.
pub fn who_is_due_has_not_closed()
    ensures there { (tasks : List Task) → (hosts : Hosts) → (base : State) → (commits : List Delta) → (schedule : List ℕ) → (w : Loom) → (r : Turn) → StandsFor tasks hosts base commits schedule w → IsDue tasks (state_behind base commits w.start) hosts schedule r → (i : ℕ) → slice_get r.opens (r.number % length r.opens) ≡ Some i → (i < length w.seats) × (is_none_in (slice_get w.seats i) ≡ false) }
    ensures none { (tasks : List Task) → (s : State) → (hosts : Hosts) → (schedule : List ℕ) → (r : Turn) → IsDue tasks s hosts schedule r → slice_get r.opens (r.number % length r.opens) ≡ None → (i : ℕ) → is_open (slice_get (woven tasks s hosts schedule).stages i) ≡ false }
{}

/// The steps of a schedule whose sessions were those of a rota are in the order that its number tells.
pub fn what_is_due_is_in_order()
    ensures { (tasks : List Task) → (s : State) → (hosts : Hosts) → (schedule : List ℕ) → (r : Turn) → IsDue tasks s hosts schedule r → IsOrdered tasks s hosts r.order schedule }
{}
