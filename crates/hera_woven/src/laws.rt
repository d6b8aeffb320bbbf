//! The law of the schedules that numbers tell. The function does nothing: its clauses are the law.
ghost use Rattle.std.specs.Prelude.{◌≡◌, ℕ, List};
ghost use Rattle.hera_meaning.specs.Deltas.{State};
ghost use Rattle.hera_meaning.specs.Hosts.{Hosts};
ghost use Rattle.hera_sessions.specs.Sessions.{Task};
ghost use Rattle.hera_woven.specs.Weaving.{IsWhole};

/// Each number tells one schedule of some sessions at whose last step the last session closes, over each state. So a weave
/// ends.
pub fn a_number_tells_one_schedule()
    ensures there { (tasks : List Task) → (s : State) → (hosts : Hosts) → (order : ℕ) → (schedule : List ℕ) × IsWhole tasks s hosts order schedule }
    ensures one { (tasks : List Task) → (s : State) → (hosts : Hosts) → (order : ℕ) → (a : List ℕ) → (b : List ℕ) → IsWhole tasks s hosts order a → IsWhole tasks s hosts order b → a ≡ b }
{}
