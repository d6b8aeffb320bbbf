//! The theorem: the code of a sound program does what the program means.

ghost use Rattle.std.specs.Prelude.{◌≡◌, ℕ, List};
ghost use Rattle.hera_meaning.specs.Deltas.{State, IsState};
ghost use Rattle.hera_meaning.specs.Hosts.{Hosts};
ghost use Rattle.hera_meaning.specs.Trees.{Program_tree};
ghost use Rattle.hera_meaning.specs.Worlds.{Event};
ghost use Rattle.hera_meaning.specs.Run.{run_of};
ghost use Rattle.hera_meaning.specs.Sound.{Sound};
ghost use Rattle.hera_code.specs.Scheme.{code_of};
ghost use Rattle.hera_code.specs.Forward.{Forward};
ghost use Rattle.hera_code.specs.Machine.{Stop, ended};
ghost use Rattle.hera_code.specs.Reached.{over, code_at};
ghost use Rattle.hera_codegen.specs.Correct.{step_bound, events_in, IsPrefix, AreStoresOf};

/// The code of a sound program does what the program means, from every state of the program's
/// relations and with every number of turns: hosts, walks, calls, `when`, commits, rollbacks and traps
/// included.
///
/// - `ends`: after `(n + 1) * (n + 1) * length` instructions the code is over, with the events and the
///   ending of the meaning's run. So it is never stuck.
/// - `only`: however many instructions it takes, no other end is reached.
/// - `stores`: each stored state is one of the program's relations, and its delta is not `fail` and has
///   atoms of those relations, in order.
/// - `prefixes`: after each number of instructions the events so far are the first ones of the run.
pub fn code_does_what_the_program_means()
    ensures ends { (p : Program_tree) → (hosts : Hosts) → (s : State) → (n : ℕ) → Sound p hosts → IsState p.relations s → code_at (code_of p) p.relations s hosts n (step_bound p n) ≡ over (run_of p s hosts n).events (ended (run_of p s hosts n).finish) }
    ensures only { (p : Program_tree) → (hosts : Hosts) → (s : State) → (n : ℕ) → Sound p hosts → IsState p.relations s → (k : ℕ) → (events : List Event) → (stop : Stop) → code_at (code_of p) p.relations s hosts n k ≡ over events stop → (events ≡ (run_of p s hosts n).events) × (stop ≡ ended (run_of p s hosts n).finish) }
    ensures stores { (p : Program_tree) → (hosts : Hosts) → (s : State) → (n : ℕ) → Sound p hosts → IsState p.relations s → AreStoresOf p.relations (run_of p s hosts n).events }
    ensures prefixes { (p : Program_tree) → (hosts : Hosts) → (s : State) → (n : ℕ) → Sound p hosts → IsState p.relations s → (k : ℕ) → IsPrefix (events_in (code_at (code_of p) p.relations s hosts n k)) (run_of p s hosts n).events }
{}

/// In the code of every program, jumps and the way out of a walk go forward.
pub fn code_of_programs_is_forward()
    ensures { (p : Program_tree) → Forward (code_of p) }
{}
