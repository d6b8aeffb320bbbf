//! What sessions over one base come to: definitions, and laws that are the clauses of functions without
//! effect.
#![tactic(auto)]

ghost use Rattle.std.specs.Prelude.{◌≡◌, ◌≢◌, ◌↔◌, ◌++◌, ◌∷◌, ℕ, List, [], Some, None, suc, slice_get, All};
ghost use Rattle.hera_meaning.specs.declared.schemas.RelDecl.{RelDecl};
ghost use Rattle.hera_meaning.specs.Deltas.{State, IsState};
ghost use Rattle.hera_meaning.specs.Commits.{IsCommitOf};
ghost use Rattle.hera_meaning.specs.Hosts.{Hosts};
ghost use Rattle.hera_meaning.specs.Trees.{Program_tree};
ghost use Rattle.hera_meaning.specs.Run.{run_of, output_of, state_after};
ghost use Rattle.hera_code.specs.Scheme.{code_of};
ghost use Rattle.hera_sessions.specs.Reads.{reads_of, is_among};
ghost use Rattle.hera_sessions.specs.Scanning.{scanned};
ghost use Rattle.hera_sessions.specs.Agreeing.{AgreeOn, without_states, deltas_of};
ghost use Rattle.hera_sessions.specs.Sessions.{Task, delta_of, serial_of};
ghost use Rattle.hera_sessions.specs.Weaving.{Outcome, read, conflicted, committed, woven, weave_of, committers, commit_texts, closes_next, closing_events, first_touch, AreTasks, AreClosed};
ghost use Rattle.hera_sessions.specs.Beginnings.{begun_of, run_at, since, AreOnce};

/// Two states that agree on what a program reads give runs that print the same, store the same deltas in the
/// same order, and end the same. The program need not be sound.
pub fn what_a_program_reads_decides_its_run()
    ensures events { (p : Program_tree) → (hosts : Hosts) → (n : ℕ) → (s t : State) → AgreeOn (is_among (reads_of p)) s t → without_states (run_of p s hosts n).events ≡ without_states (run_of p t hosts n).events }
    ensures finish { (p : Program_tree) → (hosts : Hosts) → (n : ℕ) → (s t : State) → AgreeOn (is_among (reads_of p)) s t → (run_of p s hosts n).finish ≡ (run_of p t hosts n).finish }
    ensures output { (p : Program_tree) → (hosts : Hosts) → (n : ℕ) → (s t : State) → AgreeOn (is_among (reads_of p)) s t → output_of (run_of p s hosts n) ≡ output_of (run_of p t hosts n) }
    ensures deltas { (p : Program_tree) → (hosts : Hosts) → (n : ℕ) → (s t : State) → AgreeOn (is_among (reads_of p)) s t → deltas_of (run_of p s hosts n).events ≡ deltas_of (run_of p t hosts n).events }
{}

/// The code of a program names exactly what the program reads.
pub fn code_names_what_the_program_reads()
    ensures { (p : Program_tree) → scanned (code_of p).instrs ≡ reads_of p }
{}

/// For every schedule of any number of sessions, those that closed with a commit, taken in commit order, have
/// the outputs of their runs one after another, and the final state is that which these runs leave.
pub fn sessions_that_commit_are_serial()
    ensures { (tasks : List Task) → (rels : List RelDecl) → (s : State) → (hosts : Hosts) → (schedule : List ℕ) → AreTasks hosts rels tasks → IsState rels s → let w = woven tasks s hosts schedule in serial_of hosts (committers tasks w.closings) s ≡ record { outputs = commit_texts w.closings; state = state_after s (weave_of tasks s schedule hosts) } }
{}

/// The commits of a weave are the deltas that it stores, in order. None is `fail`, and each names relations and rows of
/// the catalogue.
pub fn commits_are_what_is_stored()
    ensures stored { (tasks : List Task) → (rels : List RelDecl) → (s : State) → (hosts : Hosts) → (schedule : List ℕ) → AreTasks hosts rels tasks → IsState rels s → deltas_of (weave_of tasks s schedule hosts) ≡ (woven tasks s hosts schedule).commits }
    ensures proper { (tasks : List Task) → (rels : List RelDecl) → (s : State) → (hosts : Hosts) → (schedule : List ℕ) → AreTasks hosts rels tasks → IsState rels s → All (IsCommitOf rels) (woven tasks s hosts schedule).commits }
{}

/// A session closes as its run on the state committed at its first step. One whose run stores nothing prints what its
/// run prints. One whose run stores something closes with a conflict exactly where a commit since its first step touches
/// a relation that its program reads, and tells the first such commit; else it commits what its run stores, as one
/// delta, and prints what its run prints.
pub fn sessions_close_as_their_runs()
    ensures readers { (tasks : List Task) → (rels : List RelDecl) → (s : State) → (hosts : Hosts) → (schedule : List ℕ) → AreTasks hosts rels tasks → IsState rels s → (i : ℕ) → (t : Task) → slice_get tasks i ≡ Some t → (o : Outcome) → closes_next tasks s hosts i (woven tasks s hosts schedule) ≡ Some o → let report = run_at tasks s hosts t i schedule in deltas_of report.events ≡ [] → o ≡ read (output_of report) }
    ensures conflicts { (tasks : List Task) → (rels : List RelDecl) → (s : State) → (hosts : Hosts) → (schedule : List ℕ) → AreTasks hosts rels tasks → IsState rels s → (i : ℕ) → (t : Task) → slice_get tasks i ≡ Some t → (o : Outcome) → closes_next tasks s hosts i (woven tasks s hosts schedule) ≡ Some o → deltas_of (run_at tasks s hosts t i schedule).events ≢ [] → (k : ℕ) → (o ≡ conflicted k) ↔ (first_touch (reads_of t.program) (suc (begun_of tasks s hosts i schedule)) (since tasks s hosts i schedule) ≡ Some k) }
    ensures commits { (tasks : List Task) → (rels : List RelDecl) → (s : State) → (hosts : Hosts) → (schedule : List ℕ) → AreTasks hosts rels tasks → IsState rels s → (i : ℕ) → (t : Task) → slice_get tasks i ≡ Some t → (o : Outcome) → closes_next tasks s hosts i (woven tasks s hosts schedule) ≡ Some o → let report = run_at tasks s hosts t i schedule in deltas_of report.events ≢ [] → first_touch (reads_of t.program) (suc (begun_of tasks s hosts i schedule)) (since tasks s hosts i schedule) ≡ None → o ≡ committed (output_of report) (delta_of report) }
{}

/// A step at which its session does not close adds no event, and one at which it closes adds the events of this closing
/// alone. So a session that has not closed has printed nothing and stored nothing. A session closes once.
pub fn open_sessions_are_silent()
    ensures silent { (tasks : List Task) → (s : State) → (hosts : Hosts) → (schedule : List ℕ) → (i : ℕ) → closes_next tasks s hosts i (woven tasks s hosts schedule) ≡ None → weave_of tasks s (schedule ++ i ∷ []) hosts ≡ weave_of tasks s schedule hosts }
    ensures closing { (tasks : List Task) → (s : State) → (hosts : Hosts) → (schedule : List ℕ) → (i : ℕ) → (o : Outcome) → closes_next tasks s hosts i (woven tasks s hosts schedule) ≡ Some o → weave_of tasks s (schedule ++ i ∷ []) hosts ≡ weave_of tasks s schedule hosts ++ closing_events (state_after s (weave_of tasks s schedule hosts)) i o }
    ensures closed { (tasks : List Task) → (s : State) → (hosts : Hosts) → (schedule : List ℕ) → AreClosed (woven tasks s hosts schedule).stages (woven tasks s hosts schedule).closings }
    ensures once { (tasks : List Task) → (s : State) → (hosts : Hosts) → (schedule : List ℕ) → AreOnce (woven tasks s hosts schedule).closings }
{}
