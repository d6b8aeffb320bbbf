//! Laws of the definitions that the contract of `hera` cites. The functions do nothing: their clauses are the laws.

ghost use Rattle.std.specs.Prelude.{◌≡◌, ◌≢◌, ◌≤◌, ◌↔◌, ◌⊎◌, ℕ, true, false, List, [], ◌∷◌, Some, length, codes};
ghost use Rattle.hera_causes.specs.Causes.{Rose};
ghost use Rattle.hera_meaning.specs.Deltas.{IsState};
ghost use Rattle.hera_meaning.specs.Run.{Report, run_of, state_after};
ghost use Rattle.hera_meaning.specs.Trees.{Program_tree};
ghost use Rattle.hera_host.specs.Tables.{Host, AreHosts, specs_of};
ghost use Rattle.hera_rules.specs.Accepted.{Accepted};
ghost use Rattle.hera_rules.specs.Bound.{bound};
ghost use Rattle.hera_bind.specs.Having.{AllHas};
ghost use Rattle.hera_bind.specs.Meaning.{Means};
ghost use Rattle.hera_script.specs.Refusing.{IsRefused};
ghost use Rattle.hera_script.specs.declared.cause.Cause.{Cause};
ghost use Rattle.hera_sessions.specs.Sessions.{serial_of};
ghost use Rattle.hera_sessions.specs.Weaving.{AreTasks, woven, weave_of, committers, commit_texts};
ghost use Rattle.hera_syntax.specs.Tokens.{script_limit};
ghost use Rattle.hera_store.specs.Databases.{Database, Holds};
ghost use Rattle.hera_volume.specs.declared.file_id.FileId.{FileId};
ghost use Rattle.rel_pages.specs.Stored.{empty_state};
ghost use Rattle.hera_outcome.specs.Outcomes.{Outcome, refused, prints, ran, carried, ends};
ghost use Rattle.hera_outcome.specs.Passages.{passage, start};
ghost use Rattle.hera_outcome.specs.Told.{IsDone};
ghost use Rattle.hera_outcome.specs.declared.refusal.Refusal.{Refusal};
ghost use Rattle.hera_run.specs.Fitting.{all_fit};
ghost use Rattle.hera_run.specs.Folder.{StartsAt};
ghost use Rattle.hera_woven.specs.Weaving.{relations_of, all_bound, tasks_of};
ghost use Rattle.hera_words.specs.declared.command.Command.{Command};
ghost use Rattle.hera_words.specs.Words.{form_of};
ghost use Rattle.hera_packed.specs.Executed.{ExecutesTo};
ghost use Rattle.hera_top.specs.Coding.{PrintsPack, PacksTo};
ghost use Rattle.hera_top.specs.Commands.{ComesToFor, ComesTo, ReadsScript, Answers};
ghost use Rattle.hera_top.specs.Scripts.{AreAccepting};
ghost use Rattle.hera_top.specs.Sources.{Seen, IsRead, OneFailed};
ghost use Rattle.hera_top.specs.Told.{BeginsWith, full_sources};

use half_laws::laws::{a_half_has_one_catalogue_and_state, a_half_has_one_version};
use hera_bind::laws::a_program_is_bound_to_its_own_relations;
use hera_guarded::rules_have_one_answer;
use hera_packed::{a_file_comes_to_one_outcome, a_packed_program_does_what_it_means};
use hera_readings::{faults_have_places, some_tokens, some_tree};
use hera_rules::typing_is_exact;
use hera_script::{a_script_has_one_answer, accepted_programs_are_sound};
use hera_sessions::sessions_that_commit_are_serial;
use hera_store::laws::one_thing_is_found;
use hera_volume::Outside;
use hera_woven::laws::a_number_tells_one_schedule;

/// A command without a folder comes to one outcome for a script: so each refusal stands for its cause alone, and what runs
/// is the one program of the script. What `check` prints is `accepted` exactly for the scripts that are accepted.
pub fn one_outcome<W: Outside>()
    ensures one { (hosts : List Host) (command : Command) (script : List ℕ) (first second : W) (a b : Outcome) → (form_of command).folder ≡ false
        → ComesToFor hosts script (start W.Outside.own first) command a → ComesToFor hosts script (start W.Outside.own second) command b → a ≡ b }
    ensures accepted { (hosts : List Host) (script : List ℕ) (first : W) (outcome : Outcome) → ComesToFor hosts script (start W.Outside.own first) Command.Check outcome
        → (outcome ≡ prints (codes "accepted\n")) ↔ ((length script ≤ script_limit) × ((p : Program_tree) × Accepted script hosts p)) }
{
    a_script_has_one_answer();
}

/// A command that reads a script and has no folder comes to an outcome for each script: no script is left out of the
/// definitions of what is refused and what is accepted.
pub fn some_outcome<W: Outside>()
    ensures { (hosts : List Host) (command : Command) (script : List ℕ) (first : W) → ReadsScript command → (form_of command).folder ≡ false
        → (outcome : Outcome) × ComesToFor hosts script (start W.Outside.own first) command outcome }
{
    some_tokens();
    some_tree();
    faults_have_places();
    typing_is_exact();
}

/// A command comes to one outcome for the texts of its sources, what the files hold, the table of hosts and the turns: two
/// calls that begin with the same of these come to the same, but where a source failed before its text was read. What `pack`
/// prints is one up to its notes, as `packs_differ_in_notes_alone` says.
pub fn one_outcome_in_a_folder<W: Outside>()
    ensures { (hosts : List Host) (name : List ℕ) (command : Command) (texts : List (List ℕ)) (files : FileId → List ℕ) (before now later after : List Seen) (first second : W) (a b : Outcome)
        → command ≢ Command.Pack
        → BeginsWith texts files before (start W.Outside.own first)
        → BeginsWith texts files later (start W.Outside.own second)
        → ComesTo hosts name before now (start W.Outside.own first) command a
        → ComesTo hosts name later after (start W.Outside.own second) command b
        → a ≢ refused Refusal.Unread → b ≢ refused Refusal.Unread → a ≡ b }
{
    a_script_has_one_answer();
    one_thing_is_found();
    a_half_has_one_version();
    a_half_has_one_catalogue_and_state();
    rules_have_one_answer();
    a_number_tells_one_schedule();
    a_file_comes_to_one_outcome();
}

/// Completeness. Let no call on a source, a file or the output fail. Then a command does the whole of what it comes to for
/// the texts of its sources and what the files hold, or there was no memory (9).
pub fn a_call_is_complete<W: Outside>()
    ensures { (hosts : List Host) (name : List ℕ) (command : Command) (texts : List (List ℕ)) (files : FileId → List ℕ) (before now after : List Seen) (first last : W) (status : ℕ) (outcome : Outcome)
        → command ≢ Command.Pack
        → BeginsWith texts files before (start W.Outside.own first)
        → ¬ OneFailed before now → ¬ Rose (W.device_faults first) (W.device_faults last) → ¬ Rose (W.output_faults first) (W.output_faults last)
        → ComesTo hosts name (full_sources texts) after (start W.Outside.own first) command outcome → outcome ≢ refused Refusal.Unread
        → Answers hosts name command before now status (passage W.Output W.Outside.own first last)
        → (status ≡ 9) ⊎ IsDone outcome status (passage W.Output W.Outside.own first last) }
{
    a_script_has_one_answer();
    one_thing_is_found();
    a_half_has_one_version();
    a_half_has_one_catalogue_and_state();
    rules_have_one_answer();
    a_number_tells_one_schedule();
    a_file_comes_to_one_outcome();
}

/// What `pack` prints of one script is one up to the notes: both texts are code files of the one program.
pub fn packs_differ_in_notes_alone()
    ensures { (hosts : List Host) (script : List ℕ) (a b : Outcome) → PacksTo hosts script a → PacksTo hosts script b
        → (a ≡ b) ⊎ ((p : Program_tree) × PrintsPack (specs_of hosts) p a × PrintsPack (specs_of hosts) p b) }
{
    a_script_has_one_answer();
}

/// Completeness of `pack`. Let no call on a source, a file or the output fail, and a script be accepted. Then `pack` prints the
/// whole of a code file of its program, or there was no memory (9).
pub fn a_pack_is_complete<W: Outside>()
    ensures { (hosts : List Host) (name script : List ℕ) (files : FileId → List ℕ) (p : Program_tree) (before now : List Seen) (first last : W) (status : ℕ)
        → BeginsWith (script ∷ []) files before (start W.Outside.own first)
        → ¬ OneFailed before now → ¬ Rose (W.device_faults first) (W.device_faults last) → ¬ Rose (W.output_faults first) (W.output_faults last)
        → length script ≤ script_limit → Accepted script hosts p
        → Answers hosts name Command.Pack before now status (passage W.Output W.Outside.own first last)
        → (status ≡ 9) ⊎ ((outcome : Outcome) × PrintsPack (specs_of hosts) p outcome × IsDone outcome status (passage W.Output W.Outside.own first last)) }
{
    a_script_has_one_answer();
}

/// Where `pack` prints a text for a script, a run of that text comes to what `eval` of the script comes to.
pub fn a_packed_script_runs_as_it_evaluates<W: Outside>()
    ensures { (hosts : List Host) (turns : ℕ) (script text : List ℕ) (first : W) (outcome evaluated : Outcome) → AreHosts hosts
        → PacksTo hosts script (prints text) → ExecutesTo (specs_of hosts) turns text outcome → ComesToFor hosts script (start W.Outside.own first) (Command.Eval turns) evaluated → outcome ≡ evaluated }
{
    a_script_has_one_answer();
    accepted_programs_are_sound();
    a_packed_program_does_what_it_means();
}

/// Completeness of `run`. Let a script be accepted, the files hold a database with all relations that it declares, whose
/// half, where it is of format 1, fits in format 2, each of its commits fit into the half, and the source not fail. Then
/// `run` does the whole of what the script means, and ends as that ends, but where a call on a file failed (6), the output
/// did (8) or there was no memory (9).
pub fn a_run_is_complete<W: Outside>()
    ensures { (hosts : List Host) (name : List ℕ) (turns : ℕ) (script : List ℕ) (files : FileId → List ℕ) (p : Program_tree) (db : Database) (gate : ℕ) (before now : List Seen) (first last : W) (status : ℕ)
        → BeginsWith (script ∷ []) files before (start W.Outside.own first) → ¬ OneFailed before now
        → length script ≤ script_limit → Accepted script hosts p → Holds files db → StartsAt files db gate → AllHas db.catalogue p.relations
        → all_fit (Some gate) (run_of (bound p db.catalogue) db.state (specs_of hosts) turns).events ≡ true
        → Answers hosts name (Command.Run turns) before now status (passage W.Output W.Outside.own first last)
        → (status ≡ 6) ⊎ (status ≡ 8) ⊎ (status ≡ 9)
        ⊎ IsDone (carried db (run_of (bound p db.catalogue) db.state (specs_of hosts) turns).events (ends (run_of (bound p db.catalogue) db.state (specs_of hosts) turns).finish)) status (passage W.Output W.Outside.own first last) }
{
    a_script_has_one_answer();
    one_thing_is_found();
    a_half_has_one_version();
    a_half_has_one_catalogue_and_state();
    rules_have_one_answer();
    a_number_tells_one_schedule();
    a_file_comes_to_one_outcome();
}

/// Where a source tells what it has left, the outcome of what came from it is the outcome of all of that.
pub fn told_outcome<W: Outside>()
    ensures { (hosts : List Host) (command : Command) (script bytes : List ℕ) (before now : Seen) (first : W) (outcome : Outcome)
        → before.left ≡ Some script → IsRead script_limit before now bytes → ComesToFor hosts bytes (start W.Outside.own first) command outcome → ComesToFor hosts script (start W.Outside.own first) command outcome }
{}

/// What `eval` comes to for a script is its refusal, or what the script means with these hosts and so many turns, on its
/// own relations without rows.
pub fn an_evaluation_is_the_meaning<W: Outside>()
    ensures { (hosts : List Host) (turns : ℕ) (script : List ℕ) (first : W) (outcome : Outcome) → AreHosts hosts → ComesToFor hosts script (start W.Outside.own first) (Command.Eval turns) outcome
        → ((cause : Cause) × (at : ℕ) × IsRefused hosts script cause at × (outcome ≡ refused (Refusal.Script cause at)))
        ⊎ ((p : Program_tree) × (report : Report) × Accepted script hosts p × Means script p.relations (empty_state p.relations) hosts turns report × (outcome ≡ ran report)) }
{
    accepted_programs_are_sound();
    a_program_is_bound_to_its_own_relations();
}

/// The sessions of `weave`, of accepted scripts bound to the catalogue of the database that the files hold, in whatever order
/// of their steps. Their programs are sound and have its relations, so each law of sessions holds of them. Those that commit
/// print what they would one after another, in the order of their commits, and the state stored is the one that these leave.
pub fn a_weave_is_serial()
    ensures sessions { (hosts : List Host) (turns : ℕ) (before now : List Seen) (ps : List Program_tree) (files : FileId → List ℕ) (db : Database)
        → AreHosts hosts → AreAccepting hosts before now ps → Holds files db → AllHas db.catalogue (relations_of ps)
        → AreTasks (specs_of hosts) db.catalogue (tasks_of turns (all_bound db.catalogue ps)) × IsState db.catalogue db.state }
    ensures serial { (hosts : List Host) (turns : ℕ) (before now : List Seen) (ps : List Program_tree) (files : FileId → List ℕ) (db : Database) (schedule : List ℕ)
        → AreHosts hosts → AreAccepting hosts before now ps → Holds files db → AllHas db.catalogue (relations_of ps)
        → let tasks = tasks_of turns (all_bound db.catalogue ps) in let w = woven tasks db.state (specs_of hosts) schedule in
        serial_of (specs_of hosts) (committers tasks w.closings) db.state ≡ record { outputs = commit_texts w.closings; state = state_after db.state (weave_of tasks db.state schedule (specs_of hosts)) } }
{
    accepted_programs_are_sound();
    sessions_that_commit_are_serial();
}
