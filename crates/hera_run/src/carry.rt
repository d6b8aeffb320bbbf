ghost use Rattle.std.specs.Prelude.{◌≡◌, [], ◌∷◌, ◌++◌, take, true, false, Err, IfErr, OnOk, OnErr, ℕ, List, Some};
ghost use Rattle.std.specs.Io.KnownBytes.{Appends};
ghost use Rattle.hera_meaning.specs.Deltas.{State};
ghost use Rattle.hera_meaning.specs.Worlds.{out};
ghost use Rattle.hera_volume.specs.Time.{LeavesOnly};
ghost use Rattle.hera_volume.specs.declared.file_id.FileId.{FileId};
ghost use Rattle.hera_store.specs.Standing.{StandsFor, database_of};
ghost use Rattle.hera_outcome.specs.Answers.{IsSpoken};
ghost use Rattle.hera_outcome.specs.Cut.{IsCut, IsCutWith, with_state};
ghost use Rattle.hera_outcome.specs.Passages.{passage, KeepsFiles};
ghost use Rattle.hera_outcome.specs.Told.{FaultsBy};
ghost use Rattle.hera_run.specs.Action.{event_of, text_of, state_with, action_fits, gate_with, IsProper, IsAllowed};
ghost use Rattle.hera_run.specs.Fitting.{fits, gate_behind};

use crate::keeper::Keeper;
use delta_atoms::Delta;
use hera_meaning::Line;
use hera_outcome::{Stop, say};
use hera_store::{CommitFault, Store};
use hera_volume::Outside;
use rel_format::HALF_LIMIT;

/// What a run does outside.
#[derive(Drop)]
pub enum Action {
    /// Prints a line.
    Say(Line),
    /// Stores a commit.
    Store(Delta),
}

/// Emits a line over what keeps the commits, or a prefix of it up to the first failure.
pub(crate) fn speak<K: Keeper, W: Outside>(
    outside: &mut W,
    keeper: &K,
    line: &[u8],
) -> Result<(), Stop>
    requires { W.told → K.stands (W.disk outside.old) keeper.now }
    ensures whole { OnOk result (Appends (W.emitted outside.old) (W.emitted outside.new) line.now) }
    ensures part { OnErr result ((n : ℕ) × Appends (W.emitted outside.old) (W.emitted outside.new) (take n line.now)) }
    ensures any_moment { W.told → LeavesOnly W.moment W.left_since outside.old outside.new
        (IsCutWith (K.finds keeper.now (W.disk outside.old)) (out line.now ∷ []) (K.database keeper.now).state (W.emitted outside.old)) }
    ensures faults { FaultsBy result (passage W.Output W.Outside.own outside.old outside.new) }
    ensures keeps { KeepsFiles (passage W.Output W.Outside.own outside.old outside.new) }
    ensures fault { IfErr result (λ stop. stop ≡ Stop.Output) }
{
    let _ = keeper;
    say(outside, line)
}

/// Stores one commit. At each moment it is carried out or not.
pub fn keep_in<W: Outside>(outside: &mut W, store: &mut Store, delta: Delta) -> Result<(), Stop>
    requires open { store.old.closed ≡ false }
    requires stands { W.told → StandsFor (W.disk outside.old) store.old }
    requires proper { IsProper store.old.base.catalogue (Action.Store delta) }
    ensures base { store.new.base ≡ store.old.base }
    ensures open { OnOk result (store.new.closed ≡ false) }
    ensures stands { W.told → OnOk result (StandsFor (W.disk outside.new) store.new) }
    ensures commits { OnOk result (store.new.commits ≡ store.old.commits ++ delta ∷ []) }
    ensures gate { OnOk result (Some store.new.end ≡ gate_behind (Some store.old.end) delta) }
    ensures fits { OnOk result (fits (Some store.old.end) delta ≡ true) }
    ensures full { result ≡ Err Stop.Full → fits (Some store.old.end) delta ≡ false }
    ensures nothing_full { result ≡ Err Stop.Full → store.new ≡ store.old }
    ensures nothing_done { fits (Some store.old.end) delta ≡ false → outside.new ≡ outside.old }
    ensures said { W.emitted outside.new ≡ W.emitted outside.old }
    ensures any_moment { W.told → LeavesOnly W.moment W.left_since outside.old outside.new
        (IsCut (event_of (Action.Store delta) (database_of store.old).state ∷ []) (database_of store.old) (W.emitted outside.old)) }
    ensures faults { FaultsBy result (passage W.Output W.Outside.own outside.old outside.new) }
{
    match store.commit(outside, delta, HALF_LIMIT) {
        Ok(()) => Ok(()),
        Err(CommitFault::Full { need: _, limit: _ }) => Err(Stop::Full),
        Err(CommitFault::Device) => Err(Stop::Device),
        Err(CommitFault::Memory) => Err(Stop::Memory),
        Err(CommitFault::Closed) => unreachable!(),
    }
}

/// Carries out one event that is not refused. At each moment it is carried out, or not, or its line in part. A commit that does
/// not fit is answered `Full`, and nothing is done.
pub fn carry_out<K: Keeper, W: Outside>(
    outside: &mut W,
    keeper: &mut K,
    action: Action,
) -> Result<(), Stop>
    requires ready { K.ready keeper.old }
    requires stands { W.told → K.stands (W.disk outside.old) keeper.old }
    requires proper { IsProper (K.database keeper.old).catalogue action }
    requires allowed { IsAllowed (K.refusal keeper.old) (K.database keeper.old).state action }
    // What is kept and said.
    ensures ready { OnOk result (K.ready keeper.new) }
    ensures stands { W.told → OnOk result (K.stands (W.disk outside.new) keeper.new) }
    ensures kept { OnOk result (K.database keeper.new ≡ with_state (K.database keeper.old) (state_with (K.database keeper.old).state action)) }
    ensures gate { OnOk result (K.gate keeper.new ≡ gate_with (K.gate keeper.old) action) }
    ensures refusal { OnOk result (K.refusal keeper.new ≡ K.refusal keeper.old) }
    ensures whole { OnOk result (Appends (W.emitted outside.old) (W.emitted outside.new) (text_of action)) }
    ensures part { OnErr result ((n : ℕ) × Appends (W.emitted outside.old) (W.emitted outside.new) (take n (text_of action))) }
    // `Full` comes only for a commit that does not fit, which is never kept, and nothing is done then.
    ensures fits { OnOk result (action_fits (K.gate keeper.old) action ≡ true) }
    ensures full { result ≡ Err Stop.Full → action_fits (K.gate keeper.old) action ≡ false }
    ensures full_kept { result ≡ Err Stop.Full → K.database keeper.new ≡ K.database keeper.old }
    ensures full_stands { W.told → result ≡ Err Stop.Full → K.stands (W.disk outside.new) keeper.new }
    ensures nothing_done { action_fits (K.gate keeper.old) action ≡ false → outside.new ≡ outside.old }
    // At each moment.
    ensures any_moment { W.told → LeavesOnly W.moment W.left_since outside.old outside.new
        (IsCutWith (K.finds keeper.old (W.disk outside.old)) (event_of action (K.database keeper.old).state ∷ []) (K.database keeper.old).state (W.emitted outside.old)) }
    ensures finds { W.told → OnOk result ((files : FileId → List ℕ) (s : State) → K.finds keeper.new (W.disk outside.new) files s → K.finds keeper.old (W.disk outside.old) files s) }
    ensures faults { FaultsBy result (passage W.Output W.Outside.own outside.old outside.new) }
    // Where no commit goes to a file.
    ensures keeps { K.apart → KeepsFiles (passage W.Output W.Outside.own outside.old outside.new) }
    ensures spoken { K.apart → IfErr result IsSpoken }
{
    match action {
        Action::Say(line) => speak(outside, keeper, line.bytes()),
        Action::Store(delta) => keeper.keep(outside, delta),
    }
}
