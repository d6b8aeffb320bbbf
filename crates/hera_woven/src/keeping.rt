//! The folder of a weave: what is stored there, and what is said.
ghost use Rattle.std.specs.Prelude.{◌≡◌, ◌++◌, ◌∷◌, [], List, true, false, All, IfOk, OnOk};
ghost use Rattle.std.specs.List.{list_all};
ghost use Rattle.hera_meaning.specs.declared.schemas.RelDecl.{RelDecl as PlainDecl};
ghost use Rattle.hera_meaning.specs.Commits.{IsCommitOf};
ghost use Rattle.hera_meaning.specs.Deltas.{State, apply_of, is_fail};
ghost use Rattle.hera_meaning.specs.Fits.{is_delta_of};
ghost use Rattle.hera_meaning.specs.Worlds.{out, store as stores};
ghost use Rattle.hera_machine.specs.Over.{state_over};
ghost use Rattle.hera_sessions.specs.Weaving.{session_line};
ghost use Rattle.hera_store.specs.Standing.{StandsFor, database_of};
ghost use Rattle.hera_outcome.specs.Passages.{passage};
ghost use Rattle.hera_run.specs.Action.{IsProper};
ghost use Rattle.hera_run.specs.declared.carry.Action.{Action};
ghost use Rattle.hera_weave.specs.Standing.{outcome_in, commits_in, HasText};
ghost use Rattle.hera_woven.specs.Going.{Carries, closing};

use commit_levels::Levels;
use delta_atoms::Delta;
use hera_meaning::Line;
use hera_meaning::writing::{put, put_number};
use hera_outcome::{Stop, say};
use hera_run::keep_in;
use hera_store::Store;
use hera_volume::Outside;
use hera_weave::WeaveEvent;
use std::alloc::{AllocError, Global};

/// The folder of a weave.
#[derive(Drop)]
pub(crate) struct Folder {
    /// The store.
    pub(crate) store: Store,
    /// Few deltas that do what the commits before the weave do, and then the weave's own commits.
    pub(crate) commits: Vec<Delta>,
}

/// Copies of deltas, but of none that is `fail`, which does nothing.
fn copies(alloc: Global, deltas: &[Delta]) -> Result<Vec<Delta>, AllocError>
    ensures does { (s : State) → IfOk result (λ copies. state_over s copies.items ≡ state_over s deltas.now) }
    ensures proper { (rels : List PlainDecl) → list_all (is_delta_of rels) deltas.now ≡ true → IfOk result (λ copies. All (IsCommitOf rels) copies.items) }
{
    let mut copies = Vec::new(alloc);
    for delta in deltas {
        put_copy(&mut copies, delta)?;
    }
    Ok(copies)
}

/// Puts a copy of a delta behind others, unless it is `fail`.
fn put_copy(copies: &mut Vec<Delta>, delta: &Delta) -> Result<(), AllocError>
    ensures fails { is_fail delta.now ≡ true → OnOk result (copies.new.items ≡ copies.old.items) }
    ensures proper { is_fail delta.now ≡ false → OnOk result (copies.new.items ≡ copies.old.items ++ delta.now ∷ []) }
{
    if delta.is_fail() {
        return Ok(());
    }
    copies.push(delta.copy()?)?;
    Ok(())
}

/// Few deltas that do what the commits of a store do.
fn few_commits(alloc: Global, store: &Store) -> Result<Vec<Delta>, AllocError>
    ensures does { IfOk result (λ commits. state_over store.now.base.state commits.items ≡ (database_of store.now).state) }
    ensures proper { IfOk result (λ commits. All (IsCommitOf store.now.base.catalogue) commits.items) }
{
    let levels = Levels::of(alloc, store.commits())?;
    copies(alloc, levels.deltas())
}

/// A session's line, and its text behind it.
fn session_text(alloc: Global, session: usize, text: &[u8]) -> Result<Line, AllocError>
    ensures { IfOk result (λ line. line ≡ session_line session ++ text.now) }
{
    let mut line = Vec::new(alloc);
    put(&mut line, b"session ")?;
    put_number(&mut line, session as u128)?;
    put(&mut line, b"\n")?;
    put(&mut line, text)?;
    Ok(Line::new(line))
}

/// Prints a line over a store, or a prefix of it up to the first failure.
fn speak<W: Outside>(outside: &mut W, store: &Store, line: &[u8]) -> Result<(), Stop>
    requires open { store.now.closed ≡ false }
    requires stands { W.told → StandsFor (W.disk outside.old) store.now }
    ensures { Carries (out line.now ∷ []) store.now store.now result (passage W.Output W.Outside.own outside.old outside.new) }
{
    let _ = store;
    say(outside, line)
}

impl Folder {
    /// That of a weave over an open store.
    pub(crate) fn over(alloc: Global, store: Store) -> Result<Folder, AllocError>
        ensures store { IfOk result (λ folder. folder.store ≡ store) }
        ensures does { IfOk result (λ folder. state_over store.base.state folder.commits.items ≡ (database_of store).state) }
        ensures proper { IfOk result (λ folder. All (IsCommitOf store.base.catalogue) folder.commits.items) }
    {
        let commits = few_commits(alloc, &store)?;
        Ok(Folder { store, commits })
    }

    /// Stores a commit, and then prints a line.
    fn commit<W: Outside>(&mut self, outside: &mut W, delta: Delta, line: &[u8]) -> Result<(), Stop>
        requires open { self.old.store.closed ≡ false }
        requires stands { W.told → StandsFor (W.disk outside.old) self.old.store }
        requires proper { IsProper self.old.store.base.catalogue (Action.Store delta) }
        ensures carries { Carries (stores (apply_of (database_of self.old.store).state delta) delta ∷ out line.now ∷ []) self.old.store self.new.store result (passage W.Output W.Outside.own outside.old outside.new) }
        ensures commits { OnOk result (self.new.commits.items ≡ self.old.commits.items ++ delta ∷ []) }
    {
        self.commits.push(delta.copy()?)?;
        keep_in(outside, &mut self.store, delta)?;
        speak(outside, &self.store, line)
    }

    /// Carries out how a session closes, where it does: what it stores is stored, and then its line and its text are
    /// printed.
    pub(crate) fn close<W: Outside>(
        &mut self,
        alloc: Global,
        session: usize,
        event: WeaveEvent,
        outside: &mut W,
    ) -> Result<(), Stop>
        requires open { self.old.store.closed ≡ false }
        requires stands { W.told → StandsFor (W.disk outside.old) self.old.store }
        requires proper { All (IsCommitOf self.old.store.base.catalogue) (commits_in event) }
        requires text { HasText event }
        ensures carries { Carries (closing (database_of self.old.store).state session (outcome_in event)) self.old.store self.new.store result (passage W.Output W.Outside.own outside.old outside.new) }
        ensures commits { OnOk result (self.new.commits.items ≡ self.old.commits.items ++ commits_in event) }
    {
        match event {
            WeaveEvent::Quiet => Ok(()),
            WeaveEvent::Commit { delta, text } => {
                let line = session_text(alloc, session, text.bytes())?;
                self.commit(outside, delta, line.bytes())
            }
            WeaveEvent::Read { text } | WeaveEvent::Conflict { text, .. } => {
                let line = session_text(alloc, session, text.bytes())?;
                speak(outside, &self.store, line.bytes())
            }
        }
    }
}
