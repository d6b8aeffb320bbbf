//! Sessions that run an instruction at a time.
ghost use Rattle.std.specs.Prelude.{◌≡◌, ◌↔◌, ◌≤◌, ◌<◌, ◌++◌, ◌∷◌, [], List, ℕ, true, false, Some, None, All, IfOk, IsErr, OnOk, OnErr, length, map, set, slice_get, take, drop, ◌-◌, ◌+◌, ◌^◌};
ghost use Rattle.hera_meaning.specs.Deltas as specs;
ghost use Rattle.hera_meaning.specs.Deltas.{State, is_fail};
ghost use Rattle.hera_meaning.specs.Commits.{IsCommitOf};
ghost use Rattle.hera_meaning.specs.Hosts.{Hosts};
ghost use Rattle.hera_host.specs.Tables.{specs_of};
ghost use Rattle.hera_sessions.specs.Sessions.{Task};
ghost use Rattle.hera_sessions.specs.Weaving.{closed, woven, closes_next};
ghost use Rattle.hera_weave.specs.Tasks.{HasCode, task_of};
ghost use Rattle.hera_weave.specs.Looms.{AreFresh, IsFresh, StandsFor, StandsForSome, state_behind, is_none_in, seats_left};
ghost use Rattle.hera_weave.specs.Standing.{HasText, outcome_in, commits_in};

use crate::seat::Seat;
use delta_atoms::Delta;
use hera_code::Code;
use hera_host::HostTable;
use hera_meaning::{Line, Program};
use rel_pages::Base;
use std::alloc::{AllocError, Global};
use std::marker::Model;
use std::mem::replace;

/// A program, its code and its number of turns.
#[derive(Drop)]
pub struct Session<'c> {
    pub program: &'c Program,
    pub code: &'c Code,
    pub turns: u64,
}

/// What a step of a session came to.
#[derive(Drop)]
pub enum WeaveEvent {
    /// The session goes on.
    Quiet,
    /// It closed, and stores this delta.
    Commit { delta: Delta, text: Line },
    /// It closed without a commit.
    Read { text: Line },
    /// It closed, and stores nothing: the commit of this number, counted from 1 behind the start, touched what it
    /// reads.
    Conflict { commit: u64, text: Line },
}

/// Sessions over one base, each of which makes an instruction at a step.
///
/// A session begins at its first step, on the state committed then. It runs on that state and its own commits, and
/// prints and stores nothing before the step that ends its run. There it closes.
#[derive(Drop)]
pub struct Weave<'c> {
    /// None behind its close.
    seats: Vec<Option<Seat<'c>>>,
    start: usize,
    failed: bool,
}

impl<'c> Model for Weave<'c> {
    ghost use Rattle.hera_weave.specs.Looms.{Loom};

    ghost Value = { Loom };

    ghost view = { λ w. record { seats = w.seats.items; start = w.start; failed = w.failed } };
}

impl<'c> Weave<'c> {
    /// Sessions that made no step yet, over so many commits. It stands for the empty schedule over every base, every
    /// list of so many commits and every table of hosts.
    pub fn new(
        alloc: Global,
        sessions: Vec<Session<'c>>,
        start: usize,
    ) -> Result<Weave<'c>, AllocError>
        requires code { All HasCode sessions.items }
        ensures stands { (hosts : Hosts) → (base : State) → (commits : List specs.Delta) → length commits ≡ start → IfOk result (λ w. StandsFor (map task_of sessions.entry.items) hosts base commits [] w) }
        ensures sessions { IfOk result (λ w. length w.seats ≡ length sessions.entry.items) }
        ensures start { IfOk result (λ w. w.start ≡ start) }
        ensures works { IfOk result (λ w. w.failed ≡ false) }
    {
        let seats = seats_of(alloc, &sessions)?;
        Ok(Weave {
            seats,
            start,
            failed: false,
        })
    }

    /// Whether the session has closed. It takes no memory.
    pub fn closed(&self, session: usize) -> bool
        requires there { session < length self.now.seats }
        ensures seat { result ≡ is_none_in (slice_get self.now.seats session) }
        ensures stage { (tasks : List Task) → (hosts : Hosts) → (base : State) → (commits : List specs.Delta) → (schedule : List ℕ) → StandsFor tasks hosts base commits schedule self.now → (result ≡ true) ↔ (slice_get (woven tasks (state_behind base commits self.now.start) hosts schedule).stages session ≡ Some closed) }
    {
        self.is_gone(session)
    }

    /// Executes one instruction of a session that has not closed. The session closes where its run ends at it: with one
    /// commit, having stored nothing, or because a commit since its beginning touched a relation that it reads.
    ///
    /// After want of memory it answers that at each later step.
    pub fn step(
        &mut self,
        session: usize,
        base: &Base,
        commits: &[Delta],
        hosts: &HostTable,
    ) -> Result<WeaveEvent, AllocError>
        requires there { session < length self.old.seats }
        requires goes_on { self.old.failed ≡ false → is_none_in (slice_get self.old.seats session) ≡ false }
        requires stands { self.old.failed ≡ false → StandsForSome (specs_of hosts.now.names) base.now.catalogue base.now.state commits.now self.old }
        requires proper { All (IsCommitOf base.now.catalogue) commits.now }
        // What closes a session, and how, is the definition's: `told`, with `text` for the text of a conflict.
        ensures told { (tasks : List Task) → (schedule : List ℕ) → StandsFor tasks (specs_of hosts.now.names) base.now.state commits.now schedule self.old → IfOk result (λ e. outcome_in e ≡ closes_next tasks (state_behind base.now.state commits.now self.old.start) (specs_of hosts.now.names) session (woven tasks (state_behind base.now.state commits.now self.old.start) (specs_of hosts.now.names) schedule)) }
        ensures text { IfOk result HasText }
        ensures stands { (tasks : List Task) → (schedule : List ℕ) → StandsFor tasks (specs_of hosts.now.names) base.now.state commits.now schedule self.old → IfOk result (λ e. StandsFor tasks (specs_of hosts.now.names) base.now.state (commits.now ++ commits_in e) (schedule ++ session ∷ []) self.new) }
        ensures proper { IfOk result (λ e. All (IsCommitOf base.now.catalogue) (commits_in e)) }
        ensures less { OnOk result (seats_left self.new.seats < seats_left self.old.seats) }
        ensures start { self.new.start ≡ self.old.start }
        ensures sessions { length self.new.seats ≡ length self.old.seats }
        ensures again { self.old.failed ≡ true → IsErr result }
        ensures works { OnOk result (self.new.failed ≡ false) }
        ensures failed { OnErr result (self.new.failed ≡ true) }
    {
        let _relations = base.catalogue();
        if self.has_failed() {
            return Err(AllocError);
        }
        match self.move_on(session, base, commits, hosts) {
            Ok(event) => Ok(event),
            Err(e) => {
                self.failed = true;
                Err(e)
            }
        }
    }

    /// The step itself.
    fn move_on(
        &mut self,
        session: usize,
        base: &Base,
        commits: &[Delta],
        hosts: &HostTable,
    ) -> Result<WeaveEvent, AllocError>
        requires there { session < length self.old.seats }
        requires goes_on { is_none_in (slice_get self.old.seats session) ≡ false }
        requires stands { StandsForSome (specs_of hosts.now.names) base.now.catalogue base.now.state commits.now self.old }
        requires proper { All (IsCommitOf base.now.catalogue) commits.now }
        ensures told { (tasks : List Task) → (schedule : List ℕ) → StandsFor tasks (specs_of hosts.now.names) base.now.state commits.now schedule self.old → IfOk result (λ e. outcome_in e ≡ closes_next tasks (state_behind base.now.state commits.now self.old.start) (specs_of hosts.now.names) session (woven tasks (state_behind base.now.state commits.now self.old.start) (specs_of hosts.now.names) schedule)) }
        ensures text { IfOk result HasText }
        ensures stands { (tasks : List Task) → (schedule : List ℕ) → StandsFor tasks (specs_of hosts.now.names) base.now.state commits.now schedule self.old → IfOk result (λ e. StandsFor tasks (specs_of hosts.now.names) base.now.state (commits.now ++ commits_in e) (schedule ++ session ∷ []) self.new) }
        ensures less { OnOk result (seats_left self.new.seats < seats_left self.old.seats) }
        ensures start { self.new.start ≡ self.old.start }
        ensures sessions { length self.new.seats ≡ length self.old.seats }
        ensures failed { self.new.failed ≡ self.old.failed }
    {
        let start = self.start();
        let mut seat = self.take(session);
        let begun = seat.begin(commits.len());
        match seat.step(base, front(commits, begun), hosts) {
            Err(e) => {
                drop(seat);
                Err(e)
            }
            Ok(None) => {
                self.put_back(session, seat);
                Ok(WeaveEvent::Quiet)
            }
            Ok(Some(_)) => seat.close(number(commits, begun, start), rest(commits, begun)),
        }
    }

    /// Whether memory was refused at a step.
    fn has_failed(&self) -> bool
        ensures { result ≡ self.now.failed }
    {
        self.failed
    }

    /// How many commits there were at the start.
    fn start(&self) -> usize
        ensures { result ≡ self.now.start }
    {
        self.start
    }

    /// Whether the session's seat is empty.
    fn is_gone(&self, session: usize) -> bool
        requires { session < length self.now.seats }
        ensures { result ≡ is_none_in (slice_get self.now.seats session) }
    {
        self.seats[session].is_none()
    }

    /// The session at work, which is taken out.
    fn take(&mut self, session: usize) -> Seat<'c>
        requires there { session < length self.old.seats }
        requires goes_on { is_none_in (slice_get self.old.seats session) ≡ false }
        ensures seat { slice_get self.old.seats session ≡ Some (Some result) }
        ensures taken { self.new ≡ record self.old { seats = set self.old.seats session None } }
    {
        match self.seats[session].take() {
            Some(seat) => seat,
            None => unreachable!(),
        }
    }

    /// Puts a session back.
    fn put_back(&mut self, session: usize, seat: Seat<'c>)
        requires { session < length self.old.seats }
        ensures { self.new ≡ record self.old { seats = set self.old.seats session (Some seat.entry) } }
    {
        let before = replace(&mut self.seats[session], Some(seat));
        drop(before);
    }
}

/// The first of the commits.
fn front(commits: &[Delta], n: usize) -> &[Delta]
    requires { n ≤ length commits.now }
    ensures { result.now ≡ take n commits.now }
{
    &commits[..n]
}

/// The commits behind those.
fn rest(commits: &[Delta], n: usize) -> &[Delta]
    requires { n ≤ length commits.now }
    ensures { result.now ≡ drop n commits.now }
{
    &commits[n..]
}

/// The number of the first commit behind so many, counted from 1 behind the start.
fn number(commits: &[Delta], begun: usize, start: usize) -> usize
    requires began { begun ≤ length commits.now }
    requires started { start ≤ begun }
    ensures number { result ≡ begun - start + 1 }
    ensures short { result + length (drop begun commits.now) < 2 ^ 64 }
{
    let _len = commits.len();
    let behind = begun - start;
    behind + 1
}

/// A machine at the start of a session's code.
fn seat_of<'c>(alloc: Global, session: &Session<'c>) -> Result<Seat<'c>, AllocError>
    requires { HasCode session.now }
    ensures { IfOk result (IsFresh session.now) }
{
    Seat::new(
        alloc,
        session.code,
        &session.program.relations,
        session.turns,
    )
}

/// Machines at the start of the sessions' code.
fn seats_of<'c>(
    alloc: Global,
    sessions: &[Session<'c>],
) -> Result<Vec<Option<Seat<'c>>>, AllocError>
    requires { All HasCode sessions.now }
    ensures { IfOk result (λ seats. AreFresh sessions.now seats.items) }
{
    let mut seats = Vec::new(alloc);
    for session in sessions {
        let seat = seat_of(alloc, session)?;
        seats.push(Some(seat))?;
    }
    Ok(seats)
}
