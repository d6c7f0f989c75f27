//! The threads of a run: its checkers, and its sessions.

ghost use Rattle.std.specs.Prelude.{◌≡◌, ◌≤◌, [], All, map, length, vec_capacity, IfOk, IfErr, OnOk};
ghost use Rattle.std.specs.List.{list_any};
ghost use Rattle.bt_peer.specs.Serial.{stream_record};
ghost use Rattle.bt_peer.specs.SessionTerms.{terms_of};
ghost use Rattle.bt_session.specs.Checking.{EachMakesChecks};
ghost use Rattle.bt_session.specs.Swarms.{EachRunsSession};
ghost use Rattle.bt_session.specs.Runs.{IsRunFault};

use crate::check_threads::{CheckOf, start_checkers, stop};
use crate::checker::StoppedChecker;
use crate::commons::{Commons, Worker};
use crate::fault::SwarmFault;
use crate::plan::Plan;
use crate::run_name::RunName;
use crate::session_thread::EndedSession;
use crate::threads::{SessionOf, join_each, start_sessions};
use bt_history::MOST_DEPTH;
use bt_meta::{Sink, Source};
use bt_peer::{Gate, Stream};
use std::alloc::{AllocError, Global};
use std::sync::Wait;
use std::thread;
use std::thread::{PromisedHandle, Threads};

/// The workers of a run's threads, with the streams of its sessions, in the order of these.
#[derive(Drop)]
pub struct Hands<L: RunName, R, W> {
    pub sessions: Vec<Worker<L>>,
    pub streams: Vec<Stream<R, W>>,
    pub checkers: Vec<Worker<L>>,
}

/// What the threads of a run gave back, each in the order of its workers.
#[derive(Drop)]
pub struct Returned<L: RunName, R, W> {
    pub ended: Vec<EndedSession<L, R, W>>,
    pub stopped: Vec<StoppedChecker<L>>,
    /// The worker that told the checkers to stop.
    pub last: Worker<L>,
    /// A checker couldn't be told to stop.
    pub unstopped: bool,
}

/// Room for the handles of a run's threads, and for what these give back.
struct Rooms<L: RunName, R: Source, W: Sink> {
    checking: Vec<PromisedHandle<StoppedChecker<L>, CheckOf<L>>>,
    stopped: Vec<StoppedChecker<L>>,
    running: Vec<PromisedHandle<EndedSession<L, R, W>, SessionOf<L, R, W>>>,
    ended: Vec<EndedSession<L, R, W>>,
}

/// The end of the rooms is one call for whoever owns them.
impl<L: RunName, R: Source + Drop, W: Sink + Drop> Drop for Rooms<L, R, W> {
    fn drop(self) {
        let Rooms {
            checking: _checking,
            stopped: _stopped,
            running: _running,
            ended: _ended,
        } = self;
    }
}

impl<L: RunName, R: Source + Drop, W: Sink + Drop> Rooms<L, R, W> {
    /// Room for so many checkers and sessions.
    fn new(alloc: Global, checkers: usize, sessions: usize) -> Result<Rooms<L, R, W>, AllocError>
        ensures checking { IfOk result (λ r. (r.checking.items ≡ []) × (checkers ≤ vec_capacity r.checking)) }
        ensures stopped { IfOk result (λ r. (r.stopped.items ≡ []) × (checkers ≤ vec_capacity r.stopped)) }
        ensures running { IfOk result (λ r. (r.running.items ≡ []) × (sessions ≤ vec_capacity r.running)) }
        ensures ended { IfOk result (λ r. (r.ended.items ≡ []) × (sessions ≤ vec_capacity r.ended)) }
    {
        let mut rooms = Rooms {
            checking: Vec::new(alloc),
            stopped: Vec::new(alloc),
            running: Vec::new(alloc),
            ended: Vec::new(alloc),
        };
        rooms.reserve(checkers, sessions)?;
        Ok(rooms)
    }

    /// Makes room for so many checkers and sessions.
    fn reserve(&mut self, checkers: usize, sessions: usize) -> Result<(), AllocError>
        ensures checking { OnOk result ((self.new.checking.items ≡ self.old.checking.items) × (checkers ≤ vec_capacity self.new.checking)) }
        ensures stopped { OnOk result ((self.new.stopped.items ≡ self.old.stopped.items) × (checkers ≤ vec_capacity self.new.stopped)) }
        ensures running { OnOk result ((self.new.running.items ≡ self.old.running.items) × (sessions ≤ vec_capacity self.new.running)) }
        ensures ended { OnOk result ((self.new.ended.items ≡ self.old.ended.items) × (sessions ≤ vec_capacity self.new.ended)) }
    {
        self.checking.reserve(checkers)?;
        self.stopped.reserve(checkers)?;
        self.running.reserve(sessions)?;
        self.ended.reserve(sessions)?;
        Ok(())
    }

    /// The rooms, each by itself.
    fn into_parts(
        self,
    ) -> (
        Vec<PromisedHandle<StoppedChecker<L>, CheckOf<L>>>,
        Vec<StoppedChecker<L>>,
        Vec<PromisedHandle<EndedSession<L, R, W>, SessionOf<L, R, W>>>,
        Vec<EndedSession<L, R, W>>,
    )
        ensures { self ≡ record { checking = result.0; stopped = result.1; running = result.2; ended = result.3 } }
    {
        let Rooms {
            checking,
            stopped,
            running,
            ended,
        } = self;
        (checking, stopped, running, ended)
    }
}

/// Starts the checkers, and then the sessions. Where a thread can't be started, the handles are of those that run.
fn start_all<
    's,
    'e,
    L: RunName + Send + Sync + 'e,
    R: Source + Send + Drop + 'e,
    W: Sink + Send + Drop + 'e,
    T: Threads + Wait + Sync + 'e,
    G: Gate + Sync + 'e,
>(
    rt: &'e T,
    alloc: Global,
    scope: &thread::Scope<'s, &'e ()>,
    commons: &'e Commons<L>,
    hands: Hands<L, R, W>,
    plan: Plan,
    gate: &'e G,
    checking: &mut Vec<PromisedHandle<StoppedChecker<L>, CheckOf<L>>>,
    running: &mut Vec<PromisedHandle<EndedSession<L, R, W>, SessionOf<L, R, W>>>,
) -> Result<(), SwarmFault>
    requires count { length hands.sessions.items ≡ length hands.streams.items }
    requires depth { (1 ≤ plan.rules.depth) × (plan.rules.depth ≤ MOST_DEPTH) }
    requires room { (running.old.items ≡ []) × (length hands.streams.items ≤ vec_capacity running.old) }
    requires checkers_room { (checking.old.items ≡ []) × (length hands.checkers.items ≤ vec_capacity checking.old) }
    ensures few { length running.new.items ≤ length hands.streams.items }
    ensures few_checkers { length checking.new.items ≤ length hands.checkers.items }
    ensures checkers { OnOk result (map (λ h. h.promise.worker.value) checking.new.items ≡ hands.checkers.items) }
    ensures terms { OnOk result (All
        (λ h. terms_of h.promise.torrent.value.value h.promise.depth ≡ terms_of commons.now plan.rules.depth) running.new.items) }
    ensures seeds { OnOk result (All (λ h. h.promise.seed ≡ plan.seed) running.new.items) }
    ensures sessions { OnOk result (map (λ h. h.promise.worker.value) running.new.items ≡ hands.sessions.items) }
    ensures streams { OnOk result (map (λ h. h.promise.stream.value) running.new.items ≡ hands.streams.items) }
    ensures err { IfErr result IsRunFault }
{
    let Hands {
        sessions,
        streams,
        checkers,
    } = hands;
    start_checkers(rt, alloc, scope, commons, checkers, checking)?;
    start_sessions(
        rt, alloc, scope, commons, sessions, streams, plan, gate, running,
    )
}

/// A checker for each of these workers, and a session for each stream, in threads of their own, with what each gave back. All have ended
/// when this returns, also where it gives up: it takes its own memory before the first thread is started, joins the sessions, tells the
/// checkers that run to stop, and joins these.
pub fn crew<
    'e,
    L: RunName + Send + Sync + 'e,
    R: Source + Send + Drop + 'e,
    W: Sink + Send + Drop + 'e,
    T: Threads + Wait + Sync + 'e,
    G: Gate + Sync + 'e,
>(
    rt: &'e T,
    alloc: Global,
    commons: &'e Commons<L>,
    hands: Hands<L, R, W>,
    last: Worker<L>,
    plan: Plan,
    gate: &'e G,
) -> Result<Returned<L, R, W>, SwarmFault>
    requires count { length hands.sessions.items ≡ length hands.streams.items }
    requires depth { (1 ≤ plan.rules.depth) × (plan.rules.depth ≤ MOST_DEPTH) }
    ensures count { IfOk result (λ r. length r.ended.items ≡ length hands.streams.items) }
    ensures checkers { IfOk result (λ r. length r.stopped.items ≡ length hands.checkers.items) }
    ensures runs { IfOk result (λ r. EachRunsSession (stream_record R.left R.ended R.failed R.reads W.written W.failed)
        (terms_of commons.now plan.rules.depth) L.setting plan.seed hands.sessions.items hands.streams.items
        (map (λ p. p.end) r.ended.items) (map (λ p. p.worker) r.ended.items) (map (λ p. p.stream) r.ended.items)
        (list_any (λ p. p.given_up) r.ended.items)) }
    ensures checks { IfOk result (λ r. EachMakesChecks hands.checkers.items (map (λ c. c.worker) r.stopped.items)) }
    ensures last { IfOk result (λ r. (r.last.pass ≡ last.pass) × (r.last.seat ≡ last.seat)) }
    ensures err { IfErr result IsRunFault }
{
    thread::scope(
        thread::scope_env(),
        rt,
        move |scope| -> Result<Returned<L, R, W>, SwarmFault>
            requires count { length hands.sessions.items ≡ length hands.streams.items }
            requires depth { (1 ≤ plan.rules.depth) × (plan.rules.depth ≤ MOST_DEPTH) }
            ensures count { IfOk result (λ r. length r.ended.items ≡ length hands.streams.items) }
            ensures checkers { IfOk result (λ r. length r.stopped.items ≡ length hands.checkers.items) }
            ensures runs { IfOk result (λ r. EachRunsSession (stream_record R.left R.ended R.failed R.reads W.written W.failed)
                (terms_of commons.entry.now plan.rules.depth) L.setting plan.seed hands.sessions.items hands.streams.items
                (map (λ p. p.end) r.ended.items) (map (λ p. p.worker) r.ended.items) (map (λ p. p.stream) r.ended.items)
                (list_any (λ p. p.given_up) r.ended.items)) }
            ensures checks { IfOk result (λ r. EachMakesChecks hands.checkers.items (map (λ c. c.worker) r.stopped.items)) }
            ensures last { IfOk result (λ r. (r.last.pass ≡ last.pass) × (r.last.seat ≡ last.seat)) }
            ensures err { IfErr result IsRunFault }
        {
            let mut last = last;
            let rooms = Rooms::new(alloc, hands.checkers.len(), hands.streams.len())?;
            let (mut checking, mut stopped, mut running, mut ended) = rooms.into_parts();
            let started = start_all(
                rt,
                alloc,
                scope,
                commons,
                hands,
                plan,
                gate,
                &mut checking,
                &mut running,
            );
            join_each(rt, running, &mut ended);
            let told = stop(rt, commons, &mut last, checking.len());
            join_each(rt, checking, &mut stopped);
            match started {
                Ok(()) => Ok(Returned {
                    ended,
                    stopped,
                    last,
                    unstopped: !told,
                }),
                Err(fault) => Err(fault),
            }
        },
    )
}
