//! What came of a run's threads, and its last checks.

ghost use Rattle.std.specs.Prelude.{◌≡◌, ◌≤◌, ◌+◌, ◌*◌, ◌/◌, ◌++◌, [], map, length, vec_capacity, IfOk};
ghost use Rattle.std.specs.List.{list_any};
ghost use Rattle.bt_meta.specs.Layout.{piece_count};
ghost use Rattle.bt_session.specs.Runs.{ChecksLast};

use crate::checker::StoppedChecker;
use crate::commons::{Commons, Worker};
use crate::run_name::RunName;
use crate::session_thread::EndedSession;
use bt_peer::{End, SessionFault, Stream};
use std::alloc::{AllocError, Global};
use std::sync::Wait;

/// What came of a run's threads and its last checks.
#[derive(Drop)]
pub struct Worked<L: RunName, R, W> {
    /// How each session ended, in the order of the streams.
    pub ends: Vec<Result<End, SessionFault>>,
    /// All workers of the run, in order.
    pub workers: Vec<Worker<L>>,
    pub streams: Vec<Stream<R, W>>,
    /// A check was given up, a ticket came back, or a call of a session found no memory.
    pub given_up: bool,
}

impl<L: RunName, R: Drop, W: Drop> Worked<L, R, W> {
    /// Of a run that has yet to work, with room for so many streams and workers.
    pub fn with_room(
        alloc: Global,
        streams: usize,
        workers: usize,
    ) -> Result<Worked<L, R, W>, AllocError>
        ensures ends { IfOk result (λ w. (w.ends.items ≡ []) × (streams ≤ vec_capacity w.ends)) }
        ensures workers { IfOk result (λ w. (w.workers.items ≡ []) × (workers ≤ vec_capacity w.workers)) }
        ensures streams { IfOk result (λ w. (w.streams.items ≡ []) × (streams ≤ vec_capacity w.streams)) }
    {
        Ok(Worked {
            ends: Vec::with_capacity(alloc, streams)?,
            workers: Vec::with_capacity(alloc, workers)?,
            streams: Vec::with_capacity(alloc, streams)?,
            given_up: false,
        })
    }
}

/// Puts what the sessions gave back into three lists. Whether something was given up.
pub fn part<L: RunName, R: Drop, W: Drop>(
    all: Vec<EndedSession<L, R, W>>,
    ends: &mut Vec<Result<End, SessionFault>>,
    workers: &mut Vec<Worker<L>>,
    streams: &mut Vec<Stream<R, W>>,
) -> bool
    requires empty { (ends.old.items ≡ []) × (workers.old.items ≡ []) × (streams.old.items ≡ []) }
    requires room { (length all.items ≤ vec_capacity ends.old) × (length all.items ≤ vec_capacity workers.old)
        × (length all.items ≤ vec_capacity streams.old) }
    ensures ends { ends.new.items ≡ map (λ p. p.end) all.items }
    ensures workers { workers.new.items ≡ map (λ p. p.worker) all.items }
    ensures streams { streams.new.items ≡ map (λ p. p.stream) all.items }
    ensures room { vec_capacity workers.new ≡ vec_capacity workers.old }
    ensures given_up { result ≡ list_any (λ p. p.given_up) all.items }
{
    let mut any = false;
    for session in all {
        let EndedSession {
            end,
            worker,
            stream,
            given_up,
        } = session;
        any |= given_up;
        ends.push_reserved(end);
        workers.push_reserved(worker);
        streams.push_reserved(stream);
    }
    any
}

/// Puts the checkers behind the workers of the sessions. Whether a check was given up.
pub fn part_checkers<L: RunName>(all: Vec<StoppedChecker<L>>, workers: &mut Vec<Worker<L>>) -> bool
    requires room { length workers.old.items + length all.items ≤ vec_capacity workers.old }
    ensures workers { workers.new.items ≡ workers.old.items ++ map (λ c. c.worker) all.items }
    ensures room { vec_capacity workers.new ≡ vec_capacity workers.old }
    ensures given_up { result ≡ list_any (λ c. c.given_up) all.items }
{
    let mut any = false;
    for checker in all {
        let StoppedChecker { worker, given_up } = checker;
        any |= given_up;
        workers.push_reserved(worker);
    }
    any
}

/// The last checks: each piece that waits for one, in rising order, is hashed and settled. Whether one was given up for want of memory.
pub fn last_checks<L: RunName, T: Wait>(
    rt: &T,
    alloc: Global,
    commons: &Commons<L>,
    worker: &mut Worker<L>,
) -> bool
    ensures { ChecksLast worker.old.pass worker.new.pass (piece_count commons.now.layout) }
{
    let mut given_up = last_fours(rt, alloc, commons, worker);
    for piece in commons.piece_count() / 4 * 4..commons.piece_count() {
        given_up |= commons.check(rt, alloc, worker, piece).is_err();
    }
    given_up
}

/// The last checks of the pieces but for the last few, four of them at a time. Whether one was given up.
fn last_fours<L: RunName, T: Wait>(
    rt: &T,
    alloc: Global,
    commons: &Commons<L>,
    worker: &mut Worker<L>,
) -> bool
    ensures { ChecksLast worker.old.pass worker.new.pass (piece_count commons.now.layout / 4 * 4) }
{
    let mut given_up = false;
    for four in 0..commons.piece_count() / 4 {
        let first = four * 4;
        let pieces = [first, first + 1, first + 2, first + 3];
        given_up |= commons.check_all(rt, alloc, worker, &pieces);
    }
    given_up
}
