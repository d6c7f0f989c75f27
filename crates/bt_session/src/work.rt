//! The work of a run's threads, and its last checks.

ghost use Rattle.std.specs.Prelude.{◌≡◌, ◌≤◌, ◌+◌, length, slice_index_or, IfOk, IfErr};
ghost use Rattle.bt_meta.specs.Layout.{piece_count};
ghost use Rattle.bt_peer.specs.Serial.{stream_record};
ghost use Rattle.bt_peer.specs.SessionTerms.{terms_of};
ghost use Rattle.bt_session.specs.Checking.{CheckersWork};
ghost use Rattle.bt_session.specs.Swarms.{EachRunsSession};
ghost use Rattle.bt_session.specs.Runs.{ChecksLast, IsRunFault};
ghost use Rattle.bt_session.specs.Workers.{WorkerState};

use crate::commons::{Commons, Worker};
use crate::crew::{Hands, Returned, crew};
use crate::fault::SwarmFault;
use crate::plan::Plan;
use crate::run_name::RunName;
use crate::worked::{Worked, last_checks, part, part_checkers};
use bt_history::MOST_DEPTH;
use bt_meta::{Sink, Source};
use bt_peer::{Gate, Stream};
use std::alloc::Global;
use std::sync::Wait;
use std::thread::Threads;

/// The threads of a run, and the last checks when all have ended. The first workers of the crew speak for the streams, those behind them
/// check pieces, and the last one makes the last checks.
pub fn work<
    'e,
    L: RunName + Send + Sync + 'e,
    R: Source + Send + Drop + 'e,
    W: Sink + Send + Drop + 'e,
    T: Threads + Wait + Sync + 'e,
    G: Gate + Sync + 'e,
>(
    rt: &'e T,
    alloc: Global,
    commons: &'e Commons<L>,
    workers: Vec<Worker<L>>,
    streams: Vec<Stream<R, W>>,
    plan: Plan,
    gate: &'e G,
) -> Result<Worked<L, R, W>, SwarmFault>
    requires count { length workers.items ≡ length streams.items + plan.checkers + 1 }
    requires depth { (1 ≤ plan.rules.depth) × (plan.rules.depth ≤ MOST_DEPTH) }
    ensures count { IfOk result (λ r. (length r.ends.items ≡ length streams.items) × (length r.streams.items ≡ length streams.items)
        × (length r.workers.items ≡ length workers.items)) }
    ensures runs { IfOk result (λ r. EachRunsSession (stream_record R.left R.ended R.failed R.reads W.written W.failed)
        (terms_of commons.now plan.rules.depth) L.setting plan.seed workers.items streams.items r.ends.items r.workers.items r.streams.items
        r.given_up) }
    ensures checks { IfOk result (λ r. CheckersWork (length streams.items) plan.checkers workers.items r.workers.items) }
    ensures last { IfOk result (λ r. (any : WorkerState) →
        ChecksLast (slice_index_or workers.items (length streams.items + plan.checkers) any).pass
        (slice_index_or r.workers.items (length streams.items + plan.checkers) any).pass (piece_count commons.now.layout)) }
    ensures err { IfErr result IsRunFault }
{
    let count = streams.len();
    let mut worked = Worked::with_room(alloc, count, workers.len())?;
    let mut sessions = workers;
    let Some(last) = sessions.pop() else {
        unreachable!()
    };
    let checkers = sessions.split_off(count)?;
    let hands = Hands {
        sessions,
        streams,
        checkers,
    };
    let returned = crew(rt, alloc, commons, hands, last, plan, gate)?;
    let Returned {
        ended,
        stopped,
        mut last,
        unstopped,
    } = returned;
    let came_back = part(
        ended,
        &mut worked.ends,
        &mut worked.workers,
        &mut worked.streams,
    );
    let given_up = part_checkers(stopped, &mut worked.workers);
    let unfinished = last_checks(rt, alloc, commons, &mut last);
    worked.workers.push_reserved(last);
    worked.given_up = unstopped | came_back | given_up | unfinished;
    Ok(worked)
}
