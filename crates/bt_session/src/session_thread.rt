//! What the thread of a session does.

ghost use Rattle.std.specs.Prelude.{◌≤◌};
ghost use Rattle.bt_peer.specs.Serial.{stream_record};
ghost use Rattle.bt_peer.specs.SessionTerms.{terms_of};
ghost use Rattle.bt_session.specs.Runs.{RunsSession};

use crate::commons::{Commons, Worker};
use crate::pass_place::PassPlace;
use crate::run_name::RunName;
use bt_history::MOST_DEPTH;
use bt_meta::{Sink, Source, Torrent};
use bt_peer::whole::gated;
use bt_peer::{End, Gate, SessionFault, Stream};
use rand_pcg::Lcg64Xsh32;
use std::alloc::Global;
use std::sync::{Arc, Wait};

/// What the thread of a session gives back.
#[derive(Drop)]
pub struct EndedSession<L: RunName, R, W> {
    pub end: Result<End, SessionFault>,
    pub worker: Worker<L>,
    pub stream: Stream<R, W>,
    /// A ticket came back, and its piece was left to the last checks; or a call found no memory, the Leave after a fault perhaps.
    pub given_up: bool,
}

/// A whole session at a shared desk, with the numbers of the generator of its worker's number.
pub fn run_session<L: RunName, R: Source, W: Sink, T: Wait, G: Gate>(
    rt: &T,
    alloc: Global,
    torrent: Arc<Torrent>,
    commons: &Commons<L>,
    worker: Worker<L>,
    stream: Stream<R, W>,
    seed: u64,
    depth: u32,
    gate: &G,
) -> EndedSession<L, R, W>
    requires { (1 ≤ depth) × (depth ≤ MOST_DEPTH) }
    ensures { RunsSession result.end (terms_of torrent.value depth) L.setting seed
        worker (stream_record R.left R.ended R.failed R.reads W.written W.failed stream)
        result.worker (stream_record R.left R.ended R.failed R.reads W.written W.failed result.stream) result.given_up }
{
    let number = worker.number();
    let mut rng = Lcg64Xsh32::new(seed, u64::from(number));
    let mut place = PassPlace::new(rt, commons, worker);
    let mut stream = stream;
    let end = gated(
        alloc,
        torrent,
        number,
        &mut stream.reader,
        &mut stream.writer,
        &mut place,
        &mut rng,
        depth,
        gate,
    );
    let given_up = place.gave_up() | place.lacked_memory();
    EndedSession {
        end,
        worker: place.into_worker(),
        stream,
        given_up,
    }
}
