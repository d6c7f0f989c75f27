//! Sessions in threads of their own.

ghost use Rattle.std.specs.Prelude.{◌≡◌, ◌≤◌, [], All, map, length, vec_len, vec_capacity, IfOk, IfErr, OnOk};
ghost use Rattle.std.specs.PromisedHandle.{KeepsEach};
ghost use Rattle.bt_peer.specs.Serial.{stream_record};
ghost use Rattle.bt_peer.specs.SessionTerms.{terms_of};
ghost use Rattle.bt_session.specs.Runs.{IsRunFault, RunsSession};
ghost use Rattle.bt_session.specs.declared.fault.SwarmFault.TheVariants.{NoThread};

use crate::commons::{Commons, Worker};
use crate::fault::SwarmFault;
use crate::plan::Plan;
use crate::run_name::RunName;
use crate::session_thread::{EndedSession, run_session};
use bt_history::MOST_DEPTH;
use bt_meta::{Sink, Source, Torrent};
use bt_peer::{Gate, Stream};
use std::alloc::Global;
use std::snapshot::Snapshot;
use std::sync::{Arc, Wait};
use std::thread;
use std::thread::{Promise, PromisedHandle, Threads};

/// What the thread of a session promises of what it gives back: a session of this torrent, to this depth and with this seed, from the worker
/// and the stream that were handed to it.
#[derive(Drop)]
pub struct SessionOf<L: RunName, R, W> {
    pub torrent: Snapshot<Arc<Torrent>>,
    pub depth: u32,
    pub seed: u64,
    pub worker: Snapshot<Worker<L>>,
    pub stream: Snapshot<Stream<R, W>>,
}

impl<L: RunName, R: Source, W: Sink> Promise<EndedSession<L, R, W>> for SessionOf<L, R, W> {
    ghost kept_by = { λ p r. RunsSession r.end (terms_of p.torrent.value.value p.depth) L.setting p.seed
        p.worker.value (stream_record R.left R.ended R.failed R.reads W.written W.failed p.stream.value)
        r.worker (stream_record R.left R.ended R.failed R.reads W.written W.failed r.stream) r.given_up };
}

/// Starts the thread of a session.
fn start<
    's,
    'e,
    L: RunName + Send + Sync + 'e,
    R: Source + Send + Drop + 'e,
    W: Sink + Send + Drop + 'e,
    T: Threads + Wait + Sync + 'e,
    G: Gate + Sync + 'e,
>(
    rt: &'e T,
    alloc: Global,
    scope: &thread::Scope<'s, &'e ()>,
    torrent: Arc<Torrent>,
    commons: &'e Commons<L>,
    worker: Worker<L>,
    stream: Stream<R, W>,
    plan: Plan,
    gate: &'e G,
) -> Result<PromisedHandle<EndedSession<L, R, W>, SessionOf<L, R, W>>, SwarmFault>
    requires { (1 ≤ plan.rules.depth) × (plan.rules.depth ≤ MOST_DEPTH) }
    ensures terms { IfOk result (λ h.
        terms_of h.promise.torrent.value.value h.promise.depth ≡ terms_of torrent.value plan.rules.depth) }
    ensures seed { IfOk result (λ h. h.promise.seed ≡ plan.seed) }
    ensures worker { IfOk result (λ h. h.promise.worker.value ≡ worker) }
    ensures stream { IfOk result (λ h. h.promise.stream.value ≡ stream) }
    ensures err { IfErr result (λ fault. fault ≡ NoThread) }
{
    let promise = SessionOf {
        torrent: Snapshot::of(&torrent),
        depth: plan.rules.depth,
        seed: plan.seed,
        worker: Snapshot::of(&worker),
        stream: Snapshot::of(&stream),
    };
    let job = move || -> EndedSession<L, R, W>
        requires { (1 ≤ plan.rules.depth) × (plan.rules.depth ≤ MOST_DEPTH) }
        ensures { RunsSession result.end (terms_of torrent.value plan.rules.depth) L.setting plan.seed
            worker (stream_record R.left R.ended R.failed R.reads W.written W.failed stream)
            result.worker (stream_record R.left R.ended R.failed R.reads W.written W.failed result.stream) result.given_up }
    {
        run_session(
            rt,
            alloc,
            torrent,
            commons,
            worker,
            stream,
            plan.seed,
            plan.rules.depth,
            gate,
        )
    };
    match scope.spawn_with(promise, job) {
        Ok(handle) => Ok(handle),
        Err(_) => Err(SwarmFault::NoThread),
    }
}

/// Starts a thread for each session. Where one can't be started, the handles are of those that run.
pub fn start_sessions<
    's,
    'e,
    L: RunName + Send + Sync + 'e,
    R: Source + Send + Drop + 'e,
    W: Sink + Send + Drop + 'e,
    T: Threads + Wait + Sync + 'e,
    G: Gate + Sync + 'e,
>(
    rt: &'e T,
    alloc: Global,
    scope: &thread::Scope<'s, &'e ()>,
    commons: &'e Commons<L>,
    workers: Vec<Worker<L>>,
    streams: Vec<Stream<R, W>>,
    plan: Plan,
    gate: &'e G,
    handles: &mut Vec<PromisedHandle<EndedSession<L, R, W>, SessionOf<L, R, W>>>,
) -> Result<(), SwarmFault>
    requires count { length workers.items ≡ length streams.items }
    requires depth { (1 ≤ plan.rules.depth) × (plan.rules.depth ≤ MOST_DEPTH) }
    requires room { (handles.old.items ≡ []) × (length streams.items ≤ vec_capacity handles.old) }
    ensures few { length handles.new.items ≤ length streams.items }
    ensures terms { OnOk result (All
        (λ h. terms_of h.promise.torrent.value.value h.promise.depth ≡ terms_of commons.now plan.rules.depth) handles.new.items) }
    ensures seeds { OnOk result (All (λ h. h.promise.seed ≡ plan.seed) handles.new.items) }
    ensures workers { OnOk result (map (λ h. h.promise.worker.value) handles.new.items ≡ workers.items) }
    ensures streams { OnOk result (map (λ h. h.promise.stream.value) handles.new.items ≡ streams.items) }
    ensures err { IfErr result IsRunFault }
{
    let mut workers = workers.into_iter();
    for stream in streams {
        let Some(worker) = workers.next() else {
            unreachable!()
        };
        let handle = start(
            rt,
            alloc,
            scope,
            commons.torrent()?,
            commons,
            worker,
            stream,
            plan,
            gate,
        )?;
        handles.push_reserved(handle);
    }
    Ok(())
}

/// Joins each thread, in order. Takes no memory, and so joins all.
pub fn join_each<R: Threads, T: Drop, P: Promise<T>>(
    rt: &R,
    handles: Vec<PromisedHandle<T, P>>,
    all: &mut Vec<T>,
)
    requires empty { all.old.items ≡ [] }
    requires room { vec_len handles ≤ vec_capacity all.old }
    ensures len { vec_len all.new ≡ vec_len handles }
    ensures each { KeepsEach P.Promise (vec_len handles) handles.items all.new.items }
{
    for handle in handles {
        all.push_reserved(handle.join(rt));
    }
}
