//! Checkers in threads of their own.

ghost use Rattle.std.specs.Prelude.{◌≡◌, ◌≤◌, [], map, length, vec_len, vec_capacity, IfOk, IfErr, OnOk};
ghost use Rattle.bt_session.specs.Checking.{ChecksTickets};
ghost use Rattle.bt_session.specs.declared.fault.SwarmFault.TheVariants.{NoThread};

use crate::checker::{StoppedChecker, check_pieces};
use crate::commons::{Commons, Worker};
use crate::fault::SwarmFault;
use crate::run_name::RunName;
use bt_check::Ticket;
use std::alloc::Global;
use std::snapshot::Snapshot;
use std::sync::Wait;
use std::thread;
use std::thread::{Promise, PromisedHandle, Threads};

/// What the thread of a checker promises of what it gives back: its worker made checks alone, and saw to what it took.
#[derive(Drop)]
pub struct CheckOf<L: RunName> {
    pub worker: Snapshot<Worker<L>>,
}

impl<L: RunName> Promise<StoppedChecker<L>> for CheckOf<L> {
    ghost kept_by = { λ p r. ChecksTickets L.setting p.worker.value r.given_up r.worker };
}

/// Starts the thread of a checker.
fn start<'s, 'e, L: RunName + Send + Sync + 'e, T: Threads + Wait + Sync + 'e>(
    rt: &'e T,
    alloc: Global,
    scope: &thread::Scope<'s, &'e ()>,
    commons: &'e Commons<L>,
    worker: Worker<L>,
) -> Result<PromisedHandle<StoppedChecker<L>, CheckOf<L>>, SwarmFault>
    ensures worker { IfOk result (λ h. h.promise.worker.value ≡ worker) }
    ensures err { IfErr result (λ fault. fault ≡ NoThread) }
{
    let promise = CheckOf {
        worker: Snapshot::of(&worker),
    };
    let job = move || -> StoppedChecker<L>
        ensures { ChecksTickets L.setting worker result.given_up result.worker }
    { check_pieces(rt, alloc, commons, worker) };
    match scope.spawn_with(promise, job) {
        Ok(handle) => Ok(handle),
        Err(_) => Err(SwarmFault::NoThread),
    }
}

/// Starts a thread for each checker. Where one can't be started, the handles are of those that run.
pub fn start_checkers<'s, 'e, L: RunName + Send + Sync + 'e, T: Threads + Wait + Sync + 'e>(
    rt: &'e T,
    alloc: Global,
    scope: &thread::Scope<'s, &'e ()>,
    commons: &'e Commons<L>,
    workers: Vec<Worker<L>>,
    handles: &mut Vec<PromisedHandle<StoppedChecker<L>, CheckOf<L>>>,
) -> Result<(), SwarmFault>
    requires room { (handles.old.items ≡ []) × (length workers.items ≤ vec_capacity handles.old) }
    ensures few { length handles.new.items ≤ length workers.items }
    ensures workers { OnOk result (map (λ h. h.promise.worker.value) handles.new.items ≡ workers.items) }
    ensures err { IfErr result (λ fault. fault ≡ NoThread) }
{
    for worker in workers {
        let handle = start(rt, alloc, scope, commons, worker)?;
        handles.push_reserved(handle);
    }
    Ok(())
}

/// Tells so many checkers to stop, in the name of this worker. Whether each was told.
pub fn stop<L: RunName, T: Wait>(
    rt: &T,
    commons: &Commons<L>,
    worker: &mut Worker<L>,
    checkers: usize,
) -> bool
    ensures { (worker.new.pass ≡ worker.old.pass) × (worker.new.seat ≡ worker.old.seat) }
{
    let mut told = true;
    for _ in 0..checkers {
        told &= commons.puts(rt, worker, Ticket::Stop);
    }
    told
}
