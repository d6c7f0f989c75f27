//! What the thread of a checker does.

ghost use Rattle.bt_session.specs.Checking.{ChecksTickets};

use crate::commons::{Commons, Worker};
use crate::run_name::RunName;
use std::alloc::Global;
use std::sync::Wait;

/// What the thread of a checker gives back.
#[derive(Drop)]
pub struct StoppedChecker<L: RunName> {
    pub worker: Worker<L>,
    /// A check was given up for want of memory.
    pub given_up: bool,
}

/// Sees to the pieces of the tickets that it takes, until it is told to stop.
///
/// A checker that found fewer than four pieces keeps its turn while it hashes them. So the next ones gather meanwhile, and are hashed side by
/// side. One that found four gives the turn on at once: where as many wait, another checker takes them.
pub fn check_pieces<L: RunName, T: Wait>(
    rt: &T,
    alloc: Global,
    commons: &Commons<L>,
    worker: Worker<L>,
) -> StoppedChecker<L>
    ensures { ChecksTickets L.setting worker result.given_up result.worker }
{
    let mut worker = worker;
    let mut given_up = false;
    for _ in rt.forever() {
        let turn = commons.turn(rt);
        let round = commons.next_round(rt, &mut worker);
        let kept = (!round.pieces.is_full()).then_some(turn);
        given_up |= commons.check_all(rt, alloc, &mut worker, round.pieces.as_slice());
        drop(kept);
        if round.is_last {
            break;
        }
    }
    StoppedChecker { worker, given_up }
}
