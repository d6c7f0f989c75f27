//! The tickets that a checker takes at once.

ghost use Rattle.bt_session.specs.PieceChecks.{TakesRound};

use crate::commons::{Commons, Worker};
use crate::run_name::RunName;
use arrayvec::ArrayVec;
use bt_check::Ticket;
use std::sync::Wait;

/// What a checker took at once.
#[derive(Drop)]
pub struct Round {
    /// The pieces of the tickets, in order.
    pub pieces: ArrayVec<u32, 4>,
    /// No further ticket is for the checker.
    pub is_last: bool,
}

impl<L: RunName> Commons<L> {
    /// Takes a ticket, for which it waits, and up to three more that are there: a piece doesn't wait for others to be hashed with.
    pub fn next_round<T: Wait>(&self, rt: &T, worker: &mut Worker<L>) -> Round
        ensures { TakesRound worker.old result.pieces.items result.is_last worker.new }
    {
        let mut pieces = ArrayVec::new();
        let Some(first) = self.next_piece(rt, worker) else {
            return Round {
                pieces,
                is_last: true,
            };
        };
        pieces.push(first);
        for _ in 1..4u32 {
            match self.ticket_at_hand(rt, worker) {
                Some(Ticket::Piece(piece)) => pieces.push(piece),
                Some(Ticket::Stop) => {
                    return Round {
                        pieces,
                        is_last: true,
                    };
                }
                None => {
                    return Round {
                        pieces,
                        is_last: false,
                    };
                }
            }
        }
        Round {
            pieces,
            is_last: false,
        }
    }
}
