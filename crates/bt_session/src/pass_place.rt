//! A worker's place at a desk that threads share.

ghost use Rattle.std.specs.Prelude.{◌≡◌, List, true, false, OnOk, OnErr};
ghost use Rattle.bt_peer.specs.Conduct.{SettlesAtOnce};
ghost use Rattle.bt_peer.specs.Acts.{Act};
ghost use Rattle.bt_peer.specs.Places.{Gains, LacksMemory};
ghost use Rattle.bt_peer.specs.Turns.{ChecksAtMost};
ghost use Rattle.bt_session.specs.Passes.{PutsTicket, worker_record};

use crate::commons::{Commons, Worker};
use crate::run_name::RunName;
use bt_check::Ticket;
use bt_peer::Place;
use bt_picker::{Call, Reply};
use std::alloc::{AllocError, Global};
use std::marker::Model;
use std::sync::Wait;

/// A worker's place at a desk that threads share. Its news is that of the worker's seat at the board; a completed piece is left to the
/// checkers, by a ticket.
#[derive(Drop)]
pub struct PassPlace<'a, L: RunName, T: Wait> {
    rt: &'a T,
    commons: &'a Commons<L>,
    worker: Worker<L>,
    lacked: bool,
    given_up: bool,
}

impl<'a, L: RunName, T: Wait> Model for PassPlace<'a, L, T> {
    ghost use Rattle.bt_session.specs.Passes.{PassPlaceState};

    ghost Value = { PassPlaceState };

    ghost view = { λ s. record { worker = s.worker; lacked = s.lacked; given_up = s.given_up } };
}

impl<'a, L: RunName, T: Wait> PassPlace<'a, L, T> {
    pub fn new(rt: &'a T, commons: &'a Commons<L>, worker: Worker<L>) -> PassPlace<'a, L, T>
        ensures past { ⟦<PassPlace<'a, L, T> as Place>⟧.past result ≡ worker_record L.setting worker false }
        ensures worker { (result.worker ≡ worker) × (result.given_up ≡ false) }
    {
        PassPlace {
            rt,
            commons,
            worker,
            lacked: false,
            given_up: false,
        }
    }

    /// Whether a ticket came back, so that its piece was left to the last checks.
    pub fn gave_up(&self) -> bool
        ensures { result ≡ self.now.given_up }
    {
        self.given_up
    }

    /// Whether a call has found no memory.
    pub fn lacked_memory(&self) -> bool
        ensures { result ≡ self.now.lacked }
    {
        self.lacked
    }

    /// The worker, with all calls made here and the news told.
    pub fn into_worker(self) -> Worker<L>
        ensures { result ≡ self.entry.worker }
    {
        let PassPlace {
            rt: _,
            commons: _,
            worker,
            lacked: _,
            given_up: _,
        } = self;
        worker
    }
}

impl<'a, L: RunName, T: Wait> Place for PassPlace<'a, L, T> {
    ghost past = { λ s. worker_record L.setting s.worker s.lacked };

    // A checker sees to the pieces that are completed here.
    ghost settles = { false };

    ghost awaits = { λ s piece. false };

    fn call(&mut self, call: Call) -> Result<Reply, AllocError> {
        match self.commons.call(self.rt, &mut self.worker, call) {
            Ok(reply) => Ok(reply),
            Err(e) => {
                self.lacked = true;
                Err(e)
            }
        }
    }

    fn news(&mut self) -> Option<u32> {
        self.commons.news(&mut self.worker)
    }

    fn completed(&mut self, _alloc: Global, piece: u32) -> Result<(), AllocError>
        ensures ok { OnOk result ((acts : List Act) × (ChecksAtMost piece acts
            × Gains (⟦<PassPlace<'a, L, T> as Place>⟧.past self.old) acts (⟦<PassPlace<'a, L, T> as Place>⟧.past self.new))) }
        ensures at_once { OnOk result (false ≡ true → false ≡ true →
            SettlesAtOnce piece (⟦<PassPlace<'a, L, T> as Place>⟧.past self.old).calls (⟦<PassPlace<'a, L, T> as Place>⟧.past self.new).calls) }
        ensures err { OnErr result (LacksMemory (⟦<PassPlace<'a, L, T> as Place>⟧.past self.old) (⟦<PassPlace<'a, L, T> as Place>⟧.past self.new)) }
        // A ticket of the piece is put, if none comes back.
        ensures puts { OnOk result (PutsTicket self.old piece self.new) }
    {
        if !self
            .commons
            .puts(self.rt, &mut self.worker, Ticket::Piece(piece))
        {
            self.given_up = true;
        }
        Ok(())
    }
}
