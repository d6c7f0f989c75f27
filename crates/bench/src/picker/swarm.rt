//! The peers of the swarm, and the rounds of a download from them.

use super::zeros::Zeros;
use crate::mix::Mix;
use anyhow::Result;
use bt_meta::{Bitfield, Block};
use bt_picker::{Reply, USUAL_LEVEL};
use std::alloc::{AllocError, Global};

/// Where the numbers of the asks begin.
const ASK_SEED: u64 = 2;

/// One level above the usual one.
const RAISED: u8 = USUAL_LEVEL + 1;

/// In which order pieces are asked for.
#[derive(Clone, Copy, PartialEq, Eq)]
pub enum Manner {
    /// The rarest first, all pieces at one level.
    Rarest,
    /// The rarest first, every other piece one level up.
    Levelled,
    /// In rising order.
    InOrder,
    /// In rising order, the first piece that isn't had one level up: a reader waits for it.
    Streamed,
}

/// Whether a peer is still asked, and whether the last ask gave no block.
#[derive(Clone, Copy)]
struct Peer {
    active: bool,
    dry: bool,
}

/// What was counted.
#[derive(Clone, Copy)]
pub struct Counts {
    pub asks: u64,
    pub requests: u64,
    pub had: u32,
    /// A hash of all requests, in order (FNV-1a over worker, piece and block).
    pub picks: u64,
}

/// The picker and the peers that come to it.
#[derive(Drop)]
pub struct Swarm {
    zeros: Zeros,
    rng: Mix,
    peers: Vec<Peer>,
    counts: Counts,
    pieces: u32,
    depth: u32,
    manner: Manner,
    head: u32,
}

impl Swarm {
    /// With no peer yet, of so many. At most `depth` blocks are asked of each at a time, and one block of at most `askers` in endgame. While no
    /// more than `open` pieces are open, begun ones don't come first.
    pub fn new(
        alloc: Global,
        pieces: u32,
        peers: u32,
        depth: u32,
        askers: u32,
        open: u32,
    ) -> Result<Swarm> {
        let fresh = Peer {
            active: true,
            dry: false,
        };
        Ok(Swarm {
            zeros: Zeros::new(alloc, pieces, peers, depth, askers, open)?,
            rng: Mix::new(ASK_SEED),
            peers: vec![in alloc; fresh; peers as usize]?,
            counts: Counts {
                asks: 0,
                requests: 0,
                had: 0,
                picks: 0,
            },
            pieces,
            depth,
            manner: Manner::Rarest,
            head: 0,
        })
    }

    /// From now on pieces are asked for in this order.
    pub fn order(&mut self, manner: Manner) {
        self.manner = manner;
        match manner {
            Manner::Rarest => {}
            Manner::Levelled => self.raise_every_other(),
            Manner::InOrder => self.zeros.put_in_order(),
            Manner::Streamed => {
                self.zeros.put_in_order();
                self.zeros.put_level(0, RAISED);
            }
        }
    }

    /// Every other piece is one level up.
    fn raise_every_other(&mut self) {
        for piece in 0..self.pieces {
            if piece % 2 == 1 {
                self.zeros.put_level(piece, RAISED);
            }
        }
    }

    /// The reader goes on to the first piece that isn't had, if there is one.
    fn read_on(&mut self) {
        if let Some(piece) = self.zeros.first_lacking(self.head) {
            if piece != self.head {
                self.zeros.put_level(piece, RAISED);
            }
            self.head = piece;
        }
    }

    /// What was counted so far.
    pub fn counts(&self) -> Counts {
        self.counts
    }

    /// A peer comes, and shows these pieces.
    pub fn come(&mut self, worker: u32, shown: &Bitfield) {
        self.zeros.come(worker, shown);
        self.zeros.deepen(worker, self.depth);
    }

    /// Asks what to say to the first peer, and does nothing of it.
    #[inline(always)]
    pub fn ask_in_vain(&mut self) {
        let _nothing = self.zeros.next(0, self.rng.next_word());
    }

    /// Rounds until each piece is had.
    pub fn run(&mut self) {
        'rounds: for _ in 0..u64::MAX {
            if self.counts.had >= self.pieces {
                return;
            }
            self.round();
        }
    }

    /// A turn of each peer.
    fn round(&mut self) {
        for worker in 0..self.zeros.workers() {
            self.turn(worker);
        }
    }

    /// The peer's oldest block arrives where it has as many as it may, or the last ask gave none; then it is asked.
    #[inline(always)]
    fn turn(&mut self, worker: u32) {
        let Some(peer) = self.peers.get(worker as usize).copied() else {
            return;
        };
        if !peer.active || self.counts.had >= self.pieces {
            return;
        }
        let least = if peer.dry { 0 } else { self.depth };
        if let Some(block) = self.zeros.oldest(worker, least as usize) {
            self.arrive(worker, &block);
        }
        let reply = self.ask(worker);
        if let Reply::Request(block) = reply {
            self.count(worker, &block);
        }
        if let Some(peer) = self.peers.get_mut(worker as usize) {
            peer.dry = !matches!(reply, Reply::Request(_));
            peer.active = reply != Reply::NothingLeft;
        }
    }

    /// A request more.
    #[inline(always)]
    fn count(&mut self, worker: u32, block: &Block) {
        let named = (u64::from(worker) << 48)
            ^ (u64::from(block.piece) << 16)
            ^ u64::from(block.begin >> 14);
        self.counts.requests = self.counts.requests.wrapping_add(1);
        self.counts.picks = (self.counts.picks ^ named).wrapping_mul(0x0000_0100_0000_01B3);
    }

    /// The block came; a piece that it completes was hashed elsewhere.
    #[inline(always)]
    fn arrive(&mut self, worker: u32, block: &Block) {
        if self.zeros.arrive(worker, block) == Reply::Completed
            && self.zeros.settle(worker, block.piece) == Reply::Had
        {
            self.counts.had = self.counts.had.wrapping_add(1);
            if self.manner == Manner::Streamed {
                self.read_on();
            }
        }
    }

    /// Asks until the reply is no cancel: no more cancels are due at a peer than blocks may be asked of it.
    #[inline(always)]
    fn ask(&mut self, worker: u32) -> Reply {
        for _ in 0..=self.depth {
            self.counts.asks = self.counts.asks.wrapping_add(1);
            let reply = self.zeros.next(worker, self.rng.next_word());
            if !matches!(reply, Reply::Cancel(_)) {
                return reply;
            }
        }
        Reply::NothingLeft
    }
}
