//! From which level, and from how few peers on, each peer's search for a rarest piece has to look.

ghost use Rattle.std.specs.Prelude.{◌≡◌, ◌<◌, ◌≤◌, ◌-◌, ℕ, false, length, max, replicate, slice_index_or, slice_set, IfOk};
ghost use Rattle.bt_tables.specs.Orders.{at};
ghost use Rattle.bt_tables.specs.Floors.{AreFloors, AreFloorsBeside, AreLowered};
ghost use Rattle.bt_tables.specs.Tables.{peer_row};

use crate::peers::Peers;
use crate::pieces::Pieces;
use std::alloc::{AllocError, Global};
use std::marker::Model;

/// For each peer a number: it shows no unbegun wanted piece that ranks before it, by level and then by how many peers show the piece. What
/// is found out raises it, and what may bring such a piece lowers it. Contracts see the list of these numbers, by worker.
#[derive(Drop)]
pub struct Floors {
    floors: Vec<u32>,
}

impl Model for Floors {
    ghost use Rattle.std.specs.Prelude.{List, ℕ};

    ghost Value = { List ℕ };

    ghost view = { λ f. f.floors.items };
}

impl Floors {
    /// Floors of so many peers of which nothing is known.
    pub fn new(alloc: Global, workers: u32) -> Result<Floors, AllocError>
        ensures { IfOk result (λ floors. floors ≡ replicate workers 0) }
    {
        Ok(Floors {
            floors: vec![in alloc; 0; workers as usize]?,
        })
    }

    /// The floor of the worker's peer.
    pub fn of(&self, worker: u32) -> u32
        requires { worker < length self.now }
        ensures { result ≡ at self.now worker }
    {
        self.floors[worker as usize]
    }

    /// The worker's peer has this floor.
    pub fn put(&mut self, worker: u32, floor: u32)
        requires { worker < length self.old }
        ensures { self.new ≡ slice_set self.old worker floor }
    {
        self.floors[worker as usize] = floor;
    }

    /// The worker's peer has this floor, or a higher one.
    pub fn raise(&mut self, worker: u32, floor: u32)
        requires { worker < length self.old }
        ensures { self.new ≡ slice_set self.old worker (max floor (at self.old worker)) }
    {
        self.put(worker, floor.max(self.of(worker)));
    }

    /// Nothing is known of any peer.
    pub fn clear(&mut self)
        ensures { self.new ≡ replicate (length self.old) 0 }
    {
        self.floors.fill(0);
    }

    /// One peer less may show each piece.
    pub fn ease(&mut self)
        ensures len { length self.new ≡ length self.old }
        ensures each { (q : ℕ) → q < length self.old → at self.new q ≡ at self.old q - 1 }
    {
        for worker in 0..self.floors.len() {
            self.floors[worker] = self.floors[worker].saturating_sub(1);
        }
    }

    /// The piece may be unbegun now, and wasn't before.
    pub fn admit(&mut self, peers: &Peers, pieces: &Pieces, piece: u32)
        requires piece { piece < length pieces.now }
        requires beside { AreFloorsBeside piece self.old peers.now pieces.now }
        ensures { AreFloors self.new peers.now pieces.now }
    {
        if pieces.row(piece).is_fresh() {
            self.lower_for(peers, piece, pieces.rank(piece));
        }
    }

    /// The floor of each peer that shows the piece is so far behind at most.
    fn lower_for(&mut self, peers: &Peers, piece: u32, rank: u32)
        requires { length self.old ≡ length peers.now }
        ensures { AreLowered self.old self.new peers.now (length peers.now) piece rank }
    {
        for worker in 0..peers.len() {
            if shows(peers, worker, piece) {
                self.put(worker, self.of(worker).min(rank));
            }
        }
    }
}

/// Whether there is such a piece and the worker's peer shows it.
fn shows(peers: &Peers, worker: u32, piece: u32) -> bool
    requires { worker < length peers.now }
    ensures { result ≡ slice_index_or (peer_row peers.now worker).shows piece false }
{
    piece < peers.pieces() && peers.shows(worker, piece)
}
