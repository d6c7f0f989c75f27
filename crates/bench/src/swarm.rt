//! What is downloaded, and from whom.

ghost use Rattle.std.specs.Prelude.{◌≡◌, ◌<◌, ◌≤◌, IfOk};

use crate::mix::Mix;
use anyhow::{Result, ensure};
use bt_meta::{Bitfield, Block, Torrent};
use bt_picker::{Call, Desk, Job, MOST_DEPTH, MOST_TOLD_DEPTH, MOST_WORKERS, Reply, Rules};
use std::alloc::Global;
use std::sync::Arc;

/// The peers of the swarm; the last one is a seed.
pub const PEERS: u32 = 51;

/// The bytes of a piece: sixteen blocks.
pub const PIECE_LEN: u32 = 262_144;

/// The bytes of each block.
pub static ZEROS: [u8; 16384] = [0; 16384];

/// The SHA-1 of a piece of zero bytes.
pub const PIECE_HASH: [u8; 20] = [
    0x2e, 0x00, 0x0f, 0xa7, 0xe8, 0x57, 0x59, 0xc7, 0xf4, 0xc2, 0x54, 0xd4, 0xd9, 0xc3, 0x3e, 0xf4,
    0x81, 0xe4, 0x59, 0xa7,
];

/// Where the words of the bitfields begin.
const SEED: u64 = 1;

/// What is played.
#[derive(Clone, Copy)]
pub struct Workload {
    pub pieces: u32,
    /// A peer that is no seed shows a piece with the probability 1/2^density.
    pub density: u32,
    /// Blocks outstanding at a peer; with none, each block arrives as soon as it was asked for.
    pub depth: u32,
    /// No round begins once so many asks were made.
    pub asks: u64,
}

impl Workload {
    /// The desk for so many workers, with no peer yet.
    fn desk(&self, alloc: Global, workers: u32) -> Result<Desk>
        requires { (1 ≤ workers) × (workers ≤ 1024) }
        ensures { IfOk result (λ desk. desk.setting.workers ≡ workers) }
    {
        ensure!(self.depth <= MOST_DEPTH, "a depth is at most {MOST_DEPTH}");
        let torrent = torrent(alloc, self.pieces)?;
        let rules = Rules {
            depth: self.depth.max(1),
            random: torrent.piece_count().min(1),
            askers: MOST_WORKERS,
            deepest: MOST_DEPTH,
            open: 0,
            rush: MOST_TOLD_DEPTH,
            shown: false,
        };
        Ok(Desk::new(alloc, Arc::new(alloc, torrent)?, workers, rules)?)
    }

    /// What each peer shows, by their numbers.
    pub fn bitfields(&self, alloc: Global) -> Result<Vec<Bitfield>> {
        let mut rng = Mix::new(SEED);
        let mut shown = Vec::new(alloc);
        for _ in 1..PEERS {
            shown.push(self.bitfield(alloc, &mut rng)?)?;
        }
        shown.push(full(alloc, self.pieces)?)?;
        Ok(shown)
    }

    /// Pieces at random: 64 to a word, its low bit first.
    fn bitfield(&self, alloc: Global, rng: &mut Mix) -> Result<Bitfield> {
        let mut flags = Bitfield::empty(alloc, self.pieces)?;
        let mut word = 0;
        for piece in 0..self.pieces {
            if piece % 64 == 0 {
                word = sparse(rng, self.density);
            }
            if piece < flags.count() && (word >> (piece % 64)) & 1 == 1 {
                flags.set(piece);
            }
        }
        Ok(flags)
    }
}

/// So many pieces of zero bytes.
pub fn torrent(alloc: Global, pieces: u32) -> Result<Torrent> {
    let hashes = vec![in alloc; PIECE_HASH; pieces as usize]?;
    let total = u64::from(PIECE_LEN) * u64::from(pieces);
    Ok(Torrent::of_parts(PIECE_LEN, total, hashes, [0; 20])?)
}

/// A desk for so many workers, and the peers that come to it. What it is asked has no `ensures`: a caller knows of its answers alone, and its
/// proof is short.
pub struct Swarm<const WORKERS: u32> {
    desk: Desk,
    ghost workers: { desk.setting.workers ≡ WORKERS },
}

/// The end of a swarm is one call for whoever owns one.
impl<const WORKERS: u32> Drop for Swarm<WORKERS> {
    fn drop(self) {
        let Swarm { desk: _desk } = self;
    }
}

impl<const WORKERS: u32> Swarm<WORKERS> {
    /// With no peer yet.
    pub fn new(alloc: Global, workload: &Workload) -> Result<Swarm<WORKERS>>
        requires { (1 ≤ WORKERS) × (WORKERS ≤ 1024) }
    {
        Ok(Swarm {
            desk: workload.desk(alloc, WORKERS)?,
        })
    }

    /// What the desk says to the call.
    pub fn call(&mut self, worker: u32, call: Call) -> Result<Reply>
        requires { worker < WORKERS }
    {
        Ok(self.desk.call(worker, call)?)
    }

    /// What is asked of the peer, the oldest first.
    pub fn outstanding(&self, worker: u32) -> &[Block]
        requires { worker < WORKERS }
    {
        self.desk.outstanding(worker)
    }

    /// The pieces that are yet to be begun and that so many peers show.
    pub fn group(&self, shown_by: u32) -> &[u32]
        requires { shown_by ≤ WORKERS }
    {
        self.desk.group(shown_by)
    }

    /// Whether all pieces are had.
    pub fn is_complete(&self) -> bool {
        self.desk.picker().is_complete()
    }

    /// Whether all wanted pieces are had.
    pub fn has_wanted(&self) -> bool {
        self.desk.picker().has_wanted()
    }

    /// How many pieces are listed as had.
    pub fn finished(&self) -> usize {
        self.desk.finished().len()
    }

    /// A check of the piece, where it waits for one.
    pub fn job(&self, alloc: Global, piece: u32) -> Result<Option<Job>> {
        Ok(self.desk.job(alloc, piece)?)
    }

    /// Checks the piece at once.
    pub fn settle_now(&mut self, alloc: Global, worker: u32, piece: u32) -> Result<Reply>
        requires { worker < WORKERS }
    {
        Ok(self.desk.settle_now(alloc, worker, piece)?)
    }

    /// All peers come, with the last bitfield for the last peer.
    pub fn come(&mut self, mut shown: Vec<Bitfield>) -> Result<()>
        requires { 51 ≤ WORKERS }
    {
        for back in 0..PEERS {
            let worker = PEERS - 1 - back;
            self.call(worker, Call::Join)?;
            if let Some(flags) = shown.pop() {
                self.call(worker, Call::Bits(flags))?;
            }
            self.call(worker, Call::Unchoke)?;
        }
        Ok(())
    }

    /// All peers go.
    pub fn leave(&mut self) -> Result<()>
        requires { 51 ≤ WORKERS }
    {
        for worker in 0..PEERS {
            self.call(worker, Call::Leave)?;
        }
        Ok(())
    }
}

/// All pieces.
pub fn full(alloc: Global, pieces: u32) -> Result<Bitfield> {
    every(alloc, pieces, 1, 0)
}

/// The pieces whose number leaves this remainder.
pub fn every(alloc: Global, pieces: u32, step: u32, remainder: u32) -> Result<Bitfield> {
    let mut flags = Bitfield::empty(alloc, pieces)?;
    for piece in 0..pieces {
        if piece < flags.count() && piece % step.max(1) == remainder {
            flags.set(piece);
        }
    }
    Ok(flags)
}

/// A word each of whose bits is set with the probability 1/2^density.
fn sparse(rng: &mut Mix, density: u32) -> u64 {
    let mut word = u64::MAX;
    for _ in 0..density {
        word &= rng.next_word();
    }
    word
}
