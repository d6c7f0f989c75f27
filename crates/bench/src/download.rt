//! A whole download, block by block, in rounds of the peers' turns.

ghost use Rattle.std.specs.Prelude.{◌<◌};

use crate::mix::Mix;
use crate::stretches::Stretches;
use crate::swarm::{PEERS, Swarm, Workload, ZEROS};
use anyhow::{Result, bail};
use bt_meta::{BLOCK_SIZE, Bitfield, Block};
use bt_picker::{Call, MOST_DEPTH, Reply};
use bytes::Bytes;
use std::alloc::Global;
use std::time::{CpuClock, Duration};

/// Where the numbers of the asks begin.
const SEED: u64 = 2;

/// The rounds of a stretch: some thousand asks, half a millisecond.
const STRETCH: u32 = 20;

/// What was done so far.
#[derive(Clone, Copy)]
pub struct Counts {
    /// Calls of Next.
    pub asks: u64,
    /// Those that gave a block.
    pub requests: u64,
    /// Pieces that were checked and had their hash.
    pub had: u32,
}

#[derive(Clone, Copy)]
struct Peer {
    /// It may still have something for us.
    active: bool,
    /// Its last ask gave no block.
    dry: bool,
}

/// The swarm, and what the rounds go by.
pub struct Download {
    swarm: Swarm<PEERS>,
    workload: Workload,
    rng: Mix,
    peers: Vec<Peer>,
    counts: Counts,
    settling: Duration,
    trace: Option<String>,
}

/// The end of a download is one call for whoever owns one.
impl Drop for Download {
    fn drop(self) {
        let Download {
            swarm: _swarm,
            workload: _,
            rng: _rng,
            peers: _peers,
            counts: _,
            settling: _,
            trace: _trace,
        } = self;
    }
}

impl Download {
    /// With no peer yet. Where there is a text, each request is written behind it.
    pub fn new(alloc: Global, workload: Workload, trace: Option<String>) -> Result<Download> {
        let fresh = Peer {
            active: true,
            dry: false,
        };
        Ok(Download {
            swarm: Swarm::new(alloc, &workload)?,
            workload,
            rng: Mix::new(SEED),
            peers: vec![in alloc; fresh; PEERS as usize]?,
            counts: Counts {
                asks: 0,
                requests: 0,
                had: 0,
            },
            settling: Duration::ZERO,
            trace,
        })
    }

    pub fn counts(&self) -> Counts {
        self.counts
    }

    /// The processor time in which pieces were checked, which is hashing nearly all of it.
    pub fn settling(&self) -> Duration {
        self.settling
    }

    /// The requests so far, where they are written: a line of worker, piece and block for each.
    pub fn trace(&self) -> Option<&str> {
        self.trace.as_ref().map(|trace| trace.as_str())
    }

    /// All peers come.
    pub fn join(&mut self, shown: Vec<Bitfield>) -> Result<()> {
        self.swarm.come(shown)
    }

    /// All peers go.
    pub fn leave(&mut self) -> Result<()> {
        self.swarm.leave()
    }

    /// Rounds until all pieces are had, or the asks are made. Each stretch of them is noted, without its checks and what it takes to read the
    /// clock for those.
    pub fn run<C: CpuClock>(
        &mut self,
        rt: &C,
        alloc: Global,
        reading: Duration,
        stretches: &mut Stretches,
    ) -> Result<()> {
        stretches.restart();
        for _ in 0..u64::MAX {
            if self.is_done() {
                return Ok(());
            }
            let (settling, had) = (self.settling, self.counts.had);
            let start = rt.thread_cpu_time()?;
            self.rounds(rt, alloc)?;
            let took = rt.thread_cpu_time()?.saturating_sub(start);
            let checks = self.settling.saturating_sub(settling);
            let readings = reading.saturating_mul(self.counts.had.saturating_sub(had));
            stretches.note(took.saturating_sub(checks.saturating_add(readings)))?;
        }
        Ok(())
    }

    /// The rounds of a stretch.
    fn rounds<C: CpuClock>(&mut self, rt: &C, alloc: Global) -> Result<()> {
        for _ in 0..STRETCH {
            if self.is_done() {
                return Ok(());
            }
            self.round(rt, alloc)?;
        }
        Ok(())
    }

    /// Whether all pieces are had, or the asks are made.
    fn is_done(&self) -> bool {
        self.has_all() || self.counts.asks >= self.workload.asks
    }

    fn has_all(&self) -> bool {
        self.counts.had >= self.workload.pieces
    }

    /// A turn of each peer that may still have something for us.
    fn round<C: CpuClock>(&mut self, rt: &C, alloc: Global) -> Result<()> {
        for worker in 0..PEERS {
            let is_active = match self.peers.get(worker as usize) {
                Some(peer) => peer.active,
                None => false,
            };
            if is_active && !self.has_all() {
                self.turn(rt, alloc, worker)?;
            }
        }
        Ok(())
    }

    /// The peer sends a block if its pipe is full or its last ask gave none; then it is asked.
    fn turn<C: CpuClock>(&mut self, rt: &C, alloc: Global, worker: u32) -> Result<()>
        requires { worker < 51 }
    {
        if let Some(block) = self.due(worker) {
            self.arrive(rt, alloc, worker, block)?;
        }
        let reply = self.ask(worker)?;
        if let Some(peer) = self.peers.get_mut(worker as usize) {
            peer.dry = !matches!(reply, Reply::Request(_));
            peer.active = reply != Reply::NothingLeft;
        }
        if let Reply::Request(block) = reply {
            self.note(worker, block)?;
            if self.workload.depth == 0 {
                self.arrive(rt, alloc, worker, block)?;
            }
        }
        Ok(())
    }

    /// The oldest block that is asked of the peer, if it comes in this turn.
    fn due(&self, worker: u32) -> Option<Block>
        requires { worker < 51 }
    {
        let line = self.swarm.outstanding(worker);
        let is_dry = match self.peers.get(worker as usize) {
            Some(peer) => peer.dry,
            None => false,
        };
        if is_dry || line.len() as u64 >= u64::from(self.workload.depth) {
            line.first().copied()
        } else {
            None
        }
    }

    /// What the desk says next of the peer, all cancels left out.
    fn ask(&mut self, worker: u32) -> Result<Reply>
        requires { worker < 51 }
    {
        for _ in 0..=MOST_DEPTH {
            self.counts.asks = self.counts.asks.saturating_add(1);
            let reply = self.swarm.call(worker, Call::Next(self.rng.next_word()))?;
            if !matches!(reply, Reply::Cancel(_)) {
                return Ok(reply);
            }
        }
        bail!("more cancels are due than blocks may be asked")
    }

    fn note(&mut self, worker: u32, block: Block) -> Result<()> {
        self.counts.requests = self.counts.requests.saturating_add(1);
        if let Some(trace) = &mut self.trace {
            let Block { piece, begin, .. } = block;
            let place = begin / BLOCK_SIZE;
            writeln!(trace, "{worker} {piece} {place}")?;
        }
        Ok(())
    }

    /// The peer sends the block; a piece that it completes is checked.
    fn arrive<C: CpuClock>(
        &mut self,
        rt: &C,
        alloc: Global,
        worker: u32,
        block: Block,
    ) -> Result<()>
        requires { worker < 51 }
    {
        let call = Call::Arrived {
            piece: block.piece,
            begin: block.begin,
            bytes: Bytes::from_static(&ZEROS),
        };
        if self.swarm.call(worker, call)? == Reply::Completed {
            let start = rt.thread_cpu_time()?;
            let reply = self.swarm.settle_now(alloc, worker, block.piece)?;
            let took = rt.thread_cpu_time()?.saturating_sub(start);
            self.settling = self.settling.saturating_add(took);
            if reply == Reply::Had {
                self.counts.had = self.counts.had.saturating_add(1);
            }
        }
        Ok(())
    }
}
