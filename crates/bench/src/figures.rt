//! What a download costs.

use crate::download::{Counts, Download};
use crate::stretches::Stretches;
use crate::swarm::{PEERS, PIECE_HASH, PIECE_LEN, Workload, ZEROS};
use anyhow::{Result, ensure};
use sha1::Sha1;
use std::alloc::Global;
use std::rt::Runtime;
use std::time::{CpuClock, Duration};
use std::{fmt, fs};

/// Of so many tries the quickest hash of a piece is taken: enough for some to go undisturbed on a busy machine.
const HASHES: u32 = 500;

/// Of so many readings of the clock the quickest is taken.
const READINGS: u32 = 1000;

/// Where Linux tells what a process takes.
const STATUS: &str = "/proc/self/status";

/// The processor times of a run, or the least ones of several.
#[derive(Clone, Copy)]
pub struct Times {
    /// The rounds, without the checks and without the readings of the clock that time those.
    asking: Duration,
    /// The checks.
    settling: Duration,
    /// All peers in.
    joins: Duration,
    /// All peers out.
    leaves: Duration,
    /// One reading of the clock.
    reading: Duration,
    /// The rounds again, each stretch of them by its least time in the runs so far.
    stretches: Duration,
}

impl Times {
    /// Of each time the lesser one.
    pub fn least(self, other: Times) -> Times {
        Times {
            asking: self.asking.min(other.asking),
            settling: self.settling.min(other.settling),
            joins: self.joins.min(other.joins),
            leaves: self.leaves.min(other.leaves),
            reading: self.reading.min(other.reading),
            stretches: self.stretches.min(other.stretches),
        }
    }
}

/// Plays a whole run: all peers come with their pieces, and go again once the rounds are played.
pub fn play<C: CpuClock>(
    rt: &C,
    alloc: Global,
    workload: Workload,
    download: &mut Download,
    stretches: &mut Stretches,
) -> Result<Times> {
    let reading = reading_time(rt)?;
    let shown = workload.bitfields(alloc)?;
    let start = rt.thread_cpu_time()?;
    download.join(shown)?;
    let joined = rt.thread_cpu_time()?;
    download.run(rt, alloc, reading, stretches)?;
    let ran = rt.thread_cpu_time()?;
    download.leave()?;
    let left = rt.thread_cpu_time()?;
    let settling = download.settling();
    // A check is timed from the middle of one reading to the middle of the next: the rest of both is one more.
    let readings = reading.saturating_mul(download.counts().had);
    let beside = settling.saturating_add(readings);
    Ok(Times {
        asking: ran.saturating_sub(joined).saturating_sub(beside),
        settling,
        joins: joined.saturating_sub(start),
        leaves: left.saturating_sub(ran),
        reading,
        stretches: stretches.sum(),
    })
}

/// The nanoseconds of a time.
pub fn nanos(time: Duration) -> u64 {
    u64::try_from(time.as_nanos()).unwrap_or(u64::MAX)
}

/// The processor time to read the clock, which is a call of the system.
pub fn reading_time<C: CpuClock>(rt: &C) -> Result<Duration> {
    let mut least = Duration::MAX;
    for _ in 0..READINGS {
        let start = rt.thread_cpu_time()?;
        let took = rt.thread_cpu_time()?.saturating_sub(start);
        least = least.min(took);
    }
    Ok(least)
}

/// The processor time to hash a block of 16 KiB: a sixteenth of a piece's.
pub fn hash_time<C: CpuClock>(rt: &C) -> Result<Duration> {
    let mut least = Duration::MAX;
    for _ in 0..HASHES {
        let start = rt.thread_cpu_time()?;
        let digest = piece_hash();
        let took = rt.thread_cpu_time()?.saturating_sub(start);
        ensure!(digest == PIECE_HASH, "a piece has another hash");
        least = least.min(took);
    }
    Ok(Duration::from_nanos(nanos(least) / 16))
}

/// Hashes a piece of zero bytes, block by block.
fn piece_hash() -> [u8; 20] {
    let mut hasher = Sha1::new();
    for _ in 0..PIECE_LEN as usize / ZEROS.len() {
        hasher.update(&ZEROS);
    }
    hasher.finalize()
}

/// The most memory that the process has held so far, in KiB, where the system tells it.
pub fn peak_memory<R: Runtime + AllocGlobal>(rt: &R) -> Option<u64> {
    let status = fs::read_to_string(rt, STATUS).ok()?;
    peak_in(&status)
}

/// The same in the text that the system tells.
fn peak_in(status: &str) -> Option<u64> {
    for line in status.lines() {
        if let Some(peak) = line.strip_prefix("VmHWM:") {
            return peak.split_whitespace().next()?.parse::<u64>().ok();
        }
    }
    None
}

/// The line of a workload's counts.
#[derive(Clone, Copy)]
pub struct CountLine {
    pub workload: Workload,
    pub counts: Counts,
}

impl fmt::Display for CountLine {
    fn fmt<W: fmt::Write>(&self, f: &mut fmt::Formatter<W>) -> fmt::Result {
        let Workload {
            pieces,
            density,
            depth,
            ..
        } = self.workload;
        let Counts {
            asks,
            requests,
            had,
        } = self.counts;
        write!(
            f,
            "pieces {pieces} density 1/2^{density} depth {depth}: asks {asks} requests {requests} had {had}"
        )
    }
}

/// The line of a workload's times.
#[derive(Clone, Copy)]
pub struct TimeLine {
    pub counts: Counts,
    pub times: Times,
    /// To hash a block.
    pub hash: Duration,
    /// In KiB, where it is known.
    pub peak: Option<u64>,
}

impl TimeLine {
    /// The counts of the other line, and of each time the lesser one.
    pub fn least(self, other: TimeLine) -> TimeLine {
        TimeLine {
            counts: other.counts,
            times: self.times.least(other.times),
            hash: self.hash.min(other.hash),
            peak: other.peak,
        }
    }
}

impl fmt::Display for TimeLine {
    fn fmt<W: fmt::Write>(&self, f: &mut fmt::Formatter<W>) -> fmt::Result {
        self.tell_asks(f)?;
        self.tell_rest(f)?;
        match self.peak {
            Some(peak) => write!(f, " peak_kib {peak}"),
            None => Ok(()),
        }
    }
}

impl TimeLine {
    /// An ask by both measures, and each beside a hash.
    fn tell_asks<W: fmt::Write>(&self, f: &mut fmt::Formatter<W>) -> fmt::Result {
        let asks = self.counts.asks.max(1);
        let asking = nanos(self.times.asking);
        let hash = nanos(self.hash).max(1);
        let least = nanos(self.times.stretches);
        let ask = asking / asks;
        let ratio = Ratio::of(asking, asks, hash);
        let least_ask = least / asks;
        let least_ratio = Ratio::of(least, asks, hash);
        write!(f, "ask_ns {ask} hash_ns {hash} ratio {ratio}")?;
        write!(f, " least_ns {least_ask} least_ratio {least_ratio}")
    }

    /// What was done beside the asks.
    fn tell_rest<W: fmt::Write>(&self, f: &mut fmt::Formatter<W>) -> fmt::Result {
        let reading = nanos(self.times.reading);
        let settling = nanos(self.times.settling);
        let join = nanos(self.times.joins) / u64::from(PEERS);
        let leave = nanos(self.times.leaves) / u64::from(PEERS);
        write!(
            f,
            " reading_ns {reading} settling_ns {settling} join_ns {join} leave_ns {leave}"
        )
    }
}

/// The time of an ask by the time to hash a block, in parts of ten thousand.
#[derive(Clone, Copy)]
struct Ratio(u64);

impl Ratio {
    /// Of so many asks that took this time together.
    fn of(time: u64, asks: u64, hash: u64) -> Ratio {
        Ratio(time.saturating_mul(10_000) / asks.saturating_mul(hash).max(1))
    }
}

impl fmt::Display for Ratio {
    fn fmt<W: fmt::Write>(&self, f: &mut fmt::Formatter<W>) -> fmt::Result {
        let whole = self.0 / 10_000;
        let part = self.0 % 10_000;
        write!(f, "{whole}.{part:04}")
    }
}
