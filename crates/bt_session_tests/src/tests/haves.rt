//! A session in a thread that tells of a finished piece while it runs.

use super::made::{PEER, RULES, had_memory, peer, torrent};
use bt_meta::{DeviceFault, Sink, Source};
use bt_session::{OpenGate, Stream, SwarmRun, swarm};
use std::alloc::Global;
use std::process::Abort;
use std::sync::Wait;
use std::sync::atomic::{AtomicBool, Ordering};
use std::test::Fail;
use std::thread;
use std::thread::Threads;

/// The have of the first piece.
const HAVE: [u8; 9] = [0, 0, 0, 5, 4, 0, 0, 0, 0];

/// A sink that notes when it has taken the have.
#[derive(Drop)]
struct Listening<'a> {
    told: &'a AtomicBool,
}

impl Sink for Listening<'_> {
    ghost use Rattle.std.specs.Prelude.{None, false};

    ghost written = { λ _. None };

    ghost failed = { λ _. false };

    fn write(&mut self, bytes: &[u8]) -> Result<usize, DeviceFault> {
        if bytes == HAVE.as_slice() {
            self.told.store(true, Ordering::SeqCst);
        }
        Ok(bytes.len())
    }
}

/// A source that gives its bytes and behind them a keepalive at each read, until the have was told or so many keepalives were given.
#[derive(Drop)]
struct Patient<'a> {
    rest: &'a [u8],
    told: &'a AtomicBool,
    keepalives: u32,
    reads: u64,
    ended: bool,
}

/// A keepalive, after others had time to run; or the end.
fn keepalive(left: &mut u32, told: &AtomicBool) -> &'static [u8] {
    if *left == 0 || told.load(Ordering::SeqCst) {
        return &[];
    }
    *left -= 1;
    for _ in 0..100 {
        thread::yield_now();
    }
    &[0; 4]
}

impl Source for Patient<'_> {
    ghost use Rattle.std.specs.Prelude.{None, false};

    ghost left = { λ _. None };

    ghost failed = { λ _. false };

    ghost ended = { λ s. s.ended };

    ghost reads = { λ s. s.reads };

    fn read(&mut self, room: &mut [u8]) -> Result<usize, DeviceFault> {
        self.reads = self.reads.saturating_add(1);
        if room.is_empty() {
            return Ok(0);
        }
        if self.rest.is_empty() {
            self.rest = keepalive(&mut self.keepalives, self.told);
        }
        let size = self.rest.len().min(room.len());
        let (sip, rest) = self.rest.split_at(size);
        for (to, from) in room.iter_mut().zip(sip) {
            *to = *from;
        }
        self.rest = rest;
        self.ended |= size == 0;
        Ok(size)
    }
}

/// A run of one piece and of one peer that sends this, then keepalives.
fn run<'a, T: Threads + Wait + Sync>(
    rt: &T,
    alloc: Global,
    sent: &'a [u8],
    told: &'a AtomicBool,
) -> Result<SwarmRun<Patient<'a>, Listening<'a>>, Fail> {
    let reader = Patient {
        rest: sent,
        told,
        keepalives: 10_000,
        reads: 0,
        ended: false,
    };
    let writer = Listening { told };
    let torrent = torrent(alloc)?;
    let streams = Vec::from_array(alloc, [Stream { reader, writer }])?;
    let run = swarm(rt, alloc, torrent, streams, 0, RULES, 1, &OpenGate)?;
    had_memory(run.short, &run.ends)?;
    Ok(run)
}

/// Checks that the session ended well, and that all is had.
fn ended_well(rt: &impl Abort, run: &SwarmRun<Patient<'_>, Listening<'_>>) {
    assert!(rt; run.ends.len() == 1);
    assert!(rt; run.ends[0].is_ok());
    assert!(rt; run.book.desk.picker().is_complete());
    assert!(rt; !run.short);
}

/// The piece is checked by another thread while the peer sends nothing but keepalives, and the session tells the peer that it is there.
#[test]
fn have_while_running(rt: HostRuntime) -> Result<(), Fail> {
    let told = AtomicBool::new(false);
    let sent = peer(rt.alloc(), 1, &PEER)?;
    let run = run(&rt, rt.alloc(), &sent, &told)?;
    assert!(rt; told.load(Ordering::SeqCst));
    ended_well(&rt, &run);
    Ok(())
}
