//! A desk, and the calls of one thread.

ghost use Rattle.std.specs.Prelude.{◌≡◌, ◌≤◌, All, IfOk};
ghost use Rattle.bt_history.specs.Setting.{AreRules};
ghost use Rattle.bt_shared.specs.Passes.{IsSame};

use crate::swarm::{ZEROS, full, torrent};
use anyhow::{Result, ensure};
use bt_meta::Torrent;
use bt_picker::{Call, MOST_DEPTH, MOST_TOLD_DEPTH, MOST_WORKERS, Reply, Rules};
use bt_shared::{Pass, SharedDesk};
use bytes::Bytes;
use std::alloc::Global;
use std::sync::{Arc, Wait};
use std::time::{Clock, Duration};

/// What calls took.
#[derive(Clone, Copy, Default)]
pub struct Tally {
    pub calls: u64,
    /// The longest that an ask took with its arrival.
    pub longest: Duration,
}

impl Tally {
    /// With those of another thread.
    pub fn with(self, other: Tally) -> Tally {
        Tally {
            calls: self.calls.saturating_add(other.calls),
            longest: self.longest.max(other.longest),
        }
    }
}

/// A desk of so many pieces, and a pass for each thread.
pub fn open(alloc: Global, threads: u32, pieces: u32) -> Result<(SharedDesk, Vec<Pass>)>
    ensures { IfOk result (λ opened. All (λ pass. pass.table ≡ opened.0.table) opened.1.items) }
{
    ensure!(1 <= threads && threads <= 1024, "from 1 to 1,024 threads");
    let torrent = torrent(alloc, pieces)?;
    let rules = rules_for(&torrent);
    Ok(SharedDesk::open(alloc, Arc::new(alloc, torrent)?, threads, rules)?)
}

/// The rules that threads are answered by.
pub fn rules_for(torrent: &Torrent) -> Rules
    ensures { AreRules torrent.now.layout result }
{
    Rules {
        depth: 5,
        random: torrent.piece_count().min(1),
        askers: MOST_WORKERS,
        deepest: MOST_DEPTH,
        open: 0,
        rush: MOST_TOLD_DEPTH,
        shown: false,
    }
}

/// Pieces of more blocks than so many threads ask for.
pub fn pieces_for(threads: u32, pairs: u32) -> Result<u32> {
    let blocks = u64::from(threads) * u64::from(pairs);
    Ok(u32::try_from(blocks / 16 + 1)?)
}

/// A peer that has all pieces comes, and so many of its blocks are asked for, each brought at once. None where a call found no memory or
/// had another reply, or the clock can't be read.
pub fn hammer<R: Wait + Clock>(
    rt: &R,
    alloc: Global,
    desk: &SharedDesk,
    mut pass: Pass,
    pieces: u32,
    pairs: u32,
) -> Option<Tally>
    requires { pass.table ≡ desk.now.table }
{
    come(rt, alloc, desk, &mut pass, pieces)?;
    ask_and_bring_each(rt, desk, &mut pass, pairs)
}

/// Asks for so many blocks and brings each.
fn ask_and_bring_each<R: Wait + Clock>(
    rt: &R,
    desk: &SharedDesk,
    pass: &mut Pass,
    pairs: u32,
) -> Option<Tally>
    requires { pass.old.table ≡ desk.now.table }
{
    let mut tally = Tally::default();
    let mut last = rt.monotonic().ok()?;
    'pairs: for pair in 0..pairs {
        ask_and_bring(rt, desk, pass, pair)?;
        let now = rt.monotonic().ok()?;
        tally = tally.with(Tally {
            calls: 2,
            longest: now.saturating_sub(last),
        });
        last = now;
    }
    Some(tally)
}

/// A peer that has all pieces.
fn come<R: Wait>(
    rt: &R,
    alloc: Global,
    desk: &SharedDesk,
    pass: &mut Pass,
    pieces: u32,
) -> Option<()>
    requires { pass.old.table ≡ desk.now.table }
    ensures { IsSame pass.old pass.new }
{
    let shown = full(alloc, pieces).ok()?;
    desk.call(rt, pass, Call::Join).ok()?;
    desk.call(rt, pass, Call::Bits(shown)).ok()?;
    desk.call(rt, pass, Call::Unchoke).ok()?;
    Some(())
}

/// Asks for a block and brings it.
fn ask_and_bring<R: Wait>(rt: &R, desk: &SharedDesk, pass: &mut Pass, pair: u32) -> Option<()>
    requires { pass.old.table ≡ desk.now.table }
    ensures { IsSame pass.old pass.new }
{
    let Reply::Request(block) = desk.call(rt, pass, Call::Next(u64::from(pair))).ok()? else {
        return None;
    };
    let arrived = Call::Arrived {
        piece: block.piece,
        begin: block.begin,
        bytes: Bytes::from_static(&ZEROS),
    };
    match desk.call(rt, pass, arrived).ok()? {
        Reply::Stored | Reply::Completed => Some(()),
        _ => None,
    }
}
