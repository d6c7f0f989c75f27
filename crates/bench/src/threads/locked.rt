//! The same picker under std's mutex, to compare with: no pass goes with it, and a thread says which worker it is.

use super::hammer::{Tally, rules_for};
use crate::swarm::{ZEROS, full, torrent};
use anyhow::{Result, ensure};
use bt_picker::{Picker, Reply, Told};
use std::alloc::Global;
use std::sync::{Arc, Mutex, Wait};
use std::time::Clock;

/// A picker of so many pieces.
pub fn open(alloc: Global, threads: u32, pieces: u32) -> Result<Mutex<Picker>> {
    ensure!(1 <= threads && threads <= 1024, "from 1 to 1,024 threads");
    let torrent = torrent(alloc, pieces)?;
    let rules = rules_for(&torrent);
    let picker = Picker::new(alloc, Arc::new(alloc, torrent)?, threads, rules)?;
    Ok(Mutex::new(picker))
}

/// A peer that has all pieces comes, and so many of its blocks are asked for, each brought at once. None where a call had another reply, or
/// the clock can't be read.
pub fn hammer<R: Wait + Clock>(
    rt: &R,
    alloc: Global,
    picker: &Mutex<Picker>,
    worker: u32,
    pieces: u32,
    pairs: u32,
) -> Option<Tally> {
    let shown = full(alloc, pieces).ok()?;
    told(rt, picker, worker, Told::Join);
    told(rt, picker, worker, Told::Bits(&shown));
    told(rt, picker, worker, Told::Unchoke);
    ask_and_bring_each(rt, picker, worker, pairs)
}

/// Asks for so many blocks and brings each.
fn ask_and_bring_each<R: Wait + Clock>(
    rt: &R,
    picker: &Mutex<Picker>,
    worker: u32,
    pairs: u32,
) -> Option<Tally> {
    let mut tally = Tally::default();
    let mut last = rt.monotonic().ok()?;
    for pair in 0..pairs {
        ask_and_bring(rt, picker, worker, pair)?;
        let now = rt.monotonic().ok()?;
        tally = tally.with(Tally {
            calls: 2,
            longest: now.saturating_sub(last),
        });
        last = now;
    }
    Some(tally)
}

/// Asks for a block and brings it.
fn ask_and_bring<R: Wait>(rt: &R, picker: &Mutex<Picker>, worker: u32, pair: u32) -> Option<()> {
    let Reply::Request(block) = told(rt, picker, worker, Told::Next(u64::from(pair))) else {
        return None;
    };
    let arrived = Told::Arrived {
        piece: block.piece,
        begin: block.begin,
        bytes: &ZEROS,
    };
    match told(rt, picker, worker, arrived) {
        Reply::Stored | Reply::Completed => Some(()),
        _ => None,
    }
}

/// A call under the mutex.
fn told<R: Wait>(rt: &R, picker: &Mutex<Picker>, worker: u32, what: Told<'_>) -> Reply {
    picker.lock(rt).tell(worker, what)
}
