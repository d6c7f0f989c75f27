//! A picker without a journal, and the calls of one thread.

ghost use Rattle.std.specs.Prelude.{◌≡◌, ◌≤◌, All, IfOk};
ghost use Rattle.bt_shared.specs.Passes.{IsSame};

use super::hammer::{Tally, rules_for};
use crate::swarm::{ZEROS, full, torrent};
use anyhow::{Result, ensure};
use bt_picker::{Reply, Told};
use bt_shared::{PickerPass, SharedPicker};
use std::alloc::Global;
use std::sync::{Arc, Wait};
use std::time::Clock;

/// A picker of so many pieces, and a pass for each thread.
pub fn open(alloc: Global, threads: u32, pieces: u32) -> Result<(SharedPicker, Vec<PickerPass>)>
    ensures { IfOk result (λ opened. All (λ pass. pass.table ≡ opened.0.table) opened.1.items) }
{
    ensure!(1 <= threads && threads <= 1024, "from 1 to 1,024 threads");
    let torrent = torrent(alloc, pieces)?;
    let rules = rules_for(&torrent);
    Ok(SharedPicker::open(alloc, Arc::new(alloc, torrent)?, threads, rules)?)
}

/// A peer that has all pieces comes, and so many of its blocks are asked for, each brought at once. None where a call had another reply, or
/// the clock can't be read.
pub fn hammer<R: Wait + Clock>(
    rt: &R,
    alloc: Global,
    picker: &SharedPicker,
    mut pass: PickerPass,
    pieces: u32,
    pairs: u32,
) -> Option<Tally>
    requires { pass.table ≡ picker.now.table }
{
    come(rt, alloc, picker, &mut pass, pieces)?;
    ask_and_bring_each(rt, picker, &mut pass, pairs)
}

/// Asks for so many blocks and brings each.
fn ask_and_bring_each<R: Wait + Clock>(
    rt: &R,
    picker: &SharedPicker,
    pass: &mut PickerPass,
    pairs: u32,
) -> Option<Tally>
    requires { pass.old.table ≡ picker.now.table }
{
    let mut tally = Tally::default();
    let mut last = rt.monotonic().ok()?;
    'pairs: for pair in 0..pairs {
        ask_and_bring(rt, picker, pass, pair)?;
        let now = rt.monotonic().ok()?;
        tally = tally.with(Tally {
            calls: 2,
            longest: now.saturating_sub(last),
        });
        last = now;
    }
    Some(tally)
}

/// A peer that has all pieces.
fn come<R: Wait>(
    rt: &R,
    alloc: Global,
    picker: &SharedPicker,
    pass: &mut PickerPass,
    pieces: u32,
) -> Option<()>
    requires { pass.old.table ≡ picker.now.table }
    ensures { IsSame pass.old pass.new }
{
    let shown = full(alloc, pieces).ok()?;
    told(rt, picker, pass, Told::Join);
    told(rt, picker, pass, Told::Bits(&shown));
    told(rt, picker, pass, Told::Unchoke);
    Some(())
}

/// Asks for a block and brings it.
fn ask_and_bring<R: Wait>(
    rt: &R,
    picker: &SharedPicker,
    pass: &mut PickerPass,
    pair: u32,
) -> Option<()>
    requires { pass.old.table ≡ picker.now.table }
    ensures { IsSame pass.old pass.new }
{
    let Reply::Request(block) = told(rt, picker, pass, Told::Next(u64::from(pair))) else {
        return None;
    };
    let arrived = Told::Arrived {
        piece: block.piece,
        begin: block.begin,
        bytes: &ZEROS,
    };
    match told(rt, picker, pass, arrived) {
        Reply::Stored | Reply::Completed => Some(()),
        _ => None,
    }
}

/// A call, of which the bench knows that the pass stays the picker's.
fn told<R: Wait>(rt: &R, picker: &SharedPicker, pass: &mut PickerPass, what: Told<'_>) -> Reply
    requires { pass.old.table ≡ picker.now.table }
    ensures { IsSame pass.old pass.new }
{
    picker.call(rt, pass, what)
}
