//! Threads that share a desk, then a picker, and then one under std's mutex: each asks for a block and brings it, again and again.

ghost use Rattle.std.specs.Prelude.{◌≡◌, All};

mod hammer;
mod locked;
mod picking;

use crate::figures::nanos;
use anyhow::{Context, Result};
use bt_shared::{Pass, PickerPass, SharedDesk, SharedPicker};
use hammer::{Tally, hammer, open, pieces_for};
use std::rt::Runtime;
use std::sync::Wait;
use std::thread;
use std::thread::Threads;
use std::time::{Clock, Duration};

/// The threads, and what they do.
#[derive(Clone, Copy)]
pub struct Crowd {
    pub threads: u32,
    /// How often each asks for a block and brings it.
    pub pairs: u32,
    /// The times are wanted too.
    pub times: bool,
}

/// Lets the threads call a desk, then a picker, and then one under a mutex, and prints what is wanted of it.
pub fn time_threads<R: Runtime + AllocGlobal + Clock + Threads + Wait + Sync>(
    rt: &R,
    crowd: Crowd,
) -> Result<()> {
    let (tally, took) = call_together(rt, crowd)?;
    print_row(rt, "", crowd, tally, took)?;
    let (tally, took) = call_picker_together(rt, crowd)?;
    print_row(rt, "picker ", crowd, tally, took)?;
    let (tally, took) = call_locked_together(rt, crowd)?;
    print_row(rt, "mutex ", crowd, tally, took)
}

/// Prints the counts, and the times where they are wanted.
fn print_row<R: Runtime>(
    rt: &R,
    of: &str,
    crowd: Crowd,
    tally: Tally,
    took: Duration,
) -> Result<()> {
    let Crowd { threads, pairs, .. } = crowd;
    rt.println(format_args!("{of}threads {threads} pairs {pairs} calls {}", tally.calls))?;
    if crowd.times {
        print_times(rt, tally, took)?;
    }
    Ok(())
}

/// Lets the threads call one desk, and tells their calls and how long all took together.
fn call_together<R: Runtime + AllocGlobal + Clock + Threads + Wait + Sync>(
    rt: &R,
    crowd: Crowd,
) -> Result<(Tally, Duration)> {
    let Crowd { threads, pairs, .. } = crowd;
    let pieces = pieces_for(threads, pairs)?;
    let (desk, passes) = open(rt.alloc(), threads, pieces)?;
    time_passes(rt, &desk, passes, pieces, pairs)
}

/// The same by these passes, a thread each.
fn time_passes<R: Runtime + AllocGlobal + Clock + Threads + Wait + Sync>(
    rt: &R,
    desk: &SharedDesk,
    passes: Vec<Pass>,
    pieces: u32,
    pairs: u32,
) -> Result<(Tally, Duration)>
    requires { All (λ pass. pass.table ≡ desk.now.table) passes.items }
{
    let alloc = rt.alloc();
    let start = rt.monotonic()?;
    let tallies = thread::map_vec(
        rt,
        passes,
        &|pass: Pass| -> Option<Tally>
            requires { pass.table ≡ desk.now.table }
        { hammer(rt, alloc, desk, pass, pieces, pairs) },
    )?;
    let took = rt.monotonic()?.saturating_sub(start);
    Ok((sum(&tallies)?, took))
}

/// Lets the threads call one picker, and tells their calls and how long all took together.
fn call_picker_together<R: Runtime + AllocGlobal + Clock + Threads + Wait + Sync>(
    rt: &R,
    crowd: Crowd,
) -> Result<(Tally, Duration)> {
    let Crowd { threads, pairs, .. } = crowd;
    let pieces = pieces_for(threads, pairs)?;
    let (picker, passes) = picking::open(rt.alloc(), threads, pieces)?;
    time_picker_passes(rt, &picker, passes, pieces, pairs)
}

/// The same by these passes, a thread each.
fn time_picker_passes<R: Runtime + AllocGlobal + Clock + Threads + Wait + Sync>(
    rt: &R,
    picker: &SharedPicker,
    passes: Vec<PickerPass>,
    pieces: u32,
    pairs: u32,
) -> Result<(Tally, Duration)>
    requires { All (λ pass. pass.table ≡ picker.now.table) passes.items }
{
    let alloc = rt.alloc();
    let start = rt.monotonic()?;
    let tallies = thread::map_vec(
        rt,
        passes,
        &|pass: PickerPass| -> Option<Tally>
            requires { pass.table ≡ picker.now.table }
        { picking::hammer(rt, alloc, picker, pass, pieces, pairs) },
    )?;
    let took = rt.monotonic()?.saturating_sub(start);
    Ok((sum(&tallies)?, took))
}

/// Lets the threads call one picker under a mutex, and tells their calls and how long all took together.
fn call_locked_together<R: Runtime + AllocGlobal + Clock + Threads + Wait + Sync>(
    rt: &R,
    crowd: Crowd,
) -> Result<(Tally, Duration)> {
    let Crowd { threads, pairs, .. } = crowd;
    let alloc = rt.alloc();
    let pieces = pieces_for(threads, pairs)?;
    let picker = locked::open(alloc, threads, pieces)?;
    let shared = &picker;
    let start = rt.monotonic()?;
    let tallies = thread::map_indices(
        rt,
        alloc,
        threads as usize,
        &|index: usize| -> Option<Tally> {
            locked::hammer(rt, alloc, shared, index as u32, pieces, pairs)
        },
    )?;
    let took = rt.monotonic()?.saturating_sub(start);
    Ok((sum(&tallies)?, took))
}

/// What all threads did, if none gave up.
fn sum(tallies: &[Option<Tally>]) -> Result<Tally> {
    let mut all = Tally::default();
    for tally in tallies {
        all = all.with(tally.context("a call failed, or had a reply that isn't due")?);
    }
    Ok(all)
}

/// Prints what a call took, from the first to the last, and how long the longest pair of calls waited.
fn print_times<R: Runtime>(rt: &R, tally: Tally, took: Duration) -> Result<()> {
    let took = nanos(took).max(1);
    let calls = tally.calls.max(1);
    rt.println(format_args!(
        "call_ns {} calls_per_s {} longest_pair_ns {}",
        took / calls,
        calls.saturating_mul(1_000_000_000) / took,
        nanos(tally.longest)
    ))?;
    Ok(())
}
