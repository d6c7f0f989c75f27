//! Times the picker that keeps no content: a whole download from a swarm, asked block by block, with nothing hashed between.

mod bitfields;
mod swarm;
mod zeros;

use anyhow::{Result, bail};
use bitfields::Bitfields;
use bt_picker::MOST_WORKERS;
use std::rt::Runtime;
use std::time::{CpuClock, Duration};
use swarm::{Manner, Swarm};

/// So many pieces are downloaded where the command line says nothing.
const USUAL_PIECES: u32 = 1_000;

/// So many peers come where it says nothing.
const USUAL_PEERS: u32 = 51;

/// So many blocks are asked of a peer at a time where it says nothing.
const USUAL_DEPTH: u32 = 5;

/// So many asks that give nothing are timed in the end.
const DRY_ASKS: u32 = 1_000_000;

/// What the command line asks for.
#[derive(Clone, Copy)]
struct Plan {
    pieces: u32,
    halvings: u32,
    peers: u32,
    depth: u32,
    askers: u32,
    open: u32,
    manner: Manner,
    is_timed: bool,
}

/// Processor time in nanoseconds: of a peer's way in, of an ask with its arrival, and of an ask that gives nothing.
#[derive(Clone, Copy)]
struct Times {
    come: u128,
    ask: u128,
    dry: u128,
}

/// Plays the download that these words ask for, and prints its counts.
pub fn time_picker<R: Runtime + AllocGlobal + CpuClock>(rt: &R, words: &[String]) -> Result<()> {
    let plan = asked(words)?;
    let mut swarm = Swarm::new(
        rt.alloc(),
        plan.pieces,
        plan.peers,
        plan.depth,
        plan.askers,
        plan.open,
    )?;
    swarm.order(plan.manner);
    let come = come(rt, &plan, &mut swarm)?;
    let start = rt.thread_cpu_time()?;
    swarm.run();
    let ran = since(rt, start)?;
    tell(rt, &plan, &swarm)?;
    if plan.is_timed {
        let times = Times {
            come: each(come, u64::from(plan.peers)),
            ask: each(ran, swarm.counts().asks),
            dry: dry(rt, &mut swarm)?,
        };
        println!(rt;
            "come_ns {} ask_ns {} dry_ns {}",
            times.come, times.ask, times.dry
        )?;
    }
    Ok(())
}

/// The first word is `picker`. Those behind it are the number of pieces, how often the pieces that a peer shows are halved, the number of
/// peers, how many blocks are asked of each at a time, of how many peers one block is asked in endgame, and how many pieces may be open.
/// Behind them stand the order, `levels`, `order` or `stream`, and `times`, with which times are printed too. Each may be left out.
fn asked(words: &[String]) -> Result<Plan> {
    let is_timed = match words.last() {
        Some(word) => word.as_str() == "times",
        None => false,
    };
    let rest = &words[..words.len() - usize::from(is_timed)];
    let manner = match rest.last() {
        Some(word) => manner_of(word),
        None => Manner::Rarest,
    };
    let numbers = &rest[..rest.len() - usize::from(manner != Manner::Rarest)];
    if numbers.len() > 7 {
        bail!("there are six numbers at most, an order and `times` behind them");
    }
    Ok(Plan {
        pieces: number(numbers.get(1), USUAL_PIECES)?,
        halvings: number(numbers.get(2), 0)?,
        peers: number(numbers.get(3), USUAL_PEERS)?,
        depth: number(numbers.get(4), USUAL_DEPTH)?,
        askers: number(numbers.get(5), MOST_WORKERS)?,
        open: number(numbers.get(6), 0)?,
        manner,
        is_timed,
    })
}

/// The order that a word names: the usual one, where it names none.
fn manner_of(word: &String) -> Manner {
    match word.as_str() {
        "levels" => Manner::Levelled,
        "order" => Manner::InOrder,
        "stream" => Manner::Streamed,
        _ => Manner::Rarest,
    }
}

/// The number that a word says, or the usual one where there is no word.
fn number(word: Option<&String>, usual: u32) -> Result<u32> {
    match word {
        Some(word) => Ok(word.as_str().parse::<u32>()?),
        None => Ok(usual),
    }
}

/// All peers come, one after the other, each with a bitfield of its own. Gives the time that the picker took.
fn come<R: Runtime + AllocGlobal + CpuClock>(
    rt: &R,
    plan: &Plan,
    swarm: &mut Swarm,
) -> Result<u128> {
    let mut bitfields = Bitfields::new(plan.pieces, plan.halvings);
    let mut took = 0;
    for worker in 0..plan.peers {
        let shown = bitfields.next(rt.alloc(), worker + 1 == plan.peers)?;
        let start = rt.thread_cpu_time()?;
        swarm.come(worker, &shown);
        took = since(rt, start)?.saturating_add(took);
    }
    Ok(took)
}

/// How long an ask takes when each piece is had.
fn dry<R: Runtime + CpuClock>(rt: &R, swarm: &mut Swarm) -> Result<u128> {
    let start = rt.thread_cpu_time()?;
    for _ in 0..DRY_ASKS {
        swarm.ask_in_vain();
    }
    Ok(each(since(rt, start)?, u64::from(DRY_ASKS)))
}

/// The processor time since then, in nanoseconds.
fn since<R: Runtime + CpuClock>(rt: &R, start: Duration) -> Result<u128> {
    Ok(rt.thread_cpu_time()?.saturating_sub(start).as_nanos())
}

/// The part of each of so many.
fn each(took: u128, count: u64) -> u128 {
    took.checked_div(u128::from(count)).unwrap_or(0)
}

/// Prints the counts.
fn tell<R: Runtime>(rt: &R, plan: &Plan, swarm: &Swarm) -> Result<()> {
    let counts = swarm.counts();
    println!(rt;
        "pieces {}: asks {} requests {} had {} picks {:016x}",
        plan.pieces, counts.asks, counts.requests, counts.had, counts.picks
    )?;
    Ok(())
}
