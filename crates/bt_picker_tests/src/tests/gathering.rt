//! What `gather` answers, and why it refuses.
ghost use Rattle.std.specs.Prelude.{◌≤◌};

use super::seats::{Made, Step, played};
use super::setting::{cause, gathers};
use bt_expect::same;
use bt_picker::{CallMark, Mark, Reply};
use bt_shared::GatherFault;
use std::alloc::Global;
use std::process::Abort;
use std::sync::Wait;
use std::test::*;

/// Of two workers that joined, one pass is lost.
const A_LOST_PASS: &[Step] = &[
    Step::Says(0, Made::Join, Reply::Joined),
    Step::Says(1, Made::Join, Reply::Joined),
    Step::Loses(1),
];

/// Of two workers that joined, the one that went on is lost.
const A_LOST_PASS_OF_TWO_CALLS: &[Step] = &[
    Step::Says(1, Made::Join, Reply::Joined),
    Step::Says(0, Made::Join, Reply::Joined),
    Step::Says(1, Made::Unchoke, Reply::Quiet),
    Step::Loses(1),
];

/// The desk of two workers isn't gathered after these steps, as the passes have one call, and the journal has so many.
fn misses_calls<R: Wait + Abort>(
    rt: &R,
    alloc: Global,
    steps: &[Step],
    journal: usize,
) -> Result<(), Fail> {
    let missing = GatherFault::PassMissing { held: 1, journal };
    let seated = played(rt, alloc, 2, steps)?;
    same(cause(seated.gather(alloc))?, Some(missing))
}

#[test]
fn lost_passes(rt: HostRuntime) -> Result<(), Fail> {
    misses_calls(&rt, rt.alloc(), A_LOST_PASS, 2)?;
    misses_calls(&rt, rt.alloc(), A_LOST_PASS_OF_TWO_CALLS, 3)
}

/// Of three workers the last two join. The idle one's pass is lost, which isn't noticed, and the last pass comes in its place: so in
/// another order.
const IN_ANOTHER_ORDER: &[Step] = &[
    Step::Says(1, Made::Join, Reply::Joined),
    Step::Says(2, Made::Join, Reply::Joined),
    Step::Loses(0),
];

/// The log of whoever joins first.
const FIRST: &[Mark] = &[Mark {
    place: 0,
    call: CallMark::Join,
    reply: Reply::Joined,
}];

/// The log of whoever joins second.
const SECOND: &[Mark] = &[Mark {
    place: 1,
    call: CallMark::Join,
    reply: Reply::Joined,
}];

/// Of three logs the first is empty, and each other one has that its worker joined.
const TWO_JOINS: &[&[Mark]] = &[&[], FIRST, SECOND];

/// A desk of so many workers is gathered after these steps, and its logs have to be these.
pub fn gathers_logs<R: Wait + Abort>(
    rt: &R,
    alloc: Global,
    workers: u32,
    steps: &[Step],
    wanted: &[&[Mark]],
) -> Result<(), Fail>
    requires { (1 ≤ workers) × (workers ≤ 1024) }
{
    let seated = played(rt, alloc, workers, steps)?;
    gathers(rt, seated.gather(alloc), wanted)
}

#[test]
fn passes_in_another_order(rt: HostRuntime) -> Result<(), Fail> {
    gathers_logs(&rt, rt.alloc(), 3, IN_ANOTHER_ORDER, TWO_JOINS)
}

/// Bytes of bitfields, and how each differs from the desk.
const ROWS: &[(u8, Option<GatherFault>)] = &[
    (0x20, None),
    (0x00, Some(GatherFault::BoardDiffers { piece: 2 })),
    (0x60, Some(GatherFault::BoardDiffers { piece: 1 })),
    (0x80, Some(GatherFault::BoardDiffers { piece: 0 })),
];

/// The last piece is had, and a bitfield tells which pieces are.
#[test]
fn bitfields_of_had_pieces(rt: HostRuntime) -> Result<(), Fail> {
    for &(byte, wanted) in ROWS {
        gathers_beside(&rt, rt.alloc(), byte, wanted)?;
    }
    Ok(())
}

/// The worker joins, brings the last piece and has it checked.
const LAST_IS_HAD: &[Step] = &[
    Step::Says(0, Made::Join, Reply::Joined),
    Step::Says(0, Made::Brings, Reply::Completed),
    Step::Settles(0, 2, Reply::Had),
];

/// A desk that has the last piece is gathered beside this bitfield, or isn't and why.
fn gathers_beside<R: Wait + Abort>(
    rt: &R,
    alloc: Global,
    byte: u8,
    wanted: Option<GatherFault>,
) -> Result<(), Fail> {
    let seated = played(rt, alloc, 1, LAST_IS_HAD)?;
    same(cause(seated.gather_beside(alloc, byte)?)?, wanted)
}
