//! What workers do at a shared desk, as steps of a table.
ghost use Rattle.std.specs.Prelude.{◌≤◌};

use super::setting::{Seated, bits, block};
use bt_meta::Bitfield;
use bt_picker::{Call, Reply};
use std::alloc::Global;
use std::process::Abort;
use std::sync::Wait;
use std::test::Fail;

/// A call.
#[derive(Clone, Copy)]
pub enum Made {
    Join,
    Leave,
    Unchoke,
    /// The last piece comes.
    Brings,
    /// The bitfield that has this byte on the wire.
    Bits(u8),
    /// The same of what is wanted.
    Wants(u8),
    /// None of so many pieces is wanted.
    WantsNoneOf(u32),
}

/// A call or a question of the worker at this place, and what has to come of it.
#[derive(Clone, Copy)]
pub enum Step {
    Says(usize, Made, Reply),
    /// Whether there is a job of the piece.
    Finds(usize, u32, bool),
    /// The piece is checked at once.
    Settles(usize, u32, Reply),
    /// The worker's pass is lost, and that of the last one is in its place.
    Loses(usize),
    /// The last two passes meet, and change places.
    Meets,
}

fn call_of(alloc: Global, made: Made) -> Result<Call, Fail> {
    match made {
        Made::Join => Ok(Call::Join),
        Made::Leave => Ok(Call::Leave),
        Made::Unchoke => Ok(Call::Unchoke),
        Made::Brings => Ok(block(2, b"a")),
        Made::Bits(byte) => Ok(Call::Bits(bits(alloc, byte)?)),
        Made::Wants(byte) => Ok(Call::Want(bits(alloc, byte)?)),
        Made::WantsNoneOf(pieces) => Ok(Call::Want(Bitfield::empty(alloc, pieces)?)),
    }
}

fn play<R: Wait + Abort>(
    rt: &R,
    alloc: Global,
    seated: &mut Seated,
    step: Step,
) -> Result<(), Fail> {
    match step {
        Step::Says(worker, made, reply) => seated.says(rt, worker, call_of(alloc, made)?, reply),
        Step::Finds(worker, piece, wanted) => seated.finds(rt, alloc, worker, piece, wanted),
        Step::Settles(worker, piece, reply) => seated.settles(rt, alloc, worker, piece, reply),
        Step::Loses(worker) => {
            seated.lose(rt, worker);
            Ok(())
        }
        Step::Meets => Ok(seated.meet_and_turn(rt)?),
    }
}

/// A new desk of so many workers after these steps.
pub fn played<R: Wait + Abort>(
    rt: &R,
    alloc: Global,
    workers: u32,
    steps: &[Step],
) -> Result<Seated, Fail>
    requires { (1 ≤ workers) × (workers ≤ 1024) }
{
    let mut seated = Seated::open(rt, alloc, workers)?;
    for step in steps {
        play(rt, alloc, &mut seated, *step)?;
    }
    Ok(seated)
}
