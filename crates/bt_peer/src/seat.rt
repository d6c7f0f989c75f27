//! A stream's seat at the desk of a run.

ghost use Rattle.std.specs.Prelude.{◌≡◌, ◌<◌, None};
ghost use Rattle.bt_peer.specs.Serial.{stream_of};
ghost use Rattle.bt_peer.specs.Course.{Keeps, LeavesOthers, NotesPieces, left_of, course_of};

use crate::desk_place::DeskPlace;
use crate::session::Session;
use crate::stream::Stream;
use bt_meta::{Bitfield, Sink, Source};
use bt_picker::Desk;
use rand_pcg::Lcg64Xsh32;
use std::alloc::Global;

/// What a run keeps for one of its streams.
#[derive(Drop)]
pub struct Seat {
    pub session: Session,
    /// The pieces that were told to the peer.
    pub told: Bitfield,
    /// So many of the pieces that the desk lists as finished were told, from the first on.
    pub seen: usize,
    /// It gives the numbers of Next.
    pub rng: Lcg64Xsh32,
    /// A call of its last turn found no memory; no turn follows such a one.
    pub lacked: bool,
}

/// A turn of a stream's session, at the desk of the run. The session itself keeps how it ended.
pub fn take_turn<R: Source, W: Sink>(
    alloc: Global,
    desk: &mut Desk,
    worker: u32,
    seat: &mut Seat,
    stream: &mut Stream<R, W>,
)
    requires worker { worker < desk.old.setting.workers }
    requires notes { NotesPieces desk.old seat.old }
    requires runs { seat.old.session.outcome ≡ None }
    ensures keeps { Keeps worker
        (course_of desk.old seat.old (stream_of R.Source W.Sink stream.old))
        (course_of desk.new seat.new (stream_of R.Source W.Sink stream.new)) }
    ensures others { LeavesOthers worker desk.old desk.new }
    ensures notes { NotesPieces desk.new seat.new }
    ensures shrinks { left_of seat.new < left_of seat.old }
{
    let mut place = DeskPlace::resume(desk, worker, &mut seat.told, seat.seen);
    let _ = seat.session.turn(
        alloc,
        &mut stream.reader,
        &mut stream.writer,
        &mut place,
        &mut seat.rng,
    );
    seat.seen = place.seen();
    seat.lacked = place.lacked_memory();
}
