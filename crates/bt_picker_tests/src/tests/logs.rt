//! What a worker's log has after its calls.

use super::gathering::gathers_logs;
use super::seats::{Made, Step, played};
use super::setting::{ARRIVED, Seated};
use bt_expect::same;
use bt_picker::{CallMark, Desk, Mark, Reason, Reply};
use bt_shared::{Book, GatherFault};
use std::process::Abort;
use std::test::*;

/// One worker brings the last piece. There is a job of it, which then is had, and none of the first one.
const BRINGS_A_PIECE: &[Step] = &[
    Step::Says(0, Made::Join, Reply::Joined),
    Step::Says(0, Made::Brings, Reply::Completed),
    Step::Finds(0, 2, true),
    Step::Finds(0, 0, false),
    Step::Settles(0, 2, Reply::Had),
    Step::Settles(0, 0, Reply::Refused(Reason::NotWaiting)),
];

#[test]
fn one_worker_to_a_had_piece(rt: HostRuntime) -> Result<(), Fail> {
    gathers_logs(&rt, rt.alloc(), 1, BRINGS_A_PIECE, ONE_LOG)
}

/// The calls by which the last piece comes and is had.
const HAD: &[Mark] = &[
    Mark {
        place: 0,
        call: CallMark::Join,
        reply: Reply::Joined,
    },
    Mark {
        place: 1,
        call: ARRIVED,
        reply: Reply::Completed,
    },
    Mark {
        place: 2,
        call: CallMark::Settle(2),
        reply: Reply::Had,
    },
];

/// The one log has how the piece came, and that it is had.
const ONE_LOG: &[&[Mark]] = &[HAD];

/// How many peers show the piece.
fn peers_of(rt: &impl Abort, desk: &Desk, piece: u32) -> u32 {
    assert!(rt; piece < desk.picker().torrent().piece_count());
    desk.availability(piece)
}

/// A peer joins, and tells that it has the second piece.
const TELLS_A_PIECE: &[Step] = &[
    Step::Says(0, Made::Join, Reply::Joined),
    Step::Says(0, Made::Bits(0x40), Reply::Noted(true)),
];

/// A peer tells its pieces. The entry has the bitfield, of which the mark has nothing.
#[test]
fn a_bitfield_is_entered_whole(rt: HostRuntime) -> Result<(), Fail> {
    let seated = played(&rt, rt.alloc(), 1, TELLS_A_PIECE)?;
    gathers_one_shown(&rt, seated.gather(rt.alloc()))
}

/// One peer shows the second piece, and none another.
fn is_shown_by_one(rt: &impl Abort, desk: &Desk) -> Result<(), Fail> {
    same(peers_of(rt, desk, 0), 0)?;
    same(peers_of(rt, desk, 1), 1)?;
    same(peers_of(rt, desk, 2), 0)
}

/// The same once the desk is gathered.
fn gathers_one_shown(rt: &impl Abort, gathered: Result<Book, GatherFault>) -> Result<(), Fail> {
    let book = gathered?;
    is_shown_by_one(rt, &book.desk)
}

/// The second worker's calls, of which two are refused and one isn't; then it asks for a check of a piece that isn't there.
const REFUSED_CALLS: &[Step] = &[
    Step::Says(1, Made::Leave, Reply::Refused(Reason::NotJoined)),
    Step::Says(1, Made::WantsNoneOf(4), Reply::Refused(Reason::WrongCount)),
    Step::Says(1, Made::Wants(0xe0), Reply::Quiet),
    Step::Settles(1, 9, Reply::Refused(Reason::NoSuchPiece)),
];

/// Calls that are refused are entries, and have their marks; a check of a piece that doesn't wait for one is none.
#[test]
fn refused_calls_are_marked(rt: HostRuntime) -> Result<(), Fail> {
    let seated = played(&rt, rt.alloc(), 2, REFUSED_CALLS)?;
    has_refused_calls(&rt, &seated)
}

/// The calls of which two are refused.
const REFUSED: &[Mark] = &[
    Mark {
        place: 0,
        call: CallMark::Leave,
        reply: Reply::Refused(Reason::NotJoined),
    },
    Mark {
        place: 1,
        call: CallMark::Want,
        reply: Reply::Refused(Reason::WrongCount),
    },
    Mark {
        place: 2,
        call: CallMark::Want,
        reply: Reply::Quiet,
    },
];

/// The second worker's log has the calls, and no check.
fn has_refused_calls(rt: &impl Abort, seated: &Seated) -> Result<(), Fail> {
    same(seated.log(rt, 1), REFUSED)
}
