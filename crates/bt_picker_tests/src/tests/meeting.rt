//! Two workers, of which one comes to know what the other has seen.
use super::seats::{Made, Step, played};
use super::setting::{ARRIVED, gathers};
use bt_picker::{CallMark, Mark, Reason, Reply};
use std::test::*;

/// Both join; the first asks to join again, which the second then knows, whose pass then comes first. The second brings the last piece, the
/// first finds a job for it and has it checked, and it comes to the second once more.
const CALLS_OF_BOTH: &[Step] = &[
    Step::Says(0, Made::Join, Reply::Joined),
    Step::Says(1, Made::Join, Reply::Joined),
    Step::Says(0, Made::Join, Reply::Refused(Reason::AlreadyJoined)),
    Step::Meets,
    Step::Says(0, Made::Brings, Reply::Completed),
    Step::Finds(1, 2, true),
    Step::Settles(1, 2, Reply::Had),
    Step::Says(0, Made::Brings, Reply::Dropped),
];

/// Six entries of two workers, in turn. Each log has its own worker's, at their places.
#[test]
fn two_passes_meet(rt: HostRuntime) -> Result<(), Fail> {
    let seated = played(&rt, rt.alloc(), 2, CALLS_OF_BOTH)?;
    let gathered = seated.gather_beside(rt.alloc(), 0x20)?;
    gathers(&rt, gathered, BOTH_LOGS)
}

/// The first worker's calls.
const FIRSTS: &[Mark] = &[
    Mark {
        place: 0,
        call: CallMark::Join,
        reply: Reply::Joined,
    },
    Mark {
        place: 2,
        call: CallMark::Join,
        reply: Reply::Refused(Reason::AlreadyJoined),
    },
    Mark {
        place: 4,
        call: CallMark::Settle(2),
        reply: Reply::Had,
    },
];

/// The second worker's calls.
const SECONDS: &[Mark] = &[
    Mark {
        place: 1,
        call: CallMark::Join,
        reply: Reply::Joined,
    },
    Mark {
        place: 3,
        call: ARRIVED,
        reply: Reply::Completed,
    },
    Mark {
        place: 5,
        call: ARRIVED,
        reply: Reply::Dropped,
    },
];

/// Each log has its own worker's calls.
const BOTH_LOGS: &[&[Mark]] = &[FIRSTS, SECONDS];
