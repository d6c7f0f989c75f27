//! Blocks and whole pieces of which a picker is told no byte.

use super::picked::{DISK, Step, plays};
use super::said::Said;
use bt_picker::{Reason, Reply, Restored};
use std::test::*;

/// Pieces `abc`, `abc` and `a` of a disk, and one from a peer.
const PIECES_WITHOUT_BYTES: &[Step] = &[
    Step::Resumes(0, b"abc", Restored::Refused(Reason::NotJoined)),
    Step::Tells(DISK, Said::Join, Reply::Joined),
    Step::Tells(0, Said::Join, Reply::Joined),
    Step::Resumes(0, b"abd", Restored::Failed),
    Step::Resumes(0, b"abc", Restored::Had),
    Step::Resumes(0, b"abc", Restored::Begun),
    Step::Receives(1, 0, b"ab", Reply::Refused(Reason::WrongLength)),
    Step::Receives(1, 1, b"abc", Reply::Refused(Reason::NoSuchBlock)),
    Step::Receives(0, 0, b"abc", Reply::Dropped),
    Step::Receives(2, 0, b"a", Reply::Completed),
    Step::SentBy(0, Some(DISK)),
    Step::Waits(2),
    Step::Resumes(2, b"a", Restored::Begun),
];

#[test]
fn pieces_without_bytes(rt: HostRuntime) -> Result<(), Fail> {
    plays(&rt, rt.alloc(), PIECES_WITHOUT_BYTES)
}
