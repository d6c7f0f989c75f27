//! Requests in flight that the picker has not made: it is told them, and they count.

use super::picked::{BLOCK, Step, plays_blocks};
use super::said::Said;
use bt_meta::Block;
use bt_picker::{Reason, Reply};
use std::test::*;

const FIRST: Block = Block {
    piece: 0,
    begin: 0,
    len: 16_384,
};

const SECOND: Block = Block {
    piece: 0,
    begin: 16_384,
    len: 16_384,
};

const LAST: Block = Block {
    piece: 0,
    begin: 32_768,
    len: 5,
};

/// Of a piece of three blocks the second was requested of a peer. It counts there, and isn't requested of the other peer, which brings it all
/// the same: then a cancel is due.
const ONE_BLOCK_OF_THREE: &[Step] = &[
    Step::Tells(0, Said::Join, Reply::Joined),
    Step::Tells(0, Said::Have(0), Reply::Noted(true)),
    Step::Tells(0, Said::Unchoke, Reply::Quiet),
    Step::Tells(1, Said::Join, Reply::Joined),
    Step::Tells(1, Said::Have(0), Reply::Noted(true)),
    Step::Tells(1, Said::Unchoke, Reply::Quiet),
    Step::Tells(0, Said::Requested(16_384), Reply::InFlight(SECOND)),
    Step::Tells(
        0,
        Said::Requested(16_384),
        Reply::Refused(Reason::NotWaiting),
    ),
    Step::Tells(
        1,
        Said::Requested(16_384),
        Reply::Refused(Reason::NotWaiting),
    ),
    Step::Tells(
        2,
        Said::Requested(16_384),
        Reply::Refused(Reason::NotJoined),
    ),
    Step::InFlight(0, &[SECOND]),
    Step::Tells(1, Said::Next, Reply::Request(FIRST)),
    Step::Tells(1, Said::Next, Reply::Request(LAST)),
    Step::Tells(1, Said::Arrived(0, 16_384, &BLOCK), Reply::Stored),
    Step::Tells(0, Said::Next, Reply::Cancel(SECOND)),
    Step::InFlight(0, &[]),
];

#[test]
fn a_request_in_flight_counts(rt: HostRuntime) -> Result<(), Fail> {
    plays_blocks(&rt, rt.alloc(), ONE_BLOCK_OF_THREE)
}
