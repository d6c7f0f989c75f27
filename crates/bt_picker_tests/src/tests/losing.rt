//! Bytes that are gone, or bad: a picker loses pieces and discards blocks.

use super::picked::{BLOCK, DISK, Step, plays, plays_blocks};
use super::said::Said;
use bt_meta::Block;
use bt_picker::{Reason, Reply, Restored};
use std::test::*;

/// Of a piece of three blocks two came, from two peers. A discarded block is held no more, and the other one is, with its sender.
const BLOCKS_OF_A_BEGUN_PIECE: &[Step] = &[
    Step::Tells(0, Said::Join, Reply::Joined),
    Step::Tells(1, Said::Join, Reply::Joined),
    Step::Tells(0, Said::Arrived(0, 0, &BLOCK), Reply::Stored),
    Step::Tells(1, Said::Arrived(0, 16_384, &BLOCK), Reply::Stored),
    Step::Tells(0, Said::Discard(0), Reply::Failed),
    Step::SentBy(0, None),
    Step::SentBy(1, Some(1)),
    Step::Tells(1, Said::Arrived(0, 0, &BLOCK), Reply::Stored),
    Step::Tells(0, Said::Lose(0), Reply::Failed),
    Step::SentBy(0, None),
    Step::SentBy(1, None),
];

const FIRST: Block = Block {
    piece: 0,
    begin: 0,
    len: 3,
};

/// Of pieces `abc`, `abc` and `a` the first is complete, and lost: then a peer that shows it alone is asked for it.
const A_COMPLETE_PIECE: &[Step] = &[
    Step::Tells(DISK, Said::Join, Reply::Joined),
    Step::Restores(0, b"abc", Restored::Had),
    Step::Tells(0, Said::Join, Reply::Joined),
    Step::Tells(0, Said::Have(0), Reply::Noted(false)),
    Step::Tells(0, Said::Unchoke, Reply::Quiet),
    Step::Tells(0, Said::Next, Reply::NothingLeft),
    Step::Tells(0, Said::Discard(0), Reply::Refused(Reason::NotWaiting)),
    Step::Loses(0),
    Step::Tells(0, Said::Next, Reply::Request(FIRST)),
];

#[test]
fn what_is_lost_is_asked_for_again(rt: HostRuntime) -> Result<(), Fail> {
    plays_blocks(&rt, rt.alloc(), BLOCKS_OF_A_BEGUN_PIECE)?;
    plays(&rt, rt.alloc(), A_COMPLETE_PIECE)
}
