//! A keeper of pieces `abc`, `abc` and `a`.

use super::steps::{Step, Table, keeper_of};
use crate::tests::abc;
use crate::tests::said::Said;
use bt_meta::Block;
use bt_picker::*;
use std::alloc::Global;
use std::process::Abort;
use std::test::*;

const FIRST_PIECE: Block = Block {
    piece: 0,
    begin: 0,
    len: 3,
};

const LAST_PIECE: Block = Block {
    piece: 2,
    begin: 0,
    len: 1,
};

/// The first worker's peer is asked for the first piece, at the random number 0.
const ASKS: Step = Step::Tells(0, Said::Next, Reply::Request(FIRST_PIECE));

const GOES_BEYOND: Reply = Reply::Refused(Reason::NoSuchPiece);

const IS_NOBODYS: Reply = Reply::Refused(Reason::NotJoined);

/// Piece 0 is asked for, comes, is hashed and had, and its block is handed out.
const FROM_ITS_REQUEST_TO_ITS_BLOCKS: &[Step] = &[
    ASKS,
    Step::Brings(0, 0, b"abc", Reply::Completed),
    Step::Hashes(0),
    Step::Settles(Reply::Had, Some(b"abc")),
    Step::Settles(Reply::Refused(Reason::NotWaiting), None),
];

/// All pieces come, copied from what is told, and are settled as they come.
const ALL_BY_WHAT_IS_TOLD: &[Step] = &[
    Step::Tells(0, Said::Arrived(0, 0, b"abc"), Reply::Completed),
    Step::SettlesNow(0, 0, Reply::Had, Some(b"abc")),
    Step::Tells(0, Said::Arrived(1, 0, b"abc"), Reply::Completed),
    Step::SettlesNow(0, 1, Reply::Had, Some(b"abc")),
    Step::Tells(0, Said::Arrived(2, 0, b"a"), Reply::Completed),
    Step::SettlesNow(0, 2, Reply::Had, Some(b"a")),
    Step::HasAll,
];

/// A wrong block fails its piece, is held no longer, and is asked for again.
const A_WRONG_BLOCK: &[Step] = &[
    ASKS,
    Step::Brings(0, 0, b"xyz", Reply::Completed),
    Step::SettlesNow(0, 0, Reply::Failed, None),
    Step::Waits(0, false),
    ASKS,
];

/// A wrong block is discarded before its check, and a piece that was had is lost: each is asked for again, and comes.
const WHAT_IS_FREED: &[Step] = &[
    ASKS,
    Step::Brings(0, 0, b"xyz", Reply::Completed),
    Step::Tells(0, Said::Discard(0), Reply::Failed),
    Step::Waits(0, false),
    Step::Brings(0, 0, b"abc", Reply::Completed),
    Step::SettlesNow(0, 0, Reply::Had, Some(b"abc")),
    Step::Tells(0, Said::Lose(0), Reply::Failed),
    ASKS,
    Step::Brings(0, 0, b"abc", Reply::Completed),
    Step::SettlesNow(0, 0, Reply::Had, Some(b"abc")),
];

/// A verdict of bytes that were replaced since is stale, and the piece still waits.
const A_VERDICT_OF_REPLACED_BYTES: &[Step] = &[
    Step::Brings(0, 0, b"xyz", Reply::Completed),
    Step::Hashes(0),
    Step::Settles(Reply::Failed, None),
    Step::Brings(0, 0, b"abc", Reply::Completed),
    Step::Settles(Reply::Refused(Reason::Stale), None),
    Step::Waits(0, true),
    Step::SettlesNow(0, 0, Reply::Had, Some(b"abc")),
];

/// A number that is no worker's is refused whatever it tells, and so is a piece beyond the last.
const NO_WORKER_AND_NO_PIECE: &[Step] = &[
    Step::Tells(2, Said::Join, IS_NOBODYS),
    Step::Brings(2, 0, b"abc", IS_NOBODYS),
    Step::Brings(0, 3, b"abc", GOES_BEYOND),
    Step::HasNoJob(3),
    Step::SettlesNow(0, 3, GOES_BEYOND, None),
    Step::Brings(0, 0, b"abc", Reply::Completed),
    Step::SettlesNow(2, 0, IS_NOBODYS, None),
    Step::SettlesNow(1, 0, Reply::Had, Some(b"abc")),
];

/// A level is told of one piece, and the order of all. A peer is asked for the highest level then, and in order for the least piece.
const LEVELS_AND_ORDER: &[Step] = &[
    Step::HasLevel(2, 4),
    Step::IsInOrder(false),
    Step::Tells(0, Said::Level(2, 5), Reply::Quiet),
    Step::Tells(0, Said::InOrder(true), Reply::Quiet),
    Step::HasLevel(2, 5),
    Step::HasLevel(1, 4),
    Step::IsInOrder(true),
    Step::Tells(0, Said::Next, Reply::Request(LAST_PIECE)),
    ASKS,
];

/// Plays the steps with a new keeper.
fn plays(rt: &impl Abort, alloc: Global, steps: &[Step]) -> Result<(), Fail> {
    let keeper = keeper_of(rt, alloc, abc::torrent(rt, alloc)?)?;
    Table::new(keeper).plays(rt, alloc, steps)
}

#[test]
fn small_pieces(rt: HostRuntime) -> Result<(), Fail> {
    for steps in [
        FROM_ITS_REQUEST_TO_ITS_BLOCKS,
        ALL_BY_WHAT_IS_TOLD,
        A_WRONG_BLOCK,
        WHAT_IS_FREED,
        A_VERDICT_OF_REPLACED_BYTES,
        NO_WORKER_AND_NO_PIECE,
        LEVELS_AND_ORDER,
    ] {
        plays(&rt, rt.alloc(), steps)?;
    }
    Ok(())
}
