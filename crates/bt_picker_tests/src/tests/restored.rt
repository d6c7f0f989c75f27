//! Pieces that are on a disk come in one call each, and each block has a sender.

use super::picked::{BLOCK, DISK, PIECE, Step, plays, plays_blocks};
use super::said::Said;
use bt_meta::Block;
use bt_picker::{Reason, Reply, Restored};
use std::test::*;

/// What comes of each piece, in order.
const PIECES_OF_A_DISK: &[Step] = &[
    Step::Restores(0, b"abc", Restored::Refused(Reason::NotJoined)),
    Step::Tells(DISK, Said::Join, Reply::Joined),
    Step::Restores(3, b"abc", Restored::Refused(Reason::NoSuchPiece)),
    Step::Restores(0, b"ab", Restored::Refused(Reason::WrongLength)),
    Step::Restores(0, b"abc", Restored::Had),
    Step::Restores(0, b"abc", Restored::Begun),
    Step::Restores(1, b"abd", Restored::Failed),
    Step::Restores(1, b"abc", Restored::Had),
    Step::Restores(2, b"a", Restored::Had),
    Step::HasAll,
];

const SECOND: Block = Block {
    piece: 1,
    begin: 0,
    len: 3,
};

/// A piece that a peer is asked for isn't taken from the disk, until the peer chokes us.
const A_PIECE_UNDER_WAY: &[Step] = &[
    Step::Tells(DISK, Said::Join, Reply::Joined),
    Step::Tells(0, Said::Join, Reply::Joined),
    Step::Tells(0, Said::Have(1), Reply::Noted(true)),
    Step::Tells(0, Said::Unchoke, Reply::Quiet),
    Step::Tells(0, Said::Next, Reply::Request(SECOND)),
    Step::Restores(1, b"abc", Restored::Begun),
    Step::Tells(0, Said::Choke, Reply::Quiet),
    Step::Restores(1, b"abc", Restored::Had),
    Step::Tells(0, Said::Unchoke, Reply::Quiet),
    Step::Tells(0, Said::Next, Reply::NothingLeft),
];

#[test]
fn pieces_of_a_disk(rt: HostRuntime) -> Result<(), Fail> {
    plays(&rt, rt.alloc(), PIECES_OF_A_DISK)?;
    plays(&rt, rt.alloc(), A_PIECE_UNDER_WAY)
}

const A_PIECE_OF_BLOCKS: &[Step] = &[
    Step::Tells(DISK, Said::Join, Reply::Joined),
    Step::Restores(0, &PIECE, Restored::Had),
    Step::HasAll,
];

/// A peer and a disk bring blocks: each names who brought it, and a block that comes again changes nothing.
const WHO_BROUGHT_A_BLOCK: &[Step] = &[
    Step::Tells(DISK, Said::Join, Reply::Joined),
    Step::Tells(0, Said::Join, Reply::Joined),
    Step::Tells(0, Said::Arrived(0, 0, &BLOCK), Reply::Stored),
    Step::Tells(DISK, Said::Arrived(0, 16_384, &BLOCK), Reply::Stored),
    Step::SentBy(0, Some(0)),
    Step::SentBy(1, Some(DISK)),
    Step::SentBy(2, None),
    Step::Tells(DISK, Said::Arrived(0, 0, &BLOCK), Reply::Dropped),
    Step::SentBy(0, Some(0)),
];

#[test]
fn blocks_of_a_disk(rt: HostRuntime) -> Result<(), Fail> {
    plays_blocks(&rt, rt.alloc(), A_PIECE_OF_BLOCKS)?;
    plays_blocks(&rt, rt.alloc(), WHO_BROUGHT_A_BLOCK)
}
