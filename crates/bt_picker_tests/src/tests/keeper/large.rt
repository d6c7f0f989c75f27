//! Torrents of 4 GiB and of 4 MiB of zeros, played through, a piece of 32 MiB, and one of many pieces.

use super::steps::{arrives, keeper_of, settle, settle_now, tells, verdict_of};
use crate::tests::abc::A;
use crate::tests::same::same;
use bt_meta::{Block, Torrent};
use bt_picker::*;
use bytes::Bytes;
use std::alloc::Global;
use std::process::Abort;
use std::test::*;

/// Pieces of 4 GiB.
const PIECES: u32 = 16_384;

/// Pieces of 4 MiB.
const FEW_PIECES: u32 = 16;

/// Blocks of a piece.
const BLOCKS: u32 = 16;

const PIECE_LENGTH: u32 = 262_144;

/// SHA-1 of so many zeros, as `sha1sum` gives it.
const HASH: [u8; 20] = [
    0x2e, 0x00, 0x0f, 0xa7, 0xe8, 0x57, 0x59, 0xc7, 0xf4, 0xc2, 0x54, 0xd4, 0xd9, 0xc3, 0x3e, 0xf4,
    0x81, 0xe4, 0x59, 0xa7,
];

/// 32 MiB.
const LARGE: u32 = 1 << 25;

/// Blocks of a piece of 32 MiB.
const LARGE_BLOCKS: u32 = 2048;

/// SHA-1 of 32 MiB of zeros, as `sha1sum` gives it.
const LARGE_HASH: [u8; 20] = [
    0x57, 0xb5, 0x87, 0xe1, 0xbf, 0x2d, 0x09, 0x33, 0x5b, 0xda, 0xc6, 0xdb, 0x18, 0x90, 0x2d, 0x43,
    0xdf, 0xe7, 0x64, 0x49,
];

/// A block of zeros.
fn zeros(alloc: Global) -> Result<Bytes, Fail> {
    Ok(Bytes::from_vec(vec![in alloc; 0; 16_384]?)?)
}

/// A torrent of so many pieces that have this hash.
fn torrent_of(
    alloc: Global,
    piece_length: u32,
    pieces: u32,
    hash: [u8; 20],
) -> Result<Torrent, Fail> {
    let hashes = vec![in alloc; hash; pieces as usize]?;
    let total = u64::from(piece_length) * u64::from(pieces);
    Ok(Torrent::of_parts(piece_length, total, hashes, [0; 20])?)
}

/// One peer has so many pieces of zeros. Each piece is had, and its blocks are handed out and let go: so what is held at any time is one
/// piece.
fn plays_through(rt: &impl Abort, alloc: Global, pieces: u32) -> Result<(), Fail> {
    let zeros = zeros(alloc)?;
    let torrent = torrent_of(alloc, PIECE_LENGTH, pieces, HASH)?;
    let mut keeper = keeper_of(rt, alloc, torrent)?;
    for _ in 0..pieces {
        downloads(rt, alloc, &mut keeper, &zeros)?;
    }
    has_all(rt, alloc, &mut keeper)
}

/// Nothing is left to ask for.
fn has_all(rt: &impl Abort, alloc: Global, keeper: &mut Keeper) -> Result<(), Fail> {
    assert!(rt; keeper.picker().is_complete());
    tells(rt, alloc, keeper, 0, Told::Next(0), Reply::NothingLeft)
}

#[test]
fn four_gib_from_one_peer(rt: HostRuntime) -> Result<(), Fail> {
    plays_through(&rt, rt.alloc(), PIECES)
}

/// The same of few pieces, so that each of its allocations can be refused in turn.
#[test]
fn four_mib_from_one_peer(rt: HostRuntime) -> Result<(), Fail> {
    plays_through(&rt, rt.alloc(), FEW_PIECES)
}

/// The next piece is downloaded, block by block, and its blocks are handed out.
fn downloads(
    rt: &impl Abort,
    alloc: Global,
    keeper: &mut Keeper,
    zeros: &Bytes,
) -> Result<(), Fail> {
    for index in 0..BLOCKS {
        let block = asks(rt, alloc, keeper)?;
        comes(rt, alloc, keeper, zeros, block, index + 1 == BLOCKS)?;
        if index + 1 == BLOCKS {
            let settled = settle_now(keeper, 0, block.piece);
            hands_out(rt, &settled, BLOCKS as usize);
        }
    }
    Ok(())
}

/// The block that the first worker's peer is asked for, at the random number 0.
fn asks(rt: &impl Abort, alloc: Global, keeper: &mut Keeper) -> Result<Block, Fail> {
    match keeper.tell(alloc, 0, Told::Next(0))? {
        Reply::Request(block) => Ok(block),
        _ => panic!(rt; "no block is asked for"),
    }
}

/// The block comes, and with the last one of its piece the piece waits for its check.
fn comes(
    rt: &impl Abort,
    alloc: Global,
    keeper: &mut Keeper,
    zeros: &Bytes,
    block: Block,
    is_last: bool,
) -> Result<(), Fail> {
    let wanted = if is_last {
        Reply::Completed
    } else {
        Reply::Stored
    };
    let bytes = zeros.clone()?;
    arrives(
        rt,
        alloc,
        keeper,
        0,
        block.piece,
        block.begin,
        bytes,
        wanted,
    )?;
    assert!(rt; keeper.picker().is_waiting(block.piece) == is_last);
    Ok(())
}

/// The piece is had, and so many blocks are handed out.
fn hands_out(rt: &impl Abort, settled: &Settled, blocks: usize) {
    same(rt, settled.reply, Reply::Had, "a check");
    same(rt, settled.blocks.len(), blocks, "blocks");
}

/// The blocks of a piece of 32 MiB come.
fn brings_a_large_piece(rt: &impl Abort, alloc: Global, keeper: &mut Keeper) -> Result<(), Fail> {
    let zeros = zeros(alloc)?;
    for index in 0..LARGE_BLOCKS {
        let block = Block {
            piece: 0,
            begin: 16_384 * index,
            len: 16_384,
        };
        comes(rt, alloc, keeper, &zeros, block, index + 1 == LARGE_BLOCKS)?;
    }
    Ok(())
}

/// A job is made of the waiting piece, and its verdict settles the piece. So many blocks are handed out.
fn settles_by_a_job(
    rt: &impl Abort,
    alloc: Global,
    keeper: &mut Keeper,
    piece: u32,
    blocks: usize,
) -> Result<(), Fail> {
    let verdict = verdict_of(rt, alloc, keeper, piece)?;
    let settled = settle(keeper, &verdict);
    hands_out(rt, &settled, blocks);
    Ok(())
}

/// With ample memory a keeper has room for each block of a large piece, and for its job.
#[test]
fn a_piece_of_32_mib_is_kept(rt: HostRuntime) -> Result<(), Fail> {
    let torrent = torrent_of(rt.alloc(), LARGE, 1, LARGE_HASH)?;
    let mut keeper = keeper_of(&rt, rt.alloc(), torrent)?;
    brings_a_large_piece(&rt, rt.alloc(), &mut keeper)?;
    settles_by_a_job(&rt, rt.alloc(), &mut keeper, 0, LARGE_BLOCKS as usize)
}

/// And for a block of the last of many pieces, with its job.
#[test]
fn the_last_of_200_000_pieces(rt: HostRuntime) -> Result<(), Fail> {
    let mut keeper = keeper_of(&rt, rt.alloc(), torrent_of(rt.alloc(), 1, 200_000, A)?)?;
    let bytes = Bytes::from_static(b"a");
    arrives(
        &rt,
        rt.alloc(),
        &mut keeper,
        0,
        199_999,
        0,
        bytes,
        Reply::Completed,
    )?;
    settles_by_a_job(&rt, rt.alloc(), &mut keeper, 199_999, 1)
}
