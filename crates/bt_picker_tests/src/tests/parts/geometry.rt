//! Pieces and blocks, by worked examples. What is made and asked goes through functions without a contract, so that a test knows of what
//! they give alone, and its proof is short: each tests when it runs what its call requires.

use bt_expect::same;
use bt_meta::*;
use std::alloc::{AllocError, Global};
use std::process::Abort;
use std::test::*;

/// So many digests, the first byte of each its place.
fn digests(alloc: Global, count: u8) -> Result<Vec<[u8; 20]>, AllocError> {
    let mut digests = Vec::new(alloc);
    for place in 0..count {
        digests.push([place; 20])?;
    }
    Ok(digests)
}

/// A torrent of so many pieces, or why these parts make none.
fn made(
    alloc: Global,
    piece_length: u32,
    total: u64,
    count: u8,
    infohash: [u8; 20],
) -> Result<Result<Torrent, MetaFault>, AllocError> {
    let digests = digests(alloc, count)?;
    Ok(Torrent::of_parts(piece_length, total, digests, infohash))
}

/// What is expected of the piece, where there is such a piece.
fn hash(torrent: &Torrent, piece: u32) -> Option<[u8; 20]> {
    if piece < torrent.piece_count() {
        Some(*torrent.hash(piece))
    } else {
        None
    }
}

/// The bytes of the piece, where there is such a piece.
fn piece_len(torrent: &Torrent, piece: u32) -> Option<u32> {
    if piece < torrent.piece_count() {
        Some(torrent.piece_len(piece))
    } else {
        None
    }
}

/// The blocks of the piece, where there is such a piece.
fn block_count(torrent: &Torrent, piece: u32) -> Option<u32> {
    if piece < torrent.piece_count() {
        Some(torrent.block_count(piece))
    } else {
        None
    }
}

/// The block of the piece, where there is such a block.
fn block(torrent: &Torrent, piece: u32, index: u32) -> Option<Block> {
    if piece < torrent.piece_count() && index < torrent.block_count(piece) {
        Some(torrent.block(piece, index))
    } else {
        None
    }
}

/// The block of the piece that begins there, where there is such a piece.
fn block_at(torrent: &Torrent, piece: u32, begin: u32) -> Option<Option<Block>> {
    if piece < torrent.piece_count() {
        Some(torrent.block_at(piece, begin))
    } else {
        None
    }
}

/// Checks what a torrent of three pieces says of itself.
fn says_its_parts(rt: &impl Abort, torrent: &Torrent) -> Result<(), Fail> {
    same(torrent.piece_count(), 3)?;
    same(torrent.piece_length(), 3)?;
    same(torrent.total(), 7)?;
    same(torrent.file_count(), 1)?;
    same(*torrent.infohash(), [9; 20])?;
    assert!(rt; torrent.name().is_empty());
    Ok(())
}

/// Checks what it says of its last two pieces.
fn says_its_pieces(torrent: &Torrent) -> Result<(), Fail> {
    same(hash(torrent, 2), Some([2; 20]))?;
    same(piece_len(torrent, 1), Some(3))?;
    same(piece_len(torrent, 2), Some(1))?;
    let last = Block {
        piece: 2,
        begin: 0,
        len: 1,
    };
    same(block(torrent, 2, 0), Some(last))
}

#[test]
fn a_small_torrent(rt: HostRuntime) -> Result<(), Fail> {
    let torrent = made(rt.alloc(), 3, 7, 3, [9; 20])??;
    says_its_parts(&rt, &torrent)?;
    says_its_pieces(&torrent)
}

/// A block of the first piece.
const fn first(begin: u32, len: u32) -> Block {
    Block {
        piece: 0,
        begin,
        len,
    }
}

/// Checks the blocks of a torrent's only piece.
fn has_its_blocks(torrent: &Torrent) -> Result<(), Fail> {
    // Where a block may begin, and the bytes of the one that does.
    const ROWS: &[(u32, Option<u32>)] = &[
        (0, Some(16_384)),
        (1, None),
        (16_383, None),
        (16_384, Some(16_384)),
        (999_424, Some(576)),
        (1_015_808, None),
    ];
    same(block_count(torrent, 0), Some(62))?;
    same(block(torrent, 0, 61), Some(first(999_424, 576)))?;
    for &(begin, len) in ROWS {
        let block = len.map(|len| first(begin, len));
        same(block_at(torrent, 0, begin), Some(block))?;
    }
    Ok(())
}

#[test]
fn blocks_of_a_piece(rt: HostRuntime) -> Result<(), Fail> {
    let torrent = made(rt.alloc(), 1_000_000, 1_000_000, 1, [0; 20])??;
    has_its_blocks(&torrent)?;
    let torrent = made(rt.alloc(), 32_768, 65_536, 2, [0; 20])??;
    same(block_count(&torrent, 1), Some(2))
}

#[test]
fn parts_that_make_no_torrent(rt: HostRuntime) -> Result<(), Fail> {
    const ROWS: &[(u32, u64, u8, MetaFault)] = &[
        (0, 0, 0, MetaFault::PieceLength),
        ((1 << 31) + 1, 7, 3, MetaFault::PieceLength),
        (3, 0, 0, MetaFault::NoContent),
        // So many bytes are too many pieces too, whatever a piece's length.
        (3, 1 << 63, 3, MetaFault::TooLarge),
        (1, 1 << 32, 3, MetaFault::TooLarge),
        (3, 7, 2, MetaFault::CountMismatch),
        (3, 7, 4, MetaFault::CountMismatch),
    ];
    for &(piece_length, total, count, fault) in ROWS {
        let made = made(rt.alloc(), piece_length, total, count, [0; 20])?;
        same(made.err(), Some(fault))?;
    }
    Ok(())
}

fn set_of(alloc: Global, bytes: &[u8], pieces: u32) -> Result<Bitfield, BitFault> {
    Bitfield::from_wire(alloc, bytes, pieces)
}

/// Why the bytes are no bitfield of so many pieces, and none of one. A call that found no memory is made once more.
fn bit_fault(alloc: Global, bytes: &[u8], pieces: u32) -> Option<BitFault> {
    match set_of(alloc, bytes, pieces).err() {
        Some(BitFault::NoMemory) => set_of(alloc, bytes, pieces).err(),
        fault => fault,
    }
}

#[test]
fn bitfields_off_the_wire(rt: HostRuntime) -> Result<(), Fail> {
    const ROWS: &[(&[u8], Option<BitFault>)] = &[
        (&[0xe0], None),
        (&[0xf0], Some(BitFault::SpareBits)),
        (&[0xe1], Some(BitFault::SpareBits)),
        (&[0xe0, 0x00], Some(BitFault::WrongCount)),
        (&[], Some(BitFault::WrongCount)),
    ];
    for &(bytes, fault) in ROWS {
        same(bit_fault(rt.alloc(), bytes, 3), fault)?;
    }
    Ok(())
}

/// Whether the piece is one of the set.
fn has(set: &Bitfield, piece: u32) -> bool {
    piece < set.count() && set.has(piece)
}

fn count_ones(set: &Bitfield) -> u32 {
    set.count_ones()
}

fn to_wire(alloc: Global, set: &Bitfield) -> Result<Vec<u8>, AllocError> {
    set.to_wire(alloc)
}

fn as_wire(set: &Bitfield) -> &[u8] {
    set.as_wire()
}

/// Checks how the set is spelled on the wire.
fn is_spelled(alloc: Global, set: &Bitfield, wanted: &[u8]) -> Result<(), Fail> {
    let bytes = to_wire(alloc, set)?;
    same(bytes.as_slice(), wanted)
}

#[test]
fn a_bitfield_off_the_wire_and_back(rt: HostRuntime) -> Result<(), Fail> {
    let shown = set_of(rt.alloc(), &[0x80, 0x40], 10)?;
    same(shown.count(), 10)?;
    same(count_ones(&shown), 2)?;
    assert!(rt; has(&shown, 0) && has(&shown, 9) && !has(&shown, 8));
    is_spelled(rt.alloc(), &shown, &[0x80, 0x40])
}

/// The first piece of the set from that one on.
fn first_from(set: &Bitfield, piece: u32) -> Option<u32> {
    set.first_from(piece)
}

#[test]
fn bitfields_are_looked_through(rt: HostRuntime) -> Result<(), Fail> {
    const ROWS: &[(u32, Option<u32>)] = &[
        (0, Some(0)),
        (1, Some(17)),
        (17, Some(17)),
        (18, Some(23)),
        (23, Some(23)),
        (24, None),
        (u32::MAX, None),
    ];
    let shown = set_of(rt.alloc(), &[0x80, 0x00, 0x41], 24)?;
    for &(piece, found) in ROWS {
        same(first_from(&shown, piece), found)?;
    }
    Ok(())
}

fn empty(alloc: Global, pieces: u32) -> Result<Bitfield, AllocError> {
    Bitfield::empty(alloc, pieces)
}

/// Adds the piece, where there is such a piece.
fn set(set: &mut Bitfield, piece: u32) {
    if piece < set.count() {
        set.set(piece);
    }
}

/// Takes over the other set, where it is of as many pieces.
fn copy_from(set: &mut Bitfield, other: &Bitfield) {
    if other.count() == set.count() {
        set.copy_from(other);
    }
}

fn clear(set: &mut Bitfield) {
    set.clear();
}

#[test]
fn bitfields_onto_the_wire(rt: HostRuntime) -> Result<(), Fail> {
    let mut had = empty(rt.alloc(), 3)?;
    is_spelled(rt.alloc(), &had, &[0x00])?;
    set(&mut had, 0);
    set(&mut had, 2);
    same(count_ones(&had), 2)?;
    is_spelled(rt.alloc(), &had, &[0xa0])?;
    same(as_wire(&had), [0xa0].as_slice())
}

#[test]
fn a_bitfield_of_another(rt: HostRuntime) -> Result<(), Fail> {
    let mut had = set_of(rt.alloc(), &[0xa0], 3)?;
    let mut shown = empty(rt.alloc(), 3)?;
    copy_from(&mut shown, &had);
    clear(&mut had);
    same(as_wire(&shown), [0xa0].as_slice())?;
    same(as_wire(&had), [0x00].as_slice())
}
