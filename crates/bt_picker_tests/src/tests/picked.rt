//! What is done with a picker, as steps of a table, by a peer's worker and by one that stands for a disk.

use super::said::{Said, told_of};
use super::same::same;
use super::steps::torrent_of;
use bt_meta::{Block, Torrent};
use bt_picker::{Picker, Reply, Restored, Rules, Told, Unseen};
use sha1::Sha1;
use std::alloc::Global;
use std::process::Abort;
use std::sync::Arc;
use std::test::Fail;

/// The worker that stands for the disk.
pub const DISK: u32 = 1;

/// A block of full size.
pub const BLOCK: [u8; 16_384] = [0; 16_384];

/// A piece of three blocks, the last of five bytes.
pub const PIECE: [u8; 32_773] = [0; 32_773];

/// Its SHA-1, by another program.
const ZEROS: [u8; 20] = [
    0x98, 0xc9, 0x50, 0x75, 0x4c, 0xee, 0xb9, 0xa6, 0x67, 0x8d, 0x1e, 0xe6, 0x52, 0x35, 0x57, 0x25,
    0x7a, 0xd5, 0xcd, 0x69,
];

/// A call, or a question, and what has to come of it.
#[derive(Clone, Copy)]
pub enum Step {
    /// The worker tells this.
    Tells(u32, Said, Reply),
    /// The disk has these bytes of the piece.
    Restores(u32, &'static [u8], Restored),
    /// The disk has these bytes of the piece, and its client has compared them.
    Resumes(u32, &'static [u8], Restored),
    /// The first worker's peer brings a block of these bytes into the piece, so far in it, and the picker isn't passed them.
    Receives(u32, u32, &'static [u8], Reply),
    /// The piece is lost, and with it what was answered.
    Loses(u32),
    /// The block of piece 0 came from this worker's peer, or isn't held.
    SentBy(u32, Option<u32>),
    /// These blocks are in flight at the worker's peer, the oldest request first.
    InFlight(u32, &'static [Block]),
    Waits(u32),
    HasAll,
}

/// Plays the steps with a new picker of the pieces `abc`, `abc` and `a`.
pub fn plays(rt: &impl Abort, alloc: Global, steps: &[Step]) -> Result<(), Fail> {
    plays_with(rt, alloc, torrent_of(rt, alloc, "3 7 abc abc a")?, steps)
}

/// Plays the steps with a new picker of the piece of three blocks.
pub fn plays_blocks(rt: &impl Abort, alloc: Global, steps: &[Step]) -> Result<(), Fail> {
    let hashes = vec![in alloc; ZEROS]?;
    let torrent = Torrent::of_parts(32_773, 32_773, hashes, [0; 20])?;
    plays_with(rt, alloc, torrent, steps)
}

fn plays_with(
    rt: &impl Abort,
    alloc: Global,
    torrent: Torrent,
    steps: &[Step],
) -> Result<(), Fail> {
    let mut picker = picker_of(rt, alloc, torrent)?;
    for step in steps {
        play(rt, &mut picker, *step);
    }
    Ok(())
}

/// A picker of this torrent, for a peer and a disk.
fn picker_of(rt: &impl Abort, alloc: Global, torrent: Torrent) -> Result<Picker, Fail> {
    assert!(rt; torrent.piece_count() > 0);
    let torrent = Arc::new(alloc, torrent)?;
    Ok(Picker::new(alloc, torrent, 2, Rules::usual())?)
}

fn play(rt: &impl Abort, picker: &mut Picker, step: Step) {
    match step {
        Step::Tells(worker, said, wanted) => {
            let found = picker.tell(worker, told_of(said));
            same(rt, found, wanted, "a reply");
        }
        Step::Restores(piece, bytes, wanted) => {
            let found = restored(picker, piece, bytes);
            same(rt, found, wanted, "a piece of a disk");
        }
        Step::Resumes(piece, bytes, wanted) => {
            let found = resumed(rt, picker, piece, bytes);
            same(rt, found, wanted, "a piece without its bytes");
        }
        Step::Receives(piece, begin, bytes, wanted) => {
            let found = received(picker, piece, begin, bytes);
            same(rt, found, wanted, "a block without its bytes");
        }
        Step::Loses(piece) => loses(rt, picker, piece),
        Step::SentBy(index, wanted) => same(rt, sender(rt, picker, index), wanted, "a sender"),
        Step::InFlight(worker, wanted) => {
            assert!(rt; worker < picker.workers());
            assert!(rt; picker.outstanding(worker) == wanted);
        }
        Step::Waits(piece) => assert!(rt; picker.is_waiting(piece)),
        Step::HasAll => assert!(rt; picker.is_complete()),
    }
}

fn restored(picker: &mut Picker, piece: u32, bytes: &[u8]) -> Restored {
    picker.restore(DISK, piece, bytes, &Sha1::digest(bytes))
}

fn resumed(rt: &impl Abort, picker: &mut Picker, piece: u32, bytes: &[u8]) -> Restored {
    let torrent = picker.torrent();
    assert!(rt; piece < torrent.piece_count());
    assert!(rt; bytes.len() == torrent.piece_len(piece) as usize);
    let passed = Sha1::digest(bytes) == *torrent.hash(piece);
    picker.resume(DISK, piece, &Unseen::of(bytes), passed)
}

fn received(picker: &mut Picker, piece: u32, begin: u32, bytes: &[u8]) -> Reply {
    picker.received(0, piece, begin, &Unseen::of(bytes), bytes.len())
}

fn loses(rt: &impl Abort, picker: &mut Picker, piece: u32) {
    let epoch = picker.epoch();
    same(
        rt,
        picker.tell(0, Told::Lose(piece)),
        Reply::Failed,
        "a loss",
    );
    assert!(rt; picker.epoch() > epoch);
}

/// The worker whose peer brought the block of piece 0, where it is held.
fn sender(rt: &impl Abort, picker: &Picker, index: u32) -> Option<u32> {
    let torrent = picker.torrent();
    assert!(rt; torrent.piece_count() > 0);
    assert!(rt; index < torrent.block_count(0));
    picker.sender(0, index)
}
