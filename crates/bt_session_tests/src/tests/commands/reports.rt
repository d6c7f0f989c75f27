//! Journal lines. What is printed goes through a function without a contract, so that a test knows of what it gives alone.

use super::scripts::page;
use bt_expect::same;
use bt_meta::{BitFault, Bitfield, Block, ToWrite};
use bt_picker::{Call, Entry, Reason, Reply};
use bt_text::print_entry;
use bytes::Bytes;
use std::alloc::Global;
use std::test::*;

/// A call. Its block is the second of a piece, where it has one.
#[derive(Clone, Copy)]
enum Made {
    Join,
    Have(u32),
    Choke,
    Unchoke,
    Leave,
    Next,
    /// The second block of piece 0, with these bytes.
    Arrived(&'static [u8]),
    Release(u32),
    Late(u32),
    /// Bytes on the wire, and of how many pieces they tell.
    Bits(&'static [u8], u32),
    Want(&'static [u8], u32),
    Haves(&'static [u8], u32),
    Depth(u32),
    Alone(bool),
    Level(u32, u8),
    Levels(&'static [u8]),
    InOrder(bool),
    InOrderFrom(u8),
    Reach(u8),
}

const BLOCK: Block = Block {
    piece: 0,
    begin: 16384,
    len: 3,
};

/// The calls of worker 7 and their replies, with their lines. A level beyond 9 is told as 9.
const ROWS: &[(Made, Reply, &[u8])] = &[
    (Made::Join, Reply::Joined, b"7 join = joined\n"),
    (Made::Have(2), Reply::Noted(false), b"7 have 2 = noted no\n"),
    (Made::Choke, Reply::Quiet, b"7 choke = quiet\n"),
    (Made::Unchoke, Reply::Quiet, b"7 unchoke = quiet\n"),
    (
        Made::Leave,
        Reply::Refused(Reason::NotJoined),
        b"7 leave = refused 1\n",
    ),
    (
        Made::Bits(b"\xe0", 3),
        Reply::Noted(true),
        b"7 bits e0 = noted yes\n",
    ),
    (
        Made::Bits(b"\x0f\xa5\x80", 17),
        Reply::Refused(Reason::WrongCount),
        b"7 bits 0fa580 = refused 4\n",
    ),
    (Made::Want(b"\x40", 3), Reply::Quiet, b"7 want 40 = quiet\n"),
    (
        Made::Haves(b"\x20", 3),
        Reply::Noted(true),
        b"7 haves 20 = noted yes\n",
    ),
    (
        Made::Next,
        Reply::Request(BLOCK),
        b"7 next = request 0 16384 3\n",
    ),
    (
        Made::Next,
        Reply::Cancel(BLOCK),
        b"7 next = cancel 0 16384 3\n",
    ),
    (
        Made::Release(2),
        Reply::Refused(Reason::NotAsked),
        b"7 release 2 16384 = refused 10\n",
    ),
    (Made::Late(2), Reply::Quiet, b"7 late 2 16384 = quiet\n"),
    (
        Made::Depth(65),
        Reply::Refused(Reason::WrongDepth),
        b"7 depth 65 = refused 11\n",
    ),
    (Made::Alone(true), Reply::Quiet, b"7 alone yes = quiet\n"),
    (
        Made::Alone(false),
        Reply::Refused(Reason::NotJoined),
        b"7 alone no = refused 1\n",
    ),
    (Made::Level(2, 7), Reply::Quiet, b"7 level 2 7 = quiet\n"),
    (
        Made::Levels(b"\x04\x00\x09\xff"),
        Reply::Refused(Reason::WrongLevel),
        b"7 levels 4099 = refused 12\n",
    ),
    (
        Made::InOrder(true),
        Reply::Quiet,
        b"7 inorder yes = quiet\n",
    ),
    (
        Made::InOrder(false),
        Reply::Quiet,
        b"7 inorder no = quiet\n",
    ),
    (
        Made::InOrderFrom(5),
        Reply::Quiet,
        b"7 inorderfrom 5 = quiet\n",
    ),
    (
        Made::Reach(200),
        Reply::Refused(Reason::WrongLevel),
        b"7 reach 200 = refused 12\n",
    ),
    (
        Made::Arrived(b"abc"),
        Reply::Completed,
        b"7 block 0 16384 3 = completed\n",
    ),
];

fn call_of(alloc: Global, made: Made) -> Result<Call, BitFault> {
    match made {
        Made::Bits(bytes, pieces) => Ok(Call::Bits(bits(alloc, bytes, pieces)?)),
        Made::Want(bytes, pieces) => Ok(Call::Want(bits(alloc, bytes, pieces)?)),
        Made::Haves(bytes, pieces) => Ok(Call::Haves(bits(alloc, bytes, pieces)?)),
        made => Ok(plain_call(made)),
    }
}

fn bits(alloc: Global, bytes: &[u8], pieces: u32) -> Result<Bitfield, BitFault> {
    Bitfield::from_wire(alloc, bytes, pieces)
}

/// A call without a bitfield.
fn plain_call(made: Made) -> Call {
    let begin = 16384;
    match made {
        Made::Have(piece) => Call::Have(piece),
        Made::Choke => Call::Choke,
        Made::Unchoke => Call::Unchoke,
        Made::Leave => Call::Leave,
        Made::Next => Call::Next(5),
        Made::Arrived(bytes) => Call::Arrived {
            piece: 0,
            begin,
            bytes: Bytes::from_static(bytes),
        },
        Made::Release(piece) => Call::Release { piece, begin },
        Made::Late(piece) => Call::Late { piece, begin },
        Made::Depth(depth) => Call::Depth(depth),
        Made::Alone(alone) => Call::Alone(alone),
        Made::Level(piece, level) => Call::Level { piece, level },
        Made::Levels(levels) => Call::Levels(Bytes::from_static(levels)),
        Made::InOrder(rises) => Call::InOrder(rises),
        Made::InOrderFrom(level) => Call::InOrderFrom(level),
        Made::Reach(level) => Call::Reach(level),
        _ => Call::Join,
    }
}

/// The line of an entry.
fn line_of(alloc: Global, entry: &Entry) -> Result<Vec<u8>, Fail> {
    let mut out = ToWrite::new(page(alloc)?);
    print_entry(&mut out, entry)?;
    Ok(out.into_inner())
}

/// Checks the line of worker 7's call.
fn is_line(alloc: Global, made: Made, reply: Reply, wanted: &[u8]) -> Result<(), Fail> {
    let entry = Entry {
        worker: 7,
        call: call_of(alloc, made)?,
        reply,
    };
    let line = line_of(alloc, &entry)?;
    same(line.as_slice(), wanted)
}

#[test]
fn journal_lines(rt: HostRuntime) -> Result<(), Fail> {
    for &(made, reply, wanted) in ROWS {
        is_line(rt.alloc(), made, reply, wanted)?;
    }
    Ok(())
}
