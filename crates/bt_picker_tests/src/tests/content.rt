//! Content that is written.

use super::played::Played;
use super::same::same;
use bt_meta::{DeviceFault, Sink, ToWrite};
use bt_picker::ContentFault;
use std::alloc::{AllocError, Global};
use std::process::Abort;
use std::test::*;

/// How a sink with no room left answers.
#[derive(Clone, Copy)]
enum Full {
    Fails,
    TakesNone,
}

/// A sink over memory that takes few bytes at once, and has little room.
#[derive(Drop)]
struct Little {
    kept: Vec<u8>,
    at_once: usize,
    room: usize,
    full: Full,
    failed: bool,
}

impl Little {
    fn new(alloc: Global, at_once: usize, room: usize, full: Full) -> Result<Little, AllocError> {
        Ok(Little {
            kept: Vec::with_capacity(alloc, room)?,
            at_once,
            room,
            full,
            failed: false,
        })
    }
}

impl Sink for Little {
    ghost use Rattle.std.specs.Prelude.{None};

    ghost written = { λ _. None };

    ghost failed = { λ s. s.failed };

    fn write(&mut self, bytes: &[u8]) -> Result<usize, DeviceFault> {
        if bytes.is_empty() {
            return Ok(0);
        }
        let count = bytes.len().min(self.at_once).min(self.room);
        if count == 0 {
            self.failed = true;
            return match self.full {
                Full::Fails => Err(DeviceFault),
                Full::TakesNone => Ok(0),
            };
        }
        if self.kept.extend_from_slice(&bytes[..count]).is_err() {
            self.failed = true;
            return Err(DeviceFault);
        }
        self.room -= count;
        Ok(count)
    }
}

/// A desk at which the blocks of pieces `abc`, `abc` and `a` came, but for the last ones, and each full piece is checked.
fn with_blocks(rt: &impl Abort, alloc: Global, count: usize) -> Result<Played, Fail> {
    let mut played = Played::new(rt, alloc)?;
    play_blocks(rt, alloc, &mut played, count)?;
    Ok(played)
}

/// Plays so many blocks at the desk, and has each full piece checked.
fn play_blocks(
    rt: &impl Abort,
    alloc: Global,
    played: &mut Played,
    count: usize,
) -> Result<(), Fail> {
    let steps = "0 block 0 0 abc = completed\n\
        0 block 1 0 abc = completed\n\
        0 block 2 0 a = completed";
    played.play(rt, alloc, "0 join = joined")?;
    played.play_front(rt, alloc, steps, count)?;
    played.finish(rt, alloc, 0)
}

/// Writes all pieces to a sink that takes so many bytes at once and has this room. Checks what comes of it, and what the sink took.
fn writes(
    rt: &impl Abort,
    alloc: Global,
    played: &Played,
    sink: (usize, usize, Full),
    wanted: Result<(), ContentFault>,
    taken: &[u8],
) -> Result<(), Fail> {
    let (at_once, room, full) = sink;
    let mut writer = Little::new(alloc, at_once, room, full)?;
    same(rt, played.write(&mut writer), wanted, "all pieces");
    took(rt, &writer, taken);
    Ok(())
}

/// Checks what a sink took, which failed where it has no room.
fn took(rt: &impl Abort, sink: &Little, wanted: &[u8]) {
    same(rt, sink.kept.as_slice(), wanted, "what the sink took");
    assert!(rt; !sink.failed || sink.room == 0);
}

/// How many bytes a sink takes at once, its room, and how it is full; what comes of a write, and what the sink took. The first piece is
/// written first, and a sink of enough room takes all.
const ROWS: &[(
    (usize, usize, Full),
    Result<(), ContentFault>,
    &'static [u8],
)] = &[
    ((100, 7, Full::Fails), Ok(()), b"abcabca"),
    (
        (100, 4, Full::Fails),
        Err(ContentFault::WriteFault),
        b"abca",
    ),
    ((1, 7, Full::Fails), Ok(()), b"abcabca"),
];

#[test]
fn pieces_in_order(rt: HostRuntime) -> Result<(), Fail> {
    let played = with_blocks(&rt, rt.alloc(), 3)?;
    for &(sink, wanted, taken) in ROWS {
        writes(&rt, rt.alloc(), &played, sink, wanted, taken)?;
    }
    writes_in_each_room(&rt, rt.alloc(), &played)
}

/// A sink takes as many bytes as it has room for, one at once, and then the write fails.
fn writes_in_each_room(rt: &impl Abort, alloc: Global, played: &Played) -> Result<(), Fail> {
    let failed = Err(ContentFault::WriteFault);
    for room in 0..7 {
        let front = &b"abcabca"[..room];
        for full in [Full::Fails, Full::TakesNone] {
            writes(rt, alloc, played, (1, room, full), failed, front)?;
        }
    }
    Ok(())
}

/// As a piece is missing, the sink gets nothing.
#[test]
fn nothing_where_a_piece_is_missing(rt: HostRuntime) -> Result<(), Fail> {
    let played = with_blocks(&rt, rt.alloc(), 2)?;
    let incomplete = Err(ContentFault::Incomplete);
    let sink = (100, 100, Full::Fails);
    writes(&rt, rt.alloc(), &played, sink, incomplete, b"")?;
    same(&rt, ContentFault::Incomplete as u8, 1, "incomplete");
    same(&rt, ContentFault::WriteFault as u8, 2, "a write fault");
    Ok(())
}

#[test]
fn one_piece_once_it_is_had(rt: HostRuntime) -> Result<(), Fail> {
    let played = with_blocks(&rt, rt.alloc(), 2)?;
    same(&rt, played.made_of(), (4, 5, 3), "the desk");
    writes_one_piece(&rt, rt.alloc(), &played)
}

/// The last piece, which is missing, isn't written, and the second one is.
fn writes_one_piece(rt: &impl Abort, alloc: Global, played: &Played) -> Result<(), Fail> {
    let mut writer = ToWrite::new(Vec::with_capacity(alloc, 3)?);
    write_two(rt, played, &mut writer);
    same(rt, writer.into_inner().as_slice(), b"abc", "the second");
    Ok(())
}

fn write_two<W: Sink>(rt: &impl Abort, played: &Played, writer: &mut W) {
    let incomplete = Err(ContentFault::Incomplete);
    same(rt, played.write_piece(rt, writer, 2), incomplete, "piece 2");
    same(rt, played.write_piece(rt, writer, 1), Ok(()), "piece 1");
}
