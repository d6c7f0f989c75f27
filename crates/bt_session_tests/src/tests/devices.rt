//! Streams that end early, readers that fail, and writers that take little or fail.

use super::made::{PEER, output, peer};
use super::whole::{WHOLE, played, whole_written};
use bt_expect::same;
use bt_meta::{DeviceFault, FromRead, Sink, Source};
use bt_peer::{End, SessionFault};
use std::alloc::Global;
use std::io::Cursor;
use std::process::Abort;
use std::test::Fail;

/// How the session of a desk's only worker ended whose peer sends these bytes, and its calls.
fn played_alone<W: Sink>(
    alloc: Global,
    sent: &[u8],
    writer: &mut W,
) -> Result<(Result<End, SessionFault>, String), Fail> {
    played(alloc, 1, &mut FromRead::new(Cursor::new(sent)), writer)
}

/// A stream that ends between two messages ends well; one that ends in the handshake makes no call, and one in a message is a fault.
#[test]
fn each_front_of_a_stream(rt: HostRuntime) -> Result<(), Fail> {
    let sent = peer(rt.alloc(), 1, &PEER)?;
    for len in 0..=sent.len() {
        play_front(&rt, rt.alloc(), &sent[..len])?;
    }
    Ok(())
}

/// How this front of a stream ends.
fn play_front(rt: &impl Abort, alloc: Global, front: &[u8]) -> Result<(), Fail> {
    let mut writer = output(alloc)?;
    let (end, calls) = played_alone(alloc, front, &mut writer)?;
    front_ends(rt, front.len(), end, calls.as_str())
}

/// Checks how a front of this length ended, and its calls.
fn front_ends(
    rt: &impl Abort,
    len: usize,
    end: Result<End, SessionFault>,
    calls: &str,
) -> Result<(), Fail> {
    let messages = match len {
        68 => Some(0),
        74 => Some(1),
        79 => Some(2),
        95 => Some(3),
        _ => None,
    };
    match messages {
        Some(messages) => assert!(rt; end == Ok(End { messages })),
        None => assert!(rt; end == Err(SessionFault::Truncated)),
    }
    assert!(rt; calls.is_empty() == (len < 68));
    if len == 68 {
        same(calls, "join = Joined; leave = Quiet; ")?;
    }
    Ok(())
}

/// A source that gives a byte at a time, until a read fails.
#[derive(Drop)]
struct Breaking<'a> {
    rest: &'a [u8],
    left: usize,
    reads: u64,
    failed: bool,
    ended: bool,
}

impl Source for Breaking<'_> {
    ghost use Rattle.std.specs.Prelude.{None};

    ghost left = { λ _. None };

    ghost failed = { λ s. s.failed };

    ghost ended = { λ s. s.ended };

    ghost reads = { λ s. s.reads };

    fn read(&mut self, room: &mut [u8]) -> Result<usize, DeviceFault> {
        self.reads = self.reads.saturating_add(1);
        if self.left == 0 {
            self.failed = true;
            return Err(DeviceFault);
        }
        self.left -= 1;
        let (Some(to), Some((byte, rest))) = (room.first_mut(), self.rest.split_first()) else {
            self.ended |= !room.is_empty();
            return Ok(0);
        };
        *to = *byte;
        self.rest = rest;
        Ok(1)
    }
}

/// Whichever read fails, what was written is a front of what a whole session writes.
#[test]
fn each_read_fails(rt: HostRuntime) -> Result<(), Fail> {
    let sent = peer(rt.alloc(), 1, &PEER)?;
    let whole = whole_written(rt.alloc(), b'0')?;
    for left in 0..sent.len() {
        read_fails(&rt, rt.alloc(), &sent, &whole, left)?;
    }
    Ok(())
}

/// A read fails after so many of the bytes that are sent.
fn read_fails(
    rt: &impl Abort,
    alloc: Global,
    sent: &[u8],
    whole: &[u8],
    left: usize,
) -> Result<(), Fail> {
    let mut writer = output(alloc)?;
    let mut reader = Breaking {
        rest: sent,
        left,
        reads: 0,
        failed: false,
        ended: false,
    };
    let (end, _) = played(alloc, 1, &mut reader, &mut writer)?;
    assert!(rt; end == Err(SessionFault::ReadFault));
    assert!(rt; whole.starts_with(writer.into_inner().as_slice()));
    Ok(())
}

/// A sink that takes a byte at a time, and fails where it has no room. What it has taken has its memory from the start.
#[derive(Drop)]
struct Narrow {
    kept: Vec<u8>,
    room: usize,
    failed: bool,
}

impl Sink for Narrow {
    ghost use Rattle.std.specs.Prelude.{None};

    ghost written = { λ _. None };

    ghost failed = { λ s. s.failed };

    fn write(&mut self, bytes: &[u8]) -> Result<usize, DeviceFault> {
        let Some(byte) = bytes.first() else {
            return Ok(0);
        };
        if self.room == 0 || self.kept.push(*byte).is_err() {
            self.failed = true;
            return Err(DeviceFault);
        }
        self.room -= 1;
        Ok(1)
    }
}

/// Wherever the writer fails, it has taken a front, and the peer has left if it was in.
#[test]
fn each_write_fails(rt: HostRuntime) -> Result<(), Fail> {
    let sent = peer(rt.alloc(), 1, &PEER)?;
    let whole = whole_written(rt.alloc(), b'0')?;
    for room in 0..whole.len() {
        write_fails(&rt, rt.alloc(), &sent, &whole[..room])?;
    }
    let (end, calls) = write_front(&rt, rt.alloc(), &sent, &whole)?;
    ends_whole(&rt, end, &calls)
}

/// A write fails after this front.
fn write_fails(rt: &impl Abort, alloc: Global, sent: &[u8], front: &[u8]) -> Result<(), Fail> {
    let (end, calls) = write_front(rt, alloc, sent, front)?;
    ends_in_a_write(rt, front.len(), end, &calls)
}

/// How a session ended whose writer has room for this front alone, which it has taken, and the calls.
fn write_front(
    rt: &impl Abort,
    alloc: Global,
    sent: &[u8],
    front: &[u8],
) -> Result<(Result<End, SessionFault>, String), Fail> {
    let mut writer = Narrow {
        kept: Vec::with_capacity(alloc, front.len())?,
        room: front.len(),
        failed: false,
    };
    let told = played_alone(alloc, sent, &mut writer)?;
    assert!(rt; writer.kept.as_slice() == front);
    Ok(told)
}

/// Checks that a session ended well.
fn ends_whole(rt: &impl Abort, end: Result<End, SessionFault>, calls: &str) -> Result<(), Fail> {
    assert!(rt; end == Ok(End { messages: 3 }));
    same(calls, WHOLE)
}

/// Checks how a session ended whose writer had room for so many bytes, which were too few.
fn ends_in_a_write(
    rt: &impl Abort,
    room: usize,
    end: Result<End, SessionFault>,
    calls: &str,
) -> Result<(), Fail> {
    assert!(rt; end == Err(SessionFault::WriteFault));
    if room < 68 {
        same(calls, "")?;
    } else {
        assert!(rt; calls.ends_with("leave = Quiet; "));
    }
    if room == 68 {
        same(calls, "join = Joined; bits = Noted(true); leave = Quiet; ")?;
    }
    Ok(())
}
