//! Devices over memory.

use bt_expect::same;
use bt_meta::*;
use std::io::Cursor;
use std::test::Fail;

/// A source that gives a byte at a time, and behind the last one fails or ends.
#[derive(Drop)]
struct Drip {
    rest: &'static [u8],
    fails: bool,
    failed: bool,
    ended: bool,
    reads: u64,
}

impl Drip {
    fn new(bytes: &'static [u8], fails: bool) -> Drip {
        Drip {
            rest: bytes,
            fails,
            failed: false,
            ended: false,
            reads: 0,
        }
    }
}

impl Source for Drip {
    ghost use Rattle.std.specs.Prelude.{None};

    ghost left = { λ _. None };

    ghost failed = { λ s. s.failed };

    ghost ended = { λ s. s.ended };

    ghost reads = { λ s. s.reads };

    fn read(&mut self, room: &mut [u8]) -> Result<usize, DeviceFault> {
        self.reads = self.reads.saturating_add(1);
        if room.is_empty() {
            return Ok(0);
        }
        if let Some((first, rest)) = self.rest.split_first() {
            room[0] = *first;
            self.rest = rest;
            return Ok(1);
        }
        if self.fails {
            self.failed = true;
            return Err(DeviceFault);
        }
        self.ended = true;
        Ok(0)
    }
}

/// Moves bytes through a small room until the source ends.
fn copy<R: Source, W: Sink>(from: &mut R, to: &mut W) -> Result<(), DeviceFault> {
    let mut room = [0; 2];
    for _ in 0..20 {
        let count = from.read(&mut room)?;
        if count == 0 {
            return Ok(());
        }
        write_all(to, &room[..count])?;
    }
    Ok(())
}

#[test]
fn readers_and_writers_are_devices(rt: HostRuntime) -> Result<(), Fail> {
    let mut from = FromRead::new(Cursor::new(b"abcde".as_slice()));
    let mut to = ToWrite::new(Vec::with_capacity(rt.alloc(), 5)?);
    copy(&mut from, &mut to)?;
    same(to.into_inner().as_slice(), b"abcde".as_slice())
}

#[test]
fn a_byte_at_a_time_and_the_end(rt: HostRuntime) -> Result<(), Fail> {
    let mut from = Drip::new(b"abc", false);
    let mut to = ToWrite::new(Vec::with_capacity(rt.alloc(), 5)?);
    assert!(rt; copy(&mut from, &mut to) == Ok(()));
    same(to.into_inner().as_slice(), b"abc".as_slice())?;
    assert!(rt; from.ended && !from.failed && from.reads == 4);
    Ok(())
}

#[test]
fn a_byte_at_a_time_and_a_failure(rt: HostRuntime) -> Result<(), Fail> {
    let mut from = Drip::new(b"abc", true);
    let mut to = ToWrite::new(Vec::with_capacity(rt.alloc(), 5)?);
    assert!(rt; copy(&mut from, &mut to) == Err(DeviceFault));
    same(to.into_inner().as_slice(), b"abc".as_slice())?;
    assert!(rt; from.failed && !from.ended);
    Ok(())
}

#[test]
fn a_full_writer(rt: HostRuntime) -> Result<(), Fail> {
    let mut room = [0; 4];
    let mut to = ToWrite::new(room.as_mut_slice());
    assert!(rt; write_all(&mut to, b"abcdef") == Err(DeviceFault));
    assert!(rt; room == *b"abcd");
    Ok(())
}
