//! Devices: where bytes come from, and where they go.

ghost use Rattle.std.specs.Prelude.{◌≡◌, ◌||◌, ℕ, Bool, true, false, List, Option, is_err, OnOk, OnErr};
ghost use Rattle.std.specs.Io.{ReadsAtMost, WritesAtMost};
ghost use Rattle.std.specs.Io.KnownBytes.{Appends, ReadConsumes, WriteAppends};
ghost use Rattle.bt_meta.specs.Devices.{one_more, is_end, is_refused, WroteFront};

use std::io::{Read, Write};
use thiserror::Error;

/// A read or a write that failed.
#[derive(Clone, Copy, Debug, PartialEq, Eq, Error)]
#[error("a read or a write failed")]
pub struct DeviceFault;

/// Where bytes come from. A read that fails gives none, and one may be asked for again.
pub trait Source {
    /// The bytes that are left, where they are known.
    ghost left: { Self → Option (List ℕ) };

    /// A read has answered `Err`.
    ghost failed: { Self → Bool };

    /// A read into some room has given no byte. Where the bytes are known, none was left then.
    ghost ended: { Self → Bool };

    /// How many reads were asked for, up to the largest `u64`.
    ghost reads: { Self → ℕ };

    /// Reads some bytes to the front of the room, and says how many. None are given only at the end, or where there is no room.
    fn read(&mut self, room: &mut [u8]) -> Result<usize, DeviceFault>
        ensures bound { ReadsAtMost result room.new }
        ensures bytes { ReadConsumes (left self.old) (left self.new) result room.new }
        ensures failed { failed self.new ≡ (failed self.old || is_err result) }
        ensures ended { ended self.new ≡ (ended self.old || is_end result room.new) }
        ensures reads { reads self.new ≡ one_more (reads self.old) };
}

/// Where bytes go.
pub trait Sink {
    /// The bytes that were written, where they are known.
    ghost written: { Self → Option (List ℕ) };

    /// A write has answered `Err`, or has taken none of some bytes.
    ghost failed: { Self → Bool };

    /// Writes some bytes of the front, and says how many. A write that fails has taken none.
    fn write(&mut self, bytes: &[u8]) -> Result<usize, DeviceFault>
        ensures bound { WritesAtMost result bytes.now }
        ensures bytes { WriteAppends (written self.old) (written self.new) result bytes.now }
        ensures failed { failed self.new ≡ (failed self.old || is_refused result bytes.now) };
}

/// Writes all the bytes, in as many writes as it takes. A write that fails, or takes none of them, ends it: then a front is written.
pub fn write_all<W: Sink>(writer: &mut W, bytes: &[u8]) -> Result<(), DeviceFault>
    ensures ok { OnOk result (Appends (W.written writer.old) (W.written writer.new) bytes.now) }
    ensures sound { OnOk result (W.failed writer.new ≡ W.failed writer.old) }
    ensures err { OnErr result (WroteFront (W.written writer.old) bytes.now (W.written writer.new)) }
    ensures failed { OnErr result (W.failed writer.new ≡ true) }
{
    let mut rest = bytes;
    while !rest.is_empty() {
        match writer.write(rest)? {
            0 => return Err(DeviceFault),
            count => rest = rest.split_at(count).1,
        }
    }
    Ok(())
}

/// A source made of a reader.
#[derive(Drop)]
pub struct FromRead<R> {
    inner: R,
    reads: u64,
    failed: bool,
    ended: bool,
}

impl<R: Read> FromRead<R> {
    /// A source of which nothing was asked yet.
    pub fn new(inner: R) -> FromRead<R>
        ensures left { ⟦<FromRead<R> as Source>⟧.left result ≡ R.remaining inner }
        ensures failed { ⟦<FromRead<R> as Source>⟧.failed result ≡ false }
        ensures ended { ⟦<FromRead<R> as Source>⟧.ended result ≡ false }
        ensures reads { ⟦<FromRead<R> as Source>⟧.reads result ≡ 0 }
    {
        FromRead {
            inner,
            reads: 0,
            failed: false,
            ended: false,
        }
    }
}

impl<R: Read> Source for FromRead<R> {
    ghost left = { λ s. R.remaining s.inner };

    ghost failed = { λ s. s.failed };

    ghost ended = { λ s. s.ended };

    ghost reads = { λ s. s.reads };

    fn read(&mut self, room: &mut [u8]) -> Result<usize, DeviceFault> {
        self.reads = self.reads.saturating_add(1);
        match self.inner.read(room) {
            Ok(count) => {
                if count == 0 && !room.is_empty() {
                    self.ended = true;
                }
                Ok(count)
            }
            Err(_) => {
                self.failed = true;
                Err(DeviceFault)
            }
        }
    }
}

/// A sink made of a writer.
#[derive(Drop)]
pub struct ToWrite<W> {
    inner: W,
    failed: bool,
}

impl<W: Write> ToWrite<W> {
    pub fn new(inner: W) -> ToWrite<W>
        ensures written { ⟦<ToWrite<W> as Sink>⟧.written result ≡ W.contents inner }
        ensures failed { ⟦<ToWrite<W> as Sink>⟧.failed result ≡ false }
    {
        ToWrite {
            inner,
            failed: false,
        }
    }

    /// The writer, with what was written.
    pub fn into_inner(self) -> W
        ensures { W.contents result ≡ ⟦<ToWrite<W> as Sink>⟧.written self }
    {
        let ToWrite { inner, failed: _ } = self;
        inner
    }
}

impl<W: Write> Sink for ToWrite<W> {
    ghost written = { λ s. W.contents s.inner };

    ghost failed = { λ s. s.failed };

    fn write(&mut self, bytes: &[u8]) -> Result<usize, DeviceFault> {
        match self.inner.write(bytes) {
            Ok(count) => {
                if count == 0 && !bytes.is_empty() {
                    self.failed = true;
                }
                Ok(count)
            }
            Err(_) => {
                self.failed = true;
                Err(DeviceFault)
            }
        }
    }
}
