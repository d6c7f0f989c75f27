//! The unread bytes of a stream.

ghost use Rattle.std.specs.Prelude.{◌≡◌, ◌≤◌, ◌++◌, List, [], take, drop, length, IfOk, OnOk, OnErr};

use bytes::{Bytes, BytesMut};
use std::alloc::{AllocError, Global};
use std::marker::Model;
use std::mem;

/// A block with no more than this many bytes in front of the unread ones is left as it is.
const SLACK: usize = 64 * 1024;

/// Bytes that come in at the end and go out at the front. Both take time linear in the bytes, however they are cut: a byte
/// is copied when it comes in, and moved only where the block doubles or where as many bytes have gone out in front.
/// So a block has less than four bytes to each unread one, and twice the slack, while there is memory to give it back.
#[derive(Drop)]
pub struct Buffer {
    unread: BytesMut,
    /// At least as many bytes as lie unused in front of the unread ones.
    gone: usize,
}

impl Model for Buffer {
    ghost use Rattle.std.specs.Prelude.{ℕ, List};

    ghost Value = { List ℕ };

    ghost view = { λ b. b.unread.items };
}

impl Buffer {
    pub fn new(alloc: Global) -> Buffer
        ensures { result ≡ [] }
    {
        Buffer {
            unread: BytesMut::new(alloc),
            gone: 0,
        }
    }

    /// How many bytes are held.
    pub fn len(&self) -> usize
        ensures { result ≡ length self.now }
    {
        self.unread.len()
    }

    /// The bytes that are held.
    pub fn as_slice(&self) -> &[u8]
        ensures { result.now ≡ self.now }
    {
        self.unread.as_slice()
    }

    /// Makes room for these bytes alone.
    pub fn append(&mut self, bytes: &[u8]) -> Result<(), AllocError>
        ensures ok { OnOk result (self.new ≡ self.old ++ bytes.now) }
        ensures err { OnErr result (self.new ≡ self.old) }
    {
        self.unread.extend_from_slice(bytes)
    }

    /// Takes bytes off the front.
    pub fn advance(&mut self, count: usize)
        requires { count ≤ length self.old }
        ensures { self.new ≡ drop count self.old }
    {
        self.unread.advance(count);
        self.gone = self.gone.saturating_add(count);
        if self.gone >= self.unread.len().max(SLACK) {
            self.give_back();
        }
    }

    /// Takes bytes off the front that stay where they are. They and the rest share the memory.
    pub fn split_front(&mut self, count: usize) -> Result<Bytes, AllocError>
        requires { count ≤ length self.old }
        ensures front { IfOk result (λ front. front ≡ take count self.old) }
        ensures rest { OnOk result (self.new ≡ drop count self.old) }
        ensures err { OnErr result (self.new ≡ self.old) }
    {
        let front = self.unread.freeze_to(count)?;
        self.gone = 0;
        Ok(front)
    }

    /// Hands the bytes out.
    pub fn take(&mut self) -> BytesMut
        ensures bytes { result.items ≡ self.old }
        ensures left { self.new ≡ [] }
    {
        let alloc = *self.unread.allocator();
        mem::replace(&mut self.unread, BytesMut::new(alloc))
    }

    /// Holds these bytes, and none of those that it held.
    pub fn put(&mut self, bytes: BytesMut)
        ensures { self.new ≡ bytes.items }
    {
        self.unread = bytes;
    }

    /// Moves the unread bytes to a block of their own size. Where there is no memory for it they stay where they are.
    fn give_back(&mut self)
        ensures { self.new ≡ self.old }
    {
        let alloc = *self.unread.allocator();
        if let Ok(unread) = BytesMut::copy_from_slice(alloc, self.unread.as_slice()) {
            self.unread = unread;
            self.gone = 0;
        }
    }
}
