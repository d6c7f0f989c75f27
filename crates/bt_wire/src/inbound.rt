//! The stream that comes from a peer.

ghost use Rattle.std.specs.Prelude.{◌≡◌, ◌≢◌, ◌++◌, None, false, true, [], length, IfOk, IfErr, IfSome, IfNone, OnOk, OnErr, unwrap_or};

use crate::buffer::Buffer;
use crate::message::{Message, WireFault};
use crate::reading::{BLOCK_HEAD, BlockFront, front, large_block_at};
use bytes::BytesMut;
use std::alloc::{AllocError, Global};
use std::marker::Model;

/// The messages of a stream, in whatever pieces it comes. Memory is held for bytes that came, never for a length that was announced.
#[derive(Drop)]
pub struct Inbound {
    limit: u32,
    greeted: bool,
    buffer: Buffer,
    fault: Option<WireFault>,
}

impl Model for Inbound {
    ghost use Rattle.std.specs.Prelude.{IfSome};
    ghost use Rattle.bt_wire.specs.Stream.{InboundState, HasFault};

    ghost Value = { InboundState };

    ghost view = { λ a. record { limit = a.limit; greeted = a.greeted; bytes = a.buffer; fault = a.fault } };

    ghost invariant = { λ a. IfSome a.fault (HasFault a.greeted a.limit a.buffer) };
}

impl Inbound {
    ghost use Rattle.bt_wire.specs.Stream.{InboundState, opened, Gives, HasNothing, HasFault};
    ghost use Rattle.bt_wire.specs.Blocks.{IsBlockFront};
    ghost use Rattle.bt_wire.specs.declared.message.WireFault.TheVariants.{NoMemory};

    /// A stream of which nothing came yet. A message's length field is at most the limit, in bytes.
    pub fn new(alloc: Global, limit: u32) -> Inbound
        ensures { result ≡ opened limit }
    {
        Inbound {
            limit,
            greeted: false,
            buffer: Buffer::new(alloc),
            fault: None,
        }
    }

    /// How many of the bytes that were fed have been given in no message.
    pub fn rest(&self) -> usize
        ensures { result ≡ length self.now.bytes }
    {
        self.buffer.len()
    }

    /// Takes the next piece of the stream, of any length. A fault that `next` gave comes back here; want of memory changes nothing.
    pub fn feed(&mut self, piece: &[u8]) -> Result<(), WireFault>
        ensures ok { OnOk result (self.new ≡ record self.old { bytes = self.old.bytes ++ piece.now }) }
        ensures err { OnErr result (self.new ≡ self.old) }
        ensures cause { IfErr result (λ e. e ≡ unwrap_or self.old.fault NoMemory) }
        ensures stuck { IfSome self.old.fault (λ f. result ≡ Err f) }
    {
        if let Some(fault) = self.fault {
            return Err(fault);
        }
        self.buffer.append(piece)?;
        Ok(())
    }

    /// Hands out the bytes that are held, so that a reader adds to them where they lie. Nothing is held until `put_held`.
    pub fn take_held(&mut self) -> BytesMut
        requires { self.old.fault ≡ None }
        ensures bytes { result.items ≡ self.old.bytes }
        ensures left { self.new ≡ record self.old { bytes = [] } }
    {
        self.buffer.take()
    }

    /// Holds these bytes from now on: those of `take_held`, with what was read behind them.
    pub fn put_held(&mut self, held: BytesMut)
        requires { self.old.fault ≡ None }
        ensures { self.new ≡ record self.old { bytes = held.items } }
    {
        self.buffer.put(held);
    }

    /// The block's message, which stands in front. Its bytes stay where they are.
    fn give_block(&mut self, block: BlockFront) -> Result<Message, AllocError>
        requires fault { self.old.fault ≡ None }
        requires greeted { self.old.greeted ≡ true }
        requires stands { IsBlockFront self.old.limit self.old.bytes block.piece block.begin block.len }
        ensures message { IfOk result (λ m. Gives self.old m self.new) }
        ensures memory { OnErr result (self.new ≡ self.old) }
    {
        let mut bytes = self.buffer.split_front(block.len)?;
        bytes.advance(BLOCK_HEAD);
        Ok(Message::Piece {
            piece: block.piece,
            begin: block.begin,
            bytes,
        })
    }

    /// The message at the front, the handshake first. None says that more bytes are needed to tell what stands there.
    pub fn next(&mut self, alloc: Global) -> Result<Option<Message>, WireFault>
        ensures message { IfOk result (λ o. IfSome o (λ m. Gives self.old m self.new)) }
        ensures none { IfOk result (λ o. IfNone o
            ((self.new ≡ self.old) × HasNothing self.old.greeted self.old.limit self.old.bytes)) }
        // A fault is given for good, and only where it stands in front. Want of memory changes nothing.
        ensures fault { IfErr result (λ e. e ≢ NoMemory →
            HasFault self.old.greeted self.old.limit self.old.bytes e
            × (self.new ≡ record self.old { fault = Some e })) }
        ensures memory { result ≡ Err NoMemory → self.new ≡ self.old }
        ensures stuck { IfSome self.old.fault (λ f. result ≡ Err f) }
        ensures sound { OnOk result ((self.old.fault ≡ None) × (self.new.fault ≡ None)) }
    {
        if let Some(fault) = self.fault {
            return Err(fault);
        }
        if let Some(block) = large_block_at(self.greeted, self.limit, self.buffer.as_slice()) {
            return Ok(Some(self.give_block(block)?));
        }
        match front(alloc, self.greeted, self.limit, self.buffer.as_slice()) {
            Ok(Some((message, len))) => {
                self.buffer.advance(len);
                self.greeted = true;
                Ok(Some(message))
            }
            Ok(None) => Ok(None),
            Err(WireFault::NoMemory) => Err(WireFault::NoMemory),
            Err(fault) => {
                self.fault = Some(fault);
                Err(fault)
            }
        }
    }
}
