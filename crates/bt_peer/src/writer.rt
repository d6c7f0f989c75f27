//! Writing to a peer.

ghost use Rattle.bt_peer.specs.declared.fault.SessionFault.TheVariants.{WriteFault};
ghost use Rattle.std.specs.Prelude.{◌≡◌, [], IfErr, OnOk, MatchOption};
ghost use Rattle.bt_wire.specs.Messages.{spelling, CanEncode};
ghost use Rattle.bt_peer.specs.Outlets.{IsCut, Writes, WritesUpTo, saying};
ghost use Rattle.bt_peer.specs.Writer.{interest_by, written_for};

use crate::fault::SessionFault;
use bt_history::Reply;
use bt_meta::{Block, DeviceFault, Sink};
use bt_wire::{Message, encode};
use std::alloc::Global;

/// What is said to a peer: where it is written, and whether we have said that we are interested.
#[derive(Drop)]
pub struct Said<'a, W> {
    pub writer: &'a mut W,
    pub interested: bool,
}

impl<'a, W: Sink> Said<'a, W> {
    /// Writes all the bytes.
    #[tactic(auto, using(crate::proofs::Written::front_cut))]
    pub fn write(&mut self, bytes: &[u8]) -> Result<(), SessionFault>
        ensures ok { OnOk result (Writes (saying W.Sink self.old) bytes.now (saying W.Sink self.new)) }
        ensures err { IfErr result (λ fault. WritesUpTo fault (saying W.Sink self.old) bytes.now (saying W.Sink self.new)) }
        ensures cause { IfErr result (λ fault. fault ≡ WriteFault) }
        ensures interest { self.new.interested ≡ self.old.interested }
    {
        match bt_meta::write_all(self.writer, bytes) {
            Ok(()) => Ok(()),
            Err(DeviceFault) => Err(SessionFault::WriteFault),
        }
    }

    /// Writes a message.
    pub fn send(&mut self, alloc: Global, message: &Message) -> Result<(), SessionFault>
        requires { CanEncode message.now }
        ensures ok { OnOk result (Writes (saying W.Sink self.old) (spelling message.now) (saying W.Sink self.new)) }
        ensures err { IfErr result (λ fault. WritesUpTo fault (saying W.Sink self.old) (spelling message.now) (saying W.Sink self.new)) }
        ensures cause { IfErr result IsCut }
        ensures interest { self.new.interested ≡ self.old.interested }
    {
        let mut bytes = Vec::new(alloc);
        encode(message, &mut bytes)?;
        self.write(&bytes)
    }

    /// Says what a reply calls for.
    pub fn tell(&mut self, alloc: Global, reply: &Reply) -> Result<(), SessionFault>
        ensures ok { OnOk result (Writes (saying W.Sink self.old) (written_for self.old.interested reply.now) (saying W.Sink self.new)) }
        ensures interest { OnOk result (self.new.interested ≡ interest_by self.old.interested reply.now) }
        ensures err { IfErr result (λ fault.
            WritesUpTo fault (saying W.Sink self.old) (written_for self.old.interested reply.now) (saying W.Sink self.new)) }
        ensures cause { IfErr result IsCut }
    {
        if let Some(message) = answer_to(self.interested, reply) {
            self.send(alloc, &message)?;
        }
        self.interested = is_interested(self.interested, reply);
        Ok(())
    }
}

/// What is to be said for a reply.
fn answer_to(interested: bool, reply: &Reply) -> Option<Message>
    ensures { MatchOption result (written_for interested reply.now ≡ []) (λ m. (written_for interested reply.now ≡ spelling m) × CanEncode m) }
{
    match *reply {
        Reply::Noted(true) if !interested => Some(Message::Interested),
        Reply::NothingLeft if interested => Some(Message::NotInterested),
        Reply::Request(Block { piece, begin, len }) => Some(Message::Request { piece, begin, len }),
        Reply::Cancel(Block { piece, begin, len }) => Some(Message::Cancel { piece, begin, len }),
        _ => None,
    }
}

/// Whether the session is interested after a reply.
fn is_interested(interested: bool, reply: &Reply) -> bool
    ensures { result ≡ interest_by interested reply.now }
{
    match reply {
        Reply::Noted(true) => true,
        Reply::NothingLeft => false,
        _ => interested,
    }
}
