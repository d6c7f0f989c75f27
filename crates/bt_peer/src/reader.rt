//! Reading from a peer.

ghost use Rattle.std.specs.Prelude.{◌≡◌, ◌≤◌, ◌<◌, ◌||◌, IfOk, is_err};
ghost use Rattle.bt_meta.specs.Devices.{one_more};
ghost use Rattle.bt_peer.specs.Reader.{most_reads, room_len, ReadsBehind};

use crate::fault::SessionFault;
use bt_meta::{DeviceFault, Source};
use bt_wire::{Inbound, Message};
use bytes::BytesMut;
use std::alloc::{AllocError, Global};

/// The most reads that a session asks for.
const MOST: u64 = 1 << 32;

/// The most bytes that one read may give.
const ROOM: usize = 64 * 1024;

/// A read asks for no fewer bytes. Where less room is left, what comes goes to new memory.
const LEAST_ROOM: usize = 16 * 1024;

/// Sees to some room behind these bytes, and says how much of it a read may fill.
fn make_room(held: &mut BytesMut) -> Result<usize, AllocError>
    ensures room { IfOk result (λ room. (0 < room) × (room ≤ room_len) × (room ≤ held.new.spare)) }
    ensures bytes { held.new.items ≡ held.old.items }
{
    let spare = held.capacity() - held.len();
    if spare >= LEAST_ROOM {
        return Ok(spare.min(ROOM));
    }
    held.reserve(ROOM)?;
    Ok(ROOM)
}

/// One read, to the room behind these bytes.
fn read_behind<R: Source>(
    held: &mut BytesMut,
    room: usize,
    reader: &mut R,
) -> Result<usize, DeviceFault>
    requires { (0 < room) × (room ≤ room_len) × (room ≤ held.old.spare) }
    ensures bytes { ReadsBehind result held.old.items held.new.items (R.left reader.old) (R.left reader.new) (R.ended reader.new) }
    ensures failed { R.failed reader.new ≡ (R.failed reader.old || is_err result) }
    ensures reads { R.reads reader.new ≡ one_more (R.reads reader.old) }
{
    let len = held.len();
    held.advance_mut(room);
    match reader.read(&mut held.as_mut_slice()[len..]) {
        Ok(count) => {
            held.truncate(len + count);
            Ok(count)
        }
        Err(fault) => {
            held.truncate(len);
            Err(fault)
        }
    }
}

/// What is heard of a peer: the stream that comes from it, and how often its source was asked.
#[derive(Drop)]
pub struct Heard {
    pub inbound: Inbound,
    pub reads: u64,
    ghost few: { reads ≤ most_reads },
}

impl Heard {
    ghost use Rattle.std.specs.Prelude.{None};
    ghost use Rattle.bt_wire.specs.Stream.{opened};
    ghost use Rattle.bt_peer.specs.Hearing.{HearsNext, ReadsOn, hearing};

    /// Nothing yet, of a stream whose messages are at most so long.
    pub fn new(alloc: Global, limit: u32) -> Heard
        ensures stream { result.inbound ≡ opened limit }
        ensures reads { result.reads ≡ 0 }
    {
        Heard {
            inbound: Inbound::new(alloc, limit),
            reads: 0,
        }
    }

    /// One read, to the memory where the bytes of the stream lie. Answers how many came.
    fn read_on<R: Source>(&mut self, reader: &mut R) -> Result<usize, SessionFault>
        requires sound { self.old.inbound.fault ≡ None }
        requires few { self.old.reads < most_reads }
        ensures { ReadsOn result (hearing R.Source self.old reader.old) (hearing R.Source self.new reader.new) }
    {
        let mut held = self.inbound.take_held();
        let Ok(room) = make_room(&mut held) else {
            self.inbound.put_held(held);
            return Err(SessionFault::NoMemory);
        };
        self.reads += 1;
        let read = read_behind(&mut held, room, reader);
        self.inbound.put_held(held);
        Ok(read?)
    }

    /// Reads as much as the next message needs. There is none where the input ends first.
    pub fn next<R: Source>(
        &mut self,
        alloc: Global,
        reader: &mut R,
    ) -> Result<Option<Message>, SessionFault>
        ensures { HearsNext result (hearing R.Source self.old reader.old) (hearing R.Source self.new reader.new) }
    {
        'reads: loop {
            if let Some(message) = self.inbound.next(alloc)? {
                return Ok(Some(message));
            }
            if self.reads >= MOST {
                return Err(SessionFault::ReadFault);
            }
            if self.read_on(reader)? == 0 {
                return Ok(None);
            }
        }
    }
}
