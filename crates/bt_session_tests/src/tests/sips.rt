//! Sources that give little at each read.

use super::made::{PEER, peer};
use super::whole::{WHOLE, told_of};
use bt_expect::same;
use bt_meta::{DeviceFault, Source};
use bt_peer::End;
use std::alloc::Global;
use std::process::Abort;
use std::test::Fail;

/// A source that gives at each read as many bytes as its list says next, then those of the list again.
#[derive(Drop)]
struct Sips<'a> {
    rest: &'a [u8],
    sizes: &'a [usize],
    reads: u64,
    ended: bool,
}

impl<'a> Sips<'a> {
    fn new(rest: &'a [u8], sizes: &'a [usize]) -> Sips<'a> {
        Sips {
            rest,
            sizes,
            reads: 0,
            ended: false,
        }
    }

    /// How many bytes the next read gives, if there is room.
    fn size(&self) -> usize {
        let count = self.sizes.len() as u64;
        if count == 0 {
            return 0;
        }
        self.sizes[(self.reads % count) as usize]
    }
}

impl Source for Sips<'_> {
    ghost use Rattle.std.specs.Prelude.{None, false};

    ghost left = { λ _. None };

    ghost failed = { λ _. false };

    ghost ended = { λ s. s.ended };

    ghost reads = { λ s. s.reads };

    fn read(&mut self, room: &mut [u8]) -> Result<usize, DeviceFault> {
        let size = self.size().min(room.len()).min(self.rest.len());
        self.reads = self.reads.saturating_add(1);
        let (sip, rest) = self.rest.split_at(size);
        for (to, from) in room.iter_mut().zip(sip) {
            *to = *from;
        }
        self.rest = rest;
        if size == 0 && !room.is_empty() {
            self.ended = true;
        }
        Ok(size)
    }
}

/// The handshake, and the messages of `PEER`, a read each.
const MESSAGES: [usize; 4] = [68, 6, 5, 16];

/// However little a read gives, the session goes on to the end of its source: between two messages nothing is held, and yet more comes.
#[test]
fn little_by_little(rt: HostRuntime) -> Result<(), Fail> {
    let stream = peer(rt.alloc(), 1, &PEER)?;
    is_whole(&rt, rt.alloc(), &stream, &[1])?;
    is_whole(&rt, rt.alloc(), &stream, &MESSAGES)
}

/// The session is a whole one where each read gives as much as the sizes say.
fn is_whole(rt: &impl Abort, alloc: Global, stream: &[u8], sizes: &[usize]) -> Result<(), Fail> {
    let (end, calls, _) = told_of(alloc, &mut Sips::new(stream, sizes))?;
    assert!(rt; end == Ok(End { messages: 3 }));
    same(calls.as_str(), WHOLE)
}

/// The bytes of the keepalives that come at once, four each.
const KEEPALIVES: usize = 200_000;

/// However much a read gives, each message has a turn of its own.
#[test]
fn much_at_once(rt: HostRuntime) -> Result<(), Fail> {
    let keepalives = vec![in rt.alloc(); 0; KEEPALIVES]?;
    let stream = peer(rt.alloc(), 1, &keepalives)?;
    takes_all(&rt, rt.alloc(), &stream)
}

/// As many reads as that many bytes and their handshake take where each has room for 16 KiB, and one that finds the end.
const MOST_READS: u64 = 14;

/// Each of the keepalives is a message, and no read had room for less than 16 KiB.
fn takes_all(rt: &impl Abort, alloc: Global, stream: &[u8]) -> Result<(), Fail> {
    let mut sips = Sips::new(stream, &[65_535]);
    let (end, calls, _) = told_of(alloc, &mut sips)?;
    assert!(rt; end == Ok(End { messages: 50_000 }));
    assert!(rt; calls.as_str().ends_with("next = Choked; leave = Quiet; "));
    assert!(rt; sips.reads <= MOST_READS);
    Ok(())
}
