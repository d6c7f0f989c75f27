//! Desks that scripts are too small for: a million calls, and a piece of 32 MiB.
ghost use Rattle.std.specs.Prelude.{◌≡◌, ◌<◌};

use super::audits::finds;
use super::same::same;
use super::steps::hashed;
use bt_meta::{BLOCK_SIZE, Torrent};
use bt_picker::*;
use bytes::Bytes;
use std::alloc::Global;
use std::process::Abort;
use std::sync::Arc;
use std::test::*;

const CALLS: usize = 1_000_000;

/// 32 MiB.
const LARGE: u32 = 1 << 25;

/// SHA-1 of so many zeros, as `sha1sum` gives it.
const HASH: [u8; 20] = [
    0x57, 0xb5, 0x87, 0xe1, 0xbf, 0x2d, 0x09, 0x33, 0x5b, 0xda, 0xc6, 0xdb, 0x18, 0x90, 0x2d, 0x43,
    0xdf, 0xe7, 0x64, 0x49,
];

/// The bytes of each block.
static ZEROS: [u8; 16_384] = [0; 16_384];

/// A desk of one piece of zeros, for one worker.
struct Alone {
    desk: Desk,
    ghost workers: { desk.setting.workers ≡ 1 },
}

/// The end of such a desk is one call for whoever owns one.
impl Drop for Alone {
    fn drop(self) {
        let Alone { desk: _desk } = self;
    }
}

impl Alone {
    /// Its peer has joined.
    fn new(rt: &impl Abort, alloc: Global) -> Result<Alone, Fail> {
        let hashes = vec![in alloc; HASH; 1]?;
        let torrent = Torrent::of_parts(LARGE, u64::from(LARGE), hashes, [0; 20])?;
        assert!(rt; torrent.piece_count() == 1);
        let torrent = Arc::new(alloc, torrent)?;
        let mut alone = Alone {
            desk: Desk::new(alloc, torrent, 1, Rules::usual())?,
        };
        alone.says(rt, Call::Join, Reply::Joined)?;
        Ok(alone)
    }

    /// The call has this reply.
    fn says(&mut self, rt: &impl Abort, call: Call, wanted: Reply) -> Result<(), Fail> {
        let said = self.desk.call(0, call)?;
        same(rt, said, wanted, "a reply");
        Ok(())
    }

    /// All blocks come but the last one.
    fn bring_all_but_one(&mut self, rt: &impl Abort) -> Result<(), Fail> {
        for index in 0..LARGE / BLOCK_SIZE - 1 {
            self.says(rt, block(index), Reply::Stored)?;
        }
        Ok(())
    }

    /// The piece is hashed, and that tells the desk.
    fn check(&mut self, rt: &impl Abort, alloc: Global) -> Result<(), Fail> {
        let job = self.desk.job(alloc, 0)?;
        let verdict = hashed(alloc, job.expect(rt, "the piece waits"))?;
        self.says(rt, Call::Settle(verdict), Reply::Had)
    }

    fn entries(&self) -> usize {
        self.desk.journal().len()
    }

    /// An audit finds no entry that isn't allowed.
    fn is_a_journal(&self, rt: &impl Abort, alloc: Global) -> Result<(), Fail> {
        let entries = self.desk.journal();
        finds(
            rt,
            alloc,
            self.desk.picker().torrent(),
            1,
            Rules::usual(),
            entries,
            None,
        )
    }
}

/// The block of zeros with this number comes.
fn block(index: u32) -> Call
    requires { index < 2048 }
{
    Call::Arrived {
        piece: 0,
        begin: BLOCK_SIZE * index,
        bytes: Bytes::from_static(&ZEROS),
    }
}

/// A desk has an answer to each of a million calls, and an entry of each. All of them are a journal by the rules.
#[test]
fn a_million_calls(rt: HostRuntime) -> Result<(), Fail> {
    let mut alone = Alone::new(&rt, rt.alloc())?;
    for _ in 0..CALLS {
        alone.says(&rt, Call::Choke, Reply::Quiet)?;
    }
    same(&rt, alone.entries(), CALLS + 1, "entries");
    alone.is_a_journal(&rt, rt.alloc())
}

/// The job of a piece of 32 MiB is handed out, and it is had.
#[test]
fn a_piece_of_32_mib(rt: HostRuntime) -> Result<(), Fail> {
    let mut alone = Alone::new(&rt, rt.alloc())?;
    alone.bring_all_but_one(&rt)?;
    alone.says(&rt, block(2047), Reply::Completed)?;
    alone.check(&rt, rt.alloc())
}
