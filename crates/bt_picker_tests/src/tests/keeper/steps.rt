//! What is done with a keeper, as steps of a table. Each call goes through a function without a contract, so that what plays the steps knows
//! of replies alone, and its proof is short.

use crate::tests::said::{Said, told_of};
use crate::tests::same::same;
use bt_meta::Torrent;
use bt_picker::*;
use bytes::Bytes;
use std::alloc::Global;
use std::process::Abort;
use std::sync::Arc;
use std::test::Fail;

/// A call of a worker, or a question, and what has to come of it.
#[derive(Clone, Copy)]
pub enum Step {
    /// The worker tells this.
    Tells(u32, Said, Reply),
    /// The worker's peer brings these bytes, which begin the piece.
    Brings(u32, u32, &'static [u8], Reply),
    /// A job is made of the piece, and the verdict on it is kept.
    Hashes(u32),
    /// There is no job of the piece.
    HasNoJob(u32),
    /// The first worker tells the verdict that is kept: the reply, and the one block that is handed out, or none.
    Settles(Reply, Option<&'static [u8]>),
    /// The worker has the piece checked at once.
    SettlesNow(u32, u32, Reply, Option<&'static [u8]>),
    /// Whether the piece waits for its check.
    Waits(u32, bool),
    HasLevel(u32, u8),
    IsInOrder(bool),
    HasAll,
}

/// A keeper of this torrent for two workers. The first one's peer joined, shows each piece and lets itself be asked.
pub fn keeper_of(rt: &impl Abort, alloc: Global, torrent: Torrent) -> Result<Keeper, Fail> {
    let mut keeper = new_keeper(alloc, torrent)?;
    show_all(rt, alloc, &mut keeper)?;
    Ok(keeper)
}

fn new_keeper(alloc: Global, torrent: Torrent) -> Result<Keeper, Fail> {
    let torrent = Arc::new(alloc, torrent)?;
    Ok(Keeper::new(alloc, torrent, 2, Rules::usual())?)
}

/// The first worker's peer joins, shows each piece and lets itself be asked.
fn show_all(rt: &impl Abort, alloc: Global, keeper: &mut Keeper) -> Result<(), Fail> {
    tells(rt, alloc, keeper, 0, Told::Join, Reply::Joined)?;
    for piece in 0..keeper.picker().torrent().piece_count() {
        let told = Told::Have(piece);
        tells(rt, alloc, keeper, 0, told, Reply::Noted(true))?;
    }
    tells(rt, alloc, keeper, 0, Told::Unchoke, Reply::Quiet)
}

/// The worker tells this, and has this reply.
pub fn tells(
    rt: &impl Abort,
    alloc: Global,
    keeper: &mut Keeper,
    worker: u32,
    told: Told<'_>,
    wanted: Reply,
) -> Result<(), Fail> {
    let reply = keeper.tell(alloc, worker, told)?;
    same(rt, reply, wanted, "a reply");
    Ok(())
}

/// The block that begins so far into the piece comes from the worker's peer.
pub fn arrives(
    rt: &impl Abort,
    alloc: Global,
    keeper: &mut Keeper,
    worker: u32,
    piece: u32,
    begin: u32,
    bytes: Bytes,
    wanted: Reply,
) -> Result<(), Fail> {
    let reply = keeper.arrived(alloc, worker, piece, begin, bytes)?;
    same(rt, reply, wanted, "a reply");
    Ok(())
}

/// The verdict of the piece, which waits for one.
pub fn verdict_of(
    rt: &impl Abort,
    alloc: Global,
    keeper: &Keeper,
    piece: u32,
) -> Result<Verdict, Fail> {
    let job = keeper.job(alloc, piece)?;
    Ok(job.expect(rt, "the piece waits").hash())
}

/// Tells the verdict, and checks what comes of it.
pub fn settle(keeper: &mut Keeper, verdict: &Verdict) -> Settled {
    keeper.settle(0, verdict)
}

/// Has the piece checked at once.
pub fn settle_now(keeper: &mut Keeper, worker: u32, piece: u32) -> Settled {
    keeper.settle_now(worker, piece)
}

/// Checks what came of a check: the reply, and the one block that is handed out, or none.
fn settles(rt: &impl Abort, found: &Settled, reply: Reply, block: Option<&[u8]>) {
    same(rt, found.reply, reply, "a check");
    match block {
        Some(bytes) => {
            assert!(rt; found.blocks.len() == 1);
            assert!(rt; found.blocks[0].as_slice() == bytes);
        }
        None => assert!(rt; found.blocks.is_empty()),
    }
}

/// A keeper that is played with, and the verdict that is kept.
pub struct Table {
    keeper: Keeper,
    kept: Option<Verdict>,
}

impl Drop for Table {
    fn drop(self) {
        let Table {
            keeper: _keeper,
            kept: _kept,
        } = self;
    }
}

impl Table {
    pub fn new(keeper: Keeper) -> Table {
        Table { keeper, kept: None }
    }

    pub fn plays(&mut self, rt: &impl Abort, alloc: Global, steps: &[Step]) -> Result<(), Fail> {
        for step in steps {
            self.play(rt, alloc, *step)?;
        }
        Ok(())
    }

    fn play(&mut self, rt: &impl Abort, alloc: Global, step: Step) -> Result<(), Fail> {
        match step {
            Step::Tells(worker, said, wanted) => {
                tells(rt, alloc, &mut self.keeper, worker, told_of(said), wanted)
            }
            Step::Brings(worker, piece, bytes, wanted) => {
                let bytes = Bytes::from_static(bytes);
                arrives(rt, alloc, &mut self.keeper, worker, piece, 0, bytes, wanted)
            }
            Step::Hashes(piece) => self.hash(rt, alloc, piece),
            Step::HasNoJob(piece) => self.has_no_job(rt, alloc, piece),
            step => {
                self.settle_or_show(rt, step);
                Ok(())
            }
        }
    }

    fn hash(&mut self, rt: &impl Abort, alloc: Global, piece: u32) -> Result<(), Fail> {
        self.kept = Some(verdict_of(rt, alloc, &self.keeper, piece)?);
        Ok(())
    }

    fn has_no_job(&self, rt: &impl Abort, alloc: Global, piece: u32) -> Result<(), Fail> {
        assert!(rt; self.keeper.job(alloc, piece)?.is_none());
        Ok(())
    }

    /// A step that needs no memory.
    fn settle_or_show(&mut self, rt: &impl Abort, step: Step) {
        match step {
            Step::Settles(reply, block) => self.settle(rt, reply, block),
            Step::SettlesNow(worker, piece, reply, block) => {
                let settled = settle_now(&mut self.keeper, worker, piece);
                settles(rt, &settled, reply, block);
            }
            step => assert!(rt; self.shows(step)),
        }
    }

    fn settle(&mut self, rt: &impl Abort, reply: Reply, block: Option<&[u8]>) {
        match &self.kept {
            Some(verdict) => {
                let settled = settle(&mut self.keeper, verdict);
                settles(rt, &settled, reply, block);
            }
            None => panic!(rt; "no verdict is kept"),
        }
    }

    /// Whether the picker shows this.
    fn shows(&self, step: Step) -> bool {
        let picker = self.keeper.picker();
        match step {
            Step::Waits(piece, waits) => picker.is_waiting(piece) == waits,
            Step::HasLevel(piece, level) => {
                piece < picker.torrent().piece_count() && picker.level(piece) == level
            }
            Step::IsInOrder(is_so) => picker.is_in_order() == is_so,
            Step::HasAll => picker.is_complete() && picker.has_wanted(),
            _ => false,
        }
    }
}
