//! Checks of pieces that leave their picker, and come back as verdicts.
ghost use Rattle.std.specs.Prelude.{◌≡◌, ◌<◌, ◌-◌, ◌^◌, length, min, Some};
ghost use Rattle.std.specs.List.{concat};
ghost use Rattle.bt_c.specs.Behind.{keeping, state};
ghost use Rattle.bt_c.specs.Jobs.{Hashes, IsCheckOf, IsHandleOf, PutsBlocks, ReadsJob, SettlesVerdict, TakesJob, TellsVerdict};
ghost use Rattle.bt_c.specs.Jobs.{check_given, settled_of};
ghost use Rattle.bt_c.specs.Outcomes.{StaysItself};

use crate::check::Check;
use crate::engine::Engine;
use crate::fault::Fault;
use crate::handle::{Handle, holding, put_back};
use crate::held::Held;
use crate::job_handle::JobHandle;
use crate::job_pointer::JobPointer;
use bt_picker::{Call, Job, Reason, Reply, Verdict};
use bytes::Bytes;
use std::alloc::{AllocError, Global};
use std::sync::Arc;

/// The check that a picker gives of a piece, or why it gives none.
fn check_of(job: Result<Option<Job>, AllocError>) -> Result<Check, Fault>
    ensures { result ≡ check_given job }
{
    match job {
        Ok(Some(job)) => Ok(Check::Due(job)),
        Ok(None) => Err(Fault::NotWaiting),
        Err(_) => Err(Fault::NoMemory),
    }
}

/// The reply to a verdict, where it is none that refuses it.
fn settled(reply: Reply) -> Result<Reply, Fault>
    ensures { result ≡ settled_of reply }
{
    match reply {
        Reply::Refused(Reason::Stale) => Err(Fault::Stale),
        Reply::Refused(_) => Err(Fault::NotWaiting),
        reply => Ok(reply),
    }
}

impl Held {
    /// The check of the piece, if it is full and isn't complete.
    fn check(&self, alloc: Global, piece: u32) -> Result<Check, Fault>
        ensures { IsCheckOf self.now piece result }
    {
        if !self.engine.keeps_content() {
            return Err(Fault::Keeps);
        }
        if piece >= self.torrent.piece_count() {
            return Err(Fault::Piece);
        }
        match &self.engine {
            Engine::Picker(_) => Err(Fault::Keeps),
            Engine::Keeper(keeper) => check_of(keeper.job(alloc, piece)),
            Engine::Desk(desk) => check_of(desk.job(alloc, piece)),
        }
    }

    /// A handle that holds the check of the piece.
    fn job_handle(&self, alloc: Global, piece: u32) -> Result<JobHandle, Fault>
        ensures { IsHandleOf self.now piece result }
    {
        Ok(holding(Box::new(alloc, self.check(alloc, piece)?)?))
    }

    /// Puts the check of the piece into an empty pointer.
    pub fn take_job(&self, alloc: Global, piece: u32, job: &mut JobPointer) -> Result<(), Fault>
        ensures { TakesJob job.old.job job.new.job self.now piece result }
    {
        if let Some(handle) = job.take(alloc) {
            *job = holding(handle);
            return Err(Fault::Open);
        }
        *job = holding(Box::new(alloc, self.job_handle(alloc, piece)?)?);
        Ok(())
    }

    /// Tells the verdict, of which a journal takes a share.
    fn settle_verdict(&mut self, verdict: &Arc<Verdict>) -> Result<Reply, Fault>
        ensures same { StaysItself self.old self.new }
        ensures settles { SettlesVerdict (keeping self.old) (state self.old) (state self.new) verdict.now.value result }
    {
        match &mut self.engine {
            Engine::Picker(_) => Err(Fault::Keeps),
            Engine::Keeper(keeper) => settled(keeper.settle(0, verdict).reply),
            Engine::Desk(desk) => {
                let shared = verdict.clone()?;
                settled(desk.call(0, Call::Settle(shared))?)
            }
        }
    }

    /// Tells the verdict of a check, where it is ready.
    fn settle_check(&mut self, check: &Check) -> Result<Reply, Fault>
        ensures same { StaysItself self.old self.new }
        ensures tells { TellsVerdict (Some check.now) self.old (state self.new) result }
    {
        match check {
            Check::Ready(verdict) => self.settle_verdict(verdict),
            _ => Err(Fault::NotHashed),
        }
    }

    /// Tells the verdict of the check that the handle holds, and keeps.
    pub fn settle_job(&mut self, alloc: Global, job: &mut JobHandle) -> Result<Reply, Fault>
        ensures same { StaysItself self.old self.new }
        ensures kept { job.new.check ≡ job.old.check }
        ensures tells { TellsVerdict job.old.check self.old (state self.new) result }
    {
        let check = job.take(alloc).ok_or(Fault::NoJob)?;
        let outcome = self.settle_check(&check);
        put_back(job, check);
        outcome
    }
}

/// Hashes the check that the handle holds.
pub fn hash(alloc: Global, job: &mut JobHandle) -> Result<(), Fault>
    ensures { Hashes job.old.check job.new.check result }
{
    let mut check = job.take(alloc).ok_or(Fault::NoJob)?;
    let done = check.hash(alloc);
    put_back(job, check);
    done
}

/// Writes the bytes of the check's piece into a buffer of their number.
pub fn read(alloc: Global, job: &mut JobHandle, room: &mut [u8]) -> Result<(), Fault>
    ensures kept { job.new.check ≡ job.old.check }
    ensures reads { ReadsJob job.old.check room.old room.new result }
{
    let check = job.take(alloc).ok_or(Fault::NoJob)?;
    let done = put_blocks(check.blocks(), room);
    put_back(job, check);
    done
}

/// Writes the blocks into a buffer of their length.
fn put_blocks(blocks: &[Bytes], room: &mut [u8]) -> Result<(), Fault>
    ensures { PutsBlocks blocks.now room.old room.new result }
{
    if room.len() != total_len(blocks) {
        return Err(Fault::Room);
    }
    copy_blocks(blocks, room);
    Ok(())
}

/// How many bytes the blocks have, or the greatest number if that is less.
fn total_len(blocks: &[Bytes]) -> usize
    ensures { result ≡ min (length (concat blocks.now)) (2 ^ 64 - 1) }
{
    let mut total: usize = 0;
    for block in blocks {
        total = total.saturating_add(block.len());
    }
    total
}

/// Copies the blocks into a buffer of their length.
fn copy_blocks(blocks: &[Bytes], room: &mut [u8])
    requires len { length room.old ≡ length (concat blocks.now) }
    requires short { length room.old < 2 ^ 64 }
    ensures { room.new ≡ concat blocks.now }
{
    let mut from = 0;
    for block in blocks {
        room[from..from + block.len()].copy_from_slice(block.as_slice());
        from += block.len();
    }
}
