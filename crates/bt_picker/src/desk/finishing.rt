//! The checks of the pieces that wait. Four that all wait are hashed side by side.
ghost use Rattle.std.specs.Prelude.{◌≡◌, ◌+◌, ◌<◌, ℕ, false, true, IfOk, IfSome, IsOk, IsTrue, OnErr, OnOk, Some};
ghost use Rattle.bt_meta.specs.Layout.{piece_count};
ghost use Rattle.bt_picker.specs.Checks.{AreDue, AreJobsOf, FinishedBelow, GivesUp, IsDue, IsJobOf, SettlesEach, SettlesNow};
ghost use Rattle.bt_picker.specs.Checks.{StopsAfter, settling, waits};
ghost use Rattle.bt_picker.specs.Lasting.{WasDue, failure_count};
ghost use Rattle.bt_picker.specs.Positions.{Gains};
ghost use Rattle.bt_history.specs.Entries.{event};
ghost use Rattle.bt_history.specs.Logs.{answers};
ghost use Rattle.bt_history.specs.declared.call.Call.{Call};
ghost use Rattle.bt_history.specs.declared.mark.CallMark.TheVariants.{Settle};

use super::Desk;
use bt_check::{Job, Verdict};
use bt_history::{Call, Reason, Reply};
use std::alloc::{AllocError, Global};
use std::sync::Arc;

impl Desk {
    /// Hashes the bytes that are held of the piece, and settles it. A piece that doesn't wait for a check is refused with no entry.
    /// Without memory, nothing changes.
    pub fn settle_now(
        &mut self,
        alloc: Global,
        worker: u32,
        piece: u32,
    ) -> Result<Reply, AllocError>
        requires { worker < self.old.setting.workers }
        ensures ok { IfOk result (λ reply. SettlesNow self.old self.new worker piece reply) }
        ensures unasked { waits self.old.setting self.old.history piece ≡ false → IsOk result }
        ensures err { OnErr result (self.new ≡ self.old) }
        ensures setting { self.new.setting ≡ self.old.setting }
    {
        if piece >= self.piece_count() {
            return Ok(Reply::Refused(Reason::NoSuchPiece));
        }
        if !self.picker.is_waiting(piece) {
            return Ok(Reply::Refused(Reason::NotWaiting));
        }
        self.check(alloc, worker, piece)
    }

    /// Checks all pieces that wait for it, in rising order. Where memory runs out at a piece, those below it are settled, it still waits,
    /// and nothing else is done.
    pub fn finish(&mut self, alloc: Global, worker: u32) -> Result<(), AllocError>
        requires { worker < self.old.setting.workers }
        ensures ok { OnOk result (FinishedBelow self.old worker (piece_count self.old.setting.torrent) self.new) }
        ensures none_waits { OnOk result ((p : ℕ) → waits self.new.setting self.new.history p ≡ false) }
        ensures err { OnErr result (GivesUp self.old worker self.new) }
        ensures setting { self.new.setting ≡ self.old.setting }
    {
        for four in 0..self.piece_count().div_ceil(4) {
            self.finish_four(alloc, worker, four * 4)?;
        }
        Ok(())
    }

    /// Checks those of four pieces that wait, this one and the next three.
    fn finish_four(&mut self, alloc: Global, worker: u32, piece: u32) -> Result<(), AllocError>
        requires worker { worker < self.old.setting.workers }
        requires numbers { piece + 3 < 4294967296 }
        ensures ok { OnOk result (SettlesEach self.old worker piece 4 self.new) }
        ensures err { OnErr result (StopsAfter self.old worker piece self.new) }
        ensures setting { self.new.setting ≡ self.old.setting }
    {
        match self.verdicts_of_four(alloc, piece) {
            Some(verdicts) => self.settle_four(worker, piece, verdicts),
            None => self.settle_each(alloc, worker, piece),
        }
    }

    /// The verdicts of this piece and the next three, hashed side by side, if all wait and there is memory for them.
    fn verdicts_of_four(
        &self,
        alloc: Global,
        piece: u32,
    ) -> Option<(Arc<Verdict>, Arc<Verdict>, Arc<Verdict>, Arc<Verdict>)>
        requires { piece + 3 < 4294967296 }
        ensures { IfSome result (λ four. AreDue self.now piece four.0.value four.1.value four.2.value four.3.value) }
    {
        let (first, second, third, fourth) = self.jobs_of_four(alloc, piece)?;
        let (first, second, third, fourth) = Job::hash_four(first, second, third, fourth);
        Some((
            share(alloc, first)?,
            share(alloc, second)?,
            share(alloc, third)?,
            share(alloc, fourth)?,
        ))
    }

    /// The jobs of this piece and the next three, if all wait and there is memory for them.
    fn jobs_of_four(&self, alloc: Global, piece: u32) -> Option<(Job, Job, Job, Job)>
        requires { piece + 3 < 4294967296 }
        ensures { IfSome result (λ jobs. AreJobsOf self.now piece jobs.0 jobs.1 jobs.2 jobs.3) }
    {
        let first = self.waiting_job(alloc, piece)?;
        let second = self.waiting_job(alloc, piece + 1)?;
        let third = self.waiting_job(alloc, piece + 2)?;
        let fourth = self.waiting_job(alloc, piece + 3)?;
        Some((first, second, third, fourth))
    }

    /// The job of the piece, if it waits and there is memory for it.
    fn waiting_job(&self, alloc: Global, piece: u32) -> Option<Job>
        ensures { IfSome result (λ job. IsJobOf self.now.setting self.now.history piece (Some job)) }
    {
        self.job(alloc, piece).ok()?
    }

    /// Settles the verdicts of this piece and the next three. Only the journal takes memory.
    fn settle_four(
        &mut self,
        worker: u32,
        piece: u32,
        verdicts: (Arc<Verdict>, Arc<Verdict>, Arc<Verdict>, Arc<Verdict>),
    ) -> Result<(), AllocError>
        requires worker { worker < self.old.setting.workers }
        requires due { AreDue self.old piece verdicts.0.value verdicts.1.value verdicts.2.value verdicts.3.value }
        ensures ok { OnOk result (SettlesEach self.old worker piece 4 self.new) }
        ensures err { OnErr result (StopsAfter self.old worker piece self.new) }
        ensures setting { self.new.setting ≡ self.old.setting }
    {
        let (first, second, third, fourth) = verdicts;
        self.settle(worker, first)?;
        self.settle(worker, second)?;
        self.settle(worker, third)?;
        self.settle(worker, fourth)?;
        Ok(())
    }

    /// Checks those of four pieces that wait, each hashed alone.
    fn settle_each(&mut self, alloc: Global, worker: u32, piece: u32) -> Result<(), AllocError>
        requires worker { worker < self.old.setting.workers }
        requires numbers { piece + 3 < 4294967296 }
        ensures ok { OnOk result (SettlesEach self.old worker piece 4 self.new) }
        ensures err { OnErr result (StopsAfter self.old worker piece self.new) }
        ensures setting { self.new.setting ≡ self.old.setting }
    {
        self.settle_now(alloc, worker, piece)?;
        self.settle_now(alloc, worker, piece + 1)?;
        self.settle_now(alloc, worker, piece + 2)?;
        self.settle_now(alloc, worker, piece + 3)?;
        Ok(())
    }

    /// Hashes a piece that waits for it, and settles it.
    fn check(&mut self, alloc: Global, worker: u32, piece: u32) -> Result<Reply, AllocError>
        requires worker { worker < self.old.setting.workers }
        requires waits { waits self.old.setting self.old.history piece ≡ true }
        ensures ok { IfOk result (λ reply. Gains self.old self.new (settling self.old.setting self.old.history worker piece reply)) }
        ensures err { OnErr result (self.new ≡ self.old) }
        ensures setting { self.new.setting ≡ self.old.setting }
    {
        let blocks = self.filed().share_blocks(alloc, piece)?;
        let verdict = Arc::new(alloc, Job { piece, blocks }.hash())?;
        self.settle(worker, verdict)
    }

    /// Settles the verdict of a piece that waits, which is of the bytes that are held.
    fn settle(&mut self, worker: u32, verdict: Arc<Verdict>) -> Result<Reply, AllocError>
        requires worker { worker < self.old.setting.workers }
        requires due { IsDue self.old verdict.value.piece verdict.value }
        ensures ok { IfOk result (λ reply.
            Gains self.old self.new (settling self.old.setting self.old.history worker verdict.value.piece reply)) }
        ensures err { OnErr result (self.new ≡ self.old) }
        ensures setting { self.new.setting ≡ self.old.setting }
    {
        let failures = self.failures();
        self.settle_since(worker, verdict, failures)
    }

    /// Settles a verdict of the bytes that were held when so many checks had failed and the piece waited. Where none has failed since,
    /// they are still held, and so they aren't read again. Else they are compared with those held, as by a call.
    pub fn settle_since(
        &mut self,
        worker: u32,
        verdict: Arc<Verdict>,
        failures: u64,
    ) -> Result<Reply, AllocError>
        requires worker { worker < self.old.setting.workers }
        requires due { WasDue self.old.setting self.old.history failures verdict.value }
        ensures ok { IfOk result (λ reply. Gains self.old self.new (event worker (Call.Settle verdict) reply)) }
        ensures fits { IfOk result (λ reply. IsTrue (answers (Settle verdict.value.piece) reply)) }
        ensures err { OnErr result (self.new ≡ self.old) }
        ensures setting { self.new.setting ≡ self.old.setting }
    {
        self.picker.attest();
        if failures == self.failures {
            self.enter(worker, Call::Settle(verdict), true)
        } else {
            self.call(worker, Call::Settle(verdict))
        }
    }

    /// How many checks have failed.
    pub fn failures(&self) -> u64
        ensures { result ≡ failure_count self.now.history }
    {
        self.failures
    }
}

/// The verdict, to be shared, if there is memory for it.
fn share(alloc: Global, verdict: Verdict) -> Option<Arc<Verdict>>
    ensures { IfSome result (λ shared. shared.value ≡ verdict) }
{
    Arc::new(alloc, verdict).ok()
}
