//! The desk that threads share, and the calls at it.

ghost use Rattle.std.specs.Prelude.{◌≡◌, ◌<◌, ◌≤◌, [], ℕ, Some, false, length, option_copied, slice_get, vec_len, IfErr, IfOk, IfSome};
ghost use Rattle.std.specs.Prelude.{IsOk, OnErr, IsTrue};
ghost use Rattle.bt_meta.specs.Layout.{piece_count};
ghost use Rattle.bt_history.specs.Entries.{action_of, event};
ghost use Rattle.bt_history.specs.Legal.{IsLegal};
ghost use Rattle.bt_history.specs.Logs.{answers, call_mark};
ghost use Rattle.bt_history.specs.Setting.{AreRules, setting_of};
ghost use Rattle.bt_history.specs.declared.mark.CallMark.TheVariants.{Settle};
ghost use Rattle.bt_picker.specs.Checks.{IsJobOf, waits};
ghost use Rattle.bt_shared.specs.Closing.{EachKnows};
ghost use Rattle.bt_shared.specs.Gathering.{AreHad, EachAgrees, EachFrom, IsCause, IsNotMissing};
ghost use Rattle.bt_shared.specs.Passes.{AreOf, Enters, HasLengths, IsSame, Rests, Settles, newcomer};
ghost use Rattle.bt_shared.specs.Seen.{Continues, StartsWith};
ghost use Rattle.bt_shared.specs.SharedJobs.{IsFor, IsSharedJobOf, checking};

use crate::entering::{enter, enter_check, enter_verdict, job_of};
use crate::gather::{Book, GatherFault, gather};
use crate::job::{SharedJob, SharedVerdict, with_seen};
use crate::lock::{Desks, Meet, Witness, lay, lock, next_seat, unlock};
use crate::pass::Pass;
use crate::view::DeskTerms;
use bt_check::Job;
use bt_history::MOST_WORKERS;
use bt_meta::{Bitfield, Torrent};
use bt_picker::{Call, Desk, Reply, Rules};
use std::alloc::{AllocError, Global};
use std::marker::Model;
use std::sync::{Arc, Wait};

/// A desk that threads share. Each call waits until it has the desk alone, and its pass then knows the history that it has found.
/// Contracts see which desk it is, and the setting that its history is judged by. A pass is handed to the desk with which it was opened,
/// the caller's condition.
pub struct SharedDesk {
    table: Desks<Desk>,
    workers: u32,
}

/// The end of a shared desk is one call for whoever owns one.
impl Drop for SharedDesk {
    fn drop(self) {
        let SharedDesk {
            table: _table,
            workers: _,
        } = self;
    }
}

impl Model for SharedDesk {
    ghost use Rattle.std.specs.Prelude.{◌≡◌, ◌≤◌};
    ghost use Rattle.bt_shared.specs.Passes.{SharedState};
    ghost use Rattle.bt_shared.specs.Guard.{IsDesk};

    ghost Value = { SharedState };

    ghost view = { λ s. record { table = s.table.shared.table_id; setting = s.table.shared.key } };

    ghost invariant = { λ s. IsDesk s.table.shared.table_id.words s.table.shared.table_id.slots × (s.workers ≡ s.table.shared.key.workers)
        × (1 ≤ s.workers) };
}

impl SharedDesk {
    /// A desk with the empty journal, and a pass for each worker, in order, that has seen nothing. `Desk::new` says which workers and rules
    /// there may be.
    pub fn open(
        alloc: Global,
        torrent: Arc<Torrent>,
        workers: u32,
        rules: Rules,
    ) -> Result<(SharedDesk, Vec<Pass>), AllocError>
        requires workers { (1 ≤ workers) × (workers ≤ MOST_WORKERS) }
        requires rules { AreRules torrent.value.layout rules }
        ensures desk { IfOk result (λ opened. opened.0.setting ≡ setting_of torrent.value.layout workers rules) }
        ensures count { IfOk result (λ opened. vec_len opened.1 ≡ workers) }
        ensures passes { IfOk result (λ opened.
            (w : ℕ) → w < workers → slice_get opened.1.items w ≡ Some (newcomer opened.0 w)) }
    {
        let terms = DeskTerms::of(&torrent, workers, rules)?;
        let desk = Box::new(alloc, Desk::new(alloc, torrent, workers, rules)?)?;
        let (table, mut maker) = lay(alloc, desk, &terms)?;
        let mut passes = Vec::new(alloc);
        for worker in 0..workers {
            let seat = next_seat(&table.shared, &mut maker);
            let log = Vec::new(alloc);
            passes.push(Pass { worker, seat, log })?;
        }
        Ok((SharedDesk { table, workers }, passes))
    }

    /// The worker's call, once the desk is had. What the pass has seen then ends with its entry. Without memory for entry and mark, no
    /// entry is made.
    pub fn call<R: Wait>(&self, rt: &R, pass: &mut Pass, call: Call) -> Result<Reply, AllocError>
        requires { pass.old.table ≡ self.now.table }
        ensures ok { IfOk result (λ reply. Enters (event pass.old.worker call reply) pass.old pass.new) }
        ensures same { IsSame pass.old pass.new }
        ensures legal { IsLegal pass.new.setting pass.new.seen }
        ensures fits { IfOk result (λ reply. IsTrue (answers (call_mark (action_of call)) reply)) }
        ensures err { OnErr result (Rests pass.old pass.new) }
    {
        // While nobody waits for this worker.
        pass.make_room()?;
        let words = &self.table.shared;
        let Pass { worker, seat, log } = pass;
        let mut desk = lock(rt, words, seat);
        let made = enter(&mut desk, *worker, log, call);
        unlock(words, seat, desk);
        made
    }

    /// Hashes the bytes that are held of the piece and settles it, while the desk is had. A piece that doesn't wait for a check is refused
    /// with no entry and no mark, whatever memory there is. Without memory, no entry is made.
    pub fn settle_now<R: Wait>(
        &self,
        rt: &R,
        alloc: Global,
        pass: &mut Pass,
        piece: u32,
    ) -> Result<Reply, AllocError>
        requires { pass.old.table ≡ self.now.table }
        ensures ok { IfOk result (λ reply. Settles piece reply pass.old pass.new) }
        ensures same { IsSame pass.old pass.new }
        ensures legal { IsLegal pass.new.setting pass.new.seen }
        ensures fits { IfOk result (λ reply. IsTrue (answers (Settle piece) reply)) }
        ensures unasked { waits pass.new.setting pass.new.seen piece ≡ false → IsOk result }
        ensures err { OnErr result (Rests pass.old pass.new) }
    {
        let words = &self.table.shared;
        let Pass { worker, seat, log } = pass;
        let mut desk = lock(rt, words, seat);
        let made = enter_check(&mut desk, alloc, *worker, log, piece);
        unlock(words, seat, desk);
        made
    }

    /// The job of checking the piece, if it waits for a check in the history that the pass has then seen. A checker's thread hashes it while
    /// others have the desk, and settles the verdict by a call.
    pub fn job<R: Wait>(
        &self,
        rt: &R,
        alloc: Global,
        pass: &mut Pass,
        piece: u32,
    ) -> Result<Option<Job>, AllocError>
        requires { pass.old.table ≡ self.now.table }
        ensures rests { Rests pass.old pass.new }
        ensures legal { IsLegal pass.new.setting pass.new.seen }
        ensures job { IfOk result (λ job. IsJobOf pass.new.setting pass.new.seen piece job) }
        ensures lengths { IfOk result (λ job. IfSome job (λ job.
            (job.piece ≡ piece) × HasLengths pass.new.setting.torrent piece job.blocks.items)) }
        ensures unasked { waits pass.new.setting pass.new.seen piece ≡ false → IsOk result }
    {
        let words = &self.table.shared;
        let seat = &mut pass.seat;
        let desk = lock(rt, words, seat);
        let job = job_of(&desk, alloc, piece);
        unlock(words, seat, desk);
        job
    }

    /// The job of checking the piece, as `job` gives it, with what the desk was then. Its verdict is settled by `settle`.
    pub fn shared_job<R: Wait>(
        &self,
        rt: &R,
        alloc: Global,
        pass: &mut Pass,
        piece: u32,
    ) -> Result<Option<SharedJob>, AllocError>
        requires { pass.old.table ≡ self.now.table }
        ensures rests { Rests pass.old pass.new }
        ensures legal { IsLegal pass.new.setting pass.new.seen }
        ensures job { IfOk result (λ job. IsSharedJobOf pass.new piece job) }
        ensures unasked { waits pass.new.setting pass.new.seen piece ≡ false → IsOk result }
    {
        let words = &self.table.shared;
        let seat = &mut pass.seat;
        let desk = lock(rt, words, seat);
        let made = job_of(&desk, alloc, piece);
        let failures = desk.failures();
        unlock(words, seat, desk);
        let seen = words.split_seat::<Witness>(seat);
        match made {
            Ok(job) => Ok(with_seen(job, failures, seen)),
            Err(error) => Err(error),
        }
    }

    /// Settles the verdict of a shared job of this desk, once the desk is had. The bytes that were hashed aren't compared with those held, as
    /// long as no check has failed since the job was made: then they are the same. What the pass has seen then ends with the entry.
    /// Without memory for entry and mark, no entry is made.
    pub fn settle<R: Wait>(
        &self,
        rt: &R,
        pass: &mut Pass,
        verdict: SharedVerdict,
    ) -> Result<Reply, AllocError>
        requires pass { pass.old.table ≡ self.now.table }
        requires verdict { IsFor pass.old verdict }
        ensures ok { IfOk result (λ reply. Enters (checking pass.old.worker verdict.checked reply) pass.old pass.new) }
        ensures same { IsSame pass.old pass.new }
        ensures legal { IsLegal pass.new.setting pass.new.seen }
        ensures fits { IfOk result (λ reply. IsTrue (answers (Settle verdict.checked.piece) reply)) }
        ensures err { OnErr result (Rests pass.old pass.new) }
    {
        // While nobody waits for this worker.
        pass.make_room()?;
        let SharedVerdict {
            verdict,
            failures,
            seen,
        } = verdict;
        let words = &self.table.shared;
        let Pass { worker, seat, log } = pass;
        words.join_seat::<Meet>(seat, seen);
        let mut desk = lock(rt, words, seat);
        let made = enter_verdict(&mut desk, *worker, log, verdict, failures);
        unlock(words, seat, desk);
        made
    }

    /// The second pass has then seen all that the first has, and it knows so.
    pub fn meet<R: Wait>(&self, rt: &R, first: &mut Pass, second: &mut Pass)
        requires first { first.old.table ≡ self.now.table }
        requires second { second.old.table ≡ self.now.table }
        ensures first { first.new ≡ first.old }
        ensures second { Rests second.old second.new }
        ensures legal { IsLegal second.new.setting second.new.seen }
        ensures told { StartsWith second.new.seen first.new.seen }
    {
        let words = &self.table.shared;
        let copy = words.split_seat::<Witness>(&mut first.seat);
        let seat = &mut second.seat;
        words.join_seat::<Meet>(seat, copy);
        let desk = lock(rt, words, seat);
        unlock(words, seat, desk);
    }

    /// The desk of all calls, with a log for each worker, if the logs have all entries of the journal, each at its place, and the
    /// bitfield, if there is one, has exactly the pieces that are had. Desk and passes are used up also where it refuses.
    pub fn gather(
        self,
        alloc: Global,
        passes: Vec<Pass>,
        bits: Option<&Bitfield>,
    ) -> Result<Book, GatherFault>
        requires passes { AreOf self passes.items }
        requires bits { IfSome bits (λ bits. length bits.now ≡ piece_count self.setting.torrent) }
        ensures setting { IfOk result (λ book. book.desk.setting ≡ self.setting) }
        ensures legal { IfOk result (λ book. IsLegal self.setting book.desk.history) }
        ensures count { IfOk result (λ book. vec_len book.logs ≡ self.setting.workers) }
        ensures logs { IfOk result (λ book. EachFrom passes.items book.logs.items) }
        ensures seen { IfOk result (λ book. EachKnows book.desk.history passes.items) }
        ensures agrees { IfOk result (λ book. EachAgrees book.desk.history book.logs.items) }
        ensures bits { IfOk result (λ book. IfSome bits.entry (λ bits. AreHad bits.now book.desk.history)) }
        ensures err { IfErr result (IsCause self.setting passes.items (option_copied bits.entry)) }
        ensures all { vec_len passes ≡ self.setting.workers → IfErr result IsNotMissing }
    {
        let SharedDesk { table, workers } = self;
        gather(table, workers, alloc, passes, bits)
    }
}
