//! Jobs and verdicts that know what was seen of the desk they come from.

ghost use Rattle.std.specs.Prelude.{◌≡◌, IfOk, IfSome};
ghost use Rattle.bt_shared.specs.SharedJobs.{Witnesses, checked_of, shared_of};

use crate::lock::DeskSeat;
use bt_check::{Job, Verdict};
use bt_picker::Desk;
use std::alloc::{AllocError, Global};
use std::marker::Model;
use std::sync::Arc;

/// A job of a shared desk, with what the desk was when it was made. So the verdict can be settled with no comparison of its bytes, as long
/// as no check has failed since. Contracts see which desk it is, its setting, and the piece with its blocks.
#[derive(Drop)]
pub struct SharedJob {
    pub(crate) job: Job,
    pub(crate) failures: u64,
    pub(crate) seen: DeskSeat<Desk>,
}

impl Model for SharedJob {
    ghost use Rattle.bt_shared.specs.SharedJobs.{JobState, Witnesses, checked_of};

    ghost Value = { JobState };

    ghost view = { λ j. record {
      table = j.seen.table_id;
      setting = j.seen.me.0.setting;
      checked = checked_of j.job;
    } };

    ghost invariant = { λ j. Witnesses j.seen.me j.failures (checked_of j.job) };
}

/// What came of a shared job: the digest with the bytes that gave it, to be settled at the desk. Contracts see what they see of the job.
#[derive(Drop)]
pub struct SharedVerdict {
    pub(crate) verdict: Arc<Verdict>,
    pub(crate) failures: u64,
    pub(crate) seen: DeskSeat<Desk>,
}

impl Model for SharedVerdict {
    ghost use Rattle.std.specs.Arc.{arc_value};
    ghost use Rattle.bt_shared.specs.SharedJobs.{JobState, Witnesses};

    ghost Value = { JobState };

    ghost view = { λ v. record {
      table = v.seen.table_id;
      setting = v.seen.me.0.setting;
      checked = arc_value v.verdict;
    } };

    ghost invariant = { λ v. Witnesses v.seen.me v.failures (arc_value v.verdict) };
}

impl SharedJob {
    /// The piece that is to be hashed.
    pub fn piece(&self) -> u32
        ensures { result ≡ self.now.checked.piece }
    {
        self.job.piece
    }

    /// Hashes the blocks, as `Job::hash` does. Only the verdict takes memory. Needs no lock.
    pub fn hash(self, alloc: Global) -> Result<SharedVerdict, AllocError>
        ensures { IfOk result (λ verdict. verdict ≡ self) }
    {
        let SharedJob {
            job,
            failures,
            seen,
        } = self;
        share(alloc, job.hash(), failures, seen)
    }

    /// Hashes four jobs, as `Job::hash_four` does. Only the verdicts take memory. Needs no lock.
    pub fn hash_four(
        alloc: Global,
        first: SharedJob,
        second: SharedJob,
        third: SharedJob,
        fourth: SharedJob,
    ) -> Result<(SharedVerdict, SharedVerdict, SharedVerdict, SharedVerdict), AllocError>
        ensures first { IfOk result (λ verdicts. verdicts.0 ≡ first) }
        ensures second { IfOk result (λ verdicts. verdicts.1 ≡ second) }
        ensures third { IfOk result (λ verdicts. verdicts.2 ≡ third) }
        ensures fourth { IfOk result (λ verdicts. verdicts.3 ≡ fourth) }
    {
        let (a, b, c, d) = Job::hash_four(first.job, second.job, third.job, fourth.job);
        Ok((
            share(alloc, a, first.failures, first.seen)?,
            share(alloc, b, second.failures, second.seen)?,
            share(alloc, c, third.failures, third.seen)?,
            share(alloc, d, fourth.failures, fourth.seen)?,
        ))
    }
}

impl SharedVerdict {
    /// The digest with the bytes that gave it.
    pub fn verdict(&self) -> &Arc<Verdict>
        ensures { result.now.value ≡ self.now.checked }
    {
        &self.verdict
    }
}

/// The verdict beside what was seen when its job was made.
fn share(
    alloc: Global,
    verdict: Verdict,
    failures: u64,
    seen: DeskSeat<Desk>,
) -> Result<SharedVerdict, AllocError>
    requires { Witnesses seen.me failures verdict }
    ensures { IfOk result (λ shared. shared ≡ record { table = seen.table_id; setting = seen.me.0.setting; checked = verdict }) }
{
    Ok(SharedVerdict {
        verdict: Arc::new(alloc, verdict)?,
        failures,
        seen,
    })
}

/// The job beside what was seen when it was made, if one was made.
pub(crate) fn with_seen(job: Option<Job>, failures: u64, seen: DeskSeat<Desk>) -> Option<SharedJob>
    requires { IfSome job (λ job. Witnesses seen.me failures (checked_of job)) }
    ensures { result ≡ shared_of seen.table_id seen.me.0.setting job }
{
    let job = job?;
    Some(SharedJob {
        job,
        failures,
        seen,
    })
}
