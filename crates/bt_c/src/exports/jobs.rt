//! Checks of pieces that are hashed without the picker.
ghost use Rattle.std.specs.Prelude.{◌≡◌, None};
ghost use Rattle.bt_c.specs.Jobs.{PutsJob, TellsHash, TellsJob, TellsRead, TellsVerdict};
ghost use Rattle.bt_c.specs.Outcomes.{AtHandle, Tells};

use super::tell::{tell, tell_done};
use crate::answer::Answer;
use crate::fault::Fault;
use crate::handle::{Handle, put_back};
use crate::job_handle::JobHandle;
use crate::job_pointer::JobPointer;
use crate::jobs::{hash, read};
use crate::picker_handle::PickerHandle;
use bt_picker::Reply;
use std::alloc::Global;

/// Puts a piece that waits for a check behind an empty pointer.
fn take_job(
    alloc: Global,
    picker: &mut PickerHandle,
    piece: u32,
    job: &mut JobPointer,
) -> Result<(), Fault>
    ensures same { picker.new.held ≡ picker.old.held }
    ensures puts { PutsJob picker.old.held job.old.job job.new.job piece result }
{
    let held = picker.take(alloc).ok_or(Fault::Closed)?;
    let done = held.take_job(alloc, piece, job);
    put_back(picker, held);
    done
}

/// Settles the verdict of the check behind the handle.
fn settle(alloc: Global, picker: &mut PickerHandle, job: &mut JobHandle) -> Result<Reply, Fault>
    ensures same { job.new.check ≡ job.old.check }
    ensures tells { AtHandle (λ h e o. TellsVerdict job.old.check h e o) picker.old.held picker.new.held result }
{
    let mut held = picker.take(alloc).ok_or(Fault::Closed)?;
    let outcome = held.settle_job(alloc, job);
    put_back(picker, held);
    outcome
}

/// Makes the job of checking a piece that is full and isn't complete.
#[unsafe(no_mangle)]
pub extern "C" fn piecepick_job_take(
    alloc: Global,
    picker: &mut PickerHandle,
    piece: u32,
    job: &mut JobPointer,
) -> u32
    ensures same { picker.new.held ≡ picker.old.held }
    ensures puts { TellsJob picker.old.held job.old.job job.new.job piece result }
{
    tell_done(take_job(alloc, picker, piece, job))
}

/// Hashes the piece of the job. No picker is needed, so others may use it meanwhile.
#[unsafe(no_mangle)]
pub extern "C" fn piecepick_job_hash(alloc: Global, job: &mut JobHandle) -> u32
    ensures { TellsHash job.old.check job.new.check result }
{
    tell_done(hash(alloc, job))
}

/// Tells the picker the verdict of a job that was hashed.
#[unsafe(no_mangle)]
pub extern "C" fn piecepick_job_settle(
    alloc: Global,
    picker: &mut PickerHandle,
    job: &mut JobHandle,
    answer: &mut Answer,
) -> u32
    ensures same { job.new.check ≡ job.old.check }
    ensures tells { Tells (λ h e o. TellsVerdict job.old.check h e o)
        picker.old.held picker.new.held result answer.new }
{
    tell(settle(alloc, picker, job), answer)
}

/// Writes the bytes of the job's piece into a buffer of their number, whether it was hashed or not. Takes no memory.
#[unsafe(no_mangle)]
pub extern "C" fn piecepick_job_read(alloc: Global, job: &mut JobHandle, buffer: &mut [u8]) -> u32
    ensures same { job.new.check ≡ job.old.check }
    ensures reads { TellsRead job.old.check buffer.old buffer.new result }
{
    tell_done(read(alloc, job, buffer))
}

/// Frees the job, if there is one; the pointer is NULL then.
#[unsafe(no_mangle)]
pub extern "C" fn piecepick_job_close(alloc: Global, job: &mut JobPointer)
    ensures { job.new.job ≡ None }
{
    drop(job.take(alloc));
}
