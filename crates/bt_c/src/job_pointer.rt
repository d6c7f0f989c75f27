//! The pointer that C holds of a job.
ghost use Rattle.std.specs.Prelude.{◌≡◌, Option};
ghost use Rattle.bt_c.specs.Handles.{handle_owns};
ghost use Rattle.bt_c.specs.contracts.job_handle.JobHandle as behind;

use crate::handle::Handle;
use crate::job_handle::JobHandle;
use crate::kept::Kept;
use std::alloc::Global;
use std::marker::Model;

/// A variable of type `piecepick_job *` in C. Null points to no job.
#[repr(C)]
pub struct JobPointer {
    at: *mut u8,
    alloc: Global,
    pub ghost job: { Option behind.the_row.Denot },
}

impl Model for JobPointer {
    ghost also_owns = { λ s. handle_owns behind.the_row s.at s.alloc s.job };
}

impl Handle for JobPointer {
    type Behind = JobHandle;

    ghost holds = { λ s. s.job };

    fn of_kept(kept: Kept<JobHandle>) -> JobPointer
        ensures { result.job ≡ kept.value }
    {
        let Kept { at, alloc } = kept;
        JobPointer {
            at: at as *mut u8,
            alloc,
        }
    }

    fn into_kept(self) -> Kept<JobHandle>
        ensures { result.value ≡ self.job }
    {
        let JobPointer { at, alloc } = self;
        Kept {
            at: at as *mut JobHandle,
            alloc,
        }
    }
}

// What C holds is freed by the export that closes it. Here a handle is dropped only where another takes its place.
impl Drop for JobPointer {
    fn drop(self) {
        drop(self.into_kept().into_box());
    }
}

// It may go to another thread, as what it owns may: plain data, counted blocks of bytes, and a handle of the C heap.
unsafe impl Send for JobPointer {}
