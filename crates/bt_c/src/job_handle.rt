//! The handle that C holds.
ghost use Rattle.std.specs.Prelude.{◌≡◌, Option};
ghost use Rattle.bt_c.specs.Handles.{handle_owns};
ghost use Rattle.bt_c.specs.contracts.check.Check as away;

use crate::check::Check;
use crate::handle::Handle;
use crate::kept::Kept;
use std::alloc::Global;
use std::marker::Model;

/// What lies behind C's `piecepick_job *`: one pointer, of which C knows nothing. Null holds no job.
#[repr(C)]
pub struct JobHandle {
    at: *mut u8,
    alloc: Global,
    pub ghost check: { Option away.the_row.Denot },
}

impl Model for JobHandle {
    ghost also_owns = { λ s. handle_owns away.the_row s.at s.alloc s.check };
}

impl Handle for JobHandle {
    type Behind = Check;

    ghost holds = { λ s. s.check };

    fn of_kept(kept: Kept<Check>) -> JobHandle
        ensures { result.check ≡ kept.value }
    {
        let Kept { at, alloc } = kept;
        JobHandle {
            at: at as *mut u8,
            alloc,
        }
    }

    fn into_kept(self) -> Kept<Check>
        ensures { result.value ≡ self.check }
    {
        let JobHandle { at, alloc } = self;
        Kept {
            at: at as *mut Check,
            alloc,
        }
    }
}

// What C holds is freed by the export that closes it. Here a handle is dropped only where another takes its place.
impl Drop for JobHandle {
    fn drop(self) {
        drop(self.into_kept().into_box());
    }
}

// It may go to another thread, as what it owns may: plain data, counted blocks of bytes, and a handle of the C heap.
unsafe impl Send for JobHandle {}
