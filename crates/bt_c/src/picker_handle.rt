//! The handle that C holds.
ghost use Rattle.std.specs.Prelude.{◌≡◌, Option};
ghost use Rattle.bt_c.specs.Handles.{handle_owns};
ghost use Rattle.bt_c.specs.contracts.held.Held as behind;

use crate::handle::Handle;
use crate::held::Held;
use crate::kept::Kept;
use std::alloc::Global;
use std::marker::Model;

/// What lies behind C's `piecepick_picker *`: one pointer, of which C knows nothing. Null holds no picker.
#[repr(C)]
pub struct PickerHandle {
    at: *mut u8,
    alloc: Global,
    pub ghost held: { Option behind.the_row.Denot },
}

impl Model for PickerHandle {
    ghost also_owns = { λ s. handle_owns behind.the_row s.at s.alloc s.held };
}

impl Handle for PickerHandle {
    type Behind = Held;

    ghost holds = { λ s. s.held };

    fn of_kept(kept: Kept<Held>) -> PickerHandle
        ensures { result.held ≡ kept.value }
    {
        let Kept { at, alloc } = kept;
        PickerHandle {
            at: at as *mut u8,
            alloc,
        }
    }

    fn into_kept(self) -> Kept<Held>
        ensures { result.value ≡ self.held }
    {
        let PickerHandle { at, alloc } = self;
        Kept {
            at: at as *mut Held,
            alloc,
        }
    }
}

// What C holds is freed by the export that closes it. Here a handle is dropped only where another takes its place.
impl Drop for PickerHandle {
    fn drop(self) {
        drop(self.into_kept().into_box());
    }
}

// It may go to another thread, as what it owns may: plain data, counted blocks of bytes, and a handle of the C heap.
unsafe impl Send for PickerHandle {}
