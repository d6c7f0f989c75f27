//! The pointer that C holds of a picker.
ghost use Rattle.std.specs.Prelude.{◌≡◌, Option};
ghost use Rattle.bt_c.specs.Handles.{handle_owns};
ghost use Rattle.bt_c.specs.contracts.picker_handle.PickerHandle as behind;

use crate::handle::Handle;
use crate::kept::Kept;
use crate::picker_handle::PickerHandle;
use std::alloc::Global;
use std::marker::Model;

/// A variable of type `piecepick_picker *` in C. Null points to no picker.
#[repr(C)]
pub struct PickerPointer {
    at: *mut u8,
    alloc: Global,
    pub ghost picker: { Option behind.the_row.Denot },
}

impl Model for PickerPointer {
    ghost also_owns = { λ s. handle_owns behind.the_row s.at s.alloc s.picker };
}

impl Handle for PickerPointer {
    type Behind = PickerHandle;

    ghost holds = { λ s. s.picker };

    fn of_kept(kept: Kept<PickerHandle>) -> PickerPointer
        ensures { result.picker ≡ kept.value }
    {
        let Kept { at, alloc } = kept;
        PickerPointer {
            at: at as *mut u8,
            alloc,
        }
    }

    fn into_kept(self) -> Kept<PickerHandle>
        ensures { result.value ≡ self.picker }
    {
        let PickerPointer { at, alloc } = self;
        Kept {
            at: at as *mut PickerHandle,
            alloc,
        }
    }
}

// What C holds is freed by the export that closes it. Here a handle is dropped only where another takes its place.
impl Drop for PickerPointer {
    fn drop(self) {
        drop(self.into_kept().into_box());
    }
}

// It may go to another thread, as what it owns may: plain data, counted blocks of bytes, and a handle of the C heap.
unsafe impl Send for PickerPointer {}
