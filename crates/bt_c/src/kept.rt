//! A value on the heap, or none, as its pointer.
ghost use Rattle.std.specs.Prelude.{◌≡◌, None, Some, Option, MatchOption};
ghost use Rattle.bt_c.specs.Handles.{handle_owns};

use crate::loose::Loose;
use std::alloc::Global;
use std::marker::Model;
use std::ptr::null_mut;

/// A pointer that owns what lies behind it. Null owns nothing.
pub struct Kept<T> {
    pub(crate) at: *mut T,
    pub(crate) alloc: Global,
    pub ghost value: { Option T },
}

impl<T> Model for Kept<T> {
    ghost also_owns = { λ k. handle_owns T.row k.at k.alloc k.value };
}

impl<T: Drop> Kept<T> {
    /// Null.
    pub fn nothing(alloc: Global) -> Kept<T>
        ensures { result.value ≡ None }
    {
        Kept {
            at: null_mut(),
            alloc,
        }
    }

    /// The pointer of a box.
    fn of_loose(loose: Loose<T, Global>) -> Kept<T>
        ensures { result.value ≡ Some loose.value }
    {
        let Loose { at, alloc } = loose;
        Kept { at, alloc }
    }

    /// The pointer of a box again, unless it is null.
    fn into_loose(self) -> Option<Loose<T, Global>>
        ensures { MatchOption result (self.value ≡ None) (λ l. self.value ≡ Some l.value) }
    {
        let Kept { at, alloc } = self;
        if at.is_null() {
            None
        } else {
            Some(Loose { at, alloc })
        }
    }

    /// The pointer of the box.
    pub fn of(value: Box<T>) -> Kept<T>
        ensures { result.value ≡ Some value.value }
    {
        Kept::of_loose(Loose::of(value))
    }

    /// The box, unless the pointer is null.
    pub fn into_box(self) -> Option<Box<T>>
        ensures { MatchOption result (self.value ≡ None) (λ b. self.value ≡ Some b.value) }
    {
        match self.into_loose() {
            None => None,
            Some(loose) => Some(loose.into_box()),
        }
    }
}
