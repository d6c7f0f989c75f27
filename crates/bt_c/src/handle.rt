//! What the handles of C have in common.
ghost use Rattle.std.specs.Prelude.{◌≡◌, None, Some, Option, MatchOption};

use crate::kept::Kept;
use std::alloc::Global;
use std::mem::{forget, replace};

/// What C holds of a value on the heap: one pointer, of which C knows nothing. Null holds nothing.
pub trait Handle: Sized {
    type Behind: Drop;

    ghost holds: { Self → Option Self.Behind };

    /// The handle that is this pointer.
    fn of_kept(kept: Kept<Self::Behind>) -> Self
        ensures { holds result ≡ kept.value };

    /// The pointer that the handle is.
    fn into_kept(self) -> Kept<Self::Behind>
        ensures { result.value ≡ holds self };

    /// Takes what a handle owns out of it. It is null then.
    fn take(&mut self, alloc: Global) -> Option<Box<Self::Behind>>
        ensures held { MatchOption result (holds self.old ≡ None) (λ b. holds self.old ≡ Some b.value) }
        ensures shut { holds self.new ≡ None }
    {
        let shut = Self::of_kept(Kept::nothing(alloc));
        replace(self, shut).into_kept().into_box()
    }
}

/// A handle that owns the box.
pub fn holding<H: Handle>(value: Box<H::Behind>) -> H
    ensures { H.holds result ≡ Some value.value }
{
    H::of_kept(Kept::of(value))
}

/// Puts the box behind a handle out of which one was taken. What the handle held is null, so nothing is freed.
#[inline(always)]
pub fn put_back<H: Handle + Drop>(handle: &mut H, value: Box<H::Behind>)
    requires { H.holds handle.old ≡ None }
    ensures { H.holds handle.new ≡ Some value.value }
{
    forget(replace(handle, holding(value)));
}
