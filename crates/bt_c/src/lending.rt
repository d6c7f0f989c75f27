//! A picker is lent by its handle.
ghost use Rattle.std.specs.Prelude.{IfSome};
ghost use Rattle.std.specs.Fn.{FnOnceReturnsAtMut, FnOnceTakesAtMut};
ghost use Rattle.bt_c.specs.Outcomes.{Lends};

use crate::fault::Fault;
use crate::handle::{Handle, put_back};
use crate::held::Held;
use crate::picker_handle::PickerHandle;
use std::alloc::Global;

/// Lends the picker behind a handle to a call, unless the handle is null.
pub fn lend<X, F: FnOnce(&mut Held) -> Result<X, Fault>>(
    alloc: Global,
    picker: &mut PickerHandle,
    call: F,
) -> Result<X, Fault>
    requires { IfSome picker.old.held (λ h. FnOnceTakesAtMut F.FnOnce call h) }
    ensures { Lends (λ h o k. FnOnceReturnsAtMut F.FnOnce call h o k) picker.old.held picker.new.held result }
{
    let Some(mut held) = picker.take(alloc) else {
        return Err(Fault::Closed);
    };
    let outcome = call(&mut held);
    put_back(picker, held);
    outcome
}
