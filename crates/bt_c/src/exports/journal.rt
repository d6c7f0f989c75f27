//! What a picker answers that keeps a journal.
ghost use Rattle.std.specs.Prelude.{◌≡◌, None};
ghost use Rattle.bt_c.specs.declared.engine.Keeping.TheVariants as keeps;
ghost use Rattle.bt_c.specs.Asking.{Audits, Reads};
ghost use Rattle.bt_c.specs.Calling.{Settles};
ghost use Rattle.bt_c.specs.Outcomes.{AtOpen, Tells, TellsDone};

use super::tell::{tell, tell_done};
use crate::answer::Answer;
use crate::fault::Fault;
use crate::handle::{Handle, put_back};
use crate::lending::lend;
use crate::picker_handle::PickerHandle;
use std::alloc::Global;

/// Writes the piece into the buffer, if it is complete.
fn read(
    alloc: Global,
    picker: &mut PickerHandle,
    piece: u32,
    buffer: &mut [u8],
) -> Result<(), Fault>
    ensures same { picker.new.held ≡ picker.old.held }
    ensures shut { picker.old.held ≡ None → buffer.new ≡ buffer.old }
    ensures reads { AtOpen (λ h o. Reads h piece buffer.old buffer.new o) picker.old.held result }
{
    let held = picker.take(alloc).ok_or(Fault::Closed)?;
    let done = held.read(piece, buffer);
    put_back(picker, held);
    done
}

/// Hashes the bytes that are held of the piece, and settles it.
#[unsafe(no_mangle)]
pub extern "C" fn piecepick_settle_now(
    alloc: Global,
    picker: &mut PickerHandle,
    piece: u32,
    answer: &mut Answer,
) -> u32
    ensures { Tells (λ h e o. Settles keeps.Journal h e piece o)
        picker.old.held picker.new.held result answer.new }
{
    tell(
        lend(alloc, picker, |held| held.settle_now(alloc, piece)),
        answer,
    )
}

/// Writes the bytes of a complete piece into a buffer of their number. Takes no memory.
#[unsafe(no_mangle)]
pub extern "C" fn piecepick_read(
    alloc: Global,
    picker: &mut PickerHandle,
    piece: u32,
    buffer: &mut [u8],
) -> u32
    ensures same { picker.new.held ≡ picker.old.held }
    ensures shut { picker.old.held ≡ None → buffer.new ≡ buffer.old }
    ensures reads { TellsDone (λ h o. Reads h piece buffer.old buffer.new o) picker.old.held result }
{
    tell_done(read(alloc, picker, piece, buffer))
}

/// Judges the journal by the rules.
#[unsafe(no_mangle)]
pub extern "C" fn piecepick_audit(alloc: Global, picker: &mut PickerHandle) -> u32
    ensures same { picker.new.held ≡ picker.old.held }
    ensures audits { TellsDone Audits picker.old.held result }
{
    tell_done(lend(alloc, picker, |held| held.audit(alloc)))
}
