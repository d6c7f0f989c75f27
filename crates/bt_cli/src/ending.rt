//! How a command ends: its output is flushed, and the file of `--out` is made.

ghost use Rattle.std.specs.Prelude.{◌≡◌, ◌⊎◌, false, true, Ok, IfErr, IfOk, OnOk, OnErr};
ghost use Rattle.std.specs.Io.KnownBytes.{Keeps};
ghost use Rattle.bt_cli.specs.Failures.{IsEndOf};
ghost use Rattle.bt_cli.specs.Targets.{HasFailed, HoldsAll, SavesTo};

use crate::device::Device;
use crate::failure::{Failure, graver};
use crate::target::{Kept, Target, save_to};
use bt_meta::Sink;
use bt_picker::Desk;
use bt_text::Fault;
use std::io::Write;

/// How a command ends that came to this end, and whose output is written now.
pub fn ended<'w, O: Write + Drop>(
    done: Result<u8, Fault>,
    out: &mut Device<O>,
) -> Result<u8, Failure<'w>>
    ensures ok { IfOk result (λ status. done ≡ Ok status) }
    ensures written { OnOk result (⟦<Device<O> as Sink>⟧.failed out.new ≡ false) }
    ensures err { IfErr result (IsEndOf done (⟦<Device<O> as Sink>⟧.failed out.new)) }
    ensures kept { Keeps (⟦<Device<O> as Sink>⟧.written out.old) (⟦<Device<O> as Sink>⟧.written out.new) }
{
    match (done, flushed(out)) {
        (Ok(status), Ok(())) => Ok(status),
        // A fault of the file says no more than that the output has failed; the output says why.
        (Ok(_) | Err(Fault::File), Err(failure)) => Err(failure),
        (Err(fault), Ok(())) => Err(Failure::Command(fault)),
        (Err(fault), Err(failure)) => Err(graver(Failure::Command(fault), failure)),
    }
}

/// What became of an output.
fn flushed<'w, O: Write + Drop>(out: &mut Device<O>) -> Result<(), Failure<'w>>
    ensures ok { OnOk result (⟦<Device<O> as Sink>⟧.failed out.new ≡ false) }
    ensures err { OnErr result (⟦<Device<O> as Sink>⟧.failed out.new ≡ true) }
    ensures kept { Keeps (⟦<Device<O> as Sink>⟧.written out.old) (⟦<Device<O> as Sink>⟧.written out.new) }
{
    match out.finish() {
        Ok(()) => Ok(()),
        Err(error) => Err(Failure::of_output(error)),
    }
}

/// The same of a run that came to this desk; its content is saved, whatever became of the output.
pub fn finish<'w, O: Write + Drop, F: Kept>(
    done: Result<u8, Fault>,
    desk: &Desk,
    out: &mut Device<O>,
    target: &mut Option<Target<'w, F>>,
) -> Result<u8, Failure<'w>>
    ensures ok { IfOk result (λ status. done ≡ Ok status) }
    ensures written { OnOk result (⟦<Device<O> as Sink>⟧.failed out.new ≡ false) }
    ensures saved { SavesTo F.failed F.written F.blank desk.now target.old target.new }
    ensures whole { OnOk result (HoldsAll F.written F.blank desk.now target.new) }
    ensures err { IfErr result (λ failure.
        IsEndOf done (⟦<Device<O> as Sink>⟧.failed out.new) failure ⊎ HasFailed F.failed target.new) }
    ensures kept { Keeps (⟦<Device<O> as Sink>⟧.written out.old) (⟦<Device<O> as Sink>⟧.written out.new) }
{
    let done = ended(done, out);
    match (done, save_to(desk, target)) {
        (done, Ok(())) => done,
        (Ok(_), Err(failure)) => Err(failure),
        (Err(first), Err(second)) => Err(graver(first, second)),
    }
}
