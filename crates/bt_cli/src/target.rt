//! The file that a run's content goes to, with its name.

ghost use Rattle.std.specs.Prelude.{◌≡◌, true, OnErr, OnOk};
ghost use Rattle.bt_picker.specs.Contents.{complete};
ghost use Rattle.bt_cli.specs.Targets.{HasFailed, HoldsAll, Saves, SavesTo, Holds};

use crate::failure::Failure;
use crate::saving::{NewFile, save};
use bt_meta::DeviceFault;
use bt_picker::Desk;
use std::io;

/// A file that isn't there until it is asked for, and that remembers why it failed first.
pub trait Kept: NewFile {
    /// Why it failed first.
    fn reason(&self) -> io::Error
        requires { Self.failed self.now ≡ true };
}

/// A file that the content may go to, and its name.
#[derive(Drop)]
pub struct Target<'w, F> {
    pub name: &'w str,
    pub file: F,
}

/// Makes the file that is asked for, where one is, and writes the content to it, where all pieces are had.
pub fn save_to<'w, F: Kept>(
    desk: &Desk,
    target: &mut Option<Target<'w, F>>,
) -> Result<(), Failure<'w>>
    ensures saved { SavesTo F.failed F.written F.blank desk.now target.old target.new }
    ensures whole { OnOk result (HoldsAll F.written F.blank desk.now target.new) }
    ensures failed { OnErr result (HasFailed F.failed target.new) }
{
    match target {
        Some(target) => target.save(desk),
        None => Ok(()),
    }
}

impl<'w, F: Kept> Target<'w, F> {
    /// Makes the file and writes the content to it, where all pieces are had.
    fn save(&mut self, desk: &Desk) -> Result<(), Failure<'w>>
        ensures name { self.new.name ≡ self.old.name }
        ensures saved { Saves F.failed F.written F.blank desk.now self.old.file self.new.file }
        ensures whole { OnOk result (complete desk.now.setting desk.now.history ≡ true
            → Holds F.blank desk.now (F.written self.new.file)) }
        ensures failed { OnErr result (F.failed self.new.file ≡ true) }
    {
        match save(desk, &mut self.file) {
            Ok(()) => Ok(()),
            Err(DeviceFault) => Err(Failure::of_file(self.name, self.file.reason())),
        }
    }
}
