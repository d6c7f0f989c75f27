//! The file that a run's content goes to.

ghost use Rattle.std.specs.Prelude.{◌≡◌, ◌||◌, ℕ, List, Option, true, false, is_err, OnOk, OnErr};
ghost use Rattle.std.specs.Io.KnownBytes.{Appends};
ghost use Rattle.bt_picker.specs.Contents.{complete, whole_content};
ghost use Rattle.bt_cli.specs.Saves.{IsBlank};

use bt_meta::{DeviceFault, Sink};
use bt_picker::Desk;

/// A file that isn't there until it is asked for.
pub trait NewFile: Sink {
    /// What it holds once it is made: nothing, where that is known.
    ghost blank: { Option (List ℕ) };

    /// Makes the file, with nothing in it.
    fn create(&mut self) -> Result<(), DeviceFault>
        ensures blank { IsBlank blank }
        ensures made { OnOk result (Self.written self.new ≡ blank) }
        ensures failed { Self.failed self.new ≡ (Self.failed self.old || is_err result) };
}

/// Makes the file and writes the content to it, where all pieces are had, and else leaves it alone. Fails where the file does.
pub fn save<F: NewFile>(desk: &Desk, file: &mut F) -> Result<(), DeviceFault>
    ensures untouched { complete desk.now.setting desk.now.history ≡ false → file.new ≡ file.old }
    ensures saved { OnOk result (complete desk.now.setting desk.now.history ≡ true →
        Appends F.blank (F.written file.new) (whole_content desk.now.setting desk.now.history)) }
    ensures failed { OnErr result ((complete desk.now.setting desk.now.history ≡ true) × (F.failed file.new ≡ true)) }
{
    if !desk.picker().is_complete() {
        return Ok(());
    }
    file.create()?;
    match desk.write_content(file) {
        Ok(()) => Ok(()),
        Err(_) => Err(DeviceFault),
    }
}
