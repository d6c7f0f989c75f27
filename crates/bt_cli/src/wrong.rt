//! What may be wrong with a command line beyond what `clap` tells.

ghost use Rattle.std.specs.Prelude.{◌≡◌, ◌⊎◌, true};
ghost use Rattle.std.specs.Io.KnownBytes.{Appends};
ghost use Rattle.bt_cli.specs.Asks.{wrong_text};

use crate::failure::WRONG_ARGUMENTS;
use crate::road::Done;
use bt_meta::{DeviceFault, Sink};
use bt_text::print;

/// What is wrong with a command line.
#[derive(Clone, Copy, Debug, PartialEq, Eq)]
pub enum Wrong {
    Depth,
    Checkers,
    Streams,
    Want,
    /// What would be written is what is read.
    Output,
    /// An option of `serial` is given to `run`.
    OfSerial,
    /// An option of `run` is given to `serial`.
    OfRun,
    /// `clap` doesn't let it through.
    Lacking,
}

impl Wrong {
    /// The line that tells it.
    fn text(self) -> &'static str
        ensures { result.now ≡ wrong_text self }
    {
        match self {
            Wrong::Depth => "error: a depth is 1 to 64\n",
            Wrong::Checkers => "error: a run takes 1 to 8 checkers\n",
            Wrong::Streams => "error: a run takes 1 to 64 streams\n",
            Wrong::Want => "error: the value of --want is not hexadecimal\n",
            Wrong::Output => "error: the file of --out is META or a STREAM\n",
            Wrong::OfSerial => { "error: --want and --journal are options of `piecepick serial`\n" }
            Wrong::OfRun => "error: --checkers is an option of `piecepick run`\n",
            Wrong::Lacking => "error: META or a command is lacking\n",
        }
    }
}

/// Tells on `err` what is wrong with the command line. That this fails changes nothing.
pub fn refuse<E: Sink>(wrong: Wrong, err: &mut E) -> Done
    ensures status { result.status ≡ WRONG_ARGUMENTS }
    // It was told, or standard error has failed.
    ensures told { (E.failed err.new ≡ true) ⊎ Appends (E.written err.old) (E.written err.new) (wrong_text wrong) }
{
    match print(err, wrong.text()) {
        Ok(()) => Done::wrong_arguments(),
        Err(DeviceFault) => Done::wrong_arguments(),
    }
}
