//! Whether the desk of a run that is over leaves a piece unchecked.

ghost use Rattle.std.specs.Prelude.{◌≡◌, true};
ghost use Rattle.bt_meta.specs.Layout.{piece_count};
ghost use Rattle.bt_session.specs.Runs.{IsShortFor, LeavesNone, TellsWaiting};

use bt_picker::Desk;

/// Whether a piece still waits for a check.
fn is_waiting(desk: &Desk, pieces: u32) -> bool
    requires { piece_count desk.now.setting.torrent ≡ pieces }
    ensures { TellsWaiting result desk.now }
{
    for piece in 0..pieces {
        if desk.picker().is_waiting(piece) {
            return true;
        }
    }
    false
}

/// Whether a run is short that came to this desk: something was given up, or a piece still waits for a check.
pub fn is_short(desk: &Desk, pieces: u32, given_up: bool) -> bool
    requires { piece_count desk.now.setting.torrent ≡ pieces }
    ensures none { LeavesNone result desk.now }
    ensures noted { given_up ≡ true → result ≡ true }
    ensures cause { IsShortFor result given_up desk.now }
{
    given_up || is_waiting(desk, pieces)
}
