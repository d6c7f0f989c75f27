//! The list of the pieces that are had, and the number of checks that failed.

ghost use Rattle.std.specs.Prelude.{◌≡◌, ◌≢◌, ◌+◌, ◌<◌, ◌++◌, [], None, length, vec_capacity, if◌then◌else◌};
ghost use Rattle.std.specs.Option.{option_to_list};
ghost use Rattle.bt_history.specs.Entries.{action_of};
ghost use Rattle.bt_history.specs.Finished.{checked_by};
ghost use Rattle.bt_history.specs.History.{is_failed, is_had};

use bt_history::{Call, Reply};

/// The piece that came to be had by the call, if one did.
pub fn finished_piece(call: &Call, reply: Reply) -> Option<u32>
    ensures { option_to_list result ≡ (if is_had reply then checked_by (action_of call.now) else []) }
{
    match (reply, call) {
        (Reply::Had, Call::Settle(verdict)) => Some(verdict.piece()),
        _ => None,
    }
}

/// Puts the piece, if there is one, behind those that came to be had before it.
pub fn list_finished(had_pieces: &mut Vec<u32>, finished: Option<u32>)
    requires { finished ≢ None → length had_pieces.old.items < vec_capacity had_pieces.old }
    ensures items { had_pieces.new.items ≡ had_pieces.old.items ++ option_to_list finished }
    ensures room { vec_capacity had_pieces.new ≡ vec_capacity had_pieces.old }
{
    if let Some(piece) = finished {
        had_pieces.push_reserved(piece);
    }
}

/// Counts the check, if it failed.
pub fn count_failure(failures: &mut u64, reply: Reply)
    requires { failures.old + 1 < 18446744073709551616 }
    ensures { failures.new ≡ (if is_failed reply then 1 else 0) + failures.old }
{
    if let Reply::Failed = reply {
        *failures += 1;
    }
}
