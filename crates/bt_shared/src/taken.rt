//! Calls of a seat that has the lock, which it then frees.
ghost use Rattle.std.specs.Prelude.{◌≡◌, ◌∷◌, ◌<◌, [], ℕ, List, false, true};
ghost use Rattle.bt_history.specs.declared.call.Reply.{Reply};
ghost use Rattle.bt_history.specs.declared.event.Action.TheVariants.{Arrived};
ghost use Rattle.bt_history.specs.Legal.{IsLegal};
ghost use Rattle.bt_picker.specs.Checks.{is_right, waits};
ghost use Rattle.bt_picker.specs.Told.{action_told, telling};
ghost use Rattle.bt_shared.specs.Guard.{IsDesk};
ghost use Rattle.bt_shared.specs.Passes.{FreesAfter, FreesJudged, IsTurnOf};

use crate::lock::{DeskSeat, Words, unlock_after};
use crate::telling::{judge, tell};
use bt_picker::{Picker, Reply, Told};

/// Answers what the worker tells, and frees the word.
pub(crate) fn tell_and_free(
    words: &Words<Picker>,
    worker: u32,
    seat: &mut DeskSeat<Picker>,
    mut picker: Box<Picker>,
    told: Told<'_>,
) -> Reply
    requires desk { IsDesk words.now.table_id.words words.now.table_id.slots × (seat.old.table_id ≡ words.now.table_id) }
    requires turn { IsTurnOf worker seat.old.me picker.value }
    requires worker { worker < picker.value.setting.workers }
    ensures same { (seat.new.table_id ≡ seat.old.table_id) × (seat.new.id ≡ seat.old.id) }
    ensures gains { FreesAfter (telling worker told.entry result) picker.value seat.old.me seat.new.me }
    ensures legal { IsLegal seat.new.me.0.setting seat.new.me.0.part.seen }
    ensures completes { (piece begin : ℕ) (bytes : List ℕ) →
        action_told told.entry ≡ Arrived piece begin bytes → result ≡ Reply.Completed →
        waits seat.new.me.0.setting seat.new.me.0.part.seen piece ≡ true }
{
    let reply = tell(&mut picker, worker, told);
    unlock_after(words, seat, picker);
    reply
}

/// Answers the worker's verdict on what is stored of the piece, and frees the word.
pub(crate) fn judge_and_free(
    words: &Words<Picker>,
    worker: u32,
    seat: &mut DeskSeat<Picker>,
    mut picker: Box<Picker>,
    piece: u32,
    passed: bool,
) -> Reply
    requires desk { IsDesk words.now.table_id.words words.now.table_id.slots × (seat.old.table_id ≡ words.now.table_id) }
    requires turn { IsTurnOf worker seat.old.me picker.value }
    requires worker { worker < picker.value.setting.workers }
    requires right { waits picker.value.setting picker.value.history piece ≡ true →
        passed ≡ is_right picker.value.setting picker.value.history piece }
    ensures same { (seat.new.table_id ≡ seat.old.table_id) × (seat.new.id ≡ seat.old.id) }
    ensures settles { FreesJudged worker piece result picker.value seat.old.me seat.new.me }
    ensures legal { IsLegal seat.new.me.0.setting seat.new.me.0.part.seen }
{
    let reply = judge(&mut picker, worker, piece, passed);
    unlock_after(words, seat, picker);
    reply
}
