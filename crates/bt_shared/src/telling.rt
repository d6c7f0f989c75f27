//! Calls of a worker at a picker that is had alone.
ghost use Rattle.std.specs.Prelude.{◌≡◌, ◌∷◌, ◌<◌, [], ℕ, List, length, true};
ghost use Rattle.bt_history.specs.declared.call.Reply.{Reply};
ghost use Rattle.bt_history.specs.declared.event.Action.TheVariants.{Arrived};
ghost use Rattle.bt_history.specs.Legal.{IsLegal};
ghost use Rattle.bt_picker.specs.Checks.{SettlesNow, arriving, is_right, waits};
ghost use Rattle.bt_picker.specs.Positions.{Gains};
ghost use Rattle.bt_picker.specs.Told.{action_told, telling};
ghost use Rattle.bt_shared.specs.Seen.{Grows};

use bt_picker::{Picker, Reply, Told, Unseen};

/// Answers what the worker tells.
pub(crate) fn tell(picker: &mut Picker, worker: u32, told: Told<'_>) -> Reply
    requires { worker < picker.old.setting.workers }
    ensures gains { Gains picker.old picker.new (telling worker told.entry result) }
    ensures completes { (piece begin : ℕ) (bytes : List ℕ) →
        action_told told.entry ≡ Arrived piece begin bytes → result ≡ Reply.Completed →
        waits picker.new.setting picker.new.history piece ≡ true }
    ensures legal { IsLegal picker.new.setting picker.new.history }
{
    let reply = picker.tell(worker, told);
    picker.attest();
    reply
}

/// Answers a block that came from the worker's peer, of which the caller has the bytes and tells how many they are.
pub(crate) fn receive(
    picker: &mut Picker,
    worker: u32,
    piece: u32,
    begin: u32,
    bytes: &Unseen,
    len: usize,
) -> Reply
    requires worker { worker < picker.old.setting.workers }
    requires len { len ≡ length bytes.now.bytes }
    ensures gains { Gains picker.old picker.new (arriving worker piece begin bytes.now.bytes result) }
    ensures completes { result ≡ Reply.Completed → waits picker.new.setting picker.new.history piece ≡ true }
    ensures legal { IsLegal picker.new.setting picker.new.history }
{
    let reply = picker.received(worker, piece, begin, bytes, len);
    picker.attest();
    reply
}

/// Answers the worker's verdict on what is stored of the piece.
pub(crate) fn judge(picker: &mut Picker, worker: u32, piece: u32, passed: bool) -> Reply
    requires worker { worker < picker.old.setting.workers }
    requires right { waits picker.old.setting picker.old.history piece ≡ true →
        passed ≡ is_right picker.old.setting picker.old.history piece }
    ensures settles { SettlesNow picker.old picker.new worker piece result }
    ensures grows { Grows (worker ∷ []) picker.old.history picker.new.history }
    ensures setting { picker.new.setting ≡ picker.old.setting }
    ensures legal { IsLegal picker.new.setting picker.new.history }
{
    let reply = picker.judge(worker, piece, passed);
    picker.attest();
    reply
}
