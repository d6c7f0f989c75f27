//! The end of a shared picker: the passes' seats are joined, and the picker comes out of its slot.

ghost use Rattle.std.specs.Prelude.{◌≡◌, ◌≤◌, [], vec_len, IfNone, IfSome, IsSome};
ghost use Rattle.bt_history.specs.Legal.{IsLegal};
ghost use Rattle.bt_shared.specs.Closing.{EachKnows, IsJoined};
ghost use Rattle.bt_shared.specs.Guard.{IsDesk};
ghost use Rattle.bt_shared.specs.Passes.{AreOf};

use crate::closing::{close, joined};
use crate::lock::{DeskSeat, Desks, Held, Words};
use crate::picker_pass::PickerPass;
use bt_picker::Picker;

/// Joins the passes' seats into one.
fn joined_seats(words: &Words<Picker>, mut passes: Vec<PickerPass>) -> Option<DeskSeat<Picker>>
    requires desk { IsDesk words.now.table_id.words words.now.table_id.slots }
    requires passes { AreOf (record { table = words.now.table_id; setting = words.now.key }) passes.items }
    ensures none { IfNone result (passes.items ≡ []) }
    ensures all { IfSome result (λ seat. (seat.table_id ≡ words.now.table_id) × IsJoined passes.items seat.me) }
{
    let mut all = None;
    while let Some(pass) = passes.pop() {
        let PickerPass { worker: _, seat } = pass;
        all = Some(joined(words, seat, all));
    }
    all
}

/// The picker that was held.
fn picker_of(held: Option<Held<Picker>>) -> Option<Picker>
    ensures { result ≡ held }
{
    let Held { desk } = held?;
    Some(Box::into_inner(desk))
}

/// The picker, if the word is free, out of a table that these passes close. It is free where they are the passes of all workers.
pub(crate) fn close_all(table: Desks<Picker>, passes: Vec<PickerPass>) -> Option<Picker>
    requires desk { IsDesk table.shared.table_id.words table.shared.table_id.slots }
    requires workers { 1 ≤ table.shared.key.workers }
    requires passes { AreOf (record { table = table.shared.table_id; setting = table.shared.key }) passes.items }
    ensures setting { IfSome result (λ picker. picker.setting ≡ table.shared.key) }
    ensures legal { IfSome result (λ picker. IsLegal picker.setting picker.history) }
    ensures seen { IfSome result (λ picker. EachKnows picker.history passes.items) }
    ensures all { vec_len passes ≡ table.shared.key.workers → IsSome result }
{
    let all = joined_seats(&table.shared, passes);
    picker_of(close(table, all))
}
