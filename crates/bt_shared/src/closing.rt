//! Closing a table: the seats are joined, and what is shared comes out of its slot.

ghost use Rattle.std.specs.Prelude.{◌≡◌, ◌++◌, ℕ, IfNone, IfSome, IsSome};
ghost use Rattle.std.specs.Slots.{IsFull, slots_items, slots_len};
ghost use mathlib.Core.Option.{some};
ghost use lib.ListN.{get_elem?};
ghost use Rattle.bt_history.specs.Legal.{IsLegal};
ghost use Rattle.bt_shared.specs.Closing.{AreCounted, IsEveryone, slot_if_free};
ghost use Rattle.bt_shared.specs.Guard.{IsDesk, IsIdle, Saw, Slot};
ghost use Rattle.bt_shared.specs.Seen.{Each};

use crate::lock::{DeskSeat, Desks, FREE, Held, Meet, Words};
use crate::shareable::Shareable;
use atomic_table::Closed;
use std::alloc::Global;

/// The seat, into which the others were joined.
pub(crate) fn joined<D: Shareable>(
    words: &Words<D>,
    mut seat: DeskSeat<D>,
    others: Option<DeskSeat<D>>,
) -> DeskSeat<D>
    requires desk { IsDesk words.now.table_id.words words.now.table_id.slots }
    requires seat { (seat.table_id ≡ words.now.table_id) × IsIdle seat.me }
    requires others { IfSome others (λ others. (others.table_id ≡ words.now.table_id) × IsIdle others.me) }
    ensures same { (result.table_id ≡ words.now.table_id) × IsIdle result.me }
    ensures none { IfNone others (result ≡ seat) }
    ensures workers { IfSome others (λ others. result.me.0.part.workers ≡ seat.me.0.part.workers ++ others.me.0.part.workers) }
    ensures parts { IfSome others (λ others. result.me.0.parts ≡ seat.me.0.parts ++ others.me.0.parts) }
{
    if let Some(others) = others {
        words.join_seat::<Meet>(&mut seat, others);
    }
    seat
}

/// What is shared, out of its slot, if the word is free.
fn held_in<D: Shareable>(mut closed: Closed<Option<Held<D>>, Global>) -> Option<Held<D>>
    requires counts { (slots_len closed.words ≡ 1) × (slots_len closed.slots ≡ 1) }
    requires full { IsFull closed.words × IsFull closed.slots }
    ensures slot { (word : ℕ) (slot : Slot) → get_elem? (slots_items closed.words) 0 ≡ some word
        → get_elem? (slots_items closed.slots) 0 ≡ some slot → result ≡ slot_if_free word slot }
    ensures legal { IfSome result (λ held. IsLegal held.setting held.history) }
{
    let word = closed.word(0);
    let slot = closed.take(0);
    closed.free();
    if word != FREE {
        return None;
    }
    let Held { desk } = slot?;
    desk.attest();
    Some(Held { desk })
}

/// What is shared, if the word is free, out of a table that this seat closes. It is free where the seat speaks for all workers.
fn close_with<D: Shareable>(table: Desks<D>, seat: DeskSeat<D>) -> Option<Held<D>>
    requires desk { IsDesk table.shared.table_id.words table.shared.table_id.slots }
    requires seat { (seat.table_id ≡ table.shared.table_id) × IsIdle seat.me }
    ensures setting { IfSome result (λ held. held.setting ≡ table.shared.key) }
    ensures legal { IfSome result (λ held. IsLegal held.setting held.history) }
    ensures saw { IfSome result (λ held. Each (Saw held.history seat.me.0.part.workers) seat.me.0.parts) }
    ensures counted { AreCounted table.shared.key seat.me.0.part.workers }
    ensures free { IsEveryone table.shared.key seat.me.0.part.workers → IsSome result }
{
    held_in(table.close_with(seat))
}

/// What is shared, if the word is free. It is free where the seat speaks for all workers.
pub(crate) fn close<D: Shareable>(table: Desks<D>, all: Option<DeskSeat<D>>) -> Option<Held<D>>
    requires desk { IsDesk table.shared.table_id.words table.shared.table_id.slots }
    requires all { IfSome all (λ seat. (seat.table_id ≡ table.shared.table_id) × IsIdle seat.me) }
    ensures setting { IfSome result (λ held. held.setting ≡ table.shared.key) }
    ensures legal { IfSome result (λ held. IsLegal held.setting held.history) }
    ensures saw { IfSome all (λ seat. IfSome result (λ held.
        Each (Saw held.history seat.me.0.part.workers) seat.me.0.parts)) }
    ensures counted { IfSome all (λ seat. AreCounted table.shared.key seat.me.0.part.workers) }
    ensures free { IfSome all (λ seat. IsEveryone table.shared.key seat.me.0.part.workers → IsSome result) }
{
    match all {
        Some(seat) => close_with(table, seat),
        None => held_in(table.close()),
    }
}
