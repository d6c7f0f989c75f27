//! The word that is the lock, and the rule of its steps.

ghost use Rattle.std.specs.Prelude.{◌≡◌, ◌∷◌, [], true, false, None, Some, IfNone, IfOk, IfSome};
ghost use Rattle.bt_history.specs.Legal.{IsLegal};
ghost use Rattle.bt_picker.specs.Positions.{DeskState};
ghost use Rattle.bt_shared.specs.Guard.{Fits, IsDesk, MayFree, MayGive, MayMake, MayTake, desk, maker, making, newcomer_view, seeing};

use crate::shareable::Shareable;
use crate::view::{DeskTerms, DeskView};
use atomic_table::{Join, Play, Seat, Shared, Split, Table, TableRule};
use std::alloc::{AllocError, Global};
use std::hint;
use std::marker::Model;
use std::sync::Wait;

pub(crate) const FREE: u64 = 0;

const TAKEN: u64 = 1;

/// Taken, and some thread may sleep until it is free.
const AWAITED: u64 = 2;

/// So often a thread looks for the word to be free before it sleeps or gives up: some microseconds.
const LOOKS: u32 = 100;

/// What is shared as it lies in the slot: by a pointer, so that to take the lock moves no more than that. Contracts see the setting and the
/// history.
#[derive(Drop)]
pub struct Held<D: Shareable> {
    pub(crate) desk: Box<D>,
}

impl<D: Shareable> Model for Held<D> {
    ghost use Rattle.bt_picker.specs.Positions.{DeskState};

    ghost Value = { DeskState };

    ghost view = { λ h. D.state h.desk.value };
}

/// The rule of the word and the slot.
pub struct Guard;

impl<D: Shareable> TableRule<Option<Held<D>>, DeskView, DeskTerms> for Guard {
    ghost use Rattle.bt_shared.specs.Guard.{Guards, maker};

    ghost holds = { Guards };

    ghost first = { maker };
}

/// Takes the word, with the desk.
pub(crate) struct Take;

impl<D: Shareable> Play<Option<Held<D>>, DeskView> for Take {
    ghost use Rattle.bt_shared.specs.Guard.{Takes};

    ghost then = { Takes };
}

/// Frees the word, and gives the desk back.
pub(crate) struct Free;

impl<D: Shareable> Play<Option<Held<D>>, DeskView> for Free {
    ghost use Rattle.bt_shared.specs.Guard.{Frees};

    ghost then = { Frees };
}

/// The maker's seat gives the next worker's.
pub(crate) struct Make;

impl Split<DeskView> for Make {
    ghost use Rattle.bt_shared.specs.Guard.{making, newcomer_view};

    ghost left = { making };

    ghost right = { newcomer_view };
}

/// A seat that has seen as much, and speaks for no worker.
pub(crate) struct Witness;

impl Split<DeskView> for Witness {
    ghost use Rattle.bt_shared.specs.Guard.{witness};

    ghost left = { λ v. v };

    ghost right = { witness };
}

/// What two seats know, in one.
pub(crate) struct Meet;

impl Join<DeskView> for Meet {
    ghost use Rattle.bt_shared.specs.Guard.{meeting, spent_view};

    ghost both = { meeting };

    ghost spent = { spent_view };
}

pub(crate) type DeskSeat<D> = Seat<Option<Held<D>>, DeskView>;

pub(crate) type Words<D> = Shared<Option<Held<D>>, DeskView, DeskTerms, Guard>;

pub(crate) type Desks<D> = Table<Option<Held<D>>, DeskView, DeskTerms, Guard, Global>;

/// The word, free, with what is shared in the slot, whose history is empty, and the first seat.
pub(crate) fn lay<D: Shareable>(
    alloc: Global,
    shared: Box<D>,
    terms: &DeskTerms,
) -> Result<(Desks<D>, DeskSeat<D>), AllocError>
    requires { D.state shared.value ≡ desk terms.now [] }
    ensures key { IfOk result (λ laid. laid.0.shared.key ≡ terms.now) }
    ensures desk { IfOk result (λ laid. IsDesk laid.0.shared.table_id.words laid.0.shared.table_id.slots) }
    ensures seat { IfOk result (λ laid. (laid.1.table_id ≡ laid.0.shared.table_id) × (laid.1.me ≡ (maker terms.now, []))) }
{
    let mut slots = Vec::new(alloc);
    slots.push(Some(Held { desk: shared }))?;
    match Table::new(alloc, &[FREE], slots, terms) {
        Ok(laid) => Ok(laid),
        Err(_) => Err(AllocError),
    }
}

/// The seat of the next worker, which has seen nothing.
pub(crate) fn next_seat<D: Shareable>(words: &Words<D>, maker: &mut DeskSeat<D>) -> DeskSeat<D>
    requires desk { IsDesk words.now.table_id.words words.now.table_id.slots × (maker.old.table_id ≡ words.now.table_id) }
    requires makes { MayMake maker.old.me.0 }
    ensures same { maker.new.table_id ≡ maker.old.table_id }
    ensures next { maker.new.me ≡ (making maker.old.me.0, maker.old.me.1) }
    ensures seat { (result.table_id ≡ maker.old.table_id) × (result.me ≡ (newcomer_view maker.old.me.0, [])) }
{
    words.split_seat::<Make>(maker)
}

/// Takes the desk out of its slot, once the seat has taken the word.
fn fetch<D: Shareable>(words: &Words<D>, seat: &mut DeskSeat<D>) -> Box<D>
    requires desk { seat.old.table_id ≡ words.now.table_id }
    requires taken { (d : DeskState) × (seat.old.me.1 ≡ (0, Some d) ∷ []) }
    ensures same { (seat.new.table_id ≡ seat.old.table_id) × (seat.new.id ≡ seat.old.id) }
    ensures desk { seat.old.me.1 ≡ (0, Some (D.state result.value)) ∷ [] }
    ensures away { seat.new.me ≡ (seat.old.me.0, (0, None) ∷ []) }
    ensures legal { IsLegal (D.state result.value).setting (D.state result.value).history }
{
    let Some(Held { desk }) = words.exchange(seat, 0, None) else {
        unreachable!()
    };
    desk.attest();
    desk
}

/// Takes the word with the desk, if it is free. Else nothing changes.
fn take_free<D: Shareable>(words: &Words<D>, seat: &mut DeskSeat<D>) -> Option<Box<D>>
    requires desk { IsDesk words.now.table_id.words words.now.table_id.slots × (seat.old.table_id ≡ words.now.table_id) }
    requires may { MayTake seat.old.me }
    ensures same { (seat.new.table_id ≡ seat.old.table_id) × (seat.new.id ≡ seat.old.id) }
    ensures found { IfSome result (λ desk. Fits (D.state desk.value).setting (D.state desk.value).history seat.old.me.0
        × (seat.old.me.0.setting ≡ (D.state desk.value).setting)) }
    ensures taken { IfSome result (λ desk.
        seat.new.me ≡ (seeing true seat.old.me.0 (D.state desk.value).history, (0, None) ∷ [])) }
    ensures legal { IfSome result (λ desk. IsLegal (D.state desk.value).setting (D.state desk.value).history) }
    ensures busy { IfNone result (seat.new.me ≡ seat.old.me) }
{
    if words.compare_exchange::<Take>(seat, 0, FREE, TAKEN) == FREE {
        Some(fetch(words, seat))
    } else {
        None
    }
}

/// Takes the word with the desk, if it is found free within so many looks as take some microseconds. Else nothing changes.
pub(crate) fn try_lock<D: Shareable>(words: &Words<D>, seat: &mut DeskSeat<D>) -> Option<Box<D>>
    requires desk { IsDesk words.now.table_id.words words.now.table_id.slots × (seat.old.table_id ≡ words.now.table_id) }
    requires may { MayTake seat.old.me }
    ensures same { (seat.new.table_id ≡ seat.old.table_id) × (seat.new.id ≡ seat.old.id) }
    ensures found { IfSome result (λ desk. Fits (D.state desk.value).setting (D.state desk.value).history seat.old.me.0
        × (seat.old.me.0.setting ≡ (D.state desk.value).setting)) }
    ensures taken { IfSome result (λ desk.
        seat.new.me ≡ (seeing true seat.old.me.0 (D.state desk.value).history, (0, None) ∷ [])) }
    ensures legal { IfSome result (λ desk. IsLegal (D.state desk.value).setting (D.state desk.value).history) }
    ensures busy { IfNone result (seat.new.me ≡ seat.old.me) }
{
    for _ in 0..LOOKS {
        if words.peek(0) == FREE {
            if let Some(desk) = take_free(words, seat) {
                return Some(desk);
            }
        }
        hint::spin_loop();
    }
    None
}

/// What the word is once it is free or others sleep for it, or that it is taken still after some microseconds.
fn look<D: Shareable>(words: &Words<D>) -> u64
    requires { IsDesk words.now.table_id.words words.now.table_id.slots }
{
    for _ in 0..LOOKS {
        let seen = words.peek(0);
        if seen != TAKEN {
            return seen;
        }
        hint::spin_loop();
    }
    TAKEN
}

/// Waits for the word, and takes the desk out of its slot. A thread that doesn't find the word free soon sleeps until another frees it. It
/// sleeps at once where others do already: were all to look, who has the desk would be held up.
pub(crate) fn lock<D: Shareable, R: Wait>(
    rt: &R,
    words: &Words<D>,
    seat: &mut DeskSeat<D>,
) -> Box<D>
    requires desk { IsDesk words.now.table_id.words words.now.table_id.slots × (seat.old.table_id ≡ words.now.table_id) }
    requires may { MayTake seat.old.me }
    ensures same { (seat.new.table_id ≡ seat.old.table_id) × (seat.new.id ≡ seat.old.id) }
    ensures found { Fits (D.state result.value).setting (D.state result.value).history seat.old.me.0
        × (seat.old.me.0.setting ≡ (D.state result.value).setting) }
    ensures taken { seat.new.me ≡ (seeing true seat.old.me.0 (D.state result.value).history, (0, None) ∷ []) }
    ensures legal { IsLegal (D.state result.value).setting (D.state result.value).history }
{
    if let Some(desk) = take_free(words, seat) {
        return desk;
    }
    let mut seen = look(words);
    if seen == FREE {
        if let Some(desk) = take_free(words, seat) {
            return desk;
        }
    }
    for _ in rt.forever() {
        // Who frees the word now wakes one that sleeps.
        if seen != AWAITED && words.swap::<Take>(seat, 0, AWAITED) == FREE {
            return fetch(words, seat);
        }
        words.park(rt, 0, AWAITED as u32);
        seen = look(words);
    }
    unreachable!()
}

/// Puts the desk back into its slot, and frees the word. The desk has gained entries of the seat's workers alone, any number.
pub(crate) fn unlock_after<D: Shareable>(words: &Words<D>, seat: &mut DeskSeat<D>, desk: Box<D>)
    requires desk { IsDesk words.now.table_id.words words.now.table_id.slots × (seat.old.table_id ≡ words.now.table_id) }
    requires taken { (seat.old.me.1 ≡ (0, None) ∷ []) × (seat.old.me.0.spent ≡ false)
        × MayGive seat.old.me.0 (D.state desk.value) }
    ensures same { (seat.new.table_id ≡ seat.old.table_id) × (seat.new.id ≡ seat.old.id) }
    ensures freed { seat.new.me ≡ (seeing false seat.old.me.0 (D.state desk.value).history, []) }
{
    words.exchange(seat, 0, Some(Held { desk }));
    if words.swap::<Free>(seat, 0, FREE) == AWAITED {
        words.wake_one(0);
    }
}

/// Puts the desk back into its slot, and frees the word. The desk has gained one entry at most.
pub(crate) fn unlock<D: Shareable>(words: &Words<D>, seat: &mut DeskSeat<D>, desk: Box<D>)
    requires desk { IsDesk words.now.table_id.words words.now.table_id.slots × (seat.old.table_id ≡ words.now.table_id) }
    requires taken { (seat.old.me.1 ≡ (0, None) ∷ []) × (seat.old.me.0.spent ≡ false)
        × MayFree seat.old.me.0 (D.state desk.value) }
    ensures same { (seat.new.table_id ≡ seat.old.table_id) × (seat.new.id ≡ seat.old.id) }
    ensures freed { seat.new.me ≡ (seeing false seat.old.me.0 (D.state desk.value).history, []) }
{
    unlock_after(words, seat, desk);
}
