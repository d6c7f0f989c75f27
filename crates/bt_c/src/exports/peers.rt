//! What a worker reports of its peer, and queries.
ghost use Rattle.std.specs.Prelude.{◌≡◌, ◌==◌, ℕ, List, length, min, not};
ghost use Rattle.bt_history.specs.declared.event.Action.TheVariants as actions;
ghost use Rattle.bt_picker.specs.Told.{action_told};
ghost use Rattle.bt_c.specs.Behind.{state};
ghost use Rattle.bt_c.specs.Calling.{Makes, MakesAt, MakesFlags, Receives};
ghost use Rattle.bt_c.specs.Outcomes.{AtHandle, Tells};

use super::tell::tell;
use crate::answer::Answer;
use crate::fault::Fault;
use crate::handle::{Handle, put_back};
use crate::lending::lend;
use crate::picker_handle::PickerHandle;
use bt_picker::{Reply, Told, Unseen};
use std::alloc::Global;

/// The level of a number: one beyond 255 is passed on as 255, which is refused like it.
pub fn level_of(number: u32) -> u8
    ensures { result ≡ min number 255 }
{
    number.min(255) as u8
}

/// Makes the worker's call.
pub fn call(
    alloc: Global,
    picker: &mut PickerHandle,
    worker: u32,
    told: Told<'_>,
) -> Result<Reply, Fault>
    ensures { AtHandle (λ h e o. Makes h e worker (action_told told.entry) o) picker.old.held picker.new.held result }
{
    call_in_place(alloc, picker, worker, told)
}

/// The same, compiled into its caller for the call that this makes: for the two calls that a client makes for each block.
#[inline(always)]
fn call_in_place(
    alloc: Global,
    picker: &mut PickerHandle,
    worker: u32,
    told: Told<'_>,
) -> Result<Reply, Fault>
    ensures { AtHandle (λ h e o. Makes h e worker (action_told told.entry) o) picker.old.held picker.new.held result }
{
    let mut held = picker.take(alloc).ok_or(Fault::Closed)?;
    let outcome = held.call(alloc, worker, told);
    put_back(picker, held);
    outcome
}

/// Makes the worker's call, which names the piece.
pub fn call_at(
    alloc: Global,
    picker: &mut PickerHandle,
    worker: u32,
    piece: u32,
    told: Told<'_>,
) -> Result<Reply, Fault>
    ensures { AtHandle (λ h e o. MakesAt h e worker piece (action_told told.entry) o) picker.old.held picker.new.held result }
{
    call_at_in_place(alloc, picker, worker, piece, told)
}

/// The same, compiled into its caller.
#[inline(always)]
fn call_at_in_place(
    alloc: Global,
    picker: &mut PickerHandle,
    worker: u32,
    piece: u32,
    told: Told<'_>,
) -> Result<Reply, Fault>
    ensures { AtHandle (λ h e o. MakesAt h e worker piece (action_told told.entry) o) picker.old.held picker.new.held result }
{
    let mut held = picker.take(alloc).ok_or(Fault::Closed)?;
    let outcome = held.call_at(alloc, worker, piece, told);
    put_back(picker, held);
    outcome
}

/// The handshakes were exchanged.
#[unsafe(no_mangle)]
pub extern "C" fn piecepick_join(
    alloc: Global,
    picker: &mut PickerHandle,
    worker: u32,
    answer: &mut Answer,
) -> u32
    ensures { Tells (λ h e o. Makes h e worker actions.Join o)
        picker.old.held picker.new.held result answer.new }
{
    tell(call(alloc, picker, worker, Told::Join), answer)
}

/// The connection is gone.
#[unsafe(no_mangle)]
pub extern "C" fn piecepick_leave(
    alloc: Global,
    picker: &mut PickerHandle,
    worker: u32,
    answer: &mut Answer,
) -> u32
    ensures { Tells (λ h e o. Makes h e worker actions.Leave o)
        picker.old.held picker.new.held result answer.new }
{
    tell(call(alloc, picker, worker, Told::Leave), answer)
}

/// A `choke` message came, or the peer is silent.
#[unsafe(no_mangle)]
pub extern "C" fn piecepick_choke(
    alloc: Global,
    picker: &mut PickerHandle,
    worker: u32,
    answer: &mut Answer,
) -> u32
    ensures { Tells (λ h e o. Makes h e worker actions.Choke o)
        picker.old.held picker.new.held result answer.new }
{
    tell(call(alloc, picker, worker, Told::Choke), answer)
}

/// An `unchoke` message came.
#[unsafe(no_mangle)]
pub extern "C" fn piecepick_unchoke(
    alloc: Global,
    picker: &mut PickerHandle,
    worker: u32,
    answer: &mut Answer,
) -> u32
    ensures { Tells (λ h e o. Makes h e worker actions.Unchoke o)
        picker.old.held picker.new.held result answer.new }
{
    tell(call(alloc, picker, worker, Told::Unchoke), answer)
}

/// A `have` message came.
#[unsafe(no_mangle)]
pub extern "C" fn piecepick_have(
    alloc: Global,
    picker: &mut PickerHandle,
    worker: u32,
    piece: u32,
    answer: &mut Answer,
) -> u32
    ensures { Tells (λ h e o. MakesAt h e worker piece (actions.Have piece) o)
        picker.old.held picker.new.held result answer.new }
{
    tell(
        call_at(alloc, picker, worker, piece, Told::Have(piece)),
        answer,
    )
}

/// A `bitfield` message came: its payload.
#[unsafe(no_mangle)]
pub extern "C" fn piecepick_bits(
    alloc: Global,
    picker: &mut PickerHandle,
    worker: u32,
    payload: &[u8],
    answer: &mut Answer,
) -> u32
    ensures { Tells (λ h e o. MakesFlags h e worker payload.now actions.Bits o)
        picker.old.held picker.new.held result answer.new }
{
    tell(
        lend(alloc, picker, |held| held.bits(alloc, worker, payload)),
        answer,
    )
}

/// The peer has these pieces too, at any time: a second `bitfield` message came, or `have all` or `have none` (BEP 6). Spelled as in a
/// `bitfield` message.
#[unsafe(no_mangle)]
pub extern "C" fn piecepick_haves(
    alloc: Global,
    picker: &mut PickerHandle,
    worker: u32,
    flags: &[u8],
    answer: &mut Answer,
) -> u32
    ensures { Tells (λ h e o. MakesFlags h e worker flags.now actions.Haves o)
        picker.old.held picker.new.held result answer.new }
{
    tell(
        lend(alloc, picker, |held| held.haves(alloc, worker, flags)),
        answer,
    )
}

/// An `lt_donthave` message came (BEP 54): the peer has the piece no more. Blocks of the piece that are requested from the peer are
/// released, no cancel comes due, and they may be requested again from any peer.
#[unsafe(no_mangle)]
pub extern "C" fn piecepick_lack(
    alloc: Global,
    picker: &mut PickerHandle,
    worker: u32,
    piece: u32,
    answer: &mut Answer,
) -> u32
    ensures { Tells (λ h e o. MakesAt h e worker piece (actions.Lack piece) o)
        picker.old.held picker.new.held result answer.new }
{
    tell(
        call_at(alloc, picker, worker, piece, Told::Lack(piece)),
        answer,
    )
}

/// From now on so many blocks may be requested from the peer at a time, until another number is set or the worker's next peer joins.
#[unsafe(no_mangle)]
pub extern "C" fn piecepick_depth(
    alloc: Global,
    picker: &mut PickerHandle,
    worker: u32,
    depth: u32,
    answer: &mut Answer,
) -> u32
    ensures { Tells (λ h e o. Makes h e worker (actions.Depth depth) o)
        picker.old.held picker.new.held result answer.new }
{
    tell(call(alloc, picker, worker, Told::Depth(depth)), answer)
}

/// From now on blocks of this level and of lower ones alone, 0 to 7, are requested from the peer, until another reach is set or the worker's next
/// peer joins.
#[unsafe(no_mangle)]
pub extern "C" fn piecepick_reach(
    alloc: Global,
    picker: &mut PickerHandle,
    worker: u32,
    level: u32,
    answer: &mut Answer,
) -> u32
    ensures { Tells (λ h e o. Makes h e worker (actions.Reach (min level 255)) o)
        picker.old.held picker.new.held result answer.new }
{
    tell(
        call(alloc, picker, worker, Told::Reach(level_of(level))),
        answer,
    )
}

/// From now on the peer works alone, or, where `yes` is 0, like the others again. One that works alone begins pieces, and goes on with those that
/// nobody else has to do with. No block of its own pieces is requested from others until endgame.
#[unsafe(no_mangle)]
pub extern "C" fn piecepick_alone(
    alloc: Global,
    picker: &mut PickerHandle,
    worker: u32,
    yes: u32,
    answer: &mut Answer,
) -> u32
    ensures { Tells (λ h e o. Makes h e worker (actions.Alone (not (yes == 0))) o)
        picker.old.held picker.new.held result answer.new }
{
    tell(call(alloc, picker, worker, Told::Alone(yes != 0)), answer)
}

/// What to say to the peer next. The word, a random number, settles what the rules leave to chance.
#[unsafe(no_mangle)]
pub extern "C" fn piecepick_next(
    alloc: Global,
    picker: &mut PickerHandle,
    worker: u32,
    word: u64,
    answer: &mut Answer,
) -> u32
    ensures { Tells (λ h e o. Makes h e worker (actions.Next word) o)
        picker.old.held picker.new.held result answer.new }
{
    tell(
        call_in_place(alloc, picker, worker, Told::Next(word)),
        answer,
    )
}

/// The block that begins `begin` bytes into the piece is requested from the peer no more: the peer rejected it (BEP 6), or the request was not sent.
#[unsafe(no_mangle)]
pub extern "C" fn piecepick_release(
    alloc: Global,
    picker: &mut PickerHandle,
    worker: u32,
    piece: u32,
    begin: u32,
    answer: &mut Answer,
) -> u32
    ensures { Tells (λ h e o. MakesAt h e worker piece (actions.Release piece begin) o)
        picker.old.held picker.new.held result answer.new }
{
    let told = Told::Release { piece, begin };
    tell(call_at_in_place(alloc, picker, worker, piece, told), answer)
}

/// The request of the block that begins `begin` bytes into the piece takes too long. It stays requested from the peer, and other peers may get
/// one for it.
#[unsafe(no_mangle)]
pub extern "C" fn piecepick_late(
    alloc: Global,
    picker: &mut PickerHandle,
    worker: u32,
    piece: u32,
    begin: u32,
    answer: &mut Answer,
) -> u32
    ensures { Tells (λ h e o. MakesAt h e worker piece (actions.Late piece begin) o)
        picker.old.held picker.new.held result answer.new }
{
    let told = Told::Late { piece, begin };
    tell(call_at_in_place(alloc, picker, worker, piece, told), answer)
}

/// The block that begins `begin` bytes into the piece was requested from the peer already, and is in flight: it counts from now on. A picker with
/// a journal has requested all that is in flight.
#[unsafe(no_mangle)]
pub extern "C" fn piecepick_requested(
    alloc: Global,
    picker: &mut PickerHandle,
    worker: u32,
    piece: u32,
    begin: u32,
    answer: &mut Answer,
) -> u32
    ensures { Tells (λ h e o. MakesAt h e worker piece (actions.Requested piece begin) o)
        picker.old.held picker.new.held result answer.new }
{
    let told = Told::Requested { piece, begin };
    tell(call_at(alloc, picker, worker, piece, told), answer)
}

/// A `piece` message came: a block, `begin` bytes into the piece. A picker that keeps nothing reads none of its bytes, and another one keeps
/// a copy.
#[unsafe(no_mangle)]
pub extern "C" fn piecepick_arrived(
    alloc: Global,
    picker: &mut PickerHandle,
    worker: u32,
    piece: u32,
    begin: u32,
    bytes: &[u8],
    answer: &mut Answer,
) -> u32
    ensures { Tells (λ h e o. MakesAt h e worker piece (actions.Arrived piece begin bytes.now) o)
        picker.old.held picker.new.held result answer.new }
{
    let told = Told::Arrived {
        piece,
        begin,
        bytes,
    };
    tell(call_at_in_place(alloc, picker, worker, piece, told), answer)
}

/// A `piece` message came, and a picker that keeps nothing is told how many bytes the block has: the client has stored them, or will.
#[unsafe(no_mangle)]
pub extern "C" fn piecepick_received(
    alloc: Global,
    picker: &mut PickerHandle,
    worker: u32,
    piece: u32,
    begin: u32,
    bytes_len: usize,
    answer: &mut Answer,
) -> u32
    ghost bytes: { List ℕ }
    requires { bytes_len ≡ length bytes }
    ensures { Tells (λ h e o. Receives h e worker piece begin bytes o)
        picker.old.held picker.new.held result answer.new }
{
    let unseen = Unseen::these();
    tell(
        receive(alloc, picker, worker, piece, begin, &unseen, bytes_len),
        answer,
    )
}

/// Tells the picker of a block that came.
#[inline(always)]
fn receive(
    alloc: Global,
    picker: &mut PickerHandle,
    worker: u32,
    piece: u32,
    begin: u32,
    bytes: &Unseen,
    len: usize,
) -> Result<Reply, Fault>
    requires { len ≡ length bytes.now.bytes }
    ensures { AtHandle (λ h e o. Receives h e worker piece begin bytes.now.bytes o) picker.old.held picker.new.held result }
{
    let mut held = picker.take(alloc).ok_or(Fault::Closed)?;
    let outcome = held.receive(worker, piece, begin, bytes, len);
    put_back(picker, held);
    outcome
}
