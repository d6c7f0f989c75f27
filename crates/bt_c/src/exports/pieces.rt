//! What is set and reported of pieces, for all peers.
ghost use Rattle.std.specs.Prelude.{◌≡◌, ◌==◌, ℕ, List, min, not, IfSome};
ghost use Rattle.bt_history.specs.declared.event.Action.TheVariants as actions;
ghost use Rattle.bt_c.specs.declared.engine.Keeping.TheVariants as keeps;
ghost use Rattle.bt_c.specs.Calling.{Makes, MakesAt, MakesFlags, Restores, Settles, Vouches, VouchesFor, VouchesThat, VouchesWhole};
ghost use Rattle.bt_c.specs.Outcomes.{Tells};

use super::peers::{call, call_at, level_of};
use super::tell::tell;
use crate::answer::Answer;
use crate::digest::Digest;
use crate::lending::lend;
use crate::picker_handle::PickerHandle;
use bt_picker::{Told, Unseen};
use std::alloc::Global;

/// From now on just these pieces are to be downloaded, spelled as in a `bitfield` message.
#[unsafe(no_mangle)]
pub extern "C" fn piecepick_want(
    alloc: Global,
    picker: &mut PickerHandle,
    flags: &[u8],
    answer: &mut Answer,
) -> u32
    ensures { Tells (λ h e o. MakesFlags h e 0 flags.now actions.Want o)
        picker.old.held picker.new.held result answer.new }
{
    tell(lend(alloc, picker, |held| held.want(alloc, flags)), answer)
}

/// From now on the piece has this level, 0 to 7: 0 isn't downloaded, and of the others a higher one comes before a lower one.
#[unsafe(no_mangle)]
pub extern "C" fn piecepick_set_level(
    alloc: Global,
    picker: &mut PickerHandle,
    piece: u32,
    level: u32,
    answer: &mut Answer,
) -> u32
    ensures { Tells (λ h e o. MakesAt h e 0 piece (actions.Level piece (min level 255)) o)
        picker.old.held picker.new.held result answer.new }
{
    let told = Told::Level {
        piece,
        level: level_of(level),
    };
    tell(call_at(alloc, picker, 0, piece, told), answer)
}

/// From now on each piece has the level of its byte.
#[unsafe(no_mangle)]
pub extern "C" fn piecepick_set_levels(
    alloc: Global,
    picker: &mut PickerHandle,
    levels: &[u8],
    answer: &mut Answer,
) -> u32
    ensures { Tells (λ h e o. Makes h e 0 (actions.Levels levels.now) o)
        picker.old.held picker.new.held result answer.new }
{
    tell(call(alloc, picker, 0, Told::Levels(levels)), answer)
}

/// From now on the pieces of one level come in rising order, or, where `rising` is 0, the rarest first again.
#[unsafe(no_mangle)]
pub extern "C" fn piecepick_set_in_order(
    alloc: Global,
    picker: &mut PickerHandle,
    rising: u32,
    answer: &mut Answer,
) -> u32
    ensures { Tells (λ h e o. Makes h e 0 (actions.InOrder (not (rising == 0))) o)
        picker.old.held picker.new.held result answer.new }
{
    tell(call(alloc, picker, 0, Told::InOrder(rising != 0)), answer)
}

/// From now on pieces of this level and of higher ones, 0 to 8, come in rising order, and of the others the rarest first.
#[unsafe(no_mangle)]
pub extern "C" fn piecepick_set_in_order_from(
    alloc: Global,
    picker: &mut PickerHandle,
    level: u32,
    answer: &mut Answer,
) -> u32
    ensures { Tells (λ h e o. Makes h e 0 (actions.InOrderFrom (min level 255)) o)
        picker.old.held picker.new.held result answer.new }
{
    tell(
        call(alloc, picker, 0, Told::InOrderFrom(level_of(level))),
        answer,
    )
}

/// The piece is gone from where the caller keeps it: it isn't complete any more, and all of its blocks are lacking, as after a failed check. A
/// picker with a journal keeps its content itself, and loses none.
#[unsafe(no_mangle)]
pub extern "C" fn piecepick_lose(
    alloc: Global,
    picker: &mut PickerHandle,
    piece: u32,
    answer: &mut Answer,
) -> u32
    ensures { Tells (λ h e o. MakesAt h e 0 piece (actions.Lose piece) o)
        picker.old.held picker.new.held result answer.new }
{
    tell(call_at(alloc, picker, 0, piece, Told::Lose(piece)), answer)
}

/// The block that begins `begin` bytes into the piece, which isn't complete, is known to be bad: it is held no more.
#[unsafe(no_mangle)]
pub extern "C" fn piecepick_discard(
    alloc: Global,
    picker: &mut PickerHandle,
    piece: u32,
    begin: u32,
    answer: &mut Answer,
) -> u32
    ensures { Tells (λ h e o. MakesAt h e 0 piece (actions.Discard piece begin) o)
        picker.old.held picker.new.held result answer.new }
{
    let told = Told::Discard { piece, begin };
    tell(call_at(alloc, picker, 0, piece, told), answer)
}

/// A picker that keeps nothing gets the SHA-1 of what arrived of a full piece.
#[unsafe(no_mangle)]
pub extern "C" fn piecepick_settle(
    alloc: Global,
    picker: &mut PickerHandle,
    piece: u32,
    digest: &Digest,
    answer: &mut Answer,
) -> u32
    requires { IfSome picker.old.held (λ h. Vouches h piece digest.now.bytes) }
    ensures { Tells (λ h e o. Settles keeps.Nothing h e piece o)
        picker.old.held picker.new.held result answer.new }
{
    tell(
        lend(alloc, picker, |held| held.settle(piece, &digest.bytes)),
        answer,
    )
}

/// A picker that keeps nothing hears whether what arrived of a full piece has the metainfo's hash: where `passed` is 0, it hasn't.
#[unsafe(no_mangle)]
pub extern "C" fn piecepick_verdict(
    alloc: Global,
    picker: &mut PickerHandle,
    piece: u32,
    passed: u32,
    answer: &mut Answer,
) -> u32
    requires { IfSome picker.old.held (λ h. VouchesThat h piece (not (passed == 0))) }
    ensures { Tells (λ h e o. Settles keeps.Nothing h e piece o)
        picker.old.held picker.new.held result answer.new }
{
    tell(
        lend(alloc, picker, |held| held.judge(piece, passed != 0)),
        answer,
    )
}

/// A picker that keeps nothing hears that a whole piece is there already, on a disk for which this worker stands, with the SHA-1 of its
/// bytes. None of these is read.
#[unsafe(no_mangle)]
pub extern "C" fn piecepick_restore(
    alloc: Global,
    picker: &mut PickerHandle,
    worker: u32,
    piece: u32,
    bytes: &[u8],
    digest: &Digest,
    answer: &mut Answer,
) -> u32
    requires { IfSome picker.old.held (λ h. VouchesFor h bytes.now digest.now.bytes) }
    ensures { Tells (λ h e o. Restores h e worker piece bytes.now o)
        picker.old.held picker.new.held result answer.new }
{
    let outcome = lend(
        alloc,
        picker,
        |held| held.restore(worker, piece, bytes, &digest.bytes),
    );
    tell(outcome, answer)
}

/// A picker that keeps nothing hears that a whole piece is there already, on a disk for which this worker stands, and whether it has the
/// metainfo's hash: where `passed` is 0, it hasn't.
#[unsafe(no_mangle)]
pub extern "C" fn piecepick_resume(
    alloc: Global,
    picker: &mut PickerHandle,
    worker: u32,
    piece: u32,
    passed: u32,
    answer: &mut Answer,
) -> u32
    ghost bytes: { List ℕ }
    requires { IfSome picker.old.held (λ h. VouchesWhole h piece bytes (not (passed == 0))) }
    ensures { Tells (λ h e o. Restores h e worker piece bytes o)
        picker.old.held picker.new.held result answer.new }
{
    let unseen = Unseen::these();
    let outcome = lend(
        alloc,
        picker,
        |held| held.resume(worker, piece, &unseen, passed != 0),
    );
    tell(outcome, answer)
}
