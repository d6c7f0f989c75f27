//! The calls of C that give a number of a picker.
ghost use Rattle.std.specs.Prelude.{◌≡◌, ◌%◌, ◌^◌};
ghost use Rattle.bt_history.specs.Epochs.{epoch};
ghost use Rattle.bt_c.specs.Asking.{CountsOutstanding, IsOutstanding, Says, SaysAskers, SaysInteresting, SaysOfPiece, SaysRule, SaysSender};
ghost use Rattle.bt_c.specs.Asking.{number_of, number_of_piece};
ghost use Rattle.bt_c.specs.Behind.{state};
ghost use Rattle.bt_c.specs.declared.asking.Question.TheVariants as questions;
ghost use Rattle.bt_c.specs.declared.asking.PieceQuestion.TheVariants as of_piece;
ghost use Rattle.bt_c.specs.Outcomes.{AtOpen, TellsBlock, TellsNumber};

use super::tell::{tell, tell_large, tell_number};
use crate::answer::Answer;
use crate::asking::{PieceQuestion, Question};
use crate::fault::Fault;
use crate::lending::lend;
use crate::picker_handle::PickerHandle;
use bt_picker::Reply;
use std::alloc::Global;

/// A question about the whole download.
fn ask(alloc: Global, picker: &mut PickerHandle, question: Question) -> Result<u32, Fault>
    ensures same { picker.new.held ≡ picker.old.held }
    ensures says { AtOpen (λ h o. Says (number_of (state h) question) o) picker.old.held result }
{
    lend(alloc, picker, |held| Ok(held.ask(question)))
}

/// A question about a piece.
fn ask_of_piece(
    alloc: Global,
    picker: &mut PickerHandle,
    question: PieceQuestion,
    piece: u32,
) -> Result<u32, Fault>
    ensures same { picker.new.held ≡ picker.old.held }
    ensures says { AtOpen (λ h o. SaysOfPiece (state h) piece (number_of_piece (state h) question piece) o) picker.old.held result }
{
    lend(alloc, picker, |held| held.ask_of_piece(question, piece))
}

/// How many pieces the torrent has.
#[unsafe(no_mangle)]
pub extern "C" fn piecepick_pieces(
    alloc: Global,
    picker: &mut PickerHandle,
    number: &mut u32,
) -> u32
    ensures same { picker.new.held ≡ picker.old.held }
    ensures says { TellsNumber (λ h o. Says (number_of (state h) questions.Pieces) o) picker.old.held result number.new }
{
    tell_number(ask(alloc, picker, Question::Pieces), number)
}

/// How many workers the picker has.
#[unsafe(no_mangle)]
pub extern "C" fn piecepick_workers(
    alloc: Global,
    picker: &mut PickerHandle,
    number: &mut u32,
) -> u32
    ensures same { picker.new.held ≡ picker.old.held }
    ensures says { TellsNumber (λ h o. Says (number_of (state h) questions.Workers) o) picker.old.held result number.new }
{
    tell_number(ask(alloc, picker, Question::Workers), number)
}

/// Whether each piece is complete, wanted or not.
#[unsafe(no_mangle)]
pub extern "C" fn piecepick_is_complete(
    alloc: Global,
    picker: &mut PickerHandle,
    number: &mut u32,
) -> u32
    ensures same { picker.new.held ≡ picker.old.held }
    ensures says { TellsNumber (λ h o. Says (number_of (state h) questions.Complete) o) picker.old.held result number.new }
{
    tell_number(ask(alloc, picker, Question::Complete), number)
}

/// Whether each wanted piece is complete.
#[unsafe(no_mangle)]
pub extern "C" fn piecepick_has_wanted(
    alloc: Global,
    picker: &mut PickerHandle,
    number: &mut u32,
) -> u32
    ensures same { picker.new.held ≡ picker.old.held }
    ensures says { TellsNumber (λ h o. Says (number_of (state h) questions.HasWanted) o) picker.old.held result number.new }
{
    tell_number(ask(alloc, picker, Question::HasWanted), number)
}

/// Whether all pieces of one level come in rising order.
#[unsafe(no_mangle)]
pub extern "C" fn piecepick_is_in_order(
    alloc: Global,
    picker: &mut PickerHandle,
    number: &mut u32,
) -> u32
    ensures same { picker.new.held ≡ picker.old.held }
    ensures says { TellsNumber (λ h o. Says (number_of (state h) questions.InOrder) o) picker.old.held result number.new }
{
    tell_number(ask(alloc, picker, Question::InOrder), number)
}

/// From which level on, 0 to 8, pieces come in rising order.
#[unsafe(no_mangle)]
pub extern "C" fn piecepick_order_from(
    alloc: Global,
    picker: &mut PickerHandle,
    number: &mut u32,
) -> u32
    ensures same { picker.new.held ≡ picker.old.held }
    ensures says { TellsNumber (λ h o. Says (number_of (state h) questions.OrderFrom) o) picker.old.held result number.new }
{
    tell_number(ask(alloc, picker, Question::OrderFrom), number)
}

/// Whether the piece is complete: it was checked, and has its hash.
#[unsafe(no_mangle)]
pub extern "C" fn piecepick_has_piece(
    alloc: Global,
    picker: &mut PickerHandle,
    piece: u32,
    number: &mut u32,
) -> u32
    ensures same { picker.new.held ≡ picker.old.held }
    ensures says { TellsNumber (λ h o. SaysOfPiece (state h) piece (number_of_piece (state h) of_piece.Had piece) o)
        picker.old.held result number.new }
{
    tell_number(
        ask_of_piece(alloc, picker, PieceQuestion::Had, piece),
        number,
    )
}

/// Whether the piece is full and isn't complete: it waits for its check.
#[unsafe(no_mangle)]
pub extern "C" fn piecepick_is_waiting(
    alloc: Global,
    picker: &mut PickerHandle,
    piece: u32,
    number: &mut u32,
) -> u32
    ensures same { picker.new.held ≡ picker.old.held }
    ensures says { TellsNumber (λ h o. SaysOfPiece (state h) piece (number_of_piece (state h) of_piece.Waiting piece) o)
        picker.old.held result number.new }
{
    tell_number(
        ask_of_piece(alloc, picker, PieceQuestion::Waiting, piece),
        number,
    )
}

/// The level of the piece: 0, where it isn't to be downloaded.
#[unsafe(no_mangle)]
pub extern "C" fn piecepick_level(
    alloc: Global,
    picker: &mut PickerHandle,
    piece: u32,
    number: &mut u32,
) -> u32
    ensures same { picker.new.held ≡ picker.old.held }
    ensures says { TellsNumber (λ h o. SaysOfPiece (state h) piece (number_of_piece (state h) of_piece.Level piece) o)
        picker.old.held result number.new }
{
    tell_number(
        ask_of_piece(alloc, picker, PieceQuestion::Level, piece),
        number,
    )
}

/// How many joined peers show the piece.
#[unsafe(no_mangle)]
pub extern "C" fn piecepick_availability(
    alloc: Global,
    picker: &mut PickerHandle,
    piece: u32,
    number: &mut u32,
) -> u32
    ensures same { picker.new.held ≡ picker.old.held }
    ensures says { TellsNumber (λ h o. SaysOfPiece (state h) piece (number_of_piece (state h) of_piece.Availability piece) o)
        picker.old.held result number.new }
{
    tell_number(
        ask_of_piece(alloc, picker, PieceQuestion::Availability, piece),
        number,
    )
}

/// The bytes of the piece.
#[unsafe(no_mangle)]
pub extern "C" fn piecepick_piece_length(
    alloc: Global,
    picker: &mut PickerHandle,
    piece: u32,
    number: &mut u32,
) -> u32
    ensures same { picker.new.held ≡ picker.old.held }
    ensures says { TellsNumber (λ h o. SaysOfPiece (state h) piece (number_of_piece (state h) of_piece.Length piece) o)
        picker.old.held result number.new }
{
    tell_number(
        ask_of_piece(alloc, picker, PieceQuestion::Length, piece),
        number,
    )
}

/// The blocks of the piece.
#[unsafe(no_mangle)]
pub extern "C" fn piecepick_blocks(
    alloc: Global,
    picker: &mut PickerHandle,
    piece: u32,
    number: &mut u32,
) -> u32
    ensures same { picker.new.held ≡ picker.old.held }
    ensures says { TellsNumber (λ h o. SaysOfPiece (state h) piece (number_of_piece (state h) of_piece.Blocks piece) o)
        picker.old.held result number.new }
{
    tell_number(
        ask_of_piece(alloc, picker, PieceQuestion::Blocks, piece),
        number,
    )
}

/// The number that rises when an idle peer may have another answer.
#[unsafe(no_mangle)]
pub extern "C" fn piecepick_epoch(alloc: Global, picker: &mut PickerHandle, number: &mut u64) -> u32
    ensures same { picker.new.held ≡ picker.old.held }
    ensures says { TellsNumber (λ h o. Says (epoch (state h).setting (state h).history % 2 ^ 64) o) picker.old.held result number.new }
{
    tell_large(lend(alloc, picker, |held| Ok(held.epoch())), number)
}

/// The worker whose peer brought a block that is held: the one of this index, counted from 0.
#[unsafe(no_mangle)]
pub extern "C" fn piecepick_sender(
    alloc: Global,
    picker: &mut PickerHandle,
    piece: u32,
    index: u32,
    worker: &mut u32,
) -> u32
    ensures same { picker.new.held ≡ picker.old.held }
    ensures says { TellsNumber (λ h o. SaysSender (state h) piece index o) picker.old.held result worker.new }
{
    tell_number(
        lend(alloc, picker, |held| held.sender(piece, index)),
        worker,
    )
}

/// The number of the rule by which a block was requested, right after the answer that requests it: the one of this index, counted from 0 in its
/// piece.
#[unsafe(no_mangle)]
pub extern "C" fn piecepick_rule(
    alloc: Global,
    picker: &mut PickerHandle,
    piece: u32,
    index: u32,
    number: &mut u32,
) -> u32
    ensures same { picker.new.held ≡ picker.old.held }
    ensures says { TellsNumber (λ h o. SaysRule (state h) piece index o) picker.old.held result number.new }
{
    tell_number(lend(alloc, picker, |held| held.rule(piece, index)), number)
}

/// From how many peers a block is requested that aren't late with it: the one of this index, counted from 0. Right after the
/// answer that requests it, the peer itself is one of them.
#[unsafe(no_mangle)]
pub extern "C" fn piecepick_askers(
    alloc: Global,
    picker: &mut PickerHandle,
    piece: u32,
    index: u32,
    number: &mut u32,
) -> u32
    ensures same { picker.new.held ≡ picker.old.held }
    ensures says { TellsNumber (λ h o. SaysAskers (state h) piece index o) picker.old.held result number.new }
{
    tell_number(
        lend(alloc, picker, |held| held.askers(piece, index)),
        number,
    )
}

/// Whether the worker's peer shows a wanted piece that isn't complete.
#[unsafe(no_mangle)]
pub extern "C" fn piecepick_is_interesting(
    alloc: Global,
    picker: &mut PickerHandle,
    worker: u32,
    number: &mut u32,
) -> u32
    ensures same { picker.new.held ≡ picker.old.held }
    ensures says { TellsNumber (λ h o. SaysInteresting (state h) worker o) picker.old.held result number.new }
{
    tell_number(
        lend(alloc, picker, |held| held.is_interesting(worker)),
        number,
    )
}

/// How many blocks are requested from the worker's peer.
#[unsafe(no_mangle)]
pub extern "C" fn piecepick_outstanding(
    alloc: Global,
    picker: &mut PickerHandle,
    worker: u32,
    number: &mut u32,
) -> u32
    ensures same { picker.new.held ≡ picker.old.held }
    ensures says { TellsNumber (λ h o. CountsOutstanding (state h) worker o) picker.old.held result number.new }
{
    tell_number(
        lend(alloc, picker, |held| held.outstanding_count(worker)),
        number,
    )
}

/// One of these blocks, by its place from 0, the oldest request first: an answer of kind `Request`.
#[unsafe(no_mangle)]
pub extern "C" fn piecepick_outstanding_at(
    alloc: Global,
    picker: &mut PickerHandle,
    worker: u32,
    place: u32,
    answer: &mut Answer,
) -> u32
    ensures same { picker.new.held ≡ picker.old.held }
    ensures says { TellsBlock (λ h o. IsOutstanding (state h) worker place o) picker.old.held result answer.new }
{
    match lend(alloc, picker, |held| held.outstanding(worker, place)) {
        Ok(block) => tell(Ok(Reply::Request(block)), answer),
        Err(fault) => tell(Err(fault), answer),
    }
}
