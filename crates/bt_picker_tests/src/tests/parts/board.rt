//! The board: its worked example, and marks of two threads.

ghost use Rattle.std.specs.Prelude.{◌≡◌, ◌<◌, ℕ, IfOk, IfSome};
ghost use Rattle.bt_board.specs.Story.{StandsFor};
ghost use Rattle.bt_check.specs.Checked.{Fits};
ghost use Rattle.bt_meta.specs.Layout.{piece_count};

use super::check::verdict;
use crate::tests::abc;
use bt_board::{Board, BoardSeat};
use bt_check::Proven;
use bt_expect::same;
use bt_meta::{Bitfield, Torrent};
use std::alloc::{AllocError, Global};
use std::process::Abort;
use std::sync::atomic::{AtomicBool, Ordering};
use std::sync::{Arc, Wait};
use std::test::Fail;
use std::thread;
use std::thread::Threads;

/// The proof that the piece is the byte `a`; none where it isn't. Without memory it is tried once more: so the test still passes where a
/// single allocation is refused, whichever it is.
fn proven(alloc: Global, torrent: &Torrent, piece: u32) -> Result<Option<Proven>, AllocError>
    ensures { IfOk result (λ proven. IfSome proven (λ proven. Fits torrent.now.layout proven)) }
{
    let verdict = match verdict(alloc, piece, b"a") {
        Ok(verdict) => verdict,
        Err(AllocError) => verdict(alloc, piece, b"a")?,
    };
    Ok(Proven::of(verdict, torrent).ok())
}

/// What is wrong with what a thread saw.
#[derive(Clone, Copy, Debug, PartialEq, Eq)]
enum Wrong {
    NoMemory,
    NotProven,
    NoSuchPiece,
    /// A piece was given twice, or before it was marked.
    Given,
    Missing,
}

impl From<AllocError> for Wrong {
    fn from(_e: AllocError) -> Wrong {
        Wrong::NoMemory
    }
}

/// Marks the last of three pieces by the first seat. The second sees it, and is given it once.
fn marks_and_sees(
    rt: &impl Abort,
    board: &Board,
    first: &mut BoardSeat,
    second: &mut BoardSeat,
    last: Proven,
)
    requires first { first.old.table ≡ board.now.table }
    requires second { second.old.table ≡ board.now.table }
    requires last { Fits board.now.torrent last }
    requires count { piece_count board.now.torrent ≡ 3 }
    ensures first { (first.new.table ≡ first.old.table) × (first.new.view.seats ≡ first.old.view.seats) }
    ensures second { (second.new.table ≡ second.old.table) × (second.new.view.seats ≡ second.old.view.seats) }
{
    board.mark(first, last);
    assert!(rt; board.has(second, 2));
    assert!(rt; !board.has(second, 0));
    assert!(rt; board.news(second) == Some(2));
    assert!(rt; board.news(second).is_none());
}

/// The bitfield of a board that is closed. Without memory it is closed once more.
fn closed(alloc: Global, board: Board, all: BoardSeat) -> Result<Bitfield, Fail>
    requires seat { all.table ≡ board.table }
    requires all { (s : ℕ) → s < board.seats → StandsFor all.view s }
{
    match board.close(alloc, all) {
        Ok(bits) => Ok(bits),
        Err((board, all)) => match board.close(alloc, all) {
            Ok(bits) => Ok(bits),
            Err(_) => Err(Fail::from(AllocError)),
        },
    }
}

/// Three pieces, the last of which is marked by one seat and seen by the other.
#[test]
fn what_one_marks_the_other_sees(rt: HostRuntime) -> Result<(), Fail> {
    let torrent = abc::shared_torrent(&rt, rt.alloc())?;
    let Some(last) = proven(rt.alloc(), &torrent, 2)? else {
        return Err(Fail::from("the last piece is an a"));
    };
    let (board, mut seats) = Board::open(rt.alloc(), torrent, 2)?;
    assert!(rt; seats.len() == 2);
    let mut second = seats.remove(1);
    let mut first = seats.remove(0);
    marks_and_sees(&rt, &board, &mut first, &mut second, last);
    let all = board.join(first, second);
    let bits = closed(rt.alloc(), board, all)?;
    let wire = bits.to_wire(rt.alloc())?;
    same(wire.as_slice(), [0x20].as_slice())
}

/// How many pieces the two threads share.
const MANY: u32 = 10_000;

/// Marks the piece, and notes it before.
fn marks_one(
    alloc: Global,
    torrent: &Torrent,
    board: &Board,
    seat: &mut BoardSeat,
    noted: &[AtomicBool],
    piece: u32,
) -> Result<(), Wrong>
    requires board { seat.old.table ≡ board.now.table }
    requires torrent { board.now.torrent ≡ torrent.now.layout }
    ensures { seat.new.table ≡ seat.old.table }
{
    let Some(proven) = proven(alloc, torrent, piece)? else {
        return Err(Wrong::NotProven);
    };
    let Some(flag) = noted.get(piece as usize) else {
        return Err(Wrong::NoSuchPiece);
    };
    flag.store(true, Ordering::SeqCst);
    board.mark(seat, proven);
    Ok(())
}

/// Marks each piece, in an order that jumps to and fro.
fn marks_many(
    alloc: Global,
    torrent: &Torrent,
    board: &Board,
    mut seat: BoardSeat,
    noted: &[AtomicBool],
) -> Result<(), Wrong>
    requires board { seat.table ≡ board.now.table }
    requires torrent { board.now.torrent ≡ torrent.now.layout }
{
    for step in 0..MANY {
        // A prime that doesn't divide their number, so that each piece comes once.
        let piece = step * 7_919 % MANY;
        marks_one(alloc, torrent, board, &mut seat, noted, piece)?;
    }
    Ok(())
}

/// A seat with its board.
#[derive(Drop)]
struct Listener<'a> {
    board: &'a Board,
    seat: BoardSeat,
    ghost ours: { seat.table ≡ board.now.table },
}

impl<'a> Listener<'a> {
    fn news(&mut self) -> Option<u32> {
        self.board.news(&mut self.seat)
    }
}

/// How often the news is taken before the other thread is given up.
const TRIES: u64 = 1_000_000_000;

/// Takes the news once, and says whether there was some. An error where a piece comes twice, or before it was noted.
fn hears_one(
    listener: &mut Listener<'_>,
    heard: &mut [bool],
    noted: &[AtomicBool],
) -> Result<bool, Wrong> {
    let Some(piece) = listener.news() else {
        return Ok(false);
    };
    let (Some(flag), Some(before)) = (noted.get(piece as usize), heard.get_mut(piece as usize))
    else {
        return Err(Wrong::NoSuchPiece);
    };
    if *before || !flag.load(Ordering::SeqCst) {
        return Err(Wrong::Given);
    }
    *before = true;
    Ok(true)
}

/// Takes the news until each piece was given. An error where they don't all come.
fn hears_each(
    listener: &mut Listener<'_>,
    heard: &mut [bool],
    noted: &[AtomicBool],
) -> Result<(), Wrong> {
    let mut count = 0u32;
    for _ in 0..TRIES {
        if count == MANY {
            return Ok(());
        }
        if hears_one(listener, heard, noted)? {
            count = count.saturating_add(1);
        } else {
            thread::yield_now();
        }
    }
    Err(Wrong::Missing)
}

/// The same by this seat.
fn hears_many(
    alloc: Global,
    board: &Board,
    seat: BoardSeat,
    noted: &[AtomicBool],
) -> Result<(), Wrong>
    requires { seat.table ≡ board.now.table }
{
    let mut heard = Vec::from_elem(alloc, false, MANY as usize)?;
    hears_each(&mut Listener { board, seat }, &mut heard, noted)
}

fn in_two_threads<R: Threads + Wait + Abort + Sync>(rt: &R, alloc: Global) -> Result<(), Fail> {
    let hashes = Vec::from_elem(alloc, abc::A, MANY as usize)?;
    let torrent = Arc::new(
        alloc,
        Torrent::of_parts(1, u64::from(MANY), hashes, [0; 20])?,
    )?;
    let mut noted = Vec::with_capacity(alloc, MANY as usize)?;
    for _ in 0..MANY {
        noted.push(AtomicBool::new(false))?;
    }
    let (board, mut seats) = Board::open(alloc, torrent.clone()?, 2)?;
    assert!(rt; seats.len() == 2);
    let second = seats.remove(1);
    let first = seats.remove(0);
    // Where the other thread can't be made, the second of these is done first, so that the first has something to hear.
    let (heard, marked) = thread::join(
        rt,
        || -> Result<(), Wrong>
            requires { second.table ≡ board.table }
        { hears_many(alloc, &board, second, noted.as_slice()) },
        || -> Result<(), Wrong>
            requires board { first.table ≡ board.table }
            requires torrent { board.torrent ≡ torrent.value.layout }
        { marks_many(alloc, &torrent, &board, first, noted.as_slice()) },
    );
    marked?;
    heard?;
    Ok(())
}

/// One marks ten thousand pieces while the other takes the news of them: each is given once, and none that wasn't marked.
#[test]
fn each_piece_is_given_once(rt: HostRuntime) -> Result<(), Fail> {
    in_two_threads(&rt, rt.alloc())
}
