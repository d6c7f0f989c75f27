//! Two threads that call one desk.
ghost use Rattle.std.specs.Prelude.{◌≡◌};
ghost use Rattle.bt_meta.specs.Layout.{piece_count};
ghost use Rattle.bt_shared.specs.Passes.{IsOf, IsSame};

use super::abc;
use super::setting::*;
use bt_expect::same;
use bt_meta::Torrent;
use bt_picker::{AuditFault, Call, Reply, Rules, audit};
use bt_shared::{Book, GatherFault, Pass, SharedDesk};
use std::alloc::{AllocError, Global};
use std::process::Abort;
use std::sync::Wait;
use std::sync::atomic::{AtomicBool, Ordering};
use std::test::*;
use std::thread;
use std::thread::Threads;

/// Where each of two workers waits for the other.
#[derive(Drop)]
struct Meeting {
    first: AtomicBool,
    second: AtomicBool,
    /// One has waited in vain: so there was no memory for another thread, and the one is done after the other.
    is_missed: AtomicBool,
}

impl Meeting {
    fn new() -> Meeting {
        Meeting {
            first: AtomicBool::new(false),
            second: AtomicBool::new(false),
            is_missed: AtomicBool::new(false),
        }
    }

    /// Waits until the other comes, or this one has yielded a million times.
    fn meets(&self, worker: u32) {
        let (mine, other) = if worker == 0 {
            (&self.first, &self.second)
        } else {
            (&self.second, &self.first)
        };
        mine.store(true, Ordering::SeqCst);
        for _ in 0..1_000_000 {
            if other.load(Ordering::SeqCst) {
                return;
            }
            thread::yield_now();
        }
        self.is_missed.store(true, Ordering::SeqCst);
    }

    fn is_missed(&self) -> bool {
        self.is_missed.load(Ordering::SeqCst)
    }
}

/// How often each worker asks.
const CALLS: usize = 1000;

/// The entries of both, with the two that join.
const ENTRIES: usize = 2002;

/// Asks once, and once more where there was no memory: such a call changed nothing.
fn asked<R: Wait>(rt: &R, desk: &SharedDesk, pass: &mut Pass) -> Result<Reply, AllocError>
    requires { pass.old.table ≡ desk.now.table }
    ensures { IsSame pass.old pass.new }
{
    match called(rt, desk, pass, Call::Next(0)) {
        Err(AllocError) => called(rt, desk, pass, Call::Next(0)),
        made => made,
    }
}

/// Joins, and once more where there was no memory.
fn joined<R: Wait>(rt: &R, desk: &SharedDesk, pass: &mut Pass) -> Result<Reply, AllocError>
    requires { pass.old.table ≡ desk.now.table }
    ensures { IsSame pass.old pass.new }
{
    match called(rt, desk, pass, Call::Join) {
        Err(AllocError) => called(rt, desk, pass, Call::Join),
        made => made,
    }
}

/// Asks again and again of a peer that chokes, which each reply has to say.
fn asks<R: Wait>(rt: &R, desk: &SharedDesk, pass: &mut Pass) -> bool
    requires { pass.old.table ≡ desk.now.table }
    ensures { IsSame pass.old pass.new }
{
    let mut is_right = true;
    'calls: for _ in 0..CALLS {
        is_right &= matches!(asked(rt, desk, pass), Ok(Reply::Choked));
    }
    is_right
}

/// Joins once the other worker is there, and asks. Gives the pass back, and whether the other came and all replies were right.
fn calls<R: Wait>(rt: &R, desk: &SharedDesk, meeting: &Meeting, mut pass: Pass) -> (Pass, bool)
    requires { IsOf desk.now pass }
    ensures { IsOf desk.now result.0 }
{
    meeting.meets(pass.worker());
    let mut is_right = matches!(joined(rt, desk, &mut pass), Ok(Reply::Joined));
    is_right &= asks(rt, desk, &mut pass);
    (pass, is_right)
}

/// The calls of both workers, each in a thread of its own.
fn together<R: Wait + Threads + Sync>(
    rt: &R,
    desk: &SharedDesk,
    meeting: &Meeting,
    first: Pass,
    second: Pass,
) -> ((Pass, bool), (Pass, bool))
    requires first { IsOf desk.now first }
    requires second { IsOf desk.now second }
    ensures first { IsOf desk.now result.0.0 }
    ensures second { IsOf desk.now result.1.0 }
{
    thread::join(
        rt,
        move || -> (Pass, bool)
            requires { IsOf desk.now first }
            ensures { IsOf desk.entry.now result.0 }
        { calls(rt, desk, meeting, first) },
        move || -> (Pass, bool)
            requires { IsOf desk.now second }
            ensures { IsOf desk.entry.now result.0 }
        { calls(rt, desk, meeting, second) },
    )
}

/// The journal and both logs have the calls of both workers.
fn is_whole(rt: &impl Abort, book: &Book) -> Result<(), Fail> {
    same(book.desk.journal().len(), ENTRIES)?;
    same(book.logs.len(), 2)?;
    same(log_of(rt, book, 0).len(), CALLS + 1)?;
    same(log_of(rt, book, 1).len(), CALLS + 1)
}

/// An audit finds no fault in the journal of two workers.
fn is_legal(alloc: Global, torrent: &Torrent, book: &Book) -> Result<(), AuditFault>
    requires { piece_count torrent.now.layout ≡ 3 }
{
    audit(alloc, torrent, 2, Rules::usual(), book.desk.journal())
}

/// The calls of the two workers of this desk, at once. Whether all replies were right; an error where they weren't made at once.
fn call_together<R: Wait + Threads + Abort + Sync>(
    rt: &R,
    seated: &mut Seated,
) -> Result<bool, Fail> {
    let second = seated.take(rt);
    let first = seated.take(rt);
    let meeting = Meeting::new();
    let ((first, is_right), (second, is_right_too)) = together(
        rt,
        seated.desk(),
        &meeting,
        first,
        second,
    );
    seated.give_two(first, second)?;
    if meeting.is_missed() {
        return Err(Fail::from(AllocError));
    }
    Ok(is_right && is_right_too)
}

#[test]
fn two_threads_at_one_desk(rt: HostRuntime) -> Result<(), Fail> {
    let mut seated = Seated::open(&rt, rt.alloc(), 2)?;
    same(call_together(&rt, &mut seated)?, true)?;
    gathers_all_calls(&rt, rt.alloc(), seated.gather(rt.alloc()))
}

/// A desk is gathered, and its book has all calls.
fn gathers_all_calls(
    rt: &impl Abort,
    alloc: Global,
    gathered: Result<Book, GatherFault>,
) -> Result<(), Fail> {
    let book = gathered?;
    has_all_calls(rt, alloc, &book)
}

/// The journal and the logs have all calls, and an audit finds no fault.
fn has_all_calls(rt: &impl Abort, alloc: Global, book: &Book) -> Result<(), Fail> {
    is_whole(rt, book)?;
    let torrent = abc::shared_torrent(rt, alloc)?;
    Ok(is_legal(alloc, &torrent, book)?)
}
