//! Several recorded peers at one desk, in one thread.

ghost use Rattle.std.specs.Prelude.{◌≡◌, ◌≤◌, ◌<◌, ◌+◌, [], ℕ, length, map, Some, true, false, sum_by, All, Bool, List, Option, IfOk, IfSome};
ghost use Rattle.std.specs.Prelude.{OnErr, OnOk, vec_capacity};
ghost use Rattle.std.specs.List.{HoldsAt, list_any};
ghost use Rattle.bt_history.specs.Peers.{flag};
ghost use Rattle.bt_history.specs.Pieces.{chosen};
ghost use Rattle.bt_history.specs.Setting.{AreRules, setting_of};
ghost use Rattle.bt_meta.specs.Layout.{piece_count};
ghost use Rattle.bt_picker.specs.Checks.{waits};
ghost use Rattle.bt_peer.specs.Desks.{calls_in};
ghost use Rattle.bt_peer.specs.Serial.{Finishes, RanInTurns, opening_of, stream_of, stream_record};
ghost use Rattle.bt_peer.specs.Course.{AreNew, HasEnded, HasOpened, IsFresh, IsNew, LeavesOthers, MayTakeTurns, TookTurns, left_of};
ghost use Rattle.bt_peer.specs.SessionTerms.{TermsState, terms_of};

use crate::fault::{End, SessionFault};
use crate::seat::{Seat, take_turn};
use crate::session::Session;
use crate::stream::{MOST_STREAMS, SerialRun, Stream};
use bt_history::{Call, MOST_DEPTH, Rules};
use bt_meta::{Bitfield, Sink, Source, Torrent};
use bt_picker::Desk;
use rand_pcg::Lcg64Xsh32;
use std::alloc::{AllocError, Global};
use std::sync::Arc;

/// A worker's seat, with the generator of its number.
fn new_seat(
    alloc: Global,
    torrent: &Arc<Torrent>,
    worker: u32,
    seed: u64,
    depth: u32,
) -> Result<Seat, AllocError>
    requires { (1 ≤ depth) × (depth ≤ MOST_DEPTH) }
    ensures { IfOk result (IsNew (terms_of torrent.now.value depth) seed worker) }
{
    let told = Bitfield::empty(alloc, torrent.piece_count())?;
    Ok(Seat {
        session: Session::new(alloc, torrent.clone()?, worker, depth),
        told,
        seen: 0,
        rng: Lcg64Xsh32::new(seed, u64::from(worker)),
        lacked: false,
    })
}

/// A seat for each of so many workers.
fn new_seats(
    alloc: Global,
    torrent: &Arc<Torrent>,
    count: u32,
    seed: u64,
    depth: u32,
) -> Result<Vec<Seat>, AllocError>
    requires { (1 ≤ depth) × (depth ≤ MOST_DEPTH) }
    ensures count { IfOk result (λ seats. length seats.items ≡ count) }
    ensures new { IfOk result (λ seats. AreNew (terms_of torrent.now.value depth) seed seats.items) }
{
    let mut seats = Vec::with_capacity(alloc, count as usize)?;
    for worker in 0..count {
        seats.push(new_seat(alloc, torrent, worker, seed, depth)?)?;
    }
    Ok(seats)
}

/// The turn of one stream's session. Answers whether it took one: there is none after its end.
fn turn_of<R: Source, W: Sink>(
    alloc: Global,
    desk: &mut Desk,
    seats: &mut [Seat],
    streams: &mut [Stream<R, W>],
    i: usize,
) -> bool
    requires i { i < length streams.old }
    requires may { MayTakeTurns desk.old seats.old streams.old }
    ensures took { TookTurns (stream_of R.Source W.Sink) desk.old seats.old streams.old desk.new seats.new streams.new }
    ensures falls { result ≡ true → sum_by left_of seats.new < sum_by left_of seats.old }
    ensures same { result ≡ false → seats.new ≡ seats.old }
    ensures ended { result ≡ false → HoldsAt HasEnded seats.new i }
{
    if seats[i].session.outcome().is_some() {
        return false;
    }
    take_turn(alloc, desk, i as u32, &mut seats[i], &mut streams[i]);
    true
}

/// A turn of each session that hasn't ended, in order. Answers whether there was one.
fn round<R: Source, W: Sink>(
    alloc: Global,
    desk: &mut Desk,
    seats: &mut [Seat],
    streams: &mut [Stream<R, W>],
) -> bool
    requires { MayTakeTurns desk.old seats.old streams.old }
    ensures took { TookTurns (stream_of R.Source W.Sink) desk.old seats.old streams.old desk.new seats.new streams.new }
    ensures falls { result ≡ true → sum_by left_of seats.new < sum_by left_of seats.old }
    ensures ended { result ≡ false → All HasEnded seats.new }
{
    let mut turns = false;
    for i in 0..streams.len() {
        turns |= turn_of(alloc, desk, seats, streams, i);
    }
    turns
}

/// Rounds until all sessions have ended.
fn all_rounds<R: Source, W: Sink>(
    alloc: Global,
    desk: &mut Desk,
    seats: &mut [Seat],
    streams: &mut [Stream<R, W>],
)
    requires { MayTakeTurns desk.old seats.old streams.old }
    ensures took { TookTurns (stream_of R.Source W.Sink) desk.old seats.old streams.old desk.new seats.new streams.new }
    ensures ended { All HasEnded seats.new }
{
    'rounds: while round(alloc, desk, seats, streams) {}
}

/// How each session ended.
fn tell_ends(seats: &[Seat], ends: &mut Vec<Result<End, SessionFault>>)
    requires ended { All HasEnded seats.now }
    requires empty { ends.old.items ≡ [] }
    requires room { length seats.now ≤ vec_capacity ends.old }
    ensures { map Some ends.new.items ≡ map (λ seat. seat.session.outcome) seats.now }
{
    for seat in seats {
        if let Some(end) = seat.session.outcome() {
            ends.push_reserved(end);
        }
    }
}

/// The last checks. Answers whether they were given up for want of memory.
#[tactic(auto, using(crate::proofs::LastChecks::checks_finish, crate::proofs::LastChecks::checks_leave))]
fn last_checks(alloc: Global, desk: &mut Desk, worker: u32) -> bool
    requires worker { worker < desk.old.setting.workers }
    ensures setting { desk.new.setting ≡ desk.old.setting }
    ensures finishes { Finishes worker (calls_in desk.old.history worker) result desk.new }
    ensures leaves { LeavesOthers worker desk.old desk.new }
    ensures none_waits { result ≡ false → (piece : ℕ) → waits desk.new.setting desk.new.history piece ≡ false }
{
    desk.finish(alloc, worker).is_err()
}

/// Whether a call of some session found no memory.
fn some_lacked(seats: &[Seat]) -> bool
    ensures { result ≡ list_any (λ lacked. lacked) (map (λ seat. seat.lacked) seats.now) }
{
    seats.iter().map(|seat| seat.lacked).any(|lacked| lacked)
}

/// The run: rounds until all sessions have ended, how each ended, and the last checks. Answers whether memory lacked for these or for a session's call.
fn run<R: Source, W: Sink>(
    alloc: Global,
    desk: &mut Desk,
    seats: &mut [Seat],
    streams: &mut [Stream<R, W>],
    ends: &mut Vec<Result<End, SessionFault>>,
) -> bool
    requires may { MayTakeTurns desk.old seats.old streams.old }
    requires fresh { IsFresh (length streams.old) desk.old }
    requires empty { ends.old.items ≡ [] }
    requires room { length streams.old ≤ vec_capacity ends.old }
    ensures setting { desk.new.setting ≡ desk.old.setting }
    ensures count { length ends.new.items ≡ length streams.old }
    ensures ran { (terms : TermsState) (seed : ℕ) (want : Option (List Bool)) → desk.old.setting.torrent ≡ terms.layout →
        AreNew terms seed seats.old → calls_in desk.old.history (length streams.old) ≡ opening_of want →
        RanInTurns (stream_record R.left R.ended R.failed R.reads W.written W.failed)
        terms seed want streams.old result desk.new streams.new ends.new.items }
    ensures none_waits { result ≡ false → (piece : ℕ) → waits desk.new.setting desk.new.history piece ≡ false }
{
    all_rounds(alloc, desk, seats, streams);
    tell_ends(seats, ends);
    let unfinished = last_checks(alloc, desk, streams.len() as u32);
    unfinished | some_lacked(seats)
}

/// Tells at a new desk, as its first call, which pieces are wanted.
fn tell_wanted(desk: &mut Desk, worker: u32, flags: Bitfield) -> Result<(), AllocError>
    requires worker { worker < desk.old.setting.workers }
    requires empty { desk.old.history ≡ [] }
    requires flags { length flags ≡ piece_count desk.old.setting.torrent }
    ensures opened { OnOk result (HasOpened worker flags desk.new) }
    ensures setting { desk.new.setting ≡ desk.old.setting }
{
    let _reply = desk.call(worker, Call::Want(flags))?;
    Ok(())
}

/// The desk of a run with so many streams, and one more worker, which tells the wanted pieces.
#[tactic(auto, using(crate::proofs::Opened::fresh_empty))]
fn open_desk(
    alloc: Global,
    torrent: Arc<Torrent>,
    count: u32,
    want: Option<Bitfield>,
    rules: Rules,
) -> Result<Desk, AllocError>
    requires count { (1 ≤ count) × (count ≤ MOST_STREAMS) }
    requires rules { AreRules torrent.value.layout rules }
    requires want { IfSome want (λ flags. length flags ≡ piece_count torrent.value.layout) }
    ensures setting { IfOk result (λ desk. desk.setting ≡ setting_of torrent.value.layout (count + 1) rules) }
    ensures fresh { IfOk result (IsFresh count) }
    ensures opened { IfOk result (λ desk. calls_in desk.history count ≡ opening_of want) }
    ensures chosen { IfOk result (λ desk. IfSome want (λ flags. (piece : ℕ) → chosen desk.history piece ≡ flag flags piece)) }
{
    let mut desk = Desk::new(alloc, torrent, count + 1, rules)?;
    if let Some(flags) = want {
        tell_wanted(&mut desk, count, flags)?;
    }
    Ok(desk)
}

/// Sessions with recorded peers at one desk, in one thread. Worker `i` speaks for stream `i`, with the numbers of the generator `i` of the
/// seed. In rounds each session that hasn't ended takes a turn, in the order of the streams; one more worker makes the last checks.
///
/// Before the first round that worker tells which pieces are wanted, if `want` is given; else each piece is. The rules are those of the
/// desk, and each session asks for as many blocks at a time as their depth says.
///
/// The memory that this takes itself is taken before the first turn: after want of it nothing was read or written.
pub fn serial<R: Source, W: Sink>(
    alloc: Global,
    torrent: Arc<Torrent>,
    streams: &mut [Stream<R, W>],
    seed: u64,
    want: Option<Bitfield>,
    rules: Rules,
) -> Result<SerialRun, AllocError>
    requires streams { (1 ≤ length streams.old) × (length streams.old ≤ MOST_STREAMS) }
    requires rules { AreRules torrent.value.layout rules }
    requires want { IfSome want (λ flags. length flags ≡ piece_count torrent.value.layout) }
    ensures setting { IfOk result (λ run. run.desk.setting ≡ setting_of torrent.value.layout (length streams.old + 1) rules) }
    ensures ends { IfOk result (λ run. length run.ends.items ≡ length streams.old) }
    // Each session ended as its stream says, after a fault with Leave; the last worker told what is wanted, if that was given, before the
    // first round, and did nothing else but the last checks; and the run is short just where memory lacked for one of these calls.
    ensures ran { IfOk result (λ run. RanInTurns (stream_record R.left R.ended R.failed R.reads W.written W.failed)
        (terms_of torrent.value rules.depth) seed want streams.old run.short run.desk streams.new run.ends.items) }
    ensures none_waits { IfOk result (λ run. run.short ≡ false → (piece : ℕ) →
        waits run.desk.setting run.desk.history piece ≡ false) }
    ensures err { OnErr result (streams.new ≡ streams.old) }
{
    let count = streams.len() as u32;
    let mut seats = new_seats(alloc, &torrent, count, seed, rules.depth)?;
    let mut ends = Vec::with_capacity(alloc, seats.len())?;
    // The desk is the largest, and stands last, where nothing can fail behind it.
    let mut desk = open_desk(alloc, torrent, count, want, rules)?;
    let short = run(alloc, &mut desk, &mut seats, streams, &mut ends);
    Ok(SerialRun { ends, desk, short })
}
