//! Eight threads that call one picker, and eight that call one desk. What each tells comes of random words of its own, the same at both, and of
//! the replies that it had.
ghost use Rattle.std.specs.Prelude.{◌≡◌, ◌<◌, All, IfOk};
ghost use Rattle.bt_meta.specs.Layout.{piece_count};
ghost use Rattle.bt_shared.specs.Passes.{AreOf, IsOf, IsSame};

use super::abc::ABC;
use super::audits::finds;
use super::setting::called;
use bt_expect::same;
use bt_meta::Torrent;
use bt_picker::{Call, Desk, Entry, Picker, Reason, Reply, Rules, Told};
use bt_shared::{Book, Pass, PickerPass, SharedDesk, SharedPicker, Turn};
use bytes::Bytes;
use rand_core::Rng;
use rand_pcg::Lcg64Xsh32;
use std::alloc::{AllocError, Global};
use std::process::Abort;
use std::sync::atomic::{AtomicUsize, Ordering};
use std::sync::{Arc, Wait};
use std::test::*;
use std::thread;
use std::thread::Threads;

const WORKERS: u32 = 8;

const PIECES: u32 = 64;

/// So many calls each worker makes.
const STEPS: u32 = 200;

/// What a worker tells. A block is the whole of a piece, of three bytes.
#[derive(Clone, Copy, Drop)]
enum Step {
    Join,
    Have(u32),
    Unchoke,
    Choke,
    Next(u64),
    Arrived(u32),
    Late(u32),
    Release(u32),
    Leave,
}

/// A call that was made, with its reply and the number of calls before it.
#[derive(Clone, Copy, Drop)]
struct Line {
    place: usize,
    worker: u32,
    step: Step,
    reply: Reply,
}

/// Sixty-four pieces `abc`.
fn torrent(rt: &impl Abort, alloc: Global) -> Result<Arc<Torrent>, Fail>
    ensures { IfOk result (λ torrent. piece_count torrent.value.layout ≡ 64) }
{
    let mut hashes = Vec::new(alloc);
    for _ in 0..PIECES {
        hashes.push(ABC)?;
    }
    let torrent = Torrent::of_parts(3, 192, hashes, [0; 20])?;
    assert!(rt; torrent.piece_count() == 64);
    Ok(Arc::new(alloc, torrent)?)
}

/// Of so many cases, one.
fn one_of(rng: &mut Lcg64Xsh32, cases: u32) -> u32
    requires { 0 < cases }
    ensures { result < cases }
{
    rng.next_u32() % cases
}

/// What is told next: `last` is the piece of which a block was requested last.
fn step_of(rng: &mut Lcg64Xsh32, last: u32) -> Step {
    match one_of(rng, 24) {
        0 => Step::Leave,
        1 => Step::Choke,
        2 => Step::Late(last),
        3 => Step::Release(last),
        4..=5 => Step::Join,
        6..=8 => Step::Unchoke,
        9..=12 => Step::Have(one_of(rng, PIECES)),
        13..=15 => Step::Arrived(last),
        _ => Step::Next(rng.next_u64()),
    }
}

/// The piece of which a block was requested last, after this reply.
fn last_after(last: u32, reply: Reply) -> u32 {
    match reply {
        Reply::Request(block) => block.piece,
        _ => last,
    }
}

fn call_of(step: Step) -> Call {
    match step {
        Step::Join => Call::Join,
        Step::Have(piece) => Call::Have(piece),
        Step::Unchoke => Call::Unchoke,
        Step::Choke => Call::Choke,
        Step::Next(word) => Call::Next(word),
        Step::Arrived(piece) => Call::Arrived {
            piece,
            begin: 0,
            bytes: Bytes::from_static(b"abc"),
        },
        Step::Late(piece) => Call::Late { piece, begin: 0 },
        Step::Release(piece) => Call::Release { piece, begin: 0 },
        Step::Leave => Call::Leave,
    }
}

fn told_of(step: Step) -> Told<'static> {
    match step {
        Step::Join => Told::Join,
        Step::Have(piece) => Told::Have(piece),
        Step::Unchoke => Told::Unchoke,
        Step::Choke => Told::Choke,
        Step::Next(word) => Told::Next(word),
        Step::Arrived(piece) => Told::Arrived {
            piece,
            begin: 0,
            bytes: b"abc",
        },
        Step::Late(piece) => Told::Late { piece, begin: 0 },
        Step::Release(piece) => Told::Release { piece, begin: 0 },
        Step::Leave => Told::Leave,
    }
}

/// What an entry of these threads tells.
fn step_in(call: &Call) -> Option<Step> {
    match call {
        Call::Join => Some(Step::Join),
        Call::Have(piece) => Some(Step::Have(*piece)),
        Call::Unchoke => Some(Step::Unchoke),
        Call::Choke => Some(Step::Choke),
        Call::Next(word) => Some(Step::Next(*word)),
        Call::Arrived { piece, .. } => Some(Step::Arrived(*piece)),
        Call::Late { piece, .. } => Some(Step::Late(*piece)),
        Call::Release { piece, .. } => Some(Step::Release(*piece)),
        Call::Leave => Some(Step::Leave),
        _ => None,
    }
}

// ---- at a picker

/// The picker, at once where nobody has it.
fn taken<R: Wait>(rt: &R, picker: &SharedPicker, pass: PickerPass) -> Turn
    requires { IsOf picker.now pass }
    ensures { IsOf picker.now result }
{
    match picker.try_take(pass) {
        Ok(turn) => turn,
        Err(pass) => picker.take(rt, pass),
    }
}

/// Tells the picker a step, in a turn in which calls are counted.
fn told<R: Wait>(
    rt: &R,
    picker: &SharedPicker,
    calls: &AtomicUsize,
    pass: PickerPass,
    step: Step,
) -> (PickerPass, Line)
    requires { IsOf picker.now pass }
    ensures { IsOf picker.now result.0 }
{
    let mut turn = taken(rt, picker, pass);
    let line = Line {
        place: calls.fetch_add(1, Ordering::SeqCst),
        worker: turn.worker(),
        step,
        reply: turn.tell(told_of(step)),
    };
    (picker.give(turn), line)
}

/// The calls of one worker, as far as there is memory for its log.
fn plays<R: Wait>(
    rt: &R,
    alloc: Global,
    picker: &SharedPicker,
    calls: &AtomicUsize,
    mut pass: PickerPass,
) -> (PickerPass, Vec<Line>)
    requires { IsOf picker.now pass }
    ensures { IsOf picker.now result.0 }
{
    let mut rng = Lcg64Xsh32::new(u64::from(pass.worker()), 1);
    let mut log = Vec::new(alloc);
    let mut last = 0;
    'steps: for _ in 0..STEPS {
        let (back, line) = told(rt, picker, calls, pass, step_of(&mut rng, last));
        pass = back;
        last = last_after(last, line.reply);
        if log.push(line).is_err() {
            break;
        }
    }
    (pass, log)
}

/// The calls of all workers, each in a thread of its own.
fn play_together<R: Wait + Threads + Sync>(
    rt: &R,
    alloc: Global,
    picker: &SharedPicker,
    passes: Vec<PickerPass>,
) -> Result<Vec<(PickerPass, Vec<Line>)>, AllocError>
    requires { All (λ pass. IsOf picker.now pass) passes.items }
    ensures { IfOk result (λ players. All (λ player. IsOf picker.now player.0) players.items) }
{
    let calls = AtomicUsize::new(0);
    thread::map_vec(
        rt,
        passes,
        &|pass: PickerPass| -> (PickerPass, Vec<Line>)
            requires { IsOf picker.now pass }
            ensures { IsOf picker.entry.now result.0 }
        { plays(rt, alloc, picker, &calls, pass) },
    )
}

/// A picker of those pieces, and a pass for each worker.
fn picker_of(
    alloc: Global,
    torrent: Arc<Torrent>,
) -> Result<(SharedPicker, Vec<PickerPass>), AllocError>
    requires { piece_count torrent.value.layout ≡ 64 }
    ensures pieces { IfOk result (λ opened. piece_count opened.0.setting.torrent ≡ 64) }
    ensures passes { IfOk result (λ opened. AreOf opened.0 opened.1.items) }
    ensures each { IfOk result (λ opened. All (λ pass. IsOf opened.0 pass) opened.1.items) }
{
    SharedPicker::open(alloc, torrent, WORKERS, Rules::usual())
}

/// The passes, and the lines of all logs.
fn apart(
    alloc: Global,
    picker: &SharedPicker,
    mut players: Vec<(PickerPass, Vec<Line>)>,
) -> Result<(Vec<PickerPass>, Vec<Line>), AllocError>
    requires { All (λ player. IsOf picker.now player.0) players.items }
    ensures { IfOk result (λ parts. AreOf picker.now parts.0.items) }
{
    let mut passes = Vec::new(alloc);
    let mut lines = Vec::new(alloc);
    'players: while let Some((pass, log)) = players.pop() {
        passes.push(pass)?;
        lines.extend_from_slice(log.as_slice())?;
    }
    Ok((passes, lines))
}

/// The calls of all threads at one picker in their order, and the picker that is left.
fn played<R: Wait + Threads + Abort + Sync>(
    rt: &R,
    alloc: Global,
    torrent: Arc<Torrent>,
) -> Result<(Picker, Vec<Line>), Fail>
    requires { piece_count torrent.value.layout ≡ 64 }
{
    let (picker, passes) = picker_of(alloc, torrent)?;
    let players = play_together(rt, alloc, &picker, passes)?;
    let (passes, mut lines) = apart(alloc, &picker, players)?;
    let picker = picker.close(passes).expect(rt, "each pass came back");
    lines.sort_by_key(|line| line.place)?;
    Ok((picker, lines))
}

// ---- at a desk

/// A call at the desk, and once more where there was no memory: such a call changed nothing.
fn entered<R: Wait>(
    rt: &R,
    desk: &SharedDesk,
    pass: &mut Pass,
    step: Step,
) -> Result<Reply, AllocError>
    requires { pass.old.table ≡ desk.now.table }
    ensures { IsSame pass.old pass.new }
{
    match called(rt, desk, pass, call_of(step)) {
        Err(AllocError) => called(rt, desk, pass, call_of(step)),
        made => made,
    }
}

/// The calls of one worker, as far as there is memory.
fn enters<R: Wait>(rt: &R, desk: &SharedDesk, mut pass: Pass) -> Pass
    requires { IsOf desk.now pass }
    ensures { IsOf desk.now result }
{
    let mut rng = Lcg64Xsh32::new(u64::from(pass.worker()), 1);
    let mut last = 0;
    'steps: for _ in 0..STEPS {
        match entered(rt, desk, &mut pass, step_of(&mut rng, last)) {
            Ok(reply) => last = last_after(last, reply),
            Err(AllocError) => break,
        }
    }
    pass
}

/// A desk of those pieces, and a pass for each worker.
fn desk_of(alloc: Global, torrent: Arc<Torrent>) -> Result<(SharedDesk, Vec<Pass>), AllocError>
    requires { piece_count torrent.value.layout ≡ 64 }
    ensures { IfOk result (λ opened. All (λ pass. IsOf opened.0 pass) opened.1.items) }
{
    SharedDesk::open(alloc, torrent, WORKERS, Rules::usual())
}

/// The calls of all workers at one desk, each in a thread of its own.
fn enter_together<R: Wait + Threads + Sync>(
    rt: &R,
    desk: &SharedDesk,
    passes: Vec<Pass>,
) -> Result<Vec<Pass>, AllocError>
    requires { All (λ pass. IsOf desk.now pass) passes.items }
    ensures { IfOk result (λ passes. AreOf desk.now passes.items) }
{
    thread::map_vec(
        rt,
        passes,
        &|pass: Pass| -> Pass
            requires { IsOf desk.now pass }
            ensures { IsOf desk.entry.now result }
        { enters(rt, desk, pass) },
    )
}

/// The book of all calls at one desk.
fn gathered<R: Wait + Threads + Sync>(
    rt: &R,
    alloc: Global,
    torrent: Arc<Torrent>,
) -> Result<Book, Fail>
    requires { piece_count torrent.value.layout ≡ 64 }
{
    let (desk, passes) = desk_of(alloc, torrent)?;
    let passes = enter_together(rt, &desk, passes)?;
    Ok(desk.gather(alloc, passes, None)?)
}

// ---- what one thread makes of the same calls

/// The reply of a desk of one thread.
fn replied(rt: &impl Abort, desk: &mut Desk, worker: u32, step: Step) -> Result<Reply, AllocError>
    requires { desk.old.setting.workers ≡ 8 }
    ensures { desk.new.setting.workers ≡ 8 }
{
    assert!(rt; worker < WORKERS);
    desk.call(worker, call_of(step))
}

/// Each line has the reply that a desk of one thread gives there.
fn is_replayed(
    rt: &impl Abort,
    alloc: Global,
    torrent: Arc<Torrent>,
    lines: &[Line],
) -> Result<Desk, Fail>
    requires { piece_count torrent.value.layout ≡ 64 }
{
    let mut desk = Desk::new(alloc, torrent, WORKERS, Rules::usual())?;
    'lines: for line in lines {
        let reply = replied(rt, &mut desk, line.worker, line.step)?;
        same(reply, line.reply)?;
    }
    Ok(desk)
}

/// The reply of a picker of one thread to an entry of these threads.
fn told_again(rt: &impl Abort, picker: &mut Picker, entry: &Entry) -> Reply {
    let step = step_in(&entry.call).expect(rt, "no thread tells this");
    picker.tell(entry.worker, told_of(step))
}

/// Each entry has the reply that a picker of one thread gives there.
fn is_told_again(
    rt: &impl Abort,
    alloc: Global,
    torrent: Arc<Torrent>,
    entries: &[Entry],
) -> Result<Picker, Fail>
    requires { piece_count torrent.value.layout ≡ 64 }
{
    let mut picker = Picker::new(alloc, torrent, WORKERS, Rules::usual())?;
    for entry in entries {
        same(told_again(rt, &mut picker, entry), entry.reply)?;
    }
    Ok(picker)
}

/// Both have come to the same.
fn is_like(found: &Picker, wanted: &Picker) -> Result<(), Fail> {
    same(found.unasked(), wanted.unasked())?;
    same(found.epoch(), wanted.epoch())
}

// ---- tests

#[test]
fn eight_threads_at_one_picker(rt: HostRuntime) -> Result<(), Fail> {
    let alloc = rt.alloc();
    let torrent = torrent(&rt, alloc)?;
    let (picker, lines) = played(&rt, alloc, torrent.clone()?)?;
    same(lines.len(), 1600)?;
    let desk = is_replayed(&rt, alloc, torrent.clone()?, &lines)?;
    is_like(&picker, desk.picker())?;
    finds(
        &rt,
        alloc,
        &torrent,
        WORKERS,
        Rules::usual(),
        desk.journal(),
        None,
    )
}

#[test]
fn eight_threads_at_one_desk(rt: HostRuntime) -> Result<(), Fail> {
    let alloc = rt.alloc();
    let torrent = torrent(&rt, alloc)?;
    let book = gathered(&rt, alloc, torrent.clone()?)?;
    let journal = book.desk.journal();
    same(journal.len(), 1600)?;
    let picker = is_told_again(&rt, alloc, torrent.clone()?, journal)?;
    is_like(&picker, book.desk.picker())?;
    finds(&rt, alloc, &torrent, WORKERS, Rules::usual(), journal, None)
}

/// A verdict on a piece that there isn't, in a turn.
fn judged(turn: &mut Turn) -> Reply
    requires { piece_count turn.old.setting.torrent ≡ 64 }
    ensures { IsSame turn.old turn.new }
{
    turn.judge(PIECES, true)
}

/// Calls in a turn.
fn has_turn(turn: &mut Turn) -> Result<(), Fail>
    requires { piece_count turn.old.setting.torrent ≡ 64 }
    ensures { IsSame turn.old turn.new }
{
    same(turn.tell(Told::Join), Reply::Joined)?;
    same(turn.tell(Told::Have(0)), Reply::Noted(true))?;
    same(judged(turn), Reply::Refused(Reason::NoSuchPiece))?;
    same(turn.picker().unasked(), 64)
}

/// Tries to call.
fn tried(picker: &SharedPicker, pass: &mut PickerPass) -> Option<Reply>
    requires { IsOf picker.now pass.old }
    ensures { IsOf picker.now pass.new }
{
    picker.try_call(pass, Told::Join)
}

/// Tries to tell a verdict on a piece that there isn't.
fn tried_verdict(picker: &SharedPicker, pass: &mut PickerPass) -> Option<Reply>
    requires pass { IsOf picker.now pass.old }
    requires pieces { piece_count picker.now.setting.torrent ≡ 64 }
    ensures { IsOf picker.now pass.new }
{
    picker.try_judge(pass, PIECES, true)
}

/// What waits calls and tells such a verdict.
fn waited<R: Wait>(rt: &R, picker: &SharedPicker, pass: &mut PickerPass) -> (Reply, Reply)
    requires pass { IsOf picker.now pass.old }
    requires pieces { piece_count picker.now.setting.torrent ≡ 64 }
    ensures { IsOf picker.now pass.new }
{
    let called = picker.call(rt, pass, Told::Join);
    (called, picker.judge(rt, pass, PIECES, true))
}

/// While the first has its turn the second finds the picker busy, and has it afterwards.
fn keeps_out<R: Wait>(
    rt: &R,
    picker: &SharedPicker,
    first: PickerPass,
    second: &mut PickerPass,
) -> Result<PickerPass, Fail>
    requires first { IsOf picker.now first }
    requires second { IsOf picker.now second.old }
    requires pieces { piece_count picker.now.setting.torrent ≡ 64 }
    ensures first { IfOk result (λ pass. IsOf picker.now pass) }
    ensures second { IsOf picker.now second.new }
{
    let mut turn = picker.take(rt, first);
    has_turn(&mut turn)?;
    same(tried(picker, second), None)?;
    same(tried_verdict(picker, second), None)?;
    let first = picker.give(turn);
    same(tried(picker, second), Some(Reply::Joined))?;
    same(
        tried_verdict(picker, second),
        Some(Reply::Refused(Reason::NoSuchPiece)),
    )?;
    let (called, judged) = waited(rt, picker, second);
    same(called, Reply::Refused(Reason::AlreadyJoined))?;
    same(judged, Reply::Refused(Reason::NoSuchPiece))?;
    Ok(first)
}

/// The last pass.
fn popped(rt: &impl Abort, picker: &SharedPicker, passes: &mut Vec<PickerPass>) -> PickerPass
    requires { AreOf picker.now passes.old.items }
    ensures pass { IsOf picker.now result }
    ensures rest { AreOf picker.now passes.new.items }
{
    passes.pop().expect(rt, "no pass is left")
}

/// The passes with one more.
fn with(
    picker: &SharedPicker,
    mut passes: Vec<PickerPass>,
    pass: PickerPass,
) -> Result<Vec<PickerPass>, AllocError>
    requires passes { AreOf picker.now passes.items }
    requires pass { IsOf picker.now pass }
    ensures { IfOk result (λ passes. AreOf picker.now passes.items) }
{
    passes.push(pass)?;
    Ok(passes)
}

/// Two workers at a new picker of those pieces, and the picker that is left.
fn turns<R: Wait + Abort>(
    rt: &R,
    picker: SharedPicker,
    mut passes: Vec<PickerPass>,
) -> Result<Picker, Fail>
    requires pieces { piece_count picker.setting.torrent ≡ 64 }
    requires passes { AreOf picker passes.items }
{
    let mut second = popped(rt, &picker, &mut passes);
    let first = popped(rt, &picker, &mut passes);
    let first = keeps_out(rt, &picker, first, &mut second)?;
    let passes = with(&picker, with(&picker, passes, first)?, second)?;
    Ok(picker.close(passes).expect(rt, "each pass came back"))
}

#[test]
fn a_turn_keeps_others_out(rt: HostRuntime) -> Result<(), Fail> {
    let alloc = rt.alloc();
    let (picker, passes) = picker_of(alloc, torrent(&rt, alloc)?)?;
    let picker = turns(&rt, picker, passes)?;
    same(picker.availability(0), 1)
}
