//! Sessions in threads of their own.
ghost use Rattle.std.specs.Prelude.{◌≤◌, length};

use super::made::{ABC, PEER, RULES, Recorded, had_memory, peer, recorded, torrent, two_pieces};
use bt_expect::same;
use bt_meta::{FromRead, ToWrite, Torrent};
use bt_picker::{CallMark, Mark, Reply};
use bt_session::{End, Gate, OpenGate, SessionFault, SwarmFault, SwarmRun, swarm};
use bt_shared::GatherFault;
use bt_wire::Hello;
use std::alloc::{AllocError, Global};
use std::fmt::Write;
use std::io::Cursor;
use std::process::Abort;
use std::sync::atomic::{AtomicBool, AtomicU64, Ordering};
use std::sync::{Arc, Wait};
use std::test::Fail;
use std::thread;
use std::thread::Threads;

type Run<'a> = SwarmRun<FromRead<Cursor<&'a [u8]>>, ToWrite<Vec<u8>>>;

/// A run of these streams, with the seed 0. The tests call `swarm` here alone, so that its contract is read once.
fn run<'a, T: Threads + Wait + Sync, G: Gate + Sync>(
    rt: &T,
    alloc: Global,
    torrent: Arc<Torrent>,
    streams: Vec<Recorded<'a>>,
    checkers: u32,
    gate: &G,
) -> Result<Run<'a>, Fail>
    requires streams { (1 ≤ length streams.items) × (length streams.items ≤ 64) }
    requires checkers { (1 ≤ checkers) × (checkers ≤ 8) }
{
    let run = swarm(rt, alloc, torrent, streams, 0, RULES, checkers, gate)?;
    had_memory(run.short, &run.ends)?;
    Ok(run)
}

/// A run of one stream, whose peer sends this, at a gate that is open.
fn run_of_one<'a, T: Threads + Wait + Sync>(
    rt: &T,
    alloc: Global,
    torrent: Arc<Torrent>,
    sent: &'a [u8],
    checkers: u32,
) -> Result<Run<'a>, Fail>
    requires checkers { (1 ≤ checkers) × (checkers ≤ 8) }
{
    let streams = Vec::from_array(alloc, [recorded(alloc, sent)?])?;
    run(rt, alloc, torrent, streams, checkers, &OpenGate)
}

/// A run of two streams, whose peers send these, with one checker.
fn run_of_two<'a, T: Threads + Wait + Sync, G: Gate + Sync>(
    rt: &T,
    alloc: Global,
    torrent: Arc<Torrent>,
    sent: [&'a [u8]; 2],
    gate: &G,
) -> Result<Run<'a>, Fail> {
    let [first, second] = sent;
    let streams = Vec::from_array(alloc, [recorded(alloc, first)?, recorded(alloc, second)?])?;
    run(rt, alloc, torrent, streams, 1, gate)
}

/// Checks that a run of one stream isn't short, and that its session ended well after so many messages.
fn ended_alone(rt: &impl Abort, run: &Run<'_>, messages: u64) {
    assert!(rt; run.ends.len() == 1);
    assert!(rt; run.ends[0] == Ok(End { messages }));
    assert!(rt; !run.short);
}

/// Checks that a run has two streams, and that their sessions ended well after so many messages.
fn both_ended(rt: &impl Abort, run: &Run<'_>, first: u64, second: u64) {
    assert!(rt; run.ends.len() == 2);
    assert!(rt; run.ends[0] == Ok(End { messages: first }));
    assert!(rt; run.ends[1] == Ok(End { messages: second }));
}

/// A mark by its call and its reply, without the numbers of Next.
fn tell(mark: &Mark, said: &mut String) -> Result<(), AllocError> {
    match &mark.call {
        CallMark::Next(_) => said.push_str("Next")?,
        call => write!(said, "{call:?}")?,
    }
    let reply = mark.reply;
    write!(said, " = {reply:?}; ")
}

/// A log, with the place of each mark in the journal.
fn told(alloc: Global, log: &[Mark]) -> Result<String, AllocError> {
    let mut said = String::new(alloc);
    for mark in log {
        let place = mark.place;
        write!(said, "{place} ")?;
        tell(mark, &mut said)?;
    }
    Ok(said)
}

/// A log, without places.
fn calls(alloc: Global, log: &[Mark]) -> Result<String, AllocError> {
    let mut said = String::new(alloc);
    for mark in log {
        tell(mark, &mut said)?;
    }
    Ok(said)
}

/// The handshake of the session of the worker with this digit.
fn hello(worker: u8) -> [u8; 68] {
    let mut peer_id = *b"-PP0001-000000000000";
    peer_id[19] = worker;
    let hello = Hello {
        reserved: [0; 8],
        infohash: [1; 20],
        peer_id,
    };
    hello.write()
}

/// Whether the bytes have the request of this piece of three bytes.
fn asks_for(bytes: &[u8], piece: u8) -> bool {
    let request = [0, 0, 0, 13, 6, 0, 0, 0, piece, 0, 0, 0, 0, 0, 0, 0, 3];
    bytes.windows(17).any(|window| window == request.as_slice())
}

/// Checks the marks of a log, with their places.
fn is_told(alloc: Global, log: &[Mark], wanted: &str) -> Result<(), Fail> {
    let said = told(alloc, log)?;
    same(said.as_str(), wanted)
}

/// Checks the marks of a log, without places.
fn are_calls(alloc: Global, log: &[Mark], wanted: &str) -> Result<(), Fail> {
    let said = calls(alloc, log)?;
    same(said.as_str(), wanted)
}

/// Checks the logs of a session that gets the only piece, of its checker, and of the worker behind them, which has nothing left.
fn logs_of_one_session(rt: &impl Abort, alloc: Global, logs: &[Vec<Mark>]) -> Result<(), Fail> {
    assert!(rt; logs.len() == 3);
    assert!(rt; logs[0].len() == 9);
    is_told(
        alloc,
        &logs[0][..7],
        "0 Join = Joined; 1 Bits = Noted(true); 2 Next = Choked; 3 Unchoke = Quiet; \
        4 Next = Request(Block { piece: 0, begin: 0, len: 3 }); 5 Next = Idle; \
        6 Arrived { piece: 0, begin: 0, len: 3 } = Completed; ",
    )?;
    are_calls(alloc, &logs[1], "Settle(0) = Had; ")?;
    same(logs[2].len(), 0)
}

/// Checks a run of a peer of one piece that sends this.
fn gets_the_piece<T: Threads + Wait + Abort + Sync>(
    rt: &T,
    alloc: Global,
    sent: &[u8],
) -> Result<(), Fail> {
    let run = run_of_one(rt, alloc, torrent(alloc)?, sent, 1)?;
    ended_alone(rt, &run, 3);
    assert!(rt; run.book.desk.had(0));
    logs_of_one_session(rt, alloc, &run.book.logs)
}

#[test]
fn one_session_in_a_thread(rt: HostRuntime) -> Result<(), Fail> {
    let sent = peer(rt.alloc(), 1, &PEER)?;
    gets_the_piece(&rt, rt.alloc(), &sent)
}

const SECOND: [u8; 27] = [
    0, 0, 0, 2, 5, 64, 0, 0, 0, 1, 1, 0, 0, 0, 12, 7, 0, 0, 0, 1, 0, 0, 0, 0, 97, 98, 99,
];

/// A run of two pieces and of three streams, whose peers send these, with eight checkers.
fn run_of_three<'a, T: Threads + Wait + Sync>(
    rt: &T,
    alloc: Global,
    sent: [&'a [u8]; 3],
) -> Result<Run<'a>, Fail> {
    let [first, second, third] = sent;
    let streams = Vec::from_array(
        alloc,
        [
            recorded(alloc, first)?,
            recorded(alloc, second)?,
            recorded(alloc, third)?,
        ],
    )?;
    run(rt, alloc, two_pieces(alloc)?, streams, 8, &OpenGate)
}

/// Checks that two sessions ended well, that the third's peer was of another torrent, and that all is had.
fn two_of_three_ended(rt: &impl Abort, run: &Run<'_>) {
    assert!(rt; run.ends.len() == 3);
    assert!(rt; run.ends[0] == Ok(End { messages: 3 }));
    assert!(rt; run.ends[1] == Ok(End { messages: 3 }));
    assert!(rt; run.ends[2] == Err(SessionFault::WrongInfohash));
    assert!(rt; run.book.desk.picker().is_complete());
}

/// What was written to each stream.
fn all_written(alloc: Global, streams: Vec<Recorded<'_>>) -> Result<Vec<Vec<u8>>, Fail> {
    let mut written = Vec::new(alloc);
    for stream in streams {
        written.push(stream.writer.into_inner())?;
    }
    Ok(written)
}

/// Checks that each of the first two peers got its session's handshake and the request of its piece, and the third a handshake alone.
fn each_is_asked(rt: &impl Abort, written: &[Vec<u8>]) -> Result<(), Fail> {
    assert!(rt; written.len() == 3);
    for (written, (worker, piece)) in written.iter().zip([(b'0', 0), (b'1', 1)]) {
        assert!(rt; written.starts_with(hello(worker).as_slice()));
        assert!(rt; asks_for(written, piece));
    }
    same(written[2].len(), 68)
}

/// What a run of three streams wrote to each, once its ends are checked.
fn written_by_three<T: Threads + Wait + Abort + Sync>(
    rt: &T,
    alloc: Global,
    sent: [&[u8]; 3],
) -> Result<Vec<Vec<u8>>, Fail> {
    let run = run_of_three(rt, alloc, sent)?;
    two_of_three_ended(rt, &run);
    all_written(alloc, run.streams)
}

/// However the two threads run, each peer is asked for the piece that it has alone.
#[test]
fn streams_come_back_in_order(rt: HostRuntime) -> Result<(), Fail> {
    let first = peer(rt.alloc(), 1, &PEER)?;
    let second = peer(rt.alloc(), 1, &SECOND)?;
    let third = peer(rt.alloc(), 2, &PEER)?;
    let written = written_by_three(&rt, rt.alloc(), [&first, &second, &third])?;
    each_is_asked(&rt, &written)
}

/// It holds each worker's first turn until the other's first turn came.
#[derive(Drop)]
struct Meeting {
    first: AtomicBool,
    second: AtomicBool,
    gave_up: AtomicBool,
}

impl Gate for Meeting {
    fn enter(&self, worker: u32, turn: u64) {
        if turn > 0 {
            return;
        }
        let (mine, other) = if worker == 0 {
            (&self.first, &self.second)
        } else {
            (&self.second, &self.first)
        };
        mine.store(true, Ordering::SeqCst);
        for _ in 0..1_000_000 {
            if other.load(Ordering::SeqCst) {
                return;
            }
            thread::yield_now();
        }
        self.gave_up.store(true, Ordering::SeqCst);
    }
}

/// A gate where nobody came yet.
fn empty_gate() -> Meeting {
    Meeting {
        first: AtomicBool::new(false),
        second: AtomicBool::new(false),
        gave_up: AtomicBool::new(false),
    }
}

#[test]
fn two_sessions_run(rt: HostRuntime) -> Result<(), Fail> {
    let hello = peer(rt.alloc(), 1, &[])?;
    let gate = empty_gate();
    let torrent = two_pieces(rt.alloc())?;
    let run = run_of_two(&rt, rt.alloc(), torrent, [&hello, &hello], &gate)?;
    assert!(rt; gate.first.load(Ordering::SeqCst) && gate.second.load(Ordering::SeqCst));
    assert!(rt; !gate.gave_up.load(Ordering::SeqCst));
    both_ended(&rt, &run, 0, 0);
    same(run.book.desk.journal().len(), 4)
}

/// It counts the turns of two workers, and notes a turn that isn't the worker's next one.
#[derive(Drop)]
struct Counting {
    first: AtomicU64,
    second: AtomicU64,
    skipped: AtomicBool,
}

impl Gate for Counting {
    fn enter(&self, worker: u32, turn: u64) {
        let turns = if worker == 0 {
            &self.first
        } else {
            &self.second
        };
        if turns.load(Ordering::SeqCst) != turn {
            self.skipped.store(true, Ordering::SeqCst);
        }
        turns.store(turn.saturating_add(1), Ordering::SeqCst);
    }
}

/// A gate that nobody passed yet.
fn no_turns() -> Counting {
    Counting {
        first: AtomicU64::new(0),
        second: AtomicU64::new(0),
        skipped: AtomicBool::new(false),
    }
}

/// Checks how many turns each of the two workers had, one after the other from 0 on.
fn had_turns(rt: &impl Abort, gate: &Counting, first: u64, second: u64) -> Result<(), Fail> {
    assert!(rt; !gate.skipped.load(Ordering::SeqCst));
    same(gate.first.load(Ordering::SeqCst), first)?;
    same(gate.second.load(Ordering::SeqCst), second)
}

/// A session passes the gate before its handshakes, before each message and before its end: twice more often than there are messages.
#[test]
fn each_turn_passes_the_gate(rt: HostRuntime) -> Result<(), Fail> {
    let first = peer(rt.alloc(), 1, &PEER)?;
    let second = peer(rt.alloc(), 1, &[])?;
    let gate = no_turns();
    let torrent = two_pieces(rt.alloc())?;
    let run = run_of_two(&rt, rt.alloc(), torrent, [&first, &second], &gate)?;
    both_ended(&rt, &run, 3, 0);
    had_turns(&rt, &gate, 5, 2)
}

/// Both pieces, the first with wrong bytes.
const WRONG: [u8; 43] = [
    0, 0, 0, 2, 5, 192, 0, 0, 0, 1, 1, 0, 0, 0, 12, 7, 0, 0, 0, 0, 0, 0, 0, 0, 97, 98, 100, 0, 0,
    0, 12, 7, 0, 0, 0, 1, 0, 0, 0, 0, 97, 98, 99,
];

/// How many calls of a log were answered so.
fn answered(log: &[Mark], reply: Reply) -> usize {
    log.iter().filter(|mark| mark.reply == reply).count()
}

/// Checks that the two checkers, and nobody else, found one piece right and one wrong.
fn one_right_and_one_wrong(rt: &impl Abort, logs: &[Vec<Mark>]) -> Result<(), Fail> {
    assert!(rt; logs.len() == 4);
    for (reply, wanted) in [(Reply::Had, 1), (Reply::Failed, 1)] {
        same(answered(&logs[0], reply), 0)?;
        let first = answered(&logs[1], reply);
        let second = answered(&logs[2], reply);
        same(first.saturating_add(second), wanted)?;
    }
    same(logs[3].len(), 0)
}

/// Checks a run of a peer that sends this, where the first of two pieces is wrong.
fn first_is_wrong<T: Threads + Wait + Abort + Sync>(
    rt: &T,
    alloc: Global,
    sent: &[u8],
) -> Result<(), Fail> {
    let run = run_of_one(rt, alloc, two_pieces(alloc)?, sent, 2)?;
    ended_alone(rt, &run, 4);
    assert!(rt; !run.book.desk.had(0));
    one_right_and_one_wrong(rt, &run.book.logs)
}

#[test]
fn checkers_check(rt: HostRuntime) -> Result<(), Fail> {
    let sent = peer(rt.alloc(), 1, &WRONG)?;
    first_is_wrong(&rt, rt.alloc(), &sent)
}

/// The SHA-1 of a block of 16,384 zeros.
const ZEROS: [u8; 20] = [
    0x89, 0x72, 0x56, 0xb6, 0x70, 0x9e, 0x1a, 0x4d, 0xa9, 0xda, 0xba, 0x92, 0xb6, 0xbd, 0xe3, 0x9c,
    0xcf, 0xcc, 0xd8, 0xc1,
];

/// So many pieces of a block of zeros each, and what a peer sends that gives them one after the other.
fn zeros(alloc: Global, count: u8) -> Result<(Arc<Torrent>, Vec<u8>), Fail> {
    let mut hashes = Vec::new(alloc);
    let mut sent = Vec::new(alloc);
    for piece in 0..count {
        hashes.push(ZEROS)?;
        sent.extend_from_slice(&[0, 0, 0x40, 9, 7, 0, 0, 0, piece, 0, 0, 0, 0])?;
        sent.extend_from_slice(&[0; 16_384])?;
    }
    let total = u64::from(count) * 16_384;
    let torrent = Torrent::of_parts(16_384, total, hashes, [1; 20])?;
    Ok((Arc::new(alloc, torrent)?, peer(alloc, 1, sent.as_slice())?))
}

/// Checks that a session got 64 pieces, and that the checker, and nobody behind it, checked them all.
fn all_are_checked(rt: &impl Abort, logs: &[Vec<Mark>]) -> Result<(), Fail> {
    assert!(rt; logs.len() == 3);
    same(answered(&logs[0], Reply::Completed), 64)?;
    same(answered(&logs[1], Reply::Had), 64)?;
    same(logs[2].len(), 0)
}

/// Checks a run of one session that gets 64 pieces.
fn got_all(rt: &impl Abort, run: &Run<'_>) -> Result<(), Fail> {
    ended_alone(rt, run, 64);
    all_are_checked(rt, &run.book.logs)?;
    assert!(rt; run.book.desk.picker().is_complete());
    Ok(())
}

/// Pieces come faster than one checker hashes them, and are four times as many as the queue holds: the session waits, and none is lost.
#[test]
fn a_full_queue_loses_nothing(rt: HostRuntime) -> Result<(), Fail> {
    let (torrent, sent) = zeros(rt.alloc(), 64)?;
    let run = run_of_one(&rt, rt.alloc(), torrent, &sent, 1)?;
    got_all(&rt, &run)
}

/// The SHA-1 of `a`, by another program.
const A: [u8; 20] = [
    0x86, 0xf7, 0xe4, 0x37, 0xfa, 0xa5, 0xa7, 0xfc, 0xe1, 0x5d, 0x1d, 0xdc, 0xb9, 0xea, 0xea, 0xea,
    0x37, 0x76, 0x67, 0xb8,
];

/// What a peer sends that has all of three pieces and gives the first with wrong bytes.
const LIAR: [u8; 27] = [
    0, 0, 0, 2, 5, 224, 0, 0, 0, 1, 1, 0, 0, 0, 12, 7, 0, 0, 0, 0, 0, 0, 0, 0, 97, 98, 100,
];

/// What one sends that gives all of them.
const HONEST: [u8; 57] = [
    0, 0, 0, 2, 5, 224, 0, 0, 0, 1, 1, 0, 0, 0, 12, 7, 0, 0, 0, 0, 0, 0, 0, 0, 97, 98, 99, 0, 0, 0,
    12, 7, 0, 0, 0, 1, 0, 0, 0, 0, 97, 98, 99, 0, 0, 0, 10, 7, 0, 0, 0, 2, 0, 0, 0, 0, 97,
];

/// The pieces `abc`, `abc` and `a`.
fn three_pieces(alloc: Global) -> Result<Arc<Torrent>, Fail> {
    let hashes = Vec::from_array(alloc, [ABC, ABC, A])?;
    let torrent = Torrent::of_parts(3, 7, hashes, [1; 20])?;
    Ok(Arc::new(alloc, torrent)?)
}

/// Checks that the checker found so many pieces right.
fn checker_found(rt: &impl Abort, logs: &[Vec<Mark>], pieces: usize) -> Result<(), Fail> {
    assert!(rt; logs.len() == 4);
    same(answered(&logs[2], Reply::Had), pieces)
}

/// Checks a run of two peers that send these, of which the first is a liar.
fn first_may_be_lacking<T: Threads + Wait + Abort + Sync>(
    rt: &T,
    alloc: Global,
    sent: [&[u8]; 2],
) -> Result<(), Fail> {
    let run = run_of_two(rt, alloc, three_pieces(alloc)?, sent, &OpenGate)?;
    both_ended(rt, &run, 3, 5);
    assert!(rt; !run.short);
    let is_complete = run.book.desk.picker().is_complete();
    assert!(rt; is_complete || !run.book.desk.had(0));
    checker_found(rt, &run.book.logs, if is_complete { 3 } else { 2 })
}

/// Both sessions end well; the first piece is had unless the honest block came while the wrong one was held.
#[test]
fn a_liar_beside_an_honest_peer(rt: HostRuntime) -> Result<(), Fail> {
    let liar = peer(rt.alloc(), 1, &LIAR)?;
    let honest = peer(rt.alloc(), 1, &HONEST)?;
    first_may_be_lacking(&rt, rt.alloc(), [&liar, &honest])
}

/// Checks how a fault is told.
fn is_fault_told(alloc: Global, fault: SwarmFault, text: &str) -> Result<(), Fail> {
    let mut said = String::new(alloc);
    write!(said, "{fault}")?;
    same(said.as_str(), text)
}

#[test]
fn faults_of_a_run(rt: HostRuntime) -> Result<(), Fail> {
    const MISSING: GatherFault = GatherFault::PassMissing {
        held: 0,
        journal: 1,
    };
    const DIFFER: GatherFault = GatherFault::LogsDiffer {
        worker: 0,
        place: 0,
    };
    const OTHER: GatherFault = GatherFault::BoardDiffers { piece: 0 };
    const ROWS: &[(SwarmFault, &str)] = &[
        (SwarmFault::NoMemory, "memory"),
        (SwarmFault::Gather(MISSING), "gather fault 1"),
        (SwarmFault::Gather(DIFFER), "gather fault 2"),
        (SwarmFault::Gather(OTHER), "gather fault 3"),
        (SwarmFault::NoThread, "no thread"),
    ];
    for &(fault, text) in ROWS {
        is_fault_told(rt.alloc(), fault, text)?;
    }
    same(
        SwarmFault::from(GatherFault::NoMemory),
        SwarmFault::NoMemory,
    )
}
