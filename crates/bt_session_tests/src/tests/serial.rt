//! Several recorded peers at one desk, in one thread.

use super::made::{PEER, RULES, Recorded, had_memory, peer, recorded, torrent, two_pieces};
use super::whole::tell;
use bt_expect::same;
use bt_meta::{Bitfield, Torrent};
use bt_peer::{End, MOST_STREAMS, SerialRun, SessionFault, serial};
use bt_picker::{Call, Rules};
use std::alloc::{AllocError, Global};
use std::fmt::Write;
use std::process::Abort;
use std::sync::Arc;
use std::test::Fail;

/// What a peer of two pieces sends that has one of them, after its handshake.
const FIRST: [u8; 27] = PEER;

const SECOND: [u8; 27] = [
    0, 0, 0, 2, 5, 64, 0, 0, 0, 1, 1, 0, 0, 0, 12, 7, 0, 0, 0, 1, 0, 0, 0, 0, 97, 98, 99,
];

/// A run over these streams. It fails where there are none or too many, or where rules or wanted pieces don't suit the torrent.
pub fn run_by(
    alloc: Global,
    torrent: Arc<Torrent>,
    streams: &mut [Recorded<'_>],
    seed: u64,
    want: Option<Bitfield>,
    rules: Rules,
) -> Result<SerialRun, Fail> {
    let pieces = torrent.piece_count();
    if streams.is_empty() || streams.len() > MOST_STREAMS {
        return Err(Fail::from("too few streams, or too many"));
    }
    if rules.depth < 1 || rules.depth > 64 || rules.random > pieces {
        return Err(Fail::from("rules that don't suit the torrent"));
    }
    if want.as_ref().is_some_and(|flags| flags.count() != pieces) {
        return Err(Fail::from("flags of other pieces"));
    }
    let run = serial(alloc, torrent, streams, seed, want, rules)?;
    had_memory(run.short, &run.ends)?;
    Ok(run)
}

/// The journal: the worker, the call and the reply of each entry.
pub fn journal(alloc: Global, run: &SerialRun) -> Result<String, AllocError> {
    let mut said = String::new(alloc);
    for entry in run.desk.journal() {
        let worker = entry.worker;
        write!(said, "{worker} ")?;
        tell(entry, &mut said)?;
    }
    Ok(said)
}

/// What came of a run.
#[derive(Drop)]
struct Outcome {
    ends: Vec<Result<End, SessionFault>>,
    journal: String,
    /// What was written to each stream.
    written: Vec<Vec<u8>>,
    is_complete: bool,
    short: bool,
}

/// A run by the usual rules of these tests over streams in which these bytes are sent. Without `want` all pieces are wanted.
fn told(
    alloc: Global,
    torrent: Arc<Torrent>,
    sent: &[Vec<u8>],
    seed: u64,
    want: Option<Bitfield>,
) -> Result<Outcome, Fail> {
    let mut streams = streams_of(alloc, sent)?;
    let run = run_by(alloc, torrent, &mut streams, seed, want, RULES)?;
    outcome_of(alloc, run, streams)
}

/// What came of this run over these streams.
fn outcome_of(alloc: Global, run: SerialRun, streams: Vec<Recorded<'_>>) -> Result<Outcome, Fail> {
    let written = written(alloc, streams)?;
    let journal = journal(alloc, &run)?;
    let SerialRun { ends, desk, short } = run;
    Ok(Outcome {
        ends,
        journal,
        written,
        is_complete: desk.picker().is_complete(),
        short,
    })
}

/// A stream for each of these, in which it is sent.
fn streams_of(alloc: Global, sent: &[Vec<u8>]) -> Result<Vec<Recorded<'_>>, Fail> {
    let mut streams = Vec::new(alloc);
    for bytes in sent {
        streams.push(recorded(alloc, bytes)?)?;
    }
    Ok(streams)
}

fn written(alloc: Global, streams: Vec<Recorded<'_>>) -> Result<Vec<Vec<u8>>, Fail> {
    let mut all = Vec::new(alloc);
    for stream in streams {
        all.push(stream.writer.into_inner())?;
    }
    Ok(all)
}

/// What the session of the worker with this digit writes: its handshake, then these messages.
fn wanted(alloc: Global, worker: u8, messages: &[u8]) -> Result<Vec<u8>, Fail> {
    let mut bytes = Vec::new(alloc);
    add_hello(&mut bytes, worker)?;
    bytes.extend_from_slice(messages)?;
    Ok(bytes)
}

/// Adds the handshake of that worker's session.
fn add_hello(bytes: &mut Vec<u8>, worker: u8) -> Result<(), Fail> {
    bytes.extend_from_slice(b"\x13BitTorrent protocol")?;
    bytes.extend_from_slice(&[0; 8])?;
    bytes.extend_from_slice(&[1; 20])?;
    bytes.extend_from_slice(b"-PP0001-00000000000")?;
    bytes.push(worker)?;
    Ok(())
}

const INTERESTED: [u8; 5] = [0, 0, 0, 1, 2];

const NOT_INTERESTED: [u8; 5] = [0, 0, 0, 1, 3];

/// What a session says that asks for a piece, and learns of these.
fn said(alloc: Global, piece: u8, finished: &[u8]) -> Result<Vec<u8>, Fail> {
    let mut bytes = Vec::from_slice(alloc, &INTERESTED)?;
    bytes.extend_from_slice(&[0, 0, 0, 13, 6, 0, 0, 0, piece, 0, 0, 0, 0, 0, 0, 0, 3])?;
    for piece in finished {
        bytes.extend_from_slice(&[0, 0, 0, 5, 4, 0, 0, 0, *piece])?;
    }
    bytes.extend_from_slice(&NOT_INTERESTED)?;
    Ok(bytes)
}

/// A block that came though its piece isn't wanted is kept, and the piece checked; the peer is told of it, and never of interest.
#[test]
fn no_piece_is_wanted(rt: HostRuntime) -> Result<(), Fail> {
    let sent = [peer(rt.alloc(), 1, &PEER)?];
    let want = Bitfield::empty(rt.alloc(), 1)?;
    let told = told(rt.alloc(), torrent(rt.alloc())?, &sent, 0, Some(want))?;
    has_no_interest(&rt, &told)?;
    writes_no_interest(&rt, rt.alloc(), &told)
}

/// The session tells the peer of the piece alone.
fn writes_no_interest(rt: &impl Abort, alloc: Global, told: &Outcome) -> Result<(), Fail> {
    let all = [wanted(alloc, b'0', &[0, 0, 0, 5, 4, 0, 0, 0, 0])?];
    assert!(rt; told.written.as_slice() == all.as_slice());
    Ok(())
}

/// The one piece came, and the journal has why.
fn has_no_interest(rt: &impl Abort, told: &Outcome) -> Result<(), Fail> {
    assert!(rt; told.ends.as_slice() == [Ok(End { messages: 3 })].as_slice());
    assert!(rt; told.is_complete && !told.short);
    same(
        told.journal.as_str(),
        "1 want = Quiet; 0 join = Joined; 0 bits = Noted(false); 0 next = Choked; 0 unchoke = Quiet; \
        0 next = NothingLeft; 0 block 0 0 = Completed; 0 settle = Had; 0 next = NothingLeft; 0 leave = Quiet; ",
    )
}

/// What two peers send, each of which has one of two pieces.
fn sent_by_two(alloc: Global) -> Result<[Vec<u8>; 2], Fail> {
    Ok([peer(alloc, 1, &FIRST)?, peer(alloc, 1, &SECOND)?])
}

#[test]
fn two_streams_take_turns(rt: HostRuntime) -> Result<(), Fail> {
    let sent = sent_by_two(rt.alloc())?;
    let told = told(rt.alloc(), two_pieces(rt.alloc())?, &sent, 5, None)?;
    has_calls_in_turn(&rt, &told)?;
    writes_of_both(&rt, rt.alloc(), &told)
}

/// Both sessions end well, and the journal has their calls in turn.
fn has_calls_in_turn(rt: &impl Abort, told: &Outcome) -> Result<(), Fail> {
    let ends = [Ok(End { messages: 3 }), Ok(End { messages: 3 })];
    assert!(rt; told.ends.as_slice() == ends.as_slice());
    same(
        told.journal.as_str(),
        "0 join = Joined; 1 join = Joined; \
        0 bits = Noted(true); 0 next = Choked; 1 bits = Noted(true); 1 next = Choked; \
        0 unchoke = Quiet; 0 next = Request(Block { piece: 0, begin: 0, len: 3 }); 0 next = Idle; \
        1 unchoke = Quiet; 1 next = Request(Block { piece: 1, begin: 0, len: 3 }); 1 next = Idle; \
        0 block 0 0 = Completed; 0 settle = Had; 0 next = NothingLeft; \
        1 block 1 0 = Completed; 1 settle = Had; 1 next = NothingLeft; 0 leave = Quiet; 1 leave = Quiet; ",
    )
}

/// Each session asks for its piece. The first one ends before it hears of the second piece.
fn writes_of_both(rt: &impl Abort, alloc: Global, told: &Outcome) -> Result<(), Fail> {
    let first = asks_for(alloc, b'0', 0, &[0])?;
    let second = asks_for(alloc, b'1', 1, &[0, 1])?;
    let all = [first, second];
    assert!(rt; told.written.as_slice() == all.as_slice());
    Ok(())
}

/// What the session of the worker with this digit writes that asks for a piece, and learns of these.
fn asks_for(alloc: Global, worker: u8, piece: u8, finished: &[u8]) -> Result<Vec<u8>, Fail> {
    let said = said(alloc, piece, finished)?;
    wanted(alloc, worker, &said)
}

#[test]
fn numbers_come_from_the_seed(rt: HostRuntime) -> Result<(), Fail> {
    let sent = sent_by_two(rt.alloc())?;
    let run = run_of_two(rt.alloc(), &sent)?;
    asks_by(&rt, &run, 0, &FIRST_NUMBERS)?;
    asks_by(&rt, &run, 1, &SECOND_NUMBERS)
}

/// The first numbers of the generators 0 and 1 of the seed 5: PCG XSH RR 64/32 (O'Neill 2014), two of its outputs a number, the first one
/// below, by another program.
const FIRST_NUMBERS: [u64; 4] = [
    0xfb55_ab28_0f5d_eba9,
    0x7c7a_ff85_5980_a57f,
    0xf2fe_585d_d5e4_88e8,
    0xfaaa_ee30_9485_b6dc,
];

const SECOND_NUMBERS: [u64; 4] = [
    0xb5bf_2b36_f239_3151,
    0x6f62_eda3_52a2_08df,
    0x6dc9_1f1a_9499_20e5,
    0x9001_2453_e769_2c9b,
];

/// A run over two streams in which these bytes are sent.
fn run_of_two(alloc: Global, sent: &[Vec<u8>]) -> Result<SerialRun, Fail> {
    let mut streams = streams_of(alloc, sent)?;
    run_by(alloc, two_pieces(alloc)?, &mut streams, 5, None, RULES)
}

/// The worker asks with these numbers, and with no others.
fn asks_by(rt: &impl Abort, run: &SerialRun, worker: u32, numbers: &[u64]) -> Result<(), Fail> {
    let mut numbers = numbers.iter();
    for entry in run.desk.journal() {
        if entry.worker == worker {
            if let Call::Next(word) = &entry.call {
                assert!(rt; numbers.next() == Some(word));
            }
        }
    }
    assert!(rt; numbers.next().is_none());
    Ok(())
}
