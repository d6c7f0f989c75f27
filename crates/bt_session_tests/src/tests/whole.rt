//! A session by itself.

ghost use Rattle.std.specs.Prelude.{◌≡◌, ◌<◌, ◌≤◌};
ghost use Rattle.bt_meta.specs.Layout.{piece_count};

use super::made::{PEER, RULES, had_memory, output, peer, torrent};
use bt_expect::same;
use bt_meta::{Bitfield, FromRead, Sink, Source, Torrent};
use bt_peer::whole::session;
use bt_peer::{DeskPlace, End, SessionFault};
use bt_picker::{Call, Desk, Entry};
use rand_pcg::Lcg64Xsh32;
use std::alloc::{AllocError, Global};
use std::fmt::Write;
use std::io::Cursor;
use std::process::Abort;
use std::sync::Arc;
use std::test::Fail;

/// The word of a call.
fn word(call: &Call) -> &'static str {
    match call {
        Call::Join => "join",
        Call::Bits(_) => "bits",
        Call::Have(_) => "have",
        Call::Choke => "choke",
        Call::Unchoke => "unchoke",
        Call::Next(_) => "next",
        Call::Arrived { .. } => "block",
        Call::Settle(_) => "settle",
        Call::Leave => "leave",
        Call::Want(_) => "want",
        Call::Haves(_) => "haves",
        Call::Depth(_) => "depth",
        Call::Release { .. } => "release",
        Call::Level { .. } => "level",
        Call::Levels(_) => "levels",
        Call::InOrder(_) => "inorder",
        Call::Reach(_) => "reach",
        Call::InOrderFrom(_) => "inorderfrom",
        Call::Lack(_) => "lack",
        Call::Late { .. } => "late",
        Call::Alone(_) => "alone",
    }
}

/// An entry by its call and its reply, without the numbers of Next, bytes and bitfields.
pub fn tell(entry: &Entry, said: &mut String) -> Result<(), AllocError> {
    said.push_str(word(&entry.call))?;
    match &entry.call {
        Call::Have(piece) => write!(said, " {piece}")?,
        Call::Arrived { piece, begin, .. }
        | Call::Release { piece, begin }
        | Call::Late { piece, begin } => {
            write!(said, " {piece} {begin}")?;
        }
        Call::Depth(depth) => write!(said, " {depth}")?,
        Call::Level { piece, level } => write!(said, " {piece} {level}")?,
        _ => {}
    }
    let reply = entry.reply;
    write!(said, " = {reply:?}; ")
}

/// What came of it, the journal, and what was written.
fn told(
    alloc: Global,
    stream: &[u8],
) -> Result<(Result<End, SessionFault>, String, Vec<u8>), Fail> {
    told_of(alloc, &mut FromRead::new(Cursor::new(stream)))
}

/// The same of a source, which is read to its end.
pub fn told_of<R: Source>(
    alloc: Global,
    reader: &mut R,
) -> Result<(Result<End, SessionFault>, String, Vec<u8>), Fail> {
    let mut writer = output(alloc)?;
    let (end, said) = played(alloc, 4, reader, &mut writer)?;
    Ok((end, said, writer.into_inner()))
}

/// How a session of the last of so many workers with these devices ended, and its calls.
pub fn played<R: Source, W: Sink>(
    alloc: Global,
    workers: u32,
    reader: &mut R,
    writer: &mut W,
) -> Result<(Result<End, SessionFault>, String), Fail>
    requires { (1 ≤ workers) × (workers ≤ 4) }
{
    let torrent = torrent(alloc)?;
    let mut desk = Desk::new(alloc, torrent.clone()?, workers, RULES)?;
    let end = play(alloc, torrent, &mut desk, workers - 1, reader, writer)?;
    let said = calls_of(alloc, &desk)?;
    Ok((end, said))
}

/// How the worker's session ended, at a desk of this torrent, unless memory was lacking for a call or for something else.
fn play<R: Source, W: Sink>(
    alloc: Global,
    torrent: Arc<Torrent>,
    desk: &mut Desk,
    worker: u32,
    reader: &mut R,
    writer: &mut W,
) -> Result<Result<End, SessionFault>, AllocError>
    requires worker { worker < desk.old.setting.workers }
    requires pieces { piece_count desk.old.setting.torrent ≡ piece_count torrent.value.layout }
{
    let mut told = Bitfield::empty(alloc, torrent.piece_count())?;
    let mut rng = Lcg64Xsh32::new(0, u64::from(worker));
    let mut place = DeskPlace::new(desk, worker, &mut told);
    let end = session(
        alloc, torrent, worker, reader, writer, &mut place, &mut rng, 5,
    );
    had_memory(place.lacked_memory(), &[end])?;
    Ok(end)
}

/// The desk's journal, entry by entry.
pub fn calls_of(alloc: Global, desk: &Desk) -> Result<String, Fail> {
    let mut said = String::new(alloc);
    for entry in desk.journal() {
        tell(entry, &mut said)?;
    }
    Ok(said)
}

/// The calls of a whole session with that peer.
pub const WHOLE: &str = "join = Joined; bits = Noted(true); next = Choked; unchoke = Quiet; \
    next = Request(Block { piece: 0, begin: 0, len: 3 }); next = Idle; \
    block 0 0 = Completed; settle = Had; next = NothingLeft; leave = Quiet; ";

#[test]
fn a_whole_session(rt: HostRuntime) -> Result<(), Fail> {
    let sent = peer(rt.alloc(), 1, &PEER)?;
    is_whole(&rt, rt.alloc(), &sent)
}

/// The session of this stream is a whole one.
fn is_whole(rt: &impl Abort, alloc: Global, sent: &[u8]) -> Result<(), Fail> {
    let (end, calls, written) = told(alloc, sent)?;
    assert!(rt; end == Ok(End { messages: 3 }));
    same(calls.as_str(), WHOLE)?;
    writes_all(alloc, &written)
}

/// These bytes are what a whole session with that peer writes.
fn writes_all(alloc: Global, written: &[u8]) -> Result<(), Fail> {
    let wanted = whole_written(alloc, b'3')?;
    same(written, wanted.as_slice())
}

/// What a whole session of the worker with this digit writes to that peer (BEP 3).
pub fn whole_written(alloc: Global, worker: u8) -> Result<Vec<u8>, Fail> {
    let mut wanted = Vec::new(alloc);
    wanted.extend_from_slice(b"\x13BitTorrent protocol")?;
    wanted.extend_from_slice(&[0; 8])?;
    wanted.extend_from_slice(&[1; 20])?;
    wanted.extend_from_slice(b"-PP0001-00000000000")?;
    wanted.push(worker)?;
    // interested, request, have, not interested
    wanted.extend_from_slice(&[
        0, 0, 0, 1, 2, 0, 0, 0, 13, 6, 0, 0, 0, 0, 0, 0, 0, 0, 0, 0, 0, 3, 0, 0, 0, 5, 4, 0, 0, 0,
        0, 0, 0, 0, 1, 3,
    ])?;
    Ok(wanted)
}
