//! Runs in threads over memory. Their reports and statuses are those of whole command lines too, in `bt_cli_tests`.

ghost use Rattle.std.specs.Prelude.{◌≤◌, length};

use super::scripts::{had_memory, page};
use super::serial::{INFOHASH_OF_THREE, Recorded, THREE_PIECES, recorded, stream, usual};
use bt_cli::*;
use bt_expect::same;
use bt_meta::ToWrite;
use std::process::Abort;
use std::sync::Wait;
use std::test::*;
use std::thread::Threads;

/// What the command comes to: its exit status, its output, what was told, and how many logs its book has.
#[derive(Drop)]
struct Done {
    status: u8,
    out: Vec<u8>,
    err: Vec<u8>,
    logs: Option<usize>,
}

/// The command by these options. The tests call `run_threads` here alone, so that its contract is read once.
fn command<T: Threads + Wait + AllocGlobal + Sync>(
    rt: &T,
    streams: Vec<Recorded<'_>>,
    options: &Options,
) -> Result<Done, Fail>
    requires streams { (1 ≤ length streams.items) × (length streams.items ≤ 64) }
    requires depth { (1 ≤ options.now.rules.depth) × (options.now.rules.depth ≤ MOST_DEPTH) }
    requires checkers { (1 ≤ options.now.checkers) × (options.now.checkers ≤ 8) }
{
    let mut out = ToWrite::new(page(rt.alloc())?);
    let mut err = page(rt.alloc())?;
    let (status, book) = run_threads(rt, THREE_PIECES, streams, options, &mut out, &mut err);
    Ok(Done {
        status: had_memory(status)?,
        out: out.into_inner(),
        err,
        logs: book.map(|book| book.logs.len()),
    })
}

/// A run of two peers that send these, by options that want no piece of the torrent's.
fn run_of_two<T: Threads + Wait + AllocGlobal + Sync>(
    rt: &T,
    first: &[u8],
    second: &[u8],
) -> Result<Done, Fail> {
    let mut options = usual();
    options.want = Some(Vec::from_slice(rt.alloc(), b"\0\0")?);
    let streams = Vec::from_array(
        rt.alloc(),
        [recorded(rt.alloc(), first)?, recorded(rt.alloc(), second)?],
    )?;
    command(rt, streams, &options)
}

/// Checks a run that has all three pieces.
fn has_three_pieces(rt: &impl Abort, done: &Done) -> Result<(), Fail> {
    same(
        done.out.as_slice(),
        b"stream 0 end\nstream 1 end\npieces 3\nhad 3\nmissing -\ncomplete yes\njournal ok\n".as_slice(),
    )?;
    same(done.status, 0)?;
    assert!(rt; done.err.is_empty());
    same(done.logs, Some(4))
}

/// The first peer has and gives the first two pieces, the second the last. The wanted pieces are none of the torrent's, but nobody reads
/// them.
#[test]
fn three_pieces_of_two_peers(rt: HostRuntime) -> Result<(), Fail> {
    let first = stream(
        rt.alloc(),
        INFOHASH_OF_THREE,
        b"\0\0\0\x02\x05\xc0\0\0\0\x01\x01\0\0\0\x0c\x07\0\0\0\0\0\0\0\0abc\0\0\0\x0c\x07\0\0\0\x01\0\0\0\0abc",
    )?;
    let second = stream(
        rt.alloc(),
        INFOHASH_OF_THREE,
        b"\0\0\0\x02\x05\x20\0\0\0\x01\x01\0\0\0\x0a\x07\0\0\0\x02\0\0\0\0a",
    )?;
    let done = run_of_two(&rt, &first, &second)?;
    has_three_pieces(&rt, &done)
}

/// How many requests stand in what was written to a peer.
fn requests_in(written: &[u8]) -> usize {
    let head = b"\0\0\0\x0d\x06".as_slice();
    written.windows(5).filter(|bytes| *bytes == head).count()
}

/// What a run to this depth writes to each peer, of which none gives a piece.
fn played<'a, T: Threads + Wait + AllocGlobal + Sync>(
    rt: &T,
    streams: Vec<Recorded<'a>>,
    depth: u32,
) -> Result<Vec<Recorded<'a>>, Fail>
    requires streams { (1 ≤ length streams.items) × (length streams.items ≤ 64) }
    requires depth { (1 ≤ depth) × (depth ≤ MOST_DEPTH) }
{
    let mut options = usual();
    options.rules.depth = depth;
    let mut out = ToWrite::new(page(rt.alloc())?);
    let run = play_threads(rt, THREE_PIECES, streams, &options, &mut out)?;
    same(had_memory(run.status())?, 1)?;
    Ok(run.streams)
}

/// How many requests a run to this depth makes of a peer that has three pieces, lets itself be asked, and gives none.
fn asked_at_once<T: Threads + Wait + AllocGlobal + Sync>(rt: &T, depth: u32) -> Result<usize, Fail>
    requires { (1 ≤ depth) × (depth ≤ MOST_DEPTH) }
{
    let frames = b"\0\0\0\x02\x05\xe0\0\0\0\x01\x01";
    let sent = stream(rt.alloc(), INFOHASH_OF_THREE, frames)?;
    let streams = vec![in rt.alloc(); recorded(rt.alloc(), &sent)?]?;
    let mut asked: usize = 0;
    for stream in played(rt, streams, depth)? {
        asked = asked.saturating_add(requests_in(&stream.writer.into_inner()));
    }
    Ok(asked)
}

/// With three pieces of a block each, two requests are in flight at depth 2, and at depth 5 as many as there are blocks.
#[test]
fn a_run_asks_to_its_depth(rt: HostRuntime) -> Result<(), Fail> {
    same(asked_at_once(&rt, 1)?, 1)?;
    same(asked_at_once(&rt, 2)?, 2)?;
    same(asked_at_once(&rt, 5)?, 3)
}
