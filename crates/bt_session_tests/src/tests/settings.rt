//! By which rules a run asks. Which pieces are wanted is shown by command lines (`bt_cli_tests`).

use super::made::{peer, recorded, torrent_of};
use super::serial::{journal, run_by};
use bt_expect::same;
use bt_meta::Torrent;
use bt_picker::{MOST_DEPTH, MOST_TOLD_DEPTH, MOST_WORKERS, Rules};
use std::alloc::Global;
use std::sync::Arc;
use std::test::Fail;

/// What a peer of one piece that has it sends after its handshake: its bitfield, and unchoke.
const ONE: [u8; 11] = [0, 0, 0, 2, 5, 128, 0, 0, 0, 1, 1];

/// The journal of a run with this peer alone, by rules that suit the torrent.
fn calls(alloc: Global, torrent: Arc<Torrent>, rules: Rules) -> Result<String, Fail> {
    let sent = peer(alloc, 1, &ONE)?;
    let mut streams = [recorded(alloc, &sent)?];
    let run = run_by(alloc, torrent, &mut streams, 0, None, rules)?;
    Ok(journal(alloc, &run)?)
}

/// One piece of so many blocks. No byte of it comes.
fn blocks(alloc: Global, count: u32) -> Result<Arc<Torrent>, Fail> {
    let length = count.saturating_mul(16384);
    torrent_of(alloc, length, u64::from(length), 1)
}

/// The replies to Next of the unchoke's turn: so many requests, and then this one.
fn asked(alloc: Global, depth: u32, count: u32) -> Result<(usize, String), Fail> {
    let rules = Rules {
        depth,
        random: 1,
        askers: MOST_WORKERS,
        deepest: MOST_DEPTH,
        open: 0,
        rush: MOST_TOLD_DEPTH,
        shown: false,
    };
    let said = calls(alloc, blocks(alloc, count)?, rules)?;
    let mut last = String::new(alloc);
    keep_last(said.as_str(), &mut last)?;
    Ok((said.as_str().matches("Request").count(), last))
}

/// Keeps the last reply to Next in a journal.
fn keep_last(said: &str, last: &mut String) -> Result<(), Fail> {
    for call in said.split("; ") {
        if let Some(reply) = call.strip_prefix("0 next = ") {
            last.clear();
            last.push_str(reply)?;
        }
    }
    Ok(())
}

#[test]
fn a_turn_fills_the_pipe(rt: HostRuntime) -> Result<(), Fail> {
    // The depth, the blocks, the requests, and the last reply to Next.
    const ROWS: &[(u32, u32, usize, &str)] = &[
        (1, 3, 1, "PipeFull"),
        (2, 3, 2, "PipeFull"),
        (5, 13, 5, "PipeFull"),
        (64, 13, 13, "Idle"),
        (64, 70, 64, "PipeFull"),
    ];
    for &(depth, count, requests, last) in ROWS {
        let asked = asked(rt.alloc(), depth, count)?;
        same(asked.0, requests)?;
        same(asked.1.as_str(), last)?;
    }
    Ok(())
}
