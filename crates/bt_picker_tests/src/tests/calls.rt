//! What a desk says and shows, call by call.

use super::abc;
use super::audits::finds;
use super::played::Played;
use super::same::same;
use super::steps::entries_of;
use bt_meta::Torrent;
use bt_picker::Reply::{Failed, Refused};
use bt_picker::*;
use std::alloc::{AllocError, Global};
use std::process::Abort;
use std::sync::Arc;
use std::test::*;

/// Plays the lines at a new desk.
pub fn plays(rt: &impl Abort, alloc: Global, lines: &'static str) -> Result<(), Fail> {
    let mut played = Played::new(rt, alloc)?;
    played.play(rt, alloc, lines)
}

#[test]
fn one_peer_to_the_last_piece(rt: HostRuntime) -> Result<(), Fail> {
    plays(
        &rt,
        rt.alloc(),
        "0 join = joined\n\
        0 bits e0 = noted yes\n\
        0 unchoke = quiet\n\
        0 next 5 = request 2 0 1\n\
        0 next 0 = request 0 0 3\n\
        0 next 0 = request 1 0 3\n\
        0 next 0 = idle\n\
        outstanding 0 = 3\n\
        0 block 2 0 a = completed\n\
        had 2 = no\n\
        check 0 2 = had\n\
        had 2 = yes\n\
        0 block 0 0 abc = completed\n\
        0 block 1 0 abc = completed\n\
        check 0 0 = had\n\
        check 0 1 = had\n\
        0 next 0 = nothing\n\
        entries = 14",
    )
}

/// A check of piece 0, which waits for it.
fn verdict(rt: &impl Abort, alloc: Global, played: &Played) -> Result<Arc<Verdict>, Fail> {
    Ok(played.check(alloc, 0)?.expect(rt, "piece 0 waits"))
}

#[test]
fn a_verdict_of_replaced_bytes(rt: HostRuntime) -> Result<(), Fail> {
    let mut played = Played::new(&rt, rt.alloc())?;
    two_verdicts(&rt, rt.alloc(), &mut played)
}

/// Wrong bytes of piece 0 come, and two verdicts of them are made.
fn two_verdicts(rt: &impl Abort, alloc: Global, played: &mut Played) -> Result<(), Fail> {
    let wrong = "0 join = joined\n\
        0 block 0 0 abd = completed";
    played.play(rt, alloc, wrong)?;
    let first = verdict(rt, alloc, played)?;
    let second = verdict(rt, alloc, played)?;
    settles_both(rt, alloc, played, first, second)
}

/// The first verdict fails the piece, and the second one comes when the right bytes are there.
fn settles_both(
    rt: &impl Abort,
    alloc: Global,
    played: &mut Played,
    first: Arc<Verdict>,
    second: Arc<Verdict>,
) -> Result<(), Fail> {
    fails_at_once(rt, alloc, played, first)?;
    is_stale(rt, alloc, played, second)
}

/// The verdict is the first to come: the piece fails, and waits no more.
fn fails_at_once(
    rt: &impl Abort,
    alloc: Global,
    played: &mut Played,
    verdict: Arc<Verdict>,
) -> Result<(), Fail> {
    played.settles(rt, 0, verdict, Failed)?;
    same(rt, waits(alloc, played)?, false, "whether piece 0 waits");
    Ok(())
}

/// Whether there is a check of piece 0.
fn waits(alloc: Global, played: &Played) -> Result<bool, Fail> {
    Ok(played.check(alloc, 0)?.is_some())
}

/// The verdict comes when the right bytes are there: it is of none of them.
fn is_stale(
    rt: &impl Abort,
    alloc: Global,
    played: &mut Played,
    verdict: Arc<Verdict>,
) -> Result<(), Fail> {
    played.play(rt, alloc, "0 block 0 0 abc = completed")?;
    played.settles(rt, 0, verdict, Refused(Reason::Stale))?;
    played.play(rt, alloc, "check 0 0 = had")
}

/// A check that can't be made leaves no entry.
#[test]
fn refusals(rt: HostRuntime) -> Result<(), Fail> {
    plays(
        &rt,
        rt.alloc(),
        "0 join = joined\n\
        0 no-bits-of 4 = refused WrongCount\n\
        0 settle 9 a = refused NoSuchPiece\n\
        0 block 2 0 a = completed\n\
        0 settle 2 a = had\n\
        0 settle 2 a = refused NotWaiting\n\
        check 0 3 = refused NoSuchPiece\n\
        check 0 0 = refused NotWaiting\n\
        entries = 6",
    )
}

#[test]
fn a_peer_that_left(rt: HostRuntime) -> Result<(), Fail> {
    plays(
        &rt,
        rt.alloc(),
        "0 join = joined\n\
        0 bits e0 = noted yes\n\
        1 join = joined\n\
        1 bits 80 = noted yes\n\
        availability 0 = 2\n\
        1 leave = quiet\n\
        availability 0 = 1",
    )
}

/// Worker 1 has no peer, and may say what is wanted all the same.
#[test]
fn one_wanted_piece_and_then_all(rt: HostRuntime) -> Result<(), Fail> {
    plays(
        &rt,
        rt.alloc(),
        "wanted = 0 1 2\n\
        1 want 40 = quiet\n\
        wanted = 1\n\
        0 join = joined\n\
        0 bits e0 = noted yes\n\
        0 unchoke = quiet\n\
        0 next 0 = request 1 0 3\n\
        0 next 0 = idle\n\
        0 block 1 0 abc = completed\n\
        has-wanted = no\n\
        check 0 1 = had\n\
        has-wanted = yes\n\
        complete = no\n\
        0 next 0 = nothing\n\
        0 want e0 = quiet\n\
        0 want-none-of 2 = refused WrongCount\n\
        has-wanted = no",
    )
}

#[test]
fn finish_settles_what_waits(rt: HostRuntime) -> Result<(), Fail> {
    plays(
        &rt,
        rt.alloc(),
        "0 join = joined\n\
        0 block 2 0 a = completed\n\
        0 block 0 0 abd = completed\n\
        finish 0 = done\n\
        had 2 = yes\n\
        had 0 = no\n\
        entries = 5",
    )
}

#[test]
fn an_audit_of_no_call(rt: HostRuntime) -> Result<(), Fail> {
    let torrent = abc::torrent(&rt, rt.alloc())?;
    finds_no_call(&rt, rt.alloc(), &torrent)
}

/// Where there is no entry, none is wrong; the one worker is the only one who may call.
fn finds_no_call(rt: &impl Abort, alloc: Global, torrent: &Torrent) -> Result<(), Fail> {
    finds_among(rt, alloc, torrent, 1, &[], None)?;
    let other = entries_of(rt, alloc, 3, "1 join = joined", 1)?;
    finds_among(rt, alloc, torrent, 1, &other, Some(0))
}

/// Checks that the first entry that isn't allowed to so many workers is this.
fn finds_among(
    rt: &impl Abort,
    alloc: Global,
    torrent: &Torrent,
    workers: u32,
    entries: &[Entry],
    wanted: Option<usize>,
) -> Result<(), Fail> {
    let rules = Rules::usual();
    finds(rt, alloc, torrent, workers, rules, entries, wanted)
}

/// Peers of this many workers join, and each has piece 0.
fn all_show_a_piece(alloc: Global, workers: u32) -> Result<Vec<Entry>, Fail> {
    let mut entries = Vec::new(alloc);
    for worker in 0..workers {
        add(&mut entries, worker, Call::Join, Reply::Joined)?;
        add(&mut entries, worker, Call::Have(0), Reply::Noted(true))?;
    }
    Ok(entries)
}

fn add(entries: &mut Vec<Entry>, worker: u32, call: Call, reply: Reply) -> Result<(), AllocError> {
    entries.push(Entry {
        worker,
        call,
        reply,
    })?;
    Ok(())
}

#[test]
fn an_audit_of_more_workers_than_a_desk_has(rt: HostRuntime) -> Result<(), Fail> {
    let torrent = abc::torrent(&rt, rt.alloc())?;
    finds_many_workers(&rt, rt.alloc(), &torrent)
}

/// The last worker of so many may call, and of fewer not.
fn finds_many_workers(rt: &impl Abort, alloc: Global, torrent: &Torrent) -> Result<(), Fail> {
    let entries = all_show_a_piece(alloc, 1030)?;
    finds_among(rt, alloc, torrent, 1030, &entries, None)?;
    finds_among(rt, alloc, torrent, 1029, &entries, Some(2058))
}
