//! Journals that are judged.

use super::examples::{COUNT, EXAMPLES};
use super::same::same;
use super::steps::{Example, add_entry, cut, entries_of, next_number, number, torrent_of};
use bt_meta::Torrent;
use bt_picker::*;
use std::alloc::Global;
use std::process::Abort;
use std::test::*;

/// The place of the first entry that isn't allowed, and none in a journal. The rules are right ones for the torrent.
fn first_wrong(
    rt: &impl Abort,
    alloc: Global,
    torrent: &Torrent,
    workers: u32,
    rules: Rules,
    entries: &[Entry],
) -> Result<Option<usize>, AuditFault> {
    let pieces = torrent.piece_count();
    assert!(rt; 1 <= rules.depth && rules.depth <= 64 && rules.random <= pieces);
    match audit(alloc, torrent, workers, rules, entries) {
        Ok(()) => Ok(None),
        Err(AuditFault::NotAllowed(place)) => Ok(Some(place)),
        Err(AuditFault::NoMemory) => Err(AuditFault::NoMemory),
    }
}

/// Checks that the first entry that isn't allowed is this one, or that all are.
pub fn finds(
    rt: &impl Abort,
    alloc: Global,
    torrent: &Torrent,
    workers: u32,
    rules: Rules,
    entries: &[Entry],
    wanted: Option<usize>,
) -> Result<(), Fail> {
    let found = first_wrong(rt, alloc, torrent, workers, rules, entries)?;
    same(rt, found, wanted, "the first wrong entry");
    Ok(())
}

/// Checks that the example is a journal, and that none of its wrong entries is one in its place.
fn judge(rt: &impl Abort, alloc: Global, text: &'static str) -> Result<(), Fail> {
    let example = &Example::of(rt, text);
    let (workers, rules) = terms_of(rt, example.terms);
    let torrent = torrent_of(rt, alloc, example.torrent)?;
    judge_by(rt, alloc, &torrent, workers, rules, example)
}

/// The number of workers and the rules that the terms spell.
fn terms_of(rt: &impl Abort, terms: &str) -> (u32, Rules) {
    let mut terms = terms.split(' ');
    let workers = next_number(rt, &mut terms);
    let rules = Rules {
        depth: next_number(rt, &mut terms),
        random: next_number(rt, &mut terms),
        askers: next_number(rt, &mut terms),
        deepest: next_number(rt, &mut terms),
        open: next_number(rt, &mut terms),
        rush: next_number(rt, &mut terms),
        shown: next_number(rt, &mut terms) == 1,
    };
    (workers, rules)
}

/// The same, with the torrent and by the rules of the example.
fn judge_by(
    rt: &impl Abort,
    alloc: Global,
    torrent: &Torrent,
    workers: u32,
    rules: Rules,
    example: &Example,
) -> Result<(), Fail> {
    judge_right(rt, alloc, torrent, workers, rules, example.lines)?;
    for wrong in example.wrong.lines() {
        judge_wrong(rt, alloc, torrent, workers, rules, example.lines, wrong)?;
    }
    Ok(())
}

/// Checks that the lines are a journal.
fn judge_right(
    rt: &impl Abort,
    alloc: Global,
    torrent: &Torrent,
    workers: u32,
    rules: Rules,
    lines: &'static str,
) -> Result<(), Fail> {
    let entries = entries_of(rt, alloc, torrent.piece_count(), lines, usize::MAX)?;
    finds(rt, alloc, torrent, workers, rules, &entries, None)
}

/// Checks that the wrong entry is none behind as many of the lines as its text says.
fn judge_wrong(
    rt: &impl Abort,
    alloc: Global,
    torrent: &Torrent,
    workers: u32,
    rules: Rules,
    lines: &'static str,
    wrong: &'static str,
) -> Result<(), Fail> {
    let (before, line) = cut(rt, wrong, " ");
    let before = number(rt, before) as usize;
    let pieces = torrent.piece_count();
    let entries = entries_with(rt, alloc, pieces, lines, before, line)?;
    finds(rt, alloc, torrent, workers, rules, &entries, Some(before))
}

/// The first so many lines as entries, and then the one of this line.
fn entries_with(
    rt: &impl Abort,
    alloc: Global,
    pieces: u32,
    lines: &'static str,
    before: usize,
    line: &'static str,
) -> Result<Vec<Entry>, Fail> {
    let mut entries = entries_of(rt, alloc, pieces, lines, before)?;
    add_entry(rt, alloc, pieces, line, &mut entries)?;
    Ok(entries)
}

/// Judges each example of the text. How many there are.
fn judge_all(rt: &impl Abort, alloc: Global, examples: &'static str) -> Result<u32, Fail> {
    let mut count = 0_u32;
    for example in examples.split("\n\n") {
        judge(rt, alloc, example)?;
        count = count.saturating_add(1);
    }
    Ok(count)
}

#[test]
fn worked_examples(rt: HostRuntime) -> Result<(), Fail> {
    let count = judge_all(&rt, rt.alloc(), EXAMPLES)?;
    same(&rt, count, COUNT, "examples");
    Ok(())
}
