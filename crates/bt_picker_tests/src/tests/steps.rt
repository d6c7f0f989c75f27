//! Histories as texts: a line for each call, `WORKER CALL = REPLY`, as in the program's scripts. Bytes are spelled as text; `whole` is a
//! block of 16 KiB; `settle PIECE BYTES` is the verdict of these bytes; `levels` has a digit for each piece; a reason is told by its name.

use super::abc::{A, ABC, MILLION};
use bt_meta::{Bitfield, Block, Torrent};
use bt_picker::*;
use bytes::Bytes;
use std::alloc::{AllocError, Global};
use std::process::Abort;
use std::str::Split;
use std::sync::Arc;
use std::test::Fail;

/// A whole block of `a`.
const SIXTEENS: [u8; 16384] = [b'a'; 16384];

/// A torrent's piece length, its length, and the content of each piece: `3 7 abc abc a`.
pub fn torrent_of(rt: &impl Abort, alloc: Global, text: &'static str) -> Result<Torrent, Fail> {
    let mut words = text.split(' ');
    let piece_length = next_number(rt, &mut words);
    let total = u64::from(next_number(rt, &mut words));
    let hashes = hashes_of(alloc, words)?;
    Ok(Torrent::of_parts(piece_length, total, hashes, [0; 20])?)
}

/// The digests of the pieces that the words spell.
fn hashes_of(alloc: Global, words: Split<'static, char>) -> Result<Vec<[u8; 20]>, AllocError> {
    let mut hashes = Vec::new(alloc);
    for word in words {
        hashes.push(hash_of(word))?;
    }
    Ok(hashes)
}

fn hash_of(word: &str) -> [u8; 20] {
    match word {
        "abc" => ABC,
        "a" => A,
        _ => MILLION,
    }
}

/// The entry that a line tells, for a torrent of so many pieces.
pub fn entry_of(
    rt: &impl Abort,
    alloc: Global,
    pieces: u32,
    line: &'static str,
) -> Result<Entry, Fail> {
    let (call, reply) = cut(rt, line, " = ");
    let reply = reply_of(rt, reply);
    let mut words = call.split(' ');
    let worker = next_number(rt, &mut words);
    Ok(Entry {
        worker,
        call: call_of(rt, alloc, pieces, &mut words)?,
        reply,
    })
}

/// What stands before the mark and what behind it.
pub fn cut(rt: &impl Abort, text: &'static str, mark: &str) -> (&'static str, &'static str) {
    text.split_once(mark).expect(rt, "a part is missing")
}

/// The number that the word spells.
pub fn number(rt: &impl Abort, word: &str) -> u32 {
    let number = word.parse::<u32>();
    number.ok().expect(rt, "a number is missing")
}

/// The number that the next word spells.
pub fn next_number(rt: &impl Abort, words: &mut Split<'_, char>) -> u32 {
    number(rt, words.next().unwrap_or(""))
}

fn bytes_of(word: Option<&'static str>) -> Bytes {
    match word {
        Some("whole") => Bytes::from_static(&SIXTEENS),
        Some(text) => Bytes::from_static(text.as_bytes()),
        None => Bytes::new(),
    }
}

/// A bitfield of up to eight pieces, spelled by its byte on the wire, or one of so many pieces, none of which is set.
fn flags_of(
    rt: &impl Abort,
    alloc: Global,
    pieces: u32,
    name: &str,
    words: &mut Split<'static, char>,
) -> Result<Bitfield, Fail> {
    match name {
        "bits" | "want" | "haves" => Ok(Bitfield::from_wire(
            alloc,
            &[next_byte(rt, words)],
            pieces,
        )?),
        _ => Ok(Bitfield::empty(alloc, next_number(rt, words))?),
    }
}

fn next_byte(rt: &impl Abort, words: &mut Split<'static, char>) -> u8 {
    let byte = u8::from_str_radix(words.next().unwrap_or(""), 16);
    byte.ok().expect(rt, "a bitfield is missing")
}

/// The call that these words spell.
fn call_of(
    rt: &impl Abort,
    alloc: Global,
    pieces: u32,
    words: &mut Split<'static, char>,
) -> Result<Call, Fail> {
    match words.next().unwrap_or("") {
        name @ ("bits" | "no-bits-of") => {
            Ok(Call::Bits(flags_of(rt, alloc, pieces, name, words)?))
        }
        name @ ("want" | "want-none-of") => {
            Ok(Call::Want(flags_of(rt, alloc, pieces, name, words)?))
        }
        name @ ("haves" | "haves-none-of") => {
            Ok(Call::Haves(flags_of(rt, alloc, pieces, name, words)?))
        }
        "settle" => settle_of(rt, alloc, words),
        "levels" => Ok(Call::Levels(levels_of(alloc, words.next().unwrap_or(""))?)),
        name => Ok(plain_call(rt, name, words)),
    }
}

/// A call without a bitfield or a verdict.
fn plain_call(rt: &impl Abort, name: &str, words: &mut Split<'static, char>) -> Call {
    match name {
        "join" => Call::Join,
        "choke" => Call::Choke,
        "unchoke" => Call::Unchoke,
        "leave" => Call::Leave,
        "have" => Call::Have(next_number(rt, words)),
        "lack" => Call::Lack(next_number(rt, words)),
        "next" => Call::Next(u64::from(next_number(rt, words))),
        "depth" => Call::Depth(next_number(rt, words)),
        "release" => Call::Release {
            piece: next_number(rt, words),
            begin: next_number(rt, words),
        },
        "late" => Call::Late {
            piece: next_number(rt, words),
            begin: next_number(rt, words),
        },
        "alone" => Call::Alone(words.next() == Some("yes")),
        "level" => Call::Level {
            piece: next_number(rt, words),
            level: next_level(rt, words),
        },
        "inorder" => Call::InOrder(words.next() == Some("yes")),
        "reach" => Call::Reach(next_level(rt, words)),
        "inorderfrom" => Call::InOrderFrom(next_level(rt, words)),
        "block" => arrival_of(rt, words),
        _ => panic!(rt; "no such call"),
    }
}

/// The level that the next word spells.
fn next_level(rt: &impl Abort, words: &mut Split<'_, char>) -> u8 {
    let level = u8::try_from(next_number(rt, words));
    level.ok().expect(rt, "a level is missing")
}

/// The levels of these digits.
fn levels_of(alloc: Global, digits: &str) -> Result<Bytes, Fail> {
    let mut levels = Vec::new(alloc);
    for digit in digits.as_bytes() {
        levels.push(digit.saturating_sub(b'0'))?;
    }
    Ok(Bytes::from_vec(levels)?)
}

fn arrival_of(rt: &impl Abort, words: &mut Split<'static, char>) -> Call {
    Call::Arrived {
        piece: next_number(rt, words),
        begin: next_number(rt, words),
        bytes: bytes_of(words.next()),
    }
}

fn settle_of(
    rt: &impl Abort,
    alloc: Global,
    words: &mut Split<'static, char>,
) -> Result<Call, Fail> {
    let piece = next_number(rt, words);
    let blocks = vec![in alloc; bytes_of(words.next())]?;
    Ok(Call::Settle(hashed(alloc, Job { piece, blocks })?))
}

/// The verdict of the job.
pub fn hashed(alloc: Global, job: Job) -> Result<Arc<Verdict>, Fail> {
    Ok(Arc::new(alloc, job.hash())?)
}

/// The replies that name no block, each as a line spells it.
const REPLIES: &[(&str, Reply)] = &[
    ("joined", Reply::Joined),
    ("noted yes", Reply::Noted(true)),
    ("noted no", Reply::Noted(false)),
    ("quiet", Reply::Quiet),
    ("choked", Reply::Choked),
    ("pipefull", Reply::PipeFull),
    ("idle", Reply::Idle),
    ("nothing", Reply::NothingLeft),
    ("stored", Reply::Stored),
    ("completed", Reply::Completed),
    ("dropped", Reply::Dropped),
    ("had", Reply::Had),
    ("failed", Reply::Failed),
    ("refused NotJoined", Reply::Refused(Reason::NotJoined)),
    (
        "refused AlreadyJoined",
        Reply::Refused(Reason::AlreadyJoined),
    ),
    ("refused LateBits", Reply::Refused(Reason::LateBits)),
    ("refused WrongCount", Reply::Refused(Reason::WrongCount)),
    ("refused NoSuchPiece", Reply::Refused(Reason::NoSuchPiece)),
    ("refused NoSuchBlock", Reply::Refused(Reason::NoSuchBlock)),
    ("refused WrongLength", Reply::Refused(Reason::WrongLength)),
    ("refused NotWaiting", Reply::Refused(Reason::NotWaiting)),
    ("refused Stale", Reply::Refused(Reason::Stale)),
    ("refused NotAsked", Reply::Refused(Reason::NotAsked)),
    ("refused WrongDepth", Reply::Refused(Reason::WrongDepth)),
    ("refused WrongLevel", Reply::Refused(Reason::WrongLevel)),
];

/// The reply that the text tells.
pub fn reply_of(rt: &impl Abort, text: &str) -> Reply {
    match plain_reply(text) {
        Some(reply) => reply,
        None => reply_with_block(rt, text),
    }
}

fn plain_reply(text: &str) -> Option<Reply> {
    for &(spelled, reply) in REPLIES {
        if text == spelled {
            return Some(reply);
        }
    }
    None
}

fn reply_with_block(rt: &impl Abort, text: &str) -> Reply {
    let mut words = text.split(' ');
    match words.next().unwrap_or("") {
        "cancel" => Reply::Cancel(block_of(rt, &mut words)),
        "request" => Reply::Request(block_of(rt, &mut words)),
        _ => panic!(rt; "no such reply"),
    }
}

fn block_of(rt: &impl Abort, words: &mut Split<'_, char>) -> Block {
    Block {
        piece: next_number(rt, words),
        begin: next_number(rt, words),
        len: next_number(rt, words),
    }
}

/// A worked example of the rules, as `examples` spells them.
#[derive(Clone, Copy)]
pub struct Example {
    /// As `torrent_of` reads it.
    pub torrent: &'static str,
    /// How many workers there are, the depth, how many pieces are picked at random, how many peers a block is asked of in endgame, and
    /// the greatest depth that may be told.
    pub terms: &'static str,
    pub lines: &'static str,
    /// What mustn't come, each behind how many of the lines come before.
    pub wrong: &'static str,
}

impl Example {
    pub fn of(rt: &impl Abort, text: &'static str) -> Example {
        let (right, wrong) = cut(rt, text, "\nbut\n");
        let (_, right) = cut(rt, right, "\n");
        let (torrent, right) = cut(rt, right, "\n");
        let (terms, lines) = cut(rt, right, "\n");
        Example {
            torrent,
            terms,
            lines,
            wrong,
        }
    }
}

/// The first so many lines as entries.
pub fn entries_of(
    rt: &impl Abort,
    alloc: Global,
    pieces: u32,
    lines: &'static str,
    count: usize,
) -> Result<Vec<Entry>, Fail> {
    let mut entries = Vec::new(alloc);
    for line in lines.lines().take(count) {
        add_entry(rt, alloc, pieces, line, &mut entries)?;
    }
    Ok(entries)
}

/// The entry of the line behind the others.
pub fn add_entry(
    rt: &impl Abort,
    alloc: Global,
    pieces: u32,
    line: &'static str,
    entries: &mut Vec<Entry>,
) -> Result<(), Fail> {
    entries.push(entry_of(rt, alloc, pieces, line)?)?;
    Ok(())
}
