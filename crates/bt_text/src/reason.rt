//! What is wrong with a line of a script, in words.

use crate::script::{Line, LineFault, Setup, first_line, hex_digest, is, line_at, lines, words_of};
use std::alloc::Global;
use std::fmt;

/// So many bytes of a line are told.
const MOST_TOLD: usize = 60;

/// Before the hashes of the first line stand so many words.
const HASHES: usize = 4;

/// The words of a script's calls.
const CALLS: &[&str] = &[
    "join",
    "leave",
    "bits",
    "have",
    "choke",
    "unchoke",
    "next",
    "block",
    "settle",
    "want",
    "haves",
    "lack",
    "depth",
    "reach",
    "release",
    "late",
    "alone",
    "level",
    "levels",
    "inorder",
    "inorderfrom",
];

/// What is wrong with a line of a script.
#[derive(Clone, Copy)]
enum LineReason<'a> {
    /// There is no line that isn't empty.
    Empty,
    /// The first line opens no desk.
    NoTorrent,
    /// The hash of this place in the first line, counted from 1, is none.
    NoHash(usize),
    /// Its second word is no call.
    NoCall(LineText<'a>),
    /// It isn't a line.
    NoLine,
    NoWorker,
    NoBits,
}

impl fmt::Display for LineReason<'_> {
    fn fmt<W: fmt::Write>(&self, f: &mut fmt::Formatter<W>) -> fmt::Result {
        match *self {
            LineReason::Empty => write!(f, "the script is empty"),
            LineReason::NoHash(place) => write!(f, "hash {place} isn't 40 hexadecimal digits"),
            LineReason::NoCall(word) => write!(f, "no such call: {word}"),
            LineReason::NoTorrent => write!(
                f,
                "not `torrent PIECE_LEN TOTAL WORKERS HASH..` of a torrent that can be"
            ),
            LineReason::NoLine => write!(f, "not a call, or numbers out of range"),
            LineReason::NoWorker => write!(f, "there is no such worker"),
            LineReason::NoBits => write!(f, "the bitfield isn't one of the torrent"),
        }
    }
}

/// A line's text: printable ASCII as it is, another byte as `?`, and no more than its front.
#[derive(Clone, Copy)]
struct LineText<'a>(&'a [u8]);

impl fmt::Display for LineText<'_> {
    fn fmt<W: fmt::Write>(&self, f: &mut fmt::Formatter<W>) -> fmt::Result {
        for byte in self.0.iter().take(MOST_TOLD) {
            let shown = if byte.is_ascii_graphic() || *byte == b' ' {
                char::from(*byte)
            } else {
                '?'
            };
            write!(f, "{shown}")?;
        }
        if self.0.len() > MOST_TOLD {
            write!(f, "..")?;
        }
        Ok(())
    }
}

/// What is wrong with the line of this number, from 1, of a script that is at fault there: its text, and the reason. None where there is no memory
/// for it.
pub fn explain_line(alloc: Global, input: &[u8], number: u64) -> Option<String> {
    let lines = lines(alloc, input).ok()?;
    let index = usize::try_from(number).ok()?.checked_sub(1)?;
    let text = lines.get(index)?;
    let reason = reason_of(alloc, &lines, index, text)?;
    let shown = LineText(text);
    match reason {
        LineReason::Empty => format!(in alloc; "piecepick: standard input: {reason}\n").ok(),
        reason => format!(in alloc; "piecepick: standard input: `{shown}`: {reason}\n").ok(),
    }
}

/// Why the line of this index is at fault; none where there is no memory to say.
fn reason_of<'a>(
    alloc: Global,
    lines: &[&[u8]],
    index: usize,
    text: &'a [u8],
) -> Option<LineReason<'a>> {
    let Some(first) = first_line(lines, 0) else {
        return Some(LineReason::Empty);
    };
    if index <= first {
        return reason_of_first(alloc, text);
    }
    match Line::parse(alloc, text) {
        Ok(line) => reason_behind(alloc, line_at(lines, first), line.worker),
        Err(LineFault::NotAllowed) => reason_of_form(alloc, text),
        Err(LineFault::NoMemory) => None,
    }
}

/// Why the first line opens no desk.
fn reason_of_first<'a>(alloc: Global, text: &[u8]) -> Option<LineReason<'a>> {
    let words = words_of(alloc, text).ok()?;
    for place in HASHES..words.len() {
        if hex_digest(words[place]).is_err() {
            return Some(LineReason::NoHash(place - HASHES + 1));
        }
    }
    Some(LineReason::NoTorrent)
}

/// Why a text isn't a line of a script.
fn reason_of_form(alloc: Global, text: &[u8]) -> Option<LineReason<'_>> {
    let words = words_of(alloc, text).ok()?;
    let [_, word, ..] = words.as_slice() else {
        return Some(LineReason::NoLine);
    };
    for name in CALLS {
        if is(word, name) {
            return Some(LineReason::NoLine);
        }
    }
    Some(LineReason::NoCall(LineText(word)))
}

/// Why a line of this worker is at fault that has the form of one, in a script with this first line.
fn reason_behind<'a>(alloc: Global, first: &[u8], worker: u32) -> Option<LineReason<'a>> {
    let setup = Setup::parse(alloc, first).ok()?;
    if worker >= setup.workers {
        Some(LineReason::NoWorker)
    } else {
        Some(LineReason::NoBits)
    }
}
