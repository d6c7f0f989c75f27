//! Scripts by their replies. What is played goes through functions without a contract, so that a test knows of what they give alone.

use super::examples::{EXAMPLES, Example};
use super::picks::PICKS;
use super::settings::SETTINGS;
use bt_expect::{same, same_for};
use bt_text::*;
use std::alloc::{AllocError, Global};
use std::fmt::Write;
use std::io::Cursor;
use std::test::*;

/// The lines of an example without their replies, and the replies, where there are any.
fn parts(alloc: Global, torrent: &str, lines: &str) -> Result<(String, String), AllocError> {
    let mut script = String::from_str(alloc, torrent)?;
    let mut replies = String::new(alloc);
    add_lines(lines, &mut script, &mut replies)?;
    Ok((script, replies))
}

/// Adds lines to the script, and their replies to the others.
fn add_lines(lines: &str, script: &mut String, replies: &mut String) -> Result<(), AllocError> {
    for line in lines.lines() {
        script.push('\n')?;
        match line.split_once(" = ") {
            Some((call, reply)) => {
                script.push_str(call)?;
                replies.push_str(reply)?;
                replies.push('\n')?;
            }
            None => script.push_str(line)?,
        }
    }
    Ok(())
}

/// The status, unless it is that of want of memory, which ends a test as such.
pub fn had_memory(status: u8) -> Result<u8, AllocError> {
    if status == 5 {
        Err(AllocError)
    } else {
        Ok(status)
    }
}

/// What a script came to, unless memory was lacking.
pub fn in_memory(done: Result<(), Fault>) -> Result<Result<(), Fault>, AllocError> {
    match done {
        Err(Fault::Memory) => Err(AllocError),
        done => Ok(done),
    }
}

/// An output in memory. Its room is taken at once, and is more than any test here prints: so no write lacks memory.
pub fn page(alloc: Global) -> Result<Vec<u8>, AllocError> {
    Vec::with_capacity(alloc, 4096)
}

/// The exit status of a script, and what was printed.
pub fn ran(alloc: Global, script: &[u8]) -> Result<(u8, Vec<u8>), AllocError> {
    let mut out = page(alloc)?;
    let status = had_memory(run_script(alloc, script, &mut out))?;
    Ok((status, out))
}

/// Checks the replies of an example.
fn has_its_replies(alloc: Global, example: &Example) -> Result<(), Fail> {
    let name = example.name;
    let (script, replies) = parts(alloc, example.torrent, example.lines)?;
    let (status, out) = ran(alloc, script.as_bytes())?;
    same_for(status, 0, name)?;
    same_for(out.as_slice(), replies.as_bytes(), name)
}

#[test]
fn worked_examples(rt: HostRuntime) -> Result<(), Fail> {
    for example in EXAMPLES.iter().chain(PICKS).chain(SETTINGS) {
        has_its_replies(rt.alloc(), example)?;
    }
    Ok(())
}

/// Checks what a script without fault prints.
fn prints(alloc: Global, script: &str, replies: &str) -> Result<(), Fail> {
    let (status, out) = ran(alloc, script.as_bytes())?;
    same(status, 0)?;
    same(out.as_slice(), replies.as_bytes())
}

/// The digits of a block of full size.
fn full_block(alloc: Global) -> Result<String, AllocError> {
    let mut block = String::new(alloc);
    for _ in 0..16384 {
        block.push_str("61")?;
    }
    Ok(block)
}

/// A script with each block of a piece of two.
fn script_of_two(alloc: Global) -> Result<String, AllocError> {
    let torrent =
        "torrent 32768 65536 1 a9993e364706816aba3e25717850c26c9cd0d89d a9993e364706816aba3e25717850c26c9cd0d89d";
    let block = full_block(alloc)?;
    format!(in alloc;
        "{torrent}\n0 join\n0 block 0 0 {block}\n0 block 0 0 {block}\n0 block 0 16384 {block}\n0 settle 0\n"
    )
}

/// Blocks of their full size, in a piece of two.
#[test]
fn blocks_of_two(rt: HostRuntime) -> Result<(), Fail> {
    let script = script_of_two(rt.alloc())?;
    prints(
        rt.alloc(),
        script.as_str(),
        "joined\nstored\ndropped\ncompleted\nfailed\n",
    )
}

/// Adds Next until nothing is left to ask, and the replies.
fn add_asks(script: &mut String, replies: &mut String) -> Result<(), AllocError> {
    for block in 0..61_u32 {
        let begin = 16_384 * block;
        script.push_str("0 next 0\n")?;
        write!(replies, "request 0 {begin} 16384\n")?;
    }
    script.push_str("0 next 0\n0 next 0\n")?;
    replies.push_str("request 0 999424 576\nidle\n")
}

/// A pipe of 64 has room for all 62 blocks of a piece.
#[test]
fn a_deep_pipe(rt: HostRuntime) -> Result<(), Fail> {
    let mut script = String::from_str(
        rt.alloc(),
        "torrent 1000000 1000000 1 34aa973cd4c4daa4f61eeb2bdbad27316534016f\nrules 64 1\n0 join\n0 bits 80\n0 unchoke\n",
    )?;
    let mut replies = String::from_str(rt.alloc(), "joined\nnoted yes\nquiet\n")?;
    add_asks(&mut script, &mut replies)?;
    prints(rt.alloc(), script.as_str(), replies.as_str())
}

/// The exit status of a script. What it tells goes to `err`.
fn status_of(
    alloc: Global,
    script: &[u8],
    out: &mut Vec<u8>,
    err: &mut Vec<u8>,
) -> Result<u8, AllocError> {
    had_memory(script_to(alloc, script, out, err))
}

/// Checks the exit status of a script, what is printed, and what is told.
fn ends_with(
    alloc: Global,
    script: &[u8],
    status: u8,
    text: &[u8],
    told: &[u8],
) -> Result<(), Fail> {
    let mut out = page(alloc)?;
    let mut err = page(alloc)?;
    same(status_of(alloc, script, &mut out, &mut err)?, status)?;
    same(out.as_slice(), text)?;
    same(err.as_slice(), told)
}

/// The exit status, what was printed, and what was told.
#[test]
fn statuses(rt: HostRuntime) -> Result<(), Fail> {
    const ROWS: &[(&[u8], u8, &[u8], &[u8])] = &[
        (
            b"torrent 3 3 1 a9993e364706816aba3e25717850c26c9cd0d89d\n0 join\n",
            0,
            b"joined\n",
            b"",
        ),
        (
            b"torrent 3 3 1 a9993e364706816aba3e25717850c26c9cd0d89d\n0 join\n1 join\n",
            2,
            b"joined\n",
            b"line 3\n",
        ),
        (b"", 2, b"", b"line 1\n"),
        (
            b"torrent 3 3 1 a9993e364706816aba3e25717850c26c9cd0d89d\nrules 65 1\n",
            2,
            b"",
            b"line 2\n",
        ),
    ];
    for &(script, status, text, told) in ROWS {
        ends_with(rt.alloc(), script, status, text, told)?;
    }
    Ok(())
}

/// How a script is played whose output has this room.
fn played_to(
    alloc: Global,
    script: &str,
    room: &mut [u8],
) -> Result<Result<(), Fault>, AllocError> {
    in_memory(play_script(alloc, script.as_bytes(), &mut Cursor::new(room)))
}

/// How a metainfo file is described where the output has this room.
fn described_to(
    alloc: Global,
    meta: &[u8],
    room: &mut [u8],
) -> Result<Result<(), Fault>, AllocError> {
    in_memory(describe(alloc, meta, &mut Cursor::new(room)))
}

/// Outputs that take no more than so many bytes.
#[test]
fn full_outputs(rt: HostRuntime) -> Result<(), Fail> {
    let script = "torrent 3 3 1 a9993e364706816aba3e25717850c26c9cd0d89d\n0 join\n";
    let mut room = [0; 3];
    same(played_to(rt.alloc(), script, &mut room)?, Err(Fault::File))?;
    same(room.as_slice(), b"joi".as_slice())?;
    let meta =
        b"d4:infod6:lengthi3e4:name1:s12:piece lengthi3e6:pieces20:\xa9\x99\x3e\x36\x47\x06\x81\x6a\xba\x3e\x25\x71\x78\x50\xc2\x6c\x9c\xd0\xd8\x9dee";
    same(described_to(rt.alloc(), meta, &mut room)?, Err(Fault::File))?;
    same(room.as_slice(), b"nam".as_slice())
}
