//! Bytes that are no script, with the line at fault and the replies to the lines before.

use super::scripts::{in_memory, page, ran};
use bt_expect::{same, same_for};
use bt_meta::{BitFault, MetaFault};
use bt_text::*;
use std::alloc::{AllocError, Global};
use std::test::*;

/// Three pieces for two workers: `abc`, `abc` and `a`.
const TORRENT: &[u8] =
    b"torrent 3 7 2 a9993e364706816aba3e25717850c26c9cd0d89d a9993e364706816aba3e25717850c26c9cd0d89d 86f7e437faa5a7fce15d1ddcb9eaeaea377667b8\n";

/// What stands behind the torrent line, the line at fault and what was printed; no line where there is no fault.
const BEHIND: &[(&[u8], u64, &[u8])] = &[
    (b"", 0, b""),
    (b"\n\n\n", 0, b""),
    (b"0 join", 0, b"joined\n"),
    (b"\n\n0 join\n\n", 0, b"joined\n"),
    (b"1 join\n", 0, b"joined\n"),
    (b"2 join\n", 2, b""),
    (b"0 join\n2 join\n1 join\n", 3, b"joined\n"),
    (b"\n0 join\n\n2 join", 5, b"joined\n"),
    (b"0 bits f0\n", 2, b""),
    (b"0 bits e000\n", 2, b""),
    (b"0 join\n0 bits f0\n", 3, b"joined\n"),
    (b"0 join\r\n", 2, b""),
    (b"\r\n", 2, b""),
    (b"0 join \n", 2, b""),
    (b" 0 join\n", 2, b""),
    (b"0  join\n", 2, b""),
    (b"0\tjoin\n", 2, b""),
    (b"0 JOIN\n", 2, b""),
    (b"0 joi\n", 2, b""),
    (b"0 joined\n", 2, b""),
    (b"0\n", 2, b""),
    (b"join\n", 2, b""),
    (b"0 \n", 2, b""),
    (b" \n", 2, b""),
    (b"+0 join\n", 2, b""),
    (b"-0 join\n", 2, b""),
    (b"0x0 join\n", 2, b""),
    (b"4294967296 join\n", 2, b""),
    (b"4294967295 join\n", 2, b""),
    (b"0 join 1\n", 2, b""),
    (b"0 have\n", 2, b""),
    (b"0 have +1\n", 2, b""),
    (b"0 have 1 \n", 2, b""),
    (b"0 have 4294967296\n", 2, b""),
    (b"0 next 18446744073709551616\n", 2, b""),
    (b"0 next 100000000000000000000\n", 2, b""),
    (b"0 next\n", 2, b""),
    (b"0 bits\n", 2, b""),
    (b"0 bits \n", 2, b""),
    (b"0 bits e\n", 2, b""),
    (b"0 bits eg\n", 2, b""),
    (b"0 block 0 0\n", 2, b""),
    (b"0 block 0 0 \n", 2, b""),
    (b"0 block 0 0 6\n", 2, b""),
    (b"0 block 0 0 61 62\n", 2, b""),
    (b"0 settle x\n", 2, b""),
    (b"0 join\xff\n", 2, b""),
    (b"0 join\n\xff\xfe\n", 3, b"joined\n"),
    (b"0 want e0\n", 0, b"quiet\n"),
    (b"1 want 00\n2 want e0\n", 3, b"quiet\n"),
    (b"0 want f0\n", 2, b""),
    (b"0 want e000\n", 2, b""),
    (b"0 want\n", 2, b""),
    (b"0 want \n", 2, b""),
    (b"0 want e\n", 2, b""),
    (b"0 want e0 e0\n", 2, b""),
    (b"0 join\n0 haves e0\n", 0, b"joined\nnoted yes\n"),
    (b"0 haves f0\n", 2, b""),
    (b"0 haves e000\n", 2, b""),
    (b"0 haves\n", 2, b""),
    (b"0 haves e\n", 2, b""),
    (b"0 depth 5\n", 0, b"refused 1\n"),
    (b"0 depth\n", 2, b""),
    (b"0 depth -1\n", 2, b""),
    (b"0 depth 5 5\n", 2, b""),
    (b"0 depth 4294967296\n", 2, b""),
    (b"0 release 9 9\n", 0, b"refused 1\n"),
    (b"0 release\n", 2, b""),
    (b"0 release 0\n", 2, b""),
    (b"0 release 0 x\n", 2, b""),
    (b"0 release 0 0 3\n", 2, b""),
    (b"0 late 9 9\n", 0, b"refused 1\n"),
    (b"0 late\n", 2, b""),
    (b"0 late 0\n", 2, b""),
    (b"0 late 0 x\n", 2, b""),
    (b"0 late 0 0 3\n", 2, b""),
    (b"0 have 0 0\n", 2, b""),
    (b"rules 5 1", 0, b""),
    (b"rules 5 1\n0 join\n", 0, b"joined\n"),
    (b"\n\nrules 64 3\n\n0 join\n", 0, b"joined\n"),
    (b"rules 1 0\n2 join\n", 3, b""),
    (b"rules 0 1\n", 2, b""),
    (b"rules 65 1\n", 2, b""),
    (b"rules 5 4\n", 2, b""),
    (b"\n\nrules 5 4\n0 join\n", 4, b""),
    (b"rules 5 1\nrules 5 1\n", 3, b""),
    (b"rules 5 1\n\nrules 5 1\n", 4, b""),
    (b"0 join\nrules 5 1\n", 3, b"joined\n"),
    (b"rules\n", 2, b""),
    (b"rules 5\n", 2, b""),
    (b"rules 5 1 0\n0 join\n", 0, b"joined\n"),
    (b"rules 5 1 1024\n0 join\n", 0, b"joined\n"),
    (b"rules 5 1 1025\n", 2, b""),
    (b"rules 5 1 x\n", 2, b""),
    (b"rules 5 1 1 1\n", 0, b""),
    (b"rules 5 1 1 4096 yes\n0 join\n", 0, b"joined\n"),
    (b"rules 5 1 1 0 no\n", 0, b""),
    (b"rules 5 1 1 4097\n", 2, b""),
    (b"rules 5 1 1 x\n", 2, b""),
    (b"rules 5 1 1 1 maybe\n", 2, b""),
    (b"rules 5 1 1 1 1\n", 2, b""),
    (b"rules 5 1 1 1 yes yes\n", 2, b""),
    (b"rules 5 1 yes\n", 2, b""),
    (b"rules 5 1 \n", 2, b""),
    (b" rules 5 1\n", 2, b""),
    (b"rules 5 1\r\n", 2, b""),
    (b"Rules 5 1\n", 2, b""),
    (b"rules +5 1\n", 2, b""),
    (b"rules 5 -1\n", 2, b""),
    (b"rules 4294967301 1\n", 2, b""),
    (b"rules 5 4294967297\n", 2, b""),
    (b"0 rules 5 1\n", 2, b""),
];

/// The same, of levels, the order, and who works alone.
const LEVELS: &[(&[u8], u64, &[u8])] = &[
    (b"0 level 0 7\n", 0, b"quiet\n"),
    (b"0 level 9 0\n", 0, b"refused 5\n"),
    (b"0 level 0 8\n", 0, b"refused 12\n"),
    (b"0 level 0 255\n", 0, b"refused 12\n"),
    (b"0 level 0 256\n", 2, b""),
    (b"0 level\n", 2, b""),
    (b"0 level 0\n", 2, b""),
    (b"0 level 0 x\n", 2, b""),
    (b"0 level 0 4 4\n", 2, b""),
    (b"0 levels 470\n", 0, b"quiet\n"),
    (b"0 levels 44\n", 0, b"refused 4\n"),
    (b"0 levels 448\n", 0, b"refused 12\n"),
    (b"0 levels\n", 2, b""),
    (b"0 levels \n", 2, b""),
    (b"0 levels 4x4\n", 2, b""),
    (b"0 levels 4 4 4\n", 2, b""),
    (b"0 inorder yes\n0 inorder no\n", 0, b"quiet\nquiet\n"),
    (b"0 inorder\n", 2, b""),
    (b"0 inorder maybe\n", 2, b""),
    (b"0 inorder yes no\n", 2, b""),
    (b"2 inorder yes\n", 2, b""),
    (b"0 alone yes\n", 0, b"refused 1\n"),
    (
        b"0 join\n0 alone yes\n0 alone no\n",
        0,
        b"joined\nquiet\nquiet\n",
    ),
    (b"0 alone\n", 2, b""),
    (b"0 alone maybe\n", 2, b""),
    (b"0 alone yes no\n", 2, b""),
    (b"2 alone yes\n", 2, b""),
];

/// Whole scripts whose first line that isn't empty is at fault.
const FIRST_LINES: &[(&[u8], u64)] = &[
    (b"", 1),
    (b"\n", 1),
    (b"\n\n\n", 1),
    (b"0 join\n", 1),
    (b"\n\n0 join\n", 3),
    (b"rules 5 1\n", 1),
    (
        b"\nrules 5 1\ntorrent 3 3 1 a9993e364706816aba3e25717850c26c9cd0d89d\n",
        2,
    ),
    (
        b"torrent 3 7 1 a9993e364706816aba3e25717850c26c9cd0d89d\n",
        1,
    ),
    (b"torrent 3 3 0 a9993e364706816aba3e25717850c26c9cd0d89d", 1),
    (
        b"torrent 3 3 1025 a9993e364706816aba3e25717850c26c9cd0d89d",
        1,
    ),
    (b"torrent 0 3 1 a9993e364706816aba3e25717850c26c9cd0d89d", 1),
    (
        b"torrent 2147483649 3 1 a9993e364706816aba3e25717850c26c9cd0d89d",
        1,
    ),
    (b"torrent 3 0 1", 1),
    (b"torrent 3 0 1 a9993e364706816aba3e25717850c26c9cd0d89d", 1),
    (
        b"torrent 3 9223372036854775808 1 a9993e364706816aba3e25717850c26c9cd0d89d",
        1,
    ),
    (
        b"torrent 3 18446744073709551616 1 a9993e364706816aba3e25717850c26c9cd0d89d",
        1,
    ),
    (b"torrent 3 3 1 a9993e364706816aba3e25717850c26c9cd0d89", 1),
    (
        b"torrent 3 3 1 a9993e364706816aba3e25717850c26c9cd0d89d00",
        1,
    ),
    (b"torrent 3 3 1 a9993e364706816aba3e25717850c26c9cd0d89g", 1),
    (
        b"torrent 3 3 1 a9993e364706816aba3e25717850c26c9cd0d89d ",
        1,
    ),
    (b"Torrent 3 3 1 a9993e364706816aba3e25717850c26c9cd0d89d", 1),
];

/// How a script is played, and what was printed.
fn played(alloc: Global, script: &[u8]) -> Result<(Result<(), Fault>, Vec<u8>), AllocError> {
    let mut out = page(alloc)?;
    let done = in_memory(play_script(alloc, script, &mut out))?;
    Ok((done, out))
}

/// A script of the torrent line and what stands behind it.
fn script_of(alloc: Global, behind: &[u8]) -> Result<Vec<u8>, AllocError> {
    let mut script = Vec::from_slice(alloc, TORRENT)?;
    script.extend_from_slice(behind)?;
    Ok(script)
}

/// Checks how a script is played, and what was printed.
fn plays(
    alloc: Global,
    script: &[u8],
    wanted: Result<(), Fault>,
    printed: &[u8],
    case: &[u8],
) -> Result<(), Fail> {
    let (done, out) = played(alloc, script)?;
    same_for(done, wanted, case)?;
    same_for(out.as_slice(), printed, case)
}

/// Checks how the torrent line with this behind it is played: which line is at fault, and what was printed.
fn plays_behind(alloc: Global, behind: &[u8], number: u64, printed: &[u8]) -> Result<(), Fail> {
    let script = script_of(alloc, behind)?;
    let wanted = if number == 0 {
        Ok(())
    } else {
        Err(Fault::Line(number))
    };
    plays(alloc, &script, wanted, printed, behind)
}

#[test]
fn lines_behind_the_first(rt: HostRuntime) -> Result<(), Fail> {
    for &(behind, number, printed) in BEHIND {
        plays_behind(rt.alloc(), behind, number, printed)?;
    }
    Ok(())
}

#[test]
fn levels_behind_the_first(rt: HostRuntime) -> Result<(), Fail> {
    for &(behind, number, printed) in LEVELS {
        plays_behind(rt.alloc(), behind, number, printed)?;
    }
    Ok(())
}

#[test]
fn first_lines(rt: HostRuntime) -> Result<(), Fail> {
    for &(script, number) in FIRST_LINES {
        plays(rt.alloc(), script, Err(Fault::Line(number)), b"", script)?;
        let (status, _) = ran(rt.alloc(), script)?;
        same_for(status, 2, script)?;
    }
    Ok(())
}

/// Checks what is told of a fault.
fn is_told(alloc: Global, fault: Fault, text: &str) -> Result<(), Fail> {
    let told = fault.to_string(alloc)?;
    same(told.as_str(), text)
}

/// What is told of a fault, and its exit status.
#[test]
fn texts_and_statuses(rt: HostRuntime) -> Result<(), Fail> {
    const ROWS: &[(Fault, u8, &str)] = &[
        (Fault::Line(12), 2, "line 12"),
        (
            Fault::Metainfo(MetaFault::PiecesLength),
            3,
            "metainfo fault 6",
        ),
        (Fault::Want(BitFault::WrongCount), 2, "want fault 1"),
        (Fault::Want(BitFault::SpareBits), 2, "want fault 2"),
        (Fault::Random, 2, "random fault"),
        (Fault::File, 4, "file fault"),
        (Fault::Memory, 5, "memory"),
    ];
    for &(fault, status, text) in ROWS {
        same(fault.status(), status)?;
        is_told(rt.alloc(), fault, text)?;
    }
    Ok(())
}
