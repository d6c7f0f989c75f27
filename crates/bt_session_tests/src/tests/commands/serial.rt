//! The command `serial` with an output that is full, and what the tests of runs share. Its reports and statuses are those of whole command
//! lines, in `bt_cli_tests`.

ghost use Rattle.std.specs.Prelude.{◌≡◌, ◌≤◌};

use super::scripts::{had_memory, page};
use bt_cli::*;
use bt_expect::same;
use bt_meta::{FromRead, ToWrite};
use bt_picker::Rules;
use bt_session::Stream;
use std::alloc::{AllocError, Global};
use std::io::Cursor;
use std::test::*;

/// A file of the three bytes `abc`, in one piece.
pub const FILE: &[u8] =
    b"d4:infod6:lengthi3e4:name1:s12:piece lengthi3e6:pieces20:\xa9\x99\x3e\x36\x47\x06\x81\x6a\xba\x3e\x25\x71\x78\x50\xc2\x6c\x9c\xd0\xd8\x9dee";

/// The SHA-1 of its info value, by another program.
pub const INFOHASH: &[u8; 20] =
    b"\x1d\x78\x90\xe0\x79\x47\x27\x96\x67\x77\x2e\x39\x46\xc6\x96\x86\x93\x09\xfe\x2c";

/// What a peer sends after its handshake: its bitfield, unchoke, and the piece.
pub const FRAMES: &[u8; 27] = b"\0\0\0\x02\x05\x80\0\0\0\x01\x01\0\0\0\x0c\x07\0\0\0\0\0\0\0\0abc";

pub type Recorded<'a> = Stream<FromRead<Cursor<&'a [u8]>>, ToWrite<Vec<u8>>>;

/// A peer's stream: its handshake for this infohash, then these bytes.
pub fn stream(alloc: Global, infohash: &[u8; 20], frames: &[u8]) -> Result<Vec<u8>, AllocError> {
    let mut bytes = Vec::from_slice(alloc, b"\x13BitTorrent protocol")?;
    bytes.extend_from_slice(&[0; 8])?;
    bytes.extend_from_slice(infohash)?;
    bytes.extend_from_slice(&[9; 20])?;
    bytes.extend_from_slice(frames)?;
    Ok(bytes)
}

pub fn recorded(alloc: Global, sent: &[u8]) -> Result<Recorded<'_>, AllocError> {
    Ok(Stream {
        reader: FromRead::new(Cursor::new(sent)),
        writer: ToWrite::new(page(alloc)?),
    })
}

/// Options of all pieces by the usual rules, without the journal, with one checker.
pub fn usual() -> Options
    ensures depth { (1 ≤ result.rules.depth) × (result.rules.depth ≤ MOST_DEPTH) }
    ensures checkers { result.checkers ≡ 1 }
{
    Options {
        seed: 0,
        journal: false,
        want: None,
        rules: Rules::usual(),
        checkers: 1,
    }
}

/// Pieces `abc`, `abc` and `a`.
pub const THREE_PIECES: &[u8] =
    b"d4:infod6:lengthi7e4:name1:s12:piece lengthi3e6:pieces60:\xa9\x99\x3e\x36\x47\x06\x81\x6a\xba\x3e\x25\x71\x78\x50\xc2\x6c\x9c\xd0\xd8\x9d\xa9\x99\x3e\x36\x47\x06\x81\x6a\xba\x3e\x25\x71\x78\x50\xc2\x6c\x9c\xd0\xd8\x9d\x86\xf7\xe4\x37\xfa\xa5\xa7\xfc\xe1\x5d\x1d\xdc\xb9\xea\xea\xea\x37\x76\x67\xb8ee";

/// The SHA-1 of its info value, by another program.
pub const INFOHASH_OF_THREE: &[u8; 20] =
    b"\x8c\x98\x3b\xc3\xdc\x1b\xcd\xae\x5f\x59\xaa\x68\x33\xea\xa3\x0c\xfd\xc7\x25\xfa";

/// The command with this output: its status, and whether there is a desk.
fn command(
    alloc: Global,
    sent: &[u8],
    room: &mut [u8],
    err: &mut Vec<u8>,
) -> Result<(u8, bool), AllocError> {
    let mut streams = [recorded(alloc, sent)?];
    let mut out = ToWrite::new(room);
    let (status, desk) = run_serial(alloc, FILE, &mut streams, &usual(), &mut out, err);
    Ok((had_memory(status)?, desk.is_some()))
}

/// An output that takes no more than so many bytes.
#[test]
fn a_full_output(rt: HostRuntime) -> Result<(), Fail> {
    let sent = stream(rt.alloc(), INFOHASH, FRAMES)?;
    let mut room = [0; 20];
    let mut err = page(rt.alloc())?;
    let (status, has_desk) = command(rt.alloc(), &sent, room.as_mut_slice(), &mut err)?;
    same(status, 4)?;
    assert!(rt; has_desk);
    same(room.as_slice(), b"stream 0 end\npieces ".as_slice())?;
    same(err.as_slice(), b"file fault\n".as_slice())
}
