//! Small torrents, and what their peers send.

use bt_meta::{FromRead, ToWrite, Torrent};
use bt_peer::{End, SessionFault, Stream};
use bt_picker::{MOST_DEPTH, MOST_TOLD_DEPTH, MOST_WORKERS, Rules};
use bt_wire::Hello;
use std::alloc::{AllocError, Global};
use std::io::Cursor;
use std::sync::Arc;
use std::test::Fail;

/// The SHA-1 of the three bytes `abc` (FIPS 180-4).
pub const ABC: [u8; 20] = [
    0xa9, 0x99, 0x3e, 0x36, 0x47, 0x06, 0x81, 0x6a, 0xba, 0x3e, 0x25, 0x71, 0x78, 0x50, 0xc2, 0x6c,
    0x9c, 0xd0, 0xd8, 0x9d,
];

/// A torrent of so many pieces `abc`, or of other lengths with that digest.
pub fn torrent_of(
    alloc: Global,
    piece_length: u32,
    total: u64,
    count: u32,
) -> Result<Arc<Torrent>, Fail> {
    let mut hashes = Vec::new(alloc);
    for _ in 0..count {
        hashes.push(ABC)?;
    }
    let torrent = Torrent::of_parts(piece_length, total, hashes, [1; 20])?;
    Ok(Arc::new(alloc, torrent)?)
}

/// One piece of the three bytes `abc`.
pub fn torrent(alloc: Global) -> Result<Arc<Torrent>, Fail> {
    torrent_of(alloc, 3, 3, 1)
}

/// Five blocks at a time, and no piece at random, else the usual rules: these suit each torrent.
pub const RULES: Rules = Rules {
    depth: 5,
    random: 0,
    askers: MOST_WORKERS,
    deepest: MOST_DEPTH,
    open: 0,
    rush: MOST_TOLD_DEPTH,
    shown: false,
};

/// What a peer of one piece sends, after its handshake: its bitfield, unchoke, and the piece.
pub const PEER: [u8; 27] = [
    0, 0, 0, 2, 5, 128, 0, 0, 0, 1, 1, 0, 0, 0, 12, 7, 0, 0, 0, 0, 0, 0, 0, 0, 97, 98, 99,
];

/// What a peer sends: its handshake, with twenty such bytes as the infohash, and these frames.
pub fn peer(alloc: Global, infohash: u8, frames: &[u8]) -> Result<Vec<u8>, Fail> {
    let hello = Hello {
        reserved: [0; 8],
        infohash: [infohash; 20],
        peer_id: [9; 20],
    };
    let mut stream = Vec::from_slice(alloc, &hello.write())?;
    stream.extend_from_slice(frames)?;
    Ok(stream)
}

/// Two pieces of the three bytes `abc`.
pub fn two_pieces(alloc: Global) -> Result<Arc<Torrent>, Fail> {
    torrent_of(alloc, 3, 6, 2)
}

/// Want of memory, of a run or of one of its sessions, ends a test as such.
pub fn had_memory(short: bool, ends: &[Result<End, SessionFault>]) -> Result<(), AllocError> {
    let lacked = |end: &Result<End, SessionFault>| matches!(end, Err(SessionFault::NoMemory));
    if short || ends.iter().any(lacked) {
        return Err(AllocError);
    }
    Ok(())
}

/// An output in memory. Its room is taken at once, and is more than any session here writes: so no write lacks memory.
pub fn output(alloc: Global) -> Result<ToWrite<Vec<u8>>, AllocError> {
    Ok(ToWrite::new(Vec::with_capacity(alloc, 4096)?))
}

/// A stream of bytes that were recorded, and of those that are written.
pub type Recorded<'a> = Stream<FromRead<Cursor<&'a [u8]>>, ToWrite<Vec<u8>>>;

/// The stream of a peer that sends these bytes.
pub fn recorded(alloc: Global, sent: &[u8]) -> Result<Recorded<'_>, AllocError> {
    Ok(Stream {
        reader: FromRead::new(Cursor::new(sent)),
        writer: output(alloc)?,
    })
}
