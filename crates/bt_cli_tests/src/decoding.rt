//! The messages of a recorded stream by type, however it is cut.

use crate::counts::Counts;
use anyhow::{Result, bail};
use bt_meta::Torrent;
use bt_wire::{Inbound, frame_limit};
use std::alloc::Global;
use std::fs;
use std::fs::Files;
use std::io::Print;

/// Prints the messages of a stream by type, for each of the lengths of pieces that it may come in: `META STREAM LEN,LEN..`.
pub fn decode<R: Files + Print + AllocGlobal>(rt: &R, words: &[String]) -> Result<()> {
    let [meta, stream, lens] = words else {
        bail!("decode META STREAM LEN,LEN..");
    };
    let limit = limit_of(rt, meta.as_str())?;
    decode_stream(rt, stream.as_str(), lens.as_str(), limit)
}

/// The longest message that a peer of the torrent of this metainfo file sends.
fn limit_of<R: Files + AllocGlobal>(rt: &R, meta: &str) -> Result<u32> {
    let meta = fs::read(rt, meta)?;
    let torrent = Torrent::read(rt.alloc(), &meta)?;
    Ok(frame_limit(torrent.piece_count()))
}

/// The same of the stream of this name.
fn decode_stream<R: Files + Print + AllocGlobal>(
    rt: &R,
    name: &str,
    lens: &str,
    limit: u32,
) -> Result<()> {
    let bytes = fs::read(rt, name)?;
    decode_bytes(rt, name, &bytes, lens, limit)
}

/// The same of the bytes of the stream with this name.
fn decode_bytes<R: Print + AllocGlobal>(
    rt: &R,
    name: &str,
    bytes: &[u8],
    lens: &str,
    limit: u32,
) -> Result<()> {
    for len in lens.split(',') {
        let counts = count(rt.alloc(), bytes, len.parse::<usize>()?, limit)?;
        println!(rt; "{name} in pieces of {len}: {counts}")?;
    }
    Ok(())
}

/// The messages of a stream that comes in pieces of this many bytes.
fn count(alloc: Global, bytes: &[u8], len: usize, limit: u32) -> Result<Counts> {
    let mut inbound = Inbound::new(alloc, limit);
    let mut counts = Counts::new();
    for piece in bytes.chunks(len.max(1)) {
        inbound.feed(piece)?;
        take_all(alloc, &mut inbound, &mut counts)?;
    }
    counts.set_rest(inbound.rest());
    Ok(counts)
}

/// Counts the messages that are there.
fn take_all(alloc: Global, inbound: &mut Inbound, counts: &mut Counts) -> Result<()> {
    'messages: while let Some(message) = inbound.next(alloc)? {
        counts.add(&message);
    }
    Ok(())
}
