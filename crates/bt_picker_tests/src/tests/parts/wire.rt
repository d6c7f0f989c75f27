//! Messages and inbound streams, by worked examples. What is fed, given and put goes through functions without an `ensures`, so that a test
//! knows of what they say alone, and its proof is short.

ghost use Rattle.bt_wire.specs.Messages.{CanEncode};

use bt_expect::{same, same_for};
use bt_wire::*;
use bytes::Bytes;
use std::alloc::{AllocError, Global};
use std::fmt::Write;
use std::process::Abort;
use std::test::*;

const LIMIT: u32 = 1_048_576;

const HELLO: Hello = Hello {
    reserved: [1, 2, 3, 4, 5, 6, 7, 8],
    infohash: [7; 20],
    peer_id: [9; 20],
};

/// What `HELLO` says.
const HELLO_TOLD: &str = "Hello(Hello { reserved: [1, 2, 3, 4, 5, 6, 7, 8], \
    infohash: [7, 7, 7, 7, 7, 7, 7, 7, 7, 7, 7, 7, 7, 7, 7, 7, 7, 7, 7, 7], \
    peer_id: [9, 9, 9, 9, 9, 9, 9, 9, 9, 9, 9, 9, 9, 9, 9, 9, 9, 9, 9, 9] }) ";

/// The bytes of `HELLO`.
fn hello_bytes() -> [u8; 68] {
    HELLO.write()
}

/// A stream of which nothing came yet.
fn opened(alloc: Global) -> Inbound {
    Inbound::new(alloc, LIMIT)
}

fn feed(inbound: &mut Inbound, piece: &[u8]) -> Result<(), WireFault> {
    inbound.feed(piece)
}

/// Takes the piece. A call that found no memory has changed nothing, and is made once more.
fn feed_again(inbound: &mut Inbound, piece: &[u8]) -> Result<(), WireFault> {
    match feed(inbound, piece) {
        Err(WireFault::NoMemory) => feed(inbound, piece),
        fed => fed,
    }
}

fn next(inbound: &mut Inbound, alloc: Global) -> Result<Option<Message>, WireFault> {
    inbound.next(alloc)
}

/// The message in front. A call that found no memory has changed nothing, and is made once more.
fn next_again(inbound: &mut Inbound, alloc: Global) -> Result<Option<Message>, WireFault> {
    match next(inbound, alloc) {
        Err(WireFault::NoMemory) => next(inbound, alloc),
        given => given,
    }
}

/// How many bytes stand behind what was given.
fn rest(inbound: &Inbound) -> usize {
    inbound.rest()
}

/// Appends what stands in front: the messages, and then the fault if one follows.
fn tell(alloc: Global, inbound: &mut Inbound, said: &mut String) -> Result<(), Fail> {
    for _ in 0..20 {
        match next_again(inbound, alloc) {
            Ok(Some(message)) => write!(said, "{message:?} ")?,
            Ok(None) => return Ok(()),
            Err(fault) => {
                write!(said, "{fault:?} ")?;
                return Ok(());
            }
        }
    }
    Ok(())
}

/// Feeds the piece, and appends what stands in front then, behind the fault that refused it if one did.
fn feed_and_tell(
    alloc: Global,
    inbound: &mut Inbound,
    piece: &[u8],
    said: &mut String,
) -> Result<(), Fail> {
    if let Err(fault) = feed_again(inbound, piece) {
        write!(said, "refused by {fault:?} ")?;
    }
    tell(alloc, inbound, said)
}

/// What stands in front once the piece came.
fn told(alloc: Global, inbound: &mut Inbound, piece: &[u8]) -> Result<String, Fail> {
    let mut said = String::new(alloc);
    feed_and_tell(alloc, inbound, piece, &mut said)?;
    Ok(said)
}

/// Checks what stands in front once the piece came.
fn tells(alloc: Global, inbound: &mut Inbound, piece: &[u8], wanted: &str) -> Result<(), Fail> {
    let said = told(alloc, inbound, piece)?;
    same(said.as_str(), wanted)
}

/// A stream whose handshake was given.
fn greeted(alloc: Global) -> Result<Inbound, Fail> {
    let mut inbound = opened(alloc);
    tells(alloc, &mut inbound, &hello_bytes(), HELLO_TOLD)?;
    Ok(inbound)
}

/// What stands in front after each piece of so many bytes, with a stroke behind it.
fn told_in_pieces(
    alloc: Global,
    inbound: &mut Inbound,
    bytes: &[u8],
    len: usize,
) -> Result<String, Fail> {
    let mut said = String::new(alloc);
    for piece in bytes.chunks(len.max(1)) {
        feed_and_tell(alloc, inbound, piece, &mut said)?;
        said.push_str("| ")?;
    }
    Ok(said)
}

/// Bytes after the handshake, the length of the pieces that they are fed in, and what stands in front after each piece, with a stroke behind it.
const ROWS: &[(&[u8], usize, &str)] = &[
    (&[0, 0, 0, 0], 4, "KeepAlive | "),
    (&[0, 0, 0, 2, 20, 255], 6, "Unknown(20) | "),
    (
        &[0, 0, 0, 5, 4, 0, 0, 0, 2],
        1,
        "| | | | | | | | Have(2) | ",
    ),
    (
        &[
            0, 0, 0, 3, 20, 0, 0, 0, 0, 0, 1, 14, 0, 0, 0, 1, 17, 0, 0, 0, 2, 5, 128,
        ],
        23,
        "Unknown(20) Unknown(14) Unknown(17) Bits(b\"\\x80\") | ",
    ),
    (&[0, 16, 0, 0], 4, "| "),
    (
        &[0, 16, 0, 1, 0],
        1,
        "| | | TooLong | refused by TooLong TooLong | ",
    ),
    (&[0, 0, 0, 1, 0, 0, 16, 0, 1], 9, "Choke TooLong | "),
    (&[0, 0, 0, 2, 0, 0], 5, "| BadLength | "),
    (&[0, 0, 0, 1, 4], 5, "BadLength | "),
    (
        &[0, 0, 0, 12, 6, 0, 0, 0, 0, 0, 0, 0, 0, 0, 0, 0],
        16,
        "BadLength | ",
    ),
    (&[0, 0, 0, 8, 7, 0, 0, 0, 0, 0, 0, 0], 12, "BadLength | "),
    (
        &[0, 0, 0, 10, 8, 0, 0, 0, 0, 0, 0, 0, 0, 0],
        14,
        "BadLength | ",
    ),
    (
        &[0, 0, 0, 1, 5, 0, 0, 0, 1, 9],
        10,
        "Bits(b\"\") Unknown(9) | ",
    ),
];

/// Checks what stands in front behind a handshake.
fn frame(alloc: Global, bytes: &[u8], len: usize, wanted: &str) -> Result<(), Fail> {
    let mut inbound = greeted(alloc)?;
    let said = told_in_pieces(alloc, &mut inbound, bytes, len)?;
    same(said.as_str(), wanted)
}

#[test]
fn frames(rt: HostRuntime) -> Result<(), Fail> {
    for &(bytes, len, wanted) in ROWS {
        frame(rt.alloc(), bytes, len, wanted)?;
    }
    Ok(())
}

/// The handshake in two pieces, and three bytes behind it.
fn one_handshake(alloc: Global, inbound: &mut Inbound, bytes: &[u8; 68]) -> Result<(), Fail> {
    let (front, last) = bytes.split_at(67);
    tells(alloc, inbound, front, "")?;
    feed_again(inbound, last)?;
    tells(alloc, inbound, &[0, 0, 0], HELLO_TOLD)?;
    same(rest(inbound), 3)
}

/// Another byte in the place of the first.
fn a_strange_handshake(
    rt: &impl Abort,
    alloc: Global,
    inbound: &mut Inbound,
    bytes: &[u8; 68],
) -> Result<(), Fail> {
    let (front, last) = bytes.split_at(67);
    feed_again(inbound, &[18])?;
    tells(alloc, inbound, &front[1..], "")?;
    tells(alloc, inbound, last, "BadHandshake ")?;
    assert!(rt; feed(inbound, &[0]) == Err(WireFault::BadHandshake));
    same(rest(inbound), 68)
}

#[test]
fn handshakes(rt: HostRuntime) -> Result<(), Fail> {
    let bytes = hello_bytes();
    one_handshake(rt.alloc(), &mut opened(rt.alloc()), &bytes)?;
    a_strange_handshake(&rt, rt.alloc(), &mut opened(rt.alloc()), &bytes)
}

/// Checks that the stream has a handshake, a message and a fault.
fn ends_in_a_fault(alloc: Global, inbound: &mut Inbound, stream: &[u8]) -> Result<(), Fail> {
    let said = told(alloc, inbound, stream)?;
    same(said.strip_prefix(HELLO_TOLD), Some("Choke TooLong "))?;
    same(rest(inbound), 4)
}

/// The handshake, a message and a length beyond the limit, all in one piece.
#[test]
fn a_fault_behind_messages(rt: HostRuntime) -> Result<(), Fail> {
    let mut stream = Vec::from_slice(rt.alloc(), &hello_bytes())?;
    stream.extend_from_slice(&[0, 0, 0, 1, 0, 0, 16, 0, 1])?;
    ends_in_a_fault(rt.alloc(), &mut opened(rt.alloc()), &stream)
}

/// The length of the bitfield in front.
fn bits_len(alloc: Global, inbound: &mut Inbound) -> Result<usize, Fail> {
    match next_again(inbound, alloc)? {
        Some(Message::Bits(given)) => Ok(given.len()),
        _ => Err("no bitfield")?,
    }
}

/// So many bytes of a bitfield.
fn bits(alloc: Global, count: usize) -> Result<Vec<u8>, AllocError> {
    vec![in alloc; 170; count]
}

/// Takes the longest bitfield, and gives it.
fn takes_the_longest(alloc: Global, inbound: &mut Inbound) -> Result<(), Fail> {
    feed_again(inbound, &[0, 16, 0, 0, 5])?;
    feed_again(inbound, &bits(alloc, 1_048_575)?)?;
    same(bits_len(alloc, inbound)?, 1_048_575)?;
    same(rest(inbound), 0)
}

#[test]
fn a_frame_at_the_limit(rt: HostRuntime) -> Result<(), Fail> {
    let mut inbound = greeted(rt.alloc())?;
    takes_the_longest(rt.alloc(), &mut inbound)
}

fn limit_of(pieces: u32) -> u32 {
    frame_limit(pieces)
}

#[test]
fn limits_of_frames() -> Result<(), Fail> {
    const ROWS: &[(u32, u32)] = &[
        (1, 1_048_576),
        (8_388_600, 1_048_576),
        (8_388_601, 1_048_577),
        (u32::MAX, 536_870_913),
    ];
    for &(pieces, wanted) in ROWS {
        same(limit_of(pieces), wanted)?;
    }
    Ok(())
}

/// A message of each kind.
const EACH_KIND: [u8; 94] = [
    0, 0, 0, 0, // keepalive
    0, 0, 0, 1, 0, // choke
    0, 0, 0, 1, 1, // unchoke
    0, 0, 0, 1, 2, // interested
    0, 0, 0, 1, 3, // not interested
    0, 0, 0, 5, 4, 0, 0, 0, 2, // have
    0, 0, 0, 2, 5, 224, // bitfield
    0, 0, 0, 13, 6, 1, 2, 3, 4, 5, 6, 7, 8, 0, 0, 64, 0, // request
    0, 0, 0, 12, 7, 0, 0, 0, 0, 0, 0, 0, 0, 97, 98, 99, // piece
    0, 0, 0, 13, 8, 1, 2, 3, 4, 5, 6, 7, 8, 0, 0, 64, 0, // cancel
    0, 0, 0, 1, 20, // unknown
];

/// What `EACH_KIND` says.
const EACH_KIND_TOLD: &str =
    "KeepAlive Choke Unchoke Interested NotInterested Have(2) Bits(b\"\\xe0\") \
    Request { piece: 16909060, begin: 84281096, len: 16384 } Piece { piece: 0, begin: 0, bytes: b\"abc\" } \
    Cancel { piece: 16909060, begin: 84281096, len: 16384 } Unknown(20) ";

/// Checks what stands in front as these messages come in pieces of so many bytes, and that no byte stands behind.
fn each_kind_in(alloc: Global, len: usize) -> Result<(), Fail> {
    let mut inbound = greeted(alloc)?;
    let mut said = String::new(alloc);
    for piece in EACH_KIND.chunks(len.max(1)) {
        feed_and_tell(alloc, &mut inbound, piece, &mut said)?;
    }
    same_for(said.as_str(), EACH_KIND_TOLD, len)?;
    same(rest(&inbound), 0)
}

#[test]
fn each_kind_in_pieces(rt: HostRuntime) -> Result<(), Fail> {
    for len in [1, 7, 94] {
        each_kind_in(rt.alloc(), len)?;
    }
    Ok(())
}

fn put(message: &Message, out: &mut Vec<u8>) -> Result<(), AllocError>
    requires { CanEncode message.now }
{
    encode(message, out)
}

/// The message at this place of `EACH_KIND`.
fn message_at(place: usize) -> Message
    ensures { CanEncode result }
{
    let (piece, begin, len) = (0x01_02_03_04, 0x05_06_07_08, 16_384);
    match place {
        0 => Message::KeepAlive,
        1 => Message::Choke,
        2 => Message::Unchoke,
        3 => Message::Interested,
        4 => Message::NotInterested,
        5 => Message::Have(2),
        6 => Message::Bits(Bytes::from_static(&[224])),
        7 => Message::Request { piece, begin, len },
        8 => Message::Piece {
            piece: 0,
            begin: 0,
            bytes: Bytes::from_static(b"abc"),
        },
        9 => Message::Cancel { piece, begin, len },
        _ => Message::Unknown(20),
    }
}

#[test]
fn encoded(rt: HostRuntime) -> Result<(), Fail> {
    let mut out = Vec::new(rt.alloc());
    for place in 0..11 {
        put(&message_at(place), &mut out)?;
    }
    same(out.as_slice(), EACH_KIND.as_slice())
}

/// Puts the message behind the others. One that found no room has left no byte, and is put once more.
fn put_have(piece: u32, out: &mut Vec<u8>) -> Result<(), AllocError> {
    let message = Message::Have(piece);
    match put(&message, out) {
        Ok(()) => Ok(()),
        Err(AllocError) => put(&message, out),
    }
}

/// Puts a message of each piece, up to that one.
fn put_haves(pieces: u32, out: &mut Vec<u8>) -> Result<(), AllocError> {
    for piece in 0..pieces {
        put_have(piece, out)?;
    }
    Ok(())
}

/// Checks that the bytes are a message of each of a hundred pieces.
fn are_haves(bytes: &[u8]) -> Result<(), Fail> {
    same(bytes.len(), 900)?;
    for (piece, frame) in (0..100_u8).zip(bytes.chunks(9)) {
        same(frame, [0, 0, 0, 5, 4, 0, 0, 0, piece].as_slice())?;
    }
    Ok(())
}

#[test]
fn a_message_that_found_no_room_is_put_once_more(rt: HostRuntime) -> Result<(), Fail> {
    let mut out = Vec::new(rt.alloc());
    put_haves(100, &mut out)?;
    are_haves(&out)
}
