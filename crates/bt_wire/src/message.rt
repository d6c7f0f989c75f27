//! What peers say to one another.

ghost use Rattle.std.specs.Prelude.{◌≡◌};
ghost use Rattle.bt_wire.specs.declared.message.WireFault.TheVariants.{NoMemory};

use crate::hello::Hello;
use bytes::Bytes;
use std::alloc::AllocError;
use thiserror::Error;

/// A message of BEP 3. A piece is named by its index, and a block by its piece, the offset of its first byte in the piece and its length,
/// both in bytes. The encoding in `specs/` takes the fields by position, and tests compare the text of `Debug`: an edit here shows in both.
#[derive(Debug, Drop, PartialEq, Eq)]
pub enum Message {
    Hello(Hello),
    KeepAlive,
    Choke,
    Unchoke,
    Interested,
    NotInterested,
    Have(u32),
    /// The pieces that the peer has, as the bytes on the wire.
    Bits(Bytes),
    Request {
        piece: u32,
        begin: u32,
        len: u32,
    },
    Piece {
        piece: u32,
        begin: u32,
        bytes: Bytes,
    },
    Cancel {
        piece: u32,
        begin: u32,
        len: u32,
    },
    /// A type that BEP 3 doesn't have, as 20 for extended messages. Its payload is skipped.
    Unknown(u8),
}

/// What is wrong with a stream.
#[derive(Clone, Copy, Debug, PartialEq, Eq, Error)]
pub enum WireFault {
    #[error("the first 68 bytes are no handshake")]
    BadHandshake,
    #[error("the length of a message is above the limit")]
    TooLong,
    #[error("a message of a known type has another length")]
    BadLength,
    #[error("out of memory")]
    NoMemory,
}

impl From<AllocError> for WireFault {
    ghost from_gives = { λ _ e. e ≡ NoMemory };

    fn from(_e: AllocError) -> WireFault {
        WireFault::NoMemory
    }
}
