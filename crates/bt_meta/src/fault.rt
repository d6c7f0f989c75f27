//! Why bytes are no metainfo file.

ghost use Rattle.std.specs.Prelude.{◌≡◌};
ghost use Rattle.bt_meta.specs.declared.fault.MetaFault.TheVariants.{NoMemory};
ghost use Rattle.bt_meta.specs.Faults.{fault_number, of_bencode};

use crate::key::Key;
use bt_bencode::BenFault;
use std::alloc::{AllocError, AllocFailed};
use thiserror::Error;

/// Why bytes are no metainfo file, or why parts make no torrent.
#[derive(Clone, Copy, Debug, PartialEq, Eq, Error)]
pub enum MetaFault {
    #[error("no bencode: {0}")]
    Bencode(BenFault),
    #[error("the file isn't a dictionary")]
    NotDictionary,
    #[error("`{0}` is missing")]
    Missing(Key),
    #[error("`{0}` isn't of its kind")]
    WrongKind(Key),
    #[error("the piece length isn't 1 to 2^31 bytes")]
    PieceLength,
    #[error("`pieces` isn't a row of digests of 20 bytes")]
    PiecesLength,
    #[error("both `length` and `files` are there")]
    BothLengthAndFiles,
    #[error("there is no content")]
    NoContent,
    #[error("the number of digests isn't the number of pieces")]
    CountMismatch,
    #[error("the content or its number of pieces is too large")]
    TooLarge,
    #[error("out of memory")]
    NoMemory,
}

impl MetaFault {
    /// Its number, 1 to 11, by which programs report it.
    pub fn number(self) -> u8
        ensures { result ≡ fault_number self }
    {
        match self {
            MetaFault::Bencode(_) => 1,
            MetaFault::NotDictionary => 2,
            MetaFault::Missing(_) => 3,
            MetaFault::WrongKind(_) => 4,
            MetaFault::PieceLength => 5,
            MetaFault::PiecesLength => 6,
            MetaFault::BothLengthAndFiles => 7,
            MetaFault::NoContent => 8,
            MetaFault::CountMismatch => 9,
            MetaFault::TooLarge => 10,
            MetaFault::NoMemory => 11,
        }
    }
}

impl From<BenFault> for MetaFault {
    ghost from_gives = { λ fault e. e ≡ of_bencode fault };

    fn from(fault: BenFault) -> MetaFault {
        match fault {
            BenFault::NoMemory => MetaFault::NoMemory,
            fault => MetaFault::Bencode(fault),
        }
    }
}

impl From<AllocError> for MetaFault {
    ghost from_gives = { λ _ e. e ≡ NoMemory };

    fn from(_e: AllocError) -> MetaFault {
        MetaFault::NoMemory
    }
}

impl<T: Drop> From<AllocFailed<T>> for MetaFault {
    ghost from_gives = { λ _ e. e ≡ NoMemory };

    fn from(_e: AllocFailed<T>) -> MetaFault {
        MetaFault::NoMemory
    }
}

/// Why bytes are no bitfield of so many pieces.
#[derive(Clone, Copy, Debug, PartialEq, Eq, Error)]
pub enum BitFault {
    #[error("the bitfield hasn't one bit a piece")]
    WrongCount,
    #[error("a spare bit at the bitfield's end is set")]
    SpareBits,
    #[error("out of memory")]
    NoMemory,
}
