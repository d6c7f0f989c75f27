//! Why a call at a handle did nothing.
ghost use Rattle.std.specs.Prelude.{◌≡◌};
ghost use Rattle.bt_c.specs.Statuses.{fault_number, of_metainfo, of_untold};
ghost use Rattle.bt_c.specs.declared.fault.Fault.TheVariants.{NoMemory};

use crate::engine::Untold;
use bt_meta::MetaFault;
use std::alloc::{AllocError, AllocFailed};

/// Why a call at a handle did nothing.
#[derive(Clone, Copy, Debug, PartialEq, Eq)]
pub enum Fault {
    /// The handle holds nothing. No pointer that was opened has such a handle.
    Closed,
    /// The pointer that is to be filled isn't NULL.
    Open,
    /// No such worker; or, where a picker is to be made, a number of workers that isn't 1 to 1,024.
    Worker,
    /// No such piece.
    Piece,
    /// Not as many bytes as hold a bit for each piece.
    BitsLength,
    /// A bit behind those of the pieces is set.
    SpareBits,
    /// The buffer has another length than what is to be written.
    Room,
    NoMemory,
    /// The piece isn't complete.
    Incomplete,
    /// A depth that isn't 1 to 64, a greatest one that isn't 1 to 4,096, no askers, more pieces at random than there are, more than 1,024 open
    /// ones, a `rush` above 4,096, or a `shown` above 1.
    Rules,
    /// The piece isn't full, or is complete already: there is nothing to check.
    NotWaiting,
    /// The handle holds no job.
    NoJob,
    /// The job wasn't hashed.
    NotHashed,
    /// Fewer blocks than that are requested from the peer.
    Place,
    /// The picker doesn't keep what the call needs, or keeps what makes it needless.
    Keeps,
    /// The options have another size, or say that something is kept which isn't.
    Options,
    /// The bytes that were hashed are no longer those that are held.
    Stale,
    /// No such block of the piece.
    Block,
    /// The block isn't held.
    NotHeld,
    /// A block of the piece is held or requested from a peer, or the piece is complete already.
    Begun,
    /// No such file of the torrent.
    File,
    /// No such name on the file's path.
    Part,
    /// The bytes are no metainfo file, or the parts make no torrent.
    Metainfo(MetaFault),
}

impl Fault {
    /// Its number.
    pub fn number(self) -> u32
        ensures { result ≡ fault_number self }
    {
        match self {
            Fault::Closed => 1,
            Fault::Open => 2,
            Fault::Worker => 3,
            Fault::Piece => 4,
            Fault::BitsLength => 5,
            Fault::SpareBits => 6,
            Fault::Room => 7,
            Fault::NoMemory => 8,
            Fault::Incomplete => 9,
            Fault::Rules => 10,
            Fault::NotWaiting => 11,
            Fault::NoJob => 12,
            Fault::NotHashed => 13,
            Fault::Place => 14,
            Fault::Keeps => 15,
            Fault::Options => 16,
            Fault::Stale => 17,
            Fault::Block => 18,
            Fault::NotHeld => 19,
            Fault::Begun => 20,
            Fault::File => 21,
            Fault::Part => 22,
            Fault::Metainfo(fault) => 100 + u32::from(fault.number()),
        }
    }
}

impl From<AllocError> for Fault {
    ghost from_gives = { λ _ e. e ≡ NoMemory };

    fn from(_fault: AllocError) -> Fault {
        Fault::NoMemory
    }
}

impl From<Untold> for Fault {
    ghost from_gives = { λ fault e. e ≡ of_untold fault };

    fn from(fault: Untold) -> Fault {
        match fault {
            Untold::NoMemory => Fault::NoMemory,
            Untold::Journal => Fault::Keeps,
        }
    }
}

impl<T: Drop> From<AllocFailed<T>> for Fault {
    ghost from_gives = { λ _ e. e ≡ NoMemory };

    fn from(_fault: AllocFailed<T>) -> Fault {
        Fault::NoMemory
    }
}

impl From<MetaFault> for Fault {
    ghost from_gives = { λ fault e. e ≡ of_metainfo fault };

    fn from(fault: MetaFault) -> Fault {
        match fault {
            MetaFault::NoMemory => Fault::NoMemory,
            fault => Fault::Metainfo(fault),
        }
    }
}
