//! How a session ends.

ghost use Rattle.std.specs.Prelude.{◌≡◌};
ghost use Rattle.bt_peer.specs.declared.fault.SessionFault.TheVariants.{NoMemory, ReadFault};
ghost use Rattle.bt_peer.specs.Reader.{session_fault};

use bt_history::Reason;
use bt_meta::DeviceFault;
use bt_wire::WireFault;
use std::alloc::AllocError;
use thiserror::Error;

/// A session that came to the end of its input.
#[derive(Clone, Copy, Debug, PartialEq, Eq)]
pub struct End {
    /// How many messages came after the handshake.
    pub messages: u64,
}

/// Why a session ended before its input did.
#[derive(Clone, Copy, Debug, PartialEq, Eq, Error)]
pub enum SessionFault {
    #[error("the peer's stream: {0}")]
    Wire(WireFault),
    #[error("the peer is of another torrent")]
    WrongInfohash,
    #[error("the peer's stream ends within a message")]
    Truncated,
    #[error("the picker refused a call: {0:?}")]
    Refused(Reason),
    #[error("a read failed")]
    ReadFault,
    #[error("a write failed")]
    WriteFault,
    #[error("out of memory")]
    NoMemory,
    #[error("a bitfield that is none of this torrent")]
    BadBits,
}

impl From<AllocError> for SessionFault {
    ghost from_gives = { λ _ e. e ≡ NoMemory };

    fn from(_e: AllocError) -> SessionFault {
        SessionFault::NoMemory
    }
}

impl From<WireFault> for SessionFault {
    ghost from_gives = { λ w e. e ≡ session_fault w };

    fn from(fault: WireFault) -> SessionFault {
        match fault {
            WireFault::NoMemory => SessionFault::NoMemory,
            _ => SessionFault::Wire(fault),
        }
    }
}

/// A read that failed.
impl From<DeviceFault> for SessionFault {
    ghost from_gives = { λ _ e. e ≡ ReadFault };

    fn from(_fault: DeviceFault) -> SessionFault {
        SessionFault::ReadFault
    }
}
