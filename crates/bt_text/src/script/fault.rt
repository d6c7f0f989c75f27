//! Why a line of a script is refused.

use crate::fault::Fault;
use bt_meta::BitFault;
use std::alloc::{AllocError, AllocFailed};

/// Why a line of a script can't be done.
#[derive(Clone, Copy, Debug, PartialEq, Eq)]
pub enum LineFault {
    /// It has another form, or a number or a bitfield that isn't one of the torrent and its workers.
    NotAllowed,
    NoMemory,
}

impl LineFault {
    ghost use Rattle.std.specs.Prelude.{◌≡◌, ◌<◌, ◌+◌, ◌^◌};
    ghost use Rattle.bt_text.specs.Scripts.{of_line};

    /// The fault of the command, where it came of line `index`, counted from 0.
    pub fn at(self, index: usize) -> Fault
        requires { index + 1 < 2 ^ 64 }
        ensures { result ≡ of_line self index }
    {
        match self {
            LineFault::NotAllowed => Fault::Line(index as u64 + 1),
            LineFault::NoMemory => Fault::Memory,
        }
    }
}

impl From<AllocError> for LineFault {
    ghost use Rattle.std.specs.Prelude.{◌≡◌};
    ghost use Rattle.bt_text.specs.declared.script.fault.LineFault.TheVariants.{NoMemory};

    ghost from_gives = { λ _ e. e ≡ NoMemory };

    fn from(_e: AllocError) -> LineFault {
        LineFault::NoMemory
    }
}

impl<T: Drop> From<AllocFailed<T>> for LineFault {
    ghost use Rattle.std.specs.Prelude.{◌≡◌};
    ghost use Rattle.bt_text.specs.declared.script.fault.LineFault.TheVariants.{NoMemory};

    ghost from_gives = { λ _ e. e ≡ NoMemory };

    fn from(_e: AllocFailed<T>) -> LineFault {
        LineFault::NoMemory
    }
}

impl From<BitFault> for LineFault {
    ghost use Rattle.std.specs.Prelude.{◌≡◌};
    ghost use Rattle.bt_text.specs.Scripts.{of_bits};

    ghost from_gives = { λ fault e. e ≡ of_bits fault };

    fn from(fault: BitFault) -> LineFault {
        match fault {
            BitFault::NoMemory => LineFault::NoMemory,
            BitFault::WrongCount | BitFault::SpareBits => LineFault::NotAllowed,
        }
    }
}
