//! Why a run in threads comes to nothing.

ghost use Rattle.std.specs.Prelude.{◌≡◌};
ghost use Rattle.bt_session.specs.declared.fault.SwarmFault.TheVariants.{NoMemory};
ghost use Rattle.bt_session.specs.Runs.{swarm_fault};

use bt_shared::GatherFault;
use std::alloc::AllocError;
use thiserror::Error;

/// Why a run in threads came to nothing. All its threads have ended.
#[derive(Clone, Copy, Debug, PartialEq, Eq, Error)]
pub enum SwarmFault {
    #[error("memory")]
    NoMemory,
    #[error("gather fault {}", gather_number(.0))]
    Gather(GatherFault),
    /// A thread couldn't be started. Those that were have gone to their sessions' ends.
    #[error("no thread")]
    NoThread,
}

impl From<AllocError> for SwarmFault {
    ghost from_gives = { λ _ fault. fault ≡ NoMemory };

    fn from(_e: AllocError) -> SwarmFault {
        SwarmFault::NoMemory
    }
}

impl From<GatherFault> for SwarmFault {
    ghost from_gives = { λ cause fault. fault ≡ swarm_fault cause };

    fn from(fault: GatherFault) -> SwarmFault {
        match fault {
            GatherFault::NoMemory => SwarmFault::NoMemory,
            _ => SwarmFault::Gather(fault),
        }
    }
}

/// The place of the fault in its enum, from 1.
fn gather_number(fault: &GatherFault) -> u8 {
    match fault {
        GatherFault::PassMissing { .. } => 1,
        GatherFault::LogsDiffer { .. } => 2,
        GatherFault::BoardDiffers { .. } => 3,
        GatherFault::NoMemory => 4,
    }
}
