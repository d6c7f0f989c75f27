//! How a command ends.

ghost use Rattle.std.specs.Prelude.{◌≡◌, ◌⊎◌, ◌++◌, Some, codes, true, OnOk, OnErr};
ghost use Rattle.std.specs.Io.KnownBytes.{Appends};
ghost use Rattle.bt_text.specs.Statuses.{bit_fault_number, fault_text, gather_fault_number, of_gather, of_metainfo, of_want, status_of};
ghost use Rattle.bt_text.specs.declared.fault.Fault.TheVariants.{Memory};

use crate::printing::{print, print_numbered};
use bt_meta::{BitFault, DeviceFault, MetaFault, Sink};
use bt_shared::GatherFault;
use std::alloc::{AllocError, AllocFailed};
use std::{fmt, io};

/// Why a command ended before it was done.
#[derive(Clone, Copy, Debug, PartialEq, Eq)]
pub enum Fault {
    /// A line of a script, counted from 1.
    Line(u64),
    Metainfo(MetaFault),
    /// What is to be downloaded is no set of the torrent's pieces.
    Want(BitFault),
    /// More pieces are to be picked at random than there are.
    Random,
    /// Opening, reading or writing a file failed; standard input and output are files too.
    File,
    Memory,
    /// A thread couldn't be started.
    NoThread,
    /// The logs of a run in threads aren't what its journal has.
    Gather(GatherFault),
}

impl Fault {
    /// The exit status of the program.
    pub fn status(self) -> u8
        ensures { result ≡ status_of self }
    {
        match self {
            Fault::Line(_) | Fault::Want(_) | Fault::Random => 2,
            Fault::Metainfo(_) => 3,
            Fault::File => 4,
            Fault::Memory | Fault::NoThread => 5,
            Fault::Gather(_) => 6,
        }
    }
}

/// The number by which a fault of a bitfield is told.
fn bit_fault_number(fault: BitFault) -> u8
    ensures { result ≡ bit_fault_number fault }
{
    match fault {
        BitFault::WrongCount => 1,
        BitFault::SpareBits => 2,
        BitFault::NoMemory => 3,
    }
}

/// The number by which a fault of gathering is told.
fn gather_fault_number(fault: GatherFault) -> u8
    ensures { result ≡ gather_fault_number fault }
{
    match fault {
        GatherFault::PassMissing { .. } => 1,
        GatherFault::LogsDiffer { .. } => 2,
        GatherFault::BoardDiffers { .. } => 3,
        GatherFault::NoMemory => 4,
    }
}

/// The line that tells the fault on standard error, without its end.
impl fmt::Display for Fault {
    ghost output = { λ fault. Some (fault_text fault) };

    fn fmt<W: fmt::Write>(&self, f: &mut fmt::Formatter<W>) -> fmt::Result {
        match *self {
            Fault::Line(number) => write!(f, "line {number}"),
            Fault::Metainfo(fault) => {
                let number = fault.number();
                write!(f, "metainfo fault {number}")
            }
            Fault::Want(fault) => {
                let number = bit_fault_number(fault);
                write!(f, "want fault {number}")
            }
            Fault::Random => write!(f, "random fault"),
            Fault::File => write!(f, "file fault"),
            Fault::Memory => write!(f, "memory"),
            Fault::NoThread => write!(f, "no thread"),
            Fault::Gather(fault) => {
                let number = gather_fault_number(fault);
                write!(f, "gather fault {number}")
            }
        }
    }
}

/// Writes the line that tells the fault, with no memory.
pub fn print_fault<E: Sink>(err: &mut E, fault: Fault) -> Result<(), DeviceFault>
    ensures ok { OnOk result (Appends (E.written err.old) (E.written err.new) (fault_text fault ++ codes "\n")) }
    ensures err { OnErr result (E.failed err.new ≡ true) }
{
    print_fault_text(err, fault)?;
    print(err, "\n")
}

/// Writes the same without its end.
fn print_fault_text<E: Sink>(err: &mut E, fault: Fault) -> Result<(), DeviceFault>
    ensures ok { OnOk result (Appends (E.written err.old) (E.written err.new) (fault_text fault)) }
    ensures err { OnErr result (E.failed err.new ≡ true) }
{
    match fault {
        Fault::Line(number) => print_numbered(err, "line ", number),
        Fault::Metainfo(fault) => {
            print_numbered(err, "metainfo fault ", u64::from(fault.number()))
        }
        Fault::Want(fault) => {
            print_numbered(err, "want fault ", u64::from(bit_fault_number(fault)))
        }
        Fault::Random => print(err, "random fault"),
        Fault::File => print(err, "file fault"),
        Fault::Memory => print(err, "memory"),
        Fault::NoThread => print(err, "no thread"),
        Fault::Gather(fault) => {
            print_numbered(err, "gather fault ", u64::from(gather_fault_number(fault)))
        }
    }
}

/// Writes the fault's line, and answers the exit status. That the line can't be written changes nothing.
pub fn tell_fault<E: Sink>(fault: Fault, err: &mut E) -> u8
    ensures status { result ≡ status_of fault }
    // It was told, or the writer has failed.
    ensures told { (E.failed err.new ≡ true) ⊎ Appends (E.written err.old) (E.written err.new) (fault_text fault ++ codes "\n") }
{
    match print_fault(err, fault) {
        Ok(()) => fault.status(),
        Err(DeviceFault) => fault.status(),
    }
}

impl From<MetaFault> for Fault {
    ghost from_gives = { λ fault e. e ≡ of_metainfo fault };

    fn from(fault: MetaFault) -> Fault {
        match fault {
            MetaFault::NoMemory => Fault::Memory,
            fault => Fault::Metainfo(fault),
        }
    }
}

/// A fault of the bitfield that says what is to be downloaded.
impl From<BitFault> for Fault {
    ghost from_gives = { λ fault e. e ≡ of_want fault };

    fn from(fault: BitFault) -> Fault {
        match fault {
            BitFault::NoMemory => Fault::Memory,
            fault => Fault::Want(fault),
        }
    }
}

/// A fault of gathering what a run in threads came to.
impl From<GatherFault> for Fault {
    ghost from_gives = { λ fault e. e ≡ of_gather fault };

    fn from(fault: GatherFault) -> Fault {
        match fault {
            GatherFault::NoMemory => Fault::Memory,
            fault => Fault::Gather(fault),
        }
    }
}

impl From<AllocError> for Fault {
    ghost from_gives = { λ _ e. e ≡ Memory };

    fn from(_e: AllocError) -> Fault {
        Fault::Memory
    }
}

impl<T: Drop> From<AllocFailed<T>> for Fault {
    ghost from_gives = { λ _ e. e ≡ Memory };

    fn from(_e: AllocFailed<T>) -> Fault {
        Fault::Memory
    }
}

/// A writer over memory fails for want of memory; any other failure is the file's.
impl From<io::Error> for Fault {
    ghost use Rattle.std.specs.Prelude.{◌≢◌, ◌⊎◌};
    ghost use Rattle.std.specs.IoError.{error_kind};
    ghost use Rattle.std.specs.declared.io.ErrorKind.TheVariants.{OutOfMemory};
    ghost use Rattle.bt_text.specs.declared.fault.Fault.TheVariants.{Memory, File};

    ghost from_gives = { λ error e.
        ((e ≡ Memory) × (error_kind error ≡ OutOfMemory)) ⊎ ((e ≡ File) × (error_kind error ≢ OutOfMemory)) };

    fn from(e: io::Error) -> Fault {
        match e.kind() {
            io::ErrorKind::OutOfMemory => Fault::Memory,
            _ => Fault::File,
        }
    }
}
