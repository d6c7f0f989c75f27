//! How the program ends.

ghost use Rattle.std.specs.Prelude.{◌≡◌, ◌≢◌, ◌⊎◌, ◌++◌, ℕ, List, codes, true, IfErr, MatchResult, OnErr, OnOk};
ghost use Rattle.std.specs.IoError.{error_kind};
ghost use Rattle.std.specs.Io.KnownBytes.{Appends};
ghost use Rattle.std.specs.declared.io.ErrorKind.TheVariants.{BrokenPipe, OutOfMemory};
ghost use Rattle.bt_text.specs.declared.fault.Fault.TheVariants.{Memory};
ghost use Rattle.bt_text.specs.Statuses.{fault_text};
ghost use Rattle.bt_cli.specs.Failures.{Tells, fault_of, graver, rank, status_of_failure};
ghost use Rattle.bt_cli.specs.declared.failure.Failure.TheVariants.{Command};

use bt_meta::{DeviceFault, Sink};
use bt_text::{Fault, print, print_fault};
use std::alloc::{AllocError, AllocFailed, Global};
use std::io;
use std::io::ErrorKind;

/// The status where the arguments are wrong.
pub const WRONG_ARGUMENTS: u8 = 2;

/// Why the program ended before it was done.
#[derive(Clone, Copy)]
pub enum Failure<'a> {
    /// A command says it.
    Command(Fault),
    /// A command says it of the file or the option of this name.
    Of { name: &'a str, fault: Fault },
    /// Opening, reading or writing the file of this name failed; standard input and output are files too.
    File { name: &'a str, error: io::Error },
    /// Nobody reads standard output any more.
    Closed,
}

impl<'a> Failure<'a> {
    /// Reading or writing a file takes memory too.
    pub fn of_file(name: &'a str, error: io::Error) -> Failure<'a>
        ensures memory { error_kind error ≡ OutOfMemory → result ≡ Failure.Command Fault.Memory }
        ensures file { error_kind error ≢ OutOfMemory → result ≡ Failure.File name.entry error }
    {
        match error.kind() {
            ErrorKind::OutOfMemory => Failure::Command(Fault::Memory),
            _ => Failure::File { name, error },
        }
    }

    /// That of standard output.
    pub fn of_output(error: io::Error) -> Failure<'a>
        ensures closed { error_kind error ≡ BrokenPipe → result ≡ Failure.Closed }
        ensures memory { error_kind error ≡ OutOfMemory → result ≡ Failure.Command Fault.Memory }
        ensures file { error_kind error ≢ BrokenPipe → error_kind error ≢ OutOfMemory → rank result ≡ 2 }
    {
        match error.kind() {
            ErrorKind::BrokenPipe => Failure::Closed,
            _ => Failure::of_file("standard output", error),
        }
    }

    /// That of a command which read the metainfo file of this name.
    pub fn of_command(fault: Fault, meta: &'a str) -> Failure<'a>
        ensures { fault_of result ≡ fault }
    {
        match fault {
            Fault::Metainfo(_) => Failure::Of { name: meta, fault },
            Fault::Want(_) => Failure::Of {
                name: "--want",
                fault,
            },
            Fault::Random => Failure::Of {
                name: "--random",
                fault,
            },
            fault => Failure::Command(fault),
        }
    }

    /// The same of a command that read the metainfo file of this name.
    pub fn about(self, meta: &'a str) -> Failure<'a>
        ensures { fault_of result ≡ fault_of self.entry }
    {
        match self {
            Failure::Command(fault) => Failure::of_command(fault, meta),
            failure => failure,
        }
    }

    /// The fault whose status it has, and whose line tells it.
    fn fault(self) -> Fault
        ensures { result ≡ fault_of self.entry }
    {
        match self {
            Failure::Command(fault) => fault,
            Failure::Of { fault, .. } => fault,
            Failure::File { .. } | Failure::Closed => Fault::File,
        }
    }

    /// The exit status.
    pub fn status(self) -> u8
        ensures { result ≡ status_of_failure self.entry }
    {
        self.fault().status()
    }

    /// Which of two failures is told: want of memory before a file that fails, and that before an output that nobody reads.
    fn rank(self) -> u8
        ensures { result ≡ rank self.entry }
    {
        match self {
            Failure::Closed => 1,
            Failure::File { .. } => 2,
            Failure::Of { .. } | Failure::Command(_) => 3,
        }
    }

    /// A second line: what the failure is about, and the reason in words; none where there is no more to say, or no memory for it.
    fn words(self, alloc: Global) -> Option<String> {
        match self {
            Failure::Of { name, fault } => words_of(alloc, name, fault),
            Failure::File { name, error } => words_of_file(alloc, name, error),
            Failure::Command(_) | Failure::Closed => None,
        }
    }
}

/// Why reading or writing the file of this name failed: the system's reason, without the number that std puts behind it.
fn words_of_file(alloc: Global, name: &str, error: io::Error) -> Option<String> {
    let text = error.to_string(alloc).ok()?;
    let reason = without_number(&text);
    format!(in alloc; "piecepick: {name}: {reason}\n").ok()
}

/// A system's reason without the number that std puts behind it.
fn without_number(text: &str) -> &str {
    match text.split_once(" (os error ") {
        Some((reason, _)) => reason,
        None => text,
    }
}

/// What is wrong with the file or the option of this name.
fn words_of(alloc: Global, name: &str, fault: Fault) -> Option<String> {
    match fault {
        Fault::Metainfo(fault) => format!(in alloc; "piecepick: {name}: {fault}\n").ok(),
        Fault::Want(fault) => format!(in alloc; "piecepick: {name}: {fault}\n").ok(),
        Fault::Random => format!(in alloc; "piecepick: {name}: there are fewer pieces\n").ok(),
        _ => None,
    }
}

impl From<Fault> for Failure<'_> {
    ghost from_gives = { λ fault e. e ≡ Command fault };

    fn from(fault: Fault) -> Self {
        Failure::Command(fault)
    }
}

impl From<AllocError> for Failure<'_> {
    ghost from_gives = { λ _ e. e ≡ Command Memory };

    fn from(_e: AllocError) -> Self {
        Failure::Command(Fault::Memory)
    }
}

impl<T: Drop> From<AllocFailed<T>> for Failure<'_> {
    ghost from_gives = { λ _ e. e ≡ Command Memory };

    fn from(_e: AllocFailed<T>) -> Self {
        Failure::Command(Fault::Memory)
    }
}

/// Which of two failures is told: the one that is told before the other, and the first of two that are alike.
pub fn graver<'a>(first: Failure<'a>, second: Failure<'a>) -> Failure<'a>
    ensures { result ≡ graver first.entry second.entry }
{
    if second.rank() > first.rank() {
        second
    } else {
        first
    }
}

/// The exit status. A failure is told on `err`; that this fails changes nothing.
pub fn conclude<E: Sink>(alloc: Global, done: Result<u8, Failure<'_>>, err: &mut E) -> u8
    ensures status { MatchResult done.entry (λ status. result ≡ status) (λ failure. result ≡ status_of_failure failure) }
    ensures quiet { OnOk done.entry (err.new ≡ err.old) }
    // It was told, or standard error has failed.
    ensures told { IfErr done.entry (λ failure.
        (E.failed err.new ≡ true) ⊎ Tells failure (E.written err.old) (E.written err.new)) }
{
    match done {
        Ok(status) => status,
        Err(failure) => match tell(alloc, failure, err) {
            Ok(()) => failure.status(),
            Err(DeviceFault) => failure.status(),
        },
    }
}

/// Tells the failure; an output that nobody reads ends the program silently.
fn tell<E: Sink>(alloc: Global, failure: Failure<'_>, err: &mut E) -> Result<(), DeviceFault>
    ensures ok { OnOk result (Tells failure.entry (E.written err.old) (E.written err.new)) }
    ensures err { OnErr result (E.failed err.new ≡ true) }
{
    match failure {
        Failure::Closed => Ok(()),
        failure => tell_line(alloc, failure, err),
    }
}

/// Writes the failure's line, and perhaps a second one that says more.
fn tell_line<E: Sink>(alloc: Global, failure: Failure<'_>, err: &mut E) -> Result<(), DeviceFault>
    ensures ok { OnOk result ((more : List ℕ) × Appends (E.written err.old) (E.written err.new)
        ((fault_text (fault_of failure.entry) ++ codes "\n") ++ more)) }
    ensures err { OnErr result (E.failed err.new ≡ true) }
{
    print_fault(err, failure.fault())?;
    match failure.words(alloc) {
        Some(words) => print(err, &words),
        None => Ok(()),
    }
}
