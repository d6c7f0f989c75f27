//! What follows a run of sessions, however it was made: the audit of its journal, what is printed of it, and how the command ends.

ghost use Rattle.std.specs.Prelude.{◌≡◌, ◌⊎◌, ℕ, List, true, OnOk, OnErr};
ghost use Rattle.std.specs.List.{list_any};
ghost use Rattle.std.specs.Io.KnownBytes.{Appends};
ghost use Rattle.bt_meta.specs.Layout.{piece_count};
ghost use Rattle.bt_history.specs.Setting.{AreRules, setting_of};
ghost use Rattle.bt_cli.specs.declared.report.Judged.TheVariants.{Sound, Unjudged};
ghost use Rattle.bt_cli.specs.Runs.{Ended, IsPrelude, TellsRun, lacked_memory, gave_up, run_status};

use crate::options::Options;
use crate::report::{Judged, print_report};
use bt_meta::{DeviceFault, Sink, Torrent};
use bt_peer::{End, SessionFault};
use bt_picker::{AuditFault, Desk, Rules, audit};
use bt_text::{Fault, print_journal};
use std::alloc::Global;

/// The status of a run that isn't complete.
const INCOMPLETE: u8 = 1;

/// What a run of sessions came to.
#[derive(Clone, Copy)]
pub struct Outcome<'a> {
    /// How each stream's session ended, in the order of the streams.
    pub ends: &'a [Result<End, SessionFault>],
    pub desk: &'a Desk,
    /// The run is short, as a `SerialRun` or a `SwarmRun` says.
    pub short: bool,
}

/// The exit status of a run: 0 where all wanted pieces are had, and 1 where one isn't; else the fault's.
pub fn run_status(ended: Result<bool, Fault>) -> u8
    ensures { result ≡ run_status ended }
{
    match ended {
        Ok(true) => 0,
        Ok(false) => INCOMPLETE,
        Err(fault) => fault.status(),
    }
}

/// Judges and prints a run, and answers whether all wanted pieces are had.
pub fn tell<O: Sink>(
    alloc: Global,
    torrent: &Torrent,
    workers: u32,
    options: &Options,
    outcome: Outcome<'_>,
    out: &mut O,
) -> Result<bool, Fault>
    requires setting { outcome.desk.now.setting ≡ setting_of torrent.now.layout workers options.now.rules }
    requires rules { AreRules torrent.now.layout options.now.rules }
    ensures { Ended outcome.entry.short outcome.entry.ends.now outcome.entry.desk.now result options.now.journal
        (O.written out.old) (O.written out.new) (O.failed out.new) }
{
    let judged = judge(alloc, torrent, workers, options.rules, outcome.desk);
    let pieces = torrent.piece_count();
    let printed = print_run(outcome, pieces, judged, options.journal, out);
    if judged == Judged::Unjudged || gave_up(outcome) {
        return Err(Fault::Memory);
    }
    match printed {
        Ok(()) => Ok(outcome.desk.picker().has_wanted()),
        Err(DeviceFault) => Err(Fault::File),
    }
}

/// What an audit says of the desk's journal.
fn judge(alloc: Global, torrent: &Torrent, workers: u32, rules: Rules, desk: &Desk) -> Judged
    requires setting { desk.now.setting ≡ setting_of torrent.now.layout workers rules }
    requires rules { AreRules torrent.now.layout rules }
    ensures { (result ≡ Sound) ⊎ (result ≡ Unjudged) }
{
    match audit(alloc, torrent, workers, rules, desk.journal()) {
        Ok(()) => Judged::Sound,
        Err(AuditFault::NotAllowed(place)) => Judged::Wrong(place),
        Err(AuditFault::NoMemory) => Judged::Unjudged,
    }
}

/// Whether something was given up for want of memory: the last checks, or a session.
fn gave_up(outcome: Outcome<'_>) -> bool
    ensures { result ≡ gave_up outcome.entry.short outcome.entry.ends.now }
{
    outcome.short || some_lacked(outcome.ends)
}

/// Whether a session ended for want of memory.
fn some_lacked(ends: &[Result<End, SessionFault>]) -> bool
    ensures { result ≡ list_any lacked_memory ends.now }
{
    for end in ends {
        if lacked_memory(*end) {
            return true;
        }
    }
    false
}

/// Whether this one did.
fn lacked_memory(end: Result<End, SessionFault>) -> bool
    ensures { result ≡ lacked_memory end }
{
    match end {
        Err(SessionFault::NoMemory) => true,
        Err(_) => false,
        Ok(_) => false,
    }
}

/// Prints the journal, if it is asked for, and the report.
fn print_run<O: Sink>(
    outcome: Outcome<'_>,
    pieces: u32,
    judged: Judged,
    journal: bool,
    out: &mut O,
) -> Result<(), DeviceFault>
    requires { pieces ≡ piece_count outcome.desk.now.setting.torrent }
    ensures ok { OnOk result (TellsRun journal outcome.entry.ends.now outcome.entry.desk.now judged
        (O.written out.old) (O.written out.new)) }
    ensures err { OnErr result (O.failed out.new ≡ true) }
{
    print_prelude(outcome.desk, journal, out)?;
    print_report(out, outcome.ends, outcome.desk, pieces, judged)
}

/// Prints the lines of the journal, where it is asked for.
fn print_prelude<O: Sink>(desk: &Desk, journal: bool, out: &mut O) -> Result<(), DeviceFault>
    ensures ok { OnOk result ((text : List ℕ) × IsPrelude journal desk.now text
        × Appends (O.written out.old) (O.written out.new) text) }
    ensures err { OnErr result (O.failed out.new ≡ true) }
{
    if journal {
        print_journal(out, desk.journal())
    } else {
        Ok(())
    }
}
