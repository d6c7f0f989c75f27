//! The report of a run.

ghost use Rattle.std.specs.Prelude.{◌≡◌, ◌<◌, true, OnOk, OnErr};
ghost use Rattle.std.specs.Io.KnownBytes.{Appends};
ghost use Rattle.bt_meta.specs.Layout.{piece_count};
ghost use Rattle.bt_history.specs.Counting.{count_below};
ghost use Rattle.bt_history.specs.Pieces.{had, had_count};
ghost use Rattle.bt_cli.specs.Reports.{counts_text, end_text, is_done, judged_text, missing_piece, missing_text, numbered, pieces_text};
ghost use Rattle.bt_cli.specs.Reports.{report_text, session_fault_number};

use bt_meta::{DeviceFault, Sink};
use bt_peer::{End, SessionFault};
use bt_picker::Desk;
use bt_text::{print, print_numbered};

/// The number by which the end of a session is told.
pub fn session_fault_number(fault: SessionFault) -> u8
    ensures { result ≡ session_fault_number fault }
{
    match fault {
        SessionFault::Wire(_) => 1,
        SessionFault::WrongInfohash => 2,
        SessionFault::Truncated => 3,
        SessionFault::Refused(_) => 4,
        SessionFault::ReadFault => 5,
        SessionFault::WriteFault => 6,
        SessionFault::NoMemory => 7,
        SessionFault::BadBits => 8,
    }
}

/// What the audit of a run's journal says.
#[derive(Clone, Copy, Debug, PartialEq, Eq)]
pub enum Judged {
    Sound,
    /// The first entry that isn't allowed, from 0.
    Wrong(usize),
    /// There was no memory to say it.
    Unjudged,
}

/// Prints what is told of a run: how each stream ended, how many of so many pieces are had, which of the wanted ones are lacking, and what
/// the audit says.
pub fn print_report<O: Sink>(
    out: &mut O,
    ends: &[Result<End, SessionFault>],
    desk: &Desk,
    pieces: u32,
    judged: Judged,
) -> Result<(), DeviceFault>
    requires { pieces ≡ piece_count desk.now.setting.torrent }
    ensures ok { OnOk result (Appends (O.written out.old) (O.written out.new)
        (report_text ends.now desk.now judged)) }
    ensures err { OnErr result (O.failed out.new ≡ true) }
{
    print_ends(out, ends)?;
    print_counts(out, pieces, count_had(desk, pieces))?;
    print_pieces(out, desk, pieces)?;
    print_judged(out, judged)
}

/// Prints how the streams ended, a line each.
fn print_ends<O: Sink>(out: &mut O, ends: &[Result<End, SessionFault>]) -> Result<(), DeviceFault>
    ensures ok { OnOk result (Appends (O.written out.old) (O.written out.new) (numbered end_text 0 ends.now)) }
    ensures err { OnErr result (O.failed out.new ≡ true) }
{
    for (stream, end) in ends.iter().enumerate() {
        print_end(out, stream, *end)?;
    }
    Ok(())
}

/// The line of one stream's end.
fn print_end<O: Sink>(
    out: &mut O,
    stream: usize,
    end: Result<End, SessionFault>,
) -> Result<(), DeviceFault>
    ensures ok { OnOk result (Appends (O.written out.old) (O.written out.new) (end_text stream end)) }
    ensures err { OnErr result (O.failed out.new ≡ true) }
{
    print_numbered(out, "stream ", stream as u64)?;
    match end {
        Ok(_) => print(out, " end\n"),
        Err(fault) => {
            print_numbered(out, " fault ", u64::from(session_fault_number(fault)))?;
            print(out, "\n")
        }
    }
}

/// How many pieces are had.
fn count_had(desk: &Desk, pieces: u32) -> u32
    requires { pieces ≡ piece_count desk.now.setting.torrent }
    ensures { result ≡ count_below pieces (had desk.now.history) }
{
    let mut count = 0;
    for piece in 0..pieces {
        if desk.had(piece) {
            count += 1;
        }
    }
    count
}

/// The lines of how many pieces there are and how many are had.
fn print_counts<O: Sink>(out: &mut O, pieces: u32, had: u32) -> Result<(), DeviceFault>
    ensures ok { OnOk result (Appends (O.written out.old) (O.written out.new) (counts_text pieces had)) }
    ensures err { OnErr result (O.failed out.new ≡ true) }
{
    print_numbered(out, "pieces ", u64::from(pieces))?;
    print_numbered(out, "\nhad ", u64::from(had))?;
    print(out, "\n")
}

/// Prints which of the wanted pieces are lacking, and whether none is.
fn print_pieces<O: Sink>(out: &mut O, desk: &Desk, pieces: u32) -> Result<(), DeviceFault>
    requires { pieces ≡ piece_count desk.now.setting.torrent }
    ensures ok { OnOk result (Appends (O.written out.old) (O.written out.new)
        (pieces_text pieces (is_done desk.now))) }
    ensures err { OnErr result (O.failed out.new ≡ true) }
{
    let complete = if desk.picker().has_wanted() {
        "yes"
    } else {
        "no"
    };
    print(out, "missing")?;
    print_missing(out, desk, pieces)?;
    print(out, "\ncomplete ")?;
    print(out, complete)?;
    print(out, "\n")
}

/// Prints the wanted pieces that aren't had, in rising order, each behind a space, or a dash.
fn print_missing<O: Sink>(out: &mut O, desk: &Desk, pieces: u32) -> Result<(), DeviceFault>
    requires { pieces ≡ piece_count desk.now.setting.torrent }
    ensures ok { OnOk result (Appends (O.written out.old) (O.written out.new)
        (missing_text pieces (is_done desk.now))) }
    ensures err { OnErr result (O.failed out.new ≡ true) }
{
    if desk.picker().has_wanted() {
        return print(out, " -");
    }
    for piece in 0..pieces {
        print_missing_piece(out, piece, is_done(desk, piece))?;
    }
    Ok(())
}

/// Whether the piece is had, or isn't wanted.
fn is_done(desk: &Desk, piece: u32) -> bool
    requires { piece < piece_count desk.now.setting.torrent }
    ensures { result ≡ is_done desk.now piece }
{
    !desk.wanted(piece) || desk.had(piece)
}

/// Prints a piece, unless nothing of it is lacking.
fn print_missing_piece<O: Sink>(out: &mut O, piece: u32, done: bool) -> Result<(), DeviceFault>
    ensures ok { OnOk result (Appends (O.written out.old) (O.written out.new) (missing_piece piece done)) }
    ensures err { OnErr result (O.failed out.new ≡ true) }
{
    if done {
        return Ok(());
    }
    print_numbered(out, " ", u64::from(piece))
}

/// The line of what the audit found.
fn print_judged<O: Sink>(out: &mut O, judged: Judged) -> Result<(), DeviceFault>
    ensures ok { OnOk result (Appends (O.written out.old) (O.written out.new) (judged_text judged)) }
    ensures err { OnErr result (O.failed out.new ≡ true) }
{
    match judged {
        Judged::Sound => print(out, "journal ok\n"),
        Judged::Wrong(place) => {
            print_numbered(out, "journal bad ", place as u64)?;
            print(out, "\n")
        }
        Judged::Unjudged => Ok(()),
    }
}
