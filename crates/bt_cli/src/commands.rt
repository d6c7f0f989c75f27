//! The commands that run sessions, whole: with their exit status, and the line of a fault on a writer of its own.

ghost use Rattle.std.specs.Prelude.{◌≡◌, ◌≤◌, ◌+◌, ◌⊎◌, length, Ok, None, Result, Bool, IfSome, MatchResult, OnOk};
ghost use Rattle.bt_meta.specs.Layout.{Metainfo};
ghost use Rattle.bt_meta.specs.Reading.{torrent_of_file};
ghost use Rattle.bt_history.specs.Legal.{IsLegal};
ghost use Rattle.bt_history.specs.Setting.{setting_of};
ghost use Rattle.bt_peer.specs.Serial.{stream_record};
ghost use Rattle.bt_shared.specs.Gathering.{EachAgrees};
ghost use Rattle.bt_text.specs.declared.fault.Fault.{Fault};
ghost use Rattle.bt_cli.specs.Runs.{IsSerialStatus, Ran, run_status};
ghost use Rattle.bt_cli.specs.ThreadRuns.{IsThreadsStatus, RanThreads};

use crate::options::Options;
use crate::serial::{Run, play_streams};
use crate::telling::run_status;
use crate::threads::{ThreadsRun, play_threads};
use bt_meta::{Sink, Source};
use bt_peer::{MOST_STREAMS, Stream};
use bt_picker::Desk;
use bt_session::MOST_CHECKERS;
use bt_shared::Book;
use bt_text::{Fault, MOST_DEPTH, conclude};
use std::alloc::Global;
use std::io::Write;
use std::sync::Wait;
use std::thread::Threads;

/// Plays the streams of 1 to 64 recorded peers at one desk, and prints how each ended and which pieces are lacking; a fault goes to `err`.
///
/// Answers the exit status: 0 where all wanted pieces are had, and 1 where one isn't; 2 where what is wanted, or then the number of pieces
/// at random, isn't the torrent's; 3 for bytes that are no metainfo file; 4 where `out` fails; 5 for want of memory, also where a session
/// met it. The desk is given where there was a run.
pub fn run_serial<R: Source, W: Sink, O: Sink, E: Write>(
    alloc: Global,
    meta: &[u8],
    streams: &mut [Stream<R, W>],
    options: &Options,
    out: &mut O,
    err: &mut E,
) -> (u8, Option<Desk>)
    requires streams { (1 ≤ length streams.old) × (length streams.old ≤ MOST_STREAMS) }
    requires depth { (1 ≤ options.now.rules.depth) × (options.now.rules.depth ≤ MOST_DEPTH) }
    ensures status { IsSerialStatus (torrent_of_file meta.now) options.now result.0 result.1 }
    ensures setting { IfSome result.1 (λ desk. (t : Metainfo) → torrent_of_file meta.now ≡ Ok t →
        desk.setting ≡ setting_of t.layout (length streams.old + 1) options.now.rules) }
    // Where there is a desk, it is the one of a run of these streams by these options, and the status and what was printed are that run's.
    ensures ran { IfSome result.1 (λ desk. (t : Metainfo) → torrent_of_file meta.now ≡ Ok t →
        (ended : Result Bool Fault) × ((result.0 ≡ run_status ended)
        × Ran (stream_record R.left R.ended R.failed R.reads W.written W.failed) t options.now streams.old desk streams.new
        ended (O.written out.old) (O.written out.new) (O.failed out.new))) }
    ensures quiet { (result.0 ≡ 0) ⊎ (result.0 ≡ 1) → err.new ≡ err.old }
{
    match play_streams(alloc, meta, streams, options, out) {
        Ok(run) => {
            let Run {
                desk,
                ended,
                ends: _,
            } = run;
            (conclude_run(ended, err), Some(desk))
        }
        Err(fault) => (conclude(Err(fault), err), None),
    }
}

/// Plays the streams of 1 to 64 recorded peers at one desk, each in a thread of its own beside the checkers' threads, 1 to 8, and prints how
/// each ended and which pieces are lacking; a fault goes to `err`.
///
/// Answers the exit status: 0 where all pieces are had, and 1 where one isn't; 2 where the number of pieces at random isn't the torrent's; 3
/// for bytes that are no metainfo file; 4 where `out` fails; 5 for want of memory, also where a session met it, or of a thread; 6 where the
/// workers' logs aren't what the journal has. The desk is given, with the log of each worker, where there was a run.
pub fn run_threads<
    T: Threads + Wait + AllocGlobal + Sync,
    R: Source + Send + Drop,
    W: Sink + Send + Drop,
    O: Sink,
    E: Write,
>(
    rt: &T,
    meta: &[u8],
    streams: Vec<Stream<R, W>>,
    options: &Options,
    out: &mut O,
    err: &mut E,
) -> (u8, Option<Book>)
    requires streams { (1 ≤ length streams.items) × (length streams.items ≤ MOST_STREAMS) }
    requires depth { (1 ≤ options.now.rules.depth) × (options.now.rules.depth ≤ MOST_DEPTH) }
    requires checkers { (1 ≤ options.now.checkers) × (options.now.checkers ≤ MOST_CHECKERS) }
    ensures status { IsThreadsStatus (torrent_of_file meta.now) options.now result.0 result.1 }
    ensures setting { IfSome result.1 (λ book. (t : Metainfo) → torrent_of_file meta.now ≡ Ok t →
        book.desk.setting ≡ setting_of t.layout (length streams.items + options.now.checkers + 1) options.now.rules) }
    ensures legal { IfSome result.1 (λ book. IsLegal book.desk.setting book.desk.history) }
    // The logs are exactly the calls of the journal: each worker's its own, each call at its place.
    ensures agrees { IfSome result.1 (λ book. EachAgrees book.desk.history book.logs.items) }
    // Where there is a book, it is the one of a run of these streams by these options, and the status and what was printed are that run's.
    ensures ran { IfSome result.1 (λ book. (t : Metainfo) → torrent_of_file meta.now ≡ Ok t →
        (ended : Result Bool Fault) × ((result.0 ≡ run_status ended)
        × RanThreads (stream_record R.left R.ended R.failed R.reads W.written W.failed) t options.now streams.items book
        ended (O.written out.old) (O.written out.new) (O.failed out.new))) }
    ensures unprinted { result.1 ≡ None → out.new ≡ out.old }
    ensures quiet { (result.0 ≡ 0) ⊎ (result.0 ≡ 1) → err.new ≡ err.old }
{
    match play_threads(rt, meta, streams, options, out) {
        Ok(run) => {
            let ThreadsRun {
                book,
                ended,
                ends: _,
                streams: _,
            } = run;
            (conclude_run(ended, err), Some(book))
        }
        Err(fault) => (conclude(Err(fault), err), None),
    }
}

/// The exit status of a run that ended so. Where it ended by a fault, the fault's line is written to `err`; a run without one leaves `err` as it was.
fn conclude_run<E: Write>(ended: Result<bool, Fault>, err: &mut E) -> u8
    ensures status { result ≡ run_status ended }
    ensures quiet { OnOk ended (err.new ≡ err.old) }
{
    if let Err(fault) = ended {
        return conclude(Err(fault), err);
    }
    run_status(ended)
}
