//! What each command does with the bytes that its files gave, to its end.

ghost use Rattle.std.specs.Prelude.{◌≡◌, ◌≤◌, ◌⊎◌, ◌+◌, ℕ, Bool, List, Option, Result, length, codes, false, true, Ok, Err, IfErr, IfOk, IsOk};
ghost use Rattle.std.specs.Prelude.{OnErr, OnOk};
ghost use Rattle.std.specs.Io.KnownBytes.{Appends, Keeps};
ghost use Rattle.bt_meta.specs.Layout.{Metainfo};
ghost use Rattle.bt_meta.specs.Files.{files_of_file};
ghost use Rattle.bt_meta.specs.Reading.{torrent_of_file};
ghost use Rattle.bt_picker.specs.Positions.{DeskState};
ghost use Rattle.bt_peer.specs.Serial.{stream_record};
ghost use Rattle.bt_shared.specs.declared.gather.Book.{Book};
ghost use Rattle.bt_text.specs.declared.fault.Fault.{Fault};
ghost use Rattle.bt_text.specs.Info.{IsInfoFault, PrintsInfo};
ghost use Rattle.bt_text.specs.Listing.{IsListingFault, PrintsFiles};
ghost use Rattle.bt_text.specs.Scripts.{Explains, IsScript, Prints};
ghost use Rattle.bt_cli.specs.Runs.{IsStartFault, Ran, run_status};
ghost use Rattle.bt_cli.specs.ThreadRuns.{IsThreadsFault, RanThreads};
ghost use Rattle.bt_cli.specs.Failures.{IsEndOf, fault_of};
ghost use Rattle.bt_cli.specs.Roads.{Closes, Flushed};

use crate::device::Device;
use crate::ending::{ended, finish};
use crate::failure::{Failure, WRONG_ARGUMENTS};
use crate::options::Options;
use crate::serial::play_streams;
use crate::target::{Kept, Target};
use crate::telling::run_status;
use crate::threads::play_threads;
use bt_meta::{DeviceFault, Sink, Source};
use bt_peer::{End, MOST_STREAMS, SessionFault, Stream};
use bt_picker::Desk;
use bt_session::MOST_CHECKERS;
use bt_text::{Fault, MOST_DEPTH, print, print_files, print_info, print_replies};
use std::alloc::Global;
use std::io::Write;
use std::sync::Wait;
use std::thread::Threads;

/// The exit status of a command that was done. Only what is below answers one, so that the shell around it can't make up another.
#[derive(Clone, Copy, Debug, PartialEq, Eq)]
pub struct Done {
    status: u8,
}

impl Done {
    /// The command line was wrong, which was told.
    pub fn wrong_arguments() -> Done
        ensures { result.status ≡ WRONG_ARGUMENTS }
    {
        Done {
            status: WRONG_ARGUMENTS,
        }
    }

    /// The exit status.
    pub fn status(self) -> u8
        ensures { result ≡ self.status }
    {
        self.status
    }
}

/// How a command ends that came to this end, and read the file of this name.
fn end<'w, O: Write + Drop>(
    came: Result<u8, Fault>,
    name: &'w str,
    out: &mut Device<O>,
) -> Result<Done, Failure<'w>>
    ensures ok { IfOk result (λ done. came ≡ Ok done.status) }
    ensures written { OnOk result (⟦<Device<O> as Sink>⟧.failed out.new ≡ false) }
    ensures err { IfErr result (IsEndOf came (⟦<Device<O> as Sink>⟧.failed out.new)) }
    ensures kept { Keeps (⟦<Device<O> as Sink>⟧.written out.old) (⟦<Device<O> as Sink>⟧.written out.new) }
{
    match ended(came, out) {
        Ok(status) => Ok(Done { status }),
        Err(failure) => Err(failure.about(name)),
    }
}

/// The command `info`, of META's bytes.
pub fn info_of<'w, O: Write + Drop>(
    alloc: Global,
    meta: &[u8],
    name: &'w str,
    out: &mut Device<O>,
) -> Result<Done, Failure<'w>>
    ensures ok { IfOk result (λ done. done.status ≡ 0) }
    ensures printed { OnOk result (Flushed (PrintsInfo (torrent_of_file meta.now))
        (⟦<Device<O> as Sink>⟧.written out.old) (⟦<Device<O> as Sink>⟧.written out.new)) }
    ensures written { OnOk result (⟦<Device<O> as Sink>⟧.failed out.new ≡ false) }
    ensures err { IfErr result (λ failure. IsInfoFault (torrent_of_file meta.now) (fault_of failure)
        ⊎ (⟦<Device<O> as Sink>⟧.failed out.new ≡ true)) }
{
    match print_info(alloc, meta, out) {
        Ok(()) => end(Ok(0), name, out),
        Err(fault) => end(Err(fault), name, out),
    }
}

/// The command `info --files`, of META's bytes.
pub fn files_of<'w, O: Write + Drop>(
    alloc: Global,
    meta: &[u8],
    name: &'w str,
    out: &mut Device<O>,
) -> Result<Done, Failure<'w>>
    ensures ok { IfOk result (λ done. done.status ≡ 0) }
    ensures printed { OnOk result (Flushed (PrintsFiles (files_of_file meta.now))
        (⟦<Device<O> as Sink>⟧.written out.old) (⟦<Device<O> as Sink>⟧.written out.new)) }
    ensures written { OnOk result (⟦<Device<O> as Sink>⟧.failed out.new ≡ false) }
    ensures err { IfErr result (λ failure. IsListingFault (files_of_file meta.now) (fault_of failure)
        ⊎ (⟦<Device<O> as Sink>⟧.failed out.new ≡ true)) }
{
    match print_files(alloc, meta, out) {
        Ok(()) => end(Ok(0), name, out),
        Err(fault) => end(Err(fault), name, out),
    }
}

/// The command `script`, of the bytes of its input.
pub fn script_of<O: Write + Drop>(
    alloc: Global,
    input: &[u8],
    out: &mut Device<O>,
) -> Result<Done, Failure<'static>>
    ensures ok { IfOk result (λ done. (done.status ≡ 0) × IsScript input.now) }
    ensures written { OnOk result (⟦<Device<O> as Sink>⟧.failed out.new ≡ false) }
    ensures printed { OnOk result (Flushed (Prints input.now (Ok tt))
        (⟦<Device<O> as Sink>⟧.written out.old) (⟦<Device<O> as Sink>⟧.written out.new)) }
    // The replies to the lines before the one at fault were printed.
    ensures before { IfErr result (λ failure. Flushed (Prints input.now (Err (fault_of failure)))
        (⟦<Device<O> as Sink>⟧.written out.old) (⟦<Device<O> as Sink>⟧.written out.new)
        ⊎ (⟦<Device<O> as Sink>⟧.failed out.new ≡ true)) }
    ensures err { IfErr result (λ failure. Explains input.now (fault_of failure)
        ⊎ (⟦<Device<O> as Sink>⟧.failed out.new ≡ true)) }
{
    match print_replies(alloc, input, out) {
        Ok(()) => end(Ok(0), "standard input", out),
        Err(fault) => end(Err(fault), "standard input", out),
    }
}

/// Help, or the version.
pub fn text_of<O: Write + Drop>(text: &str, out: &mut Device<O>) -> Result<Done, Failure<'static>>
    ensures ok { IfOk result (λ done. done.status ≡ 0) }
    ensures written { OnOk result (⟦<Device<O> as Sink>⟧.failed out.new ≡ false) }
    ensures printed { OnOk result (Flushed (λ old new. Appends old new text.now)
        (⟦<Device<O> as Sink>⟧.written out.old) (⟦<Device<O> as Sink>⟧.written out.new)) }
{
    match print(out, text) {
        Ok(()) => end(Ok(0), "", out),
        Err(DeviceFault) => end(Err(Fault::File), "", out),
    }
}

/// The status of a run that ended so, or its fault.
fn told(ended: Result<bool, Fault>) -> Result<u8, Fault>
    ensures ok { IfOk result (λ status. IsOk ended × (status ≡ run_status ended)) }
    ensures err { IfErr result (λ fault. ended ≡ Err fault) }
{
    match ended {
        Ok(_) => Ok(run_status(ended)),
        Err(fault) => Err(fault),
    }
}

/// How a run ends that came to this desk: its output is flushed, its content is saved, and its status is told.
fn close<'w, O: Write + Drop, F: Kept>(
    ended: Result<bool, Fault>,
    desk: &Desk,
    out: &mut Device<O>,
    target: &mut Option<Target<'w, F>>,
) -> Result<Done, Failure<'w>>
    ensures closes { Closes F.failed F.written F.blank desk.now ended result (⟦<Device<O> as Sink>⟧.failed out.new) target.old target.new }
    ensures kept { Keeps (⟦<Device<O> as Sink>⟧.written out.old) (⟦<Device<O> as Sink>⟧.written out.new) }
{
    match finish(told(ended), desk, out, target) {
        Ok(status) => Ok(Done { status }),
        Err(failure) => Err(failure),
    }
}

/// What a run of `serial` came to: how the program ends, and how each stream's session ended, in the order of the streams.
#[derive(Drop)]
pub struct Came<'w> {
    pub done: Result<Done, Failure<'w>>,
    pub ends: Vec<Result<End, SessionFault>>,
}

/// The command `serial`, of META's bytes and opened streams.
pub fn serial_of<'w, R: Source, W: Sink, O: Write + Drop, F: Kept>(
    alloc: Global,
    meta: &[u8],
    streams: &mut [Stream<R, W>],
    options: &Options,
    out: &mut Device<O>,
    target: &mut Option<Target<'w, F>>,
) -> Result<Came<'w>, Fault>
    requires streams { (1 ≤ length streams.old) × (length streams.old ≤ MOST_STREAMS) }
    requires depth { (1 ≤ options.now.rules.depth) × (options.now.rules.depth ≤ MOST_DEPTH) }
    ensures meta { OnOk result (IsOk (torrent_of_file meta.now)) }
    // A run of these streams by these options was told, and then the program ends as it did.
    ensures ran { IfOk result (λ came. (t : Metainfo) → torrent_of_file meta.now ≡ Ok t →
        (desk : DeskState) × (ended : Result Bool Fault) × (middle : Option (List ℕ)) × (failed : Bool)
        × (Ran (stream_record R.left R.ended R.failed R.reads W.written W.failed) t options.now streams.old desk streams.new
        ended (⟦<Device<O> as Sink>⟧.written out.old) middle failed)
        × (Keeps middle (⟦<Device<O> as Sink>⟧.written out.new))
        × (Closes F.failed F.written F.blank desk ended came.done (⟦<Device<O> as Sink>⟧.failed out.new) target.old target.new)) }
    ensures err { IfErr result (IsStartFault (torrent_of_file meta.now) options.now) }
    ensures unprinted { OnErr result (out.new ≡ out.old) }
    ensures untouched { OnErr result (target.new ≡ target.old) }
{
    let run = play_streams(alloc, meta, streams, options, out)?;
    let done = close(run.ended, &run.desk, out, target);
    Ok(Came {
        done,
        ends: run.ends,
    })
}

/// What a run in threads came to: the same, and the streams as the sessions left them.
#[derive(Drop)]
pub struct CameTogether<'w, R, W> {
    pub done: Result<Done, Failure<'w>>,
    pub ends: Vec<Result<End, SessionFault>>,
    pub streams: Vec<Stream<R, W>>,
}

/// The command `run`, of META's bytes and opened streams.
pub fn threads_of<
    'w,
    T: Threads + Wait + AllocGlobal + Sync,
    R: Source + Send + Drop,
    W: Sink + Send + Drop,
    O: Write + Drop,
    F: Kept,
>(
    rt: &T,
    meta: &[u8],
    streams: Vec<Stream<R, W>>,
    options: &Options,
    out: &mut Device<O>,
    target: &mut Option<Target<'w, F>>,
) -> Result<CameTogether<'w, R, W>, Fault>
    requires streams { (1 ≤ length streams.items) × (length streams.items ≤ MOST_STREAMS) }
    requires depth { (1 ≤ options.now.rules.depth) × (options.now.rules.depth ≤ MOST_DEPTH) }
    requires checkers { (1 ≤ options.now.checkers) × (options.now.checkers ≤ MOST_CHECKERS) }
    ensures meta { OnOk result (IsOk (torrent_of_file meta.now)) }
    // A run of these streams by these options was told, and then the program ends as it did.
    ensures ran { IfOk result (λ came. (t : Metainfo) → torrent_of_file meta.now ≡ Ok t →
        (book : Book) × (ended : Result Bool Fault) × (middle : Option (List ℕ)) × (failed : Bool)
        × (RanThreads (stream_record R.left R.ended R.failed R.reads W.written W.failed) t options.now streams.items book
        ended (⟦<Device<O> as Sink>⟧.written out.old) middle failed)
        × (Keeps middle (⟦<Device<O> as Sink>⟧.written out.new))
        × (Closes F.failed F.written F.blank book.desk ended came.done (⟦<Device<O> as Sink>⟧.failed out.new) target.old target.new)) }
    ensures err { IfErr result (IsThreadsFault (torrent_of_file meta.now) options.now) }
    ensures unprinted { OnErr result (out.new ≡ out.old) }
    ensures untouched { OnErr result (target.new ≡ target.old) }
{
    let run = play_threads(rt, meta, streams, options, out)?;
    let done = close(run.ended, &run.book.desk, out, target);
    Ok(CameTogether {
        done,
        ends: run.ends,
        streams: run.streams,
    })
}
