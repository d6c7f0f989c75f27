//! The command `serial`.

ghost use Rattle.std.specs.Prelude.{◌≡◌, ◌≤◌, ◌+◌, length, IfOk, IfErr, IsOk, OnOk, OnErr};
ghost use Rattle.bt_meta.specs.Layout.{Metainfo};
ghost use Rattle.bt_meta.specs.Reading.{torrent_of_file};
ghost use Rattle.bt_history.specs.Setting.{setting_of};
ghost use Rattle.bt_peer.specs.Serial.{stream_record};
ghost use Rattle.bt_cli.specs.Runs.{IsSerialRun, IsStartFault, Ran, run_status};

use crate::options::{Options, fitting};
use crate::telling::{Outcome, run_status, tell};
use bt_meta::{Sink, Source, Torrent};
use bt_peer::{End, MOST_STREAMS, SerialRun, SessionFault, Stream, serial};
use bt_picker::Desk;
use bt_text::{Fault, MOST_DEPTH};
use std::alloc::Global;
use std::sync::Arc;

/// A run that came to its end.
#[derive(Drop)]
pub struct Run {
    pub desk: Desk,
    /// Whether all wanted pieces are had, or why the run can't be vouched for: `Fault::Memory` where something was given up for want of
    /// memory, though it was told as far as `out` took it; else `Fault::File` where `out` failed.
    pub ended: Result<bool, Fault>,
    /// How each stream's session ended, in the order of the streams.
    pub ends: Vec<Result<End, SessionFault>>,
}

impl Run {
    /// The exit status: 0 where all wanted pieces are had, and 1 where one isn't; else the fault's.
    pub fn status(&self) -> u8
        ensures { result ≡ run_status self.now.ended }
    {
        run_status(self.ended)
    }
}

/// Plays the streams of 1 to 64 recorded peers at one desk, and prints how each ended and which pieces are lacking, with no memory.
///
/// Refuses bytes that are no metainfo file; then, in this order, wanted pieces and a number of pieces at random that aren't its torrent's;
/// and for want of memory. Then nothing is printed.
pub fn play_streams<R: Source, W: Sink, O: Sink>(
    alloc: Global,
    meta: &[u8],
    streams: &mut [Stream<R, W>],
    options: &Options,
    out: &mut O,
) -> Result<Run, Fault>
    requires streams { (1 ≤ length streams.old) × (length streams.old ≤ MOST_STREAMS) }
    requires depth { (1 ≤ options.now.rules.depth) × (options.now.rules.depth ≤ MOST_DEPTH) }
    ensures meta { OnOk result (IsOk (torrent_of_file meta.now)) }
    ensures setting { IfOk result (λ run. (t : Metainfo) → torrent_of_file meta.now ≡ Ok t →
        run.desk.setting ≡ setting_of t.layout (length streams.old + 1) options.now.rules) }
    ensures ran { IfOk result (λ run. (t : Metainfo) → torrent_of_file meta.now ≡ Ok t →
        Ran (stream_record R.left R.ended R.failed R.reads W.written W.failed) t options.now streams.old run.desk streams.new
        run.ended (O.written out.old) (O.written out.new) (O.failed out.new)) }
    ensures err { IfErr result (IsStartFault (torrent_of_file meta.now) options.now) }
    ensures ends { IfOk result (λ run. length run.ends.items ≡ length streams.old) }
    ensures unprinted { OnErr result (out.new ≡ out.old) }
{
    let workers = streams.len() as u32 + 1;
    let ran = run_sessions(alloc, meta, streams, options)?;
    let outcome = Outcome {
        ends: &ran.run.ends,
        desk: &ran.run.desk,
        short: ran.run.short,
    };
    let ended = tell(alloc, &ran.torrent, workers, options, outcome, out);
    let TorrentRun { torrent: _, run } = ran;
    let SerialRun {
        ends,
        desk,
        short: _,
    } = run;
    Ok(Run { desk, ended, ends })
}

/// A run with recorded peers, and its torrent.
#[derive(Drop)]
struct TorrentRun {
    torrent: Arc<Torrent>,
    run: SerialRun,
}

/// Runs the streams' sessions, once the options were read.
fn run_sessions<R: Source, W: Sink>(
    alloc: Global,
    meta: &[u8],
    streams: &mut [Stream<R, W>],
    options: &Options,
) -> Result<TorrentRun, Fault>
    requires streams { (1 ≤ length streams.old) × (length streams.old ≤ MOST_STREAMS) }
    requires depth { (1 ≤ options.now.rules.depth) × (options.now.rules.depth ≤ MOST_DEPTH) }
    ensures ran { IfOk result (λ p. IsSerialRun (stream_record R.left R.ended R.failed R.reads W.written W.failed)
        (torrent_of_file meta.now) options.now streams.old p.torrent.value p.run.short p.run.desk streams.new p.run.ends.items) }
    ensures err { IfErr result (IsStartFault (torrent_of_file meta.now) options.now) }
{
    let torrent = Torrent::read(alloc, meta)?;
    let want = fitting(alloc, options, torrent.piece_count())?;
    let torrent = Arc::new(alloc, torrent)?;
    let run = serial(
        alloc,
        torrent.clone()?,
        streams,
        options.seed,
        want,
        options.rules,
    )?;
    Ok(TorrentRun { torrent, run })
}
