//! The command `run`: sessions in threads of their own.

ghost use Rattle.std.specs.Prelude.{◌≡◌, ◌≤◌, ◌+◌, length, IfOk, IfErr, IsOk, OnOk, OnErr};
ghost use Rattle.bt_meta.specs.Layout.{Metainfo};
ghost use Rattle.bt_meta.specs.Reading.{torrent_of_file};
ghost use Rattle.bt_history.specs.Legal.{IsLegal};
ghost use Rattle.bt_history.specs.Setting.{setting_of};
ghost use Rattle.bt_peer.specs.Serial.{stream_record};
ghost use Rattle.bt_shared.specs.Gathering.{EachAgrees};
ghost use Rattle.bt_cli.specs.Runs.{run_status};
ghost use Rattle.bt_cli.specs.ThreadRuns.{IsSwarmRun, IsThreadsFault, RanThreads, of_swarm};

use crate::options::{Options, fit_random};
use crate::telling::{Outcome, run_status, tell};
use bt_meta::{Sink, Source, Torrent};
use bt_peer::{End, MOST_STREAMS, OpenGate, SessionFault, Stream};
use bt_session::{MOST_CHECKERS, SwarmFault, SwarmRun, swarm};
use bt_shared::Book;
use bt_text::{Fault, MOST_DEPTH};
use std::sync::{Arc, Wait};
use std::thread::Threads;

/// A run in threads that came to its end.
#[derive(Drop)]
pub struct ThreadsRun<R, W> {
    /// The desk of the run, and the log of each worker.
    pub book: Book,
    /// Whether all wanted pieces are had, or why the run can't be vouched for, as in `Run`.
    pub ended: Result<bool, Fault>,
    /// How each stream's session ended, in the order of the streams.
    pub ends: Vec<Result<End, SessionFault>>,
    /// The streams as the sessions left them.
    pub streams: Vec<Stream<R, W>>,
}

impl<R, W> ThreadsRun<R, W> {
    /// The exit status: 0 where all wanted pieces are had, and 1 where one isn't; else the fault's.
    pub fn status(&self) -> u8
        ensures { result ≡ run_status self.now.ended }
    {
        run_status(self.ended)
    }
}

/// Plays the streams of 1 to 64 recorded peers at one desk, each in a thread of its own beside the checkers' threads, 1 to 8, and prints how
/// each ended and which pieces are lacking, with no memory. Each piece is wanted, whatever the options say.
///
/// Refuses bytes that are no metainfo file; then a number of pieces at random that isn't its torrent's; for want of memory or of a thread;
/// and where the workers' logs aren't what the journal has. Then nothing is printed.
pub fn play_threads<
    T: Threads + Wait + AllocGlobal + Sync,
    R: Source + Send + Drop,
    W: Sink + Send + Drop,
    O: Sink,
>(
    rt: &T,
    meta: &[u8],
    streams: Vec<Stream<R, W>>,
    options: &Options,
    out: &mut O,
) -> Result<ThreadsRun<R, W>, Fault>
    requires streams { (1 ≤ length streams.items) × (length streams.items ≤ MOST_STREAMS) }
    requires depth { (1 ≤ options.now.rules.depth) × (options.now.rules.depth ≤ MOST_DEPTH) }
    requires checkers { (1 ≤ options.now.checkers) × (options.now.checkers ≤ MOST_CHECKERS) }
    ensures meta { OnOk result (IsOk (torrent_of_file meta.now)) }
    ensures setting { IfOk result (λ run. (t : Metainfo) → torrent_of_file meta.now ≡ Ok t →
        run.book.desk.setting ≡ setting_of t.layout (length streams.items + options.now.checkers + 1) options.now.rules) }
    ensures legal { IfOk result (λ run. IsLegal run.book.desk.setting run.book.desk.history) }
    ensures agrees { IfOk result (λ run. EachAgrees run.book.desk.history run.book.logs.items) }
    ensures ran { IfOk result (λ run. (t : Metainfo) → torrent_of_file meta.now ≡ Ok t →
        RanThreads (stream_record R.left R.ended R.failed R.reads W.written W.failed) t options.now streams.items run.book
        run.ended (O.written out.old) (O.written out.new) (O.failed out.new)) }
    ensures err { IfErr result (IsThreadsFault (torrent_of_file meta.now) options.now) }
    ensures ends { IfOk result (λ run. length run.ends.items ≡ length streams.items) }
    ensures unprinted { OnErr result (out.new ≡ out.old) }
{
    let workers = streams.len() as u32 + options.checkers + 1;
    let ran = run_sessions(rt, meta, streams, options)?;
    let outcome = Outcome {
        ends: &ran.run.ends,
        desk: &ran.run.book.desk,
        short: ran.run.short,
    };
    let ended = tell(rt.alloc(), &ran.torrent, workers, options, outcome, out);
    let TorrentRun { torrent: _, run } = ran;
    let SwarmRun {
        ends,
        book,
        short: _,
        streams,
    } = run;
    Ok(ThreadsRun {
        book,
        ended,
        ends,
        streams,
    })
}

/// A run with recorded peers in threads, and its torrent.
#[derive(Drop)]
struct TorrentRun<R, W> {
    torrent: Arc<Torrent>,
    run: SwarmRun<R, W>,
}

/// Runs the streams' sessions in threads, once the options were read.
fn run_sessions<
    T: Threads + Wait + AllocGlobal + Sync,
    R: Source + Send + Drop,
    W: Sink + Send + Drop,
>(
    rt: &T,
    meta: &[u8],
    streams: Vec<Stream<R, W>>,
    options: &Options,
) -> Result<TorrentRun<R, W>, Fault>
    requires streams { (1 ≤ length streams.items) × (length streams.items ≤ MOST_STREAMS) }
    requires depth { (1 ≤ options.now.rules.depth) × (options.now.rules.depth ≤ MOST_DEPTH) }
    requires checkers { (1 ≤ options.now.checkers) × (options.now.checkers ≤ MOST_CHECKERS) }
    ensures ran { IfOk result (λ p. IsSwarmRun (stream_record R.left R.ended R.failed R.reads W.written W.failed)
        (torrent_of_file meta.now) options.now streams.items p.torrent.value p.run.short p.run.book p.run.streams.items p.run.ends.items) }
    ensures err { IfErr result (IsThreadsFault (torrent_of_file meta.now) options.now) }
{
    let torrent = Torrent::read(rt.alloc(), meta)?;
    fit_random(options.rules, torrent.piece_count())?;
    let torrent = Arc::new(rt.alloc(), torrent)?;
    let run = swarm(
        rt,
        rt.alloc(),
        torrent.clone()?,
        streams,
        options.seed,
        options.rules,
        options.checkers,
        &OpenGate,
    );
    match run {
        Ok(run) => Ok(TorrentRun { torrent, run }),
        Err(fault) => Err(of_swarm(fault)),
    }
}

/// Why a run in threads came to nothing, as a fault of the command.
fn of_swarm(fault: SwarmFault) -> Fault
    ensures { result ≡ of_swarm fault }
{
    match fault {
        SwarmFault::NoMemory => Fault::Memory,
        SwarmFault::Gather(fault) => Fault::from(fault),
        SwarmFault::NoThread => Fault::NoThread,
    }
}
