//! Several recorded peers at one desk, each session in a thread of its own, and threads that check the pieces.

ghost use Rattle.std.specs.Prelude.{◌≡◌, ◌≤◌, ◌+◌, Some, None, length, IfOk, IfErr};
ghost use Rattle.bt_history.specs.Legal.{IsLegal};
ghost use Rattle.bt_history.specs.Setting.{AreRules, setting_of};
ghost use Rattle.bt_meta.specs.Layout.{piece_count};
ghost use Rattle.bt_peer.specs.Serial.{AreChosen, stream_record};
ghost use Rattle.bt_peer.specs.SessionTerms.{terms_of};
ghost use Rattle.bt_session.specs.Checking.{CheckersCheck};
ghost use Rattle.bt_session.specs.Beginnings.{AreFittings};
ghost use Rattle.bt_session.specs.Swarms.{EachSwarmed, MakesLastChecks};
ghost use Rattle.bt_shared.specs.Gathering.{EachAgrees};
ghost use Rattle.bt_session.specs.Runs.{IsRunFault, LeavesNone};

use crate::fault::SwarmFault;
use crate::fittings::{Fittings, fit_out, set_up};
use crate::plan::Plan;
use crate::run_name::RunName;
use crate::waiting::is_short;
use crate::work::work;
use crate::worked::Worked;
use bt_history::Rules;
use bt_meta::{Sink, Source, Torrent};
use bt_peer::{End, Gate, MOST_STREAMS, SessionFault, Stream};
use bt_shared::Book;
use std::alloc::Global;
use std::marker::Brand;
use std::sync::{Arc, Wait};
use std::thread::Threads;

/// How many checkers a run may have.
pub const MOST_CHECKERS: u32 = 8;

/// What came of a run in threads.
#[derive(Drop)]
pub struct SwarmRun<R, W> {
    /// How each stream's session ended, in the order of the streams.
    pub ends: Vec<Result<End, SessionFault>>,
    /// The desk of the run, and the log of each worker. Worker `i` spoke for stream `i`; behind these come the checkers, and one more
    /// worker made the last checks.
    pub book: Book,
    /// A check was given up for want of memory, a ticket came back, or a call of a session found no memory; or a piece still waits for its
    /// check. A peer whose Leave found none is still joined at the desk.
    pub short: bool,
    /// The streams as the sessions left them, in order.
    pub streams: Vec<Stream<R, W>>,
}

/// The run, at the desk that `L` names.
fn run<
    'e,
    L: RunName + Send + Sync + 'e,
    R: Source + Send + Drop + 'e,
    W: Sink + Send + Drop + 'e,
    T: Threads + Wait + Sync + 'e,
    G: Gate + Sync + 'e,
>(
    rt: &'e T,
    alloc: Global,
    torrent: Arc<Torrent>,
    fittings: Fittings,
    streams: Vec<Stream<R, W>>,
    plan: Plan,
    gate: &'e G,
) -> Result<SwarmRun<R, W>, SwarmFault>
    requires streams { (1 ≤ length streams.items) × (length streams.items ≤ MOST_STREAMS) }
    requires rules { AreRules torrent.value.layout plan.rules }
    requires checkers { (1 ≤ plan.checkers) × (plan.checkers ≤ MOST_CHECKERS) }
    requires setting { L.setting ≡ setting_of torrent.value.layout (length streams.items + plan.checkers + 1) plan.rules }
    requires fittings { AreFittings L.setting fittings }
    requires desk { L.desk ≡ Some fittings.desk.table }
    requires board { L.board ≡ Some fittings.board.table }
    requires queue { L.queue ≡ Some fittings.queue }
    ensures setting { IfOk result (λ run. run.book.desk.setting ≡ L.setting) }
    ensures legal { IfOk result (λ run. IsLegal L.setting run.book.desk.history) }
    ensures logs { IfOk result (λ run. length run.book.logs.items ≡ length streams.items + plan.checkers + 1) }
    ensures agrees { IfOk result (λ run. EachAgrees run.book.desk.history run.book.logs.items) }
    ensures ends { IfOk result (λ run. length run.ends.items ≡ length streams.items) }
    ensures streams { IfOk result (λ run. length run.streams.items ≡ length streams.items) }
    ensures sessions { IfOk result (λ run. EachSwarmed (stream_record R.left R.ended R.failed R.reads W.written W.failed)
        (terms_of torrent.value plan.rules.depth) L.setting plan.seed
        streams.items run.book.desk.history run.book.logs.items run.streams.items run.ends.items run.short) }
    ensures checks { IfOk result (λ run. CheckersCheck (length streams.items) plan.checkers run.book.logs.items) }
    ensures finishes { IfOk result (λ run.
        MakesLastChecks (length streams.items + plan.checkers) run.book.logs.items (piece_count torrent.value.layout)) }
    ensures waits { IfOk result (λ run. LeavesNone run.short run.book.desk) }
    ensures chosen { IfOk result (λ run. AreChosen None run.book.desk) }
    ensures err { IfErr result IsRunFault }
{
    let pieces = torrent.piece_count();
    let (commons, all) = set_up::<L>(alloc, torrent, fittings)?;
    let worked = work(rt, alloc, &commons, all, streams, plan, gate)?;
    let Worked {
        ends,
        workers,
        streams,
        given_up,
    } = worked;
    let book = commons.gather(alloc, workers)?;
    let short = is_short(&book.desk, pieces, given_up);
    Ok(SwarmRun {
        ends,
        book,
        short,
        streams,
    })
}

/// Sessions with recorded peers at one desk, each in a thread of its own, and checkers in theirs. Worker `i` speaks for stream `i`, with
/// the numbers of the generator `i` of the seed. A session puts a ticket for each piece that it completes; the checkers, whose workers come
/// behind those of the streams, take the tickets, hash the pieces while others have the desk, and settle them. When all have ended, one
/// more worker does the same for each piece that still waits for a check, the least first. Before each turn of a session its worker passes
/// the gate.
///
/// The rules are those of the desk, and each session asks for as many blocks at a time as their depth says. Where memory lacks for what
/// this takes itself, or a thread can't be started, the sessions that run go to their ends, and the streams are dropped.
pub fn swarm<
    R: Source + Send + Drop,
    W: Sink + Send + Drop,
    T: Threads + Wait + Sync,
    G: Gate + Sync,
>(
    rt: &T,
    alloc: Global,
    torrent: Arc<Torrent>,
    streams: Vec<Stream<R, W>>,
    seed: u64,
    rules: Rules,
    checkers: u32,
    gate: &G,
) -> Result<SwarmRun<R, W>, SwarmFault>
    requires streams { (1 ≤ length streams.items) × (length streams.items ≤ MOST_STREAMS) }
    requires rules { AreRules torrent.value.layout rules }
    requires checkers { (1 ≤ checkers) × (checkers ≤ MOST_CHECKERS) }
    ensures setting { IfOk result (λ run.
        run.book.desk.setting ≡ setting_of torrent.value.layout (length streams.items + checkers + 1) rules) }
    ensures legal { IfOk result (λ run.
        IsLegal (setting_of torrent.value.layout (length streams.items + checkers + 1) rules) run.book.desk.history) }
    ensures logs { IfOk result (λ run. length run.book.logs.items ≡ length streams.items + checkers + 1) }
    // The logs are exactly the calls of the journal: each worker's its own, each call at its place.
    ensures agrees { IfOk result (λ run. EachAgrees run.book.desk.history run.book.logs.items) }
    ensures ends { IfOk result (λ run. length run.ends.items ≡ length streams.items) }
    ensures streams { IfOk result (λ run. length run.streams.items ≡ length streams.items) }
    // Each session ran from the empty log and the stream as it was handed in to its worker's log and the stream as it was given back, with
    // the numbers of the generator of the seed and its number. After a fault it made Leave, unless the run is short.
    ensures sessions { IfOk result (λ run. EachSwarmed (stream_record R.left R.ended R.failed R.reads W.written W.failed)
        (terms_of torrent.value rules.depth) (setting_of torrent.value.layout (length streams.items + checkers + 1) rules) seed
        streams.items run.book.desk.history run.book.logs.items run.streams.items run.ends.items run.short) }
    // The checkers made checks alone.
    ensures checks { IfOk result (λ run. CheckersCheck (length streams.items) checkers run.book.logs.items) }
    // The last worker made checks alone, the least piece first, and unless the run is short no piece still waits for one.
    ensures finishes { IfOk result (λ run.
        MakesLastChecks (length streams.items + checkers) run.book.logs.items (piece_count torrent.value.layout)) }
    ensures waits { IfOk result (λ run. LeavesNone run.short run.book.desk) }
    // Each piece is chosen: no worker told otherwise.
    ensures chosen { IfOk result (λ run. AreChosen None run.book.desk) }
    ensures err { IfErr result IsRunFault }
{
    let workers = streams.len() as u32 + checkers + 1;
    let fittings = fit_out(alloc, &torrent, workers, rules)?;
    let plan = Plan {
        seed,
        rules,
        checkers,
    };
    run::<Brand, R, W, T, G>(rt, alloc, torrent, fittings, streams, plan, gate)
}
