//! A whole session.

ghost use Rattle.std.specs.Prelude.{ℕ, ◌≡◌, ◌≤◌, true, IfOk, IfErr, OnOk, OnErr};
ghost use Rattle.bt_peer.specs.declared.fault.SessionFault.TheVariants.{WriteFault};
ghost use Rattle.bt_peer.specs.Conduct.{Conducts, DrawsNumbers, answers_of};
ghost use Rattle.bt_peer.specs.Reader.{most_reads, source_state};
ghost use Rattle.bt_peer.specs.SessionTerms.{terms_of};
ghost use Rattle.bt_peer.specs.Steps.{surroundings};
ghost use Rattle.bt_peer.specs.Sessions.{IsWhole, IsCutShort};
ghost use Rattle.bt_peer.specs.Outcomes.{RunsTo, devices_record};

use crate::fault::{End, SessionFault};
use crate::gate::{Gate, OpenGate};
use crate::place::Place;
use crate::session::Session;
use bt_history::MOST_DEPTH;
use bt_meta::{Sink, Source, Torrent};
use rand_pcg::Lcg64Xsh32;
use std::alloc::Global;
use std::sync::Arc;

/// A session from its first turn to its end, or to a fault. Its peer is asked for so many blocks at a time as the depth says, 1 to 64.
pub fn session<R: Source, W: Sink, P: Place>(
    alloc: Global,
    torrent: Arc<Torrent>,
    worker: u32,
    reader: &mut R,
    writer: &mut W,
    place: &mut P,
    rng: &mut Lcg64Xsh32,
    depth: u32,
) -> Result<End, SessionFault>
    requires { (1 ≤ depth) × (depth ≤ MOST_DEPTH) }
    ensures whole { IfOk result (λ end. IsWhole end (terms_of torrent.value depth) worker
        (surroundings P.past R.left W.written place.old reader.old writer.old)
        (surroundings P.past R.left W.written place.new reader.new writer.new)) }
    // It comes to its end only where its source did.
    ensures ended { OnOk result (R.ended reader.new ≡ true) }
    // The numbers of Next are the generator's, and a piece is checked at once where the place checks it itself.
    ensures conduct { OnOk result (Conducts P.settles
        (answers_of rng.old) (P.past place.old).calls (P.past place.new).calls (answers_of rng.new)) }
    ensures numbers { OnErr result (DrawsNumbers (answers_of rng.old) (P.past place.old).calls (P.past place.new).calls) }
    // The reads that the session counted are those that its source was asked for, if none were before.
    ensures cut_short { IfErr result (λ fault. (reads : ℕ) × ((R.reads reader.old ≡ 0 → R.reads reader.new ≡ reads)
        × IsCutShort fault (terms_of torrent.value depth) worker
        (surroundings P.past R.left W.written place.old reader.old writer.old)
        (source_state R.left R.ended R.failed reader.new reads)
        (surroundings P.past R.left W.written place.new reader.new writer.new))) }
    ensures failed { IfErr result (λ fault. fault ≡ WriteFault → W.failed writer.new ≡ true) }
    ensures most { R.reads reader.old ≡ 0 → R.reads reader.new ≤ most_reads }
{
    gated(
        alloc, torrent, worker, reader, writer, place, rng, depth, &OpenGate,
    )
}

/// The same, and before each turn its worker passes the gate.
pub fn gated<R: Source, W: Sink, P: Place, G: Gate>(
    alloc: Global,
    torrent: Arc<Torrent>,
    worker: u32,
    reader: &mut R,
    writer: &mut W,
    place: &mut P,
    rng: &mut Lcg64Xsh32,
    depth: u32,
    gate: &G,
) -> Result<End, SessionFault>
    requires { (1 ≤ depth) × (depth ≤ MOST_DEPTH) }
    ensures runs { RunsTo result (terms_of torrent.value depth) worker (answers_of rng.old)
        (P.past place.old) (devices_record R.left R.ended R.failed R.reads W.written W.failed reader.old writer.old)
        (P.past place.new) (devices_record R.left R.ended R.failed R.reads W.written W.failed reader.new writer.new) }
    ensures conduct { OnOk result (Conducts P.settles
        (answers_of rng.old) (P.past place.old).calls (P.past place.new).calls (answers_of rng.new)) }
{
    let mut session = Session::new(alloc, torrent, worker, depth);
    let mut turn = 0;
    'turns: loop {
        gate.enter(worker, turn);
        if let Some(end) = session.turn(alloc, reader, writer, place, rng)? {
            return Ok(end);
        }
        turn += 1;
    }
}
