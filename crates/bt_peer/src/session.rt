//! A session, turn by turn.

ghost use Rattle.std.specs.Prelude.{◌≡◌, ◌<◌, ◌≤◌, true, false, None, IfOk, IfSome, IfNone, IfErr, OnOk, OnErr};

use crate::fault::{End, SessionFault};
use crate::handshake::greeting;
use crate::place::Place;
use crate::reader::Heard;
use crate::session_terms::SessionTerms;
use crate::turn::{greet, listen};
use crate::writer::Said;
use bt_history::MOST_DEPTH;
use bt_meta::{Sink, Source, Torrent};
use bt_wire::frame_limit;
use rand_pcg::Lcg64Xsh32;
use std::alloc::Global;
use std::marker::Model;
use std::sync::Arc;

/// A session of a worker with one peer, from the handshakes to the end of the peer's stream.
pub struct Session {
    terms: SessionTerms,
    worker: u32,
    heard: Heard,
    joined: bool,
    /// We have told the peer that we are interested, and not since then that we aren't.
    interested: bool,
    messages: u64,
    outcome: Option<Result<End, SessionFault>>,
}

/// The end of a session is one call for whoever owns one.
impl Drop for Session {
    fn drop(self) {
        let Session {
            terms: _terms,
            worker: _,
            heard: _heard,
            joined: _,
            interested: _,
            messages: _,
            outcome: _,
        } = self;
    }
}

impl Model for Session {
    ghost use Rattle.std.specs.Prelude.{◌≡◌, ◌≤◌, ◌+◌, ◌*◌, None, length};
    ghost use Rattle.bt_peer.specs.Reader.{room_len};
    ghost use Rattle.bt_peer.specs.Sessions.{SessionState};

    ghost Value = { SessionState };

    ghost view = { λ a. record {
      terms = a.terms;
      worker = a.worker;
      stream = a.heard.inbound;
      joined = a.joined;
      interested = a.interested;
      reads = a.heard.reads;
      messages = a.messages;
      outcome = a.outcome;
    } };

    ghost invariant = { λ a. a.outcome ≡ None →
        (a.heard.inbound.greeted ≡ a.joined) × (4 * a.messages + length a.heard.inbound.bytes ≤ room_len * a.heard.reads) };
}

impl Session {
    ghost use Rattle.rand_core.specs.Stream.{Stream};
    ghost use Rattle.bt_peer.specs.declared.fault.SessionFault.TheVariants.{WriteFault};
    ghost use Rattle.bt_peer.specs.Conduct.{Conducts, ConductsBy, DrawsNumbers, answers_of};
    ghost use Rattle.bt_peer.specs.Reader.{most_reads, source_state};
    ghost use Rattle.bt_peer.specs.SessionTerms.{terms_of};
    ghost use Rattle.bt_peer.specs.Steps.{surroundings};
    ghost use Rattle.bt_peer.specs.Sessions.{SessionState, begun, to_hear, GoesOn, Ends, FailsWith, answer_again};

    /// A session that has done nothing yet, with a peer that is asked for so many blocks at a time: the depth of its desk's rules, 1 to
    /// 64. Takes no memory.
    pub fn new(alloc: Global, torrent: Arc<Torrent>, worker: u32, depth: u32) -> Session
        requires { (1 ≤ depth) × (depth ≤ MOST_DEPTH) }
        ensures { result ≡ begun (terms_of torrent.value depth) worker }
    {
        let limit = frame_limit(torrent.piece_count());
        Session {
            terms: SessionTerms::new(torrent, depth),
            worker,
            heard: Heard::new(alloc, limit),
            joined: false,
            interested: false,
            messages: 0,
            outcome: None,
        }
    }

    /// How it ended, if it has.
    pub(crate) fn outcome(&self) -> Option<Result<End, SessionFault>>
        ensures { result ≡ self.now.outcome }
    {
        self.outcome
    }

    /// What this writer is to say to the peer, with the interest that was told so far.
    fn said_by<'a, W: Sink>(&self, writer: &'a mut W) -> Said<'a, W>
        ensures { result ≡ record { writer = writer.entry; interested = self.now.interested } }
    {
        Said {
            writer,
            interested: self.interested,
        }
    }

    /// The first turn: our handshake, the peer's, and Join.
    fn first_turn<R: Source, W: Sink, P: Place>(
        &mut self,
        alloc: Global,
        reader: &mut R,
        writer: &mut W,
        place: &mut P,
    ) -> Result<(), SessionFault>
        requires fresh { self.old.outcome ≡ None }
        requires joined { self.old.joined ≡ false }
        ensures goes_on { OnOk result (GoesOn
            self.old (surroundings P.past R.left W.written place.old reader.old writer.old)
            self.new (surroundings P.past R.left W.written place.new reader.new writer.new)) }
        ensures shrinks { OnOk result (to_hear self.new < to_hear self.old) }
        ensures fails { IfErr result (λ fault. FailsWith fault
            self.old (surroundings P.past R.left W.written place.old reader.old writer.old)
            (source_state R.left R.ended R.failed reader.new self.new.reads)
            self.new (surroundings P.past R.left W.written place.new reader.new writer.new)) }
        // No number is drawn.
        ensures conduct { (generator : Stream) →
            ConductsBy result P.settles generator (P.past place.old).calls (P.past place.new).calls generator }
        ensures counted { R.reads reader.old ≡ self.old.reads → R.reads reader.new ≡ self.new.reads }
        ensures most { self.new.reads ≤ most_reads }
        ensures sound { OnOk result (
            (R.failed reader.new ≡ R.failed reader.old) × (W.failed writer.new ≡ W.failed writer.old)) }
        ensures failed { IfErr result (λ fault. fault ≡ WriteFault → W.failed writer.new ≡ true) }
    {
        let hello = greeting(self.terms.infohash(), self.worker);
        let mut said = self.said_by(writer);
        let greeted = greet(
            alloc,
            &self.terms,
            &hello,
            &mut self.heard,
            &mut said,
            reader,
            place,
        );
        self.interested = said.interested;
        match greeted {
            Ok(()) => {
                self.joined = true;
                Ok(())
            }
            Err(fault) => {
                self.outcome = Some(Err(fault));
                Err(fault)
            }
        }
    }

    /// The next turn: first the handshakes, then a message each, and at the end of the peer's stream the departure. Once the session has
    /// ended, well or not, a turn gives that answer again and touches neither devices nor place.
    pub fn turn<R: Source, W: Sink, P: Place>(
        &mut self,
        alloc: Global,
        reader: &mut R,
        writer: &mut W,
        place: &mut P,
        rng: &mut Lcg64Xsh32,
    ) -> Result<Option<End>, SessionFault>
        ensures goes_on { IfOk result (λ o. IfNone o (GoesOn
            self.old (surroundings P.past R.left W.written place.old reader.old writer.old)
            self.new (surroundings P.past R.left W.written place.new reader.new writer.new))) }
        // Each turn that goes on uses up some of what there may be to hear.
        ensures shrinks { IfOk result (λ o. IfNone o (to_hear self.new < to_hear self.old)) }
        ensures ends { self.old.outcome ≡ None → IfOk result (λ o. IfSome o (λ end. Ends end
            self.old (surroundings P.past R.left W.written place.old reader.old writer.old) (R.ended reader.new)
            self.new (surroundings P.past R.left W.written place.new reader.new writer.new))) }
        ensures fails { self.old.outcome ≡ None → IfErr result (λ fault. FailsWith fault
            self.old (surroundings P.past R.left W.written place.old reader.old writer.old)
            (source_state R.left R.ended R.failed reader.new self.new.reads)
            self.new (surroundings P.past R.left W.written place.new reader.new writer.new)) }
        // The numbers of Next are the generator's, and a piece is checked at once where the place checks it itself.
        ensures conduct { OnOk result (Conducts P.settles
            (answers_of rng.old) (P.past place.old).calls (P.past place.new).calls (answers_of rng.new)) }
        ensures numbers { OnErr result (DrawsNumbers (answers_of rng.old) (P.past place.old).calls (P.past place.new).calls) }
        // What the session counts is what the source was asked, where that was so before.
        ensures counted { R.reads reader.old ≡ self.old.reads → R.reads reader.new ≡ self.new.reads }
        ensures most { self.new.reads ≤ most_reads }
        // A turn that goes on or ends leaves both devices sound, if they were.
        ensures sound { IfOk result (λ o.
            (R.failed reader.new ≡ R.failed reader.old) × (W.failed writer.new ≡ W.failed writer.old)) }
        ensures failed { self.old.outcome ≡ None → IfErr result (λ fault. fault ≡ WriteFault → W.failed writer.new ≡ true) }
        ensures again { IfSome self.old.outcome (λ outcome. (self.new ≡ self.old)
            × (reader.new ≡ reader.old) × (writer.new ≡ writer.old) × (place.new ≡ place.old)) }
        ensures answer { IfSome self.old.outcome (λ outcome. result ≡ answer_again outcome) }
    {
        match self.outcome {
            Some(Ok(end)) => return Ok(Some(end)),
            Some(Err(fault)) => return Err(fault),
            None => {}
        }
        if !self.joined {
            self.first_turn(alloc, reader, writer, place)?;
            return Ok(None);
        }
        let mut said = self.said_by(writer);
        let listened = listen(
            alloc,
            &self.terms,
            &mut self.heard,
            &mut said,
            reader,
            place,
            rng,
        );
        self.interested = said.interested;
        match listened {
            Ok(true) => {
                self.messages += 1;
                Ok(None)
            }
            Ok(false) => {
                let end = End {
                    messages: self.messages,
                };
                self.outcome = Some(Ok(end));
                Ok(Some(end))
            }
            Err(fault) => {
                self.outcome = Some(Err(fault));
                Err(fault)
            }
        }
    }
}
