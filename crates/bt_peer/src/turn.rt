//! The turns of a session: the handshakes, and one message after another.

ghost use Rattle.std.specs.Prelude.{◌≡◌, [], true, false, IfOk, IfErr, OnOk};
ghost use Rattle.std.specs.Bool.{OnTrue, OnFalse};
ghost use Rattle.rand_core.specs.Stream.{Stream};
ghost use Rattle.bt_peer.specs.Conduct.{ConductsBy};
ghost use Rattle.bt_peer.specs.Hearing.{UsesUp, hearing};
ghost use Rattle.bt_peer.specs.Outlets.{saying};
ghost use Rattle.bt_peer.specs.Parts.{GreetingFails, ListeningFails, TurnKeeps, reading_by, round_turn};
ghost use Rattle.bt_peer.specs.Steps.{start, TakesTurn, TakesLeave, Leaves};

use crate::fault::SessionFault;
use crate::message::attend;
use crate::place::Place;
use crate::reader::Heard;
use crate::session_terms::SessionTerms;
use crate::writer::Said;
use bt_history::{Call, Reply};
use bt_meta::{Sink, Source};
use bt_wire::Message;
use rand_core::Rng;
use std::alloc::Global;

/// The first turn: each side's handshake, then Join.
pub fn greet<R: Source, W: Sink, P: Place>(
    alloc: Global,
    terms: &SessionTerms,
    greeting: &[u8],
    heard: &mut Heard,
    said: &mut Said<'_, W>,
    reader: &mut R,
    place: &mut P,
) -> Result<(), SessionFault>
    requires greeted { heard.old.inbound.greeted ≡ false }
    ensures ok { OnOk result (TakesTurn terms.now greeting.now
        (reading_by heard.old said.old) (round_turn P.Place R.Source W.Sink place.old reader.old said.old)
        (reading_by heard.new said.new) (round_turn P.Place R.Source W.Sink place.new reader.new said.new)) }
    // No number is drawn.
    ensures conduct { (generator : Stream) →
        ConductsBy result P.settles generator (P.past place.old).calls (P.past place.new).calls generator }
    ensures few { OnOk result (UsesUp (hearing R.Source heard.old reader.old) (hearing R.Source heard.new reader.new)) }
    ensures err { IfErr result (λ fault. GreetingFails fault greeting.now said.old.interested
        (start terms.now false heard.old.inbound (R.left reader.old)) (hearing R.Source heard.new reader.new).source
        (P.past place.old) (W.written said.old.writer.now) (P.past place.new) (W.written said.new.writer.now)) }
    ensures keeps { TurnKeeps result
        (hearing R.Source heard.old reader.old) (saying W.Sink said.old)
        (hearing R.Source heard.new reader.new) (saying W.Sink said.new) }
{
    said.write(greeting)?;
    let Some(message) = heard.next(alloc, reader)? else {
        return Err(SessionFault::Truncated);
    };
    let Message::Hello(hello) = message else {
        return Err(SessionFault::WrongInfohash);
    };
    let theirs = hello.infohash;
    let ours = *terms.infohash();
    if theirs != ours {
        return Err(SessionFault::WrongInfohash);
    }
    // The reply to Join says nothing to the peer.
    match place.call(Call::Join)? {
        Reply::Refused(reason) => Err(SessionFault::Refused(reason)),
        _ => Ok(()),
    }
}

/// Leaves the place before a session ends by a fault. Where there is no memory for it, the peer stays joined.
fn leave_by<P: Place>(place: &mut P, fault: SessionFault) -> SessionFault
    ensures fault { result ≡ fault }
    ensures leave { Leaves (P.past place.old) (P.past place.new) }
{
    let _ = place.call(Call::Leave);
    fault
}

/// A later turn: a message, or the end of the input. Answers whether the session goes on.
pub fn listen<R: Source, W: Sink, P: Place, N: Rng>(
    alloc: Global,
    terms: &SessionTerms,
    heard: &mut Heard,
    said: &mut Said<'_, W>,
    reader: &mut R,
    place: &mut P,
    rng: &mut N,
) -> Result<bool, SessionFault>
    requires greeted { heard.old.inbound.greeted ≡ true }
    ensures goes_on { IfOk result (λ goes_on. OnTrue goes_on (TakesTurn terms.now []
        (reading_by heard.old said.old) (round_turn P.Place R.Source W.Sink place.old reader.old said.old)
        (reading_by heard.new said.new) (round_turn P.Place R.Source W.Sink place.new reader.new said.new))) }
    ensures few { IfOk result (λ goes_on. OnTrue goes_on
        (UsesUp (hearing R.Source heard.old reader.old) (hearing R.Source heard.new reader.new))) }
    ensures leaves { IfOk result (λ goes_on. OnFalse goes_on (TakesLeave
        (reading_by heard.old said.old) (round_turn P.Place R.Source W.Sink place.old reader.old said.old) (R.ended reader.new)
        (reading_by heard.new said.new) (round_turn P.Place R.Source W.Sink place.new reader.new said.new))) }
    ensures conduct { ConductsBy result P.settles
        (N.stream rng.old) (P.past place.old).calls (P.past place.new).calls (N.stream rng.new) }
    ensures err { IfErr result (λ fault. ListeningFails fault said.old.interested
        (start terms.now true heard.old.inbound (R.left reader.old)) (hearing R.Source heard.new reader.new).source
        (P.past place.old) (W.written said.old.writer.now) (P.past place.new) (W.written said.new.writer.now)) }
    ensures keeps { TurnKeeps result
        (hearing R.Source heard.old reader.old) (saying W.Sink said.old)
        (hearing R.Source heard.new reader.new) (saying W.Sink said.new) }
{
    let message = match heard.next(alloc, reader) {
        Ok(Some(message)) => message,
        Ok(None) if heard.inbound.rest() > 0 => {
            return Err(leave_by(place, SessionFault::Truncated));
        }
        Ok(None) => {
            return match place.call(Call::Leave)? {
                Reply::Refused(reason) => Err(SessionFault::Refused(reason)),
                _ => Ok(false),
            };
        }
        Err(fault) => return Err(leave_by(place, fault)),
    };
    if let Err(fault) = attend(alloc, terms, message, place, said, rng) {
        return Err(leave_by(place, fault));
    }
    Ok(true)
}
