//! What a session does for a message after the handshake.

ghost use Rattle.std.specs.Prelude.{◌≡◌, ◌⊎◌, None, Some, false, [], IfErr, IfOk, OnOk, MatchOption};
ghost use Rattle.bt_peer.specs.declared.fault.SessionFault.TheVariants.{NoMemory, BadBits};
ghost use Rattle.rand_core.specs.Stream.{Stream};
ghost use Rattle.bt_peer.specs.Conduct.{ConductsBy, given_number};
ghost use Rattle.bt_meta.specs.WireBits.{flags_of};
ghost use Rattle.bt_history.specs.Entries.{action_of};
ghost use Rattle.bt_history.specs.declared.event.Action.TheVariants as actions;
ghost use Rattle.bt_peer.specs.Acts.{is_check};
ghost use Rattle.bt_peer.specs.SessionTerms.{pieces_of};
ghost use Rattle.bt_peer.specs.Turns.{call_of, arrived_piece as piece_of_call, if_completed, IsAcceptable, IsBitfield, IsLater};
ghost use Rattle.bt_peer.specs.Outlets.{outlet};
ghost use Rattle.bt_peer.specs.Parts.{MessageStops, OpeningDone, OpeningStops, TurnDone, TurnStops};

use crate::calls::{ask, make_call, tell_news};
use crate::fault::SessionFault;
use crate::place::Place;
use crate::session_terms::SessionTerms;
use crate::writer::Said;
use bt_history::{Call, Reply};
use bt_meta::{BitFault, Bitfield, Sink};
use bt_wire::Message;
use rand_core::Rng;
use std::alloc::Global;

/// The call of a `bitfield` message: it tells the flags that the bytes spell, of a peer of so many pieces.
#[tactic(auto, using(crate::proofs::Spelled::told_flags))]
fn bitfield_call(alloc: Global, bits: &[u8], pieces: u32) -> Result<Call, SessionFault>
    ensures ok { IfOk result (λ call. IsBitfield pieces bits.now × (action_of call ≡ actions.Bits (flags_of pieces bits.now))) }
    ensures err { IfErr result (λ fault. ((fault ≡ NoMemory) × IsBitfield pieces bits.now)
        ⊎ ((fault ≡ BadBits) × ¬ IsBitfield pieces bits.now)) }
{
    match Bitfield::from_wire(alloc, bits, pieces) {
        Ok(bitfield) => Ok(Call::Bits(bitfield)),
        Err(BitFault::NoMemory) => Err(SessionFault::NoMemory),
        Err(_) => Err(SessionFault::BadBits),
    }
}

/// The call that a message makes. That of a block tells its bytes.
fn call_for(
    alloc: Global,
    terms: &SessionTerms,
    message: Message,
) -> Result<Option<Call>, SessionFault>
    requires { IsLater message }
    ensures ok { IfOk result (λ o. IsAcceptable (pieces_of terms.now) message
        × MatchOption o (call_of (pieces_of terms.now) message ≡ None)
        (λ call. call_of (pieces_of terms.now) message ≡ Some (action_of call))) }
    ensures err { IfErr result (λ fault.
        ((fault ≡ NoMemory) × IsAcceptable (pieces_of terms.now) message)
        ⊎ ((fault ≡ BadBits) × ¬ IsAcceptable (pieces_of terms.now) message)) }
{
    Ok(match message {
        Message::Choke => Some(Call::Choke),
        Message::Unchoke => Some(Call::Unchoke),
        Message::Have(piece) => Some(Call::Have(piece)),
        Message::Bits(bits) => match bitfield_call(alloc, &bits, terms.piece_count()) {
            Ok(call) => Some(call),
            Err(fault) => return Err(fault),
        },
        Message::Piece {
            piece,
            begin,
            bytes,
        } => Some(Call::Arrived {
            piece,
            begin,
            bytes,
        }),
        _ => None,
    })
}

/// The piece of a block that arrived.
fn arrived_piece(call: &Call) -> Option<u32>
    ensures { result ≡ piece_of_call (action_of call.now) }
{
    match call {
        Call::Arrived { piece, .. } => Some(*piece),
        _ => None,
    }
}

/// That piece, where the reply completes it.
fn completed(arrived: Option<u32>, reply: &Reply) -> Option<u32>
    ensures { result ≡ if_completed arrived reply.now }
{
    match reply {
        Reply::Completed => arrived,
        _ => None,
    }
}

/// Makes the call of a message, if it has one, and sees to the check of a piece that the call completes.
fn open_turn<P: Place, W: Sink>(
    alloc: Global,
    terms: &SessionTerms,
    message: Message,
    place: &mut P,
    said: &mut Said<'_, W>,
) -> Result<(), SessionFault>
    requires { IsLater message }
    ensures acceptable { OnOk result (IsAcceptable (pieces_of terms.now) message) }
    ensures ok { OnOk result (OpeningDone (call_of (pieces_of terms.now) message)
        (outlet P.Place W.Sink place.old said.old) (outlet P.Place W.Sink place.new said.new)) }
    ensures err { IfErr result (λ fault. MessageStops fault (pieces_of terms.now) message
        (outlet P.Place W.Sink place.old said.old) (outlet P.Place W.Sink place.new said.new)) }
    // At a call that isn't Next no number is drawn.
    ensures conduct { (generator : Stream) →
        ConductsBy result P.settles generator (P.past place.old).calls (P.past place.new).calls generator }
{
    let Some(call) = call_for(alloc, terms, message)? else {
        return Ok(());
    };
    let arrived = arrived_piece(&call);
    let reply = make_call(alloc, place, said, call)?;
    if let Some(piece) = completed(arrived, &reply) {
        place.completed(alloc, piece)?;
    }
    Ok(())
}

/// The turn of a message after the handshake: its call, then news, then Next calls.
pub fn attend<P: Place, W: Sink, N: Rng>(
    alloc: Global,
    terms: &SessionTerms,
    message: Message,
    place: &mut P,
    said: &mut Said<'_, W>,
    rng: &mut N,
) -> Result<(), SessionFault>
    requires { IsLater message }
    ensures ok { OnOk result (TurnDone terms.now message
        (outlet P.Place W.Sink place.old said.old) (outlet P.Place W.Sink place.new said.new)) }
    ensures err { IfErr result (λ fault. TurnStops fault terms.now message
        (outlet P.Place W.Sink place.old said.old) (outlet P.Place W.Sink place.new said.new)) }
    ensures conduct { ConductsBy result P.settles
        (N.stream rng.old) (P.past place.old).calls (P.past place.new).calls (N.stream rng.new) }
{
    open_turn(alloc, terms, message, place, said)?;
    tell_news(alloc, place, said, terms.piece_count())?;
    ask(alloc, place, said, rng, terms.most_next())?;
    Ok(())
}
