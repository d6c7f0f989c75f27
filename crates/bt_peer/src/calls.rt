//! Calls of a turn, each with what is written for it.

ghost use Rattle.std.specs.Prelude.{◌≡◌, ℕ, false, true, [], ◌∷◌, Some, IfErr, IfOk, OnOk};
ghost use Rattle.bt_peer.specs.Conduct.{ConductsBy};
ghost use Rattle.bt_history.specs.Entries.{action_of};
ghost use Rattle.bt_peer.specs.Acts.{Called, is_refusal};
ghost use Rattle.bt_peer.specs.Turns.{arrived_piece, has_more as more_after, if_completed};
ghost use Rattle.bt_peer.specs.Outlets.{outlet, Performs};
ghost use Rattle.bt_peer.specs.Parts.{AskingDone, AskingStops, CallStops, NewsDone, NewsStops};

use crate::fault::SessionFault;
use crate::place::Place;
use crate::writer::Said;
use bt_history::{Call, Reply};
use bt_meta::Sink;
use bt_wire::Message;
use rand_core::Rng;
use std::alloc::Global;

/// Makes a call, and says what its reply calls for.
pub fn make_call<P: Place, W: Sink>(
    alloc: Global,
    place: &mut P,
    said: &mut Said<'_, W>,
    call: Call,
) -> Result<Reply, SessionFault>
    ensures ok { IfOk result (λ reply. Performs
        (outlet P.Place W.Sink place.old said.old) (Called (action_of call) reply ∷ [])
        (outlet P.Place W.Sink place.new said.new)) }
    ensures ok_accepted { IfOk result (λ reply. is_refusal reply ≡ false) }
    ensures completes { IfOk result (λ reply. P.settles ≡ true → (piece : ℕ) →
        if_completed (arrived_piece (action_of call)) reply ≡ Some piece → P.awaits place.new piece ≡ true) }
    ensures err { IfErr result (λ fault. CallStops fault (action_of call)
        (outlet P.Place W.Sink place.old said.old) (outlet P.Place W.Sink place.new said.new)) }
{
    let reply = place.call(call)?;
    if let Reply::Refused(reason) = reply {
        return Err(SessionFault::Refused(reason));
    }
    said.tell(alloc, &reply)?;
    Ok(reply)
}

/// Tells the peer of finished pieces, so many at most.
pub fn tell_news<P: Place, W: Sink>(
    alloc: Global,
    place: &mut P,
    said: &mut Said<'_, W>,
    most: u32,
) -> Result<(), SessionFault>
    ensures ok { OnOk result (NewsDone most
        (outlet P.Place W.Sink place.old said.old) (outlet P.Place W.Sink place.new said.new)) }
    ensures err { IfErr result (λ fault. NewsStops fault most
        (outlet P.Place W.Sink place.old said.old) (outlet P.Place W.Sink place.new said.new)) }
{
    'news: for _ in 0..most {
        let Some(piece) = place.news() else {
            return Ok(());
        };
        said.send(alloc, &Message::Have(piece))?;
    }
    Ok(())
}

/// There is more to ask for after this reply.
fn has_more(reply: &Reply) -> bool
    ensures { result ≡ more_after reply.now }
{
    matches!(reply, Reply::Cancel(_) | Reply::Request(_))
}

/// Asks for blocks, until there is nothing more to ask for, by so many calls at most.
pub fn ask<P: Place, W: Sink, N: Rng>(
    alloc: Global,
    place: &mut P,
    said: &mut Said<'_, W>,
    rng: &mut N,
    most: u32,
) -> Result<(), SessionFault>
    ensures ok { OnOk result (AskingDone most
        (outlet P.Place W.Sink place.old said.old) (outlet P.Place W.Sink place.new said.new)) }
    ensures err { IfErr result (λ fault. AskingStops fault most
        (outlet P.Place W.Sink place.old said.old) (outlet P.Place W.Sink place.new said.new)) }
    ensures conduct { ConductsBy result P.settles
        (N.stream rng.old) (P.past place.old).calls (P.past place.new).calls (N.stream rng.new) }
{
    'next: for _ in 0..most {
        let reply = make_call(alloc, place, said, Call::Next(rng.next_u64()))?;
        if !has_more(&reply) {
            return Ok(());
        }
    }
    Ok(())
}
