//! What goes over all pieces where a peer shows those of a set too.

ghost use Rattle.std.specs.Prelude.{ℕ, ◌≡◌, ◌<◌, ◌≤◌, ◌+◌, ◌^◌, EachIndex, true, false, length, slice_index_or};
ghost use Rattle.bt_tables.specs.Tables.{bits_row, edit, have_row, joint, less_available, more_available, peer_row, piece_row, recounted};

use crate::peer::Dealing;
use crate::peers::Peers;
use crate::pieces::Pieces;
use bt_meta::Bitfield;

/// The worker's peer shows the pieces of the set too.
pub fn announce_all(pieces: &mut Pieces, peers: &mut Peers, worker: u32, flags: &Bitfield)
    requires worker { worker < length peers.old }
    requires flags { length flags.now ≡ length (peer_row peers.old worker).shows }
    requires pieces { length (peer_row peers.old worker).shows ≡ length pieces.old }
    requires few { EachIndex pieces.old (λ p. (piece_row pieces.old p).availability + 1 < 2 ^ 16) }
    requires counted { (p : ℕ) → p < length pieces.old → slice_index_or (peer_row peers.old worker).shows p false ≡ true
        → 1 ≤ (piece_row pieces.old p).availability }
    ensures pieces { pieces.new
        ≡ recounted pieces.old (peer_row peers.old worker).shows (joint flags.now (peer_row peers.old worker).shows) }
    ensures peers { peers.new ≡ edit peers.old worker (bits_row (joint flags.now (peer_row peers.old worker).shows)) }
{
    peers.note(worker, Dealing::Heard); // a set of no pieces is told too
    for piece in 0..flags.count() {
        if flags.has(piece) {
            announce(pieces, peers, worker, piece);
        }
    }
}

/// The worker's peer shows the piece, and is counted for it once.
fn announce(pieces: &mut Pieces, peers: &mut Peers, worker: u32, piece: u32)
    requires worker { worker < length peers.old }
    requires piece { piece < length pieces.old }
    requires shown { piece < length (peer_row peers.old worker).shows }
    requires few { (piece_row pieces.old piece).availability + 1 < 2 ^ 16 }
    requires counted { slice_index_or (peer_row peers.old worker).shows piece false ≡ true → 1 ≤ (piece_row pieces.old piece).availability }
    ensures pieces { pieces.new ≡ edit pieces.old piece
        (λ row. more_available true (less_available (slice_index_or (peer_row peers.old worker).shows piece false) row)) }
    ensures peers { peers.new ≡ edit peers.old worker (have_row piece) }
{
    let is_new = !peers.shows(worker, piece);
    pieces.announce(piece, is_new);
    peers.put_have(worker, piece);
}
