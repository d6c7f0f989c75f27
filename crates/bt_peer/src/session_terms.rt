//! What a session goes by.

ghost use Rattle.std.specs.Prelude.{◌≡◌, ◌≤◌};
ghost use Rattle.bt_peer.specs.SessionTerms.{most_next, pieces_of, terms_of};

use bt_history::MOST_DEPTH;
use bt_meta::Torrent;
use std::marker::Model;
use std::sync::Arc;

/// The torrent, and how many blocks may be asked of the peer at a time.
#[derive(Drop)]
pub struct SessionTerms {
    torrent: Arc<Torrent>,
    depth: u32,
}

impl Model for SessionTerms {
    ghost use Rattle.std.specs.Prelude.{◌≤◌};
    ghost use Rattle.bt_history.specs.declared.rules.TheConstants.{MOST_DEPTH};
    ghost use Rattle.bt_peer.specs.SessionTerms.{TermsState, terms_of};

    ghost Value = { TermsState };

    ghost view = { λ t. terms_of t.torrent.value t.depth };

    ghost invariant = { λ t. t.depth ≤ MOST_DEPTH };
}

impl SessionTerms {
    /// Those of a torrent and a depth.
    pub fn new(torrent: Arc<Torrent>, depth: u32) -> SessionTerms
        requires { depth ≤ MOST_DEPTH }
        ensures { result ≡ terms_of torrent.value depth }
    {
        SessionTerms { torrent, depth }
    }

    /// The torrent's pieces.
    pub fn piece_count(&self) -> u32
        ensures { result ≡ pieces_of self.now }
    {
        self.torrent.piece_count()
    }

    /// The torrent's infohash.
    pub fn infohash(&self) -> &[u8; 20]
        ensures { result.now ≡ self.now.infohash }
    {
        self.torrent.infohash()
    }

    /// The most Next calls of one turn: a peer's line may be emptied of so many cancels and then filled with as many requests as its depth
    /// allows, and one more call tells that there is nothing more.
    pub fn most_next(&self) -> u32
        ensures { result ≡ most_next self.now }
    {
        2 * self.depth + 1
    }
}
