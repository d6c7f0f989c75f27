//! Whose a piece is: a peer that works alone has pieces to itself. Nothing is kept for that. It follows from who brought the blocks of the piece
//! and from whom the others are expected.
ghost use Rattle.std.specs.Prelude.{◌≡◌, ◌<◌, ℕ, false};
ghost use Rattle.bt_meta.specs.Layout.{block, block_count, piece_count};
ghost use Rattle.bt_history.specs.Counting.{all_below};
ghost use Rattle.bt_history.specs.Peers.{alone, expected};
ghost use Rattle.bt_history.specs.Pieces.{belongs, is_free_for, is_of, is_own, is_sole};
ghost use Rattle.std.specs.Prelude.{◌==◌, ◌||◌, not};

use crate::position::Position;

impl<'a> Position<'a> {
    /// Whether the worker's peer works alone.
    #[inline(always)]
    pub fn is_alone(&self, worker: u32) -> bool
        requires { worker < self.now.setting.workers }
        ensures { result ≡ alone self.now.history worker }
    {
        self.peer(worker).is_alone()
    }

    /// Whether a peer may work alone: one was told to.
    #[inline(always)]
    fn may_have_alone(&self) -> bool
        ensures { result ≡ false → (q : ℕ) → q < self.now.setting.workers → alone self.now.history q ≡ false }
    {
        self.tables.may_have_alone()
    }

    /// Whether no other peer than the worker's is expected to bring the block.
    fn is_expected_of_no_other(&self, worker: u32, piece: u32, index: u32) -> bool
        requires worker { worker < self.now.setting.workers }
        requires piece { piece < piece_count self.now.setting.torrent }
        requires index { index < block_count self.now.setting.torrent piece }
        ensures { result ≡ all_below self.now.setting.workers
            (λ q. not (expected self.now.history q (block self.now.setting.torrent piece index)) || (q == worker)) }
    {
        let askers = self.asker_count(piece, index);
        if askers == 1 {
            self.expects_newly(worker, piece, index)
        } else {
            askers == 0
        }
    }

    /// Whether nobody but the worker's peer has to do with the block: that peer brought it, or no other is expected to.
    fn is_of(&self, worker: u32, piece: u32, index: u32) -> bool
        requires worker { worker < self.now.setting.workers }
        requires piece { piece < piece_count self.now.setting.torrent }
        requires index { index < block_count self.now.setting.torrent piece }
        ensures { result ≡ is_of self.now.setting self.now.history worker (block self.now.setting.torrent piece index) }
    {
        match self.sender(piece, index) {
            Some(sender) => sender == worker,
            None => self.is_expected_of_no_other(worker, piece, index),
        }
    }

    /// Whether all that is held and expected of the piece is of the worker's peer.
    #[tactic(auto, using(crate::proofs::Sharing::all_of))]
    fn is_sole(&self, worker: u32, piece: u32) -> bool
        requires worker { worker < self.now.setting.workers }
        requires piece { piece < piece_count self.now.setting.torrent }
        ensures { result ≡ is_sole self.now.setting self.now.history worker piece }
    {
        for index in 0..self.block_count(piece) {
            if !self.is_of(worker, piece, index) {
                return false;
            }
        }
        true
    }

    /// Whether the piece belongs to the worker's peer, which works alone.
    fn is_own(&self, worker: u32, piece: u32) -> bool
        requires worker { worker < self.now.setting.workers }
        requires piece { piece < piece_count self.now.setting.torrent }
        ensures { result ≡ is_own self.now.setting self.now.history worker piece }
    {
        self.is_alone(worker)
            && self.is_open(worker)
            && self.is_begun(piece)
            && self.is_sole(worker, piece)
    }

    /// Whether the piece belongs to a peer that works alone.
    #[tactic(auto, using(crate::proofs::Sharing::of_nobody))]
    fn belongs(&self, piece: u32) -> bool
        requires { piece < piece_count self.now.setting.torrent }
        ensures { result ≡ belongs self.now.setting self.now.history piece }
    {
        for worker in 0..self.workers() {
            if self.is_own(worker, piece) {
                return true;
            }
        }
        false
    }

    /// Whether the worker's peer may take part in the piece.
    #[inline(always)]
    pub(crate) fn is_free_for(&self, worker: u32, piece: u32) -> bool
        requires worker { worker < self.now.setting.workers }
        requires piece { piece < piece_count self.now.setting.torrent }
        ensures { result ≡ is_free_for self.now.setting self.now.history worker piece }
    {
        !self.may_have_alone() || self.takes_part(worker, piece)
    }

    /// The same where a peer may work alone.
    fn takes_part(&self, worker: u32, piece: u32) -> bool
        requires worker { worker < self.now.setting.workers }
        requires piece { piece < piece_count self.now.setting.torrent }
        ensures { result ≡ is_free_for self.now.setting self.now.history worker piece }
    {
        if self.is_alone(worker) {
            self.is_sole(worker, piece)
        } else {
            !self.belongs(piece)
        }
    }
}
