//! Whether an entry may change what is answered to a peer that had nothing to be asked for.

ghost use Rattle.std.specs.Prelude.{◌≡◌, ◌<◌, ◌==◌, ◌&&◌, ◌||◌, not, true};
ghost use Rattle.bt_meta.specs.Layout.{block, block_count, piece_count};
ghost use Rattle.bt_history.specs.Epochs.{asked_alone, stirs, stores_beyond, unsettles};
ghost use Rattle.bt_history.specs.History.{counts};
ghost use Rattle.bt_history.specs.Legal.{IsAllowed};
ghost use Rattle.bt_history.specs.Pieces.{asker_count, is_late_at_some};
ghost use Rattle.bt_history.specs.Setting.{some_block_of};
ghost use Rattle.bt_picker.specs.Checks.{arriving};
ghost use Rattle.bt_picker.specs.Told.{action_told, telling};

use crate::position::Position;
use crate::told::Told;
use crate::unseen::Unseen;
use bt_history::Reply;

impl<'a> Position<'a> {
    /// Whether the block that begins there is asked of the worker's peer, which isn't late with it, and of no other.
    #[inline(always)]
    fn is_asked_alone(&self, worker: u32, piece: u32, begin: u32) -> bool
        requires worker { worker < self.now.setting.workers }
        requires piece { piece < piece_count self.now.setting.torrent }
        requires begin { some_block_of self.now.setting.torrent piece (λ b. b.begin == begin) ≡ true }
        ensures { result ≡ asked_alone self.now.setting self.now.history worker piece begin }
    {
        let index = self.index_at(piece, begin);
        self.expects(worker, &self.block(piece, index)) && self.has_lone_asker(piece, index)
    }

    /// Whether the block is expected from just one peer, and none is late with it.
    #[inline(always)]
    fn has_lone_asker(&self, piece: u32, index: u32) -> bool
        requires piece { piece < piece_count self.now.setting.torrent }
        requires index { index < block_count self.now.setting.torrent piece }
        ensures { result ≡ ((asker_count self.now.setting self.now.history (block self.now.setting.torrent piece index) == 1)
            && not (is_late_at_some self.now.setting self.now.history (block self.now.setting.torrent piece index))) }
    {
        self.asker_count(piece, index) == 1 && !self.is_late_at_some(piece, index)
    }

    /// Whether a block is stored of which not its own peer alone was asked.
    #[inline(always)]
    fn stores_beyond(&self, worker: u32, told: &Told<'_>, reply: Reply) -> bool
        requires worker { worker < self.now.setting.workers }
        requires allowed { IsAllowed self.now.setting self.now.history (telling worker told.now reply) }
        requires counted { counts reply ≡ true }
        ensures { result ≡ stores_beyond self.now.setting self.now.history (telling worker told.now reply) (action_told told.now) }
    {
        let Told::Arrived { piece, begin, .. } = told else {
            return false;
        };
        reply.is_stored() && !self.is_asked_alone(worker, *piece, *begin)
    }

    /// Whether what is told, with this reply, frees blocks, changes what is wanted, or stores a block of which not its own peer alone was asked.
    #[inline(always)]
    pub fn stirs(&self, worker: u32, told: &Told<'_>, reply: Reply) -> bool
        requires worker { worker < self.now.setting.workers }
        requires allowed { IsAllowed self.now.setting self.now.history (telling worker told.now reply) }
        ensures { result ≡ (counts reply && (unsettles (action_told told.now)
            || stores_beyond self.now.setting self.now.history (telling worker told.now reply) (action_told told.now))) }
    {
        if reply.is_refusal() {
            return false;
        }
        told.unsettles() || self.stores_beyond(worker, told, reply)
    }

    /// Whether a block that came, with this reply, may change what is answered to a peer that had nothing to be asked for.
    #[inline(always)]
    pub fn stirs_with(
        &self,
        worker: u32,
        piece: u32,
        begin: u32,
        bytes: &Unseen,
        reply: Reply,
    ) -> bool
        requires worker { worker < self.now.setting.workers }
        requires allowed { IsAllowed self.now.setting self.now.history (arriving worker piece begin bytes.now.bytes reply) }
        ensures { result ≡ stirs self.now.setting self.now.history (arriving worker piece begin bytes.now.bytes reply) }
    {
        let _bytes = bytes;
        reply.is_stored() && !self.is_asked_alone(worker, piece, begin)
    }
}
