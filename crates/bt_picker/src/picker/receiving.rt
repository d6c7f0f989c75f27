//! Blocks that came and that the caller has stored by itself: the picker is told how long they are.

ghost use Rattle.std.specs.Prelude.{◌≡◌, ◌<◌, length, true};
ghost use Rattle.bt_history.specs.declared.call.Reply.{Reply};
ghost use Rattle.bt_picker.specs.Checks.{arriving, waits};
ghost use Rattle.bt_picker.specs.Positions.{Gains};
ghost use Rattle.bt_picker.specs.Told.{Tells};

use super::{Picker, risen};
use crate::entries::enter_block;
use crate::past::Note;
use crate::unseen::Unseen;
use bt_history::{Reason, Reply};

impl Picker {
    /// A block came from the worker's peer, so many bytes long, which begins so many bytes into the piece. The caller has its bytes, and the
    /// picker needs none of them: this is `Told::Arrived` for bytes that are on their way to a disk, or stored already. It takes no memory.
    /// Once the last block of a piece came so, what the caller stored is what a check of the piece has to hash.
    pub fn received(
        &mut self,
        worker: u32,
        piece: u32,
        begin: u32,
        bytes: &Unseen,
        len: usize,
    ) -> Reply
        requires len { len ≡ length bytes.now.bytes }
        ensures tells { Tells self.old self.new (arriving worker piece begin bytes.now.bytes result) }
        // Once its last block came, a piece waits for its check.
        ensures completes { result ≡ Reply.Completed → waits self.new.setting self.new.history piece ≡ true }
    {
        if worker >= self.workers() {
            return Reply::Refused(Reason::NotJoined);
        }
        self.bring(worker, piece, begin, bytes, len)
    }

    /// Enters a block that came.
    pub(crate) fn bring(
        &mut self,
        worker: u32,
        piece: u32,
        begin: u32,
        bytes: &Unseen,
        len: usize,
    ) -> Reply
        requires worker { worker < self.old.setting.workers }
        requires len { len ≡ length bytes.now.bytes }
        ensures gains { Gains self.old self.new (arriving worker piece begin bytes.now.bytes result) }
        ensures completes { result ≡ Reply.Completed → waits self.new.setting self.new.history piece ≡ true }
    {
        let before = self.position();
        let reply = before.received(worker, piece, begin, bytes, len);
        let stirs = before.stirs_with(worker, piece, begin, bytes, reply);
        enter_block(
            &mut self.tables,
            &self.past,
            worker,
            piece,
            begin,
            bytes,
            reply,
        );
        self.past = self.past.then(&Note::Received {
            worker,
            piece,
            begin,
            bytes,
            reply,
        });
        self.stirred = risen(self.stirred, stirs);
        reply
    }
}
