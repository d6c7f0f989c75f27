//! A start from what is on the disk: a whole piece at a time, whose bytes nobody reads.

ghost use Rattle.std.specs.Prelude.{◌≡◌, ◌<◌, ◌≤◌, ◌*◌, length, None, option_map, true};
ghost use Rattle.sha1.specs.Sha1.{sha1};
ghost use Rattle.bt_meta.specs.Layout.{block, block_count, block_size, piece_count, piece_len};
ghost use Rattle.bt_history.specs.Peers.{joined};
ghost use Rattle.bt_history.specs.Pieces.{content, unbegun};
ghost use Rattle.bt_history.specs.declared.call.Reply.{Reply};
ghost use Rattle.bt_picker.specs.Checks.{arriving, waits};
ghost use Rattle.bt_picker.specs.Positions.{Gains};
ghost use Rattle.bt_picker.specs.Restores.{Brings, IsToldOf, Restores, part, restore_fault, restored_by};

use super::Picker;
use crate::unseen::Unseen;
use bt_history::{Reason, Reply};
use bt_meta::BLOCK_SIZE;

/// What comes of a restore.
#[derive(Clone, Copy, Debug, PartialEq, Eq)]
pub enum Restored {
    /// The piece is had.
    Had,
    /// The digest isn't its hash: the piece is as it was.
    Failed,
    /// A block of it is held or asked of a peer, or it is had already. Nothing was done.
    Begun,
    /// There is no such peer or piece, or the bytes are of another length. Nothing was done.
    Refused(Reason),
}

impl Picker {
    /// A whole piece is there already, on a disk: the worker stands for the disk and has joined, as a peer does. The bytes are those of the
    /// piece, and the caller vouches that this is their hash. None of them is read or kept, so a mapping of the file costs no reading, and
    /// no memory is taken. The piece has to be one of which no block is held or asked.
    pub fn restore(&mut self, worker: u32, piece: u32, bytes: &[u8], digest: &[u8; 20]) -> Restored
        requires { digest.now ≡ sha1 bytes.now }
        ensures { Restores self.old self.new worker piece bytes.now result }
    {
        if let Some(fault) = self.restore_fault(worker, piece, bytes.len()) {
            return fault;
        }
        let passed = self.has_hash(piece, digest);
        self.restore_whole(worker, piece, &Unseen::of(bytes), passed)
    }

    /// A whole piece is there already, as with `restore`, and the caller has compared its hash: the picker is told whether it is the
    /// metainfo's. So a client that looked over its files hands over no byte and no digest.
    pub fn resume(&mut self, worker: u32, piece: u32, bytes: &Unseen, passed: bool) -> Restored
        requires { piece < piece_count self.old.setting.torrent → IsToldOf self.old.setting.torrent piece bytes.now.bytes passed }
        ensures { Restores self.old self.new worker piece bytes.now.bytes result }
    {
        let len = self.len_of(piece);
        if let Some(fault) = self.restore_fault(worker, piece, len) {
            return fault;
        }
        self.restore_whole(worker, piece, bytes, passed)
    }

    /// How many bytes the piece has; 0 for one beyond the last.
    fn len_of(&self, piece: u32) -> usize
        ensures { piece < piece_count self.now.setting.torrent → result ≡ piece_len self.now.setting.torrent piece }
    {
        let torrent = self.torrent();
        if piece < torrent.piece_count() {
            torrent.piece_len(piece) as usize
        } else {
            0
        }
    }

    /// Why nothing is done, if it isn't.
    fn restore_fault(&self, worker: u32, piece: u32, len: usize) -> Option<Restored>
        ensures { result ≡ restore_fault self.now worker piece len }
    {
        let position = self.position();
        if worker >= self.workers() || !position.is_joined(worker) {
            Some(Restored::Refused(Reason::NotJoined))
        } else if piece >= position.piece_count() {
            Some(Restored::Refused(Reason::NoSuchPiece))
        } else if len != self.torrent().piece_len(piece) as usize {
            Some(Restored::Refused(Reason::WrongLength))
        } else if !position.is_unbegun(piece) {
            Some(Restored::Begun)
        } else {
            None
        }
    }

    /// Brings the piece, and settles it by what the caller found.
    fn restore_whole(&mut self, worker: u32, piece: u32, bytes: &Unseen, passed: bool) -> Restored
        requires told { IsToldOf self.old.setting.torrent piece bytes.now.bytes passed }
        requires free { restore_fault self.old worker piece (length bytes.now.bytes) ≡ None }
        ensures { Restores self.old self.new worker piece bytes.now.bytes result }
    {
        self.bring_whole(worker, piece, bytes);
        restored_by(self.settle_waiting(worker, piece, passed))
    }

    /// The worker's peer brings each block of the piece.
    fn bring_whole(&mut self, worker: u32, piece: u32, bytes: &Unseen)
        requires worker { worker < self.old.setting.workers }
        requires joined { joined self.old.history worker ≡ true }
        requires piece { piece < piece_count self.old.setting.torrent }
        requires len { length bytes.now.bytes ≡ piece_len self.old.setting.torrent piece }
        requires unbegun { unbegun self.old.setting self.old.history piece ≡ true }
        ensures brings { Brings self.old self.new worker piece bytes.now.bytes (block_count self.old.setting.torrent piece) }
        ensures setting { self.new.setting ≡ self.old.setting }
        ensures waits { waits self.new.setting self.new.history piece ≡ true }
        ensures content { content self.new.setting self.new.history piece ≡ bytes.now.bytes }
    {
        self.attest();
        let count = self.torrent().block_count(piece);
        for index in 0..count {
            self.bring_block(worker, piece, index, bytes);
        }
    }

    /// The worker's peer brings a block of the piece.
    fn bring_block(&mut self, worker: u32, piece: u32, index: u32, bytes: &Unseen)
        requires worker { worker < self.old.setting.workers }
        requires piece { piece < piece_count self.old.setting.torrent }
        requires index { index < block_count self.old.setting.torrent piece }
        requires len { length bytes.now.bytes ≡ piece_len self.old.setting.torrent piece }
        ensures { (reply : Reply) × Gains self.old self.new
            (arriving worker piece (block_size * index) (part bytes.now.bytes (block_size * index)) reply) }
    {
        let block = self.torrent().block(piece, index);
        let part = bytes.part(block.begin);
        let _reply = self.bring(worker, piece, block.begin, &part, block.len as usize);
    }
}

/// What is told of a check.
fn restored_by(reply: Reply) -> Restored
    ensures { result ≡ restored_by reply }
{
    match reply {
        Reply::Had => Restored::Had,
        _ => Restored::Failed,
    }
}
