//! A picker beside the journal of its calls: the bytes of what is held.
ghost use Rattle.std.specs.Prelude.{◌≡◌, ◌<◌, true, length, slice_index_or};
ghost use Rattle.bt_meta.specs.Layout.{block, block_count, piece_count};
ghost use Rattle.bt_check.specs.Checked as checked;
ghost use Rattle.bt_history.specs.declared.call.Entry.{Entry};
ghost use Rattle.bt_history.specs.Entries.{action_of, event};
ghost use Rattle.bt_history.specs.Legal.{IsAllowed, same_bytes};
ghost use Rattle.bt_history.specs.Pieces.{content, content_of_block};
ghost use Rattle.bt_picker.specs.Checks.{IsCurrent};
ghost use Rattle.bt_picker.specs.Search.{arrived_bytes};

use crate::places::Places;
use crate::position::Position;
use crate::unread::Unread;
use bt_check::Verdict;
use bt_history::{Call, Entry, Reply};
use std::marker::Model;

/// A position and the journal that tells its history. Contracts see the setting and the history.
#[derive(Drop)]
pub struct Filed<'a> {
    pub(crate) position: Position<'a>,
    pub(crate) journal: &'a [Entry],
    pub(crate) places: &'a Places,
}

impl<'a> Model for Filed<'a> {
    ghost use Rattle.std.specs.Prelude.{◌≡◌};
    ghost use Rattle.bt_history.specs.Entries.{history_of};
    ghost use Rattle.bt_picker.specs.Places.{ArePlaces};
    ghost use Rattle.bt_picker.specs.Positions.{DeskState};

    ghost Value = { DeskState };

    ghost view = { λ f. f.position };

    ghost invariant = { λ f. (f.position.history ≡ history_of f.journal.now)
        × ArePlaces f.position.setting f.position.history f.places.now };
}

impl<'a> Filed<'a> {
    ghost use Rattle.bt_history.specs.Entries.{history_of};
    ghost use Rattle.bt_picker.specs.Places.{ArePlaces, stored_place};

    pub fn new(position: Position<'a>, journal: &'a [Entry], places: &'a Places) -> Filed<'a>
        requires history { position.history ≡ history_of journal.now }
        requires places { ArePlaces position.setting position.history places.now }
        ensures { result ≡ position.entry }
    {
        Filed {
            position,
            journal,
            places,
        }
    }

    pub fn piece_count(&self) -> u32
        ensures { result ≡ piece_count self.now.setting.torrent }
    {
        self.position.piece_count()
    }

    pub fn block_count(&self, piece: u32) -> u32
        requires { piece < piece_count self.now.setting.torrent }
        ensures { result ≡ block_count self.now.setting.torrent piece }
    {
        self.position.block_count(piece)
    }

    /// Whether the bytes that were hashed are those held, where the call is a verdict of a piece that waits for one.
    pub fn agrees(&self, call: &Call) -> bool
        ensures { IsCurrent self.now.setting self.now.history (action_of call.now) result }
    {
        match call {
            Call::Settle(verdict) => {
                !self.position.is_waiting(verdict.piece()) || self.is_current(verdict)
            }
            _ => true,
        }
    }

    /// Whether the rules allow the reply to the call.
    pub fn allows(&self, worker: u32, call: &Call, reply: Reply) -> bool
        ensures yes { result ≡ true → IsAllowed self.now.setting self.now.history (event worker call.now reply) }
        ensures no { IsAllowed self.now.setting self.now.history (event worker call.now reply) → result ≡ true }
    {
        self.position.allows(worker, call, self.agrees(call), reply)
    }

    /// The place in the journal of the entry that stored the block, if it is held.
    pub fn place(&self, piece: u32, index: u32) -> Option<usize>
        requires piece { piece < piece_count self.now.setting.torrent }
        requires index { index < block_count self.now.setting.torrent piece }
        ensures { result ≡ stored_place self.now.history (block self.now.setting.torrent piece index) }
    {
        if self.position.holds(piece, index) {
            Some(self.places.of(piece, index) as usize)
        } else {
            None
        }
    }

    /// The bytes of the block, if it is held.
    pub fn held_bytes(&self, piece: u32, index: u32) -> &[u8]
        requires piece { piece < piece_count self.now.setting.torrent }
        requires index { index < block_count self.now.setting.torrent piece }
        ensures { result.now ≡ content_of_block self.now.history (block self.now.setting.torrent piece index) }
    {
        match self.place(piece, index) {
            Some(place) => bytes_at(self.journal, place),
            None => &[],
        }
    }

    /// Whether the bytes that were hashed are those held of the piece.
    fn is_current(&self, verdict: &Verdict) -> bool
        requires { verdict.now.piece < piece_count self.now.setting.torrent }
        ensures { result ≡ same_bytes (checked.joined verdict.now) (content self.now.setting self.now.history verdict.now.piece) }
    {
        let mut hashed = Unread::new(verdict.blocks());
        for index in 0..self.block_count(verdict.piece()) {
            if !hashed.strip(self.held_bytes(verdict.piece(), index)) {
                return false;
            }
        }
        hashed.is_done()
    }
}

/// The bytes of the block that the entry at this place tells of.
fn bytes_at(journal: &[Entry], place: usize) -> &[u8]
    requires { place < length journal.now }
    ensures { (d : Entry) → result.now ≡ arrived_bytes (action_of (slice_index_or journal.now place d).call) }
{
    arrived_bytes(&journal[place].call)
}

/// The bytes of the block that the call tells of.
fn arrived_bytes(call: &Call) -> &[u8]
    ensures { result.now ≡ arrived_bytes (action_of call.now) }
{
    match call {
        Call::Arrived { bytes, .. } => bytes.as_slice(),
        _ => &[],
    }
}
