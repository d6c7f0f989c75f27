//! What the picker behind a handle answers, without the handle.
ghost use Rattle.std.specs.Prelude.{◌≡◌, ◌%◌, ◌^◌};
ghost use Rattle.bt_history.specs.Epochs.{epoch};
ghost use Rattle.bt_c.specs.Asking.{Audits, AuditsBy, CountsOutstanding, IsOutstanding, Reads, ReadsFrom, SaysOfContent};
ghost use Rattle.bt_c.specs.Asking.{SaysAskers, SaysInteresting, SaysOfPiece, SaysRule, SaysSender, number_of, number_of_piece};
ghost use Rattle.bt_history.specs.Setting.{AreRules};
ghost use Rattle.bt_c.specs.Behind.{state};
ghost use Rattle.bt_c.specs.Rules.{rules_of_setting};

use crate::buffer::Buffer;
use crate::engine::Engine;
use crate::fault::Fault;
use crate::held::Held;
use bt_meta::Block;
use bt_picker::{AuditFault, ContentFault, Desk, audit};
use std::alloc::Global;

/// A question about the whole picker.
#[derive(Clone, Copy, Debug, PartialEq, Eq)]
pub enum Question {
    /// How many pieces there are.
    Pieces,
    /// How many workers there are.
    Workers,
    /// Whether each piece is complete.
    Complete,
    /// Whether each wanted piece is complete.
    HasWanted,
    /// Whether all pieces of one level come in rising order.
    InOrder,
    /// From which level on pieces come in rising order.
    OrderFrom,
}

/// A question about a piece.
#[derive(Clone, Copy, Debug, PartialEq, Eq)]
pub enum PieceQuestion {
    /// Whether it is complete.
    Had,
    /// Whether it is full, and waits for its check.
    Waiting,
    /// Its level.
    Level,
    /// How many joined peers show it.
    Availability,
    /// Its bytes.
    Length,
    /// Its blocks.
    Blocks,
}

impl Held {
    /// Answers a question, a flag by 1 or 0.
    pub fn ask(&self, question: Question) -> u32
        ensures { result ≡ number_of (state self.now) question }
    {
        let picker = self.engine.picker();
        match question {
            Question::Pieces => self.torrent.piece_count(),
            Question::Workers => picker.workers(),
            Question::Complete => u32::from(picker.is_complete()),
            Question::HasWanted => u32::from(picker.has_wanted()),
            Question::InOrder => u32::from(picker.is_in_order()),
            Question::OrderFrom => u32::from(picker.order_from()),
        }
    }

    /// The number that rises when an answer of nothing to request may have changed.
    pub fn epoch(&self) -> u64
        ensures { result ≡ epoch (state self.now).setting (state self.now).history % 2 ^ 64 }
    {
        self.engine.picker().epoch()
    }

    /// Answers a question of a piece, a flag by 1 or 0.
    pub fn ask_of_piece(&self, question: PieceQuestion, piece: u32) -> Result<u32, Fault>
        ensures { SaysOfPiece (state self.now) piece (number_of_piece (state self.now) question piece) result }
    {
        if piece >= self.torrent.piece_count() {
            return Err(Fault::Piece);
        }
        let picker = self.engine.picker();
        let number = match question {
            PieceQuestion::Had => u32::from(picker.had(piece)),
            PieceQuestion::Waiting => u32::from(picker.is_waiting(piece)),
            PieceQuestion::Level => u32::from(picker.level(piece)),
            PieceQuestion::Availability => picker.availability(piece),
            PieceQuestion::Length => self.torrent.piece_len(piece),
            PieceQuestion::Blocks => self.torrent.block_count(piece),
        };
        Ok(number)
    }

    /// The worker whose peer brought the block of this index, if that is held.
    pub fn sender(&self, piece: u32, index: u32) -> Result<u32, Fault>
        ensures { SaysSender (state self.now) piece index result }
    {
        if piece >= self.torrent.piece_count() {
            return Err(Fault::Piece);
        }
        if index >= self.torrent.block_count(piece) {
            return Err(Fault::Block);
        }
        match self.engine.picker().sender(piece, index) {
            Some(worker) => Ok(worker),
            None => Err(Fault::NotHeld),
        }
    }

    /// The number of the rule by which the block of this index was requested, right after the answer that requests it.
    pub fn rule(&self, piece: u32, index: u32) -> Result<u32, Fault>
        ensures { SaysRule (state self.now) piece index result }
    {
        if piece >= self.torrent.piece_count() {
            return Err(Fault::Piece);
        }
        if index >= self.torrent.block_count(piece) {
            return Err(Fault::Block);
        }
        let rule = self.engine.picker().rule_of(piece, index);
        Ok(u32::from(rule.number()))
    }

    /// Of how many peers the block of this index is requested that aren't late with it.
    pub fn askers(&self, piece: u32, index: u32) -> Result<u32, Fault>
        ensures { SaysAskers (state self.now) piece index result }
    {
        if piece >= self.torrent.piece_count() {
            return Err(Fault::Piece);
        }
        if index >= self.torrent.block_count(piece) {
            return Err(Fault::Block);
        }
        Ok(self.engine.picker().askers(piece, index))
    }

    /// Whether the worker's peer shows a wanted piece that isn't complete: 1 or 0.
    pub fn is_interesting(&self, worker: u32) -> Result<u32, Fault>
        ensures { SaysInteresting (state self.now) worker result }
    {
        let picker = self.engine.picker();
        if worker >= picker.workers() {
            return Err(Fault::Worker);
        }
        Ok(u32::from(picker.is_interesting(worker)))
    }

    /// How many blocks are requested from the worker's peer.
    pub fn outstanding_count(&self, worker: u32) -> Result<u32, Fault>
        ensures { CountsOutstanding (state self.now) worker result }
    {
        let picker = self.engine.picker();
        if worker >= picker.workers() {
            return Err(Fault::Worker);
        }
        // They fit, since in a legal history they are no more than the greatest depth that can be told.
        picker.attest();
        Ok(picker.outstanding(worker).len() as u32)
    }

    /// The block at this place among those that are requested from the worker's peer, the oldest request first.
    pub fn outstanding(&self, worker: u32, place: u32) -> Result<Block, Fault>
        ensures { IsOutstanding (state self.now) worker place result }
    {
        let picker = self.engine.picker();
        if worker >= picker.workers() {
            return Err(Fault::Worker);
        }
        match picker.outstanding(worker).get(place as usize) {
            Some(block) => Ok(*block),
            None => Err(Fault::Place),
        }
    }

    /// Writes the bytes of a complete piece into a buffer of their number.
    pub fn read(&self, piece: u32, room: &mut [u8]) -> Result<(), Fault>
        ensures { Reads self.now piece room.old room.new result }
    {
        match &self.engine {
            Engine::Desk(desk) => read(desk, piece, room),
            _ => Err(Fault::Keeps),
        }
    }

    /// Judges the journal by the rules.
    pub fn audit(&self, alloc: Global) -> Result<(), Fault>
        ensures { Audits self.now result }
    {
        match &self.engine {
            Engine::Desk(desk) => judge(alloc, desk),
            _ => Err(Fault::Keeps),
        }
    }
}

/// The length of a piece's content, where that is complete.
fn content_len(desk: &Desk, piece: u32) -> Result<u32, Fault>
    ensures { SaysOfContent desk.now piece result }
{
    let torrent = desk.picker().torrent();
    if piece >= torrent.piece_count() {
        return Err(Fault::Piece);
    }
    if !desk.had(piece) {
        return Err(Fault::Incomplete);
    }
    // It is the piece's, since in a legal journal each block that is held has its length.
    let _legal = desk.journal();
    Ok(torrent.piece_len(piece))
}

/// Writes the bytes of a complete piece into a buffer of their number.
fn read(desk: &Desk, piece: u32, room: &mut [u8]) -> Result<(), Fault>
    ensures { ReadsFrom desk.now piece room.old room.new result }
{
    let length = content_len(desk, piece)?;
    if room.len() != length as usize {
        return Err(Fault::Room);
    }
    match desk.write_piece(&mut Buffer::new(room), piece) {
        // A room refuses where it is full, and then it has all of the content.
        Ok(()) | Err(ContentFault::WriteFault) => Ok(()),
        Err(ContentFault::Incomplete) => Err(Fault::Incomplete),
    }
}

/// Judges the journal by the rules, of which the desk's are such as may be chosen.
fn judge(alloc: Global, desk: &Desk) -> Result<(), Fault>
    requires { AreRules desk.now.setting.torrent (rules_of_setting desk.now.setting) }
    ensures { AuditsBy desk.now result }
{
    let picker = desk.picker();
    match audit(
        alloc,
        picker.torrent(),
        picker.workers(),
        picker.rules(),
        desk.journal(),
    ) {
        Ok(()) => Ok(()),
        Err(AuditFault::NotAllowed(_)) => unreachable!(),
        Err(AuditFault::NoMemory) => Err(Fault::NoMemory),
    }
}
