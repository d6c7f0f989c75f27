//! A history with its tables: each question that the rules ask, answered by its definition.
ghost use Rattle.std.specs.Prelude.{◌≡◌, ◌<◌, ◌≤◌, ◌∷◌, [], ℕ, Bool, false, true, length, slice_index_or, IfSome, IfNone, Some, None};
ghost use Rattle.std.specs.Prelude.{IsTrue, is_some, nat_lt, option_and_then};
ghost use Rattle.bt_meta.specs.declared.block.Block.{Block};
ghost use Rattle.bt_meta.specs.Layout.{IsLayout, piece_count, block_count, block};
ghost use Rattle.std.specs.List.{list_any};
ghost use Rattle.bt_history.specs.Setting.{deepest_told, is_block, some_block_of};
ghost use Rattle.bt_history.specs.History.{same_begin};
ghost use Rattle.bt_history.specs.Legal.{IsLegal};
ghost use Rattle.bt_history.specs.Peers.{depth_of, joined, expected, late, overdue, reach, shows, is_open, outstanding, asked, due, dues, flag};
ghost use Rattle.bt_history.specs.Pieces.{asker_count, availability, asked_of_some, begun, full, had, held, held_or_asked, interesting, kept, lacks};
ghost use Rattle.bt_history.specs.Pieces.{gives, is_late_at_some, is_spent, level, offers, order_from, sender, unbegun, wanted};
ghost use Rattle.bt_tables.specs.Orders.{at, ListsGroup};
ghost use Rattle.bt_tables.specs.Risings.{Rises};
ghost use Rattle.bt_picker.specs.Search.{FindsOf, NoneBefore, NoneBegins, is_left};
ghost use Rattle.bt_tables.specs.Showing.{dealings};
ghost use Rattle.bt_tables.specs.Standings.{ListsOpen, apart, cell_kept, group_number, group_of_row};
ghost use Rattle.bt_picker.specs.Tables.{groups_of, AreTables, cell_of, peer_of, piece_of};

use crate::past::Past;
use bt_history::Call;
use bt_meta::{Bitfield, Block, Torrent};
use bt_tables::{Cell, GROUPS, Peer, Piece, Stage, Tables};
use std::marker::Model;

/// A history and the tables that tell of it. Contracts see the setting and the history.
#[derive(Drop)]
pub struct Position<'a> {
    pub(crate) tables: &'a Tables,
    pub(crate) past: &'a Past,
}

impl<'a> Model for Position<'a> {
    ghost use Rattle.bt_picker.specs.Positions.{DeskState};
    ghost use Rattle.bt_picker.specs.Tables.{AreTables};

    ghost Value = { DeskState };

    ghost view = { λ p. record { setting = p.tables.now.setting; history = p.past.now.entries } };

    ghost invariant = { λ p. AreTables p.tables.now p.past.now.entries };
}

impl<'a> Position<'a> {
    pub fn new(tables: &'a Tables, past: &'a Past) -> Position<'a>
        requires { AreTables tables.now past.now.entries }
        ensures setting { result.setting ≡ tables.now.setting }
        ensures history { result.history ≡ past.now.entries }
    {
        Position { tables, past }
    }

    /// Tells a proof what holds of each position: its history is legal, and its torrent has no empty piece. Nothing is done: that the
    /// tables are read is what opens the invariant.
    pub(crate) fn attest(&self)
        ensures legal { IsLegal self.now.setting self.now.history }
        ensures layout { IsLayout self.now.setting.torrent }
    {
        let _tables = self.tables;
    }

    pub fn torrent(&self) -> &Torrent
        ensures { result.now.layout ≡ self.now.setting.torrent }
    {
        self.tables.torrent()
    }

    pub fn workers(&self) -> u32
        ensures { result ≡ self.now.setting.workers }
    {
        self.tables.workers()
    }

    /// At most so many blocks are asked of the worker's peer at a time.
    pub fn depth(&self, worker: u32) -> u32
        requires { worker < self.now.setting.workers }
        ensures { result ≡ depth_of self.now.setting self.now.history worker }
    {
        self.peer(worker)
            .told()
            .unwrap_or(self.tables.rules().depth)
    }

    /// The greatest depth that may be told of a peer.
    pub fn deepest_told(&self) -> u32
        ensures { result ≡ deepest_told self.now.setting }
    {
        self.tables.rules().deepest_told()
    }

    /// While fewer pieces are had than so many, any may be begun.
    pub fn random(&self) -> u32
        ensures { result ≡ self.now.setting.random }
    {
        self.tables.rules().random
    }

    /// In endgame one block is asked of so many peers at most, but always of one.
    pub fn askers(&self) -> u32
        ensures { result ≡ self.now.setting.askers }
    {
        self.tables.rules().askers
    }

    /// So many pieces may be open before begun ones come first.
    pub fn most_open(&self) -> u32
        ensures { result ≡ self.now.setting.most_open }
    {
        self.tables.rules().open
    }

    /// In endgame a peer is asked for a block that another is asked for only where it is asked for fewer blocks than these.
    pub fn rush(&self) -> u32
        ensures { result ≡ self.now.setting.rush }
    {
        self.tables.rules().rush
    }

    /// Whether endgame waits only for pieces that a joined peer shows.
    pub fn waits_for_shown(&self) -> bool
        ensures { result ≡ self.now.setting.shown }
    {
        self.tables.rules().shown
    }

    pub fn piece_count(&self) -> u32
        ensures { result ≡ piece_count self.now.setting.torrent }
    {
        self.torrent().piece_count()
    }

    pub fn block_count(&self, piece: u32) -> u32
        requires { piece < piece_count self.now.setting.torrent }
        ensures { result ≡ block_count self.now.setting.torrent piece }
    {
        self.torrent().block_count(piece)
    }

    pub fn block(&self, piece: u32, index: u32) -> Block
        requires piece { piece < piece_count self.now.setting.torrent }
        requires index { index < block_count self.now.setting.torrent piece }
        ensures { result ≡ block self.now.setting.torrent piece index }
    {
        self.torrent().block(piece, index)
    }

    /// The row of the worker's peer, beside the pieces that it shows.
    pub(crate) fn peer(&self, worker: u32) -> &Peer
        requires { worker < self.now.setting.workers }
        ensures { result.now ≡ dealings (peer_of self.now.setting self.now.history worker) }
    {
        self.tables.peer(worker)
    }

    /// The row of the piece.
    pub(crate) fn piece(&self, piece: u32) -> Piece<'_>
        requires { piece < piece_count self.now.setting.torrent }
        ensures { result ≡ apart (piece_of self.now.setting self.now.history piece) }
    {
        self.tables.piece(piece)
    }

    /// The pieces of this level and this stage.
    #[inline(always)]
    pub(crate) fn group(&self, level: u8, stage: Stage) -> &[u32]
        ensures { ListsGroup (groups_of self.now.setting self.now.history) (group_number level stage) result.now }
    {
        self.tables.group(level, stage)
    }

    /// Whether no piece is in the groups from `low` up to `high`.
    #[inline(always)]
    pub(crate) fn has_none(&self, low: u32, high: u32) -> bool
        requires low { low < high }
        requires high { high ≤ GROUPS }
        ensures none { result ≡ true → (p : ℕ) → p < piece_count self.now.setting.torrent
            → low ≤ group_of_row (piece_of self.now.setting self.now.history p)
            → high ≤ group_of_row (piece_of self.now.setting self.now.history p) }
        ensures some { result ≡ false → (p : ℕ) × (p < piece_count self.now.setting.torrent)
            × (low ≤ group_of_row (piece_of self.now.setting self.now.history p))
            × (group_of_row (piece_of self.now.setting self.now.history p) < high) }
    {
        self.tables.has_none(low, high)
    }

    /// The begun pieces with an unasked block, the least first.
    pub(crate) fn open_pieces(&self) -> &[u32]
        ensures lists { ListsOpen (groups_of self.now.setting self.now.history) result.now }
        ensures rise { (i j : ℕ) → Rises result.now i j }
    {
        self.tables.open_pieces()
    }

    /// The group of the piece.
    pub(crate) fn group_of(&self, piece: u32) -> u32
        requires { piece < piece_count self.now.setting.torrent }
        ensures { result ≡ at (groups_of self.now.setting self.now.history) piece }
    {
        self.tables.group_of(piece)
    }

    /// No piece that may be begun at the worker's peer ranks before this.
    pub(crate) fn floor(&self, worker: u32) -> u32
        requires { worker < self.now.setting.workers }
        ensures { NoneBefore self.now.setting self.now.history worker result }
    {
        self.tables.floor(worker)
    }

    /// No piece before this one may be begun.
    pub(crate) fn front(&self) -> u32
        ensures { NoneBegins self.now.setting self.now.history result }
    {
        self.tables.front()
    }

    /// The cell of the block.
    fn cell(&self, piece: u32, index: u32) -> Cell
        requires piece { piece < piece_count self.now.setting.torrent }
        requires index { index < block_count self.now.setting.torrent piece }
        ensures { cell_kept result ≡ cell_of self.now.setting self.now.history (block self.now.setting.torrent piece index) }
    {
        self.piece(piece).cell(index)
    }

    pub fn is_joined(&self, worker: u32) -> bool
        requires { worker < self.now.setting.workers }
        ensures { result ≡ joined self.now.history worker }
    {
        self.peer(worker).is_joined()
    }

    pub fn is_late(&self, worker: u32) -> bool
        requires { worker < self.now.setting.workers }
        ensures { result ≡ late self.now.history worker }
    {
        self.peer(worker).is_late()
    }

    pub fn is_open(&self, worker: u32) -> bool
        requires { worker < self.now.setting.workers }
        ensures { result ≡ is_open self.now.history worker }
    {
        self.peer(worker).is_open()
    }

    pub fn shows(&self, worker: u32, piece: u32) -> bool
        requires worker { worker < self.now.setting.workers }
        requires piece { piece < piece_count self.now.setting.torrent }
        ensures { result ≡ shows self.now.history worker piece }
    {
        self.tables.shows(worker, piece)
    }

    /// The blocks asked of the worker's peer, the oldest request first.
    pub fn outstanding(&self, worker: u32) -> &[Block]
        requires { worker < self.now.setting.workers }
        ensures { result.now ≡ outstanding self.now.history worker }
    {
        self.peer(worker).asked()
    }

    /// The blocks whose cancel is due at the worker's peer, the one that came due first in front.
    pub fn dues(&self, worker: u32) -> &[Block]
        requires { worker < self.now.setting.workers }
        ensures { result.now ≡ dues self.now.history worker }
    {
        self.peer(worker).due()
    }

    pub fn had(&self, piece: u32) -> bool
        requires { piece < piece_count self.now.setting.torrent }
        ensures { result ≡ had self.now.history piece }
    {
        self.piece(piece).is_had()
    }

    /// How many joined peers show the piece.
    pub fn availability(&self, piece: u32) -> u32
        requires { piece < piece_count self.now.setting.torrent }
        ensures { result ≡ availability self.now.setting self.now.history piece }
    {
        self.tables.availability(piece)
    }

    /// Whether the block is held.
    pub fn holds(&self, piece: u32, index: u32) -> bool
        requires piece { piece < piece_count self.now.setting.torrent }
        requires index { index < block_count self.now.setting.torrent piece }
        ensures { result ≡ held self.now.history (block self.now.setting.torrent piece index) }
    {
        self.cell(piece, index).is_held()
    }

    /// The worker whose peer brought the block, if it is held.
    pub fn sender(&self, piece: u32, index: u32) -> Option<u32>
        requires piece { piece < piece_count self.now.setting.torrent }
        requires index { index < block_count self.now.setting.torrent piece }
        ensures { result ≡ sender self.now.history (block self.now.setting.torrent piece index) }
    {
        self.cell(piece, index).sender()
    }

    /// Whether the block is held, or asked of some peer that isn't late with it.
    pub fn is_held_or_asked(&self, piece: u32, index: u32) -> bool
        requires piece { piece < piece_count self.now.setting.torrent }
        requires index { index < block_count self.now.setting.torrent piece }
        ensures { result ≡ held_or_asked self.now.setting self.now.history (block self.now.setting.torrent piece index) }
    {
        self.cell(piece, index).is_touched()
    }

    /// Of how many peers the block is asked that aren't late with it.
    pub fn asker_count(&self, piece: u32, index: u32) -> u32
        requires piece { piece < piece_count self.now.setting.torrent }
        requires index { index < block_count self.now.setting.torrent piece }
        ensures { result ≡ asker_count self.now.setting self.now.history (block self.now.setting.torrent piece index) }
    {
        self.cell(piece, index).askers()
    }

    /// Whether the block may be asked of one peer more.
    pub fn has_few_askers(&self, piece: u32, index: u32) -> bool
        requires piece { piece < piece_count self.now.setting.torrent }
        requires index { index < block_count self.now.setting.torrent piece }
        ensures { result ≡ nat_lt (asker_count self.now.setting self.now.history (block self.now.setting.torrent piece index))
            self.now.setting.askers }
    {
        self.asker_count(piece, index) < self.askers()
    }

    /// Whether the block is asked of the worker's peer.
    pub fn asks(&self, worker: u32, block: &Block) -> bool
        requires { worker < self.now.setting.workers }
        ensures { result ≡ asked self.now.history worker block.now }
    {
        contains_place(self.outstanding(worker), block)
    }

    /// Whether the block is asked of the worker's peer, and the peer isn't late with it.
    #[inline(always)]
    pub fn expects(&self, worker: u32, block: &Block) -> bool
        requires { worker < self.now.setting.workers }
        ensures { result ≡ expected self.now.history worker block.now }
    {
        self.peer(worker).expects(block.piece, block.begin)
    }

    /// The same of a block that the peer may have been asked for a moment ago.
    pub fn expects_newly(&self, worker: u32, piece: u32, index: u32) -> bool
        requires worker { worker < self.now.setting.workers }
        requires piece { piece < piece_count self.now.setting.torrent }
        requires index { index < block_count self.now.setting.torrent piece }
        ensures { result ≡ expected self.now.history worker (block self.now.setting.torrent piece index) }
    {
        let block = self.block(piece, index);
        self.peer(worker).expects_newly(block.piece, block.begin)
    }

    /// Whether the worker's peer is late with the block.
    pub fn is_overdue(&self, worker: u32, piece: u32, index: u32) -> bool
        requires worker { worker < self.now.setting.workers }
        requires piece { piece < piece_count self.now.setting.torrent }
        requires index { index < block_count self.now.setting.torrent piece }
        ensures { result ≡ overdue self.now.history worker (block self.now.setting.torrent piece index) }
    {
        let block = self.block(piece, index);
        self.peer(worker).is_late_with(block.piece, block.begin)
    }

    /// Whether some peer is late with the block.
    #[inline(always)]
    pub fn is_late_at_some(&self, piece: u32, index: u32) -> bool
        requires piece { piece < piece_count self.now.setting.torrent }
        requires index { index < block_count self.now.setting.torrent piece }
        ensures { result ≡ is_late_at_some self.now.setting self.now.history (block self.now.setting.torrent piece index) }
    {
        let block = self.block(piece, index);
        self.tables.is_late_at_some(block.piece, block.begin)
    }

    /// Whether the worker's peer is late with a block of the piece.
    #[tactic(auto, using(crate::proofs::Scans::none_overdue))]
    fn is_late_in(&self, worker: u32, piece: u32) -> bool
        requires worker { worker < self.now.setting.workers }
        requires piece { piece < piece_count self.now.setting.torrent }
        ensures { result ≡ some_block_of self.now.setting.torrent piece (overdue self.now.history worker) }
    {
        for index in 0..self.block_count(piece) {
            if self.is_overdue(worker, piece, index) {
                return true;
            }
        }
        false
    }

    /// The first block of the piece that is lacking and that nobody is asked for, but for such as the worker's peer is late with.
    #[tactic(auto, using(crate::proofs::Scans::none_left))]
    pub(crate) fn left_in(&self, worker: u32, piece: u32) -> Option<Block>
        requires worker { worker < self.now.setting.workers }
        requires piece { piece < piece_count self.now.setting.torrent }
        ensures { FindsOf self.now.setting.torrent piece (is_left self.now.setting self.now.history worker) result }
    {
        for index in self.piece(piece).first()..self.block_count(piece) {
            if self.is_left(worker, piece, index) {
                return Some(self.block(piece, index));
            }
        }
        None
    }

    /// Whether the block is lacking, nobody is asked for it, and the worker's peer isn't late with it.
    #[inline(always)]
    pub(crate) fn is_left(&self, worker: u32, piece: u32, index: u32) -> bool
        requires worker { worker < self.now.setting.workers }
        requires piece { piece < piece_count self.now.setting.torrent }
        requires index { index < block_count self.now.setting.torrent piece }
        ensures { result ≡ is_left self.now.setting self.now.history worker (block self.now.setting.torrent piece index) }
    {
        !self.is_held_or_asked(piece, index) && !self.is_overdue_at(worker, piece, index)
    }

    /// The same of a peer that mostly is late with nothing.
    #[inline(always)]
    #[tactic(auto, using(crate::proofs::Overdue::late_with_nothing))]
    fn is_overdue_at(&self, worker: u32, piece: u32, index: u32) -> bool
        requires worker { worker < self.now.setting.workers }
        requires piece { piece < piece_count self.now.setting.torrent }
        requires index { index < block_count self.now.setting.torrent piece }
        ensures { result ≡ overdue self.now.history worker (block self.now.setting.torrent piece index) }
    {
        self.peer(worker).has_late() && self.is_overdue(worker, piece, index)
    }

    /// Whether the worker's peer is late with a block of the piece, and no other one is left to ask of it.
    #[inline(always)]
    pub(crate) fn is_spent(&self, worker: u32, piece: u32) -> bool
        requires worker { worker < self.now.setting.workers }
        requires piece { piece < piece_count self.now.setting.torrent }
        ensures { result ≡ is_spent self.now.setting self.now.history worker piece }
    {
        self.peer(worker).has_late() && self.is_spent_of(worker, piece)
    }

    /// The same of a peer that is late with something.
    #[tactic(auto, using(crate::proofs::Scans::none_left_spent))]
    fn is_spent_of(&self, worker: u32, piece: u32) -> bool
        requires worker { worker < self.now.setting.workers }
        requires piece { piece < piece_count self.now.setting.torrent }
        ensures { result ≡ is_spent self.now.setting self.now.history worker piece }
    {
        match self.left_in(worker, piece) {
            Some(_) => false,
            None => self.is_late_in(worker, piece),
        }
    }

    /// Whether the worker's peer shows the piece, and isn't late with all that is left to ask of it.
    #[inline(always)]
    pub(crate) fn offers(&self, worker: u32, piece: u32) -> bool
        requires worker { worker < self.now.setting.workers }
        requires piece { piece < piece_count self.now.setting.torrent }
        ensures { result ≡ offers self.now.setting self.now.history worker piece }
    {
        self.shows(worker, piece) && !self.is_spent(worker, piece)
    }

    /// Whether a cancel of the block is due at the worker's peer.
    pub fn is_due(&self, worker: u32, block: &Block) -> bool
        requires { worker < self.now.setting.workers }
        ensures { result ≡ due self.now.history worker block.now }
    {
        contains_place(self.dues(worker), block)
    }

    /// Whether each block of the piece is held.
    pub fn is_full(&self, piece: u32) -> bool
        requires { piece < piece_count self.now.setting.torrent }
        ensures { result ≡ full self.now.setting self.now.history piece }
    {
        self.piece(piece).is_full()
    }

    /// Whether some block of the piece is held or asked.
    fn is_touched(&self, piece: u32) -> bool
        requires { piece < piece_count self.now.setting.torrent }
        ensures { result ≡ some_block_of self.now.setting.torrent piece (held_or_asked self.now.setting self.now.history) }
    {
        self.piece(piece).is_touched()
    }

    pub fn is_begun(&self, piece: u32) -> bool
        requires { piece < piece_count self.now.setting.torrent }
        ensures { result ≡ begun self.now.setting self.now.history piece }
    {
        !self.had(piece) && self.is_touched(piece)
    }

    pub fn is_unbegun(&self, piece: u32) -> bool
        requires { piece < piece_count self.now.setting.torrent }
        ensures { result ≡ unbegun self.now.setting self.now.history piece }
    {
        !self.had(piece) && !self.is_touched(piece)
    }

    /// The level of the piece.
    #[inline(always)]
    pub fn level(&self, piece: u32) -> u8
        requires { piece < piece_count self.now.setting.torrent }
        ensures { result ≡ level self.now.history piece }
    {
        self.piece(piece).level()
    }

    /// Whether the piece is to be downloaded: its level isn't 0.
    #[inline(always)]
    pub fn is_wanted(&self, piece: u32) -> bool
        requires { piece < piece_count self.now.setting.torrent }
        ensures { result ≡ wanted self.now.setting self.now.history piece }
    {
        self.level(piece) > 0
    }

    /// Pieces of this level and of higher ones come in rising order.
    #[inline(always)]
    pub fn order_from(&self) -> u8
        ensures { result ≡ order_from self.now.history }
    {
        self.tables.order_from()
    }

    /// The highest level of which blocks are requested of the worker's peer.
    #[inline(always)]
    pub fn reach(&self, worker: u32) -> u8
        requires { worker < self.now.setting.workers }
        ensures { result ≡ reach self.now.history worker }
    {
        self.peer(worker).reach()
    }

    /// Whether blocks of the piece may be requested of the worker's peer: it shows the piece, whose level isn't beyond its reach.
    pub fn gives(&self, worker: u32, piece: u32) -> bool
        requires worker { worker < self.now.setting.workers }
        requires piece { piece < piece_count self.now.setting.torrent }
        ensures { result ≡ gives self.now.history worker piece }
    {
        self.shows(worker, piece) && self.level(piece) <= self.reach(worker)
    }
}

/// Whether a block of the line begins where this one does.
fn contains_place(line: &[Block], block: &Block) -> bool
    ensures { result ≡ list_any (λ a. same_begin a block.now) line.now }
{
    for other in line {
        if other.piece == block.piece && other.begin == block.begin {
            return true;
        }
    }
    false
}
