//! The rows of all pieces, and the cells of all blocks.

ghost use Rattle.std.specs.Prelude.{◌≡◌, ◌<◌, ◌+◌, ◌^◌, false, true, length, slice_index_or, slice_set, IfOk};
ghost use Rattle.bt_meta.specs.Layout.{block_count, piece_count};
ghost use Rattle.bt_history.specs.Counting.{table};
ghost use Rattle.bt_tables.specs.Floors.{NoneFresh};
ghost use Rattle.bt_tables.specs.Rows.{AreOf, Keeps};
ghost use Rattle.bt_tables.specs.Standings.{is_held, cell_kept};
ghost use Rattle.bt_tables.specs.Tables.{HasRoomOf, changed_row, edit, empty_cell, failed_row, fresh_piece, had_row, one_less, one_more, piece_row};
ghost use Rattle.bt_tables.specs.Tables.{discarded_row, level_row, lost_row, stored_row};

use crate::cell::{Cell, HELD};
use crate::counts::Counts;
use crate::piece::{Change, Piece};
use bt_meta::Torrent;
use std::alloc::{AllocError, Global};
use std::marker::Model;

/// What is kept of all pieces, by the piece's number. The cells of their blocks stand in one array, one piece behind the other: each piece
/// has so many, but for the last, which has what is left. Contracts see the rows.
pub struct Rows {
    width: u32,
    counts: Vec<Counts>,
    cells: Vec<Cell>,
}

/// The end of all rows is one call for whoever owns them.
impl Drop for Rows {
    fn drop(self) {
        let Rows {
            width: _,
            counts: _counts,
            cells: _cells,
        } = self;
    }
}

impl Model for Rows {
    ghost use Rattle.std.specs.Prelude.{List};
    ghost use Rattle.bt_tables.specs.Rows.{AreKept, rows_of};
    ghost use Rattle.bt_tables.specs.Tables.{PieceState};

    ghost Value = { List PieceState };

    ghost view = { λ r. rows_of r.width r.counts.items r.cells.items };

    ghost invariant = { λ r. AreKept r.width r.counts.items r.cells.items };
}

impl Rows {
    /// The rows of a torrent of which nothing is known.
    pub fn new(alloc: Global, torrent: &Torrent) -> Result<Rows, AllocError>
        ensures { IfOk result (λ rows. rows
            ≡ table (piece_count torrent.now.layout) (λ p. fresh_piece (block_count torrent.now.layout p))) }
    {
        let pieces = torrent.piece_count();
        let width = torrent.block_count(0);
        let last = torrent.block_count(pieces - 1);
        let blocks = (pieces as usize - 1) * width as usize + last as usize;
        Ok(Rows {
            width,
            counts: vec![in alloc; Counts::FRESH; pieces as usize]?,
            cells: vec![in alloc; Cell::EMPTY; blocks]?,
        })
    }

    pub fn len(&self) -> usize
        ensures { result ≡ length self.now }
    {
        self.counts.len()
    }

    /// The row of the piece.
    #[inline(always)]
    pub fn row(&self, piece: u32) -> Piece<'_>
        requires { piece < length self.now }
        ensures { result ≡ piece_row self.now piece }
    {
        let start = piece as usize * self.width as usize;
        let end = self.cells.len().min(start + self.width as usize);
        Piece::new(&self.counts[piece as usize], &self.cells[start..end])
    }

    /// What is kept of the block.
    #[inline(always)]
    fn cell(&self, piece: u32, index: u32) -> Cell
        requires piece { piece < length self.now }
        requires index { index < length (piece_row self.now piece).blocks }
        ensures { cell_kept result ≡ slice_index_or (piece_row self.now piece).blocks index empty_cell }
    {
        self.cells[piece as usize * self.width as usize + index as usize]
    }

    /// What is counted of the piece.
    #[inline(always)]
    fn counts(&self, piece: u32) -> &Counts
        requires { piece < length self.now }
        ensures are { AreOf result.now (piece_row self.now piece) }
        ensures keeps { Keeps result.now (piece_row self.now piece).blocks }
    {
        &self.counts[piece as usize]
    }

    /// The first piece from this one on that is wanted and unbegun, or the count of the pieces.
    pub fn fresh_from(&self, from: u32) -> u32
        requires { length self.now < 2 ^ 32 }
        ensures { NoneFresh from self.now → NoneFresh result self.now }
    {
        let count = self.len() as u32;
        for piece in from..count {
            if self.row(piece).is_fresh() {
                return piece;
            }
        }
        count
    }

    /// Changes the row of the piece, and returns what is counted of it then: who reads that again waits for memory.
    #[inline(always)]
    pub fn apply(&mut self, piece: u32, change: Change) -> Counts
        requires piece { piece < length self.old }
        requires fits { HasRoomOf change (piece_row self.old piece) }
        ensures rows { self.new ≡ edit self.old piece (changed_row change) }
        ensures counts { AreOf result (piece_row self.new piece) }
    {
        match change {
            Change::Raise(index) => return self.raise(piece, index),
            Change::Store { index, sender } => {
                return self.put(piece, index, Cell::kept_by(sender));
            }
            Change::Lower(index) => self.lower(piece, index),
            Change::Pass => self.put_had(piece, true),
            Change::Fail => self.fail(piece),
            Change::Level(level) => self.put_level(piece, level),
            Change::Lose => self.lose(piece),
            Change::Discard(index) => self.discard(piece, index),
        }
        *self.counts(piece)
    }

    /// The piece is had, or isn't.
    fn put_had(&mut self, piece: u32, had: bool)
        requires { piece < length self.old }
        ensures { self.new ≡ edit self.old piece (λ row. record row { had = had }) }
    {
        self.counts[piece as usize].had = had;
    }

    /// The piece has this level from now on.
    fn put_level(&mut self, piece: u32, level: u8)
        requires { piece < length self.old }
        ensures { self.new ≡ edit self.old piece (level_row level) }
    {
        self.counts[piece as usize].level = level;
    }

    /// A check found another hash: no block is held.
    fn fail(&mut self, piece: u32)
        requires { piece < length self.old }
        ensures { self.new ≡ edit self.old piece failed_row }
    {
        for index in 0..self.row(piece).len() {
            let cell = self.cell(piece, index);
            self.put(piece, index, cell.released());
        }
    }

    /// The piece isn't had, and no block is held.
    fn lose(&mut self, piece: u32)
        requires { piece < length self.old }
        ensures { self.new ≡ edit self.old piece lost_row }
    {
        self.fail(piece);
        self.put_had(piece, false);
    }

    /// The block is held no more, where the piece has so many.
    fn discard(&mut self, piece: u32, index: u32)
        requires { piece < length self.old }
        ensures { self.new ≡ edit self.old piece (discarded_row index) }
    {
        if index < self.row(piece).len() {
            let cell = self.cell(piece, index);
            self.put(piece, index, cell.released());
        }
    }

    /// One peer more is asked for the block, which isn't held.
    #[inline(always)]
    fn raise(&mut self, piece: u32, index: u32) -> Counts
        requires piece { piece < length self.old }
        requires index { index < length (piece_row self.old piece).blocks }
        requires free { is_held (slice_index_or (piece_row self.old piece).blocks index empty_cell) ≡ false }
        requires few { (slice_index_or (piece_row self.old piece).blocks index empty_cell).askers + 1 < HELD }
        ensures rows { self.new ≡ edit self.old piece (λ row. record row { blocks = edit row.blocks index one_more }) }
        ensures counts { AreOf result (piece_row self.new piece) }
    {
        let old = self.cell(piece, index);
        let counts = self.counts(piece).asked(index, old);
        self.set(piece, index, old.raised(), counts);
        counts
    }

    /// One peer less is asked for the block, where the piece has so many.
    #[inline(never)] // seldom
    fn lower(&mut self, piece: u32, index: u32)
        requires { piece < length self.old }
        ensures { self.new ≡ edit self.old piece (λ row. record row { blocks = edit row.blocks index one_less }) }
    {
        if index < self.row(piece).len() {
            let cell = self.cell(piece, index);
            self.put(piece, index, cell.lowered());
        }
    }

    /// The block's cell is this now.
    #[inline(always)]
    fn put(&mut self, piece: u32, index: u32, cell: Cell) -> Counts
        requires piece { piece < length self.old }
        requires index { index < length (piece_row self.old piece).blocks }
        ensures rows { self.new ≡ edit self.old piece (λ row. record row { blocks = slice_set row.blocks index (cell_kept cell) }) }
        ensures counts { AreOf result (piece_row self.new piece) }
    {
        let old = self.cell(piece, index);
        let counts = self.counts(piece).noted(index, old, cell);
        self.set(piece, index, cell, counts);
        counts
    }

    /// The block's cell is this now, and these are the counts of its piece.
    #[inline(always)]
    fn set(&mut self, piece: u32, index: u32, cell: Cell, counts: Counts)
        requires piece { piece < length self.old }
        requires index { index < length (piece_row self.old piece).blocks }
        requires had { counts.had ≡ (piece_row self.old piece).had }
        requires level { counts.level ≡ (piece_row self.old piece).level }
        requires keeps { Keeps counts (slice_set (piece_row self.old piece).blocks index (cell_kept cell)) }
        ensures rows { self.new ≡ edit self.old piece (λ row. record row { blocks = slice_set row.blocks index (cell_kept cell) }) }
        ensures counts { AreOf counts (piece_row self.new piece) }
    {
        self.cells[piece as usize * self.width as usize + index as usize] = cell;
        self.counts[piece as usize] = counts;
    }
}
