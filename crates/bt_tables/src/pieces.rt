//! The rows of all pieces.

ghost use Rattle.std.specs.Prelude.{◌≡◌, ◌<◌, ◌≤◌, ◌+◌, ◌-◌, ◌^◌, ℕ, EachIndex, true, false, length, IfOk, map, min, if◌then◌else◌};
ghost use Rattle.std.specs.List.{count_by, sum_by};
ghost use Rattle.bt_meta.specs.Layout.{block_count, piece_count};
ghost use Rattle.bt_tables.specs.Orders.{at, AreMoved, ListsGroup, NoneBetween, SomeBetween};
ghost use Rattle.bt_tables.specs.Risings.{IsRising};
ghost use Rattle.bt_tables.specs.Floors.{NoneFresh, rank_of_row};
ghost use Rattle.bt_history.specs.declared.rules.TheConstants.{MOST_LEVEL};
ghost use Rattle.bt_tables.specs.Standings.{ListsOpen, NoneCrowded, TellsRest, apart, group_number, group_of_row, standing_of};
ghost use Rattle.bt_history.specs.Counting.{table};
ghost use Rattle.bt_tables.specs.Tables.{HasRoomOf, changed_row, edit, fresh_piece, less_available, more_available, piece_row};

use crate::piece::{Change, GROUPS, Piece, Stage, Standing, group_number, rank};
use crate::rows::Rows;
use crate::shelf::Shelf;
use bt_meta::Torrent;
use std::alloc::{AllocError, Global};
use std::marker::Model;

/// The rows of all pieces, how many joined peers show each, and what they amount to together. Contracts see the rows with these counts in
/// them. They stand apart since a bitfield that comes or goes changes a count of each piece in it, and nothing else of its row. No piece
/// before `front` is wanted and unbegun: there the search for the first such piece begins.
pub struct Pieces {
    rows: Rows,
    front: u32,
    shown_by: Vec<u16>,
    shelf: Shelf,
}

/// The end of all rows is one call for whoever owns them.
impl Drop for Pieces {
    fn drop(self) {
        let Pieces {
            rows: _rows,
            front: _,
            shown_by: _shown_by,
            shelf: _shelf,
        } = self;
    }
}

impl Model for Pieces {
    ghost use Rattle.std.specs.Prelude.{List, ◌≡◌, length};
    ghost use Rattle.bt_tables.specs.Apart.{AreApart};
    ghost use Rattle.bt_tables.specs.Floors.{NoneFresh};
    ghost use Rattle.bt_tables.specs.Standings.{AreShelved, whole_rows};
    ghost use Rattle.bt_tables.specs.Tables.{PieceState};

    ghost Value = { List PieceState };

    ghost view = { λ p. whole_rows p.rows p.shown_by.items };

    ghost invariant = { λ p. AreShelved p.shelf (whole_rows p.rows p.shown_by.items)
        × (length p.shown_by.items ≡ length p.rows)
        × AreApart p.rows
        × NoneFresh p.front p.rows };
}

impl Pieces {
    /// The rows of a torrent of which nothing is known.
    pub fn new(alloc: Global, torrent: &Torrent) -> Result<Pieces, AllocError>
        ensures { IfOk result (λ pieces. pieces
            ≡ table (piece_count torrent.now.layout) (λ p. fresh_piece (block_count torrent.now.layout p))) }
    {
        let rows = Rows::new(alloc, torrent)?;
        let mut shelf = Shelf::new(alloc, torrent.piece_count())?;
        for piece in 0..torrent.piece_count() {
            let standing = rows.row(piece).standing(0);
            shelf.put(piece, Standing::NONE, standing);
        }
        Ok(Pieces {
            rows,
            front: 0,
            shown_by: vec![in alloc; 0; torrent.piece_count() as usize]?,
            shelf,
        })
    }

    pub fn len(&self) -> usize
        ensures is { result ≡ length self.now }
        ensures short { result < 2 ^ 32 }
    {
        self.rows.len()
    }

    /// The row of the piece.
    #[inline(always)]
    pub fn row(&self, piece: u32) -> Piece<'_>
        requires { piece < length self.now }
        ensures { result ≡ apart (piece_row self.now piece) }
    {
        self.rows.row(piece)
    }

    /// How many joined peers show the piece.
    pub fn availability(&self, piece: u32) -> u32
        requires { piece < length self.now }
        ensures { result ≡ (piece_row self.now piece).availability }
    {
        u32::from(self.shown_by[piece as usize])
    }

    /// No piece before this one is wanted and unbegun.
    pub fn front(&self) -> u32
        ensures { NoneFresh result self.now }
    {
        self.front
    }

    /// Moves the front over the pieces that aren't wanted and unbegun.
    pub fn advance(&mut self)
        ensures { self.new ≡ self.old }
    {
        self.front = self.rows.fresh_from(self.front);
    }

    /// How the piece ranks among the unbegun ones.
    pub fn rank(&self, piece: u32) -> u32
        requires { piece < length self.now }
        ensures { result ≡ rank_of_row (piece_row self.now piece) }
    {
        rank(self.rows.row(piece).level(), self.shown_by[piece as usize])
    }

    /// The pieces of this level and this stage.
    #[inline(always)]
    pub fn group(&self, level: u8, stage: Stage) -> &[u32]
        ensures { ListsGroup (map group_of_row self.now) (group_number level stage) result.now }
    {
        self.shelf.group(group_number(level, stage))
    }

    /// Whether no piece is in the groups from `low` up to `high`.
    #[inline(always)]
    pub fn has_none(&self, low: u32, high: u32) -> bool
        requires low { low < high }
        requires high { high ≤ GROUPS }
        ensures none { result ≡ true → NoneBetween (map group_of_row self.now) low high }
        ensures some { result ≡ false → SomeBetween (map group_of_row self.now) low high }
    {
        self.shelf.has_none(low, high)
    }

    /// Whether nothing is left to get of any piece.
    pub fn are_all_resting(&self) -> bool
        ensures { TellsRest self.now result }
    {
        self.shelf.left() == 0
    }

    /// The begun pieces with an unasked block, the least first.
    pub fn open_pieces(&self) -> &[u32]
        ensures lists { ListsOpen (map group_of_row self.now) result.now }
        ensures rise { IsRising (length self.now) result.now }
    {
        self.shelf.open_pieces()
    }

    /// The group of the piece.
    pub fn group_of(&self, piece: u32) -> u32
        requires { piece < length self.now }
        ensures { result ≡ at (map group_of_row self.now) piece }
    {
        self.shelf.group_of(piece)
    }

    /// How many blocks are unasked.
    pub fn unasked(&self) -> u64
        ensures { result ≡ sum_by (λ row. (standing_of row).unasked) self.now }
    {
        self.shelf.unasked()
    }

    /// How many blocks aren't held.
    pub fn unheld(&self) -> u64
        ensures { result ≡ sum_by (λ row. (standing_of row).unheld) self.now }
    {
        self.shelf.unheld()
    }

    /// How many pieces are had.
    pub fn had(&self) -> u32
        ensures { result ≡ count_by (λ row. row.had) self.now }
    {
        self.shelf.had()
    }

    /// Changes the row of the piece, and puts the piece where it stands then.
    #[inline(always)]
    pub fn apply(&mut self, piece: u32, change: Change)
        requires piece { piece < length self.old }
        requires fits { HasRoomOf change (piece_row self.old piece) }
        ensures { self.new ≡ edit self.old piece (changed_row change) }
    {
        let shown_by = u32::from(self.shown_by[piece as usize]);
        let before = self.rows.row(piece).standing(shown_by);
        let counts = self.rows.apply(piece, change);
        let after = counts.standing(before.blocks, shown_by);
        self.front = front_with(self.front, piece, after.is_fresh());
        self.shelf.put(piece, before, after);
    }

    /// One peer more shows the piece.
    #[inline(always)]
    pub fn show(&mut self, piece: u32)
        requires piece { piece < length self.old }
        requires few { (piece_row self.old piece).availability + 1 < 2 ^ 16 }
        ensures { self.new ≡ edit self.old piece (more_available true) }
    {
        let shown_by = self.shown_by[piece as usize] + 1;
        self.shown_by[piece as usize] = shown_by;
        self.shelf.raise(piece, u32::from(shown_by));
    }

    /// One peer less shows the piece, where so many do.
    #[inline(always)]
    pub fn hide(&mut self, piece: u32)
        requires { piece < length self.old }
        ensures { self.new ≡ edit self.old piece (less_available true) }
    {
        let shown_by = self.shown_by[piece as usize];
        self.shown_by[piece as usize] = shown_by.saturating_sub(1);
        self.shelf.lower(piece, u32::from(shown_by));
    }

    /// One peer more shows each piece. The pieces of a group stay together, so this is a step for each piece, and no piece changes its place.
    pub fn show_each(&mut self)
        requires few { EachIndex self.old (λ p. (piece_row self.old p).availability + 1 < 2 ^ 16) }
        ensures { self.new ≡ table (length self.old) (λ p. more_available true (piece_row self.old p)) }
    {
        count_up(&mut self.shown_by);
        self.shelf.raise_all();
    }

    /// One peer less shows each piece, where so many do. Pieces that `CROWD` peers or more show share a group, and part then one by one.
    pub fn hide_each(&mut self)
        requires few { NoneCrowded MOST_LEVEL (map group_of_row self.old) }
        ensures { self.new ≡ table (length self.old) (λ p. less_available true (piece_row self.old p)) }
    {
        count_down(&mut self.shown_by);
        self.shelf.lower_all();
    }

    /// Whether an unbegun piece is shown by `CROWD` peers or more.
    pub fn is_crowded(&self) -> bool
        ensures { result ≡ false → NoneCrowded MOST_LEVEL (map group_of_row self.now) }
    {
        self.shelf.is_crowded()
    }

    /// A peer tells that it has the piece no more, which it showed before, or didn't.
    pub fn withdraw(&mut self, piece: u32, was_shown: bool)
        requires { piece < length self.old }
        ensures { self.new ≡ edit self.old piece (less_available was_shown) }
    {
        if was_shown {
            self.hide(piece);
        }
    }

    /// A peer tells that it has the piece, which it did not show before, or did.
    pub fn announce(&mut self, piece: u32, is_new: bool)
        requires piece { piece < length self.old }
        requires few { (more_available is_new (less_available false (piece_row self.old piece))).availability < 2 ^ 16 }
        ensures { self.new ≡ edit self.old piece (λ row. more_available is_new (less_available false row)) }
    {
        if is_new {
            self.show(piece);
        }
    }
}

/// The front once this piece is wanted and unbegun, or isn't.
#[inline(always)]
fn front_with(front: u32, piece: u32, fresh: bool) -> u32
    ensures { result ≡ (if fresh then min front piece else front) }
{
    if fresh { front.min(piece) } else { front }
}

/// One more in each count.
fn count_up(counts: &mut [u16])
    requires { EachIndex counts.old (λ p. at counts.old p + 1 < 2 ^ 16) }
    ensures { AreMoved (λ n. n + 1) counts.old counts.new }
{
    for piece in 0..counts.len() {
        counts[piece] += 1;
    }
}

/// One less in each count, or none.
fn count_down(counts: &mut [u16])
    ensures { AreMoved (λ n. n - 1) counts.old counts.new }
{
    for piece in 0..counts.len() {
        counts[piece] = counts[piece].saturating_sub(1);
    }
}
