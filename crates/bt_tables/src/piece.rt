//! The row of a piece as it is lent, and what it amounts to.

ghost use Rattle.std.specs.Prelude.{◌≡◌, ◌<◌, ◌≤◌, ◌+◌, ◌-◌, ◌*◌, ◌^◌, ◌==◌, ◌||◌, nat_lt, min, if◌then◌else◌, length, slice_index_or, slice_set, IfOk};
ghost use Rattle.std.specs.Prelude.{Bool, true, false, replicate};
ghost use Rattle.bt_tables.specs.Tables.{HasRoomOf, PieceState, changed_row, edit, empty_cell, failed_row, fresh_piece, one_if, one_less, one_more};
ghost use Rattle.bt_tables.specs.Tables.{stored_row};
ghost use Rattle.bt_tables.specs.Floors.{is_fresh};
ghost use Rattle.bt_tables.specs.Standings.{AreGrouped, AreTouched, cell_kept, is_held, is_resting, is_touched, held_count, touched_count};
ghost use Rattle.bt_tables.specs.Standings.{shown_row, first_group, group_number, place_in, place_of, stage_by, standing_of, wanted_by};
ghost use Rattle.bt_tables.specs.declared.piece.Stage.TheVariants.{Open};
ghost use Rattle.bt_tables.specs.Rows.{Keeps, amount_of, is_fresh_by, row_of, said};

use crate::cell::Cell;
use crate::counts::Counts;
use bt_history::{MOST_LEVEL, MOST_WORKERS, USUAL_LEVEL};
use std::marker::Model;

/// A change of what is kept of a piece. Blocks are counted from the front of the piece.
#[derive(Clone, Copy)]
pub enum Change {
    /// One peer more is asked for the block.
    Raise(u32),
    /// One peer less is asked for the block, where the piece has so many.
    Lower(u32),
    /// The block was stored, brought by this worker's peer, so it is asked of nobody.
    Store { index: u32, sender: u32 },
    /// A check found the right hash.
    Pass,
    /// A check found another hash: no block is held.
    Fail,
    /// The piece has this level from now on.
    Level(u8),
    /// The piece is lost: it isn't had, and no block is held.
    Lose,
    /// The block is held no more.
    Discard(u32),
}

/// How a piece stands among the others: what is counted of it, how many blocks it has, and how many peers show it. What it amounts to is
/// worked out where it is read, since most changes leave its group.
#[derive(Clone, Copy)]
pub struct Standing {
    pub had: bool,
    pub level: u8,
    pub held: u32,
    pub touched: u32,
    pub blocks: u32,
    pub shown_by: u32,
}

impl Standing {
    /// That of no piece.
    pub const NONE: Standing = Standing {
        had: false,
        level: 0,
        held: 0,
        touched: 0,
        blocks: 0,
        shown_by: 0,
    };

    /// The group of the piece.
    #[inline(always)]
    pub fn group(self) -> u32
        ensures is { result ≡ (amount_of self).group }
        ensures few { result < GROUPS }
    {
        group_by(
            self.had,
            self.level,
            self.touched,
            self.blocks,
            self.shown_by,
        )
    }

    /// Whether nothing is left to get of the piece: it is had, or not wanted.
    #[inline(always)]
    fn is_resting(self) -> bool
        ensures { result ≡ (self.had || (self.level == 0)) }
    {
        self.had || self.level == 0
    }

    /// Whether each block is held or asked.
    #[inline(always)]
    fn is_asked_out(self) -> bool
        ensures { result ≡ (self.touched == self.blocks) }
    {
        self.touched == self.blocks
    }

    /// How many blocks are to be had of the piece.
    #[inline(always)]
    fn wanted(self) -> u32
        ensures { result ≡ wanted_by self.level self.blocks }
    {
        if self.level == 0 { 0 } else { self.blocks }
    }

    /// How many of its blocks are unasked, if it is wanted.
    #[inline(always)]
    pub fn unasked(self) -> u32
        ensures { result ≡ (amount_of self).unasked }
    {
        self.wanted().saturating_sub(self.touched)
    }

    /// How many of its blocks aren't held, if it is wanted.
    #[inline(always)]
    pub fn unheld(self) -> u32
        ensures { result ≡ (amount_of self).unheld }
    {
        self.wanted().saturating_sub(self.held)
    }

    /// Whether the piece is had.
    #[inline(always)]
    pub fn had(self) -> bool
        ensures { result ≡ (amount_of self).had }
    {
        self.had
    }

    /// Whether something is left to get of it.
    #[inline(always)]
    pub fn left(self) -> bool
        ensures { result ≡ (amount_of self).left }
    {
        !self.is_resting()
    }

    /// Whether the piece is wanted and unbegun.
    #[inline(always)]
    pub fn is_fresh(self) -> bool
        ensures { result ≡ is_fresh_by self }
    {
        !self.is_resting() && self.touched == 0
    }

    /// Whether it is known at once that a piece which stood like this, and stands like the other, is in the same group: it was begun, and is,
    /// and its level stays.
    #[inline(always)]
    pub fn is_grouped_as(self, other: Standing) -> bool
        ensures { result ≡ true → AreGrouped (amount_of self) (amount_of other) }
    {
        let was_asked_out = self.is_asked_out();
        let is_asked_out = other.is_asked_out();
        self.touched > 0
            && other.touched > 0
            && self.level == other.level
            && self.had == other.had
            && was_asked_out == is_asked_out
    }
}

/// How far a piece is. The pieces of one level and one stage are a group.
#[derive(Clone, Copy)]
pub enum Stage {
    /// Nothing is left to get of the piece: it is had, or not wanted.
    Resting,
    /// Begun, and its lacking blocks are all asked: also a full piece, until its check passes.
    AskedOut,
    /// Begun, with an unasked block.
    Open,
    /// Unbegun, and so many peers show it.
    Unbegun(u32),
}

/// Where the unbegun pieces that nobody shows stand among the groups of their level; those that n peers show come n groups behind them.
pub const UNBEGUN: u32 = 3;
/// Unbegun pieces of a level that so many peers show, or more, are one group: a desk has fewer workers, but a journal of more can be audited.
pub const CROWD: u32 = MOST_WORKERS + 1;
/// Each level has so many groups of pieces.
pub const SPAN: u32 = UNBEGUN + CROWD + 1;
/// So many groups there are: those of the usual level come first, where pieces of level 0 rest too.
pub const GROUPS: u16 = (MOST_LEVEL as u32 * SPAN) as u16;
/// A level ranks so far before the next lower one: farther than a count of peers goes.
pub const RANKS: u32 = 0x1_0000;

/// The first group of the level. The usual one has the first groups of all, and the next higher one those behind it: a piece crosses all
/// groups between two, and few are raised any higher.
#[inline(always)]
pub fn first_group(level: u8) -> u32
    ensures { result ≡ first_group level }
{
    if level == 0 || level == USUAL_LEVEL {
        0
    } else if level > USUAL_LEVEL {
        u32::from(level.min(MOST_LEVEL) - USUAL_LEVEL) * SPAN
    } else {
        u32::from(MOST_LEVEL.saturating_sub(level)) * SPAN
    }
}

impl Stage {
    /// Where the pieces of this stage stand among the groups of a level.
    #[inline(always)]
    pub fn place(self) -> u32
        ensures is { result ≡ place_of self }
        ensures few { result < SPAN }
    {
        match self {
            Stage::Resting => 0,
            Stage::AskedOut => 1,
            Stage::Open => 2,
            Stage::Unbegun(shown_by) => UNBEGUN + shown_by.min(CROWD),
        }
    }
}

/// The number of the group of this level and this stage.
#[inline(always)]
pub fn group_number(level: u8, stage: Stage) -> u32
    ensures is { result ≡ group_number level stage }
    ensures few { result < GROUPS }
{
    first_group(level) + stage.place()
}

/// The group of a piece that stands so.
#[inline(never)] // few changes come here, and numbers alone are passed
fn group_by(had: bool, level: u8, touched: u32, blocks: u32, shown_by: u32) -> u32
    ensures is { result ≡ group_number level (stage_by had level touched blocks shown_by) }
    ensures few { result < GROUPS }
{
    let stage = if had || level == 0 {
        Stage::Resting
    } else if touched == 0 {
        Stage::Unbegun(shown_by)
    } else if touched == blocks {
        Stage::AskedOut
    } else {
        Stage::Open
    };
    group_number(level, stage)
}

/// Whether the pieces of the group are open.
#[inline(always)]
pub fn is_open(group: u32) -> bool
    ensures { result ≡ (place_in group == place_of Open) }
{
    group % SPAN == Stage::Open.place()
}

/// How an unbegun piece of the level ranks that so many peers show.
#[inline(always)]
pub fn rank(level: u8, shown_by: u16) -> u32
    ensures { result ≡ (MOST_LEVEL - level) * RANKS + shown_by }
{
    u32::from(MOST_LEVEL.saturating_sub(level)) * RANKS + u32::from(shown_by)
}

/// What is kept of a piece, as its rows lend it: what is counted of its blocks, and a cell for each of them, by the block's index. How many
/// peers show the piece stands apart (`Pieces`): contracts see a row that nobody shows.
#[derive(Drop)]
pub struct Piece<'a> {
    counts: &'a Counts,
    cells: &'a [Cell],
}

impl<'a> Model for Piece<'a> {
    ghost use Rattle.bt_tables.specs.Rows.{Keeps, row_of, said};
    ghost use Rattle.bt_tables.specs.Tables.{PieceState};

    ghost Value = { PieceState };

    ghost view = { λ p. row_of p.counts.now (said p.cells.now) };

    ghost invariant = { λ p. Keeps p.counts.now (said p.cells.now) };
}

impl<'a> Piece<'a> {
    pub fn new(counts: &'a Counts, cells: &'a [Cell]) -> Piece<'a>
        requires { Keeps counts.now (said cells.now) }
        ensures { result ≡ row_of counts.now (said cells.now) }
    {
        Piece { counts, cells }
    }

    /// How many blocks the piece has.
    pub fn len(&self) -> u32
        ensures { result ≡ length self.now.blocks }
    {
        self.cells.len() as u32
    }

    /// How the piece stands, which so many peers show.
    #[inline(always)]
    pub fn standing(&self, shown_by: u32) -> Standing
        ensures amount { amount_of result ≡ standing_of (shown_row shown_by self.now) }
        ensures fresh { is_fresh_by result ≡ is_fresh self.now }
        ensures blocks { result.blocks ≡ length self.now.blocks }
    {
        self.counts.standing(self.len(), shown_by)
    }

    /// Whether nothing is left to get of the piece.
    #[inline(always)]
    pub fn is_resting(&self) -> bool
        ensures { result ≡ is_resting self.now }
    {
        self.counts.had || self.counts.level == 0
    }

    /// Whether each block is held.
    pub fn is_full(&self) -> bool
        ensures { result ≡ (held_count self.now.blocks == length self.now.blocks) }
    {
        self.counts.held == self.len()
    }

    /// Whether each block but one is held.
    pub fn lacks_one(&self) -> bool
        ensures { result ≡ (held_count self.now.blocks + 1 == length self.now.blocks) }
    {
        self.len() - self.counts.held == 1
    }

    /// Whether some block is held or asked.
    pub fn is_touched(&self) -> bool
        ensures { result ≡ nat_lt 0 (touched_count self.now.blocks) }
    {
        self.counts.touched > 0
    }

    /// How many blocks are held or asked.
    pub fn touched(&self) -> u32
        ensures { result ≡ touched_count self.now.blocks }
    {
        self.counts.touched
    }

    /// Whether the piece is wanted and unbegun.
    pub fn is_fresh(&self) -> bool
        ensures { result ≡ is_fresh self.now }
    {
        !self.is_resting() && self.counts.touched == 0
    }

    pub fn is_had(&self) -> bool
        ensures { result ≡ self.now.had }
    {
        self.counts.had
    }

    /// The level of the piece: 0, where it isn't wanted.
    pub fn level(&self) -> u8
        ensures { result ≡ self.now.level }
    {
        self.counts.level
    }

    /// What is kept of the block.
    pub fn cell(&self, index: u32) -> Cell
        requires { index < length self.now.blocks }
        ensures { cell_kept result ≡ slice_index_or self.now.blocks index empty_cell }
    {
        self.cells[index as usize]
    }

    /// Each block before this one is held or asked.
    pub fn first(&self) -> u32
        ensures { AreTouched result self.now.blocks }
    {
        self.counts.first
    }
}
