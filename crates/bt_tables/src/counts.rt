//! What is counted of the blocks of a piece.

ghost use Rattle.std.specs.Prelude.{◌≡◌, ◌<◌, ◌≤◌, ◌+◌, ◌^◌, true};
ghost use Rattle.bt_tables.specs.Tables.{one_if};
ghost use Rattle.bt_tables.specs.Rows.{passed_to};
ghost use Rattle.bt_tables.specs.Standings.{cell_kept, is_held, is_touched};

use crate::cell::Cell;
use crate::piece::Standing;
use bt_history::USUAL_LEVEL;

/// What is kept of a piece beside the cells of its blocks, in sixteen bytes: whether it is had, its level, how many of its blocks are held,
/// how many are held or asked, and up to which one each is. So whether the piece is full or begun is one look, and the next block is looked
/// for behind those that are known to be held or asked.
#[derive(Clone, Copy)]
pub struct Counts {
    pub had: bool,
    pub level: u8,
    pub held: u32,
    pub touched: u32,
    pub first: u32,
}

impl Counts {
    /// Those of a piece of the usual level of which no block is held or asked.
    pub const FRESH: Counts = Counts {
        had: false,
        level: USUAL_LEVEL,
        held: 0,
        touched: 0,
        first: 0,
    };

    /// How a piece stands that has so many blocks and is shown by so many peers.
    #[inline(always)]
    pub fn standing(self, blocks: u32, shown_by: u32) -> Standing
        ensures { result ≡ record {
          had = self.had;
          level = self.level;
          held = self.held;
          touched = self.touched;
          blocks = blocks;
          shown_by = shown_by;
        } }
    {
        Standing {
            had: self.had,
            level: self.level,
            held: self.held,
            touched: self.touched,
            blocks,
            shown_by,
        }
    }

    /// With a block whose cell was `old`, and is `new` from now on.
    #[inline(always)]
    pub fn noted(&self, index: u32, old: Cell, new: Cell) -> Counts
        requires held { one_if (is_held (cell_kept old)) ≤ self.now.held }
        requires held_room { self.now.held + one_if (is_held (cell_kept new)) < 2 ^ 32 + one_if (is_held (cell_kept old)) }
        requires touched { one_if (is_touched (cell_kept old)) ≤ self.now.touched }
        requires touched_room { self.now.touched + one_if (is_touched (cell_kept new)) < 2 ^ 32 + one_if (is_touched (cell_kept old)) }
        requires index { index + 1 < 2 ^ 32 }
        ensures had { result.had ≡ self.now.had }
        ensures level { result.level ≡ self.now.level }
        ensures held { result.held + one_if (is_held (cell_kept old)) ≡ self.now.held + one_if (is_held (cell_kept new)) }
        ensures touched { result.touched + one_if (is_touched (cell_kept old)) ≡ self.now.touched + one_if (is_touched (cell_kept new)) }
        ensures first { result.first ≡ passed_to self.now.first index (is_touched (cell_kept new)) }
    {
        Counts {
            had: self.had,
            level: self.level,
            held: moved(self.held, old.is_held(), new.is_held()),
            touched: moved(self.touched, old.is_touched(), new.is_touched()),
            first: passed(self.first, index, new.is_touched()),
        }
    }

    /// With one peer more that is asked for a block whose cell was `old`, and that isn't held.
    #[inline(always)]
    pub fn asked(&self, index: u32, old: Cell) -> Counts
        requires touched { one_if (is_touched (cell_kept old)) ≤ self.now.touched }
        requires touched_room { self.now.touched + 1 < 2 ^ 32 + one_if (is_touched (cell_kept old)) }
        requires index { index + 1 < 2 ^ 32 }
        ensures had { result.had ≡ self.now.had }
        ensures level { result.level ≡ self.now.level }
        ensures held { result.held ≡ self.now.held }
        ensures touched { result.touched + one_if (is_touched (cell_kept old)) ≡ self.now.touched + 1 }
        ensures first { result.first ≡ passed_to self.now.first index true }
    {
        Counts {
            had: self.had,
            level: self.level,
            held: self.held,
            touched: moved(self.touched, old.is_touched(), true),
            first: passed(self.first, index, true),
        }
    }
}

/// A count once what was counted, or wasn't, is counted, or isn't.
fn moved(count: u32, before: bool, after: bool) -> u32
    requires some { one_if before ≤ count }
    requires room { count + one_if after < 2 ^ 32 + one_if before }
    ensures { result + one_if before ≡ count + one_if after }
{
    match (before, after) {
        (true, false) => count - 1,
        (false, true) => count + 1,
        _ => count,
    }
}

/// Up to which block each is held or asked, once the one at this index is, or isn't.
fn passed(first: u32, index: u32, touched: bool) -> u32
    requires { index + 1 < 2 ^ 32 }
    ensures { result ≡ passed_to first index touched }
{
    if !touched {
        first.min(index)
    } else if index == first {
        first + 1
    } else {
        first
    }
}
