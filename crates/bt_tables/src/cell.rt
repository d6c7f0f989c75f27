//! What is kept of a block.

ghost use Rattle.std.specs.Prelude.{◌≡◌, ◌<◌, ◌+◌, Some, false};
ghost use Rattle.bt_tables.specs.Tables.{CellState, one_less, one_more, unheld};
ghost use Rattle.bt_tables.specs.Standings.{cell_kept, is_held, is_touched};

/// The least word of a block that is held: above it stands the number of the worker whose peer brought it. Of a block that isn't held fewer
/// peers than this are asked.
pub const HELD: u16 = 0x8000;

/// What is kept of a block, in two bytes: that it is held and who brought it, or how many peers are asked for it. So whether it is unasked
/// is one look. The peers' lines say which peers these are. A block that is held is asked of nobody.
#[derive(Clone, Copy)]
pub struct Cell {
    word: u16,
}

impl Cell {
    /// That of a block that is neither held nor asked.
    pub const EMPTY: Cell = Cell { word: 0 };

    /// That of a block that is held, brought by this worker's peer.
    pub fn kept_by(sender: u32) -> Cell
        requires { sender < HELD }
        ensures { cell_kept result ≡ record { sender = Some sender; askers = 0 } }
    {
        Cell {
            word: HELD | sender as u16,
        }
    }

    /// The worker whose peer brought the block, if it is held.
    pub fn sender(self) -> Option<u32>
        ensures { result ≡ (cell_kept self).sender }
    {
        if self.word < HELD {
            None
        } else {
            Some(u32::from(self.word - HELD))
        }
    }

    /// How many peers are asked for the block.
    pub fn askers(self) -> u32
        ensures { result ≡ (cell_kept self).askers }
    {
        if self.word < HELD {
            u32::from(self.word)
        } else {
            0
        }
    }

    /// Whether the block is held.
    pub fn is_held(self) -> bool
        ensures { result ≡ is_held (cell_kept self) }
    {
        self.word >= HELD
    }

    /// Whether the block is held, or asked of somebody.
    pub fn is_touched(self) -> bool
        ensures { result ≡ is_touched (cell_kept self) }
    {
        self.word > 0
    }

    /// With one peer more that is asked for the block, which isn't held.
    pub fn raised(self) -> Cell
        requires free { is_held (cell_kept self) ≡ false }
        requires few { (cell_kept self).askers + 1 < HELD }
        ensures { cell_kept result ≡ one_more (cell_kept self) }
    {
        Cell {
            word: self.word + 1,
        }
    }

    /// With one peer less that is asked for the block, where there is one.
    pub fn lowered(self) -> Cell
        ensures { cell_kept result ≡ one_less (cell_kept self) }
    {
        if self.word >= HELD || self.word == 0 {
            self
        } else {
            Cell {
                word: self.word - 1,
            }
        }
    }

    /// No longer held.
    pub fn released(self) -> Cell
        ensures { cell_kept result ≡ unheld (cell_kept self) }
    {
        if self.word < HELD { self } else { Cell::EMPTY }
    }
}
