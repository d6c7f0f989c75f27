//! The choices at open.
ghost use Rattle.std.specs.Prelude.{◌≡◌, IfSome, IfNone};
ghost use Rattle.bt_c.specs.Opening.{AreChoices, AreWorkers, IsDecided, keeping_by};
ghost use Rattle.bt_c.specs.Rules.{rules};

use crate::engine::Keeping;
use bt_meta::Torrent;
use bt_picker::{MOST_DEPTH, MOST_OPEN, MOST_TOLD_DEPTH, MOST_WORKERS, Rules};

/// The choices at open, as C has them.
#[repr(C)]
#[derive(Clone, Copy, Debug, PartialEq, Eq)]
pub struct Options {
    /// The bytes of the struct, by which a later library knows an older caller.
    pub size: u32,
    /// What the picker keeps: 0 nothing, 1 the blocks of pieces that are begun, 2 a journal with all content.
    pub keeps: u32,
    /// How many peers there may be at a time, 1 to 1,024.
    pub workers: u32,
    /// How many blocks are requested from a peer at a time until another depth is set, 1 to 64.
    pub depth: u32,
    /// The greatest depth that may be set for a peer later, 1 to 4,096.
    pub deepest: u32,
    /// How many pieces are complete before the rarest come first.
    pub random: u32,
    /// From how many peers one block is requested at most in endgame, 1 to 1,024.
    pub askers: u32,
    /// How many pieces may be open before begun ones come first, 0 to 1,024.
    pub open: u32,
    /// In endgame a block is requested again only from a peer with fewer requests than these, 0 to 4,096: 4,096 is no bound.
    pub rush: u32,
    /// Whether endgame waits only for pieces that a joined peer shows: 0 for all wanted ones, 1 for these.
    pub shown: u32,
}

/// The bytes of the choices.
pub const SIZE: u32 = 40;

impl Options {
    /// What the picker keeps, if such a thing is kept.
    pub fn keeping(self) -> Option<Keeping>
        ensures { result ≡ keeping_by self.keeps }
    {
        match self.keeps {
            0 => Some(Keeping::Nothing),
            1 => Some(Keeping::Begun),
            2 => Some(Keeping::Journal),
            _ => None,
        }
    }

    /// The rules.
    pub fn rules(self) -> Rules
        ensures { result ≡ rules self }
    {
        Rules {
            depth: self.depth,
            random: self.random,
            askers: self.askers,
            deepest: self.deepest,
            open: self.open,
            rush: self.rush,
            shown: self.shown == 1,
        }
    }

    /// Whether there may be so many workers.
    pub fn are_workers(self) -> bool
        ensures { IsDecided result (AreWorkers self.workers) }
    {
        1 <= self.workers && self.workers <= MOST_WORKERS
    }

    /// Whether a picker of the torrent may go by these rules.
    pub fn are_choices(self, torrent: &Torrent) -> bool
        ensures { IsDecided result (AreChoices torrent.now.layout self) }
    {
        let are_depths = 1 <= self.depth && self.depth <= MOST_DEPTH;
        let is_deepest = 1 <= self.deepest && self.deepest <= MOST_TOLD_DEPTH;
        let are_askers = 1 <= self.askers && self.askers <= MOST_WORKERS;
        let are_pieces = self.random <= torrent.piece_count() && self.open <= MOST_OPEN;
        let is_ending = self.rush <= MOST_TOLD_DEPTH && self.shown <= 1;
        are_depths && is_deepest && are_askers && are_pieces && is_ending
    }
}
