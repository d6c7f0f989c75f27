//! What a download may choose of the rules, and within which limits.

ghost use Rattle.std.specs.Prelude.{◌≡◌, max, min};
ghost use Rattle.bt_history.specs.Setting.{usual_rules};

/// The greatest depth of the rules: blocks asked of one peer.
pub const MOST_DEPTH: u32 = 64;

/// The greatest depth that can be told of one peer.
pub const MOST_TOLD_DEPTH: u32 = 4096;

/// The greatest number of open pieces that a download may choose.
pub const MOST_OPEN: u32 = 1024;

/// The most workers, and so peers at a time, of one picker.
pub const MOST_WORKERS: u32 = 1024;

/// The highest level of a piece; a piece of level 0 isn't downloaded.
pub const MOST_LEVEL: u8 = 7;

/// The level of each piece until another one is told.
pub const USUAL_LEVEL: u8 = 4;

/// What a download may choose of the rules: how many blocks may be asked of one peer at a time, the cancels due at it included, how many
/// pieces are picked at random before the rarest come first, of how many peers one block is asked at the end, how many pieces may be open
/// before begun ones come first, and what endgame waits for (Cohen 2003, "Pipelining", "Random first piece", "Endgame mode" and "Strict
/// policy").
///
/// A depth of five keeps a slow line busy; a fast and distant peer wants more: five blocks of 16 KiB on a line with a round trip of
/// 100 ms are 800 KB a second, 64 are 10 MB. A picker takes depths of 1 to [`MOST_DEPTH`].
#[derive(Clone, Copy, Debug, PartialEq, Eq)]
pub struct Rules {
    /// Blocks asked of one peer.
    pub depth: u32,
    /// Pieces had before the rarest come first: none, where the rarest come first from the start.
    pub random: u32,
    /// In endgame one block is asked of so many peers at most, but always of one; with [`MOST_WORKERS`] or more, of as many as show it.
    pub askers: u32,
    /// The greatest depth that may be told of one peer ([`Call::Depth`]), up to [`MOST_TOLD_DEPTH`]; more counts as that, and with 0 none
    /// may be told. A picker takes the memory for lines so long when it is made: 25 bytes a peer for each block of depth.
    pub deepest: u32,
    /// Pieces that may be open, which are wanted and begun and have an unrequested block. While more are, or too few pieces are had, those come
    /// first that fewest peers show. Else a piece that fewest peers show comes first, begun or not. With 0 any begun piece comes first.
    pub open: u32,
    /// In endgame a block is asked again only of a peer that is asked for fewer blocks than these. Lines of [`MOST_TOLD_DEPTH`] are the longest,
    /// so that many are no bound. A peer far behind the others would else take a long line of blocks that all come twice.
    pub rush: u32,
    /// Whether endgame waits only for pieces that some joined peer shows. Without it one wanted piece that nobody has holds it up.
    pub shown: bool,
}

impl Rules {
    /// Five blocks, the first piece at random, in endgame any number of peers for a block and of blocks for a peer, no depth beyond 64, begun
    /// pieces first, and an endgame that waits for all wanted pieces.
    pub fn usual() -> Rules
        ensures { result ≡ usual_rules }
    {
        Rules {
            depth: 5,
            random: 1,
            askers: MOST_WORKERS,
            deepest: MOST_DEPTH,
            open: 0,
            rush: MOST_TOLD_DEPTH,
            shown: false,
        }
    }

    /// The greatest depth that may be told of a peer.
    pub fn deepest_told(self) -> u32
        ensures { result ≡ min self.deepest MOST_TOLD_DEPTH }
    {
        self.deepest.min(MOST_TOLD_DEPTH)
    }

    /// So many blocks at most are asked of one peer, whatever is told.
    pub fn deepest_line(self) -> u32
        ensures { result ≡ max self.depth (min self.deepest MOST_TOLD_DEPTH) }
    {
        self.depth.max(self.deepest_told())
    }
}
