//! What a log keeps of an entry.

use crate::call::Reply;

/// A call without its bytes, its bitfield and its levels.
#[derive(Clone, Copy, Debug, PartialEq, Eq)]
pub enum CallMark {
    Join,
    Bits,
    Have(u32),
    Choke,
    Unchoke,
    Next(u64),
    Arrived { piece: u32, begin: u32, len: usize },
    Settle(u32),
    Leave,
    Want,
    Haves,
    Depth(u32),
    Release { piece: u32, begin: u32 },
    Level { piece: u32, level: u8 },
    Levels,
    InOrder(bool),
    Reach(u8),
    InOrderFrom(u8),
    Lack(u32),
    Late { piece: u32, begin: u32 },
    Alone(bool),
    Requested { piece: u32, begin: u32 },
}

/// What a worker's log keeps of an entry: its place in the journal (the number of older entries), its call and its reply.
#[derive(Clone, Copy, Debug, PartialEq, Eq)]
pub struct Mark {
    pub place: usize,
    pub call: CallMark,
    pub reply: Reply,
}
