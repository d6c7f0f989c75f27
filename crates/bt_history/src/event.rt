//! Entries by their plain values: they stand in contracts, in models and in views of threads, and no value of them is made.

use crate::call::Reply;
use std::collections::LinkedList;

/// A call by its plain values. A verdict is its piece with the joined bytes that were hashed. `Lose`, `Discard` and `Requested` are
/// told to a picker or a keeper alone: no [`Call`](crate::Call) is one of them, so no journal has them.
pub enum Action {
    Join,
    Bits(LinkedList<bool>),
    Have(u32),
    Choke,
    Unchoke,
    Next(u64),
    Arrived {
        piece: u32,
        begin: u32,
        bytes: LinkedList<u8>,
    },
    Settle {
        piece: u32,
        bytes: LinkedList<u8>,
    },
    Leave,
    Want(LinkedList<bool>),
    Haves(LinkedList<bool>),
    Depth(u32),
    Release {
        piece: u32,
        begin: u32,
    },
    Level {
        piece: u32,
        level: u8,
    },
    Levels(LinkedList<u8>),
    InOrder(bool),
    Reach(u8),
    InOrderFrom(u8),
    Lack(u32),
    Late {
        piece: u32,
        begin: u32,
    },
    Alone(bool),
    Lose(u32),
    Discard {
        piece: u32,
        begin: u32,
    },
    Requested {
        piece: u32,
        begin: u32,
    },
}

/// An entry by its plain values.
pub struct Event {
    pub worker: u32,
    pub action: Action,
    pub reply: Reply,
}
