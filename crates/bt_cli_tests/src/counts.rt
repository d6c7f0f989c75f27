//! How many messages of each kind came.

ghost use Rattle.std.specs.Prelude.{◌<◌};

use bt_wire::Message;
use std::fmt;

/// The kinds of messages; those of the peer wire go by their type.
const KINDS: &[&str] = &[
    "0",
    "1",
    "2",
    "3",
    "4",
    "5",
    "6",
    "7",
    "8",
    "unknown",
    "keepalive",
    "handshake",
];

fn kind_of(message: &Message) -> usize
    ensures { result < 12 }
{
    match message {
        Message::Choke => 0,
        Message::Unchoke => 1,
        Message::Interested => 2,
        Message::NotInterested => 3,
        Message::Have(_) => 4,
        Message::Bits(_) => 5,
        Message::Request { .. } => 6,
        Message::Piece { .. } => 7,
        Message::Cancel { .. } => 8,
        Message::Unknown(_) => 9,
        Message::KeepAlive => 10,
        Message::Hello(_) => 11,
    }
}

#[derive(Drop)]
pub struct Counts {
    of_kind: [u64; 12],
    /// Bytes at the end that belong to no message.
    rest: usize,
}

impl Counts {
    pub fn new() -> Counts {
        Counts {
            of_kind: [0; 12],
            rest: 0,
        }
    }

    pub fn add(&mut self, message: &Message) {
        let count = &mut self.of_kind[kind_of(message)];
        *count = count.saturating_add(1);
    }

    pub fn set_rest(&mut self, rest: usize) {
        self.rest = rest;
    }
}

impl fmt::Display for Counts {
    fn fmt<W: fmt::Write>(&self, f: &mut fmt::Formatter<W>) -> fmt::Result {
        let rest = self.rest;
        write!(f, "rest {rest} types")?;
        for (kind, count) in KINDS.iter().zip(&self.of_kind) {
            if *count > 0 {
                write!(f, " {kind}:{count}")?;
            }
        }
        Ok(())
    }
}
