//! What a seat knows of its board. No value of these types is made.
use std::collections::LinkedList;

/// A piece that was marked, and the bytes of it that have its hash.
pub struct Mark {
    pub piece: u32,
    pub bytes: LinkedList<u8>,
}

/// A word that was loaded, and the value that was found in it.
pub struct Load {
    pub word: usize,
    pub found: u64,
}

/// What a seat has marked and loaded, the oldest first, and the numbers of the seats that it stands for: its own, and those that were
/// joined with it.
pub struct BoardView {
    pub marks: LinkedList<Mark>,
    pub loads: LinkedList<Load>,
    pub seats: LinkedList<usize>,
}
