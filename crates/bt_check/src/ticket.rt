//! What a thread is told to do.

/// What a checker of pieces is told.
#[derive(Clone, Copy, PartialEq, Eq, Debug)]
pub enum Ticket {
    /// Hash this piece.
    Piece(u32),
    /// No further ticket is for you.
    Stop,
}
