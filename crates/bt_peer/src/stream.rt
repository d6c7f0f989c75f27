//! Recorded peers, and what came of a run with them.

use crate::fault::{End, SessionFault};
use bt_picker::Desk;

/// The most streams that one run takes.
pub const MOST_STREAMS: usize = 64;

/// A recorded peer: what it sends is read, and what is sent to it is written.
#[derive(Drop)]
pub struct Stream<R, W> {
    pub reader: R,
    pub writer: W,
}

/// What came of a run in one thread.
#[derive(Drop)]
pub struct SerialRun {
    /// How each stream's session ended, in the order of the streams.
    pub ends: Vec<Result<End, SessionFault>>,
    /// The desk of the run. Worker `i` spoke for stream `i`, and one more worker made the last checks.
    pub desk: Desk,
    /// The last checks were given up for want of memory, or a call of a session found none. A peer whose Leave found none is still joined
    /// at the desk.
    pub short: bool,
}
