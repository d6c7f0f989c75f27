//! What comes of a check.

use bt_history::Reply;
use bytes::Bytes;

/// The reply to a check. Where it is `Had`, the blocks are those of the piece, in order, for the caller to write. Else there are none.
#[derive(Drop)]
pub struct Settled {
    pub reply: Reply,
    pub blocks: Vec<Bytes>,
}
