//! The calls of a picker, its replies, and the entries of a journal.

ghost use Rattle.std.specs.Prelude.{◌≡◌, not};
ghost use Rattle.bt_history.specs.Entries.{action_of};
ghost use Rattle.bt_history.specs.Legal.{reason_number};
ghost use Rattle.bt_history.specs.Logs.{call_mark};

use crate::mark::CallMark;
use bt_check::Verdict;
use bt_meta::{Bitfield, Block};
use bytes::Bytes;
use std::sync::Arc;

/// What a peer's worker tells the picker of its peer, or asks of it. All but `Next`, `Settle`, `Want`, `Depth`, `Release`, `Level`, `Levels`,
/// `InOrder`, `Reach`, `InOrderFrom`, `Late` and `Alone` tell what came on the wire (BEP 3, BEP 6, BEP 54).
#[derive(Drop)]
pub enum Call {
    /// The handshakes were exchanged.
    Join,
    /// A `bitfield` message: the pieces that the peer has.
    Bits(Bitfield),
    /// A `have` message: the peer has this piece too.
    Have(u32),
    /// A `choke` message.
    Choke,
    /// An `unchoke` message.
    Unchoke,
    /// What to say to the peer next. The word settles what the rules leave to chance.
    Next(u64),
    /// A `piece` message: a block, `begin` bytes into the piece.
    Arrived {
        piece: u32,
        begin: u32,
        bytes: Bytes,
    },
    /// A piece was hashed. Any worker may tell this.
    Settle(Arc<Verdict>),
    /// The connection is gone.
    Leave,
    /// From now on just the pieces with their flag set are to be downloaded, all of them at [`USUAL_LEVEL`](crate::USUAL_LEVEL). Any worker
    /// may tell this, and the newest holds for all. Until there is one, each piece is. What was asked before stays asked.
    Want(Bitfield),
    /// The peer has these pieces too, at any time: a `have` for each of them. A second `bitfield`, which some clients send, and
    /// `have all` and `have none` (BEP 6) are told so.
    Haves(Bitfield),
    /// From now on so many blocks may be asked of this peer at a time, until another number is told or the worker's next peer joins. What
    /// is asked stays asked: where more is asked than the new number, nothing is asked until enough came.
    Depth(u32),
    /// The block that begins there, `begin` bytes into the piece, is asked of the peer no more: the peer rejected it (BEP 6), or the request
    /// was not sent. Of other peers it stays asked, no cancel comes due, and any peer may be asked for it again.
    Release {
        piece: u32,
        begin: u32,
    },
    /// From now on the piece has this level: 0 isn't downloaded, and pieces of a higher level come before those of a lower one. Any worker
    /// may tell this, and the newest holds for all. What was asked before stays asked.
    Level {
        piece: u32,
        level: u8,
    },
    /// From now on each piece has the level of its byte, the first piece's first.
    Levels(Bytes),
    /// From now on pieces of one level come in rising order, or else the rarest first, as they do until this is told. Any worker may tell it.
    InOrder(bool),
    /// From now on blocks of this level and of lower ones alone are requested of this peer, until another reach is told or the worker's next
    /// peer joins: until there is one, blocks of each level are. A slow peer so gets nothing that is urgent. What is asked stays asked.
    Reach(u8),
    /// From now on pieces of this level and of higher ones come in rising order, and of the others the rarest first: with 0 all come in
    /// order, with 8 none. Any worker may tell it, and it takes the place of what [`InOrder`](Call::InOrder) told, as that does of this.
    InOrderFrom(u8),
    /// An `lt_donthave` message (BEP 54): the peer has this piece no more. Blocks of it that were asked of the peer are asked of it no
    /// more, no cancel comes due, and any peer may be asked for them again.
    Lack(u32),
    /// The request of the block that begins there takes too long. The block stays asked of the peer: it counts for the depth, and a cancel
    /// comes due if another peer brings it. For all other peers it is as if it were released. Its own isn't asked for it again.
    Late {
        piece: u32,
        begin: u32,
    },
    /// From now on the peer works alone, or like the others again, as it does from when it joins. One that works alone begins pieces, and goes
    /// on with those that nobody else brought or is expected to bring a block of. Others are asked for none of these pieces' blocks until
    /// endgame. So the sender of a whole piece is known where a check failed, or a fast peer has pieces to itself.
    Alone(bool),
}

/// Why a call was refused.
#[derive(Clone, Copy, Debug, PartialEq, Eq)]
pub enum Reason {
    NotJoined,
    AlreadyJoined,
    /// A bitfield after another one, or after a have, choke, unchoke or block, since the peer joined.
    LateBits,
    /// A bitfield, the flags of the wanted pieces, or the levels, of another number of pieces than the torrent has.
    WrongCount,
    NoSuchPiece,
    /// No block begins there.
    NoSuchBlock,
    WrongLength,
    /// The piece isn't full, or was had already; or the block doesn't wait to be requested of the peer.
    NotWaiting,
    /// The bytes that were hashed are no longer those held.
    Stale,
    /// The block isn't asked of the peer.
    NotAsked,
    /// A depth of 0, or a greater one than the rules let be told.
    WrongDepth,
    /// A level or a reach above 7, or an order from a level above 8.
    WrongLevel,
}

/// What the picker answers to a call.
#[derive(Clone, Copy, Debug, PartialEq, Eq)]
pub enum Reply {
    Joined,
    /// Whether the peer now has something for us: a piece that is wanted and lacking.
    Noted(bool),
    Quiet,
    /// To be sent as `cancel`: the block came from another peer.
    Cancel(Block),
    /// To be sent as `request`.
    Request(Block),
    /// The request is in flight already, and counts from now on. Only a picker or a keeper answers so, to `Requested`.
    InFlight(Block),
    /// Nothing to ask: the peer chokes us.
    Choked,
    /// Nothing to ask: as many blocks as may be are asked of the peer.
    PipeFull,
    /// Nothing to ask now, though the peer has a piece that is wanted and lacking.
    Idle,
    /// The peer shows no wanted piece that isn't had.
    NothingLeft,
    /// The block is held now.
    Stored,
    /// The block is held now, and so is each of its piece.
    Completed,
    /// The block was held already.
    Dropped,
    /// The piece has the hash that it must have.
    Had,
    /// The piece has another hash; its blocks are held no more.
    Failed,
    Refused(Reason),
}

impl Reason {
    /// The number by which the reason is told: its place in the order in which reasons are looked for.
    pub fn number(self) -> u8
        ensures { result ≡ reason_number self }
    {
        match self {
            Reason::NotJoined => 1,
            Reason::AlreadyJoined => 2,
            Reason::LateBits => 3,
            Reason::WrongCount => 4,
            Reason::NoSuchPiece => 5,
            Reason::NoSuchBlock => 6,
            Reason::WrongLength => 7,
            Reason::NotWaiting => 8,
            Reason::Stale => 9,
            Reason::NotAsked => 10,
            Reason::WrongDepth => 11,
            Reason::WrongLevel => 12,
        }
    }
}

impl Call {
    /// The call without its bytes and its bitfield.
    pub fn mark(&self) -> CallMark
        ensures { result ≡ call_mark (action_of self.now) }
    {
        match self {
            Call::Join => CallMark::Join,
            Call::Bits(_) => CallMark::Bits,
            Call::Have(piece) => CallMark::Have(*piece),
            Call::Choke => CallMark::Choke,
            Call::Unchoke => CallMark::Unchoke,
            Call::Next(word) => CallMark::Next(*word),
            Call::Arrived {
                piece,
                begin,
                bytes,
            } => CallMark::Arrived {
                piece: *piece,
                begin: *begin,
                len: bytes.len(),
            },
            Call::Settle(verdict) => CallMark::Settle(verdict.piece()),
            Call::Leave => CallMark::Leave,
            Call::Want(_) => CallMark::Want,
            Call::Haves(_) => CallMark::Haves,
            Call::Depth(depth) => CallMark::Depth(*depth),
            Call::Release { piece, begin } => CallMark::Release {
                piece: *piece,
                begin: *begin,
            },
            Call::Level { piece, level } => CallMark::Level {
                piece: *piece,
                level: *level,
            },
            Call::Levels(_) => CallMark::Levels,
            Call::InOrder(rising) => CallMark::InOrder(*rising),
            Call::Reach(level) => CallMark::Reach(*level),
            Call::InOrderFrom(level) => CallMark::InOrderFrom(*level),
            Call::Lack(piece) => CallMark::Lack(*piece),
            Call::Late { piece, begin } => CallMark::Late {
                piece: *piece,
                begin: *begin,
            },
            Call::Alone(alone) => CallMark::Alone(*alone),
        }
    }
}

impl Reply {
    ghost use Rattle.bt_history.specs.Epochs.{is_request};
    ghost use Rattle.bt_history.specs.History.{counts, stores};

    /// Whether the call was refused, and so changed nothing but the journal.
    pub fn is_refusal(self) -> bool
        ensures { result ≡ not (counts self) }
    {
        matches!(self, Reply::Refused(_))
    }

    /// Whether a block is to be asked for.
    pub fn is_request(self) -> bool
        ensures { result ≡ is_request self }
    {
        matches!(self, Reply::Request(_) | Reply::InFlight(_))
    }

    /// Whether the block that arrived was stored.
    pub fn is_stored(self) -> bool
        ensures { result ≡ stores self }
    {
        matches!(self, Reply::Stored | Reply::Completed)
    }
}

/// One call with its reply, as the journal keeps it.
#[derive(Drop)]
pub struct Entry {
    pub worker: u32,
    pub call: Call,
    pub reply: Reply,
}
