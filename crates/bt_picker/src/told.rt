//! What a worker tells a picker, with what it carries lent.

ghost use Rattle.std.specs.Prelude.{◌≡◌};
ghost use Rattle.bt_history.specs.Entries.{action_of};
ghost use Rattle.bt_history.specs.Epochs.{unsettles};
ghost use Rattle.bt_picker.specs.Told.{action_lent, action_told};

use bt_check::Verdict;
use bt_history::Call;
use bt_meta::Bitfield;

/// What a worker tells of its peer, or asks about it. A bitfield and a block's bytes are lent, so nothing is copied.
#[derive(Clone, Copy, Drop)]
pub enum Told<'a> {
    /// The handshakes were exchanged.
    Join,
    /// The peer sent this bitfield.
    Bits(&'a Bitfield),
    /// The peer has this piece.
    Have(u32),
    /// The peer chokes us.
    Choke,
    /// The peer lets itself be asked.
    Unchoke,
    /// What to say to the peer next? The word, a random number, settles what the rules leave open.
    Next(u64),
    /// A block came, which begins so many bytes into the piece.
    Arrived {
        piece: u32,
        begin: u32,
        bytes: &'a [u8],
    },
    /// The peer is gone.
    Leave,
    /// Just these pieces are to be downloaded from now on.
    Want(&'a Bitfield),
    /// The peer has these pieces too.
    Haves(&'a Bitfield),
    /// From now on so many blocks may be asked of the peer at a time.
    Depth(u32),
    /// The block that begins so many bytes into the piece is asked of the peer no more.
    Release {
        piece: u32,
        begin: u32,
    },
    /// The piece has this level from now on, 0 to 7.
    Level {
        piece: u32,
        level: u8,
    },
    /// Each piece has the level of its place in the list from now on.
    Levels(&'a [u8]),
    /// From now on pieces of one level come in rising order, or the rarest first.
    InOrder(bool),
    /// From now on blocks of this level and of lower ones alone, 0 to 7, are requested of the peer.
    Reach(u8),
    /// From now on pieces of this level and of higher ones, 0 to 8, come in rising order, and the others the rarest first.
    InOrderFrom(u8),
    /// The peer has this piece no more.
    Lack(u32),
    /// The request of the block that begins so many bytes into the piece takes too long.
    Late {
        piece: u32,
        begin: u32,
    },
    /// From now on the peer works alone, or like the others again.
    Alone(bool),
    /// The piece is gone from where the caller keeps it: it isn't complete any more, and all of its blocks are lacking, as after a failed check.
    /// Any worker may tell it. Only a picker or a keeper is told this: of a desk's pieces the journal has the bytes.
    Lose(u32),
    /// The block that begins so many bytes into the piece, which isn't complete, is known to be bad: it is held no more. Any worker may tell
    /// it, of a picker or a keeper.
    Discard {
        piece: u32,
        begin: u32,
    },
    /// The block that begins so many bytes into the piece was requested of the peer before, and is in flight. From now on it counts as if the
    /// picker had asked for it: for the depth, for the other peers, and for what comes due. A picker or a keeper is told this, after a start
    /// with connections that are there already, or of what another part of the client has asked for.
    Requested {
        piece: u32,
        begin: u32,
    },
}

impl<'a> Told<'a> {
    /// Whether the call frees blocks or pieces, or changes what is wanted.
    #[inline(always)]
    pub fn unsettles(&self) -> bool
        ensures { result ≡ unsettles (action_told self.now) }
    {
        match self {
            Told::Join
            | Told::Choke
            | Told::Leave
            | Told::Want(_)
            | Told::Release { .. }
            | Told::Level { .. }
            | Told::Levels(_)
            | Told::Lack(_)
            | Told::Late { .. }
            | Told::Alone(_)
            | Told::Lose(_)
            | Told::Discard { .. } => true,
            _ => false,
        }
    }
}

/// A call with what it carries lent: the check of a piece, or what is told of a peer.
#[derive(Clone, Copy, Drop)]
pub enum Lent<'a> {
    Told(Told<'a>),
    Check(&'a Verdict),
}

/// The call, lent.
pub fn lend(call: &Call) -> Lent<'_>
    ensures { action_lent result ≡ action_of call.now }
{
    let told = match call {
        Call::Settle(verdict) => return Lent::Check(verdict),
        Call::Join => Told::Join,
        Call::Bits(flags) => Told::Bits(flags),
        Call::Have(piece) => Told::Have(*piece),
        Call::Choke => Told::Choke,
        Call::Unchoke => Told::Unchoke,
        Call::Next(word) => Told::Next(*word),
        Call::Arrived {
            piece,
            begin,
            bytes,
        } => Told::Arrived {
            piece: *piece,
            begin: *begin,
            bytes: bytes.as_slice(),
        },
        Call::Leave => Told::Leave,
        Call::Want(flags) => Told::Want(flags),
        Call::Haves(flags) => Told::Haves(flags),
        Call::Depth(depth) => Told::Depth(*depth),
        Call::Release { piece, begin } => Told::Release {
            piece: *piece,
            begin: *begin,
        },
        Call::Level { piece, level } => Told::Level {
            piece: *piece,
            level: *level,
        },
        Call::Levels(levels) => Told::Levels(levels.as_slice()),
        Call::InOrder(rising) => Told::InOrder(*rising),
        Call::Reach(level) => Told::Reach(*level),
        Call::InOrderFrom(level) => Told::InOrderFrom(*level),
        Call::Lack(piece) => Told::Lack(*piece),
        Call::Late { piece, begin } => Told::Late {
            piece: *piece,
            begin: *begin,
        },
        Call::Alone(alone) => Told::Alone(*alone),
    };
    Lent::Told(told)
}
