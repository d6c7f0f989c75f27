//! The row of a peer, beside the pieces that it shows.

ghost use Rattle.std.specs.Prelude.{◌≡◌, ◌<◌, ◌≤◌, ◌+◌, ◌==◌, ◌&&◌, ◌||◌, ◌∷◌, ◌++◌, [], true, false, not, length, nat_lt, vec_capacity};
ghost use Rattle.std.specs.Prelude.{IfOk, None, Some, if◌then◌else◌};
ghost use Rattle.bt_meta.specs.declared.block.Block.{Block};
ghost use Rattle.std.specs.List.{filter, list_any};
ghost use Rattle.bt_history.specs.History.{same_begin};
ghost use Rattle.bt_history.specs.Peers.{has_place};
ghost use Rattle.bt_tables.specs.declared.peer.Dealing.TheVariants.{Heard};
ghost use Rattle.bt_tables.specs.Showing.{Dealings, dealings, noted};
ghost use Rattle.bt_tables.specs.Tables.{fresh_peer};

use crate::line::Line;
use bt_history::MOST_LEVEL;
use bt_meta::Block;
use std::alloc::{AllocError, Global};
use std::marker::Model;

/// What comes to pass with a peer, and changes nothing that it shows.
#[derive(Clone, Copy)]
pub enum Dealing {
    /// It told something, so that a bitfield of it would come too late.
    Heard,
    /// It chokes, which frees what was asked of it.
    Choke,
    /// It lets itself be asked.
    Unchoke,
    /// From now on so many blocks may be asked of it at a time.
    Depth(u32),
    /// From now on blocks of this level and of lower ones alone are requested of it.
    Reach(u8),
    /// The cancel of the block that begins there is told.
    Cancelled(Block),
}

/// What is kept of a peer: the newest that it told of itself, and two lines of blocks. The pieces that it shows stand apart (`Shows`).
///
/// `asked` has the blocks asked of the peer, the oldest request first, since that is the order in which they will come, and knows which of
/// them are late. `due` has those whose cancel is due at it, the one that came due first in front, since that one is sent first. A block
/// that another peer brings moves from the one to the other, so together they never hold more than the greatest depth that held. In neither
/// is a block that the peer itself brought, that it was never asked for, or that a choke, a departure or a release freed. The rows stand by
/// the worker's number, also those of peers that never joined.
///
/// Room for two lines of the greatest depth that can hold is taken with the row, 25 bytes for each block of it, so that no call takes
/// memory. It stands apart from the row.
pub struct Peer {
    joined: bool,
    late: bool,
    told: Option<u32>,
    reach: u8,
    alone: bool,
    unchoked: bool,
    asked: Line,
    due: Vec<Block>,
}

/// The end of a row is one call for whoever owns one.
impl Drop for Peer {
    fn drop(self) {
        let Peer {
            joined: _,
            late: _,
            told: _,
            reach: _,
            alone: _,
            unchoked: _,
            asked: _asked,
            due: _due,
        } = self;
    }
}

impl Model for Peer {
    ghost use Rattle.std.specs.Prelude.{◌≤◌, vec_capacity};
    ghost use Rattle.bt_tables.specs.Showing.{Dealings};

    ghost Value = { Dealings };

    ghost view = { λ p. record {
      room = p.asked.room;
      joined = p.joined;
      late = p.late;
      told = p.told;
      reach = p.reach;
      alone = p.alone;
      is_open = p.unchoked;
      asked = p.asked.asked;
      overdue = p.asked.overdue;
      due = p.due.items;
    } };

    ghost invariant = { λ p. p.asked.room ≤ vec_capacity p.due };
}

impl Peer {
    /// A peer that told nothing yet, with room for lines of so many blocks.
    pub fn new(alloc: Global, room: u32) -> Result<Peer, AllocError>
        ensures { IfOk result (λ peer. peer ≡ dealings (fresh_peer room 0)) }
    {
        Ok(Peer {
            joined: false,
            late: false,
            told: None,
            reach: MOST_LEVEL,
            alone: false,
            unchoked: false,
            asked: Line::new(alloc, room)?,
            due: Vec::with_capacity(alloc, room as usize)?,
        })
    }

    pub fn is_joined(&self) -> bool
        ensures { result ≡ self.now.joined }
    {
        self.joined
    }

    /// Whether a bitfield of the peer would come too late.
    pub fn is_late(&self) -> bool
        ensures { result ≡ self.now.late }
    {
        self.late
    }

    /// The depth that was told of the peer, if one was.
    pub fn told(&self) -> Option<u32>
        ensures { result ≡ self.now.told }
    {
        self.told
    }

    /// The highest level of which blocks are requested of the peer.
    #[inline(always)]
    pub fn reach(&self) -> u8
        ensures { result ≡ self.now.reach }
    {
        self.reach
    }

    /// Whether the peer works alone.
    #[inline(always)]
    pub fn is_alone(&self) -> bool
        ensures { result ≡ self.now.alone }
    {
        self.alone
    }

    pub fn is_open(&self) -> bool
        ensures { result ≡ self.now.is_open }
    {
        self.unchoked
    }

    pub fn asked(&self) -> &[Block]
        ensures { result.now ≡ self.now.asked }
    {
        self.asked.blocks()
    }

    /// The line of what is asked of the peer, which tells what of it is late.
    pub fn line(&self) -> &Line
        ensures asked { result.now.asked ≡ self.now.asked }
        ensures overdue { result.now.overdue ≡ self.now.overdue }
    {
        &self.asked
    }

    pub fn due(&self) -> &[Block]
        ensures { result.now ≡ self.now.due }
    {
        self.due.as_slice()
    }

    /// Whether the block that begins there is asked of the peer.
    pub fn asks(&self, piece: u32, begin: u32) -> bool
        ensures { result ≡ list_any (λ b. (piece == b.piece) && (begin == b.begin)) self.now.asked }
    {
        self.asked.has(piece, begin)
    }

    /// Whether the block that begins there is asked of the peer, and the peer isn't late with it.
    #[inline(always)]
    pub fn expects(&self, piece: u32, begin: u32) -> bool
        ensures { result ≡ (list_any (λ b. (piece == b.piece) && (begin == b.begin)) self.now.asked
            && not (list_any (λ b. (piece == b.piece) && (begin == b.begin)) self.now.overdue)) }
    {
        self.asked.expects(piece, begin)
    }

    /// The same, where mostly it is one of the newest requests.
    pub fn expects_newly(&self, piece: u32, begin: u32) -> bool
        ensures { result ≡ (list_any (λ b. (piece == b.piece) && (begin == b.begin)) self.now.asked
            && not (list_any (λ b. (piece == b.piece) && (begin == b.begin)) self.now.overdue)) }
    {
        self.asked.expects_newly(piece, begin)
    }

    /// Whether the peer is late with the block that begins there.
    pub fn is_late_with(&self, piece: u32, begin: u32) -> bool
        ensures { result ≡ list_any (λ b. (piece == b.piece) && (begin == b.begin)) self.now.overdue }
    {
        self.asked.is_late(piece, begin)
    }

    /// Whether the peer is late with a block.
    #[inline(always)]
    pub fn has_late(&self) -> bool
        ensures { result ≡ nat_lt 0 (length self.now.overdue) }
    {
        self.asked.has_late()
    }

    /// The peer joins: what an earlier one told or was asked is gone.
    pub fn join(&mut self)
        ensures { self.new ≡ record self.old { joined = true; late = false; told = None; reach = MOST_LEVEL; alone = false; is_open = false; asked = []; overdue = []; due = [] } }
    {
        self.joined = true;
        self.late = false;
        self.told = None;
        self.reach = MOST_LEVEL;
        self.alone = false;
        self.reset();
    }

    /// The peer leaves.
    pub fn leave(&mut self)
        ensures { self.new ≡ record self.old { joined = false; is_open = false; asked = []; overdue = []; due = [] } }
    {
        self.joined = false;
        self.reset();
    }

    /// Takes back all that was asked of the peer, and with it the cancels that it is owed.
    #[inline(never)] // seldom
    fn reset(&mut self)
        ensures { self.new ≡ record self.old { is_open = false; asked = []; overdue = []; due = [] } }
    {
        self.unchoked = false;
        self.asked.clear();
        self.due.clear();
    }

    /// The peer told something.
    #[inline(always)]
    pub fn hear(&mut self)
        ensures { self.new ≡ noted Heard self.old }
    {
        self.late = true;
    }

    /// Notes what came to pass with the peer. A caller says which dealing it is, and so has one line of this.
    #[inline(always)]
    pub fn note(&mut self, dealing: Dealing)
        ensures { self.new ≡ noted dealing self.old }
    {
        match dealing {
            Dealing::Heard => self.hear(),
            Dealing::Choke => {
                self.late = true;
                self.reset();
            }
            Dealing::Unchoke => {
                self.late = true;
                self.unchoked = true;
            }
            Dealing::Depth(depth) => self.told = Some(depth),
            Dealing::Reach(level) => self.reach = level,
            Dealing::Cancelled(block) => self.cancel(block),
        }
    }

    /// From now on the peer works alone, or like the others again.
    pub fn set_alone(&mut self, alone: bool)
        ensures { self.new ≡ record self.old { alone = alone } }
    {
        self.alone = alone;
    }

    /// The peer has the piece no more: none of its blocks is asked of the peer.
    pub fn lack(&mut self, piece: u32)
        ensures { self.new ≡ record self.old {
          late = true;
          asked = filter (λ b. not (piece == b.piece)) self.old.asked;
          overdue = filter (λ b. not (piece == b.piece)) self.old.overdue;
        } }
    {
        self.late = true;
        self.asked.remove_piece(piece);
    }

    /// The block is asked of the peer now.
    pub fn ask(&mut self, block: Block)
        requires room { length self.old.asked < self.old.room }
        requires new { has_place block self.old.asked ≡ false }
        ensures { self.new ≡ record self.old { asked = self.old.asked ++ block ∷ [] } }
    {
        self.asked.push(block);
    }

    /// The peer is late with the block that begins there, if it is asked for it.
    pub fn delay(&mut self, piece: u32, begin: u32)
        ensures { self.new ≡ record self.old {
          overdue = filter (λ b. ((piece == b.piece) && (begin == b.begin)) || has_place b self.old.overdue) self.old.asked;
        } }
    {
        self.asked.delay(piece, begin);
    }

    /// The cancel of the block that begins there is told.
    #[inline(never)] // seldom
    fn cancel(&mut self, block: Block)
        ensures { self.new ≡ record self.old { due = filter (λ b. not (same_begin block b)) self.old.due } }
    {
        self.due
            .retain(|b| !(block.piece == b.piece && block.begin == b.begin));
    }

    /// The block that begins there was stored, brought by this peer or by another, or was released: it is asked of the peer no more, and
    /// where another brought it, a cancel comes due.
    #[inline(always)]
    pub fn forget(&mut self, piece: u32, begin: u32, own: bool)
        requires { length self.old.asked + length self.old.due ≤ self.old.room }
        ensures { self.new ≡ record self.old {
          asked = filter (λ b. not ((piece == b.piece) && (begin == b.begin))) self.old.asked;
          overdue = filter (λ b. not ((piece == b.piece) && (begin == b.begin))) self.old.overdue;
          due = self.old.due ++ (if own then [] else filter (λ b. (piece == b.piece) && (begin == b.begin)) self.old.asked);
        } }
    {
        match self.asked.take(piece, begin) {
            Some(block) if !own => self.due.push_reserved(block),
            _ => {}
        }
    }
}
