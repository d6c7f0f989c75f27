//! The rows of all peers.

ghost use Rattle.std.specs.Prelude.{◌≡◌, ◌≢◌, ◌<◌, ◌≤◌, ◌+◌, ◌==◌, [], ℕ, false, true, length, slice_index_or, IfOk, EachIndex};
ghost use Rattle.bt_meta.specs.WireBits.{FindsFirst};
ghost use Rattle.bt_history.specs.Counting.{any_below, count_below, table};
ghost use Rattle.bt_history.specs.Peers.{has_place};
ghost use Rattle.bt_tables.specs.declared.peer.Dealing.TheVariants.{Heard};
ghost use Rattle.bt_tables.specs.Showing.{AreSet, dealings};
ghost use Rattle.bt_tables.specs.Tables.{alone_row, bits_row, delay_row, expects_at, is_late_at, noted_row, edit, fresh_peer, have_row, join_row, lack_row, leave_row};
ghost use Rattle.bt_tables.specs.Tables.{HasShortLines, peer_row, request_row, without_block};

use crate::peer::{Dealing, Peer};
use crate::shows::Shows;
use bt_meta::{Bitfield, Block};
use std::alloc::{AllocError, Global};
use std::marker::Model;

/// A row for each worker's peer, by the worker's number, and the pieces that each shows, which stand in a table of their own. Contracts
/// see the rows with these pieces in them. Once a peer was told to be late, a stored block may be asked of peers that its cell doesn't count.
/// Whether one was ever told to work alone is kept too, so that nobody looks for one before.
pub struct Peers {
    rows: Vec<Peer>,
    shows: Shows,
    delayed: bool,
    apart: bool,
}

/// The end of all rows is one call for whoever owns them.
impl Drop for Peers {
    fn drop(self) {
        let Peers {
            rows: _rows,
            shows: _shows,
            delayed: _,
            apart: _,
        } = self;
    }
}

impl Model for Peers {
    ghost use Rattle.std.specs.Prelude.{List};
    ghost use Rattle.bt_tables.specs.Showing.{ArePeers, showing_rows};
    ghost use Rattle.bt_tables.specs.Tables.{PeerState};

    ghost Value = { List PeerState };

    ghost view = { λ p. showing_rows p.rows.items p.shows };

    ghost invariant = { λ p. ArePeers p.rows.items p.shows p.delayed p.apart };
}

impl Peers {
    /// The rows of so many peers that told nothing, of a torrent of so many pieces, each with room for lines of so many blocks.
    pub fn new(alloc: Global, workers: u32, pieces: u32, room: u32) -> Result<Peers, AllocError>
        ensures { IfOk result (λ peers. peers ≡ table workers (λ worker. fresh_peer room pieces)) }
    {
        Ok(Peers {
            rows: new_rows(alloc, workers, room)?,
            shows: Shows::new(alloc, workers, pieces)?,
            delayed: false,
            apart: false,
        })
    }

    pub fn len(&self) -> u32
        ensures { result ≡ length self.now }
    {
        self.shows.len()
    }

    /// The row of the worker's peer, beside the pieces that it shows.
    pub fn row(&self, worker: u32) -> &Peer
        requires { worker < length self.now }
        ensures { result.now ≡ dealings (peer_row self.now worker) }
    {
        &self.rows[worker as usize]
    }

    /// The number of pieces that the torrent has.
    pub fn pieces(&self) -> u32
        ensures { (worker : ℕ) → worker < length self.now → length (peer_row self.now worker).shows ≡ result }
    {
        self.shows.pieces()
    }

    /// Whether the worker's peer shows the piece.
    #[inline]
    pub fn shows(&self, worker: u32, piece: u32) -> bool
        requires worker { worker < length self.now }
        requires piece { piece < length (peer_row self.now worker).shows }
        ensures { result ≡ slice_index_or (peer_row self.now worker).shows piece false }
    {
        self.shows.has(worker, piece)
    }

    /// The first piece from this one on that the worker's peer shows.
    #[inline]
    pub fn first_shown(&self, worker: u32, piece: u32) -> Option<u32>
        requires { worker < length self.now }
        ensures { FindsFirst (λ p. slice_index_or (peer_row self.now worker).shows p false) piece result }
    {
        self.shows.first_from(worker, piece)
    }

    /// Whether the worker's peer shows each piece.
    pub fn shows_all(&self, worker: u32) -> bool
        requires { worker < length self.now }
        ensures { result ≡ true → AreSet (peer_row self.now worker).shows }
    {
        self.shows.has_all(worker)
    }

    /// The peer joins: what an earlier one told or was asked is gone.
    pub fn join(&mut self, worker: u32)
        requires { worker < length self.old }
        ensures { self.new ≡ edit self.old worker join_row }
    {
        self.rows[worker as usize].join();
        self.shows.clear(worker);
    }

    /// The peer leaves.
    pub fn leave(&mut self, worker: u32)
        requires { worker < length self.old }
        ensures { self.new ≡ edit self.old worker leave_row }
    {
        self.rows[worker as usize].leave();
        self.shows.clear(worker); // what is gone shows nothing
    }

    /// The worker's peer told something.
    #[inline(always)]
    pub fn hear(&mut self, worker: u32)
        requires { worker < length self.old }
        ensures { self.new ≡ edit self.old worker (noted_row Heard) }
    {
        self.rows[worker as usize].hear();
    }

    /// Notes what came to pass with the worker's peer.
    #[inline]
    pub fn note(&mut self, worker: u32, dealing: Dealing)
        requires { worker < length self.old }
        ensures { self.new ≡ edit self.old worker (noted_row dealing) }
    {
        self.rows[worker as usize].note(dealing);
    }

    /// The peer told its bitfield.
    pub fn put_bits(&mut self, worker: u32, flags: &Bitfield)
        requires worker { worker < length self.old }
        requires flags { length flags.now ≡ length (peer_row self.old worker).shows }
        ensures { self.new ≡ edit self.old worker (bits_row flags.now) }
    {
        self.rows[worker as usize].note(Dealing::Heard);
        self.shows.put(worker, flags);
    }

    /// The peer told of one more piece.
    pub fn put_have(&mut self, worker: u32, piece: u32)
        requires worker { worker < length self.old }
        requires piece { piece < length (peer_row self.old worker).shows }
        ensures { self.new ≡ edit self.old worker (have_row piece) }
    {
        self.rows[worker as usize].note(Dealing::Heard);
        self.shows.set(worker, piece);
    }

    /// The peer has the piece no more.
    pub fn lack(&mut self, worker: u32, piece: u32)
        requires worker { worker < length self.old }
        requires piece { piece < length (peer_row self.old worker).shows }
        ensures { self.new ≡ edit self.old worker (lack_row piece) }
    {
        self.rows[worker as usize].lack(piece);
        self.shows.unset(worker, piece);
    }

    /// The block is asked of the peer now.
    pub fn ask(&mut self, worker: u32, block: Block)
        requires worker { worker < length self.old }
        requires room { length (peer_row self.old worker).asked < (peer_row self.old worker).room }
        requires new { has_place block (peer_row self.old worker).asked ≡ false }
        ensures { self.new ≡ edit self.old worker (request_row block) }
    {
        self.rows[worker as usize].ask(block);
    }

    /// The peer is late with the block that begins there, if it is asked for it.
    pub fn delay(&mut self, worker: u32, piece: u32, begin: u32)
        requires { worker < length self.old }
        ensures { self.new ≡ edit self.old worker (delay_row piece begin) }
    {
        self.delayed = true;
        self.rows[worker as usize].delay(piece, begin);
    }

    /// From now on the peer works alone, or like the others again.
    pub fn set_alone(&mut self, worker: u32, alone: bool)
        requires { worker < length self.old }
        ensures { self.new ≡ edit self.old worker (alone_row alone) }
    {
        self.apart = true;
        self.rows[worker as usize].set_alone(alone);
    }

    /// Whether a peer may work alone: one was told to.
    #[inline(always)]
    pub fn may_have_alone(&self) -> bool
        ensures { result ≡ false → (worker : ℕ) → worker < length self.now → (peer_row self.now worker).alone ≡ false }
    {
        self.apart
    }

    /// Whether a peer is late with the block that begins there.
    #[inline(always)]
    pub fn is_late_at_some(&self, piece: u32, begin: u32) -> bool
        ensures { result ≡ any_below (length self.now) (λ q. is_late_at piece begin (peer_row self.now q)) }
    {
        self.delayed && self.finds_late(piece, begin)
    }

    /// Whether one of the rows is of a peer that is late with the block that begins there.
    fn finds_late(&self, piece: u32, begin: u32) -> bool
        ensures { result ≡ any_below (length self.now) (λ q. is_late_at piece begin (peer_row self.now q)) }
    {
        for index in 0..self.len() {
            if self.row(index).is_late_with(piece, begin) {
                return true;
            }
        }
        false
    }

    /// The block that begins there was stored, brought by this peer or by another; with `own` it is as well one that is given up.
    #[inline(always)]
    pub fn forget_at(&mut self, worker: u32, piece: u32, begin: u32, own: bool)
        requires worker { worker < length self.old }
        requires room { HasShortLines (peer_row self.old worker) }
        ensures { self.new ≡ edit self.old worker (without_block piece begin own) }
    {
        self.rows[worker as usize].forget(piece, begin, own);
    }

    /// The block that begins there was stored, brought by the worker's own peer, where so many peers are asked for it and aren't late with
    /// it. Where no other peer is, the own row alone is told, and those of peers that are late with something.
    #[inline(always)]
    pub fn forget(&mut self, worker: u32, piece: u32, begin: u32, askers: u32)
        requires worker { worker < length self.old }
        requires askers { askers ≡ count_below (length self.old) (λ q. expects_at piece begin (peer_row self.old q)) }
        requires room { EachIndex self.old (λ q. HasShortLines (peer_row self.old q)) }
        ensures { self.new ≡ table (length self.old) (λ q. without_block piece begin (worker == q) (peer_row self.old q)) }
    {
        if askers > u32::from(self.row(worker).expects(piece, begin)) {
            self.forget_everywhere(worker, piece, begin);
        } else if self.delayed {
            self.forget_late(worker, piece, begin);
        } else {
            self.forget_at(worker, piece, begin, true);
        }
    }

    /// Tells each peer's row that the block that begins there was stored, brought by the worker's own peer.
    fn forget_everywhere(&mut self, worker: u32, piece: u32, begin: u32)
        requires { EachIndex self.old (λ q. HasShortLines (peer_row self.old q)) }
        ensures { self.new ≡ table (length self.old) (λ q. without_block piece begin (worker == q) (peer_row self.old q)) }
    {
        for index in 0..self.len() {
            self.forget_at(index, piece, begin, worker == index);
        }
    }

    /// Tells the own row and those of peers that are late with something that the block was stored. No other peer is asked for it.
    fn forget_late(&mut self, worker: u32, piece: u32, begin: u32)
        requires room { EachIndex self.old (λ q. HasShortLines (peer_row self.old q)) }
        requires others { (q : ℕ) → q < length self.old → q ≢ worker → (peer_row self.old q).overdue ≡ []
            → without_block piece begin false (peer_row self.old q) ≡ peer_row self.old q }
        ensures { self.new ≡ table (length self.old) (λ q. without_block piece begin (worker == q) (peer_row self.old q)) }
    {
        for index in 0..self.len() {
            self.forget_late_at(index, piece, begin, worker == index);
        }
    }

    /// The same of one row, where it is the own one, or its peer is late with something.
    fn forget_late_at(&mut self, worker: u32, piece: u32, begin: u32, own: bool)
        requires worker { worker < length self.old }
        requires room { HasShortLines (peer_row self.old worker) }
        requires other { own ≡ false → (peer_row self.old worker).overdue ≡ []
            → without_block piece begin false (peer_row self.old worker) ≡ peer_row self.old worker }
        ensures { self.new ≡ edit self.old worker (without_block piece begin own) }
    {
        if own || self.row(worker).has_late() {
            self.forget_at(worker, piece, begin, own);
        }
    }
}

/// The rows of so many peers that told nothing.
fn new_rows(alloc: Global, workers: u32, room: u32) -> Result<Vec<Peer>, AllocError>
    ensures { IfOk result (λ rows. rows.items ≡ table workers (λ worker. dealings (fresh_peer room 0))) }
{
    let mut rows = Vec::new(alloc);
    for _worker in 0..workers {
        rows.push(Peer::new(alloc, room)?)?;
    }
    Ok(rows)
}
