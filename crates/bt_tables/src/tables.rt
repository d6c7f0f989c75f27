//! All rows, and what each call makes of them.

ghost use Rattle.std.specs.Prelude.{◌≡◌, ◌<◌, ◌≤◌, ◌+◌, ◌^◌, ◌*◌, ◌/◌, [], ◌∷◌, ℕ, List, false, length, map, slice_index_or, true, IfOk, IfSome, Some, IsTrue};
ghost use Rattle.std.specs.Prelude.{EachIndex, unwrap_or};
ghost use Rattle.bt_meta.specs.Layout.{IsLayout, block_count, piece_count, block_size};
ghost use Rattle.std.specs.Option.{option_copied};
ghost use Rattle.std.specs.List.{count_by, sum_by};
ghost use Rattle.bt_tables.specs.Orders.{at, ListsGroup, NoneBetween, SomeBetween};
ghost use Rattle.bt_tables.specs.Risings.{IsRising};
ghost use Rattle.bt_tables.specs.declared.peer.Dealing.TheVariants.{Heard};
ghost use Rattle.bt_tables.specs.Showing.{dealings};
ghost use Rattle.bt_tables.specs.Standings.{ListsOpen, TellsRest, apart, group_number, group_of_row, standing_of};
ghost use Rattle.bt_history.specs.Setting.{deepest_line, setting_of};
ghost use Rattle.bt_history.specs.History.{requested_by, stores};
ghost use Rattle.bt_meta.specs.declared.block.Block.{Block};
ghost use Rattle.bt_history.specs.Counting.{any_below, table};
ghost use Rattle.bt_tables.specs.Floors.{AsksRarest, FewOpen, IsFloor, NoneFresh, RequestTells, TellsFloor, is_fresh};
ghost use Rattle.bt_tables.specs.Tables.{AreAskers, AreCounted, HasBlock, HasRoomFor, HasShortLines, bits_row, leave_row, TablesState, after_arrival};
ghost use Rattle.bt_tables.specs.Tables.{after_check, after_next, announced, given_up, edit, fresh_peer, fresh_piece, join_row};
ghost use Rattle.bt_tables.specs.Tables.{alone_row, choke_row, delayed, is_late_at, unexpected, lacked, noted_row, joint, levelled, ordered, peer_row, piece_row, released, relevelled, reshown};
ghost use Rattle.bt_tables.specs.Tables.{HasRoomOf, changed_row, discarded, lost, wanted_level, with_block, with_peer, with_request};
ghost use Rattle.bt_history.specs.declared.rules.TheConstants.{MOST_LEVEL};
ghost use Rattle.std.specs.Prelude.{nat_le};

use crate::cell::HELD;
use crate::floors::Floors;
use crate::haves::announce_all;
use crate::peer::{Dealing, Peer};
use crate::peers::Peers;
use crate::piece::{Change, GROUPS, Piece, Stage, rank};
use crate::pieces::Pieces;
use crate::sweep::{lower, lower_all, lower_piece, recount, relevel, rewant};
use bt_history::{MOST_LEVEL, Reply, Rules};
use bt_meta::{BLOCK_SIZE, Bitfield, Block, Torrent};
use std::alloc::{AllocError, Global};
use std::marker::Model;
use std::sync::Arc;

/// A row for each worker's peer, by the worker's number, and the rows of all pieces: what the picker answers from, so that no history is
/// read, and none need be kept. The picker knows which history they tell of; no row does.
pub struct Tables {
    torrent: Arc<Torrent>,
    workers: u32,
    rules: Rules,
    order_from: u8,
    peers: Peers,
    pieces: Pieces,
    floors: Floors,
}

/// The end of all tables is one call for whoever owns them.
impl Drop for Tables {
    fn drop(self) {
        let Tables {
            torrent: _torrent,
            workers: _,
            rules: _,
            order_from: _,
            peers: _peers,
            pieces: _pieces,
            floors: _floors,
        } = self;
    }
}

impl Model for Tables {
    ghost use Rattle.bt_tables.specs.Floors.{AreFloors};
    ghost use Rattle.bt_history.specs.Setting.{setting_of};
    ghost use Rattle.bt_tables.specs.Tables.{TablesState};

    ghost Value = { TablesState };

    ghost view = { λ t. record {
      setting = setting_of t.torrent.value.layout t.workers t.rules;
      order_from = t.order_from;
      peers = t.peers;
      pieces = t.pieces;
    } };

    ghost invariant = { λ t. AreFloors t.floors t.peers t.pieces };
}

impl Tables {
    /// Tables of so many peers that told nothing, and of the torrent's pieces, none of them begun.
    pub fn new(
        alloc: Global,
        torrent: Arc<Torrent>,
        workers: u32,
        rules: Rules,
    ) -> Result<Tables, AllocError>
        ensures setting { IfOk result (λ t. t.setting ≡ setting_of torrent.value.layout workers rules) }
        ensures layout { IfOk result (λ t. IsLayout t.setting.torrent) }
        ensures order { IfOk result (λ t. t.order_from ≡ MOST_LEVEL + 1) }
        ensures peers { IfOk result (λ t. t.peers ≡ table workers
            (λ worker. fresh_peer (deepest_line (setting_of torrent.value.layout workers rules)) (piece_count torrent.value.layout))) }
        ensures pieces { IfOk result (λ t. t.pieces
            ≡ table (piece_count torrent.value.layout) (λ p. fresh_piece (block_count torrent.value.layout p))) }
    {
        Ok(Tables {
            peers: Peers::new(alloc, workers, torrent.piece_count(), rules.deepest_line())?,
            pieces: Pieces::new(alloc, &torrent)?,
            floors: Floors::new(alloc, workers)?,
            torrent,
            workers,
            rules,
            order_from: MOST_LEVEL + 1,
        })
    }

    pub fn workers(&self) -> u32
        ensures { result ≡ self.now.setting.workers }
    {
        self.workers
    }

    pub fn rules(&self) -> Rules
        ensures depth { result.depth ≡ self.now.setting.depth }
        ensures random { result.random ≡ self.now.setting.random }
        ensures askers { result.askers ≡ self.now.setting.askers }
        ensures deepest { result.deepest ≡ self.now.setting.deepest }
        ensures most_open { result.«open» ≡ self.now.setting.most_open }
        ensures rush { result.rush ≡ self.now.setting.rush }
        ensures shown { result.shown ≡ self.now.setting.shown }
    {
        self.rules
    }

    /// Pieces of this level and of higher ones come in rising order.
    #[inline(always)]
    pub fn order_from(&self) -> u8
        ensures { result ≡ self.now.order_from }
    {
        self.order_from
    }

    pub fn torrent(&self) -> &Torrent
        ensures { result.now.layout ≡ self.now.setting.torrent }
    {
        &self.torrent
    }

    /// The row of the worker's peer, beside the pieces that it shows.
    pub fn peer(&self, worker: u32) -> &Peer
        requires { worker < length self.now.peers }
        ensures { result.now ≡ dealings (peer_row self.now.peers worker) }
    {
        self.peers.row(worker)
    }

    /// Whether the worker's peer shows the piece.
    pub fn shows(&self, worker: u32, piece: u32) -> bool
        requires worker { worker < length self.now.peers }
        requires piece { piece < length (peer_row self.now.peers worker).shows }
        ensures { result ≡ slice_index_or (peer_row self.now.peers worker).shows piece false }
    {
        self.peers.shows(worker, piece)
    }

    /// Whether a peer may work alone: one was told to.
    #[inline(always)]
    pub fn may_have_alone(&self) -> bool
        ensures { result ≡ false → (worker : ℕ) → worker < length self.now.peers → (peer_row self.now.peers worker).alone ≡ false }
    {
        self.peers.may_have_alone()
    }

    /// Whether a peer is late with the block that begins there.
    #[inline(always)]
    pub fn is_late_at_some(&self, piece: u32, begin: u32) -> bool
        ensures { result ≡ any_below (length self.now.peers) (λ q. is_late_at piece begin (peer_row self.now.peers q)) }
    {
        self.peers.is_late_at_some(piece, begin)
    }

    /// The row of the piece.
    pub fn piece(&self, piece: u32) -> Piece<'_>
        requires { piece < length self.now.pieces }
        ensures { result ≡ apart (piece_row self.now.pieces piece) }
    {
        self.pieces.row(piece)
    }

    /// How many joined peers show the piece.
    pub fn availability(&self, piece: u32) -> u32
        requires { piece < length self.now.pieces }
        ensures { result ≡ (piece_row self.now.pieces piece).availability }
    {
        self.pieces.availability(piece)
    }

    /// The pieces of this level and this stage.
    #[inline(always)]
    pub fn group(&self, level: u8, stage: Stage) -> &[u32]
        ensures { ListsGroup (map group_of_row self.now.pieces) (group_number level stage) result.now }
    {
        self.pieces.group(level, stage)
    }

    /// Whether nothing is left to get of any piece.
    pub fn are_all_resting(&self) -> bool
        ensures { TellsRest self.now.pieces result }
    {
        self.pieces.are_all_resting()
    }

    /// Whether no piece is in the groups from `low` up to `high`.
    #[inline(always)]
    pub fn has_none(&self, low: u32, high: u32) -> bool
        requires low { low < high }
        requires high { high ≤ GROUPS }
        ensures none { result ≡ true → NoneBetween (map group_of_row self.now.pieces) low high }
        ensures some { result ≡ false → SomeBetween (map group_of_row self.now.pieces) low high }
    {
        self.pieces.has_none(low, high)
    }

    /// The begun pieces with an unasked block, the least first.
    pub fn open_pieces(&self) -> &[u32]
        ensures lists { ListsOpen (map group_of_row self.now.pieces) result.now }
        ensures rise { IsRising (length self.now.pieces) result.now }
    {
        self.pieces.open_pieces()
    }

    /// The group of the piece.
    pub fn group_of(&self, piece: u32) -> u32
        requires { piece < length self.now.pieces }
        ensures { result ≡ at (map group_of_row self.now.pieces) piece }
    {
        self.pieces.group_of(piece)
    }

    /// How many blocks are unasked.
    pub fn unasked(&self) -> u64
        ensures { result ≡ sum_by (λ row. (standing_of row).unasked) self.now.pieces }
    {
        self.pieces.unasked()
    }

    /// How many blocks aren't held.
    pub fn unheld(&self) -> u64
        ensures { result ≡ sum_by (λ row. (standing_of row).unheld) self.now.pieces }
    {
        self.pieces.unheld()
    }

    /// How many pieces are had.
    pub fn had_count(&self) -> u32
        ensures { result ≡ count_by (λ row. row.had) self.now.pieces }
    {
        self.pieces.had()
    }

    /// No piece before this one is wanted and unbegun.
    pub fn front(&self) -> u32
        ensures { NoneFresh result self.now.pieces }
    {
        self.pieces.front()
    }

    /// The worker's peer shows no unbegun wanted piece that ranks before this.
    pub fn floor(&self, worker: u32) -> u32
        requires { worker < length self.now.peers }
        ensures { IsFloor self.now.pieces (peer_row self.now.peers worker) result }
    {
        self.floors.of(worker)
    }

    /// The floor that a reply to Next tells, where the peer's reach is full: that of the piece that is asked for. Where nothing is to be asked,
    /// the peer shows no unbegun wanted piece.
    #[inline(always)]
    fn floor_told(&self, reply: Reply) -> Option<u32>
        ensures { IfSome result (λ n. TellsFloor self.now reply n) }
    {
        match reply {
            Reply::Request(block) if (block.piece as usize) < self.pieces.len() => {
                self.request_told(block.piece)
            }
            Reply::Idle | Reply::NothingLeft => Some(u32::MAX),
            _ => None,
        }
    }

    /// The floor that a request for a block of the piece tells. On a level that comes in order nothing of a higher one is to be asked. On
    /// another, once enough pieces are had, a piece that begins, or goes on though few are open, is a rarest one of the highest level that has
    /// one.
    fn request_told(&self, piece: u32) -> Option<u32>
        requires { piece < length self.now.pieces }
        ensures { IfSome result (RequestTells self.now piece) }
    {
        let level = self.pieces.row(piece).level();
        if self.order_from <= level {
            Some(rank(level, 0))
        } else if self.asks_rarest(piece) {
            Some(self.pieces.rank(piece))
        } else {
            None
        }
    }

    /// Notes that the worker's peer shows no unbegun wanted piece, where the reply to Have is that nothing interests.
    pub fn note_interest(&mut self, worker: u32, reply: Reply)
        requires worker { worker < length self.old.peers }
        requires none { reply ≡ Reply.Noted false → (n : ℕ) → IsFloor self.old.pieces (peer_row self.old.peers worker) n }
        ensures { self.new ≡ self.old }
    {
        if let Reply::Noted(false) = reply {
            self.floors.put(worker, u32::MAX);
        }
    }

    /// Notes the floor that the reply to Next tells. Beyond the peer's reach there may be pieces that it shows, and where it is late such as are
    /// not asked of it, so nothing is told then.
    #[inline(always)]
    pub fn learn(&mut self, worker: u32, reply: Reply)
        requires worker { worker < length self.old.peers }
        requires told { (peer_row self.old.peers worker).reach ≡ MOST_LEVEL → (peer_row self.old.peers worker).overdue ≡ [] → (n : ℕ) → TellsFloor self.old reply n
            → IsFloor self.old.pieces (peer_row self.old.peers worker) n }
        ensures { self.new ≡ self.old }
    {
        let row = self.peers.row(worker);
        if row.reach() != MOST_LEVEL || row.has_late() {
            return;
        }
        if let Some(floor) = self.floor_told(reply) {
            self.floors.raise(worker, floor);
        }
    }

    /// Whether a block of the piece, which doesn't come in order, is asked for as one of a rarest piece.
    fn asks_rarest(&self, piece: u32) -> bool
        requires { piece < length self.now.pieces }
        ensures { result ≡ true → nat_le self.now.order_from (piece_row self.now.pieces piece).level ≡ false → AsksRarest self.now piece }
    {
        (self.has_few_open() || self.pieces.row(piece).is_fresh())
            && self.pieces.had() >= self.rules.random
    }

    /// Whether no more pieces are open than may be before begun ones come first.
    fn has_few_open(&self) -> bool
        ensures { result ≡ true → (found : List ℕ) × FewOpen self.now found }
    {
        self.pieces.open_pieces().len() <= self.rules.open as usize
    }

    /// Frees what was asked of the worker's peer.
    fn release(&mut self, worker: u32)
        requires { worker < length self.old.peers }
        ensures { self.new ≡ released self.old worker }
    {
        let line = self.peers.row(worker).line();
        lower_all(&mut self.pieces, &mut self.floors, &self.peers, line);
    }

    /// The worker's peer shows these pieces in place of those that it showed, or none.
    fn reshow(&mut self, worker: u32, flags: Option<&Bitfield>)
        requires worker { worker < length self.old.peers }
        requires few { AreCounted (reshown self.old worker (unwrap_or (option_copied flags) [])).pieces }
        ensures { self.new ≡ reshown self.old worker (unwrap_or (option_copied flags.entry) []) }
    {
        recount(&mut self.pieces, &self.peers, worker, flags);
        self.floors.ease(); // one peer less may show a piece
    }

    /// Join: what was asked of an earlier peer of the worker is freed.
    pub fn join(&mut self, worker: u32)
        requires { worker < length self.old.peers }
        ensures { self.new ≡ with_peer (released self.old worker) worker join_row }
    {
        self.release(worker);
        self.peers.join(worker);
        self.floors.put(worker, u32::MAX); // it shows nothing yet
    }

    /// Choke: what was asked of the peer is freed.
    pub fn choke(&mut self, worker: u32)
        requires { worker < length self.old.peers }
        ensures { self.new ≡ with_peer (released self.old worker) worker choke_row }
    {
        self.release(worker);
        self.peers.note(worker, Dealing::Choke);
    }

    /// What comes to pass with the worker's peer and changes no piece's row: Unchoke, Depth, Reach, a cancel that is told, an arrival.
    #[inline(always)]
    pub fn note(&mut self, worker: u32, dealing: Dealing)
        requires { worker < length self.old.peers }
        ensures { self.new ≡ with_peer self.old worker (noted_row dealing) }
    {
        self.peers.note(worker, dealing);
    }

    /// An arrival is something that the worker's peer told.
    #[inline(always)]
    fn hear(&mut self, worker: u32)
        requires { worker < length self.old.peers }
        ensures { self.new ≡ with_peer self.old worker (noted_row Heard) }
    {
        self.peers.hear(worker);
    }

    /// Alone: the worker's peer works alone from now on, or like the others again.
    pub fn put_alone(&mut self, worker: u32, alone: bool)
        requires { worker < length self.old.peers }
        ensures { self.new ≡ with_peer self.old worker (alone_row alone) }
    {
        self.peers.set_alone(worker, alone);
    }

    /// Release: the block that begins there, which is asked of the peer, is asked of it no more.
    pub fn put_release(&mut self, worker: u32, piece: u32, begin: u32)
        requires worker { worker < length self.old.peers }
        requires room { HasShortLines (peer_row self.old.peers worker) }
        ensures { self.new ≡ given_up self.old worker piece begin }
    {
        self.free(worker, piece, begin);
        self.peers.forget_at(worker, piece, begin, true);
    }

    /// Late: the worker's peer, which is asked for the block that begins there, is late with it.
    pub fn put_late(&mut self, worker: u32, piece: u32, begin: u32)
        requires { worker < length self.old.peers }
        ensures { self.new ≡ delayed self.old worker piece begin }
    {
        self.free(worker, piece, begin);
        self.peers.delay(worker, piece, begin);
    }

    /// The block that begins there, which is asked of the peer, is expected from it no more.
    fn free(&mut self, worker: u32, piece: u32, begin: u32)
        requires { worker < length self.old.peers }
        ensures { self.new ≡ unexpected self.old worker piece begin }
    {
        if self.peers.row(worker).is_late_with(piece, begin) {
            return;
        }
        let block = Block {
            piece,
            begin,
            len: 0,
        };
        lower(&mut self.pieces, &mut self.floors, &self.peers, block);
    }

    /// Lack: the peer has the piece no more, and blocks of it that were asked of the peer are free.
    pub fn put_lack(&mut self, worker: u32, piece: u32)
        requires worker { worker < length self.old.peers }
        requires piece { piece < length self.old.pieces }
        requires shown { piece < length (peer_row self.old.peers worker).shows }
        ensures { self.new ≡ lacked self.old worker piece }
    {
        lower_piece(&mut self.pieces, self.peers.row(worker).line(), piece);
        self.pieces.withdraw(piece, self.peers.shows(worker, piece));
        self.peers.lack(worker, piece);
        self.floors.clear(); // the piece may be unbegun again, and fewer peers show it
    }

    /// Bits.
    pub fn put_bits(&mut self, worker: u32, flags: &Bitfield)
        requires worker { worker < length self.old.peers }
        requires flags { length flags.now ≡ length (peer_row self.old.peers worker).shows }
        requires few { AreCounted (reshown self.old worker flags.now).pieces }
        ensures { self.new ≡ with_peer (reshown self.old worker flags.now) worker (bits_row flags.now) }
    {
        self.reshow(worker, Some(flags));
        self.floors.put(worker, 0);
        self.peers.put_bits(worker, flags);
    }

    /// Have.
    pub fn put_have(&mut self, worker: u32, piece: u32)
        requires worker { worker < length self.old.peers }
        requires piece { piece < length self.old.pieces }
        requires shown { piece < length (peer_row self.old.peers worker).shows }
        requires few { AreCounted (announced self.old worker piece).pieces }
        ensures { self.new ≡ announced self.old worker piece }
    {
        let is_new = !self.peers.shows(worker, piece);
        self.pieces.announce(piece, is_new);
        let floor = floor_with(
            self.floors.of(worker),
            &self.pieces.row(piece),
            self.pieces.rank(piece),
        );
        self.floors.put(worker, floor);
        self.peers.put_have(worker, piece);
    }

    /// Leave: what was asked of the peer is freed, and it shows nothing.
    pub fn leave(&mut self, worker: u32)
        requires worker { worker < length self.old.peers }
        requires few { AreCounted (reshown (released self.old worker) worker []).pieces }
        ensures { self.new ≡ with_peer (reshown (released self.old worker) worker []) worker leave_row }
    {
        self.release(worker);
        self.reshow(worker, None);
        self.peers.leave(worker);
    }

    /// Next, or a request in flight that counts, by its reply.
    #[inline(always)]
    pub fn put_next(&mut self, worker: u32, reply: Reply)
        requires worker { worker < length self.old.peers }
        requires request { (b : Block) → requested_by reply ≡ b ∷ [] → HasRoomFor self.old worker b }
        ensures { self.new ≡ after_next self.old worker reply }
    {
        match reply {
            Reply::Request(block) | Reply::InFlight(block) => self.ask(worker, block),
            Reply::Cancel(block) => self.note(worker, Dealing::Cancelled(block)),
            _ => {}
        }
    }

    /// The block is asked of the peer.
    #[inline(always)]
    fn ask(&mut self, worker: u32, block: Block)
        requires worker { worker < length self.old.peers }
        requires room { HasRoomFor self.old worker block }
        ensures { self.new ≡ with_request self.old worker block }
    {
        self.peers.ask(worker, block);
        self.pieces
            .apply(block.piece, Change::Raise(block.begin / BLOCK_SIZE));
        self.advance();
    }

    /// Moves the front of the pieces when some are asked in order.
    #[inline(always)]
    fn advance(&mut self)
        ensures { self.new ≡ self.old }
    {
        if self.order_from <= MOST_LEVEL {
            self.pieces.advance();
        }
    }

    /// Block `index` of the piece is held now, brought by the worker's peer.
    #[inline(always)]
    fn put_block(&mut self, worker: u32, piece: u32, index: u32)
        requires worker { worker < length self.old.peers }
        requires stored { HasBlock self.old piece index }
        requires begin { block_size * index < 2 ^ 32 }
        requires sender { worker < HELD }
        requires askers { AreAskers self.old piece index }
        requires room { EachIndex self.old.peers
            (λ q. HasShortLines (peer_row self.old.peers q)) }
        ensures { self.new ≡ with_block self.old worker piece index }
    {
        let askers = self.pieces.row(piece).cell(index).askers();
        self.peers.forget(worker, piece, BLOCK_SIZE * index, askers);
        self.pieces.apply(
            piece,
            Change::Store {
                index,
                sender: worker,
            },
        );
    }

    /// Puts an arrival in, by its reply.
    #[inline(always)]
    pub fn put_arrival(&mut self, worker: u32, piece: u32, begin: u32, reply: Reply)
        requires worker { worker < length self.old.peers }
        requires stored { IsTrue (stores reply) → HasBlock self.old piece (begin / block_size) }
        requires askers { IsTrue (stores reply) → AreAskers self.old piece (begin / block_size) }
        requires sender { worker < HELD }
        requires room { EachIndex self.old.peers
            (λ q. HasShortLines (peer_row self.old.peers q)) }
        ensures { self.new ≡ after_arrival self.old worker piece begin reply }
    {
        if reply.is_stored() {
            self.put_block(worker, piece, begin / BLOCK_SIZE);
        }
        self.hear(worker);
    }

    /// A check of the piece, by its reply.
    pub fn put_check(&mut self, piece: u32, reply: Reply)
        requires { piece < length self.old.pieces }
        ensures { self.new ≡ after_check self.old piece reply }
    {
        match reply {
            Reply::Had => self.pieces.apply(piece, Change::Pass),
            _ => self.change(piece, Change::Fail),
        }
    }

    /// Changes the row of the piece, which may be unbegun then.
    fn change(&mut self, piece: u32, change: Change)
        requires piece { piece < length self.old.pieces }
        requires fits { HasRoomOf change (piece_row self.old.pieces piece) }
        ensures { self.new ≡ record self.old { pieces = edit self.old.pieces piece (changed_row change) } }
    {
        self.pieces.apply(piece, change);
        self.floors.admit(&self.peers, &self.pieces, piece);
    }

    /// Lose: the piece isn't had, and none of its blocks is held.
    pub fn put_loss(&mut self, piece: u32)
        requires { piece < length self.old.pieces }
        ensures { self.new ≡ lost self.old piece }
    {
        self.change(piece, Change::Lose);
    }

    /// Discard: the block that begins there is held no more.
    pub fn put_discard(&mut self, piece: u32, begin: u32)
        requires { piece < length self.old.pieces }
        ensures { self.new ≡ discarded self.old piece begin }
    {
        self.change(piece, Change::Discard(begin / BLOCK_SIZE));
    }

    /// Want.
    pub fn put_want(&mut self, flags: &Bitfield)
        ensures { self.new ≡ relevelled self.old (wanted_level flags.now) }
    {
        rewant(&mut self.pieces, flags);
        self.floors.clear(); // more may be wanted
    }

    /// Levels.
    pub fn put_levels(&mut self, levels: &[u8])
        ensures { self.new ≡ relevelled self.old (λ p. slice_index_or levels.now p 0) }
    {
        relevel(&mut self.pieces, levels);
        self.floors.clear(); // any piece may come first now
    }

    /// InOrder and InOrderFrom: pieces of this level and of higher ones come in order.
    pub fn put_order(&mut self, from: u8)
        ensures { self.new ≡ ordered self.old from }
    {
        self.order_from = from;
    }

    /// Level.
    pub fn put_level(&mut self, piece: u32, level: u8)
        requires { piece < length self.old.pieces }
        ensures { self.new ≡ levelled self.old piece level }
    {
        self.change(piece, Change::Level(level));
    }

    /// Haves: the peer shows these pieces too, a have for each.
    pub fn put_haves(&mut self, worker: u32, flags: &Bitfield)
        requires worker { worker < length self.old.peers }
        requires flags { length flags.now ≡ length (peer_row self.old.peers worker).shows }
        requires pieces { length (peer_row self.old.peers worker).shows ≡ length self.old.pieces }
        requires few { EachIndex self.old.pieces (λ p. (piece_row self.old.pieces p).availability + 1 < 2 ^ 16) }
        requires counted { (p : ℕ) → p < length self.old.pieces → slice_index_or (peer_row self.old.peers worker).shows p false ≡ true
            → 1 ≤ (piece_row self.old.pieces p).availability }
        ensures { self.new ≡ with_peer (reshown self.old worker (joint flags.now (peer_row self.old.peers worker).shows)) worker
            (bits_row (joint flags.now (peer_row self.old.peers worker).shows)) }
    {
        announce_all(&mut self.pieces, &mut self.peers, worker, flags);
        self.floors.put(worker, 0);
    }
}

/// The floor of a peer that shows the piece too, which ranks so.
fn floor_with(floor: u32, row: &Piece<'_>, rank: u32) -> u32
    ensures most { result ≤ floor }
    ensures shown { is_fresh row.now ≡ true → result ≤ rank }
{
    if row.is_fresh() {
        floor.min(rank)
    } else {
        floor
    }
}
