//! Endgame: once each lacking block of a wanted piece is asked for, which block to ask of one peer more (Cohen 2003, "Endgame mode").
ghost use Rattle.std.specs.Prelude.{◌≡◌, ◌<◌, ◌≤◌, ◌+◌, ◌-◌, ◌*◌, ◌==◌, ◌&&◌, ◌||◌, ℕ, Bool, false, not, length, slice_index_or, IfSome, IfNone};
ghost use Rattle.std.specs.Prelude.{IsTrue, None, nat_lt};
ghost use Rattle.bt_meta.specs.Layout.{piece_count, block_count, block, block_size};
ghost use Rattle.bt_history.specs.Setting.{is_block, some_block, some_block_of};
ghost use Rattle.bt_history.specs.Epochs.{is_request};
ghost use Rattle.bt_history.specs.History.{same_begin};
ghost use Rattle.bt_history.specs.Legal.{place_at};
ghost use Rattle.bt_history.specs.Peers.{asked, has_place};
ghost use Rattle.bt_history.specs.Picks.{is_first};
ghost use Rattle.bt_history.specs.Pieces.{asker_count, endgame, held, wanted};
ghost use Rattle.bt_history.specs.Next.{doubles, rushes};
ghost use Rattle.bt_tables.specs.Orders.{at};
ghost use Rattle.bt_picker.specs.Search.{DoublesFirst, DoublesNone, Finds, FindsAmong, FindsFirst, FindsLesser, FindsOf, IsLevel};
ghost use Rattle.bt_picker.specs.Search.{has_room, has_room_for};

use crate::position::Position;
use bt_history::{MOST_LEVEL, Reply};
use bt_meta::{BLOCK_SIZE, Block};
use bt_tables::Stage;

/// So many blocks of a piece are looked at together: all those of a piece of one mebibyte.
const WINDOW: u32 = 64;

impl<'a> Position<'a> {
    /// A block of the piece that is lacking and not asked of the peer, if the peer shows the piece.
    #[tactic(auto, using(crate::proofs::Scans::doubling_found, crate::proofs::Scans::doubling_not))]
    fn doubling_in(&self, worker: u32, piece: u32) -> Option<Block>
        requires worker { worker < self.now.setting.workers }
        requires piece { piece < piece_count self.now.setting.torrent }
        ensures { FindsOf self.now.setting.torrent piece (doubles self.now.setting self.now.history worker) result }
    {
        if self.is_wanted_of(worker, piece) {
            self.lacking_in(worker, piece)
        } else {
            None
        }
    }

    /// A block of the piece that is lacking and not asked of the peer, nor of as many others as may be: the least one.
    #[tactic(auto, using(crate::proofs::Scans::lacking_none))]
    fn lacking_in(&self, worker: u32, piece: u32) -> Option<Block>
        requires worker { worker < self.now.setting.workers }
        requires piece { piece < piece_count self.now.setting.torrent }
        ensures { FindsOf self.now.setting.torrent piece
            (λ b. not (held self.now.history b) && (nat_lt (asker_count self.now.setting self.now.history b) self.now.setting.askers
            && not (asked self.now.history worker b))) result }
    {
        let count = self.block_count(piece);
        for window in 0..count.div_ceil(WINDOW) {
            let first = window * WINDOW;
            let until = first + WINDOW.min(count - first);
            if let Some(index) = self.lacking_between(worker, piece, first, until) {
                return Some(self.block(piece, index));
            }
        }
        None
    }

    /// The same of the blocks from `first` up to `until`. The peer's line is gone through once for all of them, and not at all where none
    /// may be asked of one peer more.
    #[tactic(auto, using(crate::proofs::Scans::room_for, crate::proofs::Scans::no_room, crate::proofs::Scans::own_has_no_room))]
    fn lacking_between(&self, worker: u32, piece: u32, first: u32, until: u32) -> Option<u32>
        requires worker { worker < self.now.setting.workers }
        requires piece { piece < piece_count self.now.setting.torrent }
        requires until { until ≤ block_count self.now.setting.torrent piece }
        requires narrow { until ≤ first + WINDOW }
        ensures { FindsFirst (λ k. has_room_for self.now.setting self.now.history worker (block self.now.setting.torrent piece k))
            first until result }
    {
        let Some(low) = self.first_with_room(piece, first, until) else {
            return None;
        };
        let own = self.own_from(worker, piece, first);
        for index in low..until {
            if self.has_room(piece, index) && !own[(index - first) as usize] {
                return Some(index);
            }
        }
        None
    }

    /// Which blocks of the piece are asked of the worker's peer: a flag for each that is looked at, the first of them being `first`.
    fn own_from(&self, worker: u32, piece: u32, first: u32) -> [bool; WINDOW as usize]
        requires { worker < self.now.setting.workers }
        ensures { (k : ℕ) → first ≤ k → k < first + WINDOW →
            slice_index_or result (k - first) false ≡ asked self.now.history worker (block self.now.setting.torrent piece k) }
    {
        places_from(self.outstanding(worker), piece, first)
    }

    /// The first block from `first` up to `until` that is lacking and may be asked of one peer more.
    fn first_with_room(&self, piece: u32, first: u32, until: u32) -> Option<u32>
        requires piece { piece < piece_count self.now.setting.torrent }
        requires until { until ≤ block_count self.now.setting.torrent piece }
        ensures { FindsFirst (λ k. has_room self.now.setting self.now.history (block self.now.setting.torrent piece k)) first until result }
    {
        for index in first..until {
            if self.has_room(piece, index) {
                return Some(index);
            }
        }
        None
    }

    /// Whether the block is lacking, and may be asked of one peer more.
    fn has_room(&self, piece: u32, index: u32) -> bool
        requires piece { piece < piece_count self.now.setting.torrent }
        requires index { index < block_count self.now.setting.torrent piece }
        ensures { result ≡ has_room self.now.setting self.now.history (block self.now.setting.torrent piece index) }
    {
        !self.holds(piece, index) && self.has_few_askers(piece, index)
    }

    /// The block found in the piece, where the piece comes before the block found before, or else that one.
    fn lesser_doubling(&self, worker: u32, found: Option<Block>, piece: u32) -> Option<Block>
        requires worker { worker < self.now.setting.workers }
        requires piece { piece < piece_count self.now.setting.torrent }
        ensures { FindsLesser self.now.setting.torrent (doubles self.now.setting self.now.history worker) found piece result }
    {
        match found {
            Some(least) if least.piece < piece => found,
            _ => match self.doubling_in(worker, piece) {
                Some(block) => Some(block),
                None => found,
            },
        }
    }

    /// A block to ask of the peer too, though another may have been asked for it: of the highest level that has one the first.
    fn doubling(&self, worker: u32) -> Option<Block>
        requires worker { worker < self.now.setting.workers }
        requires endgame { IsTrue (endgame self.now.setting self.now.history) }
        ensures found { Finds self.now.setting.torrent (doubles self.now.setting self.now.history worker) result }
        ensures first { IfSome result (λ b. (word : ℕ) →
            IsTrue (is_first self.now.setting self.now.history word (doubles self.now.setting self.now.history worker) b)) }
    {
        self.attest();
        for slot in self.first_slot()..self.last_slot() {
            if let Some(block) = self.doubling_at(worker, MOST_LEVEL - slot) {
                return Some(block);
            }
        }
        None
    }

    /// A block of a piece of this level to ask of the peer too.
    fn doubling_at(&self, worker: u32, level: u8) -> Option<Block>
        requires worker { worker < self.now.setting.workers }
        requires level { IsLevel level }
        requires endgame { IsTrue (endgame self.now.setting self.now.history) }
        ensures some { IfSome result (λ b. IsTrue (is_block self.now.setting.torrent b)
            × IsTrue (doubles self.now.setting self.now.history worker b)) }
        ensures first { IfSome result (DoublesFirst self.now.setting self.now.history worker level) }
        ensures none { IfNone result (DoublesNone self.now.setting self.now.history worker level) }
    {
        self.attest();
        self.least_doubling(worker, self.group(level, Stage::AskedOut))
    }

    /// A block of these pieces to ask of the peer too: of the least such piece.
    fn least_doubling(&self, worker: u32, pieces: &[u32]) -> Option<Block>
        requires worker { worker < self.now.setting.workers }
        requires pieces { (i : ℕ) → i < length pieces.now → at pieces.now i < piece_count self.now.setting.torrent }
        ensures { FindsAmong self.now.setting.torrent (doubles self.now.setting self.now.history worker) pieces.now (length pieces.now) result }
    {
        let mut least = None;
        for piece in pieces {
            least = self.lesser_doubling(worker, least, *piece);
        }
        least
    }

    /// Whether each lacking block that endgame waits for is asked for, and a wanted block is lacking.
    #[inline(always)]
    pub fn is_endgame(&self) -> bool
        ensures { result ≡ endgame self.now.setting self.now.history }
    {
        self.are_awaited_asked() && self.is_some_lacking()
    }

    /// Whether the reply asks for a block, and there is an endgame. It isn't looked for at another reply, which begins none.
    #[inline(always)]
    pub(crate) fn asks_in_endgame(&self, reply: Reply) -> bool
        ensures { result ≡ (is_request reply && endgame self.now.setting self.now.history) }
    {
        reply.is_request() && self.is_endgame()
    }

    /// Whether some wanted block is lacking.
    fn is_some_lacking(&self) -> bool
        ensures { result ≡ some_block self.now.setting.torrent
            (λ b. wanted self.now.setting self.now.history b.piece && not (held self.now.history b)) }
    {
        self.tables.unheld() > 0
    }

    /// Whether so few blocks are asked of the peer that it may be asked for one that another is asked for.
    pub(crate) fn rushes(&self, worker: u32) -> bool
        requires { worker < self.now.setting.workers }
        ensures { result ≡ rushes self.now.setting self.now.history worker }
    {
        self.attest();
        self.outstanding(worker).len() < self.rush() as usize
    }

    /// In endgame, a block to ask of the peer too.
    pub(crate) fn asking_again(&self, worker: u32) -> Option<Block>
        requires { worker < self.now.setting.workers }
        ensures some { IfSome result (λ b.
            IsTrue (rushes self.now.setting self.now.history worker && (endgame self.now.setting self.now.history
            && some_block self.now.setting.torrent (doubles self.now.setting self.now.history worker)))
            × IsTrue (is_block self.now.setting.torrent b) × IsTrue (doubles self.now.setting self.now.history worker b)) }
        ensures first { IfSome result (λ b. (word : ℕ) →
            IsTrue (is_first self.now.setting self.now.history word (doubles self.now.setting self.now.history worker) b)) }
        ensures none { IfNone result ((rushes self.now.setting self.now.history worker && (endgame self.now.setting self.now.history
            && some_block self.now.setting.torrent (doubles self.now.setting self.now.history worker))) ≡ false) }
    {
        if self.rushes(worker) && self.is_endgame() {
            self.doubling(worker)
        } else {
            None
        }
    }
}

/// Which blocks of the piece the line has: a flag for each that is looked at, the first of them being `first`.
fn places_from(line: &[Block], piece: u32, first: u32) -> [bool; WINDOW as usize]
    ensures { (k : ℕ) → first ≤ k → k < first + WINDOW →
        slice_index_or result (k - first) false ≡ has_place (place_at piece (block_size * k)) line.now }
{
    let mut own = [false; WINDOW as usize];
    for block in line {
        if block.piece == piece {
            mark_begin(&mut own, block.begin, first);
        }
    }
    own
}

/// Marks the block that begins there, if it is one of these. The loop over a line is faster without it: most of its blocks are of other pieces.
#[inline(never)]
fn mark_begin(own: &mut [bool; WINDOW as usize], begin: u32, first: u32)
    ensures { (k : ℕ) → first ≤ k → k < first + WINDOW →
        slice_index_or own.new (k - first) false ≡ (slice_index_or own.old (k - first) false || (begin == block_size * k)) }
{
    let index = begin / BLOCK_SIZE;
    if begin % BLOCK_SIZE == 0 && index >= first && index - first < WINDOW {
        own[(index - first) as usize] = true;
    }
}
