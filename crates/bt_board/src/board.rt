//! The set of had pieces, as bits of words that threads share.

ghost use Rattle.std.specs.Prelude.{◌≡◌, ◌<◌, ◌≤◌, ◌+◌, ◌/◌, ◌%◌, ◌^◌, ◌↔◌, ◌⊎◌, ℕ, List, [], false, length, map, replicate};
ghost use Rattle.std.specs.Prelude.{slice_index_or, IfOk, IfErr, IfSome, IfNone, IsTrue, MatchOption};
ghost use Rattle.std.specs.Arc.{arc_value};
ghost use Rattle.std.specs.Int.{bit_at};
ghost use Rattle.std.specs.List.{range_with_len};
ghost use Rattle.bt_check.specs.Checked.{Fits, joined};
ghost use Rattle.bt_meta.specs.Layout.{piece_count};
ghost use Rattle.bt_board.specs.Seats.{Given, IsSeat, new_seat, seat_with};
ghost use Rattle.bt_board.specs.Steps.{Finds, Gives, GivesNone};
ghost use Rattle.bt_board.specs.Story.{IsSet, Marked, Seen, StandsFor, both, load, mark, view, with_load, with_loads, with_mark, words_of};

use crate::bits::{least_new, unite};
use crate::rule::{About, Announce, Announced, Counted, Deal, Look, MarkedAlone, Merge};
use crate::view::BoardView;
use atomic_table::{Seat, Table};
use bt_check::Proven;
use bt_meta::{Bitfield, Torrent};
use std::alloc::{AllocError, Global};
use std::marker::{Brand, Model};
use std::sync::Arc;

/// The set of had pieces. Threads share it by reference, each with a seat of its own; no call waits for another.
///
/// Contracts see which board it is, its torrent, and how many seats it was opened with.
pub struct Board {
    table: Table<(), BoardView, About, MarkedAlone, Global>,
    about: About,
}

/// The end of a board is one call for whoever owns one.
impl Drop for Board {
    fn drop(self) {
        let Board {
            table: _table,
            about: _about,
        } = self;
    }
}

impl Model for Board {
    ghost use Rattle.std.specs.Arc.{arc_value};
    ghost use Rattle.bt_meta.specs.Layout.{piece_count};
    ghost use Rattle.bt_board.specs.Seats.{BoardState, IsTable};

    ghost Value = { BoardState };

    ghost view = { λ b. record { table = b.table.shared.table_id; torrent = (arc_value b.about.torrent).layout; seats = b.about.seats } };

    ghost invariant = { λ b. IsTable b.table.shared.key b.about b.table.shared.table_id (piece_count (arc_value b.about.torrent).layout) };
}

/// Leave to read and mark a board, for one thread. It keeps which pieces its news has given.
///
/// Contracts see of which board it is, what was marked and loaded with it, and what its news has given.
pub struct BoardSeat {
    seat: Seat<(), BoardView>,
    given: Vec<u64>,
}

/// The end of a seat is one call for whoever owns one.
impl Drop for BoardSeat {
    fn drop(self) {
        let BoardSeat {
            seat: _seat,
            given: _given,
        } = self;
    }
}

impl Model for BoardSeat {
    ghost use Rattle.bt_board.specs.Seats.{IsSeat, SeatState};

    ghost Value = { SeatState };

    ghost view = { λ s. record { table = s.seat.table_id; view = s.seat.me.0; given = s.given.items } };

    ghost invariant = { λ s. IsSeat s.seat.table_id s.seat.me s.given.items };
}

impl BoardSeat {
    /// The seat of the table, and the words of what its news has given.
    fn into_parts(self) -> (Seat<(), BoardView>, Vec<u64>)
        ensures parts { self ≡ record { table = result.0.table_id; view = result.0.me.0; given = result.1.items } }
        ensures seat { IsSeat result.0.table_id result.0.me result.1.items }
    {
        let BoardSeat { seat, given } = self;
        (seat, given)
    }
}

/// How many words have a bit for each piece.
fn words_for(torrent: &Arc<Torrent, Global>) -> usize
    ensures words { result ≡ words_of (piece_count (arc_value torrent.now).layout) }
    ensures some { 0 < result }
    ensures few { result ≤ 2 ^ 26 }
{
    (torrent.piece_count() as usize + 63) / 64
}

impl Board {
    /// A board with no piece set, and seats with which nothing was marked, loaded or given, in the order of their numbers.
    pub fn open(
        alloc: Global,
        torrent: Arc<Torrent, Global>,
        seats: usize,
    ) -> Result<(Board, Vec<BoardSeat>), AllocError>
        requires { 0 < seats }
        ensures board { IfOk result (λ opened. (opened.0.torrent ≡ (arc_value torrent).layout) × (opened.0.seats ≡ seats)) }
        ensures seats { IfOk result (λ opened. opened.1.items ≡ map (new_seat opened.0) (range_with_len 0 seats)) }
    {
        let words = Vec::from_elem(alloc, 0u64, words_for(&torrent))?;
        let about = About { torrent, seats };
        let (table, first) = Table::of_words(alloc, words.as_slice(), &about)?;
        let board = Board { table, about };
        let all = board.deal(alloc, first)?;
        Ok((board, all))
    }

    /// A seat for each number, where `first` stands for all of them.
    fn deal(
        &self,
        alloc: Global,
        mut first: Seat<(), BoardView>,
    ) -> Result<Vec<BoardSeat>, AllocError>
        requires seats { 0 < self.now.seats }
        requires first { (first.table_id ≡ self.now.table) × (first.me ≡ (view [] [] (range_with_len 0 self.now.seats), [])) }
        ensures { IfOk result (λ seats. seats.items ≡ map (new_seat self.now) (range_with_len 0 self.now.seats)) }
    {
        let mut all = Vec::with_capacity(alloc, self.about.seats)?;
        for _ in 1..self.about.seats {
            let given = self.none_given(alloc)?;
            let seat = self.table.shared.split_seat::<Deal>(&mut first);
            all.push_reserved(BoardSeat { seat, given });
        }
        let given = self.none_given(alloc)?;
        all.push_reserved(BoardSeat { seat: first, given });
        Ok(all)
    }

    /// Words in which no piece is set.
    fn none_given(&self, alloc: Global) -> Result<Vec<u64>, AllocError>
        ensures { IfOk result (λ words. words.items ≡ replicate (words_of (piece_count self.now.torrent)) 0) }
    {
        Vec::from_elem(alloc, 0u64, words_for(&self.about.torrent))
    }

    /// Loads a word. `K` tells the step how many pieces there are.
    fn look<K: Counted>(&self, seat: &mut BoardSeat, word: usize) -> u64
        requires seat { seat.old.table ≡ self.now.table }
        requires word { word < words_of (piece_count self.now.torrent) }
        requires pieces { K.pieces ≡ piece_count self.now.torrent }
        ensures seat { (seat.new.table ≡ seat.old.table) × (seat.new.given ≡ seat.old.given) }
        ensures finds { Finds (piece_count self.now.torrent) seat.old.view word result seat.new.view }
        ensures wide { (length seat.new.given ≡ words_of (piece_count self.now.torrent)) × (words_of (piece_count self.now.torrent) ≤ 2 ^ 26) }
    {
        self.table.shared.load::<Look<K>>(&mut seat.seat, word)
    }

    /// Whether the piece is set: true ever after the seat has seen that it is.
    pub fn has(&self, seat: &mut BoardSeat, piece: u32) -> bool
        requires seat { seat.old.table ≡ self.now.table }
        requires piece { piece < piece_count self.now.torrent }
        // It makes one load, of the piece's word, and answers the bit found.
        ensures load { (found : ℕ) × (seat.new ≡ seat_with seat.old (with_load seat.old.view (load (piece / 64) found)))
            × (IsTrue result ↔ (bit_at found (piece % 64) ≡ 1)) }
        ensures seen { IsTrue result → Seen seat.new.view piece }
        ensures kept { Seen seat.old.view piece → IsTrue result }
    {
        let found = self.look::<Brand>(seat, piece as usize / 64);
        (found >> (piece % 64)) & 1 == 1
    }

    /// Sets the bit of the piece. `M` tells the step which mark that is.
    fn announce<M: Announced>(&self, seat: &mut BoardSeat, proven: &Proven)
        requires seat { seat.old.table ≡ self.now.table }
        requires proven { Fits self.now.torrent proven.now }
        requires added { M.added ≡ mark proven.now.piece (joined proven.now) }
        ensures { seat.new ≡ seat_with seat.old (with_mark seat.old.view M.added) }
    {
        let piece = proven.piece();
        self.table
            .shared
            .fetch_or::<Announce<M>>(&mut seat.seat, piece as usize / 64, 1u64 << (piece % 64));
    }

    /// Sets the piece of a verdict that fits the board's torrent.
    pub fn mark(&self, seat: &mut BoardSeat, proven: Proven)
        requires seat { seat.old.table ≡ self.now.table }
        requires proven { Fits self.now.torrent proven }
        ensures { seat.new ≡ seat_with seat.old (with_mark seat.old.view (mark proven.piece (joined proven))) }
    {
        self.announce::<Brand>(seat, &proven);
    }

    /// A piece of this word that is set and that the seat's news hasn't given, the least such. From now on it is given.
    fn news_in(&self, seat: &mut BoardSeat, word: usize) -> Option<u32>
        requires seat { seat.old.table ≡ self.now.table }
        requires word { word < words_of (piece_count self.now.torrent) }
        ensures seat { seat.new.table ≡ seat.old.table }
        ensures finds { (found : ℕ) × Finds (piece_count self.now.torrent) seat.old.view word found seat.new.view
            × MatchOption result (GivesNone word found seat.old.given seat.new.given)
            (λ piece. Gives word found seat.old.given seat.new.given piece) }
    {
        let found = self.look::<Brand>(seat, word);
        match least_new(found, seat.given[word]) {
            Some(bit) => {
                seat.given[word] |= 1u64 << bit;
                Some(word as u32 * 64 + bit)
            }
            None => None,
        }
    }

    /// A piece that is set and that the seat's news hasn't given. The words are loaded in order, up to the first that has such a piece, and
    /// the least in it is given. None where no word had one when it was loaded.
    pub fn news(&self, seat: &mut BoardSeat) -> Option<u32>
        requires seat { seat.old.table ≡ self.now.table }
        ensures seat { seat.new.table ≡ seat.old.table }
        ensures piece { IfSome result (λ p. p < piece_count self.now.torrent) }
        ensures some { IfSome result (λ p. (found : List ℕ) × (length found ≡ p / 64 + 1) × (seat.new.view ≡ with_loads seat.old.view found)
            × IsSet found p × (¬ Given seat.old p) × ((q : ℕ) → q < p → IsSet found q → Given seat.old q)) }
        ensures given { IfSome result (λ p. (q : ℕ) → Given seat.new q ↔ (Given seat.old q ⊎ (q ≡ p))) }
        ensures none { IfNone result ((found : List ℕ) × (length found ≡ words_of (piece_count self.now.torrent))
            × (seat.new ≡ seat_with seat.old (with_loads seat.old.view found)) × ((q : ℕ) → IsSet found q → Given seat.old q)) }
        // All that the seat has seen was given.
        ensures complete { IfNone result ((p : ℕ) → p < piece_count self.now.torrent → Seen seat.new.view p → Given seat.new p) }
    {
        for word in 0..words_for(&self.about.torrent) {
            if let Some(piece) = self.news_in(seat, word) {
                return Some(piece);
            }
        }
        None
    }

    /// One seat that has seen, marked and given what either had.
    pub fn join(&self, mut one: BoardSeat, other: BoardSeat) -> BoardSeat
        requires { (one.table ≡ self.now.table) × (other.table ≡ self.now.table) }
        ensures seat { result.table ≡ self.now.table }
        ensures view { result.view ≡ both one.view other.view }
        ensures given { (p : ℕ) → Given result p ↔ (Given one p ⊎ Given other p) }
    {
        let (seat, given) = other.into_parts();
        self.table.shared.join_seat::<Merge>(&mut one.seat, seat);
        unite(one.given.as_mut_slice(), given.as_slice());
        one
    }

    /// The pieces that were marked, where the seat has been joined with all others. Where there is no memory for them, the board and the
    /// seat come back.
    pub fn close(self, alloc: Global, seat: BoardSeat) -> Result<Bitfield, (Board, BoardSeat)>
        requires seat { seat.table ≡ self.table }
        requires all { (s : ℕ) → s < self.seats → StandsFor seat.view s }
        ensures count { IfOk result (λ bits. length bits ≡ piece_count self.torrent) }
        ensures marked { IfOk result (λ bits. (p : ℕ) → IsTrue (slice_index_or bits p false) ↔ Marked seat.view p) }
        ensures seen { IfOk result (λ bits. (p : ℕ) → Seen seat.view p → IsTrue (slice_index_or bits p false)) }
        ensures err { IfErr result (λ back. (back.0 ≡ self) × (back.1 ≡ seat)) }
    {
        let count = self.about.torrent.piece_count();
        let Ok(mut bits) = Bitfield::empty(alloc, count) else {
            return Err((self, seat));
        };
        let Board { table, about: _ } = self;
        let (seat, _) = seat.into_parts();
        let closed = table.close_with(seat);
        for piece in 0..count {
            if (closed.word(piece as usize / 64) >> (piece % 64)) & 1 == 1 {
                bits.set(piece);
            }
        }
        closed.free();
        Ok(bits)
    }
}
