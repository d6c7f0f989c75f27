//! What to say to a peer next: by the level of a piece, then strict priority and rarest first, or in order (Cohen 2003, "Piece selection";
//! BEP 3).
ghost use Rattle.std.specs.Prelude.{◌≡◌, ◌<◌, ◌≤◌, ◌+◌, ◌-◌, ◌&&◌, ◌||◌, ℕ, Bool, true, false, not, length, IfSome, IfNone, IsTrue, Some, None};
ghost use Rattle.std.specs.Prelude.{nat_le, nat_lt, Option};
ghost use Rattle.bt_meta.specs.declared.block.Block.{Block};
ghost use Rattle.bt_meta.specs.Layout.{piece_count, block_count, block};
ghost use Rattle.bt_history.specs.Setting.{each_block, each_block_of, is_block, some_block, some_block_of};
ghost use Rattle.bt_history.specs.Peers.{asked, asked_count, depth_of, due, dues, overdue, reach, shows};
ghost use Rattle.bt_history.specs.Picks.{is_first, leads};
ghost use Rattle.bt_history.specs.Pieces.{asker_count, endgame, had_count, held, held_or_asked, comes_in_order, gives, interesting, level, open_count, order_from, unasked, wanted};
ghost use Rattle.bt_history.specs.Next.{continues, doubles, is_rarest, is_strict, next_answer, rises, starts, usable};
ghost use Rattle.bt_tables.specs.Orders.{at};
ghost use Rattle.bt_tables.specs.Risings.{Rises};
ghost use Rattle.bt_picker.specs.Search.{FindsLeast, FindsListed, FindsRarest, Finds, FindsOf, IsChoice, IsLevel, IsPickedBy, IsPickedChoice, IsRuling, LacksNone};
ghost use Rattle.bt_picker.specs.Search.{MayAsk, NoneAbove, NoneAt, NoneBeforeIn, goes_on, lesser_of, order_of, is_left, serves_at, resumes_at, resuming_order};

use crate::position::Position;
use crate::ruling::{Choice, Rule, Ruling};
use bt_history::{MOST_LEVEL, Reply, USUAL_LEVEL};
use bt_meta::Block;
use bt_tables::{GROUPS, SPAN, Stage, first_group, group_number};

impl<'a> Position<'a> {
    /// The open piece of this level that goes on at the peer before its others: the least with 0 open ones, else of the rarest the least.
    fn resuming(&self, worker: u32, level: u8) -> Option<u32>
        requires worker { worker < self.now.setting.workers }
        requires level { IsLevel level }
        ensures first { FindsLeast (resumes_at self.now.setting self.now.history worker level)
            (resuming_order self.now.setting self.now.history) 0 (piece_count self.now.setting.torrent) result }
        ensures within { IfSome result (λ p. p < piece_count self.now.setting.torrent) }
    {
        self.attest();
        let pieces = self.open_pieces();
        if self.most_open() == 0 {
            self.least_served(worker, level, pieces)
        } else {
            self.rarest_served(worker, level, pieces)
        }
    }

    /// Of these pieces that have this level and that the peer serves the least of those that fewest peers show: they rise, so of several it is the
    /// first.
    fn rarest_served(&self, worker: u32, level: u8, pieces: &[u32]) -> Option<u32>
        requires worker { worker < self.now.setting.workers }
        requires pieces { (i : ℕ) → i < length pieces.now → at pieces.now i < piece_count self.now.setting.torrent }
        requires rise { (i j : ℕ) → Rises pieces.now i j }
        ensures { FindsRarest (serves_at self.now.setting self.now.history worker level) (order_of self.now.setting self.now.history true 0)
            pieces.now (length pieces.now) result }
    {
        let mut rarest = None;
        let mut fewest = 0;
        for piece in pieces {
            let shown_by = self.availability(*piece);
            if rarest.is_some() && fewest <= shown_by {
                continue;
            }
            if self.serves_at(worker, level, *piece) {
                rarest = Some(*piece);
                fewest = shown_by;
            }
        }
        rarest
    }

    /// How many pieces are open.
    fn open_count(&self) -> usize
        ensures { result ≡ open_count self.now.setting self.now.history }
    {
        self.attest();
        self.open_pieces().len()
    }

    /// Whether begun pieces come before all others: more are open than may be, or too few are had to tell which are rare.
    fn is_strict(&self) -> bool
        ensures { result ≡ is_strict self.now.setting self.now.history }
    {
        (self.most_open() as usize) < self.open_count() || self.is_random()
    }

    /// Whether it is known at once that no candidate keeps the open piece from going on: begun ones come first, or none is rarer.
    fn goes_at_once(&self, worker: u32, level: u8, piece: u32) -> bool
        requires worker { worker < self.now.setting.workers }
        requires piece { piece < piece_count self.now.setting.torrent }
        requires resumes { IsTrue (resumes_at self.now.setting self.now.history worker level piece) }
        ensures yes { result ≡ true → (is_strict self.now.setting self.now.history
            || is_rarest self.now.setting self.now.history worker piece) ≡ true }
        ensures no { result ≡ false → is_strict self.now.setting self.now.history ≡ false }
    {
        self.is_strict() || self.availability(piece) <= self.floor_at(worker, level)
    }

    /// The open piece goes on with its first block that is lacking and that nobody is asked for.
    fn going_on(&self, worker: u32, level: u8, word: u64, piece: u32) -> Option<Choice>
        requires worker { worker < self.now.setting.workers }
        requires level { IsLevel level }
        requires above { NoneAbove self.now.setting self.now.history worker level }
        requires may { MayAsk self.now.setting self.now.history worker }
        requires near { level ≤ reach self.now.history worker }
        requires unordered { nat_le (order_from self.now.history) level ≡ false }
        requires within { piece < piece_count self.now.setting.torrent }
        requires first { FindsLeast (resumes_at self.now.setting self.now.history worker level)
            (resuming_order self.now.setting self.now.history) 0 (piece_count self.now.setting.torrent) (Some piece) }
        requires leads { (is_strict self.now.setting self.now.history
            || is_rarest self.now.setting self.now.history worker piece) ≡ true }
        ensures some { IfSome result (IsChoice self.now.setting self.now.history worker (next_answer self.now.setting self.now.history worker)) }
        ensures picked { IfSome result (IsPickedChoice self.now.setting self.now.history worker word) }
        ensures none { IfNone result (NoneAt self.now.setting self.now.history worker level) }
    {
        self.attest();
        match self.left_in(worker, piece) {
            Some(block) => Some(Choice {
                rule: Rule::Continuing,
                block,
            }),
            None => None,
        }
    }

    /// The open piece goes on, or a candidate of the level begins that fewer peers show.
    fn leading(&self, worker: u32, level: u8, word: u64, piece: u32) -> Option<Choice>
        requires worker { worker < self.now.setting.workers }
        requires level { IsLevel level }
        requires above { NoneAbove self.now.setting self.now.history worker level }
        requires may { MayAsk self.now.setting self.now.history worker }
        requires near { level ≤ reach self.now.history worker }
        requires unordered { nat_le (order_from self.now.history) level ≡ false }
        requires loose { is_strict self.now.setting self.now.history ≡ false }
        requires within { piece < piece_count self.now.setting.torrent }
        requires first { FindsLeast (resumes_at self.now.setting self.now.history worker level)
            (resuming_order self.now.setting self.now.history) 0 (piece_count self.now.setting.torrent) (Some piece) }
        ensures some { IfSome result (IsChoice self.now.setting self.now.history worker (next_answer self.now.setting self.now.history worker)) }
        ensures picked { IfSome result (IsPickedChoice self.now.setting self.now.history worker word) }
        ensures none { IfNone result (NoneAt self.now.setting self.now.history worker level) }
    {
        self.attest();
        let shown_by = self.availability(piece);
        match self.candidate(worker, level, true, word) {
            Some(other) if self.availability(other) < shown_by => {
                match self.left_in(worker, other) {
                    Some(block) => Some(Choice {
                        rule: Rule::Starting,
                        block,
                    }),
                    None => None,
                }
            }
            _ => self.going_on(worker, level, word, piece),
        }
    }

    /// The least of these pieces that has this level and that the peer serves: they rise, so it is the first.
    fn least_served(&self, worker: u32, level: u8, pieces: &[u32]) -> Option<u32>
        requires worker { worker < self.now.setting.workers }
        requires pieces { (i : ℕ) → i < length pieces.now → at pieces.now i < piece_count self.now.setting.torrent }
        requires rise { (i j : ℕ) → Rises pieces.now i j }
        ensures listed { FindsListed (serves_at self.now.setting self.now.history worker level) pieces.now (length pieces.now) result }
        ensures least { IfSome result (λ p.
            (i : ℕ) → i < length pieces.now → IsTrue (serves_at self.now.setting self.now.history worker level (at pieces.now i)) → p ≤ at pieces.now i) }
    {
        for piece in pieces {
            if self.serves_at(worker, level, *piece) {
                return Some(*piece); // the least
            }
        }
        None
    }

    /// Whether the piece has this level, and the peer offers it and may take part in it.
    #[inline(always)]
    fn serves_at(&self, worker: u32, level: u8, piece: u32) -> bool
        requires worker { worker < self.now.setting.workers }
        requires piece { piece < piece_count self.now.setting.torrent }
        ensures { result ≡ serves_at self.now.setting self.now.history worker level piece }
    {
        self.shows(worker, piece)
            && self.level(piece) == level
            && !self.is_spent(worker, piece)
            && self.is_free_for(worker, piece)
    }

    /// How many pieces are had.
    #[tactic(auto, using(crate::proofs::Telling::had_rows))]
    pub(crate) fn had_count(&self) -> u32
        ensures { result ≡ had_count self.now.setting self.now.history }
    {
        self.tables.had_count()
    }

    /// Whether a piece may be begun without being a rarest one: while too few are had.
    pub fn is_random(&self) -> bool
        ensures { result ≡ nat_lt (had_count self.now.setting self.now.history) self.now.setting.random }
    {
        self.had_count() < self.random()
    }

    /// A block of an unbegun piece of this level to ask of the peer: of a rarest one, once enough pieces are had.
    fn starting(&self, worker: u32, level: u8, word: u64) -> Option<Block>
        requires worker { worker < self.now.setting.workers }
        requires level { IsLevel level }
        requires above { NoneAbove self.now.setting self.now.history worker level }
        requires near { level ≤ reach self.now.history worker }
        requires none_begun { some_block self.now.setting.torrent (goes_on self.now.setting self.now.history worker level) ≡ false }
        ensures some { IfSome result (λ b. IsTrue (is_block self.now.setting.torrent b)
            × IsTrue (starts self.now.setting self.now.history worker b)) }
        ensures first { IfSome result (λ b.
            IsTrue (is_first self.now.setting self.now.history word (starts self.now.setting self.now.history worker) b)) }
        ensures none_goes_on { IfSome result (λ b. some_block self.now.setting.torrent (continues self.now.setting self.now.history worker) ≡ false) }
        ensures none { IfNone result (NoneAt self.now.setting self.now.history worker level) }
    {
        self.attest();
        let rare = !self.is_random();
        match self.candidate(worker, level, rare, word) {
            Some(piece) => self.left_in(worker, piece),
            None => None,
        }
    }

    /// In order, a block of the least piece of this level that has one to ask of the peer, begun or not.
    fn rising(&self, worker: u32, level: u8) -> Option<Block>
        requires worker { worker < self.now.setting.workers }
        requires level { IsLevel level }
        requires above { NoneAbove self.now.setting self.now.history worker level }
        requires near { level ≤ reach self.now.history worker }
        ensures some { IfSome result (λ b. IsTrue (is_block self.now.setting.torrent b)
            × IsTrue (rises self.now.setting self.now.history worker b)) }
        ensures order { IfSome result (λ b. nat_le (order_from self.now.history) level ≡ true → comes_in_order self.now.history b.piece ≡ true) }
        ensures first { IfSome result (λ b. NoneBeforeIn self.now.setting.torrent (is_left self.now.setting self.now.history worker) b b.piece) }
        ensures none { IfNone result (NoneAt self.now.setting self.now.history worker level) }
    {
        self.attest();
        let open = self.least_served(worker, level, self.open_pieces());
        match lesser(open, self.least_candidate(worker, level)) {
            Some(piece) => self.left_in(worker, piece),
            None => None,
        }
    }

    /// Whether the piece is wanted and may be requested of the peer.
    pub fn is_wanted_of(&self, worker: u32, piece: u32) -> bool
        requires worker { worker < self.now.setting.workers }
        requires piece { piece < piece_count self.now.setting.torrent }
        ensures { result ≡ (wanted self.now.setting self.now.history piece && gives self.now.history worker piece) }
    {
        self.is_wanted(piece) && self.gives(worker, piece)
    }

    /// One of these pieces that the peer shows.
    fn some_shown(&self, worker: u32, pieces: &[u32]) -> Option<u32>
        requires worker { worker < self.now.setting.workers }
        requires pieces { (i : ℕ) → i < length pieces.now → at pieces.now i < piece_count self.now.setting.torrent }
        ensures { FindsListed (shows self.now.history worker) pieces.now (length pieces.now) result }
    {
        for piece in pieces {
            if self.shows(worker, *piece) {
                return Some(*piece);
            }
        }
        None
    }

    /// Whether the worker's peer shows a wanted piece that isn't had.
    pub fn is_interesting(&self, worker: u32) -> bool
        requires { worker < self.now.setting.workers }
        ensures { result ≡ interesting self.now.setting self.now.history worker }
    {
        if self.peer(worker).has_late() {
            self.is_interesting_late(worker)
        } else {
            self.is_interesting_prompt(worker)
        }
    }

    /// The same of a peer that is late with something: a spent piece may be the one that interests.
    #[tactic(auto, using(crate::proofs::Scans::lacks_found, crate::proofs::Scans::lacks_none))]
    fn is_interesting_late(&self, worker: u32) -> bool
        requires { worker < self.now.setting.workers }
        ensures { result ≡ interesting self.now.setting self.now.history worker }
    {
        for piece in 0..self.piece_count() {
            if self.is_wanted(piece) && self.shows(worker, piece) && !self.had(piece) {
                return true;
            }
        }
        false
    }

    /// The same of a peer that is late with nothing.
    fn is_interesting_prompt(&self, worker: u32) -> bool
        requires worker { worker < self.now.setting.workers }
        requires prompt { (b : Block) → overdue self.now.history worker b ≡ false }
        ensures { result ≡ interesting self.now.setting self.now.history worker }
    {
        for slot in self.first_slot()..self.last_slot() {
            if self.is_interesting_at(worker, MOST_LEVEL - slot) {
                return true;
            }
        }
        false
    }

    /// Whether the worker's peer shows a wanted piece of this level that isn't had: one whose lacking blocks are all asked, another begun one,
    /// or an unbegun one.
    fn is_interesting_at(&self, worker: u32, level: u8) -> bool
        requires worker { worker < self.now.setting.workers }
        requires prompt { (b : Block) → overdue self.now.history worker b ≡ false }
        requires level { IsLevel level }
        ensures yes { result ≡ true → interesting self.now.setting self.now.history worker ≡ true }
        ensures no { result ≡ false → LacksNone self.now.setting self.now.history worker level }
    {
        self.attest();
        if let Some(_) = self.some_shown(worker, self.group(level, Stage::AskedOut)) {
            return true;
        }
        if let Some(_) = self.some_shown(worker, self.group(level, Stage::Open)) {
            return true;
        }
        self.candidate(worker, level, true, 0).is_some()
    }

    /// So many of the highest levels no piece has.
    #[inline(always)]
    pub(crate) fn first_slot(&self) -> u8
        ensures most { result < MOST_LEVEL }
        ensures none { (p : ℕ) → p < piece_count self.now.setting.torrent → level self.now.history p ≤ MOST_LEVEL - result }
    {
        self.attest();
        if self.has_none(first_group(USUAL_LEVEL + 1), first_group(USUAL_LEVEL - 1)) {
            MOST_LEVEL - USUAL_LEVEL
        } else {
            0
        }
    }

    /// How many levels there are down to the last one that a wanted piece has.
    #[inline(always)]
    pub(crate) fn last_slot(&self) -> u8
        ensures most { result ≤ MOST_LEVEL }
        ensures covers { (p : ℕ) → p < piece_count self.now.setting.torrent → 0 < level self.now.history p
            → MOST_LEVEL - result < level self.now.history p }
    {
        if self.has_none(first_group(USUAL_LEVEL - 1), u32::from(GROUPS)) {
            MOST_LEVEL - USUAL_LEVEL + 1
        } else {
            MOST_LEVEL
        }
    }

    /// Whether it is known that no piece of this level has a block to ask of anybody.
    #[inline(always)]
    fn has_none_unasked(&self, level: u8) -> bool
        requires { IsLevel level }
        ensures { result ≡ true → (q : ℕ) → NoneAt self.now.setting self.now.history q level }
    {
        self.attest();
        self.has_none(group_number(level, Stage::Open), first_group(level) + SPAN)
    }

    /// Whether the level is within the peer's reach.
    #[inline(always)]
    fn reaches(&self, worker: u32, level: u8) -> bool
        requires { worker < self.now.setting.workers }
        ensures { result ≡ nat_le level (reach self.now.history worker) }
    {
        level <= self.reach(worker)
    }

    /// Whether it is known that no piece of this level has a block to ask of the peer: the level is beyond its reach, or no block of it is
    /// unasked.
    #[inline(always)]
    #[tactic(auto, using(crate::proofs::Levelled::beyond_reach))]
    fn gives_none(&self, worker: u32, level: u8) -> bool
        requires worker { worker < self.now.setting.workers }
        requires level { IsLevel level }
        ensures none { result ≡ true → NoneAt self.now.setting self.now.history worker level }
        ensures near { result ≡ false → level ≤ reach self.now.history worker }
    {
        !self.reaches(worker, level) || self.has_none_unasked(level)
    }

    /// Whether pieces of this level come in order.
    #[inline(always)]
    pub(crate) fn comes_in_order(&self, level: u8) -> bool
        ensures { result ≡ nat_le (order_from self.now.history) level }
    {
        self.order_from() <= level
    }

    /// Which rule asks for a block of a piece of this level, where no piece of a higher one has a block to ask, the peer is open and its
    /// pipe has room.
    #[inline(always)]
    fn request_at(&self, worker: u32, level: u8, word: u64) -> Option<Choice>
        requires worker { worker < self.now.setting.workers }
        requires level { IsLevel level }
        requires above { NoneAbove self.now.setting self.now.history worker level }
        requires may { MayAsk self.now.setting self.now.history worker }
        ensures some { IfSome result (IsChoice self.now.setting self.now.history worker (next_answer self.now.setting self.now.history worker)) }
        ensures picked { IfSome result (IsPickedChoice self.now.setting self.now.history worker word) }
        ensures none { IfNone result (NoneAt self.now.setting self.now.history worker level) }
    {
        if self.gives_none(worker, level) {
            return None;
        }
        if self.comes_in_order(level) {
            return match self.rising(worker, level) {
                Some(block) => Some(Choice {
                    rule: Rule::Rising,
                    block,
                }),
                None => None,
            };
        }
        if let Some(piece) = self.resuming(worker, level) {
            if self.goes_at_once(worker, level, piece) {
                return self.going_on(worker, level, word, piece);
            }
            return self.leading(worker, level, word, piece);
        }
        match self.starting(worker, level, word) {
            Some(block) => Some(Choice {
                rule: Rule::Starting,
                block,
            }),
            None => None,
        }
    }

    /// Which rule asks for a block that nobody is asked for: of a piece of the highest level that has one.
    #[inline(always)]
    fn new_request(&self, worker: u32, word: u64) -> Option<Choice>
        requires worker { worker < self.now.setting.workers }
        requires may { MayAsk self.now.setting self.now.history worker }
        ensures some { IfSome result (IsChoice self.now.setting self.now.history worker (next_answer self.now.setting self.now.history worker)) }
        ensures picked { IfSome result (IsPickedChoice self.now.setting self.now.history worker word) }
        ensures none { IfNone result (some_block self.now.setting.torrent (usable self.now.setting self.now.history worker) ≡ false) }
    {
        self.attest();
        for slot in self.first_slot()..self.last_slot() {
            if let Some(choice) = self.request_at(worker, MOST_LEVEL - slot, word) {
                return Some(choice);
            }
        }
        None
    }

    /// Which rule answers Next, where the peer is open and its pipe has room.
    fn next_request(&self, worker: u32, word: u64) -> Ruling
        requires worker { worker < self.now.setting.workers }
        requires may { MayAsk self.now.setting self.now.history worker }
        ensures ruled { IsRuling self.now.setting self.now.history worker (next_answer self.now.setting self.now.history worker) result }
        ensures picked { IsPickedBy self.now.setting self.now.history worker word result }
    {
        if let Some(choice) = self.new_request(worker, word) {
            return Ruling::Naming(choice);
        }
        if let Some(block) = self.asking_again(worker) {
            return Ruling::Naming(Choice {
                rule: Rule::Doubling,
                block,
            });
        }
        if self.is_interesting(worker) {
            Ruling::Just(Reply::Idle)
        } else {
            Ruling::Just(Reply::NothingLeft)
        }
    }

    /// The block whose cancel came due first.
    fn first_due(&self, worker: u32) -> Option<Block>
        requires { worker < self.now.setting.workers }
        ensures found { Finds self.now.setting.torrent (due self.now.history worker) result }
        ensures first { IfSome result (λ b. IsTrue (leads b (dues self.now.history worker))) }
    {
        self.attest();
        self.dues(worker).first().copied()
    }

    /// Whether a cancel is due at the worker's peer.
    #[tactic(auto, using(crate::proofs::Choices::some_due))]
    pub(crate) fn is_owed_cancel(&self, worker: u32) -> bool
        requires { worker < self.now.setting.workers }
        ensures { result ≡ some_block self.now.setting.torrent (due self.now.history worker) }
    {
        self.first_due(worker).is_some()
    }

    /// Whether as many blocks are asked of the peer as may be.
    pub(crate) fn is_pipe_full(&self, worker: u32) -> bool
        requires { worker < self.now.setting.workers }
        ensures { result ≡ nat_le (depth_of self.now.setting self.now.history worker) (asked_count self.now.setting self.now.history worker) }
    {
        self.attest();
        self.depth(worker) as usize <= self.outstanding(worker).len()
    }

    /// Which rule answers Next, with the block that the pick names: the word settles what the rules leave open.
    #[tactic(auto, using(crate::proofs::Choices::at_choked, crate::proofs::Choices::at_full))]
    pub fn next_ruling(&self, worker: u32, word: u64) -> Ruling
        requires { worker < self.now.setting.workers }
        ensures ruled { IsRuling self.now.setting self.now.history worker (next_answer self.now.setting self.now.history worker) result }
        ensures picked { IsPickedBy self.now.setting self.now.history worker word result }
    {
        if let Some(block) = self.first_due(worker) {
            return Ruling::Naming(Choice {
                rule: Rule::Cancelling,
                block,
            });
        }
        if !self.is_open(worker) {
            return Ruling::Just(Reply::Choked);
        }
        if self.is_pipe_full(worker) {
            return Ruling::Just(Reply::PipeFull);
        }
        self.next_request(worker, word)
    }
}

/// The lesser of two pieces, where there are two.
fn lesser(one: Option<u32>, other: Option<u32>) -> Option<u32>
    ensures { result ≡ lesser_of one other }
{
    match (one, other) {
        (Some(one), Some(other)) => Some(one.min(other)),
        (Some(one), None) => Some(one),
        (None, other) => other,
    }
}
