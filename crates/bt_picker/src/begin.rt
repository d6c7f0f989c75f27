//! Which piece to begin at a peer: rarest first, random first piece, or the least in rising order (Cohen 2003, "Piece selection").
ghost use Rattle.std.specs.Prelude.{◌≡◌, ◌<◌, ◌≤◌, ◌%◌, ◌==◌, ◌&&◌, ℕ, true, false, length, nat_lt, IfSome};
ghost use Rattle.bt_meta.specs.Layout.{piece_count};
ghost use Rattle.bt_history.specs.Pieces.{availability, level, offers};
ghost use Rattle.bt_history.specs.Next.{is_candidate};
ghost use Rattle.bt_history.specs.Picks.{place_in_round};
ghost use Rattle.bt_tables.specs.Orders.{at, ListsGroup};
ghost use Rattle.bt_picker.specs.Search.{FindsFirst, FindsRarest, IsLevel, IsRarer, FindsLeast, NoneRarer, earlier_of, is_candidate_at};
ghost use Rattle.bt_picker.specs.Search.{order_of, rank_of};
ghost use Rattle.bt_picker.specs.Tables.{groups_of};

use crate::position::Position;
use bt_tables::{CROWD, Stage, group_number, rank};

/// A walk goes over at most so many pieces for each piece of the group: a step costs far less than a listed piece.
const WALK: usize = 1;
/// In order so many pieces from the front on are looked at before it is asked whether there is a candidate at all.
const NEAR: u32 = 32;

impl<'a> Position<'a> {
    /// Whether the piece may be begun at the peer.
    #[inline(always)]
    pub fn is_candidate(&self, worker: u32, piece: u32) -> bool
        requires worker { worker < self.now.setting.workers }
        requires piece { piece < piece_count self.now.setting.torrent }
        ensures { result ≡ is_candidate self.now.setting self.now.history worker piece }
    {
        self.is_wanted(piece)
            && self.shows(worker, piece)
            && self.is_unbegun(piece)
            && !self.is_spent(worker, piece)
    }

    /// Whether the piece has this level and may be begun at the peer.
    #[inline(always)]
    fn is_candidate_at(&self, worker: u32, level: u8, piece: u32) -> bool
        requires worker { worker < self.now.setting.workers }
        requires piece { piece < piece_count self.now.setting.torrent }
        ensures { result ≡ is_candidate_at self.now.setting self.now.history worker level piece }
    {
        self.is_candidate(worker, piece) && self.level(piece) == level
    }

    /// The first of the level's candidates from `low` up to `high`.
    fn first_candidate(&self, worker: u32, level: u8, low: u32, high: u32) -> Option<u32>
        requires worker { worker < self.now.setting.workers }
        requires high { high ≤ piece_count self.now.setting.torrent }
        ensures { FindsFirst (is_candidate_at self.now.setting self.now.history worker level) low high result }
    {
        for piece in low..high {
            if self.is_candidate_at(worker, level, piece) {
                return Some(piece);
            }
        }
        None
    }

    /// The level's candidate to begin where the rarest come first: of those that fewest peers show the first in a round from `first` on.
    pub(crate) fn rarest(&self, worker: u32, level: u8, first: u32) -> Option<u32>
        requires worker { worker < self.now.setting.workers }
        requires level { IsLevel level }
        requires first { first ≤ piece_count self.now.setting.torrent }
        ensures first { FindsLeast (is_candidate_at self.now.setting self.now.history worker level)
            (order_of self.now.setting self.now.history true first) 0 (piece_count self.now.setting.torrent) result }
        ensures least { FindsLeast (is_candidate_at self.now.setting self.now.history worker level)
            (rank_of self.now.setting self.now.history true) 0 (piece_count self.now.setting.torrent) result }
        ensures within { IfSome result (λ p. p < piece_count self.now.setting.torrent) }
    {
        self.attest();
        let most = self.workers().min(CROWD - 1);
        for shown_by in self.floor_at(worker, level)..most + 1 {
            let stage = Stage::Unbegun(shown_by);
            let pieces = self.group(level, stage);
            if let Some(piece) = self.nearest_of(
                worker,
                group_number(level, stage),
                pieces,
                first,
            ) {
                return Some(piece);
            }
        }
        self.first_offered(
            worker,
            self.group(level, Stage::Unbegun(CROWD)),
            true,
            first,
        )
    }

    /// No candidate of the level is shown by fewer peers than this.
    pub(crate) fn floor_at(&self, worker: u32, level: u8) -> u32
        requires { worker < self.now.setting.workers }
        ensures { NoneRarer self.now.setting self.now.history worker level result }
    {
        self.floor(worker).saturating_sub(rank(level, 0))
    }

    /// Of these pieces that the peer offers the one that ranks first. By rarity it is asked for the crowd's group alone, which is empty at a desk:
    /// only the audit of a journal of more workers finds pieces there.
    fn first_offered(&self, worker: u32, pieces: &[u32], rare: bool, first: u32) -> Option<u32>
        requires worker { worker < self.now.setting.workers }
        requires pieces { (i : ℕ) → i < length pieces.now → at pieces.now i < piece_count self.now.setting.torrent }
        ensures { FindsRarest (offers self.now.setting self.now.history worker) (order_of self.now.setting self.now.history rare first)
            pieces.now (length pieces.now) result }
    {
        let mut best = None;
        for piece in pieces {
            best = self.earlier_offered(worker, best, *piece, rare, first);
        }
        best
    }

    /// The piece, where the peer offers it and it ranks before the one found before.
    fn earlier_offered(
        &self,
        worker: u32,
        found: Option<u32>,
        piece: u32,
        rare: bool,
        first: u32,
    ) -> Option<u32>
        requires worker { worker < self.now.setting.workers }
        requires piece { piece < piece_count self.now.setting.torrent }
        requires found { IfSome found (λ p. p < piece_count self.now.setting.torrent) }
        ensures earlier { IsRarer (offers self.now.setting self.now.history worker) (order_of self.now.setting self.now.history rare first) found piece result }
        ensures within { IfSome result (λ p. p < piece_count self.now.setting.torrent) }
    {
        match found {
            Some(best) if !self.ranks_before(piece, best, rare, first) => found,
            _ if self.offers(worker, piece) => Some(piece),
            _ => found,
        }
    }

    /// Whether a piece ranks before another one: fewer peers show it, where that counts, or as many, and it comes before in a round from
    /// `first` on.
    fn ranks_before(&self, piece: u32, other: u32, rare: bool, first: u32) -> bool
        requires piece { piece < piece_count self.now.setting.torrent }
        requires other { other < piece_count self.now.setting.torrent }
        ensures { result ≡ nat_lt (order_of self.now.setting self.now.history rare first piece)
            (order_of self.now.setting self.now.history rare first other) }
    {
        if rare {
            self.is_rarer(piece, other, first)
        } else {
            comes_before(piece, other, first)
        }
    }

    /// Whether fewer peers show the piece than the other one, or as many, and it comes before in a round from `first` on.
    fn is_rarer(&self, piece: u32, other: u32, first: u32) -> bool
        requires piece { piece < piece_count self.now.setting.torrent }
        requires other { other < piece_count self.now.setting.torrent }
        ensures { result ≡ nat_lt (order_of self.now.setting self.now.history true first piece)
            (order_of self.now.setting self.now.history true first other) }
    {
        let shown = self.availability(piece);
        let shown_other = self.availability(other);
        if shown == shown_other {
            comes_before(piece, other, first)
        } else {
            shown < shown_other
        }
    }

    /// Of the pieces of the group that the peer offers the first in a round from `first` on: in a large group it is mostly near. `pieces` are
    /// those of the group.
    fn nearest_of(&self, worker: u32, group: u32, pieces: &[u32], first: u32) -> Option<u32>
        requires worker { worker < self.now.setting.workers }
        requires lists { ListsGroup (groups_of self.now.setting self.now.history) group pieces.now }
        requires first { first ≤ piece_count self.now.setting.torrent }
        ensures { FindsRarest (offers self.now.setting self.now.history worker) (order_of self.now.setting self.now.history false first)
            pieces.now (length pieces.now) result }
    {
        let most = pieces.len().saturating_mul(WALK) as u64;
        let behind = self.piece_count() - first;
        let steps = most.min(u64::from(behind)) as u32;
        match self.walk(worker, group, first, first + steps) {
            Some(piece) => Some(piece),
            None => self.first_offered(worker, pieces, false, first),
        }
    }

    /// The first piece of the group that the peer offers, from `low` up to `high`.
    fn walk(&self, worker: u32, group: u32, low: u32, high: u32) -> Option<u32>
        requires worker { worker < self.now.setting.workers }
        requires high { high ≤ piece_count self.now.setting.torrent }
        ensures { FindsFirst (λ p. (at (groups_of self.now.setting self.now.history) p == group) && offers self.now.setting self.now.history worker p)
            low high result }
    {
        for piece in low..high {
            if self.group_of(piece) == group && self.offers(worker, piece) {
                return Some(piece);
            }
        }
        None
    }

    /// The level's candidate to begin where any may be: the first in a round from `first` on. While many pieces are unbegun a walk soon meets
    /// one, and once few are their lists are short. Only a walk that reached the last piece goes on at the first one.
    fn nearest(&self, worker: u32, level: u8, first: u32) -> Option<u32>
        requires worker { worker < self.now.setting.workers }
        requires level { IsLevel level }
        requires first { first ≤ piece_count self.now.setting.torrent }
        ensures first { FindsLeast (is_candidate_at self.now.setting self.now.history worker level)
            (order_of self.now.setting self.now.history false first) 0 (piece_count self.now.setting.torrent) result }
        ensures within { IfSome result (λ p. p < piece_count self.now.setting.torrent) }
    {
        let steps = self.unbegun_count(level);
        let behind = self.piece_count() - first;
        let ahead = steps.min(behind);
        if let Some(piece) = self.first_candidate(worker, level, first, first + ahead) {
            return Some(piece);
        }
        if ahead == behind {
            if let Some(piece) = self.first_candidate(worker, level, 0, steps.min(first)) {
                return Some(piece);
            }
        }
        self.nearest_listed(worker, level, first)
    }

    /// At least so many pieces are unbegun: all but those of the level that are begun or at rest. No contract needs it.
    fn unbegun_count(&self, level: u8) -> u32
        requires { IsLevel level }
    {
        let asked_out = self.group(level, Stage::AskedOut).len();
        let begun = asked_out.saturating_add(self.group(level, Stage::Open).len());
        let others = self
            .group(level, Stage::Resting)
            .len()
            .saturating_add(begun);
        (self.piece_count() as usize).saturating_sub(others) as u32
    }

    /// Of the level's unbegun pieces that the peer offers the first in a round from `first` on.
    fn nearest_listed(&self, worker: u32, level: u8, first: u32) -> Option<u32>
        requires worker { worker < self.now.setting.workers }
        requires level { IsLevel level }
        requires first { first ≤ piece_count self.now.setting.torrent }
        ensures first { FindsLeast (is_candidate_at self.now.setting self.now.history worker level)
            (order_of self.now.setting self.now.history false first) 0 (piece_count self.now.setting.torrent) result }
        ensures within { IfSome result (λ p. p < piece_count self.now.setting.torrent) }
    {
        self.attest();
        let mut nearest = None;
        let most = self.workers().min(CROWD - 1);
        for shown_by in self.floor_at(worker, level)..most + 1 {
            let pieces = self.group(level, Stage::Unbegun(shown_by));
            let other = self.first_offered(worker, pieces, false, first);
            nearest = earlier(nearest, other, first);
        }
        let crowd = self.group(level, Stage::Unbegun(CROWD));
        earlier(
            nearest,
            self.first_offered(worker, crowd, false, first),
            first,
        )
    }

    /// Whether it is known that nothing of the level may be begun at the peer: no piece is shown by as many peers as its floor says.
    fn shows_no_candidate(&self, worker: u32, level: u8) -> bool
        requires { worker < self.now.setting.workers }
        ensures { result ≡ true → (p : ℕ) → p < piece_count self.now.setting.torrent →
            is_candidate_at self.now.setting self.now.history worker level p ≡ false }
    {
        self.floor_at(worker, level) > self.workers()
    }

    /// The level's candidate to begin, if there is one: among those that rank first the first from the piece on that the word picks.
    pub(crate) fn candidate(&self, worker: u32, level: u8, rare: bool, word: u64) -> Option<u32>
        requires worker { worker < self.now.setting.workers }
        requires level { IsLevel level }
        ensures least { FindsLeast (is_candidate_at self.now.setting self.now.history worker level)
            (rank_of self.now.setting self.now.history rare) 0 (piece_count self.now.setting.torrent) result }
        ensures first { FindsLeast (is_candidate_at self.now.setting self.now.history worker level)
            (order_of self.now.setting self.now.history rare (word % piece_count self.now.setting.torrent))
            0 (piece_count self.now.setting.torrent) result }
        ensures within { IfSome result (λ p. p < piece_count self.now.setting.torrent) }
    {
        let count = self.piece_count();
        if count == 0 || self.shows_no_candidate(worker, level) {
            return None;
        }
        let first = (word % u64::from(count)) as u32;
        if rare {
            return self.rarest(worker, level, first);
        }
        self.nearest(worker, level, first)
    }

    /// The least candidate of the level.
    pub(crate) fn least_candidate(&self, worker: u32, level: u8) -> Option<u32>
        requires worker { worker < self.now.setting.workers }
        requires level { IsLevel level }
        ensures least { FindsLeast (is_candidate_at self.now.setting self.now.history worker level) (λ p. p) 0
            (piece_count self.now.setting.torrent) result }
        ensures within { IfSome result (λ p. p < piece_count self.now.setting.torrent) }
    {
        if self.shows_no_candidate(worker, level) {
            return None;
        }
        let front = self.front().min(self.piece_count());
        let near = front.saturating_add(NEAR).min(self.piece_count());
        if let Some(piece) = self.first_candidate(worker, level, front, near) {
            return Some(piece);
        }
        match self.rarest(worker, level, near) {
            Some(found) => self
                .first_candidate(worker, level, near, found)
                .or(Some(found)),
            None => None,
        }
    }
}

/// Of two pieces, where there are two, the one that comes before the other in a round from `first` on.
fn earlier(one: Option<u32>, other: Option<u32>, first: u32) -> Option<u32>
    ensures { (count : ℕ) → IfSome one (λ p. p < count) → IfSome other (λ p. p < count) → result ≡ earlier_of count first one other }
{
    match (one, other) {
        (Some(found), Some(piece)) if comes_before(piece, found, first) => other,
        (Some(_), _) => one,
        (None, _) => other,
    }
}

/// Whether a piece comes before another one in a round from `first` on.
fn comes_before(piece: u32, other: u32, first: u32) -> bool
    ensures { (count : ℕ) → piece < count → other < count →
        result ≡ nat_lt (place_in_round count first piece) (place_in_round count first other) }
{
    if (piece < first) == (other < first) {
        piece < other
    } else {
        piece >= first
    }
}
