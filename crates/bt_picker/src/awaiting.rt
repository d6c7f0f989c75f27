//! What holds endgame up: pieces that it waits for, with a block that nobody is asked for (Cohen 2003, "Endgame mode").
ghost use Rattle.std.specs.Prelude.{◌≡◌, ◌<◌, ◌||◌, ℕ, true, false, not, length, nat_lt, IsTrue};
ghost use Rattle.bt_meta.specs.Layout.{piece_count};
ghost use Rattle.bt_history.specs.Setting.{each_block};
ghost use Rattle.bt_history.specs.Pieces.{availability, awaited, held_or_asked, is_open_piece, level, unbegun, wanted};
ghost use Rattle.bt_tables.specs.Orders.{at};
ghost use Rattle.bt_picker.specs.Search.{FindsListed, FreshUnshown, IsHeldUp, IsLevel};

use crate::position::Position;
use bt_history::MOST_LEVEL;
use bt_tables::{SPAN, Stage, first_group, group_number};

impl<'a> Position<'a> {
    /// One of these pieces that a joined peer shows.
    fn some_available(&self, pieces: &[u32]) -> Option<u32>
        requires { (i : ℕ) → i < length pieces.now → at pieces.now i < piece_count self.now.setting.torrent }
        ensures { FindsListed (λ p. nat_lt 0 (availability self.now.setting self.now.history p)) pieces.now (length pieces.now) result }
    {
        for piece in pieces {
            if self.availability(*piece) > 0 {
                return Some(*piece);
            }
        }
        None
    }

    /// Whether an open piece holds endgame up: one that a joined peer shows.
    fn is_open_shown(&self) -> bool
        ensures yes { result ≡ true → IsHeldUp self.now.setting self.now.history }
        ensures no { result ≡ false → (p : ℕ) → p < piece_count self.now.setting.torrent
            → IsTrue (is_open_piece self.now.setting self.now.history p) → availability self.now.setting self.now.history p ≡ 0 }
    {
        self.attest();
        self.some_available(self.open_pieces()).is_some()
    }

    /// Whether the least open piece holds endgame up: mostly it does, and then no other need be looked at.
    #[inline(always)]
    fn is_first_open_shown(&self) -> bool
        ensures { result ≡ true → IsHeldUp self.now.setting self.now.history }
    {
        self.attest();
        match self.open_pieces().first() {
            Some(piece) => self.availability(*piece) > 0,
            None => false,
        }
    }

    /// Whether an unbegun piece of this level holds endgame up: one that a joined peer shows.
    fn is_fresh_shown_at(&self, level: u8) -> bool
        requires { IsLevel level }
        ensures yes { result ≡ true → IsHeldUp self.now.setting self.now.history }
        ensures no { result ≡ false → FreshUnshown self.now.setting self.now.history level }
    {
        self.attest();
        !self.has_none(
            group_number(level, Stage::Unbegun(1)),
            first_group(level) + SPAN,
        )
    }

    /// Whether an unbegun wanted piece holds endgame up.
    fn is_fresh_shown(&self) -> bool
        ensures yes { result ≡ true → IsHeldUp self.now.setting self.now.history }
        ensures no { result ≡ false → (p : ℕ) → p < piece_count self.now.setting.torrent → 0 < level self.now.history p
            → IsTrue (unbegun self.now.setting self.now.history p) → availability self.now.setting self.now.history p ≡ 0 }
    {
        for slot in self.first_slot()..self.last_slot() {
            if self.is_fresh_shown_at(MOST_LEVEL - slot) {
                return true;
            }
        }
        false
    }

    /// Whether each block that endgame waits for is held or asked of somebody.
    #[inline(always)]
    pub(crate) fn are_awaited_asked(&self) -> bool
        ensures { result ≡ each_block self.now.setting.torrent (λ b. not (awaited self.now.setting self.now.history b.piece)
            || held_or_asked self.now.setting self.now.history b) }
    {
        if self.are_wanted_asked() {
            return true;
        }
        if !self.waits_for_shown() {
            return false;
        }
        !self.is_first_open_shown() && self.are_shown_asked()
    }

    /// The same, where endgame waits only for pieces that a joined peer shows.
    #[inline(never)] // it goes over pieces, and a block is unasked mostly
    fn are_shown_asked(&self) -> bool
        requires { self.now.setting.shown ≡ true }
        ensures { result ≡ each_block self.now.setting.torrent (λ b. not (awaited self.now.setting self.now.history b.piece)
            || held_or_asked self.now.setting self.now.history b) }
    {
        self.attest();
        !self.is_open_shown() && !self.is_fresh_shown()
    }

    /// Whether each wanted block is held or asked of somebody.
    fn are_wanted_asked(&self) -> bool
        ensures { result ≡ each_block self.now.setting.torrent (λ b. not (wanted self.now.setting self.now.history b.piece)
            || held_or_asked self.now.setting self.now.history b) }
    {
        self.tables.unasked() == 0
    }
}
