//! By which rule a block was requested, as it can be told once it was.
ghost use Rattle.std.specs.Prelude.{◌≡◌, ◌<◌};
ghost use Rattle.bt_meta.specs.Layout.{piece_count, block_count, block};
ghost use Rattle.bt_history.specs.PickRules.{rule_of, touched_count};

use crate::position::Position;
use bt_history::PickRule;

impl<'a> Position<'a> {
    /// How many blocks of the piece are held or asked of some peer.
    #[tactic(auto, using(crate::proofs::Telling::touched_counted))]
    fn touched_count(&self, piece: u32) -> u32
        requires { piece < piece_count self.now.setting.torrent }
        ensures { result ≡ touched_count self.now.setting self.now.history piece }
    {
        self.piece(piece).touched()
    }

    /// The rule by which the block was requested, where the newest call requested it.
    pub fn rule_of(&self, piece: u32, index: u32) -> PickRule
        requires piece { piece < piece_count self.now.setting.torrent }
        requires index { index < block_count self.now.setting.torrent piece }
        ensures { result ≡ rule_of self.now.setting self.now.history (block self.now.setting.torrent piece index) }
    {
        if self.asker_count(piece, index) > 1 {
            PickRule::Endgame
        } else if self.is_late_at_some(piece, index) {
            PickRule::Late
        } else if self.comes_in_order(self.level(piece)) {
            PickRule::InOrder
        } else if self.touched_count(piece) > 1 {
            PickRule::Begun
        } else if self.is_random() {
            PickRule::Random
        } else {
            PickRule::Rarest
        }
    }
}
