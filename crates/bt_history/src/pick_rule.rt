//! The rules by which blocks are requested.

ghost use Rattle.std.specs.Prelude.{◌≡◌};
ghost use Rattle.bt_history.specs.PickRules.{rule_number};

/// The rule by which a block was requested (Cohen 2003, "Piece selection"; BEP 3).
#[derive(Clone, Copy, Debug, PartialEq, Eq)]
pub enum PickRule {
    /// Pieces of its level come in order, and its piece is the least that has a block to request.
    InOrder,
    /// Its piece had begun, and went on.
    Begun,
    /// Its piece began as one that fewest peers show.
    Rarest,
    /// Its piece began at random, since too few pieces were complete to tell which are rare.
    Random,
    /// In endgame it was requested of one peer more.
    Endgame,
    /// The request to another peer is late.
    Late,
}

impl PickRule {
    /// The number by which the rule is told, 1 to 6.
    pub fn number(self) -> u8
        ensures { result ≡ rule_number self }
    {
        match self {
            PickRule::InOrder => 1,
            PickRule::Begun => 2,
            PickRule::Rarest => 3,
            PickRule::Random => 4,
            PickRule::Endgame => 5,
            PickRule::Late => 6,
        }
    }
}
