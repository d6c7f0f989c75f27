//! The rule of the board, and what each atomic step tells the seat that makes it.

use crate::view::BoardView;
use atomic_table::{Join, Play, Split, TableRule};
use bt_meta::Torrent;
use std::alloc::Global;
use std::marker::{Brand, PhantomData};
use std::sync::Arc;

/// What the rule is told when a board is opened.
#[derive(Drop)]
pub struct About {
    pub torrent: Arc<Torrent, Global>,
    pub seats: usize,
}

/// The set bits are the pieces that were marked, and no seat has seen a bit that isn't set.
pub struct MarkedAlone;

impl TableRule<(), BoardView, About> for MarkedAlone {
    ghost use Rattle.std.specs.Prelude.{[]};
    ghost use Rattle.std.specs.List.{range_with_len};
    ghost use Rattle.std.specs.Arc.{arc_value};
    ghost use Rattle.bt_board.specs.Story.{Story, view};

    ghost holds = { λ about s. Story (arc_value about.torrent).layout about.seats s.words s.views };

    ghost first = { λ about. view [] [] (range_with_len 0 about.seats) };
}

/// The number of pieces, which the step of a load doesn't see.
pub trait Counted {
    ghost use Rattle.std.specs.Prelude.{ℕ};

    ghost pieces: { ℕ };
}

impl Counted for Brand {
    ghost pieces = { 0 };
}

/// A word is loaded.
pub struct Look<K> {
    counted: PhantomData<K>,
}

impl<K: Counted> Play<(), BoardView> for Look<K> {
    ghost use Rattle.bt_board.specs.Steps.{Looks};

    ghost then = { Looks K.pieces };
}

/// The mark of a step, which sees its word and its bit alone.
pub trait Announced {
    ghost use Rattle.bt_board.specs.declared.view.Mark.{Mark};

    ghost added: { Mark };
}

impl Announced for Brand {
    ghost use Rattle.std.specs.Prelude.{[]};

    ghost added = { record { piece = 0; bytes = [] } };
}

/// A bit is set.
pub struct Announce<M> {
    announced: PhantomData<M>,
}

impl<M: Announced> Play<(), BoardView> for Announce<M> {
    ghost use Rattle.bt_board.specs.Steps.{Announces};

    ghost then = { Announces M.added };
}

/// The first of the seats that a view stands for gets a view of its own.
pub struct Deal;

impl Split<BoardView> for Deal {
    ghost use Rattle.bt_board.specs.Story.{first_of, without_first};

    ghost left = { without_first };

    ghost right = { first_of };
}

/// One seat takes over what another has marked and loaded, and for which seats it stands.
pub struct Merge;

impl Join<BoardView> for Merge {
    ghost use Rattle.bt_board.specs.Story.{both, spent};

    ghost both = { both };

    ghost spent = { spent };
}
