//! What a piece picker answers from: a row for each peer and for each piece, the groups that the pieces stand in, their sums, and floors.
//! Groups (`Order`) and sets (`Rising`) are of numbers below a bound, and know no pieces.
//!
//! It keeps what the calls make of these rows, and answers what is read of them. It may never touch a byte of a block, a journal or a
//! history: neither its code nor its contracts name one. Which call may change what is for the crate above to know.
#![tactic(auto)]

mod cell;
mod counts;
mod floors;
mod full;
mod haves;
mod line;
mod order;
mod peer;
mod peers;
mod piece;
mod pieces;
mod queue;
mod rising;
mod rows;
mod shelf;
mod shows;
mod stripes;
mod sweep;
mod tables;

pub use cell::{Cell, HELD};
pub use line::Line;
pub use order::Order;
pub use peer::{Dealing, Peer};
pub use piece::{
    CROWD, GROUPS, Piece, RANKS, SPAN, Stage, UNBEGUN, first_group, group_number, rank,
};
pub use rising::Rising;
pub use tables::Tables;
