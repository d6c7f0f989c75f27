//! The pieces that are had, which threads read and mark without waiting for each other.
#![tactic(auto)]

mod bits;
mod board;
mod rule;
mod view;

pub use board::{Board, BoardSeat};
pub use view::{BoardView, Load, Mark};
