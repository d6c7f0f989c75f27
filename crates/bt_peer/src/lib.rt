//! A session with one peer: what comes from it is turned into calls of the picker, and the picker's replies into what is sent.
#![tactic(auto)]

mod calls;
mod desk_place;
mod fault;
mod gate;
mod handshake;
mod message;
mod place;
mod reader;
mod rounds;
mod seat;
mod session;
mod session_terms;
mod stream;
mod turn;
pub mod whole;
mod writer;

pub use desk_place::DeskPlace;
pub use fault::{End, SessionFault};
pub use gate::{Gate, OpenGate};
pub use place::Place;
pub use rounds::serial;
pub use session::Session;
pub use stream::{MOST_STREAMS, SerialRun, Stream};
