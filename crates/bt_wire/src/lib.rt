//! The peer wire protocol of BitTorrent (BEP 3): messages as bytes, and a stream of bytes, however it is cut, as messages.
#![tactic(auto)]

mod buffer;
mod hello;
mod inbound;
pub mod laws;
mod limit;
mod message;
mod reading;
mod writing;

pub use hello::Hello;
pub use inbound::Inbound;
pub use limit::frame_limit;
pub use message::{Message, WireFault};
pub use writing::encode;
