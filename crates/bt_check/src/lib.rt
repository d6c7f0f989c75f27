//! Hashing a piece: the job, the verdict that keeps its digest with the bytes that gave it, and tickets that tell threads which piece to
//! hash. Also SHA-1 (FIPS 180-4) of four messages at once, a lane for each.
#![tactic(auto)]

mod compress;
mod four;
mod job;
mod lanes;
mod proven;
mod rule;
mod tails;
mod ticket;
mod tickets;
mod words;

pub use four::{FourDigests, hash_four};
pub use job::{Job, Verdict};
pub use proven::Proven;
pub use ticket::Ticket;
pub use tickets::{TicketPass, Tickets};
