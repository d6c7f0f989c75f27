//! What C calls. Each export tests what the picker requires of its caller, and says by its status why it did nothing. Three have a condition,
//! which no test could see to: a digest is that of the bytes that it is passed for, and a verdict says whether these have the piece's hash.

mod digests;
mod jobs;
mod journal;
mod peers;
mod pickers;
mod pieces;
mod questions;
mod tell;
mod torrents;
