//! The crates that know nothing of a history, by worked examples: bencode, metainfo files and devices, checks, the board of finished pieces,
//! numbers in groups, and the wire.

mod bencode;
mod board;
mod check;
mod devices;
mod files;
mod four_hashes;
mod geometry;
mod metainfo;
mod order;
mod samples;
mod wire;
