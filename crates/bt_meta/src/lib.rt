//! Torrents (BEP 3): metainfo files, pieces and blocks as intervals of the content, bitfields of pieces, and devices for bytes.
#![tactic(auto)]

mod bitfield;
mod block;
mod devices;
mod fault;
mod intervals;
mod key;
mod torrent;

pub use bitfield::Bitfield;
pub use block::Block;
pub use devices::{DeviceFault, FromRead, Sink, Source, ToWrite, write_all};
pub use fault::{BitFault, MetaFault};
pub use intervals::{blocks_tile_a_piece, pieces_tile_the_content};
pub use key::Key;
pub use torrent::{BLOCK_SIZE, ListedFile, Torrent};
