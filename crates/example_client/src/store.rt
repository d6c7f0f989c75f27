//! Where the client keeps the pieces that are had: memory, in the place of files.

use crate::PIECE_LEN;
use bt_meta::{Block, Torrent};
use bytes::Bytes;
use std::alloc::{AllocError, Global};

/// The content, of which each piece is written once it is had.
#[derive(Drop)]
pub struct Store {
    content: Vec<u8>,
}

impl Store {
    /// Room for all of the torrent's content.
    pub fn new(alloc: Global, torrent: &Torrent) -> Result<Store, AllocError> {
        Ok(Store {
            content: vec![in alloc; 0; torrent.total() as usize]?,
        })
    }

    pub fn content(&self) -> &[u8] {
        &self.content
    }

    /// Writes the blocks of a piece, one behind the other.
    pub fn write(&mut self, piece: u32, blocks: &[Bytes]) {
        let mut begin = piece as usize * PIECE_LEN as usize;
        for block in blocks {
            if begin <= self.content.len() {
                copy_into(&mut self.content[begin..], block.as_slice());
            }
            begin = begin.saturating_add(block.len());
        }
    }

    /// The bytes of a block, or fewer where the content ends before.
    pub fn read(&self, block: &Block) -> &[u8] {
        let begin = block.piece as usize * PIECE_LEN as usize + block.begin as usize;
        self.content
            .get(begin..begin + block.len as usize)
            .unwrap_or(&[])
    }
}

/// Copies the bytes to the front of the room, as far as there is any.
fn copy_into(room: &mut [u8], bytes: &[u8]) {
    for (place, byte) in room.iter_mut().zip(bytes) {
        *place = *byte;
    }
}
