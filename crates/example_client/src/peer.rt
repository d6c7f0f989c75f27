//! A peer that has all of the content, in memory.

use crate::PIECE_LEN;
use anyhow::Result;
use bt_meta::Block;
use bytes::Bytes;
use std::alloc::{AllocError, Global};
use std::collections::VecDeque;

/// The other side of a connection, with the requests that it has yet to answer.
#[derive(Drop)]
pub struct Peer {
    alloc: Global,
    content: Vec<u8>,
    requests: VecDeque<Block>,
    asked: u64,
}

impl Peer {
    pub fn new(alloc: Global, content: Vec<u8>) -> Peer {
        Peer {
            alloc,
            content,
            requests: VecDeque::new(alloc),
            asked: 0,
        }
    }

    pub fn content(&self) -> &[u8] {
        &self.content
    }

    /// How many requests came.
    pub fn asked(&self) -> u64 {
        self.asked
    }

    /// A `request` message.
    pub fn request(&mut self, block: Block) -> Result<(), AllocError> {
        self.asked = self.asked.saturating_add(1);
        self.requests.push_back(block)?;
        Ok(())
    }

    /// A `cancel` message.
    pub fn cancel(&mut self, block: Block) {
        self.requests.retain(|request| *request != block);
    }

    /// The block that was asked for first, with its bytes, if there is one.
    pub fn answer(&mut self) -> Result<Option<(Block, Bytes)>> {
        let Some(block) = self.requests.pop_front() else {
            return Ok(None);
        };
        let begin = block.piece as usize * PIECE_LEN as usize + block.begin as usize;
        let end = begin + block.len as usize;
        let bytes = self.content.get(begin..end).unwrap_or(&[]);
        Ok(Some((block, Bytes::copy_from_slice(self.alloc, bytes)?)))
    }
}
