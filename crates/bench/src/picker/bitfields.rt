//! Which pieces the peers of the swarm show.

use crate::mix::Mix;
use bt_meta::Bitfield;
use std::alloc::{AllocError, Global};

/// Where the words begin.
const SEED: u64 = 1;

/// Bitfields of so many pieces at random, one after the other: 64 pieces to a word, its low bit first. A peer shows half of the pieces, and
/// half as many again for each halving.
#[derive(Drop)]
pub struct Bitfields {
    rng: Mix,
    pieces: u32,
    halvings: u32,
}

impl Bitfields {
    pub fn new(pieces: u32, halvings: u32) -> Bitfields {
        Bitfields {
            rng: Mix::new(SEED),
            pieces,
            halvings,
        }
    }

    /// The next peer's pieces: all of them where it is a seed.
    pub fn next(&mut self, alloc: Global, is_seed: bool) -> Result<Bitfield, AllocError> {
        let mut flags = Bitfield::empty(alloc, self.pieces)?;
        let mut word = u64::MAX;
        for piece in 0..self.pieces {
            if piece % 64 == 0 && !is_seed {
                word = self.sparse_word();
            }
            if piece < flags.count() && (word >> (piece % 64)) & 1 == 1 {
                flags.set(piece);
            }
        }
        Ok(flags)
    }

    /// Which of 64 pieces are shown: those whose bit is set in each of so many words more.
    fn sparse_word(&mut self) -> u64 {
        let mut word = self.rng.next_word();
        for _ in 0..self.halvings {
            word &= self.rng.next_word();
        }
        word
    }
}
