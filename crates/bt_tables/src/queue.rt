//! Blocks in the order in which they were put, of which mostly the first one goes.

ghost use Rattle.std.specs.Prelude.{◌≡◌, ◌<◌, ◌≤◌, ◌++◌, ◌∷◌, [], drop, length, slice_index_or, IfOk, vec_capacity};
ghost use Rattle.std.specs.List.{remove};
ghost use Rattle.bt_meta.specs.declared.block.Block.{Block};
ghost use Rattle.bt_tables.specs.Queues.{QueueState};

use bt_meta::Block;
use std::alloc::{AllocError, Global};
use std::marker::Model;

/// So many blocks that have gone stand before the others at most, less one. With more of them fewer blocks are moved, and more memory is taken.
const SLACK: usize = 32;

/// Blocks, with room for so many of them, which is taken with the queue. The first one goes without a move of those behind it: where it
/// stood is passed over, until `SLACK` such places are left to be filled at once.
pub struct Queue {
    room: u32,
    all: Vec<Block>,
    gone: usize,
}

/// The end of a queue is one call for whoever owns one.
impl Drop for Queue {
    fn drop(self) {
        let Queue {
            room: _,
            all: _all,
            gone: _,
        } = self;
    }
}

impl Model for Queue {
    ghost use Rattle.std.specs.Prelude.{drop, vec_capacity};
    ghost use Rattle.bt_tables.specs.Queues.{IsQueue, QueueState};

    ghost Value = { QueueState };

    ghost view = { λ q. record { room = q.room; items = drop q.gone q.all.items } };

    ghost invariant = { λ q. IsQueue q.room (vec_capacity q.all) q.gone q.all.items };
}

impl Queue {
    /// A queue with room for so many blocks.
    pub fn new(alloc: Global, room: u32) -> Result<Queue, AllocError>
        ensures { IfOk result (λ q. q ≡ record { room = room; items = [] }) }
    {
        Ok(Queue {
            room,
            all: Vec::with_capacity(alloc, room as usize + SLACK)?,
            gone: 0,
        })
    }

    /// The blocks, the oldest first.
    pub fn as_slice(&self) -> &[Block]
        ensures { result.now ≡ self.now.items }
    {
        &self.all[self.gone..]
    }

    /// How many blocks there are.
    pub fn len(&self) -> usize
        ensures { result ≡ length self.now.items }
    {
        self.all.len() - self.gone
    }

    /// The block at this place.
    pub fn at(&self, index: usize) -> Block
        requires { index < length self.now.items }
        ensures { (d : Block) → result ≡ slice_index_or self.now.items index d }
    {
        self.all[self.gone + index]
    }

    /// Puts the block behind the others.
    pub fn push(&mut self, block: Block)
        requires { length self.old.items < self.old.room }
        ensures { self.new ≡ record self.old { items = self.old.items ++ block ∷ [] } }
    {
        self.all.push_reserved(block);
    }

    /// Takes the block at this place out.
    #[inline(always)]
    pub fn remove(&mut self, index: usize) -> Block
        requires { index < length self.old.items }
        ensures value { result ≡ slice_index_or self.old.items index result }
        ensures items { self.new ≡ record self.old { items = remove self.old.items index } }
    {
        if index == 0 {
            self.pop()
        } else {
            self.take_out(index)
        }
    }

    /// Takes the block at this place out, and moves those behind it.
    #[inline(never)] // mostly the first one goes
    fn take_out(&mut self, index: usize) -> Block
        requires { index < length self.old.items }
        ensures value { result ≡ slice_index_or self.old.items index result }
        ensures items { self.new ≡ record self.old { items = remove self.old.items index } }
    {
        self.all.remove(self.gone + index)
    }

    /// Takes the first block out.
    #[inline(always)]
    fn pop(&mut self) -> Block
        requires { 0 < length self.old.items }
        ensures value { result ≡ slice_index_or self.old.items 0 result }
        ensures items { self.new ≡ record self.old { items = remove self.old.items 0 } }
    {
        let first = self.all[self.gone];
        self.gone += 1;
        if self.gone == SLACK {
            close(&mut self.all);
            self.gone = 0;
        }
        first
    }

    /// Empties the queue.
    pub fn clear(&mut self)
        ensures { self.new ≡ record self.old { items = [] } }
    {
        self.all.clear();
        self.gone = 0;
    }
}

/// Takes the first `SLACK` blocks out.
#[inline(never)] // once in so many
fn close(all: &mut Vec<Block>)
    requires { SLACK ≤ length all.old.items }
    ensures items { all.new.items ≡ drop SLACK all.old.items }
    ensures capacity { vec_capacity all.new ≡ vec_capacity all.old }
{
    let left = all.len() - SLACK;
    all.copy_within(SLACK.., 0);
    all.truncate(left);
}
