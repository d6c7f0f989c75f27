//! The bytes of the blocks that are held of pieces begun.
ghost use Rattle.std.specs.Prelude.{◌≡◌, ◌<◌, [], length, replicate, slice_index_or, slice_set, IfOk};
ghost use Rattle.bt_meta.specs.Layout.{block_count, piece_count};
ghost use Rattle.bt_picker.specs.Tables.{edit};
ghost use Rattle.bt_picker.specs.Stashes.{roomed, stashed};

use bt_meta::Torrent;
use bytes::Bytes;
use std::alloc::{AllocError, Global};
use std::marker::Model;

/// A row for each piece, in the order of the torrent, since a call names its piece. It has the bytes of each block, or none where the
/// block isn't held. A piece of which nothing is held has an empty row, and so has each piece that is had.
#[derive(Drop)]
pub struct Stash {
    rows: Vec<Vec<Bytes>>,
}

impl Model for Stash {
    ghost use Rattle.std.specs.Prelude.{List, ℕ, map};

    ghost Value = { List (List (List ℕ)) };

    ghost view = { λ s. map (λ row. row.items) s.rows.items };
}

impl Stash {
    /// Empty rows for so many pieces.
    pub fn new(alloc: Global, pieces: u32) -> Result<Stash, AllocError>
        ensures { IfOk result (λ s. s ≡ replicate pieces []) }
    {
        let mut rows = Vec::with_capacity(alloc, pieces as usize)?;
        for piece in 0..pieces {
            let _piece = piece;
            rows.push(Vec::new(alloc))?;
        }
        Ok(Stash { rows })
    }

    /// The piece's row.
    pub fn row(&self, piece: u32) -> &[Bytes]
        ensures { result.now ≡ slice_index_or self.now piece [] }
    {
        match self.rows.get(piece as usize) {
            Some(row) => row.as_slice(),
            None => &[],
        }
    }

    /// What is kept of the block.
    pub fn bytes(&self, piece: u32, index: u32) -> &[u8]
        ensures { result.now ≡ stashed self.now piece index }
    {
        match self.row(piece).get(index as usize) {
            Some(bytes) => bytes.as_slice(),
            None => &[],
        }
    }

    /// Room for the piece's blocks, where there is such a piece and its row is empty. Nothing is changed.
    pub fn room(
        &self,
        alloc: Global,
        torrent: &Torrent,
        piece: u32,
    ) -> Result<Vec<Bytes>, AllocError>
        ensures { IfOk result (λ room. piece < piece_count torrent.now.layout → slice_index_or self.now piece [] ≡ []
            → room.items ≡ replicate (block_count torrent.now.layout piece) []) }
    {
        if piece < torrent.piece_count() && self.row(piece).is_empty() {
            Vec::from_elem(alloc, Bytes::new(), torrent.block_count(piece) as usize)
        } else {
            Ok(Vec::new(alloc))
        }
    }

    /// Keeps the block's bytes. Where the piece's row is empty, this room becomes its row.
    pub fn put(&mut self, piece: u32, room: Vec<Bytes>, index: u32, bytes: Bytes)
        requires piece { piece < length self.old }
        requires index { index < length (roomed (slice_index_or self.old piece []) room.items) }
        ensures { self.new ≡ edit self.old piece (λ row. slice_set (roomed row room.items) index bytes) }
    {
        put_in(&mut self.rows[piece as usize], room, index, bytes);
    }

    /// Takes the piece's row, and leaves an empty one.
    pub fn take(&mut self, piece: u32) -> Vec<Bytes>
        requires { piece < length self.old }
        ensures row { result.items ≡ slice_index_or self.old piece [] }
        ensures left { self.new ≡ edit self.old piece (λ row. []) }
    {
        let none = self.none();
        std::mem::replace(&mut self.rows[piece as usize], none)
    }

    /// Keeps the block's bytes no more, where it has them.
    pub fn clear(&mut self, piece: u32, index: u32)
        requires { piece < length self.old }
        ensures { self.new ≡ edit self.old piece (λ row. slice_set row index []) }
    {
        clear_in(&mut self.rows[piece as usize], index);
    }

    /// No blocks. Takes no memory.
    pub fn none(&self) -> Vec<Bytes>
        ensures { result.items ≡ [] }
    {
        Vec::new(*self.rows.allocator())
    }
}

/// Keeps the block's bytes in this row, or in this room where the row is empty.
fn put_in(row: &mut Vec<Bytes>, room: Vec<Bytes>, index: u32, bytes: Bytes)
    requires { index < length (roomed row.old.items room.items) }
    ensures { row.new.items ≡ slice_set (roomed row.old.items room.items) index bytes }
{
    if row.is_empty() {
        *row = room;
    }
    row[index as usize] = bytes;
}

/// Keeps the block's bytes in this row no more, where the row has so many.
fn clear_in(row: &mut Vec<Bytes>, index: u32)
    ensures { row.new.items ≡ slice_set row.old.items index [] }
{
    if (index as usize) < row.len() {
        row[index as usize] = Bytes::new();
    }
}
