//! A torrent: how its content is cut into pieces and blocks, and the digest of each piece.

ghost use Rattle.std.specs.Prelude.{◌≡◌, ◌<◌, ◌≤◌, ◌^◌, IfOk, IfErr, List, ℕ};
ghost use Rattle.bt_meta.specs.Layout.{IsLayout, piece_count, piece_len, block_count, block, block_at, hash_of, torrent_of, pieces_in, sizes_checked};

mod reading;

use crate::block::Block;
use crate::fault::MetaFault;
pub use reading::ListedFile;
use std::alloc::AllocError;
use std::marker::Model;

/// The bytes of a block; the last one of a piece may have fewer. BEP 3 leaves the size to the downloader, and all use this one.
pub const BLOCK_SIZE: u32 = 16384;

/// What a metainfo file says of its content: how it is cut, and the SHA-1 of each piece (BEP 3). Several files are one content, their
/// concatenation.
///
/// Contracts see it as plain data, a `Metainfo`, whose layout fits together (`IsLayout`).
pub struct Torrent {
    piece_length: u32,
    total: u64,
    hashes: Vec<[u8; 20]>,
    infohash: [u8; 20],
    name: Vec<u8>,
    files: usize,
}

/// The end of a torrent is one call for whoever owns one.
impl Drop for Torrent {
    fn drop(self) {
        let Torrent {
            piece_length: _,
            total: _,
            hashes: _hashes,
            infohash: _,
            name: _name,
            files: _,
        } = self;
    }
}

impl Model for Torrent {
    ghost use Rattle.bt_meta.specs.Layout.{Metainfo, IsLayout};

    ghost Value = { Metainfo };

    ghost view = { λ t. record {
      layout = record { piece_length = t.piece_length; total = t.total; hashes = t.hashes.items };
      infohash = t.infohash;
      name = t.name.items;
      files = t.files;
    } };

    ghost invariant = { λ t. IsLayout (record { piece_length = t.piece_length; total = t.total; hashes = t.hashes.items }) };
}

impl Clone for Torrent {
    ghost is_clone = { λ t copy. copy ≡ t };

    fn clone(&self) -> Result<Torrent, AllocError> {
        Ok(Torrent {
            piece_length: self.piece_length,
            total: self.total,
            hashes: self.hashes.clone()?,
            infohash: self.infohash,
            name: self.name.clone()?,
            files: self.files,
        })
    }
}

impl Torrent {
    /// The torrent of these parts, with no name, as one file. Lengths are in bytes, and `hashes` has the SHA-1 of each piece in order.
    ///
    /// Refuses, in this order: a piece length that isn't 1 to 2^31; no content; content of 2^63 bytes or more, or of 2^32 pieces or more;
    /// another number of digests than of pieces. Takes no memory.
    pub fn of_parts(
        piece_len: u32,
        total: u64,
        hashes: Vec<[u8; 20]>,
        infohash: [u8; 20],
    ) -> Result<Torrent, MetaFault>
        ensures { result ≡ torrent_of piece_len total hashes.items infohash }
    {
        if piece_len == 0 || piece_len > 1 << 31 {
            return Err(MetaFault::PieceLength);
        }
        check_sizes(piece_len, total, hashes.len())?;
        let name = Vec::new(*hashes.allocator());
        Ok(Torrent {
            piece_length: piece_len,
            total,
            hashes,
            infohash,
            name,
            files: 1,
        })
    }

    /// The number of pieces.
    pub fn piece_count(&self) -> u32
        ensures count { result ≡ piece_count self.now.layout }
        ensures layout { IsLayout self.now.layout }
    {
        self.hashes.len() as u32
    }

    /// The `piece length` of the torrent, in bytes: that of each piece but perhaps the last.
    pub fn piece_length(&self) -> u32
        ensures { result ≡ self.now.layout.piece_length }
    {
        self.piece_length
    }

    /// The bytes of the content.
    pub fn total(&self) -> u64
        ensures { result ≡ self.now.layout.total }
    {
        self.total
    }

    /// The `name` of the info dictionary: a suggestion, and perhaps no text.
    pub fn name(&self) -> &[u8]
        ensures { result.now ≡ self.now.name }
    {
        &self.name
    }

    /// The SHA-1 of the info dictionary, by which peers know the torrent.
    pub fn infohash(&self) -> &[u8; 20]
        ensures { result.now ≡ self.now.infohash }
    {
        &self.infohash
    }

    /// The number of files whose concatenation is the content.
    pub fn file_count(&self) -> usize
        ensures { result ≡ self.now.files }
    {
        self.files
    }

    /// The SHA-1 that the bytes of a piece must have.
    pub fn hash(&self, piece: u32) -> &[u8; 20]
        requires { piece < piece_count self.now.layout }
        ensures { result.now ≡ hash_of self.now.layout piece }
    {
        &self.hashes[piece as usize]
    }

    /// The length of a piece in bytes: the last piece may be shorter than the others.
    pub fn piece_len(&self, piece: u32) -> u32
        requires { piece < piece_count self.now.layout }
        ensures len { result ≡ piece_len self.now.layout piece }
        ensures bound { result ≤ 2 ^ 31 }
        ensures some { 0 < result }
    {
        let left = self.total - u64::from(piece) * u64::from(self.piece_length);
        u64::from(self.piece_length).min(left) as u32
    }

    /// The number of blocks of a piece.
    pub fn block_count(&self, piece: u32) -> u32
        requires { piece < piece_count self.now.layout }
        ensures { result ≡ block_count self.now.layout piece }
    {
        (self.piece_len(piece) + (BLOCK_SIZE - 1)) / BLOCK_SIZE
    }

    /// Block `index` of a piece, counted from 0.
    pub fn block(&self, piece: u32, index: u32) -> Block
        requires piece { piece < piece_count self.now.layout }
        requires index { index < block_count self.now.layout piece }
        ensures { result ≡ block self.now.layout piece index }
    {
        let len = self.piece_len(piece);
        let begin = BLOCK_SIZE * index;
        Block {
            piece,
            begin,
            len: BLOCK_SIZE.min(len - begin),
        }
    }

    /// The block of a piece that begins `begin` bytes into it, where one does.
    pub fn block_at(&self, piece: u32, begin: u32) -> Option<Block>
        requires { piece < piece_count self.now.layout }
        ensures { result ≡ block_at self.now.layout piece begin }
    {
        let len = self.piece_len(piece);
        if begin % BLOCK_SIZE != 0 || begin >= len {
            return None;
        }
        Some(Block {
            piece,
            begin,
            len: BLOCK_SIZE.min(len - begin),
        })
    }
}

/// Whether so much content makes so many pieces of this length, all within the limits. The order of the tests is the definition's, since
/// it says which fault is told.
fn check_sizes(piece_len: u32, total: u64, digests: usize) -> Result<(), MetaFault>
    requires { (0 < piece_len) × (piece_len ≤ 2 ^ 31) }
    ensures { result ≡ sizes_checked piece_len total digests }
{
    if total >= 1 << 63 {
        return Err(MetaFault::TooLarge);
    }
    if total == 0 {
        return Err(MetaFault::NoContent);
    }
    let pieces = pieces_in(total, piece_len);
    if pieces >= 1 << 32 {
        return Err(MetaFault::TooLarge);
    }
    if digests as u64 != pieces {
        return Err(MetaFault::CountMismatch);
    }
    Ok(())
}

/// How many pieces of this length the content makes.
fn pieces_in(total: u64, piece_len: u32) -> u64
    requires piece_len { (0 < piece_len) × (piece_len ≤ 2 ^ 31) }
    requires total { (0 < total) × (total < 2 ^ 63) }
    ensures { result ≡ pieces_in total piece_len }
{
    let piece_len = u64::from(piece_len);
    (total + piece_len - 1) / piece_len
}
