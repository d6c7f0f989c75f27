//! A set of pieces, by its payload on the wire (BEP 3, "bitfield").

ghost use Rattle.std.specs.Prelude.{◌≡◌, ◌≢◌, ◌↔◌, ◌<◌, ◌-◌, ◌==◌, IsTrue, ◌≤◌, ◌*◌, ◌+◌, ◌^◌, ℕ, Bool, true, false, length, replicate};
ghost use Rattle.std.specs.Prelude.{slice_index_or, slice_set, count_by, IfOk, Err, List};
ghost use Rattle.bt_meta.specs.WireBits.{FindsFirst, HasSpareBit, IsFirstBit, IsSpelled, wire_bit, wire_len};

use crate::fault::BitFault;
use std::alloc::{AllocError, Global};
use std::marker::Model;

/// A set of pieces: a flag for each piece of a torrent, a bit each, kept as the payload of the `bitfield` message that tells it (BEP 3).
/// Contracts see it as the list of its flags.
#[derive(Drop)]
pub struct Bitfield {
    count: u32,
    bytes: Vec<u8>,
}

impl Model for Bitfield {
    ghost use Rattle.std.specs.Prelude.{List, Bool};
    ghost use Rattle.bt_meta.specs.WireBits.{IsPayload, flags_of};

    ghost Value = { List Bool };

    ghost view = { λ b. flags_of b.count b.bytes.items };

    ghost invariant = { λ b. IsPayload b.count b.bytes.items };
}

impl Bitfield {
    /// The empty set of pieces of a torrent that has `count` of them.
    pub fn empty(alloc: Global, count: u32) -> Result<Bitfield, AllocError>
        ensures { IfOk result (λ b. b ≡ replicate count false) }
    {
        Ok(Bitfield {
            count,
            bytes: vec![in alloc; 0; bytes_for(count)]?,
        })
    }

    /// The set that the payload of a `bitfield` message spells, for a torrent of `count` pieces (BEP 3).
    ///
    /// Refuses, in this order: another number of bytes than the pieces need, and a spare bit that is set.
    pub fn from_wire(alloc: Global, bytes: &[u8], count: u32) -> Result<Bitfield, BitFault>
        ensures ok { IfOk result (λ b. (length b ≡ count) × IsSpelled b bytes.now) }
        ensures wrong_count { (result ≡ Err BitFault.WrongCount) ↔ (length bytes.now ≢ wire_len count) }
        ensures spare_bits { (result ≡ Err BitFault.SpareBits)
            ↔ ((length bytes.now ≡ wire_len count) × HasSpareBit bytes.now count) }
    {
        if bytes.len() != bytes_for(count) {
            return Err(BitFault::WrongCount);
        }
        if has_spare_bit(bytes, count) {
            return Err(BitFault::SpareBits);
        }
        match bytes.to_vec(alloc) {
            Ok(bytes) => Ok(Bitfield { count, bytes }),
            Err(_) => Err(BitFault::NoMemory),
        }
    }

    /// The payload of a `bitfield` message that tells this set (BEP 3).
    pub fn as_wire(&self) -> &[u8]
        ensures { IsSpelled self.now result.now }
    {
        self.bytes.as_slice()
    }

    /// The same, in bytes of its own.
    pub fn to_wire(&self, alloc: Global) -> Result<Vec<u8>, AllocError>
        ensures { IfOk result (λ v. IsSpelled self.now v.items) }
    {
        self.bytes.to_vec(alloc)
    }

    /// The number of pieces that the torrent has.
    pub fn count(&self) -> u32
        ensures { result ≡ length self.now }
    {
        self.count
    }

    /// Whether the piece is in the set.
    pub fn has(&self, piece: u32) -> bool
        requires { piece < length self.now }
        ensures { result ≡ slice_index_or self.now piece false }
    {
        bit(&self.bytes, piece as usize)
    }

    /// Adds a piece to the set.
    pub fn set(&mut self, piece: u32)
        requires { piece < length self.old }
        ensures { self.new ≡ slice_set self.old piece true }
    {
        self.bytes[piece as usize / 8] |= 1 << (7 - piece % 8);
    }

    /// Takes all pieces out of the set.
    pub fn clear(&mut self)
        ensures { self.new ≡ replicate (length self.old) false }
    {
        self.bytes.fill(0);
    }

    /// Makes the set the same as another one of the same torrent.
    pub fn copy_from(&mut self, other: &Bitfield)
        requires { length other.now ≡ length self.old }
        ensures { self.new ≡ other.now }
    {
        self.bytes.copy_from_slice(&other.bytes);
    }

    /// The number of pieces in the set.
    pub fn count_ones(&self) -> u32
        ensures { result ≡ count_by (λ flag. flag) self.now }
    {
        let mut ones = 0;
        for piece in 0..self.count {
            if self.has(piece) {
                ones += 1;
            }
        }
        ones
    }

    /// The first piece of the set that is this one or a later one.
    #[inline]
    pub fn first_from(&self, piece: u32) -> Option<u32>
        ensures { FindsFirst (λ p. slice_index_or self.now p false) piece result }
    {
        if piece >= self.count {
            return None;
        }
        match first_bit(&self.bytes, piece as usize) {
            Some(place) => Some(place as u32),
            None => None,
        }
    }
}

/// How many bytes hold a bit for each of so many pieces.
fn bytes_for(count: u32) -> usize
    ensures { result ≡ wire_len count }
{
    count.div_ceil(8) as usize
}

/// The bit of a piece in the payload of a `bitfield` message.
fn bit(bytes: &[u8], piece: usize) -> bool
    requires { piece < 8 * length bytes.now }
    ensures { result ≡ wire_bit bytes.now piece }
{
    (bytes[piece / 8] >> (7 - piece % 8) as u32) & 1 == 1
}

/// Whether a bit behind those of the pieces is set.
fn has_spare_bit(bytes: &[u8], count: u32) -> bool
    requires { length bytes.now ≡ wire_len count }
    ensures { IsTrue result ↔ HasSpareBit bytes.now count }
{
    for place in count as usize..8 * bytes.len() {
        if bit(bytes, place) {
            return true;
        }
    }
    false
}

/// The place of the first bit that is set from this place on.
#[inline]
fn first_bit(bytes: &[u8], place: usize) -> Option<usize>
    requires place { place < 8 * length bytes.now }
    requires few { 8 * length bytes.now < 2 ^ 64 }
    ensures { FindsFirst (wire_bit bytes.now) place result }
{
    let rest = bytes[place / 8] << (place % 8) as u32;
    if rest != 0 {
        return Some(place + leading_bit(rest) as usize);
    }
    first_bit_behind(bytes, place / 8)
}

/// The place of the first bit that is set in the bytes behind this one.
fn first_bit_behind(bytes: &[u8], index: usize) -> Option<usize>
    requires index { index < length bytes.now }
    requires few { 8 * length bytes.now < 2 ^ 64 }
    ensures { FindsFirst (wire_bit bytes.now) (8 * (index + 1)) result }
{
    for next in index + 1..bytes.len() {
        let byte = bytes[next];
        if byte != 0 {
            return Some(8 * next + leading_bit(byte) as usize);
        }
    }
    None
}

/// How many bits stand in front of the first one that is set, from the high bit down.
#[inline]
fn leading_bit(byte: u8) -> u32
    requires { 0 < byte }
    ensures { IsFirstBit byte result }
{
    byte.leading_zeros()
}
