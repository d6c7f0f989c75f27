//! The pieces that each peer shows.

ghost use Rattle.std.specs.Prelude.{◌≡◌, ◌<◌, ◌+◌, ◌-◌, ◌*◌, ◌%◌, ◌^◌, ◌==◌, ◌≤◌, ℕ, true, false, length, replicate, slice_index_or, slice_set, IfOk};
ghost use Rattle.std.specs.Int.{bit_at};
ghost use Rattle.bt_meta.specs.WireBits.{FindsFirst, wire_bit};
ghost use Rattle.bt_history.specs.Counting.{table};
ghost use Rattle.bt_tables.specs.Showing.{AreSet, flags_at};
ghost use Rattle.bt_tables.specs.Stripes.{stripe};
ghost use Rattle.bt_tables.specs.Tables.{edit};

use crate::stripes::Stripes;
use bt_meta::Bitfield;
use std::alloc::{AllocError, Global};
use std::marker::Model;

/// The pieces that each worker's peer shows, a bit each, as the payload of a `bitfield` message spells them (BEP 3). What all peers show
/// of eight pieces stands side by side: of a piece that was just begun each peer is asked next whether it shows it. Which peers show nothing
/// is kept too, so that one which comes and goes before it told anything takes no look at its bits. Contracts see a list of flags for each
/// worker.
#[derive(Drop)]
pub struct Shows {
    pieces: u32,
    stripes: Stripes,
    empty: Vec<bool>,
}

impl Model for Shows {
    ghost use Rattle.std.specs.Prelude.{List, Bool, ◌<◌, ◌^◌};
    ghost use Rattle.bt_tables.specs.Showing.{AreShown, spelled_rows};

    ghost Value = { List (List Bool) };

    ghost view = { λ s. spelled_rows s.pieces s.stripes };

    ghost invariant = { λ s. AreShown s.pieces s.stripes s.empty.items };
}

impl Shows {
    /// So many peers that show none of so many pieces.
    pub fn new(alloc: Global, workers: u32, pieces: u32) -> Result<Shows, AllocError>
        ensures { IfOk result (λ shows. shows ≡ table workers (λ worker. replicate pieces false)) }
    {
        Ok(Shows {
            pieces,
            stripes: Stripes::new(alloc, workers, pieces.div_ceil(8) as usize)?,
            empty: vec![in alloc; true; workers as usize]?,
        })
    }

    /// The number of peers.
    pub fn len(&self) -> u32
        ensures { result ≡ length self.now }
    {
        self.stripes.len()
    }

    /// The number of pieces that the torrent has.
    pub fn pieces(&self) -> u32
        ensures { (worker : ℕ) → worker < length self.now → length (flags_at self.now worker) ≡ result }
    {
        self.pieces
    }

    /// Whether the worker's peer shows the piece.
    #[inline]
    pub fn has(&self, worker: u32, piece: u32) -> bool
        requires worker { worker < length self.now }
        requires piece { piece < length (flags_at self.now worker) }
        ensures { result ≡ slice_index_or (flags_at self.now worker) piece false }
    {
        bit(self.stripes.byte(worker, piece as usize / 8), piece)
    }

    /// Whether the worker's peer shows each piece.
    pub fn has_all(&self, worker: u32) -> bool
        requires { worker < length self.now }
        ensures { result ≡ true → AreSet (flags_at self.now worker) }
    {
        let bytes = self.pieces / 8;
        are_ones(&self.stripes, worker, bytes as usize) && self.has_from(worker, 8 * bytes)
    }

    /// Whether the worker's peer shows each piece from this one on.
    fn has_from(&self, worker: u32, from: u32) -> bool
        requires { worker < length self.now }
        ensures { result ≡ true → (p : ℕ) → from ≤ p → p < length (flags_at self.now worker)
            → slice_index_or (flags_at self.now worker) p false ≡ true }
    {
        for piece in from..self.pieces {
            if !self.has(worker, piece) {
                return false;
            }
        }
        true
    }

    /// The worker's peer shows the piece too.
    pub fn set(&mut self, worker: u32, piece: u32)
        requires worker { worker < length self.old }
        requires piece { piece < length (flags_at self.old worker) }
        ensures { self.new ≡ edit self.old worker (λ flags. slice_set flags piece true) }
    {
        let byte = self.stripes.byte(worker, piece as usize / 8);
        self.stripes
            .put(worker, piece as usize / 8, byte | 1 << (7 - piece % 8));
        self.empty[worker as usize] = false;
    }

    /// The worker's peer shows the piece no more.
    pub fn unset(&mut self, worker: u32, piece: u32)
        requires worker { worker < length self.old }
        requires piece { piece < length (flags_at self.old worker) }
        ensures { self.new ≡ edit self.old worker (λ flags. slice_set flags piece false) }
    {
        let byte = self.stripes.byte(worker, piece as usize / 8);
        self.stripes
            .put(worker, piece as usize / 8, byte & !(1 << (7 - piece % 8)));
    }

    /// The worker's peer shows nothing.
    pub fn clear(&mut self, worker: u32)
        requires { worker < length self.old }
        ensures { self.new ≡ edit self.old worker (λ flags. replicate (length flags) false) }
    {
        if self.empty[worker as usize] {
            return;
        }
        self.stripes.clear(worker);
        self.empty[worker as usize] = true;
    }

    /// The worker's peer shows just these pieces.
    pub fn put(&mut self, worker: u32, flags: &Bitfield)
        requires worker { worker < length self.old }
        requires flags { length flags.now ≡ length (flags_at self.old worker) }
        ensures { self.new ≡ edit self.old worker (λ old. flags.now) }
    {
        self.stripes.write(worker, flags.as_wire());
        self.empty[worker as usize] = false;
    }

    /// The first piece from this one on that the worker's peer shows.
    #[inline]
    pub fn first_from(&self, worker: u32, piece: u32) -> Option<u32>
        requires { worker < length self.now }
        ensures { FindsFirst (λ p. slice_index_or (flags_at self.now worker) p false) piece result }
    {
        if piece >= self.pieces || self.empty[worker as usize] {
            return None;
        }
        match first_bit(&self.stripes, worker, piece as usize) {
            Some(place) => Some(place as u32),
            None => None,
        }
    }
}

/// The bit of the piece in the byte that has it.
fn bit(byte: u8, piece: u32) -> bool
    ensures { result ≡ (bit_at byte (7 - piece % 8) == 1) }
{
    (byte >> (7 - piece % 8)) & 1 == 1
}

/// Whether each bit of the first so many bytes of the row is set.
fn are_ones(stripes: &Stripes, row: u32, count: usize) -> bool
    requires row { row < length stripes.now }
    requires count { count ≤ length (stripe stripes.now row) }
    ensures { result ≡ true → (p : ℕ) → p < 8 * count → wire_bit (stripe stripes.now row) p ≡ true }
{
    for place in 0..count {
        if stripes.byte(row, place) != u8::MAX {
            return false;
        }
    }
    true
}

/// The place of the first bit of the row that is set from this place on.
#[inline]
fn first_bit(stripes: &Stripes, row: u32, place: usize) -> Option<usize>
    requires row { row < length stripes.now }
    requires place { place < 8 * length (stripe stripes.now row) }
    requires few { 8 * length (stripe stripes.now row) < 2 ^ 64 }
    ensures { FindsFirst (wire_bit (stripe stripes.now row)) place result }
{
    let rest = stripes.byte(row, place / 8) << (place % 8) as u32;
    if rest != 0 {
        return Some(place + rest.leading_zeros() as usize);
    }
    first_bit_behind(stripes, row, place / 8)
}

/// The place of the first bit that is set in the bytes of the row behind this one.
fn first_bit_behind(stripes: &Stripes, row: u32, index: usize) -> Option<usize>
    requires row { row < length stripes.now }
    requires index { index < length (stripe stripes.now row) }
    requires few { 8 * length (stripe stripes.now row) < 2 ^ 64 }
    ensures { FindsFirst (wire_bit (stripe stripes.now row)) (8 * (index + 1)) result }
{
    for next in index + 1..stripes.width() {
        let byte = stripes.byte(row, next);
        if byte != 0 {
            return Some(8 * next + byte.leading_zeros() as usize);
        }
    }
    None
}
