//! Rows of bytes that stand side by side.

ghost use Rattle.std.specs.Prelude.{◌≡◌, ◌<◌, ◌+◌, ◌*◌, ◌^◌, ℕ, [], length, replicate, slice_index_or, slice_set, IfOk};
ghost use Rattle.bt_history.specs.Counting.{table};
ghost use Rattle.bt_tables.specs.Stripes.{stripe};
ghost use Rattle.bt_tables.specs.Tables.{edit};

use std::alloc::{AllocError, Global};
use std::marker::Model;

/// Rows of bytes, as many in each, that stand side by side: the first byte of every row, then the second of every row, and so on. So who
/// looks at one place of row after row reads a cache line or two. Contracts see the list of the rows.
#[derive(Drop)]
pub struct Stripes {
    rows: u32,
    width: usize,
    bytes: Vec<u8>,
}

impl Model for Stripes {
    ghost use Rattle.std.specs.Prelude.{List, ℕ, ◌≡◌, ◌*◌, length};
    ghost use Rattle.bt_tables.specs.Stripes.{striped};

    ghost Value = { List (List ℕ) };

    ghost view = { λ s. striped s.rows s.width s.bytes.items };

    ghost invariant = { λ s. length s.bytes.items ≡ s.rows * s.width };
}

impl Stripes {
    /// So many rows of so many zeros.
    pub fn new(alloc: Global, rows: u32, width: usize) -> Result<Stripes, AllocError>
        requires { width < 2 ^ 32 }
        ensures { IfOk result (λ stripes. stripes ≡ table rows (λ row. replicate width 0)) }
    {
        Ok(Stripes {
            rows,
            width,
            bytes: vec![in alloc; 0; rows as usize * width]?,
        })
    }

    /// The number of rows.
    pub fn len(&self) -> u32
        ensures { result ≡ length self.now }
    {
        self.rows
    }

    /// The number of bytes in a row.
    pub fn width(&self) -> usize
        ensures { (row : ℕ) → row < length self.now → length (stripe self.now row) ≡ result }
    {
        self.width
    }

    /// The byte at this place of the row.
    #[inline]
    pub fn byte(&self, row: u32, place: usize) -> u8
        requires row { row < length self.now }
        requires place { place < length (stripe self.now row) }
        ensures { result ≡ slice_index_or (stripe self.now row) place 0 }
    {
        self.bytes[self.rows as usize * place + row as usize]
    }

    /// Puts a byte at this place of the row.
    pub fn put(&mut self, row: u32, place: usize, byte: u8)
        requires row { row < length self.old }
        requires place { place < length (stripe self.old row) }
        ensures { self.new ≡ edit self.old row (λ bytes. slice_set bytes place byte) }
    {
        self.bytes[self.rows as usize * place + row as usize] = byte;
    }

    /// Makes the row these bytes.
    pub fn write(&mut self, row: u32, bytes: &[u8])
        requires row { row < length self.old }
        requires width { length bytes.now ≡ length (stripe self.old row) }
        ensures { self.new ≡ edit self.old row (λ old. bytes.now) }
    {
        for place in 0..self.width() {
            self.put(row, place, bytes[place]);
        }
    }

    /// Makes the row zeros.
    pub fn clear(&mut self, row: u32)
        requires { row < length self.old }
        ensures { self.new ≡ edit self.old row (λ old. replicate (length old) 0) }
    {
        for place in 0..self.width() {
            self.put(row, place, 0);
        }
    }
}
