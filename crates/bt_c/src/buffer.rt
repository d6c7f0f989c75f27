//! A caller's buffer as a place where bytes go.
ghost use Rattle.std.specs.Prelude.{◌≡◌, ◌+◌, ◌-◌, ◌++◌, length, min, take};
ghost use Rattle.bt_c.specs.Rooms.{has_refused, written_to};

use bt_meta::{DeviceFault, Sink};

/// A buffer that is filled from its front. A write into a full one is refused.
#[derive(Drop)]
pub struct Buffer<'a> {
    room: &'a mut [u8],
    filled: usize,
    refused: bool,
}

/// Copies as many of the bytes as there is room for from this place on, and says how many.
fn copy_from(room: &mut [u8], place: usize, bytes: &[u8]) -> usize
    ensures count { result ≡ min (length bytes.now) (length room.old - place) }
    ensures copied { take (place + result) room.new ≡ take place room.old ++ take result bytes.now }
{
    let start = place.min(room.len());
    let count = bytes.len().min(room.len() - start);
    room[start..start + count].copy_from_slice(&bytes[..count]);
    count
}

impl<'a> Buffer<'a> {
    /// The buffer, of which nothing is filled yet.
    pub fn new(room: &'a mut [u8]) -> Buffer<'a>
        ensures same_reference { result.room.ghost_name ≡ room.entry.ghost_name }
        ensures room { result.room.now ≡ room.old }
        ensures filled { result.filled ≡ 0 }
    {
        Buffer {
            room,
            filled: 0,
            refused: false,
        }
    }
}

impl Sink for Buffer<'_> {
    ghost written = { written_to };

    ghost failed = { has_refused };

    fn write(&mut self, bytes: &[u8]) -> Result<usize, DeviceFault> {
        let is_full = self.filled >= self.room.len();
        self.refused = is_full && (self.refused || !bytes.is_empty());
        let count = copy_from(self.room, self.filled, bytes);
        self.filled += count;
        Ok(count)
    }
}
