//! Whether a set has each piece.

ghost use Rattle.std.specs.Prelude.{◌≡◌, ◌<◌, ◌≤◌, ◌*◌, ℕ, true, false, length, slice_index_or};
ghost use Rattle.bt_meta.specs.WireBits.{wire_bit};
ghost use Rattle.bt_tables.specs.Showing.{AreSet};

use bt_meta::Bitfield;

/// Whether each piece is in the set.
pub fn has_all(flags: &Bitfield) -> bool
    ensures { result ≡ true → AreSet flags.now }
{
    let bytes = flags.count() / 8;
    are_ones(flags.as_wire(), bytes as usize) && has_from(flags, 8 * bytes)
}

/// Whether each bit of the first so many bytes is set.
fn are_ones(bytes: &[u8], count: usize) -> bool
    requires { count ≤ length bytes.now }
    ensures { result ≡ true → (p : ℕ) → p < 8 * count → wire_bit bytes.now p ≡ true }
{
    for place in 0..count {
        if bytes[place] != u8::MAX {
            return false;
        }
    }
    true
}

/// Whether each piece from this one on is in the set.
fn has_from(flags: &Bitfield, from: u32) -> bool
    ensures { result ≡ true → (p : ℕ) → from ≤ p → p < length flags.now → slice_index_or flags.now p false ≡ true }
{
    for piece in from..flags.count() {
        if !flags.has(piece) {
            return false;
        }
    }
    true
}
