//! The steps of a round on words of four lanes (FIPS 180-4, 3.2, 4.1.1 and 6.1.2).

ghost use Rattle.std.specs.Prelude.{◌≡◌, ℕ, ◌+◌, ◌<◌, ◌≤◌, bit_xor, length, slice_index};
ghost use Rattle.std.specs.Int.{w32, rotate_left};
ghost use Rattle.sha1.specs.Sha1.{add32, add_state, ch, parity, maj, word_at, round};
ghost use Rattle.bt_check.specs.Lanes.{variables, bytes_of};

use std::simd::u32x4;

/// The working variables of each lane, or its hash value.
#[derive(Clone, Copy)]
pub struct Variables {
    pub a: u32x4,
    pub b: u32x4,
    pub c: u32x4,
    pub d: u32x4,
    pub e: u32x4,
}

#[inline(always)]
fn add(x: u32x4, y: u32x4) -> u32x4
    ensures { (j : ℕ) → j < 4 → slice_index result j ≡ add32 (slice_index x j) (slice_index y j) }
{
    x + y
}

#[inline(always)]
pub fn rotate_left(x: u32x4, k: u32) -> u32x4
    requires low { 0 < k }
    requires high { k < 32 }
    ensures { (j : ℕ) → j < 4 → slice_index result j ≡ rotate_left w32 (slice_index x j) k }
{
    (x << u32x4::splat(k)) | (x >> u32x4::splat(32 - k))
}

#[inline(always)]
pub fn xor(x: u32x4, y: u32x4) -> u32x4
    ensures { (j : ℕ) → j < 4 → slice_index result j ≡ bit_xor (slice_index x j) (slice_index y j) }
{
    x ^ y
}

#[inline(always)]
pub fn ch(x: u32x4, y: u32x4, z: u32x4) -> u32x4
    ensures { (j : ℕ) → j < 4
        → slice_index result j ≡ ch (slice_index x j) (slice_index y j) (slice_index z j) }
{
    (x & y) ^ (!x & z)
}

#[inline(always)]
pub fn parity(x: u32x4, y: u32x4, z: u32x4) -> u32x4
    ensures { (j : ℕ) → j < 4
        → slice_index result j ≡ parity (slice_index x j) (slice_index y j) (slice_index z j) }
{
    x ^ y ^ z
}

#[inline(always)]
pub fn maj(x: u32x4, y: u32x4, z: u32x4) -> u32x4
    ensures { (j : ℕ) → j < 4
        → slice_index result j ≡ maj (slice_index x j) (slice_index y j) (slice_index z j) }
{
    (x & y) ^ (x & z) ^ (y & z)
}

#[inline(always)]
fn load_be(block: &[u8], i: usize) -> u32
    requires { i + 4 ≤ length block.now }
    ensures { result ≡ word_at block.now i }
{
    u32::from_be_bytes([block[i], block[i + 1], block[i + 2], block[i + 3]])
}

/// The word at byte `i` of each lane's block.
#[inline(always)]
pub fn load(a: &[u8], b: &[u8], c: &[u8], d: &[u8], i: usize) -> u32x4
    requires a { i + 4 ≤ length a.now }
    requires b { i + 4 ≤ length b.now }
    requires c { i + 4 ≤ length c.now }
    requires d { i + 4 ≤ length d.now }
    ensures { (j : ℕ) → j < 4
        → slice_index result j ≡ word_at (bytes_of j a.now b.now c.now d.now) i }
{
    u32x4::from_array([load_be(a, i), load_be(b, i), load_be(c, i), load_be(d, i)])
}

/// One round, whose function gave `f`.
#[inline(always)]
pub fn round(v: Variables, f: u32x4, k: u32, word: u32x4) -> Variables
    ensures { (j : ℕ) → j < 4
        → variables j result ≡ round (variables j v) (slice_index f j) k (slice_index word j) }
{
    let sum = add(add(rotate_left(v.a, 5), f), v.e);
    Variables {
        a: add(add(sum, u32x4::splat(k)), word),
        b: v.a,
        c: rotate_left(v.b, 30),
        d: v.c,
        e: v.d,
    }
}

/// The hash value with the rounds' result added to it.
#[inline(always)]
pub fn add_state(h: Variables, v: Variables) -> Variables
    ensures { (j : ℕ) → j < 4 → variables j result ≡ add_state (variables j h) (variables j v) }
{
    Variables {
        a: add(h.a, v.a),
        b: add(h.b, v.b),
        c: add(h.c, v.c),
        d: add(h.d, v.d),
        e: add(h.e, v.e),
    }
}
