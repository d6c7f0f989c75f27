//! What each lane has of a block that isn't whole yet.

ghost use Rattle.std.specs.Prelude.{◌≡◌, ℕ, ◌+◌, ◌<◌, ◌≤◌, ◌++◌, length, take};
ghost use Rattle.bt_check.specs.Lanes.{bytes_of};
ghost use Rattle.bt_check.specs.Holding.{tail_of};

/// A block of each lane, of which the first bytes count.
#[derive(Drop)]
pub struct Tails {
    pub a: [u8; 64],
    pub b: [u8; 64],
    pub c: [u8; 64],
    pub d: [u8; 64],
}

impl Tails {
    /// Writes the bytes of each lane, from `at` on.
    pub fn put(&mut self, at: usize, a: &[u8], b: &[u8], c: &[u8], d: &[u8])
        requires room { at + length a.now ≤ 64 }
        requires b { length b.now ≡ length a.now }
        requires c { length c.now ≡ length a.now }
        requires d { length d.now ≡ length a.now }
        ensures { (j : ℕ) → j < 4 → take (at + length a.now) (tail_of j self.new)
            ≡ take at (tail_of j self.old) ++ bytes_of j a.now b.now c.now d.now }
    {
        let end = at + a.len();
        self.a[at..end].copy_from_slice(a);
        self.b[at..end].copy_from_slice(b);
        self.c[at..end].copy_from_slice(c);
        self.d[at..end].copy_from_slice(d);
    }
}
