//! Four lists of blocks, hashed side by side.

ghost use Rattle.std.specs.Prelude.{◌≡◌, [], ◌∷◌, IsTrue};
ghost use Rattle.std.specs.List.{concat};
ghost use Rattle.sha1.specs.Sha1.{sha1};
ghost use Rattle.bt_check.specs.Checked.{lengths};

use crate::four::FourDigests;
use bytes::Bytes;

/// Whether the blocks are equally many and equally long, block by block.
pub fn are_alike(a: &[Bytes], b: &[Bytes]) -> bool
    ensures { IsTrue result → lengths b.now ≡ lengths a.now }
{
    if a.len() != b.len() {
        return false;
    }
    for i in 0..a.len() {
        if a[i].len() != b[i].len() {
            return false;
        }
    }
    true
}

/// The digest of each list's blocks, joined.
pub fn digests_of(a: &[Bytes], b: &[Bytes], c: &[Bytes], d: &[Bytes]) -> [[u8; 20]; 4]
    requires b { lengths b.now ≡ lengths a.now }
    requires c { lengths c.now ≡ lengths a.now }
    requires d { lengths d.now ≡ lengths a.now }
    ensures { result ≡ sha1 (concat a.now) ∷ sha1 (concat b.now) ∷ sha1 (concat c.now) ∷ sha1 (concat d.now) ∷ [] }
{
    let mut four = FourDigests::new();
    for i in 0..a.len() {
        four.update(
            a[i].as_slice(),
            b[i].as_slice(),
            c[i].as_slice(),
            d[i].as_slice(),
        );
    }
    four.finish()
}
