//! Pieces as bits of words.

ghost use Rattle.std.specs.Prelude.{◌≡◌, ◌↔◌, ◌⊎◌, ◌<◌, ℕ, length, IfSome, IfNone};
ghost use Rattle.std.specs.Int.{bit_at};
ghost use Rattle.bt_board.specs.Story.{IsSet};

/// The least bit that was found and hasn't been given.
pub fn least_new(found: u64, given: u64) -> Option<u32>
    ensures some { IfSome result (λ b. (b < 64) × (bit_at found b ≡ 1) × (bit_at given b ≡ 0)) }
    ensures least { IfSome result (λ b. (i : ℕ) → i < b → bit_at found i ≡ 1 → bit_at given i ≡ 1) }
    ensures none { IfNone result ((i : ℕ) → bit_at found i ≡ 1 → bit_at given i ≡ 1) }
{
    let new = found & !given;
    if new == 0 {
        None
    } else {
        Some(new.trailing_zeros())
    }
}

/// Adds the bits of the other words.
pub fn unite(words: &mut [u64], others: &[u64])
    requires { length words.old ≡ length others.now }
    ensures { (p : ℕ) → IsSet words.new p ↔ (IsSet words.old p ⊎ IsSet others.now p) }
{
    for i in 0..words.len() {
        words[i] |= others[i];
    }
}
