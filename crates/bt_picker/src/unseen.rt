//! Bytes that a client has stored, and that no picker reads.
ghost use Rattle.std.specs.Prelude.{◌≡◌, List, ℕ};
ghost use Rattle.std.specs.Borrow.{ftrue};
ghost use Rattle.bt_picker.specs.Restores.{part};

use std::marker::Model;

/// Bytes of which proofs alone know. They take no memory: whoever calls says in a proof which they are.
#[derive(Drop)]
pub struct Unseen {
    pub ghost bytes: { List ℕ },
}

impl Model for Unseen {
    ghost also_owns = { λ _. ftrue };
}

impl Unseen {
    /// The bytes that the caller's proof names.
    pub fn these() -> Unseen
        ghost bytes: { List ℕ }
        ensures { result.bytes ≡ bytes }
    {
        Unseen {}
    }

    /// The bytes of the slice, which aren't read.
    pub fn of(bytes: &[u8]) -> Unseen
        ensures { result.bytes ≡ bytes.now }
    {
        beside(bytes)
    }

    /// The bytes of the block that begins there, of those of a piece.
    pub(crate) fn part(&self, begin: u32) -> Unseen
        ensures { result.bytes ≡ part self.now.bytes begin }
    {
        within(self, begin)
    }
}

/// Bytes that a proof chooses by those of the slice.
fn beside(_bytes: &[u8]) -> Unseen
    ghost chosen: { List ℕ }
    ensures { result.bytes ≡ chosen }
{
    Unseen::these()
}

/// Bytes that a proof chooses by those of the whole, and by where they begin.
fn within(_whole: &Unseen, _begin: u32) -> Unseen
    ghost chosen: { List ℕ }
    ensures { result.bytes ≡ chosen }
{
    Unseen::these()
}
