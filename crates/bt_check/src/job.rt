//! The hashing of a piece, and the verdict that keeps its digest with the bytes.

ghost use Rattle.std.specs.Prelude.{◌≡◌};
ghost use Rattle.std.specs.List.{concat};
ghost use Rattle.sha1.specs.Sha1.{sha1};
ghost use Rattle.bt_check.specs.Checked.{digest_of};

use crate::lanes::{are_alike, digests_of};
use bytes::Bytes;
use sha1::Sha1;
use std::marker::Model;

/// A piece to be hashed: its blocks in order. `Bytes` are shared, so that a job can be hashed while others use the blocks.
#[derive(Drop)]
pub struct Job {
    pub piece: u32,
    pub blocks: Vec<Bytes>,
}

/// The digest of a piece's blocks, with the blocks themselves. Every such value has the SHA-1 of those blocks, joined, as digest
/// (FIPS 180-4): only `Job::hash` and `Job::hash_four` make one.
///
/// Contracts see the piece and the blocks.
pub struct Verdict {
    piece: u32,
    blocks: Vec<Bytes>,
    digest: [u8; 20],
}

/// The end of a verdict is one call for whoever owns one.
impl Drop for Verdict {
    fn drop(self) {
        let Verdict {
            piece: _,
            blocks: _blocks,
            digest: _,
        } = self;
    }
}

impl Model for Verdict {
    ghost use Rattle.std.specs.Prelude.{◌≡◌};
    ghost use Rattle.std.specs.List.{concat};
    ghost use Rattle.sha1.specs.Sha1.{sha1};
    ghost use Rattle.bt_check.specs.Checked.{Checked};

    ghost Value = { Checked };

    ghost view = { λ v. record { piece = v.piece; blocks = v.blocks.items } };

    ghost invariant = { λ v. v.digest ≡ sha1 (concat v.blocks.items) };
}

impl Job {
    /// Hashes the blocks one after the other, joining none. Takes no memory, and needs no lock.
    pub fn hash(self) -> Verdict
        ensures piece { result.piece ≡ self.piece }
        ensures blocks { result.blocks ≡ self.blocks.items }
    {
        let Job { piece, blocks } = self;
        let mut hasher = Sha1::new();
        for block in &blocks {
            hasher.update(block.as_slice());
        }
        Verdict {
            piece,
            blocks,
            digest: hasher.finalize(),
        }
    }

    /// Hashes four jobs, each as `hash` does. Where their blocks are equally many and equally long, block by block, they are hashed side by
    /// side, which is faster. Takes no memory, and needs no lock.
    pub fn hash_four(
        first: Job,
        second: Job,
        third: Job,
        fourth: Job,
    ) -> (Verdict, Verdict, Verdict, Verdict)
        ensures first { (result.0.piece ≡ first.piece) × (result.0.blocks ≡ first.blocks.items) }
        ensures second { (result.1.piece ≡ second.piece) × (result.1.blocks ≡ second.blocks.items) }
        ensures third { (result.2.piece ≡ third.piece) × (result.2.blocks ≡ third.blocks.items) }
        ensures fourth { (result.3.piece ≡ fourth.piece) × (result.3.blocks ≡ fourth.blocks.items) }
    {
        let (a, b) = (first.blocks.as_slice(), second.blocks.as_slice());
        let (c, d) = (third.blocks.as_slice(), fourth.blocks.as_slice());
        if are_alike(a, b) && are_alike(a, c) && are_alike(a, d) {
            let digests = digests_of(a, b, c, d);
            (
                with_digest(first, digests[0]),
                with_digest(second, digests[1]),
                with_digest(third, digests[2]),
                with_digest(fourth, digests[3]),
            )
        } else {
            (first.hash(), second.hash(), third.hash(), fourth.hash())
        }
    }
}

/// The verdict of a job, with the digest of its blocks.
fn with_digest(job: Job, digest: [u8; 20]) -> Verdict
    requires { digest ≡ sha1 (concat job.blocks.items) }
    ensures piece { result.piece ≡ job.piece }
    ensures blocks { result.blocks ≡ job.blocks.items }
{
    let Job {
        piece,
        blocks: hashed,
    } = job;
    Verdict {
        piece,
        blocks: hashed,
        digest,
    }
}

impl Verdict {
    pub fn piece(&self) -> u32
        ensures { result ≡ self.now.piece }
    {
        self.piece
    }

    /// The blocks that were hashed, in order.
    pub fn blocks(&self) -> &[Bytes]
        ensures { result.now ≡ self.now.blocks }
    {
        self.blocks.as_slice()
    }

    pub fn digest(&self) -> &[u8; 20]
        ensures { result.now ≡ digest_of self.now }
    {
        &self.digest
    }
}
