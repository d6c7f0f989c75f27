//! Jobs, verdicts and what is proven, by the standard's example (FIPS 180-4). What is hashed and compared goes through functions without a
//! contract, so that a test knows of what they give alone, and its proof is short.

use crate::tests::abc;
use bt_check::*;
use bt_expect::same;
use bt_meta::Torrent;
use bytes::Bytes;
use std::alloc::{AllocError, Global};
use std::sync::Arc;
use std::test::Fail;

fn hashed(job: Job) -> Verdict {
    job.hash()
}

#[test]
fn a_job_of_two_blocks(rt: HostRuntime) -> Result<(), Fail> {
    let blocks = vec![in rt.alloc(); Bytes::from_static(b"ab"), Bytes::from_static(b"c")]?;
    let verdict = hashed(Job { piece: 7, blocks });
    same(verdict.piece(), 7)?;
    same(*verdict.digest(), abc::ABC)?;
    same(verdict.blocks().len(), 2)
}

/// The verdict of a piece of one block.
pub fn verdict(
    alloc: Global,
    piece: u32,
    block: &'static [u8],
) -> Result<Arc<Verdict>, AllocError> {
    let blocks = vec![in alloc; Bytes::from_static(block)]?;
    Ok(Arc::new(alloc, hashed(Job { piece, blocks }))?)
}

/// The piece that is proven by this block, or the one whose verdict comes back.
fn proven(
    alloc: Global,
    torrent: &Torrent,
    piece: u32,
    block: &'static [u8],
) -> Result<Result<u32, u32>, Fail> {
    Ok(match Proven::of(verdict(alloc, piece, block)?, torrent) {
        Ok(proven) => Ok(proven.piece()),
        Err(back) => Err(back.piece()),
    })
}

#[test]
fn what_fits_the_torrent_is_proven(rt: HostRuntime) -> Result<(), Fail> {
    const ROWS: &[(u32, &[u8], Result<u32, u32>)] = &[
        (0, b"abc", Ok(0)),
        (1, b"abc", Ok(1)),
        (2, b"a", Ok(2)),
        (2, b"b", Err(2)),
        (2, b"abc", Err(2)),
        (3, b"a", Err(3)),
        (u32::MAX, b"a", Err(u32::MAX)),
    ];
    let torrent = abc::torrent(&rt, rt.alloc())?;
    for &(piece, block, wanted) in ROWS {
        same(proven(rt.alloc(), &torrent, piece, block)?, wanted)?;
    }
    Ok(())
}
