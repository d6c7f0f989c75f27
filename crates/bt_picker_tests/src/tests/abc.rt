//! The torrent of the pieces `abc`, `abc` and `a`, and the digests from outside that several modules know.
ghost use Rattle.std.specs.Prelude.{◌≡◌, IfOk};
ghost use Rattle.bt_meta.specs.Layout.{piece_count};

use bt_meta::Torrent;
use std::alloc::Global;
use std::process::Abort;
use std::sync::Arc;
use std::test::Fail;

/// The SHA-1 of `abc` (FIPS 180-4, the first worked example).
pub const ABC: [u8; 20] = [
    0xa9, 0x99, 0x3e, 0x36, 0x47, 0x06, 0x81, 0x6a, 0xba, 0x3e, 0x25, 0x71, 0x78, 0x50, 0xc2, 0x6c,
    0x9c, 0xd0, 0xd8, 0x9d,
];

/// The SHA-1 of `a`, by another program.
pub const A: [u8; 20] = [
    0x86, 0xf7, 0xe4, 0x37, 0xfa, 0xa5, 0xa7, 0xfc, 0xe1, 0x5d, 0x1d, 0xdc, 0xb9, 0xea, 0xea, 0xea,
    0x37, 0x76, 0x67, 0xb8,
];

/// The SHA-1 of a million `a` (FIPS 180-4, the third worked example).
pub const MILLION: [u8; 20] = [
    0x34, 0xaa, 0x97, 0x3c, 0xd4, 0xc4, 0xda, 0xa4, 0xf6, 0x1e, 0xeb, 0x2b, 0xdb, 0xad, 0x27, 0x31,
    0x65, 0x34, 0x01, 0x6f,
];

/// The torrent of the pieces `abc`, `abc` and `a`.
pub fn torrent(rt: &impl Abort, alloc: Global) -> Result<Torrent, Fail>
    ensures { IfOk result (λ torrent. piece_count torrent.layout ≡ 3) }
{
    let hashes = vec![in alloc; ABC, ABC, A]?;
    let torrent = Torrent::of_parts(3, 7, hashes, [0; 20])?;
    assert!(rt; torrent.piece_count() == 3);
    Ok(torrent)
}

/// The same torrent, which several may hold.
pub fn shared_torrent(rt: &impl Abort, alloc: Global) -> Result<Arc<Torrent>, Fail>
    ensures { IfOk result (λ torrent. piece_count torrent.value.layout ≡ 3) }
{
    Ok(Arc::new(alloc, torrent(rt, alloc)?)?)
}
