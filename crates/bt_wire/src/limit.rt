//! How long a message may be.

ghost use Rattle.std.specs.Prelude.{◌≡◌};
ghost use Rattle.bt_wire.specs.Limit.{frame_limit as limit_of};

/// The greatest length field that a peer of a torrent of so many pieces is allowed. The limit is our own, since BEP 3 has none:
/// 1 MiB, or a bitfield of all pieces where that is longer.
pub fn frame_limit(pieces: u32) -> u32
    ensures { result ≡ limit_of pieces }
{
    (1 + pieces.div_ceil(8)).max(1 << 20)
}
