//! A block: what one request asks for.

/// A part of a piece that one request asks for. All three numbers are those of a `request` message (BEP 3): `begin` counts bytes from
/// the start of the piece, `len` is in bytes.
#[derive(Clone, Copy, Debug, Default, PartialEq, Eq)]
pub struct Block {
    pub piece: u32,
    pub begin: u32,
    pub len: u32,
}
