//! A digest as C has it.

/// The 20 bytes of a SHA-1.
#[repr(C)]
#[derive(Clone, Copy, Debug, PartialEq, Eq)]
pub struct Digest {
    pub bytes: [u8; 20],
}
