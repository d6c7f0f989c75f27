//! Where a part of a source stands.

/// Where a part of a source stands, in bytes: from `start` up to `end`.
#[derive(Clone, Copy, Debug, Default, PartialEq, Eq)]
pub struct Span {
    pub start: usize,
    pub end: usize,
}
