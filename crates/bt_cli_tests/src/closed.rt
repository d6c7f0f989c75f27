//! An output that nobody reads.

use std::io;
use std::io::{ErrorKind, Write};

/// Each write to it fails as one to a pipe whose reader is gone.
#[derive(Drop)]
pub struct Closed;

impl Write for Closed {
    fn write(&mut self, _bytes: &[u8]) -> io::Result<usize> {
        Err(io::Error::from(ErrorKind::BrokenPipe))
    }

    fn flush(&mut self) -> io::Result<()> {
        Ok(())
    }
}
