//! The file of a recorded stream.

ghost use Rattle.std.specs.Prelude.{◌≡◌, false, is_some};

use bt_meta::{DeviceFault, Source};
use std::io;
use std::io::Read;

/// A file that a recorded stream is read from. It remembers why it couldn't be read first.
#[derive(Drop)]
pub struct InFile<'w, F> {
    pub name: &'w str,
    inner: F,
    reads: u64,
    error: Option<io::Error>,
    ended: bool,
}

impl<'w, F: Read> InFile<'w, F> {
    /// A file of which nothing was read yet.
    pub fn new(name: &'w str, inner: F) -> InFile<'w, F>
        ensures name { result.name ≡ name.entry }
        ensures left { ⟦<InFile<'w, F> as Source>⟧.left result ≡ F.remaining inner }
        ensures failed { ⟦<InFile<'w, F> as Source>⟧.failed result ≡ false }
        ensures ended { ⟦<InFile<'w, F> as Source>⟧.ended result ≡ false }
        ensures reads { ⟦<InFile<'w, F> as Source>⟧.reads result ≡ 0 }
    {
        InFile {
            name,
            inner,
            reads: 0,
            error: None,
            ended: false,
        }
    }

    /// Why it couldn't be read first, if a read has failed.
    pub fn error(&self) -> Option<io::Error>
        ensures { is_some result ≡ ⟦<InFile<'w, F> as Source>⟧.failed self.now }
    {
        self.error
    }
}

impl<F: Read> Source for InFile<'_, F> {
    ghost left = { λ s. F.remaining s.inner };

    ghost failed = { λ s. is_some s.error };

    ghost ended = { λ s. s.ended };

    ghost reads = { λ s. s.reads };

    fn read(&mut self, room: &mut [u8]) -> Result<usize, DeviceFault> {
        self.reads = self.reads.saturating_add(1);
        match self.inner.read(room) {
            Ok(count) => {
                if count == 0 && !room.is_empty() {
                    self.ended = true;
                }
                Ok(count)
            }
            Err(error) => {
                if self.error.is_none() {
                    self.error = Some(error);
                }
                Err(DeviceFault)
            }
        }
    }
}
