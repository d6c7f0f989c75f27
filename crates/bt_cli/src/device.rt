//! The output: a buffer before a writer, that remembers why it failed.

ghost use Rattle.std.specs.Prelude.{◌≡◌, [], false, is_some, true, OnErr, OnOk};
ghost use Rattle.std.specs.Io.Buffered.{writer_buffer, writer_contents};
ghost use Rattle.std.specs.Io.KnownBytes.{Keeps};

use bt_meta::{DeviceFault, Sink};
use std::io;
use std::io::{BufWriter, ErrorKind, Write};

/// A buffer before a writer, that remembers why it failed first.
pub struct Device<O: Write + Drop> {
    inner: BufWriter<O>,
    error: Option<io::Error>,
}

impl<O: Write + Drop> Drop for Device<O> {
    fn drop(self) {
        let Device {
            inner: _inner,
            error: _,
        } = self;
    }
}

impl<O: Write + Drop> Device<O> {
    pub fn new(inner: BufWriter<O>) -> Device<O>
        ensures written { ⟦<Device<O> as Sink>⟧.written result ≡ writer_contents O.contents inner }
        ensures failed { ⟦<Device<O> as Sink>⟧.failed result ≡ false }
    {
        Device { inner, error: None }
    }

    /// Keeps the first error.
    fn note(&mut self, error: io::Error)
        ensures inner { self.new.inner ≡ self.old.inner }
        ensures failed { is_some self.new.error ≡ true }
    {
        if self.error.is_none() {
            self.error = Some(error);
        }
    }

    /// Writes what is held back, and says why the device failed first, if it has failed.
    pub fn finish(&mut self) -> io::Result<()>
        ensures ok { OnOk result (⟦<Device<O> as Sink>⟧.failed self.new ≡ false) }
        ensures flushed { OnOk result (writer_buffer self.new.inner ≡ []) }
        ensures err { OnErr result (⟦<Device<O> as Sink>⟧.failed self.new ≡ true) }
        ensures kept { Keeps (⟦<Device<O> as Sink>⟧.written self.old) (⟦<Device<O> as Sink>⟧.written self.new) }
    {
        if let Err(error) = self.inner.flush() {
            self.note(error);
        }
        match self.error {
            Some(error) => Err(error),
            None => Ok(()),
        }
    }
}

impl<O: Write + Drop> Sink for Device<O> {
    ghost written = { λ device. writer_contents O.contents device.inner };

    ghost failed = { λ device. is_some device.error };

    fn write(&mut self, bytes: &[u8]) -> Result<usize, DeviceFault> {
        match self.inner.write(bytes) {
            Ok(count) => {
                if count == 0 && !bytes.is_empty() {
                    self.note(io::Error::from(ErrorKind::WriteZero));
                }
                Ok(count)
            }
            Err(error) => {
                self.note(error);
                Err(DeviceFault)
            }
        }
    }
}
