//! The file of `--out`.

ghost use Rattle.std.specs.Prelude.{◌≡◌, ◌||◌, None, false, is_some, true};
ghost use Rattle.std.specs.Io.{WritesAtMost};
ghost use Rattle.std.specs.Io.KnownBytes.{WriteAppends};
ghost use Rattle.bt_meta.specs.Devices.{is_refused};
ghost use Rattle.bt_cli.specs.Saves.{HandsOn};

use crate::saving::NewFile;
use crate::target::Kept;
use bt_meta::{DeviceFault, Sink};
use std::fs::Files;
use std::io::{ErrorKind, Write};
use std::{fs, io};

/// A file that is made when it is asked for, and remembers why it failed first.
#[derive(Drop)]
pub struct OutFile<'f, 'w, R: Files> {
    files: &'f R,
    path: &'w str,
    made: Option<R::File>,
    error: Option<io::Error>,
}

impl<'f, 'w, R: Files> OutFile<'f, 'w, R> {
    /// No file yet, and so no failure yet: a command's caller takes a sink that has failed for the reason of `Fault::File`.
    pub fn new(files: &'f R, path: &'w str) -> OutFile<'f, 'w, R>
        ensures { ⟦<OutFile<'f, 'w, R> as Sink>⟧.failed result ≡ false }
    {
        OutFile {
            files,
            path,
            made: None,
            error: None,
        }
    }

    /// Keeps the first error.
    fn note(&mut self, error: io::Error)
        ensures failed { is_some self.new.error ≡ true }
        ensures made { self.new.made ≡ self.old.made }
    {
        if self.error.is_none() {
            self.error = Some(error);
        }
    }
}

impl<R: Files> Kept for OutFile<'_, '_, R> {
    fn reason(&self) -> io::Error {
        match self.error {
            Some(error) => error,
            None => unreachable!(),
        }
    }
}

impl<R: Files> NewFile for OutFile<'_, '_, R> {
    ghost blank = { None };

    fn create(&mut self) -> Result<(), DeviceFault> {
        match fs::create(self.files, self.path) {
            Ok(file) => {
                self.made = Some(file);
                Ok(())
            }
            Err(error) => {
                self.note(error);
                Err(DeviceFault)
            }
        }
    }
}

impl<'f, 'w, R: Files> Sink for OutFile<'f, 'w, R> {
    // No contract says what a file holds that was just made.
    ghost written = { λ _. None };

    ghost failed = { λ file. is_some file.error };

    fn write(&mut self, bytes: &[u8]) -> Result<usize, DeviceFault>
        ensures bound { WritesAtMost result bytes.now }
        ensures bytes { WriteAppends (⟦<OutFile<'f, 'w, R> as Sink>⟧.written self.old)
            (⟦<OutFile<'f, 'w, R> as Sink>⟧.written self.new) result bytes.now }
        ensures failed { ⟦<OutFile<'f, 'w, R> as Sink>⟧.failed self.new
            ≡ (⟦<OutFile<'f, 'w, R> as Sink>⟧.failed self.old || is_refused result bytes.now) }
        // The file itself is handed the bytes that are said to be taken, as they are, and no others.
        ensures handed { HandsOn R.File.contents self.old.made self.new.made result bytes.now }
    {
        let written = match &mut self.made {
            Some(file) => write_to(file, bytes),
            None => Err(io::Error::from(ErrorKind::NotFound)),
        };
        match written {
            Ok(count) => {
                if count == 0 && !bytes.is_empty() {
                    self.note(io::Error::from(ErrorKind::WriteZero));
                }
                Ok(count)
            }
            Err(error) => {
                self.note(error);
                Err(DeviceFault)
            }
        }
    }
}

/// Hands the bytes to the file, as they are.
fn write_to<W: Write>(file: &mut W, bytes: &[u8]) -> io::Result<usize>
    ensures bound { WritesAtMost result bytes.now }
    ensures bytes { WriteAppends (W.contents file.old) (W.contents file.new) result bytes.now }
{
    file.write(bytes)
}
