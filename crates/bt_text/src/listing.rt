//! The files of a metainfo file, as `info --files` prints them.

ghost use Rattle.std.specs.Prelude.{◌≡◌, ◌⊎◌, Some, true, Err, IfErr, OnOk};
ghost use Rattle.std.specs.Io.KnownBytes.{Appends};
ghost use Rattle.bt_meta.specs.Files.{files_of_file};
ghost use Rattle.bt_text.specs.declared.fault.Fault.TheVariants.{File, Memory};
ghost use Rattle.bt_text.specs.Listing.{IsListingFault, PrintsFiles, file_line, file_lines, path_text, part_text};

use crate::fault::Fault;
use crate::printing::print;
use crate::text::Name;
use bt_meta::{DeviceFault, ListedFile, Sink};
use bytes::Bytes;
use std::alloc::Global;
use std::fmt;

/// Prints the files that a metainfo file lists, a line each: its bytes, and the names on its path.
///
/// Refuses bytes that are no metainfo file; else it fails where `out` does, and for want of memory.
pub fn print_files<O: Sink>(alloc: Global, meta: &[u8], out: &mut O) -> Result<(), Fault>
    ensures ok { OnOk result (PrintsFiles (files_of_file meta.now) (O.written out.old) (O.written out.new)) }
    ensures err { IfErr result (IsListingFault (files_of_file meta.now)) }
    ensures file { result ≡ Err File → O.failed out.new ≡ true }
{
    let files = ListedFile::read_all(alloc, meta)?;
    print_listed(alloc, &files, out)
}

/// Prints these files, a line each.
fn print_listed<O: Sink>(alloc: Global, files: &[ListedFile], out: &mut O) -> Result<(), Fault>
    ensures ok { OnOk result (Appends (O.written out.old) (O.written out.new) (file_lines files.now)) }
    ensures err { IfErr result (λ fault. (fault ≡ File) ⊎ (fault ≡ Memory)) }
    ensures file { result ≡ Err File → O.failed out.new ≡ true }
{
    for file in files {
        print_file(alloc, file, out)?;
    }
    Ok(())
}

/// Prints the line of one file.
fn print_file<O: Sink>(alloc: Global, file: &ListedFile, out: &mut O) -> Result<(), Fault>
    ensures ok { OnOk result (Appends (O.written out.old) (O.written out.new) (file_line file.now)) }
    ensures err { IfErr result (λ fault. (fault ≡ File) ⊎ (fault ≡ Memory)) }
    ensures file { result ≡ Err File → O.failed out.new ≡ true }
{
    let length = file.length();
    let path = Path(file.path());
    let line = format!(in alloc; "file {length}{path}\n")?;
    match print(out, &line) {
        Ok(()) => Ok(()),
        Err(DeviceFault) => Err(Fault::File),
    }
}

/// The names on a path, each behind a space.
#[derive(Clone, Copy)]
struct Path<'a>(&'a [Bytes]);

impl fmt::Display for Path<'_> {
    ghost output = { λ path. Some (path_text path.0.now) };

    fn fmt<W: fmt::Write>(&self, f: &mut fmt::Formatter<W>) -> fmt::Result {
        for name in self.0 {
            let part = Part(name);
            write!(f, "{part}")?;
        }
        Ok(())
    }
}

/// A name behind a space.
#[derive(Clone, Copy)]
struct Part<'a>(&'a [u8]);

impl fmt::Display for Part<'_> {
    ghost output = { λ part. Some (part_text part.0.now) };

    fn fmt<W: fmt::Write>(&self, f: &mut fmt::Formatter<W>) -> fmt::Result {
        let name = Name(self.0);
        write!(f, " {name}")
    }
}
