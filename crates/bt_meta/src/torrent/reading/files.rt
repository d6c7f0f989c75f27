//! The files of a metainfo file: how long each is, and where it is to stand (BEP 3, "info dictionary").

ghost use Rattle.std.specs.Prelude.{◌≡◌, ◌∷◌, [], IfOk, MatchResult};
ghost use Rattle.bt_meta.specs.declared.fault.MetaFault.TheVariants.{NoMemory};
ghost use Rattle.bt_meta.specs.Layout.{Metainfo};
ghost use Rattle.bt_meta.specs.Metainfo.{IsMeta};
ghost use Rattle.bt_meta.specs.Files.{AreFilesOf, alone, file_in, files_at, files_in, files_of_file, texts};
ghost use Rattle.bt_meta.specs.Reading.{Gives};

use super::{file_length, info, items, length, text};
use crate::fault::MetaFault;
use crate::key::Key;
use bt_bencode::{Items, Value};
use bytes::Bytes;
use std::alloc::{AllocError, Global};
use std::marker::Model;

/// A file of a torrent. The content is the concatenation of the files, in the order in which they are listed.
///
/// Nothing is known of the names on its path but that they are byte strings: they may be empty, `..`, or hold a slash. Whoever makes a
/// path of them tests them first.
pub struct ListedFile {
    length: u64,
    path: Vec<Bytes>,
}

/// The end of a file is one call for whoever owns one.
impl Drop for ListedFile {
    fn drop(self) {
        let ListedFile {
            length: _,
            path: _path,
        } = self;
    }
}

impl Model for ListedFile {
    ghost use Rattle.bt_meta.specs.Files.{Listed};

    ghost Value = { Listed };

    ghost view = { λ f. record { length = f.length; path = f.path.items } };
}

impl ListedFile {
    /// The files of the torrent whose metainfo file these bytes are, or the first fault. Where `Torrent::read` takes the bytes, this does.
    ///
    /// Each path begins with the torrent's `name`: that is the name of the file where there is one, and else the folder of all.
    pub fn read_all(alloc: Global, source: &[u8]) -> Result<Vec<ListedFile>, MetaFault>
        // The files of a torrent are read unless memory runs out: as many as it says, and as long together as its content.
        ensures own { (t : Metainfo) → IsMeta source.now t →
            MatchResult result (λ files. AreFilesOf t files.items) (λ e. e ≡ NoMemory) }
        // Which files or which fault it is.
        ensures exact { Gives (λ files. files.items) result (files_of_file source.now) }
    {
        files_of_file(alloc, source)
    }

    /// How many bytes it has.
    pub fn length(&self) -> u64
        ensures { result ≡ self.now.length }
    {
        self.length
    }

    /// The names on its path, the outermost folder first, and its own last.
    pub fn path(&self) -> &[Bytes]
        ensures { result.now ≡ self.now.path }
    {
        &self.path
    }
}

/// The files that a metainfo file lists.
#[tactic(auto, unfolding(crate::specs::Files::files_of_file))]
fn files_of_file(alloc: Global, source: &[u8]) -> Result<Vec<ListedFile>, MetaFault>
    ensures { Gives (λ files. files.items) result (files_of_file source.now) }
{
    let file = Value::of(source)?;
    let info = info(&file)?;
    files(alloc, &info)
}

/// The files that an info dictionary lists.
#[tactic(auto, unfolding(crate::specs::Files::files_in))]
fn files(alloc: Global, info: &Value) -> Result<Vec<ListedFile>, MetaFault>
    ensures { Gives (λ files. files.items) result (files_in info.now) }
{
    let name = text(info, Key::Name)?;
    let one = info.get(Key::Length.name().as_bytes());
    let several = info.get(Key::Files.name().as_bytes());
    match (one, several) {
        (Some(_), Some(_)) => Err(MetaFault::BothLengthAndFiles),
        (None, None) => Err(MetaFault::NoContent),
        (Some(_), None) => Ok(one_file(alloc, name, length(info)?)?),
        (None, Some(several)) => files_in(alloc, name, &several),
    }
}

/// One file that stands in no folder.
fn one_file(alloc: Global, name: &[u8], length: u64) -> Result<Vec<ListedFile>, AllocError>
    ensures { IfOk result (λ files. files.items ≡ alone name.now length ∷ []) }
{
    let path = vec![in alloc; Bytes::copy_from_slice(alloc, name)?]?;
    let files = vec![in alloc; ListedFile { length, path }]?;
    Ok(files)
}

/// The files of a list, in a folder.
#[tactic(auto, unfolding(crate::specs::Files::files_at))]
fn files_in(alloc: Global, folder: &[u8], several: &Value) -> Result<Vec<ListedFile>, MetaFault>
    ensures { Gives (λ files. files.items) result (files_at folder.now several.now) }
{
    let mut left = several.as_list().ok_or(MetaFault::WrongKind(Key::Files))?;
    let mut files = Vec::new(alloc);
    while let Some(file) = left.next() {
        files.push(file_in(alloc, folder, &file)?)?;
    }
    Ok(files)
}

/// One file of several, in a folder.
#[tactic(auto, unfolding(crate::specs::Files::file_in))]
fn file_in(alloc: Global, folder: &[u8], file: &Value) -> Result<ListedFile, MetaFault>
    ensures { Gives (λ f. f) result (file_in folder.now file.now) }
{
    let length = file_length(file)?;
    let parts = items(file, Key::Path)?;
    Ok(ListedFile {
        length,
        path: path_of(alloc, folder, parts)?,
    })
}

/// The path of a file in a folder.
fn path_of(alloc: Global, folder: &[u8], parts: Items) -> Result<Vec<Bytes>, AllocError>
    ensures { IfOk result (λ path. path.items ≡ folder.now ∷ texts parts.entry) }
{
    let mut path = Vec::new(alloc);
    path.push(Bytes::copy_from_slice(alloc, folder)?)?;
    let mut left = parts;
    while let Some(part) = left.next() {
        path.push(Bytes::copy_from_slice(alloc, part.as_text().unwrap_or(&[]))?)?;
    }
    Ok(path)
}
