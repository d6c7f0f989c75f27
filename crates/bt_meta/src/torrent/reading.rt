//! Reading a torrent from a metainfo file (BEP 3, "metainfo files").

ghost use Rattle.std.specs.Prelude.{◌≡◌, ◌<◌, ◌≤◌, ◌/◌, ◌^◌, length, IfOk, MatchResult};
ghost use Rattle.std.specs.Simd.{first_chunks};
ghost use Rattle.sha1.specs.Sha1.{sha1};
ghost use Rattle.bt_bencode.specs.Placed.{part};
ghost use Rattle.bt_bencode.specs.Reading.{seen};
ghost use Rattle.bt_meta.specs.declared.fault.MetaFault.TheVariants.{NoMemory};
ghost use Rattle.bt_meta.specs.Layout.{Metainfo};
ghost use Rattle.bt_meta.specs.Metainfo.{IsMeta, is_path};
ghost use Rattle.bt_meta.specs.Reading.{Gives, torrent_of_file, info_in};
ghost use Rattle.bt_meta.specs.Counting.{content_in, content_listed, torrent_counted};
ghost use Rattle.bt_meta.specs.Reading.{file_length_in, path_in, pieces_in, piece_length_in, length_in, value_in, int_in, text_in, items_in};

mod files;

use super::{Torrent, check_sizes};
use crate::fault::MetaFault;
use crate::key::Key;
use bt_bencode::{Items, Span, Value};
pub use files::ListedFile;
use sha1::Sha1;
use std::alloc::{AllocError, Global};

/// The bytes of a SHA-1.
const DIGEST_LEN: usize = 20;

/// How much content an info dictionary announces: its bytes, 2^64 - 1 where they are more, and the number of its files.
#[derive(Clone, Copy)]
struct Content {
    total: u64,
    files: usize,
}

impl Torrent {
    /// The torrent whose metainfo file these bytes are (BEP 3, "metainfo files"), or the first fault.
    ///
    /// What is read is the entry `info`, and there `name`, `piece length`, `pieces` and either `length` or `files`; other keys are
    /// ignored, and so are the names in `path`. A file of no bytes is taken where there is another. The infohash hashes the info value
    /// byte by byte as the file has it.
    pub fn read(alloc: Global, source: &[u8]) -> Result<Torrent, MetaFault>
        // Nothing but a metainfo file is taken, and the torrent is the one that it describes.
        ensures found { IfOk result (λ t. IsMeta source.now t) }
        // A metainfo file is taken, unless memory runs out.
        ensures only { (t : Metainfo) → IsMeta source.now t → MatchResult result (λ r. r ≡ t) (λ e. e ≡ NoMemory) }
        // Which torrent or which fault it is.
        ensures exact { Gives (λ t. t) result (torrent_of_file source.now) }
    {
        torrent_of_file(alloc, source)
    }
}

/// The torrent that is read from a metainfo file.
#[tactic(auto, unfolding(crate::specs::Reading::torrent_of_file))]
fn torrent_of_file(alloc: Global, source: &[u8]) -> Result<Torrent, MetaFault>
    ensures read { Gives (λ t. t) result (torrent_of_file source.now) }
    ensures found { IfOk result (λ t. IsMeta source.now t) }
{
    let file = Value::of(source)?;
    let info = info(&file)?;
    described(alloc, &info, digest_at(source, info.span()))
}

/// The SHA-1 of a part of the source.
fn digest_at(source: &[u8], span: Span) -> [u8; 20]
    requires order { span.start ≤ span.end }
    requires within { span.end ≤ length source.now }
    ensures { result ≡ sha1 (part source.now span) }
{
    Sha1::digest(&source[span.start..span.end])
}

/// The info dictionary of a file.
#[tactic(auto, unfolding(crate::specs::Reading::info_in))]
fn info<'a>(file: &Value<'a>) -> Result<Value<'a>, MetaFault>
    ensures { result ≡ info_in file.now }
{
    if !file.is_dict() {
        return Err(MetaFault::NotDictionary);
    }
    let info = value(file, Key::Info)?;
    if !info.is_dict() {
        return Err(MetaFault::WrongKind(Key::Info));
    }
    Ok(info)
}

/// The torrent that an info dictionary with this SHA-1 describes.
#[tactic(auto, unfolding(crate::specs::Counting::torrent_counted))]
fn described(alloc: Global, info: &Value, infohash: [u8; 20]) -> Result<Torrent, MetaFault>
    ensures { Gives (λ t. t) result (torrent_counted info.now infohash) }
{
    let name = text(info, Key::Name)?;
    let piece_length = piece_length(info)?;
    let pieces = pieces(info)?;
    let content = announced_content(info)?;
    check_sizes(piece_length, content.total, pieces.len() / DIGEST_LEN)?;
    Ok(Torrent {
        piece_length,
        total: content.total,
        hashes: digests(alloc, pieces)?,
        infohash,
        name: Vec::from_slice(alloc, name)?,
        files: content.files,
    })
}

/// The `piece length`, in bytes.
#[tactic(auto, unfolding(crate::specs::Reading::piece_length_in))]
fn piece_length(info: &Value) -> Result<u32, MetaFault>
    ensures exact { result ≡ piece_length_in info.now }
    ensures bounds { IfOk result (λ n. (0 < n) × (n ≤ 2 ^ 31)) }
{
    let length = int(info, Key::PieceLength)?;
    if length < 1 || length > 1 << 31 {
        return Err(MetaFault::PieceLength);
    }
    Ok(length as u32)
}

/// The digests of the pieces, one behind the other.
#[tactic(auto, unfolding(crate::specs::Reading::pieces_in))]
fn pieces<'a>(info: &Value<'a>) -> Result<&'a [u8], MetaFault>
    ensures { seen (λ v. v.now) result ≡ pieces_in info.now }
{
    let pieces = text(info, Key::Pieces)?;
    if pieces.len() % DIGEST_LEN != 0 {
        return Err(MetaFault::PiecesLength);
    }
    Ok(pieces)
}

/// The content, by `length` or by `files`.
#[tactic(auto, unfolding(crate::specs::Counting::content_in, crate::specs::Reading::lengths_in))]
fn announced_content(info: &Value) -> Result<Content, MetaFault>
    ensures { result ≡ content_in info.now }
{
    let one = info.get(Key::Length.name().as_bytes());
    let several = info.get(Key::Files.name().as_bytes());
    match (one, several) {
        (Some(_), Some(_)) => Err(MetaFault::BothLengthAndFiles),
        (None, None) => Err(MetaFault::NoContent),
        (Some(_), None) => Ok(Content {
            total: length(info)?,
            files: 1,
        }),
        (None, Some(files)) => content_of_files(&files),
    }
}

/// The content that is the concatenation of the files of a list.
#[tactic(auto, unfolding(crate::specs::Counting::content_listed))]
fn content_of_files(files: &Value) -> Result<Content, MetaFault>
    ensures { result ≡ content_listed files.now }
{
    let mut left = files.as_list().ok_or(MetaFault::WrongKind(Key::Files))?;
    let mut total: u64 = 0;
    let mut count: usize = 0;
    while let Some(file) = left.next() {
        total = total.saturating_add(file_length(&file)?);
        count += 1;
    }
    Ok(Content {
        total,
        files: count,
    })
}

/// The bytes of one file of several.
#[tactic(auto, unfolding(crate::specs::Reading::file_length_in))]
fn file_length(file: &Value) -> Result<u64, MetaFault>
    ensures { result ≡ file_length_in file.now }
{
    if !file.is_dict() {
        return Err(MetaFault::WrongKind(Key::Files));
    }
    let length = length(file)?;
    check_path(file)?;
    Ok(length)
}

/// Whether a file of several has a `path`: at least one string, in a list.
#[tactic(auto, unfolding(crate::specs::Reading::path_in))]
fn check_path(file: &Value) -> Result<(), MetaFault>
    ensures { result ≡ path_in file.now }
{
    if !is_path(items(file, Key::Path)?) {
        return Err(MetaFault::WrongKind(Key::Path));
    }
    Ok(())
}

/// Whether these are strings, at least one.
fn is_path(parts: Items) -> bool
    ensures { result ≡ is_path parts.entry }
{
    let mut left = parts;
    let mut some = false;
    while let Some(part) = left.next() {
        if part.as_text().is_none() {
            return false;
        }
        some = true;
    }
    some
}

/// The `length` of a file, in bytes.
#[tactic(auto, unfolding(crate::specs::Reading::length_in))]
fn length(file: &Value) -> Result<u64, MetaFault>
    ensures { result ≡ length_in file.now }
{
    let length = int(file, Key::Length)?;
    if length < 0 {
        return Err(MetaFault::WrongKind(Key::Length));
    }
    Ok(length as u64)
}

/// The value at a key.
#[tactic(auto, unfolding(crate::specs::Reading::value_in))]
fn value<'a>(dict: &Value<'a>, key: Key) -> Result<Value<'a>, MetaFault>
    ensures { result ≡ value_in dict.now key }
{
    dict.get(key.name().as_bytes())
        .ok_or(MetaFault::Missing(key))
}

/// The integer at a key.
#[tactic(auto, unfolding(crate::specs::Reading::int_in))]
fn int(dict: &Value, key: Key) -> Result<i64, MetaFault>
    ensures { result ≡ int_in dict.now key }
{
    value(dict, key)?.as_int().ok_or(MetaFault::WrongKind(key))
}

/// The string at a key.
#[tactic(auto, unfolding(crate::specs::Reading::text_in))]
fn text<'a>(dict: &Value<'a>, key: Key) -> Result<&'a [u8], MetaFault>
    ensures { seen (λ v. v.now) result ≡ text_in dict.now key }
{
    value(dict, key)?.as_text().ok_or(MetaFault::WrongKind(key))
}

/// The list at a key.
#[tactic(auto, unfolding(crate::specs::Reading::items_in))]
fn items<'a>(dict: &Value<'a>, key: Key) -> Result<Items<'a>, MetaFault>
    ensures { result ≡ items_in dict.now key }
{
    value(dict, key)?.as_list().ok_or(MetaFault::WrongKind(key))
}

/// The digests that stand one behind the other.
fn digests(alloc: Global, bytes: &[u8]) -> Result<Vec<[u8; 20]>, AllocError>
    ensures { IfOk result (λ hashes. hashes.items ≡ first_chunks 20 (length bytes.now / 20) bytes.now) }
{
    Vec::from_slice(alloc, bytes.as_chunks::<20>().0)
}
