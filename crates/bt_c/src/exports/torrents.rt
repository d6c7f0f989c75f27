//! The calls of C that give what the metainfo file says: lengths, names, hashes and files.
ghost use Rattle.std.specs.Prelude.{◌≡◌, None};
ghost use Rattle.bt_c.specs.declared.torrents.TorrentQuestion.TheVariants as questions;
ghost use Rattle.bt_c.specs.Outcomes.{AtOpen, TellsDone, TellsNumber};
ghost use Rattle.bt_c.specs.Torrents.{PutsBytes, PutsHash, PutsIfAny, PutsInfohash, number_of_torrent, part_at};

use super::tell::{tell_done, tell_large};
use crate::digest::Digest;
use crate::fault::Fault;
use crate::handle::{Handle, put_back};
use crate::picker_handle::PickerHandle;
use crate::torrents::TorrentQuestion;
use std::alloc::Global;

/// Answers a question of the torrent.
fn ask(alloc: Global, picker: &mut PickerHandle, question: TorrentQuestion) -> Result<u64, Fault>
    ensures same { picker.new.held ≡ picker.old.held }
    ensures says { AtOpen (λ h o. o ≡ number_of_torrent h question) picker.old.held result }
{
    let held = picker.take(alloc).ok_or(Fault::Closed)?;
    let outcome = held.ask_of_torrent(question);
    put_back(picker, held);
    outcome
}

/// Writes the name into a buffer of its length.
fn put_name(alloc: Global, picker: &mut PickerHandle, buffer: &mut [u8]) -> Result<(), Fault>
    ensures same { picker.new.held ≡ picker.old.held }
    ensures shut { picker.old.held ≡ None → buffer.new ≡ buffer.old }
    ensures puts { AtOpen (λ h o. PutsBytes h.torrent.value.name buffer.old buffer.new o) picker.old.held result }
{
    let held = picker.take(alloc).ok_or(Fault::Closed)?;
    let done = held.put_name(buffer);
    put_back(picker, held);
    done
}

/// Writes a name on the path of a file into a buffer of its length.
fn put_part(
    alloc: Global,
    picker: &mut PickerHandle,
    file: u64,
    part: u64,
    buffer: &mut [u8],
) -> Result<(), Fault>
    ensures same { picker.new.held ≡ picker.old.held }
    ensures shut { picker.old.held ≡ None → buffer.new ≡ buffer.old }
    ensures puts { AtOpen (λ h o. PutsIfAny (part_at h.files.items file part) buffer.old buffer.new o) picker.old.held result }
{
    let held = picker.take(alloc).ok_or(Fault::Closed)?;
    let done = held.put_part(file, part, buffer);
    put_back(picker, held);
    done
}

/// Writes the infohash.
fn put_infohash(alloc: Global, picker: &mut PickerHandle, digest: &mut Digest) -> Result<(), Fault>
    ensures same { picker.new.held ≡ picker.old.held }
    ensures shut { picker.old.held ≡ None → digest.new ≡ digest.old }
    ensures puts { AtOpen (λ h o. PutsInfohash h.torrent.value digest.new.bytes o) picker.old.held result }
{
    let held = picker.take(alloc).ok_or(Fault::Closed)?;
    digest.bytes = *held.torrent.infohash();
    put_back(picker, held);
    Ok(())
}

/// Writes the hash that a piece must have.
fn put_hash(
    alloc: Global,
    picker: &mut PickerHandle,
    piece: u32,
    digest: &mut Digest,
) -> Result<(), Fault>
    ensures same { picker.new.held ≡ picker.old.held }
    ensures shut { picker.old.held ≡ None → digest.new ≡ digest.old }
    ensures puts { AtOpen (λ h o. PutsHash h.torrent.value piece digest.old.bytes digest.new.bytes o) picker.old.held result }
{
    let held = picker.take(alloc).ok_or(Fault::Closed)?;
    let done = held.put_hash(piece, digest);
    put_back(picker, held);
    done
}

/// The bytes of the content.
#[unsafe(no_mangle)]
pub extern "C" fn piecepick_total(alloc: Global, picker: &mut PickerHandle, number: &mut u64) -> u32
    ensures same { picker.new.held ≡ picker.old.held }
    ensures says { TellsNumber (λ h o. o ≡ number_of_torrent h questions.Total) picker.old.held result number.new }
{
    tell_large(ask(alloc, picker, TorrentQuestion::Total), number)
}

/// How many bytes the name has that the metainfo file suggests: none of a torrent of parts.
#[unsafe(no_mangle)]
pub extern "C" fn piecepick_name_length(
    alloc: Global,
    picker: &mut PickerHandle,
    number: &mut u64,
) -> u32
    ensures same { picker.new.held ≡ picker.old.held }
    ensures says { TellsNumber (λ h o. o ≡ number_of_torrent h questions.NameLength) picker.old.held result number.new }
{
    tell_large(ask(alloc, picker, TorrentQuestion::NameLength), number)
}

/// Writes the name into a buffer of its length. It is a suggestion, and perhaps no text.
#[unsafe(no_mangle)]
pub extern "C" fn piecepick_name(alloc: Global, picker: &mut PickerHandle, buffer: &mut [u8]) -> u32
    ensures same { picker.new.held ≡ picker.old.held }
    ensures shut { picker.old.held ≡ None → buffer.new ≡ buffer.old }
    ensures puts { TellsDone (λ h o. PutsBytes h.torrent.value.name buffer.old buffer.new o) picker.old.held result }
{
    tell_done(put_name(alloc, picker, buffer))
}

/// Writes the SHA-1 of the info dictionary, by which peers know the torrent: zeros of a torrent of parts.
#[unsafe(no_mangle)]
pub extern "C" fn piecepick_infohash(
    alloc: Global,
    picker: &mut PickerHandle,
    digest: &mut Digest,
) -> u32
    ensures same { picker.new.held ≡ picker.old.held }
    ensures shut { picker.old.held ≡ None → digest.new ≡ digest.old }
    ensures puts { TellsDone (λ h o. PutsInfohash h.torrent.value digest.new.bytes o) picker.old.held result }
{
    tell_done(put_infohash(alloc, picker, digest))
}

/// Writes the SHA-1 that the bytes of the piece must have.
#[unsafe(no_mangle)]
pub extern "C" fn piecepick_piece_hash(
    alloc: Global,
    picker: &mut PickerHandle,
    piece: u32,
    digest: &mut Digest,
) -> u32
    ensures same { picker.new.held ≡ picker.old.held }
    ensures shut { picker.old.held ≡ None → digest.new ≡ digest.old }
    ensures puts { TellsDone (λ h o. PutsHash h.torrent.value piece digest.old.bytes digest.new.bytes o) picker.old.held result }
{
    tell_done(put_hash(alloc, picker, piece, digest))
}

/// How many files the metainfo file lists: none of a torrent of parts.
#[unsafe(no_mangle)]
pub extern "C" fn piecepick_files(alloc: Global, picker: &mut PickerHandle, number: &mut u64) -> u32
    ensures same { picker.new.held ≡ picker.old.held }
    ensures says { TellsNumber (λ h o. o ≡ number_of_torrent h questions.Files) picker.old.held result number.new }
{
    tell_large(ask(alloc, picker, TorrentQuestion::Files), number)
}

/// The bytes of a file.
#[unsafe(no_mangle)]
pub extern "C" fn piecepick_file_length(
    alloc: Global,
    picker: &mut PickerHandle,
    file: u64,
    number: &mut u64,
) -> u32
    ensures same { picker.new.held ≡ picker.old.held }
    ensures says { TellsNumber (λ h o. o ≡ number_of_torrent h (questions.FileLength file)) picker.old.held result number.new }
{
    tell_large(
        ask(alloc, picker, TorrentQuestion::FileLength(file)),
        number,
    )
}

/// How many names the path of a file has, the torrent's own being the first.
#[unsafe(no_mangle)]
pub extern "C" fn piecepick_file_parts(
    alloc: Global,
    picker: &mut PickerHandle,
    file: u64,
    number: &mut u64,
) -> u32
    ensures same { picker.new.held ≡ picker.old.held }
    ensures says { TellsNumber (λ h o. o ≡ number_of_torrent h (questions.FileParts file)) picker.old.held result number.new }
{
    tell_large(ask(alloc, picker, TorrentQuestion::FileParts(file)), number)
}

/// How many bytes a name on the path of a file has.
#[unsafe(no_mangle)]
pub extern "C" fn piecepick_file_part_length(
    alloc: Global,
    picker: &mut PickerHandle,
    file: u64,
    part: u64,
    number: &mut u64,
) -> u32
    ensures same { picker.new.held ≡ picker.old.held }
    ensures says { TellsNumber (λ h o. o ≡ number_of_torrent h (questions.PartLength file part)) picker.old.held result number.new }
{
    tell_large(
        ask(alloc, picker, TorrentQuestion::PartLength(file, part)),
        number,
    )
}

/// Writes a name on the path of a file into a buffer of its length. It may be any bytes.
#[unsafe(no_mangle)]
pub extern "C" fn piecepick_file_part(
    alloc: Global,
    picker: &mut PickerHandle,
    file: u64,
    part: u64,
    buffer: &mut [u8],
) -> u32
    ensures same { picker.new.held ≡ picker.old.held }
    ensures shut { picker.old.held ≡ None → buffer.new ≡ buffer.old }
    ensures puts { TellsDone (λ h o. PutsIfAny (part_at h.files.items file part) buffer.old buffer.new o) picker.old.held result }
{
    tell_done(put_part(alloc, picker, file, part, buffer))
}
