//! The command `info`.

ghost use Rattle.std.specs.Prelude.{◌≡◌, Some, true, Ok, Err, IfOk, IfErr, IsOkAnd, OnOk};
ghost use Rattle.std.specs.String.{string_bytes};
ghost use Rattle.std.specs.Io.KnownBytes.{Appends};
ghost use Rattle.bt_meta.specs.Reading.{torrent_of_file};
ghost use Rattle.bt_text.specs.declared.info.Info.{Info};
ghost use Rattle.bt_text.specs.declared.fault.Fault.TheVariants.{File};
ghost use Rattle.bt_text.specs.Info.{info_lines, blocks_of, Describes, IsInfoFault, IsReadFault, PrintsInfo};

use crate::fault::Fault;
use crate::printing::print;
use crate::text::Name;
use bt_meta::{DeviceFault, Sink, Torrent};
use std::alloc::{AllocError, Global};
use std::fmt;
use std::io::Write;

/// Prints what a metainfo file says of its content, a line each.
///
/// Refuses bytes that are no metainfo file; else it fails where `out` does, and for want of memory.
pub fn describe<W: Write>(alloc: Global, meta: &[u8], out: &mut W) -> Result<(), Fault>
    ensures ok { OnOk result (PrintsInfo (torrent_of_file meta.now) (W.contents out.old) (W.contents out.new)) }
    ensures err { IfErr result (IsInfoFault (torrent_of_file meta.now)) }
{
    let text = description(alloc, meta)?;
    out.write_all(text.as_bytes())?;
    out.flush()?;
    Ok(())
}

/// The same to a sink, which is not flushed.
pub fn print_info<O: Sink>(alloc: Global, meta: &[u8], out: &mut O) -> Result<(), Fault>
    ensures ok { OnOk result (PrintsInfo (torrent_of_file meta.now) (O.written out.old) (O.written out.new)) }
    ensures err { IfErr result (IsInfoFault (torrent_of_file meta.now)) }
    ensures file { result ≡ Err File → O.failed out.new ≡ true }
{
    let text = description(alloc, meta)?;
    match print(out, &text) {
        Ok(()) => Ok(()),
        Err(DeviceFault) => Err(Fault::File),
    }
}

/// What a metainfo file says of its content, a line each.
fn description(alloc: Global, meta: &[u8]) -> Result<String, Fault>
    ensures ok { IfOk result (λ text. IsOkAnd (torrent_of_file meta.now) (λ t.
        (info : Info) × (Describes t info × (string_bytes text ≡ info_lines info)))) }
    ensures err { IfErr result (IsReadFault (torrent_of_file meta.now)) }
{
    let torrent = Torrent::read(alloc, meta)?;
    let text = Info::of(alloc, &torrent)?.to_string(alloc)?;
    Ok(text)
}

/// What is told of a torrent.
#[derive(Drop)]
struct Info<'a> {
    name: &'a [u8],
    /// In hexadecimal.
    infohash: String,
    piece_length: u32,
    total: u64,
    pieces: u32,
    /// The bytes of the last piece.
    last: u32,
    /// Those in all pieces.
    blocks: u64,
    files: usize,
}

impl<'a> Info<'a> {
    /// What the torrent says of itself.
    fn of(alloc: Global, torrent: &'a Torrent) -> Result<Info<'a>, AllocError>
        ensures { IfOk result (λ info. Describes torrent.now info) }
    {
        let pieces = torrent.piece_count();
        Ok(Info {
            name: torrent.name(),
            infohash: hex::encode(alloc, torrent.infohash().as_slice())?,
            piece_length: torrent.piece_length(),
            total: torrent.total(),
            pieces,
            last: torrent.piece_len(pieces - 1),
            blocks: count_blocks(torrent),
            files: torrent.file_count(),
        })
    }
}

impl fmt::Display for Info<'_> {
    ghost output = { λ info. Some (info_lines info) };

    fn fmt<W: fmt::Write>(&self, f: &mut fmt::Formatter<W>) -> fmt::Result {
        let Info {
            name: _,
            infohash,
            piece_length,
            total,
            pieces,
            last,
            blocks,
            files,
        } = self;
        let name = Name(self.name);
        write!(f, "name {name}\ninfohash {infohash}\n")?;
        write!(f, "piecelength {piece_length}\ntotal {total}\n")?;
        write!(f, "pieces {pieces}\nlast {last}\n")?;
        write!(f, "blocks {blocks}\nfiles {files}\n")
    }
}

/// The number of blocks in all pieces.
fn count_blocks(torrent: &Torrent) -> u64
    ensures { result ≡ blocks_of torrent.now }
{
    let mut blocks = 0;
    for piece in 0..torrent.piece_count() {
        blocks += u64::from(torrent.block_count(piece));
    }
    blocks
}
