//! What a torrent says: numbers, and bytes in a caller's buffer.
ghost use Rattle.std.specs.Prelude.{◌≡◌};
ghost use Rattle.bt_bencode.specs.Reading.{seen};
ghost use Rattle.bt_c.specs.Torrents.{PutsBytes, PutsHash, PutsIfAny, file_at, number_of_torrent, part_at};

use crate::digest::Digest;
use crate::fault::Fault;
use crate::held::Held;
use bt_meta::ListedFile;

/// A question about the picker's torrent. Files and the names on a path are counted from 0.
#[derive(Clone, Copy, Debug, PartialEq, Eq)]
pub enum TorrentQuestion {
    /// The bytes of the content.
    Total,
    /// How many bytes the name has.
    NameLength,
    /// How many files there are.
    Files,
    /// The bytes of a file.
    FileLength(u64),
    /// How many names the path of a file has.
    FileParts(u64),
    /// How many bytes a name on the path of a file has: the file, and the name's place.
    PartLength(u64, u64),
}

/// Writes the bytes into a buffer of their number.
fn put_bytes(bytes: &[u8], room: &mut [u8]) -> Result<(), Fault>
    ensures { PutsBytes bytes.now room.old room.new result }
{
    if room.len() != bytes.len() {
        return Err(Fault::Room);
    }
    room.copy_from_slice(bytes);
    Ok(())
}

impl Held {
    /// A file of the torrent.
    fn file(&self, file: u64) -> Result<&ListedFile, Fault>
        ensures { seen (λ f. f.now) result ≡ file_at self.now.files.items file }
    {
        self.files.get(file as usize).ok_or(Fault::File)
    }

    /// A name on the path of a file.
    fn part(&self, file: u64, part: u64) -> Result<&[u8], Fault>
        ensures { seen (λ name. name.now) result ≡ part_at self.now.files.items file part }
    {
        match self.file(file)?.path().get(part as usize) {
            Some(name) => Ok(name.as_slice()),
            None => Err(Fault::Part),
        }
    }

    /// Answers a question of the torrent.
    pub fn ask_of_torrent(&self, question: TorrentQuestion) -> Result<u64, Fault>
        ensures { result ≡ number_of_torrent self.now question }
    {
        Ok(match question {
            TorrentQuestion::Total => self.torrent.total(),
            TorrentQuestion::NameLength => self.torrent.name().len() as u64,
            TorrentQuestion::Files => self.files.len() as u64,
            TorrentQuestion::FileLength(file) => self.file(file)?.length(),
            TorrentQuestion::FileParts(file) => self.file(file)?.path().len() as u64,
            TorrentQuestion::PartLength(file, part) => self.part(file, part)?.len() as u64,
        })
    }

    /// Writes the torrent's name into a buffer of its length.
    pub fn put_name(&self, room: &mut [u8]) -> Result<(), Fault>
        ensures { PutsBytes self.now.torrent.value.name room.old room.new result }
    {
        put_bytes(self.torrent.name(), room)
    }

    /// Writes a name on the path of a file into a buffer of its length.
    pub fn put_part(&self, file: u64, part: u64, room: &mut [u8]) -> Result<(), Fault>
        ensures { PutsIfAny (part_at self.now.files.items file part) room.old room.new result }
    {
        put_bytes(self.part(file, part)?, room)
    }

    /// Writes the hash that the piece must have.
    pub fn put_hash(&self, piece: u32, digest: &mut Digest) -> Result<(), Fault>
        ensures { PutsHash self.now.torrent.value piece digest.old.bytes digest.new.bytes result }
    {
        if piece >= self.torrent.piece_count() {
            return Err(Fault::Piece);
        }
        digest.bytes = *self.torrent.hash(piece);
        Ok(())
    }
}
