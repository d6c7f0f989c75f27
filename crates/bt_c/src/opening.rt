//! A picker for an empty pointer.
ghost use Rattle.std.specs.Prelude.{◌≡◌, IfOk, IfErr, Some};
ghost use Rattle.bt_meta.specs.Reading.{Gives};
ghost use Rattle.bt_c.specs.Opening.{AreChoices, AreOptions, AreWorkers, IsNew, IsRefusal, IsUnfit, MakesHandle, Opened, PutsIn};
ghost use Rattle.bt_c.specs.Opening.{described_by, described_in, digests_in, keeping_by, torrent_of_parts};

use crate::engine::{Engine, Keeping};
use crate::fault::Fault;
use crate::handle::{Handle, holding};
use crate::held::Held;
use crate::options::{Options, SIZE};
use crate::picker_handle::PickerHandle;
use crate::picker_pointer::PickerPointer;
use bt_meta::{ListedFile, MetaFault, Torrent};
use std::alloc::{AllocError, Global};
use std::sync::Arc;

/// The bytes of a SHA-1.
const DIGEST_LEN: usize = 20;

/// The digests that stand one behind the other.
fn digests(alloc: Global, bytes: &[u8]) -> Result<Vec<[u8; 20]>, AllocError>
    ensures { IfOk result (λ hashes. hashes.items ≡ digests_in bytes.now) }
{
    Vec::from_slice(alloc, bytes.as_chunks::<20>().0)
}

/// The torrent of these parts, with no name and no infohash.
fn torrent_of_parts(
    alloc: Global,
    piece_len: u32,
    total: u64,
    hashes: &[u8],
) -> Result<Torrent, MetaFault>
    ensures { Gives (λ t. t) result (torrent_of_parts piece_len total hashes.now) }
{
    if hashes.len() % DIGEST_LEN != 0 {
        return Err(MetaFault::PiecesLength);
    }
    Torrent::of_parts(piece_len, total, digests(alloc, hashes)?, [0; 20])
}

/// What is kept, where the options are of this interface and say so, and the workers may be so many.
fn keeping_of(options: Options) -> Result<Keeping, Fault>
    ensures ok { IfOk result (λ keeping. AreOptions options × AreWorkers options.workers × (keeping_by options.keeps ≡ Some keeping)) }
    ensures err { IfErr result (λ fault. IsUnfit options fault) }
{
    if options.size != SIZE {
        return Err(Fault::Options);
    }
    let Some(keeping) = options.keeping() else {
        return Err(Fault::Options);
    };
    if !options.are_workers() {
        return Err(Fault::Worker);
    }
    Ok(keeping)
}

impl Held {
    /// A picker of the torrent.
    fn new(
        alloc: Global,
        torrent: Torrent,
        files: Vec<ListedFile>,
        keeping: Keeping,
        options: Options,
    ) -> Result<Held, Fault>
        requires workers { AreWorkers options.workers }
        requires keeping { keeping_by options.keeps ≡ Some keeping }
        ensures ok { IfOk result (λ h. AreChoices torrent.layout options
            × IsNew (record { torrent = torrent; files = files.items }) options h) }
        ensures err { IfErr result (λ fault. IsRefusal torrent.layout options fault) }
    {
        if !options.are_choices(&torrent) {
            return Err(Fault::Rules);
        }
        let torrent = Arc::new(alloc, torrent)?;
        let shared = torrent.clone()?;
        Ok(Held {
            engine: Engine::new(alloc, keeping, shared, options.workers, options.rules())?,
            torrent,
            files,
        })
    }

    /// A picker of the torrent whose metainfo file this is.
    pub fn open(alloc: Global, metainfo: &[u8], options: Options) -> Result<Held, Fault>
        ensures { Opened (described_in metainfo.now) options result }
    {
        let keeping = keeping_of(options)?;
        let torrent = Torrent::read(alloc, metainfo)?;
        let files = ListedFile::read_all(alloc, metainfo)?;
        Held::new(alloc, torrent, files, keeping, options)
    }

    /// A picker of the torrent of these parts.
    pub fn open_parts(
        alloc: Global,
        piece_len: u32,
        total: u64,
        hashes: &[u8],
        options: Options,
    ) -> Result<Held, Fault>
        ensures { Opened (described_by piece_len total hashes.now) options result }
    {
        let keeping = keeping_of(options)?;
        let torrent = torrent_of_parts(alloc, piece_len, total, hashes)?;
        Held::new(alloc, torrent, Vec::new(alloc), keeping, options)
    }
}

/// The handle of a new picker.
fn handle_of(alloc: Global, opened: Result<Held, Fault>) -> Result<PickerHandle, Fault>
    ensures { MakesHandle opened result }
{
    Ok(holding(Box::new(alloc, opened?)?))
}

/// Puts a new picker into an empty pointer.
pub fn fill(
    alloc: Global,
    pointer: &mut PickerPointer,
    opened: Result<Held, Fault>,
) -> Result<(), Fault>
    ensures { PutsIn opened pointer.old.picker pointer.new.picker result }
{
    if let Some(handle) = pointer.take(alloc) {
        *pointer = holding(handle);
        return Err(Fault::Open);
    }
    *pointer = holding(Box::new(alloc, handle_of(alloc, opened)?)?);
    Ok(())
}
