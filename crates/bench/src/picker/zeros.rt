//! A picker that is told of zero bytes alone, so that the hash of each piece is known.

ghost use Rattle.std.specs.Prelude.{◌≡◌, IfOk};
ghost use Rattle.bt_picker.specs.Told.{action_told};
ghost use Rattle.bench.specs.ZeroBytes.{BringsZeros, zeros};
ghost use Rattle.sha1.specs.Sha1.{sha1};

use anyhow::{Result, bail};
use bt_meta::{BLOCK_SIZE, Bitfield, Block, Torrent};
use bt_picker::{MOST_DEPTH, MOST_TOLD_DEPTH, Picker, Reply, Rules, Told};
use sha1::Sha1;
use std::alloc::Global;
use std::marker::Model;
use std::sync::Arc;

/// The bytes of a piece: sixteen blocks.
const PIECE_LEN: u32 = 262_144;

/// The same, where bytes of all pieces are counted.
const PIECE_BYTES: u64 = 262_144;

/// A picker of pieces of zero bytes. Its type keeps that each block that came was of zeros: so the digest is that of each full piece.
pub struct Zeros {
    picker: Picker,
    block: Vec<u8>,
    digest: [u8; 20],
}

/// The end of it is one call for whoever owns it.
impl Drop for Zeros {
    fn drop(self) {
        let Zeros {
            picker: _picker,
            block: _block,
            digest: _,
        } = self;
    }
}

impl Model for Zeros {
    ghost use Rattle.std.specs.Prelude.{◌≡◌};
    ghost use Rattle.sha1.specs.Sha1.{sha1};
    ghost use Rattle.bt_picker.specs.Positions.{DeskState};
    ghost use Rattle.bench.specs.ZeroBytes.{AllZeros, IsEven, zeros};

    ghost Value = { DeskState };

    ghost view = { λ z. z.picker };

    ghost invariant = { λ z. IsEven z.picker.setting.torrent
        × AllZeros z.picker.history
        × (z.block.items ≡ zeros 16384)
        × (z.digest ≡ sha1 (zeros 262144)) };
}

impl Zeros {
    /// With no peer yet.
    pub fn new(
        alloc: Global,
        pieces: u32,
        workers: u32,
        depth: u32,
        askers: u32,
        open: u32,
    ) -> Result<Zeros> {
        let digest = digest_of(alloc, PIECE_LEN)?;
        let hashes = vec![in alloc; digest; pieces as usize]?;
        let total = PIECE_BYTES * u64::from(pieces);
        let torrent = Torrent::of_parts(PIECE_LEN, total, hashes, [0; 20])?;
        if torrent.piece_length() != PIECE_LEN
            || torrent.total() != PIECE_BYTES * u64::from(torrent.piece_count())
        {
            bail!("a torrent of other pieces");
        }
        if workers == 0 || workers > 1_024 || depth == 0 || depth > MOST_TOLD_DEPTH {
            bail!("there are 1 to 1,024 workers, and 1 to 4,096 blocks are asked of each");
        }
        let random = torrent.piece_count().min(1);
        Ok(Zeros {
            picker: Picker::new(
                alloc,
                Arc::new(alloc, torrent)?,
                workers,
                Rules {
                    depth: depth.min(MOST_DEPTH),
                    random,
                    askers,
                    deepest: depth,
                    open,
                    rush: MOST_TOLD_DEPTH,
                    shown: false,
                },
            )?,
            block: zero_bytes(alloc, BLOCK_SIZE)?,
            digest,
        })
    }

    /// How many peers may come.
    pub fn workers(&self) -> u32 {
        self.picker.workers()
    }

    /// Tells what brings no block, or one of zeros.
    #[inline(always)]
    pub fn tell(&mut self, worker: u32, told: Told<'_>) -> Reply
        requires { BringsZeros (action_told told) }
    {
        self.picker.tell(worker, told)
    }

    /// A peer comes, and shows these pieces.
    pub fn come(&mut self, worker: u32, shown: &Bitfield) {
        let _joined = self.tell(worker, Told::Join);
        let _noted = self.tell(worker, Told::Bits(shown));
        let _quiet = self.tell(worker, Told::Unchoke);
    }

    /// So many blocks may be asked of the peer at a time, where that is more than the rules' own number can be.
    pub fn deepen(&mut self, worker: u32, depth: u32) {
        if depth > MOST_DEPTH {
            let _quiet = self.tell(worker, Told::Depth(depth));
        }
    }

    /// From now on pieces of one level come in rising order.
    pub fn put_in_order(&mut self) {
        let _quiet = self.tell(0, Told::InOrder(true));
    }

    /// The piece has this level from now on.
    pub fn put_level(&mut self, piece: u32, level: u8) {
        let _quiet = self.tell(0, Told::Level { piece, level });
    }

    /// The first piece from this one on that isn't had.
    pub fn first_lacking(&self, from: u32) -> Option<u32> {
        for piece in from..self.picker.torrent().piece_count() {
            if !self.picker.had(piece) {
                return Some(piece);
            }
        }
        None
    }

    /// What to say to the peer.
    #[inline(always)]
    pub fn next(&mut self, worker: u32, word: u64) -> Reply {
        self.tell(worker, Told::Next(word))
    }

    /// The block came, of zeros.
    #[inline(always)]
    pub fn arrive(&mut self, worker: u32, block: &Block) -> Reply {
        self.picker.tell(
            worker,
            Told::Arrived {
                piece: block.piece,
                begin: block.begin,
                bytes: &self.block,
            },
        )
    }

    /// The piece was hashed elsewhere.
    #[inline(always)]
    pub fn settle(&mut self, worker: u32, piece: u32) -> Reply {
        self.picker.attest();
        self.picker.settle(worker, piece, &self.digest)
    }

    /// The oldest of so many blocks that are asked of the peer, or of any where it doesn't matter how many.
    #[inline(always)]
    pub fn oldest(&self, worker: u32, least: usize) -> Option<Block> {
        if worker >= self.picker.workers() {
            return None;
        }
        let asked = self.picker.outstanding(worker);
        if asked.len() < least {
            return None;
        }
        asked.first().copied()
    }
}

/// The hash of so many zero bytes.
fn digest_of(alloc: Global, len: u32) -> Result<[u8; 20]>
    ensures { IfOk result (λ digest. digest ≡ sha1 (zeros len)) }
{
    let bytes = zero_bytes(alloc, len)?;
    Ok(Sha1::digest(&bytes))
}

/// So many zero bytes.
fn zero_bytes(alloc: Global, len: u32) -> Result<Vec<u8>>
    ensures { IfOk result (λ bytes. bytes.items ≡ zeros len) }
{
    Ok(vec![in alloc; 0; len as usize]?)
}
