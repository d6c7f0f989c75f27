//! The first line of a script.

ghost use Rattle.std.specs.Prelude.{◌≡◌, ◌<◌, ◌≤◌, map, IfOk};
ghost use Rattle.bt_text.specs.Fields.{Reads};
ghost use Rattle.bt_text.specs.Setups.{setup_in, setup_of_fields, digests_in, workers_in};

use super::LineFault;
use super::fields::{fields, hex_digest, is, number, small_number};
use bt_meta::{MetaFault, Torrent};
use bt_picker::MOST_WORKERS;
use std::alloc::Global;

/// What a script is about.
#[derive(Drop)]
pub struct Setup {
    pub torrent: Torrent,
    pub workers: u32,
}

impl Setup {
    /// The setup that this text says: `torrent`, the piece length, the total, the number of workers, and each piece's hash.
    pub fn parse(alloc: Global, text: &[u8]) -> Result<Setup, LineFault>
        ensures reads { Reads (λ s. s) result (setup_in text.now) }
        ensures workers { IfOk result (λ s. (1 ≤ s.workers) × (s.workers ≤ MOST_WORKERS)) }
    {
        let fields = fields(alloc, text)?;
        Setup::of_fields(alloc, &fields)
    }

    /// The setup that these fields say.
    fn of_fields(alloc: Global, fields: &[&[u8]]) -> Result<Setup, LineFault>
        ensures reads { Reads (λ s. s) result (setup_of_fields (map (λ x. x.now) fields.now)) }
        ensures workers { IfOk result (λ s. (1 ≤ s.workers) × (s.workers ≤ MOST_WORKERS)) }
    {
        let [word, piece_length, total, workers, hashes @ ..] = fields else {
            return Err(LineFault::NotAllowed);
        };
        if !is(word, "torrent") {
            return Err(LineFault::NotAllowed);
        }
        let piece_length = small_number(piece_length)?;
        let total = number(total)?;
        let workers = worker_count(workers)?;
        let hashes = digests(alloc, hashes)?;
        let torrent = Torrent::of_parts(piece_length, total, hashes, [0; 20])?;
        Ok(Setup { torrent, workers })
    }
}

/// `Torrent::of_parts` takes no memory, so that each fault is the line's.
impl From<MetaFault> for LineFault {
    ghost use Rattle.bt_text.specs.declared.script.fault.LineFault.TheVariants.{NotAllowed};

    ghost from_gives = { λ _ e. e ≡ NotAllowed };

    fn from(_fault: MetaFault) -> LineFault {
        LineFault::NotAllowed
    }
}

/// The number of workers, within its limits.
fn worker_count(text: &[u8]) -> Result<u32, LineFault>
    ensures reads { Reads (λ n. n) result (workers_in text.now) }
    ensures within { IfOk result (λ n. (1 ≤ n) × (n ≤ MOST_WORKERS)) }
{
    let workers = small_number(text)?;
    if workers < 1 || workers > MOST_WORKERS {
        return Err(LineFault::NotAllowed);
    }
    Ok(workers)
}

/// The digests that these texts write.
fn digests(alloc: Global, texts: &[&[u8]]) -> Result<Vec<[u8; 20]>, LineFault>
    ensures { Reads (λ v. v.items) result (digests_in (map (λ x. x.now) texts.now)) }
{
    let mut digests = Vec::with_capacity(alloc, texts.len())?;
    for text in texts {
        digests.push(hex_digest(text)?)?;
    }
    Ok(digests)
}
