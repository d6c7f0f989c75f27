//! A check of a piece, away from its desk.
ghost use Rattle.std.specs.Prelude.{◌≡◌, true, Err, OnErr, OnOk};
ghost use Rattle.bt_c.specs.declared.fault.Fault.TheVariants.{NoMemory};
ghost use Rattle.bt_c.specs.Jobs.{checked_of, is_ready};

use crate::fault::Fault;
use bt_picker::{Job, Verdict};
use bytes::Bytes;
use std::alloc::Global;
use std::sync::Arc;

/// A check of a piece that is full: its blocks, hashed or yet to be. Where memory runs out behind the hashing, the verdict is kept.
#[derive(Drop)]
pub enum Check {
    Due(Job),
    Hashed(Verdict),
    Ready(Arc<Verdict>),
}

/// Shares the verdict, or keeps it where there is no memory for that.
fn share(alloc: Global, verdict: Verdict) -> (Check, Result<(), Fault>)
    ensures kept { checked_of result.0 ≡ verdict }
    ensures ok { OnOk result.1 (is_ready result.0 ≡ true) }
    ensures err { OnErr result.1 (result.1 ≡ Err NoMemory) }
{
    match Arc::new(alloc, verdict) {
        Ok(verdict) => (Check::Ready(verdict), Ok(())),
        Err(failed) => (Check::Hashed(failed.value), Err(Fault::NoMemory)),
    }
}

impl Check {
    /// The check with its verdict, or as it was where there is no memory to share the verdict.
    fn hashed(self, alloc: Global) -> (Check, Result<(), Fault>)
        ensures kept { checked_of result.0 ≡ checked_of self }
        ensures ok { OnOk result.1 (is_ready result.0 ≡ true) }
        ensures err { OnErr result.1 (result.1 ≡ Err NoMemory) }
    {
        match self {
            Check::Due(job) => share(alloc, job.hash()),
            Check::Hashed(verdict) => share(alloc, verdict),
            Check::Ready(verdict) => (Check::Ready(verdict), Ok(())),
        }
    }

    /// The blocks of the piece.
    pub fn blocks(&self) -> &[Bytes]
        ensures { result.now ≡ (checked_of self.now).blocks }
    {
        match self {
            Check::Due(job) => job.blocks.as_slice(),
            Check::Hashed(verdict) => verdict.blocks(),
            Check::Ready(verdict) => verdict.blocks(),
        }
    }

    /// Hashes what wasn't hashed yet. It stays the check of the same blocks.
    pub fn hash(&mut self, alloc: Global) -> Result<(), Fault>
        ensures kept { checked_of self.new ≡ checked_of self.old }
        ensures ok { OnOk result (is_ready self.new ≡ true) }
        ensures err { OnErr result (result ≡ Err NoMemory) }
    {
        let nothing = Check::Due(Job {
            piece: 0,
            blocks: Vec::new(alloc),
        });
        let (check, done) = std::mem::replace(self, nothing).hashed(alloc);
        *self = check;
        done
    }
}
