//! Calls whose numbers are tested.
ghost use Rattle.std.specs.Prelude.{◌≡◌, length};
ghost use Rattle.bt_history.specs.declared.event.Action.TheVariants as actions;
ghost use Rattle.bt_picker.specs.Told.{action_told};
ghost use Rattle.bt_c.specs.declared.engine.Keeping.TheVariants as keeps;
ghost use Rattle.bt_c.specs.Behind.{state};
ghost use Rattle.bt_c.specs.Calling.{Makes, MakesAt, MakesFlags, Receives, Restores, Settles, Spelling, Vouches, VouchesFor, VouchesThat};
ghost use Rattle.bt_c.specs.Calling.{VouchesWhole, outcome_of};
ghost use Rattle.bt_c.specs.Outcomes.{StaysItself};

use crate::engine::Engine;
use crate::fault::Fault;
use crate::held::Held;
use bt_meta::{BitFault, Bitfield};
use bt_picker::{Reason, Reply, Restored, Told, Unseen};
use std::alloc::Global;

/// The flags that the bytes spell, one for each of so many pieces.
fn flags_of(alloc: Global, bytes: &[u8], pieces: u32) -> Result<Bitfield, Fault>
    ensures { Spelling pieces bytes.now result }
{
    match Bitfield::from_wire(alloc, bytes, pieces) {
        Ok(flags) => Ok(flags),
        Err(BitFault::WrongCount) => Err(Fault::BitsLength),
        Err(BitFault::SpareBits) => Err(Fault::SpareBits),
        Err(BitFault::NoMemory) => Err(Fault::NoMemory),
    }
}

/// What came of a restore, as a reply or a fault.
fn restored(restored: Restored) -> Result<Reply, Fault>
    ensures { result ≡ outcome_of restored }
{
    match restored {
        Restored::Had => Ok(Reply::Had),
        Restored::Failed => Ok(Reply::Failed),
        Restored::Begun => Err(Fault::Begun),
        Restored::Refused(Reason::NoSuchPiece) => Err(Fault::Piece),
        Restored::Refused(Reason::WrongLength) => Err(Fault::Room),
        Restored::Refused(reason) => Ok(Reply::Refused(reason)),
    }
}

impl Held {
    /// Makes a call of the worker, where there is one.
    #[inline(always)]
    pub fn call(&mut self, alloc: Global, worker: u32, told: Told<'_>) -> Result<Reply, Fault>
        ensures same { StaysItself self.old self.new }
        ensures makes { Makes self.old (state self.new) worker (action_told told.entry) result }
    {
        if worker >= self.engine.picker().workers() {
            return Err(Fault::Worker);
        }
        Ok(self.engine.tell(alloc, worker, told)?)
    }

    /// Makes a call of the worker that names the piece, where there are both.
    #[inline(always)]
    pub fn call_at(
        &mut self,
        alloc: Global,
        worker: u32,
        piece: u32,
        told: Told<'_>,
    ) -> Result<Reply, Fault>
        ensures same { StaysItself self.old self.new }
        ensures makes { MakesAt self.old (state self.new) worker piece (action_told told.entry) result }
    {
        if worker >= self.engine.picker().workers() {
            return Err(Fault::Worker);
        }
        if piece >= self.engine.picker().torrent().piece_count() {
            return Err(Fault::Piece);
        }
        Ok(self.engine.tell(alloc, worker, told)?)
    }

    /// Tells the set of pieces that the payload of a `bitfield` message spells.
    pub fn bits(&mut self, alloc: Global, worker: u32, bytes: &[u8]) -> Result<Reply, Fault>
        ensures same { StaysItself self.old self.new }
        ensures makes { MakesFlags self.old (state self.new) worker bytes.now actions.Bits result }
    {
        if worker >= self.engine.picker().workers() {
            return Err(Fault::Worker);
        }
        let flags = flags_of(alloc, bytes, self.torrent.piece_count())?;
        Ok(self.engine.tell(alloc, worker, Told::Bits(&flags))?)
    }

    /// Tells which pieces the peer has too, spelled as a `bitfield` message spells them.
    pub fn haves(&mut self, alloc: Global, worker: u32, bytes: &[u8]) -> Result<Reply, Fault>
        ensures same { StaysItself self.old self.new }
        ensures makes { MakesFlags self.old (state self.new) worker bytes.now actions.Haves result }
    {
        if worker >= self.engine.picker().workers() {
            return Err(Fault::Worker);
        }
        let flags = flags_of(alloc, bytes, self.torrent.piece_count())?;
        Ok(self.engine.tell(alloc, worker, Told::Haves(&flags))?)
    }

    /// Tells which pieces are wanted, spelled as a `bitfield` message spells them.
    pub fn want(&mut self, alloc: Global, bytes: &[u8]) -> Result<Reply, Fault>
        ensures same { StaysItself self.old self.new }
        ensures makes { MakesFlags self.old (state self.new) 0 bytes.now actions.Want result }
    {
        let flags = flags_of(alloc, bytes, self.torrent.piece_count())?;
        Ok(self.engine.tell(alloc, 0, Told::Want(&flags))?)
    }

    /// Tells a picker that keeps no content that a block came, of which the client has the bytes.
    #[inline(always)]
    pub fn receive(
        &mut self,
        worker: u32,
        piece: u32,
        begin: u32,
        bytes: &Unseen,
        len: usize,
    ) -> Result<Reply, Fault>
        requires { len ≡ length bytes.now.bytes }
        ensures same { StaysItself self.old self.new }
        ensures receives { Receives self.old (state self.new) worker piece begin bytes.now.bytes result }
    {
        let Engine::Picker(picker) = &mut self.engine else {
            return Err(Fault::Keeps);
        };
        if worker >= picker.workers() {
            return Err(Fault::Worker);
        }
        if piece >= picker.torrent().piece_count() {
            return Err(Fault::Piece);
        }
        Ok(picker.received(worker, piece, begin, bytes, len))
    }

    /// Settles a piece of a picker that keeps no content, by the digest of what arrived.
    pub fn settle(&mut self, piece: u32, digest: &[u8; 20]) -> Result<Reply, Fault>
        requires { Vouches self.old piece digest.now }
        ensures same { StaysItself self.old self.new }
        ensures settles { Settles keeps.Nothing self.old (state self.new) piece result }
    {
        let Engine::Picker(picker) = &mut self.engine else {
            return Err(Fault::Keeps);
        };
        if piece >= picker.torrent().piece_count() {
            return Err(Fault::Piece);
        }
        if !picker.is_waiting(piece) {
            return Err(Fault::NotWaiting);
        }
        Ok(picker.settle(0, piece, digest))
    }

    /// Settles a piece of a picker that keeps no content, by the client's word whether what arrived has the metainfo's hash.
    pub fn judge(&mut self, piece: u32, passed: bool) -> Result<Reply, Fault>
        requires { VouchesThat self.old piece passed }
        ensures same { StaysItself self.old self.new }
        ensures settles { Settles keeps.Nothing self.old (state self.new) piece result }
    {
        let Engine::Picker(picker) = &mut self.engine else {
            return Err(Fault::Keeps);
        };
        if piece >= picker.torrent().piece_count() {
            return Err(Fault::Piece);
        }
        if !picker.is_waiting(piece) {
            return Err(Fault::NotWaiting);
        }
        Ok(picker.judge(0, piece, passed))
    }

    /// Tells a picker that keeps no content that a whole piece is there, whose bytes have this digest.
    pub fn restore(
        &mut self,
        worker: u32,
        piece: u32,
        bytes: &[u8],
        digest: &[u8; 20],
    ) -> Result<Reply, Fault>
        requires { VouchesFor self.old bytes.now digest.now }
        ensures same { StaysItself self.old self.new }
        ensures restores { Restores self.old (state self.new) worker piece bytes.now result }
    {
        let Engine::Picker(picker) = &mut self.engine else {
            return Err(Fault::Keeps);
        };
        if worker >= picker.workers() {
            return Err(Fault::Worker);
        }
        restored(picker.restore(worker, piece, bytes, digest))
    }

    /// Tells a picker that keeps no content that a whole piece is there, and whether it has the metainfo's hash.
    pub fn resume(
        &mut self,
        worker: u32,
        piece: u32,
        bytes: &Unseen,
        passed: bool,
    ) -> Result<Reply, Fault>
        requires { VouchesWhole self.old piece bytes.now.bytes passed }
        ensures same { StaysItself self.old self.new }
        ensures restores { Restores self.old (state self.new) worker piece bytes.now.bytes result }
    {
        let Engine::Picker(picker) = &mut self.engine else {
            return Err(Fault::Keeps);
        };
        if worker >= picker.workers() {
            return Err(Fault::Worker);
        }
        restored(picker.resume(worker, piece, bytes, passed))
    }

    /// Has a piece checked by a picker that keeps a journal.
    pub fn settle_now(&mut self, alloc: Global, piece: u32) -> Result<Reply, Fault>
        ensures same { StaysItself self.old self.new }
        ensures settles { Settles keeps.Journal self.old (state self.new) piece result }
    {
        let Engine::Desk(desk) = &mut self.engine else {
            return Err(Fault::Keeps);
        };
        if piece >= desk.picker().torrent().piece_count() {
            return Err(Fault::Piece);
        }
        if !desk.picker().is_waiting(piece) {
            return Err(Fault::NotWaiting);
        }
        Ok(desk.settle_now(alloc, 0, piece)?)
    }
}
