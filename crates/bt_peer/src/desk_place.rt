//! A worker's place at a desk of its own.

ghost use Rattle.std.specs.Prelude.{◌≡◌, ◌<◌, ◌∷◌, ℕ, List, [], length, OnOk, OnErr, true, false, slice_index_or, IfSome, IfNone};
ghost use Rattle.bt_meta.specs.Layout.{piece_count};
ghost use Rattle.bt_history.specs.Before.{never_loses};
ghost use Rattle.bt_history.specs.Finished.{finished};
ghost use Rattle.bt_history.specs.Pieces.{had};
ghost use Rattle.bt_history.specs.declared.call.Reply.{Reply};
ghost use Rattle.bt_picker.specs.Checks.{SettlesNow, waits};
ghost use Rattle.bt_peer.specs.Conduct.{SettlesAtOnce};
ghost use Rattle.bt_peer.specs.Desks.{desk_record};
ghost use Rattle.bt_peer.specs.Acts.{Act, News};
ghost use Rattle.bt_peer.specs.News.{AreTold, FindsUntold, IsLesser};
ghost use Rattle.bt_peer.specs.Places.{AllTold, Gains, LacksMemory};
ghost use Rattle.bt_peer.specs.Turns.{ChecksAtMost};

use crate::place::Place;
use bt_meta::Bitfield;
use bt_picker::{Call, Desk, Reply};
use std::alloc::{AllocError, Global};

/// A worker's place at a desk that nobody else uses meanwhile.
#[derive(Drop)]
pub struct DeskPlace<'a> {
    desk: &'a mut Desk,
    worker: u32,
    /// The pieces that were told as news.
    told: &'a mut Bitfield,
    /// So many of the pieces that the desk lists as finished were told, from the first on: news are behind these.
    seen: usize,
    lacked: bool,
    ghost worker_is: { worker < desk.now.setting.workers },
    ghost pieces: { length told.now ≡ piece_count desk.now.setting.torrent },
    ghost told_first: { AreTold told.now seen (finished desk.now.history) },
}

impl<'a> DeskPlace<'a> {
    /// The worker is one of the desk's, and the bitfield is of the desk's pieces.
    pub fn new(desk: &'a mut Desk, worker: u32, told: &'a mut Bitfield) -> DeskPlace<'a>
        requires worker { worker < desk.old.setting.workers }
        requires told { length told.old ≡ piece_count desk.old.setting.torrent }
        ensures { ⟦<DeskPlace<'a> as Place>⟧.past result ≡ desk_record
            (desk.entry.ghost_name ∷ told.entry.ghost_name ∷ []) desk.old worker told.old false }
    {
        DeskPlace::resume(desk, worker, told, 0)
    }

    /// The same, where so many of the pieces that the desk lists as finished are known to be told.
    pub(crate) fn resume(
        desk: &'a mut Desk,
        worker: u32,
        told: &'a mut Bitfield,
        seen: usize,
    ) -> DeskPlace<'a>
        requires worker { worker < desk.old.setting.workers }
        requires told { length told.old ≡ piece_count desk.old.setting.torrent }
        requires seen { AreTold told.old seen (finished desk.old.history) }
        ensures { ⟦<DeskPlace<'a> as Place>⟧.past result ≡ desk_record
            (desk.entry.ghost_name ∷ told.entry.ghost_name ∷ []) desk.old worker told.old false }
    {
        DeskPlace {
            desk,
            worker,
            told,
            seen,
            lacked: false,
        }
    }

    /// How many of the pieces that the desk lists as finished are known to be told.
    pub(crate) fn seen(&self) -> usize
        ensures { AreTold self.now.told.now result (finished self.now.desk.now.history) }
    {
        self.seen
    }

    /// Whether a call has found no memory.
    pub fn lacked_memory(&self) -> bool
        ensures { result ≡ (⟦<DeskPlace<'a> as Place>⟧.past self.now).lacked }
    {
        self.lacked
    }
}

impl<'a> Place for DeskPlace<'a> {
    ghost past = { λ s. desk_record (s.desk.ghost_name ∷ s.told.ghost_name ∷ []) s.desk.now s.worker s.told.now s.lacked };

    ghost settles = { true };

    ghost awaits = { λ s piece. waits s.desk.now.setting s.desk.now.history piece };

    fn call(&mut self, call: Call) -> Result<Reply, AllocError> {
        match self.desk.call(self.worker, call) {
            Ok(reply) => Ok(reply),
            Err(e) => {
                self.lacked = true;
                Err(e)
            }
        }
    }

    /// The least piece that is had and wasn't told.
    fn news(&mut self) -> Option<u32>
        ensures some { IfSome result (λ piece. Gains (⟦<DeskPlace<'a> as Place>⟧.past self.old) (News piece ∷ [])
            (⟦<DeskPlace<'a> as Place>⟧.past self.new)) }
        ensures none { IfNone result (Gains (⟦<DeskPlace<'a> as Place>⟧.past self.old) [] (⟦<DeskPlace<'a> as Place>⟧.past self.new)
            × AllTold (⟦<DeskPlace<'a> as Place>⟧.past self.new)) }
        ensures least { IfSome result (λ piece. (other : ℕ) → other < piece → had self.old.desk.now.history other ≡ true →
            slice_index_or self.old.told.now other false ≡ true) }
    {
        let untold = first_untold(self.desk, self.told, self.seen);
        match untold {
            Some(piece) => self.told.set(piece),
            None => self.seen = self.desk.finished().len(),
        }
        untold
    }

    fn completed(&mut self, alloc: Global, piece: u32) -> Result<(), AllocError>
        ensures ok { OnOk result ((acts : List Act) × (ChecksAtMost piece acts
            × Gains (⟦<DeskPlace<'a> as Place>⟧.past self.old) acts (⟦<DeskPlace<'a> as Place>⟧.past self.new))) }
        ensures err { OnErr result (LacksMemory (⟦<DeskPlace<'a> as Place>⟧.past self.old) (⟦<DeskPlace<'a> as Place>⟧.past self.new)) }
        ensures at_once { OnOk result (true ≡ true → waits self.old.desk.now.setting self.old.desk.now.history piece ≡ true →
            SettlesAtOnce piece (⟦<DeskPlace<'a> as Place>⟧.past self.old).calls (⟦<DeskPlace<'a> as Place>⟧.past self.new).calls) }
        // The check is made here and now.
        ensures settles { OnOk result ((reply : Reply) × SettlesNow self.old.desk.now self.new.desk.now self.old.worker piece reply) }
    {
        match self.desk.settle_now(alloc, self.worker, piece) {
            Ok(_) => Ok(()),
            Err(e) => {
                self.lacked = true;
                Err(e)
            }
        }
    }
}

/// The least of the finished pieces that wasn't told, where the first so many of them were. Goes over the others alone.
fn first_untold(desk: &Desk, told: &Bitfield, seen: usize) -> Option<u32>
    requires { AreTold told.now seen (finished desk.now.history) }
    ensures found { FindsUntold told.now (finished desk.now.history) (length (finished desk.now.history)) result }
    ensures kept { never_loses desk.now.history ≡ true }
{
    let pieces = desk.finished();
    let mut least = None;
    for i in seen..pieces.len() {
        least = lesser(told, least, pieces[i]);
    }
    least
}

/// The piece where it wasn't told and is less than what was found before, and else that.
fn lesser(told: &Bitfield, found: Option<u32>, piece: u32) -> Option<u32>
    ensures { IsLesser told.now found piece result }
{
    if piece >= told.count() || told.has(piece) {
        return found;
    }
    match found {
        Some(least) if least <= piece => found,
        _ => Some(piece),
    }
}
