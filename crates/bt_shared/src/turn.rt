//! A worker's turn: the picker is its own until it gives it back.

ghost use Rattle.std.specs.Prelude.{◌≡◌, ℕ, List, length, true};
ghost use Rattle.bt_history.specs.declared.call.Reply.{Reply};
ghost use Rattle.bt_history.specs.declared.event.Action.TheVariants.{Arrived};
ghost use Rattle.bt_history.specs.Legal.{IsLegal};
ghost use Rattle.bt_picker.specs.Checks.{SettlesNow, arriving, is_right, waits};
ghost use Rattle.bt_picker.specs.Positions.{Gains};
ghost use Rattle.bt_picker.specs.Told.{action_told, telling};
ghost use Rattle.bt_shared.specs.Passes.{IsSame, picker_of};

use crate::lock::DeskSeat;
use crate::telling;
use bt_picker::{Picker, Reply, Told, Unseen};
use std::marker::Model;

/// A worker's pass with the picker, while all others wait: so it asks and calls as often as it likes, and gives the picker back. Contracts see
/// what they see of a pass. What it has seen is all of the history. A turn that is dropped takes the picker with it: the others wait for
/// ever.
#[derive(Drop)]
pub struct Turn {
    pub(crate) worker: u32,
    pub(crate) seat: DeskSeat<Picker>,
    pub(crate) picker: Box<Picker>,
}

impl Model for Turn {
    ghost use Rattle.std.specs.Prelude.{◌<◌, []};
    ghost use Rattle.bt_shared.specs.Passes.{PassState, IsTurnOf};

    ghost Value = { PassState };

    ghost view = { λ t. record {
      table = t.seat.table_id;
      setting = t.seat.me.0.setting;
      worker = t.worker;
      seen = t.picker.value.history;
      log = [];
    } };

    ghost invariant = { λ t. IsTurnOf t.worker t.seat.me t.picker.value × (t.worker < t.seat.me.0.setting.workers) };
}

impl Turn {
    /// The worker whose turn it is.
    pub fn worker(&self) -> u32
        ensures { result ≡ self.now.worker }
    {
        self.worker
    }

    /// The picker, for questions.
    pub fn picker(&self) -> &Picker
        ensures { result.now ≡ picker_of self.now }
    {
        &self.picker
    }

    /// Answers what the worker tells, as `Picker::tell` does.
    pub fn tell(&mut self, told: Told<'_>) -> Reply
        ensures gains { Gains (picker_of self.old) (picker_of self.new) (telling self.old.worker told.entry result) }
        ensures same { IsSame self.old self.new }
        ensures legal { IsLegal self.new.setting self.new.seen }
        ensures completes { (piece begin : ℕ) (bytes : List ℕ) →
            action_told told.entry ≡ Arrived piece begin bytes → result ≡ Reply.Completed →
            waits self.new.setting self.new.seen piece ≡ true }
    {
        let Turn { worker, picker, .. } = self;
        telling::tell(picker, *worker, told)
    }

    /// Answers a block that came from the worker's peer, as `Picker::received` does: the caller has its bytes, and tells how many they are.
    pub fn received(&mut self, piece: u32, begin: u32, bytes: &Unseen, len: usize) -> Reply
        requires { len ≡ length bytes.now.bytes }
        ensures gains { Gains (picker_of self.old) (picker_of self.new)
            (arriving self.old.worker piece begin bytes.now.bytes result) }
        ensures same { IsSame self.old self.new }
        ensures legal { IsLegal self.new.setting self.new.seen }
        ensures completes { result ≡ Reply.Completed → waits self.new.setting self.new.seen piece ≡ true }
    {
        let Turn { worker, picker, .. } = self;
        telling::receive(picker, *worker, piece, begin, bytes, len)
    }

    /// Answers the worker's verdict on what is stored of the piece, as `Picker::judge` does.
    pub fn judge(&mut self, piece: u32, passed: bool) -> Reply
        requires { waits self.old.setting self.old.seen piece ≡ true → passed ≡ is_right self.old.setting self.old.seen piece }
        ensures settles { SettlesNow (picker_of self.old) (picker_of self.new) self.old.worker piece result }
        ensures same { IsSame self.old self.new }
        ensures legal { IsLegal self.new.setting self.new.seen }
    {
        let Turn { worker, picker, .. } = self;
        telling::judge(picker, *worker, piece, passed)
    }
}
