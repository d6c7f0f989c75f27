//! The picker without a journal that threads share, and the calls at it.

ghost use Rattle.std.specs.Prelude.{◌≡◌, ◌<◌, ◌≤◌, ℕ, List, true, Some, slice_get, vec_len, IfErr, IfNone, IfOk, IfSome, IsSome};
ghost use Rattle.bt_history.specs.declared.call.Reply.{Reply};
ghost use Rattle.bt_history.specs.declared.event.Action.TheVariants.{Arrived};
ghost use Rattle.bt_history.specs.Legal.{IsLegal};
ghost use Rattle.bt_history.specs.Setting.{AreRules, setting_of};
ghost use Rattle.bt_picker.specs.Checks.{waits};
ghost use Rattle.bt_picker.specs.Told.{action_told, telling};
ghost use Rattle.bt_shared.specs.Closing.{EachKnows};
ghost use Rattle.bt_shared.specs.Passes.{Adds, AreOf, IsRightWhenDue, Judges, Rests, newcomer};

use crate::collecting::close_all;
use crate::lock::{Desks, lay, lock, next_seat, try_lock, unlock_after};
use crate::picker_pass::PickerPass;
use crate::taken::{judge_and_free, tell_and_free};
use crate::turn::Turn;
use crate::view::DeskTerms;
use bt_history::MOST_WORKERS;
use bt_meta::Torrent;
use bt_picker::{Picker, Reply, Rules, Told};
use std::alloc::{AllocError, Global};
use std::marker::Model;
use std::sync::{Arc, Wait};

/// A picker that threads share. Each call is made while its caller has the picker alone, takes no memory, and its pass then knows the history
/// that it has found. Contracts see which picker it is, and the setting that its history is judged by. A pass is handed to the picker with
/// which it was opened, the caller's condition.
pub struct SharedPicker {
    table: Desks<Picker>,
}

/// The end of a shared picker is one call for whoever owns one.
impl Drop for SharedPicker {
    fn drop(self) {
        let SharedPicker { table: _table } = self;
    }
}

impl Model for SharedPicker {
    ghost use Rattle.std.specs.Prelude.{◌≤◌};
    ghost use Rattle.bt_shared.specs.Passes.{SharedState};
    ghost use Rattle.bt_shared.specs.Guard.{IsDesk};

    ghost Value = { SharedState };

    ghost view = { λ s. record { table = s.table.shared.table_id; setting = s.table.shared.key } };

    ghost invariant = { λ s. IsDesk s.table.shared.table_id.words s.table.shared.table_id.slots
        × (1 ≤ s.table.shared.key.workers) };
}

impl SharedPicker {
    /// A picker with the empty history, and a pass for each worker, in order, that has seen nothing. `Picker::new` says which workers and rules
    /// there may be.
    pub fn open(
        alloc: Global,
        torrent: Arc<Torrent>,
        workers: u32,
        rules: Rules,
    ) -> Result<(SharedPicker, Vec<PickerPass>), AllocError>
        requires workers { (1 ≤ workers) × (workers ≤ MOST_WORKERS) }
        requires rules { AreRules torrent.value.layout rules }
        ensures picker { IfOk result (λ opened. opened.0.setting ≡ setting_of torrent.value.layout workers rules) }
        ensures count { IfOk result (λ opened. vec_len opened.1 ≡ workers) }
        ensures passes { IfOk result (λ opened.
            (w : ℕ) → w < workers → slice_get opened.1.items w ≡ Some (newcomer opened.0 w)) }
    {
        let terms = DeskTerms::of(&torrent, workers, rules)?;
        let picker = Box::new(alloc, Picker::new(alloc, torrent, workers, rules)?)?;
        let (table, mut maker) = lay(alloc, picker, &terms)?;
        let mut passes = Vec::new(alloc);
        for worker in 0..workers {
            let seat = next_seat(&table.shared, &mut maker);
            passes.push(PickerPass { worker, seat })?;
        }
        Ok((SharedPicker { table }, passes))
    }

    /// Answers what the worker tells, once the picker is had. What the pass has seen then ends with its entry.
    pub fn call<R: Wait>(&self, rt: &R, pass: &mut PickerPass, told: Told<'_>) -> Reply
        requires { pass.old.table ≡ self.now.table }
        ensures adds { Adds (telling pass.old.worker told.entry result) pass.old pass.new }
        ensures legal { IsLegal pass.new.setting pass.new.seen }
        // Once its last block came, a piece waits for its check.
        ensures completes { (piece begin : ℕ) (bytes : List ℕ) →
            action_told told.entry ≡ Arrived piece begin bytes → result ≡ Reply.Completed →
            waits pass.new.setting pass.new.seen piece ≡ true }
    {
        let words = &self.table.shared;
        let PickerPass { worker, seat } = pass;
        let picker = lock(rt, words, seat);
        tell_and_free(words, *worker, seat, picker, told)
    }

    /// The same where the picker is had within some microseconds. None while others have it: then nothing changed. It needs no handle, and ends.
    pub fn try_call(&self, pass: &mut PickerPass, told: Told<'_>) -> Option<Reply>
        requires { pass.old.table ≡ self.now.table }
        ensures adds { IfSome result (λ reply. Adds (telling pass.old.worker told.entry reply) pass.old pass.new) }
        ensures legal { IsLegal pass.new.setting pass.new.seen }
        ensures completes { IfSome result (λ reply. (piece begin : ℕ) (bytes : List ℕ) →
            action_told told.entry ≡ Arrived piece begin bytes → reply ≡ Reply.Completed →
            waits pass.new.setting pass.new.seen piece ≡ true) }
        ensures busy { IfNone result (pass.new ≡ pass.old) }
    {
        let words = &self.table.shared;
        let PickerPass { worker, seat } = pass;
        let picker = try_lock(words, seat)?;
        Some(tell_and_free(words, *worker, seat, picker, told))
    }

    /// Answers the worker's verdict on what is stored of the piece, once the picker is had. A piece that doesn't wait for a check is refused,
    /// with no entry.
    pub fn judge<R: Wait>(&self, rt: &R, pass: &mut PickerPass, piece: u32, passed: bool) -> Reply
        requires pass { pass.old.table ≡ self.now.table }
        requires right { IsRightWhenDue pass.old piece passed }
        ensures judges { Judges piece result pass.old pass.new }
        ensures legal { IsLegal pass.new.setting pass.new.seen }
    {
        let words = &self.table.shared;
        let PickerPass { worker, seat } = pass;
        let picker = lock(rt, words, seat);
        judge_and_free(words, *worker, seat, picker, piece, passed)
    }

    /// The same where the picker is had within some microseconds. None while others have it: then nothing changed. It needs no handle, and ends.
    pub fn try_judge(&self, pass: &mut PickerPass, piece: u32, passed: bool) -> Option<Reply>
        requires pass { pass.old.table ≡ self.now.table }
        requires right { IsRightWhenDue pass.old piece passed }
        ensures judges { IfSome result (λ reply. Judges piece reply pass.old pass.new) }
        ensures legal { IsLegal pass.new.setting pass.new.seen }
        ensures busy { IfNone result (pass.new ≡ pass.old) }
    {
        let words = &self.table.shared;
        let PickerPass { worker, seat } = pass;
        let picker = try_lock(words, seat)?;
        Some(judge_and_free(words, *worker, seat, picker, piece, passed))
    }

    /// The picker itself, once it is had, for as many questions and calls of the worker as it likes. `give` gives it back.
    pub fn take<R: Wait>(&self, rt: &R, pass: PickerPass) -> Turn
        requires { pass.table ≡ self.now.table }
        ensures rests { Rests pass result }
        ensures legal { IsLegal result.setting result.seen }
    {
        let PickerPass { worker, mut seat } = pass;
        let picker = lock(rt, &self.table.shared, &mut seat);
        Turn {
            worker,
            seat,
            picker,
        }
    }

    /// The same where the picker is had within some microseconds. The pass comes back while others have it. It needs no handle, and ends.
    pub fn try_take(&self, pass: PickerPass) -> Result<Turn, PickerPass>
        requires { pass.table ≡ self.now.table }
        ensures rests { IfOk result (λ turn. Rests pass turn) }
        ensures legal { IfOk result (λ turn. IsLegal turn.setting turn.seen) }
        ensures busy { IfErr result (λ back. back ≡ pass) }
    {
        let PickerPass { worker, mut seat } = pass;
        match try_lock(&self.table.shared, &mut seat) {
            Some(picker) => Ok(Turn {
                worker,
                seat,
                picker,
            }),
            None => Err(PickerPass { worker, seat }),
        }
    }

    /// Gives the picker back, and lets the others have it.
    pub fn give(&self, turn: Turn) -> PickerPass
        requires { turn.table ≡ self.now.table }
        ensures same { result ≡ turn }
        ensures legal { IsLegal result.setting result.seen }
    {
        let Turn {
            worker,
            mut seat,
            picker,
        } = turn;
        picker.attest();
        unlock_after(&self.table.shared, &mut seat, picker);
        PickerPass { worker, seat }
    }

    /// The picker of all calls. None where a turn was never given back, whose pass is then missing: the picker is lost with it.
    pub fn close(self, passes: Vec<PickerPass>) -> Option<Picker>
        requires { AreOf self passes.items }
        ensures setting { IfSome result (λ picker. picker.setting ≡ self.setting) }
        ensures legal { IfSome result (λ picker. IsLegal picker.setting picker.history) }
        ensures seen { IfSome result (λ picker. EachKnows picker.history passes.items) }
        ensures all { vec_len passes ≡ self.setting.workers → IsSome result }
    {
        let SharedPicker { table } = self;
        close_all(table, passes)
    }
}
