//! A worker's pass to a shared picker: its seat.

ghost use Rattle.std.specs.Prelude.{◌≡◌};

use crate::lock::DeskSeat;
use bt_picker::Picker;
use std::marker::Model;

/// A worker's right to call a shared picker. Contracts see which picker it is, the worker's number, and the history that the pass has seen;
/// it keeps no log. Its type keeps that this history is legal.
#[derive(Drop)]
pub struct PickerPass {
    pub(crate) worker: u32,
    pub(crate) seat: DeskSeat<Picker>,
}

impl Model for PickerPass {
    ghost use Rattle.std.specs.Prelude.{◌<◌, []};
    ghost use Rattle.bt_history.specs.Legal.{IsLegal};
    ghost use Rattle.bt_shared.specs.Passes.{PassState, IsSeatOf};

    ghost Value = { PassState };

    ghost view = { λ p. record {
      table = p.seat.table_id;
      setting = p.seat.me.0.setting;
      worker = p.worker;
      seen = p.seat.me.0.part.seen;
      log = [];
    } };

    ghost invariant = { λ p. IsSeatOf p.worker p.seat.me × (p.worker < p.seat.me.0.setting.workers)
        × IsLegal p.seat.me.0.setting p.seat.me.0.part.seen };
}

impl PickerPass {
    /// The worker that calls by this pass.
    pub fn worker(&self) -> u32
        ensures { result ≡ self.now.worker }
    {
        self.worker
    }
}
