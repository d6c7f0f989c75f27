//! A worker's pass: its seat, and the log of its calls.

ghost use Rattle.std.specs.Prelude.{◌≡◌};
ghost use Rattle.bt_history.specs.Legal.{IsLegal};
ghost use Rattle.bt_history.specs.Logs.{Agrees};

use crate::lock::DeskSeat;
use bt_picker::{Desk, Mark};
use std::alloc::AllocError;
use std::marker::Model;

/// A worker's right to call a shared desk, and the log of its calls. Contracts see which desk it is, the worker's number, the log, and
/// the history that the pass has seen. Its type keeps that this history is legal, and that the log has the marks of its worker's entries
/// in it, and no others.
#[derive(Drop)]
pub struct Pass {
    pub(crate) worker: u32,
    pub(crate) seat: DeskSeat<Desk>,
    pub(crate) log: Vec<Mark>,
}

impl Model for Pass {
    ghost use Rattle.std.specs.Prelude.{◌<◌};
    ghost use Rattle.bt_history.specs.Legal.{IsLegal};
    ghost use Rattle.bt_history.specs.Logs.{Agrees};
    ghost use Rattle.bt_shared.specs.Passes.{PassState, IsSeatOf};

    ghost Value = { PassState };

    ghost view = { λ p. record {
      table = p.seat.table_id;
      setting = p.seat.me.0.setting;
      worker = p.worker;
      seen = p.seat.me.0.part.seen;
      log = p.log.items;
    } };

    ghost invariant = { λ p. IsSeatOf p.worker p.seat.me × (p.worker < p.seat.me.0.setting.workers)
        × IsLegal p.seat.me.0.setting p.seat.me.0.part.seen
        × Agrees p.seat.me.0.part.seen p.worker p.log.items };
}

impl Pass {
    /// The worker that calls by this pass.
    pub fn worker(&self) -> u32
        ensures { result ≡ self.now.worker }
    {
        self.worker
    }

    /// Makes room for one more mark.
    pub(crate) fn make_room(&mut self) -> Result<(), AllocError>
        ensures same { self.new ≡ self.old }
        ensures legal { IsLegal self.new.setting self.new.seen }
    {
        self.log.reserve(1)?;
        Ok(())
    }

    /// The marks of the entries that this pass's calls made, the oldest first.
    pub fn log(&self) -> &[Mark]
        ensures log { result.now ≡ self.now.log }
        ensures agrees { Agrees self.now.seen self.now.worker result.now }
    {
        self.log.as_slice()
    }
}
