//! What the threads of a run share, by name.

use std::marker::Brand;

/// The name of a run: which desk, board and queue are its own, and what its desk's history is judged by. What a thread has of its own is
/// known by it to belong to what all share.
pub trait RunName {
    ghost use Rattle.std.specs.Prelude.{Option};
    ghost use Rattle.atomic_table.specs.Seated.{TableId};
    ghost use Rattle.bt_check.specs.Queues.{Queue};
    ghost use Rattle.bt_history.specs.Setting.{Setting};

    ghost setting: { Setting };

    ghost desk: { Option TableId };

    ghost board: { Option TableId };

    ghost queue: { Option Queue };
}

impl RunName for Brand {
    ghost use Rattle.std.specs.Prelude.{None};
    ghost use Rattle.bt_shared.specs.Guard.{no_setting};

    ghost setting = { no_setting };

    ghost desk = { None };

    ghost board = { None };

    ghost queue = { None };
}
