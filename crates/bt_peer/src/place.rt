//! Where a session makes its calls.

ghost use Rattle.std.specs.Prelude.{◌≡◌, ℕ, Bool, true, List, [], ◌∷◌, Some, IsTrue, IfOk, IfSome, IfNone, OnOk, OnErr};
ghost use Rattle.bt_history.specs.Entries.{action_of};
ghost use Rattle.bt_history.specs.Logs.{answers, call_mark};
ghost use Rattle.bt_peer.specs.Conduct.{SettlesAtOnce};
ghost use Rattle.bt_peer.specs.Acts.{Act, Called, News};
ghost use Rattle.bt_peer.specs.Places.{PlaceRecord, Gains, AllTold, LacksMemory};
ghost use Rattle.bt_peer.specs.Turns.{ChecksAtMost, arrived_piece, if_completed};

use bt_history::{Call, Reply};
use std::alloc::{AllocError, Global};

/// A worker's place at a picker, its own or a shared one.
pub trait Place {
    /// Its calls with their replies, the pieces that were told as news, and whether a call has found no memory.
    ghost past: { Self → PlaceRecord };

    // Whether it makes the check of a completed piece itself, at once.
    ghost settles: { Bool };

    // The pieces that wait for a check, as far as it knows.
    ghost awaits: { Self → ℕ → Bool };

    /// Makes a call in the worker's name.
    fn call(&mut self, call: Call) -> Result<Reply, AllocError>
        ensures ok { IfOk result (λ reply.
            Gains (past self.old) (Called (action_of call) reply ∷ []) (past self.new)) }
        ensures fits { IfOk result (λ reply. IsTrue (answers (call_mark (action_of call)) reply)) }
        ensures completes { IfOk result (λ reply. settles ≡ true → (piece : ℕ) →
            if_completed (arrived_piece (action_of call)) reply ≡ Some piece → awaits self.new piece ≡ true) }
        ensures err { OnErr result (LacksMemory (past self.old) (past self.new)) };

    /// A finished piece that wasn't told before; none only if all that are known to be finished were told.
    fn news(&mut self) -> Option<u32>
        ensures some { IfSome result (λ piece. Gains (past self.old) (News piece ∷ []) (past self.new)) }
        ensures none { IfNone result (Gains (past self.old) [] (past self.new) × AllTold (past self.new)) };

    /// Sees to the check of a piece whose last block came: here and now, or by someone else later.
    fn completed(&mut self, alloc: Global, piece: u32) -> Result<(), AllocError>
        ensures ok { OnOk result ((acts : List Act) × (ChecksAtMost piece acts
            × Gains (past self.old) acts (past self.new))) }
        ensures at_once { OnOk result (settles ≡ true → awaits self.old piece ≡ true →
            SettlesAtOnce piece (past self.old).calls (past self.new).calls) }
        ensures err { OnErr result (LacksMemory (past self.old) (past self.new)) };
}
