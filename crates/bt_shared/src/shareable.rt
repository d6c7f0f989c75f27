//! What threads may share under the lock.

ghost use Rattle.bt_history.specs.Legal.{IsLegal};

use bt_picker::{Desk, Picker};

/// What threads may share: it has a setting, and a history that is legal.
pub trait Shareable: Drop {
    ghost use Rattle.bt_picker.specs.Positions.{DeskState};

    /// The setting with the history.
    ghost state: { Self → DeskState };

    /// Tells a proof that the history is legal. Nothing is done.
    fn attest(&self)
        ensures { IsLegal (state self.now).setting (state self.now).history };
}

impl Shareable for Desk {
    ghost state = { λ desk. desk };

    fn attest(&self) {
        // That the journal is read is what opens the desk's invariant.
        let _journal = self.journal();
    }
}

impl Shareable for Picker {
    ghost state = { λ picker. picker };

    fn attest(&self) {
        Picker::attest(self);
    }
}
