//! What the turns of a session wait for.

/// What each turn of a session waits for before it begins. Contracts say nothing of it.
pub trait Gate {
    /// The worker's session is about to take this turn, counted from 0.
    fn enter(&self, worker: u32, turn: u64);
}

/// A gate that nobody waits at.
#[derive(Clone, Copy, Debug, Default)]
pub struct OpenGate;

impl Gate for OpenGate {
    fn enter(&self, _worker: u32, _turn: u64) {}
}
