//! What a run in threads goes by.

use bt_history::Rules;

/// What a run in threads goes by, whatever its peers do.
#[derive(Clone, Copy)]
pub struct Plan {
    /// The sessions' generators are made from it, each with the number of its worker.
    pub seed: u64,
    /// The rules of the desk. Each session asks for as many blocks at a time as their depth says.
    pub rules: Rules,
    /// How many threads check pieces.
    pub checkers: u32,
}
