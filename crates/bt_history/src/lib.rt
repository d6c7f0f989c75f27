//! What a journal says: the calls of the picker with their replies, and, in `specs/`, which reply is allowed after which history.
#![tactic(auto)]

mod call;
mod event;
mod examples;
pub mod laws;
mod mark;
pub mod pick_laws;
mod pick_rule;
mod rules;

pub use call::{Call, Entry, Reason, Reply};
pub use event::{Action, Event};
pub use examples::worked_examples;
pub use mark::{CallMark, Mark};
pub use pick_rule::PickRule;
pub use rules::{
    MOST_DEPTH, MOST_LEVEL, MOST_OPEN, MOST_TOLD_DEPTH, MOST_WORKERS, Rules, USUAL_LEVEL,
};
