//! The desk that threads share: it lies in a slot beside a word that is its lock, each worker calls by a pass of its own that knows the
//! history it has seen and logs its calls, and when all are done the logs are compared with the journal.
#![tactic(auto)]

mod closing;
mod collecting;
mod compare;
mod entering;
mod gather;
mod job;
mod lock;
mod pass;
mod picker_pass;
mod shareable;
mod shared;
mod shared_picker;
mod taken;
mod telling;
mod turn;
mod view;

pub use gather::{Book, GatherFault};
pub use job::{SharedJob, SharedVerdict};
pub use pass::Pass;
pub use picker_pass::PickerPass;
pub use shared::SharedDesk;
pub use shared_picker::SharedPicker;
pub use turn::Turn;
