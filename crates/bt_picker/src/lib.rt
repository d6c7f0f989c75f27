//! The piece picker: which block to request next, and from which peer.
//!
//! It keeps the tables of `bt_tables` beside the history that they tell of, and a desk keeps that history as a journal. It may never
//! change tables but by an entry that the rules allow (`entries`), and no answer reads the history: that stands in proofs alone.
#![tactic(auto)]

mod allow;
mod auditing;
mod awaiting;
mod begin;
mod choose;
mod content;
mod desk;
mod endgame;
mod entries;
mod filed;
mod finished;
mod jobs;
mod keeper;
mod owning;
mod past;
mod picked;
mod picker;
mod places;
mod position;
mod refuse;
mod ruling;
mod settled;
mod stash;
mod stirring;
mod told;
mod unread;
mod unseen;

pub use auditing::{AuditFault, audit};
pub use bt_check::{Job, Verdict};
pub use bt_history::{
    Action, Call, CallMark, Entry, Event, MOST_DEPTH, MOST_LEVEL, MOST_OPEN, MOST_TOLD_DEPTH,
    MOST_WORKERS, Mark, PickRule, Reason, Reply, Rules, USUAL_LEVEL, laws,
};
pub use content::ContentFault;
pub use desk::Desk;
pub use keeper::Keeper;
pub use picker::{Picker, Restored};
pub use settled::Settled;
pub use told::Told;
pub use unseen::Unseen;
