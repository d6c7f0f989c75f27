//! Scripts of calls, and what the program's commands print: faults and their statuses, replies, journals, and what a metainfo file says.
#![tactic(auto)]

mod commands;
mod fault;
mod info;
mod journal;
mod listing;
mod printing;
mod reason;
mod script;
mod text;

pub use commands::{conclude, run_info, run_script, script_to};
pub use fault::{Fault, print_fault, tell_fault};
pub use info::{describe, print_info};
pub use journal::{print_entry, print_journal};
pub use listing::print_files;
pub use printing::{print, print_numbered};
pub use reason::explain_line;
pub use script::{MOST_DEPTH, play_script, print_replies, read_hex};
pub use text::{ReplyText, Tail};
