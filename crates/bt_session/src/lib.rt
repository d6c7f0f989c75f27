//! Runs of several recorded peers in threads: what the threads share, what each of them has of its own and does, and how a run starts them,
//! joins them and gathers what they leave.
//!
//! A session itself is `bt_peer`'s, and all of its names are here too.
#![tactic(auto)]

mod check_threads;
mod checker;
mod commons;
mod crew;
mod fault;
mod fittings;
mod four;
mod pass_place;
mod plan;
mod round;
mod run_name;
mod session_thread;
mod swarm_run;
mod threads;
mod waiting;
mod work;
mod worked;

pub use bt_peer::{
    DeskPlace, End, Gate, MOST_STREAMS, OpenGate, Place, SerialRun, Session, SessionFault, Stream,
    serial, whole,
};
pub use checker::{StoppedChecker, check_pieces};
pub use commons::{Commons, Worker};
pub use fault::SwarmFault;
pub use pass_place::PassPlace;
pub use run_name::RunName;
pub use session_thread::{EndedSession, run_session};
pub use swarm_run::{MOST_CHECKERS, SwarmRun, swarm};
pub use waiting::is_short;
pub use worked::{Worked, last_checks, part, part_checkers};
