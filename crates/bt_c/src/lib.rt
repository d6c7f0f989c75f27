//! The picker for callers in C: `libpiecepick.a`, whose header is `clients/piecepick.h`.
#![tactic(auto)]

mod answer;
mod asking;
mod buffer;
mod calling;
mod check;
mod digest;
mod engine;
mod exports;
mod fault;
mod handle;
mod held;
mod job_handle;
mod job_pointer;
mod jobs;
mod kept;
mod lending;
mod loose;
mod opening;
mod options;
mod picker_handle;
mod picker_pointer;
mod sending;
mod torrents;
