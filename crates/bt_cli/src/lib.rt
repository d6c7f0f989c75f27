//! The commands of the program: what each does with the bytes that it is given, the files that it reads and writes, and the command line that
//! asks for it.
#![tactic(auto)]

mod arguments;
mod asked;
mod commands;
mod device;
mod ended_streams;
mod ending;
mod failure;
mod file;
mod found;
mod help;
mod in_file;
mod options;
mod report;
mod road;
mod same;
mod saving;
mod serial;
mod shell;
mod streams;
mod target;
mod telling;
mod threads;
mod wrong;

pub use asked::{Asked, Judged};
pub use bt_meta::ToWrite;
pub use bt_text::{
    Fault, MOST_DEPTH, describe, explain_line, play_script, print, print_entry, print_fault,
    print_info, print_replies, read_hex, run_info, run_script, script_to, tell_fault,
};
pub use commands::{run_serial, run_threads};
pub use device::Device;
pub use ending::{ended, finish};
pub use failure::{Failure, WRONG_ARGUMENTS, conclude, graver};
pub use file::OutFile;
pub use in_file::InFile;
pub use options::Options;
pub use road::{
    Came, CameTogether, Done, files_of, info_of, script_of, serial_of, text_of, threads_of,
};
pub use same::is_input;
pub use saving::{NewFile, save};
pub use serial::{Run, play_streams};
pub use shell::obey;
pub use streams::{Recording, recorded};
pub use target::{Kept, Target};
pub use telling::run_status;
pub use threads::{ThreadsRun, play_threads};
pub use wrong::{Wrong, refuse};
