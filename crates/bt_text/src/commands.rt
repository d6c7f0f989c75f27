//! The commands that need no peer, whole: with their exit status, and the line of a fault on a writer of its own.

ghost use Rattle.std.specs.Prelude.{◌≡◌, MatchResult, OnOk};
ghost use Rattle.bt_meta.specs.Reading.{torrent_of_file};
ghost use Rattle.bt_text.specs.Info.{IsInfoStatus, PrintsInfo};
ghost use Rattle.bt_text.specs.Scripts.{IsScriptStatus};
ghost use Rattle.bt_text.specs.Statuses.{status_of};

use crate::fault::{Fault, tell_fault};
use crate::info::describe;
use crate::script::play_script;
use bt_meta::ToWrite;
use std::alloc::Global;
use std::io::Write;

/// Plays a script on a desk of its own, and prints a reply for each call, a line each; a fault goes to `err`.
///
/// Answers the exit status: 0 for a script; 2 for bytes that are none, with the number of the first line at fault; 4 where `out` fails;
/// 5 for want of memory. The replies to the lines before a fault are printed.
pub fn script_to<W: Write, E: Write>(alloc: Global, input: &[u8], out: &mut W, err: &mut E) -> u8
    ensures status { IsScriptStatus input.now result (W.contents out.old) (W.contents out.new) }
    ensures quiet { result ≡ 0 → err.new ≡ err.old }
{
    conclude(play_script(alloc, input, out), err)
}

/// The same, and no fault is told.
pub fn run_script<W: Write>(alloc: Global, input: &[u8], out: &mut W) -> u8
    ensures { IsScriptStatus input.now result (W.contents out.old) (W.contents out.new) }
{
    script_to(alloc, input, out, &mut std::io::sink())
}

/// Prints what a metainfo file says of its content, a line each; a fault goes to `err`.
///
/// Answers the exit status: 0; 3 for bytes that are no metainfo file; 4 where `out` fails; 5 for want of memory.
pub fn run_info<W: Write, E: Write>(alloc: Global, meta: &[u8], out: &mut W, err: &mut E) -> u8
    ensures status { IsInfoStatus (torrent_of_file meta.now) result }
    ensures printed { result ≡ 0 → PrintsInfo (torrent_of_file meta.now) (W.contents out.old) (W.contents out.new) }
    ensures quiet { result ≡ 0 → err.new ≡ err.old }
{
    conclude(describe(alloc, meta, out), err)
}

/// The exit status of a command. A fault is told on `err`; that this fails changes nothing.
pub fn conclude<E: Write>(done: Result<(), Fault>, err: &mut E) -> u8
    ensures status { MatchResult done (λ _. result ≡ 0) (λ fault. result ≡ status_of fault) }
    ensures quiet { OnOk done (err.new ≡ err.old) }
{
    match done {
        Ok(()) => 0,
        Err(fault) => tell_fault(fault, &mut ToWrite::new(err)),
    }
}
