//! The commands: the files that a command line names are opened and read, and what they gave goes its road.

ghost use Rattle.std.specs.Prelude.{◌≡◌, ◌≤◌, is_some, length, IfOk, IfSome};

use crate::arguments::command;
use crate::asked::Asked;
use crate::device::Device;
use crate::ended_streams::ends_in_words;
use crate::failure::{Failure, conclude};
use crate::file::OutFile;
use crate::found::{asked, misplaced_in_run, misplaced_in_serial};
use crate::options::Options;
use crate::road::{Done, files_of, info_of, script_of, serial_of, text_of, threads_of};
use crate::same::is_input;
use crate::streams::recorded;
use crate::target::Target;
use crate::wrong::{Wrong, refuse};
use bt_meta::{Sink, ToWrite};
use bt_peer::MOST_STREAMS;
use bt_session::MOST_CHECKERS;
use bt_text::{Fault, MOST_DEPTH, explain_line, print};
use clap::ArgMatches;
use clap::error::ErrorKind;
use std::alloc::Global;
use std::fs::Files;
use std::io::{BufReader, BufWriter, Input, Read, Write};
use std::sync::Wait;
use std::thread::Threads;
use std::{fs, io};

/// Does what the command line says, its first word being the program's name, prints to `out`, tells a failure on `err`, and answers the exit
/// status. Behind the line of a failure stands what there is more to say, in words.
pub fn obey<R: Files + Input + AllocGlobal + Threads + Wait + Sync, O: Write + Drop, E: Write>(
    rt: &R,
    words: &[String],
    out: O,
    err: &mut E,
) -> u8
where
    R::File: Send,
{
    let mut err = ToWrite::new(err);
    let mut more = None;
    let done = match execute(rt, words, out, &mut err, &mut more) {
        Ok(done) => Ok(done.status()),
        Err(failure) => Err(failure),
    };
    let status = conclude(rt.alloc(), done, &mut err);
    if let Some(more) = more {
        let _ = print(&mut err, &more);
    }
    status
}

/// Executes the command that the arguments say, with a buffer before its output.
fn execute<'w, R: Files + Input + AllocGlobal + Threads + Wait + Sync, O: Write + Drop, E: Sink>(
    rt: &R,
    words: &'w [String],
    out: O,
    err: &mut E,
    more: &mut Option<String>,
) -> Result<Done, Failure<'w>>
where
    R::File: Send,
{
    match BufWriter::new(rt.alloc(), out) {
        Ok(out) => execute_to(rt, words, &mut Device::new(out), err, more),
        Err(error) => Err(Failure::of_output(error)),
    }
}

/// Executes the command that the arguments say.
fn execute_to<'w, R: Files + Input + AllocGlobal + Threads + Wait + Sync, O: Write + Drop, E: Sink>(
    rt: &R,
    words: &'w [String],
    out: &mut Device<O>,
    err: &mut E,
    more: &mut Option<String>,
) -> Result<Done, Failure<'w>>
where
    R::File: Send,
{
    match command(rt.alloc())?.try_get_matches_from(words) {
        Ok(matches) => execute_command(rt, &matches, out, err, more),
        Err(error) => explain(rt.alloc(), &error, out, err),
    }
}

/// Executes the command that was found.
fn execute_command<
    'w,
    R: Files + Input + AllocGlobal + Threads + Wait + Sync,
    O: Write + Drop,
    E: Sink,
>(
    rt: &R,
    matches: &ArgMatches<'w>,
    out: &mut Device<O>,
    err: &mut E,
    more: &mut Option<String>,
) -> Result<Done, Failure<'w>>
where
    R::File: Send,
{
    match matches.subcommand() {
        Some(("info", arguments)) => info(rt, arguments, out, err, more),
        Some(("run", arguments)) => run(rt, arguments, out, err, more),
        Some(("script", _)) => script(rt, out, more),
        Some(("serial", arguments)) => serial(rt, arguments, out, err, more),
        _ => Ok(refuse(Wrong::Lacking, err)),
    }
}

/// Prints the help or the version that was asked for, or tells what is wrong with the arguments.
fn explain<'w, O: Write + Drop, E: Sink>(
    alloc: Global,
    error: &clap::Error,
    out: &mut Device<O>,
    err: &mut E,
) -> Result<Done, Failure<'w>> {
    if error.kind() == ErrorKind::OutOfMemory {
        return Err(Failure::Command(Fault::Memory));
    }
    let text = format!(in alloc; "{error}")?;
    if error.use_stderr() {
        let _ = print(err, &text);
        return Ok(Done::wrong_arguments());
    }
    text_of(&text, out)
}

/// The command `info`.
fn info<'w, R: Files + AllocGlobal, O: Write + Drop, E: Sink>(
    rt: &R,
    arguments: &ArgMatches<'w>,
    out: &mut Device<O>,
    err: &mut E,
    more: &mut Option<String>,
) -> Result<Done, Failure<'w>> {
    let Some(path) = arguments.get_str("META") else {
        return Ok(refuse(Wrong::Lacking, err));
    };
    let meta = read(rt, path)?;
    *more = words_of_empty(rt.alloc(), &meta, path);
    if arguments.get_flag("files") {
        files_of(rt.alloc(), &meta, path, out)
    } else {
        info_of(rt.alloc(), &meta, path, out)
    }
}

/// That a metainfo file is empty, if it is: what is wrong with its encoding doesn't say so.
fn words_of_empty(alloc: Global, meta: &[u8], name: &str) -> Option<String> {
    if meta.is_empty() {
        format!(in alloc; "piecepick: {name}: the file is empty\n").ok()
    } else {
        None
    }
}

/// The command `script`; of a line at fault there is more to tell than its number.
fn script<'w, R: Input + AllocGlobal, O: Write + Drop>(
    rt: &R,
    out: &mut Device<O>,
    more: &mut Option<String>,
) -> Result<Done, Failure<'w>> {
    let input = read_input(rt).map_err(|e| Failure::of_file("standard input", e))?;
    let done = script_of(rt.alloc(), &input, out);
    if let Err(Failure::Command(Fault::Line(number))) = done {
        *more = explain_line(rt.alloc(), &input, number);
    }
    done
}

/// All of standard input.
fn read_input<R: Input + AllocGlobal>(rt: &R) -> io::Result<Vec<u8>> {
    all_of(rt.alloc(), BufReader::new(rt.alloc(), rt.reader())?)
}

/// All that a reader has left.
fn all_of<R: Read + Drop>(alloc: Global, mut reader: R) -> io::Result<Vec<u8>>
    ensures { IfSome (R.remaining reader) (λ left. IfOk result (λ input. input.items ≡ left)) }
{
    let mut input = Vec::new(alloc);
    reader.read_to_end(&mut input)?;
    Ok(input)
}

/// All of a file.
fn read<'w, R: Files + AllocGlobal>(rt: &R, path: &'w str) -> Result<Vec<u8>, Failure<'w>> {
    fs::read(rt, path).map_err(|e| Failure::of_file(path, e))
}

/// The command `serial`.
fn serial<'w, R: Files + AllocGlobal, O: Write + Drop, E: Sink>(
    rt: &R,
    arguments: &ArgMatches<'w>,
    out: &mut Device<O>,
    err: &mut E,
    more: &mut Option<String>,
) -> Result<Done, Failure<'w>> {
    if let Some(wrong) = misplaced_in_serial(arguments) {
        return Ok(refuse(wrong, err));
    }
    let Some(asked) = asked(arguments) else {
        return Ok(refuse(Wrong::Lacking, err));
    };
    let streams = arguments.get_strs("STREAM").unwrap_or(&[]);
    match judged(rt, &asked, streams)? {
        Ok(options) => run_in_turns(rt, &asked, streams, &options, out, more),
        Err(wrong) => Ok(refuse(wrong, err)),
    }
}

/// The options that fit, or what is wrong with them, before anything is read or written.
fn judged<'w, R: Files + AllocGlobal>(
    rt: &R,
    asked: &Asked<'w>,
    streams: &[&str],
) -> Result<Result<Options, Wrong>, Failure<'w>>
    ensures depth { IfOk result (λ judged. IfOk judged (λ options.
        (1 ≤ options.rules.depth) × (options.rules.depth ≤ MOST_DEPTH))) }
    ensures checkers { IfOk result (λ judged. IfOk judged (λ options.
        (1 ≤ options.checkers) × (options.checkers ≤ MOST_CHECKERS))) }
    ensures streams { IfOk result (λ judged. IfOk judged (λ _.
        (1 ≤ length streams.now) × (length streams.now ≤ MOST_STREAMS))) }
    ensures seed { IfOk result (λ judged. IfOk judged (λ options. options.seed ≡ asked.now.seed)) }
{
    if let Err(wrong) = asked.fit(streams) {
        return Ok(Err(wrong));
    }
    if let Some(out) = asked.out {
        if is_input(rt, out, asked.meta, streams) {
            return Ok(Err(Wrong::Output));
        }
    }
    asked.options(rt.alloc())
}

/// The file of `--out`, where one is asked for; it isn't made yet.
fn target_of<'f, 'w, R: Files>(
    rt: &'f R,
    out: Option<&'w str>,
) -> Option<Target<'w, OutFile<'f, 'w, R>>>
    ensures { is_some result ≡ is_some out.entry }
{
    match out {
        Some(name) => Some(Target {
            name,
            file: OutFile::new(rt, name),
        }),
        None => None,
    }
}

/// Runs the streams' sessions in one thread.
fn run_in_turns<'w, R: Files + AllocGlobal, O: Write + Drop>(
    rt: &R,
    asked: &Asked<'w>,
    streams: &[&'w str],
    options: &Options,
    out: &mut Device<O>,
    more: &mut Option<String>,
) -> Result<Done, Failure<'w>>
    requires streams { (1 ≤ length streams.now) × (length streams.now ≤ MOST_STREAMS) }
    requires depth { (1 ≤ options.now.rules.depth) × (options.now.rules.depth ≤ MOST_DEPTH) }
{
    let meta = read(rt, asked.meta)?;
    let mut streams = recorded(rt, streams)?;
    let mut target = target_of(rt, asked.out);
    match serial_of(rt.alloc(), &meta, &mut streams, options, out, &mut target) {
        Ok(came) => {
            *more = ends_in_words(rt.alloc(), &streams, &came.ends);
            came.done
        }
        Err(fault) => {
            *more = words_of_empty(rt.alloc(), &meta, asked.meta);
            Err(Failure::of_command(fault, asked.meta))
        }
    }
}

/// The command `run`.
fn run<'w, R: Files + AllocGlobal + Threads + Wait + Sync, O: Write + Drop, E: Sink>(
    rt: &R,
    arguments: &ArgMatches<'w>,
    out: &mut Device<O>,
    err: &mut E,
    more: &mut Option<String>,
) -> Result<Done, Failure<'w>>
where
    R::File: Send,
{
    if let Some(wrong) = misplaced_in_run(arguments) {
        return Ok(refuse(wrong, err));
    }
    let Some(asked) = asked(arguments) else {
        return Ok(refuse(Wrong::Lacking, err));
    };
    let streams = arguments.get_strs("STREAM").unwrap_or(&[]);
    match judged(rt, &asked, streams)? {
        Ok(options) => run_at_once(rt, &asked, streams, &options, out, more),
        Err(wrong) => Ok(refuse(wrong, err)),
    }
}

/// Runs the streams' sessions in threads.
fn run_at_once<'w, R: Files + AllocGlobal + Threads + Wait + Sync, O: Write + Drop>(
    rt: &R,
    asked: &Asked<'w>,
    streams: &[&'w str],
    options: &Options,
    out: &mut Device<O>,
    more: &mut Option<String>,
) -> Result<Done, Failure<'w>>
where
    R::File: Send,
    requires streams { (1 ≤ length streams.now) × (length streams.now ≤ MOST_STREAMS) }
    requires depth { (1 ≤ options.now.rules.depth) × (options.now.rules.depth ≤ MOST_DEPTH) }
    requires checkers { (1 ≤ options.now.checkers) × (options.now.checkers ≤ MOST_CHECKERS) }
{
    let meta = read(rt, asked.meta)?;
    let streams = recorded(rt, streams)?;
    let mut target = target_of(rt, asked.out);
    match threads_of(rt, &meta, streams, options, out, &mut target) {
        Ok(came) => {
            *more = ends_in_words(rt.alloc(), &came.streams, &came.ends);
            came.done
        }
        Err(fault) => {
            *more = words_of_empty(rt.alloc(), &meta, asked.meta);
            Err(Failure::of_command(fault, asked.meta))
        }
    }
}
