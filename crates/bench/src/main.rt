//! A benchmark of the desk: a whole download from a swarm of 51 peers, asked block by block; of the desk that threads share; and of
//! the picker that keeps no content.
#![tactic(auto)]

mod arguments;
mod download;
mod figures;
mod mix;
mod picker;
mod stretches;
mod swarm;
mod threads;

use anyhow::Result;
use arguments::{Arguments, command, read};
use download::{Counts, Download};
use figures::{CountLine, TimeLine, Times, hash_time, peak_memory, play};
use picker::time_picker;
use std::process::ExitCode;
use std::rt::Runtime;
use std::sync::Wait;
use std::thread::Threads;
use std::time::{Clock, CpuClock};
use std::{env, fs};
use stretches::Stretches;
use swarm::Workload;
use threads::time_threads;

/// The status where the arguments are wrong.
const WRONG_ARGUMENTS: u8 = 2;

/// The words from this one on are for the picker alone.
const PICKER: &str = "picker";

fn main(rt: HostRuntime) -> ExitCode {
    match obey(&rt) {
        Ok(status) => status,
        Err(error) => {
            let _ = rt.eprintln(format_args!("bench: {error:#}"));
            ExitCode::FAILURE
        }
    }
}

/// Does what the command line says.
fn obey<R: Runtime + AllocGlobal + CpuClock + Clock + Threads + Wait + Sync>(
    rt: &R,
) -> Result<ExitCode> {
    let words: Vec<String> = env::args(rt)?.collect(rt.alloc())?;
    obey_words(rt, &words)
}

/// Does what these words say, the first of them being the program's name: times the desk, and then the picker.
fn obey_words<R: Runtime + AllocGlobal + CpuClock + Clock + Threads + Wait + Sync>(
    rt: &R,
    words: &[String],
) -> Result<ExitCode> {
    let (desk, picker) = parts(words);
    if desk.len() > 1 || picker.is_none() {
        match command(rt.alloc())?.try_get_matches_from(desk) {
            Ok(matches) => time(rt, &read(&matches))?,
            Err(error) => return refuse(rt, &error),
        }
    }
    if let Some(words) = picker {
        time_picker(rt, words)?;
    }
    Ok(ExitCode::SUCCESS)
}

/// The words before `picker`, and those from it on, where it is one of them.
fn parts(words: &[String]) -> (&[String], Option<&[String]>) {
    match words.iter().position(|word| word.as_str() == PICKER) {
        Some(place) => (&words[..place], Some(&words[place..])),
        None => (words, None),
    }
}

/// Times what is asked for of the desk.
fn time<R: Runtime + AllocGlobal + CpuClock + Clock + Threads + Wait + Sync>(
    rt: &R,
    arguments: &Arguments<'_>,
) -> Result<()> {
    time_download(rt, arguments)?;
    if let Some(crowd) = arguments.crowd {
        time_threads(rt, crowd)?;
    }
    Ok(())
}

/// Prints what is wrong with the command line, or the help that it asks for.
fn refuse<R: Runtime>(rt: &R, error: &clap::Error) -> Result<ExitCode> {
    if error.use_stderr() {
        rt.eprint(error)?;
        return Ok(ExitCode::from(WRONG_ARGUMENTS));
    }
    rt.print(error)?;
    Ok(ExitCode::SUCCESS)
}

/// Plays the workload, once and untimed where no time or a trace is wanted, and then as often as it is to be timed.
fn time_download<R: Runtime + AllocGlobal + CpuClock>(
    rt: &R,
    arguments: &Arguments<'_>,
) -> Result<()> {
    if arguments.runs == 0 || arguments.trace.is_some() {
        play_untimed(rt, arguments)?;
    }
    if let Some(least) = time_runs(rt, arguments.workload, arguments.runs)? {
        tell_times(rt, arguments.workload, least)?;
    }
    Ok(())
}

/// Prints the counts and the times.
fn tell_times<R: Runtime + AllocGlobal>(rt: &R, workload: Workload, least: TimeLine) -> Result<()> {
    let counts = least.counts;
    let line = CountLine { workload, counts };
    let times = TimeLine {
        peak: peak_memory(rt),
        ..least
    };
    println!(rt; "{line} {times}")?;
    Ok(())
}

/// Plays the workload once. Writes the trace where one is wanted, and prints the counts where no time is.
fn play_untimed<R: Runtime + AllocGlobal + CpuClock>(
    rt: &R,
    arguments: &Arguments<'_>,
) -> Result<()> {
    let trace = arguments.trace.map(|_| String::new(rt.alloc()));
    let mut download = Download::new(rt.alloc(), arguments.workload, trace)?;
    play_and_tell(rt, arguments, &mut download)
}

/// Plays the download, and then writes its requests and prints its counts, as far as they are wanted.
fn play_and_tell<R: Runtime + AllocGlobal + CpuClock>(
    rt: &R,
    arguments: &Arguments<'_>,
    download: &mut Download,
) -> Result<()> {
    let mut stretches = Stretches::new(rt.alloc());
    play(rt, rt.alloc(), arguments.workload, download, &mut stretches)?;
    tell(rt, arguments, download)
}

/// Writes the requests and prints the counts, as far as they are wanted.
fn tell<R: Runtime>(rt: &R, arguments: &Arguments<'_>, download: &Download) -> Result<()> {
    if let (Some(path), Some(trace)) = (arguments.trace, download.trace()) {
        fs::write(rt, path, trace)?;
    }
    if arguments.runs == 0 {
        rt.println(CountLine {
            workload: arguments.workload,
            counts: download.counts(),
        })?;
    }
    Ok(())
}

/// The counts of the first of so many runs and the least times of all, less the memory that they took.
fn time_runs<R: Runtime + AllocGlobal + CpuClock>(
    rt: &R,
    workload: Workload,
    runs: u32,
) -> Result<Option<TimeLine>> {
    let mut least = None;
    let mut stretches = Stretches::new(rt.alloc());
    for _ in 0..runs {
        let run = time_run(rt, workload, &mut stretches)?;
        least = match least {
            Some(least) => Some(run.least(least)),
            None => Some(run),
        };
    }
    Ok(least)
}

/// A run, and the quickest hash of a block after it.
fn time_run<R: Runtime + AllocGlobal + CpuClock>(
    rt: &R,
    workload: Workload,
    stretches: &mut Stretches,
) -> Result<TimeLine> {
    let (counts, times) = play_timed(rt, workload, stretches)?;
    Ok(TimeLine {
        counts,
        times,
        hash: hash_time(rt)?,
        peak: None,
    })
}

/// A run's counts and times.
fn play_timed<R: Runtime + AllocGlobal + CpuClock>(
    rt: &R,
    workload: Workload,
    stretches: &mut Stretches,
) -> Result<(Counts, Times)> {
    let mut download = Download::new(rt.alloc(), workload, None)?;
    counts_and_times(rt, workload, &mut download, stretches)
}

/// Plays the download.
fn counts_and_times<R: Runtime + AllocGlobal + CpuClock>(
    rt: &R,
    workload: Workload,
    download: &mut Download,
    stretches: &mut Stretches,
) -> Result<(Counts, Times)> {
    let times = play(rt, rt.alloc(), workload, download, stretches)?;
    Ok((download.counts(), times))
}
