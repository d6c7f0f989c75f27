//! The command line and its help. The numbers behind the word `picker` are read in `picker`.

use crate::swarm::Workload;
use crate::threads::Crowd;
use bt_picker::MOST_DEPTH;
use clap::{Arg, ArgAction, ArgMatches, Command, value_parser};
use std::alloc::{AllocError, Global};

/// The most threads, and the most pairs of calls of each.
const MOST_THREADS: i64 = 64;

const MOST_PAIRS: i64 = 1_000_000;

/// What stands at the end of the help.
const OF_PICKER: &str = "\
Behind the word `picker` stands what is asked of the picker that keeps no content, with nothing hashed: six numbers,
the order `levels`, `order` or `stream`, and `times`. The numbers are of pieces, halvings of what a peer shows, peers,
blocks asked of a peer at a time, askers of a block in endgame, and open pieces. Each may be left out, from the end.";

/// What the program is asked for.
#[derive(Clone, Copy)]
pub struct Arguments<'a> {
    pub workload: Workload,
    /// How often it is timed.
    pub runs: u32,
    /// The file that the requests are written to.
    pub trace: Option<&'a str>,
    /// The threads that share a desk, once all else is done.
    pub crowd: Option<Crowd>,
}

/// An option that takes a number.
#[derive(Clone, Copy)]
struct Number {
    name: &'static str,
    /// How the help calls its value.
    value: &'static str,
    help: &'static str,
    least: i64,
    most: i64,
    /// What it is where it isn't given, if that is some number.
    usual: Option<&'static str>,
}

const NUMBERS: &[Number] = &[
    Number {
        name: "asks",
        value: "N",
        help: "Ends the download once so many asks were made",
        least: 0,
        most: i64::MAX,
        usual: None,
    },
    Number {
        name: "density",
        value: "D",
        help: "Each peer but the seed shows a piece with the probability 1/2^D",
        least: 0,
        most: 32,
        usual: Some("1"),
    },
    Number {
        name: "depth",
        value: "D",
        help: "Blocks outstanding at a peer; with 0 each block arrives as soon as it is asked for",
        least: 0,
        most: MOST_DEPTH as i64,
        usual: Some("5"),
    },
    Number {
        name: "runs",
        value: "N",
        help: "Times so many runs and prints the least times; with 0 it plays once and prints none",
        least: 0,
        most: u32::MAX as i64,
        usual: Some("3"),
    },
    Number {
        name: "threads",
        value: "N",
        help: "Has so many threads call one desk in the end, each for a peer of its own",
        least: 1,
        most: MOST_THREADS,
        usual: None,
    },
    Number {
        name: "pairs",
        value: "N",
        help: "Blocks that each of the threads asks for and brings",
        least: 1,
        most: MOST_PAIRS,
        usual: Some("20000"),
    },
];

/// The command with its arguments.
pub fn command<'a>(alloc: Global) -> Result<Command<'a>, AllocError> {
    let mut command = named(alloc);
    for number in NUMBERS {
        command = command.arg(number.option(alloc))?;
    }
    with_others(alloc, command)
}

/// The command before it has any argument.
fn named<'a>(alloc: Global) -> Command<'a> {
    Command::new(alloc, "bench")
        .about("Times the picker: a whole download from 51 peers, block by block")
        .after_help(OF_PICKER)
        .arg_required_else_help(true)
}

/// Adds the arguments that are no options with a number.
fn with_others<'a>(alloc: Global, command: Command<'a>) -> Result<Command<'a>, AllocError> {
    command.arg(trace(alloc))?.arg(pieces(alloc))
}

impl Number {
    /// As `clap` takes it.
    fn option<'a>(&self, alloc: Global) -> Arg<'a> {
        let option = self.without_usual(alloc);
        match self.usual {
            Some(usual) => option.default_value(usual),
            None => option,
        }
    }

    /// The same, where it may lack.
    fn without_usual<'a>(&self, alloc: Global) -> Arg<'a> {
        Arg::new(alloc, self.name)
            .long(self.name)
            .value_name(self.value)
            .help(self.help)
            .value_parser(value_parser!(u64).range(self.least..=self.most))
    }
}

fn trace<'a>(alloc: Global) -> Arg<'a> {
    Arg::new(alloc, "trace")
        .long("trace")
        .value_name("FILE")
        .help(
            "Writes worker, piece and block of each request to this file, in a run that isn't timed",
        )
        .action(ArgAction::Set)
}

fn pieces<'a>(alloc: Global) -> Arg<'a> {
    Arg::new(alloc, "pieces")
        .value_name("PIECES")
        .help("Pieces of the torrent, each of 16 blocks")
        .value_parser(value_parser!(u32).range(1..))
        .required(true)
}

/// What was asked for.
pub fn read<'a>(matches: &ArgMatches<'a>) -> Arguments<'a> {
    Arguments {
        workload: Workload {
            pieces: matches.get_one::<u32>("pieces").unwrap_or(1),
            density: number_of(matches, "density").unwrap_or(1),
            depth: number_of(matches, "depth").unwrap_or(5),
            asks: matches.get_one::<u64>("asks").unwrap_or(u64::MAX),
        },
        runs: number_of(matches, "runs").unwrap_or(3),
        trace: matches.get_str("trace"),
        crowd: crowd(matches),
    }
}

/// The number of an option whose bounds are within 32 bits.
fn number_of(matches: &ArgMatches<'_>, name: &str) -> Option<u32> {
    u32::try_from(matches.get_one::<u64>(name)?).ok()
}

/// The threads that were asked for, whose times are wanted if any are.
fn crowd(matches: &ArgMatches<'_>) -> Option<Crowd> {
    Some(Crowd {
        threads: number_of(matches, "threads")?,
        pairs: number_of(matches, "pairs").unwrap_or(20_000),
        times: number_of(matches, "runs") != Some(0),
    })
}
