//! The command line.

use crate::help;
use bt_peer::MOST_STREAMS;
use bt_session::MOST_CHECKERS;
use bt_text::MOST_DEPTH;
use clap::{Arg, ArgAction, Command, value_parser};
use std::alloc::{AllocError, Global};

/// The program's version, and the toolchain that it is proved by, as `rt version` says it; `tools/runs.py` compares the two.
const VERSION: &str = "0.1.0, proved by rattle-kit-13f logic dac8208d650f15bf";

const STATUSES: &str = "\
Status: 0 done; 1 a run after which a wanted piece is lacking; 2 wrong arguments, a script's `line N`, or a run's
`want fault N` or `random fault`; 3 `metainfo fault N`; 4 `file fault`; 5 `memory` or `no thread`; 6 `gather fault N`.
Each command's help has its own table.";

/// What stands behind an argument's name.
#[derive(Clone, Copy)]
enum Kind {
    Flag,
    /// A text of this name.
    Text(&'static str),
    /// A number of 64 bits of this name, and 0 where it isn't given.
    Word(&'static str),
    /// A number within bounds.
    Number(Number),
    /// A file that has to be named, with no option before it.
    File,
    /// Files up to so many, of which one has to be named.
    Files(usize),
}

/// What a number has to be.
#[derive(Clone, Copy)]
struct Number {
    name: &'static str,
    least: u32,
    most: u32,
    /// What it is where it isn't given.
    usual: &'static str,
}

/// An argument of a command.
#[derive(Clone, Copy)]
struct Argument {
    name: &'static str,
    help: &'static str,
    kind: Kind,
    /// Found, so that who gives it is told where it belongs, but not in the help.
    hidden: bool,
}

const META: Argument = Argument {
    name: "META",
    help: "A metainfo file (.torrent)",
    kind: Kind::File,
    hidden: false,
};

const STREAM: Argument = Argument {
    name: "STREAM",
    help: "What a peer sent, from its handshake on; 1 to 64 of them",
    kind: Kind::Files(MOST_STREAMS),
    hidden: false,
};

const OUT: Argument = Argument {
    name: "out",
    help: "Writes the content to this file, if all pieces are complete",
    kind: Kind::Text("FILE"),
    hidden: false,
};

const SEED: Argument = Argument {
    name: "seed",
    help: "Settles what the picker leaves to chance",
    kind: Kind::Word("N"),
    hidden: false,
};

const WANT: Argument = Argument {
    name: "want",
    help: "Downloads the pieces of this bitfield alone",
    kind: Kind::Text("HEX"),
    hidden: false,
};

const DEPTH: Argument = Argument {
    name: "depth",
    help: "Requests so many blocks from a peer at a time, 1 to 64",
    kind: Kind::Number(Number {
        name: "N",
        least: 1,
        most: MOST_DEPTH,
        usual: "5",
    }),
    hidden: false,
};

const RANDOM: Argument = Argument {
    name: "random",
    help: "Picks pieces at random until so many are complete, and then the rarest",
    kind: Kind::Number(Number {
        name: "N",
        least: 0,
        most: u32::MAX,
        usual: "1",
    }),
    hidden: false,
};

const CHECKERS: Argument = Argument {
    name: "checkers",
    help: "Checks pieces in so many threads, 1 to 8",
    kind: Kind::Number(Number {
        name: "K",
        least: 1,
        most: MOST_CHECKERS,
        usual: "1",
    }),
    hidden: false,
};

/// The same, where it has no place: any value, and none where it isn't given.
const CHECKERS_OF_RUN: Argument = Argument {
    kind: Kind::Text("K"),
    hidden: true,
    ..CHECKERS
};

const JOURNAL: Argument = Argument {
    name: "journal",
    help: "Prints all calls with their replies before the report",
    kind: Kind::Flag,
    hidden: false,
};

const FILES: Argument = Argument {
    name: "files",
    help: "Prints its files in place of that, a line each",
    kind: Kind::Flag,
    hidden: false,
};

const OF_INFO: &[Argument] = &[FILES, META];

const OF_SERIAL: &[Argument] = &[
    SEED,
    WANT,
    DEPTH,
    RANDOM,
    JOURNAL,
    CHECKERS_OF_RUN,
    OUT,
    META,
    STREAM,
];

const OF_RUN: &[Argument] = &[
    SEED,
    DEPTH,
    RANDOM,
    CHECKERS,
    Argument {
        hidden: true,
        ..WANT
    },
    Argument {
        hidden: true,
        ..JOURNAL
    },
    OUT,
    META,
    STREAM,
];

/// The program's commands and their arguments.
pub fn command<'a>(alloc: Global) -> Result<Command<'a>, AllocError> {
    let program = with(with(named(alloc), Ok(script(alloc)))?, info(alloc))?;
    with(with(program, serial(alloc))?, run(alloc))
}

/// The program, with no command yet.
fn named<'a>(alloc: Global) -> Command<'a> {
    Command::new(alloc, "piecepick")
        .version(VERSION)
        .about("Decides which block of a torrent to request next from which peer")
        .after_help(STATUSES)
        .subcommand_required(true)
        .arg_required_else_help(true)
}

/// The program with one command more, if there was memory for that.
fn with<'a>(
    program: Command<'a>,
    command: Result<Command<'a>, AllocError>,
) -> Result<Command<'a>, AllocError> {
    program.subcommand(command?)
}

/// The command `script`.
fn script<'a>(alloc: Global) -> Command<'a> {
    Command::new(alloc, "script")
        .about(
            "Plays a script of calls from standard input on a desk of its own, and prints the replies",
        )
        .after_help(help::SCRIPT)
}

/// The command `info`.
fn info<'a>(alloc: Global) -> Result<Command<'a>, AllocError> {
    let command = Command::new(alloc, "info")
        .about("Prints what a metainfo file says of its content")
        .after_help(help::INFO);
    with_arguments(alloc, command, OF_INFO)
}

/// The command `serial`.
fn serial<'a>(alloc: Global) -> Result<Command<'a>, AllocError> {
    let command = Command::new(alloc, "serial")
        .about("Plays recorded streams of peers at one desk, and reports which pieces are lacking")
        .after_help(help::SERIAL);
    with_arguments(alloc, command, OF_SERIAL)
}

/// The command `run`.
fn run<'a>(alloc: Global) -> Result<Command<'a>, AllocError> {
    let command = Command::new(alloc, "run")
        .about(
            "Plays recorded streams of peers at one desk, each in a thread of its own, and reports as `serial` does",
        )
        .after_help(help::RUN);
    with_arguments(alloc, command, OF_RUN)
}

/// The command with these arguments more.
fn with_arguments<'a>(
    alloc: Global,
    mut command: Command<'a>,
    arguments: &[Argument],
) -> Result<Command<'a>, AllocError> {
    for argument in arguments {
        command = command.arg(argument.arg(alloc))?;
    }
    Ok(command)
}

impl Argument {
    /// As `clap` takes it.
    fn arg<'a>(&self, alloc: Global) -> Arg<'a> {
        match self.kind {
            Kind::Flag => self.option(alloc).action(ArgAction::SetTrue),
            Kind::Text(name) => self.option(alloc).value_name(name).action(ArgAction::Set),
            Kind::Word(name) => self
                .option(alloc)
                .value_name(name)
                .value_parser(value_parser!(u64))
                .default_value("0"),
            Kind::Number(number) => number.of(self.option(alloc)),
            Kind::File => self.bare(alloc).required(true).action(ArgAction::Set),
            Kind::Files(most) => self
                .bare(alloc)
                .required(true)
                .num_args(1..=most)
                .action(ArgAction::Append),
        }
    }

    /// The argument, of which nothing is known but its name and help.
    fn bare<'a>(&self, alloc: Global) -> Arg<'a> {
        Arg::new(alloc, self.name).help(self.help).hide(self.hidden)
    }

    /// The same as an option.
    fn option<'a>(&self, alloc: Global) -> Arg<'a> {
        self.bare(alloc).long(self.name)
    }
}

impl Number {
    /// The option that takes such a number.
    fn of<'a>(&self, option: Arg<'a>) -> Arg<'a> {
        let bounds = i64::from(self.least)..=i64::from(self.most);
        option
            .value_name(self.name)
            .value_parser(value_parser!(u32).range(bounds))
            .default_value(self.usual)
    }
}
