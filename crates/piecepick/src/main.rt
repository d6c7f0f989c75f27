//! The program `piecepick`: hands its command line and its standard streams to `bt_cli`.
#![tactic(auto)]

use bt_cli::{Failure, ToWrite, WRONG_ARGUMENTS, conclude, obey};
use std::env::Env;
use std::process::ExitCode;
use std::{env, io};

fn main(rt: HostRuntime) -> ExitCode {
    let mut err = rt.stderr();
    let words = match words(&rt) {
        Ok(Some(words)) => words,
        Ok(None) => {
            let _ = rt.eprintln("error: an argument isn't UTF-8");
            return ExitCode::from(WRONG_ARGUMENTS);
        }
        Err(error) => {
            let failure = Failure::of_file("arguments", error);
            let mut err = ToWrite::new(err);
            return ExitCode::from(conclude(rt.alloc(), Err(failure), &mut err));
        }
    };
    ExitCode::from(obey(&rt, &words, io::writer(&rt), &mut err))
}

/// The words of the command line; none where one isn't UTF-8.
fn words<R: Env + AllocGlobal>(rt: &R) -> io::Result<Option<Vec<String>>> {
    match env::args(rt) {
        Ok(words) => Ok(Some(words.collect(rt.alloc())?)),
        Err(error) if error.kind() == io::ErrorKind::InvalidData => Ok(None),
        Err(error) => Err(error),
    }
}
