//! Whole command lines of the program, one after the other, with the files that they read and make.
#![tactic(auto)]

mod closed;
mod counts;
mod decoding;

use anyhow::{Context, Result};
use bt_cli::obey;
use closed::Closed;
use decoding::decode;
use sha1::Sha1;
use std::alloc::{AllocError, Global};
use std::fs::Files;
use std::io::{Input, Print, Write};
use std::sync::Wait;
use std::thread::Threads;
use std::{fs, io, str};

/// The command lines, one a line. Some aren't the program's: `show FILE` prints what a file holds, `digest FILE` its length and SHA-1,
/// `decode META STREAM LEN,LEN..` the messages of a stream by type, and `quietly ..` runs a command and prints its status alone. `digested ..`
/// prints the length and the SHA-1 of what a command prints in its place; `full ..` and `closed ..` run it with an output that is full, or that
/// nobody reads.
const COMMANDS: &str = "commands";

fn main(rt: HostRuntime) -> Result<()> {
    let commands = fs::read(&rt, COMMANDS)?;
    for line in str::from_utf8(&commands)?.lines() {
        println!(rt; "$ {line}")?;
        let words = words(rt.alloc(), line)?;
        follow(&rt, &words)?;
    }
    Ok(())
}

fn words(alloc: Global, line: &str) -> Result<Vec<String>, AllocError> {
    let mut words = Vec::new(alloc);
    for word in line.split(' ') {
        words.push(String::from_str(alloc, word)?)?;
    }
    Ok(words)
}

/// Does what a line says.
fn follow<R: Files + Input + Print + AllocGlobal + Threads + Wait + Sync>(
    rt: &R,
    words: &[String],
) -> Result<()>
where
    R::File: Send,
{
    let (first, rest) = words.split_first().context("a word")?;
    match first.as_str() {
        "show" => show(rt, rest),
        "digest" => digest(rt, rest),
        "decode" => decode(rt, rest),
        "quietly" => run_quietly(rt, rest),
        "digested" => run_digested(rt, rest),
        "full" => run_to(rt, rest, fs::create(rt, "/dev/full")?),
        "closed" => run_to(rt, rest, Closed),
        _ => run_to(rt, words, io::writer(rt)),
    }
}

/// Prints what a file holds, which is text, or that there is none.
fn show<R: Files + Print + AllocGlobal>(rt: &R, names: &[String]) -> Result<()> {
    let Some(bytes) = held(rt, names)? else {
        return say_none(rt);
    };
    let text = str::from_utf8(&bytes)?;
    println!(rt; "{text}")?;
    Ok(())
}

/// Prints how many bytes a file holds and their SHA-1, or that there is none.
fn digest<R: Files + Print + AllocGlobal>(rt: &R, names: &[String]) -> Result<()> {
    let Some(bytes) = held(rt, names)? else {
        return say_none(rt);
    };
    say_digest(rt, &bytes)
}

fn say_digest<R: Print + AllocGlobal>(rt: &R, bytes: &[u8]) -> Result<()> {
    let len = bytes.len();
    let digest = hex::encode(rt.alloc(), Sha1::digest(bytes).as_slice())?;
    println!(rt; "content bytes {len} sha1 {digest}")?;
    Ok(())
}

/// What the file of this name holds, if there is one.
fn held<R: Files + AllocGlobal>(rt: &R, names: &[String]) -> Result<Option<Vec<u8>>> {
    let name = names.first().context("a file's name")?;
    match fs::read(rt, name.as_str()) {
        Ok(bytes) => Ok(Some(bytes)),
        Err(error) if error.kind() == io::ErrorKind::NotFound => Ok(None),
        Err(error) => Err(error.into()),
    }
}

fn say_none<R: Print>(rt: &R) -> Result<()> {
    println!(rt; "(no such file)")?;
    Ok(())
}

/// Runs a command with this output, and prints what it tells on standard error, and its status.
fn run_to<R: Files + Input + Print + AllocGlobal + Threads + Wait + Sync, O: Write + Drop>(
    rt: &R,
    words: &[String],
    out: O,
) -> Result<()>
where
    R::File: Send,
{
    let mut told = Vec::new(rt.alloc());
    let status = obey(rt, words, out, &mut told);
    for line in str::from_utf8(&told)?.lines() {
        println!(rt; "(error) {line}")?;
    }
    println!(rt; "(status) {status}")?;
    Ok(())
}

/// The same, and prints how many bytes the command printed, and their SHA-1.
fn run_digested<R: Files + Input + Print + AllocGlobal + Threads + Wait + Sync>(
    rt: &R,
    words: &[String],
) -> Result<()>
where
    R::File: Send,
{
    let mut printed = Vec::new(rt.alloc());
    run_to(rt, words, &mut printed)?;
    say_digest(rt, &printed)
}

fn run_quietly<R: Files + Input + Print + AllocGlobal + Threads + Wait + Sync>(
    rt: &R,
    words: &[String],
) -> Result<()>
where
    R::File: Send,
{
    let status = obey(rt, words, io::sink(), &mut io::sink());
    println!(rt; "(status) {status}")?;
    Ok(())
}
