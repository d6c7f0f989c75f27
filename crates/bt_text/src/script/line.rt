//! A line of a script behind the first.

ghost use Rattle.std.specs.Prelude.{map};
ghost use Rattle.bt_text.specs.Fields.{Reads};
ghost use Rattle.bt_text.specs.Lines.{line_in, seen_line, seen_command, bare_command, short_command, pair_command, block_command, command_in};

use super::LineFault;
use super::fields::{byte, digits, fields, hex_bytes, is, number, small_number, yes_or_no};
use bt_picker::Call;
use bytes::Bytes;
use std::alloc::Global;

/// What a worker does, as a script says it.
#[derive(Drop)]
pub enum Command {
    /// A call that the line says whole.
    Make(Call),
    /// The payload of a `bitfield` message, whose length the torrent has to fit.
    Bits(Vec<u8>),
    /// The pieces that are to be downloaded, spelled so.
    Want(Vec<u8>),
    /// The pieces that the peer has too, spelled so.
    Haves(Vec<u8>),
    /// The check of a piece, here and now.
    Settle(u32),
}

#[derive(Drop)]
pub struct Line {
    pub worker: u32,
    pub command: Command,
}

impl Line {
    /// The line that this text is.
    pub fn parse(alloc: Global, text: &[u8]) -> Result<Line, LineFault>
        ensures { Reads seen_line result (line_in text.now) }
    {
        let fields = fields(alloc, text)?;
        let [worker, word, arguments @ ..] = fields.as_slice() else {
            return Err(LineFault::NotAllowed);
        };
        Ok(Line {
            worker: small_number(worker)?,
            command: read_command(alloc, word, arguments)?,
        })
    }
}

/// What a word with these arguments says.
fn read_command(alloc: Global, word: &[u8], arguments: &[&[u8]]) -> Result<Command, LineFault>
    ensures { Reads seen_command result (command_in word.now (map (λ x. x.now) arguments.now)) }
{
    match arguments {
        [] => bare_command(word),
        [argument] => short_command(alloc, word, argument),
        [piece, second] => pair_command(word, piece, second),
        [piece, begin, hex] => block_command(alloc, word, piece, begin, hex),
        _ => Err(LineFault::NotAllowed),
    }
}

/// What a word alone says.
fn bare_command(word: &[u8]) -> Result<Command, LineFault>
    ensures { Reads seen_command result (bare_command word.now) }
{
    if is(word, "join") {
        Ok(Command::Make(Call::Join))
    } else if is(word, "choke") {
        Ok(Command::Make(Call::Choke))
    } else if is(word, "unchoke") {
        Ok(Command::Make(Call::Unchoke))
    } else if is(word, "leave") {
        Ok(Command::Make(Call::Leave))
    } else {
        Err(LineFault::NotAllowed)
    }
}

/// What a word with one argument says.
fn short_command(alloc: Global, word: &[u8], argument: &[u8]) -> Result<Command, LineFault>
    ensures { Reads seen_command result (short_command word.now argument.now) }
{
    if is(word, "bits") {
        hex_bytes(alloc, argument).map(Command::Bits)
    } else if is(word, "have") {
        Ok(Command::Make(Call::Have(small_number(argument)?)))
    } else if is(word, "next") {
        Ok(Command::Make(Call::Next(number(argument)?)))
    } else if is(word, "settle") {
        small_number(argument).map(Command::Settle)
    } else if is(word, "want") {
        hex_bytes(alloc, argument).map(Command::Want)
    } else if is(word, "haves") {
        hex_bytes(alloc, argument).map(Command::Haves)
    } else if is(word, "depth") {
        Ok(Command::Make(Call::Depth(small_number(argument)?)))
    } else if is(word, "levels") {
        let levels = Bytes::from_vec(digits(alloc, argument)?)?;
        Ok(Command::Make(Call::Levels(levels)))
    } else if is(word, "inorder") {
        Ok(Command::Make(Call::InOrder(yes_or_no(argument)?)))
    } else if is(word, "reach") {
        Ok(Command::Make(Call::Reach(byte(argument)?)))
    } else if is(word, "inorderfrom") {
        Ok(Command::Make(Call::InOrderFrom(byte(argument)?)))
    } else if is(word, "lack") {
        Ok(Command::Make(Call::Lack(small_number(argument)?)))
    } else if is(word, "alone") {
        Ok(Command::Make(Call::Alone(yes_or_no(argument)?)))
    } else {
        Err(LineFault::NotAllowed)
    }
}

/// What a word with two arguments says.
fn pair_command(word: &[u8], piece: &[u8], second: &[u8]) -> Result<Command, LineFault>
    ensures { Reads seen_command result (pair_command word.now piece.now second.now) }
{
    if is(word, "release") {
        Ok(Command::Make(Call::Release {
            piece: small_number(piece)?,
            begin: small_number(second)?,
        }))
    } else if is(word, "late") {
        Ok(Command::Make(Call::Late {
            piece: small_number(piece)?,
            begin: small_number(second)?,
        }))
    } else if is(word, "level") {
        Ok(Command::Make(Call::Level {
            piece: small_number(piece)?,
            level: byte(second)?,
        }))
    } else {
        Err(LineFault::NotAllowed)
    }
}

/// What `block` says, the only word with three arguments.
fn block_command(
    alloc: Global,
    word: &[u8],
    piece: &[u8],
    begin: &[u8],
    hex: &[u8],
) -> Result<Command, LineFault>
    ensures { Reads seen_command result (block_command word.now piece.now begin.now hex.now) }
{
    if !is(word, "block") {
        return Err(LineFault::NotAllowed);
    }
    Ok(Command::Make(Call::Arrived {
        piece: small_number(piece)?,
        begin: small_number(begin)?,
        bytes: Bytes::from_vec(hex_bytes(alloc, hex)?)?,
    }))
}
