//! The command `script`.

ghost use Rattle.std.specs.Prelude.{◌≡◌, ◌<◌, ◌≤◌, ◌+◌, ◌^◌, [], length, map, true, IfOk, IfErr, OnOk, Err, None, Some};
ghost use Rattle.std.specs.String.{string_bytes};
ghost use Rattle.bt_text.specs.declared.fault.Fault.TheVariants.{File};
ghost use Rattle.bt_text.specs.Setups.{setup_in};
ghost use Rattle.bt_text.specs.PlayedLines.{AnswersLine, TakesFront};
ghost use Rattle.bt_text.specs.Scripts.{Blames, Explains, IsPrintedBy, IsScript, MaySetRules, Prints, IsFirstLine, Passes, Starts};
ghost use Rattle.bt_text.specs.Scripts.{IsPlayFault, StopsOpening, line_at, lines_of};

mod fault;
mod fields;
mod line;
mod player;
mod rules;
mod setup;

use crate::fault::Fault;
use crate::printing::print;
use crate::text::ReplyText;
use bt_meta::{DeviceFault, Sink};
pub use bt_picker::MOST_DEPTH;
use bt_picker::{MOST_WORKERS, Rules};
pub use fault::LineFault;
pub use fields::{hex_digest, is, read_hex, words_of};
pub use line::{Command, Line};
pub use player::Player;
use rules::read_rules;
pub use setup::Setup;
use std::alloc::{AllocError, Global};
use std::io::Write;

/// Plays a script on a desk of its own, and then prints the replies, a line each, those to the lines before a fault too.
///
/// Refuses bytes that are no script, with the number of the first line at fault; else it fails where `out` does, and for want of memory.
pub fn play_script<W: Write>(alloc: Global, input: &[u8], out: &mut W) -> Result<(), Fault>
    ensures done { OnOk result (IsScript input.now) }
    ensures fault { IfErr result (Explains input.now) }
    ensures prints { Prints input.now result (W.contents out.old) (W.contents out.new) }
{
    let mut text = String::new(alloc);
    let played = play(alloc, input, &mut text);
    out.write_all(text.as_bytes())?;
    out.flush()?;
    played
}

/// The same with a sink, which is not flushed.
pub fn print_replies<O: Sink>(alloc: Global, input: &[u8], out: &mut O) -> Result<(), Fault>
    ensures done { OnOk result (IsScript input.now) }
    ensures fault { IfErr result (Explains input.now) }
    ensures file { result ≡ Err File → O.failed out.new ≡ true }
    ensures prints { Prints input.now result (O.written out.old) (O.written out.new) }
{
    let mut replies = String::new(alloc);
    let done = play(alloc, input, &mut replies);
    match print(out, &replies) {
        Ok(()) => done,
        Err(DeviceFault) => Err(Fault::File),
    }
}

/// Plays a script on a desk of its own, and gathers the replies, a line each.
fn play(alloc: Global, input: &[u8], text: &mut String) -> Result<(), Fault>
    requires { string_bytes text.old ≡ [] }
    ensures done { OnOk result (IsScript input.now) }
    ensures fault { IfErr result (Explains input.now) }
    ensures unprinted { IfErr result IsPlayFault }
    ensures replies { IsPrintedBy input.now result (string_bytes text.new) }
{
    let lines = lines(alloc, input)?;
    let Opened { mut player, next } = start(alloc, &lines)?;
    for index in next..lines.len() {
        let reply = answer(alloc, &mut player, line_at(&lines, index), index)?;
        text.push_str(&reply)?;
    }
    Ok(())
}

/// The parts between line feeds, and what is behind the last one.
pub fn lines(alloc: Global, input: &[u8]) -> Result<Vec<&[u8]>, AllocError>
    ensures { IfOk result (λ v. map (λ x. x.now) v.items ≡ lines_of input.now) }
{
    input.split(|byte| *byte == b'\n').collect(alloc)
}

/// The line that isn't empty, the first one from `from` on.
pub fn first_line(lines: &[&[u8]], from: usize) -> Option<usize>
    ensures { IsFirstLine (map (λ x. x.now) lines.now) from result }
{
    for index in from..lines.len() {
        if !line_at(lines, index).is_empty() {
            return Some(index);
        }
    }
    None
}

/// The line of this index, or an empty one.
pub fn line_at<'a>(lines: &[&'a [u8]], index: usize) -> &'a [u8]
    requires { index < length lines.now }
    ensures { result.now ≡ line_at (map (λ x. x.now) lines.now) index }
{
    lines[index]
}

/// A desk that a script opened, and the place of its next line.
#[derive(Drop)]
struct Opened {
    player: Player,
    next: usize,
}

/// The desk that the first lines open.
fn start(alloc: Global, lines: &[&[u8]]) -> Result<Opened, Fault>
    ensures starts { IfOk result (λ s.
        Starts (map (λ x. x.now) lines.now) s.next s.player.workers s.player.pieces) }
    ensures takes { IfOk result (λ s. TakesFront (map (λ x. x.now) lines.now) s.next s.player.desk) }
    ensures err { IfErr result (StopsOpening (map (λ x. x.now) lines.now)) }
{
    let Some(first) = first_line(lines, 0) else {
        return Err(Fault::Line(1));
    };
    let setup = open(alloc, line_at(lines, first), first)?;
    let pieces = setup.torrent.piece_count();
    let RulesPart { rules, next } = rules_behind(alloc, lines, first + 1, pieces)?;
    let player = Player::new(alloc, setup, rules)?;
    Ok(Opened { player, next })
}

/// What line `index` opens, counted from 0.
fn open(alloc: Global, text: &[u8], index: usize) -> Result<Setup, Fault>
    requires { index + 1 < 2 ^ 64 }
    ensures ok { IfOk result (λ setup. setup_in text.now ≡ Some setup) }
    ensures workers { IfOk result (λ setup. (1 ≤ setup.workers) × (setup.workers ≤ MOST_WORKERS)) }
    ensures err { IfErr result (λ fault. Blames fault (index + 1) (setup_in text.now ≡ None)) }
{
    match Setup::parse(alloc, text) {
        Ok(setup) => Ok(setup),
        Err(fault) => Err(fault.at(index)),
    }
}

/// The rules of a script, and the place of the line behind the one that sets them.
struct RulesPart {
    rules: Rules,
    next: usize,
}

/// The rules that the first line from `from` on sets, empty ones aside; where it sets none, the usual ones.
fn rules_behind(
    alloc: Global,
    lines: &[&[u8]],
    from: usize,
    pieces: u32,
) -> Result<RulesPart, AllocError>
    requires { 1 ≤ pieces }
    ensures ok { IfOk result (λ part.
        MaySetRules (map (λ x. x.now) lines.now) pieces from part.rules part.next) }
    ensures shallow { IfOk result (λ part. 1 ≤ part.rules.depth) }
    ensures deep { IfOk result (λ part. part.rules.depth ≤ MOST_DEPTH) }
    ensures random { IfOk result (λ part. part.rules.random ≤ pieces) }
{
    if let Some(line) = first_line(lines, from) {
        match read_rules(alloc, line_at(lines, line), pieces) {
            Ok(rules) => {
                return Ok(RulesPart {
                    rules,
                    next: line + 1,
                });
            }
            Err(LineFault::NoMemory) => return Err(AllocError),
            Err(LineFault::NotAllowed) => {}
        }
    }
    Ok(RulesPart {
        rules: Rules::usual(),
        next: from,
    })
}

/// Makes the call that line `index` says, and tells the reply, a line; an empty line says nothing.
fn answer(alloc: Global, player: &mut Player, text: &[u8], index: usize) -> Result<String, Fault>
    requires { index + 1 < 2 ^ 64 }
    ensures ok { OnOk result (Passes player.old.workers player.old.pieces text.now) }
    ensures err { IfErr result (λ fault.
        Blames fault (index + 1) (¬ (Passes player.old.workers player.old.pieces text.now))) }
    ensures answers { IfOk result (λ reply. AnswersLine player.old.desk player.new.desk text.now (string_bytes reply)) }
    ensures workers { player.new.workers ≡ player.old.workers }
    ensures pieces { player.new.pieces ≡ player.old.pieces }
{
    if text.is_empty() {
        return Ok(String::new(alloc));
    }
    match player.play(alloc, text) {
        Ok(reply) => {
            let said = ReplyText::new(reply);
            Ok(format!(in alloc; "{said}\n")?)
        }
        Err(fault) => Err(fault.at(index)),
    }
}
