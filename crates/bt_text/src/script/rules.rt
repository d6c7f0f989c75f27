//! The line of a script that sets the picker's rules.

ghost use Rattle.std.specs.Prelude.{◌≡◌, ◌≤◌, map, IfOk, Some};
ghost use Rattle.bt_text.specs.Fields.{Reads};
ghost use Rattle.bt_text.specs.RulesLines.{at_most, depth_in, opened, random_in, rules_in, rules_of_fields, rules_told, rushing, waiting};

use super::LineFault;
use super::fields::{fields, is, small_number, yes_or_no};
use bt_picker::{MOST_DEPTH, MOST_OPEN, MOST_TOLD_DEPTH, MOST_WORKERS, Rules};
use std::alloc::Global;

/// The rules that this text says for a torrent of so many pieces: `rules`, the depth, and the number of pieces at random. Behind them may
/// stand the number of open pieces, then that of blocks below which endgame asks a peer, then `yes` where endgame waits for shown pieces alone.
/// The bound on the peers of one block and the greatest depth that may be told are the usual ones.
pub fn read_rules(alloc: Global, text: &[u8], pieces: u32) -> Result<Rules, LineFault>
    ensures reads { Reads (λ rules. rules) result (rules_in pieces text.now) }
    ensures shallow { IfOk result (λ rules. 1 ≤ rules.depth) }
    ensures deep { IfOk result (λ rules. rules.depth ≤ MOST_DEPTH) }
    ensures random { IfOk result (λ rules. rules.random ≤ pieces) }
{
    let fields = fields(alloc, text)?;
    rules_of(&fields, pieces)
}

/// The rules that these fields say.
fn rules_of(fields: &[&[u8]], pieces: u32) -> Result<Rules, LineFault>
    ensures reads { Reads (λ rules. rules) result (rules_of_fields pieces (map (λ x. x.now) fields.now)) }
    ensures shallow { IfOk result (λ rules. 1 ≤ rules.depth) }
    ensures deep { IfOk result (λ rules. rules.depth ≤ MOST_DEPTH) }
    ensures random { IfOk result (λ rules. rules.random ≤ pieces) }
{
    match fields {
        [word, depth, random] => rules_told(word, depth, random, pieces),
        [word, depth, random, open] => opened(rules_told(word, depth, random, pieces)?, open),
        [word, depth, random, open, rush] => rushing(
            opened(rules_told(word, depth, random, pieces)?, open)?,
            rush,
        ),
        [word, depth, random, open, rush, shown] => waiting(
            rushing(
                opened(rules_told(word, depth, random, pieces)?, open)?,
                rush,
            )?,
            shown,
        ),
        _ => Err(LineFault::NotAllowed),
    }
}

/// The rules that the word and the first two numbers say.
fn rules_told(word: &[u8], depth: &[u8], random: &[u8], pieces: u32) -> Result<Rules, LineFault>
    ensures reads { Reads (λ rules. rules) result (rules_told pieces word.now depth.now random.now) }
    ensures shallow { IfOk result (λ rules. 1 ≤ rules.depth) }
    ensures deep { IfOk result (λ rules. rules.depth ≤ MOST_DEPTH) }
    ensures random { IfOk result (λ rules. rules.random ≤ pieces) }
{
    if !is(word, "rules") {
        return Err(LineFault::NotAllowed);
    }
    Ok(Rules {
        depth: depth_of(depth)?,
        random: random_of(random, pieces)?,
        askers: MOST_WORKERS,
        deepest: MOST_DEPTH,
        open: 0,
        rush: MOST_TOLD_DEPTH,
        shown: false,
    })
}

/// The rules with as many open pieces as the text says.
fn opened(mut rules: Rules, text: &[u8]) -> Result<Rules, LineFault>
    ensures reads { Reads (λ told. told) result (opened (Some rules) text.now) }
    ensures depth { IfOk result (λ told. told.depth ≡ rules.depth) }
    ensures random { IfOk result (λ told. told.random ≡ rules.random) }
{
    rules.open = within(small_number(text)?, MOST_OPEN)?;
    Ok(rules)
}

/// The rules by which endgame asks a block again only of a peer that is asked for fewer blocks than the text says.
fn rushing(mut rules: Rules, text: &[u8]) -> Result<Rules, LineFault>
    ensures reads { Reads (λ told. told) result (rushing (Some rules) text.now) }
    ensures depth { IfOk result (λ told. told.depth ≡ rules.depth) }
    ensures random { IfOk result (λ told. told.random ≡ rules.random) }
{
    rules.rush = within(small_number(text)?, MOST_TOLD_DEPTH)?;
    Ok(rules)
}

/// The rules by which endgame waits only for shown pieces, where the text says so.
fn waiting(mut rules: Rules, text: &[u8]) -> Result<Rules, LineFault>
    ensures reads { Reads (λ told. told) result (waiting (Some rules) text.now) }
    ensures depth { IfOk result (λ told. told.depth ≡ rules.depth) }
    ensures random { IfOk result (λ told. told.random ≡ rules.random) }
{
    rules.shown = yes_or_no(text)?;
    Ok(rules)
}

/// The number, if it is no more than this.
fn within(number: u32, most: u32) -> Result<u32, LineFault>
    ensures { Reads (λ n. n) result (at_most most number) }
{
    if number > most {
        return Err(LineFault::NotAllowed);
    }
    Ok(number)
}

/// How many blocks may be asked of a peer, within its limits.
fn depth_of(text: &[u8]) -> Result<u32, LineFault>
    ensures reads { Reads (λ n. n) result (depth_in text.now) }
    ensures within { IfOk result (λ n. (1 ≤ n) × (n ≤ MOST_DEPTH)) }
{
    let depth = small_number(text)?;
    if depth < 1 || depth > MOST_DEPTH {
        return Err(LineFault::NotAllowed);
    }
    Ok(depth)
}

/// How many pieces are picked at random: no more than there are.
fn random_of(text: &[u8], pieces: u32) -> Result<u32, LineFault>
    ensures reads { Reads (λ n. n) result (random_in pieces text.now) }
    ensures within { IfOk result (λ n. n ≤ pieces) }
{
    let random = small_number(text)?;
    if random > pieces {
        return Err(LineFault::NotAllowed);
    }
    Ok(random)
}
