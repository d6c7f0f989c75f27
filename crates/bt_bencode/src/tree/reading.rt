//! Reading a tree, in the order of its bytes, and refusing what is no canonical bencoding (BEP 3, "bencoding").

ghost use Rattle.std.specs.Prelude.{◌≡◌, ℕ, List, ◌<◌, ◌≤◌, length, Ok, Some, None, IsTrue, IfOk, option_map};
ghost use Rattle.bt_bencode.specs.Term.{Term, span_of, get, depth, depth_of_terms, depth_of_entries};
ghost use Rattle.bt_bencode.specs.Grammar.{Spells, IsSound, AreSound, EntriesAreSound, spelling, keys_rise};
ghost use Rattle.bt_bencode.specs.Placed.{placed, StandsAt};
ghost use Rattle.bt_bencode.specs.View.{terms_from, entries_from, last_key};
ghost use Rattle.bt_bencode.specs.Reading.{Gives, tree_of, value_at, items_at, entries_at};

use super::{MAX_DEPTH, Node, Tree};
use crate::fault::BenFault;
use crate::scalar::{integer, key, string};
use crate::span::Span;
use std::alloc::Global;

/// The tree that all of the bytes spell, or the first fault that is met from left to right (BEP 3, "bencoding"; beyond it
/// repeated keys, leading zeros in a length, numbers past 64 bits and a nesting above 64 are refused).
///
/// It goes over the bytes once. For a length that is announced it makes no room before as many bytes are there.
pub fn parse(alloc: Global, source: &[u8]) -> Result<Tree, BenFault>
    // Nothing but the spelling of a tree is taken, and each part knows its place there.
    ensures found { IfOk result (λ t. Spells t source.now) }
    ensures spans { IfOk result (λ t. placed 0 t ≡ t) }
    // The value at a key stands in the source where its span says.
    ensures parts { IfOk result (λ t. (key : List ℕ) (part : Term) → get t key ≡ Some part →
        StandsAt source.now (span_of part) (spelling part)) }
    // The spelling of a tree is taken as that tree, unless memory runs out.
    ensures only { (t : Term) → Spells t source.now → Gives (λ r. r) result (Ok (placed 0 t)) }
    // Which tree or which fault it is.
    ensures exact { Gives (λ t. t) result (tree_of source.now) }
{
    whole(alloc, source)
}

/// The tree that is read from all of the bytes.
fn whole(alloc: Global, source: &[u8]) -> Result<Tree, BenFault>
    ensures { Gives (λ t. t) result (tree_of source.now) }
{
    let (tree, end) = value(alloc, source, 0, MAX_DEPTH)?;
    if end < source.len() {
        return Err(BenFault::Trailing);
    }
    Ok(tree)
}

/// The items of a list, the levels of the deepest, and the place behind the list.
#[derive(Drop)]
struct ReadItems {
    items: Vec<Tree>,
    levels: u8,
    end: usize,
}

/// The entries of a dictionary, the levels of the deepest value, and the place behind the dictionary.
#[derive(Drop)]
struct ReadEntries {
    entries: Vec<(Vec<u8>, Tree)>,
    levels: u8,
    end: usize,
}

/// The value at a place with room for this many levels, and the place behind it.
#[cycle(value)]
fn value(alloc: Global, source: &[u8], at: usize, room: u8) -> Result<(Tree, usize), BenFault>
    requires place { at ≤ length source.now }
    requires room { room ≤ MAX_DEPTH }
    ensures read { Gives (λ x. x) result (value_at room source.now at) }
    ensures end { IfOk result (λ x. (at < x.1) × (x.1 ≤ length source.now)) }
    ensures levels { IfOk result (λ x. depth x.0 ≤ room) }
    ensures sound { IfOk result (λ x. IsSound x.0) }
{
    if at == source.len() {
        return Err(BenFault::Truncated);
    }
    let byte = source[at];
    let (node, levels, end) = match byte {
        b'i' => {
            let (number, end) = integer(source, at + 1)?;
            (Node::Int(number), 0, end)
        }
        b'l' | b'd' if room == 0 => return Err(BenFault::TooDeep),
        b'l' => {
            let read = list_items(alloc, source, at + 1, room - 1)?;
            (Node::List(read.items), read.levels + 1, read.end)
        }
        b'd' => {
            let read = dict_entries(alloc, source, at + 1, room - 1)?;
            (Node::Dict(read.entries), read.levels + 1, read.end)
        }
        _ if byte.is_ascii_digit() => {
            let (bytes, end) = string(source, at)?;
            (Node::Text(Vec::from_slice(alloc, bytes)?), 0, end)
        }
        _ => return Err(BenFault::BadByte),
    };
    let span = Span { start: at, end };
    Ok((Tree { span, levels, node }, end))
}

/// What stands behind the `l` of a list, up to its end.
#[cycle(value)]
fn list_items(alloc: Global, source: &[u8], at: usize, room: u8) -> Result<ReadItems, BenFault>
    requires place { at ≤ length source.now }
    requires room { room < MAX_DEPTH }
    ensures read { Gives (λ r. (terms_from r.items.items, r.end)) result
        (items_at (value_at room source.now) source.now (length source.now) at) }
    ensures end { IfOk result (λ r. (at < r.end) × (r.end ≤ length source.now)) }
    ensures levels { IfOk result (λ r. (r.levels ≡ depth_of_terms (terms_from r.items.items)) × (r.levels ≤ room)) }
    ensures sound { IfOk result (λ r. AreSound (terms_from r.items.items)) }
{
    let mut items = Vec::new(alloc);
    let mut levels = 0;
    let mut place = at;
    while place < source.len() {
        if source[place] == b'e' {
            let end = place + 1;
            return Ok(ReadItems { items, levels, end });
        }
        let (item, end) = value(alloc, source, place, room)?;
        levels = item.levels.max(levels);
        items.push(item)?;
        place = end;
    }
    Err(BenFault::Truncated)
}

/// What stands behind the `d` of a dictionary, up to its end.
#[cycle(value)]
fn dict_entries(alloc: Global, source: &[u8], at: usize, room: u8) -> Result<ReadEntries, BenFault>
    requires place { at ≤ length source.now }
    requires room { room < MAX_DEPTH }
    ensures read { Gives (λ r. (entries_from r.entries.items, r.end)) result
        (entries_at (value_at room source.now) source.now (length source.now) None at) }
    ensures end { IfOk result (λ r. (at < r.end) × (r.end ≤ length source.now)) }
    ensures levels { IfOk result (λ r. (r.levels ≡ depth_of_entries (entries_from r.entries.items)) × (r.levels ≤ room)) }
    ensures sound { IfOk result (λ r. IsTrue (keys_rise (entries_from r.entries.items)) × EntriesAreSound (entries_from r.entries.items)) }
{
    let mut entries: Vec<(Vec<u8>, Tree)> = Vec::new(alloc);
    let mut levels = 0;
    let mut place = at;
    while place < source.len() {
        if source[place] == b'e' {
            let end = place + 1;
            return Ok(ReadEntries {
                entries,
                levels,
                end,
            });
        }
        let (key, end) = key(source, place, last_key(&entries))?;
        let (value, end) = value(alloc, source, end, room)?;
        levels = value.levels.max(levels);
        entries.push((Vec::from_slice(alloc, key)?, value))?;
        place = end;
    }
    Err(BenFault::Truncated)
}

/// The key of the last entry.
fn last_key(entries: &[(Vec<u8>, Tree)]) -> Option<&[u8]>
    ensures { option_map (λ x. x.now) result ≡ last_key entries.now }
{
    let count = entries.len();
    if count == 0 {
        return None;
    }
    let last = &entries[count - 1];
    Some(last.0.as_slice())
}
