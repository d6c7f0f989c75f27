//! Finding the end of a value, without making a tree of it.

ghost use Rattle.std.specs.Prelude.{◌≡◌, ◌<◌, ◌≤◌, length, IfOk};
ghost use Rattle.bt_bencode.specs.Reading.{end_of, value_at, items_in, entries_in};

use crate::fault::BenFault;
use crate::scalar::{integer, key, string};
use crate::tree::MAX_DEPTH;

/// The place behind the value at a place with room for this many levels.
#[cycle(skip)]
pub(crate) fn skip(source: &[u8], at: usize, room: u8) -> Result<usize, BenFault>
    requires place { at ≤ length source.now }
    requires room { room ≤ MAX_DEPTH }
    ensures read { result ≡ end_of (value_at room source.now at) }
    ensures end { IfOk result (λ end. (at < end) × (end ≤ length source.now)) }
{
    if at == source.len() {
        return Err(BenFault::Truncated);
    }
    let byte = source[at];
    match byte {
        b'i' => Ok(integer(source, at + 1)?.1),
        b'l' => skip_items(source, at + 1, room),
        b'd' => skip_entries(source, at + 1, room),
        _ if byte.is_ascii_digit() => Ok(string(source, at)?.1),
        _ => Err(BenFault::BadByte),
    }
}

/// The place behind the list whose items begin at a place. The list itself is one of the levels.
#[cycle(skip)]
fn skip_items(source: &[u8], at: usize, room: u8) -> Result<usize, BenFault>
    requires place { at ≤ length source.now }
    requires room { room ≤ MAX_DEPTH }
    ensures read { result ≡ end_of (items_in room source.now at) }
    ensures end { IfOk result (λ end. (at < end) × (end ≤ length source.now)) }
{
    if room == 0 {
        return Err(BenFault::TooDeep);
    }
    let mut place = at;
    while place < source.len() {
        if source[place] == b'e' {
            return Ok(place + 1);
        }
        place = skip(source, place, room - 1)?;
    }
    Err(BenFault::Truncated)
}

/// The place behind the dictionary whose entries begin at a place. The dictionary itself is one of the levels.
#[cycle(skip)]
fn skip_entries(source: &[u8], at: usize, room: u8) -> Result<usize, BenFault>
    requires place { at ≤ length source.now }
    requires room { room ≤ MAX_DEPTH }
    ensures read { result ≡ end_of (entries_in room source.now at) }
    ensures end { IfOk result (λ end. (at < end) × (end ≤ length source.now)) }
{
    if room == 0 {
        return Err(BenFault::TooDeep);
    }
    let mut last: Option<&[u8]> = None;
    let mut place = at;
    while place < source.len() {
        if source[place] == b'e' {
            return Ok(place + 1);
        }
        let (key, start) = key(source, place, last)?;
        place = skip(source, start, room - 1)?;
        last = Some(key);
    }
    Err(BenFault::Truncated)
}
