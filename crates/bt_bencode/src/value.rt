//! A value where it stands in its source, read without a tree.

ghost use Rattle.std.specs.Prelude.{◌≡◌, ℕ, ◌<◌, ◌^◌, List, [], ◌∷◌, length, Ok, Some, IfOk, IfSome, IfNone, MatchOption, is_some, option_map};
ghost use Rattle.bt_bencode.specs.Term.{Term, int_of, text_of, items_of, entries_of, span_of, get, entry_at};
ghost use Rattle.bt_bencode.specs.Grammar.{Spells, spelling};
ghost use Rattle.bt_bencode.specs.Placed.{placed, StandsAt};
ghost use Rattle.bt_bencode.specs.Reading.{tree_of};
ghost use Rattle.bt_bencode.specs.Standing.{AreEntries, entries_standing};

mod skipping;

use crate::fault::BenFault;
use crate::scalar::{integer, string};
use crate::span::Span;
use crate::tree::MAX_DEPTH;
use skipping::skip;
use std::marker::Model;

/// A bencoded value where it stands in its source. What is in it is read as it is asked for: it has no tree, and none of its
/// calls takes memory. Each goes over the value's bytes once at most.
///
/// Contracts see it as a `Term`, as they do a `Tree`. Its type keeps that it stands in the source from `start` up to `end` (`IsValue`), and
/// so it is never read in vain.
#[derive(Drop)]
pub struct Value<'a> {
    source: &'a [u8],
    start: usize,
    end: usize,
    // how many levels of lists and dictionaries it may have
    room: u8,
}

impl<'a> Model for Value<'a> {
    ghost use Rattle.bt_bencode.specs.Term.{Term};
    ghost use Rattle.bt_bencode.specs.Code.{coded_term};

    ghost Value = { Term };

    ghost coded = { coded_term };

    ghost use Rattle.bt_bencode.specs.Standing.{term_at, IsValue};

    ghost view = { λ v. term_at v.room v.source.now v.start };

    ghost invariant = { λ v. IsValue v.room v.source.now v.start v.end };
}

impl<'a> Value<'a> {
    /// The value that all of the bytes spell, or the first fault that is met from left to right, as `parse` has it. It is
    /// never `NoMemory`.
    pub fn of(source: &'a [u8]) -> Result<Value<'a>, BenFault>
        // Nothing but the spelling of a tree is taken, and each part knows its place there.
        ensures found { IfOk result (λ t. Spells t source.now) }
        ensures spans { IfOk result (λ t. placed 0 t ≡ t) }
        // The value at a key stands in the source where its span says.
        ensures parts { IfOk result (λ t. (key : List ℕ) (part : Term) → get t key ≡ Some part →
            StandsAt source.now (span_of part) (spelling part)) }
        // The spelling of a tree is taken as that tree.
        ensures only { (t : Term) → Spells t source.now → result ≡ Ok (placed 0 t) }
        // Which tree or which fault it is.
        ensures exact { result ≡ tree_of source.now }
    {
        whole(source)
    }

    /// Where it stands in the source.
    pub fn span(&self) -> Span
        ensures { result ≡ span_of self.now }
    {
        Span {
            start: self.start,
            end: self.end,
        }
    }

    /// Its number, where it is an integer.
    pub fn as_int(&self) -> Option<i64>
        ensures { result ≡ int_of self.now }
    {
        if self.source[self.start] != b'i' {
            return None;
        }
        match integer(self.source, self.start + 1) {
            Ok((number, _)) => Some(number),
            Err(_) => None,
        }
    }

    /// Its bytes, where it is a string.
    pub fn as_text(&self) -> Option<&'a [u8]>
        ensures { option_map (λ x. x.now) result ≡ text_of self.now }
    {
        if !self.source[self.start].is_ascii_digit() {
            return None;
        }
        match string(self.source, self.start) {
            Ok((bytes, _)) => Some(bytes),
            Err(_) => None,
        }
    }

    /// Its items, where it is a list.
    pub fn as_list(&self) -> Option<Items<'a>>
        ensures list { result ≡ items_of self.now }
        ensures few { IfSome result (λ items. length items < 2 ^ 64) }
    {
        if self.source[self.start] != b'l' {
            return None;
        }
        Some(Items {
            source: self.source,
            place: self.start + 1,
            room: self.room - 1,
        })
    }

    /// Whether it is a dictionary.
    pub fn is_dict(&self) -> bool
        ensures { result ≡ is_some (entries_of self.now) }
    {
        self.source[self.start] == b'd'
    }

    /// The value at a key, where it is a dictionary that has the key. It looks through the keys one by one.
    pub fn get(&self, key: &[u8]) -> Option<Value<'a>>
        ensures { result ≡ get self.now key.now }
    {
        if self.source[self.start] != b'd' {
            return None;
        }
        find(self.source, self.start + 1, self.room - 1, key)
    }
}

/// The value that is read from all of the bytes.
#[tactic(auto, unfolding(crate::specs::Reading::tree_of))]
fn whole<'a>(source: &'a [u8]) -> Result<Value<'a>, BenFault>
    ensures { result ≡ tree_of source.now }
{
    let end = skip(source, 0, MAX_DEPTH)?;
    if end < source.len() {
        return Err(BenFault::Trailing);
    }
    Ok(Value {
        source,
        start: 0,
        end,
        room: MAX_DEPTH,
    })
}

/// The value at a key, among the entries from a place on, each value with room for this many levels.
fn find<'a>(source: &'a [u8], at: usize, room: u8, key: &[u8]) -> Option<Value<'a>>
    requires { AreEntries room source.now at }
    ensures { result ≡ entry_at key.now (entries_standing room source.now at) }
{
    let mut place = at;
    while source[place] != b'e' {
        let Ok((name, start)) = string(source, place) else {
            return None;
        };
        let Ok(end) = skip(source, start, room) else {
            return None;
        };
        if name == key {
            return Some(Value {
                source,
                start,
                end,
                room,
            });
        }
        place = end;
    }
    None
}

/// The items of a list that are left, one behind the other. It takes no memory.
///
/// Contracts see it as a list of terms.
#[derive(Drop)]
pub struct Items<'a> {
    source: &'a [u8],
    place: usize,
    // how many levels of lists and dictionaries an item may have
    room: u8,
}

impl<'a> Model for Items<'a> {
    ghost use Rattle.std.specs.Prelude.{List};
    ghost use Rattle.std.specs.Coded.{coded_list};
    ghost use Rattle.bt_bencode.specs.Term.{Term};
    ghost use Rattle.bt_bencode.specs.Code.{coded_term};

    ghost Value = { List Term };

    ghost coded = { coded_list coded_term };

    ghost use Rattle.bt_bencode.specs.Standing.{terms_standing, AreItems};

    ghost view = { λ a. terms_standing a.room a.source.now a.place };

    ghost invariant = { λ a. AreItems a.room a.source.now a.place };
}

impl<'a> Items<'a> {
    /// The next item, if one is left. It goes over that item once.
    pub fn next(&mut self) -> Option<Value<'a>>
        ensures item { MatchOption result (self.old ≡ []) (λ item. self.old ≡ item ∷ self.new) }
        ensures end { IfNone result (self.new ≡ []) }
    {
        let start = self.place;
        if self.source[start] == b'e' {
            return None;
        }
        let Ok(end) = skip(self.source, start, self.room) else {
            return None;
        };
        self.place = end;
        Some(Value {
            source: self.source,
            start,
            end,
            room: self.room,
        })
    }
}
