//! A tree of bencoding, which owns what it has.

ghost use Rattle.std.specs.Prelude.{◌≡◌, ◌<◌, ◌≤◌, IfOk, IfErr, option_map};
ghost use Rattle.bt_bencode.specs.Term.{int, text, int_of, text_of, items_of, entries_of, span_of, get, entry_at, depth_of_terms, depth_of_entries};
ghost use Rattle.bt_bencode.specs.Grammar.{AreSound, EntriesAreSound, keys_rise};
ghost use Rattle.bt_bencode.specs.Made.{no_span, list_made, dict_made};
ghost use Rattle.bt_bencode.specs.View.{terms_from, entries_from, pairs};
ghost use Rattle.bt_bencode.specs.declared.fault.BenFault.TheVariants.{NoMemory};

mod reading;
mod writing;

use crate::fault::BenFault;
use crate::span::Span;
pub use reading::parse;
use std::alloc::{AllocError, Global};
use std::marker::Model;
pub use writing::write;

/// How many lists and dictionaries may stand inside one another, the outermost counted.
pub(crate) const MAX_DEPTH: u8 = 64;

/// A bencoded value, with all that stands in it. However it was made, its keys are in sorted order, none twice, and it is
/// no deeper than 64 levels of lists and dictionaries. Contracts see it as a `Term`.
#[cycle(tree)]
#[derive(Drop)]
pub struct Tree {
    span: Span,
    levels: u8,
    node: Node,
}

#[cycle(tree)]
#[derive(Drop)]
enum Node {
    Int(i64),
    Text(Vec<u8>),
    List(Vec<Tree>),
    Dict(Vec<(Vec<u8>, Tree)>),
}

impl Model for Tree {
    ghost use Rattle.std.specs.Prelude.{◌≡◌};
    ghost use Rattle.bt_bencode.specs.Term.{Term, depth};
    ghost use Rattle.bt_bencode.specs.Grammar.{IsTree};
    ghost use Rattle.bt_bencode.specs.Code.{coded_term};

    ghost Value = { Term };

    ghost coded = { coded_term };

    ghost use Rattle.bt_bencode.specs.View.{term};

    ghost view = { λ a. term a.span a.node };

    ghost invariant = { λ a. IsTree (term a.span a.node) × (a.levels ≡ depth (term a.span a.node)) };

    ghost size = { depth };

    ghost use Rattle.bt_bencode.specs.Falls.{child_depth};

    ghost size_decreases = { λ a h. child_depth a.span a.node };
}

impl Tree {
    /// Where it stands in the source that it was read from; 0 and 0 where it was made by hand.
    pub fn span(&self) -> Span
        ensures { result ≡ span_of self.now }
    {
        self.span
    }

    /// Its number, where it is an integer.
    pub fn as_int(&self) -> Option<i64>
        ensures { result ≡ int_of self.now }
    {
        match &self.node {
            Node::Int(value) => Some(*value),
            _ => None,
        }
    }

    /// Its bytes, where it is a string.
    pub fn as_text(&self) -> Option<&[u8]>
        ensures { option_map (λ x. x.now) result ≡ text_of self.now }
    {
        match &self.node {
            Node::Text(bytes) => Some(bytes),
            _ => None,
        }
    }

    /// Its items, where it is a list.
    pub fn as_list(&self) -> Option<&[Tree]>
        ensures { option_map (λ x. x.now) result ≡ items_of self.now }
    {
        match &self.node {
            Node::List(items) => Some(items),
            _ => None,
        }
    }

    /// Its keys, each with its value, where it is a dictionary.
    pub fn as_dict(&self) -> Option<&[(Vec<u8>, Tree)]>
        ensures { option_map (λ x. pairs x.now) result ≡ entries_of self.now }
    {
        match &self.node {
            Node::Dict(entries) => Some(entries),
            _ => None,
        }
    }

    /// The value at a key, where it is a dictionary that has the key. It looks through the keys one by one.
    pub fn get(&self, key: &[u8]) -> Option<&Tree>
        ensures { option_map (λ x. x.now) result ≡ get self.now key.now }
    {
        match &self.node {
            Node::Dict(entries) => find(entries, key),
            _ => None,
        }
    }

    /// The integer.
    pub fn int(value: i64) -> Tree
        ensures { result ≡ int no_span value }
    {
        Tree {
            span: Span::default(),
            levels: 0,
            node: Node::Int(value),
        }
    }

    /// The string of these bytes, which are copied. Its only fault is `NoMemory`.
    pub fn text(alloc: Global, bytes: &[u8]) -> Result<Tree, BenFault>
        ensures made { IfOk result (λ t. t ≡ text no_span bytes.now) }
        ensures refused { IfErr result (λ e. e ≡ NoMemory) }
    {
        Ok(Tree {
            span: Span::default(),
            levels: 0,
            node: Node::Text(Vec::from_slice(alloc, bytes)?),
        })
    }

    /// The list of these items, or `TooDeep`. It takes no memory.
    pub fn list(items: Vec<Tree>) -> Result<Tree, BenFault>
        ensures { result ≡ list_made (terms_from items.items) }
    {
        let levels = deepest_item(&items);
        if levels >= MAX_DEPTH {
            return Err(BenFault::TooDeep);
        }
        Ok(Tree {
            span: Span::default(),
            levels: levels + 1,
            node: Node::List(items),
        })
    }

    /// The dictionary of these entries; or `KeyOrder`, where the keys don't rise in the order of raw bytes, then `TooDeep`.
    /// It takes no memory.
    pub fn dict(entries: Vec<(Vec<u8>, Tree)>) -> Result<Tree, BenFault>
        ensures { result ≡ dict_made (entries_from entries.items) }
    {
        if !rises(&entries) {
            return Err(BenFault::KeyOrder);
        }
        let levels = deepest_value(&entries);
        if levels >= MAX_DEPTH {
            return Err(BenFault::TooDeep);
        }
        Ok(Tree {
            span: Span::default(),
            levels: levels + 1,
            node: Node::Dict(entries),
        })
    }
}

/// The value at a key.
fn find<'a>(entries: &'a [(Vec<u8>, Tree)], key: &[u8]) -> Option<&'a Tree>
    ensures { option_map (λ x. x.now) result ≡ entry_at key.now (entries_from entries.now) }
{
    for (k, value) in entries {
        if k.as_slice() == key {
            return Some(value);
        }
    }
    None
}

/// The levels of the deepest item.
fn deepest_item(items: &[Tree]) -> u8
    ensures levels { result ≡ depth_of_terms (terms_from items.now) }
    ensures bound { result ≤ MAX_DEPTH }
    ensures sound { AreSound (terms_from items.now) }
{
    let mut levels = 0;
    for item in items {
        levels = item.levels.max(levels);
    }
    levels
}

/// The levels of the deepest value.
fn deepest_value(entries: &[(Vec<u8>, Tree)]) -> u8
    ensures levels { result ≡ depth_of_entries (entries_from entries.now) }
    ensures bound { result ≤ MAX_DEPTH }
    ensures sound { EntriesAreSound (entries_from entries.now) }
{
    let mut levels = 0;
    for (_, value) in entries {
        levels = value.levels.max(levels);
    }
    levels
}

/// Whether each key is above the one before it.
fn rises(entries: &[(Vec<u8>, Tree)]) -> bool
    ensures { result ≡ keys_rise (entries_from entries.now) }
{
    for i in 1..entries.len() {
        if !entries[i - 1]
            .0
            .as_slice()
            .cmp(entries[i].0.as_slice())
            .is_lt()
        {
            return false;
        }
    }
    true
}
