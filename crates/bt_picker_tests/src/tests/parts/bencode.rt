//! Bencoding, by worked examples. What is read, made and written goes through functions without a contract, so that a test knows of what
//! they give alone, and its proof is short.

use bt_bencode::*;
use bt_expect::{same, same_for};
use std::alloc::{AllocError, AllocFailed, Global};
use std::process::Abort;
use std::test::*;

fn tree_of(alloc: Global, source: &[u8]) -> Result<Tree, BenFault> {
    parse(alloc, source)
}

fn value_of(source: &[u8]) -> Result<Value<'_>, BenFault> {
    Value::of(source)
}

fn list(items: Vec<Tree>) -> Result<Tree, BenFault> {
    Tree::list(items)
}

fn dict(entries: Vec<(Vec<u8>, Tree)>) -> Result<Tree, BenFault> {
    Tree::dict(entries)
}

fn written(alloc: Global, tree: &Tree) -> Result<Vec<u8>, AllocError> {
    write(alloc, tree)
}

/// The value of the dictionary's key.
fn part<'a>(tree: &'a Tree, key: &[u8]) -> Option<&'a Tree> {
    tree.get(key)
}

fn items(tree: &Tree) -> Option<&[Tree]> {
    tree.as_list()
}

/// A tree of the bytes, or their fault. A call that found no memory is made once more.
fn parse_again(alloc: Global, source: &[u8]) -> Result<Tree, BenFault> {
    match tree_of(alloc, source) {
        Err(BenFault::NoMemory) => tree_of(alloc, source),
        parsed => parsed,
    }
}

/// The number of the fault that the bytes give, or 0.
fn fault_number(alloc: Global, source: &[u8]) -> u8 {
    match parse_again(alloc, source) {
        Ok(_) => 0,
        Err(fault) => fault as u8,
    }
}

/// The number of the fault that the bytes give where no tree is made, or 0.
fn fault_in_place(source: &[u8]) -> u8 {
    match value_of(source) {
        Ok(_) => 0,
        Err(fault) => fault as u8,
    }
}

/// As many lists inside one another, with nothing in the innermost.
fn nested_lists(alloc: Global, levels: usize) -> Result<Vec<u8>, AllocError> {
    let mut source = vec![in alloc; b'l'; levels]?;
    for _ in 0..levels {
        source.push(b'e')?;
    }
    Ok(source)
}

#[test]
fn each_fault_has_its_number(rt: HostRuntime) -> Result<(), Fail> {
    const ROWS: &[(&[u8], u8)] = &[
        (b"", 1),
        (b"l", 1),
        (b"3:ab", 1),
        (b"i3", 1),
        (b"i-", 1),
        (b"d1:a", 1),
        (b"9999999999999999999:", 1),
        (b"99999999999999999999999:a", 1),
        (b"i-0e", 2),
        (b"i03e", 2),
        (b"i00e", 2),
        (b"ie", 2),
        (b"i-e", 2),
        (b"i+3e", 2),
        (b"i3x", 2),
        (b"i9223372036854775808e", 3),
        (b"i-9223372036854775809e", 3),
        (b"i99999999999999999999999999e", 3),
        (b"03:abc", 4),
        (b"3x", 4),
        (b"d1:bi1e1:ai2ee", 5),
        (b"d1:ai1e1:ai2ee", 5),
        (b"di1ei2ee", 6),
        (b"lex", 8),
        (b"x", 9),
        (b"e", 9),
        (b"-3:abc", 9),
        (b"d1:ae", 9),
        (b"dxe", 9),
    ];
    for &(source, fault) in ROWS {
        same_for(fault_number(rt.alloc(), source), fault, source)?;
        same_for(fault_in_place(source), fault, source)?;
    }
    let too_deep = nested_lists(rt.alloc(), 65)?;
    same(fault_number(rt.alloc(), &too_deep), 7)?;
    same(fault_in_place(&too_deep), 7)?;
    same(BenFault::from(AllocError) as u8, 10)
}

#[test]
fn a_mebibyte_of_lists_is_too_deep(rt: HostRuntime) -> Result<(), Fail> {
    let source = vec![in rt.alloc(); b'l'; 1 << 20]?;
    same(fault_number(rt.alloc(), &source), 7)
}

#[test]
fn each_proper_prefix_is_truncated(rt: HostRuntime) -> Result<(), Fail> {
    let source: &[u8] = b"d4:infold3:keyi-30eel0:11:eleven byteei0ee4:name2:xye";
    same(fault_number(rt.alloc(), source), 0)?;
    for end in 0..source.len() {
        same_for(fault_number(rt.alloc(), &source[..end]), 1, end)?;
    }
    Ok(())
}

/// What is written of the tree. A call that found no memory is made once more.
fn write_again(alloc: Global, tree: &Tree) -> Result<Vec<u8>, AllocError> {
    match written(alloc, tree) {
        Err(AllocError) => written(alloc, tree),
        bytes => bytes,
    }
}

/// Checks how the tree is written.
fn is_written(alloc: Global, tree: &Tree, wanted: &[u8]) -> Result<(), Fail> {
    let bytes = write_again(alloc, tree)?;
    same(bytes.as_slice(), wanted)
}

/// Checks that the bytes are written as they were read, and that the tree spans them.
fn comes_back(alloc: Global, source: &[u8]) -> Result<(), Fail> {
    let tree = parse_again(alloc, source)?;
    let (start, end) = (0, source.len());
    same(seen(&tree).0, Span { start, end })?;
    is_written(alloc, &tree, source)
}

#[test]
fn what_is_accepted_is_written_back(rt: HostRuntime) -> Result<(), Fail> {
    const SOURCES: &[&[u8]] = &[
        b"i-3e",
        b"i0e",
        b"i9223372036854775807e",
        b"i-9223372036854775808e",
        b"0:",
        b"le",
        b"de",
        b"d0:0:1:Ai1e1:ai2e2:aalee",
    ];
    for source in SOURCES {
        comes_back(rt.alloc(), source)?;
    }
    comes_back(rt.alloc(), &nested_lists(rt.alloc(), 64)?)
}

/// Where a tree stands, and what it is: its bytes, its number, or how many keys it has. A list is none of these.
type Seen<'a> = (Span, Option<&'a [u8]>, Option<i64>, Option<usize>);

fn seen(tree: &Tree) -> Seen<'_> {
    let keys = match tree.as_dict() {
        Some(entries) => Some(entries.len()),
        None => None,
    };
    (tree.span(), tree.as_text(), tree.as_int(), keys)
}

/// The tree at the dictionary's key, and behind it its items, if it is a list.
fn seen_at<'a>(alloc: Global, tree: &'a Tree, key: &[u8]) -> Result<Vec<Seen<'a>>, AllocError> {
    let mut all = Vec::new(alloc);
    let Some(part) = part(tree, key) else {
        return Ok(all);
    };
    all.push(seen(part))?;
    for item in items(part).unwrap_or(&[]) {
        all.push(seen(item))?;
    }
    Ok(all)
}

/// A key, the tree that stands there, and its items.
type Row = (&'static [u8], &'static [Seen<'static>]);

/// Checks what stands at each key.
fn stand(alloc: Global, tree: &Tree, rows: &[Row]) -> Result<(), Fail> {
    for &(key, wanted) in rows {
        let found = seen_at(alloc, tree, key)?;
        same_for(found.as_slice(), wanted, key)?;
    }
    Ok(())
}

#[test]
fn parts_know_where_they_stand(rt: HostRuntime) -> Result<(), Fail> {
    const ROWS: &[Row] = &[
        (
            b"list",
            &[
                (Span { start: 7, end: 16 }, None, None, None),
                (Span { start: 8, end: 11 }, Some(b"x"), None, None),
                (Span { start: 11, end: 15 }, None, Some(-3), None),
            ],
        ),
        (
            b"name",
            &[(Span { start: 22, end: 28 }, None, None, Some(1))],
        ),
        (b"nam", &[]),
    ];
    let tree = parse_again(rt.alloc(), b"d4:listl1:xi-3ee4:named0:0:ee")?;
    stand(rt.alloc(), &tree, ROWS)
}

/// Where a value stands, and what it is: its bytes, its number, or whether it is a dictionary. A list is none of these.
type SeenInPlace<'a> = (Span, Option<&'a [u8]>, Option<i64>, bool);

fn seen_in_place<'a>(value: &Value<'a>) -> SeenInPlace<'a> {
    (
        value.span(),
        value.as_text(),
        value.as_int(),
        value.is_dict(),
    )
}

/// The value of the dictionary's key.
fn part_in_place<'a>(value: &Value<'a>, key: &[u8]) -> Option<Value<'a>> {
    value.get(key)
}

/// What stands at the dictionary's key.
fn seen_in_place_at<'a>(value: &Value<'a>, key: &[u8]) -> Option<SeenInPlace<'a>> {
    match part_in_place(value, key) {
        Some(part) => Some(seen_in_place(&part)),
        None => None,
    }
}

/// The items of the list at the dictionary's key.
fn items_at<'a>(value: &Value<'a>, key: &[u8]) -> Option<Items<'a>> {
    part_in_place(value, key)?.as_list()
}

/// The next item, with what stands at its key `a`.
type Item<'a> = (SeenInPlace<'a>, Option<SeenInPlace<'a>>);

fn next_item<'a>(items: &mut Items<'a>) -> Option<Item<'a>> {
    match items.next() {
        Some(item) => Some((seen_in_place(&item), seen_in_place_at(&item, b"a"))),
        None => None,
    }
}

/// A dictionary of a list, a dictionary and a number.
const WITH_PARTS: &[u8] = b"d4:listl1:xi-3ed1:ai1eee4:named0:0:e5:otheri7ee";

#[test]
fn a_value_is_read_where_it_stands() -> Result<(), Fail> {
    const ROWS: &[(&[u8], &[u8], Option<SeenInPlace<'static>>)] = &[
        (
            WITH_PARTS,
            b"list",
            Some((Span { start: 7, end: 24 }, None, None, false)),
        ),
        (
            WITH_PARTS,
            b"name",
            Some((Span { start: 30, end: 36 }, None, None, true)),
        ),
        (
            WITH_PARTS,
            b"other",
            Some((Span { start: 43, end: 46 }, None, Some(7), false)),
        ),
        (WITH_PARTS, b"nam", None),
        (
            b"d0:0:e",
            b"",
            Some((Span { start: 3, end: 5 }, Some(b""), None, false)),
        ),
    ];
    for &(source, key, wanted) in ROWS {
        same_for(seen_in_place_at(&value_of(source)?, key), wanted, key)?;
    }
    Ok(())
}

#[test]
fn items_are_read_where_they_stand() -> Result<(), Fail> {
    const ROWS: &[Option<Item<'static>>] = &[
        Some(((Span { start: 8, end: 11 }, Some(b"x"), None, false), None)),
        Some(((Span { start: 11, end: 15 }, None, Some(-3), false), None)),
        Some((
            (Span { start: 15, end: 23 }, None, None, true),
            Some((Span { start: 19, end: 22 }, None, Some(1), false)),
        )),
        None,
    ];
    let mut items = items_at(&value_of(WITH_PARTS)?, b"list").ok_or("a list")?;
    for wanted in ROWS {
        same(next_item(&mut items), *wanted)?;
    }
    Ok(())
}

fn text(alloc: Global, bytes: &[u8]) -> Result<Tree, BenFault> {
    Tree::text(alloc, bytes)
}

fn int(value: i64) -> Tree {
    Tree::int(value)
}

/// A list of `x` and -3.
fn list_by_hand(alloc: Global) -> Result<Tree, Fail> {
    let mut items = Vec::new(alloc);
    items.push(text(alloc, b"x")?)?;
    items.push(int(-3))?;
    Ok(list(items)?)
}

/// A dictionary with that list at `a`.
fn made_by_hand(alloc: Global) -> Result<Tree, Fail> {
    let mut entries = Vec::new(alloc);
    entries.push((Vec::from_slice(alloc, b"a")?, list_by_hand(alloc)?))?;
    Ok(dict(entries)?)
}

/// Where a tree stands that nobody read.
const NOWHERE: Span = Span { start: 0, end: 0 };

#[test]
fn trees_are_made_by_hand(rt: HostRuntime) -> Result<(), Fail> {
    const ROWS: &[Row] = &[
        (
            b"a",
            &[
                (NOWHERE, None, None, None),
                (NOWHERE, Some(b"x"), None, None),
                (NOWHERE, None, Some(-3), None),
            ],
        ),
        (b"b", &[]),
    ];
    let tree = made_by_hand(rt.alloc())?;
    is_written(rt.alloc(), &tree, b"d1:al1:xi-3eee")?;
    same(seen(&tree), (NOWHERE, None, None, Some(1)))?;
    stand(rt.alloc(), &tree, ROWS)
}

/// The fault of a dictionary of two keys, in this order.
fn fault_of_two(alloc: Global, first: &[u8], second: &[u8]) -> Result<Option<BenFault>, Fail> {
    let mut entries = Vec::new(alloc);
    entries.push((Vec::from_slice(alloc, first)?, int(1)))?;
    entries.push((Vec::from_slice(alloc, second)?, int(2)))?;
    Ok(dict(entries).err())
}

#[test]
fn a_dictionary_by_hand_has_sorted_keys(rt: HostRuntime) -> Result<(), Fail> {
    const ROWS: &[(&[u8], &[u8], Option<BenFault>)] = &[
        (b"a", b"b", None),
        (b"b", b"a", Some(BenFault::KeyOrder)),
        (b"a", b"a", Some(BenFault::KeyOrder)),
    ];
    for &(first, second, wanted) in ROWS {
        same_for(fault_of_two(rt.alloc(), first, second)?, wanted, first)?;
    }
    Ok(())
}

/// A list of the tree alone.
fn list_of_one(alloc: Global, tree: Tree) -> Result<Result<Tree, BenFault>, Fail> {
    let mut items = Vec::new(alloc);
    items.push(tree)?;
    Ok(list(items))
}

/// As many lists inside one another.
fn lists_by_hand(alloc: Global, levels: usize) -> Result<Tree, Fail> {
    let mut tree = list(Vec::new(alloc))?;
    for _ in 1..levels {
        tree = list_of_one(alloc, tree)??;
    }
    Ok(tree)
}

#[test]
fn lists_by_hand_stand_64_inside_one_another(rt: HostRuntime) -> Result<(), Fail> {
    let tree = lists_by_hand(rt.alloc(), 64)?;
    let made = list_of_one(rt.alloc(), tree)?;
    assert!(rt; matches!(made, Err(BenFault::TooDeep)));
    Ok(())
}

/// Puts the tree behind the others. One that found no room comes back, and is put once more.
fn put(trees: &mut Vec<Tree>, tree: Tree) -> Result<(), AllocError> {
    match trees.push(tree) {
        Ok(()) => Ok(()),
        Err(AllocFailed { value }) => Ok(trees.push(value)?),
    }
}

/// Puts a tree of each source behind the others.
fn put_each(alloc: Global, trees: &mut Vec<Tree>, sources: &[&[u8]]) -> Result<(), Fail> {
    for source in sources {
        put(trees, parse_again(alloc, source)?)?;
    }
    Ok(())
}

#[test]
fn a_tree_that_found_no_room_is_put_once_more(rt: HostRuntime) -> Result<(), Fail> {
    const SOURCES: &[&[u8]] = &[b"2:ab", b"i-3e", b"l1:xe", b"d1:ai1ee", b"le"];
    let mut trees = Vec::new(rt.alloc());
    put_each(rt.alloc(), &mut trees, SOURCES)?;
    is_written(rt.alloc(), &list(trees)?, b"l2:abi-3el1:xed1:ai1eelee")
}
