//! Writing a tree: the one spelling that it has.

ghost use Rattle.std.specs.Prelude.{◌≡◌, ◌++◌, ◌∷◌, [], IfOk, OnOk};
ghost use Rattle.std.specs.Fmt.{signed_decimal};
ghost use Rattle.bt_bencode.specs.Grammar.{spelling, spelling_of_terms, spelling_of_entries, string};
ghost use Rattle.bt_bencode.specs.View.{terms_from, entries_from};

use super::{Node, Tree};
use std::alloc::{AllocError, Global};

/// The one spelling of a tree.
pub fn write(alloc: Global, tree: &Tree) -> Result<Vec<u8>, AllocError>
    ensures { IfOk result (λ bytes. bytes.items ≡ spelling tree.now) }
{
    let mut out = Vec::new(alloc);
    put(alloc, &mut out, tree)?;
    Ok(out)
}

/// Writes the tree behind what stands there.
#[cycle(put)]
fn put(alloc: Global, out: &mut Vec<u8>, tree: &Tree) -> Result<(), AllocError>
    ensures { OnOk result (out.new.items ≡ out.old.items ++ spelling tree.now) }
{
    match &tree.node {
        Node::Int(value) => put_int(alloc, out, *value),
        Node::Text(bytes) => put_string(alloc, out, bytes),
        Node::List(items) => {
            out.push(b'l')?;
            put_items(alloc, out, items)?;
            Ok(out.push(b'e')?)
        }
        Node::Dict(entries) => {
            out.push(b'd')?;
            put_entries(alloc, out, entries)?;
            Ok(out.push(b'e')?)
        }
    }
}

/// Writes the items of a list, one behind the other.
#[cycle(put)]
fn put_items(alloc: Global, out: &mut Vec<u8>, items: &[Tree]) -> Result<(), AllocError>
    ensures { OnOk result (out.new.items ≡ out.old.items ++ spelling_of_terms (terms_from items.now)) }
{
    for item in items {
        put(alloc, out, item)?;
    }
    Ok(())
}

/// Writes the entries of a dictionary, each key and then its value.
#[cycle(put)]
fn put_entries(
    alloc: Global,
    out: &mut Vec<u8>,
    entries: &[(Vec<u8>, Tree)],
) -> Result<(), AllocError>
    ensures { OnOk result (out.new.items ≡ out.old.items ++ spelling_of_entries (entries_from entries.now)) }
{
    for (key, value) in entries {
        put_string(alloc, out, key)?;
        put(alloc, out, value)?;
    }
    Ok(())
}

/// Writes an integer.
fn put_int(alloc: Global, out: &mut Vec<u8>, value: i64) -> Result<(), AllocError>
    ensures { OnOk result (out.new.items ≡ out.old.items ++ 105 ∷ signed_decimal value ++ 101 ∷ []) }
{
    out.push(b'i')?;
    let digits = value.to_string(alloc)?;
    out.extend_from_slice(digits.as_bytes())?;
    Ok(out.push(b'e')?)
}

/// Writes a string, its length first.
fn put_string(alloc: Global, out: &mut Vec<u8>, bytes: &[u8]) -> Result<(), AllocError>
    ensures { OnOk result (out.new.items ≡ out.old.items ++ string bytes.now) }
{
    let len = bytes.len().to_string(alloc)?;
    out.extend_from_slice(len.as_bytes())?;
    out.push(b':')?;
    out.extend_from_slice(bytes)
}
