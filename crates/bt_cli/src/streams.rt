//! The recorded streams of peers.

ghost use Rattle.std.specs.Prelude.{◌≡◌, length, map, IfOk};

use crate::failure::Failure;
use crate::in_file::InFile;
use bt_meta::ToWrite;
use bt_peer::Stream;
use std::fs::Files;
use std::{fs, io};

/// A recorded stream, and a writer for what is said to it.
pub type Recording<'w, F> = Stream<InFile<'w, F>, ToWrite<io::Sink>>;

/// The streams that are named, each opened: one for each name, in their order. What is said to them is dropped.
pub fn recorded<'w, R: Files + AllocGlobal>(
    rt: &R,
    names: &[&'w str],
) -> Result<Vec<Recording<'w, R::File>>, Failure<'w>>
    ensures count { IfOk result (λ streams. length streams.items ≡ length names.now) }
    ensures names { IfOk result (λ streams. map (λ stream. stream.reader.name) streams.items ≡ names.now) }
{
    let mut streams = Vec::new(rt.alloc());
    for name in names {
        streams.push(opened(rt, name)?)?;
    }
    Ok(streams)
}

/// The stream of this file, opened.
fn opened<'w, R: Files>(rt: &R, name: &'w str) -> Result<Recording<'w, R::File>, Failure<'w>>
    ensures { IfOk result (λ stream. stream.reader.name ≡ name.entry) }
{
    let file = fs::open(rt, name).map_err(|e| Failure::of_file(name, e))?;
    Ok(Stream {
        reader: InFile::new(name, file),
        writer: ToWrite::new(io::sink()),
    })
}
