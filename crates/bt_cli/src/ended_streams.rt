//! What is told on standard error of streams whose sessions ended by a fault.

use crate::streams::Recording;
use bt_peer::{End, SessionFault};
use std::alloc::Global;
use std::io::Read;

/// A line for each stream whose session ended by a fault: its file, and why; of one that can't be read what the system says. None where there is
/// no such stream, or no memory to tell.
pub fn ends_in_words<F: Read>(
    alloc: Global,
    streams: &[Recording<'_, F>],
    ends: &[Result<End, SessionFault>],
) -> Option<String> {
    let mut text = String::new(alloc);
    for (stream, end) in streams.iter().zip(ends) {
        if let Err(fault) = end {
            text.push_str(&end_in_words(alloc, stream, *fault)?).ok()?;
        }
    }
    Some(text)
}

/// The line of one stream.
fn end_in_words<F: Read>(
    alloc: Global,
    stream: &Recording<'_, F>,
    fault: SessionFault,
) -> Option<String> {
    let name = stream.reader.name;
    match stream.reader.error() {
        Some(error) => format!(in alloc; "piecepick: {name}: {error}\n").ok(),
        None => format!(in alloc; "piecepick: {name}: {fault}\n").ok(),
    }
}
