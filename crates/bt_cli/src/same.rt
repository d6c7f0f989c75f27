//! Whether two names are those of one file.

use std::fs;
use std::fs::{Files, Metadata};
use std::os::unix::fs::MetadataExt;

/// Whether the file of `--out` is the metainfo file or a stream, as the system says of them: one device, and one inode there. A file that isn't
/// there, or that is no plain file, is none of them.
pub fn is_input<R: Files>(files: &R, out: &str, meta: &str, streams: &[&str]) -> bool {
    match fs::metadata(files, out) {
        Ok(found) if found.is_file() => {
            is_at(files, meta, &found) || is_some_at(files, streams, &found)
        }
        _ => false,
    }
}

/// Whether one of these names is this file's.
fn is_some_at<R: Files>(files: &R, names: &[&str], found: &Metadata) -> bool {
    for name in names {
        if is_at(files, name, found) {
            return true;
        }
    }
    false
}

/// Whether this name is this file's.
fn is_at<R: Files>(files: &R, name: &str, found: &Metadata) -> bool {
    match fs::metadata(files, name) {
        Ok(other) => other.dev() == found.dev() && other.ino() == found.ino(),
        Err(_) => false,
    }
}
