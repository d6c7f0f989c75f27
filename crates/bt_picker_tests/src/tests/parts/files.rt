//! The files that metainfo files of other programs list, and such as BEP 3 allows and no program should follow.

use super::samples::{MULTI_FILE, SINGLE_FILE};
use bt_bencode::BenFault;
use bt_expect::same_for;
use bt_meta::*;
use std::alloc::Global;
use std::test::*;

/// A file of so many bytes, with the names on its path.
type Row = (u64, &'static [&'static [u8]]);

/// Whether the file has this length and this path.
fn is_row(file: &ListedFile, row: Row) -> bool {
    let (length, path) = row;
    if file.length() != length || file.path().len() != path.len() {
        return false;
    }
    for part in 0..path.len() {
        if file.path()[part].as_slice() != path[part] {
            return false;
        }
    }
    true
}

/// The files that the bytes list. A call that found no memory is made once more.
fn files_of(alloc: Global, source: &[u8]) -> Result<Vec<ListedFile>, MetaFault> {
    match ListedFile::read_all(alloc, source) {
        Err(MetaFault::NoMemory) => ListedFile::read_all(alloc, source),
        files => files,
    }
}

/// These are the files.
fn are_rows(files: &[ListedFile], rows: &[Row]) -> Result<(), Fail> {
    same_for(files.len(), rows.len(), "files")?;
    for index in 0..rows.len() {
        same_for(is_row(&files[index], rows[index]), true, index)?;
    }
    Ok(())
}

/// The bytes list these files.
fn lists(alloc: Global, source: &[u8], rows: &[Row]) -> Result<(), Fail> {
    match files_of(alloc, source) {
        Ok(files) => are_rows(&files, rows),
        Err(fault) => Err(Fail::new(format_args!("{fault:?}"))),
    }
}

#[test]
fn files_of_other_programs(rt: HostRuntime) -> Result<(), Fail> {
    lists(rt.alloc(), SINGLE_FILE, &[(410_000, &[b"noise.bin"])])?;
    const SEVERAL: &[Row] = &[
        (200_000, &[b"b-multi", b"d0", b"f00.bin"]),
        (65_536, &[b"b-multi", b"d0", b"f03.bin"]),
        (1, &[b"b-multi", b"d1", b"f01.bin"]),
        (240_000, &[b"b-multi", b"d1", b"f04.bin"]),
        (0, &[b"b-multi", b"d2", b"f02.bin"]),
        (33_333, &[b"b-multi", b"d2", b"f05.bin"]),
    ];
    lists(rt.alloc(), MULTI_FILE, SEVERAL)
}

#[test]
fn names_are_what_the_file_says(rt: HostRuntime) -> Result<(), Fail> {
    const LISTED: &[u8] = b"d4:infod5:filesld6:lengthi7e4:pathl0:2:..3:a/beee4:name0:ee";
    lists(rt.alloc(), LISTED, &[(7, &[b"", b"", b"..", b"a/b"])])
}

#[test]
fn no_files(rt: HostRuntime) -> Result<(), Fail> {
    const ROWS: &[(&[u8], MetaFault)] = &[
        (b"d", MetaFault::Bencode(BenFault::Truncated)),
        (b"le", MetaFault::NotDictionary),
        (b"d4:infodee", MetaFault::Missing(Key::Name)),
        (b"d4:infod4:name1:see", MetaFault::NoContent),
        (
            b"d4:infod5:filesle6:lengthi7e4:name1:see",
            MetaFault::BothLengthAndFiles,
        ),
        (
            b"d4:infod5:filesld6:lengthi7e4:pathleee4:name1:see",
            MetaFault::WrongKind(Key::Path),
        ),
    ];
    for &(source, fault) in ROWS {
        same_for(files_of(rt.alloc(), source).err(), Some(fault), source)?;
    }
    Ok(())
}
