//! Metainfo files that are none, with the part at fault. Files that are some, and the numbers of the faults, are described in `bt_cli_tests`.

use super::samples::{MULTI_FILE, SINGLE_FILE};
use bt_bencode::BenFault;
use bt_expect::same_for;
use bt_meta::*;
use std::alloc::{AllocError, Global};
use std::test::*;

/// The SHA-1 of `abc`, of `abc`, and of `a`.
const DIGESTS: &[u8; 60] =
    b"\xa9\x99\x3e\x36\x47\x06\x81\x6a\xba\x3e\x25\x71\x78\x50\xc2\x6c\x9c\xd0\xd8\x9d\
    \xa9\x99\x3e\x36\x47\x06\x81\x6a\xba\x3e\x25\x71\x78\x50\xc2\x6c\x9c\xd0\xd8\x9d\
    \x86\xf7\xe4\x37\xfa\xa5\xa7\xfc\xe1\x5d\x1d\xdc\xb9\xea\xea\xea\x37\x76\x67\xb8";

/// Puts the bytes behind the others, with no contract: a test knows nothing of the file that it makes, and its proof is short.
fn put(file: &mut Vec<u8>, bytes: &[u8]) -> Result<(), AllocError> {
    file.extend_from_slice(bytes)
}

/// Puts the number behind the others.
fn put_number(alloc: Global, file: &mut Vec<u8>, number: usize) -> Result<(), AllocError> {
    let digits = number.to_string(alloc)?;
    put(file, digits.as_bytes())
}

/// Puts these parts, the digests as `pieces`, and the ends of both dictionaries.
fn put_file(
    alloc: Global,
    file: &mut Vec<u8>,
    before: &[&[u8]],
    digests: &[u8],
) -> Result<(), AllocError> {
    for part in before {
        put(file, part)?;
    }
    put(file, b"6:pieces")?;
    put_number(alloc, file, digests.len())?;
    put(file, b":")?;
    put(file, digests)?;
    put(file, b"ee")
}

/// A file of these parts, with these digests as `pieces` behind them.
fn file_of(alloc: Global, before: &[&[u8]], digests: &[u8]) -> Result<Vec<u8>, AllocError> {
    let mut file = Vec::new(alloc);
    put_file(alloc, &mut file, before, digests)?;
    Ok(file)
}

/// The fault of the bytes, and none of a metainfo file.
fn fault(alloc: Global, file: &[u8]) -> Option<MetaFault> {
    Torrent::read(alloc, file).err()
}

/// The fault that the bytes give, and none of a metainfo file. A call that found no memory is made once more.
fn fault_of(alloc: Global, file: &[u8]) -> Option<MetaFault> {
    match fault(alloc, file) {
        Some(MetaFault::NoMemory) => fault(alloc, file),
        fault => fault,
    }
}

#[test]
fn each_proper_prefix_is_truncated(rt: HostRuntime) -> Result<(), Fail> {
    for file in [SINGLE_FILE, MULTI_FILE] {
        for end in 0..file.len() {
            let fault = fault_of(rt.alloc(), &file[..end]);
            same_for(fault, Some(MetaFault::Bencode(BenFault::Truncated)), end)?;
        }
    }
    Ok(())
}

#[test]
fn files_without_a_part(rt: HostRuntime) -> Result<(), Fail> {
    const ROWS: &[(&[u8], MetaFault)] = &[
        (b"x", MetaFault::Bencode(BenFault::BadByte)),
        (b"dee", MetaFault::Bencode(BenFault::Trailing)),
        (b"le", MetaFault::NotDictionary),
        (b"de", MetaFault::Missing(Key::Info)),
        (b"d4:infolee", MetaFault::WrongKind(Key::Info)),
        (b"d4:infodee", MetaFault::Missing(Key::Name)),
        (b"d4:infod4:namei1eee", MetaFault::WrongKind(Key::Name)),
        (b"d4:infod4:name1:see", MetaFault::Missing(Key::PieceLength)),
        (
            b"d4:infod4:name1:s12:piece length1:3ee",
            MetaFault::WrongKind(Key::PieceLength),
        ),
        (
            b"d4:infod4:name1:s12:piece lengthi0eee",
            MetaFault::PieceLength,
        ),
        (
            b"d4:infod4:name1:s12:piece lengthi3eee",
            MetaFault::Missing(Key::Pieces),
        ),
        (
            b"d4:infod4:name1:s12:piece lengthi3e6:piecesi3eee",
            MetaFault::WrongKind(Key::Pieces),
        ),
    ];
    for &(file, fault) in ROWS {
        same_for(fault_of(rt.alloc(), file), Some(fault), file)?;
    }
    Ok(())
}

#[test]
fn piece_lengths(rt: HostRuntime) -> Result<(), Fail> {
    const ROWS: &[(&[u8], Option<MetaFault>)] = &[
        (b"i-3e", Some(MetaFault::PieceLength)),
        (b"i2147483649e", Some(MetaFault::PieceLength)),
        (b"i2147483648e", None),
        (b"i7e", None),
    ];
    for &(piece_length, fault) in ROWS {
        let before = [
            b"d4:infod6:lengthi7e4:name1:s12:piece length".as_slice(),
            piece_length,
        ];
        let file = file_of(rt.alloc(), &before, &DIGESTS[..20])?;
        same_for(fault_of(rt.alloc(), &file), fault, piece_length)?;
    }
    Ok(())
}

#[test]
fn digests_that_do_not_fit(rt: HostRuntime) -> Result<(), Fail> {
    const ROWS: &[(usize, MetaFault)] = &[
        (59, MetaFault::PiecesLength),
        (0, MetaFault::CountMismatch),
        (40, MetaFault::CountMismatch),
    ];
    const BEFORE: &[&[u8]] = &[b"d4:infod6:lengthi7e4:name1:s12:piece lengthi3e"];
    for &(bytes, fault) in ROWS {
        let file = file_of(rt.alloc(), BEFORE, &DIGESTS[..bytes])?;
        same_for(fault_of(rt.alloc(), &file), Some(fault), bytes)?;
    }
    Ok(())
}

#[test]
fn contents(rt: HostRuntime) -> Result<(), Fail> {
    const ROWS: &[(&[u8], Option<MetaFault>)] = &[
        (b"", Some(MetaFault::NoContent)),
        (b"5:filesle6:lengthi7e", Some(MetaFault::BothLengthAndFiles)),
        (b"6:lengthi0e", Some(MetaFault::NoContent)),
        (b"6:lengthi-7e", Some(MetaFault::WrongKind(Key::Length))),
        (b"6:length1:7", Some(MetaFault::WrongKind(Key::Length))),
        (b"5:filesle", Some(MetaFault::NoContent)),
        (b"5:filesde", Some(MetaFault::WrongKind(Key::Files))),
        (b"5:filesli7ee", Some(MetaFault::WrongKind(Key::Files))),
        (
            b"5:filesld4:pathl1:xeee",
            Some(MetaFault::Missing(Key::Length)),
        ),
        (
            b"5:filesld6:lengthi-7e4:pathl1:xeee",
            Some(MetaFault::WrongKind(Key::Length)),
        ),
        (
            b"5:filesld6:lengthi7eee",
            Some(MetaFault::Missing(Key::Path)),
        ),
        (
            b"5:filesld6:lengthi7e4:path1:xee",
            Some(MetaFault::WrongKind(Key::Path)),
        ),
        (
            b"5:filesld6:lengthi7e4:pathleee",
            Some(MetaFault::WrongKind(Key::Path)),
        ),
        (
            b"5:filesld6:lengthi7e4:pathl1:xi7eeee",
            Some(MetaFault::WrongKind(Key::Path)),
        ),
        (b"6:lengthi12884901886e", Some(MetaFault::TooLarge)),
        (b"6:lengthi12884901885e", Some(MetaFault::CountMismatch)),
        (
            b"5:filesld6:lengthi9223372036854775807e4:pathl1:xeed6:lengthi1e4:pathl1:yeee",
            Some(MetaFault::TooLarge),
        ),
        (
            b"5:filesld6:lengthi9223372036854775807e4:pathl1:xeed6:lengthi1eee",
            Some(MetaFault::Missing(Key::Path)),
        ),
        (
            b"5:filesld6:lengthi0e4:pathl1:xeed6:lengthi7e4:pathl1:y1:zeee",
            None,
        ),
        (b"6:lengthi9e", None),
    ];
    for &(content, fault) in ROWS {
        let before = [
            b"d4:infod".as_slice(),
            content,
            b"4:name1:s12:piece lengthi3e".as_slice(),
        ];
        let file = file_of(rt.alloc(), &before, DIGESTS)?;
        same_for(fault_of(rt.alloc(), &file), fault, content)?;
    }
    Ok(())
}
