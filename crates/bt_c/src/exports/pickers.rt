//! A picker's beginning and end.
ghost use Rattle.std.specs.Prelude.{◌≡◌, None};
ghost use Rattle.bt_c.specs.Opening.{Opens, described_by, described_in};

use super::tell::tell_done;
use crate::handle::Handle;
use crate::held::Held;
use crate::opening::fill;
use crate::options::Options;
use crate::picker_pointer::PickerPointer;
use std::alloc::Global;

/// The number of this interface. It rises with each change that a caller compiled against an older one can't bear.
const ABI: u32 = 1;

/// The library's version, 1.2.0: 10,000 for its first number, 100 for its second, 1 for its third.
const VERSION: u32 = 10_200;

/// The number of this interface, to be compared with the header's.
#[unsafe(no_mangle)]
pub extern "C" fn piecepick_abi() -> u32
    ensures { result ≡ 1 }
{
    ABI
}

/// The library's version as a number: 10,200 is 1.2.0.
#[unsafe(no_mangle)]
pub extern "C" fn piecepick_version() -> u32
    ensures { result ≡ 10200 }
{
    VERSION
}

/// Makes a picker for the torrent of a metainfo file (BEP 3), by these options.
#[unsafe(no_mangle)]
pub extern "C" fn piecepick_open(
    alloc: Global,
    picker: &mut PickerPointer,
    metainfo: &[u8],
    options: &Options,
) -> u32
    ensures { Opens (described_in metainfo.now) options.now picker.old.picker picker.new.picker result }
{
    let opened = Held::open(alloc, metainfo, *options);
    tell_done(fill(alloc, picker, opened))
}

/// The same for the torrent of these parts: the length of a piece and that of the content in bytes, and the SHA-1 of each piece in order.
#[unsafe(no_mangle)]
pub extern "C" fn piecepick_open_parts(
    alloc: Global,
    picker: &mut PickerPointer,
    piece_length: u32,
    total: u64,
    digests: &[u8],
    options: &Options,
) -> u32
    ensures { Opens (described_by piece_length total digests.now) options.now picker.old.picker picker.new.picker result }
{
    let opened = Held::open_parts(alloc, piece_length, total, digests, *options);
    tell_done(fill(alloc, picker, opened))
}

/// Frees the picker, if there is one; the pointer is NULL then.
#[unsafe(no_mangle)]
pub extern "C" fn piecepick_close(alloc: Global, picker: &mut PickerPointer)
    ensures { picker.new.picker ≡ None }
{
    drop(picker.take(alloc));
}
