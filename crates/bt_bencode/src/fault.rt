//! Why bytes are no bencoding.

ghost use Rattle.std.specs.Prelude.{◌≡◌};
ghost use Rattle.bt_bencode.specs.declared.fault.BenFault.TheVariants.{NoMemory};

use std::alloc::{AllocError, AllocFailed};
use thiserror::Error;

/// Why bytes are no bencode, or why a tree can't be made. `fault as u8` is its number.
#[derive(Clone, Copy, Debug, PartialEq, Eq, Error)]
pub enum BenFault {
    #[error("the bytes end inside a value")]
    Truncated = 1,
    #[error("an integer isn't `i`, a plain number in base ten, `e`")]
    BadInteger = 2,
    #[error("an integer is out of the range of 64 bits")]
    IntegerRange = 3,
    #[error("a length has a leading zero or no colon behind it")]
    BadLength = 4,
    #[error("a key comes too late in the order of keys")]
    KeyOrder = 5,
    #[error("a key isn't a string")]
    KeyKind = 6,
    #[error("more than 64 lists and dictionaries stand inside one another")]
    TooDeep = 7,
    #[error("bytes stand behind the value")]
    Trailing = 8,
    #[error("no value begins with this byte")]
    BadByte = 9,
    #[error("out of memory")]
    NoMemory = 10,
}

impl From<AllocError> for BenFault {
    ghost from_gives = { λ _ e. e ≡ NoMemory };

    fn from(_e: AllocError) -> BenFault {
        BenFault::NoMemory
    }
}

impl<T: Drop> From<AllocFailed<T>> for BenFault {
    ghost from_gives = { λ _ e. e ≡ NoMemory };

    fn from(_e: AllocFailed<T>) -> BenFault {
        BenFault::NoMemory
    }
}
