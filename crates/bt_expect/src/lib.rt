//! What tests expect, as functions: a check that prints what it compares is long code, which so is proved here once and not where it stands.
#![tactic(auto)]

ghost use Rattle.std.specs.Prelude.{◌≡◌, is_ok};

use std::fmt;
use std::test::Fail;

/// Whether a test found what is wanted; else why it fails, with both.
pub fn same<T: PartialEq + fmt::Debug + Copy>(found: T, wanted: T) -> Result<(), Fail>
    ensures { is_ok result ≡ T.eq found wanted }
{
    if found != wanted {
        return Err(Fail::new(format_args!("found {found:?}, wanted {wanted:?}")));
    }
    Ok(())
}

/// The same for a row of a table, whose case is told too.
pub fn same_for<T: PartialEq + fmt::Debug + Copy, C: fmt::Debug + Copy>(
    found: T,
    wanted: T,
    case: C,
) -> Result<(), Fail>
    ensures { is_ok result ≡ T.eq found wanted }
{
    if found == wanted {
        return Ok(());
    }
    Err(Fail::new(format_args!("at {case:?}: found {found:?}, wanted {wanted:?}")))
}
