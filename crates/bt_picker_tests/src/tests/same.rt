//! What tests compare, in one function: an assertion that prints what it compares is long code, which so is proved once.

use std::fmt::Debug;
use std::process::Abort;

/// Checks that what was found is what is wanted, in this case.
pub fn same<T: PartialEq + Debug + Copy>(rt: &impl Abort, found: T, wanted: T, case: &str) {
    assert_eq!(rt; found, wanted, "{case}");
}
