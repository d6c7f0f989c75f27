//! The tests of `bt_peer`, `bt_session`, `bt_text` and `bt_cli`, in a crate of their own, so that they are checked without proving those
//! again.
#![tactic(auto)]

#[cfg(test)]
mod tests;
