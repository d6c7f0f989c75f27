//! The tests of `bt_picker`, of `bt_shared` and of the crates below them, in a crate of their own, so that they are checked without proving
//! those again. Here are worked examples as tables of calls and replies, which the audit judges, and scripts that a desk plays. Here are also
//! content that is written, journals of random calls, desks and tickets (`bt_check`) that threads share, logs of calls, and what `gather`
//! answers. In `parts` are those of the crates that know nothing of a history.
#![tactic(auto)]

#[cfg(test)]
mod tests;
