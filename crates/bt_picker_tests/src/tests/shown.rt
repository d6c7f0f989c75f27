//! What a desk of three pieces shows.

/// What is answered to a question.
#[derive(Clone, Copy)]
pub enum Shown {
    Word(&'static str),
    Count(u64),
}

pub fn yes_or_no(is_so: bool) -> Shown {
    Shown::Word(if is_so { "yes" } else { "no" })
}

/// How many flags are set.
pub fn count(flags: [bool; 3]) -> usize {
    let [first, second, third] = flags;
    usize::from(first) + usize::from(second) + usize::from(third)
}

/// The pieces whose flags are set, in their order, or `none`.
pub fn pieces(flags: [bool; 3]) -> Shown {
    Shown::Word(match flags {
        [false, false, false] => "none",
        [false, false, true] => "2",
        [false, true, false] => "1",
        [false, true, true] => "1 2",
        [true, false, false] => "0",
        [true, false, true] => "0 2",
        [true, true, false] => "0 1",
        [true, true, true] => "0 1 2",
    })
}
