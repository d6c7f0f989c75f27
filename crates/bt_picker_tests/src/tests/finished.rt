//! In which order a desk lists what is asked of a peer, and what is had.
use super::calls::plays;
use std::test::*;

/// A piece is listed once its check has passed, behind those whose check passed before; a failed one isn't.
#[test]
fn pieces_as_they_are_had(rt: HostRuntime) -> Result<(), Fail> {
    plays(
        &rt,
        rt.alloc(),
        "0 join = joined\n\
        finished = 0\n\
        0 block 2 0 a = completed\n\
        finished = 0\n\
        check 0 2 = had\n\
        finished = 1\n\
        finished 0 = 2\n\
        0 block 0 0 abd = completed\n\
        0 block 1 0 abc = completed\n\
        check 0 0 = failed\n\
        finished = 1\n\
        check 0 1 = had\n\
        0 block 0 0 abc = completed\n\
        check 0 0 = had\n\
        finished = 3\n\
        finished 0 = 2\n\
        finished 1 = 1\n\
        finished 2 = 0",
    )
}

/// The block that was asked for first stands in front, until it comes; those behind it keep their order.
#[test]
fn requests_oldest_first(rt: HostRuntime) -> Result<(), Fail> {
    plays(
        &rt,
        rt.alloc(),
        "0 join = joined\n\
        0 bits e0 = noted yes\n\
        0 unchoke = quiet\n\
        0 next 5 = request 2 0 1\n\
        oldest 0 = 2\n\
        0 next 0 = request 0 0 3\n\
        0 next 0 = request 1 0 3\n\
        oldest 0 = 2\n\
        newest 0 = 1\n\
        0 block 0 0 abc = completed\n\
        oldest 0 = 2\n\
        newest 0 = 1\n\
        0 block 2 0 a = completed\n\
        oldest 0 = 1",
    )
}
