//! How a swarm stands: the unbegun pieces that no, one and two peers show, by level, and how many blocks are yet to be asked.
use super::calls::plays;
use std::test::*;

#[test]
fn as_pieces_begin(rt: HostRuntime) -> Result<(), Fail> {
    plays(
        &rt,
        rt.alloc(),
        "0 join = joined\n\
        0 bits e0 = noted yes\n\
        1 join = joined\n\
        1 bits 40 = noted yes\n\
        shown-by 0 = none\n\
        shown-by 1 = 0 2\n\
        shown-by 2 = 1\n\
        unasked = 3\n\
        0 unchoke = quiet\n\
        0 next 2 = request 2 0 1\n\
        shown-by 0 = none\n\
        shown-by 1 = 0\n\
        shown-by 2 = 1\n\
        unasked = 2\n\
        0 block 2 0 a = completed\n\
        check 0 2 = had\n\
        0 next 1 = request 0 0 3\n\
        shown-by 0 = none\n\
        shown-by 1 = none\n\
        shown-by 2 = 1\n\
        unasked = 1",
    )
}

#[test]
fn as_a_peer_leaves(rt: HostRuntime) -> Result<(), Fail> {
    plays(
        &rt,
        rt.alloc(),
        "0 join = joined\n\
        0 bits e0 = noted yes\n\
        1 join = joined\n\
        1 bits 80 = noted yes\n\
        2 join = joined\n\
        2 bits 40 = noted yes\n\
        shown-by 0 = none\n\
        shown-by 1 = 2\n\
        shown-by 2 = 0 1\n\
        unasked = 3\n\
        1 leave = quiet\n\
        shown-by 0 = none\n\
        shown-by 1 = 0 2\n\
        shown-by 2 = 1\n\
        unasked = 3",
    )
}

#[test]
fn as_pieces_are_wanted(rt: HostRuntime) -> Result<(), Fail> {
    plays(
        &rt,
        rt.alloc(),
        "0 join = joined\n\
        0 bits e0 = noted yes\n\
        3 want 40 = quiet\n\
        shown-by 0 = none\n\
        shown-by 1 = 1\n\
        shown-by 2 = none\n\
        unasked = 1\n\
        3 want a0 = quiet\n\
        shown-by 0 = none\n\
        shown-by 1 = 0 2\n\
        shown-by 2 = none\n\
        unasked = 2",
    )
}

/// Worker 3 has no peer, and tells levels and an order all the same.
#[test]
fn as_levels_are_told(rt: HostRuntime) -> Result<(), Fail> {
    plays(
        &rt,
        rt.alloc(),
        "0 join = joined\n\
        0 bits e0 = noted yes\n\
        level 0 = 4\n\
        in-order = no\n\
        3 levels 704 = quiet\n\
        level 0 = 7\n\
        level 1 = 0\n\
        wanted = 0 2\n\
        shown-by 1 = 2\n\
        raised-shown-by 1 = 0\n\
        unasked = 2\n\
        3 level 1 7 = quiet\n\
        3 level 1 8 = refused WrongLevel\n\
        3 inorder yes = quiet\n\
        in-order = yes\n\
        raised-shown-by 1 = 0 1\n\
        0 unchoke = quiet\n\
        0 next 5 = request 0 0 3\n\
        raised-shown-by 1 = 1\n\
        0 next 5 = request 1 0 3\n\
        raised-shown-by 1 = none\n\
        0 next 5 = request 2 0 1\n\
        unasked = 0",
    )
}
