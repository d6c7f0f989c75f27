//! Worked scripts: the first line, and each line behind it with its reply, as `LINE = REPLY`. Every reply is in one of them; what the rules
//! make of other histories stands in the list of worked examples that `tools/examples.py` writes.

/// A worked script.
#[derive(Clone, Copy)]
pub struct Example {
    pub name: &'static str,
    pub torrent: &'static str,
    pub lines: &'static str,
}

/// The SHA-1 of `abc` is a9993e36..., that of `a` is 86f7e437..., and that of a million times `a` is 34aa973c...
pub const EXAMPLES: &[Example] = &[
    Example {
        name: "the word picks the first piece",
        torrent: "torrent 3 7 1 a9993e364706816aba3e25717850c26c9cd0d89d a9993e364706816aba3e25717850c26c9cd0d89d 86f7e437faa5a7fce15d1ddcb9eaeaea377667b8",
        lines: "0 join = joined\n\
            0 bits e0 = noted yes\n\
            0 unchoke = quiet\n\
            0 next 5 = request 2 0 1",
    },
    Example {
        name: "one peer to the last piece",
        torrent: "torrent 3 7 1 a9993e364706816aba3e25717850c26c9cd0d89d a9993e364706816aba3e25717850c26c9cd0d89d 86f7e437faa5a7fce15d1ddcb9eaeaea377667b8",
        lines: "0 join = joined\n\
            0 bits e0 = noted yes\n\
            0 unchoke = quiet\n\
            0 next 5 = request 2 0 1\n\
            0 next 0 = request 0 0 3\n\
            0 next 0 = request 1 0 3\n\
            0 next 0 = idle\n\
            0 block 2 0 61 = completed\n\
            0 settle 2 = had\n\
            0 block 0 0 616263 = completed\n\
            0 settle 0 = had\n\
            0 block 1 0 616263 = completed\n\
            0 settle 1 = had\n\
            0 next 0 = nothing",
    },
    Example {
        name: "endgame and a cancel",
        torrent: "torrent 3 3 2 a9993e364706816aba3e25717850c26c9cd0d89d",
        lines: "0 join = joined\n\
            0 bits 80 = noted yes\n\
            0 unchoke = quiet\n\
            1 join = joined\n\
            1 bits 80 = noted yes\n\
            1 unchoke = quiet\n\
            0 next 0 = request 0 0 3\n\
            1 next 0 = request 0 0 3\n\
            0 block 0 0 616263 = completed\n\
            1 next 0 = cancel 0 0 3\n\
            1 next 0 = idle\n\
            0 settle 0 = had\n\
            1 next 0 = nothing\n\
            1 block 0 0 616263 = dropped",
    },
    Example {
        name: "a check that fails",
        torrent: "torrent 3 7 1 a9993e364706816aba3e25717850c26c9cd0d89d a9993e364706816aba3e25717850c26c9cd0d89d 86f7e437faa5a7fce15d1ddcb9eaeaea377667b8",
        lines: "0 join = joined\n\
            0 bits e0 = noted yes\n\
            0 unchoke = quiet\n\
            0 next 0 = request 0 0 3\n\
            0 block 0 0 616264 = completed\n\
            0 settle 0 = failed\n\
            0 next 0 = request 0 0 3\n\
            0 settle 0 = refused 8",
    },
    Example {
        name: "a block that came twice",
        torrent: "torrent 3 7 1 a9993e364706816aba3e25717850c26c9cd0d89d a9993e364706816aba3e25717850c26c9cd0d89d 86f7e437faa5a7fce15d1ddcb9eaeaea377667b8",
        lines: "0 join = joined\n\
            0 block 2 0 61 = completed\n\
            0 block 2 0 61 = dropped",
    },
    Example {
        name: "each refusal",
        torrent: "torrent 3 7 2 a9993e364706816aba3e25717850c26c9cd0d89d a9993e364706816aba3e25717850c26c9cd0d89d 86f7e437faa5a7fce15d1ddcb9eaeaea377667b8",
        lines: "0 leave = refused 1\n\
            1 block 9 9 61 = refused 1\n\
            0 join = joined\n\
            0 join = refused 2\n\
            0 have 0 = noted yes\n\
            0 bits e0 = refused 3\n\
            0 have 3 = refused 5\n\
            0 block 3 1 61 = refused 5\n\
            0 block 0 1 6263 = refused 6\n\
            0 block 0 0 6162 = refused 7\n\
            0 settle 0 = refused 8\n\
            0 settle 3 = refused 5\n\
            0 leave = quiet\n\
            0 join = joined\n\
            0 bits e0 = noted yes\n\
            1 join = joined\n\
            1 bits 00 = noted no\n\
            1 unchoke = quiet\n\
            1 next 0 = nothing",
    },
    Example {
        name: "leading zeros, capitals in hexadecimal, a piece number beyond the torrent",
        torrent: "torrent 0003 07 01 A9993E364706816ABA3E25717850C26C9CD0D89D a9993e364706816aba3e25717850c26c9cd0d89d 86F7E437FAA5A7FCE15D1DDCB9EAEAEA377667B8",
        lines: "00 join = joined\n\
            0000000000000000000000000000000 bits E0 = noted yes\n\
            0 have 4294967295 = refused 5\n\
            0 next 18446744073709551615 = choked\n\
            0 unchoke = quiet\n\
            0 next 000000000000000000005 = request 2 0 1\n\
            0 block 2 0 6A = completed\n\
            0 settle 2 = failed",
    },
    Example {
        name: "a block that is given up",
        torrent: "torrent 3 6 2 a9993e364706816aba3e25717850c26c9cd0d89d a9993e364706816aba3e25717850c26c9cd0d89d",
        lines: "0 join = joined\n\
            0 bits c0 = noted yes\n\
            0 unchoke = quiet\n\
            1 join = joined\n\
            1 bits 80 = noted yes\n\
            1 unchoke = quiet\n\
            0 next 0 = request 0 0 3\n\
            1 next 0 = idle\n\
            1 release 0 0 = refused 10\n\
            0 release 0 0 = quiet\n\
            1 next 0 = request 0 0 3\n\
            0 release 0 0 = refused 10\n\
            0 block 0 0 616263 = completed\n\
            1 next 0 = cancel 0 0 3",
    },
    Example {
        name: "a request that takes too long",
        torrent: "torrent 3 6 2 a9993e364706816aba3e25717850c26c9cd0d89d a9993e364706816aba3e25717850c26c9cd0d89d",
        lines: "0 join = joined\n\
            0 bits c0 = noted yes\n\
            0 unchoke = quiet\n\
            1 join = joined\n\
            1 bits 80 = noted yes\n\
            1 unchoke = quiet\n\
            0 next 0 = request 0 0 3\n\
            1 next 0 = idle\n\
            1 late 0 0 = refused 10\n\
            0 late 0 0 = quiet\n\
            1 next 0 = request 0 0 3\n\
            0 late 0 0 = quiet\n\
            0 next 0 = request 1 0 3\n\
            1 block 0 0 616263 = completed\n\
            0 next 0 = cancel 0 0 3\n\
            0 late 0 0 = refused 10",
    },
    Example {
        name: "a peer that works alone, and then like the others",
        torrent: "torrent 32768 65536 2 a9993e364706816aba3e25717850c26c9cd0d89d a9993e364706816aba3e25717850c26c9cd0d89d",
        lines: "1 alone yes = refused 1\n\
            0 join = joined\n\
            0 bits c0 = noted yes\n\
            0 unchoke = quiet\n\
            1 join = joined\n\
            1 alone yes = quiet\n\
            1 bits c0 = noted yes\n\
            1 unchoke = quiet\n\
            1 next 0 = request 0 0 16384\n\
            0 next 0 = request 1 0 16384\n\
            0 next 0 = request 1 16384 16384\n\
            0 next 0 = idle\n\
            1 alone no = quiet\n\
            0 next 0 = request 0 16384 16384\n\
            1 leave = quiet\n\
            1 alone no = refused 1",
    },
    Example {
        name: "a depth of one peer",
        torrent: "torrent 1000000 1000000 2 34aa973cd4c4daa4f61eeb2bdbad27316534016f",
        lines: "0 depth 2 = refused 1\n\
            0 join = joined\n\
            0 bits 80 = noted yes\n\
            0 unchoke = quiet\n\
            0 depth 2 = quiet\n\
            0 next 0 = request 0 0 16384\n\
            0 next 0 = request 0 16384 16384\n\
            0 next 0 = pipefull\n\
            0 depth 3 = quiet\n\
            0 next 0 = request 0 32768 16384\n\
            0 next 0 = pipefull\n\
            0 depth 1 = quiet\n\
            0 release 0 0 = quiet\n\
            0 release 0 32768 = quiet\n\
            0 next 0 = pipefull\n\
            0 release 0 16384 = quiet\n\
            0 next 0 = request 0 0 16384\n\
            0 depth 0 = refused 11\n\
            0 depth 65 = refused 11\n\
            0 depth 64 = quiet",
    },
    Example {
        name: "more pieces at any time",
        torrent: "torrent 3 7 1 a9993e364706816aba3e25717850c26c9cd0d89d a9993e364706816aba3e25717850c26c9cd0d89d 86f7e437faa5a7fce15d1ddcb9eaeaea377667b8",
        lines: "0 haves 80 = refused 1\n\
            0 join = joined\n\
            0 haves 00 = noted no\n\
            0 bits e0 = refused 3\n\
            0 unchoke = quiet\n\
            0 next 0 = nothing\n\
            0 haves 80 = noted yes\n\
            0 next 0 = request 0 0 3\n\
            0 haves 40 = noted yes\n\
            0 next 0 = request 1 0 3\n\
            0 haves 00 = noted yes\n\
            0 next 0 = idle",
    },
    Example {
        name: "levels, and pieces in order",
        torrent: "torrent 3 12 2 a9993e364706816aba3e25717850c26c9cd0d89d a9993e364706816aba3e25717850c26c9cd0d89d a9993e364706816aba3e25717850c26c9cd0d89d a9993e364706816aba3e25717850c26c9cd0d89d",
        lines: "1 levels 1474 = quiet\n\
            1 inorder yes = quiet\n\
            0 join = joined\n\
            0 bits f0 = noted yes\n\
            0 unchoke = quiet\n\
            0 next 0 = request 2 0 3\n\
            0 next 0 = request 1 0 3\n\
            0 level 4 1 = refused 5\n\
            0 level 0 8 = refused 12\n\
            0 level 3 0 = quiet\n\
            0 next 0 = request 0 0 3\n\
            0 next 0 = idle\n\
            0 levels 4444 = quiet\n\
            0 levels 444 = refused 4\n\
            0 inorder no = quiet\n\
            0 next 0 = request 3 0 3",
    },
    Example {
        name: "the last of the most workers",
        torrent: "torrent 3 3 1024 a9993e364706816aba3e25717850c26c9cd0d89d",
        lines: "1023 join = joined",
    },
];
