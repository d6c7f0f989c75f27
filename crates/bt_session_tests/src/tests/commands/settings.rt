//! Worked scripts of other rules, and of wanted pieces, as `LINE = REPLY`; the line that sets the rules has no reply.

use super::examples::Example;

/// The SHA-1 of `abc` is a9993e36..., that of `a` is 86f7e437..., and that of a million times `a` is 34aa973c...
pub const SETTINGS: &[Example] = &[
    Example {
        name: "two blocks in the pipe",
        torrent: "torrent 1000000 1000000 1 34aa973cd4c4daa4f61eeb2bdbad27316534016f",
        lines: "rules 2 1\n\
            0 join = joined\n\
            0 bits 80 = noted yes\n\
            0 unchoke = quiet\n\
            0 next 0 = request 0 0 16384\n\
            0 next 0 = request 0 16384 16384\n\
            0 next 0 = pipefull",
    },
    Example {
        name: "the first piece among the rarest",
        torrent: "torrent 3 7 2 a9993e364706816aba3e25717850c26c9cd0d89d a9993e364706816aba3e25717850c26c9cd0d89d 86f7e437faa5a7fce15d1ddcb9eaeaea377667b8",
        lines: "rules 5 0\n\
            0 join = joined\n\
            0 bits e0 = noted yes\n\
            0 unchoke = quiet\n\
            1 join = joined\n\
            1 bits c0 = noted yes\n\
            0 next 1 = request 2 0 1",
    },
    Example {
        name: "the first two pieces at random",
        torrent: "torrent 3 7 2 a9993e364706816aba3e25717850c26c9cd0d89d a9993e364706816aba3e25717850c26c9cd0d89d 86f7e437faa5a7fce15d1ddcb9eaeaea377667b8",
        lines: "rules 5 2\n\
            0 join = joined\n\
            0 bits e0 = noted yes\n\
            1 join = joined\n\
            1 bits 40 = noted yes\n\
            0 unchoke = quiet\n\
            0 next 2 = request 2 0 1\n\
            0 block 2 0 61 = completed\n\
            0 settle 2 = had\n\
            0 next 1 = request 1 0 3",
    },
    Example {
        name: "empty lines round the rules",
        torrent: "torrent 1000000 1000000 1 34aa973cd4c4daa4f61eeb2bdbad27316534016f",
        lines: "\nrules 1 0\n\n\
            0 join = joined\n\
            0 bits 80 = noted yes\n\
            0 unchoke = quiet\n\
            0 next 0 = request 0 0 16384\n\
            0 next 0 = pipefull",
    },
    Example {
        name: "the wanted pieces",
        torrent: "torrent 3 7 2 a9993e364706816aba3e25717850c26c9cd0d89d a9993e364706816aba3e25717850c26c9cd0d89d 86f7e437faa5a7fce15d1ddcb9eaeaea377667b8",
        lines: "1 want 40 = quiet\n\
            0 join = joined\n\
            0 bits e0 = noted yes\n\
            0 unchoke = quiet\n\
            0 next 0 = request 1 0 3\n\
            0 next 0 = idle\n\
            0 want a0 = quiet\n\
            0 next 0 = request 0 0 3\n\
            0 want 00 = quiet\n\
            0 next 0 = nothing\n\
            0 block 1 0 616263 = completed\n\
            0 settle 1 = had\n\
            0 want 40 = quiet\n\
            0 have 2 = noted no",
    },
    Example {
        name: "endgame over the wanted pieces",
        torrent: "torrent 3 6 2 a9993e364706816aba3e25717850c26c9cd0d89d a9993e364706816aba3e25717850c26c9cd0d89d",
        lines: "0 join = joined\n\
            0 bits c0 = noted yes\n\
            0 unchoke = quiet\n\
            1 join = joined\n\
            1 bits c0 = noted yes\n\
            1 unchoke = quiet\n\
            0 next 0 = request 0 0 3\n\
            1 want 80 = quiet\n\
            1 next 0 = request 0 0 3\n\
            1 want c0 = quiet\n\
            0 next 0 = request 1 0 3",
    },
    Example {
        name: "rules, and wanted pieces in capitals",
        torrent: "torrent 3 7 1 a9993e364706816aba3e25717850c26c9cd0d89d a9993e364706816aba3e25717850c26c9cd0d89d 86f7e437faa5a7fce15d1ddcb9eaeaea377667b8",
        lines: "rules 064 03\n\
            0 want A0 = quiet\n\
            0 join = joined\n\
            0 bits E0 = noted yes\n\
            0 unchoke = quiet\n\
            0 next 1 = request 2 0 1\n\
            0 next 1 = request 0 0 3\n\
            0 next 1 = idle",
    },
];
