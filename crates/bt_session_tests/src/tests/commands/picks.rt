//! Worked scripts of what is picked where the rules leave a choice, as `LINE = REPLY`: the oldest cancel that is due; the least piece and
//! then its least block, of begun pieces and in endgame; a piece to begin by the word, among the rarest alone once a piece is had.

use super::examples::Example;

/// The SHA-1 of `abc` is a9993e36..., that of `a` is 86f7e437...
pub const PICKS: &[Example] = &[
    // The cancel of piece 1 came due first, though piece 0 is less and was requested before it.
    Example {
        name: "the oldest cancel first",
        torrent: "torrent 3 6 2 a9993e364706816aba3e25717850c26c9cd0d89d a9993e364706816aba3e25717850c26c9cd0d89d",
        lines: "0 join = joined\n\
            0 bits c0 = noted yes\n\
            0 unchoke = quiet\n\
            1 join = joined\n\
            1 bits c0 = noted yes\n\
            1 unchoke = quiet\n\
            0 next 0 = request 0 0 3\n\
            0 next 0 = request 1 0 3\n\
            1 next 0 = request 0 0 3\n\
            1 next 0 = request 1 0 3\n\
            0 block 1 0 616263 = completed\n\
            0 block 0 0 616263 = completed\n\
            1 next 0 = cancel 1 0 3\n\
            1 next 0 = cancel 0 0 3\n\
            1 next 0 = idle",
    },
    // Piece 1 is begun before piece 0, and the word is 1 all along.
    Example {
        name: "the least begun piece, then its least block",
        torrent: "torrent 49152 98304 3 a9993e364706816aba3e25717850c26c9cd0d89d a9993e364706816aba3e25717850c26c9cd0d89d",
        lines: "0 join = joined\n\
            0 bits 40 = noted yes\n\
            0 unchoke = quiet\n\
            0 next 1 = request 1 0 16384\n\
            1 join = joined\n\
            1 bits 80 = noted yes\n\
            1 unchoke = quiet\n\
            1 next 1 = request 0 0 16384\n\
            2 join = joined\n\
            2 bits c0 = noted yes\n\
            2 unchoke = quiet\n\
            2 next 1 = request 0 16384 16384\n\
            2 next 1 = request 0 32768 16384\n\
            2 next 1 = request 1 16384 16384\n\
            1 choke = quiet\n\
            2 next 1 = request 0 0 16384\n\
            2 next 1 = request 1 32768 16384\n\
            2 next 1 = pipefull",
    },
    // The first peer was asked for piece 1 before piece 0, and the word is 1 all along.
    Example {
        name: "in endgame the least piece, then its least block",
        torrent: "torrent 16385 32770 2 a9993e364706816aba3e25717850c26c9cd0d89d a9993e364706816aba3e25717850c26c9cd0d89d",
        lines: "0 join = joined\n\
            0 bits c0 = noted yes\n\
            0 unchoke = quiet\n\
            0 next 1 = request 1 0 16384\n\
            0 next 1 = request 1 16384 1\n\
            0 next 1 = request 0 0 16384\n\
            0 next 1 = request 0 16384 1\n\
            1 join = joined\n\
            1 bits c0 = noted yes\n\
            1 unchoke = quiet\n\
            1 next 1 = request 0 0 16384\n\
            1 next 1 = request 0 16384 1\n\
            1 next 1 = request 1 0 16384\n\
            0 block 1 16384 61 = stored\n\
            1 next 1 = idle",
    },
    // From piece 1 on, which the peer lacks, to piece 2.
    Example {
        name: "the next piece that is shown",
        torrent: "torrent 3 7 1 a9993e364706816aba3e25717850c26c9cd0d89d a9993e364706816aba3e25717850c26c9cd0d89d 86f7e437faa5a7fce15d1ddcb9eaeaea377667b8",
        lines: "0 join = joined\n\
            0 bits a0 = noted yes\n\
            0 unchoke = quiet\n\
            0 next 1 = request 2 0 1",
    },
    // From piece 2 on, which the peer lacks, round the end to piece 0.
    Example {
        name: "round the end",
        torrent: "torrent 3 7 1 a9993e364706816aba3e25717850c26c9cd0d89d a9993e364706816aba3e25717850c26c9cd0d89d 86f7e437faa5a7fce15d1ddcb9eaeaea377667b8",
        lines: "0 join = joined\n\
            0 bits c0 = noted yes\n\
            0 unchoke = quiet\n\
            0 next 2 = request 0 0 3",
    },
    // Four pieces are begun, so three are looked at from piece 2 on: 2, 3 and 4, which are begun. Piece 5 is behind them.
    Example {
        name: "behind the pieces that are looked at first",
        torrent: "torrent 3 21 1 a9993e364706816aba3e25717850c26c9cd0d89d a9993e364706816aba3e25717850c26c9cd0d89d a9993e364706816aba3e25717850c26c9cd0d89d a9993e364706816aba3e25717850c26c9cd0d89d a9993e364706816aba3e25717850c26c9cd0d89d a9993e364706816aba3e25717850c26c9cd0d89d a9993e364706816aba3e25717850c26c9cd0d89d",
        lines: "0 join = joined\n\
            0 bits fe = noted yes\n\
            0 unchoke = quiet\n\
            0 next 3 = request 3 0 3\n\
            0 next 2 = request 2 0 3\n\
            0 next 3 = request 4 0 3\n\
            0 next 0 = request 0 0 3\n\
            0 next 2 = request 5 0 3\n\
            0 next 1 = pipefull",
    },
    // The same, but the peer has neither piece 5 nor piece 6, so the round goes on to piece 1.
    Example {
        name: "behind them round the end",
        torrent: "torrent 3 21 1 a9993e364706816aba3e25717850c26c9cd0d89d a9993e364706816aba3e25717850c26c9cd0d89d a9993e364706816aba3e25717850c26c9cd0d89d a9993e364706816aba3e25717850c26c9cd0d89d a9993e364706816aba3e25717850c26c9cd0d89d a9993e364706816aba3e25717850c26c9cd0d89d a9993e364706816aba3e25717850c26c9cd0d89d",
        lines: "0 join = joined\n\
            0 bits f8 = noted yes\n\
            0 unchoke = quiet\n\
            0 next 3 = request 3 0 3\n\
            0 next 2 = request 2 0 3\n\
            0 next 3 = request 4 0 3\n\
            0 next 0 = request 0 0 3\n\
            0 next 2 = request 1 0 3",
    },
    // Two pieces are left, 3 and 4. From piece 5 on 5 and 6 are looked at, and then 0 and 1, which are begun.
    Example {
        name: "behind those that are looked at round the end",
        torrent: "torrent 3 21 2 a9993e364706816aba3e25717850c26c9cd0d89d a9993e364706816aba3e25717850c26c9cd0d89d a9993e364706816aba3e25717850c26c9cd0d89d a9993e364706816aba3e25717850c26c9cd0d89d a9993e364706816aba3e25717850c26c9cd0d89d a9993e364706816aba3e25717850c26c9cd0d89d a9993e364706816aba3e25717850c26c9cd0d89d",
        lines: "0 join = joined\n\
            0 bits fe = noted yes\n\
            0 unchoke = quiet\n\
            0 next 5 = request 5 0 3\n\
            0 next 6 = request 6 0 3\n\
            0 next 0 = request 0 0 3\n\
            0 next 1 = request 1 0 3\n\
            0 next 2 = request 2 0 3\n\
            1 join = joined\n\
            1 bits fe = noted yes\n\
            1 unchoke = quiet\n\
            1 next 5 = request 3 0 3",
    },
    // Pieces 1 and 4 are the rarest. Of all that are shown 2 and then 5 would come first by the word; the last word is 2 to the 32nd and
    // 2, which is 6 in sevens.
    Example {
        name: "the word among the rarest",
        torrent: "torrent 1 7 2 86f7e437faa5a7fce15d1ddcb9eaeaea377667b8 86f7e437faa5a7fce15d1ddcb9eaeaea377667b8 86f7e437faa5a7fce15d1ddcb9eaeaea377667b8 86f7e437faa5a7fce15d1ddcb9eaeaea377667b8 86f7e437faa5a7fce15d1ddcb9eaeaea377667b8 86f7e437faa5a7fce15d1ddcb9eaeaea377667b8 86f7e437faa5a7fce15d1ddcb9eaeaea377667b8",
        lines: "0 join = joined\n\
            0 bits fe = noted yes\n\
            1 join = joined\n\
            1 bits b4 = noted yes\n\
            0 block 6 0 61 = completed\n\
            0 settle 6 = had\n\
            0 unchoke = quiet\n\
            0 next 2 = request 4 0 1\n\
            0 choke = quiet\n\
            0 unchoke = quiet\n\
            0 next 5 = request 1 0 1\n\
            0 choke = quiet\n\
            0 unchoke = quiet\n\
            0 next 1 = request 1 0 1\n\
            0 choke = quiet\n\
            0 unchoke = quiet\n\
            0 next 4294967298 = request 1 0 1",
    },
];
