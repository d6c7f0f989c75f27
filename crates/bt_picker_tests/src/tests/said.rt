//! What a worker tells, as rows of constant tables spell it.

use bt_picker::Told;

/// A call. Numbers that aren't spelled are 0.
#[derive(Clone, Copy)]
pub enum Said {
    Join,
    Have(u32),
    Unchoke,
    Choke,
    Next,
    /// A piece, where the block begins, and its bytes.
    Arrived(u32, u32, &'static [u8]),
    Discard(u32),
    /// Where the block of piece 0 begins.
    Requested(u32),
    Lose(u32),
    Level(u32, u8),
    InOrder(bool),
}

pub fn told_of(said: Said) -> Told<'static> {
    match said {
        Said::Join => Told::Join,
        Said::Have(piece) => Told::Have(piece),
        Said::Unchoke => Told::Unchoke,
        Said::Choke => Told::Choke,
        Said::Next => Told::Next(0),
        Said::Arrived(piece, begin, bytes) => Told::Arrived {
            piece,
            begin,
            bytes,
        },
        Said::Discard(piece) => Told::Discard { piece, begin: 0 },
        Said::Requested(begin) => Told::Requested { piece: 0, begin },
        Said::Lose(piece) => Told::Lose(piece),
        Said::Level(piece, level) => Told::Level { piece, level },
        Said::InOrder(rises) => Told::InOrder(rises),
    }
}
