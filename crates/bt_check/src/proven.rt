//! A piece whose bytes have its hash.

ghost use Rattle.std.specs.Prelude.{◌≡◌, IfOk, IfErr};
ghost use Rattle.std.specs.Arc.{arc_value};
ghost use Rattle.bt_check.specs.Checked.{Fits};

use crate::job::Verdict;
use bt_meta::Torrent;
use std::alloc::Global;
use std::marker::Model;
use std::sync::Arc;

/// A verdict of a torrent's piece, with the digest that the torrent's metainfo file has for it (BEP 3, "pieces").
///
/// Contracts see the piece and the blocks that were hashed.
pub struct Proven {
    verdict: Arc<Verdict, Global>,
}

/// The end of a proven piece is one call for whoever owns one.
impl Drop for Proven {
    fn drop(self) {
        let Proven { verdict: _verdict } = self;
    }
}

impl Model for Proven {
    ghost use Rattle.std.specs.Arc.{arc_value};
    ghost use Rattle.bt_check.specs.Checked.{Checked};

    ghost Value = { Checked };

    ghost view = { λ p. arc_value p.verdict };
}

impl Proven {
    /// Hands the verdict back where its piece is none of the torrent's, or has another hash. Takes no memory.
    pub fn of(
        verdict: Arc<Verdict, Global>,
        torrent: &Torrent,
    ) -> Result<Proven, Arc<Verdict, Global>>
        ensures ok { IfOk result (λ proven. (proven ≡ arc_value verdict) × Fits torrent.now.layout (arc_value verdict)) }
        ensures err { IfErr result (λ back. (back ≡ verdict) × ¬ Fits torrent.now.layout (arc_value verdict)) }
    {
        let piece = verdict.piece();
        if piece < torrent.piece_count() && verdict.digest() == torrent.hash(piece) {
            Ok(Proven { verdict })
        } else {
            Err(verdict)
        }
    }

    pub fn piece(&self) -> u32
        ensures { result ≡ self.now.piece }
    {
        self.verdict.piece()
    }
}
