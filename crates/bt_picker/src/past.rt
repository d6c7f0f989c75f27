//! The entries so far, in proofs alone: what a picker was told and answered, which no memory keeps.
ghost use Rattle.std.specs.Prelude.{◌≡◌, [], List};
ghost use Rattle.std.specs.Borrow.{ftrue};
ghost use Rattle.bt_history.specs.declared.event.Event.{Event};

use crate::told::Told;
use crate::unseen::Unseen;
use bt_check::Verdict;
use bt_history::Reply;
use bt_meta::Torrent;
use std::marker::Model;

/// A history that only proofs read, the newest entry first. It takes no memory, and its methods do nothing at run time.
#[derive(Drop)]
pub struct Past {
    pub ghost entries: { List Event },
}

impl Model for Past {
    ghost also_owns = { λ _. ftrue };
}

// It owns nothing.
unsafe impl Send for Past {}

/// One entry more.
#[derive(Clone, Copy, Drop)]
pub enum Note<'a> {
    /// What the worker told, with its reply.
    Told(u32, &'a Told<'a>, Reply),
    /// The worker's check by a verdict, with its reply.
    Checked(u32, &'a Verdict, Reply),
    /// The worker's block came, whose bytes the caller has, with its reply.
    Received {
        worker: u32,
        piece: u32,
        begin: u32,
        bytes: &'a Unseen,
        reply: Reply,
    },
    /// A check of the bytes that are held of the piece.
    Settled {
        worker: u32,
        piece: u32,
        torrent: &'a Torrent,
        reply: Reply,
    },
}

impl Past {
    ghost use Rattle.bt_picker.specs.Noted.{noted};

    /// No entry.
    pub fn new() -> Past
        ensures { result.entries ≡ [] }
    {
        Past {}
    }

    /// With this entry too.
    #[inline(always)]
    pub fn then(&self, _note: &Note<'_>) -> Past
        ensures { result.entries ≡ noted self.now.entries _note.now }
    {
        Past {}
    }
}
