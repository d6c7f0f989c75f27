//! What a desk is made for, and what a seat has seen of it, which is a value of the proof alone.

ghost use Rattle.std.specs.Prelude.{◌≡◌, IfOk};
ghost use Rattle.bt_history.specs.Setting.{setting_of};

use bt_history::Event;
use bt_meta::Torrent;
use bt_picker::Rules;
use std::alloc::AllocError;
use std::collections::LinkedList;
use std::marker::Model;
use std::sync::Arc;

/// What a desk is made for. Contracts see it as the setting that its history is judged by.
#[derive(Drop)]
pub struct DeskTerms {
    pub(crate) torrent: Arc<Torrent>,
    pub(crate) workers: u32,
    pub(crate) rules: Rules,
}

impl Model for DeskTerms {
    ghost use Rattle.bt_history.specs.Setting.{Setting, setting_of};

    ghost Value = { Setting };

    ghost view = { λ t. setting_of t.torrent.value.layout t.workers t.rules };
}

impl DeskTerms {
    /// The terms of a desk or a picker that is made for these.
    pub(crate) fn of(
        torrent: &Arc<Torrent>,
        workers: u32,
        rules: Rules,
    ) -> Result<DeskTerms, AllocError>
        ensures { IfOk result (λ terms. terms ≡ setting_of torrent.now.value.layout workers rules) }
    {
        Ok(DeskTerms {
            torrent: torrent.clone()?,
            workers,
            rules,
        })
    }
}

/// A history that was seen, and the workers that have no entries but those in it. No value of it is made.
pub struct Part {
    pub workers: LinkedList<u32>,
    pub seen: LinkedList<Event>,
}

/// What a seat knows. No value of it is made.
pub struct DeskView {
    /// What the desk is made for, unless the seat is spent.
    pub setting: DeskTerms,
    /// It was joined into another.
    pub spent: bool,
    /// It has taken the word.
    pub taken: bool,
    /// It makes the seats of workers, of which `next` is the next.
    pub maker: bool,
    pub next: u32,
    /// What it knows: for which workers it speaks, and which history it has seen.
    pub part: Part,
    /// `part` as it was when the seat last had the word, and behind it what each of the seats knew that were joined into it since.
    pub parts: LinkedList<Part>,
}
