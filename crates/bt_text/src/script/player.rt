//! A desk that is played by lines of a script.

ghost use Rattle.std.specs.Prelude.{◌≡◌, ◌<◌, ◌≤◌, [], IfOk, IfErr};
ghost use Rattle.bt_meta.specs.Layout.{piece_count};
ghost use Rattle.bt_text.specs.Scripts.{CanBeDone, IsOfTorrent, Judges};
ghost use Rattle.bt_text.specs.Lines.{seen_command};

use super::{Command, Line, LineFault, Setup};
use bt_meta::Bitfield;
use bt_picker::{Call, Desk, MOST_WORKERS, Reply, Rules};
use std::alloc::{AllocError, Global};
use std::sync::Arc;

/// The desk of a script, with what its lines are judged by.
pub struct Player {
    desk: Desk,
    workers: u32,
    pieces: u32,
    ghost same_workers: { workers ≡ desk.setting.workers },
    ghost same_pieces: { pieces ≡ piece_count desk.setting.torrent },
}

/// The end of a player is one call for whoever owns one.
impl Drop for Player {
    fn drop(self) {
        let Player {
            desk: _desk,
            workers: _,
            pieces: _,
        } = self;
    }
}

impl Player {
    ghost use Rattle.bt_history.specs.Entries.{event};
    ghost use Rattle.bt_history.specs.Setting.{AreRules, setting_of};
    ghost use Rattle.bt_picker.specs.Positions.{Gains};
    ghost use Rattle.bt_picker.specs.Checks.{SettlesNow};
    ghost use Rattle.bt_text.specs.PlayedLines.{PlaysOrder, PlaysLine};

    /// A player with a desk of its own.
    pub fn new(alloc: Global, setup: Setup, rules: Rules) -> Result<Player, AllocError>
        requires workers { (1 ≤ setup.workers) × (setup.workers ≤ MOST_WORKERS) }
        requires rules { AreRules setup.torrent.layout rules }
        ensures workers { IfOk result (λ player. player.workers ≡ setup.workers) }
        ensures pieces { IfOk result (λ player. player.pieces ≡ piece_count setup.torrent.layout) }
        ensures setting { IfOk result (λ player.
            player.desk.setting ≡ setting_of setup.torrent.layout setup.workers rules) }
        ensures history { IfOk result (λ player. player.desk.history ≡ []) }
    {
        let Setup { torrent, workers } = setup;
        let pieces = torrent.piece_count();
        let torrent = Arc::new(alloc, torrent)?;
        Ok(Player {
            desk: Desk::new(alloc, torrent, workers, rules)?,
            workers,
            pieces,
        })
    }

    /// Makes the call that a line says.
    pub fn play(&mut self, alloc: Global, text: &[u8]) -> Result<Reply, LineFault>
        ensures judged { Judges result (CanBeDone self.old.workers self.old.pieces text.now) }
        ensures plays { IfOk result (λ reply. PlaysLine self.old.desk self.new.desk text.now reply) }
        ensures workers { self.new.workers ≡ self.old.workers }
        ensures pieces { self.new.pieces ≡ self.old.pieces }
    {
        let Line { worker, command } = Line::parse(alloc, text)?;
        if worker >= self.workers {
            return Err(LineFault::NotAllowed);
        }
        self.obey(alloc, worker, command)
    }

    /// Does what the line says.
    fn obey(&mut self, alloc: Global, worker: u32, command: Command) -> Result<Reply, LineFault>
        requires { worker < self.old.workers }
        ensures judged { Judges result (IsOfTorrent self.old.pieces (seen_command command)) }
        ensures plays { IfOk result (λ reply.
            PlaysOrder self.old.desk self.new.desk worker (seen_command command) reply) }
        ensures workers { self.new.workers ≡ self.old.workers }
        ensures pieces { self.new.pieces ≡ self.old.pieces }
    {
        match command {
            Command::Make(call) => self.make(worker, call),
            Command::Bits(bytes) => {
                let flags = Bitfield::from_wire(alloc, &bytes, self.pieces)?;
                self.make(worker, Call::Bits(flags))
            }
            Command::Want(bytes) => {
                let flags = Bitfield::from_wire(alloc, &bytes, self.pieces)?;
                self.make(worker, Call::Want(flags))
            }
            Command::Haves(bytes) => {
                let flags = Bitfield::from_wire(alloc, &bytes, self.pieces)?;
                self.make(worker, Call::Haves(flags))
            }
            Command::Settle(piece) => self.settle(alloc, worker, piece),
        }
    }

    /// Makes the worker's call.
    fn make(&mut self, worker: u32, call: Call) -> Result<Reply, LineFault>
        requires { worker < self.old.workers }
        ensures gains { IfOk result (λ reply. Gains self.old.desk self.new.desk (event worker call reply)) }
        ensures err { IfErr result (λ e. e ≡ LineFault.NoMemory) }
        ensures workers { self.new.workers ≡ self.old.workers }
        ensures pieces { self.new.pieces ≡ self.old.pieces }
    {
        Ok(self.desk.call(worker, call)?)
    }

    /// Checks the piece here and now.
    fn settle(&mut self, alloc: Global, worker: u32, piece: u32) -> Result<Reply, LineFault>
        requires { worker < self.old.workers }
        ensures settles { IfOk result (λ reply. SettlesNow self.old.desk self.new.desk worker piece reply) }
        ensures err { IfErr result (λ e. e ≡ LineFault.NoMemory) }
        ensures workers { self.new.workers ≡ self.old.workers }
        ensures pieces { self.new.pieces ≡ self.old.pieces }
    {
        Ok(self.desk.settle_now(alloc, worker, piece)?)
    }
}
