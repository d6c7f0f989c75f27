//! The picker with no journal: its tables alone, and a history that only proofs read.
ghost use Rattle.std.specs.Prelude.{◌≡◌, ◌<◌, ◌≤◌, ◌+◌, ◌%◌, ◌^◌, ◌&&◌, not, [], ℕ, List, true, IfOk, if◌then◌else◌};
ghost use Rattle.bt_meta.specs.Layout.{IsLayout, block, block_count, hash_of, piece_count};
ghost use Rattle.bt_history.specs.declared.call.Reply.{Reply};
ghost use Rattle.bt_history.specs.declared.event.Action.TheVariants.{Arrived, Settle};
ghost use Rattle.bt_history.specs.Entries.{action_of, event};
ghost use Rattle.bt_history.specs.Epochs.{epoch, is_request};
ghost use Rattle.bt_history.specs.Assured.{Assures};
ghost use Rattle.bt_history.specs.History.{stores};
ghost use Rattle.bt_history.specs.Legal.{IsLegal, same_bytes};
ghost use Rattle.bt_history.specs.Picks.{ArePicked};
ghost use Rattle.bt_history.specs.PickRules.{rule_of};
ghost use Rattle.bt_history.specs.Peers.{alone, outstanding, reach};
ghost use Rattle.bt_history.specs.Pieces.{asker_count, availability, content, had, in_order, interesting, level, order_from, sender, wanted};
ghost use Rattle.bt_picker.specs.Search.{IsLevel};
ghost use Rattle.bt_history.specs.Setting.{AreRules, setting_of};
ghost use Rattle.bt_picker.specs.Checks.{IsCurrent, is_right, settling, waits};
ghost use Rattle.bt_picker.specs.Told.{Settles, Tells, action_told, checking, telling};
ghost use Rattle.bt_check.specs.Checked as checked;
ghost use Rattle.sha1.specs.Sha1.{sha1};
ghost use Rattle.bt_picker.specs.Contents.{complete, has_wanted};
ghost use Rattle.bt_picker.specs.Positions.{DeskState, Gains};
ghost use Rattle.bt_picker.specs.Tables.{AreTables};
ghost use Rattle.bt_picker.specs.Unbegun.{ListsUnbegun, unasked_count};

mod receiving;
mod restoring;

use crate::entries::{enter, enter_check, enter_verdict, new_tables};
use crate::past::{Note, Past};
use crate::position::Position;
use crate::told::{Lent, Told, lend};
use bt_check::Verdict;
use bt_history::{Call, MOST_WORKERS, PickRule, Reason, Reply, Rules, USUAL_LEVEL};
use bt_meta::{Block, Torrent};
use bt_tables::{Stage, Tables};
pub use restoring::Restored;
use std::alloc::{AllocError, Global};
use std::marker::Model;
use std::sync::Arc;

/// The picker of one download: it answers each call of the peers' workers, and keeps what it answers from, no call and no byte of a block.
/// Contracts see the setting, and the history of all calls with their replies: it stands in no memory.
pub struct Picker {
    tables: Tables,
    past: Past,
    stirred: u64,
}

/// The end of a picker is one call for whoever owns one.
impl Drop for Picker {
    fn drop(self) {
        let Picker {
            tables: _tables,
            past: _past,
            stirred: _,
        } = self;
    }
}

impl Model for Picker {
    ghost use Rattle.bt_picker.specs.Positions.{DeskState};
    ghost use Rattle.bt_history.specs.declared.rules.TheConstants.{MOST_WORKERS};
    ghost use Rattle.bt_picker.specs.Tables.{AreTables};
    ghost use Rattle.std.specs.Prelude.{◌≡◌, ◌≤◌, ◌%◌, ◌^◌};
    ghost use Rattle.bt_history.specs.Epochs.{epoch};
    ghost use Rattle.bt_history.specs.Picks.{ArePicked};

    ghost Value = { DeskState };

    ghost view = { λ p. record { setting = p.tables.setting; history = p.past.entries } };

    ghost invariant = { λ p. AreTables p.tables p.past.entries × (p.tables.setting.workers ≤ MOST_WORKERS)
        × (p.stirred ≡ epoch p.tables.setting p.past.entries % 2 ^ 64) × ArePicked p.tables.setting p.past.entries };
}

impl Picker {
    /// A picker with the empty history, for this many workers, 1 to `MOST_WORKERS`, by these rules: 1 to 64 blocks asked of one peer, and no
    /// more pieces at random than there are.
    pub fn new(
        alloc: Global,
        torrent: Arc<Torrent>,
        workers: u32,
        rules: Rules,
    ) -> Result<Picker, AllocError>
        requires workers { (1 ≤ workers) × (workers ≤ MOST_WORKERS) }
        requires rules { AreRules torrent.value.layout rules }
        ensures setting { IfOk result (λ p. p.setting ≡ setting_of torrent.value.layout workers rules) }
        ensures history { IfOk result (λ p. p.history ≡ []) }
    {
        let tables = new_tables(alloc, torrent, workers, rules)?;
        Ok(Picker {
            tables,
            past: Past::new(),
            stirred: 0,
        })
    }

    /// The history with its tables.
    pub(crate) fn position(&self) -> Position<'_>
        ensures { result ≡ self.now }
    {
        Position::new(&self.tables, &self.past)
    }

    /// Tells a proof what holds of each picker. Nothing is done.
    pub fn attest(&self)
        ensures legal { IsLegal self.now.setting self.now.history }
        ensures picked { ArePicked self.now.setting self.now.history }
        // The laws, for this picker.
        ensures assured { Assures self.now.setting self.now.history }
        ensures layout { IsLayout self.now.setting.torrent }
        ensures workers { self.now.setting.workers ≤ MOST_WORKERS }
    {
        let _tables = &self.tables;
    }

    /// The torrent of the download.
    pub fn torrent(&self) -> &Torrent
        ensures { result.now.layout ≡ self.now.setting.torrent }
    {
        self.tables.torrent()
    }

    /// How many workers there are, 1 to 1,024: a worker's number is below it.
    pub fn workers(&self) -> u32
        ensures count { result ≡ self.now.setting.workers }
        ensures bound { result ≤ MOST_WORKERS }
    {
        self.tables.workers()
    }

    /// The rules of the download.
    pub fn rules(&self) -> Rules
        ensures depth { result.depth ≡ self.now.setting.depth }
        ensures random { result.random ≡ self.now.setting.random }
        ensures askers { result.askers ≡ self.now.setting.askers }
        ensures deepest { result.deepest ≡ self.now.setting.deepest }
        ensures most_open { result.«open» ≡ self.now.setting.most_open }
        ensures rush { result.rush ≡ self.now.setting.rush }
        ensures shown { result.shown ≡ self.now.setting.shown }
    {
        self.tables.rules()
    }

    /// Whether the piece was checked, and had its hash.
    pub fn had(&self, piece: u32) -> bool
        requires { piece < piece_count self.now.setting.torrent }
        ensures { result ≡ had self.now.history piece }
    {
        self.position().had(piece)
    }

    /// Whether the piece is to be downloaded: its level isn't 0.
    pub fn wanted(&self, piece: u32) -> bool
        requires { piece < piece_count self.now.setting.torrent }
        ensures { result ≡ wanted self.now.setting self.now.history piece }
    {
        self.position().is_wanted(piece)
    }

    /// How many joined peers show the piece.
    pub fn availability(&self, piece: u32) -> u32
        requires { piece < piece_count self.now.setting.torrent }
        ensures { result ≡ availability self.now.setting self.now.history piece }
    {
        self.position().availability(piece)
    }

    /// The pieces of the usual level that so many joined peers show and of which no block is held or asked, in no stated order: all wanted
    /// ones, until other levels are told.
    pub fn group(&self, shown_by: u32) -> &[u32]
        requires { shown_by ≤ self.now.setting.workers }
        ensures { ListsUnbegun self.now.setting self.now.history USUAL_LEVEL shown_by result.now }
    {
        self.group_at(USUAL_LEVEL, shown_by)
    }

    /// The pieces of this level, 1 to 7, that so many joined peers show and of which no block is held or asked, in no stated order.
    pub fn group_at(&self, level: u8, shown_by: u32) -> &[u32]
        requires level { IsLevel level }
        requires shown_by { shown_by ≤ self.now.setting.workers }
        ensures { ListsUnbegun self.now.setting self.now.history level shown_by result.now }
    {
        self.tables.group(level, Stage::Unbegun(shown_by))
    }

    /// The level of the piece, 0 to 7: the usual one until another is told, and 0 where it isn't wanted.
    pub fn level(&self, piece: u32) -> u8
        requires { piece < piece_count self.now.setting.torrent }
        ensures { result ≡ level self.now.history piece }
    {
        self.position().level(piece)
    }

    /// Whether all pieces of one level come in rising order. Else the rarest come first, or those of some levels in order ([`order_from`]).
    ///
    /// [`order_from`]: Picker::order_from
    pub fn is_in_order(&self) -> bool
        ensures { result ≡ in_order self.now.history }
    {
        self.position().order_from() <= 1
    }

    /// Pieces of this level, 0 to 8, and of higher ones come in rising order, and of the others the rarest first: 8 until another is told.
    pub fn order_from(&self) -> u8
        ensures { result ≡ order_from self.now.history }
    {
        self.position().order_from()
    }

    /// The highest level, 0 to 7, of which blocks are requested of the worker's peer: 7 until another is told.
    pub fn reach(&self, worker: u32) -> u8
        requires { worker < self.now.setting.workers }
        ensures { result ≡ reach self.now.history worker }
    {
        self.position().reach(worker)
    }

    /// Whether the worker's peer works alone.
    pub fn is_alone(&self, worker: u32) -> bool
        requires { worker < self.now.setting.workers }
        ensures { result ≡ alone self.now.history worker }
    {
        self.position().is_alone(worker)
    }

    /// The rule by which block `index` of the piece was requested, right after the answer that requests it: for a log, or a user who asks why.
    /// Later calls may change what it tells.
    pub fn rule_of(&self, piece: u32, index: u32) -> PickRule
        requires piece { piece < piece_count self.now.setting.torrent }
        requires index { index < block_count self.now.setting.torrent piece }
        ensures { result ≡ rule_of self.now.setting self.now.history (block self.now.setting.torrent piece index) }
    {
        self.position().rule_of(piece, index)
    }

    /// How many blocks of wanted pieces are neither held nor asked of a peer.
    pub fn unasked(&self) -> u64
        ensures { result ≡ unasked_count self.now.setting self.now.history }
    {
        self.tables.unasked()
    }

    /// The worker whose peer brought block `index` of the piece, counted from its front, if the block is held. So a client that hashed a full
    /// piece and found another hash knows who sent what, before it settles the piece; afterwards its blocks are held no more.
    pub fn sender(&self, piece: u32, index: u32) -> Option<u32>
        requires piece { piece < piece_count self.now.setting.torrent }
        requires index { index < block_count self.now.setting.torrent piece }
        ensures { result ≡ sender self.now.history (block self.now.setting.torrent piece index) }
    {
        self.position().sender(piece, index)
    }

    /// The blocks asked of the worker's peer, the oldest request first.
    pub fn outstanding(&self, worker: u32) -> &[Block]
        requires { worker < self.now.setting.workers }
        ensures { result.now ≡ outstanding self.now.history worker }
    {
        self.tables.peer(worker).asked()
    }

    /// Whether the piece is full and isn't had, and so waits for a check. No piece beyond the last does.
    pub fn is_waiting(&self, piece: u32) -> bool
        ensures { result ≡ waits self.now.setting self.now.history piece }
    {
        self.position().is_waiting(piece)
    }

    /// A number that rises when a peer that had nothing to be asked for (`Idle`, `NothingLeft`) may have another answer, though its own worker
    /// told nothing: a peer joined, choked us or left, a block was released, other pieces are wanted, a piece was settled, a block was stored of
    /// which not its own peer alone was asked, or endgame began. While it is the same, another Next has the same answer, so a client need not
    /// poll its idle peers. It counts modulo 2^64.
    pub fn epoch(&self) -> u64
        ensures { result ≡ epoch self.now.setting self.now.history % 2 ^ 64 }
    {
        self.stirred
    }

    /// Whether each piece is had, wanted or not.
    pub fn is_complete(&self) -> bool
        ensures { result ≡ complete self.now.setting self.now.history }
    {
        self.position().is_complete()
    }

    /// Whether each wanted piece is had: there is nothing left to download, though the content may not be complete.
    pub fn has_wanted(&self) -> bool
        ensures { result ≡ has_wanted self.now.setting self.now.history }
    {
        self.position().has_wanted()
    }

    /// Answers what a worker tells of its peer, by the rules. It takes no memory, and nothing that is lent is kept. A number that is no
    /// worker's is refused, and leaves no entry.
    #[inline(always)]
    pub fn tell(&mut self, worker: u32, told: Told<'_>) -> Reply
        ensures tells { Tells self.old self.new (telling worker told.entry result) }
        // Once its last block came, a piece waits for its check.
        ensures completes { (piece begin : ℕ) (bytes : List ℕ) →
            action_told told.entry ≡ Arrived piece begin bytes → result ≡ Reply.Completed →
            waits self.new.setting self.new.history piece ≡ true }
    {
        if worker >= self.workers() {
            return Reply::Refused(Reason::NotJoined);
        }
        self.hear(worker, &told)
    }

    /// Whether it would be answered to this that a block is stored. Nothing changes.
    pub(crate) fn keeps(&self, worker: u32, told: &Told<'_>) -> bool
        ensures { (new : DeskState) (reply : Reply) → Tells self.now new (telling worker told.now reply) → result ≡ stores reply }
    {
        if worker >= self.workers() {
            return false;
        }
        self.position().reply(worker, told).is_stored()
    }

    /// The worker hashed what it holds of the piece: the picker believes it that this is the hash. A piece that doesn't wait for a check is
    /// refused with no entry, and so is a number that is no worker's. It takes no memory.
    pub fn settle(&mut self, worker: u32, piece: u32, digest: &[u8; 20]) -> Reply
        requires { waits self.old.setting self.old.history piece ≡ true →
            digest.now ≡ sha1 (content self.old.setting self.old.history piece) }
        ensures { Settles self.old self.new worker piece result }
    {
        let passed = self.has_hash(piece, digest);
        self.judge(worker, piece, passed)
    }

    /// The worker checked what it stored of the piece: the picker believes it that this has the metainfo's hash, or that it hasn't. So a client
    /// that compares by itself tells just that. It is refused as `settle` is, and takes no memory.
    pub fn judge(&mut self, worker: u32, piece: u32, passed: bool) -> Reply
        requires { waits self.old.setting self.old.history piece ≡ true →
            passed ≡ is_right self.old.setting self.old.history piece }
        ensures { Settles self.old self.new worker piece result }
    {
        if worker >= self.workers() {
            return Reply::Refused(Reason::NotJoined);
        }
        if piece >= self.torrent().piece_count() {
            return Reply::Refused(Reason::NoSuchPiece);
        }
        if !self.is_waiting(piece) {
            return Reply::Refused(Reason::NotWaiting);
        }
        self.settle_waiting(worker, piece, passed)
    }

    /// Whether this is the metainfo's hash of the piece. No piece beyond the last has one.
    fn has_hash(&self, piece: u32, digest: &[u8; 20]) -> bool
        ensures { piece < piece_count self.now.setting.torrent → result ≡ same_bytes digest.now (hash_of self.now.setting.torrent piece) }
    {
        let torrent = self.torrent();
        piece < torrent.piece_count() && digest == torrent.hash(piece)
    }

    /// Of how many peers block `index` of the piece is requested that aren't late with it: after the answer that requests it, the peer itself is
    /// one of them, and any other is asked for it too.
    pub fn askers(&self, piece: u32, index: u32) -> u32
        requires piece { piece < piece_count self.now.setting.torrent }
        requires index { index < block_count self.now.setting.torrent piece }
        ensures { result ≡ asker_count self.now.setting self.now.history (block self.now.setting.torrent piece index) }
    {
        self.position().asker_count(piece, index)
    }

    /// Whether the worker's peer shows a wanted piece that isn't had.
    pub fn is_interesting(&self, worker: u32) -> bool
        requires { worker < self.now.setting.workers }
        ensures { result ≡ interesting self.now.setting self.now.history worker }
    {
        self.position().is_interesting(worker)
    }

    /// Answers what the worker tells.
    #[inline(always)]
    fn hear(&mut self, worker: u32, told: &Told<'_>) -> Reply
        requires { worker < self.old.setting.workers }
        ensures gains { Gains self.old self.new (telling worker told.now result) }
        ensures completes { (piece begin : ℕ) (bytes : List ℕ) →
            action_told told.now ≡ Arrived piece begin bytes → result ≡ Reply.Completed →
            waits self.new.setting self.new.history piece ≡ true }
    {
        let before = self.position();
        let reply = before.reply(worker, told);
        let stirs = before.stirs(worker, told, reply);
        let was_endgame = before.asks_in_endgame(reply);
        enter(&mut self.tables, &self.past, worker, told, reply);
        self.past = self.past.then(&Note::Told(worker, told, reply));
        let is_endgame = Position::new(&self.tables, &self.past).asks_in_endgame(reply);
        let stirs = stirs | begins_endgame(reply, was_endgame, is_endgame);
        self.stirred = risen(self.stirred, stirs);
        reply
    }

    /// Answers the worker's verdict, of which the caller says whether the bytes that were hashed are those held.
    fn check(&mut self, worker: u32, verdict: &Verdict, is_current: bool) -> Reply
        requires worker { worker < self.old.setting.workers }
        requires current { IsCurrent self.old.setting self.old.history (Settle verdict.now.piece (checked.joined verdict.now)) is_current }
        ensures { Gains self.old self.new (checking worker verdict.now.piece (checked.joined verdict.now) result) }
    {
        let reply = self.position().checked(worker, verdict, is_current);
        enter_verdict(&mut self.tables, &self.past, worker, verdict, reply);
        self.past = self.past.then(&Note::Checked(worker, verdict, reply));
        self.stirred = risen(self.stirred, !reply.is_refusal());
        reply
    }

    /// Settles a piece that waits for it.
    fn settle_waiting(&mut self, worker: u32, piece: u32, passed: bool) -> Reply
        requires worker { worker < self.old.setting.workers }
        requires waits { waits self.old.setting self.old.history piece ≡ true }
        requires passed { passed ≡ is_right self.old.setting self.old.history piece }
        ensures { Gains self.old self.new (settling self.old.setting self.old.history worker piece result) }
    {
        let reply = self.position().settled(worker, piece, passed);
        enter_check(&mut self.tables, &self.past, worker, piece, reply);
        self.past = self.past.then(&Note::Settled {
            worker,
            piece,
            torrent: self.tables.torrent(),
            reply,
        });
        self.stirred = risen(self.stirred, !reply.is_refusal());
        reply
    }

    /// Answers a desk's call. Of a verdict the caller says whether the bytes that were hashed are those held.
    pub(crate) fn call(&mut self, worker: u32, call: &Call, is_current: bool) -> Reply
        requires worker { worker < self.old.setting.workers }
        requires current { IsCurrent self.old.setting self.old.history (action_of call.now) is_current }
        ensures ok { Gains self.old self.new (event worker call.now result) }
        ensures completes { (piece begin : ℕ) (bytes : List ℕ) →
            action_of call.now ≡ Arrived piece begin bytes → result ≡ Reply.Completed →
            waits self.new.setting self.new.history piece ≡ true }
    {
        match lend(call) {
            Lent::Told(told) => self.hear(worker, &told),
            Lent::Check(verdict) => self.check(worker, verdict, is_current),
        }
    }
}

/// Whether an endgame begins with this reply: a block is asked for, and there is an endgame that wasn't before.
fn begins_endgame(reply: Reply, before: bool, after: bool) -> bool
    ensures { result ≡ (is_request reply && (not before && after)) }
{
    reply.is_request() && !before && after
}

/// The number, one more where something stirs.
pub(crate) fn risen(number: u64, stirs: bool) -> u64
    ensures { result ≡ (number + (if stirs then 1 else 0)) % 2 ^ 64 }
{
    if stirs {
        number.wrapping_add(1)
    } else {
        number
    }
}
