//! A picker, and beside it the bytes of the pieces that are begun.
ghost use Rattle.std.specs.Prelude.{◌≡◌, ◌<◌, ◌≤◌, ◌%◌, ◌^◌, [], ℕ, List, None, Ok, true, false, IfOk, IsOk, OnErr};
ghost use Rattle.std.specs.List.{concat};
ghost use Rattle.sha1.specs.Sha1.{sha1};
ghost use Rattle.bt_meta.specs.Layout.{block, block_count, hash_of, piece_count};
ghost use Rattle.bt_history.specs.declared.call.Reply.{Reply};
ghost use Rattle.bt_history.specs.declared.event.Action.TheVariants.{Arrived};
ghost use Rattle.bt_history.specs.Epochs.{epoch};
ghost use Rattle.bt_history.specs.Assured.{Assures};
ghost use Rattle.bt_history.specs.Legal.{IsLegal};
ghost use Rattle.bt_history.specs.Picks.{ArePicked};
ghost use Rattle.bt_history.specs.Peers.{outstanding};
ghost use Rattle.bt_history.specs.Pieces.{content, content_of_block, had};
ghost use Rattle.bt_history.specs.Setting.{AreRules, setting_of};
ghost use Rattle.bt_picker.specs.Checks.{IsJobOf, arriving, blocks_of, waits};
ghost use Rattle.bt_picker.specs.Contents.{complete, has_wanted};
ghost use Rattle.bt_picker.specs.Told.{Settles, Tells, action_told, telling};
ghost use Rattle.bt_picker.specs.Kept.{BringsNone, HandsOut, IsFresh, IsStale, SettlesBy, SettlesOrStale, WouldKeep};

use crate::picker::Picker;
use crate::settled::Settled;
use crate::stash::Stash;
use crate::told::Told;
use bt_check::{Job, Verdict};
use bt_history::{MOST_WORKERS, Reason, Reply, Rules};
use bt_meta::{BLOCK_SIZE, Block, Torrent};
use bytes::Bytes;
use sha1::Sha1;
use std::alloc::{AllocError, Global};
use std::marker::Model;
use std::sync::Arc;

/// The picker of one download, which holds the bytes of each piece begun until the piece is had. Contracts see the setting and the history
/// of all calls with their replies; the history stands in no memory.
pub struct Keeper {
    picker: Picker,
    stash: Stash,
}

/// The end of a keeper is one call for whoever owns one.
impl Drop for Keeper {
    fn drop(self) {
        let Keeper {
            picker: _picker,
            stash: _stash,
        } = self;
    }
}

impl Model for Keeper {
    ghost use Rattle.bt_picker.specs.Positions.{DeskState};
    ghost use Rattle.bt_picker.specs.Stashes.{IsStash};

    ghost Value = { DeskState };

    ghost view = { λ k. k.picker };

    ghost invariant = { λ k. IsStash k.picker.setting k.picker.history k.stash };
}

impl Keeper {
    /// A keeper with the empty history, for this many workers, 1 to `MOST_WORKERS`, by these rules: 1 to 64 blocks asked of one peer, and no
    /// more pieces at random than there are.
    pub fn new(
        alloc: Global,
        torrent: Arc<Torrent>,
        workers: u32,
        rules: Rules,
    ) -> Result<Keeper, AllocError>
        requires workers { (1 ≤ workers) × (workers ≤ MOST_WORKERS) }
        requires rules { AreRules torrent.value.layout rules }
        ensures setting { IfOk result (λ k. k.setting ≡ setting_of torrent.value.layout workers rules) }
        ensures history { IfOk result (λ k. k.history ≡ []) }
    {
        let picker = Picker::new(alloc, torrent, workers, rules)?;
        let stash = Stash::new(alloc, picker.torrent().piece_count())?;
        Ok(Keeper { picker, stash })
    }

    /// The picker, which answers all that the keeper doesn't: what is had, wanted, asked, who brought a block, the rules.
    pub fn picker(&self) -> &Picker
        ensures { result.now ≡ self.now }
    {
        &self.picker
    }

    /// Answers what a worker tells of its peer, by the rules. The bytes of an arrival are copied, and kept where the reply says that they
    /// are stored. Nothing else that is told takes memory, nor does an arrival that is dropped or refused. Without memory, nothing changes.
    pub fn tell(&mut self, alloc: Global, worker: u32, told: Told<'_>) -> Result<Reply, AllocError>
        ensures ok { IfOk result (λ reply. Tells self.old self.new (telling worker told.entry reply)) }
        // Once its last block came, a piece waits for its check.
        ensures completes { (piece begin : ℕ) (bytes : List ℕ) →
            action_told told.entry ≡ Arrived piece begin bytes → result ≡ Ok Reply.Completed →
            waits self.new.setting self.new.history piece ≡ true }
        ensures sure { BringsNone (action_told told.entry) → IsOk result }
        ensures kept { OnErr result (WouldKeep self.old (telling worker told.entry)) }
        ensures err { OnErr result (self.new ≡ self.old) }
    {
        match told {
            Told::Arrived {
                piece,
                begin,
                bytes,
            } => {
                if !self.picker.keeps(worker, &told) {
                    return Ok(self.picker.tell(worker, told));
                }
                let bytes = Bytes::copy_from_slice(alloc, bytes)?;
                self.keep(alloc, worker, piece, begin, bytes)
            }
            Told::Lose(piece) => Ok(self.lose(worker, piece)),
            Told::Discard { piece, begin } => Ok(self.discard(worker, piece, begin)),
            _ => Ok(self.picker.tell(worker, told)),
        }
    }

    /// Answers that a block came, which begins so many bytes into the piece. Its bytes are kept as they are shared, with no copy, where the
    /// reply says that they are stored. A block that is dropped or refused takes no memory. Without memory, nothing changes.
    pub fn arrived(
        &mut self,
        alloc: Global,
        worker: u32,
        piece: u32,
        begin: u32,
        bytes: Bytes,
    ) -> Result<Reply, AllocError>
        ensures ok { IfOk result (λ reply. Tells self.old self.new (arriving worker piece begin bytes reply)) }
        ensures completes { result ≡ Ok Reply.Completed → waits self.new.setting self.new.history piece ≡ true }
        ensures kept { OnErr result (WouldKeep self.old (arriving worker piece begin bytes)) }
        ensures err { OnErr result (self.new ≡ self.old) }
    {
        let told = Told::Arrived {
            piece,
            begin,
            bytes: bytes.as_slice(),
        };
        let is_kept = self.picker.keeps(worker, &told);
        if !is_kept {
            return Ok(self.picker.tell(worker, told));
        }
        self.keep(alloc, worker, piece, begin, bytes)
    }

    /// Answers that the piece is lost: none of its bytes is kept.
    fn lose(&mut self, worker: u32, piece: u32) -> Reply
        ensures { Tells self.old self.new (telling worker (Told.Lose piece) result) }
    {
        let reply = self.picker.tell(worker, Told::Lose(piece));
        match reply {
            Reply::Failed => {
                drop(self.stash.take(piece));
                reply
            }
            _ => reply,
        }
    }

    /// Answers that a block is discarded: its bytes are kept no more.
    fn discard(&mut self, worker: u32, piece: u32, begin: u32) -> Reply
        ensures { Tells self.old self.new (telling worker (Told.Discard piece begin) result) }
    {
        let reply = self.picker.tell(worker, Told::Discard { piece, begin });
        match reply {
            Reply::Failed => {
                self.stash.clear(piece, begin / BLOCK_SIZE);
                reply
            }
            _ => reply,
        }
    }

    /// Answers that a block came, with room for it taken first.
    fn keep(
        &mut self,
        alloc: Global,
        worker: u32,
        piece: u32,
        begin: u32,
        bytes: Bytes,
    ) -> Result<Reply, AllocError>
        ensures ok { IfOk result (λ reply. Tells self.old self.new (arriving worker piece begin bytes reply)) }
        ensures completes { result ≡ Ok Reply.Completed → waits self.new.setting self.new.history piece ≡ true }
        ensures err { OnErr result (self.new ≡ self.old) }
    {
        let room = self.stash.room(alloc, self.picker.torrent(), piece)?;
        let told = Told::Arrived {
            piece,
            begin,
            bytes: bytes.as_slice(),
        };
        let reply = self.picker.tell(worker, told);
        if reply.is_stored() {
            self.stash.put(piece, room, begin / BLOCK_SIZE, bytes);
        }
        Ok(reply)
    }

    /// The job of checking the piece, if it waits for a check. Any thread may hash it: its blocks are shared. Memory is taken for such a
    /// piece alone.
    pub fn job(&self, alloc: Global, piece: u32) -> Result<Option<Job>, AllocError>
        ensures ok { IfOk result (λ job. IsJobOf self.now.setting self.now.history piece job) }
        ensures unasked { waits self.now.setting self.now.history piece ≡ false → result ≡ Ok None }
    {
        if !self.picker.is_waiting(piece) {
            return Ok(None);
        }
        let blocks = Vec::from_clones(alloc, self.waiting(piece))?;
        Ok(Some(Job { piece, blocks }))
    }

    /// Settles a piece by the verdict of its job. Its blocks are held no longer then: those of a piece that is had are handed out. A
    /// verdict of other blocks than those held is refused, and changes nothing. Takes no memory.
    pub fn settle(&mut self, worker: u32, verdict: &Verdict) -> Settled
        ensures settles { SettlesBy self.old self.new worker verdict.now result.reply }
        // Whoever doesn't know whether the verdict is stale has one of these.
        ensures either { SettlesOrStale self.old self.new worker verdict.now result.reply }
        ensures blocks { HandsOut self.old verdict.now.piece result.reply result.blocks.items }
        // What is handed out has the hash that the metainfo gives for the piece.
        ensures hashed { result.reply ≡ Reply.Had →
            sha1 (concat result.blocks.items) ≡ hash_of self.old.setting.torrent verdict.now.piece }
    {
        if self.is_stale(verdict) {
            return self.without_blocks(Reply::Refused(Reason::Stale));
        }
        self.settle_by(worker, verdict.piece(), verdict.digest())
    }

    /// Hashes the bytes that are held of the piece, if it waits for a check, and settles it. Its blocks are held no longer then: those of
    /// a piece that is had are handed out. Takes no memory.
    pub fn settle_now(&mut self, worker: u32, piece: u32) -> Settled
        ensures settles { Settles self.old self.new worker piece result.reply }
        ensures blocks { HandsOut self.old piece result.reply result.blocks.items }
        // What is handed out has the hash that the metainfo gives for the piece.
        ensures hashed { result.reply ≡ Reply.Had →
            sha1 (concat result.blocks.items) ≡ hash_of self.old.setting.torrent piece }
    {
        let digest = if self.picker.is_waiting(piece) {
            hash(self.waiting(piece))
        } else {
            [0; 20]
        };
        self.settle_by(worker, piece, &digest)
    }

    /// Settles the piece by the hash of its content, if it waits for a check.
    fn settle_by(&mut self, worker: u32, piece: u32, digest: &[u8; 20]) -> Settled
        requires { waits self.old.setting self.old.history piece ≡ true →
            digest.now ≡ sha1 (content self.old.setting self.old.history piece) }
        ensures settles { Settles self.old self.new worker piece result.reply }
        ensures blocks { HandsOut self.old piece result.reply result.blocks.items }
        // What is handed out has the hash that the metainfo gives for the piece.
        ensures hashed { result.reply ≡ Reply.Had →
            sha1 (concat result.blocks.items) ≡ hash_of self.old.setting.torrent piece }
    {
        self.picker.attest();
        let reply = self.picker.settle(worker, piece, digest);
        match reply {
            Reply::Had => Settled {
                reply,
                blocks: self.stash.take(piece),
            },
            Reply::Failed => {
                drop(self.stash.take(piece));
                self.without_blocks(reply)
            }
            _ => self.without_blocks(reply),
        }
    }

    /// The reply, with no blocks.
    fn without_blocks(&self, reply: Reply) -> Settled
        ensures reply { result.reply ≡ reply }
        ensures blocks { result.blocks.items ≡ [] }
    {
        Settled {
            reply,
            blocks: self.stash.none(),
        }
    }

    /// Whether the verdict's piece waits for a check, and other blocks were hashed than those that are held.
    fn is_stale(&self, verdict: &Verdict) -> bool
        ensures yes { result ≡ true → IsStale self.now verdict.now }
        ensures no { result ≡ false → IsFresh self.now verdict.now }
    {
        self.picker.is_waiting(verdict.piece()) && self.waiting(verdict.piece()) != verdict.blocks()
    }

    /// The blocks of a piece that waits for a check.
    fn waiting(&self, piece: u32) -> &[Bytes]
        requires { waits self.now.setting self.now.history piece ≡ true }
        ensures { result.now ≡ blocks_of self.now.setting self.now.history piece }
    {
        self.picker.attest();
        self.stash.row(piece)
    }

    /// The bytes of the block, if it is held.
    pub fn held_bytes(&self, piece: u32, index: u32) -> &[u8]
        requires piece { piece < piece_count self.now.setting.torrent }
        requires index { index < block_count self.now.setting.torrent piece }
        requires lacking { had self.now.history piece ≡ false }
        ensures { result.now ≡ content_of_block self.now.history (block self.now.setting.torrent piece index) }
    {
        self.stash.bytes(piece, index)
    }

    /// Tells a proof what holds of each keeper. Nothing is done.
    pub fn attest(&self)
        ensures legal { IsLegal self.now.setting self.now.history }
        ensures picked { ArePicked self.now.setting self.now.history }
        ensures assured { Assures self.now.setting self.now.history }
    {
        self.picker.attest();
    }
}

/// The hash of the blocks, joined.
fn hash(blocks: &[Bytes]) -> [u8; 20]
    ensures { result ≡ sha1 (concat blocks.now) }
{
    let mut hasher = Sha1::new();
    for block in blocks {
        hasher.update(block.as_slice());
    }
    hasher.finalize()
}
