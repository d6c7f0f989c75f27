//! What each entry of a history makes of its tables: the one place where tables change, each time with the entry that they then tell of.

ghost use Rattle.std.specs.Prelude.{◌≡◌, ◌<◌, ◌≤◌, ◌∷◌, [], length, true, IfOk};
ghost use Rattle.bt_history.specs.Setting.{setting_of};
ghost use Rattle.bt_history.specs.Legal.{IsAllowed};
ghost use Rattle.bt_history.specs.History.{counts};
ghost use Rattle.bt_check.specs.Checked as checked;
ghost use Rattle.bt_picker.specs.Checks.{arriving, settling};
ghost use Rattle.bt_picker.specs.Told.{action_told, checking, telling};
ghost use Rattle.bt_picker.specs.Tables.{AreTables, entered_call};

use crate::past::Past;
use crate::told::Told;
use crate::unseen::Unseen;
use bt_check::Verdict;
use bt_history::{MOST_LEVEL, Reply, Rules};
use bt_meta::Torrent;
use bt_tables::{Dealing, HELD, Tables};
use std::alloc::{AllocError, Global};
use std::sync::Arc;

/// The tables of an empty history, of fewer workers than a block's cell can count.
pub fn new_tables(
    alloc: Global,
    torrent: Arc<Torrent>,
    workers: u32,
    rules: Rules,
) -> Result<Tables, AllocError>
    requires workers { workers < HELD }
    ensures setting { IfOk result (λ t. t.setting ≡ setting_of torrent.value.layout workers rules) }
    ensures are { IfOk result (λ t. AreTables t []) }
{
    Tables::new(alloc, torrent, workers, rules)
}

/// Enters what the worker told, with its reply: `past` has the entries before it.
#[inline(always)]
pub fn enter(tables: &mut Tables, past: &Past, worker: u32, told: &Told<'_>, reply: Reply)
    requires are { AreTables tables.old past.now.entries }
    requires allowed { IsAllowed tables.old.setting past.now.entries (telling worker told.now reply) }
    ensures are { AreTables tables.new (telling worker told.now reply ∷ past.now.entries) }
    ensures setting { tables.new.setting ≡ tables.old.setting }
{
    if reply.is_refusal() {
        return;
    }
    put(tables, past, worker, told, reply);
}

/// Puts into the tables what the worker told, with a reply that is no refusal.
#[inline(always)]
fn put(tables: &mut Tables, past: &Past, worker: u32, told: &Told<'_>, reply: Reply)
    requires are { AreTables tables.old past.now.entries }
    requires allowed { IsAllowed tables.old.setting past.now.entries (telling worker told.now reply) }
    requires counts { counts reply ≡ true }
    requires worker { worker < length tables.old.peers }
    ensures entered { tables.new ≡ entered_call tables.old worker reply (action_told told.now) }
    ensures setting { tables.new.setting ≡ tables.old.setting }
{
    match told {
        Told::Join => tables.join(worker),
        Told::Bits(flags) => tables.put_bits(worker, flags),
        Told::Have(piece) => {
            tables.put_have(worker, *piece);
            tables.note_interest(worker, reply);
        }
        Told::Choke => tables.choke(worker),
        Told::Unchoke => tables.note(worker, Dealing::Unchoke),
        Told::Next(_) => {
            tables.learn(worker, reply);
            tables.put_next(worker, reply);
        }
        Told::Arrived { piece, begin, .. } => {
            tables.put_arrival(worker, *piece, *begin, reply);
        }
        Told::Leave => tables.leave(worker),
        Told::Want(flags) => tables.put_want(flags),
        Told::Haves(flags) => tables.put_haves(worker, flags),
        Told::Depth(depth) => tables.note(worker, Dealing::Depth(*depth)),
        Told::Release { piece, begin } => tables.put_release(worker, *piece, *begin),
        Told::Level { piece, level } => tables.put_level(*piece, *level),
        Told::Levels(levels) => tables.put_levels(levels),
        Told::InOrder(rising) => tables.put_order(if *rising { 0 } else { MOST_LEVEL + 1 }),
        Told::Reach(level) => tables.note(worker, Dealing::Reach(*level)),
        Told::InOrderFrom(level) => tables.put_order(*level),
        Told::Lack(piece) => tables.put_lack(worker, *piece),
        Told::Late { piece, begin } => tables.put_late(worker, *piece, *begin),
        Told::Alone(alone) => tables.put_alone(worker, *alone),
        Told::Lose(piece) => tables.put_loss(*piece),
        Told::Discard { piece, begin } => tables.put_discard(*piece, *begin),
        Told::Requested { .. } => tables.put_next(worker, reply),
    }
}

/// Enters a block that came and whose bytes the caller has, with its reply.
pub fn enter_block(
    tables: &mut Tables,
    past: &Past,
    worker: u32,
    piece: u32,
    begin: u32,
    bytes: &Unseen,
    reply: Reply,
)
    requires are { AreTables tables.old past.now.entries }
    requires allowed { IsAllowed tables.old.setting past.now.entries (arriving worker piece begin bytes.now.bytes reply) }
    ensures are { AreTables tables.new (arriving worker piece begin bytes.now.bytes reply ∷ past.now.entries) }
    ensures setting { tables.new.setting ≡ tables.old.setting }
{
    let _bytes = bytes;
    if reply.is_refusal() {
        return;
    }
    tables.put_arrival(worker, piece, begin, reply);
}

/// Enters the worker's verdict, with its reply.
pub fn enter_verdict(tables: &mut Tables, past: &Past, worker: u32, verdict: &Verdict, reply: Reply)
    requires are { AreTables tables.old past.now.entries }
    requires allowed { IsAllowed tables.old.setting past.now.entries (checking worker verdict.now.piece (checked.joined verdict.now) reply) }
    ensures are { AreTables tables.new (checking worker verdict.now.piece (checked.joined verdict.now) reply ∷ past.now.entries) }
    ensures setting { tables.new.setting ≡ tables.old.setting }
{
    if reply.is_refusal() {
        return;
    }
    tables.put_check(verdict.piece(), reply);
}

/// Enters the worker's check of what is held of the piece, with its reply.
pub fn enter_check(tables: &mut Tables, past: &Past, worker: u32, piece: u32, reply: Reply)
    requires are { AreTables tables.old past.now.entries }
    requires allowed { IsAllowed tables.old.setting past.now.entries (settling tables.old.setting past.now.entries worker piece reply) }
    requires counts { counts reply ≡ true }
    ensures are { AreTables tables.new (settling tables.old.setting past.now.entries worker piece reply ∷ past.now.entries) }
    ensures setting { tables.new.setting ≡ tables.old.setting }
{
    tables.put_check(piece, reply);
}
