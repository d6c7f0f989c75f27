//! Gathering: the seats are joined, the table is closed, and each log is compared with the journal.

ghost use Rattle.std.specs.Prelude.{◌≡◌, ◌++◌, ◌<◌, ◌≤◌, ◌^◌, ℕ, [], length, option_copied, vec_len, IfErr, IfNone, IfOk, IfSome, IsSome, IsSomeAnd};
ghost use Rattle.bt_meta.specs.Layout.{piece_count};
ghost use Rattle.bt_history.specs.Legal.{IsLegal};
ghost use Rattle.bt_shared.specs.Closing.{AreCounted, EachKnows, EachOwn, IsEntered, IsEveryone, IsJoined, slot_if_free};
ghost use Rattle.bt_shared.specs.Gathering.{AreHad, EachAgrees, EachEmpty, EachFrom, IsCause, IsDifference, IsNotMissing, held_by};
ghost use Rattle.bt_shared.specs.Guard.{IsDesk, IsIdle, Saw, Slot};
ghost use Rattle.bt_shared.specs.Passes.{AreOf};
ghost use Rattle.bt_shared.specs.Seen.{Each};
ghost use Rattle.bt_shared.specs.declared.gather.GatherFault.TheVariants.{NoMemory};

use crate::closing::{close, joined};
use crate::compare::{first_differing, first_other};
use crate::entering::entries_of;
use crate::lock::{DeskSeat, Desks, Held, Words};
use crate::pass::Pass;
use bt_meta::Bitfield;
use bt_picker::{Desk, Mark};
use std::alloc::{AllocError, AllocFailed, Global};
use thiserror::Error;

/// What is left of a shared desk once all are done with it.
#[derive(Drop)]
pub struct Book {
    pub desk: Desk,
    /// A log for each worker, in order, empty where no pass came.
    pub logs: Vec<Vec<Mark>>,
}

/// Why a shared desk wasn't gathered. Want of memory is found first, then these in order.
#[derive(Clone, Copy, Debug, PartialEq, Eq, Error)]
pub enum GatherFault {
    /// The passes have `held` marks together, and the journal has another number of entries. Where a pass that isn't there was lost in the
    /// middle of its call, the desk is lost with it, and `journal` is `held` and one.
    #[error("the passes have {held} calls, and the journal has {journal}")]
    PassMissing { held: usize, journal: usize },
    /// The least worker whose log isn't what the journal has of it, and the least index in its log where they differ.
    #[error("the log of worker {worker} differs from the journal at index {place}")]
    LogsDiffer { worker: u32, place: usize },
    /// The least piece that is had by one of bitfield and journal alone.
    #[error("piece {piece} is had by one of bitfield and journal alone")]
    BoardDiffers { piece: u32 },
    #[error("no memory")]
    NoMemory,
}

impl From<AllocError> for GatherFault {
    ghost from_gives = { λ _ fault. fault ≡ NoMemory };

    fn from(_error: AllocError) -> GatherFault {
        GatherFault::NoMemory
    }
}

/// So many empty logs.
fn empty_logs(alloc: Global, count: u32) -> Result<Vec<Vec<Mark>>, AllocError>
    ensures count { IfOk result (λ logs. vec_len logs ≡ count) }
    ensures empty { IfOk result (λ logs. EachEmpty logs.items) }
{
    let mut logs = Vec::new(alloc);
    for _ in 0..count {
        logs.push(Vec::new(alloc))?;
    }
    Ok(logs)
}

/// Joins the passes' seats into one, puts each log at its worker's place, and counts the marks.
fn spread(
    words: &Words<Desk>,
    mut passes: Vec<Pass>,
    logs: &mut Vec<Vec<Mark>>,
) -> (usize, Option<DeskSeat<Desk>>)
    requires desk { IsDesk words.now.table_id.words words.now.table_id.slots }
    requires passes { AreOf (record { table = words.now.table_id; setting = words.now.key }) passes.items }
    requires room { vec_len logs.old ≡ words.now.key.workers }
    requires empty { EachEmpty logs.old.items }
    ensures held { result.0 ≡ held_by passes.items }
    ensures none { IfNone result.1 (passes.items ≡ []) }
    ensures all { IfSome result.1 (λ seat. (seat.table_id ≡ words.now.table_id) × IsJoined passes.items seat.me) }
    ensures own { EachOwn passes.items }
    ensures count { vec_len logs.new ≡ vec_len logs.old }
    ensures logs { EachFrom passes.items logs.new.items }
{
    let mut held = 0usize;
    let mut all = None;
    while let Some(pass) = passes.pop() {
        let Pass { worker, seat, log } = pass;
        held = held.saturating_add(log.len());
        logs[worker as usize] = log;
        all = Some(joined(words, seat, all));
    }
    (held, all)
}

/// The desk that was held.
fn desk_of(held: Option<Held<Desk>>) -> Option<Desk>
    ensures { result ≡ held }
{
    let Held { desk } = held?;
    Some(Box::into_inner(desk))
}

/// Puts each log at its worker's place, counts the marks, and takes the desk out of its slot, if the word is free.
fn take_apart(
    table: Desks<Desk>,
    passes: Vec<Pass>,
    logs: &mut Vec<Vec<Mark>>,
) -> (usize, Option<Desk>)
    requires desk { IsDesk table.shared.table_id.words table.shared.table_id.slots }
    requires workers { 1 ≤ table.shared.key.workers }
    requires passes { AreOf (record { table = table.shared.table_id; setting = table.shared.key }) passes.items }
    requires room { vec_len logs.old ≡ table.shared.key.workers }
    requires empty { EachEmpty logs.old.items }
    ensures held { result.0 ≡ held_by passes.items }
    ensures setting { IfSome result.1 (λ desk. desk.setting ≡ table.shared.key) }
    ensures seen { IfSome result.1 (λ desk. EachKnows desk.history passes.items) }
    ensures all { vec_len passes ≡ table.shared.key.workers → IsSomeAnd result.1 (λ desk. IsEntered desk passes.items) }
    ensures count { vec_len logs.new ≡ vec_len logs.old }
    ensures logs { EachFrom passes.items logs.new.items }
{
    let (held, all) = spread(&table.shared, passes, logs);
    (held, desk_of(close(table, all)))
}

/// Why the desk's journal isn't what the logs, with so many marks, and the bitfield tell: the first cause that holds.
fn difference(
    desk: &Desk,
    logs: &[Vec<Mark>],
    held: usize,
    bits: Option<&Bitfield>,
) -> Option<GatherFault>
    requires few { length logs.now < 2 ^ 32 }
    requires bits { IfSome bits (λ bits. length bits.now ≡ piece_count desk.now.setting.torrent) }
    ensures legal { IsLegal desk.now.setting desk.now.history }
    ensures some { IfSome result (IsDifference desk.now.history held logs.now (option_copied bits.entry)) }
    ensures held { IfNone result (held ≡ length desk.now.history) }
    ensures agrees { IfNone result (EachAgrees desk.now.history logs.now) }
    ensures bits { IfNone result (IfSome bits.entry (λ bits. AreHad bits.now desk.now.history)) }
{
    let journal = entries_of(desk);
    if held != journal {
        return Some(GatherFault::PassMissing { held, journal });
    }
    if let Some((worker, place)) = first_differing(desk.journal(), logs) {
        return Some(GatherFault::LogsDiffer { worker, place });
    }
    let piece = first_other(desk, bits?)?;
    Some(GatherFault::BoardDiffers { piece })
}

/// The desk of all calls, with a log for each worker, if the passes have all calls of the journal, each at its place, and the bitfield, if
/// there is one, has exactly the pieces that are had.
pub(crate) fn gather(
    table: Desks<Desk>,
    workers: u32,
    alloc: Global,
    passes: Vec<Pass>,
    bits: Option<&Bitfield>,
) -> Result<Book, GatherFault>
    requires desk { IsDesk table.shared.table_id.words table.shared.table_id.slots }
    requires workers { (workers ≡ table.shared.key.workers) × (1 ≤ workers) }
    requires passes { AreOf (record { table = table.shared.table_id; setting = table.shared.key }) passes.items }
    requires bits { IfSome bits (λ bits. length bits.now ≡ piece_count table.shared.key.torrent) }
    ensures setting { IfOk result (λ book. book.desk.setting ≡ table.shared.key) }
    ensures legal { IfOk result (λ book. IsLegal table.shared.key book.desk.history) }
    ensures count { IfOk result (λ book. vec_len book.logs ≡ workers) }
    ensures logs { IfOk result (λ book. EachFrom passes.items book.logs.items) }
    ensures seen { IfOk result (λ book. EachKnows book.desk.history passes.items) }
    ensures agrees { IfOk result (λ book. EachAgrees book.desk.history book.logs.items) }
    ensures bits { IfOk result (λ book. IfSome bits.entry (λ bits. AreHad bits.now book.desk.history)) }
    ensures err { IfErr result (IsCause table.shared.key passes.items (option_copied bits.entry)) }
    ensures all { vec_len passes ≡ table.shared.key.workers → IfErr result IsNotMissing }
{
    let mut logs = empty_logs(alloc, workers)?;
    let (held, desk) = take_apart(table, passes, &mut logs);
    let Some(desk) = desk else {
        let journal = held.wrapping_add(1);
        return Err(GatherFault::PassMissing { held, journal });
    };
    if let Some(fault) = difference(&desk, &logs, held, bits) {
        return Err(fault);
    }
    Ok(Book { desk, logs })
}
