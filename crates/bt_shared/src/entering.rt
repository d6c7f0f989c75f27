//! Calls at a desk that is had alone, each with its mark.
ghost use Rattle.std.specs.Prelude.{◌≡◌, ◌++◌, ◌∷◌, ◌<◌, [], false, length, IfOk, IfSome, IsOk, OnErr, IsTrue};
ghost use Rattle.bt_history.specs.Entries.{action_of, event};
ghost use Rattle.bt_history.specs.Legal.{IsLegal};
ghost use Rattle.bt_history.specs.Logs.{answers, call_mark, mark_of};
ghost use Rattle.bt_history.specs.declared.mark.CallMark.TheVariants.{Settle};
ghost use Rattle.bt_picker.specs.Checks.{IsJobOf, SettlesNow, waits};
ghost use Rattle.bt_picker.specs.Lasting.{WasDue};
ghost use Rattle.bt_picker.specs.Positions.{Gains};
ghost use Rattle.bt_shared.specs.Passes.{HasLengths, LogsIf};
ghost use Rattle.bt_shared.specs.Seen.{Grows};
ghost use Rattle.bt_shared.specs.SharedJobs.{checking};

use bt_check::{Job, Verdict};
use bt_picker::{Call, CallMark, Desk, Mark, Reply};
use std::alloc::{AllocError, Global};
use std::sync::Arc;

/// Tells a proof that the desk's history is legal. Nothing is done: that the journal is read is what opens the desk's invariant.
pub(crate) fn attest(desk: &Desk)
    ensures { IsLegal desk.now.setting desk.now.history }
{
    let _journal = desk.journal();
}

/// How many entries the desk's journal has, which is legal.
#[tactic(auto, using(bt_history::proofs::Journals::history_length))]
pub(crate) fn entries_of(desk: &Desk) -> usize
    ensures entries { result ≡ length desk.now.history }
    ensures legal { IsLegal desk.now.setting desk.now.history }
{
    desk.journal().len()
}

/// The worker's call, whose mark goes to the log. Without memory for either, nothing changes.
pub(crate) fn enter(
    desk: &mut Desk,
    worker: u32,
    log: &mut Vec<Mark>,
    call: Call,
) -> Result<Reply, AllocError>
    requires { worker < desk.old.setting.workers }
    ensures ok { IfOk result (λ reply. Gains desk.old desk.new (event worker call reply)) }
    ensures log { IfOk result (λ reply.
        log.new.items ≡ log.old.items ++ mark_of (length desk.old.history) (event worker call reply) ∷ []) }
    ensures fits { IfOk result (λ reply. IsTrue (answers (call_mark (action_of call)) reply)) }
    ensures err { OnErr result ((desk.new ≡ desk.old) × (log.new.items ≡ log.old.items)) }
    ensures setting { desk.new.setting ≡ desk.old.setting }
    ensures legal { IsLegal desk.new.setting desk.new.history }
{
    let place = entries_of(desk);
    log.reserve(1)?;
    let mark = call.mark();
    let made = desk.call(worker, call);
    attest(desk);
    let reply = made?;
    log.push_reserved(Mark {
        place,
        call: mark,
        reply,
    });
    Ok(reply)
}

/// The check of a piece that waits for one, whose mark goes to the log. Without memory for either, nothing changes.
pub(crate) fn enter_check(
    desk: &mut Desk,
    alloc: Global,
    worker: u32,
    log: &mut Vec<Mark>,
    piece: u32,
) -> Result<Reply, AllocError>
    requires { worker < desk.old.setting.workers }
    ensures ok { IfOk result (λ reply. SettlesNow desk.old desk.new worker piece reply) }
    ensures log { IfOk result (λ reply.
        LogsIf (waits desk.old.setting desk.old.history piece) (length desk.old.history) log.old.items piece reply log.new.items) }
    ensures fits { IfOk result (λ reply. IsTrue (answers (Settle piece) reply)) }
    ensures unasked { waits desk.old.setting desk.old.history piece ≡ false → IsOk result }
    ensures err { OnErr result ((desk.new ≡ desk.old) × (log.new.items ≡ log.old.items)) }
    ensures grows { Grows (worker ∷ []) desk.old.history desk.new.history }
    ensures setting { desk.new.setting ≡ desk.old.setting }
    ensures legal { IsLegal desk.new.setting desk.new.history }
{
    let place = entries_of(desk);
    if !desk.picker().is_waiting(piece) {
        let made = desk.settle_now(alloc, worker, piece);
        attest(desk);
        return made;
    }
    log.reserve(1)?;
    let made = desk.settle_now(alloc, worker, piece);
    attest(desk);
    let reply = made?;
    log.push_reserved(Mark {
        place,
        call: CallMark::Settle(piece),
        reply,
    });
    Ok(reply)
}

/// The settling of a verdict of bytes that were held when so many checks had failed, whose mark goes to the log. Without memory for either,
/// nothing changes.
pub(crate) fn enter_verdict(
    desk: &mut Desk,
    worker: u32,
    log: &mut Vec<Mark>,
    verdict: Arc<Verdict>,
    failures: u64,
) -> Result<Reply, AllocError>
    requires worker { worker < desk.old.setting.workers }
    requires due { WasDue desk.old.setting desk.old.history failures verdict.value }
    ensures ok { IfOk result (λ reply. Gains desk.old desk.new (checking worker verdict.value reply)) }
    ensures log { IfOk result (λ reply.
        log.new.items ≡ log.old.items ++ mark_of (length desk.old.history) (checking worker verdict.value reply) ∷ []) }
    ensures fits { IfOk result (λ reply. IsTrue (answers (Settle verdict.value.piece) reply)) }
    ensures err { OnErr result ((desk.new ≡ desk.old) × (log.new.items ≡ log.old.items)) }
    ensures setting { desk.new.setting ≡ desk.old.setting }
    ensures legal { IsLegal desk.new.setting desk.new.history }
{
    let place = entries_of(desk);
    log.reserve(1)?;
    let call = CallMark::Settle(verdict.piece());
    let made = desk.settle_since(worker, verdict, failures);
    attest(desk);
    let reply = made?;
    log.push_reserved(Mark { place, call, reply });
    Ok(reply)
}

/// The job of checking the piece, if it waits for a check. Memory is taken for such a piece alone.
pub(crate) fn job_of(desk: &Desk, alloc: Global, piece: u32) -> Result<Option<Job>, AllocError>
    ensures job { IfOk result (λ job. IsJobOf desk.now.setting desk.now.history piece job) }
    ensures lengths { IfOk result (λ job. IfSome job (λ job.
        (job.piece ≡ piece) × HasLengths desk.now.setting.torrent piece job.blocks.items)) }
    ensures unasked { waits desk.now.setting desk.now.history piece ≡ false → IsOk result }
{
    attest(desk);
    desk.job(alloc, piece)
}
