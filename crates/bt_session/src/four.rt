//! Checks of several pieces, up to four of them hashed side by side.

ghost use Rattle.std.specs.Prelude.{◌≡◌, ◌≤◌, [], ◌∷◌, if◌then◌else◌, length, take, IfSome};
ghost use Rattle.bt_session.specs.PieceChecks.{GoesThrough, IsIdle, SeesOrGivesUp};
ghost use Rattle.bt_session.specs.Workers.{AreChecksOf, AreOfRun, BeginWith, IsOfRun, pieces_of};

use crate::commons::{Commons, Worker};
use crate::run_name::RunName;
use bt_shared::{SharedJob, SharedVerdict};
use std::alloc::Global;
use std::sync::Wait;

/// The pieces for the four lanes, if two to four wait: these, and the first of them once more where lanes are left. Two pieces take less time
/// in four lanes than one after the other.
fn lanes_of(pieces: &[u32]) -> Option<[u32; 4]>
    ensures few { IfSome result (λ lanes. 2 ≤ length pieces.now) }
    ensures first { IfSome result (λ lanes. take (length pieces.now) lanes ≡ pieces.now) }
{
    match *pieces {
        [first, second] => Some([first, second, first, second]),
        [first, second, third] => Some([first, second, third, first]),
        [first, second, third, fourth] => Some([first, second, third, fourth]),
        _ => None,
    }
}

impl<L: RunName> Commons<L> {
    /// Sees to the pieces, one after the other. Two to four that all wait for their checks are hashed side by side. Whether a check was given up
    /// for want of memory; the others are made.
    pub fn check_all<T: Wait>(
        &self,
        rt: &T,
        alloc: Global,
        worker: &mut Worker<L>,
        pieces: &[u32],
    ) -> bool
        ensures { GoesThrough L.setting worker.old pieces.now result worker.new }
    {
        match self.verdicts_of(rt, alloc, worker, pieces) {
            Some(verdicts) => self.settle_first(rt, worker, pieces.len(), verdicts),
            None => self.check_each(rt, alloc, worker, pieces),
        }
    }

    /// The verdicts of the pieces in front of those of the lanes that were left, hashed side by side, if these are two to four and each waits
    /// for a check. None where there is no memory for one.
    fn verdicts_of<T: Wait>(
        &self,
        rt: &T,
        alloc: Global,
        worker: &mut Worker<L>,
        pieces: &[u32],
    ) -> Option<(SharedVerdict, SharedVerdict, SharedVerdict, SharedVerdict)>
        ensures idle { IsIdle worker.old worker.new }
        ensures pieces { IfSome result (λ four. BeginWith L.desk L.setting pieces.now (four.0 ∷ four.1 ∷ four.2 ∷ four.3 ∷ [])) }
    {
        // The last piece may be shorter than the others. Then nothing goes side by side, and lanes that repeat a piece would hash it twice.
        if pieces.len() < 4 && pieces.contains(&self.piece_count().saturating_sub(1)) {
            return None;
        }
        let lanes = lanes_of(pieces)?;
        let (first, second, third, fourth) = self.jobs_of(rt, alloc, worker, lanes)?;
        match SharedJob::hash_four(alloc, first, second, third, fourth) {
            Ok(verdicts) => Some(verdicts),
            Err(_) => None,
        }
    }

    /// The jobs of the pieces, if each waits for a check. None where there is no memory for one.
    fn jobs_of<T: Wait>(
        &self,
        rt: &T,
        alloc: Global,
        worker: &mut Worker<L>,
        pieces: [u32; 4],
    ) -> Option<(SharedJob, SharedJob, SharedJob, SharedJob)>
        ensures idle { IsIdle worker.old worker.new }
        ensures pieces { IfSome result (λ four. AreChecksOf L.desk L.setting pieces (four.0 ∷ four.1 ∷ four.2 ∷ four.3 ∷ [])) }
    {
        let first = self.job(rt, alloc, worker, pieces[0])?;
        let second = self.job(rt, alloc, worker, pieces[1])?;
        let third = self.job(rt, alloc, worker, pieces[2])?;
        let fourth = self.job(rt, alloc, worker, pieces[3])?;
        Some((first, second, third, fourth))
    }

    /// Settles the first verdicts, two or more, one after the other. Whether one was given up for want of memory.
    fn settle_first<T: Wait>(
        &self,
        rt: &T,
        worker: &mut Worker<L>,
        count: usize,
        four: (SharedVerdict, SharedVerdict, SharedVerdict, SharedVerdict),
    ) -> bool
        requires run { AreOfRun L.desk L.setting (four.0 ∷ four.1 ∷ four.2 ∷ four.3 ∷ []) }
        requires some { 2 ≤ count }
        ensures { GoesThrough L.setting worker.old (take count (pieces_of (four.0 ∷ four.1 ∷ four.2 ∷ four.3 ∷ []))) result worker.new }
    {
        let (first, second, third, fourth) = four;
        let first = self.settle_or_not(rt, worker, first);
        let second = self.settle_or_not(rt, worker, second);
        let third = self.settle_if(rt, worker, count > 2, third);
        let fourth = self.settle_if(rt, worker, count > 3, fourth);
        first | second | third | fourth
    }

    /// Settles the verdict if it is asked for. Whether it was given up for want of memory.
    fn settle_if<T: Wait>(
        &self,
        rt: &T,
        worker: &mut Worker<L>,
        asked: bool,
        verdict: SharedVerdict,
    ) -> bool
        requires { IsOfRun L.desk L.setting verdict }
        ensures { GoesThrough L.setting worker.old (if asked then verdict.checked.piece ∷ [] else []) result worker.new }
    {
        asked && self.settle_or_not(rt, worker, verdict)
    }

    /// Settles the verdict. Whether it was given up for want of memory.
    fn settle_or_not<T: Wait>(&self, rt: &T, worker: &mut Worker<L>, verdict: SharedVerdict) -> bool
        requires { IsOfRun L.desk L.setting verdict }
        ensures { SeesOrGivesUp L.setting worker.old verdict.checked.piece result worker.new }
    {
        match self.settle(rt, worker, verdict) {
            Ok(()) => false,
            Err(_) => true,
        }
    }

    /// Sees to the pieces, one after the other, each hashed alone. Whether a check was given up for want of memory.
    fn check_each<T: Wait>(
        &self,
        rt: &T,
        alloc: Global,
        worker: &mut Worker<L>,
        pieces: &[u32],
    ) -> bool
        ensures { GoesThrough L.setting worker.old pieces.now result worker.new }
    {
        let mut given_up = false;
        for piece in pieces {
            given_up |= self.check_or_not(rt, alloc, worker, *piece);
        }
        given_up
    }

    /// Sees to the piece. Whether its check was given up for want of memory.
    fn check_or_not<T: Wait>(
        &self,
        rt: &T,
        alloc: Global,
        worker: &mut Worker<L>,
        piece: u32,
    ) -> bool
        ensures { SeesOrGivesUp L.setting worker.old piece result worker.new }
    {
        match self.check(rt, alloc, worker, piece) {
            Ok(()) => false,
            Err(_) => true,
        }
    }
}
