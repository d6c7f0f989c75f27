//! What the threads of a run share, and what each of them has of its own.

ghost use Rattle.std.specs.Prelude.{◌≡◌, ◌≤◌, ℕ, [], Some, true, map, length, vec_capacity, vec_len, slice_index_or, IsTrue, IfOk, IfErr};
ghost use Rattle.std.specs.Prelude.{IfSome, IfNone, OnErr, OnOk};
ghost use Rattle.std.specs.List.{All};
ghost use Rattle.bt_board.specs.Story.{Seen};
ghost use Rattle.bt_check.specs.Checked.{Fits};
ghost use Rattle.bt_check.specs.Queues.{with_taken};
ghost use Rattle.bt_history.specs.Entries.{action_of, event};
ghost use Rattle.bt_history.specs.Legal.{IsLegal};
ghost use Rattle.bt_history.specs.Logs.{answers, call_mark};
ghost use Rattle.bt_history.specs.Pieces.{had};
ghost use Rattle.bt_history.specs.declared.mark.CallMark.TheVariants.{Settle};
ghost use Rattle.bt_meta.specs.Layout.{piece_count};
ghost use Rattle.bt_session.specs.Passes.{KeepsCalls};
ghost use Rattle.bt_session.specs.PieceChecks.{IsIdle, IsQuiet, MakesCheck, MayCheck, PutsIf, SeesTo, TakesNone, TakesPiece};
ghost use Rattle.bt_session.specs.Runs.{IsRunFault};
ghost use Rattle.bt_session.specs.Workers.{IsCheckOf, IsOfRun};
ghost use Rattle.bt_session.specs.Workers.{AreNamed, Belongs, Shares, StandInOrder, Takes, TellsNone, TellsOne, WorkerState, knows, with_tickets};
ghost use Rattle.bt_shared.specs.Closing.{EachKnows};
ghost use Rattle.bt_shared.specs.Gathering.{EachAgrees, EachFrom};
ghost use Rattle.bt_shared.specs.Passes.{Enters, Notes};
ghost use Rattle.bt_shared.specs.SharedJobs.{checking};

use crate::fault::SwarmFault;
use crate::run_name::RunName;
use bt_board::{Board, BoardSeat};
use bt_check::{Proven, Ticket, TicketPass, Tickets};
use bt_meta::Torrent;
use bt_picker::{Call, Reply};
use bt_shared::{Book, Pass, SharedDesk, SharedJob, SharedVerdict};
use std::alloc::{AllocError, Global};
use std::marker::{Model, PhantomData};
use std::sync::{Arc, Mutex, MutexGuard, Wait};

/// What a worker of a run has of its own. Contracts see the three parts.
pub struct Worker<L: RunName> {
    pass: Pass,
    seat: BoardSeat,
    tickets: TicketPass,
    run: PhantomData<L>,
}

/// The end of a worker is one call for whoever owns one.
impl<L: RunName> Drop for Worker<L> {
    fn drop(self) {
        let Worker {
            pass: _pass,
            seat: _seat,
            tickets: _tickets,
            run: _,
        } = self;
    }
}

impl<L: RunName> Model for Worker<L> {
    ghost use Rattle.bt_session.specs.Workers.{AreNamed, Belongs, WorkerState};

    ghost Value = { WorkerState };

    ghost view = { λ w. record { pass = w.pass; seat = w.seat; tickets = w.tickets } };

    ghost invariant = { λ w. Belongs L.setting L.desk L.board L.queue (record { pass = w.pass; seat = w.seat; tickets = w.tickets }) };
}

impl<L: RunName> Worker<L> {
    pub fn new(pass: Pass, seat: BoardSeat, tickets: TicketPass) -> Worker<L>
        requires { Belongs L.setting L.desk L.board L.queue (record { pass = pass; seat = seat; tickets = tickets }) }
        ensures { result ≡ record { pass = pass; seat = seat; tickets = tickets } }
    {
        Worker {
            pass,
            seat,
            tickets,
            run: PhantomData,
        }
    }

    /// What the worker has.
    pub fn into_parts(self) -> (Pass, BoardSeat, TicketPass)
        ensures parts { self ≡ record { pass = result.0; seat = result.1; tickets = result.2 } }
        ensures belongs { Belongs L.setting L.desk L.board L.queue (record { pass = result.0; seat = result.1; tickets = result.2 }) }
    {
        let Worker {
            pass,
            seat,
            tickets,
            run: _,
        } = self;
        (pass, seat, tickets)
    }

    /// The worker's number.
    pub fn number(&self) -> u32
        ensures { result ≡ self.now.pass.worker }
    {
        self.pass.worker()
    }
}

/// What the threads of a run share: the torrent, its desk, the board of its finished pieces, and the queue of tickets for pieces to be
/// checked, at which one checker takes its round at a time. Contracts see the torrent.
pub struct Commons<L: RunName> {
    torrent: Arc<Torrent>,
    desk: SharedDesk,
    board: Board,
    queue: Tickets,
    turn: Mutex<()>,
    run: PhantomData<L>,
}

/// The end of what the threads share is one call for whoever owns it.
impl<L: RunName> Drop for Commons<L> {
    fn drop(self) {
        let Commons {
            torrent: _torrent,
            desk: _desk,
            board: _board,
            queue: _queue,
            turn: _turn,
            run: _,
        } = self;
    }
}

impl<L: RunName> Model for Commons<L> {
    ghost use Rattle.std.specs.Arc.{arc_value};
    ghost use Rattle.bt_meta.specs.Layout.{Metainfo};
    ghost use Rattle.bt_session.specs.Workers.{Shares};

    ghost Value = { Metainfo };

    ghost view = { λ c. arc_value c.torrent };

    ghost invariant = { λ c. Shares L.setting L.desk L.board L.queue (arc_value c.torrent).layout c.desk c.board c.queue };
}

impl<L: RunName> Commons<L> {
    pub fn new(torrent: Arc<Torrent>, desk: SharedDesk, board: Board, queue: Tickets) -> Commons<L>
        requires { Shares L.setting L.desk L.board L.queue torrent.value.layout desk board queue }
        ensures { result ≡ torrent.value }
    {
        Commons {
            torrent,
            desk,
            board,
            queue,
            turn: Mutex::new(()),
            run: PhantomData,
        }
    }

    /// How many pieces the torrent has.
    pub fn piece_count(&self) -> u32
        ensures { result ≡ piece_count self.now.layout }
    {
        self.torrent.piece_count()
    }

    /// The torrent, shared once more.
    pub fn torrent(&self) -> Result<Arc<Torrent>, AllocError>
        ensures { IfOk result (λ torrent. torrent.value ≡ self.now) }
    {
        self.torrent.clone()
    }

    /// The worker's call at the desk. Waits for it. Without memory, no entry is made.
    pub fn call<T: Wait>(
        &self,
        rt: &T,
        worker: &mut Worker<L>,
        call: Call,
    ) -> Result<Reply, AllocError>
        ensures ok { IfOk result (λ reply. Enters (event worker.old.pass.worker call reply) worker.old.pass worker.new.pass) }
        ensures notes { IfOk result (λ reply. Notes worker.old.pass (call_mark (action_of call)) reply worker.new.pass) }
        ensures legal { IsLegal L.setting worker.new.pass.seen }
        ensures fits { IfOk result (λ reply. IsTrue (answers (call_mark (action_of call)) reply)) }
        ensures rest { (worker.new.seat ≡ worker.old.seat) × (worker.new.tickets ≡ worker.old.tickets) }
        ensures err { OnErr result (IsQuiet worker.old.pass worker.new.pass) }
        ensures kept { OnErr result (KeepsCalls worker.old.pass worker.new.pass) }
    {
        self.desk.call(rt, &mut worker.pass, call)
    }

    /// A finished piece that the worker's seat hasn't told. Waits for nobody.
    pub fn news(&self, worker: &mut Worker<L>) -> Option<u32>
        ensures rest { (worker.new.pass ≡ worker.old.pass) × (worker.new.tickets ≡ worker.old.tickets) }
        ensures some { IfSome result (λ piece. TellsOne L.setting worker.old.seat piece worker.new.seat) }
        ensures none { IfNone result (TellsNone L.setting worker.old.seat worker.new.seat) }
    {
        self.board.news(&mut worker.seat)
    }

    /// Whether the worker put the ticket. Waits while the queue is full.
    pub fn puts<T: Wait>(&self, rt: &T, worker: &mut Worker<L>, ticket: Ticket) -> bool
        ensures { PutsIf result ticket worker.old worker.new }
    {
        self.queue.put(rt, &mut worker.tickets, ticket).is_ok()
    }

    /// A checker's turn at the queue. Waits while another has it.
    pub(crate) fn turn<T: Wait>(&self, rt: &T) -> MutexGuard<'_, ()> {
        self.turn.lock(rt)
    }

    /// The piece of the next ticket; none where it is Stop, or no ticket comes. Waits while the queue is empty.
    pub fn next_piece<T: Wait>(&self, rt: &T, worker: &mut Worker<L>) -> Option<u32>
        ensures some { IfSome result (λ piece. TakesPiece worker.old piece worker.new) }
        ensures none { IfNone result (TakesNone worker.old worker.new) }
    {
        match self.queue.take(rt, &mut worker.tickets) {
            Some(Ticket::Piece(piece)) => Some(piece),
            Some(Ticket::Stop) | None => None,
        }
    }

    /// The ticket at the front, if there is one at this moment. Waits for none.
    pub fn ticket_at_hand<T: Wait>(&self, rt: &T, worker: &mut Worker<L>) -> Option<Ticket>
        ensures some { IfSome result (λ ticket. worker.new ≡ with_tickets worker.old (with_taken worker.old.tickets ticket)) }
        ensures none { IfNone result (worker.new ≡ worker.old) }
    {
        self.queue.try_take(rt, &mut worker.tickets)
    }

    /// The piece's job, if it waits for a check and there is memory for the job.
    pub(crate) fn job<T: Wait>(
        &self,
        rt: &T,
        alloc: Global,
        worker: &mut Worker<L>,
        piece: u32,
    ) -> Option<SharedJob>
        ensures idle { IsIdle worker.old worker.new }
        ensures job { IfSome result (λ job. IsCheckOf L.desk L.setting piece job) }
    {
        match self.desk.shared_job(rt, alloc, &mut worker.pass, piece) {
            Ok(job) => job,
            Err(_) => None,
        }
    }

    /// Hashes the piece, if it waits for a check, while others have the desk, settles what came out, and marks a piece that is had then. The
    /// piece may have got other bytes meanwhile, or have been checked: then the desk refuses the verdict. Without memory the check is given up.
    pub fn check<T: Wait>(
        &self,
        rt: &T,
        alloc: Global,
        worker: &mut Worker<L>,
        piece: u32,
    ) -> Result<(), AllocError>
        ensures may { MayCheck worker.old.pass piece worker.new.pass }
        ensures ok { OnOk result (SeesTo L.setting worker.old piece worker.new) }
        ensures err { OnErr result (IsIdle worker.old worker.new) }
    {
        match self.desk.shared_job(rt, alloc, &mut worker.pass, piece)? {
            Some(job) => self.settle(rt, worker, job.hash(alloc)?),
            None => Ok(()),
        }
    }

    /// Settles the verdict, and marks its piece if that is had then.
    pub(crate) fn settle<T: Wait>(
        &self,
        rt: &T,
        worker: &mut Worker<L>,
        verdict: SharedVerdict,
    ) -> Result<(), AllocError>
        requires { IsOfRun L.desk L.setting verdict }
        ensures ok { OnOk result (MakesCheck L.setting worker.old verdict.checked.piece worker.new) }
        ensures err { OnErr result (IsIdle worker.old worker.new) }
    {
        let proven = Proven::of(verdict.verdict().clone()?, &self.torrent);
        let reply = self.enter_verdict(rt, worker, verdict)?;
        if let Reply::Had = reply {
            // A piece is had by bytes with its hash alone.
            let Ok(proven) = proven else { unreachable!() };
            self.announce(worker, proven);
        }
        Ok(())
    }

    /// Settles the verdict at the desk. Waits for it. Without memory, no entry is made.
    fn enter_verdict<T: Wait>(
        &self,
        rt: &T,
        worker: &mut Worker<L>,
        verdict: SharedVerdict,
    ) -> Result<Reply, AllocError>
        requires { IsOfRun L.desk L.setting verdict }
        ensures ok { IfOk result (λ reply.
            Enters (checking worker.old.pass.worker verdict.checked reply) worker.old.pass worker.new.pass) }
        ensures notes { IfOk result (λ reply. Notes worker.old.pass (Settle verdict.checked.piece) reply worker.new.pass) }
        ensures legal { IsLegal L.setting worker.new.pass.seen }
        ensures rest { (worker.new.seat ≡ worker.old.seat) × (worker.new.tickets ≡ worker.old.tickets) }
        ensures err { OnErr result (IsQuiet worker.old.pass worker.new.pass) }
    {
        self.desk.settle(rt, &mut worker.pass, verdict)
    }

    /// Marks a piece that is had, so that the sessions tell of it.
    #[tactic(auto, using(crate::proofs::Passing::marked_known))]
    fn announce(&self, worker: &mut Worker<L>, proven: Proven)
        requires { Fits L.setting.torrent proven }
        ensures known { knows L.setting worker.new.seat proven.piece ≡ true }
        ensures rest { (worker.new.pass ≡ worker.old.pass) × (worker.new.tickets ≡ worker.old.tickets) }
    {
        self.board.mark(&mut worker.seat, proven);
    }

    /// The book of a run that is over: the desk and the workers' logs. Each piece that a worker's seat has seen is had there. Where there
    /// is no memory for it, all is dropped.
    pub fn gather(self, alloc: Global, workers: Vec<Worker<L>>) -> Result<Book, SwarmFault>
        requires some { 1 ≤ length workers.items }
        requires all { length workers.items ≡ L.setting.workers }
        requires order { StandInOrder workers.items }
        ensures setting { IfOk result (λ book. book.desk.setting ≡ L.setting) }
        ensures legal { IfOk result (λ book. IsLegal L.setting book.desk.history) }
        ensures count { IfOk result (λ book. length book.logs.items ≡ length workers.items) }
        ensures logs { IfOk result (λ book. EachFrom (map (λ w. w.pass) workers.items) book.logs.items) }
        ensures agrees { IfOk result (λ book. EachAgrees book.desk.history book.logs.items) }
        ensures err { IfErr result IsRunFault }
        // The journal begins with what each worker's pass has seen, and has no later entry of that worker.
        ensures seen { IfOk result (λ book. EachKnows book.desk.history (map (λ w. w.pass) workers.items)) }
        ensures had { IfOk result (λ book. All (λ w. (piece : ℕ) → knows L.setting w.seat piece ≡ true → had book.desk.history piece ≡ true)
            workers.items) }
    {
        let Commons {
            torrent: _,
            desk,
            board,
            queue: _,
            turn: _,
            run: _,
        } = self;
        let mut passes = Vec::with_capacity(alloc, workers.len())?;
        let Some(seat) = join_seats(&board, workers, &mut passes) else {
            unreachable!()
        };
        let Ok(bits) = board.close(alloc, seat) else {
            return Err(SwarmFault::NoMemory);
        };
        Ok(desk.gather(alloc, passes, Some(&bits))?)
    }
}

/// Parts the workers into their passes, in order, and one seat for all of theirs.
fn join_seats<L: RunName>(
    board: &Board,
    workers: Vec<Worker<L>>,
    passes: &mut Vec<Pass>,
) -> Option<BoardSeat>
    requires board { L.board ≡ Some board.now.table }
    requires room { (passes.old.items ≡ []) × (vec_len workers ≤ vec_capacity passes.old) }
    ensures passes { passes.new.items ≡ map (λ w. w.pass) workers.items }
    ensures named { AreNamed L.desk L.setting passes.new.items }
    ensures none { IfNone result (length workers.items ≡ 0) }
    ensures board { IfSome result (λ seat. seat.table ≡ board.now.table) }
    ensures takes { IfSome result (λ seat. All (Takes seat.view) workers.items) }
{
    let mut workers = workers.into_iter();
    let (pass, seat, _) = workers.next()?.into_parts();
    passes.push_reserved(pass);
    let mut all = seat;
    for worker in workers {
        let (pass, seat, _) = worker.into_parts();
        passes.push_reserved(pass);
        all = board.join(all, seat);
    }
    Some(all)
}
