//! A torrent, calls, and a shared desk with its passes.
ghost use Rattle.std.specs.Prelude.{◌≡◌, ◌≤◌, length, IfOk, IfSome};
ghost use Rattle.bt_shared.specs.Passes.{IsOf, IsSame};
ghost use Rattle.bt_shared.specs.SharedJobs.{IsForDesk};

use super::abc;
use bt_expect::same;
use bt_meta::Bitfield;
use bt_picker::{Call, CallMark, Mark, Reply, Rules};
use bt_shared::{Book, GatherFault, Pass, SharedDesk, SharedJob, SharedVerdict};
use bytes::Bytes;
use std::alloc::{AllocError, Global};
use std::marker::Model;
use std::process::Abort;
use std::sync::Wait;
use std::test::Fail;

/// A call by the pass, whose seat the tests hold by this alone.
pub fn called<R: Wait>(
    rt: &R,
    desk: &SharedDesk,
    pass: &mut Pass,
    call: Call,
) -> Result<Reply, AllocError>
    requires { pass.old.table ≡ desk.now.table }
    ensures { IsSame pass.old pass.new }
{
    desk.call(rt, pass, call)
}

/// A check of the piece by the pass.
fn settled<R: Wait>(
    rt: &R,
    alloc: Global,
    desk: &SharedDesk,
    pass: &mut Pass,
    piece: u32,
) -> Result<Reply, AllocError>
    requires { pass.old.table ≡ desk.now.table }
    ensures { IsSame pass.old pass.new }
{
    desk.settle_now(rt, alloc, pass, piece)
}

/// The second pass comes to know what the first one has seen.
fn meet<R: Wait>(rt: &R, desk: &SharedDesk, first: &mut Pass, second: &mut Pass)
    requires first { first.old.table ≡ desk.now.table }
    requires second { second.old.table ≡ desk.now.table }
    ensures first { IsSame first.old first.new }
    ensures second { IsSame second.old second.new }
{
    desk.meet(rt, first, second);
}

/// Whether the pass finds a job of the piece.
fn finds_job<R: Wait>(
    rt: &R,
    alloc: Global,
    desk: &SharedDesk,
    pass: &mut Pass,
    piece: u32,
) -> Result<bool, AllocError>
    requires { pass.old.table ≡ desk.now.table }
    ensures { IsSame pass.old pass.new }
{
    let job = desk.job(rt, alloc, pass, piece)?;
    Ok(job.is_some())
}

/// The job of the piece, for a verdict at this desk.
fn job_of<R: Wait>(
    rt: &R,
    alloc: Global,
    desk: &SharedDesk,
    pass: &mut Pass,
    piece: u32,
) -> Result<Option<SharedJob>, AllocError>
    requires { IsOf desk.now pass.old }
    ensures same { IsSame pass.old pass.new }
    ensures job { IfOk result (λ job. IfSome job (λ job. IsForDesk desk.now job)) }
{
    desk.shared_job(rt, alloc, pass, piece)
}

/// The settling of a verdict by the pass.
fn verdict_settled<R: Wait>(
    rt: &R,
    desk: &SharedDesk,
    pass: &mut Pass,
    verdict: SharedVerdict,
) -> Result<Reply, AllocError>
    requires pass { IsOf desk.now pass.old }
    requires verdict { IsForDesk desk.now verdict }
    ensures { IsSame pass.old pass.new }
{
    desk.settle(rt, pass, verdict)
}

/// A shared desk of the pieces `abc`, `abc` and `a`, and its passes.
pub struct Seated {
    desk: SharedDesk,
    passes: Vec<Pass>,
}

/// The end of a desk with its passes is one call for whoever owns one.
impl Drop for Seated {
    fn drop(self) {
        let Seated {
            desk: _desk,
            passes: _passes,
        } = self;
    }
}

impl Model for Seated {
    ghost use Rattle.std.specs.Prelude.{◌≡◌};
    ghost use Rattle.bt_meta.specs.Layout.{piece_count};
    ghost use Rattle.bt_shared.specs.Passes.{AreOf, SharedState};

    ghost Value = { SharedState };

    ghost view = { λ s. s.desk };

    ghost invariant = { λ s. AreOf s.desk s.passes.items × (piece_count s.desk.setting.torrent ≡ 3) };
}

impl Seated {
    /// A new desk of so many workers.
    pub fn open(rt: &impl Abort, alloc: Global, workers: u32) -> Result<Seated, Fail>
        requires { (1 ≤ workers) × (workers ≤ 1024) }
    {
        let torrent = abc::shared_torrent(rt, alloc)?;
        let (desk, passes) = SharedDesk::open(alloc, torrent, workers, Rules::usual())?;
        Ok(Seated { desk, passes })
    }

    /// The worker's call.
    fn call<R: Wait + Abort>(
        &mut self,
        rt: &R,
        worker: usize,
        call: Call,
    ) -> Result<Reply, AllocError>
        ensures { self.new ≡ self.old }
    {
        let Seated { desk, passes } = self;
        assert!(rt; worker < passes.len());
        called(rt, desk, &mut passes[worker], call)
    }

    /// The worker's call, which has to get this reply.
    pub fn says<R: Wait + Abort>(
        &mut self,
        rt: &R,
        worker: usize,
        call: Call,
        wanted: Reply,
    ) -> Result<(), Fail>
        ensures { self.new ≡ self.old }
    {
        let reply = self.call(rt, worker, call)?;
        same(reply, wanted)
    }

    /// The worker's check of a piece, which has to come to this.
    pub fn settles<R: Wait + Abort>(
        &mut self,
        rt: &R,
        alloc: Global,
        worker: usize,
        piece: u32,
        wanted: Reply,
    ) -> Result<(), Fail> {
        let reply = self.settle_now(rt, alloc, worker, piece)?;
        same(reply, wanted)
    }

    /// The worker's check of a piece.
    fn settle_now<R: Wait + Abort>(
        &mut self,
        rt: &R,
        alloc: Global,
        worker: usize,
        piece: u32,
    ) -> Result<Reply, AllocError> {
        let Seated { desk, passes } = self;
        assert!(rt; worker < passes.len());
        settled(rt, alloc, desk, &mut passes[worker], piece)
    }

    /// Whether there is a job of the piece, which has to be so.
    pub fn finds<R: Wait + Abort>(
        &mut self,
        rt: &R,
        alloc: Global,
        worker: usize,
        piece: u32,
        wanted: bool,
    ) -> Result<(), Fail> {
        let has_job = self.has_job(rt, alloc, worker, piece)?;
        same(has_job, wanted)
    }

    /// Whether there is a job of the piece.
    fn has_job<R: Wait + Abort>(
        &mut self,
        rt: &R,
        alloc: Global,
        worker: usize,
        piece: u32,
    ) -> Result<bool, AllocError> {
        let Seated { desk, passes } = self;
        assert!(rt; worker < passes.len());
        finds_job(rt, alloc, desk, &mut passes[worker], piece)
    }

    /// The verdict of the piece, which the worker finds waiting for its check.
    pub fn hashed<R: Wait + Abort>(
        &mut self,
        rt: &R,
        alloc: Global,
        worker: usize,
        piece: u32,
    ) -> Result<SharedVerdict, Fail>
        ensures verdict { IfOk result (λ verdict. IsForDesk self.old verdict) }
        ensures same { self.new ≡ self.old }
    {
        let job = self.job(rt, alloc, worker, piece)?;
        let job = job.expect(rt, "no check is waited for");
        Ok(job.hash(alloc)?)
    }

    /// The job of the piece, where the worker finds it waiting for its check.
    fn job<R: Wait + Abort>(
        &mut self,
        rt: &R,
        alloc: Global,
        worker: usize,
        piece: u32,
    ) -> Result<Option<SharedJob>, AllocError>
        ensures job { IfOk result (λ job. IfSome job (λ job. IsForDesk self.old job)) }
        ensures same { self.new ≡ self.old }
    {
        let Seated { desk, passes } = self;
        assert!(rt; worker < passes.len());
        job_of(rt, alloc, desk, &mut passes[worker], piece)
    }

    /// The worker settles a verdict of this desk, which has to come to this.
    pub fn settles_verdict<R: Wait + Abort>(
        &mut self,
        rt: &R,
        worker: usize,
        verdict: SharedVerdict,
        wanted: Reply,
    ) -> Result<(), Fail>
        requires { IsForDesk self.old verdict }
        ensures { self.new ≡ self.old }
    {
        let Seated { desk, passes } = self;
        assert!(rt; worker < passes.len());
        let reply = verdict_settled(rt, desk, &mut passes[worker], verdict)?;
        same(reply, wanted)
    }

    /// The worker's log.
    pub fn log(&self, rt: &impl Abort, worker: usize) -> &[Mark] {
        assert!(rt; worker < self.passes.len());
        self.passes[worker].log()
    }

    /// Loses the pass of this worker; that of the last one is then in its place.
    pub fn lose(&mut self, rt: &impl Abort, worker: usize) {
        assert!(rt; worker < self.passes.len());
        self.passes.swap_remove(worker);
    }

    /// Takes out the pass of the last worker whose pass is there.
    pub fn take(&mut self, rt: &impl Abort) -> Pass
        ensures same { self.new ≡ self.old }
        ensures pass { IsOf self.old result }
    {
        self.passes.pop().expect(rt, "no pass is left")
    }

    /// Puts two passes back, the first one first.
    pub fn give_two(&mut self, first: Pass, second: Pass) -> Result<(), AllocError>
        requires first { IsOf self.old first }
        requires second { IsOf self.old second }
    {
        self.give(first)?;
        self.give(second)
    }

    /// The passes of two workers meet, and change places: the second one then knows what the first has seen, and comes first.
    pub fn meet_and_turn<R: Wait + Abort>(&mut self, rt: &R) -> Result<(), AllocError> {
        let mut second = self.take(rt);
        let mut first = self.take(rt);
        meet(rt, &self.desk, &mut first, &mut second);
        self.give_two(second, first)
    }

    /// Puts a pass back.
    fn give(&mut self, pass: Pass) -> Result<(), AllocError>
        requires { IsOf self.old pass }
        ensures { self.new ≡ self.old }
    {
        self.passes.push(pass)?;
        Ok(())
    }

    /// The desk, for the passes that were taken out.
    pub fn desk(&self) -> &SharedDesk
        ensures { result.now ≡ self.now }
    {
        &self.desk
    }

    pub fn gather(self, alloc: Global) -> Result<Book, GatherFault> {
        let Seated { desk, passes } = self;
        desk.gather(alloc, passes, None)
    }

    /// Gathers beside the bitfield that has this byte on the wire.
    pub fn gather_beside(self, alloc: Global, byte: u8) -> Result<Result<Book, GatherFault>, Fail> {
        let Seated { desk, passes } = self;
        let bits = bits(alloc, byte)?;
        Ok(desk.gather(alloc, passes, Some(&bits)))
    }
}

/// Why a desk wasn't gathered, if so; want of memory is no answer.
pub fn cause(gathered: Result<Book, GatherFault>) -> Result<Option<GatherFault>, Fail> {
    match gathered {
        Ok(_) => Ok(None),
        Err(GatherFault::NoMemory) => Err(GatherFault::NoMemory)?,
        Err(fault) => Ok(Some(fault)),
    }
}

/// The bitfield of three pieces that has this byte on the wire.
pub fn bits(alloc: Global, byte: u8) -> Result<Bitfield, Fail>
    ensures { IfOk result (λ bits. length bits ≡ 3) }
{
    Ok(Bitfield::from_wire(alloc, &[byte], 3)?)
}

/// The first block of the piece.
pub fn block(piece: u32, bytes: &'static [u8]) -> Call {
    Call::Arrived {
        piece,
        begin: 0,
        bytes: Bytes::from_static(bytes),
    }
}

/// The last piece arrives.
pub const ARRIVED: CallMark = CallMark::Arrived {
    piece: 2,
    begin: 0,
    len: 1,
};

/// A desk is gathered, and the book's logs have to be these.
pub fn gathers(
    rt: &impl Abort,
    gathered: Result<Book, GatherFault>,
    wanted: &[&[Mark]],
) -> Result<(), Fail> {
    let book = gathered?;
    logs_are(rt, &book, wanted)
}

/// The logs of the workers in the book, which have to be these.
fn logs_are(rt: &impl Abort, book: &Book, wanted: &[&[Mark]]) -> Result<(), Fail> {
    same(book.logs.len(), wanted.len())?;
    for worker in 0..wanted.len() {
        same(log_of(rt, book, worker), wanted[worker])?;
    }
    Ok(())
}

/// The log of a worker in the book.
pub fn log_of<'a>(rt: &impl Abort, book: &'a Book, worker: usize) -> &'a [Mark] {
    assert!(rt; worker < book.logs.len());
    &book.logs[worker]
}
