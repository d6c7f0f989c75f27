//! Calls at random, and an audit of what came of them. Levels and the order are also told anew from the journal.
ghost use Rattle.std.specs.Prelude.{◌≡◌, ◌<◌, ◌≤◌, IfOk};
ghost use Rattle.bt_meta.specs.Layout.{piece_count};
ghost use Rattle.bt_history.specs.Setting.{AreRules};

use super::audits::finds;
use super::steps::hashed;
use bt_meta::{Bitfield, Block, Torrent};
use bt_picker::*;
use bytes::Bytes;
use rand_core::Rng;
use rand_pcg::Lcg64Xsh32;
use std::alloc::{AllocError, Global};
use std::process::Abort;
use std::sync::Arc;
use std::test::*;

const WORKERS: u32 = 4;

/// The SHA-1 of 16,386 bytes `a`, by another program.
const LONG: [u8; 20] = [
    0xb8, 0xbd, 0x3e, 0x9a, 0x42, 0xf6, 0x3e, 0xfe, 0x19, 0xce, 0x02, 0x98, 0x61, 0x5b, 0x24, 0x52,
    0xb6, 0x35, 0x28, 0xa6,
];

/// The SHA-1 of 16,384 bytes `a`, by another program.
const SHORT: [u8; 20] = [
    0x12, 0xff, 0x34, 0x7b, 0x4f, 0x27, 0xd6, 0x9e, 0x1f, 0x32, 0x8e, 0x6f, 0x4b, 0x55, 0x73, 0xe3,
    0x66, 0x6e, 0x12, 0x2f,
];

const RIGHT: [u8; 16384] = [b'a'; 16384];

const WRONG: [u8; 16384] = [b'b'; 16384];

/// A torrent of pieces of this length; its caller's proof doesn't compute with the numbers.
fn torrent_of(piece_length: u32, total: u64, hashes: Vec<[u8; 20]>) -> Result<Torrent, Fail> {
    Ok(Torrent::of_parts(piece_length, total, hashes, [0; 20])?)
}

/// Three pieces of two blocks, 16,384 and 2 bytes, and one of a whole block.
fn torrent(rt: &impl Abort, alloc: Global) -> Result<Arc<Torrent>, Fail>
    ensures { IfOk result (λ torrent. piece_count torrent.value.layout ≡ 4) }
{
    let torrent = torrent_of(16386, 3 * 16386 + 16384, hashes(alloc)?)?;
    assert!(rt; torrent.piece_count() == 4);
    Ok(Arc::new(alloc, torrent)?)
}

fn hashes(alloc: Global) -> Result<Vec<[u8; 20]>, AllocError> {
    Ok(vec![in alloc; LONG, LONG, LONG, SHORT]?)
}

/// Of so many cases, one.
fn one_of(rng: &mut Lcg64Xsh32, cases: u32) -> u32
    requires { 0 < cases }
    ensures { result < cases }
{
    rng.next_u32() % cases
}

/// Rules for that torrent: every other time such that a pipe fills soon, with a bound on the peers of a block or none, with depths that
/// may be told or none, with begun pieces first or the rarest, and with an endgame of any blocks or of few, over all pieces or the shown ones.
fn any_rules(rng: &mut Lcg64Xsh32) -> Rules
    ensures shallow { 1 ≤ result.depth }
    ensures deep { result.depth ≤ 64 }
    ensures random { result.random ≤ 4 }
{
    let most = [4, 64][one_of(rng, 2) as usize];
    Rules {
        depth: 1 + one_of(rng, most),
        random: one_of(rng, 5),
        askers: [1, 2, MOST_WORKERS][one_of(rng, 3) as usize],
        deepest: [0, 3, MOST_DEPTH][one_of(rng, 3) as usize],
        open: [0, 1, 8][one_of(rng, 3) as usize],
        rush: [0, 2, MOST_TOLD_DEPTH][one_of(rng, 3) as usize],
        shown: one_of(rng, 2) == 1,
    }
}

/// The block arrives, with wrong bytes one time in four.
fn arrival(rng: &mut Lcg64Xsh32, block: Block) -> Call {
    let bytes: &'static [u8] = if one_of(rng, 4) == 0 { &WRONG } else { &RIGHT };
    let len = bytes.len().min(block.len as usize);
    Call::Arrived {
        piece: block.piece,
        begin: block.begin,
        bytes: Bytes::from_static(&bytes[..len]),
    }
}

/// A block that may not be one: there may be no such piece, no block may begin there, or its length may be another.
fn any_block(rng: &mut Lcg64Xsh32) -> Block {
    Block {
        piece: one_of(rng, 5),
        begin: [0, 16384, 1][one_of(rng, 3) as usize],
        len: [16384, 2][one_of(rng, 2) as usize],
    }
}

/// What the peer sends or its worker tells next, given what is asked of it.
fn from_wire(alloc: Global, rng: &mut Lcg64Xsh32, asked: &[Block]) -> Result<Call, Fail> {
    match one_of(rng, 80) {
        6..=10 => Ok(Call::Bits(any_flags(alloc, rng)?)),
        11 => Ok(Call::Bits(Bitfield::empty(alloc, 3)?)),
        36..=38 => Ok(Call::Haves(any_flags(alloc, rng)?)),
        39 => Ok(Call::Haves(Bitfield::empty(alloc, 3)?)),
        case => Ok(plain_call(rng, asked, case)),
    }
}

/// What that is in a case in which it is no bitfield.
fn plain_call(rng: &mut Lcg64Xsh32, asked: &[Block], case: u32) -> Call {
    match case {
        0..=4 => Call::Join,
        5 => Call::Leave,
        12..=14 => Call::Have(one_of(rng, 5)),
        15 => Call::Choke,
        16..=21 => Call::Unchoke,
        22..=29 => any_arrival(rng),
        30..=35 => last_arrival(rng, asked),
        40..=42 => release(first_asked(asked)),
        43 => release(any_block(rng)),
        44..=45 => Call::Depth([0, 1, 3, 7, 65][one_of(rng, 5) as usize]),
        46..=47 => Call::Reach([0, 3, 4, 5, 7, 7, 8, 255][one_of(rng, 8) as usize]),
        48..=49 => Call::Lack(one_of(rng, 5)),
        50..=52 => delay(first_asked(asked)),
        53 => delay(any_block(rng)),
        54..=55 => Call::Alone(one_of(rng, 3) > 0),
        _ => Call::Next(rng.next_u64()),
    }
}

fn any_arrival(rng: &mut Lcg64Xsh32) -> Call {
    let block = any_block(rng);
    arrival(rng, block)
}

/// The block that was asked last arrives.
fn last_arrival(rng: &mut Lcg64Xsh32, asked: &[Block]) -> Call {
    match asked.last() {
        Some(block) => arrival(rng, *block),
        None => Call::Unchoke,
    }
}

/// The block that was asked first, or one that isn't asked, where none is.
fn first_asked(asked: &[Block]) -> Block {
    match asked.first() {
        Some(block) => *block,
        None => Block {
            piece: 0,
            begin: 0,
            len: 16384,
        },
    }
}

/// The block is asked of the peer no more.
fn release(block: Block) -> Call {
    Call::Release {
        piece: block.piece,
        begin: block.begin,
    }
}

/// The request of the block takes too long.
fn delay(block: Block) -> Call {
    Call::Late {
        piece: block.piece,
        begin: block.begin,
    }
}

/// All pieces, some or none.
fn any_flags(alloc: Global, rng: &mut Lcg64Xsh32) -> Result<Bitfield, Fail> {
    let flags = [[0xf0], [0xc0], [0x30], [0x00]][one_of(rng, 4) as usize];
    Ok(Bitfield::from_wire(alloc, &flags, 4)?)
}

/// What is wanted from now on: all pieces, some or none; now and then flags of too few pieces.
fn any_want(alloc: Global, rng: &mut Lcg64Xsh32) -> Result<Call, Fail> {
    if one_of(rng, 6) == 0 {
        return Ok(Call::Want(Bitfield::empty(alloc, 3)?));
    }
    Ok(Call::Want(any_flags(alloc, rng)?))
}

/// A level of one piece; now and then there is no such piece, or no such level.
fn any_level(rng: &mut Lcg64Xsh32) -> Call {
    Call::Level {
        piece: one_of(rng, 5),
        level: [0, 1, 4, 4, 5, 7, 8, 255][one_of(rng, 8) as usize],
    }
}

/// A level for each piece; now and then one too great, or one too few.
fn any_levels(rng: &mut Lcg64Xsh32) -> Call {
    let levels: &'static [u8] = match one_of(rng, 7) {
        0 => &[4, 4, 4, 4],
        1 => &[7, 4, 4, 1],
        2 => &[1, 7, 0, 7],
        3 => &[0, 0, 6, 3],
        4 => &[2, 2, 5, 5],
        5 => &[4, 8, 4, 4],
        _ => &[7, 7, 7],
    };
    Call::Levels(Bytes::from_static(levels))
}

/// What is told of the whole download: what is wanted, levels, or an order.
fn any_wish(alloc: Global, rng: &mut Lcg64Xsh32) -> Result<Call, Fail> {
    match one_of(rng, 8) {
        0..=1 => any_want(alloc, rng),
        2..=3 => Ok(any_levels(rng)),
        4 => Ok(Call::InOrder(one_of(rng, 2) == 0)),
        5 => Ok(Call::InOrderFrom(one_of(rng, 11) as u8)),
        _ => Ok(any_level(rng)),
    }
}

/// What the journal's calls make of the levels and the order, by the rules' words alone: the newest that was told holds.
#[derive(Clone, Copy)]
struct Wishes {
    levels: [u8; 4],
    order_from: u8,
}

impl Wishes {
    /// What holds after the entry.
    fn after(self, entry: &Entry) -> Wishes {
        if entry.reply != Reply::Quiet {
            return self;
        }
        match &entry.call {
            Call::InOrder(rising) => Wishes {
                order_from: if *rising { 0 } else { 8 },
                ..self
            },
            Call::InOrderFrom(level) => Wishes {
                order_from: *level,
                ..self
            },
            _ => Wishes {
                levels: self.levels_after(&entry.call),
                ..self
            },
        }
    }

    /// The levels after the call: Want has its pieces at 4 and the others at 0.
    fn levels_after(self, call: &Call) -> [u8; 4] {
        let [first, second, third, fourth] = self.levels;
        [
            level_after(call, 0, first),
            level_after(call, 1, second),
            level_after(call, 2, third),
            level_after(call, 3, fourth),
        ]
    }
}

/// The byte at this place, and none behind the last.
fn byte_at(bytes: &[u8], place: usize) -> u8 {
    if place < bytes.len() { bytes[place] } else { 0 }
}

/// The level of the piece after the call, from what it was before.
fn level_after(call: &Call, piece: u32, before: u8) -> u8 {
    match call {
        Call::Want(flags) if piece < flags.count() && flags.has(piece) => 4,
        Call::Want(_) => 0,
        Call::Levels(levels) => byte_at(levels.as_slice(), piece as usize),
        Call::Level { piece: of, level } if *of == piece => *level,
        _ => before,
    }
}

/// A run of calls at one desk, and a verdict that a worker keeps for later.
struct Run {
    desk: Desk,
    late: Option<Arc<Verdict>>,
    ghost workers: { desk.setting.workers ≡ 4 },
}

/// The end of a run is one call for whoever owns one.
impl Drop for Run {
    fn drop(self) {
        let Run {
            desk: _desk,
            late: _late,
        } = self;
    }
}

impl Run {
    /// A run whose peers have joined.
    fn new(alloc: Global, torrent: Arc<Torrent>, rules: Rules) -> Result<Run, Fail>
        requires { AreRules torrent.value.layout rules }
    {
        let mut run = Run {
            desk: Desk::new(alloc, torrent, WORKERS, rules)?,
            late: None,
        };
        run.join_all()?;
        Ok(run)
    }

    fn join_all(&mut self) -> Result<(), Fail> {
        for worker in 0..WORKERS {
            self.call(worker, Call::Join)?;
        }
        Ok(())
    }

    fn call(&mut self, worker: u32, call: Call) -> Result<Reply, Fail>
        requires { worker < 4 }
    {
        Ok(self.desk.call(worker, call)?)
    }

    fn settle_now(&mut self, alloc: Global, worker: u32, piece: u32) -> Result<Reply, Fail>
        requires { worker < 4 }
    {
        Ok(self.desk.settle_now(alloc, worker, piece)?)
    }

    /// A verdict of the piece, if it waits for one.
    fn verdict(&self, alloc: Global, piece: u32) -> Result<Option<Arc<Verdict>>, Fail> {
        match self.desk.job(alloc, piece)? {
            Some(job) => Ok(Some(hashed(alloc, job)?)),
            None => Ok(None),
        }
    }

    /// What the peer sends next.
    fn sent(&self, alloc: Global, rng: &mut Lcg64Xsh32, worker: u32) -> Result<Call, Fail>
        requires { worker < 4 }
    {
        from_wire(alloc, rng, self.desk.outstanding(worker))
    }

    /// One call: of a peer's worker, a check at once, one that was begun earlier, or what is told of the whole download.
    fn step(&mut self, alloc: Global, rng: &mut Lcg64Xsh32) -> Result<Reply, Fail> {
        let worker = one_of(rng, WORKERS);
        let piece = one_of(rng, 5);
        if one_of(rng, 8) == 0 {
            return self.settle_now(alloc, worker, piece);
        }
        if self.late.is_none()
            && let Some(verdict) = self.verdict(alloc, piece)?
        {
            return self.settle_and_keep(worker, verdict);
        }
        let call = self.any_call(alloc, rng, worker)?;
        self.call(worker, call)
    }

    /// The verdict comes, and is kept to come once more.
    fn settle_and_keep(&mut self, worker: u32, verdict: Arc<Verdict>) -> Result<Reply, Fail>
        requires { worker < 4 }
    {
        self.late = Some(verdict.clone()?);
        self.call(worker, Call::Settle(verdict))
    }

    /// A check that was begun earlier, what is told of the whole download, or what the peer sends.
    fn any_call(&mut self, alloc: Global, rng: &mut Lcg64Xsh32, worker: u32) -> Result<Call, Fail>
        requires { worker < 4 }
    {
        if one_of(rng, 40) == 0
            && let Some(verdict) = self.late.take()
        {
            return Ok(Call::Settle(verdict));
        }
        if one_of(rng, 20) == 0 {
            return any_wish(alloc, rng);
        }
        self.sent(alloc, rng, worker)
    }

    /// So many calls, each counted by the kind of its reply; then what waits is settled.
    fn steps(
        &mut self,
        alloc: Global,
        rng: &mut Lcg64Xsh32,
        counts: &mut [u64; 28],
    ) -> Result<(), Fail> {
        for _ in 0..500 {
            count(counts, self.step(alloc, rng)?);
        }
        self.desk.finish(alloc, 0)?;
        Ok(())
    }

    /// The steps, and what comes of them is judged.
    fn play(
        &mut self,
        rt: &impl Abort,
        alloc: Global,
        rules: Rules,
        rng: &mut Lcg64Xsh32,
        counts: &mut [u64; 28],
    ) -> Result<(), Fail> {
        self.steps(alloc, rng, counts)?;
        self.judge(rt, alloc, rules)
    }

    /// Checks that the audit allows what was said.
    fn judge(&self, rt: &impl Abort, alloc: Global, rules: Rules) -> Result<(), Fail> {
        assert!(rt; self.has_wanted_at_the_end());
        self.judge_wishes(rt);
        let torrent = torrent(rt, alloc)?;
        let journal = self.desk.journal();
        finds(rt, alloc, &torrent, WORKERS, rules, journal, None)
    }

    /// Checks that the desk shows the levels and the order that its journal tells.
    fn judge_wishes(&self, rt: &impl Abort) {
        let mut wishes = Wishes {
            levels: [4; 4],
            order_from: 8,
        };
        for entry in self.desk.journal() {
            wishes = wishes.after(entry);
        }
        let shown = Wishes {
            levels: [
                self.level(rt, 0),
                self.level(rt, 1),
                self.level(rt, 2),
                self.level(rt, 3),
            ],
            order_from: self.desk.picker().order_from(),
        };
        assert!(rt; shown.levels == wishes.levels && shown.order_from == wishes.order_from);
    }

    fn level(&self, rt: &impl Abort, piece: u32) -> u8 {
        assert!(rt; piece < self.desk.picker().torrent().piece_count());
        self.desk.picker().level(piece)
    }

    /// Who has all pieces has those that are wanted.
    fn has_wanted_at_the_end(&self) -> bool {
        self.desk.picker().has_wanted() || !self.desk.picker().is_complete()
    }
}

/// The place of the reply that no desk gives.
const IN_FLIGHT: usize = 27;

/// Each kind of reply has a place, each reason its own.
fn kind(reply: Reply) -> usize
    ensures { result < 28 }
{
    match reply {
        Reply::Joined => 0,
        Reply::Noted(true) => 1,
        Reply::Noted(false) => 2,
        Reply::Quiet => 3,
        Reply::Cancel(_) => 4,
        Reply::Request(_) => 5,
        Reply::Choked => 6,
        Reply::PipeFull => 7,
        Reply::Idle => 8,
        Reply::NothingLeft => 9,
        Reply::Stored => 10,
        Reply::Completed => 11,
        Reply::Dropped => 12,
        Reply::Had => 13,
        Reply::Failed => 14,
        Reply::Refused(reason) => 15 + reason as usize,
        Reply::InFlight(_) => IN_FLIGHT,
    }
}

/// Counts a reply by its kind.
fn count(counts: &mut [u64; 28], reply: Reply) {
    let place = kind(reply);
    counts[place] = counts[place].saturating_add(1);
}

/// A journal of random calls, which the audit allows.
fn one_journal(
    rt: &impl Abort,
    alloc: Global,
    seed: u64,
    counts: &mut [u64; 28],
) -> Result<(), Fail> {
    let mut rng = Lcg64Xsh32::new(seed, 1);
    let rules = any_rules(&mut rng);
    let mut run = Run::new(alloc, torrent(rt, alloc)?, rules)?;
    run.play(rt, alloc, rules, &mut rng, counts)
}

/// The journals of so many seeds.
fn journals(
    rt: &impl Abort,
    alloc: Global,
    seeds: u64,
    counts: &mut [u64; 28],
) -> Result<(), Fail> {
    for seed in 0..seeds {
        one_journal(rt, alloc, seed, counts)?;
    }
    Ok(())
}

#[test]
fn journals_of_random_calls(rt: HostRuntime) -> Result<(), Fail> {
    let mut counts = [0_u64; 28];
    journals(&rt, rt.alloc(), 40, &mut counts)?;
    let never = counts.iter().position(|count| *count == 0);
    assert!(rt; never == Some(IN_FLIGHT));
    Ok(())
}
