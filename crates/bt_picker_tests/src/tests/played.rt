//! A desk at which scripts are played: lines as in `steps`, `WORKER CALL = REPLY`, and lines that look at the desk, `QUESTION = ANSWER`. What
//! it is asked goes through functions without a contract, so that a test knows of its replies alone, and its proof is short. A call that found
//! no memory is made once more, with the answer that it would have had: so each test can be run with any one allocation refused.
ghost use Rattle.std.specs.Prelude.{◌≡◌};
ghost use Rattle.bt_meta.specs.Layout.{piece_count};

use super::abc;
use super::same::same;
use super::shown::{Shown, count, pieces, yes_or_no};
use super::steps::{cut, entry_of, hashed, next_number, number, reply_of};
use bt_meta::{Block, Sink};
use bt_picker::*;
use std::alloc::{AllocError, Global};
use std::process::Abort;
use std::str::Split;
use std::sync::Arc;
use std::test::*;

const PIECES: u32 = 3;

const WORKERS: u32 = 4;

/// Checks that the answer is as the line says.
fn is_answered(rt: &impl Abort, answer: Shown, wanted: &str, asked: &str) {
    match answer {
        Shown::Word(word) => same(rt, word, wanted, asked),
        Shown::Count(count) => same(rt, Some(count), wanted.parse::<u64>().ok(), asked),
    }
}

/// The piece at this place of the list.
fn piece_at(rt: &impl Abort, pieces: &[u32], place: usize) -> Shown {
    assert!(rt; place < pieces.len());
    Shown::Count(u64::from(pieces[place]))
}

/// The piece of the block, if there is one.
fn piece_of(block: Option<&Block>) -> Shown {
    match block {
        Some(block) => Shown::Count(u64::from(block.piece)),
        None => Shown::Word("none"),
    }
}

/// The pieces of a group. None stands there twice.
fn group_of(rt: &impl Abort, group: &[u32]) -> Shown {
    let flags = [group.contains(&0), group.contains(&1), group.contains(&2)];
    same(rt, group.len(), count(flags), "unbegun pieces");
    pieces(flags)
}

/// A desk of pieces `abc`, `abc` and `a` for four workers.
pub struct Played {
    desk: Desk,
    ghost workers: { desk.setting.workers ≡ 4 },
    ghost pieces: { piece_count desk.setting.torrent ≡ 3 },
}

/// The end of a desk that is played at is one call for whoever owns one.
impl Drop for Played {
    fn drop(self) {
        let Played { desk: _desk } = self;
    }
}

impl Played {
    pub fn new(rt: &impl Abort, alloc: Global) -> Result<Played, Fail> {
        let torrent = abc::shared_torrent(rt, alloc)?;
        Ok(Played {
            desk: Desk::new(alloc, torrent, WORKERS, Rules::usual())?,
        })
    }

    /// Plays the lines: each reply and each answer is as its line says.
    pub fn play(
        &mut self,
        rt: &impl Abort,
        alloc: Global,
        lines: &'static str,
    ) -> Result<(), Fail> {
        self.play_front(rt, alloc, lines, usize::MAX)
    }

    /// Plays the first so many lines.
    pub fn play_front(
        &mut self,
        rt: &impl Abort,
        alloc: Global,
        lines: &'static str,
        count: usize,
    ) -> Result<(), Fail> {
        for line in lines.lines().take(count) {
            self.play_line(rt, alloc, line)?;
        }
        Ok(())
    }

    /// The line of a call begins with its worker's number.
    fn play_line(
        &mut self,
        rt: &impl Abort,
        alloc: Global,
        line: &'static str,
    ) -> Result<(), Fail> {
        if matches!(line.as_bytes().first(), Some(b'0'..=b'9')) {
            return self.enter_line(rt, alloc, line);
        }
        let (asked, wanted) = cut(rt, line, " = ");
        self.ask_line(rt, alloc, asked, wanted)
    }

    /// A call: its reply is as the line says.
    fn enter_line(
        &mut self,
        rt: &impl Abort,
        alloc: Global,
        line: &'static str,
    ) -> Result<(), Fail> {
        let Entry {
            worker,
            call,
            reply,
        } = entry_of(rt, alloc, PIECES, line)?;
        let said = match self.enter(rt, worker, call) {
            Ok(said) => said,
            Err(AllocError) => {
                let again = entry_of(rt, alloc, PIECES, line)?;
                self.enter(rt, worker, again.call)?
            }
        };
        same(rt, said, reply, line);
        Ok(())
    }

    /// What is no call of one worker, or none that changes the desk: its answer is as the line says.
    fn ask_line(
        &mut self,
        rt: &impl Abort,
        alloc: Global,
        asked: &'static str,
        wanted: &str,
    ) -> Result<(), Fail> {
        let mut words = asked.split(' ');
        match words.next().unwrap_or("") {
            "check" => self.check_line(rt, alloc, &mut words, wanted),
            "finish" => self.finish(rt, alloc, next_number(rt, &mut words)),
            question => {
                let answer = self.answer(rt, question, words.next());
                is_answered(rt, answer, wanted, asked);
                Ok(())
            }
        }
    }

    /// A check of a piece: what it comes to is as the line says.
    fn check_line(
        &mut self,
        rt: &impl Abort,
        alloc: Global,
        words: &mut Split<'static, char>,
        wanted: &str,
    ) -> Result<(), Fail> {
        let worker = next_number(rt, words);
        let piece = next_number(rt, words);
        let said = self.settle(rt, alloc, worker, piece)?;
        same(rt, said, reply_of(rt, wanted), "a check");
        Ok(())
    }

    /// What the desk shows, of a number if one is told.
    fn answer(&self, rt: &impl Abort, question: &str, word: Option<&str>) -> Shown {
        match word {
            Some(word) => self.answer_of(rt, question, number(rt, word)),
            None => self.answer_of_all(rt, question),
        }
    }

    /// What the desk shows of a piece, of a worker, or of what so many peers show.
    fn answer_of(&self, rt: &impl Abort, question: &str, number: u32) -> Shown {
        match question {
            "had" => yes_or_no(self.had(rt, number)),
            "shown-by" => self.group(rt, number),
            "raised-shown-by" => self.raised(rt, number),
            "level" => Shown::Count(u64::from(self.level(rt, number))),
            "outstanding" => Shown::Count(self.outstanding(rt, number) as u64),
            "availability" => Shown::Count(u64::from(self.availability(rt, number))),
            "finished" => piece_at(rt, self.finished(), number as usize),
            "oldest" => piece_of(self.line(rt, number).first()),
            "newest" => piece_of(self.line(rt, number).last()),
            _ => panic!(rt; "no such question"),
        }
    }

    /// What the desk shows of all pieces.
    fn answer_of_all(&self, rt: &impl Abort, question: &str) -> Shown {
        match question {
            "has-wanted" => yes_or_no(self.has_wanted()),
            "complete" => yes_or_no(self.is_complete()),
            "in-order" => yes_or_no(self.is_in_order()),
            "wanted" => self.wanted(rt),
            "entries" => Shown::Count(self.entries() as u64),
            "unasked" => Shown::Count(self.unasked()),
            "finished" => Shown::Count(self.finished().len() as u64),
            _ => panic!(rt; "no such question"),
        }
    }

    /// The verdict comes, and gets this reply.
    pub fn settles(
        &mut self,
        rt: &impl Abort,
        worker: u32,
        verdict: Arc<Verdict>,
        wanted: Reply,
    ) -> Result<(), Fail> {
        let said = self.enter(rt, worker, Call::Settle(verdict))?;
        same(rt, said, wanted, "a verdict");
        Ok(())
    }

    /// Makes the call. It adds its entry, and nothing where it finds no memory.
    fn enter(&mut self, rt: &impl Abort, worker: u32, call: Call) -> Result<Reply, AllocError> {
        assert!(rt; worker < WORKERS);
        let before = self.entries();
        let said = self.desk.call(worker, call);
        let added = if said.is_ok() { 1 } else { 0 };
        same(rt, self.entries().saturating_sub(before), added, "entries");
        said
    }

    /// What a check of the piece comes to that ends before any other call.
    fn settle(
        &mut self,
        rt: &impl Abort,
        alloc: Global,
        worker: u32,
        piece: u32,
    ) -> Result<Reply, Fail> {
        assert!(rt; worker < WORKERS);
        match self.desk.settle_now(alloc, worker, piece) {
            Ok(said) => Ok(said),
            Err(AllocError) => Ok(self.desk.settle_now(alloc, worker, piece)?),
        }
    }

    /// A check of the piece as it is now, and none of one that doesn't wait for it.
    pub fn check(&self, alloc: Global, piece: u32) -> Result<Option<Arc<Verdict>>, Fail> {
        match self.desk.job(alloc, piece)? {
            Some(job) => Ok(Some(hashed(alloc, job)?)),
            None => Ok(None),
        }
    }

    pub fn finish(&mut self, rt: &impl Abort, alloc: Global, worker: u32) -> Result<(), Fail> {
        assert!(rt; worker < WORKERS);
        if self.desk.finish(alloc, worker).is_err() {
            self.desk.finish(alloc, worker)?;
        }
        Ok(())
    }

    fn had(&self, rt: &impl Abort, piece: u32) -> bool {
        assert!(rt; piece < PIECES);
        self.desk.had(piece)
    }

    fn is_wanted(&self, rt: &impl Abort, piece: u32) -> bool {
        assert!(rt; piece < PIECES);
        self.desk.wanted(piece)
    }

    fn level(&self, rt: &impl Abort, piece: u32) -> u8 {
        assert!(rt; piece < PIECES);
        self.desk.picker().level(piece)
    }

    fn is_in_order(&self) -> bool {
        self.desk.picker().is_in_order()
    }

    fn wanted(&self, rt: &impl Abort) -> Shown {
        let flags = [
            self.is_wanted(rt, 0),
            self.is_wanted(rt, 1),
            self.is_wanted(rt, 2),
        ];
        pieces(flags)
    }

    fn availability(&self, rt: &impl Abort, piece: u32) -> u32 {
        assert!(rt; piece < PIECES);
        self.desk.availability(piece)
    }

    fn line(&self, rt: &impl Abort, worker: u32) -> &[Block] {
        assert!(rt; worker < WORKERS);
        self.desk.outstanding(worker)
    }

    fn outstanding(&self, rt: &impl Abort, worker: u32) -> usize {
        self.line(rt, worker).len()
    }

    fn finished(&self) -> &[u32] {
        self.desk.finished()
    }

    fn unbegun(&self, rt: &impl Abort, shown_by: u32) -> &[u32] {
        assert!(rt; shown_by <= WORKERS);
        self.desk.group(shown_by)
    }

    fn unbegun_at(&self, rt: &impl Abort, level: u8, shown_by: u32) -> &[u32] {
        assert!(rt; 1 <= level && level <= 7 && shown_by <= WORKERS);
        self.desk.picker().group_at(level, shown_by)
    }

    /// The unbegun pieces of the usual level that so many peers show.
    fn group(&self, rt: &impl Abort, shown_by: u32) -> Shown {
        group_of(rt, self.unbegun(rt, shown_by))
    }

    /// The unbegun pieces of the highest level that so many peers show.
    fn raised(&self, rt: &impl Abort, shown_by: u32) -> Shown {
        group_of(rt, self.unbegun_at(rt, 7, shown_by))
    }

    fn entries(&self) -> usize {
        self.desk.journal().len()
    }

    fn unasked(&self) -> u64 {
        self.desk.unasked()
    }

    fn has_wanted(&self) -> bool {
        self.desk.picker().has_wanted()
    }

    fn is_complete(&self) -> bool {
        self.desk.picker().is_complete()
    }

    /// The workers, the depth and the pieces of the desk.
    pub fn made_of(&self) -> (u32, u32, u32) {
        let torrent = self.desk.picker().torrent();
        let rules = self.desk.picker().rules();
        (
            self.desk.picker().workers(),
            rules.depth,
            torrent.piece_count(),
        )
    }

    pub fn write_piece<W: Sink>(
        &self,
        rt: &impl Abort,
        writer: &mut W,
        piece: u32,
    ) -> Result<(), ContentFault> {
        assert!(rt; piece < PIECES);
        self.desk.write_piece(writer, piece)
    }

    pub fn write<W: Sink>(&self, writer: &mut W) -> Result<(), ContentFault> {
        self.desk.write_content(writer)
    }
}
