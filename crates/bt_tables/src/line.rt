//! A peer's line of requests, and which of them are late.

ghost use Rattle.std.specs.Prelude.{◌≡◌, ◌<◌, ◌==◌, ◌&&◌, ◌||◌, ◌∷◌, ◌++◌, ◌+◌, ◌-◌, [], false, not, length, nat_lt, slice_index_or, take, true};
ghost use Rattle.std.specs.Prelude.{Bool, IfNone, IfOk, IfSome, Some, None, vec_capacity};
ghost use Rattle.std.specs.List.{count_by, filter, list_any, remove};
ghost use Rattle.bt_meta.specs.declared.block.Block.{Block};
ghost use Rattle.bt_history.specs.History.{same_begin};
ghost use Rattle.bt_history.specs.Peers.{has_place};
ghost use Rattle.bt_tables.specs.Tables.{one_if};

use crate::queue::Queue;
use bt_meta::Block;
use std::alloc::{AllocError, Global};
use std::marker::Model;

/// The blocks that are asked of a peer, the oldest request first, and a flag for each with which the peer is late. Room for all is taken
/// with the line, 13 bytes for each block, so that no call takes memory.
pub struct Line {
    blocks: Queue,
    flags: Vec<bool>,
    late: usize,
}

/// The end of a line is one call for whoever owns one.
impl Drop for Line {
    fn drop(self) {
        let Line {
            blocks: _blocks,
            flags: _flags,
            late: _,
        } = self;
    }
}

impl Model for Line {
    ghost use Rattle.std.specs.Prelude.{vec_capacity};
    ghost use Rattle.bt_tables.specs.Delays.{IsLine, LineState, flagged};

    ghost Value = { LineState };

    ghost view = { λ l. record { room = l.blocks.room; asked = l.blocks.items; overdue = flagged l.blocks.items l.flags.items } };

    ghost invariant = { λ l. IsLine l.blocks.room (vec_capacity l.flags) l.late l.blocks.items l.flags.items };
}

impl Line {
    /// A line with room for so many blocks.
    pub fn new(alloc: Global, room: u32) -> Result<Line, AllocError>
        ensures { IfOk result (λ line. line ≡ record { room = room; asked = []; overdue = [] }) }
    {
        Ok(Line {
            blocks: Queue::new(alloc, room)?,
            flags: Vec::with_capacity(alloc, room as usize)?,
            late: 0,
        })
    }

    pub fn blocks(&self) -> &[Block]
        ensures { result.now ≡ self.now.asked }
    {
        self.blocks.as_slice()
    }

    /// Whether the peer is late with a block.
    pub fn has_late(&self) -> bool
        ensures { result ≡ nat_lt 0 (length self.now.overdue) }
    {
        self.late > 0
    }

    /// Whether the peer is late with the block that begins there.
    pub fn is_late(&self, piece: u32, begin: u32) -> bool
        ensures { result ≡ list_any (λ b. (piece == b.piece) && (begin == b.begin)) self.now.overdue }
    {
        self.has_late() && self.finds_late(piece, begin)
    }

    /// The same, by a search of the line.
    fn finds_late(&self, piece: u32, begin: u32) -> bool
        ensures { result ≡ list_any (λ b. (piece == b.piece) && (begin == b.begin)) self.now.overdue }
    {
        match place_in(self.blocks.as_slice(), piece, begin) {
            Some(index) => self.flags[index],
            None => false,
        }
    }

    /// Whether a block of the line begins there, and the peer isn't late with it.
    #[inline(always)]
    pub fn expects(&self, piece: u32, begin: u32) -> bool
        ensures { result ≡ (list_any (λ b. (piece == b.piece) && (begin == b.begin)) self.now.asked
            && not (list_any (λ b. (piece == b.piece) && (begin == b.begin)) self.now.overdue)) }
    {
        match place_of_oldest(self.blocks.as_slice(), piece, begin) {
            Some(index) => !self.flags[index],
            None => false,
        }
    }

    /// The same, where mostly it is one of the newest requests.
    pub fn expects_newly(&self, piece: u32, begin: u32) -> bool
        ensures { result ≡ (list_any (λ b. (piece == b.piece) && (begin == b.begin)) self.now.asked
            && not (list_any (λ b. (piece == b.piece) && (begin == b.begin)) self.now.overdue)) }
    {
        match place_from_end(self.blocks.as_slice(), piece, begin) {
            Some(index) => !self.flags[index],
            None => false,
        }
    }

    /// Whether the peer is late with the block at this place of the line.
    pub fn is_late_at(&self, index: usize) -> bool
        requires { index < length self.now.asked }
        ensures { (d : Block) → result ≡ has_place (slice_index_or self.now.asked index d) self.now.overdue }
    {
        self.flags[index]
    }

    /// Whether the block at this place of the line is one of the piece, and the peer isn't late with it.
    pub fn is_prompt_of(&self, index: usize, piece: u32) -> bool
        requires { index < length self.now.asked }
        ensures { (d : Block) → result ≡ ((piece == (slice_index_or self.now.asked index d).piece)
            && not (has_place (slice_index_or self.now.asked index d) self.now.overdue)) }
    {
        self.blocks.at(index).piece == piece && !self.flags[index]
    }

    /// The block is asked of the peer now.
    pub fn push(&mut self, block: Block)
        requires room { length self.old.asked < self.old.room }
        requires new { has_place block self.old.asked ≡ false }
        ensures { self.new ≡ record self.old { asked = self.old.asked ++ block ∷ [] } }
    {
        self.blocks.push(block);
        self.flags.push_reserved(false);
    }

    /// Whether a block of the line begins there.
    pub fn has(&self, piece: u32, begin: u32) -> bool
        ensures { result ≡ list_any (λ b. (piece == b.piece) && (begin == b.begin)) self.now.asked }
    {
        place_in(self.blocks.as_slice(), piece, begin).is_some()
    }

    /// Takes the block that begins there out of the line, if there is one.
    #[inline(always)]
    pub fn take(&mut self, piece: u32, begin: u32) -> Option<Block>
        ensures line { self.new ≡ record self.old {
          asked = filter (λ b. not ((piece == b.piece) && (begin == b.begin))) self.old.asked;
          overdue = filter (λ b. not ((piece == b.piece) && (begin == b.begin))) self.old.overdue;
        } }
        ensures some { IfSome result (λ b. filter (λ b. (piece == b.piece) && (begin == b.begin)) self.old.asked ≡ b ∷ []) }
        ensures none { IfNone result (filter (λ b. (piece == b.piece) && (begin == b.begin)) self.old.asked ≡ []) }
    {
        match place_of_oldest(self.blocks.as_slice(), piece, begin) {
            Some(index) => Some(self.remove(index)), // most often the first, as blocks come in the order of their requests
            None => None,
        }
    }

    /// Takes the block at this place out of the line.
    #[inline(always)]
    fn remove(&mut self, index: usize) -> Block
        requires { index < length self.old.asked }
        ensures value { result ≡ slice_index_or self.old.asked index result }
        ensures shorter { length self.new.asked + 1 ≡ length self.old.asked }
        ensures line { self.new ≡ record self.old {
          asked = filter (λ b. not (same_begin result b)) self.old.asked;
          overdue = filter (λ b. not (same_begin result b)) self.old.overdue;
        } }
    {
        self.late -= take_flag(&mut self.flags, self.late, index);
        self.blocks.remove(index)
    }

    /// Takes all blocks of the piece out of the line.
    pub fn remove_piece(&mut self, piece: u32)
        ensures { self.new ≡ record self.old {
          asked = filter (λ b. not (piece == b.piece)) self.old.asked;
          overdue = filter (λ b. not (piece == b.piece)) self.old.overdue;
        } }
    {
        let mut index = 0;
        while index < self.blocks.len() {
            index = self.pass_by(index, piece);
        }
    }

    /// Goes one step on in the line, and takes the block at this place out of it if it is one of the piece. Returns the next place.
    fn pass_by(&mut self, index: usize, piece: u32) -> usize
        requires { index < length self.old.asked }
        ensures room { self.new.room ≡ self.old.room }
        ensures asked { filter (λ b. not (piece == b.piece)) self.new.asked ≡ filter (λ b. not (piece == b.piece)) self.old.asked }
        ensures overdue { filter (λ b. not (piece == b.piece)) self.new.overdue ≡ filter (λ b. not (piece == b.piece)) self.old.overdue }
        ensures passed { list_any (λ b. piece == b.piece) (take index self.old.asked) ≡ false
            → list_any (λ b. piece == b.piece) (take result self.new.asked) ≡ false }
        ensures smaller { length self.new.asked - result < length self.old.asked - index }
    {
        if self.blocks.at(index).piece == piece {
            self.remove(index);
            index
        } else {
            index + 1
        }
    }

    /// The peer is late with the block that begins there, if that is in the line.
    pub fn delay(&mut self, piece: u32, begin: u32)
        ensures { self.new ≡ record self.old {
          overdue = filter (λ b. ((piece == b.piece) && (begin == b.begin)) || has_place b self.old.overdue) self.old.asked;
        } }
    {
        if let Some(index) = place_in(self.blocks.as_slice(), piece, begin) {
            self.set_late(index);
        }
    }

    /// The peer is late with the block at this place.
    fn set_late(&mut self, index: usize)
        requires { index < length self.old.asked }
        ensures { (d : Block) → self.new ≡ record self.old {
          overdue = filter (λ b. same_begin (slice_index_or self.old.asked index d) b || has_place b self.old.overdue) self.old.asked;
        } }
    {
        if !self.flags[index] {
            self.flags[index] = true;
            self.late += 1;
        }
    }

    /// Empties the line.
    pub fn clear(&mut self)
        ensures { self.new ≡ record self.old { asked = []; overdue = [] } }
    {
        self.blocks.clear();
        self.flags.clear();
        self.late = 0;
    }
}

/// Takes the flag at this place out of those of which so many are set, and tells whether it was set, as 1 or 0. Where none is set all are
/// alike, so the last one goes.
#[inline(always)]
fn take_flag(flags: &mut Vec<bool>, late: usize, index: usize) -> usize
    requires index { index < length flags.old.items }
    requires late { late ≡ count_by (λ f. f) flags.old.items }
    ensures set { (d : Bool) → result ≡ one_if (slice_index_or flags.old.items index d) }
    ensures items { flags.new.items ≡ remove flags.old.items index }
    ensures capacity { vec_capacity flags.new ≡ vec_capacity flags.old }
{
    if late > 0 {
        return usize::from(remove_flag(flags, index));
    }
    let _last = flags.pop();
    0
}

/// Takes the flag at this place out, and tells whether it was set.
#[inline(never)] // few peers are late
fn remove_flag(flags: &mut Vec<bool>, index: usize) -> bool
    requires { index < length flags.old.items }
    ensures flag { (d : Bool) → result ≡ slice_index_or flags.old.items index d }
    ensures items { flags.new.items ≡ remove flags.old.items index }
    ensures capacity { vec_capacity flags.new ≡ vec_capacity flags.old }
{
    flags.remove(index)
}

/// Where in the line the first block stands that begins there, if one does.
fn place_in(line: &[Block], piece: u32, begin: u32) -> Option<usize>
    ensures some { IfSome result (λ i. (i < length line.now)
        × (list_any (λ b. (piece == b.piece) && (begin == b.begin)) (take i line.now) ≡ false)
        × ((d : Block) → ((piece == (slice_index_or line.now i d).piece) && (begin == (slice_index_or line.now i d).begin)) ≡ true)) }
    ensures none { IfNone result (list_any (λ b. (piece == b.piece) && (begin == b.begin)) line.now ≡ false) }
{
    for (index, block) in line.iter().enumerate() {
        if piece == block.piece && begin == block.begin {
            return Some(index);
        }
    }
    None
}

/// The same, where mostly it is the oldest request.
#[inline(always)]
fn place_of_oldest(line: &[Block], piece: u32, begin: u32) -> Option<usize>
    ensures some { IfSome result (λ i. (i < length line.now)
        × (list_any (λ b. (piece == b.piece) && (begin == b.begin)) (take i line.now) ≡ false)
        × ((d : Block) → ((piece == (slice_index_or line.now i d).piece) && (begin == (slice_index_or line.now i d).begin)) ≡ true)) }
    ensures none { IfNone result (list_any (λ b. (piece == b.piece) && (begin == b.begin)) line.now ≡ false) }
{
    match line.first() {
        Some(oldest) if piece == oldest.piece && begin == oldest.begin => Some(0),
        _ => place_in(line, piece, begin),
    }
}

/// Where in the line a block stands that begins there, looked for from the newest request on.
fn place_from_end(line: &[Block], piece: u32, begin: u32) -> Option<usize>
    ensures some { IfSome result (λ i. (i < length line.now)
        × ((d : Block) → ((piece == (slice_index_or line.now i d).piece) && (begin == (slice_index_or line.now i d).begin)) ≡ true)) }
    ensures none { IfNone result (list_any (λ b. (piece == b.piece) && (begin == b.begin)) line.now ≡ false) }
{
    for index in (0..line.len()).rev() {
        let block = &line[index];
        if piece == block.piece && begin == block.begin {
            return Some(index);
        }
    }
    None
}
