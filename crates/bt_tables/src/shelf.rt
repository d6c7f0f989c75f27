//! How all pieces stand to each other: in groups, in the list of the open ones, and in sums.

ghost use Rattle.std.specs.Prelude.{◌≡◌, ◌<◌, ◌≤◌, ◌+◌, ◌-◌, ◌^◌, true, false, length, replicate, slice_set, slice_index_or, IfOk};
ghost use Rattle.bt_tables.specs.Orders.{at, AreMoved, ListsGroup, NoneBetween, SomeBetween, lowered_between, raised_between};
ghost use Rattle.bt_tables.specs.Risings.{IsRising};
ghost use Rattle.bt_tables.specs.Rows.{amount_of};
ghost use Rattle.bt_tables.specs.Tables.{one_if};
ghost use Rattle.bt_tables.specs.Standings.{IsFiled, ListsOpen, NoneCrowded, ShelfState, lowered_group, lowered_in, raised_group, raised_in, refiled};
ghost use Rattle.bt_history.specs.declared.rules.TheConstants.{MOST_LEVEL};

use crate::order::Order;
use crate::piece::{CROWD, GROUPS, SPAN, Standing, UNBEGUN, is_open};
use crate::rising::Rising;
use bt_history::MOST_LEVEL;
use std::alloc::{AllocError, Global};
use std::marker::Model;

/// What the rows of the pieces amount to together: the pieces by group, the open ones in rising order too, since strict priority
/// takes the least that a peer shows; the numbers of unasked blocks and of those that aren't held, how many pieces are had, and of how many
/// something is left to get.
pub struct Shelf {
    order: Order,
    open_pieces: Rising,
    unasked: u64,
    unheld: u64,
    had: u32,
    left: u32,
}

/// The end of a shelf is one call for whoever owns one.
impl Drop for Shelf {
    fn drop(self) {
        let Shelf {
            order: _order,
            open_pieces: _open_pieces,
            unasked: _,
            unheld: _,
            had: _,
            left: _,
        } = self;
    }
}

impl Model for Shelf {
    ghost use Rattle.std.specs.Prelude.{◌≡◌};
    ghost use Rattle.bt_tables.specs.Standings.{AreOpen, ShelfState};
    ghost use Rattle.bt_tables.specs.declared.piece.TheConstants.{GROUPS};

    ghost Value = { ShelfState };

    ghost view = { λ s. record { groups = s.order.group_of; unasked = s.unasked; unheld = s.unheld; had = s.had; left = s.left } };

    ghost invariant = { λ s. (s.order.count ≡ GROUPS) × AreOpen s.order.group_of s.open_pieces.bound s.open_pieces.numbers };
}

impl Shelf {
    /// So many pieces of group 0, of which nothing is unasked.
    pub fn new(alloc: Global, pieces: u32) -> Result<Shelf, AllocError>
        ensures { IfOk result (λ shelf. shelf ≡ record { groups = replicate pieces 0; unasked = 0; unheld = 0; had = 0; left = 0 }) }
    {
        Ok(Shelf {
            order: Order::new(alloc, pieces, GROUPS)?,
            open_pieces: Rising::new(alloc, pieces)?,
            unasked: 0,
            unheld: 0,
            had: 0,
            left: 0,
        })
    }

    /// The pieces of the group.
    pub fn group(&self, group: u32) -> &[u32]
        requires { group < GROUPS }
        ensures { ListsGroup self.now.groups group result.now }
    {
        self.order.group(group)
    }

    /// Whether no piece is in the groups from `low` up to `high`.
    #[inline(always)]
    pub fn has_none(&self, low: u32, high: u32) -> bool
        requires low { low < high }
        requires high { high ≤ GROUPS }
        ensures none { result ≡ true → NoneBetween self.now.groups low high }
        ensures some { result ≡ false → SomeBetween self.now.groups low high }
    {
        self.order.has_none(low, high)
    }

    /// The begun pieces with an unasked block, the least first.
    pub fn open_pieces(&self) -> &[u32]
        ensures lists { ListsOpen self.now.groups result.now }
        ensures rise { IsRising (length self.now.groups) result.now }
    {
        self.open_pieces.as_slice()
    }

    /// The group of the piece.
    pub fn group_of(&self, piece: u32) -> u32
        requires { piece < length self.now.groups }
        ensures { result ≡ at self.now.groups piece }
    {
        self.order.group_of(piece)
    }

    /// How many blocks are unasked.
    pub fn unasked(&self) -> u64
        ensures { result ≡ self.now.unasked }
    {
        self.unasked
    }

    /// How many blocks aren't held.
    pub fn unheld(&self) -> u64
        ensures { result ≡ self.now.unheld }
    {
        self.unheld
    }

    /// How many pieces are had.
    pub fn had(&self) -> u32
        ensures { result ≡ self.now.had }
    {
        self.had
    }

    /// Of how many pieces something is left to get.
    pub fn left(&self) -> u32
        ensures { result ≡ self.now.left }
    {
        self.left
    }

    /// One peer more shows the piece, so many in all: an unbegun one moves to the next group.
    #[inline(always)]
    pub fn raise(&mut self, piece: u32, shown_by: u32)
        requires piece { piece < length self.old.groups }
        requires next { shown_by ≤ CROWD → at self.old.groups piece + 1 < GROUPS }
        ensures { self.new ≡ record self.old {
          groups = slice_set self.old.groups piece (raised_group shown_by (at self.old.groups piece));
        } }
    {
        if shown_by > CROWD {
            return;
        }
        if self.group_of(piece) % SPAN >= UNBEGUN {
            self.order.raise(piece);
        }
    }

    /// One peer less shows the piece, which so many did: an unbegun one moves to the group before its own.
    #[inline(always)]
    pub fn lower(&mut self, piece: u32, shown_by: u32)
        requires { piece < length self.old.groups }
        ensures { self.new ≡ record self.old {
          groups = slice_set self.old.groups piece (lowered_group shown_by (at self.old.groups piece));
        } }
    {
        if shown_by > CROWD {
            return;
        }
        if self.group_of(piece) % SPAN > UNBEGUN {
            self.order.lower(piece);
        }
    }

    /// One peer more shows each piece: the unbegun ones move to the next group, level by level.
    pub fn raise_all(&mut self)
        ensures groups { AreMoved (raised_in MOST_LEVEL) self.old.groups self.new.groups }
        ensures rest { self.new ≡ record self.old { groups = self.new.groups } }
    {
        for slot in 0..u32::from(MOST_LEVEL) {
            raise_slot(&mut self.order, slot * SPAN);
        }
    }

    /// One peer less shows each piece: the unbegun ones that some peer showed move to the group before, level by level.
    pub fn lower_all(&mut self)
        ensures groups { AreMoved (lowered_in MOST_LEVEL) self.old.groups self.new.groups }
        ensures rest { self.new ≡ record self.old { groups = self.new.groups } }
    {
        for slot in 0..u32::from(MOST_LEVEL) {
            lower_slot(&mut self.order, slot * SPAN);
        }
    }

    /// Whether an unbegun piece is shown by `CROWD` peers or more.
    pub fn is_crowded(&self) -> bool
        ensures { result ≡ false → NoneCrowded MOST_LEVEL self.now.groups }
    {
        for slot in 0..u32::from(MOST_LEVEL) {
            let behind = (slot + 1) * SPAN;
            if !self.order.has_none(behind - 1, behind) {
                return true;
            }
        }
        false
    }

    /// A piece that stood like this stands like that now.
    #[inline(always)]
    pub fn put(&mut self, piece: u32, before: Standing, after: Standing)
        requires piece { piece < length self.old.groups }
        requires before { (amount_of before).group ≡ at self.old.groups piece }
        requires fits { IsFiled self.old (amount_of before) (amount_of after) }
        ensures { self.new ≡ refiled self.old piece (amount_of before) (amount_of after) }
    {
        self.recount(before, after);
        if !before.is_grouped_as(after) {
            self.regroup(piece, before, after);
        }
    }

    /// The piece may be in another group now, and be had or at rest.
    #[inline(always)]
    fn regroup(&mut self, piece: u32, before: Standing, after: Standing)
        requires piece { piece < length self.old.groups }
        requires before { (amount_of before).group ≡ at self.old.groups piece }
        requires had { one_if (amount_of before).had ≤ self.old.had }
        requires left { one_if (amount_of before).left ≤ self.old.left }
        requires had_fits { self.old.had - one_if (amount_of before).had + one_if (amount_of after).had < 2 ^ 32 }
        requires left_fits { self.old.left - one_if (amount_of before).left + one_if (amount_of after).left < 2 ^ 32 }
        ensures { self.new ≡ record self.old {
          groups = slice_set self.old.groups piece (amount_of after).group;
          had = self.old.had - one_if (amount_of before).had + one_if (amount_of after).had;
          left = self.old.left - one_if (amount_of before).left + one_if (amount_of after).left;
        } }
    {
        self.put_in(piece, before.group(), after.group());
        self.had = self.had - u32::from(before.had()) + u32::from(after.had());
        self.left = self.left - u32::from(before.left()) + u32::from(after.left());
    }

    /// Another number of its blocks is unasked, or isn't held.
    #[inline(always)]
    fn recount(&mut self, before: Standing, after: Standing)
        requires { IsFiled self.old (amount_of before) (amount_of after) }
        ensures { self.new ≡ record self.old {
          unasked = self.old.unasked - (amount_of before).unasked + (amount_of after).unasked;
          unheld = self.old.unheld - (amount_of before).unheld + (amount_of after).unheld;
        } }
    {
        self.unasked = self.unasked - u64::from(before.unasked()) + u64::from(after.unasked());
        self.unheld = self.unheld - u64::from(before.unheld()) + u64::from(after.unheld());
    }

    /// Moves the piece from the one group to the other.
    #[inline(never)] // few changes come here, and how a piece stands then needs no memory
    fn put_in(&mut self, piece: u32, before: u32, after: u32)
        requires piece { piece < length self.old.groups }
        requires before { before ≡ at self.old.groups piece }
        requires after { after < GROUPS }
        ensures { self.new ≡ record self.old { groups = slice_set self.old.groups piece after } }
    {
        if before == after {
            return;
        }
        let opens = is_open(after);
        if is_open(before) != opens {
            self.open_pieces.put(piece, opens);
        }
        self.order.put(piece, after);
    }
}

/// The unbegun pieces of the level whose groups begin there move to the next group, but for those of the last.
fn raise_slot(order: &mut Order, first: u32)
    requires slot { first + SPAN ≤ GROUPS }
    requires count { order.old.count ≡ GROUPS }
    ensures count { order.new.count ≡ order.old.count }
    ensures groups { AreMoved (raised_between (first + UNBEGUN) (first + SPAN - 1)) order.old.group_of order.new.group_of }
{
    let low = first + UNBEGUN;
    let high = first + SPAN - 1;
    if !order.has_none(low, high) {
        order.raise_between(low, high);
    }
}

/// The unbegun pieces of the level whose groups begin there move to the group before, but for those of the first.
fn lower_slot(order: &mut Order, first: u32)
    requires slot { first + SPAN ≤ GROUPS }
    requires count { order.old.count ≡ GROUPS }
    ensures count { order.new.count ≡ order.old.count }
    ensures groups { AreMoved (lowered_between (first + UNBEGUN + 1) (first + SPAN)) order.old.group_of order.new.group_of }
{
    let low = first + UNBEGUN + 1;
    let high = first + SPAN;
    if !order.has_none(low, high) {
        order.lower_between(low, high);
    }
}
