//! Numbers in groups: each group is listed, and a number moves between groups next to one another.

ghost use Rattle.std.specs.Prelude.{◌≡◌, ◌<◌, ◌≤◌, ◌+◌, ◌-◌, true, false, length, replicate, slice_set, IfOk};
ghost use Rattle.std.specs.List.{range_with_len};
ghost use Rattle.bt_tables.specs.Orders.{at, AreInverse, AreMoved, Begins, ListsGroup, NoneBetween, OrderState, SomeBetween};
ghost use Rattle.bt_tables.specs.Orders.{lowered_between, raised_between};

use std::alloc::{AllocError, Global};
use std::marker::Model;

/// The numbers below a bound, each in a group, in one array by rising group: within a group in no stated order.
///
///     numbers   | 4 0 7 | 1 | 2 6 3 5 |
///     group         0     1      2
///     ends            3     4         8
///
/// A number moves to the next group by an exchange with the last of its own, and back by an exchange with the first of its own: one
/// border moves by one place, and nothing else changes.
#[derive(Drop)]
pub struct Order {
    /// All numbers, by group.
    numbers: Vec<u32>,
    /// Where each number stands in `numbers`.
    places: Vec<u32>,
    /// The group of each number.
    groups: Vec<u16>,
    /// Where each group ends in `numbers`, and so the next one begins.
    ends: Vec<u32>,
}

impl Model for Order {
    ghost use Rattle.bt_tables.specs.Orders.{AreInverse, AreSplit, OrderState};
    ghost use Rattle.std.specs.Prelude.{length};

    ghost Value = { OrderState };

    ghost view = { λ o. record { count = length o.ends.items; group_of = o.groups.items } };

    ghost invariant = { λ o. AreInverse o.numbers.items o.places.items × AreSplit o.groups.items o.places.items o.ends.items };
}

impl Order {
    /// The numbers below `bound`, all in group 0 of this many.
    pub fn new(alloc: Global, bound: u32, count: u16) -> Result<Order, AllocError>
        requires { 0 < count }
        ensures { IfOk result (λ order. order ≡ record { count = count; group_of = replicate bound 0 }) }
    {
        Ok(Order {
            numbers: rising(alloc, bound)?,
            places: rising(alloc, bound)?,
            groups: vec![in alloc; 0; bound as usize]?,
            ends: vec![in alloc; bound; count as usize]?,
        })
    }

    /// The group of the number.
    pub fn group_of(&self, number: u32) -> u32
        requires { number < length self.now.group_of }
        ensures is { result ≡ at self.now.group_of number }
    {
        u32::from(self.groups[number as usize])
    }

    /// The numbers of the group.
    pub fn group(&self, group: u32) -> &[u32]
        requires { group < self.now.count }
        ensures { ListsGroup self.now.group_of group result.now }
    {
        let begin = begin_of(&self.ends, group);
        let end = self.ends[group as usize];
        &self.numbers[begin as usize..end as usize]
    }

    /// Whether no number is in the groups from `low` up to `high`, in constant time.
    #[inline(always)]
    pub fn has_none(&self, low: u32, high: u32) -> bool
        requires low { low < high }
        requires high { high ≤ self.now.count }
        ensures none { result ≡ true → NoneBetween self.now.group_of low high }
        ensures some { result ≡ false → SomeBetween self.now.group_of low high }
    {
        begin_of(&self.ends, low) == self.ends[high as usize - 1]
    }

    /// Puts the number in this group. It takes a step for each border between its group and this one.
    pub fn put(&mut self, number: u32, group: u32)
        requires number { number < length self.old.group_of }
        requires group { group < self.old.count }
        ensures { self.new ≡ record self.old { group_of = slice_set self.old.group_of number group } }
    {
        if self.group_of(number) < group {
            self.raise_to(number, group);
        } else {
            self.lower_to(number, group);
        }
    }

    /// Moves the number to the next group.
    #[inline(always)]
    pub fn raise(&mut self, number: u32)
        requires number { number < length self.old.group_of }
        requires next { at self.old.group_of number + 1 < self.old.count }
        ensures { self.new ≡ record self.old { group_of = slice_set self.old.group_of number (at self.old.group_of number + 1) } }
    {
        let group = self.groups[number as usize];
        let last = self.ends[group as usize] - 1;
        exchange(&mut self.numbers, &mut self.places, number, last);
        self.ends[group as usize] = last;
        self.groups[number as usize] = group + 1;
    }

    /// Moves the number to the group before its own.
    #[inline(always)]
    pub fn lower(&mut self, number: u32)
        requires number { number < length self.old.group_of }
        requires before { 0 < at self.old.group_of number }
        ensures { self.new ≡ record self.old { group_of = slice_set self.old.group_of number (at self.old.group_of number - 1) } }
    {
        let group = self.groups[number as usize] - 1;
        let first = self.ends[group as usize];
        exchange(&mut self.numbers, &mut self.places, number, first);
        self.ends[group as usize] = first + 1;
        self.groups[number as usize] = group;
    }

    /// Moves each number of the groups from `low` up to `high` to the next group. The borders of the groups move, and no number does.
    pub fn raise_between(&mut self, low: u32, high: u32)
        requires low { 0 < low }
        requires rise { low ≤ high }
        requires high { high < self.old.count }
        ensures count { self.new.count ≡ self.old.count }
        ensures groups { AreMoved (raised_between low high) self.old.group_of self.new.group_of }
    {
        raise_each(&mut self.groups, low as u16, high as u16);
        self.ends
            .copy_within(low as usize - 1..high as usize - 1, low as usize);
    }

    /// Moves each number of the groups from `low` up to `high` to the group before its own. The borders of the groups move, and no number does.
    pub fn lower_between(&mut self, low: u32, high: u32)
        requires low { 0 < low }
        requires rise { low ≤ high }
        requires high { high ≤ self.old.count }
        ensures count { self.new.count ≡ self.old.count }
        ensures groups { AreMoved (lowered_between low high) self.old.group_of self.new.group_of }
    {
        lower_each(&mut self.groups, low as u16, high as u16);
        self.ends
            .copy_within(low as usize..high as usize, low as usize - 1);
    }

    /// Moves the number up, group by group.
    fn raise_to(&mut self, number: u32, group: u32)
        requires number { number < length self.old.group_of }
        requires group { group < self.old.count }
        requires above { at self.old.group_of number ≤ group }
        ensures { self.new ≡ record self.old { group_of = slice_set self.old.group_of number group } }
    {
        for _group in self.group_of(number)..group {
            self.raise(number);
        }
    }

    /// Moves the number down, group by group.
    fn lower_to(&mut self, number: u32, group: u32)
        requires number { number < length self.old.group_of }
        requires below { group ≤ at self.old.group_of number }
        ensures { self.new ≡ record self.old { group_of = slice_set self.old.group_of number group } }
    {
        for _group in group..self.group_of(number) {
            self.lower(number);
        }
    }
}

/// Where the group begins: at the front, or where the one before it ends.
fn begin_of(ends: &[u32], group: u32) -> u32
    requires { group < length ends.now }
    ensures { Begins ends.now group result }
{
    if group == 0 {
        0
    } else {
        ends[group as usize - 1]
    }
}

/// The groups from `low` up to `high` become the next ones.
fn raise_each(groups: &mut [u16], low: u16, high: u16)
    ensures { AreMoved (raised_between low high) groups.old groups.new }
{
    for number in 0..groups.len() {
        groups[number] = raised(groups[number], low, high);
    }
}

/// The groups from `low` up to `high` become those before them.
fn lower_each(groups: &mut [u16], low: u16, high: u16)
    requires { 0 < low }
    ensures { AreMoved (lowered_between low high) groups.old groups.new }
{
    for number in 0..groups.len() {
        groups[number] = lowered(groups[number], low, high);
    }
}

/// The next group, where this is one from `low` up to `high`.
#[inline(always)]
fn raised(group: u16, low: u16, high: u16) -> u16
    ensures { result ≡ raised_between low high group }
{
    if low <= group && group < high {
        group + 1
    } else {
        group
    }
}

/// The group before this one, where this is one from `low` up to `high`.
#[inline(always)]
fn lowered(group: u16, low: u16, high: u16) -> u16
    requires { 0 < low }
    ensures { result ≡ lowered_between low high group }
{
    if low <= group && group < high {
        group - 1
    } else {
        group
    }
}

/// The number and the one at this place take each other's places.
#[inline(always)]
fn exchange(numbers: &mut [u32], places: &mut [u32], number: u32, place: u32)
    requires inverse { AreInverse numbers.old places.old }
    requires number { number < length places.old }
    requires place { place < length numbers.old }
    ensures inverse { AreInverse numbers.new places.new }
    ensures places { places.new ≡ slice_set (slice_set places.old (at numbers.old place) (at places.old number)) number place }
{
    let here = places[number as usize];
    let other = numbers[place as usize];
    numbers[here as usize] = other;
    places[other as usize] = here;
    numbers[place as usize] = number;
    places[number as usize] = place;
}

/// The numbers below the bound, in order.
fn rising(alloc: Global, bound: u32) -> Result<Vec<u32>, AllocError>
    ensures { IfOk result (λ numbers. numbers.items ≡ range_with_len 0 bound) }
{
    let mut numbers = Vec::with_capacity(alloc, bound as usize)?;
    for number in 0..bound {
        numbers.push(number)?;
    }
    Ok(numbers)
}
