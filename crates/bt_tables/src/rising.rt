//! A set of numbers, listed in rising order.

ghost use Rattle.std.specs.Prelude.{◌≡◌, ◌<◌, [], true, false, IfOk};
ghost use Rattle.bt_tables.specs.Risings.{IsRising, Puts, RisingState};

use std::alloc::{AllocError, Global};
use std::marker::Model;

/// A set of numbers below a bound, in rising order, with room for all of them: it takes memory in `new` alone. A number comes or goes at
/// the place that a binary search finds, and those behind it move by one.
#[derive(Drop)]
pub struct Rising {
    bound: u32,
    numbers: Vec<u32>,
}

impl Model for Rising {
    ghost use Rattle.std.specs.Prelude.{◌≤◌, vec_capacity};
    ghost use Rattle.bt_tables.specs.Risings.{IsRising, RisingState};

    ghost Value = { RisingState };

    ghost view = { λ r. record { bound = r.bound; numbers = r.numbers.items } };

    ghost invariant = { λ r. IsRising r.bound r.numbers.items × (r.bound ≤ vec_capacity r.numbers) };
}

impl Rising {
    /// The empty set of numbers below `bound`.
    pub fn new(alloc: Global, bound: u32) -> Result<Rising, AllocError>
        ensures { IfOk result (λ set. set ≡ record { bound = bound; numbers = [] }) }
    {
        Ok(Rising {
            bound,
            numbers: Vec::with_capacity(alloc, bound as usize)?,
        })
    }

    /// The numbers, the least first.
    pub fn as_slice(&self) -> &[u32]
        ensures is { result.now ≡ self.now.numbers }
        ensures rise { IsRising self.now.bound result.now }
    {
        self.numbers.as_slice()
    }

    /// From now on the number is in the set, or isn't.
    #[inline(never)] // a caller that seldom comes here stays small
    pub fn put(&mut self, number: u32, member: bool)
        requires { number < self.old.bound }
        ensures bound { self.new.bound ≡ self.old.bound }
        ensures puts { Puts self.old.numbers number member self.new.numbers }
    {
        if member {
            self.insert(number);
        } else {
            self.remove(number);
        }
    }

    /// Adds a number that is not in the list, at its place.
    fn insert(&mut self, number: u32)
        requires { number < self.old.bound }
        ensures bound { self.new.bound ≡ self.old.bound }
        ensures puts { Puts self.old.numbers number true self.new.numbers }
    {
        if let Err(place) = self.numbers.binary_search(&number) {
            self.numbers.insert(place, number).unwrap(); // there is room
        }
    }

    /// Takes out a number that is in the list.
    fn remove(&mut self, number: u32)
        ensures bound { self.new.bound ≡ self.old.bound }
        ensures puts { Puts self.old.numbers number false self.new.numbers }
    {
        if let Ok(place) = self.numbers.binary_search(&number) {
            self.numbers.remove(place);
        }
    }
}
