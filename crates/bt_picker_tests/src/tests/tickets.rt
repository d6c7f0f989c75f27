//! Tickets that come in order, also to another thread, and a queue that makes who puts wait while it is full.
ghost use Rattle.std.specs.Prelude.{◌≡◌, IfOk};

use super::same::same;
use bt_check::{Ticket, TicketPass, Tickets};
use std::alloc::{AllocError, Global};
use std::process::Abort;
use std::sync::Wait;
use std::sync::atomic::{AtomicBool, AtomicU32, Ordering};
use std::test::*;
use std::thread;
use std::thread::Threads;

/// More tickets than a queue holds.
const MANY: u32 = 40;

/// How many tickets a queue holds.
const HELD: u32 = 16;

/// A queue, and two passes of it.
fn opened(rt: &impl Abort, alloc: Global) -> Result<(Tickets, TicketPass, TicketPass), Fail>
    ensures first { IfOk result (λ opened. opened.1.queue ≡ opened.0) }
    ensures second { IfOk result (λ opened. opened.2.queue ≡ opened.0) }
{
    let (tickets, mut passes) = Tickets::open(alloc, 2)?;
    assert!(rt; passes.len() == 2);
    let second = passes.remove(1);
    let first = passes.remove(0);
    Ok((tickets, first, second))
}

#[test]
fn tickets_come_in_order(rt: HostRuntime) -> Result<(), Fail> {
    let (tickets, mut first, mut second) = opened(&rt, rt.alloc())?;
    puts_three(&rt, &tickets, &mut first);
    takes_three(&rt, &tickets, &mut second);
    Ok(())
}

fn puts_three<R: Wait + Abort>(rt: &R, tickets: &Tickets, pass: &mut TicketPass)
    requires { pass.old.queue ≡ tickets.now }
{
    puts(rt, tickets, pass, Ticket::Piece(5));
    puts(rt, tickets, pass, Ticket::Piece(7));
    puts(rt, tickets, pass, Ticket::Stop);
}

fn puts<R: Wait + Abort>(rt: &R, tickets: &Tickets, pass: &mut TicketPass, ticket: Ticket)
    requires { pass.old.queue ≡ tickets.now }
    ensures { pass.new.queue ≡ pass.old.queue }
{
    same(
        rt,
        is_put(rt, tickets, pass, ticket),
        true,
        "a ticket is put",
    );
}

fn takes_three<R: Wait + Abort>(rt: &R, tickets: &Tickets, pass: &mut TicketPass)
    requires { pass.old.queue ≡ tickets.now }
{
    takes(rt, tickets, pass, Ticket::Piece(5));
    takes(rt, tickets, pass, Ticket::Piece(7));
    takes(rt, tickets, pass, Ticket::Stop);
}

fn takes<R: Wait + Abort>(rt: &R, tickets: &Tickets, pass: &mut TicketPass, ticket: Ticket)
    requires { pass.old.queue ≡ tickets.now }
    ensures { pass.new.queue ≡ pass.old.queue }
{
    same(
        rt,
        taken(rt, tickets, pass),
        Some(ticket),
        "a ticket is taken",
    );
}

/// What two threads tell each other.
#[derive(Drop)]
struct Between {
    /// How many tickets were put.
    count: AtomicU32,
    /// Who takes has seen none put: so there was no memory for another thread, and the one is done after the other.
    is_alone: AtomicBool,
}

impl Between {
    fn new() -> Between {
        Between {
            count: AtomicU32::new(0),
            is_alone: AtomicBool::new(false),
        }
    }

    fn is_alone(&self) -> bool {
        self.is_alone.load(Ordering::SeqCst)
    }

    /// Waits until so many tickets were put as a queue holds. Whether there are no more of them while this yields a thousand times.
    fn stays_full(&self) -> bool {
        for _ in 0..1_000_000 {
            if self.count.load(Ordering::SeqCst) >= HELD {
                break;
            }
            thread::yield_now();
        }
        for _ in 0..1_000 {
            thread::yield_now();
        }
        self.count.load(Ordering::SeqCst) == HELD
    }

    /// Whether none was put until now, which is noted.
    fn finds_none(&self) -> bool {
        let finds_none = self.count.load(Ordering::SeqCst) == 0;
        self.is_alone.store(finds_none, Ordering::SeqCst);
        finds_none
    }
}

/// Whether a ticket was put; one that is handed back, as where there is no memory to wait, is put once more.
fn is_put<R: Wait>(rt: &R, tickets: &Tickets, pass: &mut TicketPass, ticket: Ticket) -> bool
    requires { pass.old.queue ≡ tickets.now }
    ensures { pass.new.queue ≡ pass.old.queue }
{
    match tickets.put(rt, pass, ticket) {
        Ok(()) => true,
        Err(ticket) => tickets.put(rt, pass, ticket).is_ok(),
    }
}

/// The next ticket, asked for once more where none is given.
fn taken<R: Wait>(rt: &R, tickets: &Tickets, pass: &mut TicketPass) -> Option<Ticket>
    requires { pass.old.queue ≡ tickets.now }
    ensures { pass.new.queue ≡ pass.old.queue }
{
    match tickets.take(rt, pass) {
        None => tickets.take(rt, pass),
        taken => taken,
    }
}

/// Puts a ticket for each of many pieces, and counts those that were put. Whether none was handed back.
fn puts_many<R: Wait>(rt: &R, tickets: &Tickets, mut pass: TicketPass, between: &Between) -> bool
    requires { pass.queue ≡ tickets.now }
{
    for piece in 0..MANY {
        if between.is_alone() || !is_put(rt, tickets, &mut pass, Ticket::Piece(piece)) {
            return false;
        }
        between.count.store(piece + 1, Ordering::SeqCst);
    }
    true
}

/// Takes a ticket for each of many pieces, once the queue is full. Whether they came in order, and who put them waited.
fn takes_many<R: Wait>(rt: &R, tickets: &Tickets, mut pass: TicketPass, between: &Between) -> bool
    requires { pass.queue ≡ tickets.now }
{
    let mut is_right = between.stays_full();
    if between.finds_none() {
        return false;
    }
    for piece in 0..MANY {
        is_right &= taken(rt, tickets, &mut pass) == Some(Ticket::Piece(piece));
    }
    is_right
}

/// One thread puts, and another one takes. Whether each found what it should.
fn put_and_take<R: Threads + Wait + Sync>(
    rt: &R,
    tickets: &Tickets,
    between: &Between,
    first: TicketPass,
    second: TicketPass,
) -> (bool, bool)
    requires first { first.queue ≡ tickets.now }
    requires second { second.queue ≡ tickets.now }
{
    thread::join(
        rt,
        move || -> bool
            requires { first.queue ≡ tickets.now }
        { puts_many(rt, tickets, first, between) },
        move || -> bool
            requires { second.queue ≡ tickets.now }
        { takes_many(rt, tickets, second, between) },
    )
}

fn in_two_threads<R: Threads + Wait + Abort + Sync>(rt: &R, alloc: Global) -> Result<(), Fail> {
    let (tickets, first, second) = opened(rt, alloc)?;
    let between = Between::new();
    let found = put_and_take(rt, &tickets, &between, first, second);
    if between.is_alone() {
        return Err(Fail::from(AllocError));
    }
    same(rt, found, (true, true), "put and taken");
    Ok(())
}

#[test]
fn a_full_queue_waits_and_loses_nothing(rt: HostRuntime) -> Result<(), Fail> {
    in_two_threads(&rt, rt.alloc())
}
