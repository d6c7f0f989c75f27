//! A queue of tickets that threads share.

ghost use Rattle.std.specs.Prelude.{◌≡◌, ◌<◌, All, length, IfOk, IfErr, IfSome, OnOk, IfNone};
ghost use Rattle.bt_check.specs.Queues.{new_ticket_pass, with_put, with_taken};

use crate::rule::{Account, Cut, EachOnce, Put, Take};
use crate::ticket::Ticket;
use crossbeam_channel::{Pass, RuledReceiver, RuledSender, bounded_with};
use std::alloc::{AllocError, Global};
use std::marker::Model;
use std::sync::Wait;

/// How many tickets the queue holds.
const CAPACITY: usize = 16;

/// A queue of tickets. Threads share it by reference, each with a pass of its own, with which it may put and take.
///
/// Contracts see which queue it is.
pub struct Tickets {
    sender: RuledSender<Ticket, Account, EachOnce>,
    receiver: RuledReceiver<Ticket, Account, EachOnce>,
}

/// The end of a queue is one call for whoever owns one.
impl Drop for Tickets {
    fn drop(self) {
        let Tickets {
            sender: _sender,
            receiver: _receiver,
        } = self;
    }
}

impl Model for Tickets {
    ghost use Rattle.std.specs.Prelude.{◌≡◌};
    ghost use Rattle.crossbeam_channel.specs.Claims.{IsKeyed};
    ghost use Rattle.crossbeam_channel.specs.Ends.{receives_on, sends_on};
    ghost use Rattle.bt_check.specs.Queues.{Queue, queue_of};

    ghost Value = { Queue };

    ghost view = { λ t. queue_of (sends_on t.sender) };

    ghost invariant = { λ t. (receives_on t.receiver ≡ sends_on t.sender) × IsKeyed (sends_on t.sender) };
}

/// Leave to put and take, for one thread. It takes no bytes.
///
/// Contracts see of which queue it is, and what was put and taken with it.
#[derive(Drop)]
pub struct TicketPass {
    pass: Pass<Ticket, Account>,
}

impl Model for TicketPass {
    ghost use Rattle.std.specs.Prelude.{◌≡◌, []};
    ghost use Rattle.bt_check.specs.Queues.{TicketPassState, state_of};

    ghost Value = { TicketPassState };

    ghost view = { λ p. state_of p.pass };

    ghost invariant = { λ p. p.pass.me.1 ≡ [] };
}

impl Tickets {
    /// A queue without tickets, and passes that have put and taken none.
    pub fn open(alloc: Global, passes: usize) -> Result<(Tickets, Vec<TicketPass>), AllocError>
        requires { 0 < passes }
        ensures count { IfOk result (λ opened. length opened.1.items ≡ passes) }
        ensures passes { IfOk result (λ opened. All (λ pass. pass ≡ new_ticket_pass opened.0) opened.1.items) }
    {
        let (sender, receiver, pass) = bounded_with(alloc, CAPACITY)?;
        let tickets = Tickets { sender, receiver };
        let all = tickets.passes(alloc, TicketPass { pass }, passes)?;
        Ok((tickets, all))
    }

    /// The first pass and those that are made beside it, so many in all.
    fn passes(
        &self,
        alloc: Global,
        mut first: TicketPass,
        count: usize,
    ) -> Result<Vec<TicketPass>, AllocError>
        requires count { 0 < count }
        requires first { first ≡ new_ticket_pass self.now }
        ensures count { IfOk result (λ passes. length passes.items ≡ count) }
        ensures passes { IfOk result (λ passes. All (λ pass. pass ≡ new_ticket_pass self.now) passes.items) }
    {
        let mut all = Vec::with_capacity(alloc, count)?;
        for _ in 1..count {
            all.push_reserved(self.another(&mut first));
        }
        all.push_reserved(first);
        Ok(all)
    }

    /// One more pass of the queue, made of one that there is.
    fn another(&self, pass: &mut TicketPass) -> TicketPass
        requires { pass.old.queue ≡ self.now }
        ensures same { pass.new ≡ pass.old }
        ensures new { result ≡ new_ticket_pass self.now }
    {
        TicketPass {
            pass: self.sender.another::<Cut>(&mut pass.pass),
        }
    }

    /// Adds a ticket at the back, and waits for room where the queue is full. A ticket that is handed back was not put.
    pub fn put<R: Wait>(&self, rt: &R, pass: &mut TicketPass, ticket: Ticket) -> Result<(), Ticket>
        requires { pass.old.queue ≡ self.now }
        ensures ok { OnOk result (pass.new ≡ with_put pass.old ticket) }
        ensures err { IfErr result (λ back. (back ≡ ticket) × (pass.new ≡ pass.old)) }
    {
        match self.sender.send_as::<Put, R>(rt, &mut pass.pass, ticket) {
            Ok(()) => Ok(()),
            Err(e) => Err(e.into_inner()),
        }
    }

    /// Takes the ticket at the front, and waits for one where the queue is empty.
    pub fn take<R: Wait>(&self, rt: &R, pass: &mut TicketPass) -> Option<Ticket>
        requires { pass.old.queue ≡ self.now }
        ensures some { IfSome result (λ ticket. pass.new ≡ with_taken pass.old ticket) }
        ensures none { IfNone result (pass.new ≡ pass.old) }
    {
        match self.receiver.recv_as::<Take, R>(rt, &mut pass.pass) {
            Ok(ticket) => Some(ticket),
            Err(_) => None,
        }
    }

    /// Takes the ticket at the front, if there is one at this moment. It waits for none, and may overlook one that is just being put.
    pub fn try_take<R: Wait>(&self, rt: &R, pass: &mut TicketPass) -> Option<Ticket>
        requires { pass.old.queue ≡ self.now }
        ensures some { IfSome result (λ ticket. pass.new ≡ with_taken pass.old ticket) }
        ensures none { IfNone result (pass.new ≡ pass.old) }
    {
        match self.receiver.try_recv_as::<Take, R>(rt, &mut pass.pass) {
            Ok(found) => Some(found),
            Err(_) => None,
        }
    }
}
