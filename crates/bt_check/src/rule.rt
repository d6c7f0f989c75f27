//! The rule of the tickets: none is lost, and none is taken twice.

use crate::ticket::Ticket;
use crossbeam_channel::protocol::{Lesson, Outcome, Protocol, Split};
use std::collections::LinkedList;

/// What was put and taken with a pass, the oldest first. No value of it is made.
pub struct Account {
    pub put: LinkedList<Ticket>,
    pub taken: LinkedList<Ticket>,
}

/// Over all passes: each ticket that was put was taken or is left, as often as it was put; and the first that was put is the first that is
/// taken.
pub struct EachOnce;

impl Protocol<Ticket, Account> for EachOnce {
    ghost use Rattle.bt_check.specs.Balance.{IsKept, blank};

    ghost holds = { IsKept };

    ghost first = { blank };
}

/// A pass is made beside another: it has put and taken nothing, and the other keeps its account.
pub struct Cut;

impl Split<Account> for Cut {
    ghost use Rattle.bt_check.specs.Balance.{blank};

    ghost left = { λ account. account };

    ghost right = { λ account. blank };
}

/// A ticket joins the queue at the back.
pub struct Put;

impl Outcome<Ticket, Account> for Put {
    ghost use Rattle.std.specs.Prelude.{◌≡◌};
    ghost use Rattle.bt_check.specs.Balance.{account_put};

    ghost then = { λ old ticket new. new ≡ account_put old ticket };
}

impl Lesson<Ticket, Account> for Put {
    ghost fact = { λ account tickets. Unit {0} };
}

/// A ticket leaves the queue at the front.
pub struct Take;

impl Outcome<Ticket, Account> for Take {
    ghost use Rattle.std.specs.Prelude.{◌≡◌};
    ghost use Rattle.bt_check.specs.Balance.{account_taken};

    ghost then = { λ old ticket new. new ≡ account_taken old ticket };
}

impl Lesson<Ticket, Account> for Take {
    ghost fact = { λ account tickets. Unit {0} };
}
