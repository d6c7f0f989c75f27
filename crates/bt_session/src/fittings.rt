//! A run's desk, board and queue, and its workers.

ghost use Rattle.std.specs.Prelude.{◌≡◌, ◌≤◌, Some, All, length, IfOk};
ghost use Rattle.bt_history.specs.Setting.{AreRules, setting_of};
ghost use Rattle.bt_session.specs.Beginnings.{AreFittings, AreFresh, IsNewPass, IsNewSeat};
ghost use Rattle.bt_session.specs.Workers.{AreNumbered};

use crate::commons::{Commons, Worker};
use crate::run_name::RunName;
use bt_board::{Board, BoardSeat};
use bt_check::{TicketPass, Tickets};
use bt_history::{MOST_WORKERS, Rules};
use bt_meta::Torrent;
use bt_shared::{Pass, SharedDesk};
use std::alloc::{AllocError, Global};
use std::sync::Arc;

/// The desk, the board and the queue of a run, with passes and a seat for each of its workers.
#[derive(Drop)]
pub struct Fittings {
    pub desk: SharedDesk,
    pub passes: Vec<Pass>,
    pub board: Board,
    pub seats: Vec<BoardSeat>,
    pub queue: Tickets,
    pub tickets: Vec<TicketPass>,
}

/// Opens desk, board and queue for so many workers.
pub fn fit_out(
    alloc: Global,
    torrent: &Arc<Torrent>,
    workers: u32,
    rules: Rules,
) -> Result<Fittings, AllocError>
    requires workers { (1 ≤ workers) × (workers ≤ MOST_WORKERS) }
    requires rules { AreRules torrent.now.value.layout rules }
    ensures { IfOk result (AreFittings (setting_of torrent.now.value.layout workers rules)) }
{
    let (desk, passes) = SharedDesk::open(alloc, torrent.clone()?, workers, rules)?;
    let (board, seats) = Board::open(alloc, torrent.clone()?, workers as usize)?;
    let (queue, tickets) = Tickets::open(alloc, workers as usize)?;
    Ok(Fittings {
        desk,
        passes,
        board,
        seats,
        queue,
        tickets,
    })
}

/// A worker of each pass, seat and pass of the queue, in order.
fn enlist<L: RunName>(
    alloc: Global,
    passes: Vec<Pass>,
    seats: Vec<BoardSeat>,
    tickets: Vec<TicketPass>,
) -> Result<Vec<Worker<L>>, AllocError>
    requires count { (length seats.items ≡ length passes.items) × (length tickets.items ≡ length passes.items) }
    requires passes { AreNumbered (IsNewPass L.desk L.setting) 0 passes.items }
    requires seats { AreNumbered (IsNewSeat L.board) 0 seats.items }
    requires tickets { All (λ pass. L.queue ≡ Some pass.queue) tickets.items }
    ensures count { IfOk result (λ workers. length workers.items ≡ length passes.items) }
    ensures fresh { IfOk result (λ workers. AreFresh L.setting workers.items) }
{
    let mut seats = seats.into_iter();
    let mut tickets = tickets.into_iter();
    let mut workers = Vec::with_capacity(alloc, passes.len())?;
    for pass in passes {
        let Some(seat) = seats.next() else {
            unreachable!()
        };
        let Some(ticket_pass) = tickets.next() else {
            unreachable!()
        };
        workers.push_reserved(Worker::new(pass, seat, ticket_pass));
    }
    Ok(workers)
}

/// What the threads of the run share that `L` names, and its workers.
pub fn set_up<L: RunName>(
    alloc: Global,
    torrent: Arc<Torrent>,
    fittings: Fittings,
) -> Result<(Commons<L>, Vec<Worker<L>>), AllocError>
    requires fittings { AreFittings L.setting fittings }
    requires torrent { torrent.value.layout ≡ L.setting.torrent }
    requires desk { L.desk ≡ Some fittings.desk.table }
    requires board { L.board ≡ Some fittings.board.table }
    requires queue { L.queue ≡ Some fittings.queue }
    ensures torrent { IfOk result (λ opened. opened.0 ≡ torrent.value) }
    ensures count { IfOk result (λ opened. length opened.1.items ≡ L.setting.workers) }
    ensures fresh { IfOk result (λ opened. AreFresh L.setting opened.1.items) }
{
    let Fittings {
        desk,
        passes,
        board,
        seats,
        queue,
        tickets,
    } = fittings;
    let all = enlist(alloc, passes, seats, tickets)?;
    Ok((Commons::new(torrent, desk, board, queue), all))
}
