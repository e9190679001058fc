//! The links: each is accepted for the next pass, and its session runs beside those of the others.

ghost use Rattle.std.specs.Prelude.{◌≡◌, ◌≤◌, ◌+◌, false, vec_len, vec_capacity};
ghost use Rattle.link_server.specs.Doors.{DoorsMeaning};
ghost use Rattle.link_server.specs.Links.{Telling};
ghost use Rattle.link_server.specs.Seats.{AcceptingMeaning, AreServed, AreWaiting, CanServe, IsSeated};

use crate::beside::{Queue, run_all};
use crate::seat::{Hall, Seat, serve_seat};
use pan_io::Doors;
use session_server::End;
use shared_board::BoardPass;
use state_tree::Work;
use std::sync::Wait;
use std::thread::Threads;
use worker_gate::Gate;

/// Links that are still to be accepted, for passes that wait, the next one last.
struct Accepting<'d, W: Work, D> {
    doors: &'d mut D,
    waiting: Vec<BoardPass<W>>,
    failed: bool,
}

impl<'d, 'h, R, W: Work, G, D: Doors> Queue<Hall<'h, R, W, G>, Seat<W, D::In, D::Out>>
    for Accepting<'d, W, D>
where
    D::In: Drop,
    D::Out: Drop,
{
    ghost use Rattle.std.specs.Prelude.{vec_len};
    ghost use Rattle.link_server.specs.Doors.{DoorsMeaning};
    ghost use Rattle.link_server.specs.Seats.{AcceptingMeaning, AreWaiting, CanServe, GivesLink, EndsLinks};

    ghost left = { λ q. vec_len q.waiting };

    ghost borrows = { λ q. q.doors.ghost_name };

    ghost fits = { λ hall q. AreWaiting W.value hall.board.now hall.workers q.waiting.items };

    ghost can_run = { λ hall seat. CanServe W.value hall.board.now (record { left = D.In.left; input_faults = D.In.faults; taken = D.Out.taken; output_faults = D.Out.faults }) hall.workers seat };

    ghost gives = { λ old seat new. GivesLink (D.In.left seat.input) seat.pass
        (record { doors = record { links = D.links old.doors.now; address = D.listens_on old.doors.now; faults = D.faults old.doors.now }; waiting = old.waiting.items; failed = old.failed })
        (record { doors = record { links = D.links new.doors.now; address = D.listens_on new.doors.now; faults = D.faults new.doors.now }; waiting = new.waiting.items; failed = new.failed }) };

    ghost ends = { λ old new. EndsLinks
        (record { doors = record { links = D.links old.doors.now; address = D.listens_on old.doors.now; faults = D.faults old.doors.now }; waiting = old.waiting.items; failed = old.failed })
        (record { doors = record { links = D.links new.doors.now; address = D.listens_on new.doors.now; faults = D.faults new.doors.now }; waiting = new.waiting.items; failed = new.failed }) };

    fn next(&mut self, _hall: &Hall<'h, R, W, G>) -> Option<Seat<W, D::In, D::Out>> {
        if self.waiting.is_empty() {
            return None;
        }
        let Ok((input, output)) = self.doors.accept() else {
            self.failed = true;
            return None;
        };
        let pass = self.waiting.pop()?;
        Some(Seat {
            pass,
            input,
            output,
            end: End::Memory,
        })
    }
}

/// The passes that got no link, and whether the doors failed.
#[derive(Drop)]
pub struct Accepted<W: Work> {
    pub waiting: Vec<BoardPass<W>>,
    pub failed: bool,
}

/// Accepts a link for each pass that waits, the last one first, and serves it. After a fault of the doors no more are accepted. All
/// sessions have ended when it returns; the seat of the first link is then the last.
pub fn accept_links<R: Threads + Wait + Sync, W: Work + Sync, G: Gate, D: Doors>(
    hall: &Hall<'_, R, W, G>,
    doors: &mut D,
    waiting: Vec<BoardPass<W>>,
    seats: &mut Vec<Seat<W, D::In, D::Out>>,
) -> Accepted<W>
where
    W::Env: Send,
    W::State: Send,
    D::In: Drop,
    D::Out: Drop,
    requires waiting { AreWaiting W.value hall.now.board.now hall.now.workers waiting.items }
    requires room { vec_len seats.old + vec_len waiting ≤ vec_capacity seats.old }
    ensures served { AreServed W.value hall.now.board.now (record { left = D.In.left; input_faults = D.In.faults; taken = D.Out.taken; output_faults = D.Out.faults })
        (record { doors = record { links = D.links doors.old; address = D.listens_on doors.old; faults = D.faults doors.old }; waiting = waiting.items; failed = false })
        (record { doors = record { links = D.links doors.new; address = D.listens_on doors.new; faults = D.faults doors.new }; waiting = result.waiting.items; failed = result.failed })
        seats.old.items seats.new.items }
    ensures count { vec_len seats.new ≤ vec_len seats.old + vec_len waiting }
{
    let mut accepting = Accepting {
        doors,
        waiting,
        failed: false,
    };
    run_all(
        hall.rt,
        hall,
        &mut accepting,
        seats,
        &|hall: &Hall<'_, R, W, G>, seat: Seat<W, D::In, D::Out>| -> Seat<W, D::In, D::Out>
            requires { CanServe W.value hall.now.board.now (record { left = D.In.left; input_faults = D.In.faults; taken = D.Out.taken; output_faults = D.Out.faults }) hall.now.workers seat }
            ensures { IsSeated W.value hall.now.board.now (record { left = D.In.left; input_faults = D.In.faults; taken = D.Out.taken; output_faults = D.Out.faults }) (D.In.left seat.input) seat.pass result }
        { serve_seat(hall, seat) },
    );
    let Accepting {
        doors,
        waiting,
        failed,
    } = accepting;
    // It does nothing when it runs. The proof reads here what the doors are.
    let _ = &*doors;
    Accepted { waiting, failed }
}
