//! A pass of a board, and the link that it serves.

ghost use Rattle.std.specs.Prelude.{◌≡◌, ◌<◌, ◌≤◌, ◌+◌, ◌++◌, ◌∷◌, [], map, reverse, vec_len, vec_capacity};
ghost use Rattle.link_server.specs.Links.{Telling};
ghost use Rattle.link_server.specs.Seats.{CanServe, IsSeated, served_at};

use crate::served::Served;
use pan_io::{Sink, Source};
use session_server::{End, serve_session};
use shared_board::{Board, BoardPass};
use state_tree::Work;
use std::alloc::Global;
use std::sync::Wait;
use std::thread::Threads;
use worker_gate::Gate;

/// What the sessions of a board share.
#[derive(Drop)]
pub struct Hall<'a, R, W: Work, G> {
    pub rt: &'a R,
    pub alloc: Global,
    pub work: &'a W,
    pub board: &'a Board<W>,
    pub workers: u32,
    pub gate: &'a G,
}

/// A pass of the board, the link that it serves, and how its session ended: `Memory` as long as it has not run.
#[derive(Drop)]
pub struct Seat<W: Work, I, O> {
    pub pass: BoardPass<W>,
    pub input: I,
    pub output: O,
    pub end: End,
}

/// Serves the link of a seat over the board, in the session of its pass.
pub fn serve_seat<R: Threads + Wait + Sync, W: Work + Sync, G: Gate, I: Source, O: Sink>(
    hall: &Hall<'_, R, W, G>,
    seat: Seat<W, I, O>,
) -> Seat<W, I, O>
where
    W::Env: Send,
    W::State: Send,
    requires ready { CanServe W.value hall.now.board.now (record { left = I.left; input_faults = I.faults; taken = O.taken; output_faults = O.faults }) hall.now.workers seat }
    ensures { IsSeated W.value hall.now.board.now (record { left = I.left; input_faults = I.faults; taken = O.taken; output_faults = O.faults }) (I.left seat.input) seat.pass result }
{
    let Seat {
        mut pass,
        mut input,
        mut output,
        end: _,
    } = seat;
    let end = serve_session(
        hall.rt,
        hall.alloc,
        hall.work,
        hall.board,
        &mut pass,
        hall.workers,
        &mut input,
        &mut output,
        hall.gate,
    );
    Seat {
        pass,
        input,
        output,
        end,
    }
}

/// Takes the pass from a seat, and the link.
fn clear_seat<W: Work, I: Drop, O: Drop>(
    seat: Seat<W, I, O>,
    passes: &mut Vec<BoardPass<W>>,
) -> Served<I, O>
    requires room { vec_len passes.old < vec_capacity passes.old }
    ensures passes { passes.new.items ≡ passes.old.items ++ (seat.pass ∷ []) }
    ensures capacity { vec_capacity passes.new ≡ vec_capacity passes.old }
    ensures served { result ≡ served_at seat }
{
    let number = seat.pass.number();
    let Seat {
        pass,
        input,
        output,
        end,
    } = seat;
    passes.push_reserved(pass);
    Served {
        link: number,
        pass: number,
        end,
        input,
        output,
    }
}

/// Takes the passes and the links from their seats, of which the first link has the last.
pub fn clear_seats<W: Work, I: Drop, O: Drop>(
    seats: Vec<Seat<W, I, O>>,
    passes: &mut Vec<BoardPass<W>>,
    served: &mut Vec<Served<I, O>>,
)
    requires passes { vec_len passes.old + vec_len seats ≤ vec_capacity passes.old }
    requires served { vec_len served.old + vec_len seats ≤ vec_capacity served.old }
    ensures passes { passes.new.items ≡ passes.old.items ++ map (λ seat. seat.pass) (reverse seats.items) }
    ensures capacity { vec_capacity passes.new ≡ vec_capacity passes.old }
    ensures served { served.new.items ≡ served.old.items ++ map served_at (reverse seats.items) }
{
    let mut seats = seats;
    seats.reverse();
    for seat in seats {
        served.push_reserved(clear_seat(seat, passes));
    }
}

/// Puts the passes that got no link to the others.
pub fn put_back<W: Work>(waiting: Vec<BoardPass<W>>, passes: &mut Vec<BoardPass<W>>)
    requires room { vec_len passes.old + vec_len waiting ≤ vec_capacity passes.old }
    ensures passes { passes.new.items ≡ passes.old.items ++ waiting.items }
{
    for pass in waiting {
        passes.push_reserved(pass);
    }
}
