//! The places of a tree for links, and serving them.

ghost use Rattle.std.specs.Prelude.{◌≡◌, ◌<◌, ◌≤◌, [], ℕ, List, length, All, Contains, IfOk, Option, Some, map, take, true, vec_len, vec_capacity};
ghost use Rattle.state_tree.specs.Server.{IsLegal};
ghost use Rattle.shared_board.specs.Boards.{IsBoardPassOf};
ghost use Rattle.shared_board.specs.Closing.{numbers_of, NotesAreLearnt, IsClosedJournal, IsLastPass};
ghost use Rattle.link_server.specs.Doors.{DoorsMeaning};
ghost use Rattle.link_server.specs.Links.{Telling, served_as};
ghost use Rattle.link_server.specs.Served.{AreNewPasses, HasServed, LeavesOthers, FitsLinks, CompletesSessions};

use crate::links::{Accepted, accept_links};
use crate::seat::{Hall, Seat, clear_seats, put_back};
use crate::served::{Closed, Served};
use pan_io::Doors;
use shared_board::{Board, BoardPass};
use state_tree::{Tree, Work};
use std::alloc::{AllocError, Global};
use std::sync::Wait;
use std::thread::Threads;
use worker_gate::Gate;

/// A board with a pass for each link that may come, and room for the links, so that serving them wants no further memory for
/// this.
#[derive(Drop)]
pub struct Places<W: Work, I, O> {
    /// The board over the tree.
    pub board: Board<W>,
    /// The passes that wait for links, the next one last.
    pub waiting: Vec<BoardPass<W>>,
    seats: Vec<Seat<W, I, O>>,
    back: Vec<BoardPass<W>>,
    served: Vec<Served<I, O>>,
    ghost unseated: { seats.items ≡ [] },
    ghost none_back: { back.items ≡ [] },
    ghost none_served: { served.items ≡ [] },
    ghost seats_room: { vec_len waiting ≤ vec_capacity seats },
    ghost back_room: { vec_len waiting ≤ vec_capacity back },
    ghost served_room: { vec_len waiting ≤ vec_capacity served },
}

impl<W: Work, I: Drop, O: Drop> Places<W, I, O> {
    /// Places for so many links, 1 to 64, over a tree without entries.
    ///
    /// # Errors
    ///
    /// Want of memory alone; the tree is dropped.
    pub fn open(alloc: Global, tree: Tree<W>, links: u32) -> Result<Places<W, I, O>, AllocError>
        requires links { (1 ≤ links) × (links ≤ 64) }
        requires new { tree.journal ≡ [] }
        ensures book { IfOk result (λ places. places.board.lock.the_ground.book ≡ tree.book) }
        ensures entries { IfOk result (λ places. places.board.lock.the_ground.entries ≡ tree.entries) }
        ensures links { IfOk result (λ places. places.board.passes ≡ links) }
        ensures passes { IfOk result (λ places. AreNewPasses W.value places.board places.waiting.items) }
    {
        let seats = Vec::with_capacity(alloc, links as usize)?;
        let back = Vec::with_capacity(alloc, links as usize)?;
        let served = Vec::with_capacity(alloc, links as usize)?;
        let (board, mut waiting) = Board::open(alloc, tree, links)?;
        waiting.reverse();
        Ok(Places {
            board,
            waiting,
            seats,
            back,
            served,
        })
    }

    /// Closes the board before a link was accepted, as where the doors cannot listen. Takes no memory.
    pub fn close(self) -> Closed<W, I, O>
        requires passes { AreNewPasses W.value self.board self.waiting.items }
        ensures served { result.served.items ≡ [] }
        ensures failed { result.failed ≡ true }
        ensures journal { result.journal.items ≡ [] }
        ensures fits { (links : Option (List (List ℕ))) → FitsLinks W.value self.board.lock.the_ground links [] [] result.last }
    {
        let Places {
            board,
            waiting,
            seats: _,
            back: _,
            served,
        } = self;
        close_board(board, waiting, served, true)
    }
}

/// Closes the board of passes that have all come back.
fn close_board<W: Work, I: Drop, O: Drop>(
    board: Board<W>,
    passes: Vec<BoardPass<W>>,
    served: Vec<Served<I, O>>,
    failed: bool,
) -> Closed<W, I, O>
    requires own { All (IsBoardPassOf W.value board) passes.items }
    requires numbers { (n : ℕ) → n < board.passes → Contains (numbers_of passes.items) n }
    requires notes { NotesAreLearnt passes.items }
    ensures served { result.served ≡ served }
    ensures failed { result.failed ≡ failed }
    ensures legal { IsLegal W.value board.lock.the_ground.book result.journal.items }
    ensures room { length result.journal.items ≤ board.lock.the_ground.entries }
    ensures journal { IsClosedJournal board passes.items result.journal.items }
    ensures last { IsLastPass board passes.items result.journal.items result.last }
{
    let (tree, last) = board.close(passes);
    // The length tells that the entries are a legal history, for which there was room.
    let _length = tree.length();
    Closed {
        served,
        failed,
        journal: tree.into_journal(),
        last,
    }
}

/// Accepts a link for each place, and serves it over the tree that all of them share.
///
/// Each session is started when its link is accepted, on a thread of its own, and runs on the caller's where no thread can be made: then
/// after those that follow. After a fault of the doors no more links are accepted, and the sessions that run go on to their ends. When all
/// have ended, the board is closed. It may wait, for links and for turns. The sessions want memory for their work; serving wants none beside.
///
/// `workers`, 1 to 64, is how many make the requests of one line ready, for each session by itself.
pub fn serve_links<R: Threads + Wait + Sync, W: Work + Sync, D: Doors, G: Gate>(
    rt: &R,
    alloc: Global,
    work: &W,
    workers: u32,
    places: Places<W, D::In, D::Out>,
    doors: &mut D,
    gate: &G,
) -> Closed<W, D::In, D::Out>
where
    W::Env: Send,
    W::State: Send,
    D::In: Drop,
    D::Out: Drop,
    requires workers { (0 < workers) × (workers ≤ 64) }
    requires passes { AreNewPasses W.value places.board places.waiting.items }
    // How many links were served, and that fewer than there were places for were served only where the count of the doors rose.
    ensures count { HasServed places.board.passes
        (record { links = D.links doors.old; address = D.listens_on doors.old; faults = D.faults doors.old })
        (record { links = D.links doors.new; address = D.listens_on doors.new; faults = D.faults doors.new })
        (vec_len result.served) result.failed }
    // No link is taken but those that are served.
    ensures left { LeavesOthers places.board.passes (vec_len result.served)
        (record { links = D.links doors.old; address = D.listens_on doors.old; faults = D.faults doors.old })
        (record { links = D.links doors.new; address = D.listens_on doors.new; faults = D.faults doors.new }) }
    // The journal is one legal history, which each link that was served fits.
    ensures fits { FitsLinks W.value places.board.lock.the_ground
        (D.links doors.old)
        (map (served_as (record { left = D.In.left; input_faults = D.In.faults; taken = D.Out.taken; output_faults = D.Out.faults })) result.served.items)
        result.journal.items result.last }
    // Where nothing fails, only want of memory keeps the sessions from their ends.
    ensures complete { (inputs : List (List ℕ)) → D.links doors.old ≡ Some inputs → CompletesSessions places.board.lock.the_ground.entries (take places.board.passes inputs)
        (map (served_as (record { left = D.In.left; input_faults = D.In.faults; taken = D.Out.taken; output_faults = D.Out.faults })) result.served.items)
        result.last.found }
    // The doors listen where they did, and their count doesn't fall.
    ensures address { D.listens_on doors.new ≡ D.listens_on doors.old }
    ensures later { D.faults doors.old ≤ D.faults doors.new }
{
    let Places {
        board,
        waiting,
        mut seats,
        mut back,
        mut served,
    } = places;
    let hall = Hall {
        rt,
        alloc,
        work,
        board: &board,
        workers,
        gate,
    };
    let Accepted { waiting, failed } = accept_links(&hall, doors, waiting, &mut seats);
    clear_seats(seats, &mut back, &mut served);
    put_back(waiting, &mut back);
    close_board(board, back, served, failed)
}
