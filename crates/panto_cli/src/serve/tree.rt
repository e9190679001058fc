//! Links over the tree of one book.

ghost use Rattle.std.specs.Prelude.{◌≡◌, ◌≤◌, ℕ, List, [], Option, map, option_map, is_some, true, IfOk};
ghost use Rattle.term_syntax.specs.Lex.{Text};
ghost use Rattle.pan_io.specs.Books.{NamedBytes};
ghost use Rattle.pan_io.specs.Doors.{ListensOn};
ghost use Rattle.pan_io.specs.Faults.{Rose};
ghost use Rattle.command_line.specs.Form.{serve};
ghost use Rattle.goal_state.specs.State.{State};
ghost use Rattle.command_set.specs.Values.{value};
ghost use Rattle.link_server.specs.Links.{served_as};
ghost use Rattle.link_server.specs.Served.{AreNewPasses};
ghost use Rattle.panto_cli.specs.Books.{Accepts};
ghost use Rattle.panto_cli.specs.Ends.{Counted};
ghost use Rattle.panto_cli.specs.Outcomes.{status_in};
ghost use Rattle.panto_cli.specs.Serve.{HasHeard};
ghost use Rattle.panto_cli.specs.Serving.{IsPlan, IsClosedBoard, Hears, EndsServing};

use crate::host::Host;
use crate::notes::Outcome;
use crate::serve::finish::{Finish, outcome_of_links};
use crate::status::Status;
use crate::store::Store;
use command_set::{Environment, Program};
use link_server::{Closed, Places, serve_links};
use pan_io::{Doors, Sink, put_all};
use state_tree::Tree;
use std::alloc::{AllocError, Global};
use std::sync::Wait;
use std::thread::Threads;
use worker_gate::Gate;

/// What the words of serving say beside the book.
#[derive(Clone, Copy, Drop)]
pub struct Plan<'a> {
    pub listen: &'a str,
    pub entries: u32,
    pub workers: u32,
    pub sessions: u32,
}

/// Places for so many links over a new tree of a book.
fn open_places<I: Drop, O: Drop>(
    alloc: Global,
    book: Environment<Store>,
    entries: u32,
    sessions: u32,
) -> Result<Places<Program<Store>, I, O>, AllocError>
    requires sessions { (1 ≤ sessions) × (sessions ≤ 64) }
    ensures book { IfOk result (λ places. places.board.lock.the_ground.book ≡ book) }
    ensures entries { IfOk result (λ places. places.board.lock.the_ground.entries ≡ entries) }
    ensures sessions { IfOk result (λ places. places.board.passes ≡ sessions) }
    ensures passes { IfOk result (λ places. AreNewPasses {S = State} value places.board places.waiting.items) }
{
    let tree = Tree::open(alloc, book, entries)?;
    Places::open(alloc, tree, sessions)
}

/// What is left of a board that was closed, and whether the notes took all that was written so far.
#[derive(Drop)]
struct Listened<I, O> {
    closed: Closed<Program<Store>, I, O>,
    told: bool,
}

/// Listens, and serves a link for each place. Where the doors don't listen the board is closed at once.
fn listen_and_serve<R: Threads + Wait + Sync, D: Doors, N: Sink, G: Gate>(
    host: &Host<'_, R, G>,
    places: Places<Program<Store>, D::In, D::Out>,
    plan: Plan<'_>,
    doors: &mut D,
    notes: &mut N,
) -> Listened<D::In, D::Out>
where
    D::In: Drop,
    D::Out: Drop,
    requires plan { IsPlan plan.entries plan.workers plan.sessions }
    requires sessions { places.board.passes ≡ plan.sessions }
    requires passes { AreNewPasses {S = State} value places.board places.waiting.items }
    ensures closed { IsClosedBoard places.board.lock.the_ground plan.entry.listen.now plan.entry.sessions
        (record { links = D.links doors.old; address = D.listens_on doors.old; faults = D.faults doors.old })
        (record { links = D.links doors.new; address = D.listens_on doors.new; faults = D.faults doors.new })
        (map (served_as (record { left = D.In.left; input_faults = D.In.faults; taken = D.Out.taken; output_faults = D.Out.faults })) result.closed.served.items)
        result.closed.failed result.closed.journal.items result.closed.last }
    ensures later { D.faults doors.old ≤ D.faults doors.new }
    ensures heard { Hears result.told (ListensOn (D.listens_on doors.new) plan.entry.listen.now)
        ((result.closed.served.items ≡ []) × (result.closed.failed ≡ true) × Rose (D.faults doors.old) (D.faults doors.new)) (N.taken notes.old) (N.taken notes.new) (N.faults notes.old) (N.faults notes.new) }
    ensures tells_notes { is_some (N.taken notes.new) ≡ is_some (N.taken notes.old) }
    ensures later_notes { N.faults notes.old ≤ N.faults notes.new }
{
    if doors.listen(plan.listen).is_err() {
        return Listened {
            closed: places.close(),
            told: true,
        };
    }
    let told = put_all(notes, b"panto: listening\n").is_ok();
    let closed = serve_links(
        host.rt,
        host.alloc,
        &Program::new(),
        plan.workers,
        places,
        doors,
        host.gate,
    );
    Listened { closed, told }
}

/// Serves links over a book.
pub fn serve_book<R: Threads + Wait + Sync, D: Doors, N: Sink, G: Gate>(
    host: &Host<'_, R, G>,
    book: Environment<Store>,
    plan: Plan<'_>,
    doors: &mut D,
    notes: &mut N,
) -> Finish<D::In, D::Out>
where
    D::In: Drop,
    D::Out: Drop,
    requires plan { IsPlan plan.entries plan.workers plan.sessions }
    ensures ends { (books : Option (List NamedBytes)) (file : Option Text) (workers : ℕ) (shelf : Counted) → Accepts books file book
        → EndsServing books (Some (serve plan.entry.listen.now file plan.entry.entries workers plan.entry.sessions)) shelf
        (record {
          doors = record { links = D.links doors.old; address = D.listens_on doors.old; faults = D.faults doors.old };
          after = record { links = D.links doors.new; address = D.listens_on doors.new; faults = D.faults doors.new };
          served = map (served_as (record { left = D.In.left; input_faults = D.In.faults; taken = D.Out.taken; output_faults = D.Out.faults })) result.served.items;
          journal = option_map (λ v. v.items) result.journal;
          last = result.last;
        })
        result.outcome }
    ensures heard { HasHeard plan.entry.listen.now
        (record {
          doors = record { links = D.links doors.old; address = D.listens_on doors.old; faults = D.faults doors.old };
          after = record { links = D.links doors.new; address = D.listens_on doors.new; faults = D.faults doors.new };
          served = map (served_as (record { left = D.In.left; input_faults = D.In.faults; taken = D.Out.taken; output_faults = D.Out.faults })) result.served.items;
          journal = option_map (λ v. v.items) result.journal;
          last = result.last;
        })
        (status_in result.outcome) result.told
        (N.taken notes.old) (N.taken notes.new) (N.faults notes.old) (N.faults notes.new) }
    ensures later { D.faults doors.old ≤ D.faults doors.new }
    ensures tells_notes { is_some (N.taken notes.new) ≡ is_some (N.taken notes.old) }
    ensures later_notes { N.faults notes.old ≤ N.faults notes.new }
{
    match open_places(host.alloc, book, plan.entries, plan.sessions) {
        Ok(places) => {
            let Listened { closed, told } = listen_and_serve(host, places, plan, doors, notes);
            let Closed {
                served,
                failed,
                journal,
                last,
            } = closed;
            Finish {
                outcome: outcome_of_links(failed, &served),
                told,
                served,
                journal: Some(journal),
                last: Some(last),
            }
        }
        Err(_) => Finish::without(host.alloc, Outcome::Plain(Status::Memory)),
    }
}
