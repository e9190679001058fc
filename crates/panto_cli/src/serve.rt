//! `panto serve`: many links grow one tree.

ghost use Rattle.std.specs.Prelude.{◌≡◌, ◌≤◌, ◌⊎◌, ℕ, List, Some, map, option_map, string_bytes, is_some, true, false};
ghost use Rattle.command_line.specs.Form.{form_of, serve};
ghost use Rattle.command_line.specs.Range.{IsInRange};
ghost use Rattle.command_line.specs.Seen.{seen};
ghost use Rattle.link_server.specs.Links.{served_as};
ghost use Rattle.panto_cli.specs.Notes.{Noted, address_of};
ghost use Rattle.panto_cli.specs.Outcomes.{status_in, line_of};
ghost use Rattle.panto_cli.specs.Serve.{IsServe, IsServedBy, HasHeard, AreNotes, CompletesLinks};
ghost use Rattle.panto_cli.specs.Serving.{IsPlan, EndsServing};

mod ended;
mod finish;
mod tree;

use crate::book::open_book;
use crate::check::outcome_without;
use crate::host::Host;
use crate::notes::{Outcome, write_outcome};
use crate::status::Status;
use command_line::{Form, read_words};
pub use ended::Ended;
use finish::Finish;
use pan_io::{Doors, Shelf, Sink};
use std::alloc::Global;
use std::sync::Wait;
use std::thread::Threads;
use tree::{Plan, serve_book};
use worker_gate::Gate;

/// Opens the book and serves links over it.
fn serve_plan<R: Threads + Wait + Sync, H: Shelf, D: Doors, N: Sink, G: Gate>(
    host: &Host<'_, R, G>,
    plan: Plan<'_>,
    file: Option<&str>,
    shelf: &mut H,
    doors: &mut D,
    notes: &mut N,
) -> Finish<D::In, D::Out>
where
    D::In: Drop,
    D::Out: Drop,
    requires plan { IsPlan plan.entries plan.workers plan.sessions }
    ensures ends { EndsServing (H.books shelf.old) (Some (serve plan.entry.listen.now (option_map (λ s. s.now) file.entry) plan.entry.entries plan.entry.workers plan.entry.sessions)) (record { before = H.faults shelf.old; after = H.faults shelf.new })
        (record {
          doors = record { links = D.links doors.old; address = D.listens_on doors.old; faults = D.faults doors.old };
          after = record { links = D.links doors.new; address = D.listens_on doors.new; faults = D.faults doors.new };
          served = map (served_as (record { left = D.In.left; input_faults = D.In.faults; taken = D.Out.taken; output_faults = D.Out.faults })) result.served.items;
          journal = option_map (λ v. v.items) result.journal;
          last = result.last;
        })
        result.outcome }
    ensures heard { HasHeard plan.entry.listen.now
        (record {
          doors = record { links = D.links doors.old; address = D.listens_on doors.old; faults = D.faults doors.old };
          after = record { links = D.links doors.new; address = D.listens_on doors.new; faults = D.faults doors.new };
          served = map (served_as (record { left = D.In.left; input_faults = D.In.faults; taken = D.Out.taken; output_faults = D.Out.faults })) result.served.items;
          journal = option_map (λ v. v.items) result.journal;
          last = result.last;
        })
        (status_in result.outcome) result.told
        (N.taken notes.old) (N.taken notes.new) (N.faults notes.old) (N.faults notes.new) }
    ensures books { H.books shelf.new ≡ H.books shelf.old }
    ensures later_shelf { H.faults shelf.old ≤ H.faults shelf.new }
    ensures later { D.faults doors.old ≤ D.faults doors.new }
    ensures tells_notes { is_some (N.taken notes.new) ≡ is_some (N.taken notes.old) }
    ensures later_notes { N.faults notes.old ≤ N.faults notes.new }
{
    match open_book(host.alloc, shelf, file) {
        Ok(book) => serve_book(host, book, plan, doors, notes),
        Err(fault) => Finish::without(host.alloc, outcome_without(fault)),
    }
}

/// What the words of a form ask for.
fn serve_form<R: Threads + Wait + Sync, H: Shelf, D: Doors, N: Sink, G: Gate>(
    host: &Host<'_, R, G>,
    form: Form,
    shelf: &mut H,
    doors: &mut D,
    notes: &mut N,
) -> Finish<D::In, D::Out>
where
    D::In: Drop,
    D::Out: Drop,
    requires range { IsInRange (seen form) }
    ensures ends { EndsServing (H.books shelf.old) (Some (seen form.entry)) (record { before = H.faults shelf.old; after = H.faults shelf.new })
        (record {
          doors = record { links = D.links doors.old; address = D.listens_on doors.old; faults = D.faults doors.old };
          after = record { links = D.links doors.new; address = D.listens_on doors.new; faults = D.faults doors.new };
          served = map (served_as (record { left = D.In.left; input_faults = D.In.faults; taken = D.Out.taken; output_faults = D.Out.faults })) result.served.items;
          journal = option_map (λ v. v.items) result.journal;
          last = result.last;
        })
        result.outcome }
    ensures heard { HasHeard (address_of (Some (seen form.entry)))
        (record {
          doors = record { links = D.links doors.old; address = D.listens_on doors.old; faults = D.faults doors.old };
          after = record { links = D.links doors.new; address = D.listens_on doors.new; faults = D.faults doors.new };
          served = map (served_as (record { left = D.In.left; input_faults = D.In.faults; taken = D.Out.taken; output_faults = D.Out.faults })) result.served.items;
          journal = option_map (λ v. v.items) result.journal;
          last = result.last;
        })
        (status_in result.outcome) result.told
        (N.taken notes.old) (N.taken notes.new) (N.faults notes.old) (N.faults notes.new) }
    ensures books { H.books shelf.new ≡ H.books shelf.old }
    ensures later_shelf { H.faults shelf.old ≤ H.faults shelf.new }
    ensures later { D.faults doors.old ≤ D.faults doors.new }
    ensures tells_notes { is_some (N.taken notes.new) ≡ is_some (N.taken notes.old) }
    ensures later_notes { N.faults notes.old ≤ N.faults notes.new }
    ensures untouched { ¬ IsServe (Some (seen form.entry)) → shelf.new ≡ shelf.old }
{
    match form {
        Form::Serve {
            listen,
            book,
            entries,
            workers,
            sessions,
        } => {
            let plan = Plan {
                listen,
                entries,
                workers,
                sessions,
            };
            serve_plan(host, plan, book, shelf, doors, notes)
        }
        Form::Run { .. } | Form::Check { .. } | Form::Demo { .. } => {
            Finish::without(host.alloc, Outcome::Plain(Status::Usage))
        }
    }
}

/// What the words ask for.
fn serve_words<R: Threads + Wait + Sync, H: Shelf, D: Doors, N: Sink, G: Gate>(
    host: &Host<'_, R, G>,
    words: &[String],
    shelf: &mut H,
    doors: &mut D,
    notes: &mut N,
) -> Finish<D::In, D::Out>
where
    D::In: Drop,
    D::Out: Drop,
    ensures ends { EndsServing (H.books shelf.old) (form_of (map string_bytes words.now)) (record { before = H.faults shelf.old; after = H.faults shelf.new })
        (record {
          doors = record { links = D.links doors.old; address = D.listens_on doors.old; faults = D.faults doors.old };
          after = record { links = D.links doors.new; address = D.listens_on doors.new; faults = D.faults doors.new };
          served = map (served_as (record { left = D.In.left; input_faults = D.In.faults; taken = D.Out.taken; output_faults = D.Out.faults })) result.served.items;
          journal = option_map (λ v. v.items) result.journal;
          last = result.last;
        })
        result.outcome }
    ensures heard { HasHeard (address_of (form_of (map string_bytes words.now)))
        (record {
          doors = record { links = D.links doors.old; address = D.listens_on doors.old; faults = D.faults doors.old };
          after = record { links = D.links doors.new; address = D.listens_on doors.new; faults = D.faults doors.new };
          served = map (served_as (record { left = D.In.left; input_faults = D.In.faults; taken = D.Out.taken; output_faults = D.Out.faults })) result.served.items;
          journal = option_map (λ v. v.items) result.journal;
          last = result.last;
        })
        (status_in result.outcome) result.told
        (N.taken notes.old) (N.taken notes.new) (N.faults notes.old) (N.faults notes.new) }
    ensures books { H.books shelf.new ≡ H.books shelf.old }
    ensures later_shelf { H.faults shelf.old ≤ H.faults shelf.new }
    ensures later { D.faults doors.old ≤ D.faults doors.new }
    ensures tells_notes { is_some (N.taken notes.new) ≡ is_some (N.taken notes.old) }
    ensures later_notes { N.faults notes.old ≤ N.faults notes.new }
    ensures untouched { ¬ IsServe (form_of (map string_bytes words.now)) → shelf.new ≡ shelf.old }
{
    match read_words(host.alloc, words) {
        Ok(Some(form)) => serve_form(host, form, shelf, doors, notes),
        Ok(None) => Finish::without(host.alloc, Outcome::Plain(Status::Usage)),
        Err(_) => Finish::without(host.alloc, Outcome::Plain(Status::Memory)),
    }
}

/// Writes the line of the status, if the notes took all that was to be written before it.
fn write_end<N: Sink>(notes: &mut N, told: bool, outcome: &Outcome)
    ensures told { told ≡ true → Noted (N.taken notes.old) (N.taken notes.new) (N.faults notes.old) (N.faults notes.new) (line_of outcome.now) }
    ensures silent { told ≡ false → notes.new ≡ notes.old }
    ensures tells { is_some (N.taken notes.new) ≡ is_some (N.taken notes.old) }
    ensures later { N.faults notes.old ≤ N.faults notes.new }
{
    if told {
        write_outcome(notes, outcome);
    }
}

/// Serves links over one tree, on the words of `serve`.
///
/// `serve --listen ADDRESS [--book FILE] [--entries N] [--workers N] [--sessions N]` listens on the address and accepts so many links.
/// Each is a session of its own over the book that the shelf has under FILE: it is started on a thread of its own when its link is
/// accepted, or run on the caller's where no thread can be made. After a fault of the doors no more links are accepted, and the sessions
/// that run go on to their ends. When all have ended, the board is closed. There are 1 to 1,048,576 entries, 65,536 where none are given, of
/// all links together, 1 to 64 workers for each session and 1 to 64 sessions, each 1 where none are given. Other words are `Usage`.
///
/// `specs/Serve.antt` says what it leaves: the journal is one legal history, and what each link was answered is what the one-thread server
/// answers at its entries there. It may wait, for links and for turns.
pub fn panto_serve<R: Threads + Wait + Sync, H: Shelf, D: Doors, N: Sink, G: Gate>(
    rt: &R,
    alloc: Global,
    words: &[String],
    shelf: &mut H,
    doors: &mut D,
    notes: &mut N,
    gate: &G,
) -> Ended<D::In, D::Out>
where
    D::In: Drop,
    D::Out: Drop,
    // What serving leaves, by the words and the status.
    ensures leaves { IsServedBy (H.books shelf.old) (form_of (map string_bytes words.now)) (record { before = H.faults shelf.old; after = H.faults shelf.new })
        (record {
          doors = record { links = D.links doors.old; address = D.listens_on doors.old; faults = D.faults doors.old };
          after = record { links = D.links doors.new; address = D.listens_on doors.new; faults = D.faults doors.new };
          served = map (served_as (record { left = D.In.left; input_faults = D.In.faults; taken = D.Out.taken; output_faults = D.Out.faults })) result.served.items;
          journal = option_map (λ v. v.items) result.journal;
          last = result.last;
        })
        result.status }
    // `Usage` comes exactly where the words are of another form, unless memory runs out. Then no book is opened.
    ensures usage { result.status ≡ Status.Usage → ¬ IsServe (form_of (map string_bytes words.now)) }
    ensures refused { ¬ IsServe (form_of (map string_bytes words.now)) → (result.status ≡ Status.Usage) ⊎ (result.status ≡ Status.Memory) }
    ensures untouched { ¬ IsServe (form_of (map string_bytes words.now)) → shelf.new ≡ shelf.old }
    // No call changes what the shelf tells, and no count falls.
    ensures books { H.books shelf.new ≡ H.books shelf.old }
    ensures tells_notes { is_some (N.taken notes.new) ≡ is_some (N.taken notes.old) }
    ensures later_shelf { H.faults shelf.old ≤ H.faults shelf.new }
    ensures later { D.faults doors.old ≤ D.faults doors.new }
    ensures later_notes { N.faults notes.old ≤ N.faults notes.new }
    // The notes: that panto listens, and the line of the status.
    ensures noted { (text : List ℕ) × AreNotes (H.books shelf.old) (form_of (map string_bytes words.now))
        (record {
          doors = record { links = D.links doors.old; address = D.listens_on doors.old; faults = D.faults doors.old };
          after = record { links = D.links doors.new; address = D.listens_on doors.new; faults = D.faults doors.new };
          served = map (served_as (record { left = D.In.left; input_faults = D.In.faults; taken = D.Out.taken; output_faults = D.Out.faults })) result.served.items;
          journal = option_map (λ v. v.items) result.journal;
          last = result.last;
        })
        result.status text × Noted (N.taken notes.old) (N.taken notes.new) (N.faults notes.old) (N.faults notes.new) text }
    // Where nothing fails, only want of memory keeps the sessions from their ends.
    ensures complete { CompletesLinks (H.books shelf.old) (form_of (map string_bytes words.now)) (record { before = H.faults shelf.old; after = H.faults shelf.new })
        (record {
          doors = record { links = D.links doors.old; address = D.listens_on doors.old; faults = D.faults doors.old };
          after = record { links = D.links doors.new; address = D.listens_on doors.new; faults = D.faults doors.new };
          served = map (served_as (record { left = D.In.left; input_faults = D.In.faults; taken = D.Out.taken; output_faults = D.Out.faults })) result.served.items;
          journal = option_map (λ v. v.items) result.journal;
          last = result.last;
        })
        result.status }
{
    let host = Host { rt, alloc, gate };
    let finish = serve_words(&host, words, shelf, doors, notes);
    write_end(notes, finish.told, &finish.outcome);
    Ended {
        status: finish.outcome.status(),
        served: finish.served,
        journal: finish.journal,
        last: finish.last,
    }
}
