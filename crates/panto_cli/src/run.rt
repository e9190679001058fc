//! The top call: the words, the book, the session, the note.

ghost use Rattle.std.specs.Prelude.{◌≡◌, ◌<◌, ◌≤◌, ◌⊎◌, ℕ, List, Option, Some, map, option_map, string_bytes, is_some};
ghost use Rattle.std.specs.Io.KnownBytes.{Keeps};
ghost use Rattle.pan_io.specs.Books.{NamedBytes};
ghost use Rattle.pan_io.specs.Faults.{Rose};
ghost use Rattle.command_line.specs.Form.{form_of, run};
ghost use Rattle.command_line.specs.Given.{Text};
ghost use Rattle.command_line.specs.Range.{IsInRange};
ghost use Rattle.command_line.specs.Seen.{seen};
ghost use Rattle.panto_cli.specs.Books.{IsOpenFault};
ghost use Rattle.panto_cli.specs.Ends.{Ends};
ghost use Rattle.panto_cli.specs.Notes.{Noted, IsNote, file_of, entries_of};
ghost use Rattle.panto_cli.specs.Outcomes.{status_in, line_of, outcome_of};
ghost use Rattle.panto_cli.specs.Run.{Answered, Leaves, Completes, IsServed, IsRun};

use crate::book::open_book;
use crate::check::{check_book, outcome_without};
use crate::demo::run_demo;
use crate::host::Host;
use crate::notes::{Outcome, write_outcome};
use crate::status::{Status, status_of};
use crate::store::Store;
use command_line::{Form, read_words};
use command_set::{Environment, Program};
use pan_io::{Shelf, Sink, Source};
use session_server::{End, run_session};
use state_tree::Tree;
use std::alloc::Global;
use std::thread::Threads;
use worker_gate::Gate;

/// How a run ended whose session ended so.
pub fn outcome_of(end: End) -> Outcome
    ensures { result ≡ outcome_of end }
{
    match end {
        End::Full { entries } => Outcome::Full(entries),
        _ => Outcome::Plain(status_of(end)),
    }
}

/// Answers the requests of the input over a book.
fn serve_book<R: Threads + Sync, S: Source, K: Sink, G: Gate>(
    host: &Host<'_, R, G>,
    book: Environment<Store>,
    entries: u32,
    workers: u32,
    input: &mut S,
    output: &mut K,
) -> Outcome
    requires { (0 < workers) × (workers ≤ 64) }
    ensures answered { ((status_in result ≡ Status.Memory) × Keeps (K.taken output.old) (K.taken output.new))
        ⊎ Answered book entries (S.left input.old) (S.left input.new) (K.taken output.old) (K.taken output.new) (status_in result) }
    ensures note { (books : Option (List NamedBytes)) (file : Option Text) → IsNote books file entries (status_in result) (line_of result) }
    ensures read { status_in result ≡ Status.ReadFault → Rose (S.faults input.old) (S.faults input.new) }
    ensures write { status_in result ≡ Status.WriteFault → Rose (K.faults output.old) (K.faults output.new) }
    ensures tells_in { is_some (S.left input.new) ≡ is_some (S.left input.old) }
    ensures tells_out { is_some (K.taken output.new) ≡ is_some (K.taken output.old) }
    ensures later_in { S.faults input.old ≤ S.faults input.new }
    ensures later_out { K.faults output.old ≤ K.faults output.new }
{
    let Ok(mut tree) = Tree::open(host.alloc, book, entries) else {
        return Outcome::Plain(Status::Memory);
    };
    let end = run_session(
        host.rt,
        host.alloc,
        &Program::new(),
        &mut tree,
        workers,
        input,
        output,
        host.gate,
    );
    // The length tells that the entries are a legal history.
    let _length = tree.length();
    outcome_of(end)
}

/// Opens the book and answers the requests of the input.
fn serve_input<R: Threads + Sync, H: Shelf, S: Source, K: Sink, G: Gate>(
    host: &Host<'_, R, G>,
    shelf: &mut H,
    file: Option<&str>,
    entries: u32,
    workers: u32,
    input: &mut S,
    output: &mut K,
) -> Outcome
    requires { (0 < workers) × (workers ≤ 64) }
    ensures ends { Ends (H.books shelf.old) (Some (run (option_map (λ s. s.now) file.entry) entries workers))
        (S.left input.old) (S.left input.new) (K.taken output.old) (K.taken output.new)
        (record { before = H.faults shelf.old; after = H.faults shelf.new }) (record { before = S.faults input.old; after = S.faults input.new })
        (record { before = K.faults output.old; after = K.faults output.new }) result }
    ensures books { H.books shelf.new ≡ H.books shelf.old }
    ensures tells_in { is_some (S.left input.new) ≡ is_some (S.left input.old) }
    ensures tells_out { is_some (K.taken output.new) ≡ is_some (K.taken output.old) }
    ensures later_shelf { H.faults shelf.old ≤ H.faults shelf.new }
    ensures later_in { S.faults input.old ≤ S.faults input.new }
    ensures later_out { K.faults output.old ≤ K.faults output.new }
{
    match open_book(host.alloc, shelf, file) {
        Ok(book) => serve_book(host, book, entries, workers, input, output),
        Err(fault) => outcome_without(fault),
    }
}

/// What the words of a form ask for.
fn run_form<R: Threads + Sync, H: Shelf, S: Source, K: Sink, G: Gate>(
    host: &Host<'_, R, G>,
    form: Form,
    shelf: &mut H,
    input: &mut S,
    output: &mut K,
) -> Outcome
    requires { IsInRange (seen form) }
    ensures ends { Ends (H.books shelf.old) (Some (seen form.entry)) (S.left input.old) (S.left input.new) (K.taken output.old) (K.taken output.new)
        (record { before = H.faults shelf.old; after = H.faults shelf.new }) (record { before = S.faults input.old; after = S.faults input.new })
        (record { before = K.faults output.old; after = K.faults output.new }) result }
    ensures unread { ¬ IsRun (Some (seen form.entry)) → input.new ≡ input.old }
    ensures untouched { ¬ IsServed (Some (seen form.entry)) → (output.new ≡ output.old) × (shelf.new ≡ shelf.old) }
    ensures books { H.books shelf.new ≡ H.books shelf.old }
    ensures tells_in { is_some (S.left input.new) ≡ is_some (S.left input.old) }
    ensures tells_out { is_some (K.taken output.new) ≡ is_some (K.taken output.old) }
    ensures later_shelf { H.faults shelf.old ≤ H.faults shelf.new }
    ensures later_in { S.faults input.old ≤ S.faults input.new }
    ensures later_out { K.faults output.old ≤ K.faults output.new }
{
    match form {
        Form::Run {
            book,
            entries,
            workers,
        } => serve_input(host, shelf, book, entries, workers, input, output),
        Form::Check { file } => check_book(host.alloc, shelf, file, output),
        Form::Serve { .. } => Outcome::Plain(Status::Usage),
        Form::Demo { seed, count } => run_demo(host, seed, count, output),
    }
}

/// What the words ask for.
fn run_words<R: Threads + Sync, H: Shelf, S: Source, K: Sink, G: Gate>(
    host: &Host<'_, R, G>,
    words: &[String],
    shelf: &mut H,
    input: &mut S,
    output: &mut K,
) -> Outcome
    ensures ends { Ends (H.books shelf.old) (form_of (map string_bytes words.now)) (S.left input.old) (S.left input.new) (K.taken output.old) (K.taken output.new)
        (record { before = H.faults shelf.old; after = H.faults shelf.new }) (record { before = S.faults input.old; after = S.faults input.new })
        (record { before = K.faults output.old; after = K.faults output.new }) result }
    ensures unread { ¬ IsRun (form_of (map string_bytes words.now)) → input.new ≡ input.old }
    ensures untouched { ¬ IsServed (form_of (map string_bytes words.now)) → (output.new ≡ output.old) × (shelf.new ≡ shelf.old) }
    ensures books { H.books shelf.new ≡ H.books shelf.old }
    ensures tells_in { is_some (S.left input.new) ≡ is_some (S.left input.old) }
    ensures tells_out { is_some (K.taken output.new) ≡ is_some (K.taken output.old) }
    ensures later_shelf { H.faults shelf.old ≤ H.faults shelf.new }
    ensures later_in { S.faults input.old ≤ S.faults input.new }
    ensures later_out { K.faults output.old ≤ K.faults output.new }
{
    match read_words(host.alloc, words) {
        Ok(Some(form)) => run_form(host, form, shelf, input, output),
        Ok(None) => Outcome::Plain(Status::Usage),
        Err(_) => Outcome::Plain(Status::Memory),
    }
}

/// Runs panto on its words.
///
/// `run [--book FILE] [--entries N] [--workers N]` answers the requests of the input, one line each,
/// over the book that the shelf has under FILE, with the moves of a line of tries made by N workers, of
/// whose jobs the gate hears; `check FILE` prints how many items a book has;
/// `demo SEED COUNT` runs so many rounds of the session that the seed gives, and prints what they come to. Where the input and
/// the shelf tell their bytes, the output is, however they are cut into reads, what `specs/Run.antt`
/// says by the status: the replies of the one-thread server to the requests of the lines, in order.
/// Other words, those of `serve` too, are `Usage`. It always returns.
pub fn panto_run<R: Threads + Sync, H: Shelf, S: Source, K: Sink, N: Sink, G: Gate>(
    rt: &R,
    alloc: Global,
    words: &[String],
    shelf: &mut H,
    input: &mut S,
    output: &mut K,
    notes: &mut N,
    gate: &G,
) -> Status
    // What the words leave, by the status.
    ensures leaves { Leaves (H.books shelf.old) (form_of (map string_bytes words.now)) (S.left input.old) (S.left input.new) (K.taken output.old) (K.taken output.new) result }
    // `Usage` comes exactly where the words are of no form that is served, unless memory runs out.
    ensures usage { result ≡ Status.Usage → ¬ IsServed (form_of (map string_bytes words.now)) }
    ensures refused { ¬ IsServed (form_of (map string_bytes words.now)) → (result ≡ Status.Usage) ⊎ (result ≡ Status.Memory) }
    // Only a session reads the input, and nothing else is written, or a book opened, for words of no form that is served.
    ensures unread { ¬ IsRun (form_of (map string_bytes words.now)) → input.new ≡ input.old }
    ensures untouched { ¬ IsServed (form_of (map string_bytes words.now)) → (output.new ≡ output.old) × (shelf.new ≡ shelf.old) }
    // The causes of faults.
    ensures opened { result ≡ Status.OpenFault → IsOpenFault (H.books shelf.old) (file_of (form_of (map string_bytes words.now))) (H.faults shelf.old) (H.faults shelf.new) }
    ensures read { result ≡ Status.ReadFault → Rose (S.faults input.old) (S.faults input.new) }
    ensures write { result ≡ Status.WriteFault → Rose (K.faults output.old) (K.faults output.new) }
    // No call changes what is told, and no count falls.
    ensures books { H.books shelf.new ≡ H.books shelf.old }
    ensures tells_in { is_some (S.left input.new) ≡ is_some (S.left input.old) }
    ensures tells_out { is_some (K.taken output.new) ≡ is_some (K.taken output.old) }
    ensures tells_notes { is_some (N.taken notes.new) ≡ is_some (N.taken notes.old) }
    ensures later_shelf { H.faults shelf.old ≤ H.faults shelf.new }
    ensures later_in { S.faults input.old ≤ S.faults input.new }
    ensures later_out { K.faults output.old ≤ K.faults output.new }
    ensures later_notes { N.faults notes.old ≤ N.faults notes.new }
    // The note of the status.
    ensures noted { (line : List ℕ) × IsNote (H.books shelf.old) (file_of (form_of (map string_bytes words.now))) (entries_of (form_of (map string_bytes words.now))) result line
        × Noted (N.taken notes.old) (N.taken notes.new) (N.faults notes.old) (N.faults notes.new) line }
    // Where nothing fails, only want of memory keeps a run from its end.
    ensures complete { Completes (H.books shelf.old) (form_of (map string_bytes words.now)) (S.left input.old)
        (Rose (H.faults shelf.old) (H.faults shelf.new) ⊎ Rose (S.faults input.old) (S.faults input.new) ⊎ Rose (K.faults output.old) (K.faults output.new)) result }
{
    let host = Host { rt, alloc, gate };
    let outcome = run_words(&host, words, shelf, input, output);
    write_outcome(notes, &outcome);
    outcome.status()
}
