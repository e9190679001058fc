//! `panto check`.

ghost use Rattle.std.specs.Prelude.{◌≡◌, ◌≤◌, ℕ, List, Option, Some, OnOk, OnErr, is_some};
ghost use Rattle.std.specs.Io.KnownBytes.{Appends};
ghost use Rattle.pan_io.specs.Faults.{HasCause};
ghost use Rattle.pan_io.specs.Put.{AppendsPrefix};
ghost use Rattle.command_line.specs.Form.{check};
ghost use Rattle.panto_cli.specs.Ends.{Counted, Ends};
ghost use Rattle.panto_cli.specs.Outcomes.{outcome_without};
ghost use Rattle.panto_cli.specs.Run.{checked_line};

use crate::book::{NoBook, open_book};
use crate::notes::Outcome;
use crate::pieces::put_line;
use crate::status::Status;
use itoa::Buffer;
use pan_io::{Failed, Shelf, Sink};
use std::alloc::Global;

/// Writes how many items were checked, and sends it off. It takes no memory.
fn put_checked<K: Sink>(output: &mut K, items: u64) -> Result<(), Failed>
    ensures ok { OnOk result (Appends (K.taken output.old) (K.taken output.new) (checked_line items)) }
    ensures failed { OnErr result (AppendsPrefix (K.taken output.old) (K.taken output.new) (checked_line items)) }
    ensures tells { is_some (K.taken output.new) ≡ is_some (K.taken output.old) }
    ensures cause { HasCause (K.faults output.old) (K.faults output.new) result }
{
    let mut buffer = Buffer::new();
    put_line(output, b"checked ", buffer.format(items).as_bytes(), b"\n")?;
    output.flush()
}

/// How a run ended that has no book.
pub fn outcome_without(fault: NoBook) -> Outcome
    ensures { result ≡ outcome_without fault }
{
    match fault {
        NoBook::Fault => Outcome::Plain(Status::OpenFault),
        NoBook::Refused(object) => Outcome::BookRefused(object),
        NoBook::Memory => Outcome::Plain(Status::Memory),
    }
}

/// Checks a book and prints how many items it has.
pub fn check_book<H: Shelf, K: Sink>(
    alloc: Global,
    shelf: &mut H,
    file: &str,
    output: &mut K,
) -> Outcome
    ensures ends { (input : Option (List ℕ)) (source : Counted) → Ends (H.books shelf.old) (Some (check file.now)) input input (K.taken output.old) (K.taken output.new)
        (record { before = H.faults shelf.old; after = H.faults shelf.new }) source (record { before = K.faults output.old; after = K.faults output.new }) result }
    ensures books { H.books shelf.new ≡ H.books shelf.old }
    ensures tells { is_some (K.taken output.new) ≡ is_some (K.taken output.old) }
    ensures later_shelf { H.faults shelf.old ≤ H.faults shelf.new }
    ensures later_out { K.faults output.old ≤ K.faults output.new }
{
    let book = match open_book(alloc, shelf, Some(file)) {
        Ok(book) => book,
        Err(fault) => return outcome_without(fault),
    };
    match put_checked(output, book.len()) {
        Ok(()) => Outcome::Plain(Status::Done),
        Err(_) => Outcome::Plain(Status::WriteFault),
    }
}
