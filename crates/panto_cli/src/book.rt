//! The book that the words name.

ghost use Rattle.std.specs.Prelude.{◌≡◌, ◌≤◌, length, Ok, Err, IfOk, IfErr, option_map};
ghost use Rattle.book_reader.specs.Answers.{ShowsBook};
ghost use Rattle.book_reader.specs.Book.{BookRefusal};
ghost use Rattle.reply_text.specs.Members.{object_text};
ghost use Rattle.command_set.specs.Books.{book_refusal};
ghost use Rattle.command_set.specs.Shown.{IsShownFault};
ghost use Rattle.panto_cli.specs.Books as spec;
ghost use Rattle.panto_cli.specs.Books.{Items, book_of, IsText, IsLongText, IsOpenFault, IsRefused, IsNoBook, Accepts};

use crate::store::Store;
use book_reader::BookFault;
use command_set::{Environment, book_members};
use ld_terms::Terms;
use meta_context::Env;
use pan_io::{Shelf, Unread};
use std::alloc::{AllocError, Global};

/// The most bytes of a book.
const MOST_BYTES: u64 = 4_194_304;

/// The units of fuel that each item of a book has.
const ITEM_UNITS: u64 = 10_000_000;

/// Why there is no book.
#[derive(Debug, Drop)]
pub enum NoBook {
    /// The shelf failed.
    Fault,
    /// The book is refused, with this JSON object.
    Refused(Vec<u8>),
    /// Memory was wanted.
    Memory,
}

impl From<AllocError> for NoBook {
    ghost use Rattle.panto_cli.specs.declared.book.NoBook.TheVariants.{Memory};

    ghost from_gives = { λ _ e. e ≡ Memory };

    fn from(_error: AllocError) -> NoBook {
        NoBook::Memory
    }
}

/// The text of the book: empty where the words name none.
fn text_of<H: Shelf>(alloc: Global, shelf: &mut H, file: Option<&str>) -> Result<Vec<u8>, Unread>
    ensures text { IfOk result (λ v. IsText (H.books shelf.old) (option_map (λ s. s.now) file.entry) v.items × (length v.items ≤ 4194304)) }
    ensures long { result ≡ Err Unread.TooLong → IsLongText (H.books shelf.old) (option_map (λ s. s.now) file.entry) }
    ensures books { H.books shelf.new ≡ H.books shelf.old }
    ensures later { H.faults shelf.old ≤ H.faults shelf.new }
    ensures cause { result ≡ Err Unread.Failed → IsOpenFault (H.books shelf.old) (option_map (λ s. s.now) file.entry) (H.faults shelf.old) (H.faults shelf.new) }
{
    match file {
        Some(file) => pan_io::read_book(alloc, shelf, file, MOST_BYTES),
        None => Ok(Vec::new(alloc)),
    }
}

/// The object that shows a refusal of a book.
fn refusal_object<T: Terms>(
    alloc: Global,
    terms: &T,
    fault: &BookFault<T::Handle>,
) -> Result<Vec<u8>, AllocError>
    requires shown { IsShownFault (T.holds terms.now) fault.now }
    ensures { (r : BookRefusal) → ShowsBook {A = Items} (T.holds terms.now) (T.means terms.now) (Err r) fault.now → IfOk result (λ v. v.items ≡ object_text (book_refusal r)) }
{
    book_members(alloc, terms, fault)?.to_object(alloc)
}

/// Why a book that was refused makes no environment.
fn refusal_of<T: Terms>(alloc: Global, terms: &T, fault: &BookFault<T::Handle>) -> NoBook
    requires shown { IsShownFault (T.holds terms.now) fault.now }
    ensures { (outcome : spec.Outcome) → ShowsBook (T.holds terms.now) (T.means terms.now) outcome fault.now → IsRefused outcome result }
{
    if let BookFault::Memory = fault {
        return NoBook::Memory;
    }
    match refusal_object(alloc, terms, fault) {
        Ok(object) => NoBook::Refused(object),
        Err(_) => NoBook::Memory,
    }
}

/// The environment that a text makes over a store, or why it makes none.
fn items_of<T: Terms + Drop>(
    alloc: Global,
    mut terms: T,
    text: &[u8],
) -> Result<Environment<T>, NoBook>
    ensures accepted { IfOk result (λ e. book_of text.now ≡ Ok e) }
    ensures refused { IfErr result (IsRefused (book_of text.now)) }
{
    let nothing = Env::new();
    match book_reader::read_book(alloc, &mut terms, &nothing, ITEM_UNITS, text) {
        Ok(items) => Ok(Environment::new(alloc, terms, items)?),
        Err(fault) => Err(refusal_of(alloc, &terms, &fault)),
    }
}

/// The environment that a text makes, or why it makes none.
fn environment_of(alloc: Global, text: &[u8]) -> Result<Environment<Store>, NoBook>
    ensures accepted { IfOk result (λ e. book_of text.now ≡ Ok e) }
    ensures refused { IfErr result (IsRefused (book_of text.now)) }
{
    let terms = Store::new(alloc)?;
    items_of(alloc, terms, text)
}

/// The refusal of a book that has too many bytes.
fn long_book(alloc: Global) -> NoBook
    ensures { spec.IsLongRefusal result }
{
    match Vec::from_slice(alloc, b"{\"error\":\"bookTooLong\"}") {
        Ok(object) => NoBook::Refused(object),
        Err(_) => NoBook::Memory,
    }
}

/// The environment of the book that the words name, or of none.
pub fn open_book<H: Shelf>(
    alloc: Global,
    shelf: &mut H,
    file: Option<&str>,
) -> Result<Environment<Store>, NoBook>
    ensures accepted { IfOk result (λ e. Accepts (H.books shelf.old) (option_map (λ s. s.now) file.entry) e) }
    ensures refused { IfErr result (IsNoBook (H.books shelf.old) (option_map (λ s. s.now) file.entry) (H.faults shelf.old) (H.faults shelf.new)) }
    ensures books { H.books shelf.new ≡ H.books shelf.old }
    ensures later { H.faults shelf.old ≤ H.faults shelf.new }
{
    match text_of(alloc, shelf, file) {
        Ok(text) => environment_of(alloc, &text),
        Err(Unread::Failed) => Err(NoBook::Fault),
        Err(Unread::TooLong) => Err(long_book(alloc)),
        Err(Unread::Memory) => Err(NoBook::Memory),
    }
}
