//! A shelf in memory.

ghost use Rattle.std.specs.Prelude.{ℕ, Some, None, drop, ◌≡◌, ◌≤◌, ◌-◌, ◌+◌, ◌^◌, ◌<◌, length, IfSome, IfNone, is_some};
ghost use Rattle.pan_io.specs.Books.{book_named, bytes_at};

use crate::fault_count::FaultCount;
use crate::memory_source::give;
use crate::shelf::Shelf;
use crate::source::Failed;
use std::marker::Model;

/// A book: its name and its bytes.
#[derive(Drop)]
pub struct Book {
    name: String,
    bytes: Vec<u8>,
}

impl Model for Book {
    ghost use Rattle.std.specs.String.{string_bytes};
    ghost use Rattle.pan_io.specs.Books.{NamedBytes};

    ghost Value = { NamedBytes };

    ghost view = { λ book. record { name = string_bytes book.name; bytes = book.bytes.items } };
}

impl Book {
    ghost use Rattle.std.specs.String.{string_bytes};

    /// A book of these bytes, under that name.
    pub fn new(name: String, bytes: Vec<u8>) -> Book
        ensures name { result.name ≡ string_bytes name }
        ensures bytes { result.bytes ≡ bytes.items }
    {
        Book { name, bytes }
    }
}

/// A shelf that tells its books, and fails where it is asked to.
#[derive(Drop)]
pub struct MemoryShelf {
    books: Vec<Book>,
    place: Option<usize>,
    at: usize,
    failing: Vec<usize>,
    calls: usize,
    faults: FaultCount,
}

impl MemoryShelf {
    /// No book is open. Of several books with one name the first one counts. The calls that fail,
    /// of `open` and `take` together, are numbered from 0.
    pub fn new(books: Vec<Book>, failing: Vec<usize>) -> MemoryShelf
        ensures books { result.books ≡ books }
        ensures failing { result.failing ≡ failing }
        ensures calls { result.calls ≡ 0 }
        ensures faults { result.faults.count ≡ 0 }
    {
        MemoryShelf {
            books,
            place: None,
            at: 0,
            failing,
            calls: 0,
            faults: FaultCount::new(),
        }
    }
}

impl Shelf for MemoryShelf {
    ghost books = { λ shelf. Some shelf.books.items };

    ghost is_open = { λ shelf. is_some shelf.place };

    ghost left = { λ shelf. Some (drop shelf.at (bytes_at shelf.place shelf.books.items)) };

    ghost faults = { λ shelf. shelf.faults.count };

    ghost most_faults = { λ shelf. shelf.faults.within };

    fn open(&mut self, name: &str) -> Result<(), Failed> {
        let call = self.calls;
        self.calls = self.calls.saturating_add(1);
        let Some(place) = place_of(&self.books, name) else {
            return Err(Failed);
        };
        if self.failing.contains(&call) {
            return Err(self.faults.add());
        }
        self.place = Some(place);
        self.at = 0;
        Ok(())
    }

    fn take(&mut self, into: &mut [u8]) -> Result<usize, Failed> {
        let call = self.calls;
        self.calls = self.calls.saturating_add(1);
        if self.failing.contains(&call) {
            return Err(self.faults.add());
        }
        let count = give(rest_of(&self.books, self.place, self.at), into, usize::MAX);
        self.at += count;
        Ok(count)
    }
}

/// The place of the first book with this name.
fn place_of(books: &[Book], name: &str) -> Option<usize>
    ensures found { IfSome result (λ place. Some (bytes_at (Some place) books.now) ≡ book_named name.now books.now) }
    ensures none { IfNone result (book_named name.now books.now ≡ None) }
{
    let mut place = 0;
    'books: while place < books.len() {
        let book = &books[place];
        if book.name.as_str() == name {
            return Some(place);
        }
        place += 1;
    }
    None
}

/// What an open book has left.
fn rest_of(books: &[Book], place: Option<usize>, at: usize) -> &[u8]
    ensures rest { result.now ≡ drop at (bytes_at place books.now) }
    ensures fits { at + length result.now < 2 ^ 64 }
{
    let Some(place) = place else {
        return &[];
    };
    if place >= books.len() {
        return &[];
    }
    let book = &books[place];
    if at > book.bytes.len() {
        return &[];
    }
    &book.bytes[at..]
}
