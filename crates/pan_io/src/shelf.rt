//! Where books are read.

ghost use Rattle.std.specs.Prelude.{◌≡◌, ℕ, List, Option, ◌≤◌, ◌-◌, ◌^◌, OnOk, OnErr, IsErr, Bool, true, is_some};
ghost use Rattle.std.specs.Io.{ReadsAtMost};
ghost use Rattle.std.specs.Io.KnownBytes.{ReadConsumes};
ghost use Rattle.pan_io.specs.Faults.{HasCause};
ghost use Rattle.pan_io.specs.Books.{NamedBytes, IsMissing, RoseAtOpen, LeftAtStart};

use crate::source::Failed;

/// Books by name, of which one at a time is open. One count of faults serves both calls.
pub trait Shelf {
    /// The books, which no call changes, or `None` where the shelf does not tell them.
    ghost books: { Self → Option (List NamedBytes) };
    /// Whether a book is open.
    ghost is_open: { Self → Bool };
    /// The bytes that the open book has left, where the shelf tells its books.
    ghost left: { Self → Option (List ℕ) };
    /// The number of failed calls so far. It stays at 2^64 - 1 once it is there.
    ghost faults: { Self → ℕ };

    /// Makes the named book the open one, from its first byte. Where the books are told, a name
    /// that is not among them is answered `Failed`, and the count stays. After `Failed` nothing
    /// is said of which book is open.
    fn open(&mut self, name: &str) -> Result<(), Failed>
        ensures opened { OnOk result (is_open self.new ≡ true) }
        ensures left { OnOk result (LeftAtStart (books self.old) name.now (left self.new)) }
        ensures books { books self.new ≡ books self.old }
        ensures missing { IsMissing (books self.old) name.now → IsErr result }
        ensures same_count { IsMissing (books self.old) name.now → faults self.new ≡ faults self.old }
        ensures later { faults self.old ≤ faults self.new }
        ensures cause { OnErr result (RoseAtOpen (books self.old) name.now (faults self.old) (faults self.new)) };

    /// Moves a prefix of what the open book has left into the front of the buffer, and answers
    /// how many bytes. For a buffer that is not empty, 0 is the book's end. `Failed` moves none.
    fn take(&mut self, into: &mut [u8]) -> Result<usize, Failed>
        requires { is_open self.old ≡ true }
        ensures stays { is_open self.new ≡ true }
        ensures bound { ReadsAtMost result into.new }
        ensures bytes { ReadConsumes (left self.old) (left self.new) result into.new }
        ensures tells { is_some (left self.new) ≡ is_some (left self.old) }
        ensures books { books self.new ≡ books self.old }
        ensures cause { HasCause (faults self.old) (faults self.new) result };

    ghost most_faults: { (shelf : Self) → faults shelf ≤ 2 ^ 64 - 1 };
}
