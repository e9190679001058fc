use kernel_check::KernelFault;
use ld_terms::Name;
use std::alloc::{AllocError, AllocFailed};
use term_text::ScopeFault;

/// Why a book isn't accepted. Items count from 0 in the book's text.
#[derive(Debug, Drop)]
pub enum BookFault<H> {
    /// The text isn't in the grammar. `at` is the place, counted in bytes from the text's start, of the first token or bad byte with
    /// which no book continues, or the text's length where it ends too early.
    Syntax { at: u64 },
    /// The item's name is that of an item before it.
    NameTaken { item: u64, name: Name },
    /// A name of the item can't be resolved, or it has a hole. Never `ScopeFault::Memory`.
    Scope { item: u64, fault: ScopeFault },
    /// A type of the item has no sort, its body has no type, or not the stated one; or the item's fuel ran out. Never
    /// `KernelFault::Memory`.
    Kernel { item: u64, fault: KernelFault<H> },
    /// Want of memory.
    Memory,
}

impl<H> From<AllocError> for BookFault<H> {
    ghost use Rattle.std.specs.Prelude.{◌≡◌};
    ghost use Rattle.book_reader.specs.declared.fault.BookFault.TheVariants.{Memory};

    ghost from_gives = { λ _ e. e ≡ Memory };

    fn from(_error: AllocError) -> BookFault<H> {
        BookFault::Memory
    }
}

impl<H, T: Drop> From<AllocFailed<T>> for BookFault<H> {
    ghost use Rattle.std.specs.Prelude.{◌≡◌};
    ghost use Rattle.book_reader.specs.declared.fault.BookFault.TheVariants.{Memory};

    ghost from_gives = { λ _ e. e ≡ Memory };

    fn from(_error: AllocFailed<T>) -> BookFault<H> {
        BookFault::Memory
    }
}
