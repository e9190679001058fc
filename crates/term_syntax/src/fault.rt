//! Why a text could not be read.

ghost use Rattle.std.specs.Prelude.{◌≡◌};
ghost use Rattle.term_syntax.specs.declared.fault.ReadFault.TheVariants.{Memory};

use std::alloc::{AllocError, AllocFailed};

/// Why a text gave no tree.
#[derive(Debug, Drop)]
pub enum ReadFault {
    /// The text isn't in the grammar. `at` is the place, counted in bytes from the text's start, of the first token, or of the bad
    /// byte, with which no text of the grammar continues; the text's length where it ends too early; the first byte of a term that
    /// stands inside 512 other terms.
    Syntax { at: u64 },
    /// There was no memory for the tree.
    Memory,
}

impl From<AllocError> for ReadFault {
    ghost from_gives = { λ _ e. e ≡ Memory };

    fn from(_e: AllocError) -> ReadFault {
        ReadFault::Memory
    }
}

impl<T: Drop> From<AllocFailed<T>> for ReadFault {
    ghost from_gives = { λ _ e. e ≡ Memory };

    fn from(_e: AllocFailed<T>) -> ReadFault {
        ReadFault::Memory
    }
}
