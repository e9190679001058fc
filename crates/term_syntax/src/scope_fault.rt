ghost use Rattle.std.specs.Prelude.{◌≡◌};
ghost use Rattle.term_syntax.specs.declared.scope_fault.ScopeFault.TheVariants.{Memory};

use ld_terms::Name;
use std::alloc::{AllocError, AllocFailed};

/// Why the names of a surface tree could not be resolved. `at` is the place of the offending node.
#[derive(Debug, Drop)]
pub enum ScopeFault {
    /// No variable or constant has this name.
    UnknownName {
        at: u64,
        name: Name,
    },
    /// The constant has another number of parameters than it is given arguments.
    WrongCount {
        at: u64,
        name: Name,
        given: u32,
        wanted: u32,
    },
    /// A hole, `_` or `?`.
    Unsolved {
        at: u64,
    },
    /// Memory ran out.
    Memory,
}

impl From<AllocError> for ScopeFault {
    ghost from_gives = { λ _ e. e ≡ Memory };

    fn from(_e: AllocError) -> ScopeFault {
        ScopeFault::Memory
    }
}

impl<T: Drop> From<AllocFailed<T>> for ScopeFault {
    ghost from_gives = { λ _ e. e ≡ Memory };

    fn from(_e: AllocFailed<T>) -> ScopeFault {
        ScopeFault::Memory
    }
}
