//! Why a text isn't elaborated.

ghost use Rattle.std.specs.Prelude.{◌≡◌};

use ld_terms::{Halt, Name};
use pattern_unify::UnifyFault;
use std::alloc::{AllocError, AllocFailed};

/// Why a text has no elaborated term. `at` is the place of a node's first token, counted in bytes from the text's start; `depth` is the length
/// of the context in which the shown terms stand.
#[derive(Debug, Drop)]
pub enum ElabFault<H> {
    /// A unification, a declaration or the kernel refuses. Never `UnifyFault::TooManyMetas`, `UnifyFault::Fuel` or `UnifyFault::Memory`.
    Unify(UnifyFault<H>),
    /// No variable and no item has the name.
    UnknownName {
        at: u64,
        name: Name,
    },
    /// A constant with another number of arguments than it has parameters.
    WrongCount {
        at: u64,
        name: Name,
        given: u32,
        wanted: u32,
    },
    /// A hole where no type is wanted.
    NoExpected {
        at: u64,
    },
    /// A term that is applied, with its type, whose weak head form is no product.
    NotFunction {
        depth: u32,
        term: H,
        found: H,
    },
    /// A term that was to be a type is none.
    NotType {
        depth: u32,
        term: H,
    },
    /// 65,536 metavariables are declared.
    TooManyMetas,
    /// A unit of work was wanted and none was left.
    Fuel,
    /// Want of memory.
    Memory,
}

impl<H> From<AllocError> for ElabFault<H> {
    ghost use Rattle.elaborate.specs.declared.fault.ElabFault.TheVariants.{Memory};

    ghost from_gives = { λ _ e. e ≡ Memory };

    fn from(_error: AllocError) -> ElabFault<H> {
        ElabFault::Memory
    }
}

impl<H, T: Drop> From<AllocFailed<T>> for ElabFault<H> {
    ghost use Rattle.elaborate.specs.declared.fault.ElabFault.TheVariants.{Memory};

    ghost from_gives = { λ _ e. e ≡ Memory };

    fn from(_error: AllocFailed<T>) -> ElabFault<H> {
        ElabFault::Memory
    }
}

impl<H> From<Halt> for ElabFault<H> {
    ghost use Rattle.elaborate.specs.Faults.{halt_fault};

    ghost from_gives = { λ h e. e ≡ halt_fault h };

    fn from(halt: Halt) -> ElabFault<H> {
        match halt {
            Halt::Fuel => ElabFault::Fuel,
            Halt::Memory => ElabFault::Memory,
        }
    }
}

impl<H> From<UnifyFault<H>> for ElabFault<H> {
    ghost use Rattle.elaborate.specs.Faults.{unify_fault};

    ghost from_gives = { λ f e. e ≡ unify_fault f };

    fn from(fault: UnifyFault<H>) -> ElabFault<H> {
        match fault {
            UnifyFault::TooManyMetas => ElabFault::TooManyMetas,
            UnifyFault::Fuel => ElabFault::Fuel,
            UnifyFault::Memory => ElabFault::Memory,
            _ => ElabFault::Unify(fault),
        }
    }
}
