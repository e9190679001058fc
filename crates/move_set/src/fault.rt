//! Why a move makes no new state.

ghost use Rattle.std.specs.Prelude.{◌≡◌};

use elaborate::ElabFault;
use ld_terms::{Halt, Name, Terms};
use pattern_unify::UnifyFault;
use std::alloc::{AllocError, AllocFailed};
use term_text::ReadFault;

/// Why a move makes no new state. Places are counted in bytes from the start of the move's text.
#[derive(Debug, Drop)]
pub enum MoveFault<H> {
    /// The text isn't one move. `at` is the place of the first token or bad byte with which no move continues, or the text's length where
    /// it ends too early.
    Syntax { at: u64 },
    /// The index isn't below the number of active goals, which is `count`.
    NoGoal { index: u64, count: u64 },
    /// An entry of the goal's context has the name.
    NameTaken { name: Name },
    /// The goal's type at weak head form is no product.
    NotProduct,
    /// No entry of the goal's context has a type that unifies with the goal's.
    NoAssumption,
    /// No definition of the environment has the name. A constant without a body is none.
    NotDefined { name: Name },
    /// The definition doesn't stand in the goal's type, with assigned metavariables unfolded.
    NoOccurrence { name: Name },
    /// A `?` where none may stand, or a `_` that is still open at the end of the move.
    Unsolved { at: u64 },
    /// The elaboration of the move's term is refused, or a unification, a declaration or the kernel. Never `ElabFault::TooManyMetas`,
    /// `ElabFault::Fuel` or `ElabFault::Memory`.
    Elab(ElabFault<H>),
    /// 65,536 metavariables are declared.
    TooManyMetas,
    /// A unit of work was wanted and none was left.
    Fuel,
    /// Want of memory.
    Memory,
}

/// A refusal of a move, with the store in which the terms that it shows stand, and `None` where it shows none.
#[derive(Drop)]
pub struct Refused<T: Terms> {
    pub terms: Option<T>,
    pub fault: MoveFault<T::Handle>,
}

impl<H> From<AllocError> for MoveFault<H> {
    ghost use Rattle.move_set.specs.declared.fault.MoveFault.TheVariants.{Memory};

    ghost from_gives = { λ _ e. e ≡ Memory };

    fn from(_error: AllocError) -> MoveFault<H> {
        MoveFault::Memory
    }
}

impl<H, T: Drop> From<AllocFailed<T>> for MoveFault<H> {
    ghost use Rattle.move_set.specs.declared.fault.MoveFault.TheVariants.{Memory};

    ghost from_gives = { λ _ e. e ≡ Memory };

    fn from(_error: AllocFailed<T>) -> MoveFault<H> {
        MoveFault::Memory
    }
}

impl<H> From<ReadFault> for MoveFault<H> {
    ghost use Rattle.move_set.specs.Faults.{read_fault};

    ghost from_gives = { λ f e. e ≡ read_fault f };

    fn from(fault: ReadFault) -> MoveFault<H> {
        match fault {
            ReadFault::Syntax { at } => MoveFault::Syntax { at },
            ReadFault::Memory => MoveFault::Memory,
        }
    }
}

impl<H> From<ElabFault<H>> for MoveFault<H> {
    ghost use Rattle.move_set.specs.Faults.{elab_fault};

    ghost from_gives = { λ f e. e ≡ elab_fault f };

    fn from(fault: ElabFault<H>) -> MoveFault<H> {
        match fault {
            ElabFault::TooManyMetas => MoveFault::TooManyMetas,
            ElabFault::Fuel => MoveFault::Fuel,
            ElabFault::Memory => MoveFault::Memory,
            _ => MoveFault::Elab(fault),
        }
    }
}

impl<H> From<UnifyFault<H>> for MoveFault<H> {
    ghost use Rattle.move_set.specs.Faults.{unify_fault};

    ghost from_gives = { λ f e. e ≡ unify_fault f };

    fn from(fault: UnifyFault<H>) -> MoveFault<H> {
        MoveFault::from(ElabFault::from(fault))
    }
}

impl<H> From<Halt> for MoveFault<H> {
    ghost use Rattle.move_set.specs.Faults.{halt_fault};

    ghost from_gives = { λ h e. e ≡ halt_fault h };

    fn from(halt: Halt) -> MoveFault<H> {
        match halt {
            Halt::Fuel => MoveFault::Fuel,
            Halt::Memory => MoveFault::Memory,
        }
    }
}
