//! Why two terms aren't unified.

ghost use Rattle.std.specs.Prelude.{◌≡◌};

use kernel_check::KernelFault;
use ld_terms::Halt;
use meta_context::MetaFault;
use std::alloc::{AllocError, AllocFailed};

/// Why a unification, or the settling of a metavariable, is refused. `depth` is the length of the context in which the shown terms stand.
#[derive(Debug, Drop)]
pub enum UnifyFault<H> {
    /// A type or a sort isn't found. Never `KernelFault::Fuel` or `KernelFault::Memory`.
    Kernel(KernelFault<H>),
    /// Two weak head forms with other heads, or other numbers of arguments.
    Mismatch { depth: u32, found: H, wanted: H },
    /// The unassigned metavariable `m` stands at the head of one side, and neither side is a pattern.
    NotPattern { m: u32 },
    /// A variable of this level, counted from the first entry of the context, stands in the term by which `m` would be solved, and isn't
    /// among `m`'s arguments.
    Scope { m: u32, level: u32 },
    /// The value of `m` would depend on `m` itself, or `m` has got one meanwhile.
    Cycle { m: u32 },
    /// The type of metavariable `m`, that of an entry of its context, or its value is deeper than 4,096.
    TooDeep { m: u32 },
    /// 65,536 metavariables are declared.
    TooManyMetas,
    /// A unit of work was wanted and none was left.
    Fuel,
    /// Want of memory.
    Memory,
}

impl<H> From<AllocError> for UnifyFault<H> {
    ghost use Rattle.pattern_unify.specs.declared.fault.UnifyFault.TheVariants.{Memory};

    ghost from_gives = { λ _ e. e ≡ Memory };

    fn from(_error: AllocError) -> UnifyFault<H> {
        UnifyFault::Memory
    }
}

impl<H, T: Drop> From<AllocFailed<T>> for UnifyFault<H> {
    ghost use Rattle.pattern_unify.specs.declared.fault.UnifyFault.TheVariants.{Memory};

    ghost from_gives = { λ _ e. e ≡ Memory };

    fn from(_error: AllocFailed<T>) -> UnifyFault<H> {
        UnifyFault::Memory
    }
}

impl<H: Copy> From<KernelFault<H>> for UnifyFault<H> {
    ghost use Rattle.pattern_unify.specs.Faults.{kernel_fault};

    ghost from_gives = { λ f e. e ≡ kernel_fault f };

    fn from(fault: KernelFault<H>) -> UnifyFault<H> {
        match fault {
            KernelFault::Fuel => UnifyFault::Fuel,
            KernelFault::Memory => UnifyFault::Memory,
            _ => UnifyFault::Kernel(fault),
        }
    }
}

impl<H> From<Halt> for UnifyFault<H> {
    ghost use Rattle.pattern_unify.specs.Faults.{halt_fault};

    ghost from_gives = { λ h e. e ≡ halt_fault h };

    fn from(halt: Halt) -> UnifyFault<H> {
        match halt {
            Halt::Fuel => UnifyFault::Fuel,
            Halt::Memory => UnifyFault::Memory,
        }
    }
}

impl<H> From<MetaFault> for UnifyFault<H> {
    ghost use Rattle.pattern_unify.specs.Faults.{meta_fault};

    ghost from_gives = { λ f e. e ≡ meta_fault f };

    fn from(fault: MetaFault) -> UnifyFault<H> {
        match fault {
            MetaFault::TooManyMetas => UnifyFault::TooManyMetas,
            MetaFault::TooDeep { m } => UnifyFault::TooDeep { m },
            MetaFault::Memory => UnifyFault::Memory,
        }
    }
}
