ghost use Rattle.std.specs.Prelude.{◌≡◌};

use std::alloc::{AllocError, AllocFailed};

/// Why a metavariable isn't declared or assigned.
#[derive(Clone, Copy, Debug, PartialEq, Eq)]
pub enum MetaFault {
    /// 65,536 metavariables are declared.
    TooManyMetas,
    /// A type or the value of metavariable `m` is deeper than 4,096. Where it isn't declared yet, `m` is the number it would have.
    TooDeep { m: u32 },
    /// Want of memory.
    Memory,
}

impl From<AllocError> for MetaFault {
    ghost use Rattle.meta_context.specs.declared.fault.MetaFault.TheVariants.{Memory};

    ghost from_gives = { λ _ e. e ≡ Memory };

    fn from(_error: AllocError) -> MetaFault {
        MetaFault::Memory
    }
}

impl<T: Drop> From<AllocFailed<T>> for MetaFault {
    ghost use Rattle.meta_context.specs.declared.fault.MetaFault.TheVariants.{Memory};

    ghost from_gives = { λ _ e. e ≡ Memory };

    fn from(_error: AllocFailed<T>) -> MetaFault {
        MetaFault::Memory
    }
}
