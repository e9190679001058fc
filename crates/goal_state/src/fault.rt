use kernel_check::KernelFault;
use std::alloc::{AllocError, AllocFailed};

/// Why a goal state isn't started.
#[derive(Clone, Copy, Debug, PartialEq, Eq)]
pub enum StartFault<H> {
    /// The type has no sort, or the fuel ran out. Never `KernelFault::Memory`.
    Kernel(KernelFault<H>),
    /// The type is deeper than 4,096. `m` is the number that the metavariable would have, 0.
    TooDeep { m: u32 },
    /// Want of memory.
    Memory,
}

impl<H> From<AllocError> for StartFault<H> {
    ghost use Rattle.std.specs.Prelude.{◌≡◌};
    ghost use Rattle.goal_state.specs.declared.fault.StartFault.TheVariants.{Memory};

    ghost from_gives = { λ _ e. e ≡ Memory };

    fn from(_error: AllocError) -> StartFault<H> {
        StartFault::Memory
    }
}

impl<H, T: Drop> From<AllocFailed<T>> for StartFault<H> {
    ghost use Rattle.std.specs.Prelude.{◌≡◌};
    ghost use Rattle.goal_state.specs.declared.fault.StartFault.TheVariants.{Memory};

    ghost from_gives = { λ _ e. e ≡ Memory };

    fn from(_error: AllocFailed<T>) -> StartFault<H> {
        StartFault::Memory
    }
}

impl<H: Copy> From<KernelFault<H>> for StartFault<H> {
    ghost use Rattle.std.specs.Prelude.{◌≡◌};
    ghost use Rattle.goal_state.specs.Answers.{start_fault};

    ghost from_gives = { λ f e. e ≡ start_fault f };

    fn from(fault: KernelFault<H>) -> StartFault<H> {
        match fault {
            KernelFault::Memory => StartFault::Memory,
            _ => StartFault::Kernel(fault),
        }
    }
}
