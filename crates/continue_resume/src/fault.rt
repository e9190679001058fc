use std::alloc::AllocError;
use thiserror::Error;

/// Why a state doesn't go on with another one.
#[derive(Clone, Copy, Debug, PartialEq, Eq, Error)]
pub enum ContinueFault {
    /// The target has `count` active goals.
    #[error("the target has {count} active goals")]
    TargetHasGoals { count: u64 },
    /// The two environments have different items, or the types of metavariable 0 differ.
    #[error("the states have different roots")]
    RootDiffers,
    /// Want of memory.
    #[error("out of memory")]
    Memory,
}

impl From<AllocError> for ContinueFault {
    ghost use Rattle.std.specs.Prelude.{◌≡◌};
    ghost use Rattle.continue_resume.specs.declared.fault.ContinueFault.TheVariants.{Memory};

    ghost from_gives = { λ _ e. e ≡ Memory };

    fn from(_error: AllocError) -> ContinueFault {
        ContinueFault::Memory
    }
}

/// Why goals aren't made active.
#[derive(Clone, Copy, Debug, PartialEq, Eq, Error)]
pub enum ResumeFault {
    /// Metavariable `m` isn't declared.
    #[error("goal {m} is not declared")]
    GoalUndeclared { m: u64 },
    /// Metavariable `m` has a value.
    #[error("goal {m} is assigned")]
    GoalAssigned { m: u64 },
    /// Want of memory.
    #[error("out of memory")]
    Memory,
}

impl From<AllocError> for ResumeFault {
    ghost use Rattle.std.specs.Prelude.{◌≡◌};
    ghost use Rattle.continue_resume.specs.declared.fault.ResumeFault.TheVariants.{Memory};

    ghost from_gives = { λ _ e. e ≡ Memory };

    fn from(_error: AllocError) -> ResumeFault {
        ResumeFault::Memory
    }
}
