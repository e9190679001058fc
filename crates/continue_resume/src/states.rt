//! A state with other active goals.

ghost use Rattle.std.specs.Prelude.{◌≡◌, All, IfOk};
ghost use Rattle.meta_context.specs.Declaring.{IsOpen};
ghost use Rattle.goal_state.specs.State.{AreDistinct};
ghost use Rattle.goal_state.specs.StoredState.{plain_state};
ghost use Rattle.continue_resume.specs.Continuing as spec;

use goal_state::GoalState;
use ld_terms::{List, Terms};
use std::alloc::{AllocError, Global};

/// The state with other active goals, over a fork of its store. Fails for want of memory alone.
pub(crate) fn with_goals<T: Terms + Drop>(
    alloc: Global,
    state: &GoalState<T>,
    goals: List<u32>,
) -> Result<GoalState<T>, AllocError>
    requires active { All (IsOpen (plain_state T.means state.now).metas) goals }
    requires once { AreDistinct goals }
    ensures { IfOk result (λ s. plain_state T.means s ≡ spec.with_goals (plain_state T.means state.now) goals) }
{
    let terms = state.terms().fork(alloc)?;
    let metas = state.metas().fork(alloc)?;
    state.next_state(alloc, terms, metas, goals)
}
