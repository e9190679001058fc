ghost use Rattle.std.specs.Prelude.{◌≡◌, ◌<◌, ◌^◌, ◌∷◌, [], ◌++◌, All, IfOk, MatchOption, OnOk, if◌then◌else◌, slice_get};
ghost use Rattle.meta_laws.specs.Cut.{listed};
ghost use Rattle.goal_state.specs.StoredState.{plain_state};
ghost use Rattle.continue_resume.specs.Resuming as spec;
ghost use Rattle.continue_resume.specs.Resuming.{Resumed};
ghost use Rattle.continue_resume.specs.Answers.{AnswersResume, ShowsRefusal};

use crate::fault::ResumeFault;
use crate::states::with_goals;
use goal_state::GoalState;
use ld_terms::{List, Terms};
use meta_context::Metas;
use std::alloc::{AllocError, Global};

/// Why a number isn't an open goal, if it isn't one.
fn refusal<H: Copy>(metas: &Metas<H>, m: u64) -> Option<ResumeFault>
    ensures { (r : Resumed) → MatchOption result (spec.if_open (slice_get metas.now m) m r ≡ r) (ShowsRefusal (spec.if_open (slice_get metas.now m) m r)) }
{
    if m >= u64::from(metas.next()) {
        return Some(ResumeFault::GoalUndeclared { m });
    }
    match metas.decl(m as u32) {
        Some(decl) => {
            if decl.value.is_some() {
                return Some(ResumeFault::GoalAssigned { m });
            }
            None
        }
        None => Some(ResumeFault::GoalUndeclared { m }),
    }
}

/// Why the first listed number that isn't an open goal isn't one, if there is such a number.
fn first_refusal<H: Copy>(metas: &Metas<H>, goals: &[u64]) -> Option<ResumeFault>
    ensures { (r : Resumed) → MatchOption result (spec.if_all_open metas.now goals.now r ≡ r) (ShowsRefusal (spec.if_all_open metas.now goals.now r)) }
{
    for m in goals {
        if let Some(fault) = refusal(metas, *m) {
            return Some(fault);
        }
    }
    None
}

/// Whether a number stands in a list.
fn lists(goals: &[u32], m: u32) -> bool
    ensures { result ≡ listed m goals.now }
{
    for goal in goals {
        if *goal == m {
            return true;
        }
    }
    false
}

/// Adds a goal, unless it is there.
fn add(goals: &mut Vec<u32>, m: u32) -> Result<(), AllocError>
    ensures { OnOk result (goals.new.items ≡ (if listed m goals.old.items then goals.old.items else goals.old.items ++ m ∷ [])) }
{
    if lists(goals, m) {
        return Ok(());
    }
    goals.push(m)?;
    Ok(())
}

/// The active goals, and after them each listed one that isn't active, once.
fn with_listed(alloc: Global, active: &[u32], goals: &[u64]) -> Result<List<u32>, AllocError>
    requires { All (λ m. m < 2 ^ 32) goals.now }
    ensures { IfOk result (λ ms. ms ≡ spec.with_listed active.now goals.now) }
{
    let mut all = Vec::from_slice(alloc, active)?;
    for m in goals {
        add(&mut all, *m as u32)?;
    }
    Ok(List::of(all))
}

/// The state with the listed goals that aren't active made active, each once, in their order, after the active ones. The given state
/// stays as it was. The new one is legal, which is a fact of the type [`GoalState`], and has the same environment and metavariables.
///
/// # Errors
///
/// The first listed number that isn't declared or is assigned is refused, by `GoalUndeclared` or `GoalAssigned`. Want of memory may come
/// at any time.
pub fn resume<T: Terms + Drop>(
    alloc: Global,
    state: &GoalState<T>,
    goals: &[u64],
) -> Result<GoalState<T>, ResumeFault>
    ensures { AnswersResume T.means (spec.resumed (plain_state T.means state.now) goals.now) result }
{
    // The store tells that the state is legal.
    let _terms = state.terms();
    if let Some(fault) = first_refusal(state.metas(), goals) {
        return Err(fault);
    }
    let goals = with_listed(alloc, state.goals(), goals)?;
    Ok(with_goals(alloc, state, goals)?)
}
