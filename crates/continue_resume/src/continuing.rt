ghost use Rattle.std.specs.Prelude.{◌≡◌, ◌↔◌, IfOk, IsTrue, Some, filter};
ghost use Rattle.conversion.specs.Globals.{IsDeclOf};
ghost use Rattle.goal_state.specs.State.{plain_decl, root_type};
ghost use Rattle.goal_state.specs.StoredState.{plain_state};
ghost use Rattle.continue_resume.specs.Continuing as spec;
ghost use Rattle.continue_resume.specs.Answers.{AnswersContinue};

use crate::equality::{same_entries, same_environments};
use crate::fault::ContinueFault;
use crate::states::with_goals;
use goal_state::GoalState;
use ld_terms::{Decl, List, Terms, same_across};
use std::alloc::{AllocError, Global};

/// Whether two states have the same theorem.
fn same_theorem<T: Terms + Drop>(target: &GoalState<T>, branch: &GoalState<T>) -> bool
    ensures { IsTrue result ↔ (root_type (plain_state T.means target.now) ≡ root_type (plain_state T.means branch.now)) }
{
    let left = target.terms();
    let right = branch.terms();
    match (target.metas().decl(0), branch.metas().decl(0)) {
        (Some(d), Some(c)) => same_across(left, d.ty, right, c.ty),
        // Each state declares metavariable 0.
        _ => unreachable!(),
    }
}

/// Whether two states have the same environment and the same theorem.
fn is_same_root<T: Terms + Drop>(target: &GoalState<T>, branch: &GoalState<T>) -> bool
    ensures { result ≡ spec.same_root (plain_state T.means target.now) (plain_state T.means branch.now) }
{
    let left = target.terms();
    let right = branch.terms();
    same_environments(left, target.env(), right, branch.env()) && same_theorem(target, branch)
}

/// Whether a metavariable has no value, and another one the same context, names and type.
fn is_open_as<T: Terms>(a: &T, d: &Decl<T::Handle>, b: &T, c: &Decl<T::Handle>) -> bool
    requires left { IsDeclOf (T.holds a.now) d.now }
    requires right { IsDeclOf (T.holds b.now) c.now }
    ensures { result ≡ spec.is_open_as (Some (plain_decl (T.means a.now) d.now)) (Some (plain_decl (T.means b.now) c.now)) }
{
    if d.value.is_some() {
        return false;
    }
    if !same_entries(a, d.ctx.as_slice(), b, c.ctx.as_slice()) {
        return false;
    }
    same_across(a, d.ty, b, c.ty)
}

/// Whether the target declares a metavariable as the branch does, and hasn't assigned it.
fn is_shared<T: Terms + Drop>(target: &GoalState<T>, branch: &GoalState<T>, m: u32) -> bool
    ensures { result ≡ spec.is_shared (plain_state T.means target.now).metas (plain_state T.means branch.now).metas m }
{
    let left = target.terms();
    let right = branch.terms();
    match (target.metas().decl(m), branch.metas().decl(m)) {
        (Some(d), Some(c)) => is_open_as(left, d, right, c),
        _ => false,
    }
}

/// The branch's active goals that the target shares, in the branch's order.
fn shared_goals<T: Terms + Drop>(
    alloc: Global,
    target: &GoalState<T>,
    branch: &GoalState<T>,
) -> Result<List<u32>, AllocError>
    ensures { IfOk result (λ ms. ms ≡ filter (spec.is_shared (plain_state T.means target.now).metas (plain_state T.means branch.now).metas) branch.now.goals) }
{
    let mut goals = Vec::new(alloc);
    for m in branch.goals() {
        if is_shared(target, branch, *m) {
            goals.push(*m)?;
        }
    }
    Ok(List::of(goals))
}

/// The target with those of the branch's active goals that it declares with the same context, names and type and hasn't assigned, in the
/// branch's order. The given states stay as they were. The new one is legal, which is a fact of the type [`GoalState`], and has the
/// target's environment and metavariables.
///
/// # Errors
///
/// `TargetHasGoals` exactly where the target has an active goal; else `RootDiffers` exactly where the environments have different items,
/// names of parameters included, or the types of metavariable 0 differ. Want of memory may come at any time.
pub fn continue_with<T: Terms + Drop>(
    alloc: Global,
    target: &GoalState<T>,
    branch: &GoalState<T>,
) -> Result<GoalState<T>, ContinueFault>
    ensures { AnswersContinue T.means (spec.continued (plain_state T.means target.now) (plain_state T.means branch.now)) result }
{
    let count = target.goals().len() as u64;
    if count > 0 {
        return Err(ContinueFault::TargetHasGoals { count });
    }
    if !is_same_root(target, branch) {
        return Err(ContinueFault::RootDiffers);
    }
    let goals = shared_goals(alloc, target, branch)?;
    // The stores tell that the states are legal.
    let _target = target.terms();
    let _branch = branch.terms();
    Ok(with_goals(alloc, target, goals)?)
}
