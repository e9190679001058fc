//! Each call in the plain store, on states that begin a proof.

ghost use Rattle.std.specs.Prelude.{IfOk};
ghost use Rattle.ld_terms.specs.Views.{Keeps};

use crate::continuing::continue_with;
use crate::fault::{ContinueFault, ResumeFault};
use crate::resuming::resume;
use crate::states::with_goals;
use goal_state::GoalState;
use ld_terms::{Fuel, List, Terms, TreeTerms, View};
use meta_context::Env;
use std::alloc::{AllocError, Global};
use std::test::Fail;

/// `*`.
fn star<T: Terms>(alloc: Global, terms: &mut T) -> Result<T::Handle, AllocError>
    ensures held { IfOk result (λ h. T.holds terms.new h) }
    ensures kept { Keeps (T.holds terms.old) (T.means terms.old) (T.holds terms.new) (T.means terms.new) }
{
    terms.make(alloc, View::Star)
}

/// The entry that is so many before the last one.
fn variable<T: Terms>(alloc: Global, terms: &mut T, i: u32) -> Result<T::Handle, AllocError>
    ensures held { IfOk result (λ h. T.holds terms.new h) }
    ensures kept { Keeps (T.holds terms.old) (T.means terms.old) (T.holds terms.new) (T.means terms.new) }
{
    terms.make(alloc, View::Var(i))
}

/// A product.
fn product<T: Terms>(
    alloc: Global,
    terms: &mut T,
    a: T::Handle,
    b: T::Handle,
) -> Result<T::Handle, AllocError>
    requires left { T.holds terms.old a }
    requires right { T.holds terms.old b }
    ensures { IfOk result (λ h. T.holds terms.new h) }
{
    terms.make(alloc, View::Pi(a, b))
}

/// `(A : *) -> A`.
fn for_all<T: Terms>(alloc: Global, terms: &mut T) -> Result<T::Handle, AllocError>
    ensures { IfOk result (λ h. T.holds terms.new h) }
{
    let sort = star(alloc, terms)?;
    let last = variable(alloc, terms, 0)?;
    product(alloc, terms, sort, last)
}

/// `* -> *`.
fn operator<T: Terms>(alloc: Global, terms: &mut T) -> Result<T::Handle, AllocError>
    ensures { IfOk result (λ h. T.holds terms.new h) }
{
    let sort = star(alloc, terms)?;
    product(alloc, terms, sort, sort)
}

/// The first state of a type in the empty environment.
fn start<T: Terms + Drop>(alloc: Global, terms: &mut T, ty: T::Handle) -> Option<GoalState<T>>
    requires { T.holds terms.old ty }
{
    let mut fuel = Fuel::new(100);
    let env = Env::new();
    GoalState::start(alloc, terms, &env, &mut fuel, ty).ok()
}

/// The first state of `(A : *) -> A`.
fn begun<T: Terms + Drop>(alloc: Global, terms: &mut T) -> Result<GoalState<T>, AllocError> {
    let ty = for_all(alloc, terms)?;
    start(alloc, terms, ty).ok_or(AllocError)
}

/// The first state of `* -> *`.
fn begun_otherwise<T: Terms + Drop>(
    alloc: Global,
    terms: &mut T,
) -> Result<GoalState<T>, AllocError> {
    let ty = operator(alloc, terms)?;
    start(alloc, terms, ty).ok_or(AllocError)
}

/// The same state with no active goal.
fn without_goals<T: Terms + Drop>(
    alloc: Global,
    state: &GoalState<T>,
) -> Result<GoalState<T>, AllocError> {
    with_goals(alloc, state, List::of(Vec::new(alloc)))
}

/// The active goals of a state that goes on with another one.
fn goals_with<T: Terms + Drop>(
    alloc: Global,
    target: &GoalState<T>,
    branch: &GoalState<T>,
) -> Result<List<u32>, ContinueFault> {
    let state = continue_with(alloc, target, branch)?;
    Ok(List::from_slice(alloc, state.goals())?)
}

/// The goals of a state without active ones that goes on with the state in which metavariable 0 is active.
fn goals_of_branch<T: Terms + Drop>(
    alloc: Global,
    terms: &mut T,
) -> Result<List<u32>, ContinueFault> {
    let branch = begun(alloc, terms)?;
    let target = without_goals(alloc, &branch)?;
    goals_with(alloc, &target, &branch)
}

/// The goals of a state without active ones that goes on with itself.
fn goals_of_none<T: Terms + Drop>(
    alloc: Global,
    terms: &mut T,
) -> Result<List<u32>, ContinueFault> {
    let state = begun(alloc, terms)?;
    let target = without_goals(alloc, &state)?;
    goals_with(alloc, &target, &target)
}

#[test]
fn a_state_goes_on_with_the_goals_of_another_one(rt: HostRuntime) -> Result<(), Fail> {
    let alloc = rt.alloc();
    let mut terms = TreeTerms::new(alloc)?;
    let taken = goals_of_branch(alloc, &mut terms)?;
    assert!(rt; taken.as_slice() == [0].as_slice());
    let none = goals_of_none(alloc, &mut terms)?;
    assert!(rt; none.as_slice().is_empty());
    Ok(())
}

/// A state that has an active goal, asked to go on with itself.
fn with_active_goal<T: Terms + Drop>(
    alloc: Global,
    terms: &mut T,
) -> Result<List<u32>, ContinueFault> {
    let target = begun(alloc, terms)?;
    goals_with(alloc, &target, &target)
}

/// A state without active goals, asked to go on with one that has another theorem.
fn with_another_root<T: Terms + Drop>(
    alloc: Global,
    terms: &mut T,
) -> Result<List<u32>, ContinueFault> {
    let branch = begun_otherwise(alloc, terms)?;
    let state = begun(alloc, terms)?;
    let target = without_goals(alloc, &state)?;
    goals_with(alloc, &target, &branch)
}

#[test]
fn a_target_with_goals_or_another_root_is_refused(rt: HostRuntime) -> Result<(), Fail> {
    let alloc = rt.alloc();
    let mut terms = TreeTerms::new(alloc)?;
    let first = with_active_goal(alloc, &mut terms).err();
    assert!(rt; first == Some(ContinueFault::TargetHasGoals { count: 1 }));
    let second = with_another_root(alloc, &mut terms).err();
    assert!(rt; second == Some(ContinueFault::RootDiffers));
    Ok(())
}

/// The active goals of a state in which the listed goals were made active.
fn goals_resumed<T: Terms + Drop>(
    alloc: Global,
    state: &GoalState<T>,
    goals: &[u64],
) -> Result<List<u32>, ResumeFault> {
    let resumed = resume(alloc, state, goals)?;
    Ok(List::from_slice(alloc, resumed.goals())?)
}

/// The active goals of a state without any in which the listed goals were made active.
fn dormant_resumed<T: Terms + Drop>(
    alloc: Global,
    terms: &mut T,
    goals: &[u64],
) -> Result<List<u32>, ResumeFault> {
    let begun = begun(alloc, terms)?;
    let state = without_goals(alloc, &begun)?;
    goals_resumed(alloc, &state, goals)
}

/// The active goals of a state whose one goal is active in which the listed goals were made active.
fn active_resumed<T: Terms + Drop>(
    alloc: Global,
    terms: &mut T,
    goals: &[u64],
) -> Result<List<u32>, ResumeFault> {
    let state = begun(alloc, terms)?;
    goals_resumed(alloc, &state, goals)
}

#[test]
fn dormant_goals_are_made_active(rt: HostRuntime) -> Result<(), Fail> {
    let alloc = rt.alloc();
    let mut terms = TreeTerms::new(alloc)?;
    let once = dormant_resumed(alloc, &mut terms, &[0, 0])?;
    assert!(rt; once.as_slice() == [0].as_slice());
    let again = active_resumed(alloc, &mut terms, &[0])?;
    assert!(rt; again.as_slice() == [0].as_slice());
    Ok(())
}

#[test]
fn a_number_that_is_not_declared_is_refused(rt: HostRuntime) -> Result<(), Fail> {
    let alloc = rt.alloc();
    let mut terms = TreeTerms::new(alloc)?;
    let unknown = dormant_resumed(alloc, &mut terms, &[0, 1, 4_294_967_296]).err();
    assert!(rt; unknown == Some(ResumeFault::GoalUndeclared { m: 1 }));
    let large = dormant_resumed(alloc, &mut terms, &[4_294_967_296]).err();
    assert!(rt; large == Some(ResumeFault::GoalUndeclared { m: 4_294_967_296 }));
    Ok(())
}
