ghost use Rattle.std.specs.Prelude.{◌≡◌, ◌+◌, ◌<◌, All, IfOk, IfSome, length};
ghost use Rattle.ld_terms.specs.Views.{Keeps};
ghost use Rattle.conversion.specs.Globals.{IsDeclOf};
ghost use Rattle.meta_context.specs.Declaring.{IsOpen};
ghost use Rattle.goal_state.specs.StoredState.{plain_state};

use crate::calls::{coupled, independent, need};
use crate::goals::{coupled_numbers, marked_numbers, reach_in_place, reached, stands_alone};
use goal_state::GoalState;
use ld_terms::{Fuel, Terms, TreeTerms, View};
use meta_context::{Env, MetaFault, Metas, declare};
use std::alloc::{AllocError, Global};
use std::test::Fail;

/// `*`.
fn star<T: Terms>(alloc: Global, terms: &mut T) -> Result<T::Handle, AllocError>
    ensures held { IfOk result (λ h. T.holds terms.new h) }
    ensures kept { Keeps (T.holds terms.old) (T.means terms.old) (T.holds terms.new) (T.means terms.new) }
{
    terms.make(alloc, View::Star)
}

/// The last entry.
fn last<T: Terms>(alloc: Global, terms: &mut T) -> Result<T::Handle, AllocError>
    ensures held { IfOk result (λ h. T.holds terms.new h) }
    ensures kept { Keeps (T.holds terms.old) (T.means terms.old) (T.holds terms.new) (T.means terms.new) }
{
    terms.make(alloc, View::Var(0))
}

/// A metavariable without arguments.
fn metavariable<T: Terms>(alloc: Global, terms: &mut T, m: u32) -> Result<T::Handle, AllocError>
    ensures held { IfOk result (λ h. T.holds terms.new h) }
    ensures kept { Keeps (T.holds terms.old) (T.means terms.old) (T.holds terms.new) (T.means terms.new) }
{
    let none = Vec::new(alloc);
    terms.make(alloc, View::Meta(m, &none))
}

/// A product.
fn product<T: Terms>(
    alloc: Global,
    terms: &mut T,
    a: T::Handle,
    b: T::Handle,
) -> Result<T::Handle, AllocError>
    requires left { T.holds terms.old a }
    requires right { T.holds terms.old b }
    ensures held { IfOk result (λ h. T.holds terms.new h) }
    ensures kept { Keeps (T.holds terms.old) (T.means terms.old) (T.holds terms.new) (T.means terms.new) }
{
    terms.make(alloc, View::Pi(a, b))
}

/// One metavariable more, over the empty context.
fn declare_closed<T: Terms>(
    alloc: Global,
    metas: &Metas<T::Handle>,
    terms: &T,
    ty: T::Handle,
) -> Result<Metas<T::Handle>, MetaFault>
    requires ty { T.holds terms.now ty }
    requires metas { All (IsDeclOf (T.holds terms.now)) metas.now }
    ensures held { IfOk result (λ ds. All (IsDeclOf (T.holds terms.now)) ds) }
    ensures counted { IfOk result (λ ds. length ds ≡ length metas.now + 1) }
{
    let closed = Vec::new(alloc);
    let (metas, _) = declare(alloc, metas, terms, &closed, ty)?;
    Ok(metas)
}

/// ?0 : `*`, ?1 and ?2 of the type `?0[] -> *`, and ?3 : `*`, of which none has a value.
fn four_goals<T: Terms>(alloc: Global, terms: &mut T) -> Result<Metas<T::Handle>, MetaFault>
    ensures held { IfOk result (λ ds. All (IsDeclOf (T.holds terms.new)) ds) }
    ensures counted { IfOk result (λ ds. length ds ≡ 4) }
{
    let sort = star(alloc, terms)?;
    let first = metavariable(alloc, terms, 0)?;
    let arrow = product(alloc, terms, first, sort)?;
    let sort = star(alloc, terms)?;
    let none = Metas::new();
    let one = declare_closed(alloc, &none, &*terms, sort)?;
    let two = declare_closed(alloc, &one, &*terms, arrow)?;
    let three = declare_closed(alloc, &two, &*terms, arrow)?;
    declare_closed(alloc, &three, &*terms, sort)
}

/// Whether a goal needs some goals, and is coupled with others, in memory and in place.
fn is_as<T: Terms>(
    alloc: Global,
    terms: &T,
    metas: &Metas<T::Handle>,
    g: u32,
    needs: &[u32],
    others: &[u32],
) -> Result<bool, AllocError>
    requires metas { All (IsDeclOf (T.holds terms.now)) metas.now }
    requires declared { g < length metas.now }
{
    let count = metas.next() as usize;
    let own = reached(alloc, terms, metas, g)?;
    let mut other = vec![in alloc; 7u8; count]?;
    let numbers = marked_numbers(alloc, metas, &own)?;
    let coupled = coupled_numbers(alloc, terms, metas, &own, &mut other, g)?;
    let mut again = vec![in alloc; 7u8; count]?;
    reach_in_place(terms, metas, &mut again, g);
    let alone = stands_alone(terms, metas, &again, &mut other, g);
    Ok(numbers.as_slice() == needs && coupled.as_slice() == others && alone == others.is_empty())
}

#[test]
fn goals_that_need_a_common_goal_are_coupled(rt: HostRuntime) -> Result<(), Fail> {
    let alloc = rt.alloc();
    let mut terms = TreeTerms::new(alloc)?;
    let metas = four_goals(alloc, &mut terms)?;
    assert!(rt; is_as(alloc, &terms, &metas, 0, &[0], &[1, 2])?);
    assert!(rt; is_as(alloc, &terms, &metas, 1, &[0, 1], &[0, 2])?);
    assert!(rt; is_as(alloc, &terms, &metas, 2, &[0, 2], &[0, 1])?);
    assert!(rt; is_as(alloc, &terms, &metas, 3, &[3], &[])?);
    Ok(())
}

/// The first active goal.
fn first_goal<T: Terms + Drop>(state: &GoalState<T>) -> Option<u32>
    ensures { IfSome result (λ g. IsOpen (plain_state T.means state.now).metas g) }
{
    let _terms = state.terms();
    let goals = state.goals();
    if goals.is_empty() {
        return None;
    }
    Some(goals[0])
}

/// The first state of `(A : *) -> A`.
fn start<T: Terms + Drop>(
    alloc: Global,
    terms: &mut T,
) -> Result<Option<GoalState<T>>, AllocError> {
    let sort = star(alloc, terms)?;
    let entry = last(alloc, terms)?;
    let ty = product(alloc, terms, sort, entry)?;
    Ok(start_with(alloc, terms, ty))
}

/// The first state of a type in the empty environment.
fn start_with<T: Terms + Drop>(alloc: Global, terms: &mut T, ty: T::Handle) -> Option<GoalState<T>>
    requires { T.holds terms.old ty }
{
    let mut fuel = Fuel::new(100);
    let env = Env::new();
    GoalState::start(alloc, terms, &env, &mut fuel, ty).ok()
}

#[test]
fn the_goal_of_a_first_state_stands_alone(rt: HostRuntime) -> Result<(), Fail> {
    let alloc = rt.alloc();
    let mut terms = TreeTerms::new(alloc)?;
    let state = start(alloc, &mut terms)?.ok_or("refused")?;
    let g = first_goal(&state).ok_or("no goal")?;
    assert!(rt; need(alloc, &state, g)?.as_slice() == [0].as_slice());
    assert!(rt; coupled(alloc, &state, g)?.as_slice().is_empty());
    assert_eq!(rt; state.metas().next(), 1);
    let mut scratch = [9u8, 9];
    assert!(rt; independent(&state, g, &mut scratch));
    Ok(())
}
