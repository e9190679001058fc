//! `have`, `assumption`, `change` and `unfold` over trees: each once, their refusals, and units spent to the last.

ghost use Rattle.std.specs.Prelude.{IfOk};
ghost use Rattle.ld_terms.specs.Views.{Keeps};

use super::{Answer, IDENTITY_TYPE, after_moves, answer_to, has_goals, is_proof, on_goal};
use crate::fault::MoveFault;
use crate::replacing::open;
use ld_terms::{Fuel, Name, Terms, TreeTerms, View};
use std::alloc::{AllocError, Global};
use std::test::Fail;

/// The moves of the identity's proof up to the goal `A`, which is metavariable 2.
const WITH_X: &[&[u8]] = &[b"intro A", b"intro x"];

/// Whether a goal is cut in two, first the type and then the goal behind an entry of it. It takes a unit for the text, three for sorts and
/// ten for the type of the value in the settling.
fn cuts<T: Terms + Drop>(alloc: Global, terms: T) -> bool {
    let state = after_moves(alloc, terms, IDENTITY_TYPE, WITH_X);
    let cut = on_goal(alloc, &state, 0, b"have y : A", 14, true);
    let second = on_goal(alloc, &cut, 1, b"exact y", 100_000, true);
    has_goals(&cut, &[3, 4], 5)
        && has_goals(&second, &[3], 5)
        && answer_to(alloc, &state, 0, b"have y : A", 13) == Answer::Fuel
}

#[test]
fn a_goal_is_cut_in_two(rt: HostRuntime) -> Result<(), Fail> {
    let alloc = rt.alloc();
    assert!(rt; cuts(alloc, TreeTerms::new(alloc)?));
    let moves: &[&[u8]] = &[
        b"intro A",
        b"intro x",
        b"have y : A",
        b"exact x",
        b"exact y",
    ];
    let text = b"fun (A : *) => fun (x : A) => (fun (y : A) => y) x";
    assert!(rt; is_proof(alloc, TreeTerms::new(alloc)?, IDENTITY_TYPE, moves, text)?);
    Ok(())
}

#[test]
fn the_last_entry_that_fits_is_assumed(rt: HostRuntime) -> Result<(), Fail> {
    let alloc = rt.alloc();
    let theorem = b"(A : *) -> A -> A -> A";
    let moves: &[&[u8]] = &[b"intro A", b"intro x", b"intro y", b"assumption"];
    let text = b"fun (A : *) => fun (x : A) => fun (y : A) => y";
    assert!(rt; is_proof(alloc, TreeTerms::new(alloc)?, theorem, moves, text)?);
    Ok(())
}

#[test]
fn a_goal_is_stated_anew(rt: HostRuntime) -> Result<(), Fail> {
    let alloc = rt.alloc();
    let change: &[u8] = b"change (fun (B : *) => B) A";
    let moves: &[&[u8]] = &[b"intro A", b"intro x", change, b"assumption"];
    let text = b"fun (A : *) => fun (x : A) => x";
    assert!(rt; is_proof(alloc, TreeTerms::new(alloc)?, IDENTITY_TYPE, moves, text)?);
    Ok(())
}

/// Whether names and holes are looked at before anything is spent, and what doesn't fit is refused.
fn refuses<T: Terms + Drop>(alloc: Global, terms: T) -> bool {
    let state = &after_moves(alloc, terms, IDENTITY_TYPE, WITH_X);
    answer_to(alloc, state, 0, b"have A : ?", 0) == Answer::NameTaken
        && answer_to(alloc, state, 0, b"have y : ?", 0) == Answer::Unsolved(9)
        && answer_to(alloc, state, 0, b"change ?", 0) == Answer::Unsolved(7)
        && answer_to(alloc, state, 0, b"unfold A", 0) == Answer::NotDefined
        && answer_to(alloc, state, 0, b"assumption", 0) == Answer::Fuel
        && answer_to(alloc, state, 0, b"change A -> A", 100_000) == Answer::Mismatch(2)
        && has_goals(state, &[2], 3)
}

#[test]
fn what_does_not_fit_is_refused(rt: HostRuntime) -> Result<(), Fail> {
    let alloc = rt.alloc();
    assert!(rt; refuses(alloc, TreeTerms::new(alloc)?));
    let first = after_moves(alloc, TreeTerms::new(alloc)?, IDENTITY_TYPE, &[]);
    assert!(rt; answer_to(alloc, &first, 0, b"assumption", 0) == Answer::NoAssumption);
    Ok(())
}

/// `*`.
fn star<T: Terms>(alloc: Global, terms: &mut T) -> Result<T::Handle, AllocError>
    ensures held { IfOk result (T.holds terms.new) }
    ensures kept { Keeps (T.holds terms.old) (T.means terms.old) (T.holds terms.new) (T.means terms.new) }
{
    terms.make(alloc, View::Star)
}

/// The product of a domain and a codomain.
fn product<T: Terms>(
    alloc: Global,
    terms: &mut T,
    domain: T::Handle,
    codomain: T::Handle,
) -> Result<T::Handle, AllocError>
    requires domain { T.holds terms.old domain }
    requires codomain { T.holds terms.old codomain }
    ensures held { IfOk result (T.holds terms.new) }
    ensures kept { Keeps (T.holds terms.old) (T.means terms.old) (T.holds terms.new) (T.means terms.new) }
{
    terms.make(alloc, View::Pi(domain, codomain))
}

/// `x -> *`, where x is the only parameter.
fn body<T: Terms>(alloc: Global, terms: &mut T) -> Result<T::Handle, AllocError>
    ensures held { IfOk result (T.holds terms.new) }
    ensures kept { Keeps (T.holds terms.old) (T.means terms.old) (T.holds terms.new) (T.means terms.new) }
{
    let x = terms.make(alloc, View::Var(0))?;
    let codomain = star(alloc, terms)?;
    product(alloc, terms, x, codomain)
}

/// `(* -> *) -> *`.
fn wanted<T: Terms>(alloc: Global, terms: &mut T) -> Result<T::Handle, AllocError>
    ensures held { IfOk result (T.holds terms.new) }
    ensures kept { Keeps (T.holds terms.old) (T.means terms.old) (T.holds terms.new) (T.means terms.new) }
{
    let star = star(alloc, terms)?;
    let arrow = product(alloc, terms, star, star)?;
    product(alloc, terms, arrow, star)
}

/// A constant with one argument.
fn constant<T: Terms>(
    alloc: Global,
    terms: &mut T,
    name: &Name,
    argument: T::Handle,
) -> Result<T::Handle, AllocError>
    requires { T.holds terms.old argument }
    ensures held { IfOk result (T.holds terms.new) }
    ensures kept { Keeps (T.holds terms.old) (T.means terms.old) (T.holds terms.new) (T.means terms.new) }
{
    let mut args = Vec::new(alloc);
    args.push(argument)?;
    terms.make(alloc, View::Const(name, &args))
}

/// `k(k(*))`.
fn twice<T: Terms>(alloc: Global, terms: &mut T, name: &Name) -> Result<T::Handle, AllocError>
    ensures held { IfOk result (T.holds terms.new) }
    ensures kept { Keeps (T.holds terms.old) (T.means terms.old) (T.holds terms.new) (T.means terms.new) }
{
    let star = star(alloc, terms)?;
    let once = constant(alloc, terms, name, star)?;
    constant(alloc, terms, name, once)
}

/// With `k(x) := x -> *`: whether `k(k(*))` is `(* -> *) -> *` by two units.
fn opens<T: Terms + Drop>(alloc: Global, mut terms: T) -> Result<bool, AllocError> {
    let name = Name::of(alloc, b"k")?;
    let body = body(alloc, &mut terms)?;
    let wanted = wanted(alloc, &mut terms)?;
    let twice = twice(alloc, &mut terms, &name)?;
    let mut fuel = Fuel::new(2);
    match open(alloc, &mut terms, &mut fuel, &name, body, twice) {
        Ok(opened) => Ok(terms.same(opened, wanted) && fuel.left() == 0),
        Err(_) => Ok(false),
    }
}

/// Whether one unit is too few for `k(k(*))`, and `*` has no constant in it.
fn leaves<T: Terms + Drop>(alloc: Global, mut terms: T) -> Result<bool, AllocError> {
    let name = Name::of(alloc, b"k")?;
    let body = body(alloc, &mut terms)?;
    let star = star(alloc, &mut terms)?;
    let twice = twice(alloc, &mut terms, &name)?;
    let short = open(alloc, &mut terms, &mut Fuel::new(1), &name, body, twice);
    let absent = open(alloc, &mut terms, &mut Fuel::new(0), &name, body, star);
    Ok(
        matches!(short, Err(MoveFault::Fuel))
            && matches!(absent, Err(MoveFault::NoOccurrence { .. })),
    )
}

#[test]
fn a_constant_is_replaced_in_its_own_arguments(rt: HostRuntime) -> Result<(), Fail> {
    let alloc = rt.alloc();
    assert!(rt; opens(alloc, TreeTerms::new(alloc)?)?);
    assert!(rt; leaves(alloc, TreeTerms::new(alloc)?)?);
    Ok(())
}
