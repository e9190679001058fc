//! Each call in the plain store.

ghost use Rattle.std.specs.Prelude.{IfOk};
ghost use Rattle.conversion.specs.Globals.{AreGlobalsOf};

use crate::fault::UnifyFault;
use crate::fixtures::{
    all, bare, constant_of_arrow, last, one_item, over_last, product, spine, star, two_goals,
};
use crate::metavariables::extend;
use crate::names::name_at;
use crate::spots::is_open;
use crate::unifying::unify;
use ld_terms::{Fuel, Name, Terms, TreeTerms, View};
use meta_context::{Env, Metas};
use std::alloc::{AllocError, Global};
use std::test::Fail;

/// What a call came to.
#[derive(Drop)]
enum End {
    /// Whether `?0`, `?1` and `?2` are declared and without a value then.
    Open(bool, bool, bool),
    Mismatch(u32),
    NotPattern(u32),
    Scope(u32, u32),
    Cycle(u32),
    Fuel,
    Other,
}

/// What a call came to, and how many units it left.
#[derive(Drop)]
struct Outcome {
    end: End,
    left: u64,
}

/// What these metavariables or this refusal are.
fn end_of<H: Copy>(answer: Result<Metas<H>, UnifyFault<H>>) -> End {
    match answer {
        Ok(metas) => End::Open(is_open(&metas, 0), is_open(&metas, 1), is_open(&metas, 2)),
        Err(UnifyFault::Mismatch { depth, .. }) => End::Mismatch(depth),
        Err(UnifyFault::NotPattern { m }) => End::NotPattern(m),
        Err(UnifyFault::Scope { m, level }) => End::Scope(m, level),
        Err(UnifyFault::Cycle { m }) => End::Cycle(m),
        Err(UnifyFault::Fuel) => End::Fuel,
        Err(_) => End::Other,
    }
}

/// The outcome of a unification with so many units.
fn unified<T: Terms>(
    alloc: Global,
    terms: &mut T,
    env: &Env<T::Handle>,
    metas: &Metas<T::Handle>,
    units: u64,
    a: T::Handle,
    b: T::Handle,
) -> Outcome
    requires globals { AreGlobalsOf (T.holds terms.old) env.now metas.now }
    requires left { T.holds terms.old a }
    requires right { T.holds terms.old b }
{
    let mut fuel = Fuel::new(units);
    let end = end_of(unify(alloc, terms, env, metas, &mut fuel, 1, a, b));
    Outcome {
        end,
        left: fuel.left(),
    }
}

/// The outcome of a unification in a context of one entry and the empty environment.
fn unified_in<T: Terms>(
    alloc: Global,
    terms: &mut T,
    units: u64,
    a: T::Handle,
    b: T::Handle,
) -> Result<Outcome, UnifyFault<T::Handle>>
    requires left { T.holds terms.old a }
    requires right { T.holds terms.old b }
{
    let env = Env::new();
    let metas = two_goals(alloc, terms)?;
    Ok(unified(alloc, terms, &env, &metas, units, a, b))
}

/// `?0[]` with `(A : *) -> A`.
fn pattern<T: Terms>(
    alloc: Global,
    terms: &mut T,
    units: u64,
) -> Result<Outcome, UnifyFault<T::Handle>> {
    let goal = bare(alloc, terms)?;
    let value = all(alloc, terms)?;
    unified_in(alloc, terms, units, goal, value)
}

#[test]
fn a_pattern_is_solved_for_four_units(rt: HostRuntime) -> Result<(), Fail> {
    let alloc = rt.alloc();
    let mut terms = TreeTerms::new(alloc)?;
    let solved = pattern(alloc, &mut terms, 4).ok().ok_or("refused")?;
    assert!(rt; matches!(solved.end, End::Open(false, true, false)));
    assert_eq!(rt; solved.left, 0);
    let short = pattern(alloc, &mut terms, 3).ok().ok_or("refused")?;
    assert!(rt; matches!(short.end, End::Fuel));
    assert_eq!(rt; short.left, 0);
    Ok(())
}

/// `?0[]` and `?1[A]`, in this order or the other one.
fn two_patterns<T: Terms>(
    alloc: Global,
    terms: &mut T,
    is_turned: bool,
) -> Result<Outcome, UnifyFault<T::Handle>> {
    let first = bare(alloc, terms)?;
    let second = over_last(alloc, terms)?;
    if is_turned {
        unified_in(alloc, terms, 2, second, first)
    } else {
        unified_in(alloc, terms, 2, first, second)
    }
}

#[test]
fn of_two_patterns_the_greater_is_solved(rt: HostRuntime) -> Result<(), Fail> {
    let alloc = rt.alloc();
    let mut terms = TreeTerms::new(alloc)?;
    for is_turned in [false, true] {
        let solved = two_patterns(alloc, &mut terms, is_turned)
            .ok()
            .ok_or("refused")?;
        assert!(rt; matches!(solved.end, End::Open(true, false, false)));
        assert_eq!(rt; solved.left, 0);
    }
    Ok(())
}

/// `?0[]` with `(x : ?1[A]) -> ?1[x]`.
fn pruned<T: Terms>(
    alloc: Global,
    terms: &mut T,
    units: u64,
) -> Result<Outcome, UnifyFault<T::Handle>> {
    let goal = bare(alloc, terms)?;
    let part = over_last(alloc, terms)?;
    let value = product(alloc, terms, part, part)?;
    unified_in(alloc, terms, units, goal, value)
}

#[test]
fn a_smaller_metavariable_is_made_for_eight_units(rt: HostRuntime) -> Result<(), Fail> {
    let alloc = rt.alloc();
    let mut terms = TreeTerms::new(alloc)?;
    let solved = pruned(alloc, &mut terms, 8).ok().ok_or("refused")?;
    assert!(rt; matches!(solved.end, End::Open(false, false, true)));
    assert_eq!(rt; solved.left, 0);
    let short = pruned(alloc, &mut terms, 7).ok().ok_or("refused")?;
    assert!(rt; matches!(short.end, End::Fuel));
    Ok(())
}

/// `?0[]` with `?1[A]` applied to `*` so many times.
fn pruned_spine<T: Terms>(
    alloc: Global,
    terms: &mut T,
    arguments: u32,
) -> Result<Outcome, UnifyFault<T::Handle>> {
    let value = spine(alloc, terms, arguments)?;
    let goal = bare(alloc, terms)?;
    unified_in(alloc, terms, 9, goal, value)
}

/// The head is pruned, and then the type of so many applications wants more units.
#[test]
fn a_long_spine_needs_no_deep_stack(rt: HostRuntime) -> Result<(), Fail> {
    let alloc = rt.alloc();
    let mut terms = TreeTerms::new(alloc)?;
    let ended = pruned_spine(alloc, &mut terms, 30_000)
        .ok()
        .ok_or("refused")?;
    assert!(rt; matches!(ended.end, End::Fuel));
    assert_eq!(rt; ended.left, 0);
    Ok(())
}

/// `?0[]` with the last entry.
fn out_of_scope<T: Terms>(alloc: Global, terms: &mut T) -> Result<Outcome, UnifyFault<T::Handle>> {
    let goal = bare(alloc, terms)?;
    let entry = last(alloc, terms)?;
    unified_in(alloc, terms, 9, goal, entry)
}

/// `?0[]` applied to `*`, with `*`.
fn further_argument<T: Terms>(
    alloc: Global,
    terms: &mut T,
) -> Result<Outcome, UnifyFault<T::Handle>> {
    let goal = bare(alloc, terms)?;
    let argument = star(alloc, terms)?;
    let applied = terms.make(alloc, View::App(goal, argument))?;
    unified_in(alloc, terms, 9, applied, argument)
}

/// `?0[]` with `(x : ?0[]) -> ?0[]`, whose type is that of `?0`.
fn inside_itself<T: Terms>(alloc: Global, terms: &mut T) -> Result<Outcome, UnifyFault<T::Handle>> {
    let goal = bare(alloc, terms)?;
    let value = product(alloc, terms, goal, goal)?;
    unified_in(alloc, terms, 9, goal, value)
}

/// `?0[]` with `fun (x : ?0[]) => x`, whose type isn't that of `?0`.
fn inside_with_another_type<T: Terms>(
    alloc: Global,
    terms: &mut T,
) -> Result<Outcome, UnifyFault<T::Handle>> {
    let goal = bare(alloc, terms)?;
    let body = last(alloc, terms)?;
    let value = terms.make(alloc, View::Lam(goal, body))?;
    unified_in(alloc, terms, 9, goal, value)
}

#[test]
fn refusals_leave_their_units(rt: HostRuntime) -> Result<(), Fail> {
    let alloc = rt.alloc();
    let mut terms = TreeTerms::new(alloc)?;
    let scope = out_of_scope(alloc, &mut terms).ok().ok_or("refused")?;
    assert!(rt; matches!(scope.end, End::Scope(0, 0)));
    assert_eq!(rt; scope.left, 8);
    let applied = further_argument(alloc, &mut terms).ok().ok_or("refused")?;
    assert!(rt; matches!(applied.end, End::NotPattern(0)));
    assert_eq!(rt; applied.left, 8);
    Ok(())
}

#[test]
fn the_type_is_unified_before_a_cycle_is_looked_for(rt: HostRuntime) -> Result<(), Fail> {
    let alloc = rt.alloc();
    let mut terms = TreeTerms::new(alloc)?;
    let cycle = inside_itself(alloc, &mut terms).ok().ok_or("refused")?;
    assert!(rt; matches!(cycle.end, End::Cycle(0)));
    assert_eq!(rt; cycle.left, 5);
    let mismatch = inside_with_another_type(alloc, &mut terms)
        .ok()
        .ok_or("refused")?;
    assert!(rt; matches!(mismatch.end, End::Mismatch(0)));
    assert_eq!(rt; mismatch.left, 4);
    Ok(())
}

/// `K(?0[] -> *)` with `K(P -> P)`, where `P` is `(A : *) -> A`.
fn given_up<T: Terms>(
    alloc: Global,
    terms: &mut T,
    units: u64,
) -> Result<Outcome, UnifyFault<T::Handle>> {
    let goal = bare(alloc, terms)?;
    let sort = star(alloc, terms)?;
    let part = all(alloc, terms)?;
    let found = constant_of_arrow(alloc, terms, goal, sort)?;
    let wanted = constant_of_arrow(alloc, terms, part, part)?;
    let metas = two_goals(alloc, terms)?;
    let env = one_item(alloc, sort, part)?;
    Ok(unified(alloc, terms, &env, &metas, units, found, wanted))
}

#[test]
fn a_refusal_gives_up_all_values(rt: HostRuntime) -> Result<(), Fail> {
    let alloc = rt.alloc();
    let mut terms = TreeTerms::new(alloc)?;
    let equal = given_up(alloc, &mut terms, 9).ok().ok_or("refused")?;
    assert!(rt; matches!(equal.end, End::Open(true, true, false)));
    assert_eq!(rt; equal.left, 0);
    let short = given_up(alloc, &mut terms, 8).ok().ok_or("refused")?;
    assert!(rt; matches!(short.end, End::Fuel));
    Ok(())
}

/// Whether the empty context extended for a unit by an entry, named by its level where the name isn't one of the texts, has the wanted name.
fn is_extended<T: Terms>(
    alloc: Global,
    terms: &mut T,
    name: &[u8],
    wanted: &[u8],
) -> Result<bool, UnifyFault<T::Handle>> {
    let sort = star(alloc, terms)?;
    let env = Env::new();
    let metas = Metas::new();
    let closed = Vec::new(alloc);
    let name = name_at(alloc, 0, &Name::of(alloc, name)?)?;
    let mut fuel = Fuel::new(1);
    let ctx = extend(alloc, terms, &env, &metas, &mut fuel, &closed, &name, sort)?;
    match ctx.as_slice().first() {
        Some(entry) => Ok(entry.name.as_bytes() == wanted),
        None => Ok(false),
    }
}

#[test]
fn an_entry_has_a_name_of_the_texts_or_that_of_its_level(rt: HostRuntime) -> Result<(), Fail> {
    let alloc = rt.alloc();
    let mut terms = TreeTerms::new(alloc)?;
    let own = is_extended(alloc, &mut terms, b"A", b"A").ok();
    assert!(rt; own == Some(true));
    let level = is_extended(alloc, &mut terms, b"%7", b"%0").ok();
    assert!(rt; level == Some(true));
    Ok(())
}
