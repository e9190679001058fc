//! Unification of two terms, by one cycle of calls over the units that are left.

ghost use Rattle.std.specs.Prelude.{◌≡◌, ◌≤◌, All, IfOk, IfSome, List as Listed};
ghost use Rattle.ld_trees.specs.Term.{Term};
ghost use Rattle.ld_terms.specs.Views.{Keeps};
ghost use Rattle.ld_terms.specs.declared.globals.Decl.{Decl};
ghost use Rattle.ld_terms.specs.declared.globals.Item.{Item};
ghost use Rattle.conversion.specs.Globals.{AreGlobalsOf, IsDeclOf};
ghost use Rattle.meta_context.specs.Plain.{rules_env};
ghost use Rattle.goal_state.specs.State.{plain_metas};
ghost use Rattle.unification.specs.Unification as tree;
ghost use Rattle.pattern_unify.specs.Answers.{Answers, AreRead};
ghost use Rattle.pattern_unify.specs.Pairs.{ArePairsHeld, pairs_back};
ghost use Rattle.pattern_unify.specs.Plans.{plain_plan, planned};
ghost use Rattle.pattern_unify.specs.Tries.{IsTried, IsGivenUp};

use crate::fault::UnifyFault;
use crate::pairs::{Pair, is_defined, pairs_of};
use crate::plans::{Plan, plan_for};
use crate::sides::side_of;
use crate::solving::solve;
use conversion::whnf;
use ld_terms::{Fuel, Halt, Terms};
use meta_context::{Both, Env, Metas};
use std::alloc::Global;

/// Unifies two terms in a context of so many entries. Equal trees cost nothing. Else one unit is spent; the same defined constant at both
/// heads is unified by its arguments first, and where that is refused, both terms are brought to weak head form.
#[cycle(unifying)]
pub fn unify_in<T: Terms>(
    alloc: Global,
    terms: &mut T,
    env: &Env<T::Handle>,
    metas: &Metas<T::Handle>,
    fuel: &mut Fuel,
    depth: u32,
    a: T::Handle,
    b: T::Handle,
) -> Result<Metas<T::Handle>, UnifyFault<T::Handle>>
    requires globals { AreGlobalsOf (T.holds terms.old) env.now metas.now }
    requires a { T.holds terms.old a }
    requires b { T.holds terms.old b }
    ensures value { (Δ : Listed (Item Term)) (Σ : Listed (Decl Term)) (A B : Term) → AreRead (T.means terms.old) env.now metas.now Δ Σ → T.means terms.old a ≡ A → T.means terms.old b ≡ B → Answers (T.holds terms.new) (T.means terms.new) (plain_metas (T.means terms.new)) (tree.unify (rules_env Δ) Σ depth A B fuel.old) fuel.new result }
    ensures held { IfOk result (λ r. All (IsDeclOf (T.holds terms.new)) r) }
    ensures less { fuel.new ≤ fuel.old }
    ensures kept { Keeps (T.holds terms.old) (T.means terms.old) (T.holds terms.new) (T.means terms.new) }
{
    if terms.same(a, b) {
        return Ok(metas.fork(alloc)?);
    }
    if !fuel.spend() {
        return Err(UnifyFault::Fuel);
    }
    match unify_twins(alloc, terms, env, metas, fuel, depth, a, b)? {
        Some(after) => Ok(after),
        None => unify_reduced(alloc, terms, env, metas, fuel, depth, a, b),
    }
}

/// Unifies the parts of two terms with the same defined constant at both heads. It is `None` where they aren't such terms, or their parts
/// aren't unified: that is given up, and its units stay spent.
#[cycle(unifying)]
fn unify_twins<T: Terms>(
    alloc: Global,
    terms: &mut T,
    env: &Env<T::Handle>,
    metas: &Metas<T::Handle>,
    fuel: &mut Fuel,
    depth: u32,
    a: T::Handle,
    b: T::Handle,
) -> Result<Option<Metas<T::Handle>>, Halt>
    requires globals { AreGlobalsOf (T.holds terms.old) env.now metas.now }
    requires a { T.holds terms.old a }
    requires b { T.holds terms.old b }
    ensures value { (Δ : Listed (Item Term)) (Σ : Listed (Decl Term)) (A B : Term) → AreRead (T.means terms.old) env.now metas.now Δ Σ → T.means terms.old a ≡ A → T.means terms.old b ≡ B → IsTried (plain_metas (T.means terms.new)) (rules_env Δ) Σ depth A B fuel.old fuel.new result }
    ensures held { IfOk result (λ o. IfSome o (λ r. All (IsDeclOf (T.holds terms.new)) r)) }
    ensures less { fuel.new ≤ fuel.old }
    ensures kept { Keeps (T.holds terms.old) (T.means terms.old) (T.holds terms.new) (T.means terms.new) }
{
    if !is_defined(terms, &Both { env, metas }, a) {
        return Ok(None);
    }
    match pairs_of(alloc, terms, depth, a, b)? {
        Some(pairs) => given_up(unify_each(alloc, terms, env, metas, fuel, pairs)),
        None => Ok(None),
    }
}

/// The outcome of a unification that is given up where it is refused.
fn given_up<H: Copy>(outcome: Result<Metas<H>, UnifyFault<H>>) -> Result<Option<Metas<H>>, Halt>
    ensures { IsGivenUp outcome result }
{
    match outcome {
        Ok(after) => Ok(Some(after)),
        Err(UnifyFault::Fuel) => Err(Halt::Fuel),
        Err(UnifyFault::Memory) => Err(Halt::Memory),
        Err(_) => Ok(None),
    }
}

/// Unifies two terms by their weak head forms.
#[cycle(unifying)]
fn unify_reduced<T: Terms>(
    alloc: Global,
    terms: &mut T,
    env: &Env<T::Handle>,
    metas: &Metas<T::Handle>,
    fuel: &mut Fuel,
    depth: u32,
    a: T::Handle,
    b: T::Handle,
) -> Result<Metas<T::Handle>, UnifyFault<T::Handle>>
    requires globals { AreGlobalsOf (T.holds terms.old) env.now metas.now }
    requires a { T.holds terms.old a }
    requires b { T.holds terms.old b }
    ensures value { (Δ : Listed (Item Term)) (Σ : Listed (Decl Term)) (A B : Term) → AreRead (T.means terms.old) env.now metas.now Δ Σ → T.means terms.old a ≡ A → T.means terms.old b ≡ B → Answers (T.holds terms.new) (T.means terms.new) (plain_metas (T.means terms.new)) (tree.unify_reduced (rules_env Δ) (tree.unify (rules_env Δ)) Σ depth A B fuel.old) fuel.new result }
    ensures held { IfOk result (λ r. All (IsDeclOf (T.holds terms.new)) r) }
    ensures less { fuel.new ≤ fuel.old }
    ensures kept { Keeps (T.holds terms.old) (T.means terms.old) (T.holds terms.new) (T.means terms.new) }
{
    let globals = Both { env, metas };
    let a = whnf(alloc, terms, &globals, fuel, a)?;
    let b = whnf(alloc, terms, &globals, fuel, b)?;
    unify_forms(alloc, terms, env, metas, fuel, depth, a, b)
}

/// Unifies two weak head forms.
#[cycle(unifying)]
fn unify_forms<T: Terms>(
    alloc: Global,
    terms: &mut T,
    env: &Env<T::Handle>,
    metas: &Metas<T::Handle>,
    fuel: &mut Fuel,
    depth: u32,
    a: T::Handle,
    b: T::Handle,
) -> Result<Metas<T::Handle>, UnifyFault<T::Handle>>
    requires globals { AreGlobalsOf (T.holds terms.old) env.now metas.now }
    requires a { T.holds terms.old a }
    requires b { T.holds terms.old b }
    ensures value { (Δ : Listed (Item Term)) (Σ : Listed (Decl Term)) (A B : Term) → AreRead (T.means terms.old) env.now metas.now Δ Σ → T.means terms.old a ≡ A → T.means terms.old b ≡ B → Answers (T.holds terms.new) (T.means terms.new) (plain_metas (T.means terms.new)) (tree.unify_forms (rules_env Δ) (tree.unify (rules_env Δ)) Σ depth A B fuel.old) fuel.new result }
    ensures held { IfOk result (λ r. All (IsDeclOf (T.holds terms.new)) r) }
    ensures less { fuel.new ≤ fuel.old }
    ensures kept { Keeps (T.holds terms.old) (T.means terms.old) (T.holds terms.new) (T.means terms.new) }
{
    let first = side_of(alloc, terms, metas, a)?;
    let second = side_of(alloc, terms, metas, b)?;
    unify_planned(
        alloc,
        terms,
        env,
        metas,
        fuel,
        depth,
        a,
        b,
        plan_for(first, second),
    )
}

/// Does with two weak head forms what is planned.
#[cycle(unifying)]
fn unify_planned<T: Terms>(
    alloc: Global,
    terms: &mut T,
    env: &Env<T::Handle>,
    metas: &Metas<T::Handle>,
    fuel: &mut Fuel,
    depth: u32,
    a: T::Handle,
    b: T::Handle,
    plan: Plan,
) -> Result<Metas<T::Handle>, UnifyFault<T::Handle>>
    requires globals { AreGlobalsOf (T.holds terms.old) env.now metas.now }
    requires a { T.holds terms.old a }
    requires b { T.holds terms.old b }
    ensures value { (Δ : Listed (Item Term)) (Σ : Listed (Decl Term)) (A B : Term) → AreRead (T.means terms.old) env.now metas.now Δ Σ → T.means terms.old a ≡ A → T.means terms.old b ≡ B → Answers (T.holds terms.new) (T.means terms.new) (plain_metas (T.means terms.new)) (planned (rules_env Δ) Σ depth A B (plain_plan plan) fuel.old) fuel.new result }
    ensures held { IfOk result (λ r. All (IsDeclOf (T.holds terms.new)) r) }
    ensures less { fuel.new ≤ fuel.old }
    ensures kept { Keeps (T.holds terms.old) (T.means terms.old) (T.holds terms.new) (T.means terms.new) }
{
    match plan {
        Plan::Parts => unify_parts(alloc, terms, env, metas, fuel, depth, a, b),
        Plan::SolveFirst(m, args) => solve(alloc, terms, env, metas, fuel, depth, m, &args, b),
        Plan::SolveSecond(m, args) => solve(alloc, terms, env, metas, fuel, depth, m, &args, a),
        Plan::Refuse(m) => Err(UnifyFault::NotPattern { m }),
    }
}

/// Compares the heads of two terms as they stand, and unifies their parts.
#[cycle(unifying)]
fn unify_parts<T: Terms>(
    alloc: Global,
    terms: &mut T,
    env: &Env<T::Handle>,
    metas: &Metas<T::Handle>,
    fuel: &mut Fuel,
    depth: u32,
    a: T::Handle,
    b: T::Handle,
) -> Result<Metas<T::Handle>, UnifyFault<T::Handle>>
    requires globals { AreGlobalsOf (T.holds terms.old) env.now metas.now }
    requires a { T.holds terms.old a }
    requires b { T.holds terms.old b }
    ensures value { (Δ : Listed (Item Term)) (Σ : Listed (Decl Term)) (A B : Term) → AreRead (T.means terms.old) env.now metas.now Δ Σ → T.means terms.old a ≡ A → T.means terms.old b ≡ B → Answers (T.holds terms.new) (T.means terms.new) (plain_metas (T.means terms.new)) (tree.unify_parts (tree.unify (rules_env Δ)) Σ depth A B fuel.old) fuel.new result }
    ensures held { IfOk result (λ r. All (IsDeclOf (T.holds terms.new)) r) }
    ensures less { fuel.new ≤ fuel.old }
    ensures kept { Keeps (T.holds terms.old) (T.means terms.old) (T.holds terms.new) (T.means terms.new) }
{
    match pairs_of(alloc, terms, depth, a, b)? {
        Some(pairs) => unify_each(alloc, terms, env, metas, fuel, pairs),
        None => Err(UnifyFault::Mismatch {
            depth,
            found: a,
            wanted: b,
        }),
    }
}

/// Unifies the terms of each pair, in the outcome of those before. The last pair comes first.
#[cycle(unifying)]
fn unify_each<T: Terms>(
    alloc: Global,
    terms: &mut T,
    env: &Env<T::Handle>,
    metas: &Metas<T::Handle>,
    fuel: &mut Fuel,
    mut pairs: Vec<Pair<T::Handle>>,
) -> Result<Metas<T::Handle>, UnifyFault<T::Handle>>
    requires globals { AreGlobalsOf (T.holds terms.old) env.now metas.now }
    requires pairs { ArePairsHeld (T.holds terms.old) pairs.items }
    ensures value { (Δ : Listed (Item Term)) (Σ : Listed (Decl Term)) → AreRead (T.means terms.old) env.now metas.now Δ Σ → Answers (T.holds terms.new) (T.means terms.new) (plain_metas (T.means terms.new)) (tree.unify_each (tree.unify (rules_env Δ)) Σ (pairs_back (T.means terms.old) pairs.items) fuel.old) fuel.new result }
    ensures held { IfOk result (λ r. All (IsDeclOf (T.holds terms.new)) r) }
    ensures less { fuel.new ≤ fuel.old }
    ensures kept { Keeps (T.holds terms.old) (T.means terms.old) (T.holds terms.new) (T.means terms.new) }
{
    let mut after = metas.fork(alloc)?;
    while let Some(pair) = pairs.pop() {
        after = unify_in(
            alloc,
            terms,
            env,
            &after,
            fuel,
            pair.depth,
            pair.found,
            pair.wanted,
        )?;
    }
    Ok(after)
}
