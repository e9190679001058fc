//! The leaves of a text: the sort, holes and variables. And the units of a node.

ghost use Rattle.std.specs.Prelude.{◌≡◌, ◌<◌, ◌≤◌, All, IfOk, IfSome, ℕ, List as Listed, true, false, length, map, option_map};
ghost use Rattle.ld_trees.specs.Term.{Square, Star, Term};
ghost use Rattle.ld_rules.specs.Environment.{type_at};
ghost use Rattle.ld_terms.specs.Views.{Keeps, terms_of};
ghost use Rattle.ld_terms.specs.declared.globals.Item.{Item};
ghost use Rattle.term_syntax.specs.Scoping.{index_of, label_text};
ghost use Rattle.term_text.specs.Scoped.{bound_of};
ghost use Rattle.conversion.specs.Globals.{AreLocals, context_of};
ghost use Rattle.unification.specs.Patterns.{over_all, variables_from};
ghost use Rattle.unification.specs.Steps.{Gave, OutOfFuel};
ghost use Rattle.elaboration.specs.Elaboration as spec;
ghost use Rattle.elaboration.specs.Refusals.{UnknownName};
ghost use Rattle.elaborate.specs.Answers.{Answers};
ghost use Rattle.elaborate.specs.Standing.{IsHeld, IsRead, IsTypedIn, IsWantIn, pair_trees, plain_typed, plain_want, plain_work};
ghost use Rattle.elaborate.specs.Steps.{cost, noted_of, paid, typed_at};

use crate::fault::ElabFault;
use crate::meeting::meet;
use crate::standing::{Here, Typed, Want, Work, depth_of};
use ld_terms::{Fuel, List, Local, Terms, View, shift};
use meta_context::Env;
use pattern_unify::declare_in;
use std::alloc::{AllocError, Global};
use term_text::{Label, Shape, Surface, index_of, label_name};

// ---- units

/// How many units a node takes. They are paid first of all.
#[tactic(auto, using(crate::proofs::Equations::costs, crate::proofs::Equations::unpaid))]
fn cost(t: &Surface) -> usize
    ensures units { result ≡ cost t.now }
    ensures first { (Δ : Listed (Item Term)) (W : spec.Want) (w : spec.Work) (s : spec.Surroundings) (n : ℕ) → paid (cost t.now) n ≡ OutOfFuel → spec.elaborate Δ t.now W w s n ≡ OutOfFuel }
{
    match &t.shape {
        Shape::Star => 1,
        Shape::Wild => 1,
        Shape::Asked => 1,
        Shape::Named(_) => 1,
        Shape::Const(_, _) => 1,
        Shape::App(_, us) => us.as_slice().len(),
        Shape::Lam(_, _, _) => 1,
        Shape::Pi(_, _, _) => 1,
    }
}

/// Takes the units of a node, and says whether there were as many. It is false exactly where they weren't, and then none is left.
#[tactic(auto, using(crate::proofs::Units::one_spent, crate::proofs::Units::none_to_spend, crate::proofs::Units::all_spent))]
pub fn pay(fuel: &mut Fuel, t: &Surface) -> bool
    ensures had { result ≡ true → paid (cost t.now) fuel.old ≡ Gave tt fuel.new }
    ensures short { result ≡ false → ((Δ : Listed (Item Term)) (W : spec.Want) (w : spec.Work) (s : spec.Surroundings) → spec.elaborate Δ t.now W w s fuel.old ≡ OutOfFuel) × (fuel.new ≡ 0) }
    ensures less { fuel.new ≤ fuel.old }
{
    let mut left = cost(t);
    while left > 0 {
        if !fuel.spend() {
            return false;
        }
        left -= 1;
    }
    true
}

// ---- the sort

/// `*`, whose type is `□`.
pub fn star<T: Terms>(
    alloc: Global,
    terms: &mut T,
    env: &Env<T::Handle>,
    fuel: &mut Fuel,
    want: Want<T::Handle>,
    work: Work<T::Handle>,
    here: &Here<'_, '_, T::Handle>,
) -> Result<Typed<T::Handle>, ElabFault<T::Handle>>
    requires held { IsHeld (T.holds terms.old) env.now work here.now }
    requires want { IsWantIn (T.holds terms.old) want }
    ensures value { (Δ : Listed (Item Term)) (W : spec.Want) (w : spec.Work) (s : spec.Surroundings) → IsRead (T.means terms.old) env.now work here.now Δ w s → plain_want (T.means terms.old) want ≡ W → Answers (T.holds terms.new) (T.means terms.new) (plain_typed (T.means terms.new)) (spec.meet Δ W w s Star Square fuel.old) fuel.new result }
    ensures held { IfOk result (IsTypedIn (T.holds terms.new)) }
    ensures less { fuel.new ≤ fuel.old }
    ensures kept { Keeps (T.holds terms.old) (T.means terms.old) (T.holds terms.new) (T.means terms.new) }
{
    let term = terms.make(alloc, View::Star)?;
    let ty = terms.make(alloc, View::Square)?;
    let typed = Typed { work, term, ty };
    meet(alloc, terms, env, fuel, want, here, typed)
}

// ---- holes

/// All variables of a context of so many entries, that of the entry entered first in front.
fn variables<T: Terms>(
    alloc: Global,
    terms: &mut T,
    count: u32,
) -> Result<Vec<T::Handle>, AllocError>
    ensures value { IfOk result (λ v. terms_of (map (T.means terms.new) v.items) ≡ variables_from 0 count) }
    ensures held { IfOk result (λ v. All (T.holds terms.new) v.items) }
    ensures kept { Keeps (T.holds terms.old) (T.means terms.old) (T.holds terms.new) (T.means terms.new) }
{
    let mut made = Vec::new(alloc);
    let mut left = count;
    while left > 0 {
        left -= 1;
        made.push(terms.make(alloc, View::Var(left))?)?;
    }
    Ok(made)
}

/// A metavariable applied to all variables of a context of so many entries.
fn over_all<T: Terms>(
    alloc: Global,
    terms: &mut T,
    m: u32,
    count: u32,
) -> Result<T::Handle, AllocError>
    ensures value { IfOk result (λ h. T.means terms.new h ≡ over_all m count) }
    ensures held { IfOk result (T.holds terms.new) }
    ensures kept { Keeps (T.holds terms.old) (T.means terms.old) (T.holds terms.new) (T.means terms.new) }
{
    let args = variables(alloc, terms, count)?;
    terms.make(alloc, View::Meta(m, &args))
}

/// The metavariable of a hole is noted: of a `?`, or of a `_` with its place.
fn noted<H: Copy>(hole: Option<u64>, m: u32, work: Work<H>) -> Result<Work<H>, AllocError>
    ensures metas { IfOk result (λ r. r.metas ≡ work.metas) }
    ensures value { (means : H → Term) → IfOk result (λ r. plain_work means r ≡ noted_of hole m (plain_work means work)) }
{
    let Work {
        metas,
        goals,
        holes,
    } = work;
    match hole {
        None => {
            let mut goals = goals.into_vec();
            goals.push(m)?;
            let goals = List::of(goals);
            Ok(Work {
                metas,
                goals,
                holes,
            })
        }
        Some(at) => {
            let mut holes = holes.into_vec();
            holes.push((m, at))?;
            let holes = List::of(holes);
            Ok(Work {
                metas,
                goals,
                holes,
            })
        }
    }
}

/// A hole of a type: a new metavariable over the whole context, applied to all its variables.
fn opened<T: Terms>(
    alloc: Global,
    terms: &mut T,
    env: &Env<T::Handle>,
    fuel: &mut Fuel,
    hole: Option<u64>,
    ty: T::Handle,
    work: Work<T::Handle>,
    here: &Here<'_, '_, T::Handle>,
) -> Result<Typed<T::Handle>, ElabFault<T::Handle>>
    requires held { IsHeld (T.holds terms.old) env.now work here.now }
    requires ty { T.holds terms.old ty }
    ensures value { (Δ : Listed (Item Term)) (w : spec.Work) (s : spec.Surroundings) (F : Term) → IsRead (T.means terms.old) env.now work here.now Δ w s → T.means terms.old ty ≡ F → Answers (T.holds terms.new) (T.means terms.new) (plain_typed (T.means terms.new)) (spec.opened Δ (noted_of hole) F w s fuel.old) fuel.new result }
    ensures held { IfOk result (IsTypedIn (T.holds terms.new)) }
    ensures less { fuel.new ≤ fuel.old }
    ensures kept { Keeps (T.holds terms.old) (T.means terms.old) (T.holds terms.new) (T.means terms.new) }
{
    let Work {
        metas,
        goals,
        holes,
    } = work;
    let (metas, m) = declare_in(alloc, terms, env, &metas, fuel, here.entries, ty)?;
    let term = over_all(alloc, terms, m, depth_of(here.entries))?;
    let work = Work {
        metas,
        goals,
        holes,
    };
    let work = noted(hole, m, work)?;
    Ok(Typed { work, term, ty })
}

/// A hole at a place: `?` without a place of its own, or `_` with it.
pub fn hole<T: Terms>(
    alloc: Global,
    terms: &mut T,
    env: &Env<T::Handle>,
    fuel: &mut Fuel,
    at: u64,
    hole: Option<u64>,
    want: Want<T::Handle>,
    work: Work<T::Handle>,
    here: &Here<'_, '_, T::Handle>,
) -> Result<Typed<T::Handle>, ElabFault<T::Handle>>
    requires held { IsHeld (T.holds terms.old) env.now work here.now }
    requires want { IsWantIn (T.holds terms.old) want }
    ensures value { (Δ : Listed (Item Term)) (W : spec.Want) (w : spec.Work) (s : spec.Surroundings) → IsRead (T.means terms.old) env.now work here.now Δ w s → plain_want (T.means terms.old) want ≡ W → Answers (T.holds terms.new) (T.means terms.new) (plain_typed (T.means terms.new)) (spec.hole Δ at (noted_of hole) W w s fuel.old) fuel.new result }
    ensures held { IfOk result (IsTypedIn (T.holds terms.new)) }
    ensures less { fuel.new ≤ fuel.old }
    ensures kept { Keeps (T.holds terms.old) (T.means terms.old) (T.holds terms.new) (T.means terms.new) }
{
    match want {
        Want::Any => Err(ElabFault::NoExpected { at }),
        Want::Of(ty) => opened(alloc, terms, env, fuel, hole, ty, work, here),
        Want::AsType => {
            let ty = terms.make(alloc, View::Star)?;
            opened(alloc, terms, env, fuel, hole, ty, work, here)
        }
    }
}

// ---- variables

/// The type of a variable, as a term of the whole context, or `None` where there is no such variable.
fn entry_type<T: Terms>(
    alloc: Global,
    terms: &mut T,
    ctx: &[Local<T::Handle>],
    i: u32,
) -> Result<Option<T::Handle>, AllocError>
    requires entries { AreLocals (T.holds terms.old) ctx.now }
    requires room { length ctx.now < 999999000 }
    ensures value { IfOk result (λ o. option_map (T.means terms.new) o ≡ type_at (context_of (T.means terms.old) ctx.now) i) }
    ensures held { IfOk result (λ o. IfSome o (T.holds terms.new)) }
    ensures kept { Keeps (T.holds terms.old) (T.means terms.old) (T.holds terms.new) (T.means terms.new) }
{
    let from_last = i as usize;
    if from_last < ctx.len() {
        let ty = ctx[ctx.len() - 1 - from_last].ty;
        Ok(Some(shift(alloc, terms, ty, 0, i + 1)?))
    } else {
        Ok(None)
    }
}

/// A variable with its type, where there is one.
fn typed_variable<T: Terms>(
    alloc: Global,
    terms: &mut T,
    ctx: &[Local<T::Handle>],
    index: Option<u32>,
) -> Result<Option<(T::Handle, T::Handle)>, AllocError>
    requires entries { AreLocals (T.holds terms.old) ctx.now }
    requires room { length ctx.now < 999999000 }
    ensures value { IfOk result (λ o. option_map (pair_trees (T.means terms.new)) o ≡ typed_at (context_of (T.means terms.old) ctx.now) index) }
    ensures held { IfOk result (λ o. IfSome o (λ p. T.holds terms.new p.0 × T.holds terms.new p.1)) }
    ensures kept { Keeps (T.holds terms.old) (T.means terms.old) (T.holds terms.new) (T.means terms.new) }
{
    match index {
        None => Ok(None),
        Some(i) => match entry_type(alloc, terms, ctx, i)? {
            None => Ok(None),
            Some(ty) => {
                let term = terms.make(alloc, View::Var(i))?;
                Ok(Some((term, ty)))
            }
        },
    }
}

/// A variable at a place.
pub fn variable<T: Terms>(
    alloc: Global,
    terms: &mut T,
    env: &Env<T::Handle>,
    fuel: &mut Fuel,
    at: u64,
    x: &Label,
    want: Want<T::Handle>,
    work: Work<T::Handle>,
    here: &Here<'_, '_, T::Handle>,
) -> Result<Typed<T::Handle>, ElabFault<T::Handle>>
    requires held { IsHeld (T.holds terms.old) env.now work here.now }
    requires want { IsWantIn (T.holds terms.old) want }
    ensures value { (Δ : Listed (Item Term)) (W : spec.Want) (w : spec.Work) (s : spec.Surroundings) → IsRead (T.means terms.old) env.now work here.now Δ w s → plain_want (T.means terms.old) want ≡ W → Answers (T.holds terms.new) (T.means terms.new) (plain_typed (T.means terms.new)) (spec.variable Δ (UnknownName at (label_text x.now)) (index_of s.outer x.now s.bound) W w s fuel.old) fuel.new result }
    ensures held { IfOk result (IsTypedIn (T.holds terms.new)) }
    ensures less { fuel.new ≤ fuel.old }
    ensures kept { Keeps (T.holds terms.old) (T.means terms.old) (T.holds terms.new) (T.means terms.new) }
{
    let index = index_of(here.outer, here.bound, x)?;
    let found = typed_variable(alloc, terms, here.entries, index)?;
    match found {
        Some(pair) => {
            let (term, ty) = pair;
            let typed = Typed { work, term, ty };
            meet(alloc, terms, env, fuel, want, here, typed)
        }
        None => {
            let name = label_name(alloc, x)?;
            Err(ElabFault::UnknownName { at, name })
        }
    }
}
