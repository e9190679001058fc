//! Unification of two terms, and settling a metavariable by a value.

ghost use Rattle.std.specs.Prelude.{◌≡◌, ◌≤◌, All, IfOk, Some, List as Listed, slice_get};
ghost use Rattle.ld_trees.specs.Term.{Term, Meta, none, ◌▹◌};
ghost use Rattle.ld_rules.specs.Scoping.{Known};
ghost use Rattle.ld_terms.specs.Views.{Keeps};
ghost use Rattle.ld_terms.specs.declared.globals.Decl.{Decl};
ghost use Rattle.ld_terms.specs.declared.globals.Item.{Item};
ghost use Rattle.conversion.specs.Globals.{AreGlobalsOf, IsDeclOf};
ghost use Rattle.meta_context.specs.Declaring.{IsOpen};
ghost use Rattle.meta_context.specs.Plain.{rules_env};
ghost use Rattle.meta_laws.specs.Legality.{IsLegalMetas};
ghost use Rattle.goal_state.specs.State.{plain_metas, rules_metas};
ghost use Rattle.unification.specs.Laws.{HasFootprint};
ghost use Rattle.unification.specs.Metavariables as spec;
ghost use Rattle.unification.specs.Unification as unification;
ghost use Rattle.pattern_unify.specs.Answers.{Answers, AreRead, AreUnified, AreSettled};

use crate::engine::unify_in;
use crate::fault::UnifyFault;
use crate::solving::settle_in;
use ld_terms::{Fuel, Terms};
use meta_context::{Env, Metas};
use std::alloc::Global;

/// Unifies two terms in a context of so many entries, in these metavariables: those in which the terms are βδ-equal. The older ones stay as
/// they were, and so do older handles.
///
/// # Errors
///
/// See [`UnifyFault`]: the refusal of the definition, which leaves the units that it leaves; want of fuel, after which no unit is left; want
/// of memory, which may come at any time.
pub fn unify<T: Terms>(
    alloc: Global,
    terms: &mut T,
    env: &Env<T::Handle>,
    metas: &Metas<T::Handle>,
    fuel: &mut Fuel,
    depth: u32,
    a: T::Handle,
    b: T::Handle,
) -> Result<Metas<T::Handle>, UnifyFault<T::Handle>>
    requires globals { AreGlobalsOf (T.holds terms.old) env.now metas.now }
    requires a { T.holds terms.old a }
    requires b { T.holds terms.old b }
    // The metavariables or the refusal are those of the definition, with the units that it leaves.
    ensures value { (Δ : Listed (Item Term)) (Σ : Listed (Decl Term)) (A B : Term) → AreRead (T.means terms.old) env.now metas.now Δ Σ → T.means terms.old a ≡ A → T.means terms.old b ≡ B → Answers (T.holds terms.new) (T.means terms.new) (plain_metas (T.means terms.new)) (unification.unify (rules_env Δ) Σ depth A B fuel.old) fuel.new result }
    // From legal metavariables they are legal, and the terms are equal in them.
    ensures unified { (Δ : Listed (Item Term)) (Σ : Listed (Decl Term)) (A B : Term) → AreRead (T.means terms.old) env.now metas.now Δ Σ → T.means terms.old a ≡ A → T.means terms.old b ≡ B → IsLegalMetas (rules_env Δ) (rules_metas Σ) → Known (spec.reach (rules_env Δ) Σ) A → Known (spec.reach (rules_env Δ) Σ) B → IfOk result (λ m. AreUnified (rules_env Δ) Σ (plain_metas (T.means terms.new) m) A B) }
    // Only dependencies of the terms are assigned, and what is declared lies over entries of their contexts.
    ensures footprint { (Δ : Listed (Item Term)) (Σ : Listed (Decl Term)) (A B : Term) → AreRead (T.means terms.old) env.now metas.now Δ Σ → T.means terms.old a ≡ A → T.means terms.old b ≡ B → IsLegalMetas (rules_env Δ) (rules_metas Σ) → Known (spec.reach (rules_env Δ) Σ) A → Known (spec.reach (rules_env Δ) Σ) B → IfOk result (λ m. HasFootprint Σ (plain_metas (T.means terms.new) m) (none ▹ A ▹ B)) }
    ensures held { IfOk result (λ m. All (IsDeclOf (T.holds terms.new)) m) }
    ensures less { fuel.new ≤ fuel.old }
    ensures kept { Keeps (T.holds terms.old) (T.means terms.old) (T.holds terms.new) (T.means terms.new) }
{
    unify_in(alloc, terms, env, metas, fuel, depth, a, b)
}

/// Settles an open metavariable by a value: the value's type is inferred in its context and unified with its type, and then it gets the
/// value. The older metavariables stay as they were, and so do older handles.
///
/// # Errors
///
/// As those of [`unify`].
pub fn settle<T: Terms>(
    alloc: Global,
    terms: &mut T,
    env: &Env<T::Handle>,
    metas: &Metas<T::Handle>,
    fuel: &mut Fuel,
    m: u32,
    value: T::Handle,
) -> Result<Metas<T::Handle>, UnifyFault<T::Handle>>
    requires globals { AreGlobalsOf (T.holds terms.old) env.now metas.now }
    requires open { IsOpen metas.now m }
    requires value { T.holds terms.old value }
    ensures value { (Δ : Listed (Item Term)) (Σ : Listed (Decl Term)) (v : Term) → AreRead (T.means terms.old) env.now metas.now Δ Σ → T.means terms.old value ≡ v → Answers (T.holds terms.new) (T.means terms.new) (plain_metas (T.means terms.new)) (unification.settle (rules_env Δ) Σ m v fuel.old) fuel.new result }
    // From legal metavariables they are legal, and the metavariable has the value in them.
    ensures settled { (Δ : Listed (Item Term)) (Σ : Listed (Decl Term)) (d : Decl Term) (v : Term) → AreRead (T.means terms.old) env.now metas.now Δ Σ → T.means terms.old value ≡ v → slice_get Σ m ≡ Some d → IsLegalMetas (rules_env Δ) (rules_metas Σ) → Known (spec.reach (rules_env Δ) Σ) v → IfOk result (λ r. AreSettled (rules_env Δ) Σ (plain_metas (T.means terms.new) r) m d v) }
    // Only dependencies of the metavariable and of the value are assigned, and what is declared lies over entries of their contexts.
    ensures footprint { (Δ : Listed (Item Term)) (Σ : Listed (Decl Term)) (v : Term) → AreRead (T.means terms.old) env.now metas.now Δ Σ → T.means terms.old value ≡ v → IsLegalMetas (rules_env Δ) (rules_metas Σ) → IfOk result (λ r. HasFootprint Σ (plain_metas (T.means terms.new) r) (none ▹ Meta m none ▹ v)) }
    ensures held { IfOk result (λ r. All (IsDeclOf (T.holds terms.new)) r) }
    ensures less { fuel.new ≤ fuel.old }
    ensures kept { Keeps (T.holds terms.old) (T.means terms.old) (T.holds terms.new) (T.means terms.new) }
{
    settle_in(alloc, terms, env, metas, fuel, m, value)
}
