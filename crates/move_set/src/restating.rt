//! The moves `change` and `unfold`, by which a goal is stated anew.

ghost use Rattle.std.specs.Prelude.{◌≡◌, All, IfOk, Some, ℕ, List as Listed, option_and_then, slice_get};
ghost use Rattle.ld_trees.specs.Term.{Term};
ghost use Rattle.ld_terms.specs.Items.{item_named};
ghost use Rattle.ld_terms.specs.Views.{Keeps};
ghost use Rattle.ld_terms.specs.declared.globals.Decl.{Decl};
ghost use Rattle.ld_terms.specs.declared.globals.Item.{Item};
ghost use Rattle.term_syntax.specs.ReadsBack.{IsContext};
ghost use Rattle.conversion.specs.Globals.{AreGlobalsOf, AreLocals, IsDeclOf};
ghost use Rattle.meta_context.specs.Declaring.{IsOpen};
ghost use Rattle.meta_context.specs.Entered.{names_of};
ghost use Rattle.meta_context.specs.Plain.{plain_items, plain_locals, rules_env};
ghost use Rattle.meta_laws.specs.Legality.{IsLegalMetas};
ghost use Rattle.goal_state.specs.State.{plain_metas, rules_metas};
ghost use Rattle.pattern_unify.specs.Answers.{AreRead};
ghost use Rattle.move_set.specs.Answers.{Answers, plain_moved};
ghost use Rattle.move_set.specs.Moves as spec;

use crate::applying::{count_of, over_all};
use crate::asked::first_asked;
use crate::fault::MoveFault;
use crate::moves::{Moved, settled};
use crate::replacing::open;
use elaborate::{Made, check_type};
use goal_state::unfold_metas;
use ld_terms::{Fuel, List, Local, Name, Terms};
use meta_context::{Env, Metas};
use pattern_unify::declare_in;
use std::alloc::Global;
use term_text::Surface;

/// A metavariable is declared over the goal's context with another type, and goal g, which is open, is settled by it.
fn restated<T: Terms>(
    alloc: Global,
    terms: &mut T,
    env: &Env<T::Handle>,
    metas: &Metas<T::Handle>,
    fuel: &mut Fuel,
    g: u32,
    ctx: &[Local<T::Handle>],
    ty: T::Handle,
    holes: List<(u32, u64)>,
) -> Result<Moved<T::Handle>, MoveFault<T::Handle>>
    requires globals { AreGlobalsOf (T.holds terms.old) env.now metas.now }
    requires open { IsOpen metas.now g }
    requires context { AreLocals (T.holds terms.old) ctx.now }
    requires names { IsContext (names_of ctx.now) }
    requires ty { T.holds terms.old ty }
    ensures value { (Δ : Listed (Item Term)) (Σ0 Σ : Listed (Decl Term)) (d : Decl Term) (A : Term) → AreRead (T.means terms.old) env.now metas.now Δ Σ → plain_locals (T.means terms.old) ctx.now ≡ d.ctx → T.means terms.old ty ≡ A → Answers (T.holds terms.new) (T.means terms.new) (plain_moved (T.means terms.new)) (spec.restated Δ Σ0 g d Σ A holes fuel.old) fuel.new result }
    ensures held { IfOk result (λ r. All (IsDeclOf (T.holds terms.new)) r.metas) }
    ensures kept { Keeps (T.holds terms.old) (T.means terms.old) (T.holds terms.new) (T.means terms.new) }
{
    let (more, m) = declare_in(alloc, terms, env, metas, fuel, ctx, ty)?;
    let value = over_all(alloc, terms, m, count_of(ctx))?;
    let fresh = List::from_slice(alloc, &[m])?;
    settled(alloc, terms, env, more, fuel, g, value, fresh, holes)
}

/// A new goal, over the context of an open goal of legal metavariables, with the type that the text says.
fn change_to<T: Terms>(
    alloc: Global,
    terms: &mut T,
    env: &Env<T::Handle>,
    metas: &Metas<T::Handle>,
    fuel: &mut Fuel,
    g: u32,
    text: &Surface,
) -> Result<Moved<T::Handle>, MoveFault<T::Handle>>
    requires globals { AreGlobalsOf (T.holds terms.old) env.now metas.now }
    requires legal { IsLegalMetas (rules_env (plain_items (T.means terms.old) env.now)) (rules_metas (plain_metas (T.means terms.old) metas.now)) }
    requires open { IsOpen metas.now g }
    ensures value { (Δ : Listed (Item Term)) (Σ : Listed (Decl Term)) (d : Decl Term) → AreRead (T.means terms.old) env.now metas.now Δ Σ → slice_get Σ g ≡ Some d → Answers (T.holds terms.new) (T.means terms.new) (plain_moved (T.means terms.new)) (spec.change_to Δ Σ g d text.now fuel.old) fuel.new result }
    ensures held { IfOk result (λ r. All (IsDeclOf (T.holds terms.new)) r.metas) }
    ensures kept { Keeps (T.holds terms.old) (T.means terms.old) (T.holds terms.new) (T.means terms.new) }
{
    // The number tells that the contexts are as short as those of metavariables are.
    let _count = metas.next();
    match metas.decl(g) {
        Some(decl) => {
            let ctx = decl.ctx.as_slice();
            let made = check_type(alloc, terms, env, metas, fuel, ctx, text)?;
            let Made {
                metas: first,
                term,
                ty: _,
                goals: _,
                holes,
            } = made;
            restated(alloc, terms, env, &first, fuel, g, ctx, term, holes)
        }
        None => unreachable!(),
    }
}

/// `change t` on an open goal of legal metavariables: a new goal, over its context, with the type that the text says, which has no `?`.
pub fn change<T: Terms>(
    alloc: Global,
    terms: &mut T,
    env: &Env<T::Handle>,
    metas: &Metas<T::Handle>,
    fuel: &mut Fuel,
    g: u32,
    text: &Surface,
) -> Result<Moved<T::Handle>, MoveFault<T::Handle>>
    requires globals { AreGlobalsOf (T.holds terms.old) env.now metas.now }
    requires legal { IsLegalMetas (rules_env (plain_items (T.means terms.old) env.now)) (rules_metas (plain_metas (T.means terms.old) metas.now)) }
    requires open { IsOpen metas.now g }
    ensures value { (Δ : Listed (Item Term)) (Σ : Listed (Decl Term)) (d : Decl Term) → AreRead (T.means terms.old) env.now metas.now Δ Σ → slice_get Σ g ≡ Some d → Answers (T.holds terms.new) (T.means terms.new) (plain_moved (T.means terms.new)) (spec.change Δ Σ g d text.now fuel.old) fuel.new result }
    ensures held { IfOk result (λ r. All (IsDeclOf (T.holds terms.new)) r.metas) }
    ensures kept { Keeps (T.holds terms.old) (T.means terms.old) (T.holds terms.new) (T.means terms.new) }
{
    match first_asked(text) {
        Some(at) => Err(MoveFault::Unsolved { at }),
        None => change_to(alloc, terms, env, metas, fuel, g, text),
    }
}

/// The body of the definition of a name.
fn body_of<H: Copy>(env: &Env<H>, name: &Name) -> Option<H>
    ensures { result ≡ option_and_then (λ i. i.body) (item_named env.now name.now) }
{
    match env.find(name) {
        Some(item) => item.body,
        None => None,
    }
}

/// A new goal, over the context of an open goal, with its type in which assigned metavariables are unfolded and a body stands in place of each
/// constant of a name.
fn unfold_by<T: Terms>(
    alloc: Global,
    terms: &mut T,
    env: &Env<T::Handle>,
    metas: &Metas<T::Handle>,
    fuel: &mut Fuel,
    g: u32,
    name: &Name,
    body: T::Handle,
) -> Result<Moved<T::Handle>, MoveFault<T::Handle>>
    requires globals { AreGlobalsOf (T.holds terms.old) env.now metas.now }
    requires open { IsOpen metas.now g }
    requires body { T.holds terms.old body }
    ensures value { (Δ : Listed (Item Term)) (Σ : Listed (Decl Term)) (d : Decl Term) (M : Term) → AreRead (T.means terms.old) env.now metas.now Δ Σ → slice_get Σ g ≡ Some d → T.means terms.old body ≡ M → Answers (T.holds terms.new) (T.means terms.new) (plain_moved (T.means terms.new)) (spec.unfold_by Δ Σ g d name.now M fuel.old) fuel.new result }
    ensures held { IfOk result (λ r. All (IsDeclOf (T.holds terms.new)) r.metas) }
    ensures kept { Keeps (T.holds terms.old) (T.means terms.old) (T.holds terms.new) (T.means terms.new) }
{
    // The number tells that the contexts are as short as those of metavariables are.
    let _count = metas.next();
    match metas.decl(g) {
        Some(decl) => {
            let target = unfold_metas(alloc, terms, metas, decl.ty)?;
            let ty = open(alloc, terms, fuel, name, body, target)?;
            let ctx = decl.ctx.as_slice();
            let holes = List::of(Vec::new(alloc));
            restated(alloc, terms, env, metas, fuel, g, ctx, ty, holes)
        }
        None => unreachable!(),
    }
}

/// `unfold a` on an open goal: a new goal, over its context, with its type in which assigned metavariables are unfolded and the definition's
/// body stands in place of each `a`.
pub fn unfold<T: Terms>(
    alloc: Global,
    terms: &mut T,
    env: &Env<T::Handle>,
    metas: &Metas<T::Handle>,
    fuel: &mut Fuel,
    g: u32,
    name: &Name,
) -> Result<Moved<T::Handle>, MoveFault<T::Handle>>
    requires globals { AreGlobalsOf (T.holds terms.old) env.now metas.now }
    requires open { IsOpen metas.now g }
    ensures value { (Δ : Listed (Item Term)) (Σ : Listed (Decl Term)) (d : Decl Term) → AreRead (T.means terms.old) env.now metas.now Δ Σ → slice_get Σ g ≡ Some d → Answers (T.holds terms.new) (T.means terms.new) (plain_moved (T.means terms.new)) (spec.unfold_constant Δ Σ g d name.now fuel.old) fuel.new result }
    ensures held { IfOk result (λ r. All (IsDeclOf (T.holds terms.new)) r.metas) }
    ensures kept { Keeps (T.holds terms.old) (T.means terms.old) (T.holds terms.new) (T.means terms.new) }
{
    match body_of(env, name) {
        Some(body) => unfold_by(alloc, terms, env, metas, fuel, g, name, body),
        None => {
            let name = name.copy(alloc)?;
            Err(MoveFault::NotDefined { name })
        }
    }
}
