//! The three calls of elaboration.

ghost use Rattle.std.specs.Prelude.{◌≡◌, ◌≤◌, [], All, IfOk, ℕ, List as Listed};
ghost use Rattle.ld_trees.specs.Term.{Term, ◌▹◌};
ghost use Rattle.ld_rules.specs.Scoping.{IsScoped};
ghost use Rattle.ld_terms.specs.Views.{Keeps};
ghost use Rattle.ld_terms.specs.declared.globals.Decl.{Decl};
ghost use Rattle.ld_terms.specs.declared.globals.Item.{Item};
ghost use Rattle.ld_terms.specs.declared.globals.Local.{Local};
ghost use Rattle.term_syntax.specs.ReadsBack.{IsContext};
ghost use Rattle.conversion.specs.Globals.{AreGlobalsOf, AreLocals, IsDeclOf};
ghost use Rattle.meta_context.specs.Entered.{names_of};
ghost use Rattle.meta_context.specs.Plain.{plain_locals, rules_ctx, rules_env};
ghost use Rattle.unification.specs.Metavariables.{reach};
ghost use Rattle.elaboration.specs.Elaboration as spec;
ghost use Rattle.elaboration.specs.Laws.{MaySetOut, IsElaborated};
ghost use Rattle.pattern_unify.specs.Answers.{AreRead};
ghost use Rattle.elaborate.specs.Answers.{Answers, plain_made};
ghost use Rattle.elaborate.specs.Standing.{IsWantIn, plain_want};

use crate::fault::ElabFault;
use crate::made::Made;
use crate::standing::{Here, Typed, Want, Work};
use crate::walk::elaborate;
use ld_terms::{Fuel, List, Local, Name, Terms};
use meta_context::{Env, Metas};
use std::alloc::{AllocError, Global};
use term_text::Surface;

/// The names of entries. Fails for want of memory alone.
fn names_in<H>(alloc: Global, ctx: &[Local<H>]) -> Result<Vec<Name>, AllocError>
    ensures { IfOk result (λ v. v.items ≡ names_of ctx.now) }
{
    let mut names = Vec::new(alloc);
    for entry in ctx {
        names.push(entry.name.copy(alloc)?)?;
    }
    Ok(names)
}

/// Before anything is elaborated: these metavariables, and no hole.
fn started<H: Copy>(alloc: Global, metas: &Metas<H>) -> Result<Work<H>, AllocError>
    ensures metas { IfOk result (λ w. w.metas ≡ metas.now) }
    ensures goals { IfOk result (λ w. w.goals ≡ []) }
    ensures holes { IfOk result (λ w. w.holes ≡ []) }
{
    Ok(Work {
        metas: metas.fork(alloc)?,
        goals: List::of(Vec::new(alloc)),
        holes: List::of(Vec::new(alloc)),
    })
}

/// What is elaborated, in a struct of its own.
fn made<H: Copy>(typed: Typed<H>) -> Made<H>
    ensures metas { result.metas ≡ typed.work.metas }
    ensures goals { result.goals ≡ typed.work.goals }
    ensures holes { result.holes ≡ typed.work.holes }
    ensures term { result.term ≡ typed.term }
    ensures ty { result.ty ≡ typed.ty }
{
    let Typed { work, term, ty } = typed;
    let Work {
        metas,
        goals,
        holes,
    } = work;
    Made {
        metas,
        term,
        ty,
        goals,
        holes,
    }
}

/// Elaborates a text, of which that is wanted, in a context.
fn elaborated<T: Terms>(
    alloc: Global,
    terms: &mut T,
    env: &Env<T::Handle>,
    metas: &Metas<T::Handle>,
    fuel: &mut Fuel,
    ctx: &[Local<T::Handle>],
    surface: &Surface,
    want: Want<T::Handle>,
) -> Result<Made<T::Handle>, ElabFault<T::Handle>>
    requires globals { AreGlobalsOf (T.holds terms.old) env.now metas.now }
    requires context { AreLocals (T.holds terms.old) ctx.now }
    requires names { IsContext (names_of ctx.now) }
    requires want { IsWantIn (T.holds terms.old) want }
    ensures value { (Δ : Listed (Item Term)) (Σ : Listed (Decl Term)) (Γ : Listed (Local Term)) (W : spec.Want) → AreRead (T.means terms.old) env.now metas.now Δ Σ → plain_locals (T.means terms.old) ctx.now ≡ Γ → plain_want (T.means terms.old) want ≡ W → Answers (T.holds terms.new) (T.means terms.new) (plain_made (T.means terms.new)) (spec.elaborate Δ surface.now W (spec.started Δ Σ) (spec.standing Δ Γ) fuel.old) fuel.new result }
    ensures held { IfOk result (λ r. All (IsDeclOf (T.holds terms.new)) r.metas × T.holds terms.new r.term × T.holds terms.new r.ty) }
    ensures less { fuel.new ≤ fuel.old }
    ensures kept { Keeps (T.holds terms.old) (T.means terms.old) (T.holds terms.new) (T.means terms.new) }
{
    let names = names_in(alloc, ctx)?;
    let bound = Vec::new(alloc);
    let here = Here {
        outer: &names,
        bound: &bound,
        entries: ctx,
    };
    let work = started(alloc, metas)?;
    let typed = elaborate(alloc, terms, env, fuel, want, work, &here, surface)?;
    Ok(made(typed))
}

/// Elaborates a text in a context, the first entry first: a term with its type. Older handles keep their meaning, and the given
/// metavariables stay as they were.
///
/// # Errors
///
/// See [`ElabFault`]: the refusal of the definition, which leaves the units that it leaves; want of fuel, after which no unit is left; want
/// of memory, which may come at any time.
pub fn synth<T: Terms>(
    alloc: Global,
    terms: &mut T,
    env: &Env<T::Handle>,
    metas: &Metas<T::Handle>,
    fuel: &mut Fuel,
    ctx: &[Local<T::Handle>],
    surface: &Surface,
) -> Result<Made<T::Handle>, ElabFault<T::Handle>>
    requires globals { AreGlobalsOf (T.holds terms.old) env.now metas.now }
    requires context { AreLocals (T.holds terms.old) ctx.now }
    requires names { IsContext (names_of ctx.now) }
    ensures value { (Δ : Listed (Item Term)) (Σ : Listed (Decl Term)) (Γ : Listed (Local Term)) → AreRead (T.means terms.old) env.now metas.now Δ Σ → plain_locals (T.means terms.old) ctx.now ≡ Γ → Answers (T.holds terms.new) (T.means terms.new) (plain_made (T.means terms.new)) (spec.synth Δ Σ Γ surface.now fuel.old) fuel.new result }
    ensures elaborated { (Δ : Listed (Item Term)) (Σ : Listed (Decl Term)) (Γ : Listed (Local Term)) → AreRead (T.means terms.old) env.now metas.now Δ Σ → plain_locals (T.means terms.old) ctx.now ≡ Γ → MaySetOut (rules_env Δ) Σ Γ → IfOk result (λ r. IsElaborated (rules_env Δ) Σ Γ (rules_ctx Γ) (plain_made (T.means terms.new) r)) }
    ensures held { IfOk result (λ r. All (IsDeclOf (T.holds terms.new)) r.metas × T.holds terms.new r.term × T.holds terms.new r.ty) }
    ensures less { fuel.new ≤ fuel.old }
    ensures kept { Keeps (T.holds terms.old) (T.means terms.old) (T.holds terms.new) (T.means terms.new) }
{
    let want = Want::Any;
    elaborated(alloc, terms, env, metas, fuel, ctx, surface, want)
}

/// Elaborates a text against a type: a term of that type. The rest is as in [`synth`].
pub fn check<T: Terms>(
    alloc: Global,
    terms: &mut T,
    env: &Env<T::Handle>,
    metas: &Metas<T::Handle>,
    fuel: &mut Fuel,
    ctx: &[Local<T::Handle>],
    surface: &Surface,
    ty: T::Handle,
) -> Result<Made<T::Handle>, ElabFault<T::Handle>>
    requires globals { AreGlobalsOf (T.holds terms.old) env.now metas.now }
    requires context { AreLocals (T.holds terms.old) ctx.now }
    requires names { IsContext (names_of ctx.now) }
    requires ty { T.holds terms.old ty }
    ensures value { (Δ : Listed (Item Term)) (Σ : Listed (Decl Term)) (Γ : Listed (Local Term)) (A : Term) → AreRead (T.means terms.old) env.now metas.now Δ Σ → plain_locals (T.means terms.old) ctx.now ≡ Γ → T.means terms.old ty ≡ A → Answers (T.holds terms.new) (T.means terms.new) (plain_made (T.means terms.new)) (spec.check Δ Σ Γ surface.now A fuel.old) fuel.new result }
    ensures elaborated { (Δ : Listed (Item Term)) (Σ : Listed (Decl Term)) (Γ : Listed (Local Term)) (A : Term) → AreRead (T.means terms.old) env.now metas.now Δ Σ → plain_locals (T.means terms.old) ctx.now ≡ Γ → T.means terms.old ty ≡ A → MaySetOut (rules_env Δ) Σ Γ → IsScoped (reach (rules_env Δ) Σ) (rules_ctx Γ) A → IfOk result (λ r. IsElaborated (rules_env Δ) Σ Γ (rules_ctx Γ ▹ A) (plain_made (T.means terms.new) r)) }
    ensures held { IfOk result (λ r. All (IsDeclOf (T.holds terms.new)) r.metas × T.holds terms.new r.term × T.holds terms.new r.ty) }
    ensures less { fuel.new ≤ fuel.old }
    ensures kept { Keeps (T.holds terms.old) (T.means terms.old) (T.holds terms.new) (T.means terms.new) }
{
    let want = Want::Of(ty);
    elaborated(alloc, terms, env, metas, fuel, ctx, surface, want)
}

/// Elaborates a text as a type: a type with its sort, which stands in the place of its type. The rest is as in [`synth`].
pub fn check_type<T: Terms>(
    alloc: Global,
    terms: &mut T,
    env: &Env<T::Handle>,
    metas: &Metas<T::Handle>,
    fuel: &mut Fuel,
    ctx: &[Local<T::Handle>],
    surface: &Surface,
) -> Result<Made<T::Handle>, ElabFault<T::Handle>>
    requires globals { AreGlobalsOf (T.holds terms.old) env.now metas.now }
    requires context { AreLocals (T.holds terms.old) ctx.now }
    requires names { IsContext (names_of ctx.now) }
    ensures value { (Δ : Listed (Item Term)) (Σ : Listed (Decl Term)) (Γ : Listed (Local Term)) → AreRead (T.means terms.old) env.now metas.now Δ Σ → plain_locals (T.means terms.old) ctx.now ≡ Γ → Answers (T.holds terms.new) (T.means terms.new) (plain_made (T.means terms.new)) (spec.check_type Δ Σ Γ surface.now fuel.old) fuel.new result }
    ensures elaborated { (Δ : Listed (Item Term)) (Σ : Listed (Decl Term)) (Γ : Listed (Local Term)) → AreRead (T.means terms.old) env.now metas.now Δ Σ → plain_locals (T.means terms.old) ctx.now ≡ Γ → MaySetOut (rules_env Δ) Σ Γ → IfOk result (λ r. IsElaborated (rules_env Δ) Σ Γ (rules_ctx Γ) (plain_made (T.means terms.new) r)) }
    ensures held { IfOk result (λ r. All (IsDeclOf (T.holds terms.new)) r.metas × T.holds terms.new r.term × T.holds terms.new r.ty) }
    ensures less { fuel.new ≤ fuel.old }
    ensures kept { Keeps (T.holds terms.old) (T.means terms.old) (T.holds terms.new) (T.means terms.new) }
{
    let want = Want::AsType;
    elaborated(alloc, terms, env, metas, fuel, ctx, surface, want)
}
