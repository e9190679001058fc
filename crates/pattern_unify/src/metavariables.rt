//! Extending a context, declaring a metavariable, and giving one a value.

ghost use Rattle.std.specs.Prelude.{◌≡◌, ◌≤◌, ◌<◌, ◌++◌, ◌∷◌, [], All, IfOk, ℕ, List as Listed, length};
ghost use Rattle.ld_trees.specs.Term.{Term};
ghost use Rattle.ld_terms.specs.Names.{IsEntryName};
ghost use Rattle.ld_terms.specs.Views.{Keeps};
ghost use Rattle.ld_terms.specs.declared.globals.Decl.{Decl};
ghost use Rattle.ld_terms.specs.declared.globals.Item.{Item};
ghost use Rattle.ld_terms.specs.declared.globals.Local.{Local};
ghost use Rattle.term_syntax.specs.ReadsBack.{IsContext};
ghost use Rattle.conversion.specs.Globals.{AreGlobalsOf, AreLocals, IsDeclOf};
ghost use Rattle.kernel_check.specs.Inference.{infer};
ghost use Rattle.meta_context.specs.Declaring.{declared};
ghost use Rattle.meta_context.specs.Entered.{names_of};
ghost use Rattle.meta_context.specs.Plain.{plain_locals, rules_ctx, rules_env};
ghost use Rattle.goal_state.specs.State.{plain_metas};
ghost use Rattle.unification.specs.Metavariables as spec;
ghost use Rattle.unification.specs.Refusals.{kernel_step};
ghost use Rattle.pattern_unify.specs.Answers.{Answers, AreRead, metas_first};

use crate::fault::UnifyFault;
use crate::spots::is_open;
use kernel_check::{infer, infer_sort};
use ld_terms::{Fuel, List, Local, Name, Terms};
use meta_context::{Both, Env, Metas, assign, declare, depends};
use std::alloc::{AllocError, Global};

/// The most entries of a context.
const MOST_ENTRIES: usize = 999_998_999;

/// Sees that a term has a sort in a context.
fn find_sort<T: Terms>(
    alloc: Global,
    terms: &mut T,
    env: &Env<T::Handle>,
    metas: &Metas<T::Handle>,
    fuel: &mut Fuel,
    ctx: &[Local<T::Handle>],
    h: T::Handle,
) -> Result<(), UnifyFault<T::Handle>>
    requires globals { AreGlobalsOf (T.holds terms.old) env.now metas.now }
    requires context { AreLocals (T.holds terms.old) ctx.now }
    requires room { length ctx.now < 999999000 }
    requires term { T.holds terms.old h }
    ensures value { (Δ : Listed (Item Term)) (Σ : Listed (Decl Term)) (Γ : Listed (Local Term)) (t : Term) → AreRead (T.means terms.old) env.now metas.now Δ Σ → plain_locals (T.means terms.old) ctx.now ≡ Γ → T.means terms.old h ≡ t → Answers (T.holds terms.new) (T.means terms.new) (λ u. u) (spec.sorted (rules_env Δ) Σ Γ t fuel.old) fuel.new result }
    ensures less { fuel.new ≤ fuel.old }
    ensures kept { Keeps (T.holds terms.old) (T.means terms.old) (T.holds terms.new) (T.means terms.new) }
{
    let globals = Both { env, metas };
    infer_sort(alloc, terms, &globals, fuel, ctx, h)?;
    Ok(())
}

/// The same entry once more. Fails for want of memory alone.
fn copy_of<H: Copy>(alloc: Global, entry: &Local<H>) -> Result<Local<H>, AllocError>
    ensures { IfOk result (λ l. l ≡ entry.now) }
{
    let name = entry.name.copy(alloc)?;
    Ok(Local { name, ty: entry.ty })
}

/// The same entries once more. Fails for want of memory alone.
fn copied<H: Copy>(alloc: Global, ctx: &[Local<H>]) -> Result<Vec<Local<H>>, AllocError>
    ensures { IfOk result (λ v. v.items ≡ ctx.now) }
{
    let mut entries = Vec::new(alloc);
    for entry in ctx {
        entries.push(copy_of(alloc, entry)?)?;
    }
    Ok(entries)
}

/// The context with one more entry. Fails for want of memory, and where there would be 999,999,000 entries.
fn with_entry<H: Copy>(
    alloc: Global,
    ctx: &[Local<H>],
    name: &Name,
    ty: H,
) -> Result<List<Local<H>>, AllocError>
    requires named { IsEntryName (length ctx.now) name.now }
    requires names { IsContext (names_of ctx.now) }
    ensures entries { IfOk result (λ l. l ≡ ctx.now ++ record { name = name.now; ty = ty } ∷ []) }
    ensures names { IfOk result (λ l. IsContext (names_of l)) }
{
    if ctx.len() >= MOST_ENTRIES {
        return Err(AllocError);
    }
    let mut entries = copied(alloc, ctx)?;
    let name = name.copy(alloc)?;
    entries.push(Local { name, ty })?;
    Ok(List::of(entries))
}

/// The context extended by an entry of a type that has a sort. The name is one of the texts, or the level name of the entry's own level.
pub fn extend<T: Terms>(
    alloc: Global,
    terms: &mut T,
    env: &Env<T::Handle>,
    metas: &Metas<T::Handle>,
    fuel: &mut Fuel,
    ctx: &[Local<T::Handle>],
    name: &Name,
    ty: T::Handle,
) -> Result<List<Local<T::Handle>>, UnifyFault<T::Handle>>
    requires globals { AreGlobalsOf (T.holds terms.old) env.now metas.now }
    requires context { AreLocals (T.holds terms.old) ctx.now }
    requires names { IsContext (names_of ctx.now) }
    requires named { IsEntryName (length ctx.now) name.now }
    requires ty { T.holds terms.old ty }
    ensures value { (Δ : Listed (Item Term)) (Σ : Listed (Decl Term)) (Γ : Listed (Local Term)) (A : Term) → AreRead (T.means terms.old) env.now metas.now Δ Σ → plain_locals (T.means terms.old) ctx.now ≡ Γ → T.means terms.old ty ≡ A → Answers (T.holds terms.new) (T.means terms.new) (plain_locals (T.means terms.new)) (spec.extended (rules_env Δ) Σ Γ name.now A fuel.old) fuel.new result }
    ensures entries { IfOk result (λ l. l ≡ ctx.now ++ record { name = name.now; ty = ty } ∷ []) }
    ensures held { IfOk result (AreLocals (T.holds terms.new)) }
    ensures names { IfOk result (λ l. IsContext (names_of l)) }
    ensures less { fuel.new ≤ fuel.old }
    ensures kept { Keeps (T.holds terms.old) (T.means terms.old) (T.holds terms.new) (T.means terms.new) }
{
    find_sort(alloc, terms, env, metas, fuel, ctx, ty)?;
    Ok(with_entry(alloc, ctx, name, ty)?)
}

/// The metavariables with one more, over a context with a type that has a sort, and its number.
pub fn declare_in<T: Terms>(
    alloc: Global,
    terms: &mut T,
    env: &Env<T::Handle>,
    metas: &Metas<T::Handle>,
    fuel: &mut Fuel,
    ctx: &[Local<T::Handle>],
    ty: T::Handle,
) -> Result<(Metas<T::Handle>, u32), UnifyFault<T::Handle>>
    requires globals { AreGlobalsOf (T.holds terms.old) env.now metas.now }
    requires context { AreLocals (T.holds terms.old) ctx.now }
    requires names { IsContext (names_of ctx.now) }
    requires ty { T.holds terms.old ty }
    ensures value { (Δ : Listed (Item Term)) (Σ : Listed (Decl Term)) (Γ : Listed (Local Term)) (A : Term) → AreRead (T.means terms.old) env.now metas.now Δ Σ → plain_locals (T.means terms.old) ctx.now ≡ Γ → T.means terms.old ty ≡ A → Answers (T.holds terms.new) (T.means terms.new) (metas_first (T.means terms.new)) (spec.declared (rules_env Δ) Σ Γ A fuel.old) fuel.new result }
    ensures more { IfOk result (λ r. r.0 ≡ declared ctx.now ty metas.now) }
    ensures number { IfOk result (λ r. r.1 ≡ length metas.now) }
    ensures held { IfOk result (λ r. All (IsDeclOf (T.holds terms.new)) r.0) }
    ensures less { fuel.new ≤ fuel.old }
    ensures kept { Keeps (T.holds terms.old) (T.means terms.old) (T.holds terms.new) (T.means terms.new) }
{
    let (more, number) = declare(alloc, metas, terms, ctx, ty)?;
    find_sort(alloc, terms, env, metas, fuel, ctx, ty)?;
    Ok((more, number))
}

/// The type of a term in a context.
pub fn find_type<T: Terms>(
    alloc: Global,
    terms: &mut T,
    env: &Env<T::Handle>,
    metas: &Metas<T::Handle>,
    fuel: &mut Fuel,
    ctx: &[Local<T::Handle>],
    h: T::Handle,
) -> Result<T::Handle, UnifyFault<T::Handle>>
    requires globals { AreGlobalsOf (T.holds terms.old) env.now metas.now }
    requires context { AreLocals (T.holds terms.old) ctx.now }
    requires room { length ctx.now < 999999000 }
    requires term { T.holds terms.old h }
    ensures value { (Δ : Listed (Item Term)) (Σ : Listed (Decl Term)) (Γ : Listed (Local Term)) (t : Term) → AreRead (T.means terms.old) env.now metas.now Δ Σ → plain_locals (T.means terms.old) ctx.now ≡ Γ → T.means terms.old h ≡ t → Answers (T.holds terms.new) (T.means terms.new) (T.means terms.new) (kernel_step (infer (spec.reach (rules_env Δ) Σ) (rules_ctx Γ) t) fuel.old) fuel.new result }
    ensures held { IfOk result (T.holds terms.new) }
    ensures less { fuel.new ≤ fuel.old }
    ensures kept { Keeps (T.holds terms.old) (T.means terms.old) (T.holds terms.new) (T.means terms.new) }
{
    let globals = Both { env, metas };
    Ok(infer(alloc, terms, &globals, fuel, ctx, h)?)
}

/// The metavariables in which an open one has a value that doesn't depend on it and isn't too deep. Spends nothing.
pub fn give_value<T: Terms>(
    alloc: Global,
    terms: &T,
    metas: &Metas<T::Handle>,
    m: u32,
    value: T::Handle,
) -> Result<Metas<T::Handle>, UnifyFault<T::Handle>>
    requires held { All (IsDeclOf (T.holds terms.now)) metas.now }
    requires value { T.holds terms.now value }
    ensures value { (Σ : Listed (Decl Term)) (v : Term) (n : ℕ) → plain_metas (T.means terms.now) metas.now ≡ Σ → T.means terms.now value ≡ v → Answers (T.holds terms.now) (T.means terms.now) (plain_metas (T.means terms.now)) (spec.assigned Σ m v n) n result }
    ensures held { IfOk result (All (IsDeclOf (T.holds terms.now))) }
{
    if !is_open(metas, m) {
        return Err(UnifyFault::Cycle { m });
    }
    if depends(alloc, terms, metas, value, m)? {
        return Err(UnifyFault::Cycle { m });
    }
    Ok(assign(alloc, metas, terms, m, value)?)
}
