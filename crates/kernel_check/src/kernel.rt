ghost use Rattle.std.specs.Prelude.{◌≡◌, ◌<◌, ◌≤◌, IfErr, IfOk, length, map};
ghost use Rattle.ld_rules.specs.Derivation.{Derives};
ghost use Rattle.ld_rules.specs.Legality.{IsLegal};
ghost use Rattle.ld_rules.specs.Scoping.{IsScoped};
ghost use Rattle.ld_terms.specs.Views.{Keeps};
ghost use Rattle.conversion.specs.Globals.{env_of, context_of, AreGlobalsOf, AreLocals};
ghost use Rattle.kernel_check.specs.Inference as tree;
ghost use Rattle.kernel_check.specs.Answers.{Answers, sort_term};
ghost use Rattle.kernel_check.specs.ScopedFaults.{FaultIsShown};

use crate::fault::KernelFault;
use crate::inference::{infer_in, sort_of};
use ld_terms::{Fuel, Globals, Local, Terms};
use std::alloc::{AllocError, Global};

/// Infers the type of a term in a context, the first entry first. Names of entries play no part. Older handles keep their meaning.
///
/// A refusal says why there is no type, with terms of the store, and leaves the units that the definition leaves. It is
/// [`KernelFault::Fuel`] exactly where a unit is wanted and none is left, and the fuel is then 0. Want of memory may come at any
/// time; a context of 999,999,000 entries or an index above 4,294,967,295, which the call would have to form, count as that.
///
/// Where the environment and the context are legal, the type is derived and scoped; and if the term is scoped too, the terms of a
/// refusal are scoped at its depth, which is at least the context's length and exceeds it by less than the depth of the term.
pub fn infer<T: Terms, G: Globals<T::Handle>>(
    alloc: Global,
    terms: &mut T,
    globals: &G,
    fuel: &mut Fuel,
    ctx: &[Local<T::Handle>],
    h: T::Handle,
) -> Result<T::Handle, KernelFault<T::Handle>>
    requires term { T.holds terms.old h }
    requires globals { AreGlobalsOf (T.holds terms.old) (G.items globals.now) (G.metas globals.now) }
    requires context { AreLocals (T.holds terms.old) ctx.now }
    requires room { length ctx.now < 999999000 }
    ensures value { Answers (T.holds terms.new) (T.means terms.new) (T.means terms.new) (tree.infer (env_of (T.means terms.old) (G.items globals.now) (G.metas globals.now)) (context_of (T.means terms.old) ctx.now) (T.means terms.old h) fuel.old) fuel.new result }
    ensures derived { IsLegal (env_of (T.means terms.old) (G.items globals.now) (G.metas globals.now)) (context_of (T.means terms.old) ctx.now) → IfOk result (λ r. Derives (env_of (T.means terms.old) (G.items globals.now) (G.metas globals.now)) (context_of (T.means terms.old) ctx.now) (T.means terms.old h) (T.means terms.new r)) }
    ensures scoped { IsLegal (env_of (T.means terms.old) (G.items globals.now) (G.metas globals.now)) (context_of (T.means terms.old) ctx.now) → IfOk result (λ r. IsScoped (env_of (T.means terms.old) (G.items globals.now) (G.metas globals.now)) (context_of (T.means terms.old) ctx.now) (T.means terms.new r)) }
    ensures shown { IsLegal (env_of (T.means terms.old) (G.items globals.now) (G.metas globals.now)) (context_of (T.means terms.old) ctx.now) → IsScoped (env_of (T.means terms.old) (G.items globals.now) (G.metas globals.now)) (context_of (T.means terms.old) ctx.now) (T.means terms.old h) → IfErr result (FaultIsShown (T.means terms.new) (env_of (T.means terms.old) (G.items globals.now) (G.metas globals.now)) (context_of (T.means terms.old) ctx.now) (T.means terms.old h)) }
    ensures held { IfOk result (λ r. T.holds terms.new r) }
    ensures less { fuel.new ≤ fuel.old }
    ensures kept { Keeps (T.holds terms.old) (T.means terms.old) (T.holds terms.new) (T.means terms.new) }
{
    let mut types = types_of(alloc, ctx)?;
    infer_in(alloc, terms, globals, fuel, &mut types, h)
}

/// Infers the sort of a term in a context, the first entry first: a handle of `*` or `□`. Names of entries play no part. Older
/// handles keep their meaning.
///
/// A refusal says why there is no sort, with terms of the store, and leaves the units that the definition leaves. Fuel and want of
/// memory are as in [`infer`], and so is what holds where the environment and the context are legal.
pub fn infer_sort<T: Terms, G: Globals<T::Handle>>(
    alloc: Global,
    terms: &mut T,
    globals: &G,
    fuel: &mut Fuel,
    ctx: &[Local<T::Handle>],
    h: T::Handle,
) -> Result<T::Handle, KernelFault<T::Handle>>
    requires term { T.holds terms.old h }
    requires globals { AreGlobalsOf (T.holds terms.old) (G.items globals.now) (G.metas globals.now) }
    requires context { AreLocals (T.holds terms.old) ctx.now }
    requires room { length ctx.now < 999999000 }
    ensures value { Answers (T.holds terms.new) (T.means terms.new) (T.means terms.new) (sort_term (env_of (T.means terms.old) (G.items globals.now) (G.metas globals.now)) (context_of (T.means terms.old) ctx.now) (T.means terms.old h) fuel.old) fuel.new result }
    ensures derived { IsLegal (env_of (T.means terms.old) (G.items globals.now) (G.metas globals.now)) (context_of (T.means terms.old) ctx.now) → IfOk result (λ r. Derives (env_of (T.means terms.old) (G.items globals.now) (G.metas globals.now)) (context_of (T.means terms.old) ctx.now) (T.means terms.old h) (T.means terms.new r)) }
    ensures scoped { IsLegal (env_of (T.means terms.old) (G.items globals.now) (G.metas globals.now)) (context_of (T.means terms.old) ctx.now) → IfOk result (λ r. IsScoped (env_of (T.means terms.old) (G.items globals.now) (G.metas globals.now)) (context_of (T.means terms.old) ctx.now) (T.means terms.new r)) }
    ensures shown { IsLegal (env_of (T.means terms.old) (G.items globals.now) (G.metas globals.now)) (context_of (T.means terms.old) ctx.now) → IsScoped (env_of (T.means terms.old) (G.items globals.now) (G.metas globals.now)) (context_of (T.means terms.old) ctx.now) (T.means terms.old h) → IfErr result (FaultIsShown (T.means terms.new) (env_of (T.means terms.old) (G.items globals.now) (G.metas globals.now)) (context_of (T.means terms.old) ctx.now) (T.means terms.old h)) }
    ensures held { IfOk result (λ r. T.holds terms.new r) }
    ensures less { fuel.new ≤ fuel.old }
    ensures kept { Keeps (T.holds terms.old) (T.means terms.old) (T.holds terms.new) (T.means terms.new) }
{
    let mut types = types_of(alloc, ctx)?;
    sort_of(alloc, terms, globals, fuel, &mut types, h)
}

/// The types of a context's entries. Fails for want of memory alone.
fn types_of<H: Copy>(alloc: Global, ctx: &[Local<H>]) -> Result<Vec<H>, AllocError>
    ensures { IfOk result (λ v. v.items ≡ map (λ l. l.ty) ctx.now) }
{
    let mut types = Vec::new(alloc);
    for local in ctx {
        types.push(local.ty)?;
    }
    Ok(types)
}
