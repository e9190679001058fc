//! The types of constants and metavariables: those of their items, with the arguments put in.

ghost use Rattle.std.specs.Prelude.{◌≡◌, ◌<◌, ◌≤◌, All, IfOk, OnOk, map, length, vec_len};
ghost use Rattle.ld_trees.specs.Term.{Term, Terms, Head, Con};
ghost use Rattle.ld_rules.specs.Environment.{Ctx, Env};
ghost use Rattle.ld_terms.specs.Views.{Keeps, terms_of};
ghost use Rattle.conversion.specs.Globals.{AreGlobalsOf, AreLocals, context_of};
ghost use Rattle.kernel_check.specs.Inference as tree;
ghost use Rattle.kernel_check.specs.Answers.{Answers};
ghost use Rattle.kernel_check.specs.Steps.{IsRead, instance_type};

use crate::fault::KernelFault;
use crate::inference::infer_in;
use crate::signature::{arguments_of, signature_of};
use crate::types::fit;
use ld_terms::{Fuel, Globals, Local, Terms, subst_all};
use std::alloc::Global;

/// Infers the type of a constant or a metavariable.
#[cycle(inferring)]
pub fn infer_item<T: Terms, G: Globals<T::Handle>>(
    alloc: Global,
    terms: &mut T,
    globals: &G,
    fuel: &mut Fuel,
    types: &mut Vec<T::Handle>,
    h: T::Handle,
) -> Result<T::Handle, KernelFault<T::Handle>>
    requires term { T.holds terms.old h }
    requires globals { AreGlobalsOf (T.holds terms.old) (G.items globals.now) (G.metas globals.now) }
    requires types { All (T.holds terms.old) types.old.items }
    requires room { vec_len types.old < 999999000 }
    ensures value { (Δ : Env) (Γ : Ctx) (c : Head) (us : Terms) → IsRead (T.means terms.old) (G.items globals.now) (G.metas globals.now) types.old.items Δ Γ → T.means terms.old h ≡ Con c us → Answers (T.holds terms.new) (T.means terms.new) (T.means terms.new) (tree.infer_case Δ (tree.infer Δ) Γ (Con c us) fuel.old) fuel.new result }
    ensures held { IfOk result (λ r. T.holds terms.new r) }
    ensures less { fuel.new ≤ fuel.old }
    ensures kept { Keeps (T.holds terms.old) (T.means terms.old) (T.holds terms.new) (T.means terms.new) }
    ensures same { OnOk result (types.new.items ≡ types.old.items) }
{
    let args = arguments_of(alloc, terms, h)?;
    match signature_of(terms, globals, h) {
        Some(signature) => infer_instance(
            alloc,
            terms,
            globals,
            fuel,
            types,
            h,
            &args,
            signature.0,
            signature.1,
        ),
        None => Err(KernelFault::NotType {
            depth: types.len() as u32,
            term: h,
        }),
    }
}

/// Infers the type of a constant or a metavariable, which has these parameters and this type.
#[cycle(inferring)]
fn infer_instance<T: Terms, G: Globals<T::Handle>>(
    alloc: Global,
    terms: &mut T,
    globals: &G,
    fuel: &mut Fuel,
    types: &mut Vec<T::Handle>,
    h: T::Handle,
    args: &[T::Handle],
    params: &[Local<T::Handle>],
    ty: T::Handle,
) -> Result<T::Handle, KernelFault<T::Handle>>
    requires term { T.holds terms.old h }
    requires args { All (T.holds terms.old) args.now }
    requires params { AreLocals (T.holds terms.old) params.now }
    requires ty { T.holds terms.old ty }
    requires globals { AreGlobalsOf (T.holds terms.old) (G.items globals.now) (G.metas globals.now) }
    requires types { All (T.holds terms.old) types.old.items }
    requires room { vec_len types.old < 999999000 }
    ensures value { (Δ : Env) (Γ : Ctx) (c : Head) (us : Terms) (ps : Ctx) (S : Term) → IsRead (T.means terms.old) (G.items globals.now) (G.metas globals.now) types.old.items Δ Γ → T.means terms.old h ≡ Con c us → terms_of (map (T.means terms.old) args.now) ≡ us → context_of (T.means terms.old) params.now ≡ ps → T.means terms.old ty ≡ S → Answers (T.holds terms.new) (T.means terms.new) (T.means terms.new) (instance_type Δ Γ c us ps S fuel.old) fuel.new result }
    ensures held { IfOk result (λ r. T.holds terms.new r) }
    ensures less { fuel.new ≤ fuel.old }
    ensures kept { Keeps (T.holds terms.old) (T.means terms.old) (T.holds terms.new) (T.means terms.new) }
    ensures same { OnOk result (types.new.items ≡ types.old.items) }
{
    if args.len() != params.len() {
        return Err(KernelFault::NotType {
            depth: types.len() as u32,
            term: h,
        });
    }
    infer_arguments(alloc, terms, globals, fuel, types, args, params)?;
    Ok(subst_all(alloc, terms, ty, args)?)
}

/// Converts the type of each argument with that of its parameter, with the earlier arguments put in.
#[cycle(inferring)]
fn infer_arguments<T: Terms, G: Globals<T::Handle>>(
    alloc: Global,
    terms: &mut T,
    globals: &G,
    fuel: &mut Fuel,
    types: &mut Vec<T::Handle>,
    args: &[T::Handle],
    params: &[Local<T::Handle>],
) -> Result<(), KernelFault<T::Handle>>
    requires args { All (T.holds terms.old) args.now }
    requires params { AreLocals (T.holds terms.old) params.now }
    requires count { length args.now ≡ length params.now }
    requires globals { AreGlobalsOf (T.holds terms.old) (G.items globals.now) (G.metas globals.now) }
    requires types { All (T.holds terms.old) types.old.items }
    requires room { vec_len types.old < 999999000 }
    ensures value { (Δ : Env) (Γ : Ctx) (us : Terms) (ps : Ctx) → IsRead (T.means terms.old) (G.items globals.now) (G.metas globals.now) types.old.items Δ Γ → terms_of (map (T.means terms.old) args.now) ≡ us → context_of (T.means terms.old) params.now ≡ ps → Answers (T.holds terms.new) (T.means terms.new) (λ _. tt) (tree.infer_all Δ (tree.infer Δ) Γ us ps fuel.old) fuel.new result }
    ensures less { fuel.new ≤ fuel.old }
    ensures kept { Keeps (T.holds terms.old) (T.means terms.old) (T.holds terms.new) (T.means terms.new) }
    ensures same { OnOk result (types.new.items ≡ types.old.items) }
{
    for k in 0..args.len() {
        let found = infer_in(alloc, terms, globals, fuel, types, args[k])?;
        let wanted = subst_all(alloc, terms, params[k].ty, &args[..k])?;
        fit(
            alloc,
            terms,
            globals,
            fuel,
            types.len() as u32,
            found,
            wanted,
        )?;
    }
    Ok(())
}
