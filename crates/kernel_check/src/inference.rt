//! The types of terms, by one recursion over a term and its context, and the sorts of types.

ghost use Rattle.std.specs.Prelude.{◌≡◌, ◌<◌, ◌≤◌, All, IfOk, OnOk, vec_len};
ghost use Rattle.ld_trees.specs.Term.{Term, App, Lam, Pi, ◌▹◌};
ghost use Rattle.ld_rules.specs.Environment.{Ctx, Env};
ghost use Rattle.ld_terms.specs.Views.{Keeps};
ghost use Rattle.conversion.specs.Globals.{AreGlobalsOf};
ghost use Rattle.kernel_check.specs.Inference as tree;
ghost use Rattle.kernel_check.specs.Answers.{Answers, sort_term};
ghost use Rattle.conversion.specs.Runs.{Gave};
ghost use Rattle.conversion.specs.Spines.{BothHeld};
ghost use Rattle.kernel_check.specs.Steps.{IsRead, along, applied_type, pair_trees, reduct_checked};

use crate::fault::{KernelFault, or_refuse};
use crate::instances::infer_item;
use crate::spines::spine_of;
use crate::types::{as_product, entry_type, fit, form_of, is_square, put_in, sort_in};
use ld_terms::{Fuel, Globals, Terms, View};
use std::alloc::Global;

/// The most entries of a context.
const MOST_ENTRIES: usize = 999_998_999;

/// Infers the type of a term in the context of these types.
#[cycle(inferring)]
pub fn infer_in<T: Terms, G: Globals<T::Handle>>(
    alloc: Global,
    terms: &mut T,
    globals: &G,
    fuel: &mut Fuel,
    types: &mut Vec<T::Handle>,
    h: T::Handle,
) -> Result<T::Handle, KernelFault<T::Handle>>
    requires term { T.holds terms.old h }
    requires globals { AreGlobalsOf (T.holds terms.old) (G.items globals.now) (G.metas globals.now) }
    requires types { All (T.holds terms.old) types.old.items }
    requires room { vec_len types.old < 999999000 }
    ensures value { (Δ : Env) (Γ : Ctx) (t : Term) → IsRead (T.means terms.old) (G.items globals.now) (G.metas globals.now) types.old.items Δ Γ → T.means terms.old h ≡ t → Answers (T.holds terms.new) (T.means terms.new) (T.means terms.new) (tree.infer Δ Γ t fuel.old) fuel.new result }
    ensures held { IfOk result (λ r. T.holds terms.new r) }
    ensures less { fuel.new ≤ fuel.old }
    ensures kept { Keeps (T.holds terms.old) (T.means terms.old) (T.holds terms.new) (T.means terms.new) }
    ensures same { OnOk result (types.new.items ≡ types.old.items) }
{
    if !fuel.spend() {
        return Err(KernelFault::Fuel);
    }
    match terms.node(h) {
        View::Star => Ok(terms.make(alloc, View::Square)?),
        View::Square => Err(KernelFault::NotType {
            depth: types.len() as u32,
            term: h,
        }),
        View::Var(i) => entry_type(alloc, terms, types, i, h),
        View::App(f, a) => infer_application(alloc, terms, globals, fuel, types, f, a),
        View::Lam(a, m) => infer_abstraction(alloc, terms, globals, fuel, types, a, m),
        View::Pi(a, b) => infer_product(alloc, terms, globals, fuel, types, a, b),
        View::Const(_, _) => infer_item(alloc, terms, globals, fuel, types, h),
        View::Meta(_, _) => infer_item(alloc, terms, globals, fuel, types, h),
    }
}

/// Infers the sort of a term.
#[cycle(inferring)]
pub fn sort_of<T: Terms, G: Globals<T::Handle>>(
    alloc: Global,
    terms: &mut T,
    globals: &G,
    fuel: &mut Fuel,
    types: &mut Vec<T::Handle>,
    h: T::Handle,
) -> Result<T::Handle, KernelFault<T::Handle>>
    requires term { T.holds terms.old h }
    requires globals { AreGlobalsOf (T.holds terms.old) (G.items globals.now) (G.metas globals.now) }
    requires types { All (T.holds terms.old) types.old.items }
    requires room { vec_len types.old < 999999000 }
    ensures value { (Δ : Env) (Γ : Ctx) (t : Term) → IsRead (T.means terms.old) (G.items globals.now) (G.metas globals.now) types.old.items Δ Γ → T.means terms.old h ≡ t → Answers (T.holds terms.new) (T.means terms.new) (T.means terms.new) (sort_term Δ Γ t fuel.old) fuel.new result }
    ensures held { IfOk result (λ r. T.holds terms.new r) }
    ensures less { fuel.new ≤ fuel.old }
    ensures kept { Keeps (T.holds terms.old) (T.means terms.old) (T.holds terms.new) (T.means terms.new) }
    ensures same { OnOk result (types.new.items ≡ types.old.items) }
{
    let found = infer_in(alloc, terms, globals, fuel, types, h)?;
    sort_in(alloc, terms, globals, fuel, types.len() as u32, h, found)
}

/// Infers the type of a term in the context with one more entry.
#[cycle(inferring)]
fn infer_under<T: Terms, G: Globals<T::Handle>>(
    alloc: Global,
    terms: &mut T,
    globals: &G,
    fuel: &mut Fuel,
    types: &mut Vec<T::Handle>,
    domain: T::Handle,
    body: T::Handle,
) -> Result<T::Handle, KernelFault<T::Handle>>
    requires domain { T.holds terms.old domain }
    requires body { T.holds terms.old body }
    requires globals { AreGlobalsOf (T.holds terms.old) (G.items globals.now) (G.metas globals.now) }
    requires types { All (T.holds terms.old) types.old.items }
    requires room { vec_len types.old < 999999000 }
    ensures value { (Δ : Env) (Γ : Ctx) (A : Term) (M : Term) → IsRead (T.means terms.old) (G.items globals.now) (G.metas globals.now) types.old.items Δ Γ → T.means terms.old domain ≡ A → T.means terms.old body ≡ M → Answers (T.holds terms.new) (T.means terms.new) (T.means terms.new) (tree.infer Δ (Γ ▹ A) M fuel.old) fuel.new result }
    ensures held { IfOk result (λ r. T.holds terms.new r) }
    ensures less { fuel.new ≤ fuel.old }
    ensures kept { Keeps (T.holds terms.old) (T.means terms.old) (T.holds terms.new) (T.means terms.new) }
    ensures same { OnOk result (types.new.items ≡ types.old.items) }
{
    if types.len() >= MOST_ENTRIES {
        return Err(KernelFault::Memory);
    }
    types.push(domain)?;
    let found = infer_in(alloc, terms, globals, fuel, types, body)?;
    types.pop();
    Ok(found)
}

/// Infers the type of an application: that of the head, and from it that of each application around it.
#[cycle(inferring)]
fn infer_application<T: Terms, G: Globals<T::Handle>>(
    alloc: Global,
    terms: &mut T,
    globals: &G,
    fuel: &mut Fuel,
    types: &mut Vec<T::Handle>,
    f: T::Handle,
    a: T::Handle,
) -> Result<T::Handle, KernelFault<T::Handle>>
    requires function { T.holds terms.old f }
    requires argument { T.holds terms.old a }
    requires globals { AreGlobalsOf (T.holds terms.old) (G.items globals.now) (G.metas globals.now) }
    requires types { All (T.holds terms.old) types.old.items }
    requires room { vec_len types.old < 999999000 }
    ensures value { (Δ : Env) (Γ : Ctx) (F : Term) (A : Term) → IsRead (T.means terms.old) (G.items globals.now) (G.metas globals.now) types.old.items Δ Γ → T.means terms.old f ≡ F → T.means terms.old a ≡ A → Answers (T.holds terms.new) (T.means terms.new) (T.means terms.new) (tree.infer_case Δ (tree.infer Δ) Γ (App F A) fuel.old) fuel.new result }
    ensures held { IfOk result (λ r. T.holds terms.new r) }
    ensures less { fuel.new ≤ fuel.old }
    ensures kept { Keeps (T.holds terms.old) (T.means terms.old) (T.holds terms.new) (T.means terms.new) }
    ensures same { OnOk result (types.new.items ≡ types.old.items) }
{
    let spine = spine_of(alloc, terms, fuel, f, a)?;
    let found = infer_in(alloc, terms, globals, fuel, types, spine.head)?;
    infer_along(alloc, terms, globals, fuel, types, found, spine.waiting)
}

/// Infers the type of a term from that of its head. The last application in the list is next to the head.
#[cycle(inferring)]
fn infer_along<T: Terms, G: Globals<T::Handle>>(
    alloc: Global,
    terms: &mut T,
    globals: &G,
    fuel: &mut Fuel,
    types: &mut Vec<T::Handle>,
    head: T::Handle,
    mut waiting: Vec<(T::Handle, T::Handle)>,
) -> Result<T::Handle, KernelFault<T::Handle>>
    requires head { T.holds terms.old head }
    requires waiting { All (BothHeld (T.holds terms.old)) waiting.items }
    requires globals { AreGlobalsOf (T.holds terms.old) (G.items globals.now) (G.metas globals.now) }
    requires types { All (T.holds terms.old) types.old.items }
    requires room { vec_len types.old < 999999000 }
    ensures value { (Δ : Env) (Γ : Ctx) (F : Term) → IsRead (T.means terms.old) (G.items globals.now) (G.metas globals.now) types.old.items Δ Γ → T.means terms.old head ≡ F → Answers (T.holds terms.new) (T.means terms.new) (T.means terms.new) (along Δ Γ (pair_trees (T.means terms.old) waiting.items) (Gave F fuel.old)) fuel.new result }
    ensures held { IfOk result (λ r. T.holds terms.new r) }
    ensures less { fuel.new ≤ fuel.old }
    ensures kept { Keeps (T.holds terms.old) (T.means terms.old) (T.holds terms.new) (T.means terms.new) }
    ensures same { OnOk result (types.new.items ≡ types.old.items) }
{
    let mut found = head;
    while let Some(pair) = waiting.pop() {
        found = infer_applied(alloc, terms, globals, fuel, types, found, pair.0, pair.1)?;
    }
    Ok(found)
}

/// Infers the type of an application from that of its function.
#[cycle(inferring)]
fn infer_applied<T: Terms, G: Globals<T::Handle>>(
    alloc: Global,
    terms: &mut T,
    globals: &G,
    fuel: &mut Fuel,
    types: &mut Vec<T::Handle>,
    function: T::Handle,
    f: T::Handle,
    a: T::Handle,
) -> Result<T::Handle, KernelFault<T::Handle>>
    requires found { T.holds terms.old function }
    requires function { T.holds terms.old f }
    requires argument { T.holds terms.old a }
    requires globals { AreGlobalsOf (T.holds terms.old) (G.items globals.now) (G.metas globals.now) }
    requires types { All (T.holds terms.old) types.old.items }
    requires room { vec_len types.old < 999999000 }
    ensures value { (Δ : Env) (Γ : Ctx) (S : Term) (F : Term) (A : Term) → IsRead (T.means terms.old) (G.items globals.now) (G.metas globals.now) types.old.items Δ Γ → T.means terms.old function ≡ S → T.means terms.old f ≡ F → T.means terms.old a ≡ A → Answers (T.holds terms.new) (T.means terms.new) (T.means terms.new) (applied_type Δ Γ F A S fuel.old) fuel.new result }
    ensures held { IfOk result (λ r. T.holds terms.new r) }
    ensures less { fuel.new ≤ fuel.old }
    ensures kept { Keeps (T.holds terms.old) (T.means terms.old) (T.holds terms.new) (T.means terms.new) }
    ensures same { OnOk result (types.new.items ≡ types.old.items) }
{
    let (domain, codomain) = product_form(alloc, terms, globals, fuel, types, f, function)?;
    let found = infer_in(alloc, terms, globals, fuel, types, a)?;
    fit(
        alloc,
        terms,
        globals,
        fuel,
        types.len() as u32,
        found,
        domain,
    )?;
    put_in(alloc, terms, codomain, a)
}

/// The product that the type of a function is or reduces to, as its domain and its codomain.
#[cycle(inferring)]
fn product_form<T: Terms, G: Globals<T::Handle>>(
    alloc: Global,
    terms: &mut T,
    globals: &G,
    fuel: &mut Fuel,
    types: &mut Vec<T::Handle>,
    f: T::Handle,
    found: T::Handle,
) -> Result<(T::Handle, T::Handle), KernelFault<T::Handle>>
    requires term { T.holds terms.old f }
    requires found { T.holds terms.old found }
    requires globals { AreGlobalsOf (T.holds terms.old) (G.items globals.now) (G.metas globals.now) }
    requires types { All (T.holds terms.old) types.old.items }
    requires room { vec_len types.old < 999999000 }
    ensures value { (Δ : Env) (Γ : Ctx) (F : Term) (A : Term) → IsRead (T.means terms.old) (G.items globals.now) (G.metas globals.now) types.old.items Δ Γ → T.means terms.old f ≡ F → T.means terms.old found ≡ A → Answers (T.holds terms.new) (T.means terms.new) (λ p. (T.means terms.new p.0, T.means terms.new p.1)) (tree.product_form Δ (tree.infer Δ) Γ F A fuel.old) fuel.new result }
    ensures held { IfOk result (λ p. T.holds terms.new p.0 × T.holds terms.new p.1) }
    ensures less { fuel.new ≤ fuel.old }
    ensures kept { Keeps (T.holds terms.old) (T.means terms.old) (T.holds terms.new) (T.means terms.new) }
    ensures same { OnOk result (types.new.items ≡ types.old.items) }
{
    let form = form_of(alloc, terms, globals, fuel, found)?;
    match as_product(terms, form) {
        Some(parts) => {
            check_reduct(alloc, terms, globals, fuel, types, found, form)?;
            Ok(parts)
        }
        None => Err(KernelFault::NotFunction {
            depth: types.len() as u32,
            term: f,
            found,
        }),
    }
}

/// Checks that a reduct that differs from its type has a sort.
#[cycle(inferring)]
fn check_reduct<T: Terms, G: Globals<T::Handle>>(
    alloc: Global,
    terms: &mut T,
    globals: &G,
    fuel: &mut Fuel,
    types: &mut Vec<T::Handle>,
    found: T::Handle,
    form: T::Handle,
) -> Result<(), KernelFault<T::Handle>>
    requires found { T.holds terms.old found }
    requires reduct { T.holds terms.old form }
    requires globals { AreGlobalsOf (T.holds terms.old) (G.items globals.now) (G.metas globals.now) }
    requires types { All (T.holds terms.old) types.old.items }
    requires room { vec_len types.old < 999999000 }
    ensures value { (Δ : Env) (Γ : Ctx) (F : Term) (P : Term) → IsRead (T.means terms.old) (G.items globals.now) (G.metas globals.now) types.old.items Δ Γ → T.means terms.old found ≡ F → T.means terms.old form ≡ P → Answers (T.holds terms.new) (T.means terms.new) (λ _. tt) (reduct_checked Δ Γ F P fuel.old) fuel.new result }
    ensures less { fuel.new ≤ fuel.old }
    ensures kept { Keeps (T.holds terms.old) (T.means terms.old) (T.holds terms.new) (T.means terms.new) }
    ensures same { OnOk result (types.new.items ≡ types.old.items) }
{
    if terms.same(found, form) {
        return Ok(());
    }
    let refusal = KernelFault::ReductIllTyped {
        depth: types.len() as u32,
        term: found,
        reduct: form,
    };
    match sort_of(alloc, terms, globals, fuel, types, form) {
        Ok(_) => Ok(()),
        Err(fault) => Err(or_refuse(fault, refusal)),
    }
}

/// Infers the type of an abstraction.
#[cycle(inferring)]
fn infer_abstraction<T: Terms, G: Globals<T::Handle>>(
    alloc: Global,
    terms: &mut T,
    globals: &G,
    fuel: &mut Fuel,
    types: &mut Vec<T::Handle>,
    domain: T::Handle,
    body: T::Handle,
) -> Result<T::Handle, KernelFault<T::Handle>>
    requires domain { T.holds terms.old domain }
    requires body { T.holds terms.old body }
    requires globals { AreGlobalsOf (T.holds terms.old) (G.items globals.now) (G.metas globals.now) }
    requires types { All (T.holds terms.old) types.old.items }
    requires room { vec_len types.old < 999999000 }
    ensures value { (Δ : Env) (Γ : Ctx) (A : Term) (M : Term) → IsRead (T.means terms.old) (G.items globals.now) (G.metas globals.now) types.old.items Δ Γ → T.means terms.old domain ≡ A → T.means terms.old body ≡ M → Answers (T.holds terms.new) (T.means terms.new) (T.means terms.new) (tree.infer_case Δ (tree.infer Δ) Γ (Lam A M) fuel.old) fuel.new result }
    ensures held { IfOk result (λ r. T.holds terms.new r) }
    ensures less { fuel.new ≤ fuel.old }
    ensures kept { Keeps (T.holds terms.old) (T.means terms.old) (T.holds terms.new) (T.means terms.new) }
    ensures same { OnOk result (types.new.items ≡ types.old.items) }
{
    sort_of(alloc, terms, globals, fuel, types, domain)?;
    let found = infer_under(alloc, terms, globals, fuel, types, domain, body)?;
    if is_square(terms, found) {
        return Err(KernelFault::NotType {
            depth: types.len() as u32 + 1,
            term: found,
        });
    }
    Ok(terms.make(alloc, View::Pi(domain, found))?)
}

/// Infers the type of a product, which is the sort of its codomain.
#[cycle(inferring)]
fn infer_product<T: Terms, G: Globals<T::Handle>>(
    alloc: Global,
    terms: &mut T,
    globals: &G,
    fuel: &mut Fuel,
    types: &mut Vec<T::Handle>,
    domain: T::Handle,
    codomain: T::Handle,
) -> Result<T::Handle, KernelFault<T::Handle>>
    requires domain { T.holds terms.old domain }
    requires codomain { T.holds terms.old codomain }
    requires globals { AreGlobalsOf (T.holds terms.old) (G.items globals.now) (G.metas globals.now) }
    requires types { All (T.holds terms.old) types.old.items }
    requires room { vec_len types.old < 999999000 }
    ensures value { (Δ : Env) (Γ : Ctx) (A : Term) (B : Term) → IsRead (T.means terms.old) (G.items globals.now) (G.metas globals.now) types.old.items Δ Γ → T.means terms.old domain ≡ A → T.means terms.old codomain ≡ B → Answers (T.holds terms.new) (T.means terms.new) (T.means terms.new) (tree.infer_case Δ (tree.infer Δ) Γ (Pi A B) fuel.old) fuel.new result }
    ensures held { IfOk result (λ r. T.holds terms.new r) }
    ensures less { fuel.new ≤ fuel.old }
    ensures kept { Keeps (T.holds terms.old) (T.means terms.old) (T.holds terms.new) (T.means terms.new) }
    ensures same { OnOk result (types.new.items ≡ types.old.items) }
{
    sort_of(alloc, terms, globals, fuel, types, domain)?;
    let found = infer_under(alloc, terms, globals, fuel, types, domain, codomain)?;
    sort_in(
        alloc,
        terms,
        globals,
        fuel,
        types.len() as u32 + 1,
        codomain,
        found,
    )
}
