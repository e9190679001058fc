ghost use Rattle.std.specs.Prelude.{◌≡◌, ◌↔◌, ◌<◌, ◌≤◌, ℕ, All, IfOk, IfSome, IsTrue, map, length};
ghost use Rattle.ld_trees.specs.Term.{Sort, Term, Srt, Square, Var, none, ◌▹◌, count};
ghost use Rattle.ld_rules.specs.Environment.{Ctx, Env, type_at};
ghost use Rattle.ld_terms.specs.Views.{Keeps, terms_of};
ghost use Rattle.conversion.specs.Globals.{env_of, AreGlobalsOf};
ghost use Rattle.conversion.specs.Runs.{Gave};
ghost use Rattle.conversion.specs.WeakHead as head;
ghost use Rattle.ld_trees.specs.Substitution.{subst_all};
ghost use Rattle.kernel_check.specs.Inference as tree;
ghost use Rattle.kernel_check.specs.Answers.{Answers};
ghost use Rattle.kernel_check.specs.Steps.{AreParts, sort_term_in};

use crate::fault::KernelFault;
use conversion::{conv, whnf};
use ld_terms::{Fuel, Globals, Terms, View, shift, subst_all};
use std::alloc::Global;

/// The weak head form of a term.
#[tactic(auto, using(crate::proofs::Calls::halt_shows))]
pub fn form_of<T: Terms, G: Globals<T::Handle>>(
    alloc: Global,
    terms: &mut T,
    globals: &G,
    fuel: &mut Fuel,
    h: T::Handle,
) -> Result<T::Handle, KernelFault<T::Handle>>
    requires term { T.holds terms.old h }
    requires globals { AreGlobalsOf (T.holds terms.old) (G.items globals.now) (G.metas globals.now) }
    ensures value { (Δ : Env) (t : Term) → env_of (T.means terms.old) (G.items globals.now) (G.metas globals.now) ≡ Δ → T.means terms.old h ≡ t → Answers (T.holds terms.new) (T.means terms.new) (T.means terms.new) (head.whnf Δ t fuel.old) fuel.new result }
    ensures held { IfOk result (λ r. T.holds terms.new r) }
    ensures less { fuel.new ≤ fuel.old }
    ensures kept { Keeps (T.holds terms.old) (T.means terms.old) (T.holds terms.new) (T.means terms.new) }
{
    Ok(whnf(alloc, terms, globals, fuel, h)?)
}

/// Converts the type that was found with the one that is wanted, in a context of so many entries.
#[tactic(auto, using(crate::proofs::Calls::halt_shows))]
pub fn fit<T: Terms, G: Globals<T::Handle>>(
    alloc: Global,
    terms: &mut T,
    globals: &G,
    fuel: &mut Fuel,
    depth: u32,
    found: T::Handle,
    wanted: T::Handle,
) -> Result<(), KernelFault<T::Handle>>
    requires found { T.holds terms.old found }
    requires wanted { T.holds terms.old wanted }
    requires globals { AreGlobalsOf (T.holds terms.old) (G.items globals.now) (G.metas globals.now) }
    ensures value { (Δ : Env) (Γ : Ctx) (F W : Term) → env_of (T.means terms.old) (G.items globals.now) (G.metas globals.now) ≡ Δ → count Γ ≡ depth → T.means terms.old found ≡ F → T.means terms.old wanted ≡ W → Answers (T.holds terms.new) (T.means terms.new) (λ _. tt) (tree.fit Δ Γ F W fuel.old) fuel.new result }
    ensures less { fuel.new ≤ fuel.old }
    ensures kept { Keeps (T.holds terms.old) (T.means terms.old) (T.holds terms.new) (T.means terms.new) }
{
    if conv(alloc, terms, globals, fuel, found, wanted)? {
        Ok(())
    } else {
        Err(KernelFault::Mismatch {
            depth,
            found,
            wanted,
        })
    }
}

/// Whether a term is `*` or `□`.
fn is_sort<T: Terms>(terms: &T, h: T::Handle) -> bool
    requires { T.holds terms.now h }
    ensures { IsTrue result ↔ ((s : Sort) × (T.means terms.now h ≡ Srt s)) }
{
    matches!(terms.node(h), View::Star | View::Square)
}

/// Whether a term is `□`.
pub fn is_square<T: Terms>(terms: &T, h: T::Handle) -> bool
    requires { T.holds terms.now h }
    ensures { IsTrue result ↔ (T.means terms.now h ≡ Square) }
{
    matches!(terms.node(h), View::Square)
}

/// The domain and the codomain of a product.
pub fn as_product<T: Terms>(terms: &T, h: T::Handle) -> Option<(T::Handle, T::Handle)>
    requires { T.holds terms.now h }
    ensures parts { AreParts (T.means terms.now) (T.means terms.now h) result }
    ensures held { IfSome result (λ p. T.holds terms.now p.0 × T.holds terms.now p.1) }
{
    match terms.node(h) {
        View::Pi(domain, codomain) => Some((domain, codomain)),
        _ => None,
    }
}

/// One argument put in for the last variable.
pub fn put_in<T: Terms>(
    alloc: Global,
    terms: &mut T,
    body: T::Handle,
    argument: T::Handle,
) -> Result<T::Handle, KernelFault<T::Handle>>
    requires body { T.holds terms.old body }
    requires argument { T.holds terms.old argument }
    ensures value { (n : ℕ) → Answers (T.holds terms.new) (T.means terms.new) (T.means terms.new) (Gave (subst_all (none ▹ T.means terms.old argument) (T.means terms.old body)) n) n result }
    ensures held { IfOk result (λ r. T.holds terms.new r) }
    ensures kept { Keeps (T.holds terms.old) (T.means terms.old) (T.holds terms.new) (T.means terms.new) }
{
    let mut args = Vec::new(alloc);
    args.push(argument)?;
    Ok(subst_all(alloc, terms, body, &args)?)
}

/// The sort of a term of which a type was found, in a context of so many entries.
#[tactic(auto, using(crate::proofs::Calls::halt_shows))]
pub fn sort_in<T: Terms, G: Globals<T::Handle>>(
    alloc: Global,
    terms: &mut T,
    globals: &G,
    fuel: &mut Fuel,
    depth: u32,
    h: T::Handle,
    found: T::Handle,
) -> Result<T::Handle, KernelFault<T::Handle>>
    requires term { T.holds terms.old h }
    requires found { T.holds terms.old found }
    requires globals { AreGlobalsOf (T.holds terms.old) (G.items globals.now) (G.metas globals.now) }
    ensures value { (Δ : Env) (Γ : Ctx) (t F : Term) → env_of (T.means terms.old) (G.items globals.now) (G.metas globals.now) ≡ Δ → count Γ ≡ depth → T.means terms.old h ≡ t → T.means terms.old found ≡ F → Answers (T.holds terms.new) (T.means terms.new) (T.means terms.new) (sort_term_in Δ Γ t F fuel.old) fuel.new result }
    ensures held { IfOk result (λ r. T.holds terms.new r) }
    ensures less { fuel.new ≤ fuel.old }
    ensures kept { Keeps (T.holds terms.old) (T.means terms.old) (T.holds terms.new) (T.means terms.new) }
{
    if is_sort(terms, found) {
        return Ok(found);
    }
    let form = form_of(alloc, terms, globals, fuel, found)?;
    match terms.node(form) {
        View::Star => Ok(form),
        _ => Err(KernelFault::NotType { depth, term: h }),
    }
}

/// The type of a variable, which is that of its entry as a term of the whole context.
#[tactic(auto, using(crate::proofs::EntryTypes::entry_at, crate::proofs::EntryTypes::no_entry))]
pub fn entry_type<T: Terms>(
    alloc: Global,
    terms: &mut T,
    types: &[T::Handle],
    i: u32,
    h: T::Handle,
) -> Result<T::Handle, KernelFault<T::Handle>>
    requires term { T.holds terms.old h }
    requires types { All (T.holds terms.old) types.now }
    requires room { length types.now < 999999000 }
    ensures value { (Γ : Ctx) (n : ℕ) → terms_of (map (T.means terms.old) types.now) ≡ Γ → T.means terms.old h ≡ Var i → Answers (T.holds terms.new) (T.means terms.new) (T.means terms.new) (tree.or_not_type Γ (Var i) (type_at Γ i) n) n result }
    ensures held { IfOk result (λ r. T.holds terms.new r) }
    ensures kept { Keeps (T.holds terms.old) (T.means terms.old) (T.holds terms.new) (T.means terms.new) }
{
    let from_last = i as usize;
    if from_last < types.len() {
        let ty = types[types.len() - 1 - from_last];
        Ok(shift(alloc, terms, ty, 0, i + 1)?)
    } else {
        Err(KernelFault::NotType {
            depth: types.len() as u32,
            term: h,
        })
    }
}
