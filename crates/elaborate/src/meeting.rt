//! A term with its type comes to what is wanted.

ghost use Rattle.std.specs.Prelude.{◌≡◌, ◌≤◌, ◌↔◌, All, IfOk, IfSome, IsTrue, List as Listed};
ghost use Rattle.ld_trees.specs.Term.{Sort, Square, Srt, Term};
ghost use Rattle.ld_terms.specs.Views.{Keeps};
ghost use Rattle.ld_terms.specs.declared.globals.Decl.{Decl};
ghost use Rattle.ld_terms.specs.declared.globals.Item.{Item};
ghost use Rattle.conversion.specs.Globals.{AreGlobalsOf, IsDeclOf};
ghost use Rattle.kernel_check.specs.Steps.{AreParts};
ghost use Rattle.elaboration.specs.Elaboration as spec;
ghost use Rattle.pattern_unify.specs.Answers.{AreRead};
ghost use Rattle.elaborate.specs.Answers.{Answers};
ghost use Rattle.elaborate.specs.Standing.{IsHeld, IsRead, IsTypedIn, IsWantIn, plain_typed, plain_want, plain_work};

use crate::fault::ElabFault;
use crate::standing::{Here, Typed, Want, Work, depth_of};
use conversion::whnf;
use ld_terms::{Fuel, Terms, View};
use meta_context::{Both, Env, Metas};
use pattern_unify::unify;
use std::alloc::Global;

/// Whether a term is `*` or `□`.
fn is_sort<T: Terms>(terms: &T, h: T::Handle) -> bool
    requires { T.holds terms.now h }
    ensures { IsTrue result ↔ ((s : Sort) × (T.means terms.now h ≡ Srt s)) }
{
    matches!(terms.node(h), View::Star | View::Square)
}

/// Whether a term is `□`.
pub fn is_square<T: Terms>(terms: &T, h: T::Handle) -> bool
    requires { T.holds terms.now h }
    ensures { IsTrue result ↔ (T.means terms.now h ≡ Square) }
{
    matches!(terms.node(h), View::Square)
}

/// The domain and the codomain of a product.
pub fn as_product<T: Terms>(terms: &T, h: T::Handle) -> Option<(T::Handle, T::Handle)>
    requires { T.holds terms.now h }
    ensures parts { AreParts (T.means terms.now) (T.means terms.now h) result }
    ensures held { IfSome result (λ p. T.holds terms.now p.0 × T.holds terms.now p.1) }
{
    match terms.node(h) {
        View::Pi(domain, codomain) => Some((domain, codomain)),
        _ => None,
    }
}

/// The weak head form of a term.
pub fn reduced<T: Terms>(
    alloc: Global,
    terms: &mut T,
    env: &Env<T::Handle>,
    metas: &Metas<T::Handle>,
    fuel: &mut Fuel,
    h: T::Handle,
) -> Result<T::Handle, ElabFault<T::Handle>>
    requires globals { AreGlobalsOf (T.holds terms.old) env.now metas.now }
    requires term { T.holds terms.old h }
    ensures value { (Δ : Listed (Item Term)) (w : spec.Work) (t : Term) → AreRead (T.means terms.old) env.now metas.now Δ w.metas → T.means terms.old h ≡ t → Answers (T.holds terms.new) (T.means terms.new) (T.means terms.new) (spec.reduced Δ w t fuel.old) fuel.new result }
    ensures held { IfOk result (T.holds terms.new) }
    ensures less { fuel.new ≤ fuel.old }
    ensures kept { Keeps (T.holds terms.old) (T.means terms.old) (T.holds terms.new) (T.means terms.new) }
{
    let globals = Both { env, metas };
    Ok(whnf(alloc, terms, &globals, fuel, h)?)
}

/// Two types are unified.
pub fn unified<T: Terms>(
    alloc: Global,
    terms: &mut T,
    env: &Env<T::Handle>,
    fuel: &mut Fuel,
    work: Work<T::Handle>,
    here: &Here<'_, '_, T::Handle>,
    found: T::Handle,
    wanted: T::Handle,
) -> Result<Work<T::Handle>, ElabFault<T::Handle>>
    requires held { IsHeld (T.holds terms.old) env.now work here.now }
    requires found { T.holds terms.old found }
    requires wanted { T.holds terms.old wanted }
    ensures value { (Δ : Listed (Item Term)) (w : spec.Work) (s : spec.Surroundings) (F W : Term) → IsRead (T.means terms.old) env.now work here.now Δ w s → T.means terms.old found ≡ F → T.means terms.old wanted ≡ W → Answers (T.holds terms.new) (T.means terms.new) (plain_work (T.means terms.new)) (spec.unified Δ w s F W fuel.old) fuel.new result }
    ensures held { IfOk result (λ r. All (IsDeclOf (T.holds terms.new)) r.metas) }
    ensures less { fuel.new ≤ fuel.old }
    ensures kept { Keeps (T.holds terms.old) (T.means terms.old) (T.holds terms.new) (T.means terms.new) }
{
    let Work {
        metas,
        goals,
        holes,
    } = work;
    let depth = depth_of(here.entries);
    let metas = unify(alloc, terms, env, &metas, fuel, depth, found, wanted)?;
    Ok(Work {
        metas,
        goals,
        holes,
    })
}

/// The sort that the type of a term is or reduces to.
fn sort_of<T: Terms>(
    alloc: Global,
    terms: &mut T,
    env: &Env<T::Handle>,
    fuel: &mut Fuel,
    work: &Work<T::Handle>,
    here: &Here<'_, '_, T::Handle>,
    term: T::Handle,
    ty: T::Handle,
) -> Result<T::Handle, ElabFault<T::Handle>>
    requires held { IsHeld (T.holds terms.old) env.now work.now here.now }
    requires term { T.holds terms.old term }
    requires ty { T.holds terms.old ty }
    ensures value { (Δ : Listed (Item Term)) (w : spec.Work) (s : spec.Surroundings) (t F : Term) → IsRead (T.means terms.old) env.now work.now here.now Δ w s → T.means terms.old term ≡ t → T.means terms.old ty ≡ F → Answers (T.holds terms.new) (T.means terms.new) (T.means terms.new) (spec.sort_of Δ w s t F fuel.old) fuel.new result }
    ensures held { IfOk result (T.holds terms.new) }
    ensures less { fuel.new ≤ fuel.old }
    ensures kept { Keeps (T.holds terms.old) (T.means terms.old) (T.holds terms.new) (T.means terms.new) }
{
    if is_sort(terms, ty) {
        return Ok(ty);
    }
    let form = reduced(alloc, terms, env, &work.metas, fuel, ty)?;
    if is_sort(terms, form) {
        return Ok(form);
    }
    Err(ElabFault::NotType {
        depth: depth_of(here.entries),
        term,
    })
}

/// A term with its type comes to what is wanted.
pub fn meet<T: Terms>(
    alloc: Global,
    terms: &mut T,
    env: &Env<T::Handle>,
    fuel: &mut Fuel,
    want: Want<T::Handle>,
    here: &Here<'_, '_, T::Handle>,
    typed: Typed<T::Handle>,
) -> Result<Typed<T::Handle>, ElabFault<T::Handle>>
    requires held { IsHeld (T.holds terms.old) env.now typed.work here.now }
    requires want { IsWantIn (T.holds terms.old) want }
    requires term { T.holds terms.old typed.term }
    requires ty { T.holds terms.old typed.ty }
    ensures value { (Δ : Listed (Item Term)) (W : spec.Want) (w : spec.Work) (s : spec.Surroundings) (t F : Term) → IsRead (T.means terms.old) env.now typed.work here.now Δ w s → plain_want (T.means terms.old) want ≡ W → T.means terms.old typed.term ≡ t → T.means terms.old typed.ty ≡ F → Answers (T.holds terms.new) (T.means terms.new) (plain_typed (T.means terms.new)) (spec.meet Δ W w s t F fuel.old) fuel.new result }
    ensures held { IfOk result (IsTypedIn (T.holds terms.new)) }
    ensures less { fuel.new ≤ fuel.old }
    ensures kept { Keeps (T.holds terms.old) (T.means terms.old) (T.holds terms.new) (T.means terms.new) }
{
    let Typed { work, term, ty } = typed;
    match want {
        Want::Any => Ok(Typed { work, term, ty }),
        Want::Of(wanted) => {
            let work = unified(alloc, terms, env, fuel, work, here, ty, wanted)?;
            let ty = wanted;
            Ok(Typed { work, term, ty })
        }
        Want::AsType => {
            let ty = sort_of(alloc, terms, env, fuel, &work, here, term, ty)?;
            Ok(Typed { work, term, ty })
        }
    }
}
