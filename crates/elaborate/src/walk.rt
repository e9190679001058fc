//! One recursion over a text.

ghost use Rattle.std.specs.Prelude.{◌≡◌, ◌≤◌, All, IfOk, List as Listed, length, map};
ghost use Rattle.std.specs.Option.{option_copied};
ghost use Rattle.ld_trees.specs.Term.{Term, none};
ghost use Rattle.ld_terms.specs.Items.{item_named};
ghost use Rattle.ld_terms.specs.Views.{Keeps, terms_of};
ghost use Rattle.ld_terms.specs.declared.globals.Item.{Item};
ghost use Rattle.ld_terms.specs.declared.globals.Local.{Local};
ghost use Rattle.conversion.specs.Globals.{AreLocals, IsDeclOf};
ghost use Rattle.meta_context.specs.Plain.{plain_locals};
ghost use Rattle.elaboration.specs.Elaboration as spec;
ghost use Rattle.elaborate.specs.Answers.{Answers};
ghost use Rattle.elaborate.specs.Standing.{IsHeld, IsRead, IsTypedIn, IsWantIn, plain_typed, plain_want, plain_work};
ghost use Rattle.elaborate.specs.Steps as steps;

use crate::binders::entered;
use crate::fault::ElabFault;
use crate::leaves::{hole, pay, star, variable};
use crate::meeting::meet;
use crate::nodes::{
    abstracted, application, function_parts, instance, known, met_domain, product, wanted_product,
};
use crate::standing::{Here, Typed, Want, Work};
use ld_terms::{Fuel, Local, Name, Terms, subst_all};
use meta_context::Env;
use std::alloc::Global;
use term_text::{Label, Shape, Surface};

/// Elaborates a part of a text.
#[cycle(walk)]
pub fn elaborate<'t, T: Terms>(
    alloc: Global,
    terms: &mut T,
    env: &Env<T::Handle>,
    fuel: &mut Fuel,
    want: Want<T::Handle>,
    work: Work<T::Handle>,
    here: &Here<'_, 't, T::Handle>,
    t: &'t Surface,
) -> Result<Typed<T::Handle>, ElabFault<T::Handle>>
    requires held { IsHeld (T.holds terms.old) env.now work here.now }
    requires want { IsWantIn (T.holds terms.old) want }
    ensures value { (Δ : Listed (Item Term)) (W : spec.Want) (w : spec.Work) (s : spec.Surroundings) → IsRead (T.means terms.old) env.now work here.now Δ w s → plain_want (T.means terms.old) want ≡ W → Answers (T.holds terms.new) (T.means terms.new) (plain_typed (T.means terms.new)) (spec.elaborate Δ t.now W w s fuel.old) fuel.new result }
    ensures held { IfOk result (IsTypedIn (T.holds terms.new)) }
    ensures less { fuel.new ≤ fuel.old }
    ensures kept { Keeps (T.holds terms.old) (T.means terms.old) (T.holds terms.new) (T.means terms.new) }
{
    if !pay(fuel, t) {
        return Err(ElabFault::Fuel);
    }
    match &t.shape {
        Shape::Star => star(alloc, terms, env, fuel, want, work, here),
        Shape::Wild => hole(alloc, terms, env, fuel, t.at, Some(t.at), want, work, here),
        Shape::Asked => hole(alloc, terms, env, fuel, t.at, None, want, work, here),
        Shape::Named(x) => variable(alloc, terms, env, fuel, t.at, x, want, work, here),
        Shape::Const(a, us) => {
            let us = us.as_slice();
            constant(alloc, terms, env, fuel, t.at, a, us, want, work, here)
        }
        Shape::App(f, us) => {
            let f = elaborate(alloc, terms, env, fuel, Want::Any, work, here, f.get())?;
            let typed = applied(alloc, terms, env, fuel, f, here, us.as_slice())?;
            meet(alloc, terms, env, fuel, want, here, typed)
        }
        Shape::Lam(x, a, m) => {
            let a = a.get();
            let m = m.get();
            abstraction(alloc, terms, env, fuel, x, a, m, want, work, here)
        }
        Shape::Pi(x, a, b) => {
            let x = x.as_ref();
            let a = a.get();
            let b = b.get();
            dependent_product(alloc, terms, env, fuel, x, a, b, want, work, here)
        }
    }
}

/// Elaborates a constant at a place with its arguments.
#[cycle(walk)]
fn constant<'t, T: Terms>(
    alloc: Global,
    terms: &mut T,
    env: &Env<T::Handle>,
    fuel: &mut Fuel,
    at: u64,
    a: &Name,
    us: &'t [Surface],
    want: Want<T::Handle>,
    work: Work<T::Handle>,
    here: &Here<'_, 't, T::Handle>,
) -> Result<Typed<T::Handle>, ElabFault<T::Handle>>
    requires held { IsHeld (T.holds terms.old) env.now work here.now }
    requires want { IsWantIn (T.holds terms.old) want }
    ensures value { (Δ : Listed (Item Term)) (W : spec.Want) (w : spec.Work) (s : spec.Surroundings) → IsRead (T.means terms.old) env.now work here.now Δ w s → plain_want (T.means terms.old) want ≡ W → Answers (T.holds terms.new) (T.means terms.new) (plain_typed (T.means terms.new)) (spec.constant Δ at a.now (map (spec.elaborate Δ) us.now) (item_named Δ a.now) W w s fuel.old) fuel.new result }
    ensures held { IfOk result (IsTypedIn (T.holds terms.new)) }
    ensures less { fuel.new ≤ fuel.old }
    ensures kept { Keeps (T.holds terms.old) (T.means terms.old) (T.holds terms.new) (T.means terms.new) }
{
    let item = known(alloc, &*terms, env, at, a, us.len())?;
    let params = item.params.as_slice();
    let (work, args) = arguments(alloc, terms, env, fuel, work, here, us, params)?;
    instance(alloc, terms, env, fuel, want, here, a, item.ty, work, &args)
}

/// Elaborates an abstraction. Where a product is wanted of it, the domains are unified.
#[cycle(walk)]
fn abstraction<'t, T: Terms>(
    alloc: Global,
    terms: &mut T,
    env: &Env<T::Handle>,
    fuel: &mut Fuel,
    x: &'t Label,
    a: &'t Surface,
    m: &'t Surface,
    want: Want<T::Handle>,
    work: Work<T::Handle>,
    here: &Here<'_, 't, T::Handle>,
) -> Result<Typed<T::Handle>, ElabFault<T::Handle>>
    requires held { IsHeld (T.holds terms.old) env.now work here.now }
    requires want { IsWantIn (T.holds terms.old) want }
    ensures value { (Δ : Listed (Item Term)) (W : spec.Want) (w : spec.Work) (s : spec.Surroundings) → IsRead (T.means terms.old) env.now work here.now Δ w s → plain_want (T.means terms.old) want ≡ W → Answers (T.holds terms.new) (T.means terms.new) (plain_typed (T.means terms.new)) (spec.function Δ x.now (spec.elaborate Δ a.now) (spec.elaborate Δ m.now) W w s fuel.old) fuel.new result }
    ensures held { IfOk result (IsTypedIn (T.holds terms.new)) }
    ensures less { fuel.new ≤ fuel.old }
    ensures kept { Keeps (T.holds terms.old) (T.means terms.old) (T.holds terms.new) (T.means terms.new) }
{
    let wanted = wanted_product(alloc, terms, env, fuel, want, &work, here)?;
    let a = elaborate(alloc, terms, env, fuel, Want::AsType, work, here, a)?;
    let domain = a.term;
    let (work, inside) = met_domain(alloc, terms, env, fuel, wanted, a, here)?;
    let x = Some(x);
    let m = under(alloc, terms, env, fuel, inside, work, here, x, domain, m)?;
    abstracted(alloc, terms, env, fuel, want, wanted, domain, m, here)
}

/// Elaborates a product.
#[cycle(walk)]
fn dependent_product<'t, T: Terms>(
    alloc: Global,
    terms: &mut T,
    env: &Env<T::Handle>,
    fuel: &mut Fuel,
    x: Option<&'t Label>,
    a: &'t Surface,
    b: &'t Surface,
    want: Want<T::Handle>,
    work: Work<T::Handle>,
    here: &Here<'_, 't, T::Handle>,
) -> Result<Typed<T::Handle>, ElabFault<T::Handle>>
    requires held { IsHeld (T.holds terms.old) env.now work here.now }
    requires want { IsWantIn (T.holds terms.old) want }
    ensures value { (Δ : Listed (Item Term)) (W : spec.Want) (w : spec.Work) (s : spec.Surroundings) → IsRead (T.means terms.old) env.now work here.now Δ w s → plain_want (T.means terms.old) want ≡ W → Answers (T.holds terms.new) (T.means terms.new) (plain_typed (T.means terms.new)) (spec.product Δ (option_copied x.entry) (spec.elaborate Δ a.now) (spec.elaborate Δ b.now) W w s fuel.old) fuel.new result }
    ensures held { IfOk result (IsTypedIn (T.holds terms.new)) }
    ensures less { fuel.new ≤ fuel.old }
    ensures kept { Keeps (T.holds terms.old) (T.means terms.old) (T.holds terms.new) (T.means terms.new) }
{
    let a = elaborate(alloc, terms, env, fuel, Want::AsType, work, here, a)?;
    let Typed { work, term, ty: _ } = a;
    let ty = Want::AsType;
    let b = under(alloc, terms, env, fuel, ty, work, here, x, term, b)?;
    product(alloc, terms, env, fuel, want, term, b, here)
}

/// Elaborates a part of a text behind one more binder, of that type.
#[cycle(walk)]
fn under<'t, T: Terms>(
    alloc: Global,
    terms: &mut T,
    env: &Env<T::Handle>,
    fuel: &mut Fuel,
    want: Want<T::Handle>,
    work: Work<T::Handle>,
    here: &Here<'_, 't, T::Handle>,
    label: Option<&'t Label>,
    domain: T::Handle,
    t: &'t Surface,
) -> Result<Typed<T::Handle>, ElabFault<T::Handle>>
    requires held { IsHeld (T.holds terms.old) env.now work here.now }
    requires want { IsWantIn (T.holds terms.old) want }
    requires domain { T.holds terms.old domain }
    ensures value { (Δ : Listed (Item Term)) (W : spec.Want) (w : spec.Work) (s : spec.Surroundings) (A : Term) → IsRead (T.means terms.old) env.now work here.now Δ w s → plain_want (T.means terms.old) want ≡ W → T.means terms.old domain ≡ A → Answers (T.holds terms.new) (T.means terms.new) (plain_typed (T.means terms.new)) (steps.under Δ (option_copied label.entry) (spec.elaborate Δ t.now) W w A s fuel.old) fuel.new result }
    ensures held { IfOk result (IsTypedIn (T.holds terms.new)) }
    ensures less { fuel.new ≤ fuel.old }
    ensures kept { Keeps (T.holds terms.old) (T.means terms.old) (T.holds terms.new) (T.means terms.new) }
{
    let entries = entered(alloc, terms, env, fuel, &work, here, label, domain)?;
    let mut bound = Vec::from_slice(alloc, here.bound)?;
    bound.push(label)?;
    let inner = Here {
        outer: here.outer,
        bound: &bound,
        entries: entries.as_slice(),
    };
    elaborate(alloc, terms, env, fuel, want, work, &inner, t)
}

/// Elaborates the arguments of a constant from left to right, each against the type of its parameter with the earlier ones put in.
#[cycle(walk)]
fn arguments<'t, T: Terms>(
    alloc: Global,
    terms: &mut T,
    env: &Env<T::Handle>,
    fuel: &mut Fuel,
    work: Work<T::Handle>,
    here: &Here<'_, 't, T::Handle>,
    us: &'t [Surface],
    params: &[Local<T::Handle>],
) -> Result<(Work<T::Handle>, Vec<T::Handle>), ElabFault<T::Handle>>
    requires held { IsHeld (T.holds terms.old) env.now work here.now }
    requires params { AreLocals (T.holds terms.old) params.now }
    requires count { length us.now ≡ length params.now }
    ensures value { (Δ : Listed (Item Term)) (w : spec.Work) (s : spec.Surroundings) (ps : Listed (Local Term)) → IsRead (T.means terms.old) env.now work here.now Δ w s → plain_locals (T.means terms.old) params.now ≡ ps → Answers (T.holds terms.new) (T.means terms.new) (λ r. (plain_work (T.means terms.new) r.0, terms_of (map (T.means terms.new) r.1.items))) (spec.arguments Δ (map (spec.elaborate Δ) us.now) ps none w s fuel.old) fuel.new result }
    ensures held { IfOk result (λ r. All (IsDeclOf (T.holds terms.new)) r.0.metas × All (T.holds terms.new) r.1.items) }
    ensures less { fuel.new ≤ fuel.old }
    ensures kept { Keeps (T.holds terms.old) (T.means terms.old) (T.holds terms.new) (T.means terms.new) }
{
    let mut made = Vec::new(alloc);
    let mut work = work;
    let mut place = 0;
    for u in us {
        let ty = subst_all(alloc, terms, params[place].ty, &made)?;
        let typed = elaborate(alloc, terms, env, fuel, Want::Of(ty), work, here, u)?;
        made.push(typed.term)?;
        work = typed.work;
        place += 1;
    }
    Ok((work, made))
}

/// Applies a function to arguments from left to right.
#[cycle(walk)]
fn applied<'t, T: Terms>(
    alloc: Global,
    terms: &mut T,
    env: &Env<T::Handle>,
    fuel: &mut Fuel,
    function: Typed<T::Handle>,
    here: &Here<'_, 't, T::Handle>,
    us: &'t [Surface],
) -> Result<Typed<T::Handle>, ElabFault<T::Handle>>
    requires held { IsHeld (T.holds terms.old) env.now function.work here.now }
    requires term { T.holds terms.old function.term }
    requires ty { T.holds terms.old function.ty }
    ensures value { (Δ : Listed (Item Term)) (f : spec.Made) (s : spec.Surroundings) → IsRead (T.means terms.old) env.now function.work here.now Δ f.work s → T.means terms.old function.term ≡ f.term → T.means terms.old function.ty ≡ f.ty → Answers (T.holds terms.new) (T.means terms.new) (plain_typed (T.means terms.new)) (spec.applied Δ (map (spec.elaborate Δ) us.now) f.work s f.term f.ty fuel.old) fuel.new result }
    ensures held { IfOk result (IsTypedIn (T.holds terms.new)) }
    ensures less { fuel.new ≤ fuel.old }
    ensures kept { Keeps (T.holds terms.old) (T.means terms.old) (T.holds terms.new) (T.means terms.new) }
{
    let mut typed = function;
    for u in us {
        typed = applied_to(alloc, terms, env, fuel, typed, here, u)?;
    }
    Ok(typed)
}

/// Applies a function to one argument.
#[cycle(walk)]
fn applied_to<'t, T: Terms>(
    alloc: Global,
    terms: &mut T,
    env: &Env<T::Handle>,
    fuel: &mut Fuel,
    function: Typed<T::Handle>,
    here: &Here<'_, 't, T::Handle>,
    u: &'t Surface,
) -> Result<Typed<T::Handle>, ElabFault<T::Handle>>
    requires held { IsHeld (T.holds terms.old) env.now function.work here.now }
    requires term { T.holds terms.old function.term }
    requires ty { T.holds terms.old function.ty }
    ensures value { (Δ : Listed (Item Term)) (f : spec.Made) (s : spec.Surroundings) → IsRead (T.means terms.old) env.now function.work here.now Δ f.work s → T.means terms.old function.term ≡ f.term → T.means terms.old function.ty ≡ f.ty → Answers (T.holds terms.new) (T.means terms.new) (plain_typed (T.means terms.new)) (steps.applied_to Δ (spec.elaborate Δ u.now) f s fuel.old) fuel.new result }
    ensures held { IfOk result (IsTypedIn (T.holds terms.new)) }
    ensures less { fuel.new ≤ fuel.old }
    ensures kept { Keeps (T.holds terms.old) (T.means terms.old) (T.holds terms.new) (T.means terms.new) }
{
    let (domain, codomain) = function_parts(alloc, terms, env, fuel, &function, here)?;
    let Typed { work, term, ty: _ } = function;
    let wanted = Want::Of(domain);
    let argument = elaborate(alloc, terms, env, fuel, wanted, work, here, u)?;
    Ok(application(alloc, terms, term, codomain, argument)?)
}
