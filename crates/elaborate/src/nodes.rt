//! What stands round the parts of a node: of a constant, of an application, of an abstraction and of a product.

ghost use Rattle.std.specs.Prelude.{◌≡◌, ◌<◌, ◌≤◌, ◌+◌, All, IfOk, ℕ, List as Listed, Option, Some, length, map, option_map};
ghost use Rattle.ld_trees.specs.Term.{App, Const, Pi, Square, Term, Terms as Trees, none, ◌▹◌};
ghost use Rattle.ld_trees.specs.Substitution.{subst_all};
ghost use Rattle.ld_terms.specs.Items.{item_named};
ghost use Rattle.ld_terms.specs.Views.{Keeps, terms_of};
ghost use Rattle.ld_terms.specs.declared.globals.Item.{Item};
ghost use Rattle.conversion.specs.Globals.{AreGlobalsOf, IsDeclOf};
ghost use Rattle.meta_context.specs.Plain.{plain_item, plain_items};
ghost use Rattle.elaboration.specs.Elaboration as spec;
ghost use Rattle.elaboration.specs.Refusals.{NotType};
ghost use Rattle.elaborate.specs.Answers.{Answers};
ghost use Rattle.elaborate.specs.Standing.{IsHeld, IsProductIn, IsRead, IsTypedIn, IsWantIn, MayBeProductIn, pair_trees, plain_product, plain_typed, plain_want, plain_work};
ghost use Rattle.elaborate.specs.Steps as steps;

use crate::fault::ElabFault;
use crate::meeting::{as_product, is_square, meet, reduced, unified};
use crate::standing::{Here, Product, Typed, Want, Work, depth_of};
use ld_terms::{Fuel, Item, Name, Terms, View, subst_all};
use meta_context::Env;
use std::alloc::{AllocError, Global};

// ---- constants

fn to_u32(n: usize) -> Result<u32, AllocError>
    ensures { IfOk result (λ m. m ≡ n) }
{
    match u32::try_from(n) {
        Ok(m) => Ok(m),
        Err(_) => Err(AllocError),
    }
}

/// The item of a name at a place, which has as many parameters as arguments are given.
pub fn known<'e, T: Terms>(
    alloc: Global,
    terms: &T,
    env: &'e Env<T::Handle>,
    at: u64,
    a: &Name,
    given: usize,
) -> Result<&'e Item<T::Handle>, ElabFault<T::Handle>>
    ensures value { (Δ : Listed (Item Term)) (n : ℕ) → plain_items (T.means terms.now) env.now ≡ Δ → Answers (T.holds terms.now) (T.means terms.now) (λ r. plain_item (T.means terms.now) r.now) (steps.known at a.now given (item_named Δ a.now) n) n result }
    ensures found { IfOk result (λ r. item_named env.now a.now ≡ Some r.now) }
    ensures count { IfOk result (λ r. given ≡ length r.now.params) }
{
    match env.find(a) {
        Some(item) => {
            let wanted = item.params.as_slice().len();
            if given == wanted {
                return Ok(item);
            }
            let given = to_u32(given)?;
            let wanted = to_u32(wanted)?;
            let name = a.copy(alloc)?;
            Err(ElabFault::WrongCount {
                at,
                name,
                given,
                wanted,
            })
        }
        None => {
            let name = a.copy(alloc)?;
            Err(ElabFault::UnknownName { at, name })
        }
    }
}

/// A constant applied to its arguments, where its declared type is given.
pub fn instance<T: Terms>(
    alloc: Global,
    terms: &mut T,
    env: &Env<T::Handle>,
    fuel: &mut Fuel,
    want: Want<T::Handle>,
    here: &Here<'_, '_, T::Handle>,
    a: &Name,
    ty: T::Handle,
    work: Work<T::Handle>,
    args: &[T::Handle],
) -> Result<Typed<T::Handle>, ElabFault<T::Handle>>
    requires held { IsHeld (T.holds terms.old) env.now work here.now }
    requires want { IsWantIn (T.holds terms.old) want }
    requires ty { T.holds terms.old ty }
    requires args { All (T.holds terms.old) args.now }
    ensures value { (Δ : Listed (Item Term)) (W : spec.Want) (w : spec.Work) (s : spec.Surroundings) (F : Term) (vs : Trees) → IsRead (T.means terms.old) env.now work here.now Δ w s → plain_want (T.means terms.old) want ≡ W → T.means terms.old ty ≡ F → terms_of (map (T.means terms.old) args.now) ≡ vs → Answers (T.holds terms.new) (T.means terms.new) (plain_typed (T.means terms.new)) (spec.meet Δ W w s (Const a.now vs) (subst_all vs F) fuel.old) fuel.new result }
    ensures held { IfOk result (IsTypedIn (T.holds terms.new)) }
    ensures less { fuel.new ≤ fuel.old }
    ensures kept { Keeps (T.holds terms.old) (T.means terms.old) (T.holds terms.new) (T.means terms.new) }
{
    let ty = subst_all(alloc, terms, ty, args)?;
    let term = terms.make(alloc, View::Const(a, args))?;
    let typed = Typed { work, term, ty };
    meet(alloc, terms, env, fuel, want, here, typed)
}

// ---- applications

/// The domain and the codomain of the type of a function.
pub fn function_parts<T: Terms>(
    alloc: Global,
    terms: &mut T,
    env: &Env<T::Handle>,
    fuel: &mut Fuel,
    function: &Typed<T::Handle>,
    here: &Here<'_, '_, T::Handle>,
) -> Result<(T::Handle, T::Handle), ElabFault<T::Handle>>
    requires held { IsHeld (T.holds terms.old) env.now function.now.work here.now }
    requires term { T.holds terms.old function.now.term }
    requires ty { T.holds terms.old function.now.ty }
    ensures value { (Δ : Listed (Item Term)) (f : spec.Made) (s : spec.Surroundings) → IsRead (T.means terms.old) env.now function.now.work here.now Δ f.work s → T.means terms.old function.now.term ≡ f.term → T.means terms.old function.now.ty ≡ f.ty → Answers (T.holds terms.new) (T.means terms.new) (pair_trees (T.means terms.new)) (steps.function_parts Δ f s fuel.old) fuel.new result }
    ensures held { IfOk result (λ p. T.holds terms.new p.0 × T.holds terms.new p.1) }
    ensures less { fuel.new ≤ fuel.old }
    ensures kept { Keeps (T.holds terms.old) (T.means terms.old) (T.holds terms.new) (T.means terms.new) }
{
    let form = reduced(alloc, terms, env, &function.work.metas, fuel, function.ty)?;
    match as_product(terms, form) {
        Some(parts) => Ok(parts),
        None => Err(ElabFault::NotFunction {
            depth: depth_of(here.entries),
            term: function.term,
            found: function.ty,
        }),
    }
}

/// A term applied to an argument, with the argument put into the codomain.
pub fn application<T: Terms>(
    alloc: Global,
    terms: &mut T,
    function: T::Handle,
    codomain: T::Handle,
    argument: Typed<T::Handle>,
) -> Result<Typed<T::Handle>, AllocError>
    requires function { T.holds terms.old function }
    requires codomain { T.holds terms.old codomain }
    requires argument { IsTypedIn (T.holds terms.old) argument }
    ensures value { IfOk result (λ r. plain_typed (T.means terms.new) r ≡ spec.made (plain_work (T.means terms.old) argument.work) (App (T.means terms.old function) (T.means terms.old argument.term)) (subst_all (none ▹ T.means terms.old argument.term) (T.means terms.old codomain))) }
    ensures held { IfOk result (IsTypedIn (T.holds terms.new)) }
    ensures kept { Keeps (T.holds terms.old) (T.means terms.old) (T.holds terms.new) (T.means terms.new) }
{
    let Typed {
        work,
        term: argument,
        ty: _,
    } = argument;
    let mut arguments = Vec::new(alloc);
    arguments.push(argument)?;
    let ty = subst_all(alloc, terms, codomain, &arguments)?;
    let term = terms.make(alloc, View::App(function, argument))?;
    Ok(Typed { work, term, ty })
}

// ---- abstractions and products

/// The type that is wanted, where its weak head form is a product.
pub fn wanted_product<T: Terms>(
    alloc: Global,
    terms: &mut T,
    env: &Env<T::Handle>,
    fuel: &mut Fuel,
    want: Want<T::Handle>,
    work: &Work<T::Handle>,
    here: &Here<'_, '_, T::Handle>,
) -> Result<Option<Product<T::Handle>>, ElabFault<T::Handle>>
    requires held { IsHeld (T.holds terms.old) env.now work.now here.now }
    requires want { IsWantIn (T.holds terms.old) want }
    ensures value { (Δ : Listed (Item Term)) (W : spec.Want) (w : spec.Work) (s : spec.Surroundings) → IsRead (T.means terms.old) env.now work.now here.now Δ w s → plain_want (T.means terms.old) want ≡ W → Answers (T.holds terms.new) (T.means terms.new) (option_map (plain_product (T.means terms.new))) (steps.wanted_product Δ W w fuel.old) fuel.new result }
    ensures held { IfOk result (MayBeProductIn (T.holds terms.new)) }
    ensures less { fuel.new ≤ fuel.old }
    ensures kept { Keeps (T.holds terms.old) (T.means terms.old) (T.holds terms.new) (T.means terms.new) }
{
    match want {
        Want::Of(whole) => {
            let form = reduced(alloc, terms, env, &work.metas, fuel, whole)?;
            match as_product(terms, form) {
                Some((domain, codomain)) => Ok(Some(Product {
                    whole,
                    domain,
                    codomain,
                })),
                None => Ok(None),
            }
        }
        Want::Any => Ok(None),
        Want::AsType => Ok(None),
    }
}

/// A domain meets that of the product that is wanted. Then that product's codomain is wanted of the body.
pub fn met_domain<T: Terms>(
    alloc: Global,
    terms: &mut T,
    env: &Env<T::Handle>,
    fuel: &mut Fuel,
    product: Option<Product<T::Handle>>,
    domain: Typed<T::Handle>,
    here: &Here<'_, '_, T::Handle>,
) -> Result<(Work<T::Handle>, Want<T::Handle>), ElabFault<T::Handle>>
    requires held { IsHeld (T.holds terms.old) env.now domain.work here.now }
    requires product { MayBeProductIn (T.holds terms.old) product }
    requires term { T.holds terms.old domain.term }
    ensures value { (Δ : Listed (Item Term)) (P : Option steps.Product) (a : spec.Made) (s : spec.Surroundings) → IsRead (T.means terms.old) env.now domain.work here.now Δ a.work s → option_map (plain_product (T.means terms.old)) product ≡ P → T.means terms.old domain.term ≡ a.term → Answers (T.holds terms.new) (T.means terms.new) (λ r. (plain_work (T.means terms.new) r.0, plain_want (T.means terms.new) r.1)) (steps.met_domain Δ P a s fuel.old) fuel.new result }
    ensures held { IfOk result (λ r. All (IsDeclOf (T.holds terms.new)) r.0.metas × IsWantIn (T.holds terms.new) r.1) }
    ensures less { fuel.new ≤ fuel.old }
    ensures kept { Keeps (T.holds terms.old) (T.means terms.old) (T.holds terms.new) (T.means terms.new) }
{
    let Typed { work, term, ty: _ } = domain;
    match product {
        None => Ok((work, Want::Any)),
        Some(product) => {
            let wanted = product.domain;
            let work = unified(alloc, terms, env, fuel, work, here, term, wanted)?;
            Ok((work, Want::Of(product.codomain)))
        }
    }
}

/// The product of an abstraction's domain and its body's type, unless that is `□`, in a context of so many entries.
fn function_type<T: Terms>(
    alloc: Global,
    terms: &mut T,
    depth: u32,
    domain: T::Handle,
    ty: T::Handle,
) -> Result<T::Handle, ElabFault<T::Handle>>
    requires domain { T.holds terms.old domain }
    requires ty { T.holds terms.old ty }
    requires room { depth < 999999000 }
    ensures value { (n : ℕ) → Answers (T.holds terms.new) (T.means terms.new) (T.means terms.new) (spec.product_or (NotType (depth + 1) Square) (T.means terms.old domain) (T.means terms.old ty) n) n result }
    ensures held { IfOk result (T.holds terms.new) }
    ensures kept { Keeps (T.holds terms.old) (T.means terms.old) (T.holds terms.new) (T.means terms.new) }
{
    if is_square(terms, ty) {
        return Err(ElabFault::NotType {
            depth: depth + 1,
            term: ty,
        });
    }
    Ok(terms.make(alloc, View::Pi(domain, ty))?)
}

/// The abstraction over a domain of a body.
pub fn abstracted<T: Terms>(
    alloc: Global,
    terms: &mut T,
    env: &Env<T::Handle>,
    fuel: &mut Fuel,
    want: Want<T::Handle>,
    product: Option<Product<T::Handle>>,
    domain: T::Handle,
    body: Typed<T::Handle>,
    here: &Here<'_, '_, T::Handle>,
) -> Result<Typed<T::Handle>, ElabFault<T::Handle>>
    requires held { IsHeld (T.holds terms.old) env.now body.work here.now }
    requires want { IsWantIn (T.holds terms.old) want }
    requires product { MayBeProductIn (T.holds terms.old) product }
    requires domain { T.holds terms.old domain }
    requires term { T.holds terms.old body.term }
    requires ty { T.holds terms.old body.ty }
    ensures value { (Δ : Listed (Item Term)) (W : spec.Want) (P : Option steps.Product) (A : Term) (m : spec.Made) (s : spec.Surroundings) → IsRead (T.means terms.old) env.now body.work here.now Δ m.work s → plain_want (T.means terms.old) want ≡ W → option_map (plain_product (T.means terms.old)) product ≡ P → T.means terms.old domain ≡ A → T.means terms.old body.term ≡ m.term → T.means terms.old body.ty ≡ m.ty → Answers (T.holds terms.new) (T.means terms.new) (plain_typed (T.means terms.new)) (steps.abstracted Δ W P A m s fuel.old) fuel.new result }
    ensures held { IfOk result (IsTypedIn (T.holds terms.new)) }
    ensures less { fuel.new ≤ fuel.old }
    ensures kept { Keeps (T.holds terms.old) (T.means terms.old) (T.holds terms.new) (T.means terms.new) }
{
    let Typed { work, term, ty } = body;
    let term = terms.make(alloc, View::Lam(domain, term))?;
    match product {
        Some(product) => {
            let ty = product.whole;
            Ok(Typed { work, term, ty })
        }
        None => {
            let ty = function_type(alloc, terms, depth_of(here.entries), domain, ty)?;
            let typed = Typed { work, term, ty };
            meet(alloc, terms, env, fuel, want, here, typed)
        }
    }
}

/// The product of a domain and a codomain, whose sort is the product's.
pub fn product<T: Terms>(
    alloc: Global,
    terms: &mut T,
    env: &Env<T::Handle>,
    fuel: &mut Fuel,
    want: Want<T::Handle>,
    domain: T::Handle,
    codomain: Typed<T::Handle>,
    here: &Here<'_, '_, T::Handle>,
) -> Result<Typed<T::Handle>, ElabFault<T::Handle>>
    requires held { IsHeld (T.holds terms.old) env.now codomain.work here.now }
    requires want { IsWantIn (T.holds terms.old) want }
    requires domain { T.holds terms.old domain }
    requires term { T.holds terms.old codomain.term }
    requires ty { T.holds terms.old codomain.ty }
    ensures value { (Δ : Listed (Item Term)) (W : spec.Want) (A : Term) (b : spec.Made) (s : spec.Surroundings) → IsRead (T.means terms.old) env.now codomain.work here.now Δ b.work s → plain_want (T.means terms.old) want ≡ W → T.means terms.old domain ≡ A → T.means terms.old codomain.term ≡ b.term → T.means terms.old codomain.ty ≡ b.ty → Answers (T.holds terms.new) (T.means terms.new) (plain_typed (T.means terms.new)) (spec.meet Δ W b.work s (Pi A b.term) b.ty fuel.old) fuel.new result }
    ensures held { IfOk result (IsTypedIn (T.holds terms.new)) }
    ensures less { fuel.new ≤ fuel.old }
    ensures kept { Keeps (T.holds terms.old) (T.means terms.old) (T.holds terms.new) (T.means terms.new) }
{
    let Typed { work, term, ty } = codomain;
    let term = terms.make(alloc, View::Pi(domain, term))?;
    let typed = Typed { work, term, ty };
    meet(alloc, terms, env, fuel, want, here, typed)
}
