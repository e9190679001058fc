//! `apply` on a goal: a term is applied to new metavariables until its type is the goal's.

ghost use Rattle.std.specs.Prelude.{◌≡◌, ◌<◌, ◌≤◌, ◌++◌, ◌∷◌, [], All, IfOk, IfSome, Some, List as Listed, length, map};
ghost use Rattle.ld_trees.specs.Term.{Term};
ghost use Rattle.ld_terms.specs.Views.{Keeps, terms_of};
ghost use Rattle.ld_terms.specs.declared.globals.Decl.{Decl as Declared};
ghost use Rattle.ld_terms.specs.declared.globals.Item.{Item};
ghost use Rattle.term_syntax.specs.ReadsBack.{IsContext};
ghost use Rattle.conversion.specs.Globals.{AreGlobalsOf, AreLocals, IsDeclOf};
ghost use Rattle.kernel_check.specs.Steps.{AreParts};
ghost use Rattle.meta_context.specs.Entered.{names_of};
ghost use Rattle.meta_context.specs.Plain.{plain_items, plain_locals, rules_env};
ghost use Rattle.goal_state.specs.State.{plain_decl, plain_metas};
ghost use Rattle.unification.specs.Patterns.{over_all, variables_from};
ghost use Rattle.pattern_unify.specs.Answers.{AreRead};
ghost use Rattle.move_set.specs.Refusals.{Refusal};
ghost use Rattle.move_set.specs.Answers.{Answers, IsApplicationIn, IsTurn, ShowsRefusal, application_of, plain_application};
ghost use Rattle.move_set.specs.Applying as spec;

use crate::fault::MoveFault;
use conversion::whnf;
use ld_terms::{Decl, Fuel, List, Local, Terms, View, subst_all};
use meta_context::{Both, Env, Metas};
use pattern_unify::{declare_in, unify};
use std::alloc::{AllocError, Global};

/// A term with its type, applied so far to these new metavariables.
#[derive(Drop)]
pub struct Application<H: Copy> {
    pub metas: Metas<H>,
    pub args: List<u32>,
    pub term: H,
    pub ty: H,
}

/// A term with its type, applied to none yet.
pub fn unapplied<H: Copy>(alloc: Global, metas: Metas<H>, term: H, ty: H) -> Application<H>
    ensures metas { result.metas ≡ metas }
    ensures args { result.args ≡ [] }
    ensures term { result.term ≡ term }
    ensures ty { result.ty ≡ ty }
{
    let args = List::of(Vec::new(alloc));
    Application {
        metas,
        args,
        term,
        ty,
    }
}

/// What one turn makes of an application: its type is the goal's in these metavariables, or it has one argument more.
#[derive(Drop)]
pub enum Turn<H: Copy> {
    Fitted(Application<H>),
    Longer(Application<H>),
}

/// The domain and the codomain of a product.
fn parts<T: Terms>(terms: &T, h: T::Handle) -> Option<(T::Handle, T::Handle)>
    requires { T.holds terms.now h }
    ensures parts { AreParts (T.means terms.now) (T.means terms.now h) result }
    ensures held { IfSome result (λ p. T.holds terms.now p.0 × T.holds terms.now p.1) }
{
    match terms.node(h) {
        View::Pi(domain, codomain) => Some((domain, codomain)),
        _ => None,
    }
}

/// The domain and the codomain of a type that is a product at weak head form, else a refusal.
pub fn product_of<T: Terms>(
    alloc: Global,
    terms: &mut T,
    env: &Env<T::Handle>,
    metas: &Metas<T::Handle>,
    fuel: &mut Fuel,
    ty: T::Handle,
    refusal: MoveFault<T::Handle>,
) -> Result<(T::Handle, T::Handle), MoveFault<T::Handle>>
    requires globals { AreGlobalsOf (T.holds terms.old) env.now metas.now }
    requires ty { T.holds terms.old ty }
    ensures value { (Δ : Listed (Item Term)) (Σ : Listed (Declared Term)) (A : Term) (r : Refusal) → AreRead (T.means terms.old) env.now metas.now Δ Σ → T.means terms.old ty ≡ A → ShowsRefusal (T.holds terms.old) (T.means terms.old) r refusal → Answers (T.holds terms.new) (T.means terms.new) (λ p. (T.means terms.new p.0, T.means terms.new p.1)) (spec.product_of (rules_env Δ) r Σ A fuel.old) fuel.new result }
    ensures held { IfOk result (λ p. T.holds terms.new p.0 × T.holds terms.new p.1) }
    ensures less { fuel.new ≤ fuel.old }
    ensures kept { Keeps (T.holds terms.old) (T.means terms.old) (T.holds terms.new) (T.means terms.new) }
{
    let globals = Both { env, metas };
    let form = whnf(alloc, terms, &globals, fuel, ty)?;
    match parts(&*terms, form) {
        Some(parts) => Ok(parts),
        None => Err(refusal),
    }
}

/// How many entries a context has.
pub fn count_of<H>(ctx: &[Local<H>]) -> u32
    requires { length ctx.now < 999999000 }
    ensures { result ≡ length ctx.now }
{
    ctx.len() as u32
}

/// All variables of a context of so many entries, that of the entry entered first in front.
fn variables<T: Terms>(
    alloc: Global,
    terms: &mut T,
    count: u32,
) -> Result<Vec<T::Handle>, AllocError>
    ensures value { IfOk result (λ v. terms_of (map (T.means terms.new) v.items) ≡ variables_from 0 count) }
    ensures held { IfOk result (λ v. All (T.holds terms.new) v.items) }
    ensures kept { Keeps (T.holds terms.old) (T.means terms.old) (T.holds terms.new) (T.means terms.new) }
{
    let mut made = Vec::new(alloc);
    let mut left = count;
    while left > 0 {
        left -= 1;
        made.push(terms.make(alloc, View::Var(left))?)?;
    }
    Ok(made)
}

/// A metavariable applied to all variables of a context of so many entries.
pub fn over_all<T: Terms>(
    alloc: Global,
    terms: &mut T,
    m: u32,
    count: u32,
) -> Result<T::Handle, AllocError>
    ensures value { IfOk result (λ h. T.means terms.new h ≡ over_all m count) }
    ensures held { IfOk result (T.holds terms.new) }
    ensures kept { Keeps (T.holds terms.old) (T.means terms.old) (T.holds terms.new) (T.means terms.new) }
{
    let args = variables(alloc, terms, count)?;
    terms.make(alloc, View::Meta(m, &args))
}

/// The numbers with one more behind them.
fn with_number(numbers: List<u32>, m: u32) -> Result<List<u32>, AllocError>
    ensures { IfOk result (λ l. l ≡ numbers ++ m ∷ []) }
{
    let mut numbers = numbers.into_vec();
    numbers.push(m)?;
    Ok(List::of(numbers))
}

/// A term applied to metavariable m over all variables of a context of so many entries, where its type has that codomain.
fn one_more<T: Terms>(
    alloc: Global,
    terms: &mut T,
    count: u32,
    metas: Metas<T::Handle>,
    args: List<u32>,
    term: T::Handle,
    codomain: T::Handle,
    m: u32,
) -> Result<Application<T::Handle>, AllocError>
    requires held { All (IsDeclOf (T.holds terms.old)) metas }
    requires term { T.holds terms.old term }
    requires codomain { T.holds terms.old codomain }
    ensures value { IfOk result (λ a. plain_application (T.means terms.new) a ≡ spec.longer (plain_metas (T.means terms.old) metas) args (T.means terms.old term) (T.means terms.old codomain) m count) }
    ensures held { IfOk result (IsApplicationIn (T.holds terms.new)) }
    ensures kept { Keeps (T.holds terms.old) (T.means terms.old) (T.holds terms.new) (T.means terms.new) }
{
    let u = over_all(alloc, terms, m, count)?;
    let term = terms.make(alloc, View::App(term, u))?;
    let mut put_in = Vec::new(alloc);
    put_in.push(u)?;
    let ty = subst_all(alloc, terms, codomain, &put_in)?;
    let args = with_number(args, m)?;
    Ok(Application {
        metas,
        args,
        term,
        ty,
    })
}

/// An application to one more metavariable, over a context, where its type is a product at weak head form; else a refusal.
fn longer<T: Terms>(
    alloc: Global,
    terms: &mut T,
    env: &Env<T::Handle>,
    fuel: &mut Fuel,
    ctx: &[Local<T::Handle>],
    refusal: MoveFault<T::Handle>,
    here: Application<T::Handle>,
) -> Result<Application<T::Handle>, MoveFault<T::Handle>>
    requires globals { AreGlobalsOf (T.holds terms.old) env.now here.metas }
    requires context { AreLocals (T.holds terms.old) ctx.now }
    requires names { IsContext (names_of ctx.now) }
    requires term { T.holds terms.old here.term }
    requires ty { T.holds terms.old here.ty }
    ensures value { (Δ : Listed (Item Term)) (a : spec.Application) (d : Declared Term) (r : Refusal) → plain_items (T.means terms.old) env.now ≡ Δ → plain_application (T.means terms.old) here ≡ a → plain_locals (T.means terms.old) ctx.now ≡ d.ctx → ShowsRefusal (T.holds terms.old) (T.means terms.old) r refusal → Answers (T.holds terms.new) (T.means terms.new) (plain_application (T.means terms.new)) (spec.applied (rules_env Δ) d r a fuel.old) fuel.new result }
    ensures held { IfOk result (IsApplicationIn (T.holds terms.new)) }
    ensures less { fuel.new ≤ fuel.old }
    ensures kept { Keeps (T.holds terms.old) (T.means terms.old) (T.holds terms.new) (T.means terms.new) }
{
    let Application {
        metas,
        args,
        term,
        ty,
    } = here;
    let (domain, codomain) = product_of(alloc, terms, env, &metas, fuel, ty, refusal)?;
    let (more, m) = declare_in(alloc, terms, env, &metas, fuel, ctx, domain)?;
    let count = count_of(ctx);
    Ok(one_more(alloc, terms, count, more, args, term, codomain, m)?)
}

/// The application in other metavariables, in which its type is the goal's.
fn fitted<H: Copy>(metas: Metas<H>, here: Application<H>) -> Application<H>
    ensures metas { result.metas ≡ metas }
    ensures args { result.args ≡ here.args }
    ensures term { result.term ≡ here.term }
    ensures ty { result.ty ≡ here.ty }
{
    let Application {
        metas: _,
        args,
        term,
        ty,
    } = here;
    Application {
        metas,
        args,
        term,
        ty,
    }
}

/// One turn: the types are unified; where that is refused, it is given up for one more argument, if the type is a product.
fn take_turn<T: Terms>(
    alloc: Global,
    terms: &mut T,
    env: &Env<T::Handle>,
    fuel: &mut Fuel,
    decl: &Decl<T::Handle>,
    here: Application<T::Handle>,
) -> Result<Turn<T::Handle>, MoveFault<T::Handle>>
    requires globals { AreGlobalsOf (T.holds terms.old) env.now here.metas }
    requires goal { IsDeclOf (T.holds terms.old) decl.now }
    requires names { IsContext (names_of decl.now.ctx) }
    requires term { T.holds terms.old here.term }
    requires ty { T.holds terms.old here.ty }
    ensures value { (Δ : Listed (Item Term)) (a : spec.Application) (d : Declared Term) → plain_items (T.means terms.old) env.now ≡ Δ → plain_application (T.means terms.old) here ≡ a → plain_decl (T.means terms.old) decl.now ≡ d → IsTurn (T.holds terms.new) (T.means terms.new) (spec.apply (rules_env Δ) d) a fuel.old fuel.new result }
    ensures held { IfOk result (λ r. IsApplicationIn (T.holds terms.new) (application_of r)) }
    ensures kept { Keeps (T.holds terms.old) (T.means terms.old) (T.holds terms.new) (T.means terms.new) }
{
    let ctx = decl.ctx.as_slice();
    let depth = count_of(ctx);
    match unify(
        alloc,
        terms,
        env,
        &here.metas,
        fuel,
        depth,
        here.ty,
        decl.ty,
    ) {
        Ok(metas) => Ok(Turn::Fitted(fitted(metas, here))),
        Err(fault) => match MoveFault::from(fault) {
            MoveFault::Fuel => Err(MoveFault::Fuel),
            MoveFault::Memory => Err(MoveFault::Memory),
            refusal => {
                let more = longer(alloc, terms, env, fuel, ctx, refusal, here)?;
                Ok(Turn::Longer(more))
            }
        },
    }
}

/// The term is applied to new metavariables, over the context of the goal's declaration, until its type is the goal's.
pub fn apply<T: Terms>(
    alloc: Global,
    terms: &mut T,
    env: &Env<T::Handle>,
    fuel: &mut Fuel,
    decl: &Decl<T::Handle>,
    start: Application<T::Handle>,
) -> Result<Application<T::Handle>, MoveFault<T::Handle>>
    requires globals { AreGlobalsOf (T.holds terms.old) env.now start.metas }
    requires goal { IsDeclOf (T.holds terms.old) decl.now }
    requires names { IsContext (names_of decl.now.ctx) }
    requires term { T.holds terms.old start.term }
    requires ty { T.holds terms.old start.ty }
    ensures value { (Δ : Listed (Item Term)) (a : spec.Application) (d : Declared Term) → plain_items (T.means terms.old) env.now ≡ Δ → plain_application (T.means terms.old) start ≡ a → plain_decl (T.means terms.old) decl.now ≡ d → Answers (T.holds terms.new) (T.means terms.new) (plain_application (T.means terms.new)) (spec.apply (rules_env Δ) d a fuel.old) fuel.new result }
    ensures held { IfOk result (IsApplicationIn (T.holds terms.new)) }
    ensures kept { Keeps (T.holds terms.old) (T.means terms.old) (T.holds terms.new) (T.means terms.new) }
{
    let mut here = start;
    loop {
        match take_turn(alloc, terms, env, fuel, decl, here)? {
            Turn::Fitted(fitted) => return Ok(fitted),
            Turn::Longer(more) => here = more,
        }
    }
}
