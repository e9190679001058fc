//! The moves `intro`, `exact`, `refine` and `apply` on a goal.

ghost use Rattle.std.specs.Prelude.{◌≡◌, ◌++◌, All, IfOk, Some, ℕ, List as Listed, slice_get};
ghost use Rattle.ld_trees.specs.Term.{Term, Lam};
ghost use Rattle.ld_terms.specs.Names.{IsTextName};
ghost use Rattle.ld_terms.specs.Views.{Keeps};
ghost use Rattle.ld_terms.specs.declared.globals.Decl.{Decl};
ghost use Rattle.ld_terms.specs.declared.globals.Item.{Item};
ghost use Rattle.ld_terms.specs.declared.globals.Local.{Local};
ghost use Rattle.term_syntax.specs.ReadsBack.{IsContext};
ghost use Rattle.conversion.specs.Globals.{AreGlobalsOf, AreLocals, IsDeclOf};
ghost use Rattle.meta_context.specs.Declaring.{IsOpen};
ghost use Rattle.meta_context.specs.Entered.{names_of};
ghost use Rattle.meta_context.specs.Plain.{plain_items, plain_locals, rules_env};
ghost use Rattle.meta_laws.specs.Legality.{IsLegalMetas};
ghost use Rattle.goal_state.specs.State.{plain_metas, rules_metas};
ghost use Rattle.unification.specs.Patterns.{over_all};
ghost use Rattle.pattern_unify.specs.Answers.{AreRead};
ghost use Rattle.move_set.specs.Answers.{Answers, plain_moved};
ghost use Rattle.move_set.specs.Moves as spec;

use crate::applying::{Application, apply, count_of, over_all, product_of, unapplied};
use crate::asked::first_asked;
use crate::fault::MoveFault;
use elaborate::{Made, check, synth};
use ld_terms::{Fuel, List, Local, Name, Terms, View};
use meta_context::{Env, Metas};
use pattern_unify::{declare_in, extend, settle};
use std::alloc::{AllocError, Global};
use term_text::Surface;

/// What a move has come to: the metavariables, the new goals in order, and the metavariables of the `_` of its text with their places.
#[derive(Drop)]
pub struct Moved<H: Copy> {
    pub metas: Metas<H>,
    pub fresh: List<u32>,
    pub holes: List<(u32, u64)>,
}

/// Whether an entry has a name.
pub fn has_entry<H>(ctx: &[Local<H>], name: &Name) -> bool
    ensures { result ≡ spec.has_entry ctx.now name.now }
{
    ctx.iter()
        .any(|entry| entry.name.as_bytes() == name.as_bytes())
}

/// Goal g, which is open, is settled by a term.
pub fn settled<T: Terms>(
    alloc: Global,
    terms: &mut T,
    env: &Env<T::Handle>,
    metas: Metas<T::Handle>,
    fuel: &mut Fuel,
    g: u32,
    value: T::Handle,
    fresh: List<u32>,
    holes: List<(u32, u64)>,
) -> Result<Moved<T::Handle>, MoveFault<T::Handle>>
    requires globals { AreGlobalsOf (T.holds terms.old) env.now metas }
    requires open { IsOpen metas g }
    requires value { T.holds terms.old value }
    ensures value { (Δ : Listed (Item Term)) (Σ0 Σ : Listed (Decl Term)) (d : Decl Term) (v : Term) → AreRead (T.means terms.old) env.now metas Δ Σ → T.means terms.old value ≡ v → Answers (T.holds terms.new) (T.means terms.new) (plain_moved (T.means terms.new)) (spec.settled Δ Σ0 g d Σ v fresh holes fuel.old) fuel.new result }
    ensures held { IfOk result (λ r. All (IsDeclOf (T.holds terms.new)) r.metas) }
    ensures kept { Keeps (T.holds terms.old) (T.means terms.old) (T.holds terms.new) (T.means terms.new) }
{
    let metas = settle(alloc, terms, env, &metas, fuel, g, value)?;
    Ok(Moved {
        metas,
        fresh,
        holes,
    })
}

/// The abstraction over a domain of a metavariable applied to all variables of a context of so many entries.
pub fn function_of<T: Terms>(
    alloc: Global,
    terms: &mut T,
    domain: T::Handle,
    m: u32,
    count: u32,
) -> Result<T::Handle, AllocError>
    requires { T.holds terms.old domain }
    ensures value { IfOk result (λ h. T.means terms.new h ≡ Lam (T.means terms.old domain) (over_all m count)) }
    ensures held { IfOk result (T.holds terms.new) }
    ensures kept { Keeps (T.holds terms.old) (T.means terms.old) (T.holds terms.new) (T.means terms.new) }
{
    let body = over_all(alloc, terms, m, count)?;
    terms.make(alloc, View::Lam(domain, body))
}

/// A metavariable is declared over a context with the codomain, and goal g, which is open, is settled by its abstraction over the domain.
fn abstracted<T: Terms>(
    alloc: Global,
    terms: &mut T,
    env: &Env<T::Handle>,
    metas: &Metas<T::Handle>,
    fuel: &mut Fuel,
    g: u32,
    ctx: &[Local<T::Handle>],
    domain: T::Handle,
    codomain: T::Handle,
) -> Result<Moved<T::Handle>, MoveFault<T::Handle>>
    requires globals { AreGlobalsOf (T.holds terms.old) env.now metas.now }
    requires open { IsOpen metas.now g }
    requires context { AreLocals (T.holds terms.old) ctx.now }
    requires names { IsContext (names_of ctx.now) }
    requires domain { T.holds terms.old domain }
    requires codomain { T.holds terms.old codomain }
    ensures value { (Δ : Listed (Item Term)) (Σ : Listed (Decl Term)) (d : Decl Term) (Γ : Listed (Local Term)) (A B : Term) → AreRead (T.means terms.old) env.now metas.now Δ Σ → plain_locals (T.means terms.old) ctx.now ≡ Γ → T.means terms.old domain ≡ A → T.means terms.old codomain ≡ B → Answers (T.holds terms.new) (T.means terms.new) (plain_moved (T.means terms.new)) (spec.abstracted Δ Σ g d A B Γ fuel.old) fuel.new result }
    ensures held { IfOk result (λ r. All (IsDeclOf (T.holds terms.new)) r.metas) }
    ensures kept { Keeps (T.holds terms.old) (T.means terms.old) (T.holds terms.new) (T.means terms.new) }
{
    let (more, m) = declare_in(alloc, terms, env, metas, fuel, ctx, codomain)?;
    let value = function_of(alloc, terms, domain, m, count_of(ctx))?;
    let fresh = List::from_slice(alloc, &[m])?;
    let holes = List::of(Vec::new(alloc));
    settled(alloc, terms, env, more, fuel, g, value, fresh, holes)
}

/// `intro x` on an open goal: a new goal for the codomain of its type, over its context and an entry of that name for the domain.
pub fn intro<T: Terms>(
    alloc: Global,
    terms: &mut T,
    env: &Env<T::Handle>,
    metas: &Metas<T::Handle>,
    fuel: &mut Fuel,
    g: u32,
    name: &Name,
) -> Result<Moved<T::Handle>, MoveFault<T::Handle>>
    requires globals { AreGlobalsOf (T.holds terms.old) env.now metas.now }
    requires open { IsOpen metas.now g }
    requires named { IsTextName name.now }
    ensures value { (Δ : Listed (Item Term)) (Σ : Listed (Decl Term)) (d : Decl Term) → AreRead (T.means terms.old) env.now metas.now Δ Σ → slice_get Σ g ≡ Some d → Answers (T.holds terms.new) (T.means terms.new) (plain_moved (T.means terms.new)) (spec.intro Δ Σ g d name.now fuel.old) fuel.new result }
    ensures held { IfOk result (λ r. All (IsDeclOf (T.holds terms.new)) r.metas) }
    ensures kept { Keeps (T.holds terms.old) (T.means terms.old) (T.holds terms.new) (T.means terms.new) }
{
    // The number tells that the contexts are as short as those of metavariables are.
    let _count = metas.next();
    match metas.decl(g) {
        Some(decl) => {
            let ctx = decl.ctx.as_slice();
            if has_entry(ctx, name) {
                let name = name.copy(alloc)?;
                return Err(MoveFault::NameTaken { name });
            }
            let refusal = MoveFault::NotProduct;
            let parts = product_of(alloc, terms, env, metas, fuel, decl.ty, refusal)?;
            let entries = extend(alloc, terms, env, metas, fuel, ctx, name, parts.0)?;
            let ctx = entries.as_slice();
            abstracted(alloc, terms, env, metas, fuel, g, ctx, parts.0, parts.1)
        }
        None => unreachable!(),
    }
}

/// `refine t` on an open goal of legal metavariables: the goal is settled by the term, and the `?` of the term are new goals.
pub fn refine<T: Terms>(
    alloc: Global,
    terms: &mut T,
    env: &Env<T::Handle>,
    metas: &Metas<T::Handle>,
    fuel: &mut Fuel,
    g: u32,
    text: &Surface,
) -> Result<Moved<T::Handle>, MoveFault<T::Handle>>
    requires globals { AreGlobalsOf (T.holds terms.old) env.now metas.now }
    requires legal { IsLegalMetas (rules_env (plain_items (T.means terms.old) env.now)) (rules_metas (plain_metas (T.means terms.old) metas.now)) }
    requires open { IsOpen metas.now g }
    ensures value { (Δ : Listed (Item Term)) (Σ : Listed (Decl Term)) (d : Decl Term) → AreRead (T.means terms.old) env.now metas.now Δ Σ → slice_get Σ g ≡ Some d → Answers (T.holds terms.new) (T.means terms.new) (plain_moved (T.means terms.new)) (spec.refine Δ Σ g d text.now fuel.old) fuel.new result }
    ensures held { IfOk result (λ r. All (IsDeclOf (T.holds terms.new)) r.metas) }
    ensures kept { Keeps (T.holds terms.old) (T.means terms.old) (T.holds terms.new) (T.means terms.new) }
{
    // The number tells that the contexts are as short as those of metavariables are.
    let _count = metas.next();
    match metas.decl(g) {
        Some(decl) => {
            let ctx = decl.ctx.as_slice();
            let made = check(alloc, terms, env, metas, fuel, ctx, text, decl.ty)?;
            let Made {
                metas: more,
                term,
                ty: _,
                goals,
                holes,
            } = made;
            settled(alloc, terms, env, more, fuel, g, term, goals, holes)
        }
        None => unreachable!(),
    }
}

/// `exact t` on an open goal of legal metavariables: as [`refine`], for a term without `?`.
pub fn exact<T: Terms>(
    alloc: Global,
    terms: &mut T,
    env: &Env<T::Handle>,
    metas: &Metas<T::Handle>,
    fuel: &mut Fuel,
    g: u32,
    text: &Surface,
) -> Result<Moved<T::Handle>, MoveFault<T::Handle>>
    requires globals { AreGlobalsOf (T.holds terms.old) env.now metas.now }
    requires legal { IsLegalMetas (rules_env (plain_items (T.means terms.old) env.now)) (rules_metas (plain_metas (T.means terms.old) metas.now)) }
    requires open { IsOpen metas.now g }
    ensures value { (Δ : Listed (Item Term)) (Σ : Listed (Decl Term)) (d : Decl Term) → AreRead (T.means terms.old) env.now metas.now Δ Σ → slice_get Σ g ≡ Some d → Answers (T.holds terms.new) (T.means terms.new) (plain_moved (T.means terms.new)) (spec.exact Δ Σ g d text.now fuel.old) fuel.new result }
    ensures held { IfOk result (λ r. All (IsDeclOf (T.holds terms.new)) r.metas) }
    ensures kept { Keeps (T.holds terms.old) (T.means terms.old) (T.holds terms.new) (T.means terms.new) }
{
    match first_asked(text) {
        Some(at) => Err(MoveFault::Unsolved { at }),
        None => refine(alloc, terms, env, metas, fuel, g, text),
    }
}

/// Some numbers and then others. Fails for want of memory alone.
fn joined(first: List<u32>, second: &List<u32>) -> Result<List<u32>, AllocError>
    ensures { IfOk result (λ l. l ≡ first ++ second.now) }
{
    let mut numbers = first.into_vec();
    numbers.extend_from_slice(second.as_slice())?;
    Ok(List::of(numbers))
}

/// `apply t` on an open goal of legal metavariables: the term is applied to new metavariables until its type is the goal's, and the goal is
/// settled by that. The new goals are the `?` of the term and then the arguments.
pub fn apply_to<T: Terms>(
    alloc: Global,
    terms: &mut T,
    env: &Env<T::Handle>,
    metas: &Metas<T::Handle>,
    fuel: &mut Fuel,
    g: u32,
    text: &Surface,
) -> Result<Moved<T::Handle>, MoveFault<T::Handle>>
    requires globals { AreGlobalsOf (T.holds terms.old) env.now metas.now }
    requires legal { IsLegalMetas (rules_env (plain_items (T.means terms.old) env.now)) (rules_metas (plain_metas (T.means terms.old) metas.now)) }
    requires open { IsOpen metas.now g }
    ensures value { (Δ : Listed (Item Term)) (Σ : Listed (Decl Term)) (d : Decl Term) → AreRead (T.means terms.old) env.now metas.now Δ Σ → slice_get Σ g ≡ Some d → Answers (T.holds terms.new) (T.means terms.new) (plain_moved (T.means terms.new)) (spec.apply_to Δ Σ g d text.now fuel.old) fuel.new result }
    ensures held { IfOk result (λ r. All (IsDeclOf (T.holds terms.new)) r.metas) }
    ensures kept { Keeps (T.holds terms.old) (T.means terms.old) (T.holds terms.new) (T.means terms.new) }
{
    // The number tells that the contexts are as short as those of metavariables are.
    let _count = metas.next();
    match metas.decl(g) {
        Some(decl) => {
            let made = synth(alloc, terms, env, metas, fuel, decl.ctx.as_slice(), text)?;
            let Made {
                metas: more,
                term,
                ty,
                goals,
                holes,
            } = made;
            let start = unapplied(alloc, more, term, ty);
            let applied = apply(alloc, terms, env, fuel, decl, start)?;
            let Application {
                metas: more,
                args,
                term,
                ty: _,
            } = applied;
            let fresh = joined(goals, &args)?;
            settled(alloc, terms, env, more, fuel, g, term, fresh, holes)
        }
        None => unreachable!(),
    }
}
