//! The move `have`, by which a goal is cut in two.

ghost use Rattle.std.specs.Prelude.{◌≡◌, All, IfOk, Some, ℕ, List as Listed, length, slice_get};
ghost use Rattle.ld_trees.specs.Term.{App, Lam, Term};
ghost use Rattle.ld_terms.specs.Names.{IsTextName};
ghost use Rattle.ld_terms.specs.Views.{Keeps};
ghost use Rattle.ld_terms.specs.declared.globals.Decl.{Decl as Declared};
ghost use Rattle.ld_terms.specs.declared.globals.Item.{Item};
ghost use Rattle.ld_terms.specs.declared.globals.Local.{Local as Entry};
ghost use Rattle.term_syntax.specs.ReadsBack.{IsContext};
ghost use Rattle.conversion.specs.Globals.{AreGlobalsOf, AreLocals, IsDeclOf};
ghost use Rattle.meta_context.specs.Declaring.{IsOpen};
ghost use Rattle.meta_context.specs.Entered.{names_of};
ghost use Rattle.meta_context.specs.Plain.{plain_items, plain_locals, rules_env};
ghost use Rattle.meta_laws.specs.Legality.{IsLegalMetas};
ghost use Rattle.goal_state.specs.State.{plain_decl, plain_metas, rules_metas};
ghost use Rattle.unification.specs.Patterns.{over_all};
ghost use Rattle.pattern_unify.specs.Answers.{AreRead};
ghost use Rattle.move_set.specs.Answers.{Answers, plain_moved};
ghost use Rattle.move_set.specs.Moves as spec;

use crate::applying::{count_of, over_all};
use crate::asked::first_asked;
use crate::fault::MoveFault;
use crate::moves::{Moved, function_of, has_entry, settled};
use elaborate::{Made, check_type};
use ld_terms::{Decl, Fuel, List, Local, Name, Terms, View, shift};
use meta_context::{Env, Metas};
use pattern_unify::{declare_in, extend};
use std::alloc::{AllocError, Global};
use term_text::Surface;

/// The abstraction over a domain of metavariable `k` applied to all variables of a context of `longer` entries, applied to metavariable `m`
/// over all variables of one of `count` entries.
fn applied_to<T: Terms>(
    alloc: Global,
    terms: &mut T,
    domain: T::Handle,
    k: u32,
    longer: u32,
    m: u32,
    count: u32,
) -> Result<T::Handle, AllocError>
    requires { T.holds terms.old domain }
    ensures value { IfOk result (λ h. T.means terms.new h ≡ App (Lam (T.means terms.old domain) (over_all k longer)) (over_all m count)) }
    ensures held { IfOk result (T.holds terms.new) }
    ensures kept { Keeps (T.holds terms.old) (T.means terms.old) (T.holds terms.new) (T.means terms.new) }
{
    let function = function_of(alloc, terms, domain, k, longer)?;
    let argument = over_all(alloc, terms, m, count)?;
    terms.make(alloc, View::App(function, argument))
}

/// Metavariable `m` has been declared over the goal's context with the domain, and the context is extended by it. A metavariable is declared
/// there with the goal's type, and goal g, which is open, is settled by its abstraction over the domain, applied to `m`.
fn cut_over<T: Terms>(
    alloc: Global,
    terms: &mut T,
    env: &Env<T::Handle>,
    metas: &Metas<T::Handle>,
    fuel: &mut Fuel,
    g: u32,
    decl: &Decl<T::Handle>,
    m: u32,
    ctx: &[Local<T::Handle>],
    domain: T::Handle,
    holes: List<(u32, u64)>,
) -> Result<Moved<T::Handle>, MoveFault<T::Handle>>
    requires globals { AreGlobalsOf (T.holds terms.old) env.now metas.now }
    requires open { IsOpen metas.now g }
    requires goal { IsDeclOf (T.holds terms.old) decl.now }
    requires own_names { IsContext (names_of decl.now.ctx) }
    requires context { AreLocals (T.holds terms.old) ctx.now }
    requires names { IsContext (names_of ctx.now) }
    requires domain { T.holds terms.old domain }
    ensures value { (Δ : Listed (Item Term)) (Σ0 Σ1 Σ : Listed (Declared Term)) (d : Declared Term) (Γ : Listed (Entry Term)) (A : Term) → AreRead (T.means terms.old) env.now metas.now Δ Σ → plain_decl (T.means terms.old) decl.now ≡ d → m ≡ length Σ1 → plain_locals (T.means terms.old) ctx.now ≡ Γ → T.means terms.old domain ≡ A → Answers (T.holds terms.new) (T.means terms.new) (plain_moved (T.means terms.new)) (spec.cut_over Δ Σ0 g d Σ1 Σ Γ A holes fuel.old) fuel.new result }
    ensures held { IfOk result (λ r. All (IsDeclOf (T.holds terms.new)) r.metas) }
    ensures kept { Keeps (T.holds terms.old) (T.means terms.old) (T.holds terms.new) (T.means terms.new) }
{
    let goal = shift(alloc, terms, decl.ty, 0, 1)?;
    let (more, k) = declare_in(alloc, terms, env, metas, fuel, ctx, goal)?;
    let longer = count_of(ctx);
    let count = count_of(decl.ctx.as_slice());
    let value = applied_to(alloc, terms, domain, k, longer, m, count)?;
    let fresh = List::from_slice(alloc, &[m, k])?;
    settled(alloc, terms, env, more, fuel, g, value, fresh, holes)
}

/// Goal g, which is open, is cut in two by a type: a metavariable is declared over its context with the type, and one with the goal's type
/// over the context extended by an entry of that name.
fn cut<T: Terms>(
    alloc: Global,
    terms: &mut T,
    env: &Env<T::Handle>,
    metas: &Metas<T::Handle>,
    fuel: &mut Fuel,
    g: u32,
    decl: &Decl<T::Handle>,
    name: &Name,
    domain: T::Handle,
    holes: List<(u32, u64)>,
) -> Result<Moved<T::Handle>, MoveFault<T::Handle>>
    requires globals { AreGlobalsOf (T.holds terms.old) env.now metas.now }
    requires open { IsOpen metas.now g }
    requires goal { IsDeclOf (T.holds terms.old) decl.now }
    requires names { IsContext (names_of decl.now.ctx) }
    requires named { IsTextName name.now }
    requires domain { T.holds terms.old domain }
    ensures value { (Δ : Listed (Item Term)) (Σ0 Σ : Listed (Declared Term)) (d : Declared Term) (A : Term) → AreRead (T.means terms.old) env.now metas.now Δ Σ → plain_decl (T.means terms.old) decl.now ≡ d → T.means terms.old domain ≡ A → Answers (T.holds terms.new) (T.means terms.new) (plain_moved (T.means terms.new)) (spec.cut Δ Σ0 g d Σ name.now A holes fuel.old) fuel.new result }
    ensures held { IfOk result (λ r. All (IsDeclOf (T.holds terms.new)) r.metas) }
    ensures kept { Keeps (T.holds terms.old) (T.means terms.old) (T.holds terms.new) (T.means terms.new) }
{
    let ctx = decl.ctx.as_slice();
    let (more, m) = declare_in(alloc, terms, env, metas, fuel, ctx, domain)?;
    let entries = extend(alloc, terms, env, &more, fuel, ctx, name, domain)?;
    let ctx = entries.as_slice();
    cut_over(
        alloc, terms, env, &more, fuel, g, decl, m, ctx, domain, holes,
    )
}

/// An open goal of legal metavariables is cut in two by the type that the text says, with an entry of that name.
fn cut_by<T: Terms>(
    alloc: Global,
    terms: &mut T,
    env: &Env<T::Handle>,
    metas: &Metas<T::Handle>,
    fuel: &mut Fuel,
    g: u32,
    name: &Name,
    text: &Surface,
) -> Result<Moved<T::Handle>, MoveFault<T::Handle>>
    requires globals { AreGlobalsOf (T.holds terms.old) env.now metas.now }
    requires legal { IsLegalMetas (rules_env (plain_items (T.means terms.old) env.now)) (rules_metas (plain_metas (T.means terms.old) metas.now)) }
    requires open { IsOpen metas.now g }
    requires named { IsTextName name.now }
    ensures value { (Δ : Listed (Item Term)) (Σ : Listed (Declared Term)) (d : Declared Term) → AreRead (T.means terms.old) env.now metas.now Δ Σ → slice_get Σ g ≡ Some d → Answers (T.holds terms.new) (T.means terms.new) (plain_moved (T.means terms.new)) (spec.cut_by Δ Σ g d name.now text.now fuel.old) fuel.new result }
    ensures held { IfOk result (λ r. All (IsDeclOf (T.holds terms.new)) r.metas) }
    ensures kept { Keeps (T.holds terms.old) (T.means terms.old) (T.holds terms.new) (T.means terms.new) }
{
    // The number tells that the contexts are as short as those of metavariables are.
    let _count = metas.next();
    match metas.decl(g) {
        Some(decl) => {
            let ctx = decl.ctx.as_slice();
            let made = check_type(alloc, terms, env, metas, fuel, ctx, text)?;
            let Made {
                metas: first,
                term,
                ty: _,
                goals: _,
                holes,
            } = made;
            cut(alloc, terms, env, &first, fuel, g, decl, name, term, holes)
        }
        None => unreachable!(),
    }
}

/// `have x : t` on an open goal of legal metavariables: a new goal for the type that the text says, which has no `?`, and one for the goal's
/// type over its context and an entry of that name for the type.
pub fn have<T: Terms>(
    alloc: Global,
    terms: &mut T,
    env: &Env<T::Handle>,
    metas: &Metas<T::Handle>,
    fuel: &mut Fuel,
    g: u32,
    name: &Name,
    text: &Surface,
) -> Result<Moved<T::Handle>, MoveFault<T::Handle>>
    requires globals { AreGlobalsOf (T.holds terms.old) env.now metas.now }
    requires legal { IsLegalMetas (rules_env (plain_items (T.means terms.old) env.now)) (rules_metas (plain_metas (T.means terms.old) metas.now)) }
    requires open { IsOpen metas.now g }
    requires named { IsTextName name.now }
    ensures value { (Δ : Listed (Item Term)) (Σ : Listed (Declared Term)) (d : Declared Term) → AreRead (T.means terms.old) env.now metas.now Δ Σ → slice_get Σ g ≡ Some d → Answers (T.holds terms.new) (T.means terms.new) (plain_moved (T.means terms.new)) (spec.have Δ Σ g d name.now text.now fuel.old) fuel.new result }
    ensures held { IfOk result (λ r. All (IsDeclOf (T.holds terms.new)) r.metas) }
    ensures kept { Keeps (T.holds terms.old) (T.means terms.old) (T.holds terms.new) (T.means terms.new) }
{
    match metas.decl(g) {
        Some(decl) => {
            if has_entry(decl.ctx.as_slice(), name) {
                let name = name.copy(alloc)?;
                return Err(MoveFault::NameTaken { name });
            }
            match first_asked(text) {
                Some(at) => Err(MoveFault::Unsolved { at }),
                None => cut_by(alloc, terms, env, metas, fuel, g, name, text),
            }
        }
        None => unreachable!(),
    }
}
