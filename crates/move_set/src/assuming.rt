//! The move `assumption`, by which a goal is settled by an entry of its context.

ghost use Rattle.std.specs.Prelude.{◌≡◌, ◌<◌, All, IfOk, IfSome, Some, ℕ, List as Listed, length, slice_get};
ghost use Rattle.ld_trees.specs.Term.{Term};
ghost use Rattle.ld_rules.specs.Environment.{type_at};
ghost use Rattle.ld_terms.specs.Views.{Keeps};
ghost use Rattle.ld_terms.specs.declared.globals.Decl.{Decl as Declared};
ghost use Rattle.ld_terms.specs.declared.globals.Item.{Item};
ghost use Rattle.term_syntax.specs.ReadsBack.{IsContext};
ghost use Rattle.conversion.specs.Globals.{AreGlobalsOf, AreLocals, IsDeclOf, context_of};
ghost use Rattle.meta_context.specs.Declaring.{IsOpen};
ghost use Rattle.meta_context.specs.Entered.{names_of};
ghost use Rattle.meta_context.specs.Plain.{plain_items, rules_env};
ghost use Rattle.meta_laws.specs.Legality.{IsLegalMetas};
ghost use Rattle.goal_state.specs.State.{plain_decl, plain_metas, rules_metas};
ghost use Rattle.pattern_unify.specs.Answers.{AreRead};
ghost use Rattle.move_set.specs.Answers.{Answers, IsTried, plain_moved};
ghost use Rattle.move_set.specs.Moves as spec;

use crate::applying::count_of;
use crate::fault::MoveFault;
use crate::moves::{Moved, settled};
use ld_terms::{Decl, Fuel, List, Local, Terms, View, shift};
use meta_context::{Env, Metas};
use pattern_unify::{UnifyFault, unify};
use std::alloc::{AllocError, Global};

/// The type of a variable, as a term of the whole context.
fn entry_type<T: Terms>(
    alloc: Global,
    terms: &mut T,
    ctx: &[Local<T::Handle>],
    i: u32,
) -> Result<T::Handle, AllocError>
    requires entries { AreLocals (T.holds terms.old) ctx.now }
    requires room { length ctx.now < 999999000 }
    requires there { i < length ctx.now }
    ensures value { IfOk result (λ h. type_at (context_of (T.means terms.old) ctx.now) i ≡ Some (T.means terms.new h)) }
    ensures held { IfOk result (T.holds terms.new) }
    ensures kept { Keeps (T.holds terms.old) (T.means terms.old) (T.holds terms.new) (T.means terms.new) }
{
    let from_last = i as usize;
    let ty = ctx[ctx.len() - 1 - from_last].ty;
    shift(alloc, terms, ty, 0, i + 1)
}

/// The metavariables in which the type of a variable is the goal's, or `None` where the unification is refused. What a refused one declared
/// is given up.
fn fitting<T: Terms>(
    alloc: Global,
    terms: &mut T,
    env: &Env<T::Handle>,
    metas: &Metas<T::Handle>,
    fuel: &mut Fuel,
    decl: &Decl<T::Handle>,
    i: u32,
) -> Result<Option<Metas<T::Handle>>, MoveFault<T::Handle>>
    requires globals { AreGlobalsOf (T.holds terms.old) env.now metas.now }
    requires goal { IsDeclOf (T.holds terms.old) decl.now }
    requires names { IsContext (names_of decl.now.ctx) }
    requires there { i < length decl.now.ctx }
    ensures value { (Δ : Listed (Item Term)) (Σ : Listed (Declared Term)) (d : Declared Term) (g n : ℕ) → AreRead (T.means terms.old) env.now metas.now Δ Σ → plain_decl (T.means terms.old) decl.now ≡ d → IsTried (T.holds terms.new) (T.means terms.new) (spec.first_fitting Δ Σ g d) i n fuel.old fuel.new result }
    ensures held { IfOk result (λ o. IfSome o (All (IsDeclOf (T.holds terms.new)))) }
    ensures kept { Keeps (T.holds terms.old) (T.means terms.old) (T.holds terms.new) (T.means terms.new) }
{
    let ctx = decl.ctx.as_slice();
    let depth = count_of(ctx);
    let ty = entry_type(alloc, terms, ctx, i)?;
    match unify(alloc, terms, env, metas, fuel, depth, ty, decl.ty) {
        Ok(more) => Ok(Some(more)),
        Err(fault) => match fault {
            UnifyFault::Fuel => Err(MoveFault::Fuel),
            UnifyFault::Memory => Err(MoveFault::Memory),
            _ => Ok(None),
        },
    }
}

/// The last entry of which the type unifies with the goal's, as a variable, and the metavariables in which it does.
fn first_fitting<T: Terms>(
    alloc: Global,
    terms: &mut T,
    env: &Env<T::Handle>,
    metas: &Metas<T::Handle>,
    fuel: &mut Fuel,
    decl: &Decl<T::Handle>,
) -> Result<(u32, Metas<T::Handle>), MoveFault<T::Handle>>
    requires globals { AreGlobalsOf (T.holds terms.old) env.now metas.now }
    requires goal { IsDeclOf (T.holds terms.old) decl.now }
    requires names { IsContext (names_of decl.now.ctx) }
    ensures value { (Δ : Listed (Item Term)) (Σ : Listed (Declared Term)) (d : Declared Term) (g : ℕ) → AreRead (T.means terms.old) env.now metas.now Δ Σ → plain_decl (T.means terms.old) decl.now ≡ d → Answers (T.holds terms.new) (T.means terms.new) (λ p. (p.0, plain_metas (T.means terms.new) p.1)) (spec.first_fitting Δ Σ g d 0 (length d.ctx) fuel.old) fuel.new result }
    ensures held { IfOk result (λ p. All (IsDeclOf (T.holds terms.new)) p.1) }
    ensures kept { Keeps (T.holds terms.old) (T.means terms.old) (T.holds terms.new) (T.means terms.new) }
{
    let count = count_of(decl.ctx.as_slice());
    let mut i = 0;
    while i < count {
        match fitting(alloc, terms, env, metas, fuel, decl, i)? {
            Some(more) => return Ok((i, more)),
            None => i += 1,
        }
    }
    Err(MoveFault::NoAssumption)
}

/// `assumption` on an open goal of legal metavariables: the goal is settled by the last entry of its context of which the type unifies with
/// its own.
pub fn assumption<T: Terms>(
    alloc: Global,
    terms: &mut T,
    env: &Env<T::Handle>,
    metas: &Metas<T::Handle>,
    fuel: &mut Fuel,
    g: u32,
) -> Result<Moved<T::Handle>, MoveFault<T::Handle>>
    requires globals { AreGlobalsOf (T.holds terms.old) env.now metas.now }
    requires legal { IsLegalMetas (rules_env (plain_items (T.means terms.old) env.now)) (rules_metas (plain_metas (T.means terms.old) metas.now)) }
    requires open { IsOpen metas.now g }
    ensures value { (Δ : Listed (Item Term)) (Σ : Listed (Declared Term)) (d : Declared Term) → AreRead (T.means terms.old) env.now metas.now Δ Σ → slice_get Σ g ≡ Some d → Answers (T.holds terms.new) (T.means terms.new) (plain_moved (T.means terms.new)) (spec.assumption Δ Σ g d fuel.old) fuel.new result }
    ensures held { IfOk result (λ r. All (IsDeclOf (T.holds terms.new)) r.metas) }
    ensures kept { Keeps (T.holds terms.old) (T.means terms.old) (T.holds terms.new) (T.means terms.new) }
{
    // The number tells that the contexts are as short as those of metavariables are.
    let _count = metas.next();
    match metas.decl(g) {
        Some(decl) => {
            let (i, more) = first_fitting(alloc, terms, env, metas, fuel, decl)?;
            let value = terms.make(alloc, View::Var(i))?;
            let fresh = List::of(Vec::new(alloc));
            let holes = List::of(Vec::new(alloc));
            settled(alloc, terms, env, more, fuel, g, value, fresh, holes)
        }
        None => unreachable!(),
    }
}
