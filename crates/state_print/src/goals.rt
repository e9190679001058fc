//! The active goals of a state.

ghost use Rattle.std.specs.Prelude.{◌≡◌, ◌++◌, All, IfOk, OnOk, map, slice_get};
ghost use Rattle.ld_terms.specs.Views.{Keeps};
ghost use Rattle.conversion.specs.Globals.{AreLocals, IsDeclOf};
ghost use Rattle.term_syntax.specs.ReadsBack.{IsContext};
ghost use Rattle.meta_context.specs.Entered.{names_of, AreDeclared};
ghost use Rattle.meta_context.specs.Plain.{plain_locals};
ghost use Rattle.reply_text.specs.Members.{object_text};
ghost use Rattle.reply_text.specs.Context.{array_text};
ghost use Rattle.goal_state.specs.State.{plain_decl, plain_metas};
ghost use Rattle.goal_state.specs.StoredState.{plain_state};
ghost use Rattle.coupling.specs.Coupling as coupling;
ghost use Rattle.state_print.specs.Pieces as spec;

use crate::couplings::{all_needs, coupled_by};
use crate::numbers::numbers_json;
use goal_state::{GoalState, unfold_metas};
use ld_terms::{Decl, Local, Terms};
use meta_context::Metas;
use reply_text::{Member, Members, array_text, context_json, shown_names, term_json};
use std::alloc::{AllocError, Global};

/// The entries of a context, with assigned metavariables unfolded in their types.
fn unfold_entries<T: Terms>(
    alloc: Global,
    terms: &mut T,
    metas: &Metas<T::Handle>,
    ctx: &[Local<T::Handle>],
) -> Result<Vec<Local<T::Handle>>, AllocError>
    requires entries { AreLocals (T.holds terms.old) ctx.now }
    requires metas { All (IsDeclOf (T.holds terms.old)) metas.now }
    ensures entries { IfOk result (λ v. plain_locals (T.means terms.new) v.items ≡ map (spec.unfolded_entry (plain_metas (T.means terms.old) metas.now)) (plain_locals (T.means terms.old) ctx.now)) }
    ensures held { IfOk result (λ v. AreLocals (T.holds terms.new) v.items) }
    ensures kept { Keeps (T.holds terms.old) (T.means terms.old) (T.holds terms.new) (T.means terms.new) }
{
    let mut entries = Vec::new(alloc);
    for entry in ctx {
        let name = entry.name.copy(alloc)?;
        let ty = unfold_metas(alloc, terms, metas, entry.ty)?;
        entries.push(Local { name, ty })?;
    }
    Ok(entries)
}

/// The goal of a number, coupled with others, over a context and with a type in which assigned metavariables are unfolded.
fn goal_over<T: Terms>(
    alloc: Global,
    terms: &T,
    others: &[u32],
    goal: u32,
    ctx: &[Local<T::Handle>],
    ty: T::Handle,
) -> Result<Vec<u8>, AllocError>
    requires context { IsContext (names_of ctx.now) }
    requires entries { AreLocals (T.holds terms.now) ctx.now }
    requires ty { T.holds terms.now ty }
    ensures { IfOk result (λ v. v.items ≡ object_text (spec.goal_over others.now goal (plain_locals (T.means terms.now) ctx.now) (T.means terms.now ty))) }
{
    let coupled = Member::new("coupled", numbers_json(alloc, others)?);
    let number = Member::number(alloc, "goal", u64::from(goal))?;
    let names = shown_names(alloc, ctx)?;
    let target = Member::new("target", term_json(alloc, terms, &names, ty)?);
    let vars = Member::new("vars", context_json(alloc, terms, ctx)?);
    Members::before(alloc, vec![in alloc; coupled, number, target, vars]?).to_object(alloc)
}

/// The metavariable of a number as a goal that is coupled with others.
fn goal_json<T: Terms>(
    alloc: Global,
    terms: &mut T,
    metas: &Metas<T::Handle>,
    others: &[u32],
    goal: u32,
    decl: &Decl<T::Handle>,
) -> Result<Vec<u8>, AllocError>
    requires context { IsContext (names_of decl.now.ctx) }
    requires decl { IsDeclOf (T.holds terms.old) decl.now }
    requires metas { All (IsDeclOf (T.holds terms.old)) metas.now }
    ensures text { IfOk result (λ v. v.items ≡ spec.goal_json others.now (plain_metas (T.means terms.old) metas.now) goal (plain_decl (T.means terms.old) decl.now)) }
    ensures kept { Keeps (T.holds terms.old) (T.means terms.old) (T.holds terms.new) (T.means terms.new) }
{
    let ty = unfold_metas(alloc, terms, metas, decl.ty)?;
    let entries = unfold_entries(alloc, terms, metas, decl.ctx.as_slice())?;
    goal_over(alloc, &*terms, others, goal, &entries, ty)
}

/// Adds the metavariable of a number as a goal, where the others are those that are coupled with it.
fn push_goal<T: Terms>(
    alloc: Global,
    texts: &mut Vec<Vec<u8>>,
    terms: &mut T,
    metas: &Metas<T::Handle>,
    others: &[u32],
    goal: u32,
) -> Result<(), AllocError>
    requires metas { All (IsDeclOf (T.holds terms.old)) metas.now }
    requires declared { AreDeclared metas.now }
    requires others { others.now ≡ coupling.coupled (plain_metas (T.means terms.old) metas.now) goal }
    ensures text { OnOk result (map (λ x. x.items) texts.new.items ≡ map (λ x. x.items) texts.old.items ++ spec.found_goal (plain_metas (T.means terms.old) metas.now) goal (slice_get (plain_metas (T.means terms.old) metas.now) goal)) }
    ensures kept { Keeps (T.holds terms.old) (T.means terms.old) (T.holds terms.new) (T.means terms.new) }
{
    match metas.decl(goal) {
        None => Ok(()),
        Some(decl) => {
            texts.push(goal_json(alloc, terms, metas, others, goal, decl)?)?;
            Ok(())
        }
    }
}

/// The active goals of a state, in their order. Works in `terms`. What the open goals need is found once for all.
fn goal_texts<T: Terms + Drop>(
    alloc: Global,
    terms: &mut T,
    state: &GoalState<T>,
) -> Result<Vec<Vec<u8>>, AllocError>
    requires { Keeps (T.holds state.now.terms) (T.means state.now.terms) (T.holds terms.old) (T.means terms.old) }
    ensures { IfOk result (λ v. map (λ x. x.items) v.items ≡ spec.goal_texts (plain_state T.means state.now).metas state.now.goals) }
{
    // The store tells that the state is legal.
    let _store = state.terms();
    let metas = state.metas();
    let needs = all_needs(alloc, state)?;
    let mut texts = Vec::new(alloc);
    for goal in state.goals() {
        let others = coupled_by(alloc, &needs, *goal)?;
        push_goal(alloc, &mut texts, terms, metas, &others, *goal)?;
    }
    Ok(texts)
}

/// The active goals of a state as a JSON list, in their order. Their terms are unfolded in a fork of the state's store. Fails for want of
/// memory alone.
#[tactic(auto, unfolding(crate::specs::Pieces::goals_json))]
pub(crate) fn goals_json<T: Terms + Drop>(
    alloc: Global,
    state: &GoalState<T>,
) -> Result<Vec<u8>, AllocError>
    ensures { IfOk result (λ v. v.items ≡ spec.goals_json (plain_state T.means state.now)) }
{
    let mut terms = state.terms().fork(alloc)?;
    let texts = goal_texts(alloc, &mut terms, state)?;
    array_text(alloc, &texts)
}
