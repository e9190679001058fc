//! A move on a goal of a state.

ghost use Rattle.std.specs.Prelude.{◌≡◌, ◌≢◌, ◌<◌, All, IfErr, IfOk, MatchResult, Some, None, ℕ, List as Listed, length, slice_get};
ghost use Rattle.ld_trees.specs.Term.{Term};
ghost use Rattle.ld_terms.specs.Views.{Keeps};
ghost use Rattle.ld_terms.specs.declared.globals.Decl.{Decl};
ghost use Rattle.ld_terms.specs.declared.globals.Item.{Item};
ghost use Rattle.conversion.specs.Globals.{AreGlobalsOf, IsDeclOf};
ghost use Rattle.meta_context.specs.Declaring.{IsOpen};
ghost use Rattle.meta_context.specs.Plain.{plain_items, rules_env};
ghost use Rattle.meta_laws.specs.Legality.{IsLegalMetas};
ghost use Rattle.goal_state.specs.State.{State, plain_metas, rules_metas};
ghost use Rattle.coupling.specs.Coupling.{AreCoupled};
ghost use Rattle.unification.specs.Laws.{Stays};
ghost use Rattle.move_set.specs.Laws.{IsNeeded, LooksTheSame};
ghost use Rattle.goal_state.specs.StoredState.{plain_state};
ghost use Rattle.goal_state.specs.Following.{Extend, MayFollow};
ghost use Rattle.move_text.specs.Named.{HasTextName};
ghost use Rattle.move_set.specs.Answers.{Answers, Gives, IsRefused, Shows, plain_moved};
ghost use Rattle.pattern_unify.specs.Answers.{AreRead};
ghost use Rattle.move_set.specs.Moves as spec;
ghost use Rattle.move_set.specs.Answers as answers;
ghost use Rattle.move_set.specs.declared.fault.MoveFault.TheVariants as fault;
ghost use Rattle.move_set.specs.Refusals.{Outcome};

use crate::assuming::assumption;
use crate::cutting::have;
use crate::fault::{MoveFault, Refused};
use crate::moves::{Moved, apply_to, exact, intro, refine};
use crate::next::{first_open, next_goals};
use crate::restating::{change, unfold};
use elaborate::ElabFault;
use goal_state::GoalState;
use ld_terms::{Fuel, Terms};
use meta_context::{Env, Metas};
use move_text::{Move, read_move};
use pattern_unify::UnifyFault;
use std::alloc::Global;

/// A step on an open goal.
fn make_step<T: Terms>(
    alloc: Global,
    terms: &mut T,
    env: &Env<T::Handle>,
    metas: &Metas<T::Handle>,
    fuel: &mut Fuel,
    g: u32,
    step: &Move,
) -> Result<Moved<T::Handle>, MoveFault<T::Handle>>
    requires globals { AreGlobalsOf (T.holds terms.old) env.now metas.now }
    requires legal { IsLegalMetas (rules_env (plain_items (T.means terms.old) env.now)) (rules_metas (plain_metas (T.means terms.old) metas.now)) }
    requires open { IsOpen metas.now g }
    requires named { HasTextName step.now }
    ensures value { (Δ : Listed (Item Term)) (Σ : Listed (Decl Term)) (d : Decl Term) → AreRead (T.means terms.old) env.now metas.now Δ Σ → slice_get Σ g ≡ Some d → Answers (T.holds terms.new) (T.means terms.new) (plain_moved (T.means terms.new)) (spec.step Δ Σ g d step.now fuel.old) fuel.new result }
    ensures held { IfOk result (λ r. All (IsDeclOf (T.holds terms.new)) r.metas) }
    ensures kept { Keeps (T.holds terms.old) (T.means terms.old) (T.holds terms.new) (T.means terms.new) }
{
    match step {
        Move::Intro(name) => intro(alloc, terms, env, metas, fuel, g, name),
        Move::Exact(text) => exact(alloc, terms, env, metas, fuel, g, text),
        Move::Refine(text) => refine(alloc, terms, env, metas, fuel, g, text),
        Move::Apply(text) => apply_to(alloc, terms, env, metas, fuel, g, text),
        Move::Have(name, text) => have(alloc, terms, env, metas, fuel, g, name, text),
        Move::Assumption => assumption(alloc, terms, env, metas, fuel, g),
        Move::Change(text) => change(alloc, terms, env, metas, fuel, g, text),
        Move::Unfold(name) => unfold(alloc, terms, env, metas, fuel, g, name),
    }
}

/// A refusal that shows no term.
fn bare<T: Terms>(fault: MoveFault<T::Handle>) -> Refused<T>
    ensures terms { result.terms ≡ None }
    ensures fault { result.fault ≡ fault }
{
    Refused { terms: None, fault }
}

/// Whether a fault of unification shows terms.
fn unify_shows_terms<H>(fault: &UnifyFault<H>) -> bool
    ensures { result ≡ answers.unify_shows_terms fault.now }
{
    matches!(fault, UnifyFault::Kernel(_) | UnifyFault::Mismatch { .. })
}

/// Whether a fault of elaboration shows terms.
fn elab_shows_terms<H>(fault: &ElabFault<H>) -> bool
    ensures { result ≡ answers.elab_shows_terms fault.now }
{
    match fault {
        ElabFault::Unify(fault) => unify_shows_terms(fault),
        ElabFault::NotFunction { .. } | ElabFault::NotType { .. } => true,
        _ => false,
    }
}

/// Whether a fault shows terms.
fn shows_terms<H>(fault: &MoveFault<H>) -> bool
    ensures { result ≡ answers.shows_terms fault.now }
{
    match fault {
        MoveFault::Elab(fault) => elab_shows_terms(fault),
        _ => false,
    }
}

/// A refusal, with the store exactly where it shows terms.
fn refused<T: Terms + Drop>(terms: T, fault: MoveFault<T::Handle>) -> Refused<T>
    ensures { (o : Outcome State) (left : ℕ) → Shows (T.holds terms) (T.means terms) o left fault → IsRefused T.holds T.means o result.terms result.fault }
{
    let terms = if shows_terms(&fault) {
        Some(terms)
    } else {
        None
    };
    Refused { terms, fault }
}

/// The state after what a move has come to.
fn advance<T: Terms + Drop>(
    alloc: Global,
    state: &GoalState<T>,
    terms: T,
    moved: Moved<T::Handle>,
    auto: bool,
) -> Result<GoalState<T>, Refused<T>>
    requires kept { Keeps (T.holds state.now.terms) (T.means state.now.terms) (T.holds terms) (T.means terms) }
    requires held { All (IsDeclOf (T.holds terms)) moved.metas }
    requires follows { MayFollow (plain_state T.means state.now) (plain_metas (T.means terms) moved.metas) (spec.next_goals moved.metas (length state.now.metas) moved.fresh state.now.goals auto) }
    ensures state { IfOk result (λ s. plain_state T.means s ≡ spec.after_move (plain_state T.means state.now) auto (plain_moved (T.means terms) moved)) }
    ensures memory { IfErr result (λ r. (r.terms ≡ None) × (r.fault ≡ fault.Memory)) }
{
    let Moved {
        metas,
        fresh,
        holes: _,
    } = moved;
    let before = state.metas().next();
    let fresh = fresh.as_slice();
    let goals = match next_goals(alloc, &metas, before, fresh, state.goals(), auto) {
        Ok(goals) => goals,
        Err(_) => return Err(bare(MoveFault::Memory)),
    };
    match state.next_state(alloc, terms, metas, goals) {
        Ok(next) => Ok(next),
        Err(_) => Err(bare(MoveFault::Memory)),
    }
}

/// The state after what a move has come to, where no hole of its text is open.
fn finish<T: Terms + Drop>(
    alloc: Global,
    state: &GoalState<T>,
    terms: T,
    moved: Moved<T::Handle>,
    auto: bool,
) -> Result<GoalState<T>, Refused<T>>
    requires kept { Keeps (T.holds state.now.terms) (T.means state.now.terms) (T.holds terms) (T.means terms) }
    requires held { All (IsDeclOf (T.holds terms)) moved.metas }
    requires follows { MayFollow (plain_state T.means state.now) (plain_metas (T.means terms) moved.metas) (spec.next_goals moved.metas (length state.now.metas) moved.fresh state.now.goals auto) }
    ensures { (o : Outcome State) (left : ℕ) → spec.ended (plain_state T.means state.now) auto (plain_moved (T.means terms) moved) left ≡ o → MatchResult result (Gives T.means o) (λ r. IsRefused T.holds T.means o r.terms r.fault) }
{
    match first_open(&moved.metas, moved.holes.as_slice()) {
        Some(at) => Err(bare(MoveFault::Unsolved { at })),
        None => advance(alloc, state, terms, moved, auto),
    }
}

/// A move that was read, on the goal at an index.
fn move_on<T: Terms + Drop>(
    alloc: Global,
    state: &GoalState<T>,
    goal: u64,
    step: &Move,
    units: u64,
    auto: bool,
) -> Result<GoalState<T>, Refused<T>>
    requires { HasTextName step.now }
    ensures { (s : State) (o : Outcome State) → plain_state T.means state.now ≡ s → spec.at_goal s goal auto step.now (spec.goal_at s goal) units ≡ o → MatchResult result (Gives T.means o) (λ r. IsRefused T.holds T.means o r.terms r.fault) }
{
    let goals = state.goals();
    let count = goals.len() as u64;
    if goal >= count {
        return Err(bare(MoveFault::NoGoal { index: goal, count }));
    }
    let g = goals[goal as usize];
    let mut terms = match state.terms().fork(alloc) {
        Ok(terms) => terms,
        Err(_) => return Err(bare(MoveFault::Memory)),
    };
    let mut fuel = Fuel::new(units);
    match make_step(
        alloc,
        &mut terms,
        state.env(),
        state.metas(),
        &mut fuel,
        g,
        step,
    ) {
        Ok(moved) => finish(alloc, state, terms, moved, auto),
        Err(fault) => Err(refused(terms, fault)),
    }
}

/// The state that a move's text makes of a state, on the active goal at an index, counted from 0, with so many units of fuel.
///
/// `intro x` makes the goal's codomain a new goal, with the entry `x` for its domain; `refine t` settles the goal by a term, whose `?` are new
/// goals; `exact t` does so without `?`; `apply t` settles it by a term that is applied to new metavariables until its type is the goal's.
/// `have x : t` makes two new goals, the type and then the goal behind an entry `x` of that type; `assumption` settles the goal by the last
/// entry whose type unifies with the goal's; `change t` states the goal anew as that type, and `unfold a` as its own type with the body of
/// the definition `a` in place of each `a`. A `_` must have a value in the end.
///
/// With `auto` the active goals are the new ones and then the others that were active and are open still, in their order; without it the new
/// ones alone. The given state stays as it was. The new one is legal, which is a fact of the type [`GoalState`].
///
/// # Errors
///
/// See [`MoveFault`]: the text is read first, then the goal is looked for, and then the move is made; the first refusal is the answer. The
/// terms of a refusal stand in the store beside it. Want of memory may come at any time.
pub fn run_move<T: Terms + Drop>(
    alloc: Global,
    state: &GoalState<T>,
    goal: u64,
    text: &[u8],
    units: u64,
    auto: bool,
) -> Result<GoalState<T>, Refused<T>>
    // The state or the refusal is that of the definition.
    ensures value { MatchResult result (Gives T.means (spec.moved (plain_state T.means state.now) goal text.now units auto)) (λ r. IsRefused T.holds T.means (spec.moved (plain_state T.means state.now) goal text.now units auto) r.terms r.fault) }
    // Each declaration and value of the state stays.
    ensures kept { IfOk result (λ s. Extend (plain_state T.means state.now).metas (plain_state T.means s).metas) }
    // Of the state's metavariables only open ones among the goal and its dependencies are assigned.
    ensures assigns { IfOk result (λ s. (g k : ℕ) → slice_get state.now.goals goal ≡ Some g → k < length state.now.metas → (IsNeeded (plain_state T.means state.now).metas g k → ⊥) → Stays (plain_state T.means state.now).metas (plain_state T.means s).metas k) }
    // Each other open goal that is not coupled with the goal has the context and the type that it had, also with assigned metavariables unfolded.
    ensures independent { IfOk result (λ s. (g h : ℕ) (d : Decl Term) → slice_get state.now.goals goal ≡ Some g → slice_get (plain_state T.means state.now).metas h ≡ Some d → d.value ≡ None → g ≢ h → (AreCoupled (plain_state T.means state.now).metas g h → ⊥) → LooksTheSame (plain_state T.means state.now).metas (plain_state T.means s).metas h d) }
{
    // The store tells that the state is legal.
    let _terms = state.terms();
    match read_move(alloc, text) {
        Ok(step) => move_on(alloc, state, goal, &step, units, auto),
        Err(fault) => Err(bare(MoveFault::from(fault))),
    }
}
