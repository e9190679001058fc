//! Moves over trees: each move once, the order of refusals and what they show, and units spent to the last.

ghost use Rattle.std.specs.Prelude.{IfSome};
ghost use Rattle.ld_terms.specs.Views.{Keeps};

use crate::fault::{MoveFault, Refused};
use crate::running::run_move;
use elaborate::ElabFault;
use goal_state::GoalState;
use ld_terms::{Fuel, Terms, TreeTerms};
use meta_context::Env;
use pattern_unify::UnifyFault;
use std::alloc::{AllocError, Global};
use std::test::Fail;
use term_text::{read_term, scope_term};

mod further;

const IDENTITY_TYPE: &[u8] = b"(A : *) -> A -> A";

/// A function of two arguments and an argument for it.
const PAIRING_TYPE: &[u8] = b"(A : *) -> (A -> A -> A) -> A -> A";

/// The moves of its proof up to the goal `A`, which is metavariable 3.
const PAIRING: &[&[u8]] = &[b"intro A", b"intro f", b"intro x"];

/// A proof for every element, and an element.
const INSTANCE_TYPE: &[u8] = b"(A : *) -> (P : A -> *) -> (a : A) -> ((x : A) -> P x) -> P a";

/// The closed term of a text, or `None` where it is refused.
fn closed<T: Terms>(alloc: Global, terms: &mut T, text: &[u8]) -> Option<T::Handle>
    ensures held { IfSome result (T.holds terms.new) }
    ensures kept { Keeps (T.holds terms.old) (T.means terms.old) (T.holds terms.new) (T.means terms.new) }
{
    let env = Env::<T::Handle>::new();
    match read_term(alloc, text) {
        Ok(surface) => match scope_term(alloc, terms, &env, &[], &surface) {
            Ok(h) => Some(h),
            Err(_) => None,
        },
        Err(_) => None,
    }
}

/// The first state of a theorem's text in the empty environment, or `None` where it is refused.
fn started<T: Terms + Drop>(alloc: Global, mut terms: T, text: &[u8]) -> Option<GoalState<T>> {
    let env = Env::new();
    let mut fuel = Fuel::new(100_000);
    match closed(alloc, &mut terms, text) {
        Some(ty) => match GoalState::start(alloc, &mut terms, &env, &mut fuel, ty) {
            Ok(state) => Some(state),
            Err(_) => None,
        },
        None => None,
    }
}

/// The state that a move makes of a state, on the goal at an index, or `None` where it is refused.
fn on_goal<T: Terms + Drop>(
    alloc: Global,
    state: &Option<GoalState<T>>,
    goal: u64,
    text: &[u8],
    units: u64,
    auto: bool,
) -> Option<GoalState<T>> {
    match state {
        Some(state) => match run_move(alloc, state, goal, text, units, auto) {
            Ok(next) => Some(next),
            Err(_) => None,
        },
        None => None,
    }
}

/// The state that moves make of a theorem, one after another, each on the first goal; or `None` where one is refused.
fn after_moves<T: Terms + Drop>(
    alloc: Global,
    terms: T,
    theorem: &[u8],
    moves: &[&[u8]],
) -> Option<GoalState<T>> {
    let mut state = started(alloc, terms, theorem);
    for text in moves {
        state = on_goal(alloc, &state, 0, text, 100_000, true);
    }
    state
}

/// What a move answers.
#[derive(Clone, Copy, PartialEq)]
enum Answer {
    Made,
    Syntax(u64),
    NoGoal(u64, u64),
    NameTaken,
    NotProduct,
    NoAssumption,
    NotDefined,
    Unsolved(u64),
    UnknownName(u64),
    /// At this depth, beside a store.
    Mismatch(u32),
    Fuel,
    Other,
}

/// The answer that a refusal is.
fn refusal_of<T: Terms + Drop>(refused: &Refused<T>) -> Answer {
    match (&refused.fault, refused.terms.is_some()) {
        (MoveFault::Elab(ElabFault::Unify(UnifyFault::Mismatch { depth, .. })), true) => {
            Answer::Mismatch(*depth)
        }
        (MoveFault::Elab(ElabFault::UnknownName { at, .. }), false) => Answer::UnknownName(*at),
        (MoveFault::Syntax { at }, false) => Answer::Syntax(*at),
        (MoveFault::NoGoal { index, count }, false) => Answer::NoGoal(*index, *count),
        (MoveFault::NameTaken { .. }, false) => Answer::NameTaken,
        (MoveFault::NotProduct, false) => Answer::NotProduct,
        (MoveFault::NoAssumption, false) => Answer::NoAssumption,
        (MoveFault::NotDefined { .. }, false) => Answer::NotDefined,
        (MoveFault::Unsolved { at }, false) => Answer::Unsolved(*at),
        (MoveFault::Fuel, false) => Answer::Fuel,
        _ => Answer::Other,
    }
}

/// What a move on the goal at an index of a state answers.
fn answer_to<T: Terms + Drop>(
    alloc: Global,
    state: &Option<GoalState<T>>,
    goal: u64,
    text: &[u8],
    units: u64,
) -> Answer {
    match state {
        Some(state) => match run_move(alloc, state, goal, text, units, true) {
            Ok(_) => Answer::Made,
            Err(refused) => refusal_of(&refused),
        },
        None => Answer::Other,
    }
}

/// Whether there is a state with these active goals, and with so many metavariables.
fn has_goals<T: Terms + Drop>(state: &Option<GoalState<T>>, goals: &[u32], count: u32) -> bool {
    match state {
        Some(state) => state.goals() == goals && state.metas().next() == count,
        None => false,
    }
}

/// Whether the context of a metavariable has two entries of these names.
fn has_entries<T: Terms + Drop>(
    state: &Option<GoalState<T>>,
    m: u32,
    first: &[u8],
    second: &[u8],
) -> bool {
    let Some(state) = state else {
        return false;
    };
    let Some(decl) = state.metas().decl(m) else {
        return false;
    };
    let entries = decl.ctx.as_slice();
    entries.len() == 2
        && entries[0].name.as_bytes() == first
        && entries[1].name.as_bytes() == second
}

/// Whether a state is solved by the term of a text.
fn proves<T: Terms + Drop>(
    alloc: Global,
    state: &GoalState<T>,
    text: &[u8],
) -> Result<bool, AllocError> {
    if !state.solved() {
        return Ok(false);
    }
    let (mut terms, value) = state.value_of_root(alloc)?;
    match closed(alloc, &mut terms, text) {
        Some(wanted) => Ok(terms.same(value, wanted)),
        None => Ok(false),
    }
}

/// Whether moves prove a theorem, one after another, each on the first goal, by the term of a text.
fn is_proof<T: Terms + Drop>(
    alloc: Global,
    terms: T,
    theorem: &[u8],
    moves: &[&[u8]],
    text: &[u8],
) -> Result<bool, AllocError> {
    match after_moves(alloc, terms, theorem, moves) {
        Some(state) => proves(alloc, &state, text),
        None => Ok(false),
    }
}

#[test]
fn three_moves_prove_the_identity(rt: HostRuntime) -> Result<(), Fail> {
    let alloc = rt.alloc();
    let moves: &[&[u8]] = &[b"intro A", b"intro x", b"exact x"];
    let text = b"fun (A : *) => fun (x : A) => x";
    let terms = TreeTerms::new(alloc)?;
    assert!(rt; is_proof(alloc, terms, IDENTITY_TYPE, moves, text)?);
    let terms = TreeTerms::new(alloc)?;
    assert!(rt; !is_proof(alloc, terms, IDENTITY_TYPE, &moves[..2], text)?);
    Ok(())
}

#[test]
fn a_redex_is_a_proof_as_it_stands(rt: HostRuntime) -> Result<(), Fail> {
    let alloc = rt.alloc();
    let redex: &[u8] = b"exact ((fun (B : *) => fun (y : B) => y) A x)";
    let moves: &[&[u8]] = &[b"intro A", b"intro x", redex];
    let text = b"fun (A : *) => fun (x : A) => (fun (B : *) => fun (y : B) => y) A x";
    let terms = TreeTerms::new(alloc)?;
    assert!(rt; is_proof(alloc, terms, IDENTITY_TYPE, moves, text)?);
    Ok(())
}

/// The goals of an introduction, and the entries of the last one's context.
fn introduces<T: Terms + Drop>(alloc: Global, terms: T) -> bool {
    let first = started(alloc, terms, IDENTITY_TYPE);
    let second = on_goal(alloc, &first, 0, b"intro A", 8, true);
    let third = on_goal(alloc, &second, 0, b"intro x", 7, true);
    has_goals(&first, &[0], 1)
        && has_goals(&second, &[1], 2)
        && has_goals(&third, &[2], 3)
        && has_entries(&third, 2, b"A", b"x")
}

#[test]
fn introducing_extends_the_context(rt: HostRuntime) -> Result<(), Fail> {
    let alloc = rt.alloc();
    assert!(rt; introduces(alloc, TreeTerms::new(alloc)?));
    Ok(())
}

/// The goals of a term with holes, and of one on the second of them; with `auto` and without it.
fn refines<T: Terms + Drop>(alloc: Global, terms: T) -> bool {
    let state = after_moves(alloc, terms, PAIRING_TYPE, PAIRING);
    let refined = on_goal(alloc, &state, 0, b"refine f ? (f ? x)", 100_000, true);
    let second = on_goal(alloc, &refined, 1, b"refine f x ?", 100_000, true);
    let alone = on_goal(alloc, &refined, 1, b"refine f x ?", 100_000, false);
    has_goals(&refined, &[4, 5], 6) && has_goals(&second, &[6, 4], 7) && has_goals(&alone, &[6], 7)
}

#[test]
fn refining_leaves_goals_in_text_order(rt: HostRuntime) -> Result<(), Fail> {
    let alloc = rt.alloc();
    assert!(rt; refines(alloc, TreeTerms::new(alloc)?));
    Ok(())
}

#[test]
fn arguments_are_goals_behind_those_of_the_text(rt: HostRuntime) -> Result<(), Fail> {
    let alloc = rt.alloc();
    let moves: &[&[u8]] = &[
        b"intro A",
        b"intro f",
        b"intro x",
        b"apply f ?",
        b"exact f x x",
        b"exact x",
    ];
    let text = b"fun (A : *) => fun (f : A -> A -> A) => fun (x : A) => f (f x x) x";
    let terms = TreeTerms::new(alloc)?;
    assert!(rt; is_proof(alloc, terms, PAIRING_TYPE, moves, text)?);
    Ok(())
}

/// The argument of `h` is found out by `apply`, and that of a hole by `exact`.
#[test]
fn an_argument_is_found_out(rt: HostRuntime) -> Result<(), Fail> {
    let alloc = rt.alloc();
    let text = b"fun (A : *) => fun (P : A -> *) => fun (a : A) => fun (h : (x : A) -> P x) => h a";
    let applied: &[&[u8]] = &[b"intro A", b"intro P", b"intro a", b"intro h", b"apply h"];
    let terms = TreeTerms::new(alloc)?;
    assert!(rt; is_proof(alloc, terms, INSTANCE_TYPE, applied, text)?);
    let exact: &[&[u8]] = &[b"intro A", b"intro P", b"intro a", b"intro h", b"exact h _"];
    let terms = TreeTerms::new(alloc)?;
    assert!(rt; is_proof(alloc, terms, INSTANCE_TYPE, exact, text)?);
    Ok(())
}

/// `exact x` spends a unit on the node and one in the settling. `refine f ? ?` spends five units on nodes, two on sorts of the holes' types,
/// and eleven on the type of the term in the settling. `apply f` spends one on the node, two on unifications that are given up, two on sorts,
/// and eleven in the settling.
fn spends<T: Terms + Drop>(alloc: Global, terms: T) -> bool {
    let state = after_moves(alloc, terms, PAIRING_TYPE, PAIRING);
    answer_to(alloc, &state, 0, b"exact x", 2) == Answer::Made
        && answer_to(alloc, &state, 0, b"exact x", 1) == Answer::Fuel
        && answer_to(alloc, &state, 0, b"refine f ? ?", 18) == Answer::Made
        && answer_to(alloc, &state, 0, b"refine f ? ?", 17) == Answer::Fuel
        && answer_to(alloc, &state, 0, b"apply f", 16) == Answer::Made
        && answer_to(alloc, &state, 0, b"apply f", 15) == Answer::Fuel
}

#[test]
fn units_are_spent_to_the_last(rt: HostRuntime) -> Result<(), Fail> {
    let alloc = rt.alloc();
    assert!(rt; spends(alloc, TreeTerms::new(alloc)?));
    Ok(())
}

/// The text is read first, then the goal is looked for, and then the move is made.
fn refuses_in_order<T: Terms + Drop>(alloc: Global, state: &Option<GoalState<T>>) -> bool {
    answer_to(alloc, state, 1, b"intro", 0) == Answer::Syntax(5)
        && answer_to(alloc, state, 1, b" nope", 0) == Answer::Syntax(1)
        && answer_to(alloc, state, 1, b"exact ?", 0) == Answer::NoGoal(1, 1)
        && answer_to(alloc, state, 0, b"exact ?", 0) == Answer::Unsolved(6)
        && answer_to(alloc, state, 0, b"intro x", 0) == Answer::NameTaken
        && answer_to(alloc, state, 0, b"intro y", 0) == Answer::NotProduct
        && answer_to(alloc, state, 0, b"exact y", 0) == Answer::Fuel
        && answer_to(alloc, state, 0, b"exact y", 1) == Answer::UnknownName(6)
}

/// A hole that is open at the end is refused, and a type that isn't the goal's is shown.
fn refuses_in_the_end<T: Terms + Drop>(alloc: Global, state: &Option<GoalState<T>>) -> bool {
    answer_to(alloc, state, 0, b"refine f ? _", 100_000) == Answer::Unsolved(11)
        && answer_to(alloc, state, 0, b"apply f _", 100_000) == Answer::Unsolved(8)
        && answer_to(alloc, state, 0, b"exact f", 100_000) == Answer::Mismatch(3)
        && answer_to(alloc, state, 0, b"apply A", 100_000) == Answer::Mismatch(3)
}

/// Each refusal leaves the state as it was.
fn refuses<T: Terms + Drop>(alloc: Global, terms: T) -> bool {
    let state = after_moves(alloc, terms, PAIRING_TYPE, PAIRING);
    refuses_in_order(alloc, &state)
        && refuses_in_the_end(alloc, &state)
        && has_goals(&state, &[3], 4)
}

#[test]
fn refusals_come_in_order(rt: HostRuntime) -> Result<(), Fail> {
    let alloc = rt.alloc();
    assert!(rt; refuses(alloc, TreeTerms::new(alloc)?));
    Ok(())
}
