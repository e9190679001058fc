ghost use Rattle.std.specs.Prelude.{◌≡◌, IfOk};
ghost use Rattle.goal_state.specs.StoredState.{plain_state};
ghost use Rattle.state_print.specs.Pieces as spec;

use crate::goals::goals_json;
use crate::numbers::numbers_json;
use crate::text::StateText;
use goal_state::GoalState;
use ld_terms::{Bytes, List, Terms};
use reply_text::term_json;
use std::alloc::{AllocError, Global};

/// The dormant goals of a state as a JSON list.
#[tactic(auto, unfolding(crate::specs::Pieces::dormant_json))]
fn dormant_json<T: Terms + Drop>(alloc: Global, state: &GoalState<T>) -> Result<Vec<u8>, AllocError>
    ensures { IfOk result (λ v. v.items ≡ spec.dormant_json (plain_state T.means state.now)) }
{
    let dormant = state.dormant(alloc)?;
    numbers_json(alloc, dormant.as_slice())
}

/// The value of metavariable 0, where the state is solved.
fn proof_json<T: Terms + Drop>(
    alloc: Global,
    state: &GoalState<T>,
) -> Result<Option<Bytes>, AllocError>
    ensures { IfOk result (λ o. o ≡ spec.proof_json (plain_state T.means state.now)) }
{
    if state.solved() {
        let (terms, value) = state.value_of_root(alloc)?;
        let text = term_json(alloc, &terms, &[], value)?;
        return Ok(Some(List::of(text)));
    }
    Ok(None)
}

/// The type of metavariable 0, in which no metavariable occurs.
fn theorem_json<T: Terms + Drop>(alloc: Global, state: &GoalState<T>) -> Result<Vec<u8>, AllocError>
    ensures { IfOk result (λ v. v.items ≡ spec.theorem_json (plain_state T.means state.now)) }
{
    let terms = state.terms();
    match state.metas().decl(0) {
        Some(root) => term_json(alloc, terms, &[], root.ty),
        // Each state has metavariable 0.
        None => unreachable!(),
    }
}

/// What replies show of a state, which stays as it was: terms are unfolded in forks of its store. Fails for want of memory alone.
pub fn print_state<T: Terms + Drop>(
    alloc: Global,
    state: &GoalState<T>,
) -> Result<StateText, AllocError>
    ensures { IfOk result (λ t. t ≡ spec.state_text (plain_state T.means state.now)) }
{
    let goals = goals_json(alloc, state)?;
    let dormant = dormant_json(alloc, state)?;
    let term = proof_json(alloc, state)?;
    let ty = theorem_json(alloc, state)?;
    Ok(StateText {
        goals: List::of(goals),
        dormant: List::of(dormant),
        solved: state.solved(),
        term,
        ty: List::of(ty),
    })
}
