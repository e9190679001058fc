//! The goals that are coupled with a goal, by what all open goals need. That is found once.

ghost use Rattle.std.specs.Prelude.{◌≡◌, ◌<◌, ◌≤◌, IfOk, length};
ghost use Rattle.meta_laws.specs.Cut.{listed};
ghost use Rattle.goal_state.specs.State as state;
ghost use Rattle.goal_state.specs.StoredState.{plain_state};
ghost use Rattle.coupling.specs.Coupling as coupling;
ghost use Rattle.state_print.specs.Needs as spec;

use coupling::need;
use goal_state::GoalState;
use ld_terms::{List, Terms};
use meta_context::Metas;
use std::alloc::{AllocError, Global};

/// Whether a metavariable is declared and has no value.
fn is_open<H: Copy>(metas: &Metas<H>, m: u32) -> bool
    ensures { result ≡ state.is_open metas.now m }
{
    match metas.decl(m) {
        Some(decl) => decl.value.is_none(),
        None => false,
    }
}

/// What a metavariable needs where it is open.
fn need_if_open<T: Terms + Drop>(
    alloc: Global,
    state: &GoalState<T>,
    m: u32,
) -> Result<List<u32>, AllocError>
    ensures { IfOk result (λ ms. ms ≡ spec.need_if_open (plain_state T.means state.now).metas m) }
{
    if is_open(state.metas(), m) {
        return need(alloc, state, m);
    }
    Ok(List::of(Vec::new(alloc)))
}

/// What each open goal of a state needs, by the numbers of the metavariables. Fails for want of memory alone.
pub(crate) fn all_needs<T: Terms + Drop>(
    alloc: Global,
    state: &GoalState<T>,
) -> Result<Vec<List<u32>>, AllocError>
    ensures { IfOk result (λ v. v.items ≡ spec.all_needs (plain_state T.means state.now).metas) }
{
    let mut all = Vec::new(alloc);
    for m in 0..state.metas().next() {
        all.push(need_if_open(alloc, state, m)?)?;
    }
    Ok(all)
}

/// Whether a number stands in a list.
fn lists(numbers: &[u32], m: u32) -> bool
    ensures { result ≡ listed m numbers.now }
{
    for n in numbers {
        if *n == m {
            return true;
        }
    }
    false
}

/// Whether two lists have a common number.
fn meet(one: &[u32], other: &[u32]) -> bool
    ensures { result ≡ coupling.meet one.now other.now }
{
    for m in one {
        if lists(other, *m) {
            return true;
        }
    }
    false
}

/// Whether two goals, not one goal twice, need a common one.
fn share_need(all: &[List<u32>], g: u32, h: u32) -> bool
    requires one { g < length all.now }
    requires other { h < length all.now }
    ensures { result ≡ spec.share_need all.now g h }
{
    g != h && meet(all[g as usize].as_slice(), all[h as usize].as_slice())
}

/// The goals that share a need with a goal, the least number first, by what each needs. Fails for want of memory alone.
pub(crate) fn coupled_by(alloc: Global, all: &[List<u32>], g: u32) -> Result<Vec<u32>, AllocError>
    requires goal { g < length all.now }
    requires few { length all.now ≤ 65536 }
    ensures { IfOk result (λ v. v.items ≡ spec.coupled_by all.now g) }
{
    let mut numbers = Vec::new(alloc);
    for h in 0..all.len() as u32 {
        if share_need(all, g, h) {
            numbers.push(h)?;
        }
    }
    Ok(numbers)
}
