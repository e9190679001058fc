//! The open goals among metavariables.

ghost use Rattle.std.specs.Prelude.{◌≡◌, ◌↔◌, [], ◌&&◌, not, length, IfOk, IsTrue};
ghost use Rattle.meta_trees.specs.Dependencies.{below};
ghost use Rattle.meta_laws.specs.Cut.{listed};
ghost use Rattle.goal_state.specs.State as state;

use ld_terms::List;
use meta_context::Metas;
use std::alloc::{AllocError, Global};

/// Whether a metavariable is declared and has no value.
pub(crate) fn is_open<H: Copy>(metas: &Metas<H>, m: u32) -> bool
    ensures { result ≡ state.is_open metas.now m }
{
    match metas.decl(m) {
        Some(decl) => decl.value.is_none(),
        None => false,
    }
}

/// Whether each metavariable has a value.
pub(crate) fn are_assigned<H: Copy>(metas: &Metas<H>) -> bool
    ensures { IsTrue result ↔ (below (state.is_open metas.now) (length metas.now) ≡ []) }
{
    for m in 0..metas.next() {
        if is_open(metas, m) {
            return false;
        }
    }
    true
}

/// The metavariables without a value, the least number first.
pub(crate) fn open_numbers<H: Copy>(
    alloc: Global,
    metas: &Metas<H>,
) -> Result<List<u32>, AllocError>
    ensures { IfOk result (λ ms. ms ≡ below (state.is_open metas.now) (length metas.now)) }
{
    let mut numbers = Vec::new(alloc);
    for m in 0..metas.next() {
        if is_open(metas, m) {
            numbers.push(m)?;
        }
    }
    Ok(List::of(numbers))
}

/// Whether a number stands in a list.
fn lists(goals: &[u32], m: u32) -> bool
    ensures { result ≡ listed m goals.now }
{
    for goal in goals {
        if *goal == m {
            return true;
        }
    }
    false
}

/// Whether a metavariable is declared, has no value, and isn't listed.
fn is_other<H: Copy>(metas: &Metas<H>, goals: &[u32], m: u32) -> bool
    ensures { result ≡ (state.is_open metas.now m && not (listed m goals.now)) }
{
    is_open(metas, m) && !lists(goals, m)
}

/// The metavariables without a value that aren't listed, the least number first.
pub(crate) fn other_numbers<H: Copy>(
    alloc: Global,
    metas: &Metas<H>,
    goals: &[u32],
) -> Result<List<u32>, AllocError>
    ensures { IfOk result (λ ms. ms ≡ below (λ m. state.is_open metas.now m && not (listed m goals.now)) (length metas.now)) }
{
    let mut numbers = Vec::new(alloc);
    for m in 0..metas.next() {
        if is_other(metas, goals, m) {
            numbers.push(m)?;
        }
    }
    Ok(List::of(numbers))
}
