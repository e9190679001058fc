//! The end of a move: its holes, and the goals after it.

ghost use Rattle.std.specs.Prelude.{◌≡◌, ◌++◌, ◌∷◌, [], ◌&&◌, not, nat_le, OnOk, IfOk, filter, if◌then◌else◌};
ghost use Rattle.meta_laws.specs.Cut.{listed};
ghost use Rattle.goal_state.specs.State as state;
ghost use Rattle.move_set.specs.Moves as spec;

use ld_terms::List;
use meta_context::Metas;
use std::alloc::{AllocError, Global};

/// Whether a metavariable is declared and has no value.
fn is_open<H: Copy>(metas: &Metas<H>, m: u32) -> bool
    ensures { result ≡ state.is_open metas.now m }
{
    match metas.decl(m) {
        Some(decl) => decl.value.is_none(),
        None => false,
    }
}

/// The place of the first hole that is open.
pub fn first_open<H: Copy>(metas: &Metas<H>, holes: &[(u32, u64)]) -> Option<u64>
    ensures { result ≡ spec.first_open metas.now holes.now }
{
    for hole in holes {
        if is_open(metas, hole.0) {
            return Some(hole.1);
        }
    }
    None
}

/// Adds a metavariable that is open.
fn push_if_open<H: Copy>(
    goals: &mut Vec<u32>,
    metas: &Metas<H>,
    number: u32,
) -> Result<(), AllocError>
    ensures { OnOk result (goals.new.items ≡ goals.old.items ++ filter (state.is_open metas.now) (number ∷ [])) }
{
    if is_open(metas, number) {
        goals.push(number)?;
    }
    Ok(())
}

/// Adds those of some metavariables that are open, in their order.
fn push_open<H: Copy>(
    goals: &mut Vec<u32>,
    metas: &Metas<H>,
    numbers: &[u32],
) -> Result<(), AllocError>
    ensures { OnOk result (goals.new.items ≡ goals.old.items ++ filter (state.is_open metas.now) numbers.now) }
{
    for number in numbers {
        push_if_open(goals, metas, *number)?;
    }
    Ok(())
}

/// Whether a number stands in a list.
fn lists(goals: &[u32], m: u32) -> bool
    ensures { result ≡ listed m goals.now }
{
    for goal in goals {
        if *goal == m {
            return true;
        }
    }
    false
}

/// Whether a metavariable from a number on is open and isn't listed.
fn is_unlisted<H: Copy>(metas: &Metas<H>, first: u32, goals: &[u32], m: u32) -> bool
    ensures { result ≡ (nat_le first m && state.is_open metas.now m && not (listed m goals.now)) }
{
    first <= m && is_open(metas, m) && !lists(goals, m)
}

/// The open metavariables from a number on that aren't listed, the least number first.
fn unlisted<H: Copy>(
    alloc: Global,
    metas: &Metas<H>,
    first: u32,
    goals: &[u32],
) -> Result<Vec<u32>, AllocError>
    ensures { IfOk result (λ v. v.items ≡ spec.unlisted metas.now first goals.now) }
{
    let mut numbers = Vec::new(alloc);
    for m in 0..metas.next() {
        if is_unlisted(metas, first, goals, m) {
            numbers.push(m)?;
        }
    }
    Ok(numbers)
}

/// The active goals with `auto`, else none.
fn others(goals: &[u32], auto: bool) -> &[u32]
    ensures { result.now ≡ (if auto then goals.now else []) }
{
    if auto { goals } else { &[] }
}

/// The new goals and the other open ones that the move declared, where so many metavariables were declared before; and with `auto` the
/// others that were active, as far as they are open now. Fails for want of memory alone.
pub fn next_goals<H: Copy>(
    alloc: Global,
    metas: &Metas<H>,
    before: u32,
    fresh: &[u32],
    goals: &[u32],
    auto: bool,
) -> Result<List<u32>, AllocError>
    ensures { IfOk result (λ l. l ≡ spec.next_goals metas.now before fresh.now goals.now auto) }
{
    let mut next = Vec::new(alloc);
    push_open(&mut next, metas, fresh)?;
    let more = unlisted(alloc, metas, before, &next)?;
    next.extend_from_slice(&more)?;
    push_open(&mut next, metas, others(goals, auto))?;
    Ok(List::of(next))
}
