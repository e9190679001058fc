ghost use Rattle.std.specs.Prelude.{◌≡◌, ◌≤◌, ◌*◌, ◌↔◌, IfOk, IsTrue, length};
ghost use Rattle.meta_context.specs.Declaring.{IsOpen};
ghost use Rattle.goal_state.specs.StoredState.{plain_state};
ghost use Rattle.coupling.specs.Coupling as coupling;

use crate::goals::{coupled_numbers, marked_numbers, reach_in_place, reached, stands_alone};
use goal_state::GoalState;
use ld_terms::{List, Terms};
use std::alloc::{AllocError, Global};

/// What an open goal needs: the metavariables without a value among itself and its dependencies, the least number first. Looks at each
/// handle once. Fails for want of memory alone.
pub fn need<T: Terms + Drop>(
    alloc: Global,
    state: &GoalState<T>,
    g: u32,
) -> Result<List<u32>, AllocError>
    requires { IsOpen (plain_state T.means state.now).metas g }
    ensures { IfOk result (λ ms. ms ≡ coupling.needs (plain_state T.means state.now).metas g) }
{
    let terms = state.terms();
    let metas = state.metas();
    let marks = reached(alloc, terms, metas, g)?;
    marked_numbers(alloc, metas, &marks)
}

/// The other open goals, active or dormant, that need a metavariable which an open goal needs too, the least number first. What the goal
/// itself needs is found once. Fails for want of memory alone.
pub fn coupled<T: Terms + Drop>(
    alloc: Global,
    state: &GoalState<T>,
    g: u32,
) -> Result<List<u32>, AllocError>
    requires { IsOpen (plain_state T.means state.now).metas g }
    ensures { IfOk result (λ ms. ms ≡ coupling.coupled (plain_state T.means state.now).metas g) }
{
    let terms = state.terms();
    let metas = state.metas();
    let own = reached(alloc, terms, metas, g)?;
    let mut other = vec![in alloc; 0u8; metas.next() as usize]?;
    coupled_numbers(alloc, terms, metas, &own, &mut other, g)
}

/// Whether an open goal is coupled with no other one. Takes no memory: it works in `scratch`, at least twice as many bytes as
/// metavariables are declared, whatever they hold before, and looks at a part that many terms share as often as it stands in them.
pub fn independent<T: Terms + Drop>(state: &GoalState<T>, g: u32, scratch: &mut [u8]) -> bool
    requires open { IsOpen (plain_state T.means state.now).metas g }
    requires room { 2 * length state.now.metas ≤ length scratch.old }
    ensures { IsTrue result ↔ coupling.IsIndependent (plain_state T.means state.now).metas g }
{
    let terms = state.terms();
    let metas = state.metas();
    let count = metas.next() as usize;
    let (own, rest) = scratch.split_at_mut(count);
    let other = &mut rest[..count];
    reach_in_place(terms, metas, own, g);
    stands_alone(terms, metas, own, other, g)
}
