//! Goals that are coupled because they need a common goal.
//!
//! A goal needs the metavariables without a value among itself and its dependencies, which are those of its context and its type. Two
//! open goals are coupled where their needs have a common member: a value for it changes what both ask for. `specs/Coupling.antt` says it
//! in words and as lists that are computed. Which goals are active plays no part in it.
#![tactic(auto)]

mod calls;
mod examples;
mod goals;
mod laws;
mod looks;
mod marks;
mod reach;

pub use calls::{coupled, independent, need};
pub use examples::goals_compute;
pub use laws::{coupling_is_decided, coupling_is_symmetric, dormant_goals_count, need_is_decided};

#[cfg(test)]
mod tests;
