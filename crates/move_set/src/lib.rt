//! Moves of a proof: the value of a move on a goal of a state.
//!
//! `specs/Moves.antt` defines the value of each move over plain states, as a function of the state, the goal's index, the text, the units
//! of fuel and `auto` alone, `specs/Applying.antt` what applying a term to new metavariables is, and `specs/Replacing.antt` what a body in
//! place of a constant is. The other functions are laws of these definitions, stated by their contracts and proved with the crate.
#![tactic(auto)]

mod applying;
mod asked;
mod assuming;
mod cutting;
mod examples;
mod fault;
mod further_examples;
mod laws;
mod moves;
mod next;
mod replacing;
mod restating;
mod running;
mod spine;

pub use examples::{holes_compute, moves_compute};
pub use fault::{MoveFault, Refused};
pub use further_examples::{assumptions_compute, cuts_compute, unfoldings_compute};
pub use laws::{moves_have_fuel_law, moving_has_footprint, moving_is_legal, moving_keeps};
pub use running::run_move;

#[cfg(test)]
mod tests;
