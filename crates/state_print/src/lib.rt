//! What replies show of goal states.
//!
//! `specs/Pieces.antt` says which text each piece is, and `specs/Bodies.antt` how the replies are made of them.
#![tactic(auto)]

mod bodies;
mod couplings;
mod examples;
mod goals;
mod laws;
mod numbers;
mod printing;
mod text;

pub use bodies::{made_body, printed_body};
pub use examples::{coupled_goals_print, states_print};
pub use laws::{
    each_goal_is_shown, shown_states_are_replies, solved_is_shown, theorem_is_unfolded,
};
pub use printing::print_state;
pub use text::StateText;

#[cfg(test)]
mod tests;
