//! Goal states: an environment, a metavariable context that is legal over it, and which of the open goals are active.
//!
//! `specs/State.antt` says what a state is over plain trees, which of its goals are open and dormant, and when it is solved;
//! `specs/Starting.antt` what starting with a type gives; and `specs/Following.antt` what may follow a state. That the metavariables of a
//! state are legal is a fact of the type [`GoalState`]. So the value of a solved state has the type that the state was started with.
#![tactic(auto)]

mod changing;
mod examples;
mod fault;
mod goals;
mod laws;
mod starting;
mod state;
mod unfolding;

pub use examples::states_compute;
pub use fault::StartFault;
pub use laws::{
    open_goals_are_decided, solved_is_proved, starting_is_legal, stored_states_mean_the_same,
};
pub use state::GoalState;
pub use unfolding::unfold_metas;

#[cfg(test)]
mod tests;
#[cfg(test)]
mod value_tests;
