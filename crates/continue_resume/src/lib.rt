//! Going on with a state by the goals of another one, and making dormant goals active.
//!
//! `specs/Continuing.antt` says what a state gets from another one of the same theorem, `specs/Resuming.antt` what making listed goals
//! active gives. Neither assigns a metavariable, so the new state is legal with the environment and the metavariables of the given one.
#![tactic(auto)]

mod continuing;
mod equality;
mod examples;
mod fault;
mod laws;
mod resuming;
mod states;

pub use continuing::continue_with;
pub use examples::states_compute;
pub use fault::{ContinueFault, ResumeFault};
pub use laws::{
    continuing_is_legal, resuming_is_legal, roots_are_decided, shared_goals_are_decided,
};
pub use resuming::resume;

#[cfg(test)]
mod tests;
