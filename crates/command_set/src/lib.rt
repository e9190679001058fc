//! The value of each command: what it replies, and the environment or the proof state that it makes.
#![tactic(auto)]

mod branch_examples;
mod env_add;
mod env_inspect;
mod environment;
mod examples;
mod expr_echo;
mod goal_continue;
mod goal_examples;
mod goal_move;
mod goal_resume;
mod goal_start;
mod laws;
mod proof_state;
mod values;

pub use env_add::{add_items, book_members};
pub use env_inspect::{catalog, inspect};
pub use environment::Environment;
pub use expr_echo::echo;
pub use goal_continue::continue_state;
pub use goal_move::{move_goal, print};
pub use goal_resume::resume_goals;
pub use goal_start::start;
pub use laws::{printed_proofs_are_proofs, states_prove};
pub use proof_state::ProofState;
pub use values::Program;

#[cfg(test)]
mod tests;
