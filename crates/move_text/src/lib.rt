//! The texts of moves: the steps of a proof that a request may ask for.
#![tactic(auto)]

mod laws;
mod moves;
mod read;
#[cfg(test)]
mod tests;
mod words;

pub use laws::{moves_are_unique, moves_compute, nothing_continues, refusals_compute};
pub use moves::Move;
pub use read::read_move;
