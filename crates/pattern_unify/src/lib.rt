//! Unification of terms under patterns, over any store of terms.
//!
//! The crate `unification` defines the value of each call, with units of fuel, and has its laws.
#![tactic(auto)]

mod engine;
mod entries;
mod fault;
mod metavariables;
mod names;
mod pairs;
mod plans;
mod renaming;
mod replacing;
mod sides;
mod solving;
mod spines;
mod spots;
mod unifying;
mod variables;

pub use fault::UnifyFault;
pub use metavariables::{declare_in, extend};
pub use names::name_at;
pub use unifying::{settle, unify};

#[cfg(test)]
mod fixtures;
#[cfg(test)]
mod tests;
