//! Environments and metavariable contexts of λD, as values that grow and never change: each addition answers a further one, which
//! shares almost all of its memory with the one before.
#![tactic(auto)]

mod both;
mod declaring;
mod env;
mod fault;
mod kept;
mod laws;
mod metas;
mod walk;

pub use both::Both;
pub use declaring::{MOST_DEPTH, assign, declare};
pub use env::Env;
pub use fault::MetaFault;
pub use laws::{declarations_compute, declarations_mean_the_same, plain_items_mean_the_same};
pub use metas::{MOST_METAS, Metas};
pub use walk::depends;

#[cfg(test)]
mod env_tests;
#[cfg(test)]
mod tests;
