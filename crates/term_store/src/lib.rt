//! Terms with one handle for each tree: `HashTerms`, a store in which each node stands once and whose forks share what was made.
#![tactic(auto)]

mod examples;
mod hash_terms;
mod key;
mod row;
mod shared;

pub use examples::stores_compute;
pub use hash_terms::HashTerms;

#[cfg(test)]
mod tests;
