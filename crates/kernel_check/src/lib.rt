//! The kernel's check: it infers the type or the sort of a term in an environment and a context, with units of fuel.
//!
//! `specs/Inference.antt` says what inference gives: a type, a refusal with its terms, or that a unit was wanted and none was left.
//! A type that is inferred in a legal environment and context is one that the rules of λD give the term.
#![tactic(auto)]

mod examples;
mod fault;
mod inference;
mod instances;
mod kernel;
mod laws;
mod signature;
mod spines;
mod types;

pub use examples::inference_computes;
pub use fault::KernelFault;
pub use kernel::{infer, infer_sort};
pub use laws::{
    inference_has_fuel_law, inference_is_scoped, inference_is_sound, refusals_are_scoped,
    sort_has_fuel_law, sort_is_sound, sort_refusals_are_scoped,
};

#[cfg(test)]
mod tests;
