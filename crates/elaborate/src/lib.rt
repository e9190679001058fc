//! Elaboration of texts with holes to terms with metavariables, over any store of terms.
//!
//! The crate `elaboration` defines the value of each call, with units of fuel, and has its laws.
#![tactic(auto)]

mod binders;
mod elaborating;
mod fault;
mod leaves;
mod made;
mod meeting;
mod nodes;
mod standing;
mod walk;

pub use elaborating::{check, check_type, synth};
pub use fault::ElabFault;
pub use made::Made;

#[cfg(test)]
mod tests;
