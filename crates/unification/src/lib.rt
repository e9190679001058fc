//! Unification of λD terms under patterns: its definition and its laws.
//!
//! `specs/Unification.antt` defines unification, `specs/Solving.antt` and `specs/Pruning.antt` how a pattern is solved, and
//! `specs/Metavariables.antt` what extending a context, declaring a metavariable and settling one are: values over plain trees, with
//! units of fuel. The functions are laws of these definitions, stated by their contracts and proved with the crate.
#![tactic(auto)]

mod examples;
mod fuel;
mod laws;

pub use examples::{pruning_computes, unification_computes};
pub use fuel::{
    settling_has_fuel_law, solving_unfolds, unification_has_fuel_law, unification_unfolds,
};
pub use laws::{
    settling_has_footprint, settling_is_sound, unifying_has_footprint, unifying_is_sound,
};
