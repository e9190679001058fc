//! Elaboration of texts with holes: its definition and its laws.
//!
//! `specs/Elaboration.antt` defines what a text means in a context, in both directions of typing: values over plain trees, with units of
//! fuel. `specs/Order.antt` says which holes a text has, in text order, and how their metavariables are numbered. The functions are laws of
//! these definitions, stated by their contracts and proved with the crate.
#![tactic(auto)]

mod examples;
mod laws;

pub use examples::{elaboration_computes, elaboration_refuses, holes_compute};
pub use laws::{
    checking_is_sound, checking_types_is_sound, elaboration_has_fuel_law,
    holes_are_numbered_in_text_order, synthesis_is_sound,
};
