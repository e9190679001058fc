//! Weak head form and conversion of λD, with units of fuel.
//!
//! `specs/WeakHead.antt` and `specs/Conversion.antt` define both over plain trees, as functions of the units that they may spend.
//! [`whnf`] and [`conv`] give these values over any store of terms, in any environment and metavariable context. The other
//! functions are laws of the definitions, stated by their contracts and proved with the crate. Terms and reduction follow
//! Nederpelt and Geuvers, *Type Theory and Formal Proof* (2014), chapters 9 and 10; there is no η.
#![tactic(auto)]

mod converting;
mod laws;
mod pairs;
mod steps;
mod weak_head;

pub use converting::conv;
pub use laws::{
    conversion_has_fuel_law, conversion_unfolds, conversions_compute, plain_conversion_is_cheap,
    weak_head_form_has_fuel_law, weak_head_form_is_equal, weak_head_form_is_scoped,
    weak_head_forms_compute, yes_means_equal,
};
pub use weak_head::whnf;

#[cfg(test)]
mod tests;
