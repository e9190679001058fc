//! The texts of terms: their tokens, their grammar, and the surface tree that a text stands for.
#![tactic(auto)]

mod fault;
mod kind;
mod laws;
mod round_trip;
mod scope_fault;
mod surface;

pub use fault::ReadFault;
pub use kind::{Kind, is_kind};
pub use laws::{
    nothing_continues, reading_is_complete, reading_is_sound, refusals_compute, trees_are_unique,
    trees_compute,
};
pub use round_trip::{
    printed_examples_compute, printed_is_ascii, printed_is_read, scoped_examples_compute,
    scoped_is_readable,
};
pub use scope_fault::ScopeFault;
pub use surface::{Label, Shape, Surface};
