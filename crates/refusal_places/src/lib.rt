//! The place at which a text of terms is refused: the first token with which no text goes on.
#![tactic(auto)]

mod laws;

pub use laws::{
    before_continues, ends_early, places_compute, refused_at_the_first, refused_at_the_first_from,
};
