//! A value that many passes take turns at, with one history of it.
//!
//! A [`Shared`] holds a value with a list of entries, its journal. A [`Pass`] draws a ticket, waits for its turn, and
//! calls a closure that may add one entry. What a pass has seen is always a beginning of the journal, and only the pass
//! itself makes entries that carry its own numbers: so each turn finds what the pass saw, and then entries of others.
//! Passes tell each other what they have seen by a [`Note`].
#![tactic(auto)]

mod examples;
mod rule;
mod shared;
mod sharing;
mod storied;
mod turning;
mod view;

pub use shared::{Note, Pass, Shared, Worn};
pub use storied::Storied;

#[cfg(test)]
mod tests;
