//! The one tree of environments and proof states that a server keeps, as the replay of its journal.
//!
//! A request is looked up in a [`Tree`], its work is done on what was found, without the tree, and the prepared request ([`Ready`])
//! is entered. Entering tests that what the request names is still usable, and takes no memory. The value of a command is no matter
//! of the tree: it comes from a [`Work`].
#![tactic(auto)]

mod check;
mod entering;
mod holdings;
mod laws;
mod look;
mod ready;
mod slot;
#[cfg(test)]
mod tests;
mod tree;
mod work;
mod worked_rows;

pub use laws::{
    found_stays, given_up_is_entered, looked_up_is_entered, looks_hold, replies_are_shown,
};
pub use ready::{Ready, make_ready, refuse_ready};
pub use tree::{Outcome, Tree};
pub use work::{Entry, Found, Gave, Work, Worked};
