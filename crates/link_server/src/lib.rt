//! Many links over one tree.
//!
//! [`Places`] are a board over a tree, with a pass for each link that may come. [`serve_links`] accepts a link for each, runs the session
//! of each beside the others, and closes the board when all have ended: what is left is one legal history, which every link fits.
#![tactic(auto)]

mod beside;
mod links;
mod seat;
mod served;
mod server;
#[cfg(test)]
mod tests;

pub use served::{Closed, Served};
pub use server::{Places, serve_links};
