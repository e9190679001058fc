//! One tree of environments and proof states that passes share, each with the calls of the tree.
//!
//! A [`Board`] keeps the tree in a lock, and a [`BoardPass`] takes turns at it: it looks up what a request names, and enters
//! the prepared request. What a pass has seen of the journal is its view. A turn finds the view, and then entries of other
//! passes alone. No call runs a command, so no move is made while a turn is held.
//!
//! A pass keeps the states that it looked up last. A made id keeps its state, so a look that finds in this cache all that
//! a request names takes no turn. Whether a state is live is tested when the request is entered.
#![tactic(auto)]

mod board;
mod board_pass;
mod board_tree;
mod closing;
mod laws;
mod opening;
mod state_cache;
mod turns;

pub use board::Board;
pub use board_pass::BoardPass;
pub use board_tree::{BoardTree, TreeGround};
pub use laws::again_is_found;
pub use turns::LookFault;

#[cfg(test)]
mod tests;
