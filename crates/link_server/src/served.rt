//! What serving links leaves.

use session_server::End;
use shared_board::BoardPass;
use state_tree::{Entry, Work};

/// A link that was served, with its halves as its session left them.
#[derive(Drop)]
pub struct Served<I, O> {
    /// The number of the link, from 0 in the order of acceptance.
    pub link: u32,
    /// The number of the pass that entered its requests.
    pub pass: u32,
    /// How its session ended.
    pub end: End,
    /// Its input: what the session left of it.
    pub input: I,
    /// Its output: what the session wrote to it.
    pub output: O,
}

/// What is left of a tree and its links when all sessions have ended.
#[derive(Drop)]
pub struct Closed<W: Work, I, O> {
    /// The links that were served, in the order of acceptance.
    pub served: Vec<Served<I, O>>,
    /// Whether the doors failed, so that fewer links were served than there were places for.
    pub failed: bool,
    /// All entries of the tree.
    pub journal: Vec<Entry>,
    /// The pass that is left of the closed board: it has seen the whole journal.
    pub last: BoardPass<W>,
}
