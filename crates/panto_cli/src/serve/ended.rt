//! What a call over links gives back.

use crate::status::Status;
use crate::store::Store;
use command_set::Program;
use link_server::Served;
use shared_board::BoardPass;
use state_tree::Entry;

/// How a call over links ended.
#[derive(Drop)]
pub struct Ended<I, O> {
    /// `OpenFault` where the doors failed, else that of the first link whose session wasn't done, and `Done` where there is none.
    /// Where no board was opened: `Usage`, `OpenFault` by the shelf, `BookRefused` or `Memory`.
    pub status: Status,
    /// The links that were served, in the order of acceptance.
    pub served: Vec<Served<I, O>>,
    /// The journal of the closed tree; nothing where no board was opened.
    pub journal: Option<Vec<Entry>>,
    /// The pass that is left of the closed board: it has seen the whole journal. Nothing where no board was opened.
    pub last: Option<BoardPass<Program<Store>>>,
}
