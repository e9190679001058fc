//! Replies before their numbers are known.

use ld_terms::Bytes;

/// A reply without its numbers: its pieces, with a gap for the number of entries, and one for a new id where one is made.
///
/// Where no id is made the number of entries stands between the first and the second piece. Else the id and the number stand in
/// the two gaps, the id first where `id_first` says so.
#[derive(Debug, Drop)]
pub struct Body {
    pub first: Bytes,
    pub second: Bytes,
    pub third: Bytes,
    pub id_first: bool,
}

/// A reply line: all of it but the digits is made before its entry. Each has the number of entries before its own.
#[derive(Debug, Drop)]
pub enum Line {
    /// A body, and the new id where one is made.
    Given {
        body: Body,
        seq: u64,
        id: Option<u64>,
    },
    /// The request was to stand behind more entries than there are.
    Ahead {
        length: u64,
        seq: u64,
    },
    /// The environment was never made.
    UnknownEnv {
        id: u64,
        seq: u64,
    },
    /// The state was never made, or isn't live.
    UnknownState {
        id: u64,
        seq: u64,
    },
    /// The state of this id ceased to be live.
    Deleted {
        id: u64,
        seq: u64,
    },
    /// So many states ceased to be live.
    Reset {
        deleted: u64,
        seq: u64,
    },
    /// How many environments, live states, and states there ever were.
    Stat {
        envs: u64,
        live: u64,
        seq: u64,
        states: u64,
    },
    /// There was no memory for the work.
    Memory {
        seq: u64,
    },
}
