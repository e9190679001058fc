//! What a line asks for.

use ld_terms::{Bytes, List};

/// Why a line is no request that can be answered by its command.
#[derive(Debug, PartialEq, Eq, Drop)]
pub enum Bad {
    /// The line has this many bytes, which is more than 65,536.
    LineTooLong { length: u64 },
    /// What is to be read as JSON isn't UTF-8, isn't JSON, or isn't an object.
    Json,
    /// The command is none of the protocol.
    Command,
    /// The field of this name is missing, of another kind or out of its range.
    Field { name: Bytes },
}

/// What a request asks for. Fields that a line leaves out stand with their defaults.
#[derive(Debug, Drop)]
pub enum Ask {
    /// The line alone decides the reply.
    Bad(Bad),
    /// `expr.echo`: a term is read as a text, and printed back with its type.
    Echo {
        env: u64,
        expr: Bytes,
        fuel: u64,
    },
    /// `env.add`: items are added to an environment, which makes a new one.
    EnvAdd {
        env: u64,
        text: Bytes,
        fuel: u64,
    },
    /// `env.inspect`: an item of an environment is shown.
    EnvInspect {
        env: u64,
        name: Bytes,
    },
    /// `env.catalog`: the names of an environment's items are listed.
    EnvCatalog {
        env: u64,
    },
    /// `goal.start`: a theorem is stated, which makes a proof state.
    Start {
        env: u64,
        expr: Bytes,
        fuel: u64,
    },
    /// `goal.move`: a move on an active goal of a state makes a new state.
    Move {
        state: u64,
        goal: u64,
        text: Bytes,
        fuel: u64,
        auto: bool,
    },
    /// `goal.continue`: a state goes on with the goals of another one.
    Continue {
        target: u64,
        branch: u64,
    },
    /// `goal.resume`: dormant goals of a state become active.
    Resume {
        state: u64,
        goals: List<u64>,
    },
    /// `goal.print`: a state is shown, with its term where it is solved.
    Print {
        state: u64,
    },
    /// `goal.delete`: a state ceases to be live.
    Delete {
        state: u64,
    },
    /// `reset`: every live state ceases to be live.
    Reset,
    /// `stat`: environments and states are counted.
    Stat,
}

/// A request: what it asks for, and the least number of entries that the caller wants to be made before it.
#[derive(Debug, Drop)]
pub struct Request {
    pub after: u64,
    pub ask: Ask,
}
