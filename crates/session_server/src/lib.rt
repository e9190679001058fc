//! A session: the requests of an input are entered into a tree, line by line, and their replies written.
//!
//! The requests of a line are first looked up. Then their work is done side by side by a number of workers, and what is ready is
//! entered in the order of the requests, whichever work was done first. Each reply is written and flushed before the next line is read.
//!
//! The tree is one that the session has alone ([`run_session`]), or one that many sessions share over a board ([`serve_session`]). One
//! loop serves both: it looks and enters at a `Desk`, and what came between by other passes is part of what it proves.
#![tactic(auto)]

mod answer;
mod desk;
mod job;
mod line;
mod prepare;
mod run;
mod serving;
mod session;
#[cfg(test)]
mod tests;
mod worked_rows;
mod workers;

pub use run::End;
pub use serving::serve_session;
pub use session::run_session;
