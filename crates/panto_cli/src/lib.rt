//! The top calls of panto: words and a shelf of books in, and an input and an output, or the doors of many links; a status out.
//! The program over them is a few lines.
#![tactic(auto)]

mod book;
mod check;
mod counts;
mod demo;
mod host;
mod notes;
mod pieces;
mod run;
mod serve;
mod status;
mod store;

pub use link_server::Served;
pub use notes::write_note;
pub use run::panto_run;
pub use serve::{Ended, panto_serve};
pub use status::Status;
pub use store::Store;

#[cfg(test)]
mod bad_input_tests;
#[cfg(test)]
mod book_tests;
#[cfg(test)]
mod goal_tests;
#[cfg(test)]
mod serve_tests;
#[cfg(test)]
mod session_tests;
#[cfg(test)]
mod store_tests;
#[cfg(test)]
mod tests;
#[cfg(test)]
mod tries_tests;
