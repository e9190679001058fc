//! The words of the command line, read with `clap`.
//!
//! [`read_words`] gives the form that the words have, and [`usage`] the note for words that have none.
//! `specs/Form.antt` says what the forms are.
#![tactic(auto)]

mod check;
mod demo;
mod note;
mod numbers;
mod parts;
mod plain;
mod run;
mod serve;
mod words;
mod worked;

pub use note::usage;
pub use words::{Form, read_words};
pub use worked::{worked_forms, worked_refusals};

#[cfg(test)]
mod tests;
