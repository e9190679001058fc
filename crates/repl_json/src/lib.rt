//! The requests that lines make, read as JSON by `serde_json`, and the bytes of replies.
#![tactic(auto)]

mod asked;
mod bad;
mod command;
mod field;
#[cfg(test)]
mod field_tests;
mod fields;
mod finish;
mod laws;
mod lists;
mod names;
mod payload;
mod quote;
mod read;
mod reply;
mod request;
#[cfg(test)]
mod tests;
mod words;
mod worked;
mod worked_lines;

pub use bad::bad_body;
pub use finish::finish_line;
pub use laws::{
    bad_bodies_are_replies, memory_is_memory_line, only_memory_is_memory_line, replies_are_lines,
};
pub use payload::value_of;
pub use quote::push_quoted;
pub use read::read_request;
pub use reply::{Body, Line};
pub use request::{Ask, Bad, Request};
pub use words::is_blank_line;
