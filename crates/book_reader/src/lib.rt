//! Books of λD: texts of primitives and definitions, read whole and then checked item by item behind an environment.
#![tactic(auto)]

mod book;
mod checked;
mod fault;
mod items;
mod laws;
mod parameters;
mod read;
mod source;

pub use book::read_book;
pub use fault::BookFault;
pub use laws::{items_are_unique, nothing_continues};
pub use source::{Parameter, Source};

#[cfg(test)]
mod tests;
