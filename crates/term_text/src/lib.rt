//! The texts of terms: a cursor over their tokens, reading, scoping and printing.
#![tactic(auto)]

mod cursor;
mod lex;
mod print;
mod read;
mod scope;
#[cfg(test)]
mod store_tests;
#[cfg(test)]
mod tests;

pub use cursor::Cursor;
pub use print::{Printed, level_name, print_term};
pub use read::{read_term, read_term_at};
pub use scope::{index_of, label_name, scope_term};
pub use term_syntax::{Label, ReadFault, ScopeFault, Shape, Surface};
