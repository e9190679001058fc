//! Terms of λD as programs hold them: the trait `Terms` of stores in which a handle means a tree, and the small types of plain data
//! that every crate of panto uses.
#![tactic(auto)]

mod boxed;
mod examples;
mod fuel;
mod globals;
mod halt;
mod list;
mod name;
mod node;
mod same;
mod shifting;
mod size;
mod spine;
mod substitution;
mod term;
mod terms;
mod tree_terms;
mod view;

pub use boxed::Boxed;
pub use examples::{names_compute, stores_compute};
pub use fuel::Fuel;
pub use globals::{Decl, Globals, Item, Local};
pub use halt::Halt;
pub use list::{Bytes, List};
pub use name::Name;
pub use node::{Node, Place};
pub use same::same_across;
pub use shifting::shift;
pub use size::{LEAF, Size};
pub use substitution::subst_all;
pub use term::Term;
pub use terms::Terms;
pub use tree_terms::{Entry, TreeTerms};
pub use view::View;

#[cfg(test)]
mod tests;
