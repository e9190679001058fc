//! A persistent list: it is read by place in constant time and lengthened in place, and the lists that share memory
//! with it stay as they were.
//!
//! A list has three levels, and the two below the list are held through an `Arc`:
//!
//! ```text
//! SharedList     [ node        node              node ]      one list of nodes, of any length
//!                    |           |                 |
//! Node           [ leaf .. leaf ] [ leaf .. leaf ] [ leaf ]  1 to 64 leaves
//!                    |
//! Leaf           [ item .. item ]                            1 to 64 items
//! ```
//!
//! All parts but the last of their level are full. So the item at the place i is that at i % 64 in the leaf (i / 64) % 64
//! of the node i / 4,096: `get` takes three steps and searches nothing.
//!
//! `put_last` copies nothing where no other list has the leaf of the place and its node. Where another list has the leaf,
//! it makes a new one, with a clone of each item before the place in it; where another list has the node, a new node, which
//! shares the leaves before that one. `fork` copies the list of nodes alone: one pointer for each 4,096 items.
//!
//! In contracts a list is the list of its items. `take`, `++` and `slice_get` of std are the words for it.
#![tactic(auto)]

mod examples;
mod leaf;
mod list;
mod node;
mod part;
mod parts;

pub use list::SharedList;

#[cfg(test)]
mod tests;
