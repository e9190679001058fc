//! A persistent finite map: `with` answers a further map, and the map that it was called on stays as it was. `insert`
//! changes a map itself, and the maps that share memory with it stay as they were.
//!
//! A map has three levels of sorted blocks, each held through an `Arc`:
//!
//! ```text
//! SharedMap      [ node        node              node ]      one list of nodes, of any length
//!                    |           |                 |
//! Node           [ leaf leaf ] [ leaf leaf leaf ] [ leaf ]   1 to 64 leaves
//!                    |
//! Leaf           [ (key, value) (key, value) .. ]            1 to 64 entries
//! ```
//!
//! Read from left to right, the keys of all leaves rise strictly, and no block is empty. No level keeps keys of its
//! own to search by: the first key of a node or leaf is that of its first entry.
//!
//! `with` copies one leaf, one node and the list of nodes, and shares all other leaves and nodes with the old map. So
//! a further version takes the room of at most 65 entries, 65 pointers to leaves, and the list of nodes. Where a leaf or
//! a node is cut in two, its first half keeps the room of 65, and the other takes its own: then the two leaves have room for
//! up to 98 entries, or the two nodes for up to 98 leaves.
//!
//! A block that would get a 65th part is cut in the middle. At the map's end alone, where the new part is the last of all,
//! the cut is before it, so that keys that come above all others in rising order leave full blocks behind. So each leaf but
//! the last has 32 entries or more, each node but the last has 32 leaves or more, and a map of n keys has from n / 4,096 to
//! n / 1,024 + 1 nodes.
//!
//! `insert` copies nothing where no other map has the leaf and its node and the leaf has room. Else it makes a new leaf,
//! or two, in the place of the old one. It makes a new node as well, or two, where another map has the node, or where
//! a node of 64 leaves can't change a leaf in place. The list of nodes is never copied.
//!
//! In contracts a map is the list of its entries in the order of their keys, each key once. `find`, `put` and
//! `is_sorted` of std's `FinMap` are the words for it, and std's laws on them (`find-put`, `is_sorted-put`,
//! `length-put`, `same_entries`) apply. `tables_are_lists` is the law for maps whose keys are the numbers from 0 on.
#![tactic(auto)]

mod examples;
mod in_place;
mod laws;
mod leaf;
mod map;
mod node;
mod part;

pub use laws::tables_are_lists;
pub use map::SharedMap;

#[cfg(test)]
mod tests;
