use crate::leaf::Leaf;
use crate::part::{Growing, Part};
use crate::parts::{get_in, put_in, shared_first};
use std::alloc::{AllocError, Global};
use std::marker::Model;
use std::sync::Arc;

/// How many items a full leaf has.
const LEAF: usize = 64;

/// The middle level of a list: leaves, all of them full but the last.
#[derive(Drop)]
pub struct Node<T> {
    leaves: Vec<Arc<Leaf<T>>>,
}

impl<T> Model for Node<T> {
    ghost use Rattle.std.specs.Prelude.{List, map};
    ghost use Rattle.std.specs.Arc.{arc_value};
    ghost use Rattle.shared_list.specs.Blocks.{IsFilled, joined};

    ghost Value = { List T };

    ghost view = { λ n. joined (map arc_value n.leaves.items) };

    ghost invariant = { λ n. IsFilled 64 (map arc_value n.leaves.items) };
}

impl<T: Drop> Part<T> for Node<T> {
    ghost items = { λ n. n };

    fn get(&self, at: usize) -> Option<&T> {
        get_in::<T, Leaf<T>, LEAF>(&self.leaves, at)
    }
}

impl<T: Clone> Growing<T> for Node<T> {
    fn one(alloc: Global, item: T) -> Result<Node<T>, AllocError> {
        let leaf = Arc::new(alloc, Leaf::one(alloc, item)?)?;
        let mut leaves = Vec::with_capacity(alloc, 1)?;
        leaves.push(leaf)?;
        Ok(Node { leaves })
    }

    fn put_last(&mut self, alloc: Global, at: usize, item: T) -> Result<(), AllocError> {
        put_in::<T, Leaf<T>, LEAF>(alloc, &mut self.leaves, at, item)
    }

    fn with_last(&self, alloc: Global, at: usize, item: T) -> Result<Node<T>, AllocError> {
        let mut leaves = shared_first(alloc, &self.leaves, at / LEAF + 1)?;
        put_in::<T, Leaf<T>, LEAF>(alloc, &mut leaves, at, item)?;
        Ok(Node { leaves })
    }
}
