ghost use Rattle.std.specs.Prelude.{◌≡◌, ◌++◌, ◌∷◌, [], ◌≤◌, IfErr, IfOk, OnOk, map, length, take, option_copied, slice_get};
ghost use Rattle.std.specs.Arc.{arc_value};
ghost use Rattle.shared_list.specs.Blocks.{IsExact, IsFilled, joined};
ghost use Rattle.shared_list.specs.Top.{nodes_in};

use crate::node::Node;
use crate::parts::{get_in, put_in, shared};
use std::alloc::{AllocError, Global};
use std::marker::Model;
use std::sync::Arc;

/// How many items a full node has.
const NODE: usize = 4096;

/// A list that is read by place and lengthened at its end. A fork shares almost all of its memory with its source.
///
/// In contracts it is the list of its items, of which there are at most `usize::MAX`. All its calls but `put_last` read
/// through `&self` and write nothing, so threads may read one list, and make forks of it, at once. Where items are `Send`
/// and `Sync`, so is the list. `put_last` changes in place what no other list shares.
#[derive(Drop)]
pub struct SharedList<T> {
    // None only in a list without items, which needs no allocator
    nodes: Option<Vec<Arc<Node<T>>>>,
    count: usize,
}

impl<T> Model for SharedList<T> {
    ghost use Rattle.std.specs.Prelude.{List, map};
    ghost use Rattle.std.specs.Arc.{arc_value};
    ghost use Rattle.shared_list.specs.Blocks.{joined};
    ghost use Rattle.shared_list.specs.Top.{nodes_in, IsList};

    ghost Value = { List T };

    ghost view = { λ l. joined (map arc_value (nodes_in l.nodes)) };

    ghost invariant = { λ l. IsList (map arc_value (nodes_in l.nodes)) l.count };
}

impl<T: Drop> SharedList<T> {
    /// The list without items. It takes no memory.
    pub fn new() -> SharedList<T>
        ensures { result ≡ [] }
    {
        SharedList {
            nodes: None,
            count: 0,
        }
    }

    /// How many items there are. It takes no memory.
    pub fn len(&self) -> usize
        ensures { result ≡ length self.now }
    {
        self.count
    }

    /// The item at a place, or `None` behind the last. It takes no memory.
    pub fn get(&self, at: usize) -> Option<&T>
        ensures { option_copied result ≡ slice_get self.now at }
    {
        get_in::<T, Node<T>, NODE>(nodes_of(&self.nodes), at)
    }

    /// The same list again, for a second owner. It copies the list of nodes and shares everything below it. This list
    /// stays as it was, at an error too.
    ///
    /// # Errors
    ///
    /// `AllocError` where memory runs out.
    pub fn fork(&self, alloc: Global) -> Result<SharedList<T>, AllocError>
        ensures { IfOk result (λ l. l ≡ self.now) }
    {
        let nodes = shared(alloc, nodes_of(&self.nodes))?;
        Ok(SharedList {
            nodes: Some(nodes),
            count: self.count,
        })
    }
}

impl<T: Clone> SharedList<T> {
    /// Makes `item` the last one, at the place `at`. Items that stood there or behind it are given up. Lists that were
    /// forked from this one before stay as they were.
    ///
    /// What no other list shares is changed in place. Of a leaf that another list shares, the items before `at` are
    /// cloned, at most 63, so a clone of an item must equal it.
    ///
    /// # Errors
    ///
    /// `AllocError` where memory runs out; then the list is as it was. A list of `usize::MAX` items gets no further one:
    /// that counts as want of memory.
    pub fn put_last(&mut self, alloc: Global, at: usize, item: T) -> Result<(), AllocError>
        requires within { at ≤ length self.old }
        requires clones { IsExact T.is_clone }
        ensures put { OnOk result (self.new ≡ take at self.old ++ item ∷ []) }
        ensures unchanged { IfErr result (λ e. self.new ≡ self.old) }
        // Whether it succeeds or not, the items before the place stay.
        ensures kept { take at self.new ≡ take at self.old }
        ensures enough { at ≤ length self.new }
    {
        let count = at.checked_add(1).ok_or(AllocError)?;
        put_among(alloc, &mut self.nodes, at, item)?;
        self.count = count;
        Ok(())
    }
}

/// The list of nodes of a list.
fn nodes_of<T>(nodes: &Option<Vec<Arc<Node<T>>>>) -> &[Arc<Node<T>>]
    ensures { result.now ≡ nodes_in nodes.now }
{
    match nodes {
        Some(nodes) => nodes,
        None => &[],
    }
}

/// Makes `item` the last one among the nodes of a list, at the place `at`. At an error they are as they were.
fn put_among<T: Clone>(
    alloc: Global,
    nodes: &mut Option<Vec<Arc<Node<T>>>>,
    at: usize,
    item: T,
) -> Result<(), AllocError>
    requires clones { IsExact T.is_clone }
    requires filled { IsFilled 4096 (map arc_value (nodes_in nodes.old)) }
    requires within { at ≤ length (joined (map arc_value (nodes_in nodes.old))) }
    ensures put { OnOk result (joined (map arc_value (nodes_in nodes.new))
        ≡ take at (joined (map arc_value (nodes_in nodes.old))) ++ item ∷ []) }
    ensures filled { IsFilled 4096 (map arc_value (nodes_in nodes.new)) }
    ensures kept { IfErr result (λ e. map arc_value (nodes_in nodes.new) ≡ map arc_value (nodes_in nodes.old)) }
{
    match nodes {
        Some(list) => put_in::<T, Node<T>, NODE>(alloc, list, at, item),
        None => {
            let mut list = Vec::new(alloc);
            put_in::<T, Node<T>, NODE>(alloc, &mut list, at, item)?;
            *nodes = Some(list);
            Ok(())
        }
    }
}
