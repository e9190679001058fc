ghost use Rattle.std.specs.Prelude.{◌≡◌, ◌≢◌, ◌∷◌, [], ◌+◌, ◌<◌, IfErr, IfOk, IsTrue, OnOk, map, length, option_copied, cond, is_some, Some, T};
ghost use Rattle.std.specs.Arc.{arc_value};
ghost use Rattle.std.specs.FinMap.{find, put, is_sorted};
ghost use Rattle.std.specs.declared.cmp.Ordering.TheVariants.{Equal};
ghost use Rattle.shared_map.specs.Blocks.{IsExact, joined, NoneEmpty};
ghost use Rattle.shared_map.specs.Grown.{AreBlocks};
ghost use Rattle.shared_map.specs.Top.{nodes_in};

use crate::in_place::{insert_at, renew_at};
use crate::node::Node;
use crate::part::{Tried, place_of, share, value_of, with_key};
use std::alloc::{AllocError, Global};
use std::marker::Model;
use std::sync::Arc;

/// A finite map from keys to values. `with` answers a further map, which shares almost all of its memory with this one.
/// `insert` changes this map alone.
///
/// In contracts it is the list of its entries in the order of their keys, each key once. All its calls but `insert` read
/// through `&self` and write nothing, so threads may read one map, and make further maps from it, at once.
/// Where keys and values are `Send` and `Sync`, so is the map.
#[derive(Drop)]
pub struct SharedMap<K: Ord, V> {
    // None only in a map without entries, which needs no allocator
    nodes: Option<Vec<Arc<Node<K, V>>>>,
    count: u64,
}

impl<K: Ord, V> Model for SharedMap<K, V> {
    ghost use Rattle.std.specs.Prelude.{List, map};
    ghost use Rattle.std.specs.Arc.{arc_value};
    ghost use Rattle.shared_map.specs.Blocks.{IsMap, joined};
    ghost use Rattle.shared_map.specs.Top.{nodes_in};

    ghost Value = { List (K × V) };

    ghost view = { λ m. joined (map arc_value (nodes_in m.nodes)) };

    ghost invariant = { λ m. IsMap K.cmp (map arc_value (nodes_in m.nodes)) m.count };
}

impl<K: Ord + Clone, V: Clone> SharedMap<K, V> {
    /// The map without entries. It takes no memory.
    pub fn new() -> SharedMap<K, V>
        ensures { result ≡ [] }
    {
        SharedMap {
            nodes: None,
            count: 0,
        }
    }

    /// The value at a key, or `None` where the map has no such key. It takes no memory.
    pub fn get(&self, key: &K) -> Option<&V>
        ensures { option_copied result ≡ find K.cmp key.now self.now }
    {
        value_of(nodes_of(&self.nodes), key)
    }

    /// How many keys have a value. It takes no memory.
    pub fn len(&self) -> u64
        ensures counted { result ≡ length self.now }
        // The entries stand in the order of their keys, each key once, so there are as many keys as entries.
        ensures in_order { IsTrue (is_sorted K.cmp self.now) }
    {
        self.count
    }

    /// The map in which `key` has `value`, and every other key what it has here. Where a key that compares equal to
    /// `key` is in the map, that key stays and its value is replaced.
    ///
    /// This map stays as it was, at an error too. A clone of a key or value must equal it, since one leaf's entries are
    /// cloned.
    ///
    /// # Errors
    ///
    /// `AllocError` where memory runs out. A map of 18,446,744,073,709,551,615 keys gets no further one: that counts as
    /// want of memory.
    pub fn with(&self, alloc: Global, key: K, value: V) -> Result<SharedMap<K, V>, AllocError>
        requires keys { IsExact K.is_clone }
        requires values { IsExact V.is_clone }
        ensures changed { IfOk result (λ m. m ≡ put K.cmp key value self.now) }
        ensures at_key { IfOk result (λ m. find K.cmp key m ≡ Some value) }
        ensures elsewhere { IfOk result (λ m.
            (q : K) → K.cmp q key ≢ Equal → find K.cmp q m ≡ find K.cmp q self.now) }
        ensures in_order { IfOk result (λ m. IsTrue (is_sorted K.cmp m)) }
    {
        let (nodes, found) = nodes_with(alloc, nodes_of(&self.nodes), key, value)?;
        let count = counted(self.count, found)?;
        Ok(SharedMap {
            nodes: Some(nodes),
            count,
        })
    }

    /// Gives a key a value in this map itself. Where the key is in the map already, that key stays and its value is
    /// replaced. Maps made from this one before stay as they were.
    ///
    /// What no other map shares is changed in place, and a clone is made of a leaf that is full or shared. A clone of a
    /// key or value must equal it.
    ///
    /// # Errors
    ///
    /// `AllocError` where memory runs out; then the map is as it was. A map of 18,446,744,073,709,551,615 keys can't be
    /// changed: that counts as want of memory.
    pub fn insert(&mut self, alloc: Global, key: K, value: V) -> Result<(), AllocError>
        requires keys { IsExact K.is_clone }
        requires values { IsExact V.is_clone }
        ensures changed { OnOk result (self.new ≡ put K.cmp key value self.old) }
        ensures kept { IfErr result (λ e. self.new ≡ self.old) }
    {
        let more = counted(self.count, false)?;
        let found = insert_among(alloc, &mut self.nodes, key, value)?;
        self.count = count_after(self.count, found, more);
        Ok(())
    }

    /// The same map again, for a second owner. It copies the list of nodes and shares everything below it. This map
    /// stays as it was, at an error too.
    ///
    /// # Errors
    ///
    /// `AllocError` where memory runs out.
    pub fn fork(&self, alloc: Global) -> Result<SharedMap<K, V>, AllocError>
        ensures { IfOk result (λ m. m ≡ self.now) }
    {
        let nodes = shared(alloc, nodes_of(&self.nodes))?;
        Ok(SharedMap {
            nodes: Some(nodes),
            count: self.len(),
        })
    }
}

/// The list of nodes of a map.
fn nodes_of<K: Ord, V>(nodes: &Option<Vec<Arc<Node<K, V>>>>) -> &[Arc<Node<K, V>>]
    ensures { result.now ≡ nodes_in nodes.now }
{
    match nodes {
        Some(nodes) => nodes,
        None => &[],
    }
}

/// How many entries there are after a value was put at a key that was there or wasn't. A count that doesn't fit stands
/// for want of memory: so many entries can't be held.
fn counted(count: u64, found: bool) -> Result<u64, AllocError>
    ensures { IfOk result (λ n. n ≡ cond found count (count + 1)) }
{
    if found {
        Ok(count)
    } else {
        count.checked_add(1).ok_or(AllocError)
    }
}

/// How many entries there are after a value was put at a key that was there or wasn't, where a further one makes `more`.
fn count_after(count: u64, found: bool, more: u64) -> u64
    ensures { result ≡ cond found count more }
{
    if found { count } else { more }
}

/// The nodes with this value at the key, and whether the key was there before.
fn nodes_with<K: Ord + Clone, V: Clone>(
    alloc: Global,
    nodes: &[Arc<Node<K, V>>],
    key: K,
    value: V,
) -> Result<(Vec<Arc<Node<K, V>>>, bool), AllocError>
    requires keys { IsExact K.is_clone }
    requires values { IsExact V.is_clone }
    requires sorted { T (is_sorted K.cmp (joined (map arc_value nodes.now))) }
    requires full { NoneEmpty (map arc_value nodes.now) }
    ensures changed { IfOk result (λ r.
        AreBlocks (put K.cmp key value (joined (map arc_value nodes.now))) (map arc_value r.0.items)) }
    ensures found { IfOk result (λ r. r.1 ≡ is_some (find K.cmp key (joined (map arc_value nodes.now)))) }
{
    if nodes.is_empty() {
        let made = one_node(alloc, key, value)?;
        return Ok((made, false));
    }
    let at = place_of(nodes, &key);
    with_key(alloc, nodes, at, true, key, value)
}

/// A list of one node, which has one entry.
fn one_node<K: Ord + Drop, V: Drop>(
    alloc: Global,
    key: K,
    value: V,
) -> Result<Vec<Arc<Node<K, V>>>, AllocError>
    ensures { IfOk result (λ v. map arc_value v.items ≡ ((key, value) ∷ []) ∷ []) }
{
    let node = Node::one(alloc, key, value)?;
    let mut made = Vec::with_capacity(alloc, 1)?;
    made.push(Arc::new(alloc, node)?)?;
    Ok(made)
}

/// Gives a key a value among the nodes of a map, and answers whether the key was there before. At an error they are as
/// they were.
fn insert_among<K: Ord + Clone, V: Clone>(
    alloc: Global,
    nodes: &mut Option<Vec<Arc<Node<K, V>>>>,
    key: K,
    value: V,
) -> Result<bool, AllocError>
    requires keys { IsExact K.is_clone }
    requires values { IsExact V.is_clone }
    requires sorted { T (is_sorted K.cmp (joined (map arc_value (nodes_in nodes.old)))) }
    requires full { NoneEmpty (map arc_value (nodes_in nodes.old)) }
    ensures changed { IfOk result (λ _.
        AreBlocks (put K.cmp key value (joined (map arc_value (nodes_in nodes.old))))
        (map arc_value (nodes_in nodes.new))) }
    ensures found { IfOk result (λ found.
        found ≡ is_some (find K.cmp key (joined (map arc_value (nodes_in nodes.old))))) }
    ensures kept { IfErr result (λ e. map arc_value (nodes_in nodes.new) ≡ map arc_value (nodes_in nodes.old)) }
{
    match nodes {
        Some(list) => insert_in(alloc, list, key, value),
        None => {
            *nodes = Some(one_node(alloc, key, value)?);
            Ok(false)
        }
    }
}

/// Gives a key a value in a list of nodes, in place where it can, and answers whether the key was there before. At an
/// error the nodes are as they were.
fn insert_in<K: Ord + Clone, V: Clone>(
    alloc: Global,
    nodes: &mut Vec<Arc<Node<K, V>>>,
    key: K,
    value: V,
) -> Result<bool, AllocError>
    requires keys { IsExact K.is_clone }
    requires values { IsExact V.is_clone }
    requires sorted { T (is_sorted K.cmp (joined (map arc_value nodes.old.items))) }
    requires full { NoneEmpty (map arc_value nodes.old.items) }
    ensures changed { IfOk result (λ _.
        AreBlocks (put K.cmp key value (joined (map arc_value nodes.old.items))) (map arc_value nodes.new.items)) }
    ensures found { IfOk result (λ found.
        found ≡ is_some (find K.cmp key (joined (map arc_value nodes.old.items)))) }
    ensures kept { IfErr result (λ e. map arc_value nodes.new.items ≡ map arc_value nodes.old.items) }
{
    if nodes.is_empty() {
        *nodes = one_node(alloc, key, value)?;
        return Ok(false);
    }
    let at = place_of(nodes, &key);
    match insert_at(alloc, nodes, at, true, key, value)? {
        Tried::Put { found } => Ok(found),
        Tried::Full(key, value) => renew_at(alloc, nodes, at, true, key, value),
    }
}

/// A second list of the same nodes.
fn shared<K: Ord + Drop, V: Drop>(
    alloc: Global,
    nodes: &[Arc<Node<K, V>>],
) -> Result<Vec<Arc<Node<K, V>>>, AllocError>
    ensures { IfOk result (λ v. map arc_value v.items ≡ map arc_value nodes.now) }
{
    let mut made = Vec::with_capacity(alloc, nodes.len())?;
    share(&mut made, nodes)?;
    Ok(made)
}
