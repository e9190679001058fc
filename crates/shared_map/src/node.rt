ghost use Rattle.std.specs.Prelude.{◌≡◌, ◌∷◌, [], ◌+◌, ◌<◌, ◌≤◌, IfErr, IfOk, map, length, is_some, T};
ghost use Rattle.std.specs.Arc.{arc_value};
ghost use Rattle.std.specs.FinMap.{find, put, is_sorted};
ghost use Rattle.shared_map.specs.Blocks.{IsExact, joined, NoneEmpty};
ghost use Rattle.shared_map.specs.Grown.{parts_of, AreBlocks, MatchTried};

use crate::in_place::{insert_at, renew_at};
use crate::leaf::Leaf;
use crate::part::{Grown, Part, Tried, is_last, place_of, value_of, with_key};
use std::alloc::{AllocError, Global};
use std::cmp::Ordering;
use std::marker::Model;
use std::sync::Arc;

/// How many leaves a node has at most.
const MOST: usize = 64;

/// The middle level of a map: from 1 to 64 leaves, in the order of their keys.
#[derive(Drop)]
pub struct Node<K: Ord, V> {
    leaves: Vec<Arc<Leaf<K, V>>>,
}

impl<K: Ord, V> Model for Node<K, V> {
    ghost use Rattle.std.specs.Prelude.{List, map};
    ghost use Rattle.std.specs.Arc.{arc_value};
    ghost use Rattle.shared_map.specs.Blocks.{IsNode, joined};

    ghost Value = { List (K × V) };

    ghost view = { λ n. joined (map arc_value n.leaves.items) };

    ghost invariant = { λ n. IsNode K.cmp (map arc_value n.leaves.items) };
}

impl<K: Ord + Drop, V: Drop> Node<K, V> {
    /// A node with one leaf, which has one entry.
    pub fn one(alloc: Global, key: K, value: V) -> Result<Node<K, V>, AllocError>
        ensures { IfOk result (λ n. n ≡ (key, value) ∷ []) }
    {
        let leaf = Leaf::one(alloc, key, value)?;
        let mut leaves = Vec::with_capacity(alloc, 1)?;
        leaves.push(Arc::new(alloc, leaf)?)?;
        Ok(Node { leaves })
    }
}

impl<K: Ord + Clone, V: Clone> Part<K, V> for Node<K, V> {
    ghost entries = { λ n. n };

    fn compare(&self, key: &K) -> Ordering {
        self.leaves[0].compare(key)
    }

    fn get(&self, key: &K) -> Option<&V> {
        value_of(&self.leaves, key)
    }

    fn with(
        &self,
        alloc: Global,
        last: bool,
        key: K,
        value: V,
    ) -> Result<(Grown<Node<K, V>>, bool), AllocError> {
        let at = place_of(&self.leaves, &key);
        let cut = cut_for(&self.leaves, at, last);
        let (leaves, found) = with_key(alloc, &self.leaves, at, last, key, value)?;
        let nodes = nodes_of(leaves, cut)?;
        Ok((nodes, found))
    }

    fn insert(
        &mut self,
        alloc: Global,
        last: bool,
        key: K,
        value: V,
    ) -> Result<Tried<K, V>, AllocError> {
        insert_in(alloc, &mut self.leaves, last, key, value)
    }
}

/// Where a node that gets a 65th leaf is cut: before that leaf if it is the last of the map, so that keys that come in
/// rising order make full nodes, and else in the middle.
fn cut_for<T>(leaves: &[Arc<T>], at: usize, last: bool) -> usize
    requires { at < length leaves.now }
    ensures late { 32 ≤ result }
    ensures early { result ≤ 64 }
{
    if is_last(last, at, leaves.len()) {
        MOST
    } else {
        MOST / 2
    }
}

/// Puts a value at the key among these leaves. Where that takes a new leaf and there may be no further one, the entry
/// comes back. `last` says that the map has nothing after these leaves.
fn insert_in<K: Ord + Clone, V: Clone>(
    alloc: Global,
    leaves: &mut Vec<Arc<Leaf<K, V>>>,
    last: bool,
    key: K,
    value: V,
) -> Result<Tried<K, V>, AllocError>
    requires keys { IsExact K.is_clone }
    requires values { IsExact V.is_clone }
    requires sorted { T (is_sorted K.cmp (joined (map arc_value leaves.old.items))) }
    requires full { NoneEmpty (map arc_value leaves.old.items) }
    requires some { 0 < length leaves.old.items }
    requires few { length leaves.old.items ≤ 64 }
    ensures tried { IfOk result (λ t. MatchTried t
        (λ _. AreBlocks (put K.cmp key value (joined (map arc_value leaves.old.items))) (map arc_value leaves.new.items))
        (λ k v. (k ≡ key) × (v ≡ value) × (map arc_value leaves.new.items ≡ map arc_value leaves.old.items))) }
    ensures found { IfOk result (λ t. MatchTried t
        (λ found. found ≡ is_some (find K.cmp key (joined (map arc_value leaves.old.items)))) (λ _ _. Unit {0})) }
    ensures kept { IfErr result (λ e. map arc_value leaves.new.items ≡ map arc_value leaves.old.items) }
    ensures some { 0 < length leaves.new.items }
    ensures few { length leaves.new.items ≤ 64 }
{
    let at = place_of(leaves, &key);
    match insert_at(alloc, leaves, at, last, key, value)? {
        Tried::Put { found } => Ok(Tried::Put { found }),
        Tried::Full(key, value) => {
            if leaves.len() >= MOST {
                return Ok(Tried::Full(key, value));
            }
            let found = renew_at(alloc, leaves, at, last, key, value)?;
            Ok(Tried::Put { found })
        }
    }
}

/// One node with these leaves, or two where they are too many for one.
fn nodes_of<K: Ord + Drop, V: Drop>(
    mut leaves: Vec<Arc<Leaf<K, V>>>,
    cut: usize,
) -> Result<Grown<Node<K, V>>, AllocError>
    requires sorted { T (is_sorted K.cmp (joined (map arc_value leaves.items))) }
    requires full { NoneEmpty (map arc_value leaves.items) }
    requires some { 0 < length leaves.items }
    requires few { length leaves.items ≤ 65 }
    requires cut_early { cut ≤ 64 }
    requires cut_late { 32 ≤ cut }
    ensures { IfOk result (λ g. AreBlocks (joined (map arc_value leaves.items)) (parts_of g)) }
{
    if leaves.len() <= MOST {
        return Ok(Grown::One(Node { leaves }));
    }
    let rest = leaves.split_off(cut)?;
    Ok(Grown::Two(Node { leaves }, Node { leaves: rest }))
}
