ghost use Rattle.std.specs.Prelude.{◌≡◌, ◌++◌, ◌+◌, ◌<◌, ◌≤◌, ◌↔◌, IfErr, IfOk, IsTrue, OnOk, map, length, take, drop, option_copied, is_some, List, T};
ghost use Rattle.std.specs.Arc.{arc_value};
ghost use Rattle.std.specs.FinMap.{find, put, is_sorted};
ghost use Rattle.shared_map.specs.Blocks.{IsExact, joined, NoneEmpty};
ghost use Rattle.shared_map.specs.Search.{IsPlace, cmp_first};
ghost use Rattle.shared_map.specs.Grown.{parts_of, AreBlocks, MatchTried};

use std::alloc::{AllocError, Global};
use std::cmp::Ordering;
use std::sync::Arc;

/// What takes the place of a part after a change: the changed part, or the two that it was cut into.
#[derive(Drop)]
pub enum Grown<T> {
    One(T),
    Two(T, T),
}

/// What came of an attempt to put an entry into a part itself.
#[derive(Drop)]
pub enum Tried<K, V> {
    /// It is there. `found` says whether its key was there before.
    Put { found: bool },
    /// The part has no room for it, and it comes back.
    Full(K, V),
}

/// A part of a map: a leaf, or a node, which has leaves as its parts.
pub trait Part<K: Ord + Clone, V: Clone>: Drop + Sized {
    /// Its entries in order.
    ghost entries: { Self → List (K × V) };

    /// How a key stands to the first one.
    fn compare(&self, key: &K) -> Ordering
        ensures { result ≡ cmp_first K.cmp key.now (entries self.now) };

    /// The value at a key.
    fn get(&self, key: &K) -> Option<&V>
        ensures { option_copied result ≡ find K.cmp key.now (entries self.now) };

    /// The part with this value at the key, as one part or two, and whether the key was there before. `last` says that
    /// the map has nothing after this part, and so that keys which come in rising order come here.
    fn with(
        &self,
        alloc: Global,
        last: bool,
        key: K,
        value: V,
    ) -> Result<(Grown<Self>, bool), AllocError>
        requires keys { IsExact K.is_clone }
        requires values { IsExact V.is_clone }
        ensures parts { IfOk result (λ r.
            AreBlocks (put K.cmp key value (entries self.now)) (map entries (parts_of r.0))) }
        ensures found { IfOk result (λ r. r.1 ≡ is_some (find K.cmp key (entries self.now))) };

    /// Puts this value at the key in the part itself. Where the part has no room for that, the entry comes back, and
    /// the part is as it was, as it is at an error. `last` is as for `with`.
    fn insert(
        &mut self,
        alloc: Global,
        last: bool,
        key: K,
        value: V,
    ) -> Result<Tried<K, V>, AllocError>
        requires keys { IsExact K.is_clone }
        requires values { IsExact V.is_clone }
        ensures tried { IfOk result (λ t. MatchTried t (λ _. entries self.new ≡ put K.cmp key value (entries self.old))
            (λ k v. (k ≡ key) × (v ≡ value) × (entries self.new ≡ entries self.old))) }
        ensures found { IfOk result (λ t. MatchTried t
            (λ found. found ≡ is_some (find K.cmp key (entries self.old))) (λ _ _. Unit {0})) }
        ensures kept { IfErr result (λ e. entries self.new ≡ entries self.old) };
}

/// The index of the part where a key is or would be.
pub(crate) fn place_of<K: Ord + Clone, V: Clone, P: Part<K, V>>(parts: &[Arc<P>], key: &K) -> usize
    requires { 0 < length parts.now }
    ensures { IsPlace (cmp_first K.cmp key.now) (map (λ p. P.entries (arc_value p)) parts.now) result }
{
    let mut low = 0;
    let mut high = parts.len();
    while high - low > 1 {
        let middle = low + (high - low) / 2;
        match parts[middle].compare(key) {
            Ordering::Less => high = middle,
            _ => low = middle,
        }
    }
    low
}

/// The value at a key.
pub(crate) fn value_of<'a, K: Ord + Clone, V: Clone, P: Part<K, V>>(
    parts: &'a [Arc<P>],
    key: &K,
) -> Option<&'a V>
    requires sorted { T (is_sorted K.cmp (joined (map (λ p. P.entries (arc_value p)) parts.now))) }
    requires full { NoneEmpty (map (λ p. P.entries (arc_value p)) parts.now) }
    ensures { option_copied result ≡ find K.cmp key.now (joined (map (λ p. P.entries (arc_value p)) parts.now)) }
{
    if parts.is_empty() {
        return None;
    }
    let at = place_of(parts, key);
    parts[at].get(key)
}

/// Whether the map has nothing after the part at `at` of `count` parts. `last` says that it has nothing after these.
pub(crate) fn is_last(last: bool, at: usize, count: usize) -> bool
    requires { at < count }
    ensures { IsTrue result ↔ IsTrue last × (at + 1 ≡ count) }
{
    last && at + 1 == count
}

/// The parts with this value at a key that is or would be in the part at `at`, and whether the key was there before.
/// `last` says that the map has nothing after these parts.
pub(crate) fn with_key<K: Ord + Clone, V: Clone, P: Part<K, V>>(
    alloc: Global,
    parts: &[Arc<P>],
    at: usize,
    last: bool,
    key: K,
    value: V,
) -> Result<(Vec<Arc<P>>, bool), AllocError>
    requires keys { IsExact K.is_clone }
    requires values { IsExact V.is_clone }
    requires sorted { T (is_sorted K.cmp (joined (map (λ p. P.entries (arc_value p)) parts.now))) }
    requires full { NoneEmpty (map (λ p. P.entries (arc_value p)) parts.now) }
    requires place { IsPlace (cmp_first K.cmp key) (map (λ p. P.entries (arc_value p)) parts.now) at }
    ensures parts { IfOk result (λ r.
        AreBlocks (put K.cmp key value (joined (map (λ p. P.entries (arc_value p)) parts.now)))
        (map (λ p. P.entries (arc_value p)) r.0.items)) }
    ensures few { IfOk result (λ r. length r.0.items ≤ length parts.now + 1) }
    ensures some { IfOk result (λ r. 0 < length r.0.items) }
    ensures found { IfOk result (λ r.
        r.1 ≡ is_some (find K.cmp key (joined (map (λ p. P.entries (arc_value p)) parts.now)))) }
{
    let last = is_last(last, at, parts.len());
    let (grown, found) = parts[at].with(alloc, last, key, value)?;
    let made = with_part(alloc, parts, at, grown)?;
    Ok((made, found))
}

/// The parts, with what the one at `at` became in its place.
fn with_part<T: Drop>(
    alloc: Global,
    parts: &[Arc<T>],
    at: usize,
    grown: Grown<T>,
) -> Result<Vec<Arc<T>>, AllocError>
    requires { at < length parts.now }
    ensures few { IfOk result (λ v. length v.items ≤ length parts.now + 1) }
    ensures some { IfOk result (λ v. 0 < length v.items) }
    ensures parts { IfOk result (λ v.
        map arc_value v.items ≡ take at (map arc_value parts.now)
        ++ (parts_of grown ++ drop (at + 1) (map arc_value parts.now))) }
{
    let mut made = Vec::with_capacity(alloc, parts.len() + 1)?;
    share(&mut made, &parts[..at])?;
    add(alloc, &mut made, grown)?;
    share(&mut made, &parts[at + 1..])?;
    Ok(made)
}

/// Shares each of some parts.
pub(crate) fn share<T: Drop>(into: &mut Vec<Arc<T>>, from: &[Arc<T>]) -> Result<(), AllocError>
    ensures { OnOk result (map arc_value into.new.items ≡ map arc_value into.old.items ++ map arc_value from.now) }
{
    for part in from {
        into.push(Arc::try_clone(part)?)?;
    }
    Ok(())
}

/// Adds what a part became.
fn add<T: Drop>(alloc: Global, into: &mut Vec<Arc<T>>, grown: Grown<T>) -> Result<(), AllocError>
    ensures { OnOk result (map arc_value into.new.items ≡ map arc_value into.old.items ++ parts_of grown) }
{
    match grown {
        Grown::One(part) => {
            into.push(Arc::new(alloc, part)?)?;
            Ok(())
        }
        Grown::Two(part, next) => {
            into.push(Arc::new(alloc, part)?)?;
            into.push(Arc::new(alloc, next)?)?;
            Ok(())
        }
    }
}
