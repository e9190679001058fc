ghost use Rattle.std.specs.Prelude.{◌≡◌, ◌++◌, ◌∷◌, [], ◌+◌, ◌<◌, ◌≤◌, IfErr, IfOk, OnOk, length, take, drop, option_copied, is_some, false, T};
ghost use Rattle.std.specs.FinMap.{find, put, is_sorted};
ghost use Rattle.shared_map.specs.Blocks.{IsExact, IsLeaf};
ghost use Rattle.shared_map.specs.Search.{IsPlace};
ghost use Rattle.shared_map.specs.Grown.{parts_of, AreBlocks, MatchTried};

use crate::part::{Grown, Part, Tried};
use std::alloc::{AllocError, Global};
use std::cmp::Ordering;
use std::marker::Model;

/// How many entries a leaf has at most.
const MOST: usize = 64;

/// The lowest level of a map: from 1 to 64 entries, in the order of their keys.
#[derive(Drop)]
pub struct Leaf<K: Ord, V> {
    entries: Vec<(K, V)>,
}

impl<K: Ord, V> Model for Leaf<K, V> {
    ghost use Rattle.std.specs.Prelude.{List};
    ghost use Rattle.shared_map.specs.Blocks.{IsLeaf};

    ghost Value = { List (K × V) };

    ghost view = { λ l. l.entries.items };

    ghost invariant = { λ l. IsLeaf K.cmp l.entries.items };
}

impl<K: Ord + Drop, V: Drop> Leaf<K, V> {
    /// A leaf with one entry.
    pub fn one(alloc: Global, key: K, value: V) -> Result<Leaf<K, V>, AllocError>
        ensures { IfOk result (λ l. l ≡ (key, value) ∷ []) }
    {
        let mut entries = Vec::with_capacity(alloc, 1)?;
        entries.push((key, value))?;
        Ok(Leaf { entries })
    }
}

impl<K: Ord + Clone, V: Clone> Part<K, V> for Leaf<K, V> {
    ghost entries = { λ l. l };

    fn compare(&self, key: &K) -> Ordering {
        key.cmp(&self.entries[0].0)
    }

    fn get(&self, key: &K) -> Option<&V> {
        value_of(&self.entries, key)
    }

    fn with(
        &self,
        alloc: Global,
        last: bool,
        key: K,
        value: V,
    ) -> Result<(Grown<Leaf<K, V>>, bool), AllocError> {
        let cut = cut_for(&self.entries, last, &key);
        let (entries, found) = with_key(alloc, &self.entries, key, value)?;
        let leaves = leaves_of(entries, cut)?;
        Ok((leaves, found))
    }

    fn insert(
        &mut self,
        _alloc: Global,
        _last: bool,
        key: K,
        value: V,
    ) -> Result<Tried<K, V>, AllocError> {
        insert_in(&mut self.entries, key, value)
    }
}

/// The value at a key.
fn value_of<'a, K: Ord, V>(entries: &'a [(K, V)], key: &K) -> Option<&'a V>
    requires sorted { T (is_sorted K.cmp entries.now) }
    requires some { 0 < length entries.now }
    ensures { option_copied result ≡ find K.cmp key.now entries.now }
{
    let at = place_of(entries, key);
    let entry = &entries[at];
    match key.cmp(&entry.0) {
        Ordering::Equal => Some(&entry.1),
        _ => None,
    }
}

/// Where a leaf that gets a 65th entry is cut: before that entry if it is the last of the map, so that keys that come in
/// rising order make full leaves, and else in the middle. `last` says that the leaf is the map's last.
fn cut_for<K: Ord, V>(entries: &[(K, V)], last: bool, key: &K) -> usize
    requires { 0 < length entries.now }
    ensures late { 32 ≤ result }
    ensures early { result ≤ 64 }
{
    if !last {
        return MOST / 2;
    }
    match key.cmp(&entries[entries.len() - 1].0) {
        Ordering::Greater => MOST,
        _ => MOST / 2,
    }
}

/// The entries with this value at the key, and whether the key was there before.
fn with_key<K: Ord + Clone, V: Clone>(
    alloc: Global,
    entries: &[(K, V)],
    key: K,
    value: V,
) -> Result<(Vec<(K, V)>, bool), AllocError>
    requires keys { IsExact K.is_clone }
    requires values { IsExact V.is_clone }
    requires sorted { T (is_sorted K.cmp entries.now) }
    requires some { 0 < length entries.now }
    requires few { length entries.now ≤ 64 }
    ensures changed { IfOk result (λ r. r.0.items ≡ put K.cmp key value entries.now) }
    ensures found { IfOk result (λ r. r.1 ≡ is_some (find K.cmp key entries.now)) }
{
    let at = place_of(entries, &key);
    let entry = &entries[at];
    match key.cmp(&entry.0) {
        Ordering::Less => {
            let made = put_in(alloc, entries, at, at, key, value)?;
            Ok((made, false))
        }
        Ordering::Equal => {
            let key = entry.0.clone()?;
            let made = put_in(alloc, entries, at, at + 1, key, value)?;
            Ok((made, true))
        }
        Ordering::Greater => {
            let made = put_in(alloc, entries, at + 1, at + 1, key, value)?;
            Ok((made, false))
        }
    }
}

/// The index of the last entry whose key isn't above this one, or else of the first.
fn place_of<K: Ord, V>(entries: &[(K, V)], key: &K) -> usize
    requires { 0 < length entries.now }
    ensures { IsPlace (λ e. K.cmp key.now e.0) entries.now result }
{
    let mut low = 0;
    let mut high = entries.len();
    while high - low > 1 {
        let middle = low + (high - low) / 2;
        match key.cmp(&entries[middle].0) {
            Ordering::Less => high = middle,
            _ => low = middle,
        }
    }
    low
}

/// The entries, with one in the place of those from `at` to `end`.
fn put_in<K: Clone, V: Clone>(
    alloc: Global,
    entries: &[(K, V)],
    at: usize,
    end: usize,
    key: K,
    value: V,
) -> Result<Vec<(K, V)>, AllocError>
    requires keys { IsExact K.is_clone }
    requires values { IsExact V.is_clone }
    requires few { length entries.now ≤ 64 }
    requires before { at ≤ end }
    requires after { end ≤ length entries.now }
    ensures { IfOk result (λ v. v.items ≡ take at entries.now ++ (key, value) ∷ drop end entries.now) }
{
    let mut made = Vec::with_capacity(alloc, at + 1 + (entries.len() - end))?;
    copy(&mut made, &entries[..at])?;
    made.push((key, value))?;
    copy(&mut made, &entries[end..])?;
    Ok(made)
}

/// Copies entries.
fn copy<K: Clone, V: Clone>(into: &mut Vec<(K, V)>, from: &[(K, V)]) -> Result<(), AllocError>
    requires keys { IsExact K.is_clone }
    requires values { IsExact V.is_clone }
    ensures { OnOk result (into.new.items ≡ into.old.items ++ from.now) }
{
    for (key, value) in from {
        into.push((key.clone()?, value.clone()?))?;
    }
    Ok(())
}

/// Puts a value at the key in these entries themselves. The entry comes back where they have no room for it.
fn insert_in<K: Ord + Drop, V: Drop>(
    entries: &mut Vec<(K, V)>,
    key: K,
    value: V,
) -> Result<Tried<K, V>, AllocError>
    requires sorted { T (is_sorted K.cmp entries.old.items) }
    requires some { 0 < length entries.old.items }
    requires few { length entries.old.items ≤ 64 }
    ensures tried { IfOk result (λ t. MatchTried t (λ _. entries.new.items ≡ put K.cmp key value entries.old.items)
        (λ k v. (k ≡ key) × (v ≡ value) × (entries.new.items ≡ entries.old.items))) }
    ensures found { IfOk result (λ t. MatchTried t
        (λ found. found ≡ is_some (find K.cmp key entries.old.items)) (λ _ _. Unit {0})) }
    ensures kept { IfErr result (λ e. entries.new.items ≡ entries.old.items) }
    ensures few { length entries.new.items ≤ 64 }
{
    let at = place_of(entries, &key);
    match key.cmp(&entries[at].0) {
        Ordering::Less => insert_at(entries, at, key, value),
        Ordering::Equal => {
            entries[at].1 = value;
            Ok(Tried::Put { found: true })
        }
        Ordering::Greater => insert_at(entries, at + 1, key, value),
    }
}

/// Makes a further entry the one at `at`, before those from there on. It comes back where there is no room for it.
fn insert_at<K: Drop, V: Drop>(
    entries: &mut Vec<(K, V)>,
    at: usize,
    key: K,
    value: V,
) -> Result<Tried<K, V>, AllocError>
    requires within { at ≤ length entries.old.items }
    requires few { length entries.old.items ≤ 64 }
    ensures tried { IfOk result (λ t. MatchTried t
        (λ _. entries.new.items ≡ take at entries.old.items ++ (key, value) ∷ drop at entries.old.items)
        (λ k v. (k ≡ key) × (v ≡ value) × (entries.new.items ≡ entries.old.items))) }
    ensures found { IfOk result (λ t. MatchTried t (λ found. found ≡ false) (λ _ _. Unit {0})) }
    ensures kept { IfErr result (λ e. entries.new.items ≡ entries.old.items) }
    ensures few { length entries.new.items ≤ 64 }
{
    if entries.len() >= MOST {
        return Ok(Tried::Full(key, value));
    }
    entries.insert(at, (key, value))?;
    Ok(Tried::Put { found: false })
}

/// One leaf with these entries, or two where they are too many for one.
fn leaves_of<K: Ord + Drop, V: Drop>(
    mut entries: Vec<(K, V)>,
    cut: usize,
) -> Result<Grown<Leaf<K, V>>, AllocError>
    requires sorted { T (is_sorted K.cmp entries.items) }
    requires some { 0 < length entries.items }
    requires few { length entries.items ≤ 65 }
    requires cut_early { cut ≤ 64 }
    requires cut_late { 32 ≤ cut }
    ensures { IfOk result (λ g. AreBlocks entries.items (parts_of g)) }
{
    if entries.len() <= MOST {
        return Ok(Grown::One(Leaf { entries }));
    }
    let rest = entries.split_off(cut)?;
    Ok(Grown::Two(Leaf { entries }, Leaf { entries: rest }))
}
