//! Changes of a block's parts in place.
ghost use Rattle.std.specs.Prelude.{◌≡◌, ◌++◌, ◌+◌, ◌<◌, ◌≤◌, IfErr, IfOk, OnOk, map, length, take, drop, is_some, T};
ghost use Rattle.std.specs.Arc.{arc_value};
ghost use Rattle.std.specs.FinMap.{find, put, is_sorted};
ghost use Rattle.shared_map.specs.Blocks.{IsExact, joined, NoneEmpty};
ghost use Rattle.shared_map.specs.Search.{IsPlace, cmp_first};
ghost use Rattle.shared_map.specs.Grown.{parts_of, AreBlocks, MatchTried};

use crate::part::{Grown, Part, Tried, is_last};
use std::alloc::{AllocError, Global};
use std::sync::Arc;

/// Puts this value at a key that is or would be in the part at `at`, in that part itself, where no other owner has it
/// and it has room. Else the entry comes back, and the parts are as they were, as they are at an error. `last` says that
/// the map has nothing after these parts.
pub(crate) fn insert_at<K: Ord + Clone, V: Clone, P: Part<K, V>>(
    alloc: Global,
    parts: &mut [Arc<P>],
    at: usize,
    last: bool,
    key: K,
    value: V,
) -> Result<Tried<K, V>, AllocError>
    requires keys { IsExact K.is_clone }
    requires values { IsExact V.is_clone }
    requires sorted { T (is_sorted K.cmp (joined (map (λ p. P.entries (arc_value p)) parts.old))) }
    requires full { NoneEmpty (map (λ p. P.entries (arc_value p)) parts.old) }
    requires place { IsPlace (cmp_first K.cmp key) (map (λ p. P.entries (arc_value p)) parts.old) at }
    ensures tried { IfOk result (λ t. MatchTried t
        (λ _. AreBlocks (put K.cmp key value (joined (map (λ p. P.entries (arc_value p)) parts.old)))
        (map (λ p. P.entries (arc_value p)) parts.new))
        (λ k v. (k ≡ key) × (v ≡ value)
        × (map (λ p. P.entries (arc_value p)) parts.new ≡ map (λ p. P.entries (arc_value p)) parts.old))) }
    ensures found { IfOk result (λ t. MatchTried t
        (λ found. found ≡ is_some (find K.cmp key (joined (map (λ p. P.entries (arc_value p)) parts.old))))
        (λ _ _. Unit {0})) }
    ensures kept { IfErr result (λ e.
        map (λ p. P.entries (arc_value p)) parts.new ≡ map (λ p. P.entries (arc_value p)) parts.old) }
    ensures as_many { length parts.new ≡ length parts.old }
{
    let last = is_last(last, at, parts.len());
    insert_alone(alloc, &mut parts[at], last, key, value)
}

/// Puts this value at the key in the part itself, where no other owner has the part and it has room. Else the entry
/// comes back, and the part is as it was.
fn insert_alone<K: Ord + Clone, V: Clone, P: Part<K, V>>(
    alloc: Global,
    part: &mut Arc<P>,
    last: bool,
    key: K,
    value: V,
) -> Result<Tried<K, V>, AllocError>
    requires keys { IsExact K.is_clone }
    requires values { IsExact V.is_clone }
    ensures tried { IfOk result (λ t. MatchTried t
        (λ _. P.entries (arc_value part.new) ≡ put K.cmp key value (P.entries (arc_value part.old)))
        (λ k v. (k ≡ key) × (v ≡ value) × (P.entries (arc_value part.new) ≡ P.entries (arc_value part.old)))) }
    ensures found { IfOk result (λ t. MatchTried t
        (λ found. found ≡ is_some (find K.cmp key (P.entries (arc_value part.old)))) (λ _ _. Unit {0})) }
    ensures kept { IfErr result (λ e. P.entries (arc_value part.new) ≡ P.entries (arc_value part.old)) }
{
    match Arc::get_mut(part) {
        Some(part) => part.insert(alloc, last, key, value),
        None => Ok(Tried::Full(key, value)),
    }
}

/// Puts this value at a key that is or would be in the part at `at`, by a new part, or two, in the place of that one, and
/// answers whether the key was there before. At an error the parts are as they were. `last` says that the map has
/// nothing after these parts.
pub(crate) fn renew_at<K: Ord + Clone, V: Clone, P: Part<K, V>>(
    alloc: Global,
    parts: &mut Vec<Arc<P>>,
    at: usize,
    last: bool,
    key: K,
    value: V,
) -> Result<bool, AllocError>
    requires keys { IsExact K.is_clone }
    requires values { IsExact V.is_clone }
    requires sorted { T (is_sorted K.cmp (joined (map (λ p. P.entries (arc_value p)) parts.old.items))) }
    requires full { NoneEmpty (map (λ p. P.entries (arc_value p)) parts.old.items) }
    requires place { IsPlace (cmp_first K.cmp key) (map (λ p. P.entries (arc_value p)) parts.old.items) at }
    ensures changed { IfOk result (λ _.
        AreBlocks (put K.cmp key value (joined (map (λ p. P.entries (arc_value p)) parts.old.items)))
        (map (λ p. P.entries (arc_value p)) parts.new.items)) }
    ensures found { IfOk result (λ found.
        found ≡ is_some (find K.cmp key (joined (map (λ p. P.entries (arc_value p)) parts.old.items)))) }
    ensures kept { IfErr result (λ e. parts.new.items ≡ parts.old.items) }
    ensures few { length parts.new.items ≤ length parts.old.items + 1 }
    ensures some { 0 < length parts.new.items }
{
    let last = is_last(last, at, parts.len());
    let (grown, found) = parts[at].with(alloc, last, key, value)?;
    replace_at(alloc, parts, at, grown)?;
    Ok(found)
}

/// Puts what the part at `at` became in its place. At an error the parts are as they were.
fn replace_at<T: Drop>(
    alloc: Global,
    parts: &mut Vec<Arc<T>>,
    at: usize,
    grown: Grown<T>,
) -> Result<(), AllocError>
    requires { at < length parts.old.items }
    ensures parts { OnOk result (map arc_value parts.new.items ≡ take at (map arc_value parts.old.items)
        ++ (parts_of grown ++ drop (at + 1) (map arc_value parts.old.items))) }
    ensures kept { IfErr result (λ e. parts.new.items ≡ parts.old.items) }
    ensures few { length parts.new.items ≤ length parts.old.items + 1 }
    ensures some { 0 < length parts.new.items }
{
    match grown {
        Grown::One(part) => {
            parts[at] = Arc::new(alloc, part)?;
            Ok(())
        }
        Grown::Two(part, next) => {
            let part = Arc::new(alloc, part)?;
            let next = Arc::new(alloc, next)?;
            parts.insert(at + 1, next)?;
            parts[at] = part;
            Ok(())
        }
    }
}
