//! The parts of a node, which are leaves, and those of a list, which are nodes.
ghost use Rattle.std.specs.Prelude.{◌≡◌, ◌++◌, ◌∷◌, [], ◌<◌, ◌≤◌, IfErr, IfOk, OnOk, map, length, take, option_copied, slice_get, slice_index_or, slice_set};
ghost use Rattle.std.specs.Arc.{arc_value};
ghost use Rattle.shared_list.specs.Blocks.{IsExact, IsFilled, joined};

use crate::part::{Growing, Part};
use std::alloc::{AllocError, Global};
use std::sync::Arc;

/// The item at a place, or `None` behind the last, where each part but the last has `WIDTH` items.
pub(crate) fn get_in<'a, T: Drop, P: Part<T>, const WIDTH: usize>(
    parts: &'a [Arc<P>],
    at: usize,
) -> Option<&'a T>
    requires wide { 0 < WIDTH }
    requires filled { IsFilled WIDTH (map (λ p. P.items (arc_value p)) parts.now) }
    ensures { option_copied result ≡ slice_get (joined (map (λ p. P.items (arc_value p)) parts.now)) at }
{
    let place = at / WIDTH;
    if place >= parts.len() {
        return None;
    }
    parts[place].get(at % WIDTH)
}

/// Makes `item` the last one, at the place `at`, where each part but the last has `WIDTH` items. At an error the parts
/// are as they were.
pub(crate) fn put_in<T: Clone, P: Growing<T>, const WIDTH: usize>(
    alloc: Global,
    parts: &mut Vec<Arc<P>>,
    at: usize,
    item: T,
) -> Result<(), AllocError>
    requires clones { IsExact T.is_clone }
    requires wide { 0 < WIDTH }
    requires filled { IsFilled WIDTH (map (λ p. P.items (arc_value p)) parts.old.items) }
    requires within { at ≤ length (joined (map (λ p. P.items (arc_value p)) parts.old.items)) }
    ensures put { OnOk result (joined (map (λ p. P.items (arc_value p)) parts.new.items)
        ≡ take at (joined (map (λ p. P.items (arc_value p)) parts.old.items)) ++ item ∷ []) }
    ensures filled { IsFilled WIDTH (map (λ p. P.items (arc_value p)) parts.new.items) }
    ensures kept { IfErr result (λ e.
        map (λ p. P.items (arc_value p)) parts.new.items ≡ map (λ p. P.items (arc_value p)) parts.old.items) }
{
    end_at(alloc, parts, at / WIDTH, at % WIDTH, item)
}

/// Makes `item` the last one, at the place `rest` in the part at `place`, which is a new part where `rest` is 0. At an
/// error the parts are as they were.
fn end_at<T: Clone, P: Growing<T>>(
    alloc: Global,
    parts: &mut Vec<Arc<P>>,
    place: usize,
    rest: usize,
    item: T,
) -> Result<(), AllocError>
    requires clones { IsExact T.is_clone }
    requires place { place ≤ length parts.old.items }
    requires rest { rest ≤ length (slice_index_or (map (λ p. P.items (arc_value p)) parts.old.items) place []) }
    ensures put { OnOk result (map (λ p. P.items (arc_value p)) parts.new.items
        ≡ take place (map (λ p. P.items (arc_value p)) parts.old.items)
        ++ (take rest (slice_index_or (map (λ p. P.items (arc_value p)) parts.old.items) place []) ++ item ∷ []) ∷ []) }
    ensures kept { IfErr result (λ e.
        map (λ p. P.items (arc_value p)) parts.new.items ≡ map (λ p. P.items (arc_value p)) parts.old.items) }
{
    if rest == 0 {
        let part = Arc::new(alloc, P::one(alloc, item)?)?;
        return end_with(parts, place, part);
    }
    end_part(alloc, parts, place, rest, item)?;
    parts.truncate(place + 1);
    Ok(())
}

/// Makes `item` the last one of the part at `place`, at the place `rest` in it. At an error the parts are as they were.
fn end_part<T: Clone, P: Growing<T>>(
    alloc: Global,
    parts: &mut Vec<Arc<P>>,
    place: usize,
    rest: usize,
    item: T,
) -> Result<(), AllocError>
    requires clones { IsExact T.is_clone }
    requires place { place < length parts.old.items }
    requires rest { rest ≤ length (slice_index_or (map (λ p. P.items (arc_value p)) parts.old.items) place []) }
    ensures put { OnOk result (map (λ p. P.items (arc_value p)) parts.new.items
        ≡ slice_set (map (λ p. P.items (arc_value p)) parts.old.items) place
        (take rest (slice_index_or (map (λ p. P.items (arc_value p)) parts.old.items) place []) ++ item ∷ [])) }
    ensures kept { IfErr result (λ e.
        map (λ p. P.items (arc_value p)) parts.new.items ≡ map (λ p. P.items (arc_value p)) parts.old.items) }
{
    end_within(alloc, &mut parts[place], rest, item)
}

/// Makes `item` the last one of a part, at the place `at`: in the part itself where no other owner has it, and else in a
/// new one. At an error the part is as it was.
fn end_within<T: Clone, P: Growing<T>>(
    alloc: Global,
    part: &mut Arc<P>,
    at: usize,
    item: T,
) -> Result<(), AllocError>
    requires clones { IsExact T.is_clone }
    requires within { at ≤ length (P.items (arc_value part.old)) }
    ensures put { OnOk result (P.items (arc_value part.new) ≡ take at (P.items (arc_value part.old)) ++ item ∷ []) }
    ensures kept { IfErr result (λ e. P.items (arc_value part.new) ≡ P.items (arc_value part.old)) }
{
    if let Some(alone) = Arc::get_mut(part) {
        return alone.put_last(alloc, at, item);
    }
    let copy = part.with_last(alloc, at, item)?;
    *part = Arc::new(alloc, copy)?;
    Ok(())
}

/// Makes `last` the last of a list, at the place `at`. At an error the list is as it was.
pub(crate) fn end_with<X: Drop>(list: &mut Vec<X>, at: usize, last: X) -> Result<(), AllocError>
    requires { at ≤ length list.old.items }
    ensures put { OnOk result (list.new.items ≡ take at list.old.items ++ last ∷ []) }
    ensures kept { IfErr result (λ e. list.new.items ≡ list.old.items) }
{
    if at < list.len() {
        list[at] = last;
        list.truncate(at + 1);
    } else {
        list.push(last)?;
    }
    Ok(())
}

/// A second list of the first parts, `count` of them, or of all where there are fewer.
pub(crate) fn shared_first<X: Drop>(
    alloc: Global,
    parts: &[Arc<X>],
    count: usize,
) -> Result<Vec<Arc<X>>, AllocError>
    ensures { IfOk result (λ v. map arc_value v.items ≡ take count (map arc_value parts.now)) }
{
    shared(alloc, &parts[..count.min(parts.len())])
}

/// A second list of the same parts.
pub(crate) fn shared<X: Drop>(alloc: Global, parts: &[Arc<X>]) -> Result<Vec<Arc<X>>, AllocError>
    ensures { IfOk result (λ v. map arc_value v.items ≡ map arc_value parts.now) }
{
    let mut made = Vec::with_capacity(alloc, parts.len())?;
    for part in parts {
        made.push(Arc::try_clone(part)?)?;
    }
    Ok(made)
}
