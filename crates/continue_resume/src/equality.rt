//! Whether parts of two states are equal, which have stores of their own.

ghost use Rattle.std.specs.Prelude.{◌≡◌, ◌↔◌, All, IsTrue, option_map, reverse, slice_get};
ghost use Rattle.conversion.specs.Globals.{AreLocals, IsItemOf, IsOptional};
ghost use Rattle.meta_context.specs.Plain.{plain_local, plain_locals, plain_item, plain_items};

use ld_terms::{Item, Local, Terms, same_across};
use meta_context::Env;

/// Whether two entries have the same name and the same type.
fn is_same_entry<T: Terms>(a: &T, x: &Local<T::Handle>, b: &T, y: &Local<T::Handle>) -> bool
    requires left { T.holds a.now x.now.ty }
    requires right { T.holds b.now y.now.ty }
    ensures { IsTrue result ↔ (plain_local (T.means a.now) x.now ≡ plain_local (T.means b.now) y.now) }
{
    x.name.same(&y.name) && same_across(a, x.ty, b, y.ty)
}

/// Whether two lists of entries have the same names and the same types.
pub(crate) fn same_entries<T: Terms>(
    a: &T,
    xs: &[Local<T::Handle>],
    b: &T,
    ys: &[Local<T::Handle>],
) -> bool
    requires left { AreLocals (T.holds a.now) xs.now }
    requires right { AreLocals (T.holds b.now) ys.now }
    ensures { IsTrue result ↔ (plain_locals (T.means a.now) xs.now ≡ plain_locals (T.means b.now) ys.now) }
{
    if xs.len() != ys.len() {
        return false;
    }
    for i in 0..xs.len() {
        if !is_same_entry(a, &xs[i], b, &ys[i]) {
            return false;
        }
    }
    true
}

/// Whether both bodies are absent, or both are the same term.
fn is_same_body<T: Terms>(a: &T, x: Option<T::Handle>, b: &T, y: Option<T::Handle>) -> bool
    requires left { IsOptional (T.holds a.now) x }
    requires right { IsOptional (T.holds b.now) y }
    ensures { IsTrue result ↔ (option_map (T.means a.now) x ≡ option_map (T.means b.now) y) }
{
    match (x, y) {
        (Some(x), Some(y)) => same_across(a, x, b, y),
        (None, None) => true,
        _ => false,
    }
}

/// Whether two items are equal, names of parameters included.
fn is_same_item<T: Terms>(a: &T, x: &Item<T::Handle>, b: &T, y: &Item<T::Handle>) -> bool
    requires left { IsItemOf (T.holds a.now) x.now }
    requires right { IsItemOf (T.holds b.now) y.now }
    ensures { IsTrue result ↔ (plain_item (T.means a.now) x.now ≡ plain_item (T.means b.now) y.now) }
{
    x.name.same(&y.name)
        && same_entries(a, x.params.as_slice(), b, y.params.as_slice())
        && same_across(a, x.ty, b, y.ty)
        && is_same_body(a, x.body, b, y.body)
}

/// Whether two environments have equal items at a place, or none there.
fn same_at<T: Terms>(a: &T, env: &Env<T::Handle>, b: &T, other: &Env<T::Handle>, place: u64) -> bool
    requires left { All (IsItemOf (T.holds a.now)) env.now }
    requires right { All (IsItemOf (T.holds b.now)) other.now }
    ensures { IsTrue result ↔ (option_map (plain_item (T.means a.now)) (slice_get (reverse env.now) place) ≡ option_map (plain_item (T.means b.now)) (slice_get (reverse other.now) place)) }
{
    match (env.item(place), other.item(place)) {
        (Some(x), Some(y)) => is_same_item(a, x, b, y),
        (None, None) => true,
        _ => false,
    }
}

/// Whether two environments have equal items in the same order, names of parameters included. Takes no memory.
pub(crate) fn same_environments<T: Terms>(
    a: &T,
    env: &Env<T::Handle>,
    b: &T,
    other: &Env<T::Handle>,
) -> bool
    requires left { All (IsItemOf (T.holds a.now)) env.now }
    requires right { All (IsItemOf (T.holds b.now)) other.now }
    ensures { IsTrue result ↔ (plain_items (T.means a.now) env.now ≡ plain_items (T.means b.now) other.now) }
{
    if env.len() != other.len() {
        return false;
    }
    for place in 0..env.len() {
        if !same_at(a, env, b, other, place) {
            return false;
        }
    }
    true
}
