//! Coupling by the marks of what goals need.

ghost use Rattle.std.specs.Prelude.{◌≡◌, ◌<◌, ◌↔◌, ℕ, [], All, IfOk, IsOkAnd, IsTrue, true, length};
ghost use Rattle.conversion.specs.Globals.{IsDeclOf};
ghost use Rattle.meta_trees.specs.Dependencies.{below};
ghost use Rattle.meta_context.specs.Stored.{metas_of};
ghost use Rattle.goal_state.specs.State as state;
ghost use Rattle.coupling.specs.Coupling as coupling;
ghost use Rattle.coupling.specs.Looks.{remembered, TakesNone};
ghost use Rattle.coupling.specs.Marks.{Reaches, is_open_and_marked, is_in_both};

use crate::looks::Looks;
use crate::reach::reach;
use ld_terms::{List, Terms};
use meta_context::Metas;
use std::alloc::{AllocError, Global};
use std::collections::BTreeSet;

/// Whether a metavariable is declared and has no value.
fn is_open<H: Copy>(metas: &Metas<H>, m: u32) -> bool
    ensures { result ≡ state.is_open metas.now m }
{
    match metas.decl(m) {
        Some(decl) => decl.value.is_none(),
        None => false,
    }
}

/// Whether a metavariable is open and has a mark.
fn is_marked<H: Copy>(metas: &Metas<H>, marks: &[u8], m: u32) -> bool
    requires { m < length marks.now }
    ensures { result ≡ is_open_and_marked metas.now marks.now m }
{
    is_open(metas, m) && marks[m as usize] != 0
}

/// The metavariables that are open and have a mark, the least number first.
pub(crate) fn marked_numbers<H: Copy>(
    alloc: Global,
    metas: &Metas<H>,
    marks: &[u8],
) -> Result<List<u32>, AllocError>
    requires { length marks.now ≡ length metas.now }
    ensures { IfOk result (λ ms. ms ≡ below (is_open_and_marked metas.now marks.now) (length metas.now)) }
{
    let mut numbers = Vec::new(alloc);
    for m in 0..metas.next() {
        if is_marked(metas, marks, m) {
            numbers.push(m)?;
        }
    }
    Ok(List::of(numbers))
}

/// Whether a metavariable is open and has both marks.
fn is_shared<H: Copy>(metas: &Metas<H>, one: &[u8], other: &[u8], m: u32) -> bool
    requires one { m < length one.now }
    requires other { m < length other.now }
    ensures { result ≡ is_in_both metas.now one.now other.now m }
{
    is_marked(metas, one, m) && other[m as usize] != 0
}

/// Whether some metavariable is open and has both marks.
fn share_one<H: Copy>(metas: &Metas<H>, one: &[u8], other: &[u8]) -> bool
    requires one { length one.now ≡ length metas.now }
    requires other { length other.now ≡ length metas.now }
    ensures some { IsTrue result → (k : ℕ) × (k < length metas.now) × (is_in_both metas.now one.now other.now k ≡ true) }
    ensures none { (k : ℕ) → k < length metas.now → is_in_both metas.now one.now other.now k ≡ true → IsTrue result }
{
    for m in 0..metas.next() {
        if is_shared(metas, one, other, m) {
            return true;
        }
    }
    false
}

/// Whether goal `h` is open, another one than `g`, and coupled with it, where `own` has the marks of what `g` reaches. Writes over
/// `other`.
fn is_coupled<T: Terms>(
    terms: &T,
    metas: &Metas<T::Handle>,
    seen: &mut Looks<T::Handle>,
    own: &[u8],
    other: &mut [u8],
    g: u32,
    h: u32,
) -> Result<bool, AllocError>
    requires metas { All (IsDeclOf (T.holds terms.now)) metas.now }
    requires sized { length own.now ≡ length metas.now }
    requires room { length other.old ≡ length metas.now }
    requires own { Reaches (metas_of (T.means terms.now) metas.now) g own.now }
    requires declared { h < length metas.now }
    requires fresh { remembered seen.old ≡ [] }
    ensures value { IfOk result (λ b. b ≡ coupling.is_coupled (state.plain_metas (T.means terms.now) metas.now) g h) }
    ensures free { TakesNone seen.old → IsOkAnd result (λ _. TakesNone seen.new) }
{
    if g == h {
        return Ok(false);
    }
    if !is_open(metas, h) {
        return Ok(false);
    }
    // A goal that is needed itself is the common one.
    if own[h as usize] != 0 {
        return Ok(true);
    }
    reach(terms, metas, seen, other, h)?;
    Ok(share_one(metas, own, other))
}

/// The marks of what a goal reaches.
pub(crate) fn reached<T: Terms>(
    alloc: Global,
    terms: &T,
    metas: &Metas<T::Handle>,
    g: u32,
) -> Result<Vec<u8>, AllocError>
    requires metas { All (IsDeclOf (T.holds terms.now)) metas.now }
    requires declared { g < length metas.now }
    ensures sized { IfOk result (λ ms. length ms.items ≡ length metas.now) }
    ensures reached { IfOk result (λ ms. Reaches (metas_of (T.means terms.now) metas.now) g ms.items) }
{
    let mut marks = vec![in alloc; 0u8; metas.next() as usize]?;
    let mut seen = Looks::Kept(BTreeSet::new(alloc));
    reach(terms, metas, &mut seen, &mut marks, g)?;
    Ok(marks)
}

/// The goals that are coupled with a goal, the least number first, where `own` has the marks of what it reaches. Writes over `other`.
pub(crate) fn coupled_numbers<T: Terms>(
    alloc: Global,
    terms: &T,
    metas: &Metas<T::Handle>,
    own: &[u8],
    other: &mut [u8],
    g: u32,
) -> Result<List<u32>, AllocError>
    requires metas { All (IsDeclOf (T.holds terms.now)) metas.now }
    requires sized { length own.now ≡ length metas.now }
    requires room { length other.old ≡ length metas.now }
    requires own { Reaches (metas_of (T.means terms.now) metas.now) g own.now }
    ensures { IfOk result (λ ms. ms ≡ below (coupling.is_coupled (state.plain_metas (T.means terms.now) metas.now) g) (length metas.now)) }
{
    let mut numbers = Vec::new(alloc);
    for h in 0..metas.next() {
        let mut seen = Looks::Kept(BTreeSet::new(alloc));
        if is_coupled(terms, metas, &mut seen, own, other, g, h)? {
            numbers.push(h)?;
        }
    }
    Ok(List::of(numbers))
}

/// Marks what a goal reaches, without memory.
pub(crate) fn reach_in_place<T: Terms>(
    terms: &T,
    metas: &Metas<T::Handle>,
    marks: &mut [u8],
    g: u32,
)
    requires metas { All (IsDeclOf (T.holds terms.now)) metas.now }
    requires sized { length marks.old ≡ length metas.now }
    requires declared { g < length metas.now }
    ensures { Reaches (metas_of (T.means terms.now) metas.now) g marks.new }
{
    let mut seen = Looks::Forgotten;
    match reach(terms, metas, &mut seen, marks, g) {
        Ok(()) => {}
        // No handle is remembered, so no memory is wanted.
        Err(_) => unreachable!(),
    }
}

/// Whether goal `h` is coupled with `g`, without memory.
fn is_coupled_in_place<T: Terms>(
    terms: &T,
    metas: &Metas<T::Handle>,
    own: &[u8],
    other: &mut [u8],
    g: u32,
    h: u32,
) -> bool
    requires metas { All (IsDeclOf (T.holds terms.now)) metas.now }
    requires sized { length own.now ≡ length metas.now }
    requires room { length other.old ≡ length metas.now }
    requires own { Reaches (metas_of (T.means terms.now) metas.now) g own.now }
    requires declared { h < length metas.now }
    ensures { result ≡ coupling.is_coupled (state.plain_metas (T.means terms.now) metas.now) g h }
{
    let mut seen = Looks::Forgotten;
    match is_coupled(terms, metas, &mut seen, own, other, g, h) {
        Ok(found) => found,
        // No handle is remembered, so no memory is wanted.
        Err(_) => unreachable!(),
    }
}

/// Whether a goal is coupled with no other one, without memory, where `own` has the marks of what it reaches. Writes over `other`.
pub(crate) fn stands_alone<T: Terms>(
    terms: &T,
    metas: &Metas<T::Handle>,
    own: &[u8],
    other: &mut [u8],
    g: u32,
) -> bool
    requires metas { All (IsDeclOf (T.holds terms.now)) metas.now }
    requires sized { length own.now ≡ length metas.now }
    requires room { length other.old ≡ length metas.now }
    requires own { Reaches (metas_of (T.means terms.now) metas.now) g own.now }
    ensures { IsTrue result ↔ (below (coupling.is_coupled (state.plain_metas (T.means terms.now) metas.now) g) (length metas.now) ≡ []) }
{
    for h in 0..metas.next() {
        if is_coupled_in_place(terms, metas, own, other, g, h) {
            return false;
        }
    }
    true
}
