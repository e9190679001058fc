//! Marks on the metavariables in terms.

ghost use Rattle.std.specs.Prelude.{◌||◌, ◌<◌, All, IsOkAnd, OnOk, map, nat_eq};
ghost use Rattle.ld_terms.specs.Views.{terms_of};
ghost use Rattle.conversion.specs.Globals.{context_of, AreLocals, IsDeclOf};
ghost use Rattle.meta_trees.specs.Dependencies.{occurs, occurs_in, parts};
ghost use Rattle.meta_context.specs.Stored.{decl_of};
ghost use Rattle.coupling.specs.Looks.{TakesNone};
ghost use Rattle.coupling.specs.Marks.{HasMarked, Marks, AreKnown};

use crate::looks::{Looks, remember, remembers};
use ld_terms::{Decl, Local, Terms, View};
use std::alloc::AllocError;

/// The mark of a metavariable that was met.
pub(crate) const MET: u8 = 1;

/// Marks a metavariable, unless it has a mark or isn't declared.
fn mark_number(marks: &mut [u8], k: u32)
    ensures { HasMarked (nat_eq k) marks.old marks.new }
{
    let k = k as usize;
    if k < marks.len() && marks[k] == 0 {
        marks[k] = MET;
    }
}

/// Marks the metavariables that occur in a term.
#[cycle(marking)]
fn mark<T: Terms>(
    terms: &T,
    seen: &mut Looks<T::Handle>,
    marks: &mut [u8],
    h: T::Handle,
) -> Result<(), AllocError>
    requires term { T.holds terms.now h }
    requires known { AreKnown (T.means terms.now) seen.old marks.old }
    ensures marked { OnOk result (Marks (T.means terms.now) (λ k. occurs k (T.means terms.now h)) marks.old seen.new marks.new) }
    ensures free { TakesNone seen.old → IsOkAnd result (λ _. TakesNone seen.new) }
{
    if remembers::<T>(seen, h) {
        return Ok(());
    }
    mark_node(terms, seen, marks, h)?;
    remember::<T>(seen, h)?;
    Ok(())
}

/// Marks the metavariable at the root of a term, and those in its parts.
#[cycle(marking)]
fn mark_node<T: Terms>(
    terms: &T,
    seen: &mut Looks<T::Handle>,
    marks: &mut [u8],
    h: T::Handle,
) -> Result<(), AllocError>
    requires term { T.holds terms.now h }
    requires known { AreKnown (T.means terms.now) seen.old marks.old }
    ensures marked { OnOk result (Marks (T.means terms.now) (λ k. occurs k (T.means terms.now h)) marks.old seen.new marks.new) }
    ensures free { TakesNone seen.old → IsOkAnd result (λ _. TakesNone seen.new) }
{
    match terms.node(h) {
        View::Star => Ok(()),
        View::Square => Ok(()),
        View::Var(_) => Ok(()),
        View::App(f, a) => {
            mark_two(terms, seen, marks, f, a)?;
            Ok(())
        }
        View::Lam(a, m) => {
            mark_two(terms, seen, marks, a, m)?;
            Ok(())
        }
        View::Pi(a, b) => {
            mark_two(terms, seen, marks, a, b)?;
            Ok(())
        }
        View::Const(_, us) => {
            mark_each(terms, seen, marks, us)?;
            Ok(())
        }
        View::Meta(k, us) => {
            mark_number(marks, k);
            mark_each(terms, seen, marks, us)?;
            Ok(())
        }
    }
}

/// Marks the metavariables that occur in two terms.
#[cycle(marking)]
fn mark_two<T: Terms>(
    terms: &T,
    seen: &mut Looks<T::Handle>,
    marks: &mut [u8],
    a: T::Handle,
    b: T::Handle,
) -> Result<(), AllocError>
    requires first { T.holds terms.now a }
    requires second { T.holds terms.now b }
    requires known { AreKnown (T.means terms.now) seen.old marks.old }
    ensures marked { OnOk result (Marks (T.means terms.now) (λ k. occurs k (T.means terms.now a) || occurs k (T.means terms.now b)) marks.old seen.new marks.new) }
    ensures free { TakesNone seen.old → IsOkAnd result (λ _. TakesNone seen.new) }
{
    mark(terms, seen, marks, a)?;
    mark(terms, seen, marks, b)?;
    Ok(())
}

/// Marks the metavariables that occur in some terms.
#[cycle(marking)]
fn mark_each<T: Terms>(
    terms: &T,
    seen: &mut Looks<T::Handle>,
    marks: &mut [u8],
    us: &[T::Handle],
) -> Result<(), AllocError>
    requires list { All (T.holds terms.now) us.now }
    requires known { AreKnown (T.means terms.now) seen.old marks.old }
    ensures marked { OnOk result (Marks (T.means terms.now) (λ k. occurs_in k (terms_of (map (T.means terms.now) us.now))) marks.old seen.new marks.new) }
    ensures free { TakesNone seen.old → IsOkAnd result (λ _. TakesNone seen.new) }
{
    for u in us {
        mark(terms, seen, marks, *u)?;
    }
    Ok(())
}

/// Marks the metavariables that occur in the types of some entries.
fn mark_types<T: Terms>(
    terms: &T,
    seen: &mut Looks<T::Handle>,
    marks: &mut [u8],
    entries: &[Local<T::Handle>],
) -> Result<(), AllocError>
    requires list { AreLocals (T.holds terms.now) entries.now }
    requires known { AreKnown (T.means terms.now) seen.old marks.old }
    ensures marked { OnOk result (Marks (T.means terms.now) (λ k. occurs_in k (context_of (T.means terms.now) entries.now)) marks.old seen.new marks.new) }
    ensures free { TakesNone seen.old → IsOkAnd result (λ _. TakesNone seen.new) }
{
    for entry in entries {
        mark(terms, seen, marks, entry.ty)?;
    }
    Ok(())
}

/// Marks the metavariables that occur in the context, the type and the value of a metavariable.
pub(crate) fn mark_parts<T: Terms>(
    terms: &T,
    seen: &mut Looks<T::Handle>,
    marks: &mut [u8],
    decl: &Decl<T::Handle>,
) -> Result<(), AllocError>
    requires held { IsDeclOf (T.holds terms.now) decl.now }
    requires known { AreKnown (T.means terms.now) seen.old marks.old }
    ensures marked { OnOk result (Marks (T.means terms.now) (λ k. occurs_in k (parts (decl_of (T.means terms.now) decl.now))) marks.old seen.new marks.new) }
    ensures free { TakesNone seen.old → IsOkAnd result (λ _. TakesNone seen.new) }
{
    mark_types(terms, seen, marks, decl.ctx.as_slice())?;
    mark(terms, seen, marks, decl.ty)?;
    match decl.value {
        Some(value) => {
            mark(terms, seen, marks, value)?;
            Ok(())
        }
        None => Ok(()),
    }
}
