//! Marks on a metavariable and all its dependencies.

ghost use Rattle.std.specs.Prelude.{◌≡◌, ◌≢◌, ◌<◌, [], All, EachIndex, IsOkAnd, MatchOption, OnOk, length, slice_index};
ghost use Rattle.conversion.specs.Globals.{IsDeclOf};
ghost use Rattle.meta_trees.specs.Dependencies.{occurs_in, parts_of};
ghost use Rattle.meta_context.specs.Stored.{metas_of};
ghost use Rattle.coupling.specs.Looks.{remembered, TakesNone};
ghost use Rattle.coupling.specs.Marks.{AreKnown, Marks, Reaches};

use crate::looks::Looks;
use crate::marks::{MET, mark_parts};
use ld_terms::Terms;
use meta_context::Metas;
use std::alloc::AllocError;

/// The mark of a metavariable whose context, type and value were looked at.
const LOOKED_AT: u8 = 2;

/// Takes all marks away.
fn clear(marks: &mut [u8])
    ensures { EachIndex marks.new (λ k. slice_index marks.new k ≡ 0) }
{
    for mark in marks.iter_mut() {
        *mark = 0;
    }
}

/// The first metavariable that was met and not looked at.
fn waiting(marks: &[u8]) -> Option<usize>
    ensures { MatchOption result (EachIndex marks.now (λ k. slice_index marks.now k ≢ 1)) (λ m. (m < length marks.now) × (slice_index marks.now m ≡ 1)) }
{
    for (i, mark) in marks.iter().enumerate() {
        if *mark == MET {
            return Some(i);
        }
    }
    None
}

/// Marks the metavariables in the context, the type and the value of a metavariable, where it is declared.
fn mark_declared<T: Terms>(
    terms: &T,
    metas: &Metas<T::Handle>,
    seen: &mut Looks<T::Handle>,
    marks: &mut [u8],
    m: u32,
) -> Result<(), AllocError>
    requires metas { All (IsDeclOf (T.holds terms.now)) metas.now }
    requires known { AreKnown (T.means terms.now) seen.old marks.old }
    ensures marked { OnOk result (Marks (T.means terms.now) (λ k. occurs_in k (parts_of (metas_of (T.means terms.now) metas.now) m)) marks.old seen.new marks.new) }
    ensures free { TakesNone seen.old → IsOkAnd result (λ _. TakesNone seen.new) }
{
    match metas.decl(m) {
        Some(decl) => {
            mark_parts(terms, seen, marks, decl)?;
            Ok(())
        }
        None => Ok(()),
    }
}

/// Marks a metavariable and its dependencies, and nothing else, whatever the marks were before.
pub(crate) fn reach<T: Terms>(
    terms: &T,
    metas: &Metas<T::Handle>,
    seen: &mut Looks<T::Handle>,
    marks: &mut [u8],
    g: u32,
) -> Result<(), AllocError>
    requires metas { All (IsDeclOf (T.holds terms.now)) metas.now }
    requires sized { length marks.old ≡ length metas.now }
    requires declared { g < length metas.now }
    requires fresh { remembered seen.old ≡ [] }
    ensures reached { OnOk result (Reaches (metas_of (T.means terms.now) metas.now) g marks.new) }
    ensures free { TakesNone seen.old → IsOkAnd result (λ _. TakesNone seen.new) }
{
    let _next = metas.next();
    clear(marks);
    marks[g as usize] = MET;
    while let Some(m) = waiting(marks) {
        marks[m] = LOOKED_AT;
        mark_declared(terms, metas, seen, marks, m as u32)?;
    }
    Ok(())
}
