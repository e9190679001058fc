//! The handles that a walk through terms remembers, so as to look at each once.

ghost use Rattle.std.specs.Prelude.{◌≡◌, ◌⊎◌, Contains, IsOkAnd, IsTrue, OnOk};
ghost use Rattle.coupling.specs.Looks.{remembered, TakesNone};

use ld_terms::Terms;
use std::alloc::AllocError;
use std::collections::BTreeSet;

/// Handles of which every metavariable is marked.
#[derive(Drop)]
pub(crate) enum Looks<H: Copy + Ord> {
    /// None is remembered: a part that many terms share is looked at as often as it stands in them, and no memory is taken.
    Forgotten,
    /// Each handle is looked at once.
    Kept(BTreeSet<H>),
}

/// Whether a handle is remembered.
pub(crate) fn remembers<T: Terms>(seen: &Looks<T::Handle>, h: T::Handle) -> bool
    ensures { IsTrue result → Contains (remembered seen.now) h }
{
    match seen {
        Looks::Forgotten => false,
        Looks::Kept(handles) => handles.contains(&h),
    }
}

/// Remembers a handle, unless none is remembered.
pub(crate) fn remember<T: Terms>(
    seen: &mut Looks<T::Handle>,
    h: T::Handle,
) -> Result<(), AllocError>
    ensures only { OnOk result ((x : T.Handle) → Contains (remembered seen.new) x → (h ≡ x) ⊎ Contains (remembered seen.old) x) }
    ensures free { TakesNone seen.old → IsOkAnd result (λ _. TakesNone seen.new) }
{
    match seen {
        Looks::Forgotten => Ok(()),
        Looks::Kept(handles) => {
            handles.insert(h)?;
            Ok(())
        }
    }
}
