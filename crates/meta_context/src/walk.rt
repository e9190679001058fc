ghost use Rattle.std.specs.Prelude.{◌≡◌, ◌<◌, List as Listed, [], ◌∷◌, IfOk, OnOk, All, length, slice_get, Some, true, false};
ghost use Rattle.ld_trees.specs.Term.{none, ◌▹◌};
ghost use Rattle.ld_terms.specs.declared.globals.Decl.{Decl};
ghost use Rattle.conversion.specs.Globals.{IsDeclOf};
ghost use Rattle.meta_trees.specs.Dependencies as tree;
ghost use Rattle.meta_context.specs.Stored.{metas_of};
ghost use Rattle.meta_context.specs.Walks.{HaveEntered, Meets, IsLookedAt, types_of};

use crate::metas::Metas;
use ld_terms::{Decl, Local, Terms, View};
use std::alloc::{AllocError, Global};
use std::collections::BTreeSet;

/// A walk through terms and the metavariables in them. Each handle enters it once, so a part that many terms share is looked at once.
#[derive(Drop)]
struct Walk<H: Copy + Ord> {
    /// The handles that are left to be looked at.
    left: Vec<H>,
    /// All handles that have entered.
    entered: BTreeSet<H>,
    /// Whether the context, the type and the value of each declared metavariable have entered.
    met: Vec<bool>,
}

/// Whether a metavariable is among the dependencies of a term: the metavariables in it and, with each, those in its context, its type
/// and its value. Looks at each handle once. Fails for want of memory alone.
pub fn depends<T: Terms>(
    alloc: Global,
    terms: &T,
    metas: &Metas<T::Handle>,
    h: T::Handle,
    m: u32,
) -> Result<bool, AllocError>
    requires term { T.holds terms.now h }
    requires metas { All (IsDeclOf (T.holds terms.now)) metas.now }
    ensures { IfOk result (λ found. found ≡ tree.depends (metas_of (T.means terms.now) metas.now) (none ▹ T.means terms.now h) m) }
{
    let mut walk = Walk {
        left: Vec::new(alloc),
        entered: BTreeSet::new(alloc),
        met: vec![in alloc; false; metas.next() as usize]?,
    };
    enter::<T>(&mut walk, h)?;
    while let Some(x) = walk.left.pop() {
        if look_at(terms, metas, &mut walk, x, m)? {
            return Ok(true);
        }
    }
    Ok(false)
}

/// Looks at a handle. It is true where metavariable `m` is at its root; else what it holds enters.
fn look_at<T: Terms>(
    terms: &T,
    metas: &Metas<T::Handle>,
    walk: &mut Walk<T::Handle>,
    h: T::Handle,
    m: u32,
) -> Result<bool, AllocError>
    requires term { T.holds terms.now h }
    requires sized { length walk.old.met.items ≡ length metas.now }
    ensures found { IfOk result (λ found. found ≡ true → tree.occurs m (T.means terms.now h) ≡ true) }
    ensures looked { IfOk result (λ found. found ≡ false → IsLookedAt (T.holds terms.now) (T.means terms.now) metas.now m h walk.old.left.items walk.old.entered.keys walk.old.met.items walk.new.left.items walk.new.entered.keys walk.new.met.items) }
{
    match terms.node(h) {
        View::Star => Ok(false),
        View::Square => Ok(false),
        View::Var(_) => Ok(false),
        View::App(f, a) => {
            enter_two::<T>(walk, f, a)?;
            Ok(false)
        }
        View::Lam(a, b) => {
            enter_two::<T>(walk, a, b)?;
            Ok(false)
        }
        View::Pi(a, b) => {
            enter_two::<T>(walk, a, b)?;
            Ok(false)
        }
        View::Const(_, us) => {
            enter_all::<T>(walk, us)?;
            Ok(false)
        }
        View::Meta(k, us) => {
            if k == m {
                return Ok(true);
            }
            enter_all::<T>(walk, us)?;
            meet::<T>(metas, walk, k)?;
            Ok(false)
        }
    }
}

/// The context, the type and the value of a metavariable enter, unless they have before or it isn't declared.
fn meet<T: Terms>(
    metas: &Metas<T::Handle>,
    walk: &mut Walk<T::Handle>,
    k: u32,
) -> Result<(), AllocError>
    requires sized { length walk.old.met.items ≡ length metas.now }
    ensures { OnOk result (Meets metas.now k walk.old.left.items walk.old.entered.keys walk.old.met.items walk.new.left.items walk.new.entered.keys walk.new.met.items) }
{
    match metas.decl(k) {
        Some(decl) => meet_declared::<T>(walk, k as usize, decl),
        None => Ok(()),
    }
}

/// The context, the type and the value of a declared metavariable enter, unless they have before.
fn meet_declared<T: Terms>(
    walk: &mut Walk<T::Handle>,
    k: usize,
    decl: &Decl<T::Handle>,
) -> Result<(), AllocError>
    requires declared { k < length walk.old.met.items }
    ensures { (ds : Listed (Decl T.Handle)) → slice_get ds k ≡ Some decl.now → OnOk result (Meets ds k walk.old.left.items walk.old.entered.keys walk.old.met.items walk.new.left.items walk.new.entered.keys walk.new.met.items) }
{
    let again = walk.met[k];
    if again {
        return Ok(());
    }
    walk.met[k] = true;
    enter_types::<T>(walk, decl.ctx.as_slice())?;
    enter::<T>(walk, decl.ty)?;
    match decl.value {
        Some(value) => {
            enter::<T>(walk, value)?;
            Ok(())
        }
        None => Ok(()),
    }
}

/// A handle enters.
fn enter<T: Terms>(walk: &mut Walk<T::Handle>, h: T::Handle) -> Result<(), AllocError>
    ensures entered { OnOk result (HaveEntered (h ∷ []) walk.old.left.items walk.old.entered.keys walk.new.left.items walk.new.entered.keys) }
    ensures met { walk.new.met.items ≡ walk.old.met.items }
{
    let added = walk.entered.insert(h)?;
    if added {
        walk.left.push(h)?;
        return Ok(());
    }
    Ok(())
}

/// Two handles enter.
fn enter_two<T: Terms>(
    walk: &mut Walk<T::Handle>,
    a: T::Handle,
    b: T::Handle,
) -> Result<(), AllocError>
    ensures entered { OnOk result (HaveEntered (a ∷ b ∷ []) walk.old.left.items walk.old.entered.keys walk.new.left.items walk.new.entered.keys) }
    ensures met { walk.new.met.items ≡ walk.old.met.items }
{
    enter::<T>(walk, a)?;
    enter::<T>(walk, b)?;
    Ok(())
}

/// Some handles enter.
fn enter_all<T: Terms>(walk: &mut Walk<T::Handle>, hs: &[T::Handle]) -> Result<(), AllocError>
    ensures entered { OnOk result (HaveEntered hs.now walk.old.left.items walk.old.entered.keys walk.new.left.items walk.new.entered.keys) }
    ensures met { walk.new.met.items ≡ walk.old.met.items }
{
    for h in hs {
        enter::<T>(walk, *h)?;
    }
    Ok(())
}

/// The types of some entries enter.
fn enter_types<T: Terms>(
    walk: &mut Walk<T::Handle>,
    entries: &[Local<T::Handle>],
) -> Result<(), AllocError>
    ensures entered { OnOk result (HaveEntered (types_of entries.now) walk.old.left.items walk.old.entered.keys walk.new.left.items walk.new.entered.keys) }
    ensures met { walk.new.met.items ≡ walk.old.met.items }
{
    for entry in entries {
        enter::<T>(walk, entry.ty)?;
    }
    Ok(())
}
