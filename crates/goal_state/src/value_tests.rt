//! Values of metavariables that stand many times, in contexts with and without an entry.

ghost use Rattle.std.specs.Prelude.{◌≡◌, ◌∷◌, [], All, IfOk, codes};
ghost use Rattle.ld_terms.specs.Views.{Keeps};
ghost use Rattle.conversion.specs.Globals.{AreLocals, IsDeclOf};
ghost use Rattle.meta_context.specs.Entered.{names_of};
ghost use Rattle.term_syntax.specs.ReadsBack.{IsContext};

use crate::goals::is_open;
use crate::tests::{product, star};
use crate::unfolding::unfold_metas;
use ld_terms::{Local, Name, Terms, TreeTerms, View};
use meta_context::{MetaFault, Metas, assign, declare, depends};
use std::alloc::{AllocError, Global};
use std::test::Fail;

/// So many metavariables over a context, of one type.
fn declare_often<T: Terms>(
    alloc: Global,
    terms: &T,
    ctx: &[Local<T::Handle>],
    ty: T::Handle,
    count: u32,
) -> Result<Metas<T::Handle>, MetaFault>
    requires ctx { AreLocals (T.holds terms.now) ctx.now }
    requires ty { T.holds terms.now ty }
    requires names { IsContext (names_of ctx.now) }
    ensures { IfOk result (All (IsDeclOf (T.holds terms.now))) }
{
    let mut metas = Metas::new();
    for _ in 0..count {
        let (more, _) = declare(alloc, &metas, terms, ctx, ty)?;
        metas = more;
    }
    Ok(metas)
}

/// Gives an open metavariable a value that doesn't depend on it. `TooManyMetas` stands for any other metavariable or value.
fn give<T: Terms>(
    alloc: Global,
    terms: &T,
    metas: &Metas<T::Handle>,
    m: u32,
    value: T::Handle,
) -> Result<Metas<T::Handle>, MetaFault>
    requires held { All (IsDeclOf (T.holds terms.now)) metas.now }
    requires value { T.holds terms.now value }
    ensures { IfOk result (All (IsDeclOf (T.holds terms.now))) }
{
    if !is_open(metas, m) {
        return Err(MetaFault::TooManyMetas);
    }
    if depends(alloc, terms, metas, value, m)? {
        return Err(MetaFault::TooManyMetas);
    }
    Ok(assign(alloc, metas, terms, m, value)?)
}

/// Gives `m` the value `?next[args] -> ?next[args]`.
fn link<T: Terms>(
    alloc: Global,
    terms: &mut T,
    metas: &Metas<T::Handle>,
    args: &[T::Handle],
    m: u32,
    next: u32,
) -> Result<Metas<T::Handle>, MetaFault>
    requires held { All (IsDeclOf (T.holds terms.old)) metas.now }
    requires args { All (T.holds terms.old) args.now }
    ensures held { IfOk result (All (IsDeclOf (T.holds terms.new))) }
    ensures kept { Keeps (T.holds terms.old) (T.means terms.old) (T.holds terms.new) (T.means terms.new) }
{
    let hole = terms.make(alloc, View::Meta(next, args))?;
    let arrow = product(alloc, terms, hole, hole)?;
    Ok(give(alloc, &*terms, metas, m, arrow)?)
}

/// Each of so many metavariables linked to the next one.
fn chain<T: Terms>(
    alloc: Global,
    terms: &mut T,
    first: Metas<T::Handle>,
    args: &[T::Handle],
    count: u32,
) -> Result<Metas<T::Handle>, MetaFault>
    requires held { All (IsDeclOf (T.holds terms.old)) first }
    requires args { All (T.holds terms.old) args.now }
    ensures held { IfOk result (All (IsDeclOf (T.holds terms.new))) }
    ensures kept { Keeps (T.holds terms.old) (T.means terms.old) (T.holds terms.new) (T.means terms.new) }
{
    let mut metas = first;
    for m in 0..count {
        metas = link(alloc, terms, &metas, args, m, m + 1)?;
    }
    Ok(metas)
}

/// How many nodes `?0[given]` unfolds to, where each of 40 metavariables over a context is linked to the next one, which gets `args`,
/// and the one behind them is `last`.
fn nodes_of_chain<T: Terms>(
    alloc: Global,
    terms: &mut T,
    ctx: &[Local<T::Handle>],
    args: &[T::Handle],
    last: T::Handle,
    given: &[T::Handle],
) -> Result<u64, MetaFault>
    requires ctx { AreLocals (T.holds terms.old) ctx.now }
    requires names { IsContext (names_of ctx.now) }
    requires args { All (T.holds terms.old) args.now }
    requires last { T.holds terms.old last }
    requires given { All (T.holds terms.old) given.now }
{
    let star = star(alloc, terms)?;
    let root = terms.make(alloc, View::Meta(0, given))?;
    let open = declare_often(alloc, &*terms, ctx, star, 41)?;
    let linked = chain(alloc, terms, open, args, 40)?;
    let metas = give(alloc, &*terms, &linked, 40, last)?;
    let found = unfold_metas(alloc, terms, &metas, root)?;
    Ok(terms.nodes(found))
}

#[test]
fn shared_values_are_unfolded_once(rt: HostRuntime) -> Result<(), Fail> {
    let alloc = rt.alloc();
    let mut terms = TreeTerms::new(alloc)?;
    let last = star(alloc, &mut terms)?;
    let found = nodes_of_chain(alloc, &mut terms, &[], &[], last, &[]);
    assert!(rt; matches!(found, Ok(2_199_023_255_551)));
    Ok(())
}

/// The context `A : ty`.
fn one_entry<H: Copy>(alloc: Global, ty: H) -> Result<Vec<Local<H>>, AllocError>
    ensures { IfOk result (λ v. v.items ≡ record { name = codes "A"; ty = ty } ∷ []) }
{
    let mut entries = Vec::new(alloc);
    entries.push(Local {
        name: Name::of(alloc, b"A")?,
        ty,
    })?;
    Ok(entries)
}

/// The same of a chain behind one entry, which the last one stands for. The first metavariable has the argument `* -> *`, and each
/// other one `Var 0`: before the arrow the entry, behind it the arrow's own variable.
fn nodes_behind<T: Terms>(alloc: Global, terms: &mut T) -> Result<u64, MetaFault> {
    let star = star(alloc, terms)?;
    let arrow = product(alloc, terms, star, star)?;
    let entry = terms.make(alloc, View::Var(0))?;
    let ctx = one_entry(alloc, star)?;
    nodes_of_chain(alloc, terms, &ctx, &[entry], entry, &[arrow])
}

#[test]
fn arguments_are_put_into_shared_values_once(rt: HostRuntime) -> Result<(), Fail> {
    let alloc = rt.alloc();
    let mut terms = TreeTerms::new(alloc)?;
    let found = nodes_behind(alloc, &mut terms);
    assert!(rt; matches!(found, Ok(2_199_023_255_553)));
    Ok(())
}
