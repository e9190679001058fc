//! Terms with other variables.

ghost use Rattle.std.specs.Prelude.{◌≡◌, ◌+◌, IfOk, All, map};
ghost use Rattle.ld_trees.specs.Term.{Var, App};
ghost use Rattle.ld_trees.specs.Substitution as tree;
ghost use Rattle.ld_terms.specs.Views.{Keeps, terms_of};
ghost use Rattle.pattern_unify.specs.Walks.{renamed_at, all_renamed_at};

use crate::spines::spine_of;
use crate::variables::Names;
use ld_terms::{Terms, View};
use std::alloc::{AllocError, Global};

/// A term in which each variable has its new number. Older handles keep their meaning.
///
/// Fails for want of memory alone. An index above 4,294,967,295, or as many binders above a node, count as want of memory.
#[tactic(auto, using(crate::proofs::RenamedTerms::renamed_is))]
pub fn rename<T: Terms, N: Names>(
    alloc: Global,
    terms: &mut T,
    names: &N,
    h: T::Handle,
) -> Result<T::Handle, AllocError>
    requires { T.holds terms.old h }
    ensures tree { IfOk result (λ r. T.means terms.new r ≡ tree.rename (N.name names.now) (T.means terms.old h)) }
    ensures held { IfOk result (λ r. T.holds terms.new r) }
    ensures kept { Keeps (T.holds terms.old) (T.means terms.old) (T.holds terms.new) (T.means terms.new) }
{
    rename_at(alloc, terms, names, 0, h)
}

/// A term under so many binders in which each variable that they don't bind has its new number.
#[cycle(renaming)]
fn rename_at<T: Terms, N: Names>(
    alloc: Global,
    terms: &mut T,
    names: &N,
    under: u32,
    h: T::Handle,
) -> Result<T::Handle, AllocError>
    requires { T.holds terms.old h }
    ensures tree { IfOk result (λ r. T.means terms.new r ≡ renamed_at (N.name names.now) under (T.means terms.old h)) }
    ensures held { IfOk result (λ r. T.holds terms.new r) }
    ensures kept { Keeps (T.holds terms.old) (T.means terms.old) (T.holds terms.new) (T.means terms.new) }
{
    match terms.node(h) {
        View::Star | View::Square => Ok(h),
        View::Var(i) => rename_variable(alloc, terms, names, under, i),
        View::App(f, a) => rename_application(alloc, terms, names, under, f, a),
        View::Lam(a, m) => {
            let (a, m) = rename_bound(alloc, terms, names, under, a, m)?;
            terms.make(alloc, View::Lam(a, m))
        }
        View::Pi(a, b) => {
            let (a, b) = rename_bound(alloc, terms, names, under, a, b)?;
            terms.make(alloc, View::Pi(a, b))
        }
        View::Const(name, us) => {
            let name = name.copy(alloc)?;
            let us = Vec::from_slice(alloc, us)?;
            let us = rename_each(alloc, terms, names, under, &us)?;
            terms.make(alloc, View::Const(&name, &us))
        }
        View::Meta(m, us) => {
            let us = Vec::from_slice(alloc, us)?;
            let us = rename_each(alloc, terms, names, under, &us)?;
            terms.make(alloc, View::Meta(m, &us))
        }
    }
}

/// A variable under so many binders with its new number.
fn rename_variable<T: Terms, N: Names>(
    alloc: Global,
    terms: &mut T,
    names: &N,
    under: u32,
    i: u32,
) -> Result<T::Handle, AllocError>
    ensures tree { IfOk result (λ r. T.means terms.new r ≡ renamed_at (N.name names.now) under (Var i)) }
    ensures held { IfOk result (λ r. T.holds terms.new r) }
    ensures kept { Keeps (T.holds terms.old) (T.means terms.old) (T.holds terms.new) (T.means terms.new) }
{
    if i < under {
        return terms.make(alloc, View::Var(i));
    }
    let number = names.number(i - under)?;
    let number = number.checked_add(under).ok_or(AllocError)?;
    terms.make(alloc, View::Var(number))
}

/// Renames an application.
#[cycle(renaming)]
fn rename_application<T: Terms, N: Names>(
    alloc: Global,
    terms: &mut T,
    names: &N,
    under: u32,
    f: T::Handle,
    a: T::Handle,
) -> Result<T::Handle, AllocError>
    requires function { T.holds terms.old f }
    requires argument { T.holds terms.old a }
    ensures tree { IfOk result (λ r. T.means terms.new r ≡ renamed_at (N.name names.now) under (App (T.means terms.old f) (T.means terms.old a))) }
    ensures held { IfOk result (λ r. T.holds terms.new r) }
    ensures kept { Keeps (T.holds terms.old) (T.means terms.old) (T.holds terms.new) (T.means terms.new) }
{
    let f = rename_spine(alloc, terms, names, under, f)?;
    let a = rename_at(alloc, terms, names, under, a)?;
    terms.make(alloc, View::App(f, a))
}

/// Renames a head and what it is applied to, in a loop.
#[cycle(renaming)]
fn rename_spine<T: Terms, N: Names>(
    alloc: Global,
    terms: &mut T,
    names: &N,
    under: u32,
    h: T::Handle,
) -> Result<T::Handle, AllocError>
    requires { T.holds terms.old h }
    ensures tree { IfOk result (λ r. T.means terms.new r ≡ renamed_at (N.name names.now) under (T.means terms.old h)) }
    ensures held { IfOk result (λ r. T.holds terms.new r) }
    ensures kept { Keeps (T.holds terms.old) (T.means terms.old) (T.holds terms.new) (T.means terms.new) }
{
    let mut spine = spine_of(alloc, terms, h)?;
    let mut made = rename_at(alloc, terms, names, under, spine.head)?;
    while let Some(u) = spine.args.pop() {
        let renamed = rename_at(alloc, terms, names, under, u)?;
        made = terms.make(alloc, View::App(made, renamed))?;
    }
    Ok(made)
}

/// Renames the two parts of an abstraction or a product, of which the second one stands under its binder.
#[cycle(renaming)]
fn rename_bound<T: Terms, N: Names>(
    alloc: Global,
    terms: &mut T,
    names: &N,
    under: u32,
    a: T::Handle,
    m: T::Handle,
) -> Result<(T::Handle, T::Handle), AllocError>
    requires bound { T.holds terms.old a }
    requires body { T.holds terms.old m }
    ensures bound { IfOk result (λ r. T.means terms.new r.0 ≡ renamed_at (N.name names.now) under (T.means terms.old a)) }
    ensures body { IfOk result (λ r. T.means terms.new r.1 ≡ renamed_at (N.name names.now) (under + 1) (T.means terms.old m)) }
    ensures held { IfOk result (λ r. T.holds terms.new r.0 × T.holds terms.new r.1) }
    ensures kept { Keeps (T.holds terms.old) (T.means terms.old) (T.holds terms.new) (T.means terms.new) }
{
    let below = under.checked_add(1).ok_or(AllocError)?;
    let a = rename_at(alloc, terms, names, under, a)?;
    let m = rename_at(alloc, terms, names, below, m)?;
    Ok((a, m))
}

/// Renames each term of a list.
#[cycle(renaming)]
#[tactic(auto, using(ld_terms::proofs::Arguments::part_at, ld_terms::proofs::Turns::keeps_all))]
fn rename_each<T: Terms, N: Names>(
    alloc: Global,
    terms: &mut T,
    names: &N,
    under: u32,
    us: &[T::Handle],
) -> Result<Vec<T::Handle>, AllocError>
    requires { All (T.holds terms.old) us.now }
    ensures tree { IfOk result (λ rs. terms_of (map (T.means terms.new) rs.items) ≡ all_renamed_at (N.name names.now) under (terms_of (map (T.means terms.old) us.now))) }
    ensures held { IfOk result (λ rs. All (T.holds terms.new) rs.items) }
    ensures kept { Keeps (T.holds terms.old) (T.means terms.old) (T.holds terms.new) (T.means terms.new) }
{
    let mut made = Vec::new(alloc);
    for u in us {
        made.push(rename_at(alloc, terms, names, under, *u)?)?;
    }
    Ok(made)
}
