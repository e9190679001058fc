ghost use Rattle.std.specs.Prelude.{◌≡◌, IfOk, [], ◌∷◌};
ghost use Rattle.ld_terms.specs.Views.{Keeps};

use crate::name::Name;
use crate::same::same_across;
use crate::shifting::shift;
use crate::substitution::subst_all;
use crate::terms::Terms;
use crate::tree_terms::TreeTerms;
use crate::view::View;
use std::alloc::{AllocError, Global};
use std::test::Fail;

/// `Star`.
fn star<T: Terms>(alloc: Global, terms: &mut T) -> Result<T::Handle, AllocError>
    ensures held { IfOk result (λ h. T.holds terms.new h) }
    ensures kept { Keeps (T.holds terms.old) (T.means terms.old) (T.holds terms.new) (T.means terms.new) }
{
    terms.make(alloc, View::Star)
}

/// `Square`.
fn square<T: Terms>(alloc: Global, terms: &mut T) -> Result<T::Handle, AllocError>
    ensures held { IfOk result (λ h. T.holds terms.new h) }
    ensures kept { Keeps (T.holds terms.old) (T.means terms.old) (T.holds terms.new) (T.means terms.new) }
{
    terms.make(alloc, View::Square)
}

/// `Var(i)`.
fn variable<T: Terms>(alloc: Global, terms: &mut T, i: u32) -> Result<T::Handle, AllocError>
    ensures held { IfOk result (λ h. T.holds terms.new h) }
    ensures kept { Keeps (T.holds terms.old) (T.means terms.old) (T.holds terms.new) (T.means terms.new) }
{
    terms.make(alloc, View::Var(i))
}

/// `App(a, b)`.
fn applied<T: Terms>(
    alloc: Global,
    terms: &mut T,
    a: T::Handle,
    b: T::Handle,
) -> Result<T::Handle, AllocError>
    requires left { T.holds terms.old a }
    requires right { T.holds terms.old b }
    ensures held { IfOk result (λ h. T.holds terms.new h) }
    ensures kept { Keeps (T.holds terms.old) (T.means terms.old) (T.holds terms.new) (T.means terms.new) }
{
    terms.make(alloc, View::App(a, b))
}

/// `Lam(a, b)`.
fn abstracted<T: Terms>(
    alloc: Global,
    terms: &mut T,
    a: T::Handle,
    b: T::Handle,
) -> Result<T::Handle, AllocError>
    requires left { T.holds terms.old a }
    requires right { T.holds terms.old b }
    ensures held { IfOk result (λ h. T.holds terms.new h) }
    ensures kept { Keeps (T.holds terms.old) (T.means terms.old) (T.holds terms.new) (T.means terms.new) }
{
    terms.make(alloc, View::Lam(a, b))
}

/// `Pi(a, b)`.
fn product<T: Terms>(
    alloc: Global,
    terms: &mut T,
    a: T::Handle,
    b: T::Handle,
) -> Result<T::Handle, AllocError>
    requires left { T.holds terms.old a }
    requires right { T.holds terms.old b }
    ensures held { IfOk result (λ h. T.holds terms.new h) }
    ensures kept { Keeps (T.holds terms.old) (T.means terms.old) (T.holds terms.new) (T.means terms.new) }
{
    terms.make(alloc, View::Pi(a, b))
}

/// Two handles.
fn two<H: Copy>(alloc: Global, a: H, b: H) -> Result<Vec<H>, AllocError>
    ensures { IfOk result (λ v. v.items ≡ a ∷ b ∷ []) }
{
    let mut both = Vec::new(alloc);
    both.push(a)?;
    both.push(b)?;
    Ok(both)
}

/// The constant `le` with two arguments.
fn called<T: Terms>(
    alloc: Global,
    terms: &mut T,
    a: T::Handle,
    b: T::Handle,
) -> Result<T::Handle, AllocError>
    requires left { T.holds terms.old a }
    requires right { T.holds terms.old b }
    ensures held { IfOk result (λ h. T.holds terms.new h) }
    ensures kept { Keeps (T.holds terms.old) (T.means terms.old) (T.holds terms.new) (T.means terms.new) }
{
    let name = Name::of(alloc, b"le")?;
    let args = two(alloc, a, b)?;
    terms.make(alloc, View::Const(&name, &args))
}

#[test]
fn a_product_made_twice_is_the_same(rt: HostRuntime) -> Result<(), Fail> {
    let mut terms = TreeTerms::new(rt.alloc())?;
    let star = star(rt.alloc(), &mut terms)?;
    let zero = variable(rt.alloc(), &mut terms, 0)?;
    let first = product(rt.alloc(), &mut terms, star, zero)?;
    let second = product(rt.alloc(), &mut terms, star, zero)?;
    assert!(rt; terms.same(first, second));
    assert_eq!(rt; terms.nodes(first), 3);
    assert_eq!(rt; terms.depth(first), 2);
    Ok(())
}

/// The metavariable 7 with two arguments.
fn hole<T: Terms>(
    alloc: Global,
    terms: &mut T,
    a: T::Handle,
    b: T::Handle,
) -> Result<T::Handle, AllocError>
    requires left { T.holds terms.old a }
    requires right { T.holds terms.old b }
    ensures held { IfOk result (λ h. T.holds terms.new h) }
    ensures kept { Keeps (T.holds terms.old) (T.means terms.old) (T.holds terms.new) (T.means terms.new) }
{
    let args = two(alloc, a, b)?;
    terms.make(alloc, View::Meta(7, &args))
}

/// `Lam(Square, App(Var(0), a))`.
fn abstraction_over<T: Terms>(
    alloc: Global,
    terms: &mut T,
    a: T::Handle,
) -> Result<T::Handle, AllocError>
    requires { T.holds terms.old a }
    ensures held { IfOk result (λ h. T.holds terms.new h) }
    ensures kept { Keeps (T.holds terms.old) (T.means terms.old) (T.holds terms.new) (T.means terms.new) }
{
    let square = square(alloc, terms)?;
    let zero = variable(alloc, terms, 0)?;
    let body = applied(alloc, terms, zero, a)?;
    abstracted(alloc, terms, square, body)
}

/// `App(le(Var(0), b), ?7(Star, c))`.
fn application_over<T: Terms>(
    alloc: Global,
    terms: &mut T,
    b: T::Handle,
    c: T::Handle,
) -> Result<T::Handle, AllocError>
    requires left { T.holds terms.old b }
    requires right { T.holds terms.old c }
    ensures held { IfOk result (λ h. T.holds terms.new h) }
    ensures kept { Keeps (T.holds terms.old) (T.means terms.old) (T.holds terms.new) (T.means terms.new) }
{
    let zero = variable(alloc, terms, 0)?;
    let constant = called(alloc, terms, zero, b)?;
    let star = star(alloc, terms)?;
    let hole = hole(alloc, terms, star, c)?;
    applied(alloc, terms, constant, hole)
}

/// A term with each kind of node: `Pi(Lam(Square, App(Var(0), Var(i))), App(le(Var(0), Var(j)), ?7(Star, Var(k))))`.
fn of_all_kinds<T: Terms>(
    alloc: Global,
    terms: &mut T,
    i: u32,
    j: u32,
    k: u32,
) -> Result<T::Handle, AllocError>
    ensures held { IfOk result (λ h. T.holds terms.new h) }
    ensures kept { Keeps (T.holds terms.old) (T.means terms.old) (T.holds terms.new) (T.means terms.new) }
{
    let a = variable(alloc, terms, i)?;
    let left = abstraction_over(alloc, terms, a)?;
    let b = variable(alloc, terms, j)?;
    let c = variable(alloc, terms, k)?;
    let right = application_over(alloc, terms, b, c)?;
    product(alloc, terms, left, right)
}

#[test]
fn a_shift_reaches_each_kind_of_node(rt: HostRuntime) -> Result<(), Fail> {
    let mut terms = TreeTerms::new(rt.alloc())?;
    let term = of_all_kinds(rt.alloc(), &mut terms, 2, 1, 3)?;
    let wanted = of_all_kinds(rt.alloc(), &mut terms, 4, 1, 5)?;
    let found = shift(rt.alloc(), &mut terms, term, 1, 2)?;
    assert!(rt; terms.same(found, wanted));
    Ok(())
}

#[test]
fn arguments_reach_each_kind_of_node(rt: HostRuntime) -> Result<(), Fail> {
    let mut terms = TreeTerms::new(rt.alloc())?;
    let term = of_all_kinds(rt.alloc(), &mut terms, 2, 1, 3)?;
    let wanted = of_all_kinds(rt.alloc(), &mut terms, 9, 6, 1)?;
    let eight = variable(rt.alloc(), &mut terms, 8)?;
    let five = variable(rt.alloc(), &mut terms, 5)?;
    let found = subst_all(rt.alloc(), &mut terms, term, &[eight, five])?;
    assert!(rt; terms.same(found, wanted));
    Ok(())
}

#[test]
fn a_fork_keeps_what_handles_mean(rt: HostRuntime) -> Result<(), Fail> {
    let mut terms = TreeTerms::new(rt.alloc())?;
    let zero = variable(rt.alloc(), &mut terms, 0)?;
    let two = variable(rt.alloc(), &mut terms, 2)?;
    let constant = called(rt.alloc(), &mut terms, zero, two)?;
    let forked = terms.fork(rt.alloc())?;
    assert!(rt; same_across(&terms, constant, &forked, constant));
    assert!(rt; !same_across(&terms, constant, &forked, zero));
    Ok(())
}
