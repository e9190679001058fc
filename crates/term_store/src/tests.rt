//! Tests of the store.

ghost use Rattle.std.specs.Prelude.{IfOk};
ghost use Rattle.ld_terms.specs.Views.{Keeps};

use crate::HashTerms;
use crate::key::Key;
use ld_terms::{Name, Terms, TreeTerms, View, same_across, shift, subst_all};
use std::alloc::{AllocError, Global};
use std::mem::size_of;
use std::test::Fail;

/// A product that is made twice: whether both are the same, its nodes and its depth.
fn product_row<T: Terms>(alloc: Global, terms: &mut T) -> Result<(bool, u64, u64), AllocError> {
    let star = terms.make(alloc, View::Star)?;
    let zero = terms.make(alloc, View::Var(0))?;
    let first = terms.make(alloc, View::Pi(star, zero))?;
    let second = terms.make(alloc, View::Pi(star, zero))?;
    Ok((
        terms.same(first, second) && !terms.same(first, star),
        terms.nodes(first),
        terms.depth(first),
    ))
}

/// Whether `App(Var(1), Var(0))` with `Star` and `Square` for its variables is `App(Star, Square)`.
fn substitution_row<T: Terms>(alloc: Global, terms: &mut T) -> Result<bool, AllocError> {
    let one = terms.make(alloc, View::Var(1))?;
    let zero = terms.make(alloc, View::Var(0))?;
    let body = terms.make(alloc, View::App(one, zero))?;
    let star = terms.make(alloc, View::Star)?;
    let square = terms.make(alloc, View::Square)?;
    let wanted = terms.make(alloc, View::App(star, square))?;
    let mut args = Vec::new(alloc);
    args.push(star)?;
    args.push(square)?;
    let found = subst_all(alloc, terms, body, &args)?;
    Ok(terms.same(found, wanted))
}

/// Whether `Var(0)` shifted from 0 by 2 is `Var(2)`.
fn shift_row<T: Terms>(alloc: Global, terms: &mut T) -> Result<bool, AllocError> {
    let zero = terms.make(alloc, View::Var(0))?;
    let wanted = terms.make(alloc, View::Var(2))?;
    let found = shift(alloc, terms, zero, 0, 2)?;
    Ok(terms.same(found, wanted))
}

#[test]
fn both_stores_give_the_same_rows(rt: HostRuntime) -> Result<(), Fail> {
    let mut hashed = HashTerms::new(rt.alloc())?;
    assert_eq!(rt; product_row(rt.alloc(), &mut hashed)?, (true, 3, 2));
    assert!(rt; substitution_row(rt.alloc(), &mut hashed)?);
    assert!(rt; shift_row(rt.alloc(), &mut hashed)?);
    let mut trees = TreeTerms::new(rt.alloc())?;
    assert_eq!(rt; product_row(rt.alloc(), &mut trees)?, (true, 3, 2));
    assert!(rt; substitution_row(rt.alloc(), &mut trees)?);
    assert!(rt; shift_row(rt.alloc(), &mut trees)?);
    Ok(())
}

/// The constant `le` over one argument.
fn over<T: Terms>(alloc: Global, terms: &mut T, arg: T::Handle) -> Result<T::Handle, AllocError>
    requires { T.holds terms.old arg }
    ensures held { IfOk result (λ h. T.holds terms.new h) }
    ensures kept { Keeps (T.holds terms.old) (T.means terms.old) (T.holds terms.new) (T.means terms.new) }
{
    let name = Name::of(alloc, b"le")?;
    let mut args = Vec::new(alloc);
    args.push(arg)?;
    terms.make(alloc, View::Const(&name, &args))
}

/// A variable.
fn variable<T: Terms>(alloc: Global, terms: &mut T, index: u32) -> Result<T::Handle, AllocError>
    ensures held { IfOk result (λ h. T.holds terms.new h) }
    ensures kept { Keeps (T.holds terms.old) (T.means terms.old) (T.holds terms.new) (T.means terms.new) }
{
    terms.make(alloc, View::Var(index))
}

/// A term applied to itself.
fn applied<T: Terms>(alloc: Global, terms: &mut T, term: T::Handle) -> Result<T::Handle, AllocError>
    requires { T.holds terms.old term }
    ensures held { IfOk result (λ h. T.holds terms.new h) }
    ensures kept { Keeps (T.holds terms.old) (T.means terms.old) (T.holds terms.new) (T.means terms.new) }
{
    terms.make(alloc, View::App(term, term))
}

#[test]
fn a_fork_keeps_handles(rt: HostRuntime) -> Result<(), Fail> {
    let mut terms = HashTerms::new(rt.alloc())?;
    let zero = variable(rt.alloc(), &mut terms, 0)?;
    let constant = over(rt.alloc(), &mut terms, zero)?;
    let mut forked = terms.fork(rt.alloc())?;
    let again = over(rt.alloc(), &mut forked, zero)?;
    assert!(rt; again == constant);
    let five = variable(rt.alloc(), &mut forked, 5)?;
    let six = variable(rt.alloc(), &mut terms, 6)?;
    assert!(rt; five == six);
    assert!(rt; !same_across(&terms, six, &forked, five));
    assert!(rt; same_across(&terms, constant, &forked, constant));
    Ok(())
}

/// The metavariable 3 over one argument.
fn hole<T: Terms>(alloc: Global, terms: &mut T, arg: T::Handle) -> Result<T::Handle, AllocError>
    requires { T.holds terms.old arg }
    ensures held { IfOk result (λ h. T.holds terms.new h) }
    ensures kept { Keeps (T.holds terms.old) (T.means terms.old) (T.holds terms.new) (T.means terms.new) }
{
    let mut args = Vec::new(alloc);
    args.push(arg)?;
    terms.make(alloc, View::Meta(3, &args))
}

#[test]
fn a_store_stays_when_its_fork_grows(rt: HostRuntime) -> Result<(), Fail> {
    let mut terms = HashTerms::new(rt.alloc())?;
    let zero = variable(rt.alloc(), &mut terms, 0)?;
    let mut forked = terms.fork(rt.alloc())?;
    let other = hole(rt.alloc(), &mut forked, zero)?;
    let further = applied(rt.alloc(), &mut forked, other)?;
    let one = variable(rt.alloc(), &mut terms, 1)?;
    let own = hole(rt.alloc(), &mut terms, zero)?;
    assert!(rt; one == other);
    assert!(rt; own == further);
    assert!(rt; same_across(&terms, own, &forked, other));
    assert!(rt; !same_across(&terms, own, &forked, further));
    Ok(())
}

#[test]
fn a_key_is_small(rt: HostRuntime) -> Result<(), Fail> {
    assert_eq!(rt; size_of::<Key>(), 24);
    Ok(())
}

#[test]
fn terms_made_twice_have_the_same_handles(rt: HostRuntime) -> Result<(), Fail> {
    let mut terms = HashTerms::new(rt.alloc())?;
    let mut handles = Vec::new(rt.alloc());
    for i in 0..1000u32 {
        let small = variable(rt.alloc(), &mut terms, i)?;
        let large = applied(rt.alloc(), &mut terms, small)?;
        handles.push(small)?;
        handles.push(large)?;
    }
    let mut again = Vec::new(rt.alloc());
    for i in 0..1000u32 {
        let small = variable(rt.alloc(), &mut terms, i)?;
        let large = applied(rt.alloc(), &mut terms, small)?;
        again.push(small)?;
        again.push(large)?;
    }
    assert_eq!(rt; handles.len(), 2000);
    assert!(rt; handles == again);
    assert!(rt; handles[0] != handles[1]);
    Ok(())
}

/// A term applied to itself so many times over.
fn doubled<T: Terms>(alloc: Global, terms: &mut T, times: u32) -> Result<T::Handle, AllocError>
    ensures { IfOk result (λ h. T.holds terms.new h) }
{
    let mut whole = terms.make(alloc, View::Star)?;
    for _ in 0..times {
        whole = applied(alloc, terms, whole)?;
    }
    Ok(whole)
}

#[test]
fn a_shared_term_counts_as_a_tree(rt: HostRuntime) -> Result<(), Fail> {
    let mut terms = HashTerms::new(rt.alloc())?;
    let few = doubled(rt.alloc(), &mut terms, 10)?;
    assert_eq!(rt; terms.nodes(few), 2047);
    assert_eq!(rt; terms.depth(few), 11);
    let many = doubled(rt.alloc(), &mut terms, 70)?;
    assert_eq!(rt; terms.nodes(many), 18_446_744_073_709_551_615);
    assert_eq!(rt; terms.depth(many), 71);
    Ok(())
}
