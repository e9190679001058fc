//! Terms in which a defined constant is replaced by its body.

ghost use Rattle.std.specs.Prelude.{◌≡◌, ◌+◌, All, IfOk, map};
ghost use Rattle.ld_trees.specs.Term.{App, Const, Term};
ghost use Rattle.ld_terms.specs.Views.{Keeps, terms_of};
ghost use Rattle.pattern_unify.specs.Walks.{IsSpent};
ghost use Rattle.move_set.specs.Answers.{Answers};
ghost use Rattle.move_set.specs.Moves.{opened};
ghost use Rattle.move_set.specs.Replacing as spec;

use crate::fault::MoveFault;
use crate::spine::spine_of;
use ld_terms::{Fuel, Name, Terms, View, subst_all};
use std::alloc::{AllocError, Global};

/// A term with a body in place of each constant of a name, for a unit each, or a refusal where there is none. All units are spent before
/// anything is replaced.
pub fn open<T: Terms>(
    alloc: Global,
    terms: &mut T,
    fuel: &mut Fuel,
    name: &Name,
    body: T::Handle,
    h: T::Handle,
) -> Result<T::Handle, MoveFault<T::Handle>>
    requires body { T.holds terms.old body }
    requires term { T.holds terms.old h }
    ensures value { (M t : Term) → T.means terms.old body ≡ M → T.means terms.old h ≡ t → Answers (T.holds terms.new) (T.means terms.new) (T.means terms.new) (opened name.now M t fuel.old) fuel.new result }
    ensures held { IfOk result (T.holds terms.new) }
    ensures kept { Keeps (T.holds terms.old) (T.means terms.old) (T.holds terms.new) (T.means terms.new) }
{
    let before = fuel.left();
    if !spend_occurrences(&*terms, fuel, name, h) {
        return Err(MoveFault::Fuel);
    }
    if fuel.left() == before {
        let name = name.copy(alloc)?;
        return Err(MoveFault::NoOccurrence { name });
    }
    Ok(replace(alloc, terms, name, body, h)?)
}

// ---- replacing

/// A term with a body in place of each constant of a name, also in arguments of another one. Older handles keep their meaning.
///
/// Fails for want of memory alone. An index above 4,294,967,295, or as many binders above a node, count as want of memory.
#[cycle(replacing)]
fn replace<T: Terms>(
    alloc: Global,
    terms: &mut T,
    name: &Name,
    body: T::Handle,
    h: T::Handle,
) -> Result<T::Handle, AllocError>
    requires body { T.holds terms.old body }
    requires term { T.holds terms.old h }
    ensures tree { IfOk result (λ r. T.means terms.new r ≡ spec.replaced name.now (T.means terms.old body) (T.means terms.old h)) }
    ensures held { IfOk result (λ r. T.holds terms.new r) }
    ensures kept { Keeps (T.holds terms.old) (T.means terms.old) (T.holds terms.new) (T.means terms.new) }
{
    match terms.node(h) {
        View::Star | View::Square | View::Var(_) => Ok(h),
        View::App(f, a) => replace_application(alloc, terms, name, body, f, a),
        View::Lam(a, b) => {
            let (a, b) = replace_two(alloc, terms, name, body, a, b)?;
            terms.make(alloc, View::Lam(a, b))
        }
        View::Pi(a, b) => {
            let (a, b) = replace_two(alloc, terms, name, body, a, b)?;
            terms.make(alloc, View::Pi(a, b))
        }
        View::Const(found, us) => {
            let found = found.copy(alloc)?;
            let us = Vec::from_slice(alloc, us)?;
            replace_constant(alloc, terms, name, body, &found, &us)
        }
        View::Meta(m, us) => {
            let us = Vec::from_slice(alloc, us)?;
            let us = replace_each(alloc, terms, name, body, &us)?;
            terms.make(alloc, View::Meta(m, &us))
        }
    }
}

/// Replaces a constant in the arguments of one, and the one where it is the same.
#[cycle(replacing)]
#[tactic(auto, using(crate::proofs::Replaced::replaced_same, crate::proofs::Replaced::replaced_other))]
fn replace_constant<T: Terms>(
    alloc: Global,
    terms: &mut T,
    name: &Name,
    body: T::Handle,
    found: &Name,
    us: &[T::Handle],
) -> Result<T::Handle, AllocError>
    requires body { T.holds terms.old body }
    requires list { All (T.holds terms.old) us.now }
    ensures tree { IfOk result (λ r. T.means terms.new r ≡ spec.replaced name.now (T.means terms.old body) (Const found.now (terms_of (map (T.means terms.old) us.now)))) }
    ensures held { IfOk result (λ r. T.holds terms.new r) }
    ensures kept { Keeps (T.holds terms.old) (T.means terms.old) (T.holds terms.new) (T.means terms.new) }
{
    let us = replace_each(alloc, terms, name, body, us)?;
    if found.as_bytes() == name.as_bytes() {
        return subst_all(alloc, terms, body, &us);
    }
    terms.make(alloc, View::Const(found, &us))
}

/// Replaces a constant in an application.
#[cycle(replacing)]
fn replace_application<T: Terms>(
    alloc: Global,
    terms: &mut T,
    name: &Name,
    body: T::Handle,
    f: T::Handle,
    a: T::Handle,
) -> Result<T::Handle, AllocError>
    requires body { T.holds terms.old body }
    requires function { T.holds terms.old f }
    requires argument { T.holds terms.old a }
    ensures tree { IfOk result (λ r. T.means terms.new r ≡ spec.replaced name.now (T.means terms.old body) (App (T.means terms.old f) (T.means terms.old a))) }
    ensures held { IfOk result (λ r. T.holds terms.new r) }
    ensures kept { Keeps (T.holds terms.old) (T.means terms.old) (T.holds terms.new) (T.means terms.new) }
{
    let f = replace_spine(alloc, terms, name, body, f)?;
    let a = replace(alloc, terms, name, body, a)?;
    terms.make(alloc, View::App(f, a))
}

/// Replaces a constant in a head and what it is applied to, in a loop.
#[cycle(replacing)]
fn replace_spine<T: Terms>(
    alloc: Global,
    terms: &mut T,
    name: &Name,
    body: T::Handle,
    h: T::Handle,
) -> Result<T::Handle, AllocError>
    requires body { T.holds terms.old body }
    requires term { T.holds terms.old h }
    ensures tree { IfOk result (λ r. T.means terms.new r ≡ spec.replaced name.now (T.means terms.old body) (T.means terms.old h)) }
    ensures held { IfOk result (λ r. T.holds terms.new r) }
    ensures kept { Keeps (T.holds terms.old) (T.means terms.old) (T.holds terms.new) (T.means terms.new) }
{
    let mut spine = spine_of(alloc, terms, h)?;
    let mut made = replace(alloc, terms, name, body, spine.head)?;
    while let Some(u) = spine.args.pop() {
        let put = replace(alloc, terms, name, body, u)?;
        made = terms.make(alloc, View::App(made, put))?;
    }
    Ok(made)
}

/// Replaces a constant in the two parts of an abstraction or a product.
#[cycle(replacing)]
fn replace_two<T: Terms>(
    alloc: Global,
    terms: &mut T,
    name: &Name,
    body: T::Handle,
    a: T::Handle,
    b: T::Handle,
) -> Result<(T::Handle, T::Handle), AllocError>
    requires body { T.holds terms.old body }
    requires first { T.holds terms.old a }
    requires second { T.holds terms.old b }
    ensures first { IfOk result (λ r. T.means terms.new r.0 ≡ spec.replaced name.now (T.means terms.old body) (T.means terms.old a)) }
    ensures second { IfOk result (λ r. T.means terms.new r.1 ≡ spec.replaced name.now (T.means terms.old body) (T.means terms.old b)) }
    ensures held { IfOk result (λ r. T.holds terms.new r.0 × T.holds terms.new r.1) }
    ensures kept { Keeps (T.holds terms.old) (T.means terms.old) (T.holds terms.new) (T.means terms.new) }
{
    let a = replace(alloc, terms, name, body, a)?;
    let b = replace(alloc, terms, name, body, b)?;
    Ok((a, b))
}

/// Replaces a constant in each term of a list.
#[cycle(replacing)]
#[tactic(auto, using(ld_terms::proofs::Arguments::part_at, ld_terms::proofs::Turns::keeps_all))]
fn replace_each<T: Terms>(
    alloc: Global,
    terms: &mut T,
    name: &Name,
    body: T::Handle,
    us: &[T::Handle],
) -> Result<Vec<T::Handle>, AllocError>
    requires body { T.holds terms.old body }
    requires list { All (T.holds terms.old) us.now }
    ensures tree { IfOk result (λ rs. terms_of (map (T.means terms.new) rs.items) ≡ spec.replaced_in name.now (T.means terms.old body) (terms_of (map (T.means terms.old) us.now))) }
    ensures held { IfOk result (λ rs. All (T.holds terms.new) rs.items) }
    ensures kept { Keeps (T.holds terms.old) (T.means terms.old) (T.holds terms.new) (T.means terms.new) }
{
    let mut made = Vec::new(alloc);
    for u in us {
        made.push(replace(alloc, terms, name, body, *u)?)?;
    }
    Ok(made)
}

// ---- units

/// Spends a unit for each constant of a name in a term. It is false exactly where there are fewer units, and none is left then.
#[cycle(spending)]
fn spend_occurrences<T: Terms>(terms: &T, fuel: &mut Fuel, name: &Name, h: T::Handle) -> bool
    requires { T.holds terms.now h }
    ensures { IsSpent (spec.occurrences name.now (T.means terms.now h)) fuel.old fuel.new result }
{
    match terms.node(h) {
        View::Star | View::Square | View::Var(_) => true,
        View::App(f, a) => spend_in_two(terms, fuel, name, f, a),
        View::Lam(a, b) => spend_in_two(terms, fuel, name, a, b),
        View::Pi(a, b) => spend_in_two(terms, fuel, name, a, b),
        View::Const(found, us) => {
            if found.as_bytes() == name.as_bytes() && !fuel.spend() {
                return false;
            }
            spend_in_all(terms, fuel, name, us)
        }
        View::Meta(_, us) => spend_in_all(terms, fuel, name, us),
    }
}

/// Spends a unit for each constant of a name in two terms, of which the first is walked along its arguments in a loop.
#[cycle(spending)]
fn spend_in_two<T: Terms>(
    terms: &T,
    fuel: &mut Fuel,
    name: &Name,
    a: T::Handle,
    b: T::Handle,
) -> bool
    requires first { T.holds terms.now a }
    requires second { T.holds terms.now b }
    ensures { IsSpent (spec.occurrences name.now (T.means terms.now a) + spec.occurrences name.now (T.means terms.now b)) fuel.old fuel.new result }
{
    if !spend_occurrences(terms, fuel, name, b) {
        return false;
    }
    let mut head = a;
    while let View::App(f, u) = terms.node(head) {
        if !spend_occurrences(terms, fuel, name, u) {
            return false;
        }
        head = f;
    }
    spend_occurrences(terms, fuel, name, head)
}

/// Spends a unit for each constant of a name in several terms.
#[cycle(spending)]
#[tactic(auto, using(ld_terms::proofs::Arguments::part_at))]
fn spend_in_all<T: Terms>(terms: &T, fuel: &mut Fuel, name: &Name, us: &[T::Handle]) -> bool
    requires { All (T.holds terms.now) us.now }
    ensures { IsSpent (spec.occurrences_in name.now (terms_of (map (T.means terms.now) us.now))) fuel.old fuel.new result }
{
    for u in us {
        if !spend_occurrences(terms, fuel, name, *u) {
            return false;
        }
    }
    true
}
