//! Terms in which a metavariable is replaced.

ghost use Rattle.std.specs.Prelude.{◌≡◌, ◌+◌, IfOk, All, map};
ghost use Rattle.ld_trees.specs.Term.{App, Meta};
ghost use Rattle.ld_terms.specs.Views.{Keeps, terms_of};
ghost use Rattle.unification.specs.Pruning as pruning;
ghost use Rattle.pattern_unify.specs.Walks.{IsSpent};

use crate::spines::spine_of;
use ld_terms::{Fuel, Terms, View, subst_all};
use std::alloc::{AllocError, Global};

/// A term in which each occurrence of a metavariable, also in arguments of another one, is replaced by a value with its arguments put in.
/// Older handles keep their meaning.
///
/// Fails for want of memory alone. An index above 4,294,967,295, or as many binders above a node, count as want of memory.
#[cycle(replacing)]
pub fn replace<T: Terms>(
    alloc: Global,
    terms: &mut T,
    m: u32,
    value: T::Handle,
    h: T::Handle,
) -> Result<T::Handle, AllocError>
    requires value { T.holds terms.old value }
    requires term { T.holds terms.old h }
    ensures tree { IfOk result (λ r. T.means terms.new r ≡ pruning.replace m (T.means terms.old value) (T.means terms.old h)) }
    ensures held { IfOk result (λ r. T.holds terms.new r) }
    ensures kept { Keeps (T.holds terms.old) (T.means terms.old) (T.holds terms.new) (T.means terms.new) }
{
    match terms.node(h) {
        View::Star | View::Square | View::Var(_) => Ok(h),
        View::App(f, a) => replace_application(alloc, terms, m, value, f, a),
        View::Lam(a, b) => {
            let (a, b) = replace_two(alloc, terms, m, value, a, b)?;
            terms.make(alloc, View::Lam(a, b))
        }
        View::Pi(a, b) => {
            let (a, b) = replace_two(alloc, terms, m, value, a, b)?;
            terms.make(alloc, View::Pi(a, b))
        }
        View::Const(name, us) => {
            let name = name.copy(alloc)?;
            let us = Vec::from_slice(alloc, us)?;
            let us = replace_each(alloc, terms, m, value, &us)?;
            terms.make(alloc, View::Const(&name, &us))
        }
        View::Meta(k, us) => {
            let us = Vec::from_slice(alloc, us)?;
            replace_meta(alloc, terms, m, value, k, &us)
        }
    }
}

/// Replaces a metavariable in another one, or the other one too, where it is the same.
#[cycle(replacing)]
fn replace_meta<T: Terms>(
    alloc: Global,
    terms: &mut T,
    m: u32,
    value: T::Handle,
    k: u32,
    us: &[T::Handle],
) -> Result<T::Handle, AllocError>
    requires value { T.holds terms.old value }
    requires list { All (T.holds terms.old) us.now }
    ensures tree { IfOk result (λ r. T.means terms.new r ≡ pruning.replace m (T.means terms.old value) (Meta k (terms_of (map (T.means terms.old) us.now)))) }
    ensures held { IfOk result (λ r. T.holds terms.new r) }
    ensures kept { Keeps (T.holds terms.old) (T.means terms.old) (T.holds terms.new) (T.means terms.new) }
{
    let us = replace_each(alloc, terms, m, value, us)?;
    if k == m {
        return subst_all(alloc, terms, value, &us);
    }
    terms.make(alloc, View::Meta(k, &us))
}

/// Replaces a metavariable in an application.
#[cycle(replacing)]
fn replace_application<T: Terms>(
    alloc: Global,
    terms: &mut T,
    m: u32,
    value: T::Handle,
    f: T::Handle,
    a: T::Handle,
) -> Result<T::Handle, AllocError>
    requires value { T.holds terms.old value }
    requires function { T.holds terms.old f }
    requires argument { T.holds terms.old a }
    ensures tree { IfOk result (λ r. T.means terms.new r ≡ pruning.replace m (T.means terms.old value) (App (T.means terms.old f) (T.means terms.old a))) }
    ensures held { IfOk result (λ r. T.holds terms.new r) }
    ensures kept { Keeps (T.holds terms.old) (T.means terms.old) (T.holds terms.new) (T.means terms.new) }
{
    let f = replace_spine(alloc, terms, m, value, f)?;
    let a = replace(alloc, terms, m, value, a)?;
    terms.make(alloc, View::App(f, a))
}

/// Replaces a metavariable in a head and what it is applied to, in a loop.
#[cycle(replacing)]
fn replace_spine<T: Terms>(
    alloc: Global,
    terms: &mut T,
    m: u32,
    value: T::Handle,
    h: T::Handle,
) -> Result<T::Handle, AllocError>
    requires value { T.holds terms.old value }
    requires term { T.holds terms.old h }
    ensures tree { IfOk result (λ r. T.means terms.new r ≡ pruning.replace m (T.means terms.old value) (T.means terms.old h)) }
    ensures held { IfOk result (λ r. T.holds terms.new r) }
    ensures kept { Keeps (T.holds terms.old) (T.means terms.old) (T.holds terms.new) (T.means terms.new) }
{
    let mut spine = spine_of(alloc, terms, h)?;
    let mut made = replace(alloc, terms, m, value, spine.head)?;
    while let Some(u) = spine.args.pop() {
        let replaced = replace(alloc, terms, m, value, u)?;
        made = terms.make(alloc, View::App(made, replaced))?;
    }
    Ok(made)
}

/// Replaces a metavariable in the two parts of an abstraction or a product.
#[cycle(replacing)]
fn replace_two<T: Terms>(
    alloc: Global,
    terms: &mut T,
    m: u32,
    value: T::Handle,
    a: T::Handle,
    b: T::Handle,
) -> Result<(T::Handle, T::Handle), AllocError>
    requires value { T.holds terms.old value }
    requires first { T.holds terms.old a }
    requires second { T.holds terms.old b }
    ensures first { IfOk result (λ r. T.means terms.new r.0 ≡ pruning.replace m (T.means terms.old value) (T.means terms.old a)) }
    ensures second { IfOk result (λ r. T.means terms.new r.1 ≡ pruning.replace m (T.means terms.old value) (T.means terms.old b)) }
    ensures held { IfOk result (λ r. T.holds terms.new r.0 × T.holds terms.new r.1) }
    ensures kept { Keeps (T.holds terms.old) (T.means terms.old) (T.holds terms.new) (T.means terms.new) }
{
    let a = replace(alloc, terms, m, value, a)?;
    let b = replace(alloc, terms, m, value, b)?;
    Ok((a, b))
}

/// Replaces a metavariable in each term of a list.
#[cycle(replacing)]
#[tactic(auto, using(ld_terms::proofs::Arguments::part_at, ld_terms::proofs::Turns::keeps_all))]
fn replace_each<T: Terms>(
    alloc: Global,
    terms: &mut T,
    m: u32,
    value: T::Handle,
    us: &[T::Handle],
) -> Result<Vec<T::Handle>, AllocError>
    requires value { T.holds terms.old value }
    requires list { All (T.holds terms.old) us.now }
    ensures tree { IfOk result (λ rs. terms_of (map (T.means terms.new) rs.items) ≡ pruning.replace_all m (T.means terms.old value) (terms_of (map (T.means terms.old) us.now))) }
    ensures held { IfOk result (λ rs. All (T.holds terms.new) rs.items) }
    ensures kept { Keeps (T.holds terms.old) (T.means terms.old) (T.holds terms.new) (T.means terms.new) }
{
    let mut made = Vec::new(alloc);
    for u in us {
        made.push(replace(alloc, terms, m, value, *u)?)?;
    }
    Ok(made)
}

/// Spends a unit for each occurrence of a metavariable in a term. It is false exactly where there are fewer, and none is left then.
#[cycle(spending)]
pub fn spend_occurrences<T: Terms>(terms: &T, fuel: &mut Fuel, m: u32, h: T::Handle) -> bool
    requires { T.holds terms.now h }
    ensures { IsSpent (pruning.occurrences m (T.means terms.now h)) fuel.old fuel.new result }
{
    match terms.node(h) {
        View::Star | View::Square | View::Var(_) => true,
        View::App(f, a) => spend_in_application(terms, fuel, m, f, a),
        View::Lam(a, b) => spend_in_two(terms, fuel, m, a, b),
        View::Pi(a, b) => spend_in_two(terms, fuel, m, a, b),
        View::Const(_, us) => spend_in_all(terms, fuel, m, us),
        View::Meta(k, us) => {
            if k == m && !fuel.spend() {
                return false;
            }
            spend_in_all(terms, fuel, m, us)
        }
    }
}

/// Spends a unit for each occurrence in an application, in a loop.
#[cycle(spending)]
fn spend_in_application<T: Terms>(
    terms: &T,
    fuel: &mut Fuel,
    m: u32,
    f: T::Handle,
    a: T::Handle,
) -> bool
    requires function { T.holds terms.now f }
    requires argument { T.holds terms.now a }
    ensures { IsSpent (pruning.occurrences m (T.means terms.now f) + pruning.occurrences m (T.means terms.now a)) fuel.old fuel.new result }
{
    if !spend_occurrences(terms, fuel, m, a) {
        return false;
    }
    let mut head = f;
    while let View::App(g, b) = terms.node(head) {
        if !spend_occurrences(terms, fuel, m, b) {
            return false;
        }
        head = g;
    }
    spend_occurrences(terms, fuel, m, head)
}

/// Spends a unit for each occurrence in two terms.
#[cycle(spending)]
fn spend_in_two<T: Terms>(terms: &T, fuel: &mut Fuel, m: u32, a: T::Handle, b: T::Handle) -> bool
    requires first { T.holds terms.now a }
    requires second { T.holds terms.now b }
    ensures { IsSpent (pruning.occurrences m (T.means terms.now a) + pruning.occurrences m (T.means terms.now b)) fuel.old fuel.new result }
{
    if !spend_occurrences(terms, fuel, m, a) {
        return false;
    }
    spend_occurrences(terms, fuel, m, b)
}

/// Spends a unit for each occurrence in several terms.
#[cycle(spending)]
#[tactic(auto, using(ld_terms::proofs::Arguments::part_at))]
fn spend_in_all<T: Terms>(terms: &T, fuel: &mut Fuel, m: u32, us: &[T::Handle]) -> bool
    requires { All (T.holds terms.now) us.now }
    ensures { IsSpent (pruning.occurrences_in m (terms_of (map (T.means terms.now) us.now))) fuel.old fuel.new result }
{
    for u in us {
        if !spend_occurrences(terms, fuel, m, *u) {
            return false;
        }
    }
    true
}
