ghost use Rattle.std.specs.Prelude.{◌≡◌, ◌+◌, IfOk, All, map};
ghost use Rattle.ld_trees.specs.Term.{Var, App};
ghost use Rattle.ld_trees.specs.Substitution as tree;
ghost use Rattle.ld_terms.specs.Views.{Keeps, terms_of};

use crate::shifting::shift;
use crate::spine::spine_of;
use crate::terms::Terms;
use crate::view::View;
use std::alloc::{AllocError, Global};

/// Puts arguments in for the last variables at once, the first argument for the entry entered first, and lowers the other
/// variables. Older handles keep their meaning.
///
/// Fails for want of memory alone. An index above 4,294,967,295, or as many binders above a node, count as want of memory.
#[tactic(auto, using(crate::proofs::Instantiation::subst_all_none, crate::proofs::Instantiation::no_arguments, ld_trees::proofs::Recursions::subst_all_is))]
pub fn subst_all<T: Terms>(
    alloc: Global,
    terms: &mut T,
    h: T::Handle,
    args: &[T::Handle],
) -> Result<T::Handle, AllocError>
    requires term { T.holds terms.old h }
    requires arguments { All (T.holds terms.old) args.now }
    ensures tree { IfOk result (λ r. T.means terms.new r ≡ tree.subst_all (terms_of (map (T.means terms.old) args.now)) (T.means terms.old h)) }
    ensures held { IfOk result (λ r. T.holds terms.new r) }
    ensures kept { Keeps (T.holds terms.old) (T.means terms.old) (T.holds terms.new) (T.means terms.new) }
{
    if args.is_empty() {
        return Ok(h);
    }
    subst_at(alloc, terms, h, args, 0)
}

/// Puts arguments in under so many binders, node by node.
#[cycle(substituting)]
fn subst_at<T: Terms>(
    alloc: Global,
    terms: &mut T,
    h: T::Handle,
    args: &[T::Handle],
    under: u32,
) -> Result<T::Handle, AllocError>
    requires term { T.holds terms.old h }
    requires arguments { All (T.holds terms.old) args.now }
    ensures tree { IfOk result (λ r. T.means terms.new r ≡ tree.subst_at under (terms_of (map (T.means terms.old) args.now)) (T.means terms.old h)) }
    ensures held { IfOk result (λ r. T.holds terms.new r) }
    ensures kept { Keeps (T.holds terms.old) (T.means terms.old) (T.holds terms.new) (T.means terms.new) }
{
    match terms.node(h) {
        View::Star | View::Square => Ok(h),
        View::Var(i) => subst_variable(alloc, terms, i, args, under),
        View::App(f, a) => subst_application(alloc, terms, f, a, args, under),
        View::Lam(a, m) => {
            let (a, m) = subst_bound(alloc, terms, a, m, args, under)?;
            terms.make(alloc, View::Lam(a, m))
        }
        View::Pi(a, b) => {
            let (a, b) = subst_bound(alloc, terms, a, b, args, under)?;
            terms.make(alloc, View::Pi(a, b))
        }
        View::Const(name, us) => {
            let name = name.copy(alloc)?;
            let us = Vec::from_slice(alloc, us)?;
            let us = subst_each(alloc, terms, &us, args, under)?;
            terms.make(alloc, View::Const(&name, &us))
        }
        View::Meta(m, us) => {
            let us = Vec::from_slice(alloc, us)?;
            let us = subst_each(alloc, terms, &us, args, under)?;
            terms.make(alloc, View::Meta(m, &us))
        }
    }
}

/// Puts arguments in, in an application.
#[cycle(substituting)]
fn subst_application<T: Terms>(
    alloc: Global,
    terms: &mut T,
    f: T::Handle,
    a: T::Handle,
    args: &[T::Handle],
    under: u32,
) -> Result<T::Handle, AllocError>
    requires function { T.holds terms.old f }
    requires argument { T.holds terms.old a }
    requires arguments { All (T.holds terms.old) args.now }
    ensures tree { IfOk result (λ r. T.means terms.new r ≡ tree.subst_at under (terms_of (map (T.means terms.old) args.now)) (App (T.means terms.old f) (T.means terms.old a))) }
    ensures held { IfOk result (λ r. T.holds terms.new r) }
    ensures kept { Keeps (T.holds terms.old) (T.means terms.old) (T.holds terms.new) (T.means terms.new) }
{
    let f = subst_spine(alloc, terms, f, args, under)?;
    let a = subst_at(alloc, terms, a, args, under)?;
    terms.make(alloc, View::App(f, a))
}

/// Puts arguments in, in a head and what it is applied to, in a loop.
#[cycle(substituting)]
fn subst_spine<T: Terms>(
    alloc: Global,
    terms: &mut T,
    h: T::Handle,
    args: &[T::Handle],
    under: u32,
) -> Result<T::Handle, AllocError>
    requires term { T.holds terms.old h }
    requires arguments { All (T.holds terms.old) args.now }
    ensures tree { IfOk result (λ r. T.means terms.new r ≡ tree.subst_at under (terms_of (map (T.means terms.old) args.now)) (T.means terms.old h)) }
    ensures held { IfOk result (λ r. T.holds terms.new r) }
    ensures kept { Keeps (T.holds terms.old) (T.means terms.old) (T.holds terms.new) (T.means terms.new) }
{
    let mut spine = spine_of(alloc, terms, h)?;
    let mut made = subst_at(alloc, terms, spine.head, args, under)?;
    while let Some(u) = spine.args.pop() {
        let put = subst_at(alloc, terms, u, args, under)?;
        made = terms.make(alloc, View::App(made, put))?;
    }
    Ok(made)
}

/// Puts arguments in, in the two parts of an abstraction or a product, of which the second one stands under its binder.
#[cycle(substituting)]
fn subst_bound<T: Terms>(
    alloc: Global,
    terms: &mut T,
    a: T::Handle,
    m: T::Handle,
    args: &[T::Handle],
    under: u32,
) -> Result<(T::Handle, T::Handle), AllocError>
    requires bound { T.holds terms.old a }
    requires body { T.holds terms.old m }
    requires arguments { All (T.holds terms.old) args.now }
    ensures bound { IfOk result (λ r. T.means terms.new r.0 ≡ tree.subst_at under (terms_of (map (T.means terms.old) args.now)) (T.means terms.old a)) }
    ensures body { IfOk result (λ r. T.means terms.new r.1 ≡ tree.subst_at (under + 1) (terms_of (map (T.means terms.old) args.now)) (T.means terms.old m)) }
    ensures held { IfOk result (λ r. T.holds terms.new r.0 × T.holds terms.new r.1) }
    ensures kept { Keeps (T.holds terms.old) (T.means terms.old) (T.holds terms.new) (T.means terms.new) }
{
    let below = under.checked_add(1).ok_or(AllocError)?;
    let a = subst_at(alloc, terms, a, args, under)?;
    let m = subst_at(alloc, terms, m, args, below)?;
    Ok((a, m))
}

/// Puts arguments in, in each term of a list.
#[cycle(substituting)]
#[tactic(auto, using(crate::proofs::Arguments::part_at, crate::proofs::Turns::keeps_all))]
fn subst_each<T: Terms>(
    alloc: Global,
    terms: &mut T,
    us: &[T::Handle],
    args: &[T::Handle],
    under: u32,
) -> Result<Vec<T::Handle>, AllocError>
    requires list { All (T.holds terms.old) us.now }
    requires arguments { All (T.holds terms.old) args.now }
    ensures tree { IfOk result (λ rs. terms_of (map (T.means terms.new) rs.items) ≡ tree.substs_at under (terms_of (map (T.means terms.old) args.now)) (terms_of (map (T.means terms.old) us.now))) }
    ensures held { IfOk result (λ rs. All (T.holds terms.new) rs.items) }
    ensures kept { Keeps (T.holds terms.old) (T.means terms.old) (T.holds terms.new) (T.means terms.new) }
{
    let mut made = Vec::new(alloc);
    for u in us {
        made.push(subst_at(alloc, terms, *u, args, under)?)?;
    }
    Ok(made)
}

/// What stands for a variable under so many binders.
#[tactic(auto, using(crate::proofs::Instantiation::argument_for, crate::proofs::Instantiation::lowered_variable))]
fn subst_variable<T: Terms>(
    alloc: Global,
    terms: &mut T,
    i: u32,
    args: &[T::Handle],
    under: u32,
) -> Result<T::Handle, AllocError>
    requires { All (T.holds terms.old) args.now }
    ensures tree { IfOk result (λ r. T.means terms.new r ≡ tree.subst_at under (terms_of (map (T.means terms.old) args.now)) (Var i)) }
    ensures held { IfOk result (λ r. T.holds terms.new r) }
    ensures kept { Keeps (T.holds terms.old) (T.means terms.old) (T.holds terms.new) (T.means terms.new) }
{
    if i < under {
        return terms.make(alloc, View::Var(i));
    }
    let from_last = (i - under) as usize;
    if from_last < args.len() {
        return shift(alloc, terms, args[args.len() - 1 - from_last], 0, under);
    }
    let lowered = i as usize - args.len();
    terms.make(alloc, View::Var(lowered as u32))
}
