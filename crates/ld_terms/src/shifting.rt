ghost use Rattle.std.specs.Prelude.{◌≡◌, ◌+◌, IfOk, All, map};
ghost use Rattle.ld_trees.specs.Term.{Var, App};
ghost use Rattle.ld_trees.specs.Substitution as tree;
ghost use Rattle.ld_terms.specs.Views.{Keeps, terms_of};

use crate::spine::spine_of;
use crate::terms::Terms;
use crate::view::View;
use std::alloc::{AllocError, Global};

/// Adds `by` to each variable at or above `from`. Older handles keep their meaning.
///
/// Fails for want of memory alone. An index above 4,294,967,295, or as many binders above a node, count as want of memory.
#[tactic(auto, using(crate::proofs::Instantiation::shift_none))]
pub fn shift<T: Terms>(
    alloc: Global,
    terms: &mut T,
    h: T::Handle,
    from: u32,
    by: u32,
) -> Result<T::Handle, AllocError>
    requires { T.holds terms.old h }
    ensures tree { IfOk result (λ r. T.means terms.new r ≡ tree.shift from by (T.means terms.old h)) }
    ensures held { IfOk result (λ r. T.holds terms.new r) }
    ensures kept { Keeps (T.holds terms.old) (T.means terms.old) (T.holds terms.new) (T.means terms.new) }
{
    if by == 0 {
        return Ok(h);
    }
    shift_term(alloc, terms, h, from, by)
}

/// Shifts a term node by node.
#[cycle(shifting)]
fn shift_term<T: Terms>(
    alloc: Global,
    terms: &mut T,
    h: T::Handle,
    from: u32,
    by: u32,
) -> Result<T::Handle, AllocError>
    requires { T.holds terms.old h }
    ensures tree { IfOk result (λ r. T.means terms.new r ≡ tree.shift from by (T.means terms.old h)) }
    ensures held { IfOk result (λ r. T.holds terms.new r) }
    ensures kept { Keeps (T.holds terms.old) (T.means terms.old) (T.holds terms.new) (T.means terms.new) }
{
    match terms.node(h) {
        View::Star | View::Square => Ok(h),
        View::Var(i) => shift_variable(alloc, terms, i, from, by),
        View::App(f, a) => shift_application(alloc, terms, f, a, from, by),
        View::Lam(a, m) => {
            let (a, m) = shift_bound(alloc, terms, a, m, from, by)?;
            terms.make(alloc, View::Lam(a, m))
        }
        View::Pi(a, b) => {
            let (a, b) = shift_bound(alloc, terms, a, b, from, by)?;
            terms.make(alloc, View::Pi(a, b))
        }
        View::Const(name, args) => {
            let name = name.copy(alloc)?;
            let args = Vec::from_slice(alloc, args)?;
            let args = shift_each(alloc, terms, &args, from, by)?;
            terms.make(alloc, View::Const(&name, &args))
        }
        View::Meta(m, args) => {
            let args = Vec::from_slice(alloc, args)?;
            let args = shift_each(alloc, terms, &args, from, by)?;
            terms.make(alloc, View::Meta(m, &args))
        }
    }
}

/// The variable that stands for one.
fn shift_variable<T: Terms>(
    alloc: Global,
    terms: &mut T,
    i: u32,
    from: u32,
    by: u32,
) -> Result<T::Handle, AllocError>
    ensures tree { IfOk result (λ r. T.means terms.new r ≡ tree.shift from by (Var i)) }
    ensures held { IfOk result (λ r. T.holds terms.new r) }
    ensures kept { Keeps (T.holds terms.old) (T.means terms.old) (T.holds terms.new) (T.means terms.new) }
{
    if i < from {
        return terms.make(alloc, View::Var(i));
    }
    let raised = i.checked_add(by).ok_or(AllocError)?;
    terms.make(alloc, View::Var(raised))
}

/// Shifts an application.
#[cycle(shifting)]
fn shift_application<T: Terms>(
    alloc: Global,
    terms: &mut T,
    f: T::Handle,
    a: T::Handle,
    from: u32,
    by: u32,
) -> Result<T::Handle, AllocError>
    requires function { T.holds terms.old f }
    requires argument { T.holds terms.old a }
    ensures tree { IfOk result (λ r. T.means terms.new r ≡ tree.shift from by (App (T.means terms.old f) (T.means terms.old a))) }
    ensures held { IfOk result (λ r. T.holds terms.new r) }
    ensures kept { Keeps (T.holds terms.old) (T.means terms.old) (T.holds terms.new) (T.means terms.new) }
{
    let f = shift_spine(alloc, terms, f, from, by)?;
    let a = shift_term(alloc, terms, a, from, by)?;
    terms.make(alloc, View::App(f, a))
}

/// Shifts a term whose arguments are many, in a loop.
#[cycle(shifting)]
fn shift_spine<T: Terms>(
    alloc: Global,
    terms: &mut T,
    h: T::Handle,
    from: u32,
    by: u32,
) -> Result<T::Handle, AllocError>
    requires { T.holds terms.old h }
    ensures tree { IfOk result (λ r. T.means terms.new r ≡ tree.shift from by (T.means terms.old h)) }
    ensures held { IfOk result (λ r. T.holds terms.new r) }
    ensures kept { Keeps (T.holds terms.old) (T.means terms.old) (T.holds terms.new) (T.means terms.new) }
{
    let mut spine = spine_of(alloc, terms, h)?;
    let mut made = shift_term(alloc, terms, spine.head, from, by)?;
    while let Some(arg) = spine.args.pop() {
        let shifted = shift_term(alloc, terms, arg, from, by)?;
        made = terms.make(alloc, View::App(made, shifted))?;
    }
    Ok(made)
}

/// Shifts the two parts of an abstraction or a product, the second one under its binder.
#[cycle(shifting)]
fn shift_bound<T: Terms>(
    alloc: Global,
    terms: &mut T,
    a: T::Handle,
    m: T::Handle,
    from: u32,
    by: u32,
) -> Result<(T::Handle, T::Handle), AllocError>
    requires bound { T.holds terms.old a }
    requires body { T.holds terms.old m }
    ensures bound { IfOk result (λ r. T.means terms.new r.0 ≡ tree.shift from by (T.means terms.old a)) }
    ensures body { IfOk result (λ r. T.means terms.new r.1 ≡ tree.shift (from + 1) by (T.means terms.old m)) }
    ensures held { IfOk result (λ r. T.holds terms.new r.0 × T.holds terms.new r.1) }
    ensures kept { Keeps (T.holds terms.old) (T.means terms.old) (T.holds terms.new) (T.means terms.new) }
{
    let under = from.checked_add(1).ok_or(AllocError)?;
    let a = shift_term(alloc, terms, a, from, by)?;
    let m = shift_term(alloc, terms, m, under, by)?;
    Ok((a, m))
}

/// Shifts each of the arguments.
#[cycle(shifting)]
#[tactic(auto, using(crate::proofs::Arguments::part_at))]
fn shift_each<T: Terms>(
    alloc: Global,
    terms: &mut T,
    args: &[T::Handle],
    from: u32,
    by: u32,
) -> Result<Vec<T::Handle>, AllocError>
    requires { All (T.holds terms.old) args.now }
    ensures tree { IfOk result (λ rs. terms_of (map (T.means terms.new) rs.items) ≡ tree.shifts from by (terms_of (map (T.means terms.old) args.now))) }
    ensures held { IfOk result (λ rs. All (T.holds terms.new) rs.items) }
    ensures kept { Keeps (T.holds terms.old) (T.means terms.old) (T.holds terms.new) (T.means terms.new) }
{
    let mut made = Vec::new(alloc);
    for arg in args {
        made.push(shift_term(alloc, terms, *arg, from, by)?)?;
    }
    Ok(made)
}
