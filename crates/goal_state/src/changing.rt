//! Arguments put in for variables, in terms whose parts stand many times: each part is changed once for each number of binders above it.

ghost use Rattle.std.specs.Prelude.{◌≡◌, ◌+◌, ◌≤◌, All, IfOk, IfSome, IsTrue, OnOk, Some, map};
ghost use Rattle.std.specs.BTreeMap.{get};
ghost use Rattle.ld_trees.specs.Term.{Var, Const, Meta};
ghost use Rattle.ld_trees.specs.Substitution as tree;
ghost use Rattle.ld_terms.specs.Views.{Keeps, terms_of};
ghost use Rattle.goal_state.specs.Changes.{changed, changed_all, by_both, ArgsIn, AreChanges, IsUntouched};

use ld_terms::{Name, Terms, View};
use std::alloc::{AllocError, Global};
use std::cmp::Ordering;
use std::collections::BTreeMap;

/// What becomes of the variables that count beyond the binders above a node.
#[derive(Clone, Copy)]
enum Change<'a, H> {
    /// So much is added to each.
    Shift { by: u32 },
    /// Arguments stand for the last ones, the first argument for the entry entered first, and the others are lowered.
    Put { args: &'a [H] },
}

/// Puts arguments in for the last variables at once, the first argument for the entry entered first, and lowers the other
/// variables. Older handles keep their meaning. A part that doesn't change keeps its handle, and a part that stands many times under one
/// handle is changed once for each number of binders above it.
///
/// Fails for want of memory alone. An index above 4,294,967,295, or more binders than that above a node, count as want of memory.
#[tactic(auto, using(crate::proofs::Changes::no_changes, ld_terms::proofs::Instantiation::subst_all_none, ld_terms::proofs::Instantiation::no_arguments, ld_trees::proofs::Recursions::subst_all_is))]
pub(crate) fn subst_shared<T: Terms>(
    alloc: Global,
    terms: &mut T,
    h: T::Handle,
    args: &[T::Handle],
) -> Result<T::Handle, AllocError>
    requires term { T.holds terms.old h }
    requires arguments { All (T.holds terms.old) args.now }
    ensures tree { IfOk result (λ r. T.means terms.new r ≡ tree.subst_all (terms_of (map (T.means terms.old) args.now)) (T.means terms.old h)) }
    ensures held { IfOk result (λ r. T.holds terms.new r) }
    ensures kept { Keeps (T.holds terms.old) (T.means terms.old) (T.holds terms.new) (T.means terms.new) }
{
    if args.is_empty() {
        return Ok(h);
    }
    let mut known = BTreeMap::new(alloc);
    change_term(alloc, terms, Change::Put { args }, &mut known, h, 0)
}

/// Changes a term under so many binders: a look-up, where the table knows it, and else node by node.
#[cycle(changing)]
fn change_term<T: Terms>(
    alloc: Global,
    terms: &mut T,
    way: Change<'_, T::Handle>,
    known: &mut BTreeMap<(T::Handle, u32), T::Handle>,
    h: T::Handle,
    under: u32,
) -> Result<T::Handle, AllocError>
    requires term { T.holds terms.old h }
    requires way { ArgsIn (T.holds terms.old) way }
    requires known { AreChanges (T.holds terms.old) (T.means terms.old) way T.Handle.cmp known.old }
    ensures tree { IfOk result (λ r. T.means terms.new r ≡ changed (T.means terms.old) way.entry under (T.means terms.old h)) }
    ensures held { IfOk result (λ r. T.holds terms.new r) }
    ensures known { OnOk result (AreChanges (T.holds terms.new) (T.means terms.new) way.entry T.Handle.cmp known.new) }
    ensures kept { Keeps (T.holds terms.old) (T.means terms.old) (T.holds terms.new) (T.means terms.new) }
{
    if stays(terms, h, under) {
        return Ok(h);
    }
    if let Some(found) = entry_at(known, h, under) {
        return Ok(found);
    }
    let made = change_node(alloc, terms, way, known, h, under)?;
    known.insert((h, under), made)?;
    Ok(made)
}

/// What the table has for a term under so many binders.
fn entry_at<H: Copy + Ord>(known: &BTreeMap<(H, u32), H>, h: H, under: u32) -> Option<H>
    ensures { IfSome result (λ r. get (by_both H.cmp) known.now (h, under) ≡ Some r) }
{
    match known.get(&(h, under)) {
        Some(entry) => Some(*entry),
        None => None,
    }
}

/// Whether a term is a leaf that no change touches: a sort, or a variable of one of the binders above it.
fn stays<T: Terms>(terms: &T, h: T::Handle, under: u32) -> bool
    requires { T.holds terms.now h }
    ensures { IsTrue result → IsUntouched (T.means terms.now) under (T.means terms.now h) }
{
    match terms.node(h) {
        View::Star | View::Square => true,
        View::Var(i) => i < under,
        _ => false,
    }
}

/// Changes a node by its parts.
#[cycle(changing)]
fn change_node<T: Terms>(
    alloc: Global,
    terms: &mut T,
    way: Change<'_, T::Handle>,
    known: &mut BTreeMap<(T::Handle, u32), T::Handle>,
    h: T::Handle,
    under: u32,
) -> Result<T::Handle, AllocError>
    requires term { T.holds terms.old h }
    requires way { ArgsIn (T.holds terms.old) way }
    requires known { AreChanges (T.holds terms.old) (T.means terms.old) way T.Handle.cmp known.old }
    ensures tree { IfOk result (λ r. T.means terms.new r ≡ changed (T.means terms.old) way.entry under (T.means terms.old h)) }
    ensures held { IfOk result (λ r. T.holds terms.new r) }
    ensures known { OnOk result (AreChanges (T.holds terms.new) (T.means terms.new) way.entry T.Handle.cmp known.new) }
    ensures kept { Keeps (T.holds terms.old) (T.means terms.old) (T.holds terms.new) (T.means terms.new) }
{
    match terms.node(h) {
        View::Star | View::Square => Ok(h),
        View::Var(i) => change_variable(alloc, terms, way, h, i, under),
        View::App(f, a) => {
            let (g, b) = change_two(alloc, terms, way, known, f, a, under, under)?;
            if are_both_same::<T>(f, g, a, b) {
                return Ok(h);
            }
            terms.make(alloc, View::App(g, b))
        }
        View::Lam(a, m) => {
            let below = under.checked_add(1).ok_or(AllocError)?;
            let (b, n) = change_two(alloc, terms, way, known, a, m, under, below)?;
            if are_both_same::<T>(a, b, m, n) {
                return Ok(h);
            }
            terms.make(alloc, View::Lam(b, n))
        }
        View::Pi(a, m) => {
            let below = under.checked_add(1).ok_or(AllocError)?;
            let (b, n) = change_two(alloc, terms, way, known, a, m, under, below)?;
            if are_both_same::<T>(a, b, m, n) {
                return Ok(h);
            }
            terms.make(alloc, View::Pi(b, n))
        }
        View::Const(name, us) => {
            let name = name.copy(alloc)?;
            let us = Vec::from_slice(alloc, us)?;
            change_constant(alloc, terms, way, known, h, &name, &us, under)
        }
        View::Meta(m, us) => {
            let us = Vec::from_slice(alloc, us)?;
            change_meta(alloc, terms, way, known, h, m, &us, under)
        }
    }
}

/// Changes the two parts of a node, each under as many binders as it stands.
#[cycle(changing)]
fn change_two<T: Terms>(
    alloc: Global,
    terms: &mut T,
    way: Change<'_, T::Handle>,
    known: &mut BTreeMap<(T::Handle, u32), T::Handle>,
    a: T::Handle,
    b: T::Handle,
    under: u32,
    below: u32,
) -> Result<(T::Handle, T::Handle), AllocError>
    requires first { T.holds terms.old a }
    requires second { T.holds terms.old b }
    requires way { ArgsIn (T.holds terms.old) way }
    requires known { AreChanges (T.holds terms.old) (T.means terms.old) way T.Handle.cmp known.old }
    ensures first { IfOk result (λ r. T.means terms.new r.0 ≡ changed (T.means terms.old) way.entry under (T.means terms.old a)) }
    ensures second { IfOk result (λ r. T.means terms.new r.1 ≡ changed (T.means terms.old) way.entry below (T.means terms.old b)) }
    ensures held { IfOk result (λ r. T.holds terms.new r.0 × T.holds terms.new r.1) }
    ensures known { OnOk result (AreChanges (T.holds terms.new) (T.means terms.new) way.entry T.Handle.cmp known.new) }
    ensures kept { Keeps (T.holds terms.old) (T.means terms.old) (T.holds terms.new) (T.means terms.new) }
{
    let first = change_term(alloc, terms, way, known, a, under)?;
    let second = change_term(alloc, terms, way, known, b, below)?;
    Ok((first, second))
}

/// Changes each term of a list.
#[cycle(changing)]
#[tactic(auto, using(ld_terms::proofs::Arguments::part_at))]
fn change_each<T: Terms>(
    alloc: Global,
    terms: &mut T,
    way: Change<'_, T::Handle>,
    known: &mut BTreeMap<(T::Handle, u32), T::Handle>,
    us: &[T::Handle],
    under: u32,
) -> Result<Vec<T::Handle>, AllocError>
    requires list { All (T.holds terms.old) us.now }
    requires way { ArgsIn (T.holds terms.old) way }
    requires known { AreChanges (T.holds terms.old) (T.means terms.old) way T.Handle.cmp known.old }
    ensures trees { IfOk result (λ rs. terms_of (map (T.means terms.new) rs.items) ≡ changed_all (T.means terms.old) way.entry under (terms_of (map (T.means terms.old) us.now))) }
    ensures held { IfOk result (λ rs. All (T.holds terms.new) rs.items) }
    ensures known { OnOk result (AreChanges (T.holds terms.new) (T.means terms.new) way.entry T.Handle.cmp known.new) }
    ensures kept { Keeps (T.holds terms.old) (T.means terms.old) (T.holds terms.new) (T.means terms.new) }
{
    let mut made = Vec::new(alloc);
    for u in us {
        let changed = change_term(alloc, terms, way, known, *u, under)?;
        made.push(changed)?;
    }
    Ok(made)
}

/// Changes a constant with arguments, which `h` means.
#[cycle(changing)]
fn change_constant<T: Terms>(
    alloc: Global,
    terms: &mut T,
    way: Change<'_, T::Handle>,
    known: &mut BTreeMap<(T::Handle, u32), T::Handle>,
    h: T::Handle,
    name: &Name,
    us: &[T::Handle],
    under: u32,
) -> Result<T::Handle, AllocError>
    requires term { T.holds terms.old h }
    requires list { All (T.holds terms.old) us.now }
    requires node { Const name.now (terms_of (map (T.means terms.old) us.now)) ≡ T.means terms.old h }
    requires way { ArgsIn (T.holds terms.old) way }
    requires known { AreChanges (T.holds terms.old) (T.means terms.old) way T.Handle.cmp known.old }
    ensures tree { IfOk result (λ r. T.means terms.new r ≡ changed (T.means terms.old) way.entry under (T.means terms.old h)) }
    ensures held { IfOk result (λ r. T.holds terms.new r) }
    ensures known { OnOk result (AreChanges (T.holds terms.new) (T.means terms.new) way.entry T.Handle.cmp known.new) }
    ensures kept { Keeps (T.holds terms.old) (T.means terms.old) (T.holds terms.new) (T.means terms.new) }
{
    let vs = change_each(alloc, terms, way, known, us, under)?;
    if are_same::<T>(us, &vs) {
        return Ok(h);
    }
    terms.make(alloc, View::Const(name, &vs))
}

/// Changes a metavariable with arguments, which `h` means.
#[cycle(changing)]
fn change_meta<T: Terms>(
    alloc: Global,
    terms: &mut T,
    way: Change<'_, T::Handle>,
    known: &mut BTreeMap<(T::Handle, u32), T::Handle>,
    h: T::Handle,
    m: u32,
    us: &[T::Handle],
    under: u32,
) -> Result<T::Handle, AllocError>
    requires term { T.holds terms.old h }
    requires list { All (T.holds terms.old) us.now }
    requires node { Meta m (terms_of (map (T.means terms.old) us.now)) ≡ T.means terms.old h }
    requires way { ArgsIn (T.holds terms.old) way }
    requires known { AreChanges (T.holds terms.old) (T.means terms.old) way T.Handle.cmp known.old }
    ensures tree { IfOk result (λ r. T.means terms.new r ≡ changed (T.means terms.old) way.entry under (T.means terms.old h)) }
    ensures held { IfOk result (λ r. T.holds terms.new r) }
    ensures known { OnOk result (AreChanges (T.holds terms.new) (T.means terms.new) way.entry T.Handle.cmp known.new) }
    ensures kept { Keeps (T.holds terms.old) (T.means terms.old) (T.holds terms.new) (T.means terms.new) }
{
    let vs = change_each(alloc, terms, way, known, us, under)?;
    if are_same::<T>(us, &vs) {
        return Ok(h);
    }
    terms.make(alloc, View::Meta(m, &vs))
}

/// Changes a variable, which `h` means.
#[cycle(changing)]
fn change_variable<T: Terms>(
    alloc: Global,
    terms: &mut T,
    way: Change<'_, T::Handle>,
    h: T::Handle,
    i: u32,
    under: u32,
) -> Result<T::Handle, AllocError>
    requires term { T.holds terms.old h }
    requires variable { T.means terms.old h ≡ Var i }
    requires way { ArgsIn (T.holds terms.old) way }
    ensures tree { IfOk result (λ r. T.means terms.new r ≡ changed (T.means terms.old) way.entry under (Var i)) }
    ensures held { IfOk result (λ r. T.holds terms.new r) }
    ensures kept { Keeps (T.holds terms.old) (T.means terms.old) (T.holds terms.new) (T.means terms.new) }
{
    if i < under {
        return Ok(h);
    }
    match way {
        Change::Shift { by } => {
            let raised = i.checked_add(by).ok_or(AllocError)?;
            terms.make(alloc, View::Var(raised))
        }
        Change::Put { args } => put_for(alloc, terms, args, h, i, under),
    }
}

/// What stands for a variable that counts beyond the binders above it, when arguments are put in: an argument with these binders added,
/// the variable's own handle where the argument means just that, or the variable lowered.
#[cycle(changing)]
#[tactic(auto, using(ld_terms::proofs::Instantiation::argument_for, ld_terms::proofs::Instantiation::lowered_variable))]
fn put_for<'a, T: Terms>(
    alloc: Global,
    terms: &mut T,
    args: &'a [T::Handle],
    h: T::Handle,
    i: u32,
    under: u32,
) -> Result<T::Handle, AllocError>
    requires term { T.holds terms.old h }
    requires variable { T.means terms.old h ≡ Var i }
    requires beyond { under ≤ i }
    requires arguments { All (T.holds terms.old) args.now }
    ensures tree { IfOk result (λ r. T.means terms.new r ≡ tree.subst_at under (terms_of (map (T.means terms.old) args.now)) (Var i)) }
    ensures held { IfOk result (λ r. T.holds terms.new r) }
    ensures kept { Keeps (T.holds terms.old) (T.means terms.old) (T.holds terms.new) (T.means terms.new) }
{
    let from_last = (i - under) as usize;
    if from_last >= args.len() {
        let lowered = i as usize - args.len();
        return terms.make(alloc, View::Var(lowered as u32));
    }
    let arg = args[args.len() - 1 - from_last];
    if is_variable(terms, arg, i - under) {
        return Ok(h);
    }
    if under == 0 {
        return Ok(arg);
    }
    let mut known = BTreeMap::new(alloc);
    let way: Change<'a, T::Handle> = Change::Shift { by: under };
    change_term(alloc, terms, way, &mut known, arg, 0)
}

/// Whether a term is the variable with an index.
fn is_variable<T: Terms>(terms: &T, h: T::Handle, i: u32) -> bool
    requires { T.holds terms.now h }
    ensures { IsTrue result → T.means terms.now h ≡ Var i }
{
    match terms.node(h) {
        View::Var(j) => j == i,
        _ => false,
    }
}

/// Whether the parts of a node are the same as they were.
fn are_both_same<T: Terms>(a: T::Handle, b: T::Handle, c: T::Handle, d: T::Handle) -> bool
    ensures { IsTrue result → (a ≡ b) × (c ≡ d) }
{
    is_same::<T>(a, b) && is_same::<T>(c, d)
}

/// Whether two handles are the same.
fn is_same<T: Terms>(a: T::Handle, b: T::Handle) -> bool
    ensures { IsTrue result → a ≡ b }
{
    match a.cmp(&b) {
        Ordering::Equal => true,
        _ => false,
    }
}

/// Whether two lists have the same handles.
fn are_same<T: Terms>(us: &[T::Handle], vs: &[T::Handle]) -> bool
    ensures { IsTrue result → us.now ≡ vs.now }
{
    match us.cmp(vs) {
        Ordering::Equal => true,
        _ => false,
    }
}
