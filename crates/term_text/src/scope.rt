//! Scoping: the names of a surface tree are resolved to a term of a store.

ghost use Rattle.std.specs.Prelude.{◌≡◌, ◌+◌, [], ◌∷◌, map, IfOk, OnOk, MatchResult, Some};
ghost use Rattle.ld_trees.specs.Term.{none};
ghost use Rattle.ld_terms.specs.Views.{Keeps};
ghost use Rattle.term_syntax.specs.Scoping as spec;
ghost use Rattle.term_syntax.specs.Scoping.{below};
ghost use Rattle.std.specs.Option.{option_copied};
ghost use Rattle.term_text.specs.Scoped.{arities, bound_of, is_bound_by, AreResolved, IsChecked, IsResolved, Refuses};

use crate::print::put_level;
use ld_terms::{Globals, Name, Terms, View};
use std::alloc::{AllocError, Global};
use term_syntax::{Label, ScopeFault, Shape, Surface};

/// The term that a surface tree means in a context whose entries have these names, over an environment.
///
/// A name is the innermost binder of that name, else the last entry of that name; a level name `%k` is else the entry of level k.
/// The first offending node in preorder is refused: an unknown name, a constant with a wrong number of arguments, or a hole. At a
/// constant the unknown name comes before the wrong count, and that before its arguments. Handles made before keep their meaning,
/// whatever the answer. Memory that runs out is told by `ScopeFault::Memory`, also where a number does not fit its type.
pub fn scope_term<T: Terms, G: Globals<T::Handle>>(
    alloc: Global,
    terms: &mut T,
    globals: &G,
    names: &[Name],
    surface: &Surface,
) -> Result<T::Handle, ScopeFault>
    // The term, or the first refusal, exactly.
    ensures exact { IsResolved (T.holds terms.new) (T.means terms.new) (spec.scope (arities (G.items globals.now)) names.now surface.now []) result }
    // Older handles mean what they meant.
    ensures kept { Keeps (T.holds terms.old) (T.means terms.old) (T.holds terms.new) (T.means terms.new) }
{
    let mut bound = Vec::new(alloc);
    scope_node(alloc, terms, globals, names, &mut bound, surface)
}

// ---- names

fn same_label(a: &Label, b: &Label) -> bool
    ensures { result ≡ spec.same_label a.now b.now }
{
    match a {
        Label::Plain(name) => match b {
            Label::Plain(other) => name.as_bytes() == other.as_bytes(),
            Label::Level(_) => false,
        },
        Label::Level(k) => match b {
            Label::Plain(_) => false,
            Label::Level(other) => k == other,
        },
    }
}

/// The index of the last entry of a name.
fn last_named(names: &[Name], name: &[u8]) -> Option<usize>
    ensures { result ≡ spec.index_named name.now names.now }
{
    let mut found = None;
    for (i, entry) in names.iter().enumerate() {
        if name == entry.as_bytes() {
            found = Some(names.len() - 1 - i);
        }
    }
    found
}

fn index_in_context(names: &[Name], x: &Label) -> Option<usize>
    ensures { result ≡ spec.index_in_context x.now names.now }
{
    match x {
        Label::Plain(name) => last_named(names, name.as_bytes()),
        Label::Level(k) => {
            let level = *k as usize;
            if level < names.len() {
                Some(names.len() - (level + 1))
            } else {
                None
            }
        }
    }
}

fn is_bound_by(binder: Option<&Label>, x: &Label) -> bool
    ensures { result ≡ is_bound_by binder.entry x.now }
{
    match binder {
        Some(label) => same_label(x, label),
        None => false,
    }
}

fn to_u32(n: usize) -> Result<u32, AllocError>
    ensures { IfOk result (λ m. m ≡ n) }
{
    match u32::try_from(n) {
        Ok(m) => Ok(m),
        Err(_) => Err(AllocError),
    }
}

fn add_u32(m: u32, n: u32) -> Result<u32, AllocError>
    ensures { IfOk result (λ sum. sum ≡ m + n) }
{
    m.checked_add(n).ok_or(AllocError)
}

/// The index of what a label names, behind these binders, the outermost first, in a context whose entries have these names; `None` where
/// nothing has the label. Takes no memory: it fails where the index is above 4,294,967,295.
pub fn index_of(
    names: &[Name],
    bound: &[Option<&Label>],
    x: &Label,
) -> Result<Option<u32>, AllocError>
    ensures { IfOk result (λ i. i ≡ spec.index_of names.now x.now (bound_of bound.now)) }
{
    let mut passed: u32 = 0;
    let mut left = bound.len();
    while left > 0 {
        left -= 1;
        if is_bound_by(bound[left], x) {
            return Ok(Some(passed));
        }
        passed = add_u32(passed, 1)?;
    }
    match index_in_context(names, x) {
        Some(i) => {
            let i = to_u32(i)?;
            Ok(Some(add_u32(passed, i)?))
        }
        None => Ok(None),
    }
}

/// The bytes of a label as a name. Fails for want of memory alone.
pub fn label_name(alloc: Global, x: &Label) -> Result<Name, AllocError>
    ensures { IfOk result (λ n. n ≡ spec.label_text x.now) }
{
    match x {
        Label::Plain(name) => name.copy(alloc),
        Label::Level(k) => {
            let mut text = Vec::new(alloc);
            put_level(&mut text, u64::from(*k))?;
            Name::of(alloc, &text)
        }
    }
}

// ---- nodes

fn scope_variable<T: Terms>(
    alloc: Global,
    terms: &mut T,
    names: &[Name],
    bound: &[Option<&Label>],
    at: u64,
    x: &Label,
) -> Result<T::Handle, ScopeFault>
    ensures exact { IsResolved (T.holds terms.new) (T.means terms.new) (spec.variable at x.now (spec.index_of names.now x.now (bound_of bound.now))) result }
    ensures kept { Keeps (T.holds terms.old) (T.means terms.old) (T.holds terms.new) (T.means terms.new) }
{
    match index_of(names, bound, x)? {
        Some(i) => Ok(terms.make(alloc, View::Var(i))?),
        None => {
            let name = label_name(alloc, x)?;
            Err(ScopeFault::UnknownName { at, name })
        }
    }
}

/// Whether a constant is known and is given as many arguments as it has parameters.
fn check_constant<H, G: Globals<H>>(
    alloc: Global,
    globals: &G,
    at: u64,
    a: &Name,
    given: usize,
) -> Result<(), ScopeFault>
    ensures { IsChecked (spec.fitting at a.now (arities (G.items globals.now) a.now) given) result }
{
    match globals.constant(a) {
        Some(item) => check_count(alloc, at, a, given, item.params.as_slice().len()),
        None => {
            let name = a.copy(alloc)?;
            Err(ScopeFault::UnknownName { at, name })
        }
    }
}

fn check_count(
    alloc: Global,
    at: u64,
    a: &Name,
    given: usize,
    wanted: usize,
) -> Result<(), ScopeFault>
    ensures { IsChecked (spec.fitting at a.now (Some wanted) given) result }
{
    if given == wanted {
        return Ok(());
    }
    let given = to_u32(given)?;
    let wanted = to_u32(wanted)?;
    let name = a.copy(alloc)?;
    Err(ScopeFault::WrongCount {
        at,
        name,
        given,
        wanted,
    })
}

#[cycle(scope)]
#[tactic(auto, using(term_syntax::proofs::ScopeEquations::scope_equations))]
fn scope_node<'a, T: Terms, G: Globals<T::Handle>>(
    alloc: Global,
    terms: &mut T,
    globals: &G,
    names: &[Name],
    bound: &mut Vec<Option<&'a Label>>,
    t: &'a Surface,
) -> Result<T::Handle, ScopeFault>
    ensures exact { IsResolved (T.holds terms.new) (T.means terms.new) (spec.scope (arities (G.items globals.now)) names.now t.now (bound_of bound.old.items)) result }
    ensures kept { Keeps (T.holds terms.old) (T.means terms.old) (T.holds terms.new) (T.means terms.new) }
    ensures bound { OnOk result (bound.new.items ≡ bound.old.items) }
{
    match &t.shape {
        Shape::Star => Ok(terms.make(alloc, View::Star)?),
        Shape::Wild => Err(ScopeFault::Unsolved { at: t.at }),
        Shape::Asked => Err(ScopeFault::Unsolved { at: t.at }),
        Shape::Named(x) => scope_variable(alloc, terms, names, bound, t.at, x),
        Shape::Const(a, us) => {
            check_constant(alloc, globals, t.at, a, us.as_slice().len())?;
            let us = scope_each(alloc, terms, globals, names, bound, us.as_slice())?;
            Ok(terms.make(alloc, View::Const(a, &us))?)
        }
        Shape::App(f, us) => {
            let f = scope_node(alloc, terms, globals, names, bound, f.get())?;
            scope_spine(alloc, terms, globals, names, bound, f, us.as_slice())
        }
        Shape::Lam(x, a, m) => {
            let a = scope_node(alloc, terms, globals, names, bound, a.get())?;
            let m = scope_under(alloc, terms, globals, names, bound, Some(x), m.get())?;
            Ok(terms.make(alloc, View::Lam(a, m))?)
        }
        Shape::Pi(x, a, b) => {
            let a = scope_node(alloc, terms, globals, names, bound, a.get())?;
            let b = scope_under(alloc, terms, globals, names, bound, x.as_ref(), b.get())?;
            Ok(terms.make(alloc, View::Pi(a, b))?)
        }
    }
}

/// Below one more binder.
#[cycle(scope)]
#[tactic(auto, using(crate::proofs::ScopeLaws::pushed))]
fn scope_under<'a, T: Terms, G: Globals<T::Handle>>(
    alloc: Global,
    terms: &mut T,
    globals: &G,
    names: &[Name],
    bound: &mut Vec<Option<&'a Label>>,
    label: Option<&'a Label>,
    t: &'a Surface,
) -> Result<T::Handle, ScopeFault>
    ensures exact { IsResolved (T.holds terms.new) (T.means terms.new) (spec.scope (arities (G.items globals.now)) names.now t.now (option_copied label.entry ∷ bound_of bound.old.items)) result }
    ensures kept { Keeps (T.holds terms.old) (T.means terms.old) (T.holds terms.new) (T.means terms.new) }
    ensures bound { OnOk result (bound.new.items ≡ bound.old.items) }
{
    bound.push(label)?;
    let h = scope_node(alloc, terms, globals, names, bound, t)?;
    bound.pop();
    Ok(h)
}

/// The head with its arguments, from left to right.
#[cycle(scope)]
fn scope_spine<'a, T: Terms, G: Globals<T::Handle>>(
    alloc: Global,
    terms: &mut T,
    globals: &G,
    names: &[Name],
    bound: &mut Vec<Option<&'a Label>>,
    head: T::Handle,
    us: &'a [Surface],
) -> Result<T::Handle, ScopeFault>
    requires { T.holds terms.old head }
    ensures exact { IsResolved (T.holds terms.new) (T.means terms.new) (spec.applied (T.means terms.old head) (below (bound_of bound.old.items) (map (spec.scope (arities (G.items globals.now)) names.now) us.now))) result }
    ensures kept { Keeps (T.holds terms.old) (T.means terms.old) (T.holds terms.new) (T.means terms.new) }
    ensures bound { OnOk result (bound.new.items ≡ bound.old.items) }
{
    let mut h = head;
    for u in us {
        let a = scope_node(alloc, terms, globals, names, bound, u)?;
        h = terms.make(alloc, View::App(h, a))?;
    }
    Ok(h)
}

/// Arguments, from left to right.
#[cycle(scope)]
fn scope_each<'a, T: Terms, G: Globals<T::Handle>>(
    alloc: Global,
    terms: &mut T,
    globals: &G,
    names: &[Name],
    bound: &mut Vec<Option<&'a Label>>,
    us: &'a [Surface],
) -> Result<Vec<T::Handle>, ScopeFault>
    ensures exact { MatchResult result (λ v. AreResolved (T.holds terms.new) (T.means terms.new) (spec.arguments none (below (bound_of bound.old.items) (map (spec.scope (arities (G.items globals.now)) names.now) us.now))) v.items) (λ e. Refuses (spec.arguments none (below (bound_of bound.old.items) (map (spec.scope (arities (G.items globals.now)) names.now) us.now))) e) }
    ensures kept { Keeps (T.holds terms.old) (T.means terms.old) (T.holds terms.new) (T.means terms.new) }
    ensures bound { OnOk result (bound.new.items ≡ bound.old.items) }
{
    let mut out = Vec::new(alloc);
    for u in us {
        out.push(scope_node(alloc, terms, globals, names, bound, u)?)?;
    }
    Ok(out)
}
