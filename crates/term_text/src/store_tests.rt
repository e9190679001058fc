//! Scoping and printing over a store, at the limits of size and with a constant and a context.

ghost use Rattle.std.specs.Prelude.{IfOk};
ghost use Rattle.ld_terms.specs.Views.{Keeps};
ghost use Rattle.ld_trees.specs.Scoping.{Scoped};

use crate::{Printed, print_term, read_term, scope_term};
use ld_terms::{Decl, Globals, Item, List, Local, Name, Terms, TreeTerms, View};
use std::alloc::{AllocError, Global};
use std::test::Fail;

/// `App(a, b)`.
fn applied<T: Terms>(
    alloc: Global,
    terms: &mut T,
    a: T::Handle,
    b: T::Handle,
) -> Result<T::Handle, AllocError>
    requires left { T.holds terms.old a }
    requires right { T.holds terms.old b }
    requires closed_left { Scoped 0 (T.means terms.old a) }
    requires closed_right { Scoped 0 (T.means terms.old b) }
    ensures held { IfOk result (λ h. T.holds terms.new h) }
    ensures closed { IfOk result (λ h. Scoped 0 (T.means terms.new h)) }
    ensures kept { Keeps (T.holds terms.old) (T.means terms.old) (T.holds terms.new) (T.means terms.new) }
{
    terms.make(alloc, View::App(a, b))
}

fn star<T: Terms>(alloc: Global, terms: &mut T) -> Result<T::Handle, AllocError>
    ensures held { IfOk result (λ h. T.holds terms.new h) }
    ensures closed { IfOk result (λ h. Scoped 0 (T.means terms.new h)) }
    ensures kept { Keeps (T.holds terms.old) (T.means terms.old) (T.holds terms.new) (T.means terms.new) }
{
    terms.make(alloc, View::Star)
}

/// `Meta(0, [a])`, which has one node more than `a` and is one deeper.
fn wrapped<T: Terms>(alloc: Global, terms: &mut T, a: T::Handle) -> Result<T::Handle, AllocError>
    requires held { T.holds terms.old a }
    requires closed { Scoped 0 (T.means terms.old a) }
    ensures held { IfOk result (λ h. T.holds terms.new h) }
    ensures closed { IfOk result (λ h. Scoped 0 (T.means terms.new h)) }
{
    let mut args = Vec::new(alloc);
    args.push(a)?;
    terms.make(alloc, View::Meta(0, &args))
}

/// A tree of depth turns + 1 with 2^(turns + 1) - 1 nodes.
fn balanced<T: Terms>(alloc: Global, terms: &mut T, turns: u64) -> Result<T::Handle, AllocError>
    ensures held { IfOk result (λ h. T.holds terms.new h) }
    ensures closed { IfOk result (λ h. Scoped 0 (T.means terms.new h)) }
{
    let mut h = star(alloc, terms)?;
    let mut left = turns;
    while left > 0 {
        left -= 1;
        h = applied(alloc, terms, h, h)?;
    }
    Ok(h)
}

/// A tree of this depth, at least 1.
fn deep<T: Terms>(alloc: Global, terms: &mut T, depth: u64) -> Result<T::Handle, AllocError>
    ensures held { IfOk result (λ h. T.holds terms.new h) }
    ensures closed { IfOk result (λ h. Scoped 0 (T.means terms.new h)) }
{
    let mut h = star(alloc, terms)?;
    let mut left = depth;
    while left > 1 {
        left -= 1;
        h = wrapped(alloc, terms, h)?;
    }
    Ok(h)
}

/// The depth and the number of nodes of a term that is too large to print, else zeros.
fn size(printed: Printed) -> (u64, u64) {
    match printed {
        Printed::Text(_) => (0, 0),
        Printed::Large { depth, nodes } => (depth, nodes),
    }
}

#[test]
fn a_term_of_65536_nodes_is_printed(rt: HostRuntime) -> Result<(), Fail> {
    let alloc = rt.alloc();
    let mut terms = TreeTerms::new(alloc)?;
    let h = balanced(alloc, &mut terms, 15)?;
    let h = wrapped(alloc, &mut terms, h)?;
    assert_eq!(rt; size(print_term(alloc, &terms, &[], h)?), (0, 0));
    let h = wrapped(alloc, &mut terms, h)?;
    assert_eq!(rt; size(print_term(alloc, &terms, &[], h)?), (18, 65_537));
    Ok(())
}

#[test]
fn a_term_of_depth_512_is_printed(rt: HostRuntime) -> Result<(), Fail> {
    let alloc = rt.alloc();
    let mut terms = TreeTerms::new(alloc)?;
    let h = deep(alloc, &mut terms, 512)?;
    assert_eq!(rt; size(print_term(alloc, &terms, &[], h)?), (0, 0));
    let h = wrapped(alloc, &mut terms, h)?;
    assert_eq!(rt; size(print_term(alloc, &terms, &[], h)?), (513, 513));
    Ok(())
}

/// One item and no metavariable.
#[derive(Drop)]
struct Known<H> {
    item: Item<H>,
}

impl<H: Copy> Globals<H> for Known<H> {
    ghost use Rattle.std.specs.Prelude.{[], ◌∷◌};

    ghost items = { λ s. s.item ∷ [] };

    ghost metas = { λ s. [] };

    fn constant(&self, name: &Name) -> Option<&Item<H>> {
        if self.item.name.same(name) {
            Some(&self.item)
        } else {
            None
        }
    }

    fn meta(&self, _m: u32) -> Option<&Decl<H>> {
        None
    }
}

/// `prim not (x : *) : *`.
fn negation<H: Copy>(alloc: Global, star: H) -> Result<Known<H>, AllocError> {
    let mut params = Vec::new(alloc);
    params.push(Local {
        name: Name::of(alloc, b"x")?,
        ty: star,
    })?;
    Ok(Known {
        item: Item {
            name: Name::of(alloc, b"not")?,
            params: List::of(params),
            ty: star,
            body: None,
        },
    })
}

/// The names A and y.
fn context(alloc: Global) -> Result<Vec<Name>, AllocError> {
    let mut names = Vec::new(alloc);
    names.push(Name::of(alloc, b"A")?)?;
    names.push(Name::of(alloc, b"y")?)?;
    Ok(names)
}

/// `Var(i)`.
fn variable<T: Terms>(alloc: Global, terms: &mut T, i: u32) -> Result<T::Handle, AllocError>
    ensures held { IfOk result (λ h. T.holds terms.new h) }
    ensures kept { Keeps (T.holds terms.old) (T.means terms.old) (T.holds terms.new) (T.means terms.new) }
{
    terms.make(alloc, View::Var(i))
}

/// `not(a)`.
fn negated<T: Terms>(alloc: Global, terms: &mut T, a: T::Handle) -> Result<T::Handle, AllocError>
    requires held { T.holds terms.old a }
    ensures held { IfOk result (λ h. T.holds terms.new h) }
    ensures closed { Scoped 0 (T.means terms.old a) → IfOk result (λ h. Scoped 0 (T.means terms.new h)) }
    ensures kept { Keeps (T.holds terms.old) (T.means terms.old) (T.holds terms.new) (T.means terms.new) }
{
    let name = Name::of(alloc, b"not")?;
    let mut args = Vec::new(alloc);
    args.push(a)?;
    terms.make(alloc, View::Const(&name, &args))
}

/// `Lam(a, m)`.
fn lambda<T: Terms>(
    alloc: Global,
    terms: &mut T,
    a: T::Handle,
    m: T::Handle,
) -> Result<T::Handle, AllocError>
    requires left { T.holds terms.old a }
    requires right { T.holds terms.old m }
    ensures held { IfOk result (λ h. T.holds terms.new h) }
    ensures kept { Keeps (T.holds terms.old) (T.means terms.old) (T.holds terms.new) (T.means terms.new) }
{
    terms.make(alloc, View::Lam(a, m))
}

/// `fun (x : not(A)) => y` below the entries A and y.
fn abstraction<T: Terms>(alloc: Global, terms: &mut T) -> Result<T::Handle, AllocError>
    ensures held { IfOk result (λ h. T.holds terms.new h) }
    ensures kept { Keeps (T.holds terms.old) (T.means terms.old) (T.holds terms.new) (T.means terms.new) }
{
    let one = variable(alloc, terms, 1)?;
    let domain = negated(alloc, terms, one)?;
    lambda(alloc, terms, domain, one)
}

/// Whether a text is scoped as that abstraction.
fn is_scoped<T: Terms>(alloc: Global, terms: &mut T, text: &[u8]) -> Result<bool, AllocError> {
    let star = star(alloc, terms)?;
    let known = negation(alloc, star)?;
    let names = context(alloc)?;
    let wanted = abstraction(alloc, terms)?;
    match read_term(alloc, text) {
        Ok(tree) => match scope_term(alloc, terms, &known, &names, &tree) {
            Ok(h) => Ok(terms.same(h, wanted)),
            Err(_) => Ok(false),
        },
        Err(_) => Ok(false),
    }
}

#[test]
fn names_and_constants_are_resolved(rt: HostRuntime) -> Result<(), Fail> {
    let alloc = rt.alloc();
    let mut terms = TreeTerms::new(alloc)?;
    assert!(rt; is_scoped(alloc, &mut terms, b"fun (x : not(A)) => y")?);
    assert!(rt; is_scoped(alloc, &mut terms, b"fun (%9 : not(%0)) => %1")?);
    assert!(rt; !is_scoped(alloc, &mut terms, b"fun (y : not(A)) => y")?);
    assert!(rt; !is_scoped(alloc, &mut terms, b"fun (x : no(A)) => y")?);
    Ok(())
}

#[test]
fn a_constant_is_printed(rt: HostRuntime) -> Result<(), Fail> {
    let alloc = rt.alloc();
    let mut terms = TreeTerms::new(alloc)?;
    let star = star(alloc, &mut terms)?;
    let h = negated(alloc, &mut terms, star)?;
    let found = match print_term(alloc, &terms, &[], h)? {
        Printed::Text(text) => text.as_slice() == b"not(*)".as_slice(),
        Printed::Large { .. } => false,
    };
    assert!(rt; found);
    Ok(())
}
