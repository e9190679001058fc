ghost use Rattle.std.specs.Prelude.{◌≡◌, IfOk, All, length};
ghost use Rattle.ld_terms.specs.Views.{Keeps};

use crate::fault::KernelFault;
use crate::kernel::{infer, infer_sort};
use ld_terms::{Decl, Fuel, Globals, Item, Local, Name, Terms, TreeTerms, View};
use std::alloc::{AllocError, Global};
use std::test::Fail;

/// No item and no metavariable.
struct Empty;

impl<H> Globals<H> for Empty {
    ghost use Rattle.std.specs.Prelude.{[]};

    ghost items = { λ _. [] };

    ghost metas = { λ _. [] };

    fn constant(&self, _name: &Name) -> Option<&Item<H>> {
        None
    }

    fn meta(&self, _m: u32) -> Option<&Decl<H>> {
        None
    }
}

/// `fun (A : *) => fun (x : A) => x`.
fn identity<T: Terms>(alloc: Global, terms: &mut T) -> Result<T::Handle, AllocError>
    ensures { IfOk result (λ h. T.holds terms.new h) }
{
    let star = terms.make(alloc, View::Star)?;
    let zero = terms.make(alloc, View::Var(0))?;
    let inner = terms.make(alloc, View::Lam(zero, zero))?;
    terms.make(alloc, View::Lam(star, inner))
}

/// `(fun (A : *) => A) *`.
fn misfit<T: Terms>(alloc: Global, terms: &mut T) -> Result<T::Handle, AllocError>
    ensures { IfOk result (λ h. T.holds terms.new h) }
{
    let zero = terms.make(alloc, View::Var(0))?;
    let star = terms.make(alloc, View::Star)?;
    let function = terms.make(alloc, View::Lam(star, zero))?;
    terms.make(alloc, View::App(function, star))
}

#[test]
fn the_identity_spends_five(rt: HostRuntime) -> Result<(), Fail> {
    let mut terms = TreeTerms::new(rt.alloc())?;
    let h = identity(rt.alloc(), &mut terms)?;
    let none = Vec::new(rt.alloc());
    let mut fuel = Fuel::new(5);
    let found = infer(rt.alloc(), &mut terms, &Empty, &mut fuel, &none, h);
    assert!(rt; found.is_ok());
    assert!(rt; fuel.left() == 0);
    let mut less = Fuel::new(4);
    let short = infer(rt.alloc(), &mut terms, &Empty, &mut less, &none, h);
    assert!(rt; matches!(short, Err(KernelFault::Fuel)));
    Ok(())
}

#[test]
fn a_type_is_no_argument_of_a_type(rt: HostRuntime) -> Result<(), Fail> {
    let mut terms = TreeTerms::new(rt.alloc())?;
    let h = misfit(rt.alloc(), &mut terms)?;
    let none = Vec::new(rt.alloc());
    let mut fuel = Fuel::new(100);
    match infer(rt.alloc(), &mut terms, &Empty, &mut fuel, &none, h) {
        Err(
            KernelFault::Mismatch {
                depth,
                found,
                wanted,
            },
        ) => {
            assert!(rt; depth == 0);
            assert!(rt; matches!(terms.node(found), View::Square));
            assert!(rt; matches!(terms.node(wanted), View::Star));
        }
        _ => assert!(rt; false),
    }
    assert!(rt; fuel.left() == 94);
    Ok(())
}

/// `x`, the last entry of its context, and `*`.
fn variable_and_star<T: Terms>(
    alloc: Global,
    terms: &mut T,
) -> Result<(T::Handle, T::Handle), AllocError>
    ensures { IfOk result (λ p. T.holds terms.new p.0 × T.holds terms.new p.1) }
{
    let zero = terms.make(alloc, View::Var(0))?;
    let star = terms.make(alloc, View::Star)?;
    Ok((zero, star))
}

/// The context `x : *`.
fn one_entry<H: Copy>(alloc: Global, star: H) -> Result<Vec<Local<H>>, AllocError>
    ensures entries { IfOk result (λ v. All (λ l. l.ty ≡ star) v.items) }
    ensures one { IfOk result (λ v. length v.items ≡ 1) }
{
    let mut entries = Vec::new(alloc);
    entries.push(Local {
        name: Name::of(alloc, b"x")?,
        ty: star,
    })?;
    Ok(entries)
}

#[test]
fn a_variable_of_type_star_has_a_sort(rt: HostRuntime) -> Result<(), Fail> {
    let mut terms = TreeTerms::new(rt.alloc())?;
    let (zero, star) = variable_and_star(rt.alloc(), &mut terms)?;
    let ctx = one_entry(rt.alloc(), star)?;
    let mut fuel = Fuel::new(1);
    match infer_sort(rt.alloc(), &mut terms, &Empty, &mut fuel, &ctx, zero) {
        Ok(sort) => assert!(rt; matches!(terms.node(sort), View::Star)),
        Err(_) => assert!(rt; false),
    }
    Ok(())
}
