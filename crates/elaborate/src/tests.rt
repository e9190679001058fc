//! Each call once in the plain store, with the units that it takes: holes become metavariables in text order, and a refusal says where.

ghost use Rattle.std.specs.Prelude.{◌≡◌, ◌∷◌, [], None, IfOk, codes};
ghost use Rattle.ld_terms.specs.Views.{Keeps};

use crate::elaborating::{check, check_type, synth};
use crate::fault::ElabFault;
use crate::made::Made;
use ld_terms::{Fuel, Item, List, Local, Name, Terms, TreeTerms, View};
use meta_context::{Env, Metas};
use pattern_unify::UnifyFault;
use std::alloc::{AllocError, Global};
use std::test::Fail;
use term_text::read_term;

/// `*`.
fn star<T: Terms>(alloc: Global, terms: &mut T) -> Result<T::Handle, AllocError>
    ensures held { IfOk result (λ h. T.holds terms.new h) }
{
    terms.make(alloc, View::Star)
}

/// What a text gives by itself, without items and in the empty context.
fn alone<T: Terms>(
    alloc: Global,
    terms: &mut T,
    units: &mut Fuel,
    text: &[u8],
) -> Result<Made<T::Handle>, ElabFault<T::Handle>>
    ensures held { IfOk result (λ r. T.holds terms.new r.term × T.holds terms.new r.ty) }
{
    let env = Env::new();
    let metas = Metas::new();
    let empty = Vec::new(alloc);
    match read_term(alloc, text) {
        Ok(t) => synth(alloc, terms, &env, &metas, units, &empty, &t),
        Err(_) => Err(ElabFault::Memory),
    }
}

/// What a text gives as a type, without items and in the empty context.
fn as_type<T: Terms>(
    alloc: Global,
    terms: &mut T,
    units: &mut Fuel,
    text: &[u8],
) -> Result<Made<T::Handle>, ElabFault<T::Handle>>
    ensures held { IfOk result (λ r. T.holds terms.new r.term × T.holds terms.new r.ty) }
{
    let env = Env::new();
    let metas = Metas::new();
    let empty = Vec::new(alloc);
    match read_term(alloc, text) {
        Ok(t) => check_type(alloc, terms, &env, &metas, units, &empty, &t),
        Err(_) => Err(ElabFault::Memory),
    }
}

/// What a text gives against `*`, without items and in the empty context.
fn of_star<T: Terms>(
    alloc: Global,
    terms: &mut T,
    units: &mut Fuel,
    text: &[u8],
) -> Result<Made<T::Handle>, ElabFault<T::Handle>>
    ensures held { IfOk result (λ r. T.holds terms.new r.term × T.holds terms.new r.ty) }
{
    let env = Env::new();
    let metas = Metas::new();
    let empty = Vec::new(alloc);
    let star = star(alloc, terms)?;
    match read_term(alloc, text) {
        Ok(t) => check(alloc, terms, &env, &metas, units, &empty, &t, star),
        Err(_) => Err(ElabFault::Memory),
    }
}

/// The context `A : *`.
fn one_entry<H: Copy>(alloc: Global, star: H) -> Result<Vec<Local<H>>, AllocError>
    ensures { IfOk result (λ v. v.items ≡ record { name = codes "A"; ty = star } ∷ []) }
{
    let name = Name::of(alloc, b"A")?;
    let mut ctx = Vec::new(alloc);
    ctx.push(Local { name, ty: star })?;
    Ok(ctx)
}

/// The environment of the primitive constant `N : *` without parameters.
fn one_item<H: Copy>(alloc: Global, star: H) -> Result<Env<H>, AllocError>
    ensures { IfOk result (λ e. e ≡ record { name = codes "N"; params = []; ty = star; body = None } ∷ []) }
{
    let name = Name::of(alloc, b"N")?;
    let item = Item {
        name,
        params: List::of(Vec::new(alloc)),
        ty: star,
        body: None,
    };
    Env::new().push(alloc, item)
}

/// What a text gives by itself over the item `N : *` in the context `A : *`.
fn over_both<T: Terms>(
    alloc: Global,
    terms: &mut T,
    units: &mut Fuel,
    text: &[u8],
) -> Result<Made<T::Handle>, ElabFault<T::Handle>>
    ensures held { IfOk result (λ r. T.holds terms.new r.term × T.holds terms.new r.ty) }
{
    let star = star(alloc, terms)?;
    let env = one_item(alloc, star)?;
    let ctx = one_entry(alloc, star)?;
    let metas = Metas::new();
    match read_term(alloc, text) {
        Ok(t) => synth(alloc, terms, &env, &metas, units, &ctx, &t),
        Err(_) => Err(ElabFault::Memory),
    }
}

#[test]
fn a_product_is_a_type_for_seven_units(rt: HostRuntime) -> Result<(), Fail> {
    let alloc = rt.alloc();
    let mut terms = TreeTerms::new(alloc)?;
    let mut units = Fuel::new(7);
    match as_type(alloc, &mut terms, &mut units, b"(A : *) -> A -> A") {
        Ok(made) => {
            assert!(rt; matches!(terms.node(made.term), View::Pi(_, _)));
            assert!(rt; matches!(terms.node(made.ty), View::Star));
            assert_eq!(rt; made.metas.next(), 0);
        }
        Err(_) => assert!(rt; false),
    }
    assert_eq!(rt; units.left(), 0);
    let mut few = Fuel::new(6);
    let short = as_type(alloc, &mut terms, &mut few, b"(A : *) -> A -> A");
    assert!(rt; matches!(short, Err(ElabFault::Fuel)));
    Ok(())
}

#[test]
fn holes_are_noted_in_text_order(rt: HostRuntime) -> Result<(), Fail> {
    let alloc = rt.alloc();
    let mut terms = TreeTerms::new(alloc)?;
    let mut units = Fuel::new(1000);
    match as_type(alloc, &mut terms, &mut units, b"(x : ?) -> (y : _) -> ?") {
        Ok(made) => {
            assert_eq!(rt; made.metas.next(), 3);
            assert!(rt; made.goals.as_slice() == [0, 2].as_slice());
            assert!(rt; made.holes.as_slice() == [(1, 16)].as_slice());
        }
        Err(_) => assert!(rt; false),
    }
    Ok(())
}

#[test]
fn a_hole_against_a_type_is_opened(rt: HostRuntime) -> Result<(), Fail> {
    let alloc = rt.alloc();
    let mut terms = TreeTerms::new(alloc)?;
    let mut units = Fuel::new(2);
    match of_star(alloc, &mut terms, &mut units, b"_") {
        Ok(made) => {
            assert!(rt; matches!(terms.node(made.term), View::Meta(0, _)));
            assert!(rt; matches!(terms.node(made.ty), View::Star));
        }
        Err(_) => assert!(rt; false),
    }
    assert_eq!(rt; units.left(), 0);
    Ok(())
}

#[test]
fn a_function_has_a_product_as_its_type(rt: HostRuntime) -> Result<(), Fail> {
    let alloc = rt.alloc();
    let mut terms = TreeTerms::new(alloc)?;
    let mut units = Fuel::new(1000);
    match alone(
        alloc,
        &mut terms,
        &mut units,
        b"fun (A : *) => fun (x : A) => x",
    ) {
        Ok(made) => {
            assert!(rt; matches!(terms.node(made.term), View::Lam(_, _)));
            assert!(rt; matches!(terms.node(made.ty), View::Pi(_, _)));
        }
        Err(_) => assert!(rt; false),
    }
    Ok(())
}

#[test]
fn a_hole_of_no_type_is_refused(rt: HostRuntime) -> Result<(), Fail> {
    let alloc = rt.alloc();
    let mut terms = TreeTerms::new(alloc)?;
    let mut units = Fuel::new(3);
    let refused = alone(alloc, &mut terms, &mut units, b"(?) *");
    assert!(rt; matches!(refused, Err(ElabFault::NoExpected { at: 1 })));
    Ok(())
}

#[test]
fn what_is_no_function_is_refused(rt: HostRuntime) -> Result<(), Fail> {
    let alloc = rt.alloc();
    let mut terms = TreeTerms::new(alloc)?;
    let mut units = Fuel::new(2);
    let refused = alone(alloc, &mut terms, &mut units, b"* *");
    assert!(rt; matches!(refused, Err(ElabFault::NotFunction { depth: 0, .. })));
    assert_eq!(rt; units.left(), 0);
    Ok(())
}

#[test]
fn an_unknown_name_is_refused(rt: HostRuntime) -> Result<(), Fail> {
    let alloc = rt.alloc();
    let mut terms = TreeTerms::new(alloc)?;
    let mut units = Fuel::new(1000);
    let refused = alone(alloc, &mut terms, &mut units, b"fun (A : *) => B");
    match &refused {
        Err(ElabFault::UnknownName { at, name }) => {
            assert_eq!(rt; *at, 15);
            assert!(rt; name.as_bytes() == b"B".as_slice());
        }
        _ => assert!(rt; false),
    }
    Ok(())
}

#[test]
fn a_term_of_another_type_is_refused(rt: HostRuntime) -> Result<(), Fail> {
    let alloc = rt.alloc();
    let mut terms = TreeTerms::new(alloc)?;
    let mut units = Fuel::new(1000);
    let refused = of_star(alloc, &mut terms, &mut units, b"*");
    let is_mismatch = matches!(
        refused,
        Err(ElabFault::Unify(UnifyFault::Mismatch { depth: 0, .. })),
    );
    assert!(rt; is_mismatch);
    Ok(())
}

#[test]
fn a_context_and_an_item_are_seen(rt: HostRuntime) -> Result<(), Fail> {
    let alloc = rt.alloc();
    let mut terms = TreeTerms::new(alloc)?;
    let mut units = Fuel::new(1000);
    match over_both(alloc, &mut terms, &mut units, b"(x : A) -> N()") {
        Ok(made) => assert!(rt; matches!(terms.node(made.ty), View::Star)),
        Err(_) => assert!(rt; false),
    }
    Ok(())
}

#[test]
fn a_wrong_count_is_refused(rt: HostRuntime) -> Result<(), Fail> {
    let alloc = rt.alloc();
    let mut terms = TreeTerms::new(alloc)?;
    let mut units = Fuel::new(1);
    let refused = over_both(alloc, &mut terms, &mut units, b" N(A)");
    let is_count = matches!(
        refused,
        Err(ElabFault::WrongCount {
            at: 1,
            given: 1,
            wanted: 0,
            ..
        }),
    );
    assert!(rt; is_count);
    assert_eq!(rt; units.left(), 0);
    Ok(())
}
