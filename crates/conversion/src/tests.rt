ghost use Rattle.std.specs.Prelude.{◌≡◌, IfOk, All, Some, [], ◌∷◌};
ghost use Rattle.ld_terms.specs.Views.{Keeps};
ghost use Rattle.conversion.specs.Globals.{AreGlobalsOf};

use crate::converting::conv;
use crate::weak_head::whnf;
use ld_terms::{Decl, Fuel, Globals, Item, List, Local, Name, Terms, TreeTerms, View};
use std::alloc::{AllocError, Global};
use std::test::Fail;

/// One item and one metavariable.
#[derive(Drop)]
struct Small<H> {
    item: Item<H>,
    decl: Decl<H>,
}

impl<H: Copy> Globals<H> for Small<H> {
    ghost use Rattle.std.specs.Prelude.{[], ◌∷◌};

    ghost items = { λ s. s.item ∷ [] };

    ghost metas = { λ s. s.decl ∷ [] };

    fn constant(&self, name: &Name) -> Option<&Item<H>> {
        if self.item.name.same(name) {
            Some(&self.item)
        } else {
            None
        }
    }

    fn meta(&self, m: u32) -> Option<&Decl<H>> {
        if m == 0 { Some(&self.decl) } else { None }
    }
}

/// `def id (x : *) := x : *` and the metavariable 0, which has the value `*`.
fn make_small<H: Copy>(alloc: Global, star: H, zero: H) -> Result<Small<H>, AllocError>
    ensures item { IfOk result (λ s. (s.item.ty ≡ star) × (s.item.body ≡ Some zero) × All (λ l. l.ty ≡ star) s.item.params) }
    ensures decl { IfOk result (λ s. (s.decl.ty ≡ star) × (s.decl.value ≡ Some star) × (s.decl.ctx ≡ [])) }
{
    let mut params = Vec::new(alloc);
    params.push(Local {
        name: Name::of(alloc, b"x")?,
        ty: star,
    })?;
    let item = Item {
        name: Name::of(alloc, b"id")?,
        params: List::of(params),
        ty: star,
        body: Some(zero),
    };
    let decl = Decl {
        ctx: List::of(Vec::new(alloc)),
        ty: star,
        value: Some(star),
    };
    Ok(Small { item, decl })
}

/// The globals with `id(?0[])` and `*`.
#[derive(Drop)]
struct Scene<H> {
    globals: Small<H>,
    term: H,
    star: H,
}

/// `Star`.
fn star<T: Terms>(alloc: Global, terms: &mut T) -> Result<T::Handle, AllocError>
    ensures held { IfOk result (λ h. T.holds terms.new h) }
    ensures kept { Keeps (T.holds terms.old) (T.means terms.old) (T.holds terms.new) (T.means terms.new) }
{
    terms.make(alloc, View::Star)
}

/// `Var(0)`.
fn last_entry<T: Terms>(alloc: Global, terms: &mut T) -> Result<T::Handle, AllocError>
    ensures held { IfOk result (λ h. T.holds terms.new h) }
    ensures kept { Keeps (T.holds terms.old) (T.means terms.old) (T.holds terms.new) (T.means terms.new) }
{
    terms.make(alloc, View::Var(0))
}

/// `id(?0[])`.
fn application<T: Terms>(alloc: Global, terms: &mut T) -> Result<T::Handle, AllocError>
    ensures held { IfOk result (λ h. T.holds terms.new h) }
    ensures kept { Keeps (T.holds terms.old) (T.means terms.old) (T.holds terms.new) (T.means terms.new) }
{
    let mut args = Vec::new(alloc);
    args.push(metavariable(alloc, terms)?)?;
    let name = Name::of(alloc, b"id")?;
    terms.make(alloc, View::Const(&name, &args))
}

/// `?0[]`.
fn metavariable<T: Terms>(alloc: Global, terms: &mut T) -> Result<T::Handle, AllocError>
    ensures held { IfOk result (λ h. T.holds terms.new h) }
    ensures kept { Keeps (T.holds terms.old) (T.means terms.old) (T.holds terms.new) (T.means terms.new) }
{
    let args = Vec::new(alloc);
    terms.make(alloc, View::Meta(0, &args))
}

/// Makes the terms of the scene.
fn make_scene<T: Terms>(alloc: Global, terms: &mut T) -> Result<Scene<T::Handle>, AllocError>
    ensures globals { IfOk result (λ s. AreGlobalsOf (T.holds terms.new) (s.globals.item ∷ []) (s.globals.decl ∷ [])) }
    ensures term { IfOk result (λ s. T.holds terms.new s.term) }
    ensures star { IfOk result (λ s. T.holds terms.new s.star) }
{
    let term = application(alloc, terms)?;
    let zero = last_entry(alloc, terms)?;
    let star = star(alloc, terms)?;
    let globals = make_small(alloc, star, zero)?;
    Ok(Scene {
        globals,
        term,
        star,
    })
}

#[test]
fn constants_and_metavariables_unfold(rt: HostRuntime) -> Result<(), Fail> {
    let mut terms = TreeTerms::new(rt.alloc())?;
    let scene = make_scene(rt.alloc(), &mut terms)?;
    let mut fuel = Fuel::new(5);
    match whnf(
        rt.alloc(),
        &mut terms,
        &scene.globals,
        &mut fuel,
        scene.term,
    ) {
        Ok(form) => assert!(rt; terms.same(form, scene.star)),
        Err(_) => assert!(rt; false),
    }
    assert_eq!(rt; fuel.left(), 3);
    Ok(())
}

#[test]
fn a_redex_is_equal_to_its_form(rt: HostRuntime) -> Result<(), Fail> {
    let mut terms = TreeTerms::new(rt.alloc())?;
    let scene = make_scene(rt.alloc(), &mut terms)?;
    let mut fuel = Fuel::new(5);
    match conv(
        rt.alloc(),
        &mut terms,
        &scene.globals,
        &mut fuel,
        scene.term,
        scene.star,
    ) {
        Ok(equal) => assert!(rt; equal),
        Err(_) => assert!(rt; false),
    }
    assert_eq!(rt; fuel.left(), 2);
    Ok(())
}
