ghost use Rattle.std.specs.Prelude.{◌≡◌, ◌∷◌, [], All, IfOk, codes};
ghost use Rattle.ld_terms.specs.Views.{Keeps};
ghost use Rattle.meta_context.specs.Declaring.{declared};

use crate::declaring::{assign, declare};
use crate::fault::MetaFault;
use crate::metas::Metas;
use crate::walk::depends;
use ld_terms::{Local, Name, Terms, TreeTerms, View};
use std::alloc::{AllocError, Global};
use std::test::Fail;

/// `*`.
pub(crate) fn star<T: Terms>(alloc: Global, terms: &mut T) -> Result<T::Handle, AllocError>
    ensures held { IfOk result (λ h. T.holds terms.new h) }
    ensures kept { Keeps (T.holds terms.old) (T.means terms.old) (T.holds terms.new) (T.means terms.new) }
{
    terms.make(alloc, View::Star)
}

/// `* -> b`.
fn behind_star<T: Terms>(
    alloc: Global,
    terms: &mut T,
    b: T::Handle,
) -> Result<T::Handle, AllocError>
    requires { T.holds terms.old b }
    ensures held { IfOk result (λ h. T.holds terms.new h) }
    ensures kept { Keeps (T.holds terms.old) (T.means terms.old) (T.holds terms.new) (T.means terms.new) }
{
    let star = star(alloc, terms)?;
    terms.make(alloc, View::Pi(star, b))
}

/// A type of a depth, at least 1: `*` behind as many products as it is deeper.
fn deep<T: Terms>(alloc: Global, terms: &mut T, depth: u32) -> Result<T::Handle, AllocError>
    ensures held { IfOk result (λ h. T.holds terms.new h) }
{
    let mut h = star(alloc, terms)?;
    let mut left = depth;
    while left > 1 {
        left -= 1;
        h = behind_star(alloc, terms, h)?;
    }
    Ok(h)
}

/// `*`, and types of the depths 4,096 and 4,097.
#[derive(Drop)]
struct Depths<H> {
    star: H,
    most: H,
    more: H,
}

/// Makes these types.
fn make_depths<T: Terms>(alloc: Global, terms: &mut T) -> Result<Depths<T::Handle>, AllocError>
    ensures star { IfOk result (λ d. T.holds terms.new d.star) }
    ensures most { IfOk result (λ d. T.holds terms.new d.most) }
    ensures more { IfOk result (λ d. T.holds terms.new d.more) }
{
    let most = deep(alloc, terms, 4_096)?;
    let more = behind_star(alloc, terms, most)?;
    let star = star(alloc, terms)?;
    Ok(Depths { star, most, more })
}

/// The context `A : ty`.
fn one_entry<H: Copy>(alloc: Global, ty: H) -> Result<Vec<Local<H>>, AllocError>
    ensures { IfOk result (λ v. v.items ≡ record { name = codes "A"; ty = ty } ∷ []) }
{
    let mut entries = Vec::new(alloc);
    entries.push(Local {
        name: Name::of(alloc, b"A")?,
        ty,
    })?;
    Ok(entries)
}

/// Declares a metavariable over the context `A : entry` with a type.
fn declare_behind<T: Terms>(
    alloc: Global,
    metas: &Metas<T::Handle>,
    terms: &T,
    entry: T::Handle,
    ty: T::Handle,
) -> Result<(Metas<T::Handle>, u32), MetaFault>
    requires entry { T.holds terms.now entry }
    requires ty { T.holds terms.now ty }
    ensures { IfOk result (λ r. r.0 ≡ declared (record { name = codes "A"; ty = entry } ∷ []) ty metas.now) }
{
    let ctx = one_entry(alloc, entry)?;
    let (more, number) = declare(alloc, metas, terms, &ctx, ty)?;
    Ok((more, number))
}

/// Declares a metavariable over the empty context with a type.
pub(crate) fn declare_closed<T: Terms>(
    alloc: Global,
    metas: &Metas<T::Handle>,
    terms: &T,
    ty: T::Handle,
) -> Result<(Metas<T::Handle>, u32), MetaFault>
    requires ty { T.holds terms.now ty }
    ensures { IfOk result (λ r. r.0 ≡ declared [] ty metas.now) }
{
    let closed = Vec::new(alloc);
    let (more, number) = declare(alloc, metas, terms, &closed, ty)?;
    Ok((more, number))
}

#[test]
fn a_declared_metavariable_has_the_next_number(rt: HostRuntime) -> Result<(), Fail> {
    let alloc = rt.alloc();
    let mut terms = TreeTerms::new(alloc)?;
    let types = make_depths(alloc, &mut terms)?;
    let none = Metas::new();
    match declare_behind(alloc, &none, &terms, types.star, types.most) {
        Ok((metas, number)) => {
            assert_eq!(rt; number, 0);
            assert_eq!(rt; metas.next(), 1);
            match metas.decl(0) {
                Some(decl) => {
                    assert_eq!(rt; decl.ty, types.most);
                    assert!(rt; decl.value.is_none());
                    assert!(rt;
                        matches!(decl.ctx.as_slice(), [entry] if entry.name.as_bytes() == b"A".as_slice())
                    );
                }
                None => assert!(rt; false),
            }
        }
        Err(_) => assert!(rt; false),
    }
    assert_eq!(rt; none.next(), 0);
    Ok(())
}

#[test]
fn a_deep_type_is_refused(rt: HostRuntime) -> Result<(), Fail> {
    let alloc = rt.alloc();
    let mut terms = TreeTerms::new(alloc)?;
    let types = make_depths(alloc, &mut terms)?;
    let none = Metas::new();
    let of_type = declare_closed(alloc, &none, &terms, types.more);
    assert!(rt; matches!(of_type, Err(MetaFault::TooDeep { m: 0 })));
    match declare_closed(alloc, &none, &terms, types.star) {
        Ok((metas, _)) => {
            let of_entry = declare_behind(alloc, &metas, &terms, types.more, types.star);
            assert!(rt; matches!(of_entry, Err(MetaFault::TooDeep { m: 1 })));
        }
        Err(_) => assert!(rt; false),
    }
    Ok(())
}

/// Declares a metavariable of this type so many times over.
fn declare_often<T: Terms>(
    alloc: Global,
    terms: &T,
    ty: T::Handle,
    count: u32,
) -> Result<Metas<T::Handle>, MetaFault>
    requires ty { T.holds terms.now ty }
{
    let mut metas = Metas::new();
    for _ in 0..count {
        let (more, _) = declare_closed(alloc, &metas, terms, ty)?;
        metas = more;
    }
    Ok(metas)
}

#[test]
fn there_are_65536_metavariables_at_most(rt: HostRuntime) -> Result<(), Fail> {
    let alloc = rt.alloc();
    let mut terms = TreeTerms::new(alloc)?;
    let types = make_depths(alloc, &mut terms)?;
    match declare_often(alloc, &terms, types.star, 65_535) {
        Ok(metas) => match declare_closed(alloc, &metas, &terms, types.star) {
            Ok((full, number)) => {
                assert_eq!(rt; number, 65_535);
                let refused = declare_closed(alloc, &full, &terms, types.more);
                assert!(rt; matches!(refused, Err(MetaFault::TooManyMetas)));
            }
            Err(_) => assert!(rt; false),
        },
        Err(_) => assert!(rt; false),
    }
    Ok(())
}

/// Declares a metavariable of type `*` over the empty context, and gives it a value. `TooManyMetas` stands for a value that depends on it.
fn give_first<T: Terms>(
    alloc: Global,
    terms: &T,
    star: T::Handle,
    value: T::Handle,
) -> Result<Metas<T::Handle>, MetaFault>
    requires star { T.holds terms.now star }
    requires value { T.holds terms.now value }
{
    let none = Metas::new();
    let (metas, _) = declare_closed(alloc, &none, terms, star)?;
    if depends(alloc, terms, &metas, value, 0)? {
        return Err(MetaFault::TooManyMetas);
    }
    assign(alloc, &metas, terms, 0, value)
}

#[test]
fn an_assigned_metavariable_has_its_value(rt: HostRuntime) -> Result<(), Fail> {
    let alloc = rt.alloc();
    let mut terms = TreeTerms::new(alloc)?;
    let types = make_depths(alloc, &mut terms)?;
    match give_first(alloc, &terms, types.star, types.most) {
        Ok(metas) => match metas.decl(0) {
            Some(decl) => {
                assert_eq!(rt; decl.ty, types.star);
                assert_eq!(rt; decl.value, Some(types.most));
            }
            None => assert!(rt; false),
        },
        _ => assert!(rt; false),
    }
    let refused = give_first(alloc, &terms, types.star, types.more);
    assert!(rt; matches!(refused, Err(MetaFault::TooDeep { m: 0 })));
    Ok(())
}

/// A constant with arguments.
fn constant<T: Terms>(
    alloc: Global,
    terms: &mut T,
    name: &[u8],
    args: &[T::Handle],
) -> Result<T::Handle, AllocError>
    requires { All (T.holds terms.old) args.now }
    ensures held { IfOk result (λ h. T.holds terms.new h) }
    ensures kept { Keeps (T.holds terms.old) (T.means terms.old) (T.holds terms.new) (T.means terms.new) }
{
    let name = Name::of(alloc, name)?;
    terms.make(alloc, View::Const(&name, args))
}

/// A metavariable without arguments.
fn hole<T: Terms>(alloc: Global, terms: &mut T, m: u32) -> Result<T::Handle, AllocError>
    ensures held { IfOk result (λ h. T.holds terms.new h) }
    ensures kept { Keeps (T.holds terms.old) (T.means terms.old) (T.holds terms.new) (T.means terms.new) }
{
    terms.make(alloc, View::Meta(m, &[]))
}

/// A constant with one metavariable as its argument.
fn applied<T: Terms>(
    alloc: Global,
    terms: &mut T,
    name: &[u8],
    m: u32,
) -> Result<T::Handle, AllocError>
    ensures held { IfOk result (λ h. T.holds terms.new h) }
    ensures kept { Keeps (T.holds terms.old) (T.means terms.old) (T.holds terms.new) (T.means terms.new) }
{
    let hole = hole(alloc, terms, m)?;
    let mut args = Vec::new(alloc);
    args.push(hole)?;
    constant(alloc, terms, name, &args)
}

/// The types of three goals, and a value.
#[derive(Drop)]
struct Goals<H> {
    numbers: H,
    kind: H,
    value: H,
}

/// `N()`, `K(?1[])` and `s(?2[])`.
fn make_goals<T: Terms>(alloc: Global, terms: &mut T) -> Result<Goals<T::Handle>, AllocError>
    ensures numbers { IfOk result (λ g. T.holds terms.new g.numbers) }
    ensures kind { IfOk result (λ g. T.holds terms.new g.kind) }
    ensures value { IfOk result (λ g. T.holds terms.new g.value) }
{
    let numbers = constant(alloc, terms, b"N", &[])?;
    let kind = applied(alloc, terms, b"K", 1)?;
    let value = applied(alloc, terms, b"s", 2)?;
    Ok(Goals {
        numbers,
        kind,
        value,
    })
}

/// Whether the value depends on a metavariable, where ?0 : N(), ?1 : N() and ?2 : K(?1[]).
fn value_depends<T: Terms>(
    alloc: Global,
    terms: &T,
    goals: &Goals<T::Handle>,
    m: u32,
) -> Result<bool, MetaFault>
    requires numbers { T.holds terms.now goals.now.numbers }
    requires kind { T.holds terms.now goals.now.kind }
    requires value { T.holds terms.now goals.now.value }
{
    let none = Metas::new();
    let (one, _) = declare_closed(alloc, &none, terms, goals.numbers)?;
    let (two, _) = declare_closed(alloc, &one, terms, goals.numbers)?;
    let (three, _) = declare_closed(alloc, &two, terms, goals.kind)?;
    Ok(depends(alloc, terms, &three, goals.value, m)?)
}

#[test]
fn a_value_depends_on_what_its_types_hold(rt: HostRuntime) -> Result<(), Fail> {
    let alloc = rt.alloc();
    let mut terms = TreeTerms::new(alloc)?;
    let goals = make_goals(alloc, &mut terms)?;
    assert!(rt; matches!(value_depends(alloc, &terms, &goals, 0), Ok(false)));
    assert!(rt; matches!(value_depends(alloc, &terms, &goals, 1), Ok(true)));
    assert!(rt; matches!(value_depends(alloc, &terms, &goals, 2), Ok(true)));
    Ok(())
}
