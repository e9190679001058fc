//! What the tests share: small terms, `?0 : *` without a context, and `?1 : *` over an entry `A : *`.

ghost use Rattle.std.specs.Prelude.{◌≡◌, [], ◌∷◌, All, IfOk, Some, codes};
ghost use Rattle.ld_terms.specs.Views.{Keeps};
ghost use Rattle.conversion.specs.Globals.{IsDeclOf};

use crate::fault::UnifyFault;
use crate::metavariables::declare_in;
use ld_terms::{Fuel, Item, List, Local, Name, Terms, View};
use meta_context::{Env, Metas};
use std::alloc::{AllocError, Global};

/// `*`.
pub fn star<T: Terms>(alloc: Global, terms: &mut T) -> Result<T::Handle, AllocError>
    ensures held { IfOk result (λ h. T.holds terms.new h) }
    ensures kept { Keeps (T.holds terms.old) (T.means terms.old) (T.holds terms.new) (T.means terms.new) }
{
    terms.make(alloc, View::Star)
}

/// The last entry.
pub fn last<T: Terms>(alloc: Global, terms: &mut T) -> Result<T::Handle, AllocError>
    ensures held { IfOk result (λ h. T.holds terms.new h) }
    ensures kept { Keeps (T.holds terms.old) (T.means terms.old) (T.holds terms.new) (T.means terms.new) }
{
    terms.make(alloc, View::Var(0))
}

/// A product.
pub fn product<T: Terms>(
    alloc: Global,
    terms: &mut T,
    a: T::Handle,
    b: T::Handle,
) -> Result<T::Handle, AllocError>
    requires left { T.holds terms.old a }
    requires right { T.holds terms.old b }
    ensures held { IfOk result (λ h. T.holds terms.new h) }
    ensures kept { Keeps (T.holds terms.old) (T.means terms.old) (T.holds terms.new) (T.means terms.new) }
{
    terms.make(alloc, View::Pi(a, b))
}

/// `(A : *) -> A`.
pub fn all<T: Terms>(alloc: Global, terms: &mut T) -> Result<T::Handle, AllocError>
    ensures held { IfOk result (λ h. T.holds terms.new h) }
    ensures kept { Keeps (T.holds terms.old) (T.means terms.old) (T.holds terms.new) (T.means terms.new) }
{
    let domain = star(alloc, terms)?;
    let codomain = last(alloc, terms)?;
    product(alloc, terms, domain, codomain)
}

/// `?0[]`.
pub fn bare<T: Terms>(alloc: Global, terms: &mut T) -> Result<T::Handle, AllocError>
    ensures held { IfOk result (λ h. T.holds terms.new h) }
    ensures kept { Keeps (T.holds terms.old) (T.means terms.old) (T.holds terms.new) (T.means terms.new) }
{
    terms.make(alloc, View::Meta(0, &[]))
}

/// `?1[A]`, where `A` is the last entry.
pub fn over_last<T: Terms>(alloc: Global, terms: &mut T) -> Result<T::Handle, AllocError>
    ensures held { IfOk result (λ h. T.holds terms.new h) }
    ensures kept { Keeps (T.holds terms.old) (T.means terms.old) (T.holds terms.new) (T.means terms.new) }
{
    let mut args = Vec::new(alloc);
    args.push(last(alloc, terms)?)?;
    terms.make(alloc, View::Meta(1, &args))
}

/// The context `A : star`.
pub fn one_entry<H: Copy>(alloc: Global, star: H) -> Result<Vec<Local<H>>, AllocError>
    ensures { IfOk result (λ v. v.items ≡ record { name = codes "A"; ty = star } ∷ []) }
{
    let mut entries = Vec::new(alloc);
    entries.push(Local {
        name: Name::of(alloc, b"A")?,
        ty: star,
    })?;
    Ok(entries)
}

/// The metavariable `?0 : *` without a context. It costs a unit, that of the sort of `*`.
pub fn one_goal<T: Terms>(
    alloc: Global,
    terms: &mut T,
    star: T::Handle,
) -> Result<Metas<T::Handle>, UnifyFault<T::Handle>>
    requires { T.holds terms.old star }
    ensures held { IfOk result (λ m. All (IsDeclOf (T.holds terms.new)) m) }
    ensures kept { Keeps (T.holds terms.old) (T.means terms.old) (T.holds terms.new) (T.means terms.new) }
{
    let env = Env::new();
    let none = Metas::new();
    let closed = Vec::new(alloc);
    let (metas, _number) = declare_in(alloc, terms, &env, &none, &mut Fuel::new(1), &closed, star)?;
    Ok(metas)
}

/// These metavariables and one of type `*` over `A : *`.
pub fn with_goal<T: Terms>(
    alloc: Global,
    terms: &mut T,
    metas: &Metas<T::Handle>,
    star: T::Handle,
) -> Result<Metas<T::Handle>, UnifyFault<T::Handle>>
    requires held { All (IsDeclOf (T.holds terms.old)) metas.now }
    requires star { T.holds terms.old star }
    ensures held { IfOk result (λ m. All (IsDeclOf (T.holds terms.new)) m) }
    ensures kept { Keeps (T.holds terms.old) (T.means terms.old) (T.holds terms.new) (T.means terms.new) }
{
    let env = Env::new();
    let ctx = one_entry(alloc, star)?;
    let (more, _number) = declare_in(alloc, terms, &env, metas, &mut Fuel::new(1), &ctx, star)?;
    Ok(more)
}

/// The metavariables `?0` and `?1`.
pub fn two_goals<T: Terms>(
    alloc: Global,
    terms: &mut T,
) -> Result<Metas<T::Handle>, UnifyFault<T::Handle>>
    ensures held { IfOk result (λ m. All (IsDeclOf (T.holds terms.new)) m) }
    ensures kept { Keeps (T.holds terms.old) (T.means terms.old) (T.holds terms.new) (T.means terms.new) }
{
    let star = star(alloc, terms)?;
    let one = one_goal(alloc, terms, star)?;
    with_goal(alloc, terms, &one, star)
}

/// A term applied to `*`.
pub fn with_star<T: Terms>(
    alloc: Global,
    terms: &mut T,
    f: T::Handle,
) -> Result<T::Handle, AllocError>
    requires { T.holds terms.old f }
    ensures { IfOk result (λ h. T.holds terms.new h) }
{
    let argument = star(alloc, terms)?;
    terms.make(alloc, View::App(f, argument))
}

/// `?1[A]` applied to `*` so many times.
pub fn spine<T: Terms>(
    alloc: Global,
    terms: &mut T,
    arguments: u32,
) -> Result<T::Handle, AllocError>
    ensures { IfOk result (λ h. T.holds terms.new h) }
{
    let mut h = over_last(alloc, terms)?;
    let mut left = arguments;
    while left > 0 {
        left -= 1;
        h = with_star(alloc, terms, h)?;
    }
    Ok(h)
}

/// The environment of `def K (A : *) := (A : *) -> A : *`.
pub fn one_item<H: Copy>(alloc: Global, star: H, body: H) -> Result<Env<H>, AllocError>
    ensures { IfOk result (λ e. e ≡ record { name = codes "K"; params = record { name = codes "A"; ty = star } ∷ []; ty = star; body = Some body } ∷ []) }
{
    let item = Item {
        name: Name::of(alloc, b"K")?,
        params: List::of(one_entry(alloc, star)?),
        ty: star,
        body: Some(body),
    };
    let empty = Env::new();
    empty.push(alloc, item)
}

/// `K(h)`.
pub fn applied_constant<T: Terms>(
    alloc: Global,
    terms: &mut T,
    h: T::Handle,
) -> Result<T::Handle, AllocError>
    requires { T.holds terms.old h }
    ensures held { IfOk result (λ h. T.holds terms.new h) }
    ensures kept { Keeps (T.holds terms.old) (T.means terms.old) (T.holds terms.new) (T.means terms.new) }
{
    let mut args = Vec::new(alloc);
    args.push(h)?;
    let name = Name::of(alloc, b"K")?;
    terms.make(alloc, View::Const(&name, &args))
}

/// `K(h -> g)`.
pub fn constant_of_arrow<T: Terms>(
    alloc: Global,
    terms: &mut T,
    h: T::Handle,
    g: T::Handle,
) -> Result<T::Handle, AllocError>
    requires left { T.holds terms.old h }
    requires right { T.holds terms.old g }
    ensures held { IfOk result (λ h. T.holds terms.new h) }
    ensures kept { Keeps (T.holds terms.old) (T.means terms.old) (T.holds terms.new) (T.means terms.new) }
{
    let arrow = product(alloc, terms, h, g)?;
    applied_constant(alloc, terms, arrow)
}
