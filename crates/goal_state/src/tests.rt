ghost use Rattle.std.specs.Prelude.{◌≡◌, IfOk};
ghost use Rattle.ld_trees.specs.Term.{Star, Var, Lam, Pi};
ghost use Rattle.ld_rules.specs.Examples as plain;
ghost use Rattle.ld_terms.specs.Views.{Keeps};

use crate::fault::StartFault;
use crate::state::GoalState;
use kernel_check::KernelFault;
use ld_terms::{Fuel, Terms, TreeTerms, View};
use meta_context::Env;
use std::alloc::{AllocError, Global};
use std::test::Fail;

/// `*`.
pub(crate) fn star<T: Terms>(alloc: Global, terms: &mut T) -> Result<T::Handle, AllocError>
    ensures tree { IfOk result (λ h. T.means terms.new h ≡ Star) }
    ensures held { IfOk result (λ h. T.holds terms.new h) }
    ensures kept { Keeps (T.holds terms.old) (T.means terms.old) (T.holds terms.new) (T.means terms.new) }
{
    terms.make(alloc, View::Star)
}

/// `□`.
fn square<T: Terms>(alloc: Global, terms: &mut T) -> Result<T::Handle, AllocError>
    ensures held { IfOk result (λ h. T.holds terms.new h) }
    ensures kept { Keeps (T.holds terms.old) (T.means terms.old) (T.holds terms.new) (T.means terms.new) }
{
    terms.make(alloc, View::Square)
}

/// The entry that is so many before the last one.
fn variable<T: Terms>(alloc: Global, terms: &mut T, i: u32) -> Result<T::Handle, AllocError>
    ensures tree { IfOk result (λ h. T.means terms.new h ≡ Var i) }
    ensures held { IfOk result (λ h. T.holds terms.new h) }
    ensures kept { Keeps (T.holds terms.old) (T.means terms.old) (T.holds terms.new) (T.means terms.new) }
{
    terms.make(alloc, View::Var(i))
}

/// A product.
pub(crate) fn product<T: Terms>(
    alloc: Global,
    terms: &mut T,
    a: T::Handle,
    b: T::Handle,
) -> Result<T::Handle, AllocError>
    requires left { T.holds terms.old a }
    requires right { T.holds terms.old b }
    ensures tree { IfOk result (λ h. T.means terms.new h ≡ Pi (T.means terms.old a) (T.means terms.old b)) }
    ensures held { IfOk result (λ h. T.holds terms.new h) }
    ensures kept { Keeps (T.holds terms.old) (T.means terms.old) (T.holds terms.new) (T.means terms.new) }
{
    terms.make(alloc, View::Pi(a, b))
}

/// An abstraction.
fn abstraction<T: Terms>(
    alloc: Global,
    terms: &mut T,
    a: T::Handle,
    b: T::Handle,
) -> Result<T::Handle, AllocError>
    requires left { T.holds terms.old a }
    requires right { T.holds terms.old b }
    ensures tree { IfOk result (λ h. T.means terms.new h ≡ Lam (T.means terms.old a) (T.means terms.old b)) }
    ensures held { IfOk result (λ h. T.holds terms.new h) }
    ensures kept { Keeps (T.holds terms.old) (T.means terms.old) (T.holds terms.new) (T.means terms.new) }
{
    terms.make(alloc, View::Lam(a, b))
}

/// `(A : *) -> A -> A`.
fn identity_type<T: Terms>(alloc: Global, terms: &mut T) -> Result<T::Handle, AllocError>
    ensures tree { IfOk result (λ h. T.means terms.new h ≡ plain.identity_type) }
    ensures held { IfOk result (λ h. T.holds terms.new h) }
    ensures kept { Keeps (T.holds terms.old) (T.means terms.old) (T.holds terms.new) (T.means terms.new) }
{
    let star = star(alloc, terms)?;
    let domain = variable(alloc, terms, 0)?;
    let codomain = variable(alloc, terms, 1)?;
    let arrow = product(alloc, terms, domain, codomain)?;
    product(alloc, terms, star, arrow)
}

/// `fun (A : *) => fun (x : A) => x`.
fn identity<T: Terms>(alloc: Global, terms: &mut T) -> Result<T::Handle, AllocError>
    ensures tree { IfOk result (λ h. T.means terms.new h ≡ plain.identity) }
    ensures held { IfOk result (λ h. T.holds terms.new h) }
    ensures kept { Keeps (T.holds terms.old) (T.means terms.old) (T.holds terms.new) (T.means terms.new) }
{
    let star = star(alloc, terms)?;
    let last = variable(alloc, terms, 0)?;
    let body = abstraction(alloc, terms, last, last)?;
    abstraction(alloc, terms, star, body)
}

/// A type of a depth, at least 1: `*` behind as many products as it is deeper.
fn deep<T: Terms>(alloc: Global, terms: &mut T, depth: u32) -> Result<T::Handle, AllocError>
    ensures held { IfOk result (λ h. T.holds terms.new h) }
{
    let mut h = star(alloc, terms)?;
    let mut left = depth;
    while left > 1 {
        left -= 1;
        let domain = star(alloc, terms)?;
        h = product(alloc, terms, domain, h)?;
    }
    Ok(h)
}

/// The first state of a type in the empty environment.
fn start<T: Terms + Drop>(
    alloc: Global,
    terms: &mut T,
    fuel: &mut Fuel,
    ty: T::Handle,
) -> Result<GoalState<T>, StartFault<T::Handle>>
    requires { T.holds terms.old ty }
{
    let env = Env::new();
    GoalState::start(alloc, terms, &env, fuel, ty)
}

#[test]
fn a_state_begins_with_one_goal(rt: HostRuntime) -> Result<(), Fail> {
    let alloc = rt.alloc();
    let mut terms = TreeTerms::new(alloc)?;
    let ty = identity_type(alloc, &mut terms)?;
    let mut fuel = Fuel::new(5);
    match start(alloc, &mut terms, &mut fuel, ty) {
        Ok(state) => {
            assert!(rt; state.goals() == [0].as_slice());
            assert!(rt; !state.solved());
            assert_eq!(rt; state.metas().next(), 1);
            assert_eq!(rt; state.env().len(), 0);
            assert!(rt; state.open_goals(alloc)?.as_slice() == [0].as_slice());
            assert!(rt; state.dormant(alloc)?.as_slice().is_empty());
        }
        Err(_) => assert!(rt; false),
    }
    assert_eq!(rt; fuel.left(), 0);
    Ok(())
}

#[test]
fn refusals_leave_their_units(rt: HostRuntime) -> Result<(), Fail> {
    let alloc = rt.alloc();
    let mut terms = TreeTerms::new(alloc)?;
    let ty = identity_type(alloc, &mut terms)?;
    let mut less = Fuel::new(4);
    let short = start(alloc, &mut terms, &mut less, ty);
    assert!(rt; matches!(short, Err(StartFault::Kernel(KernelFault::Fuel))));
    assert_eq!(rt; less.left(), 0);
    let term = identity(alloc, &mut terms)?;
    let mut fuel = Fuel::new(9);
    let no_type = start(alloc, &mut terms, &mut fuel, term);
    assert!(rt;
        matches!(
            no_type,
            Err(StartFault::Kernel(KernelFault::NotType { depth: 0, .. }))
        )
    );
    assert_eq!(rt; fuel.left(), 4);
    let square = square(alloc, &mut terms)?;
    let of_square = start(alloc, &mut terms, &mut fuel, square);
    assert!(rt;
        matches!(
            of_square,
            Err(StartFault::Kernel(KernelFault::NotType { depth: 0, .. }))
        )
    );
    assert_eq!(rt; fuel.left(), 3);
    Ok(())
}

#[test]
fn a_deep_type_is_refused_before_any_unit(rt: HostRuntime) -> Result<(), Fail> {
    let alloc = rt.alloc();
    let mut terms = TreeTerms::new(alloc)?;
    let mut fuel = Fuel::new(0);
    let more = deep(alloc, &mut terms, 4_097)?;
    let refused = start(alloc, &mut terms, &mut fuel, more);
    assert!(rt; matches!(refused, Err(StartFault::TooDeep { m: 0 })));
    let most = deep(alloc, &mut terms, 4_096)?;
    let short = start(alloc, &mut terms, &mut fuel, most);
    assert!(rt; matches!(short, Err(StartFault::Kernel(KernelFault::Fuel))));
    Ok(())
}
