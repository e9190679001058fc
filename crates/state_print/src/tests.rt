ghost use Rattle.std.specs.Prelude.{◌≡◌, IfOk};
ghost use Rattle.ld_rules.specs.Examples as plain;
ghost use Rattle.ld_terms.specs.Views.{Keeps};

use crate::bodies::{made_body, printed_body};
use crate::printing::print_state;
use crate::text::StateText;
use goal_state::{GoalState, StartFault};
use ld_terms::{Fuel, List, Terms, TreeTerms, View};
use meta_context::Env;
use repl_json::Body;
use std::alloc::{AllocError, Global};
use std::test::Fail;

/// `(A : *) -> A -> A`.
fn identity_type<T: Terms>(alloc: Global, terms: &mut T) -> Result<T::Handle, AllocError>
    ensures tree { IfOk result (λ h. T.means terms.new h ≡ plain.identity_type) }
    ensures held { IfOk result (λ h. T.holds terms.new h) }
    ensures kept { Keeps (T.holds terms.old) (T.means terms.old) (T.holds terms.new) (T.means terms.new) }
{
    let star = terms.make(alloc, View::Star)?;
    let domain = terms.make(alloc, View::Var(0))?;
    let codomain = terms.make(alloc, View::Var(1))?;
    let arrow = terms.make(alloc, View::Pi(domain, codomain))?;
    terms.make(alloc, View::Pi(star, arrow))
}

/// `* -> b`.
fn behind_star<T: Terms>(
    alloc: Global,
    terms: &mut T,
    b: T::Handle,
) -> Result<T::Handle, AllocError>
    requires { T.holds terms.old b }
    ensures { IfOk result (λ h. T.holds terms.new h) }
{
    let star = terms.make(alloc, View::Star)?;
    terms.make(alloc, View::Pi(star, b))
}

/// A type of a depth, at least 1: `*` behind as many products as it is deeper.
fn deep<T: Terms>(alloc: Global, terms: &mut T, depth: u32) -> Result<T::Handle, AllocError>
    ensures { IfOk result (λ h. T.holds terms.new h) }
{
    let mut h = terms.make(alloc, View::Star)?;
    let mut left = depth;
    while left > 1 {
        left -= 1;
        h = behind_star(alloc, terms, h)?;
    }
    Ok(h)
}

/// The first state of a type in the empty environment.
fn start<T: Terms + Drop>(
    alloc: Global,
    terms: &mut T,
    fuel: &mut Fuel,
    ty: T::Handle,
) -> Result<GoalState<T>, StartFault<T::Handle>>
    requires { T.holds terms.old ty }
{
    let env = Env::new();
    GoalState::start(alloc, terms, &env, fuel, ty)
}

/// The first state of a type of a depth.
fn begun_deep<T: Terms + Drop>(
    alloc: Global,
    terms: &mut T,
    depth: u32,
) -> Result<GoalState<T>, StartFault<T::Handle>> {
    let ty = deep(alloc, terms, depth)?;
    let mut fuel = Fuel::new(10_000);
    start(alloc, terms, &mut fuel, ty)
}

/// The first state of `(A : *) -> A -> A`.
fn begun<T: Terms + Drop>(
    alloc: Global,
    terms: &mut T,
) -> Result<GoalState<T>, StartFault<T::Handle>> {
    let ty = identity_type(alloc, terms)?;
    let mut fuel = Fuel::new(5);
    start(alloc, terms, &mut fuel, ty)
}

const GOAL: &[u8] =
    b"[{\"coupled\":[],\"goal\":0,\"target\":\"(%0 : *) -> %0 -> %0\",\"vars\":[]}]";

#[test]
fn an_unsolved_state_shows_its_goals(rt: HostRuntime) -> Result<(), Fail> {
    let alloc = rt.alloc();
    let mut terms = TreeTerms::new(alloc)?;
    match begun(alloc, &mut terms) {
        Ok(state) => {
            let text = print_state(alloc, &state)?;
            assert!(rt; text.goals.as_slice() == GOAL);
            assert!(rt; text.dormant.as_slice() == b"[]".as_slice());
            assert!(rt; !text.solved);
            assert!(rt; text.term.is_none());
            assert!(rt; text.ty.as_slice() == b"\"(%0 : *) -> %0 -> %0\"".as_slice());
        }
        Err(_) => assert!(rt; false),
    }
    Ok(())
}

#[test]
fn a_type_too_deep_to_print_shows_its_size(rt: HostRuntime) -> Result<(), Fail> {
    let alloc = rt.alloc();
    let mut terms = TreeTerms::new(alloc)?;
    match begun_deep(alloc, &mut terms, 513) {
        Ok(state) => {
            let text = print_state(alloc, &state)?;
            let goals: &[u8] =
                b"[{\"coupled\":[],\"goal\":0,\"target\":{\"depth\":513,\"nodes\":1025},\"vars\":[]}]";
            assert!(rt; text.goals.as_slice() == goals);
            assert!(rt; text.ty.as_slice() == b"{\"depth\":513,\"nodes\":1025}".as_slice());
        }
        Err(_) => assert!(rt; false),
    }
    match begun_deep(alloc, &mut terms, 512) {
        Ok(state) => {
            let text = print_state(alloc, &state)?;
            assert_eq!(rt; text.ty.as_slice().len(), 2_558);
        }
        Err(_) => assert!(rt; false),
    }
    Ok(())
}

/// Whether a body has these pieces round its gaps, that of `seq` first.
fn has_pieces(body: &Body, first: &[u8], second: &[u8], third: &[u8]) -> bool {
    body.first.as_slice() == first
        && body.second.as_slice() == second
        && body.third.as_slice() == third
        && !body.id_first
}

/// What is shown of a solved state of the theorem `*`.
fn solved_text(alloc: Global) -> Result<StateText, AllocError> {
    Ok(StateText {
        goals: List::from_slice(alloc, b"[]")?,
        dormant: List::from_slice(alloc, b"[]")?,
        solved: true,
        term: Some(List::from_slice(alloc, b"\"* -> *\"")?),
        ty: List::from_slice(alloc, b"\"*\"")?,
    })
}

#[test]
fn replies_have_gaps(rt: HostRuntime) -> Result<(), Fail> {
    let alloc = rt.alloc();
    let text = solved_text(alloc)?;
    assert!(rt;
        has_pieces(
            &made_body(alloc, &text)?,
            b"{\"dormant\":[],\"goals\":[],\"seq\":",
            b",\"solved\":true,\"stateId\":",
            b"}"
        )
    );
    assert!(rt;
        has_pieces(
            &printed_body(alloc, &text)?,
            b"{\"dormant\":[],\"goals\":[],\"seq\":",
            b",\"solved\":true,\"term\":\"* -> *\",\"type\":\"*\"}",
            b""
        )
    );
    Ok(())
}
