//! `goal.start`.

ghost use Rattle.std.specs.Prelude.{◌≡◌, ℕ, [], IfOk};
ghost use Rattle.term_syntax.specs.Scoping.{scope};
ghost use Rattle.term_text.specs.Scoped.{arities};
ghost use Rattle.meta_context.specs.Plain.{plain_items};
ghost use Rattle.goal_state.specs.Answers.{ShowsStart};
ghost use Rattle.goal_state.specs.Starting.{Started, started};
ghost use Rattle.goal_state.specs.StoredState.{plain_state};
ghost use Rattle.state_tree.specs.Value.{Gives};
ghost use Rattle.command_set.specs.Goals as spec;
ghost use Rattle.command_set.specs.Shown.{IsShownStart};
ghost use Rattle.command_set.specs.Stored.{IsStored};

use crate::environment::Environment;
use crate::proof_state::ProofState;
use goal_state::{GoalState, StartFault};
use ld_terms::{Fuel, Terms};
use meta_context::Env;
use reply_text::{Members, fault_members, goal_members, scope_members, syntax_members};
use state_print::{made_body, print_state};
use state_tree::Worked;
use std::alloc::{AllocError, Global};
use term_text::{ReadFault, Surface, read_term, scope_term};

/// A new state, and the reply that shows it. Fails for want of memory alone.
pub(crate) fn make_state<T: Terms + Drop>(
    alloc: Global,
    state: GoalState<T>,
) -> Result<Worked<Environment<T>, ProofState<T>>, AllocError>
    ensures { IfOk result (λ w. Gives (spec.makes (plain_state T.means state)) w) }
{
    let text = print_state(alloc, &state)?;
    let body = made_body(alloc, &text)?;
    Ok(Worked::NewState(ProofState::new(alloc, state)?, body))
}

/// Why a theorem makes no state, but for the reply's `seq`. Fails for want of memory alone.
fn start_members<T: Terms>(
    alloc: Global,
    terms: &T,
    fault: &StartFault<T::Handle>,
) -> Result<Members, AllocError>
    requires shown { IsShownStart (T.holds terms.now) fault.now }
    ensures { (o : Started) (units left : ℕ) → ShowsStart (T.holds terms.now) (T.means terms.now) o units left fault.now → IfOk result (λ m. spec.begun o ≡ spec.says m) }
{
    match fault {
        StartFault::Kernel(fault) => fault_members(alloc, None, terms, fault),
        StartFault::TooDeep { m } => goal_members(alloc, "tooDeep", *m),
        StartFault::Memory => Err(AllocError),
    }
}

/// The first state of a closed term as a theorem, or its refusal.
fn start_closed<T: Terms + Drop>(
    alloc: Global,
    mut terms: T,
    items: &Env<T::Handle>,
    h: T::Handle,
    units: u64,
) -> Result<Worked<Environment<T>, ProofState<T>>, AllocError>
    requires stored { IsStored (T.holds terms) (T.means terms) items.now }
    requires term { T.holds terms h }
    ensures { IfOk result (λ w. Gives (spec.begun (started (plain_items (T.means terms) items.now) (T.means terms h) units)) w) }
{
    let mut fuel = Fuel::new(units);
    match GoalState::start(alloc, &mut terms, items, &mut fuel, h) {
        Ok(state) => make_state(alloc, state),
        Err(fault) => {
            let members = start_members(alloc, &terms, &fault)?;
            Ok(Worked::Said(members.to_body(alloc)?))
        }
    }
}

/// The first state of a tree of the grammar as a theorem, or its refusal.
fn start_resolved<T: Terms + Drop>(
    alloc: Global,
    mut terms: T,
    items: &Env<T::Handle>,
    surface: &Surface,
    units: u64,
) -> Result<Worked<Environment<T>, ProofState<T>>, AllocError>
    requires stored { IsStored (T.holds terms) (T.means terms) items.now }
    ensures { IfOk result (λ w. Gives (spec.resolved (plain_items (T.means terms) items.now) units (scope (arities items.now) [] surface.now [])) w) }
{
    match scope_term(alloc, &mut terms, items, &[], surface) {
        Ok(h) => start_closed(alloc, terms, items, h, units),
        Err(fault) => {
            let members = scope_members(alloc, None, &fault)?;
            Ok(Worked::Said(members.to_body(alloc)?))
        }
    }
}

/// The first state of a tree of the grammar in an environment, or its refusal.
fn start_surface<T: Terms + Drop>(
    alloc: Global,
    env: &Environment<T>,
    surface: &Surface,
    units: u64,
) -> Result<Worked<Environment<T>, ProofState<T>>, AllocError>
    ensures { IfOk result (λ w. Gives (spec.resolved env.now units (scope (arities env.now) [] surface.now [])) w) }
{
    let stored = env.stored();
    let terms = stored.terms.fork(alloc)?;
    start_resolved(alloc, terms, &stored.items, surface, units)
}

/// The first state of the theorem that a text is, with so many units of fuel for its sort, and the reply; or the refusal. The text is read
/// and scoped as a closed term. Fails for want of memory alone.
#[tactic(auto, unfolding(crate::specs::Goals::start))]
pub fn start<T: Terms + Drop>(
    alloc: Global,
    env: &Environment<T>,
    expr: &[u8],
    units: u64,
) -> Result<Worked<Environment<T>, ProofState<T>>, AllocError>
    ensures { IfOk result (λ w. Gives (spec.start env.now expr.now units) w) }
{
    match read_term(alloc, expr) {
        Ok(surface) => start_surface(alloc, env, &surface, units),
        Err(ReadFault::Syntax { at }) => {
            Ok(Worked::Said(syntax_members(alloc, at)?.to_body(alloc)?))
        }
        Err(ReadFault::Memory) => Err(AllocError),
    }
}
