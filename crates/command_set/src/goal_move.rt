//! `goal.move` and `goal.print`.

ghost use Rattle.std.specs.Prelude.{◌≡◌, ℕ, Some, None, IfOk};
ghost use Rattle.elaborate.specs.Answers.{ShowsElab};
ghost use Rattle.elaboration.specs.Refusals.{Unify};
ghost use Rattle.goal_state.specs.State.{State};
ghost use Rattle.move_set.specs.Answers.{IsBeside, IsRefused, elab_shows_terms, unify_shows_terms};
ghost use Rattle.move_set.specs.Refusals.{Elab, Outcome};
ghost use Rattle.pattern_unify.specs.Answers.{ShowsUnify};
ghost use Rattle.reply_text.specs.Showable as showable;
ghost use Rattle.state_tree.specs.Value.{Gives};
ghost use Rattle.command_set.specs.Goals as spec;
ghost use Rattle.command_set.specs.Shown.{IsShownIn, IsShownUnify, IsShownElab, IsShownMove};

use crate::environment::Environment;
use crate::goal_start::make_state;
use crate::proof_state::ProofState;
use elaborate::ElabFault;
use kernel_check::KernelFault;
use ld_terms::Terms;
use move_set::{MoveFault, Refused, run_move};
use pattern_unify::UnifyFault;
use repl_json::Body;
use reply_text::{
    Member, Members, fault_members, fuel_members, goal_members, no_expected_members,
    no_goal_members, out_of_scope_members, plain_members, syntax_members, taken_members,
    unknown_name_members, unsolved_members, wrong_count_members,
};
use state_print::{print_state, printed_body};
use state_tree::Worked;
use std::alloc::{AllocError, Global};

/// A refusal that shows its terms as the kernel does. They stand in a store.
fn kernel_members<T: Terms>(
    alloc: Global,
    terms: &Option<T>,
    fault: &KernelFault<T::Handle>,
) -> Result<Members, AllocError>
    requires shown { IsShownIn T.holds terms.now fault.now }
    ensures { (t : T) → terms.now ≡ Some t → IfOk result (λ m. m ≡ showable.fault_members (T.means t) None fault.now) }
{
    match terms {
        Some(terms) => fault_members(alloc, None, terms, fault),
        None => unreachable!(),
    }
}

/// Why two terms aren't unified.
fn unify_members<T: Terms>(
    alloc: Global,
    terms: &Option<T>,
    fault: &UnifyFault<T::Handle>,
) -> Result<Members, AllocError>
    requires shown { IsShownUnify T.holds terms.now fault.now }
    ensures { (o : Outcome State) (left : ℕ) (t : T) → IsBeside t terms.now (unify_shows_terms fault.now) → ShowsUnify (λ r. Elab (Unify r)) (T.holds t) (T.means t) o left fault.now → IfOk result (λ m. spec.made o ≡ spec.says m) }
{
    match fault {
        UnifyFault::Kernel(fault) => kernel_members(alloc, terms, fault),
        UnifyFault::Mismatch {
            depth,
            found,
            wanted,
        } => {
            let fault = KernelFault::Mismatch {
                depth: *depth,
                found: *found,
                wanted: *wanted,
            };
            kernel_members(alloc, terms, &fault)
        }
        UnifyFault::NotPattern { m } => goal_members(alloc, "notPattern", *m),
        UnifyFault::Scope { m, level } => out_of_scope_members(alloc, *m, *level),
        UnifyFault::Cycle { m } => goal_members(alloc, "cycle", *m),
        UnifyFault::TooDeep { m } => goal_members(alloc, "tooDeep", *m),
        UnifyFault::TooManyMetas => plain_members(alloc, "tooManyMetas", None),
        UnifyFault::Fuel => fuel_members(alloc, None),
        UnifyFault::Memory => Err(AllocError),
    }
}

/// Why a text isn't elaborated.
fn elab_members<T: Terms>(
    alloc: Global,
    terms: &Option<T>,
    fault: &ElabFault<T::Handle>,
) -> Result<Members, AllocError>
    requires shown { IsShownElab T.holds terms.now fault.now }
    ensures { (o : Outcome State) (left : ℕ) (t : T) → IsBeside t terms.now (elab_shows_terms fault.now) → ShowsElab (λ r. Elab r) (T.holds t) (T.means t) o left fault.now → IfOk result (λ m. spec.made o ≡ spec.says m) }
{
    match fault {
        ElabFault::Unify(fault) => unify_members(alloc, terms, fault),
        ElabFault::UnknownName { at, name } => unknown_name_members(alloc, None, *at, name),
        ElabFault::WrongCount {
            at,
            name,
            given,
            wanted,
        } => wrong_count_members(alloc, None, *at, name, *given, *wanted),
        ElabFault::NoExpected { at } => no_expected_members(alloc, *at),
        ElabFault::NotFunction { depth, term, found } => {
            let fault = KernelFault::NotFunction {
                depth: *depth,
                term: *term,
                found: *found,
            };
            kernel_members(alloc, terms, &fault)
        }
        ElabFault::NotType { depth, term } => {
            let fault = KernelFault::NotType {
                depth: *depth,
                term: *term,
            };
            kernel_members(alloc, terms, &fault)
        }
        ElabFault::TooManyMetas => plain_members(alloc, "tooManyMetas", None),
        ElabFault::Fuel => fuel_members(alloc, None),
        ElabFault::Memory => Err(AllocError),
    }
}

/// A refusal that names a constant.
fn name_members(alloc: Global, error: &str, name: &[u8]) -> Result<Members, AllocError>
    ensures { IfOk result (λ m. m ≡ spec.of_name error.now name.now) }
{
    let before = vec![in alloc;
        Member::string(alloc, "error", error.as_bytes())?,
        Member::string(alloc, "name", name)?,
    ]?;
    Ok(Members::before(alloc, before))
}

/// Why a move makes no state, but for the reply's `seq`. Fails for want of memory alone.
fn move_members<T: Terms>(
    alloc: Global,
    terms: &Option<T>,
    fault: &MoveFault<T::Handle>,
) -> Result<Members, AllocError>
    requires shown { IsShownMove T.holds terms.now fault.now }
    ensures { (o : Outcome State) → IsRefused T.holds T.means o terms.now fault.now → IfOk result (λ m. spec.made o ≡ spec.says m) }
{
    match fault {
        MoveFault::Syntax { at } => syntax_members(alloc, *at),
        MoveFault::NoGoal { index, count } => no_goal_members(alloc, *index, *count),
        MoveFault::NameTaken { name } => taken_members(alloc, None, name.as_bytes()),
        MoveFault::NotProduct => plain_members(alloc, "notProduct", None),
        MoveFault::NoAssumption => plain_members(alloc, "noAssumption", None),
        MoveFault::NotDefined { name } => name_members(alloc, "notDefined", name.as_bytes()),
        MoveFault::NoOccurrence { name } => name_members(alloc, "noOccurrence", name.as_bytes()),
        MoveFault::Unsolved { at } => unsolved_members(alloc, None, *at),
        MoveFault::Elab(fault) => elab_members(alloc, terms, fault),
        MoveFault::TooManyMetas => plain_members(alloc, "tooManyMetas", None),
        MoveFault::Fuel => fuel_members(alloc, None),
        MoveFault::Memory => Err(AllocError),
    }
}

/// The state that a move's text makes on the active goal at an index, with so many units of fuel, and the reply; or the refusal. Fails
/// for want of memory alone.
pub fn move_goal<T: Terms + Drop>(
    alloc: Global,
    state: &ProofState<T>,
    goal: u64,
    text: &[u8],
    units: u64,
    auto: bool,
) -> Result<Worked<Environment<T>, ProofState<T>>, AllocError>
    ensures { IfOk result (λ w. Gives (spec.move_on state.now goal text.now units auto) w) }
{
    match run_move(alloc, state.state(), goal, text, units, auto) {
        Ok(next) => make_state(alloc, next),
        Err(refused) => {
            let Refused { terms, fault } = refused;
            let members = move_members(alloc, &terms, &fault)?;
            Ok(Worked::Said(members.to_body(alloc)?))
        }
    }
}

/// The reply that prints a state. Fails for want of memory alone.
pub fn print<T: Terms + Drop>(alloc: Global, state: &ProofState<T>) -> Result<Body, AllocError>
    ensures { IfOk result (λ b. b ≡ spec.printed state.now) }
{
    let text = print_state(alloc, state.state())?;
    printed_body(alloc, &text)
}
