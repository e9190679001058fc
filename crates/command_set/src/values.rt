//! The work of the server: the value of each command.

ghost use Rattle.std.specs.Prelude.{◌≡◌, IfOk};
ghost use Rattle.state_tree.specs.Value.{Gives, value_at};
ghost use Rattle.command_set.specs.Branches.{continue_with};
ghost use Rattle.command_set.specs.Values.{on, value, no_value};
ghost use Rattle.command_set.specs.declared.values.Program.{Program};
ghost use Rattle.command_set.specs.Replies.{value_reply};

use crate::env_add::add_items;
use crate::env_inspect::{catalog, inspect};
use crate::environment::Environment;
use crate::expr_echo::echo;
use crate::goal_continue::continue_state;
use crate::goal_move::{move_goal, print};
use crate::goal_resume::resume_goals;
use crate::goal_start::start;
use crate::proof_state::ProofState;
use ld_terms::Terms;
use repl_json::{Ask, Bad, Request, bad_body};
use state_tree::{Found, Work, Worked};
use std::alloc::{AllocError, Global};
use std::marker::PhantomData;

/// The commands of the server, with their terms in stores of the type `T`. Each value of it is the same.
#[derive(Debug, Clone, Copy, PartialEq, Eq, Drop)]
pub struct Program<T> {
    store: PhantomData<T>,
}

impl<T> Program<T> {
    /// The commands. Takes no memory.
    pub fn new() -> Program<T>
        ensures { (other : Program T) → other ≡ result }
    {
        Program { store: PhantomData }
    }
}

/// What the work of a request gives.
type Given<T> = Worked<Environment<T>, ProofState<T>>;

/// What stands where a request has no value. No entry ever reads it.
fn no_value<T: Terms>(alloc: Global) -> Result<Given<T>, AllocError>
    ensures { IfOk result (λ w. Gives no_value w) }
{
    Ok(Worked::Said(bad_body(alloc, &Bad::Json)?))
}

/// A target goes on with a branch, where that was found.
fn go_on<T: Terms + Drop>(
    alloc: Global,
    target: &ProofState<T>,
    branch: &Option<ProofState<T>>,
) -> Result<Given<T>, AllocError>
    ensures { IfOk result (λ w. Gives (on branch.now (λ t. continue_with target.now t)) w) }
{
    match branch {
        Some(branch) => continue_state(alloc, target, branch),
        None => no_value(alloc),
    }
}

/// The value of a command. Fails for want of memory alone.
#[tactic(auto, unfolding(crate::specs::Values::value))]
fn try_work<T: Terms + Drop>(
    alloc: Global,
    ask: &Ask,
    found: &Found<Environment<T>, ProofState<T>>,
) -> Result<Given<T>, AllocError>
    ensures { IfOk result (λ w. Gives (value_at value ask.now found.now) w) }
{
    match (ask, &found.env, &found.one) {
        (Ask::Bad(bad), _, _) => Ok(Worked::Said(bad_body(alloc, bad)?)),
        (Ask::Echo { expr, fuel, .. }, Some(env), _) => {
            Ok(Worked::Said(echo(alloc, env, expr.as_slice(), *fuel)?))
        }
        (Ask::EnvAdd { text, fuel, .. }, Some(env), _) => {
            add_items(alloc, env, text.as_slice(), *fuel)
        }
        (Ask::EnvInspect { name, .. }, Some(env), _) => {
            Ok(Worked::Said(inspect(alloc, env, name.as_slice())?))
        }
        (Ask::EnvCatalog { .. }, Some(env), _) => Ok(Worked::Said(catalog(alloc, env)?)),
        (Ask::Start { expr, fuel, .. }, Some(env), _) => {
            start(alloc, env, expr.as_slice(), *fuel)
        }
        (
            Ask::Move {
                goal,
                text,
                fuel,
                auto,
                ..
            },
            _,
            Some(state),
        ) => move_goal(alloc, state, *goal, text.as_slice(), *fuel, *auto),
        (Ask::Continue { .. }, _, Some(target)) => go_on(alloc, target, &found.two),
        (Ask::Resume { goals, .. }, _, Some(state)) => {
            resume_goals(alloc, state, goals.as_slice())
        }
        (Ask::Print { .. }, _, Some(state)) => Ok(Worked::Said(print(alloc, state)?)),
        _ => no_value(alloc),
    }
}

impl<T: Terms + Drop> Work for Program<T> {
    type Env = Environment<T>;

    type State = ProofState<T>;

    ghost value = { value };

    fn work(
        &self,
        alloc: Global,
        request: &Request,
        found: &Found<Environment<T>, ProofState<T>>,
    ) -> Worked<Environment<T>, ProofState<T>> {
        match try_work(alloc, &request.ask, found) {
            Ok(worked) => worked,
            Err(_) => Worked::Memory,
        }
    }

    ghost replies = { value_reply };

    ghost env_clones = { λ x y h. h };

    ghost state_clones = { λ x y h. h };
}
