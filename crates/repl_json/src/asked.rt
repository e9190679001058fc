//! What each command asks, by its fields in order.

ghost use Rattle.std.specs.Prelude.{◌≡◌, ◌∷◌, [], IfOk};
ghost use Rattle.serde_json.specs.View.{view};
ghost use Rattle.repl_json.specs.Table.{refused, or_refused, all_or_refused, behind, asked};
ghost use Rattle.repl_json.specs.Table as table;
ghost use Rattle.repl_json.specs.declared.request.Bad.TheVariants as bad;

use crate::command::Command;
use crate::field::text;
use crate::fields::{after, auto, branch, env_id, fuel, goal_id, state_id, target};
use crate::lists::{goals, tries};
use crate::request::{Ask, Bad, Request};
use ld_terms::{Bytes, List};
use serde_json::Value;
use std::alloc::{AllocError, Global};

/// A list of one request.
pub fn one(alloc: Global, request: Request) -> Result<List<Request>, AllocError>
    ensures { IfOk result (λ rs. rs ≡ request ∷ []) }
{
    let requests = vec![in alloc; request]?;
    Ok(List::of(requests))
}

/// A request that is refused.
pub fn refuse(bad: Bad) -> Request
    ensures { result ≡ refused bad }
{
    Request {
        after: 0,
        ask: Ask::Bad(bad),
    }
}

/// A request whose field of this name is refused.
pub fn refuse_field(alloc: Global, name: &str) -> Result<Request, AllocError>
    ensures { IfOk result (λ r. r ≡ refused (bad.Field name.now)) }
{
    let name = List::from_slice(alloc, name.as_bytes())?;
    Ok(refuse(Bad::Field { name }))
}

/// The bytes of a text.
fn owned(alloc: Global, text: &str) -> Result<Bytes, AllocError>
    ensures { IfOk result (λ bytes. bytes ≡ text.now) }
{
    List::from_slice(alloc, text.as_bytes())
}

/// A request, with `after`, which is the last field of each command.
fn behind(alloc: Global, payload: &Value, ask: Ask) -> Result<Request, AllocError>
    ensures { IfOk result (λ r. r ≡ or_refused (behind (view payload.now) ask)) }
{
    match after(payload) {
        Some(after) => Ok(Request { after, ask }),
        None => refuse_field(alloc, "after"),
    }
}

/// `expr.echo`.
#[tactic(auto, unfolding(crate::specs::Table::echo))]
fn echo(alloc: Global, payload: &Value) -> Result<Request, AllocError>
    ensures { IfOk result (λ r. r ≡ or_refused (table.echo (view payload.now))) }
{
    let Some(expr) = text(payload, "expr") else {
        return refuse_field(alloc, "expr");
    };
    let Some(env) = env_id(payload) else {
        return refuse_field(alloc, "envId");
    };
    let Some(fuel) = fuel(payload) else {
        return refuse_field(alloc, "fuel");
    };
    let expr = owned(alloc, expr)?;
    let ask = Ask::Echo { env, expr, fuel };
    behind(alloc, payload, ask)
}

/// `env.add`.
#[tactic(auto, unfolding(crate::specs::Table::env_add))]
fn env_add(alloc: Global, payload: &Value) -> Result<Request, AllocError>
    ensures { IfOk result (λ r. r ≡ or_refused (table.env_add (view payload.now))) }
{
    let Some(text) = text(payload, "text") else {
        return refuse_field(alloc, "text");
    };
    let Some(env) = env_id(payload) else {
        return refuse_field(alloc, "envId");
    };
    let Some(fuel) = fuel(payload) else {
        return refuse_field(alloc, "fuel");
    };
    let text = owned(alloc, text)?;
    let ask = Ask::EnvAdd { env, text, fuel };
    behind(alloc, payload, ask)
}

/// `env.inspect`.
#[tactic(auto, unfolding(crate::specs::Table::env_inspect))]
fn env_inspect(alloc: Global, payload: &Value) -> Result<Request, AllocError>
    ensures { IfOk result (λ r. r ≡ or_refused (table.env_inspect (view payload.now))) }
{
    let Some(name) = text(payload, "name") else {
        return refuse_field(alloc, "name");
    };
    let Some(env) = env_id(payload) else {
        return refuse_field(alloc, "envId");
    };
    let name = owned(alloc, name)?;
    let ask = Ask::EnvInspect { env, name };
    behind(alloc, payload, ask)
}

/// `env.catalog`.
#[tactic(auto, unfolding(crate::specs::Table::env_catalog))]
fn env_catalog(alloc: Global, payload: &Value) -> Result<Request, AllocError>
    ensures { IfOk result (λ r. r ≡ or_refused (table.env_catalog (view payload.now))) }
{
    let Some(env) = env_id(payload) else {
        return refuse_field(alloc, "envId");
    };
    let ask = Ask::EnvCatalog { env };
    behind(alloc, payload, ask)
}

/// `goal.start`.
#[tactic(auto, unfolding(crate::specs::Table::start))]
fn start(alloc: Global, payload: &Value) -> Result<Request, AllocError>
    ensures { IfOk result (λ r. r ≡ or_refused (table.start (view payload.now))) }
{
    let Some(expr) = text(payload, "expr") else {
        return refuse_field(alloc, "expr");
    };
    let Some(env) = env_id(payload) else {
        return refuse_field(alloc, "envId");
    };
    let Some(fuel) = fuel(payload) else {
        return refuse_field(alloc, "fuel");
    };
    let expr = owned(alloc, expr)?;
    let ask = Ask::Start { env, expr, fuel };
    behind(alloc, payload, ask)
}

/// `goal.move`.
#[tactic(auto, unfolding(crate::specs::Table::move_on))]
fn move_on(alloc: Global, payload: &Value) -> Result<Request, AllocError>
    ensures { IfOk result (λ r. r ≡ or_refused (table.move_on (view payload.now))) }
{
    let Some(state) = state_id(payload) else {
        return refuse_field(alloc, "stateId");
    };
    let Some(text) = text(payload, "move") else {
        return refuse_field(alloc, "move");
    };
    let Some(goal) = goal_id(payload) else {
        return refuse_field(alloc, "goalId");
    };
    let Some(fuel) = fuel(payload) else {
        return refuse_field(alloc, "fuel");
    };
    let Some(auto) = auto(payload) else {
        return refuse_field(alloc, "auto");
    };
    let text = owned(alloc, text)?;
    let ask = Ask::Move {
        state,
        goal,
        text,
        fuel,
        auto,
    };
    behind(alloc, payload, ask)
}

/// `goal.continue`.
#[tactic(auto, unfolding(crate::specs::Table::continue_with))]
fn continue_with(alloc: Global, payload: &Value) -> Result<Request, AllocError>
    ensures { IfOk result (λ r. r ≡ or_refused (table.continue_with (view payload.now))) }
{
    let Some(target) = target(payload) else {
        return refuse_field(alloc, "target");
    };
    let Some(branch) = branch(payload) else {
        return refuse_field(alloc, "branch");
    };
    let ask = Ask::Continue { target, branch };
    behind(alloc, payload, ask)
}

/// `goal.resume`.
#[tactic(auto, unfolding(crate::specs::Table::resume))]
fn resume(alloc: Global, payload: &Value) -> Result<Request, AllocError>
    ensures { IfOk result (λ r. r ≡ or_refused (table.resume (view payload.now))) }
{
    let Some(state) = state_id(payload) else {
        return refuse_field(alloc, "stateId");
    };
    let Some(goals) = goals(alloc, payload)? else {
        return refuse_field(alloc, "goals");
    };
    let ask = Ask::Resume { state, goals };
    behind(alloc, payload, ask)
}

/// `goal.print`.
#[tactic(auto, unfolding(crate::specs::Table::print))]
fn print(alloc: Global, payload: &Value) -> Result<Request, AllocError>
    ensures { IfOk result (λ r. r ≡ or_refused (table.print (view payload.now))) }
{
    let Some(state) = state_id(payload) else {
        return refuse_field(alloc, "stateId");
    };
    let ask = Ask::Print { state };
    behind(alloc, payload, ask)
}

/// `goal.delete`.
#[tactic(auto, unfolding(crate::specs::Table::delete))]
fn delete(alloc: Global, payload: &Value) -> Result<Request, AllocError>
    ensures { IfOk result (λ r. r ≡ or_refused (table.delete (view payload.now))) }
{
    let Some(state) = state_id(payload) else {
        return refuse_field(alloc, "stateId");
    };
    let ask = Ask::Delete { state };
    behind(alloc, payload, ask)
}

/// `goal.tries`: each try is a request of its own.
#[tactic(auto, unfolding(crate::specs::Table::try_all))]
fn try_all(alloc: Global, payload: &Value) -> Result<List<Request>, AllocError>
    ensures { IfOk result (λ rs. rs ≡ all_or_refused (table.try_all (view payload.now))) }
{
    let Some(state) = state_id(payload) else {
        return one(alloc, refuse_field(alloc, "stateId")?);
    };
    let last = after(payload);
    let Some(requests) = tries(alloc, state, last.unwrap_or(0), payload)? else {
        return one(alloc, refuse_field(alloc, "tries")?);
    };
    if last.is_none() {
        return one(alloc, refuse_field(alloc, "after")?);
    }
    Ok(List::of(requests))
}

/// The requests of a command.
#[tactic(auto, unfolding(crate::specs::Table::asked))]
pub fn asked(alloc: Global, command: Command, payload: &Value) -> Result<List<Request>, AllocError>
    ensures { IfOk result (λ rs. rs ≡ asked command (view payload.now)) }
{
    match command {
        Command::Echo => one(alloc, echo(alloc, payload)?),
        Command::EnvAdd => one(alloc, env_add(alloc, payload)?),
        Command::EnvInspect => one(alloc, env_inspect(alloc, payload)?),
        Command::EnvCatalog => one(alloc, env_catalog(alloc, payload)?),
        Command::Start => one(alloc, start(alloc, payload)?),
        Command::Move => one(alloc, move_on(alloc, payload)?),
        Command::Tries => try_all(alloc, payload),
        Command::Continue => one(alloc, continue_with(alloc, payload)?),
        Command::Resume => one(alloc, resume(alloc, payload)?),
        Command::Print => one(alloc, print(alloc, payload)?),
        Command::Delete => one(alloc, delete(alloc, payload)?),
        Command::Reset => one(alloc, behind(alloc, payload, Ask::Reset)?),
        Command::Stat => one(alloc, behind(alloc, payload, Ask::Stat)?),
    }
}
