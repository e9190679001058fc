//! The fields that are lists.

ghost use Rattle.std.specs.Prelude.{◌≡◌, map, option_map, IfOk};
ghost use Rattle.serde_json.specs.View.{view};
ghost use Rattle.repl_json.specs.Field.{value_in, each, whole_number, greatest_number};
ghost use Rattle.repl_json.specs.Fields as field;
ghost use Rattle.repl_json.specs.Fields.{try_of, may_be_tried};
ghost use Rattle.repl_json.specs.Table.{with_after};

use crate::field::{text, things, whole_number};
use crate::fields::{auto, fuel, goal_id};
use crate::request::{Ask, Request};
use ld_terms::List;
use serde_json::Value;
use std::alloc::{AllocError, Global};

/// The numbers that values are, or `None` where one of them is none.
fn numbers_of(alloc: Global, values: &[Value]) -> Result<Option<Vec<u64>>, AllocError>
    ensures { IfOk result (λ o. option_map (λ numbers. numbers.items) o ≡ each (λ v. whole_number greatest_number (view v)) values.now) }
{
    let mut numbers = Vec::with_capacity(alloc, values.len())?;
    for value in values {
        let Some(number) = whole_number(value, u64::MAX) else {
            return Ok(None);
        };
        numbers.push(number)?;
    }
    Ok(Some(numbers))
}

/// A list of goals.
pub fn goals(alloc: Global, object: &Value) -> Result<Option<List<u64>>, AllocError>
    ensures { IfOk result (λ o. o ≡ value_in field.goals (view object.now)) }
{
    let Some(values) = things(object, "goals") else {
        return Ok(None);
    };
    match numbers_of(alloc, values)? {
        Some(numbers) => Ok(Some(List::of(numbers))),
        None => Ok(None),
    }
}

/// The move on a state that a value is, or `None` where it is none.
#[tactic(auto, unfolding(crate::specs::Fields::try_of))]
fn try_of(alloc: Global, state: u64, value: &Value) -> Result<Option<Ask>, AllocError>
    ensures { IfOk result (λ o. o ≡ try_of state (view value.now)) }
{
    if !value.is_object() {
        return Ok(None);
    }
    let Some(text) = text(value, "move") else {
        return Ok(None);
    };
    let Some(goal) = goal_id(value) else {
        return Ok(None);
    };
    let Some(fuel) = fuel(value) else {
        return Ok(None);
    };
    let Some(auto) = auto(value) else {
        return Ok(None);
    };
    let text = List::from_slice(alloc, text.as_bytes())?;
    Ok(Some(Ask::Move {
        state,
        goal,
        text,
        fuel,
        auto,
    }))
}

/// The requests to try moves on a state that values are, or `None` where one of them is none.
fn tries_of(
    alloc: Global,
    state: u64,
    after: u64,
    values: &[Value],
) -> Result<Option<Vec<Request>>, AllocError>
    ensures { IfOk result (λ o. option_map (λ requests. requests.items) o ≡ each (λ v. option_map (with_after after) (try_of state (view v))) values.now) }
{
    let mut requests = Vec::with_capacity(alloc, values.len())?;
    for value in values {
        let Some(ask) = try_of(alloc, state, value)? else {
            return Ok(None);
        };
        requests.push(Request { after, ask })?;
    }
    Ok(Some(requests))
}

/// Whether so many tries may stand in one command.
fn may_be_tried(count: usize) -> bool
    ensures { result ≡ may_be_tried count }
{
    1 <= count && count <= 64
}

/// The requests of 1 to 64 tries.
pub fn tries(
    alloc: Global,
    state: u64,
    after: u64,
    object: &Value,
) -> Result<Option<Vec<Request>>, AllocError>
    ensures { IfOk result (λ o. option_map (λ requests. requests.items) o ≡ option_map (map (with_after after)) (value_in (field.tries state) (view object.now))) }
{
    let Some(values) = things(object, "tries") else {
        return Ok(None);
    };
    if !may_be_tried(values.len()) {
        return Ok(None);
    }
    tries_of(alloc, state, after, values)
}
