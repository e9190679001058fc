//! The fields of the protocol, each with its default and its limit.

ghost use Rattle.std.specs.Prelude.{◌≡◌};
ghost use Rattle.serde_json.specs.View.{view};
ghost use Rattle.repl_json.specs.Field.{value_in};
ghost use Rattle.repl_json.specs.Fields as field;

use crate::field::{flag, number};
use serde_json::Value;

/// The id of an environment; 0 where it is missing.
pub fn env_id(object: &Value) -> Option<u64>
    ensures { result ≡ value_in field.env_id (view object.now) }
{
    number(object, "envId", Some(0), u64::MAX)
}

/// The units of fuel: up to 10,000,000, and 100,000 where they are missing.
pub fn fuel(object: &Value) -> Option<u64>
    ensures { result ≡ value_in field.fuel (view object.now) }
{
    number(object, "fuel", Some(100_000), 10_000_000)
}

/// The id of a state.
pub fn state_id(object: &Value) -> Option<u64>
    ensures { result ≡ value_in field.state_id (view object.now) }
{
    number(object, "stateId", None, u64::MAX)
}

/// The index of an active goal; 0 where it is missing.
pub fn goal_id(object: &Value) -> Option<u64>
    ensures { result ≡ value_in field.goal_id (view object.now) }
{
    number(object, "goalId", Some(0), u64::MAX)
}

/// Whether the state's other goals stay active; so where it is missing.
pub fn auto(object: &Value) -> Option<bool>
    ensures { result ≡ value_in field.auto (view object.now) }
{
    flag(object, "auto", true)
}

/// The id of the state that goes on.
pub fn target(object: &Value) -> Option<u64>
    ensures { result ≡ value_in field.target (view object.now) }
{
    number(object, "target", None, u64::MAX)
}

/// The id of the state whose goals it goes on with.
pub fn branch(object: &Value) -> Option<u64>
    ensures { result ≡ value_in field.branch (view object.now) }
{
    number(object, "branch", None, u64::MAX)
}

/// The least number of entries that are to be made before it; 0 where it is missing.
pub fn after(object: &Value) -> Option<u64>
    ensures { result ≡ value_in field.after (view object.now) }
{
    number(object, "after", Some(0), u64::MAX)
}
