//! Bytes as a JSON object.

ghost use Rattle.std.specs.Prelude.{◌≡◌, option_map, IfOk};
ghost use Rattle.serde_json.specs.Data.{null};
ghost use Rattle.serde_json.specs.View.{view};
ghost use Rattle.repl_json.specs.Field.{value_in};
ghost use Rattle.repl_json.specs.Fields as field;
ghost use Rattle.repl_json.specs.Json.{data_of, object_of};

use crate::field::found;
use serde_json::{Category, Value};
use std::alloc::{AllocError, Global};

/// The JSON value that the bytes are, or `None` exactly where they are none.
///
/// # Errors
/// `AllocError` for want of memory alone.
pub fn value_of(alloc: Global, bytes: &[u8]) -> Result<Option<Value>, AllocError>
    ensures { IfOk result (λ o. option_map view o ≡ data_of bytes.now) }
{
    match Value::from_slice(alloc, bytes) {
        Ok(value) => Ok(Some(value)),
        Err(error) => match error.classify() {
            Category::Memory => Err(AllocError),
            _ => Ok(None),
        },
    }
}

/// The JSON object that the bytes are, or `None` exactly where they are none.
#[tactic(auto, unfolding(crate::specs::Json::object_of))]
pub fn object_of(alloc: Global, bytes: &[u8]) -> Result<Option<Value>, AllocError>
    ensures { IfOk result (λ o. option_map view o ≡ object_of bytes.now) }
{
    let Some(value) = value_of(alloc, bytes)? else {
        return Ok(None);
    };
    if !value.is_object() {
        return Ok(None);
    }
    Ok(Some(value))
}

/// The field `payload`, with null where it is missing.
#[tactic(auto, unfolding(crate::specs::Field::value_in))]
pub fn payload_in<'v>(object: &'v Value, nothing: &'v Value) -> Option<&'v Value>
    requires { view nothing.now ≡ null }
    ensures { option_map (λ v. view v.now) result ≡ value_in field.payload (view object.now) }
{
    let Some(payload) = found(object, "payload") else {
        return Some(nothing);
    };
    if !payload.is_object() {
        return None;
    }
    Some(payload)
}
