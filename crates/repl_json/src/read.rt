//! The requests of a line.

ghost use Rattle.std.specs.Prelude.{◌≡◌, ◌≤◌, IfOk, Some, false, length};
ghost use Rattle.serde_json.specs.View.{view};
ghost use Rattle.repl_json.specs.Request.{longest_line, of_object, of_payload, payload_of, requests_by, requests_of};
ghost use Rattle.repl_json.specs.Words.{is_blank_line};

use crate::asked::{asked, one, refuse, refuse_field};
use crate::command::command_named;
use crate::field::text;
use crate::payload::{object_of, payload_in};
use crate::request::{Bad, Request};
use crate::words::{begins_object, from_word, is_blank_line, split_word};
use ld_terms::List;
use serde_json::Value;
use std::alloc::{AllocError, Global};

/// The requests of a command's word with its payload.
#[tactic(auto, unfolding(crate::specs::Request::requests_by))]
fn requests_by(alloc: Global, word: &[u8], payload: &Value) -> Result<List<Request>, AllocError>
    ensures { IfOk result (λ rs. rs ≡ requests_by word.now (view payload.now)) }
{
    let Some(command) = command_named(word) else {
        return one(alloc, refuse(Bad::Command));
    };
    asked(alloc, command, payload)
}

/// The requests of an object with its command and its payload.
fn requests_of_object(alloc: Global, object: &Value) -> Result<List<Request>, AllocError>
    ensures { IfOk result (λ rs. rs ≡ of_object (Some (view object.now))) }
{
    let Some(word) = text(object, "cmd") else {
        return one(alloc, refuse_field(alloc, "cmd")?);
    };
    let nothing = Value::Null;
    let Some(payload) = payload_in(object, &nothing) else {
        return one(alloc, refuse_field(alloc, "payload")?);
    };
    requests_by(alloc, word.as_bytes(), payload)
}

/// The requests of a command's word and what stands behind it.
fn requests_of_word(alloc: Global, word: &[u8], rest: &[u8]) -> Result<List<Request>, AllocError>
    ensures { IfOk result (λ rs. rs ≡ of_payload word.now (payload_of rest.now)) }
{
    if is_blank_line(rest) {
        return requests_by(alloc, word, &Value::Null);
    }
    let Some(payload) = object_of(alloc, rest)? else {
        return one(alloc, refuse(Bad::Json));
    };
    requests_by(alloc, word, &payload)
}

/// The requests of a line that isn't blank and has at most 65,536 bytes, in order: one, or one for each try of `goal.tries`.
///
/// # Errors
/// `AllocError` for want of memory alone.
#[tactic(auto, unfolding(crate::specs::Request::requests_of))]
pub fn read_request(alloc: Global, line: &[u8]) -> Result<List<Request>, AllocError>
    requires not_blank { is_blank_line line.now ≡ false }
    requires short { length line.now ≤ longest_line }
    ensures { IfOk result (λ rs. rs ≡ requests_of line.now) }
{
    let front = from_word(line);
    if !begins_object(front) {
        let (word, rest) = split_word(front);
        return requests_of_word(alloc, word, rest);
    }
    let Some(object) = object_of(alloc, front)? else {
        return one(alloc, refuse(Bad::Json));
    };
    requests_of_object(alloc, &object)
}
