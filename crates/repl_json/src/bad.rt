//! What a line that is no request is answered.

ghost use Rattle.std.specs.Prelude.{◌≡◌, IfOk};
ghost use Rattle.repl_json.specs.Bad.{bad_front, bad_body as body_of};

use crate::quote::push_quoted;
use crate::reply::Body;
use crate::request::Bad;
use itoa::Buffer;
use ld_terms::List;
use std::alloc::{AllocError, Global};

/// The reply up to the number of entries.
fn bad_front(alloc: Global, bad: &Bad) -> Result<Vec<u8>, AllocError>
    ensures { IfOk result (λ v. v.items ≡ bad_front bad.now) }
{
    match bad {
        Bad::LineTooLong { length } => {
            let mut buffer = Buffer::new();
            let mut text = Vec::from_slice(alloc, b"{\"error\":\"lineTooLong\",\"length\":")?;
            text.extend_from_slice(buffer.format(*length).as_bytes())?;
            text.extend_from_slice(b",\"seq\":")?;
            Ok(text)
        }
        Bad::Json => Vec::from_slice(alloc, b"{\"error\":\"json\",\"seq\":"),
        Bad::Command => Vec::from_slice(alloc, b"{\"error\":\"command\",\"seq\":"),
        Bad::Field { name } => {
            let mut text = Vec::from_slice(alloc, b"{\"error\":\"field\",\"field\":")?;
            push_quoted(&mut text, name.as_slice())?;
            text.extend_from_slice(b",\"seq\":")?;
            Ok(text)
        }
    }
}

/// The reply to a line that is no request, with the gap for the number of entries. The name of a field stands in it as a JSON
/// string. Fails for want of memory alone.
#[tactic(auto, unfolding(crate::specs::Bad::bad_body))]
pub fn bad_body(alloc: Global, bad: &Bad) -> Result<Body, AllocError>
    ensures { IfOk result (λ body. body ≡ body_of bad.now) }
{
    let first = bad_front(alloc, bad)?;
    let second = Vec::from_slice(alloc, b"}")?;
    Ok(Body {
        first: List::of(first),
        second: List::of(second),
        third: List::of(Vec::new(alloc)),
        id_first: false,
    })
}
