//! Lists of numbers.

ghost use Rattle.std.specs.Prelude.{◌≡◌, IfOk, decimal};
ghost use Rattle.state_print.specs.Pieces as spec;

use itoa::Buffer;
use reply_text::array_text;
use std::alloc::{AllocError, Global};

/// A number in decimal digits.
fn number_text(alloc: Global, n: u32) -> Result<Vec<u8>, AllocError>
    ensures { IfOk result (λ v. v.items ≡ decimal n) }
{
    let mut buffer = Buffer::new();
    Vec::from_slice(alloc, buffer.format(n).as_bytes())
}

/// Numbers as a JSON list. Fails for want of memory alone.
pub(crate) fn numbers_json(alloc: Global, numbers: &[u32]) -> Result<Vec<u8>, AllocError>
    ensures { IfOk result (λ v. v.items ≡ spec.numbers_json numbers.now) }
{
    let mut texts = Vec::new(alloc);
    for n in numbers {
        texts.push(number_text(alloc, *n)?)?;
    }
    array_text(alloc, &texts)
}
