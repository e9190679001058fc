//! The words of moves, and the names in them.

ghost use Rattle.std.specs.Prelude.{◌≡◌};
ghost use Rattle.term_syntax.specs.Reading.{Reads};
ghost use Rattle.move_text.specs.Reading as spec;

use ld_terms::Name;
use std::alloc::Global;
use term_syntax::Kind;
use term_text::{Cursor, ReadFault};

/// The next word, whether `(` follows it directly or not; empty where the next token is no word.
pub fn word<'a>(cursor: &Cursor<'a>) -> &'a [u8]
    ensures { result.now ≡ spec.word cursor.now }
{
    match cursor.kind() {
        Kind::Name | Kind::Call => cursor.spelling(),
        _ => b"",
    }
}

/// Takes a plain name. Where `(` follows a name directly, the name is fine and the `(` is refused.
#[tactic(auto, unfolding(crate::specs::Reading::name))]
pub fn name(alloc: Global, cursor: &mut Cursor<'_>) -> Result<Name, ReadFault>
    ensures { Reads (spec.name cursor.old) result cursor.new }
{
    match cursor.kind() {
        Kind::Name => Ok(Name::of(alloc, cursor.take())?),
        Kind::Call => {
            cursor.take();
            Err(cursor.refuse())
        }
        _ => Err(cursor.refuse()),
    }
}
