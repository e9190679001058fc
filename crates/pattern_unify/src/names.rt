//! Names of entries.

ghost use Rattle.std.specs.Prelude.{◌≡◌, IfOk};
ghost use Rattle.std.specs.List.{list_all};
ghost use Rattle.ld_terms.specs.Names.{IsEntryName, is_name_byte, is_reserved, is_text_name, is_word};
ghost use Rattle.unification.specs.Pruning as spec;

use ld_terms::Name;
use std::alloc::{AllocError, Global};
use term_text::level_name;

/// The most bytes of a name.
const LONGEST_NAME: usize = 64;

/// Whether all bytes are letters, digits and `_`.
fn are_name_bytes(bytes: &[u8]) -> bool
    ensures { result ≡ list_all is_name_byte bytes.now }
{
    bytes
        .iter()
        .all(|b| b.is_ascii_alphanumeric() || *b == b'_')
}

/// Whether bytes are a letter followed by letters, digits and `_`.
#[tactic(auto, using(crate::proofs::Words::empty_word, crate::proofs::Words::word_by))]
fn is_word(bytes: &[u8]) -> bool
    ensures { result ≡ is_word bytes.now }
{
    if bytes.is_empty() {
        return false;
    }
    bytes[0].is_ascii_alphabetic() && are_name_bytes(&bytes[1..])
}

/// Whether a word is `fun`, `def` or `prim`.
fn is_reserved(word: &[u8]) -> bool
    ensures { result ≡ is_reserved word.now }
{
    word == b"fun".as_slice() || word == b"def".as_slice() || word == b"prim".as_slice()
}

/// Whether bytes are a name of the texts: a word of at most 64 bytes that isn't reserved.
fn is_text_name(name: &[u8]) -> bool
    ensures { result ≡ is_text_name name.now }
{
    is_word(name) && name.len() <= LONGEST_NAME && !is_reserved(name)
}

/// The name of an entry that comes to stand at a level: its own where that is a name of the texts, else the level name of the level. Fails
/// for want of memory alone.
pub fn name_at(alloc: Global, level: usize, name: &Name) -> Result<Name, AllocError>
    ensures name { IfOk result (λ n. n ≡ spec.name_at level name.now) }
    ensures entry { IfOk result (λ n. IsEntryName level n) }
{
    if is_text_name(name.as_bytes()) {
        name.copy(alloc)
    } else {
        level_name(alloc, level as u64)
    }
}
