//! Reads moves:
//!
//! ```text
//! move = "intro" name | "apply" term | "exact" term | "refine" term | "have" name ":" term | "assumption" | "change" term
//!      | "unfold" name
//! ```

ghost use Rattle.std.specs.Prelude.{◌≡◌, IfOk};
ghost use Rattle.std.specs.Str.{bytes_eq};
ghost use Rattle.term_syntax.specs.Reading.{Gives, Reads};
ghost use Rattle.term_syntax.specs.Grammar.{IsRight};
ghost use Rattle.move_text.specs.declared.moves.Move.{Move};
ghost use Rattle.move_text.specs.Grammar.{IsMoveText};
ghost use Rattle.move_text.specs.Named.{HasTextName};
ghost use Rattle.move_text.specs.Reading as spec;

use crate::moves::Move;
use crate::words::{name, word};
use std::alloc::Global;
use term_syntax::Kind;
use term_text::{Cursor, ReadFault};

/// The move that a text is, blanks allowed before and after. The first word is never read as a constant, even where `(` follows
/// directly. Terms may nest as deep as in a text of their own: the move round a term isn't counted.
///
/// # Errors
///
/// `Syntax` where the text isn't one move: at an unknown first word; at the first token, or the bad byte, with which no move continues;
/// at the text's length where it ends too early; at the first byte of a term that stands inside 512 other terms. Places count in
/// bytes from the start of the whole text. `Memory` for want of memory alone.
pub fn read_move(alloc: Global, text: &[u8]) -> Result<Move, ReadFault>
    // What is read is the text's move by the grammar.
    ensures found { IfOk result (λ m. IsMoveText text.now m) }
    // Where the text is a move by the grammar, that one is read, unless memory runs out.
    ensures only { (m : Move) → IsMoveText text.now m → IsRight result (λ n. m ≡ n) }
    // The name of a new entry is one of the texts.
    ensures named { IfOk result HasTextName }
    // The move, or the place of the refusal, is that of the reading from left to right.
    ensures exact { Gives (λ m _. m) (spec.read text.now) result }
{
    read_all(alloc, text)
}

/// A move, and then the end of the text.
#[tactic(auto, unfolding(crate::specs::Reading::read, crate::specs::Reading::finish))]
fn read_all(alloc: Global, text: &[u8]) -> Result<Move, ReadFault>
    ensures { Gives (λ m _. m) (spec.read text.now) result }
{
    let mut cursor = Cursor::new(text);
    let found = form(alloc, &mut cursor)?;
    if !cursor.is_over() {
        return Err(cursor.refuse());
    }
    Ok(found)
}

fn same(a: &[u8], b: &[u8]) -> bool
    ensures { result ≡ bytes_eq a.now b.now }
{
    a == b
}

/// A move, by its first word.
#[tactic(auto, unfolding(crate::specs::Reading::form))]
fn form(alloc: Global, cursor: &mut Cursor<'_>) -> Result<Move, ReadFault>
    ensures { Reads (spec.form cursor.old) result cursor.new }
{
    let word = word(cursor);
    if same(word, b"intro") {
        cursor.take();
        return Ok(Move::Intro(name(alloc, cursor)?));
    }
    if same(word, b"apply") {
        cursor.take();
        return Ok(Move::Apply(cursor.term(alloc)?));
    }
    if same(word, b"exact") {
        cursor.take();
        return Ok(Move::Exact(cursor.term(alloc)?));
    }
    if same(word, b"refine") {
        cursor.take();
        return Ok(Move::Refine(cursor.term(alloc)?));
    }
    if same(word, b"have") {
        cursor.take();
        return having(alloc, cursor);
    }
    if same(word, b"assumption") {
        cursor.take();
        return Ok(Move::Assumption);
    }
    if same(word, b"change") {
        cursor.take();
        return Ok(Move::Change(cursor.term(alloc)?));
    }
    if same(word, b"unfold") {
        cursor.take();
        return Ok(Move::Unfold(name(alloc, cursor)?));
    }
    Err(cursor.refuse())
}

/// What follows `have`: a name, `:` and a term.
fn having(alloc: Global, cursor: &mut Cursor<'_>) -> Result<Move, ReadFault>
    ensures { Reads (spec.having cursor.old) result cursor.new }
{
    let name = name(alloc, cursor)?;
    cursor.expect(Kind::Colon)?;
    let t = cursor.term(alloc)?;
    Ok(Move::Have(name, t))
}
