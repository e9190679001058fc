//! Reads terms by recursive descent, one function per line of the grammar:
//!
//! ```text
//! term   = "fun" binder "=>" term | binder "->" term | app [ "->" term ]
//! binder = "(" ( name | level ) ":" term ")"
//! app    = atom { atom }
//! atom   = "*" | "_" | "?" | name | level | "(" term ")"
//!        | name directly followed by "(" [ term { "," term } ] ")"
//! ```
//!
//! Each takes a token wherever one continues what was taken before. `depth` is how many terms may still stand inside one another.

ghost use Rattle.std.specs.Prelude.{◌≡◌, ℕ, [], ◌∷◌, ◌++◌, IfOk, Some, None, Err};
ghost use Rattle.term_syntax.specs.Grammar as grammar;
ghost use Rattle.term_syntax.specs.Reading as spec;
ghost use Rattle.term_syntax.specs.Reading.{Reads, Gives};
ghost use Rattle.term_syntax.specs.Grammar.{IsText, IsRight};
ghost use Rattle.term_syntax.specs.FromPlace.{IsTermAt, IsRefusedAt, StandsAt};
ghost use Rattle.term_syntax.specs.declared.fault.ReadFault.TheVariants.{Syntax};
ghost use Rattle.term_syntax.specs.declared.surface.Surface.{Surface};

use crate::cursor::Cursor;
use ld_terms::{Boxed, List, Name};
use std::alloc::{AllocError, Global};
use term_syntax::{Kind, Label, ReadFault, Shape, Surface};

/// A node of a tree, with the place of its first token.
fn node(at: usize, shape: Shape) -> Surface
    ensures { result ≡ grammar.node at shape }
{
    Surface {
        at: at as u64,
        shape,
    }
}

/// The number of a level name `%k`. It has at most 9 digits, so that it fits; a greater one would be want of memory.
#[tactic(auto, unfolding(term_syntax::specs::Grammar::level_of))]
fn level_of(text: &[u8]) -> Result<u32, AllocError>
    ensures { IfOk result (λ n. n ≡ grammar.level_of text.now) }
{
    let mut n: u64 = 0;
    if text.is_empty() {
        return Ok(0);
    }
    for b in &text[1..] {
        n = 10 * n + u64::from(b.saturating_sub(b'0'));
        if n > u64::from(u32::MAX) {
            return Err(AllocError);
        }
    }
    Ok(n as u32)
}

/// A name or a level name. Where `(` follows a name directly, the name is fine and the `(` is refused.
#[tactic(auto, unfolding(term_syntax::specs::Reading::label_at))]
fn label_at(alloc: Global, cursor: &mut Cursor<'_>) -> Result<Label, ReadFault>
    ensures { Reads (spec.label_at cursor.old) result cursor.new }
{
    match cursor.kind() {
        Kind::Name => Ok(Label::Plain(Name::of(alloc, cursor.take())?)),
        Kind::Level => Ok(Label::Level(level_of(cursor.take())?)),
        Kind::Call => {
            cursor.take();
            Err(cursor.refuse())
        }
        _ => Err(cursor.refuse()),
    }
}

/// Whether an atom begins with a token of this kind.
fn begins_atom(kind: Kind) -> bool
    ensures { result ≡ spec.begins_atom kind }
{
    match kind {
        Kind::Star
        | Kind::Wild
        | Kind::Asked
        | Kind::Open
        | Kind::Name
        | Kind::Call
        | Kind::Level => true,
        _ => false,
    }
}

/// How many terms may stand inside one another, the outermost counted.
pub const MAX_NESTING: usize = 512;

/// The tree of a text that is one term of the grammar, blanks allowed before and after.
///
/// # Errors
///
/// `Syntax` where the text isn't one term: at the first token, or the bad byte, with which no text of the grammar continues; at the
/// text's length where it ends too early; at the first byte of a term that stands inside 512 other terms. `Memory` for want of
/// memory alone.
pub fn read_term(alloc: Global, text: &[u8]) -> Result<Surface, ReadFault>
    // What is read is the text's tree by the grammar.
    ensures found { IfOk result (λ t. IsText text.now t) }
    // Where the text has a tree by the grammar, that one is read, unless memory runs out. So no text has two.
    ensures only { (t : Surface) → IsText text.now t → IsRight result (λ u. t ≡ u) }
    // The tree, or the place of the refusal, is that of the reading from left to right.
    ensures exact { Gives (λ t _. t) (spec.read text.now) result }
{
    read_all(alloc, text)
}

/// A term, and then the end of the text.
#[tactic(auto, unfolding(term_syntax::specs::Reading::read, term_syntax::specs::Reading::finish))]
fn read_all(alloc: Global, text: &[u8]) -> Result<Surface, ReadFault>
    ensures { Gives (λ t _. t) (spec.read text.now) result }
{
    let mut cursor = Cursor::new(text);
    let t = cursor.term(alloc)?;
    if !cursor.is_over() {
        return Err(cursor.refuse());
    }
    Ok(t)
}

/// The term that begins at a place, and the place directly after its last token. Each next token with which a term begun there
/// continues is taken. Places count from the text's start; one behind its end counts as the end.
///
/// # Errors
///
/// `Syntax` where what was taken isn't a whole term: at the first token or bad byte that doesn't continue it; at the text's length
/// where the text ends there; at the first byte of a term that stands inside 512 other terms. `Memory` for want of memory alone.
pub fn read_term_at(alloc: Global, text: &[u8], at: u64) -> Result<(Surface, u64), ReadFault>
    // What is read is a term of the grammar, which no next token goes on with, and the place directly after its last token.
    ensures found { IfOk result (λ p. IsTermAt text.now at p.0 p.1) }
    // Where a term of the grammar stands that doesn't go on with the next token, that one is read, unless memory runs out.
    ensures only { (t : Surface) (after : ℕ) → StandsAt text.now at t after → IsRight result (λ p. p ≡ (t, after)) }
    // A refusal stands at the first token that doesn't continue what was taken, or at the text's end.
    ensures refused { (place : ℕ) → result ≡ Err (Syntax place) → IsRefusedAt text.now at place }
    // The tree and the place after it, or the place of the refusal, are those of the reading from left to right.
    ensures exact { Gives (λ t i. (t, i.at)) (spec.read_at text.now at) result }
{
    read_from(alloc, text, at)
}

#[tactic(auto, unfolding(term_syntax::specs::Reading::read_at))]
fn read_from(alloc: Global, text: &[u8], at: u64) -> Result<(Surface, u64), ReadFault>
    ensures { Gives (λ t i. (t, i.at)) (spec.read_at text.now at) result }
{
    let at = at.min(text.len() as u64) as usize;
    let mut cursor = Cursor::from_place(text, at);
    let t = cursor.term(alloc)?;
    Ok((t, cursor.at() as u64))
}

/// `"(" ( name | level ) ":" term ")"`.
#[cycle(term)]
#[tactic(auto, unfolding(term_syntax::specs::Reading::binder))]
pub fn binder(
    alloc: Global,
    cursor: &mut Cursor<'_>,
    depth: usize,
) -> Result<(Label, Surface), ReadFault>
    ensures { Reads (spec.binder (spec.term depth) cursor.old) result cursor.new }
{
    cursor.expect(Kind::Open)?;
    let label = label_at(alloc, cursor)?;
    cursor.expect(Kind::Colon)?;
    let ty = term(alloc, cursor, depth)?;
    cursor.expect(Kind::Close)?;
    Ok((label, ty))
}

/// `"(" term ")"`, which adds no node.
#[cycle(term)]
#[tactic(auto, unfolding(term_syntax::specs::Reading::parenthesized))]
fn parenthesized(alloc: Global, cursor: &mut Cursor<'_>, depth: usize) -> Result<Surface, ReadFault>
    ensures { Reads (spec.parenthesized (spec.term depth) cursor.old) result cursor.new }
{
    cursor.expect(Kind::Open)?;
    let inner = term(alloc, cursor, depth)?;
    cursor.expect(Kind::Close)?;
    Ok(inner)
}

/// `"fun" binder "=>" term`.
#[cycle(term)]
#[tactic(auto, unfolding(term_syntax::specs::Reading::abstraction))]
fn abstraction(alloc: Global, cursor: &mut Cursor<'_>, depth: usize) -> Result<Surface, ReadFault>
    ensures { Reads (spec.abstraction (spec.term depth) cursor.old) result cursor.new }
{
    let at = cursor.place();
    cursor.expect(Kind::Fun)?;
    let (label, ty) = binder(alloc, cursor, depth)?;
    cursor.expect(Kind::FatArrow)?;
    let body = term(alloc, cursor, depth)?;
    let shape = Shape::Lam(label, Boxed::new(alloc, ty)?, Boxed::new(alloc, body)?);
    Ok(node(at, shape))
}

/// A term. At depth 0 it is refused at its first token.
#[cycle(term)]
#[tactic(auto, unfolding(term_syntax::specs::Reading::term))]
pub fn term(alloc: Global, cursor: &mut Cursor<'_>, depth: usize) -> Result<Surface, ReadFault>
    ensures { Reads (spec.term depth cursor.old) result cursor.new }
{
    if depth == 0 {
        return Err(cursor.refuse());
    }
    whole(alloc, cursor, depth - 1)
}

/// A term, by its first tokens.
#[cycle(term)]
#[tactic(auto, unfolding(term_syntax::specs::Reading::whole))]
fn whole(alloc: Global, cursor: &mut Cursor<'_>, depth: usize) -> Result<Surface, ReadFault>
    ensures { Reads (spec.whole (spec.term depth) cursor.old) result cursor.new }
{
    if cursor.sees(Kind::Fun) {
        return abstraction(alloc, cursor, depth);
    }
    if cursor.sees_binder() {
        return product(alloc, cursor, depth);
    }
    arrows(alloc, cursor, depth)
}

/// `binder "->" term`.
#[cycle(term)]
#[tactic(auto, unfolding(term_syntax::specs::Reading::product))]
fn product(alloc: Global, cursor: &mut Cursor<'_>, depth: usize) -> Result<Surface, ReadFault>
    ensures { Reads (spec.product (spec.term depth) cursor.old) result cursor.new }
{
    let at = cursor.place();
    let (label, ty) = binder(alloc, cursor, depth)?;
    cursor.expect(Kind::Arrow)?;
    let body = term(alloc, cursor, depth)?;
    let shape = Shape::Pi(
        Some(label),
        Boxed::new(alloc, ty)?,
        Boxed::new(alloc, body)?,
    );
    Ok(node(at, shape))
}

/// `app [ "->" term ]`. The arrow groups to the right.
#[cycle(term)]
#[tactic(auto, unfolding(term_syntax::specs::Reading::arrows))]
fn arrows(alloc: Global, cursor: &mut Cursor<'_>, depth: usize) -> Result<Surface, ReadFault>
    ensures { Reads (spec.arrows (spec.term depth) cursor.old) result cursor.new }
{
    let at = cursor.place();
    let left = app(alloc, cursor, depth)?;
    if !cursor.eat(Kind::Arrow) {
        return Ok(left);
    }
    let right = term(alloc, cursor, depth)?;
    let shape = Shape::Pi(None, Boxed::new(alloc, left)?, Boxed::new(alloc, right)?);
    Ok(node(at, shape))
}

/// A head with the atoms that follow it, if there are any.
#[tactic(auto, unfolding(term_syntax::specs::Reading::applied))]
fn applied(
    alloc: Global,
    at: usize,
    head: Surface,
    args: List<Surface>,
) -> Result<Surface, AllocError>
    ensures { IfOk result (λ t. t ≡ spec.applied at head args) }
{
    if args.as_slice().is_empty() {
        return Ok(head);
    }
    let head = Boxed::new(alloc, head)?;
    Ok(node(at, Shape::App(head, args)))
}

/// `atom { atom }`. Application groups to the left.
#[cycle(term)]
#[tactic(auto, unfolding(term_syntax::specs::Reading::app))]
fn app(alloc: Global, cursor: &mut Cursor<'_>, depth: usize) -> Result<Surface, ReadFault>
    ensures { Reads (spec.app (spec.term depth) cursor.old) result cursor.new }
{
    let at = cursor.place();
    let head = atom(alloc, cursor, depth)?;
    let args = atoms(alloc, cursor, depth)?;
    Ok(applied(alloc, at, head, args)?)
}

/// The atoms that follow a head, perhaps none.
#[cycle(term)]
fn atoms(alloc: Global, cursor: &mut Cursor<'_>, depth: usize) -> Result<List<Surface>, ReadFault>
    ensures { Reads (spec.atoms (spec.term depth) cursor.old) result cursor.new }
{
    let mut found = Vec::new(alloc);
    'more: while begins_atom(cursor.kind()) {
        let next = atom(alloc, cursor, depth)?;
        found.push(next)?;
    }
    Ok(List::of(found))
}

/// An atom, by the kind of its first token.
#[cycle(term)]
#[tactic(auto, unfolding(term_syntax::specs::Reading::atom))]
fn atom(alloc: Global, cursor: &mut Cursor<'_>, depth: usize) -> Result<Surface, ReadFault>
    ensures { Reads (spec.atom (spec.term depth) cursor.old) result cursor.new }
{
    let at = cursor.place();
    match cursor.kind() {
        Kind::Star => {
            cursor.take();
            Ok(node(at, Shape::Star))
        }
        Kind::Wild => {
            cursor.take();
            Ok(node(at, Shape::Wild))
        }
        Kind::Asked => {
            cursor.take();
            Ok(node(at, Shape::Asked))
        }
        Kind::Name | Kind::Level => {
            let label = label_at(alloc, cursor)?;
            Ok(node(at, Shape::Named(label)))
        }
        Kind::Call => constant(alloc, cursor, depth),
        Kind::Open => parenthesized(alloc, cursor, depth),
        _ => Err(cursor.refuse()),
    }
}

/// `name directly followed by "(" [ term { "," term } ] ")"`.
#[cycle(term)]
#[tactic(auto, unfolding(term_syntax::specs::Reading::constant))]
fn constant(alloc: Global, cursor: &mut Cursor<'_>, depth: usize) -> Result<Surface, ReadFault>
    ensures { Reads (spec.constant (spec.term depth) cursor.old) result cursor.new }
{
    let at = cursor.place();
    let name = Name::of(alloc, cursor.take())?;
    cursor.expect(Kind::Open)?;
    let args = arguments(alloc, cursor, depth)?;
    Ok(node(at, Shape::Const(name, args)))
}

/// `[ term { "," term } ] ")"`.
#[cycle(term)]
fn arguments(
    alloc: Global,
    cursor: &mut Cursor<'_>,
    depth: usize,
) -> Result<List<Surface>, ReadFault>
    ensures { Reads (spec.arguments (spec.term depth) cursor.old) result cursor.new }
{
    let mut found = Vec::new(alloc);
    if cursor.eat(Kind::Close) {
        return Ok(List::of(found));
    }
    'more: loop {
        let next = term(alloc, cursor, depth)?;
        found.push(next)?;
        if !cursor.eat(Kind::Comma) {
            break;
        }
    }
    cursor.expect(Kind::Close)?;
    Ok(List::of(found))
}
