//! Reads the items of a book by recursive descent.
//!
//! ```text
//! item = "def" name { binder } ":=" term ":" term ";"  |  "prim" name { binder } ":" term ";"
//! ```

ghost use Rattle.std.specs.Prelude.{◌≡◌, All, IfOk};
ghost use Rattle.term_syntax.specs.Reading.{Gives, Reads};
ghost use Rattle.book_reader.specs.Grammar as grammar;
ghost use Rattle.book_reader.specs.Named.{HasNames};
ghost use Rattle.book_reader.specs.Reading as spec;

use crate::source::{Parameter, Source};
use ld_terms::{List, Name};
use std::alloc::Global;
use term_syntax::Kind;
use term_text::{Cursor, Label, ReadFault, Surface};

/// The items of a text.
pub fn read_items(alloc: Global, text: &[u8]) -> Result<List<Source>, ReadFault>
    // Their names are names of the texts.
    ensures named { IfOk result (All HasNames) }
    // The items, or the place of the refusal, are those of the reading from left to right.
    ensures exact { Gives (λ ss _. ss) (spec.read text.now) result }
{
    read_all(alloc, text)
}

#[tactic(auto, unfolding(crate::specs::Reading::read))]
fn read_all(alloc: Global, text: &[u8]) -> Result<List<Source>, ReadFault>
    ensures { Gives (λ ss _. ss) (spec.read text.now) result }
{
    let mut cursor = Cursor::new(text);
    items(alloc, &mut cursor)
}

/// `{ item }`, up to the text's end.
fn items(alloc: Global, cursor: &mut Cursor<'_>) -> Result<List<Source>, ReadFault>
    ensures { Reads (spec.items cursor.old) result cursor.new }
{
    let mut found = Vec::new(alloc);
    'more: while !cursor.is_over() {
        let next = item(alloc, cursor)?;
        found.push(next)?;
    }
    Ok(List::of(found))
}

/// An item.
#[tactic(auto, unfolding(crate::specs::Reading::item))]
fn item(alloc: Global, cursor: &mut Cursor<'_>) -> Result<Source, ReadFault>
    ensures { Reads (spec.item cursor.old) result cursor.new }
{
    if cursor.sees(Kind::Def) {
        definition(alloc, cursor)
    } else {
        primitive(alloc, cursor)
    }
}

/// `"def" name { binder } ":=" term ":" term ";"`.
#[tactic(auto, unfolding(crate::specs::Reading::definition))]
fn definition(alloc: Global, cursor: &mut Cursor<'_>) -> Result<Source, ReadFault>
    ensures { Reads (spec.definition cursor.old) result cursor.new }
{
    cursor.expect(Kind::Def)?;
    let name = item_name(alloc, cursor)?;
    let params = parameters(alloc, cursor)?;
    cursor.expect(Kind::Assign)?;
    let body = cursor.term(alloc)?;
    cursor.expect(Kind::Colon)?;
    let ty = cursor.term(alloc)?;
    cursor.expect(Kind::Semi)?;
    Ok(Source {
        name,
        params,
        ty,
        body: Some(body),
    })
}

/// `"prim" name { binder } ":" term ";"`.
#[tactic(auto, unfolding(crate::specs::Reading::primitive))]
fn primitive(alloc: Global, cursor: &mut Cursor<'_>) -> Result<Source, ReadFault>
    ensures { Reads (spec.primitive cursor.old) result cursor.new }
{
    cursor.expect(Kind::Prim)?;
    let name = item_name(alloc, cursor)?;
    let params = parameters(alloc, cursor)?;
    cursor.expect(Kind::Colon)?;
    let ty = cursor.term(alloc)?;
    cursor.expect(Kind::Semi)?;
    Ok(Source {
        name,
        params,
        ty,
        body: None,
    })
}

/// The name of an item, which isn't read as a constant.
#[tactic(auto, unfolding(crate::specs::Reading::item_name))]
fn item_name(alloc: Global, cursor: &mut Cursor<'_>) -> Result<Name, ReadFault>
    ensures { Reads (spec.item_name cursor.old) result cursor.new }
{
    match cursor.kind() {
        Kind::Name | Kind::Call => Ok(Name::of(alloc, cursor.take())?),
        _ => Err(cursor.refuse()),
    }
}

/// `{ binder }`.
fn parameters(alloc: Global, cursor: &mut Cursor<'_>) -> Result<List<Parameter>, ReadFault>
    ensures { Reads (spec.parameters cursor.old) result cursor.new }
{
    let mut found = Vec::new(alloc);
    'more: while cursor.sees(Kind::Open) {
        let next = parameter(alloc, cursor)?;
        found.push(next)?;
    }
    Ok(List::of(found))
}

/// `"(" ( name | level ) ":" term ")"`.
#[tactic(auto, unfolding(crate::specs::Reading::parameter))]
fn parameter(alloc: Global, cursor: &mut Cursor<'_>) -> Result<Parameter, ReadFault>
    ensures { Reads (spec.parameter cursor.old) result cursor.new }
{
    let (label, ty) = cursor.binder(alloc)?;
    Ok(parameter_of(label, ty))
}

/// The parameter of a binder.
fn parameter_of(label: Label, ty: Surface) -> Parameter
    ensures { result ≡ grammar.parameter_of label ty }
{
    let name = match label {
        Label::Plain(name) => Some(name),
        Label::Level(_) => None,
    };
    Parameter { name, ty }
}
