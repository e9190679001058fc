//! A cursor over the tokens of a text, which cuts each as it is reached.

ghost use Rattle.std.specs.Prelude.{◌≡◌, ◌<◌, ◌≤◌, length, true, false, Ok};
ghost use Rattle.term_syntax.specs.Grammar.{max_nesting};
ghost use Rattle.term_syntax.specs.Input as spec;
ghost use Rattle.term_syntax.specs.Reading as reading;
ghost use Rattle.term_syntax.specs.Reading.{Reads};

use crate::lex::{Cut, is_blank, token};
use crate::read::{MAX_NESTING, binder, term};
use std::alloc::Global;
use std::marker::Model;
use term_syntax::{Kind, Label, ReadFault, Surface, is_kind};

/// What is left of a text, for readers of texts that are made of the tokens of terms. Contracts see it as the tokens that are left, the
/// place directly after the last one that was taken, and the length of the text.
///
/// Places count in bytes from the text's start. A call that takes tokens takes each that continues what it took before; where it
/// refuses, it stands before the token that it refuses.
#[derive(Drop)]
pub struct Cursor<'a> {
    text: &'a [u8],
    /// The place directly after the last token that was taken.
    at: usize,
    /// The next token, and where it begins.
    start: usize,
    cut: Cut,
}

impl<'a> Model for Cursor<'a> {
    ghost use Rattle.term_syntax.specs.Input.{Input};

    ghost Value = { Input };

    ghost use Rattle.term_text.specs.Cursor.{input_of, IsReady};

    ghost view = { input_of };

    ghost invariant = { IsReady };
}

impl<'a> Cursor<'a> {
    /// The whole text.
    pub fn new(text: &'a [u8]) -> Cursor<'a>
        ensures { result ≡ spec.input_at text.now 0 }
    {
        Cursor::from_place(text, 0)
    }

    /// A text from a place on.
    pub(crate) fn from_place(text: &'a [u8], at: usize) -> Cursor<'a>
        requires { at ≤ length text.now }
        ensures { result ≡ spec.input_at text.now at }
    {
        let (start, cut) = skip(text, at);
        Cursor {
            text,
            at,
            start,
            cut,
        }
    }

    /// The kind of the next token, `End` where none is left.
    pub fn kind(&self) -> Kind
        ensures { result ≡ spec.kind self.now }
    {
        self.cut.0
    }

    /// Where the next token begins, or the text ends.
    pub fn place(&self) -> usize
        ensures { result ≡ spec.place self.now }
    {
        self.start
    }

    /// The place directly after the last token that was taken.
    pub fn at(&self) -> usize
        ensures { result ≡ self.now.at }
    {
        self.at
    }

    /// The bytes of the next token, none where no token is left.
    pub fn spelling(&self) -> &'a [u8]
        ensures { result.now ≡ spec.spelling self.now }
    {
        &self.text[self.start..self.start + self.cut.1]
    }

    /// Takes the next token and answers its bytes. Where no token is left, it goes to the text's end.
    pub fn take(&mut self) -> &'a [u8]
        ensures text { result.now ≡ spec.spelling self.old }
        ensures next { self.new ≡ spec.next self.old }
    {
        let from = self.start + self.cut.1;
        let spelling = self.spelling();
        let (start, cut) = skip(self.text, from);
        self.at = from;
        self.start = start;
        self.cut = cut;
        spelling
    }

    /// The refusal at the next token, or at the text's end.
    pub fn refuse(&self) -> ReadFault
        ensures { result ≡ ReadFault.Syntax (spec.place self.now) }
    {
        ReadFault::Syntax {
            at: self.place() as u64,
        }
    }

    /// Whether no token is left.
    pub fn is_over(&self) -> bool
        ensures { result ≡ spec.is_nil self.now.ahead }
    {
        self.start == self.text.len()
    }

    /// Whether the next token is of this kind.
    pub fn sees(&self, kind: Kind) -> bool
        ensures { result ≡ reading.sees kind self.now }
    {
        is_kind(self.kind(), kind)
    }

    /// Takes a token of this kind where one is next, and says whether.
    #[tactic(auto, unfolding(term_syntax::specs::Reading::eat))]
    pub fn eat(&mut self, kind: Kind) -> bool
        ensures { reading.eat kind self.old ≡ Ok (result, self.new) }
    {
        let found = self.sees(kind);
        if found {
            self.take();
        }
        found
    }

    /// Takes a token of this kind.
    ///
    /// # Errors
    ///
    /// `Syntax` at any other token, or at the text's end.
    #[tactic(auto, unfolding(term_syntax::specs::Reading::expect))]
    pub fn expect(&mut self, kind: Kind) -> Result<(), ReadFault>
        ensures { Reads (reading.expect kind self.old) result self.new }
    {
        if self.sees(kind) {
            self.take();
            Ok(())
        } else {
            Err(self.refuse())
        }
    }

    /// Takes a term, with each next token with which a term begun here continues. It may nest as deep as in a text of its own.
    ///
    /// # Errors
    ///
    /// `Syntax` where what was taken isn't a whole term: at the first token or bad byte that doesn't continue it; at the text's length
    /// where the text ends there; at the first byte of a term that stands inside 512 other terms. `Memory` for want of memory alone.
    pub fn term(&mut self, alloc: Global) -> Result<Surface, ReadFault>
        ensures { Reads (reading.term max_nesting self.old) result self.new }
    {
        term(alloc, self, MAX_NESTING)
    }

    /// Takes a binder `(x : A)`, of which the label is a name or a level name.
    ///
    /// # Errors
    ///
    /// `Syntax` at the first token or bad byte that doesn't continue it, or at the text's length where the text ends too early; in its
    /// type as in a term of its own. `Memory` for want of memory alone.
    pub fn binder(&mut self, alloc: Global) -> Result<(Label, Surface), ReadFault>
        ensures { Reads (reading.binder (reading.term max_nesting) self.old) result self.new }
    {
        binder(alloc, self, MAX_NESTING)
    }

    /// Whether the next tokens are `(`, a name or a level name, and `:`.
    pub(crate) fn sees_binder(&self) -> bool
        ensures { result ≡ spec.begins_binder self.now.ahead }
    {
        if !self.sees(Kind::Open) {
            return false;
        }
        let (second, name) = skip(self.text, self.start + self.cut.1);
        let is_label = is_kind(name.0, Kind::Name) || is_kind(name.0, Kind::Level);
        let (_, third) = skip(self.text, second + name.1);
        is_label && is_kind(third.0, Kind::Colon)
    }
}

/// The first token from a place on, and where it begins.
fn skip(text: &[u8], from: usize) -> (usize, Cut)
    requires { from ≤ length text.now }
    ensures { spec.IsNext text.now from result.0 result.1 }
{
    let mut start = from;
    while start < text.len() {
        if !is_blank(text[start]) {
            return (start, token(&text[start..]));
        }
        start += 1;
    }
    (start, (Kind::End, 0))
}
