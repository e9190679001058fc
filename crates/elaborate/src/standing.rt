//! What the calls of elaboration pass along.

ghost use Rattle.std.specs.Prelude.{◌≡◌, ◌<◌, length};

use ld_terms::{List, Local, Name};
use meta_context::Metas;
use term_text::Label;

/// What elaboration has come to: the metavariables; those of the holes `?`; and those of the holes `_` with their places. Both lists are
/// in text order.
#[derive(Drop)]
pub struct Work<H: Copy> {
    pub metas: Metas<H>,
    pub goals: List<u32>,
    pub holes: List<(u32, u64)>,
}

/// A term, with its type, the type that was wanted of it, or its sort where it was to be a type.
#[derive(Drop)]
pub struct Typed<H: Copy> {
    pub work: Work<H>,
    pub term: H,
    pub ty: H,
}

/// What is wanted of a text.
#[derive(Clone, Copy)]
pub enum Want<H> {
    /// A term.
    Any,
    /// A term of this type.
    Of(H),
    /// A type.
    AsType,
}

/// A type that was wanted, and the domain and the codomain of the product that is its weak head form.
#[derive(Clone, Copy)]
pub struct Product<H> {
    pub whole: H,
    pub domain: H,
    pub codomain: H,
}

/// Where a part of a text stands: behind these binders of the text, the outermost first (that of an arrow has no label), which stand in
/// the context of the whole text with its names; and the whole context there.
#[derive(Clone, Copy)]
pub struct Here<'h, 't, H> {
    pub outer: &'h [Name],
    pub bound: &'h [Option<&'t Label>],
    pub entries: &'h [Local<H>],
}

/// How many entries a context has.
pub fn depth_of<H>(ctx: &[Local<H>]) -> u32
    requires { length ctx.now < 999999000 }
    ensures { result ≡ length ctx.now }
{
    ctx.len() as u32
}
