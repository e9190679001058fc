use ld_terms::{List, Name};
use term_text::Surface;

/// A parameter as a text says it. It has no name of its own where its label is a level name.
#[derive(Debug, Drop)]
pub struct Parameter {
    pub name: Option<Name>,
    pub ty: Surface,
}

/// An item as a text says it, before its names are resolved.
#[derive(Debug, Drop)]
pub struct Source {
    pub name: Name,
    pub params: List<Parameter>,
    pub ty: Surface,
    pub body: Option<Surface>,
}
