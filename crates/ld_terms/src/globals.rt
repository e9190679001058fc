ghost use Rattle.std.specs.Prelude.{◌≡◌, slice_get};
ghost use Rattle.std.specs.Option.{option_copied};

use crate::list::List;
use crate::name::Name;

/// An entry of a context, or a parameter of an item: a name and a type in the entries before it.
#[derive(Debug, Drop)]
pub struct Local<H> {
    pub name: Name,
    pub ty: H,
}

/// An item of an environment: a primitive, or a definition where it has a body. Type and body stand in the context of its
/// parameters.
#[derive(Debug, Drop)]
pub struct Item<H> {
    pub name: Name,
    pub params: List<Local<H>>,
    pub ty: H,
    pub body: Option<H>,
}

/// A metavariable: its context, its type there, and its value where it is assigned.
#[derive(Debug, Drop)]
pub struct Decl<H> {
    pub ctx: List<Local<H>>,
    pub ty: H,
    pub value: Option<H>,
}

/// An environment and a metavariable context, as an engine reads them.
pub trait Globals<H> {
    ghost use Rattle.std.specs.Prelude.{List as Listed};
    ghost use Rattle.ld_terms.specs.declared.globals.Item.{Item};
    ghost use Rattle.ld_terms.specs.declared.globals.Decl.{Decl};
    ghost use Rattle.ld_terms.specs.Items.{item_named};

    /// The items, the one added last first.
    ghost items: { Self → Listed (Item H) };

    /// The metavariables by their numbers.
    ghost metas: { Self → Listed (Decl H) };

    /// The item of that name, the last one where there are several, or `None` exactly where there is none.
    fn constant(&self, name: &Name) -> Option<&Item<H>>
        ensures { option_copied result ≡ item_named (items self.now) name.now };

    /// The declaration of that number, or `None` exactly where there is none.
    fn meta(&self, m: u32) -> Option<&Decl<H>>
        ensures { option_copied result ≡ slice_get (metas self.now) m };
}
