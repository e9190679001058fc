ghost use Rattle.std.specs.Prelude.{◌≡◌, ◌∷◌, ◌-◌, ◌<◌, [], IfOk, length, slice_get, reverse, option_copied};
ghost use Rattle.ld_terms.specs.Items.{item_named};
ghost use Rattle.meta_context.specs.Entered.{AreEntered, MayEnter};

use crate::kept::Kept;
use ld_terms::{Decl, Globals, Item, Name};
use shared_map::SharedMap;
use std::alloc::{AllocError, Global};
use std::marker::Model;

/// An environment: items in the order of their entry, no two of one name.
///
/// Contracts see the list of its items, the one added last first. Each item has a name of the texts, which no other has; each of its
/// parameters has a name of the texts or the level name of its own level, and there are fewer than 999,999,000 of them (`facts`).
#[derive(Drop)]
pub struct Env<H: Copy> {
    places: SharedMap<u64, Kept<Item<H>>>,
    names: SharedMap<Name, Kept<Item<H>>>,
}

impl<H: Copy> Model for Env<H> {
    ghost use Rattle.std.specs.Prelude.{List};
    ghost use Rattle.ld_terms.specs.declared.globals.Item.{Item};
    ghost use Rattle.meta_context.specs.Tables.{items_in, AreIndexed};

    ghost Value = { List (Item H) };

    ghost view = { λ e. items_in e.places };

    ghost invariant = { λ e. AreIndexed e.places e.names };
}

impl<H: Copy> Env<H> {
    /// The environment without items. Takes no memory.
    pub fn new() -> Env<H>
        ensures { result ≡ [] }
    {
        Env {
            places: SharedMap::new(),
            names: SharedMap::new(),
        }
    }

    /// The same environment, for a second owner. Fails for want of memory alone.
    pub fn fork(&self, alloc: Global) -> Result<Env<H>, AllocError>
        ensures { IfOk result (λ e. e ≡ self.now) }
    {
        Ok(Env {
            places: self.places.fork(alloc)?,
            names: self.names.fork(alloc)?,
        })
    }

    /// How many items there are. Takes no memory.
    pub fn len(&self) -> u64
        ensures counted { result ≡ length self.now }
        // Names and lengths, which are facts of every environment.
        ensures facts { AreEntered self.now }
    {
        self.places.len()
    }

    /// The item at a place, counted from 0 in the order of entry, or `None` where there are no more. Takes no memory.
    pub fn item(&self, place: u64) -> Option<&Item<H>>
        ensures { option_copied result ≡ slice_get (reverse self.now) place }
    {
        match self.places.get(&place) {
            Some(item) => Some(item.get()),
            None => None,
        }
    }

    /// The item of a name, or `None` where no item has it. Takes no memory.
    pub fn find(&self, name: &Name) -> Option<&Item<H>>
        ensures { option_copied result ≡ item_named self.now name.now }
    {
        match self.names.get(name) {
            Some(item) => Some(item.get()),
            None => None,
        }
    }

    /// The environment with one more item. This one stays as it was. Fails for want of memory alone.
    pub fn push(&self, alloc: Global, item: Item<H>) -> Result<Env<H>, AllocError>
        requires { MayEnter self.now item }
        ensures { IfOk result (λ e. e ≡ item ∷ self.now) }
    {
        let name = item.name.copy(alloc)?;
        let item = Kept::new(alloc, item)?;
        let again = item.clone()?;
        Ok(Env {
            places: self.places.with(alloc, self.places.len(), item)?,
            names: self.names.with(alloc, name, again)?,
        })
    }
}

/// An environment without metavariables.
impl<H: Copy> Globals<H> for Env<H> {
    ghost use Rattle.std.specs.Prelude.{[]};

    ghost items = { λ e. e };

    ghost metas = { λ e. [] };

    fn constant(&self, name: &Name) -> Option<&Item<H>> {
        self.find(name)
    }

    fn meta(&self, m: u32) -> Option<&Decl<H>> {
        None
    }
}
