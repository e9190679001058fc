//! Environments of the server.

ghost use Rattle.std.specs.Prelude.{◌≡◌, [], All, IfOk, length};
ghost use Rattle.ld_rules.specs.Legality.{IsLegalEnvironment};
ghost use Rattle.conversion.specs.Globals.{IsItemOf, env_of};
ghost use Rattle.meta_context.specs.Plain.{plain_items};
ghost use Rattle.command_set.specs.Stored.{IsStored};

use ld_terms::Terms;
use meta_context::Env;
use std::alloc::{AllocError, Global};
use std::marker::Model;
use std::sync::Arc;

/// Items, with the store that holds their terms.
#[derive(Drop)]
pub(crate) struct Stored<T: Terms> {
    pub(crate) terms: T,
    pub(crate) items: Env<T::Handle>,
}

/// A legal environment of the server, which its clones share. Contracts see its items as plain data, the one added last first.
#[derive(Drop)]
pub struct Environment<T: Terms> {
    at: Arc<Stored<T>>,
}

impl<T: Terms> Model for Environment<T> {
    ghost use Rattle.std.specs.Prelude.{List};
    ghost use Rattle.std.specs.Arc.{arc_value};
    ghost use Rattle.ld_trees.specs.Term.{Term};
    ghost use Rattle.ld_terms.specs.declared.globals.Item.{Item};
    ghost use Rattle.meta_context.specs.Plain.{plain_items};
    ghost use Rattle.command_set.specs.Stored.{IsStored};
    ghost use Rattle.std.specs.Coded.{coded_list};
    ghost use Rattle.goal_state.specs.Codes.{coded_item, coded_term};

    ghost Value = { List (Item Term) };

    ghost coded = { coded_list (coded_item coded_term) };

    ghost view = { λ e. plain_items (T.means (arc_value e.at).terms) (arc_value e.at).items };

    ghost invariant = { λ e. IsStored (T.holds (arc_value e.at).terms) (T.means (arc_value e.at).terms) (arc_value e.at).items };
}

impl<T: Terms + Drop> Environment<T> {
    /// The environment of these items, whose terms the store holds. Fails for want of memory alone.
    pub fn new(alloc: Global, terms: T, items: Env<T::Handle>) -> Result<Environment<T>, AllocError>
        requires held { All (IsItemOf (T.holds terms)) items }
        requires legal { IsLegalEnvironment (env_of (T.means terms) items []) }
        ensures { IfOk result (λ e. e ≡ plain_items (T.means terms) items) }
    {
        // The length tells that the items entered one after another, each under a new name.
        let _length = items.len();
        let stored = Stored { terms, items };
        Ok(Environment {
            at: Arc::new(alloc, stored)?,
        })
    }

    /// The environment without items, over a store. Fails for want of memory alone.
    pub fn empty(alloc: Global, terms: T) -> Result<Environment<T>, AllocError>
        ensures { IfOk result (λ e. e ≡ []) }
    {
        Environment::new(alloc, terms, Env::new())
    }

    /// How many items there are. Takes no memory.
    pub fn len(&self) -> u64
        ensures { result ≡ length self.now }
    {
        self.stored().items.len()
    }

    /// The store and the items.
    pub(crate) fn stored(&self) -> &Stored<T>
        ensures plain { plain_items (T.means result.now.terms) result.now.items ≡ self.now }
        ensures stored { IsStored (T.holds result.now.terms) (T.means result.now.terms) result.now.items }
    {
        &self.at
    }
}

impl<T: Terms + Drop> Clone for Environment<T> {
    ghost is_clone = { λ a b. b ≡ a };

    fn clone(&self) -> Result<Environment<T>, AllocError> {
        Ok(Environment {
            at: Arc::try_clone(&self.at)?,
        })
    }
}
