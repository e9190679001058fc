//! The tree as the value of a lock.

ghost use Rattle.std.specs.Prelude.{◌≡◌, IfOk, IsOk, true, false};
ghost use Rattle.repl_json.specs.Names.{names_any};
ghost use Rattle.state_tree.specs.Server.{found_in, IsLegal};
ghost use Rattle.state_tree.specs.TreeModel.{Holds};
ghost use Rattle.state_tree.specs.Enters.{Enters, tree_of};
ghost use Rattle.state_tree.specs.Prepared.{is_refused};
ghost use Rattle.state_tree.specs.Again.{is_bad};

use repl_json::Request;
use state_tree::{Entry, Found, Outcome, Ready, Tree, Work};
use std::alloc::AllocError;
use turn_lock::Storied;

/// What no call of a tree changes: its book, and how many entries it was opened for. It is of use to contracts alone.
pub struct TreeGround<E> {
    pub book: E,
    pub entries: u32,
}

/// A tree with its journal as the list of entries that a lock speaks of.
#[derive(Drop)]
pub struct BoardTree<W: Work> {
    pub(crate) tree: Tree<W>,
}

impl<W: Work> Storied for BoardTree<W> {
    type Entry = Entry;

    type Ground = TreeGround<W::Env>;

    ghost entries = { λ kept. kept.tree.journal };

    ghost pass_of = { λ entry. entry.pass };

    ghost ground_of = { λ kept. record { book = kept.tree.book; entries = kept.tree.entries } };

    fn length(&self) -> u64 {
        self.tree.length()
    }
}

impl<W: Work> BoardTree<W> {
    /// Finds what a request names.
    pub(crate) fn look(&self, request: &Request) -> Result<Found<W::Env, W::State>, AllocError>
        ensures found { IfOk result (λ found. found ≡ found_in (tree_of W.value self.now.tree) request.now.ask) }
        ensures unnamed { names_any request.now.ask ≡ false → IsOk result }
        ensures legal { IsLegal W.value self.now.tree.book self.now.tree.journal }
    {
        // The tree says of its length that the journal is legal.
        let _ = self.tree.length();
        self.tree.look(request)
    }

    /// Enters a request.
    pub(crate) fn enter(&mut self, pass: u32, ready: Ready<W>) -> Outcome<W>
        requires held { Holds (tree_of W.value self.old.tree) ready.request.ask ready.found }
        requires bad { is_bad ready.request.ask ≡ true → is_refused ready ≡ false }
        ensures entered { Enters W.value self.old.tree self.new.tree pass ready result }
        ensures legal { IsLegal W.value self.new.tree.book self.new.tree.journal }
    {
        let outcome = self.tree.enter(pass, ready);
        // The tree says of its length that the journal is legal.
        let _ = self.tree.length();
        outcome
    }
}
