//! The tree.

ghost use Rattle.std.specs.Prelude.{◌≡◌, ◌≤◌, [], length, IfOk, IsOk, true, false};
ghost use Rattle.state_tree.specs.Server.{found_in, IsLegal};
ghost use Rattle.state_tree.specs.Prepared.{is_refused};
ghost use Rattle.state_tree.specs.Again.{is_bad};
ghost use Rattle.repl_json.specs.Names.{names_any};

use crate::check::Check;
use crate::entering::{enter_early, enter_open};
use crate::holdings::Holdings;
use crate::look::{find_env, find_state};
use crate::ready::Ready;
use crate::work::{Entry, Found, Work};
use repl_json::{Line, Request};
use std::alloc::{AllocError, Global};
use std::marker::Model;
use std::snapshot::Snapshot;

/// A tree of environments and states: always the replay of its own journal over the book, by the one-thread server.
///
/// Contracts see the book, the most entries that there may be, and the entries.
#[derive(Drop)]
pub struct Tree<W: Work> {
    holdings: Holdings<W::Env, W::State>,
    entries: u32,
    book: Snapshot<W::Env>,
}

impl<W: Work> Model for Tree<W> {
    ghost use Rattle.state_tree.specs.TreeModel.{TreeModel, IsReplayed};

    ghost Value = { TreeModel W.Env };

    ghost view = { λ s. record { book = s.book.value; entries = s.entries; journal = s.holdings.journal.items } };

    ghost invariant = { λ s. IsReplayed W.value s.book.value s.entries s.holdings };
}

/// What entering a request gives.
#[derive(Drop)]
pub enum Outcome<W: Work> {
    /// It is the newest entry, with this reply.
    Entered(Line),
    /// The look missed this id, which is made now. The request is to be looked up again.
    Again { ready: Ready<W>, id: u64 },
    /// The journal holds all its entries.
    Full { entries: u32 },
}

impl<W: Work> Tree<W> {
    ghost use Rattle.state_tree.specs.TreeModel.{Holds};
    ghost use Rattle.state_tree.specs.Enters.{Enters, tree_of};

    /// The tree of a book, with room for this many entries. Takes all the memory that entering needs.
    ///
    /// # Errors
    /// Want of memory alone.
    pub fn open(alloc: Global, book: W::Env, entries: u32) -> Result<Tree<W>, AllocError>
        ensures book { IfOk result (λ tree. tree.book ≡ book) }
        ensures entries { IfOk result (λ tree. tree.entries ≡ entries) }
        ensures journal { IfOk result (λ tree. tree.journal ≡ []) }
    {
        let room = entries as usize;
        let mut envs = Vec::with_capacity(alloc, room + 1)?;
        let states = Vec::with_capacity(alloc, room)?;
        let journal = Vec::with_capacity(alloc, room)?;
        let kept = Snapshot::of(&book);
        envs.push_reserved(book);
        Ok(Tree {
            holdings: Holdings {
                envs,
                states,
                journal,
                live: 0,
            },
            entries,
            book: kept,
        })
    }

    /// The number of entries. Takes no memory.
    pub fn length(&self) -> u64
        ensures length { result ≡ length self.now.journal }
        ensures within { result ≤ self.now.entries }
        ensures legal { IsLegal W.value self.now.book self.now.journal }
    {
        self.holdings.journal.len() as u64
    }

    /// The number of states ever made, live or not. Takes no memory.
    pub fn states(&self) -> u64
        ensures states { result ≡ length (tree_of W.value self.now).states }
    {
        self.holdings.states.len() as u64
    }

    /// The entries, in order. Takes no memory.
    pub fn into_journal(self) -> Vec<Entry>
        ensures journal { result.items ≡ self.journal }
        ensures legal { IsLegal W.value self.book self.journal }
    {
        self.holdings.journal
    }

    /// Finds what a request names, live or not: each environment or state exactly where its id was made.
    ///
    /// # Errors
    /// Want of memory alone, and only for a request that names an environment or a state.
    pub fn look(&self, request: &Request) -> Result<Found<W::Env, W::State>, AllocError>
        ensures found { IfOk result (λ found. found ≡ found_in (tree_of W.value self.now) request.now.ask) }
        ensures unnamed { names_any request.now.ask ≡ false → IsOk result }
    {
        let ask = &request.ask;
        let holdings = &self.holdings;
        Ok(Found {
            env: find_env::<W>(&holdings.envs, ask.env_named())?,
            one: find_state::<W>(&holdings.states, ask.one_named())?,
            two: find_state::<W>(&holdings.states, ask.two_named())?,
        })
    }

    /// Enters a request as the next entry, answered as the one-thread server answers it, unless the journal is full or the look
    /// missed what is made now; these two change nothing. No work runs, and no memory is taken.
    pub fn enter(&mut self, pass: u32, ready: Ready<W>) -> Outcome<W>
        // What was found is what the tree holds. A look in this tree, or in an earlier one, gives that.
        requires held { Holds (tree_of W.value self.old) ready.request.ask ready.found }
        requires bad { is_bad ready.request.ask ≡ true → is_refused ready ≡ false }
        ensures { Enters W.value self.old self.new pass ready result }
    {
        if self.holdings.journal.len() == self.entries as usize {
            return Outcome::Full {
                entries: self.entries,
            };
        }
        match ready.check(&self.holdings) {
            Check::Again(id) => Outcome::Again { ready, id },
            Check::Early(line) => {
                enter_early(&mut self.holdings, pass, ready.into_request());
                Outcome::Entered(line)
            }
            Check::Open => {
                let (request, worked) = ready.into_parts();
                Outcome::Entered(enter_open(&mut self.holdings, pass, request, worked))
            }
        }
    }
}
