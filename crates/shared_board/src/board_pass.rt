//! A pass, with the states that it looked up last.

ghost use Rattle.std.specs.Prelude.{◌≡◌, ◌<◌, ◌∷◌, ◌++◌, [], Some, IfOk, OnOk, IfErr, IsOk, IfSome, IsSome, false, Contains};
ghost use Rattle.repl_json.specs.Names.{names_any};
ghost use Rattle.state_tree.specs.Server.{found_in, IsLegal};
ghost use Rattle.turn_lock.specs.Meanings.{MAX_TURNS, first_pass, IsPassOf};
ghost use Rattle.shared_board.specs.declared.board_tree.TreeGround.{TreeGround};
ghost use Rattle.shared_board.specs.Calls.{GoesOnFrom, OnlySeesMore, IsInTime, LookFails, tree_seen};

use crate::board_tree::BoardTree;
use crate::state_cache::StateCache;
use crate::turns::{LookFault, look_in_turn};
use repl_json::{Ask, Request};
use state_tree::{Found, Tree, Work};
use std::alloc::{AllocError, Global};
use std::marker::Model;
use std::sync::Wait;
use std::thread::Threads;
use turn_lock::{Pass, Shared};

/// The right to take turns at the board that made it, with a cache of 256 looked-up states. Contracts see its number, its
/// view (the entries that it has seen), how many notes it told and learnt, and its found number, the greatest number of
/// turns that a draw found drawn before, as far as the pass knows.
#[derive(Drop)]
pub struct BoardPass<W: Work> {
    pub(crate) pass: Pass<BoardTree<W>>,
    pub(crate) cache: StateCache<W>,
}

impl<W: Work> Model for BoardPass<W> {
    ghost use Rattle.shared_board.specs.Boards.{BoardPassMeaning};
    ghost use Rattle.shared_board.specs.Cached.{AreStatesSeen};

    ghost Value = { BoardPassMeaning W.Env };

    ghost view = { λ p. p.pass };

    ghost invariant = { λ p. AreStatesSeen W.value p.pass.the_ground p.pass.seen p.cache.states.entries };
}

impl<W: Work> BoardPass<W> {
    /// Opens a lock on a tree.
    pub(crate) fn open(
        alloc: Global,
        tree: Tree<W>,
    ) -> Result<(Shared<BoardTree<W>>, BoardPass<W>), AllocError>
        ensures journal { IfOk result (λ r. r.0.journal ≡ tree.journal) }
        ensures book { IfOk result (λ r. r.0.the_ground ≡ record { book = tree.book; entries = tree.entries }) }
        ensures pass { IfOk result (λ r. r.1 ≡ first_pass r.0) }
        ensures legal { IsLegal W.value tree.book tree.journal }
    {
        // The tree says of its length that it is short, and that the journal is legal.
        let _ = tree.length();
        let cache = StateCache::new(alloc)?;
        let (shared, pass) = Shared::open(alloc, BoardTree { tree })?;
        Ok((shared, BoardPass { pass, cache }))
    }

    /// Splits a pass off pass 0.
    pub(crate) fn split(
        &mut self,
        alloc: Global,
        shared: &Shared<BoardTree<W>>,
        number: u32,
    ) -> Result<BoardPass<W>, AllocError>
        requires own { IsPassOf shared.now self.old }
        requires root { self.old.number ≡ 0 }
        requires number { (0 < number) × (number < 64) × (¬ Contains self.old.gave number) }
        ensures pass { OnOk result (self.new ≡ record self.old { gave = self.old.gave ++ number ∷ [] }) }
        ensures new { IfOk result (λ new. new ≡ record self.old { number = number; gave = []; took = []; told = 0; learnt = 0 }) }
    {
        let cache = StateCache::new(alloc)?;
        let pass = shared.split(&mut self.pass, number);
        Ok(BoardPass { pass, cache })
    }

    /// The pass's number, from 0 to 63.
    pub fn number(&self) -> u32
        ensures is { result ≡ self.now.number }
        ensures small { result < 64 }
    {
        self.pass.number()
    }

    /// What a request names, where the cache has all of it.
    fn recall(&mut self, ask: &Ask) -> Result<Option<Found<W::Env, W::State>>, AllocError>
        ensures same { self.new ≡ self.old }
        ensures found { (g : TreeGround W.Env) → self.old.the_ground ≡ Some g → IfOk result (λ recalled. IfSome recalled (λ found. found ≡ found_in (tree_seen W.value g self.old.seen) ask.now)) }
        ensures unnamed { names_any ask.now ≡ false → IsOk result × IfOk result IsSome }
    {
        self.cache.recall(ask)
    }

    /// Keeps the states that a look found in the tree of the pass's view.
    fn keep(&mut self, ask: &Ask, found: &Found<W::Env, W::State>)
        requires found { (g : TreeGround W.Env) → self.old.the_ground ≡ Some g → found.now ≡ found_in (tree_seen W.value g self.old.seen) ask.now }
        ensures same { self.new ≡ self.old }
    {
        self.cache.keep(ask, found);
    }

    /// Looks a request up at a turn.
    fn look_up<R: Threads + Wait + Sync>(
        &mut self,
        rt: &R,
        shared: &Shared<BoardTree<W>>,
        request: &Request,
    ) -> Result<Found<W::Env, W::State>, LookFault>
        requires own { IsPassOf shared.now self.old }
        ensures same { OnlySeesMore self.old self.new }
        ensures others { GoesOnFrom self.old self.new.seen }
        ensures legal { IsLegal W.value shared.now.the_ground.book self.old.seen → IsLegal W.value shared.now.the_ground.book self.new.seen }
        ensures found { IfOk result (λ found. found ≡ found_in (tree_seen W.value shared.now.the_ground self.new.seen) request.now.ask) }
        ensures in_time { OnOk result (self.new.found < MAX_TURNS) }
        ensures fails { IfErr result (LookFails (names_any request.now.ask) self.old self.new) }
    {
        look_in_turn(rt, shared, &mut self.pass, request)
    }

    /// Looks a request up at a turn, and keeps the states that it finds.
    fn look_and_keep<R: Threads + Wait + Sync>(
        &mut self,
        rt: &R,
        shared: &Shared<BoardTree<W>>,
        request: &Request,
    ) -> Result<Found<W::Env, W::State>, LookFault>
        requires own { IsPassOf shared.now self.old }
        ensures same { OnlySeesMore self.old self.new }
        ensures others { GoesOnFrom self.old self.new.seen }
        ensures legal { IsLegal W.value shared.now.the_ground.book self.old.seen → IsLegal W.value shared.now.the_ground.book self.new.seen }
        ensures found { IfOk result (λ found. found ≡ found_in (tree_seen W.value shared.now.the_ground self.new.seen) request.now.ask) }
        ensures in_time { OnOk result (self.new.found < MAX_TURNS) }
        ensures fails { IfErr result (LookFails (names_any request.now.ask) self.old self.new) }
    {
        let found = self.look_up(rt, shared, request)?;
        self.keep(&request.ask, &found);
        Ok(found)
    }

    /// Looks a request up in the cache, or else at a turn.
    pub(crate) fn look<R: Threads + Wait + Sync>(
        &mut self,
        rt: &R,
        shared: &Shared<BoardTree<W>>,
        request: &Request,
    ) -> Result<Found<W::Env, W::State>, LookFault>
        requires own { IsPassOf shared.now self.old }
        ensures same { OnlySeesMore self.old self.new }
        ensures others { GoesOnFrom self.old self.new.seen }
        ensures legal { IsLegal W.value shared.now.the_ground.book self.old.seen → IsLegal W.value shared.now.the_ground.book self.new.seen }
        ensures found { IfOk result (λ found. found ≡ found_in (tree_seen W.value shared.now.the_ground self.new.seen) request.now.ask) }
        ensures unnamed { names_any request.now.ask ≡ false → IsOk result × (self.new ≡ self.old) }
        ensures in_time { OnOk result (IsInTime self.old self.new) }
        ensures fails { IfErr result (LookFails (names_any request.now.ask) self.old self.new) }
    {
        match self.recall(&request.ask) {
            Ok(Some(found)) => Ok(found),
            Ok(None) => self.look_and_keep(rt, shared, request),
            Err(_) => Err(LookFault::Memory),
        }
    }
}
