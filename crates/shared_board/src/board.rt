//! The board.

ghost use Rattle.std.specs.Prelude.{◌≡◌, ◌<◌, ◌≤◌, ◌+◌, ◌∷◌, [], ℕ, max, length, IfOk, OnOk, IfErr, IsOk, true, false, All, Contains, HoldsAt};
ghost use Rattle.repl_json.specs.Names.{names_any};
ghost use Rattle.state_tree.specs.Server.{found_in};
ghost use Rattle.state_tree.specs.TreeModel.{Holds};
ghost use Rattle.state_tree.specs.Prepared.{is_refused};
ghost use Rattle.state_tree.specs.Again.{is_bad};
ghost use Rattle.turn_lock.specs.Meanings.{MAX_TURNS};
ghost use Rattle.turn_lock.specs.Journals.{ExtendsByOthers, DifferByOthers, longer};
ghost use Rattle.shared_board.specs.Boards.{IsBoardPassOf, IsBoardNoteOf, IsNewPass, pass_of};
ghost use Rattle.shared_board.specs.Calls.{GoesOnFrom, OnlySeesMore, IsInTime, IsWorn, LookFails, tree_seen, EntersAfter};
ghost use Rattle.shared_board.specs.Closing.{numbers_of, NotesAreLearnt, IsClosedJournal, IsLastPass};

use crate::board_pass::BoardPass;
use crate::board_tree::BoardTree;
use crate::closing::{join_all, take_root};
use crate::opening::split_passes;
use crate::turns::{LookFault, enter_in_turn};
use repl_json::Request;
use state_tree::{Found, Outcome, Ready, Tree, Work};
use std::alloc::{AllocError, Global};
use std::marker::Model;
use std::sync::Wait;
use std::thread::Threads;
use turn_lock::{Note, Shared, Worn};

/// A tree that 1 to 64 passes share. Contracts see its lock, with the ground (the book and the number of entries that there
/// may be) and the journal that `open` found in the tree, and how many passes `open` gave.
#[derive(Drop)]
pub struct Board<W: Work> {
    shared: Shared<BoardTree<W>>,
    passes: u32,
}

impl<W: Work> Model for Board<W> {
    ghost use Rattle.std.specs.Prelude.{◌<◌};
    ghost use Rattle.shared_board.specs.Boards.{BoardMeaning};

    ghost Value = { BoardMeaning W.Env };

    ghost view = { λ b. record { lock = b.shared; passes = b.passes } };

    ghost invariant = { λ b. 0 < b.passes };
}

impl<W: Work> Board<W> {
    /// The board of a tree, with so many passes. Pass i has the number i. Takes all the memory that the passes' caches are
    /// sure to have.
    ///
    /// # Errors
    ///
    /// Want of memory alone; the tree is dropped.
    pub fn open(
        alloc: Global,
        tree: Tree<W>,
        passes: u32,
    ) -> Result<(Board<W>, Vec<BoardPass<W>>), AllocError>
        requires passes { (1 ≤ passes) × (passes ≤ 64) }
        ensures book { IfOk result (λ r. r.0.lock.the_ground.book ≡ tree.book) }
        ensures entries { IfOk result (λ r. r.0.lock.the_ground.entries ≡ tree.entries) }
        ensures journal { IfOk result (λ r. r.0.lock.journal ≡ tree.journal) }
        ensures count { IfOk result (λ r. (r.0.passes ≡ passes) × (length r.1.items ≡ passes)) }
        ensures passes { IfOk result (λ r. (i : ℕ) → i < passes → HoldsAt (IsNewPass W.value r.0 i) r.1.items i) }
    {
        let (shared, first) = BoardPass::open(alloc, tree)?;
        let all = split_passes(alloc, &shared, first, passes)?;
        Ok((Board { shared, passes }, all))
    }

    /// Finds what a request names, live or not, as the tree of the pass's view holds it: each environment or state exactly
    /// where that view has made its id. The view that counts is the one that the look leaves. A look takes a turn only
    /// where the request names something that the pass's cache doesn't hold, and may wait for it.
    ///
    /// # Errors
    ///
    /// `Worn` where a turn was needed and 4,611,686,018,427,387,904 turns were drawn before. `Memory` for want of memory,
    /// and only for a request that names an environment or a state; the view may have grown then.
    pub fn look<R: Threads + Wait + Sync>(
        &self,
        rt: &R,
        pass: &mut BoardPass<W>,
        request: &Request,
    ) -> Result<Found<W::Env, W::State>, LookFault>
        requires own { IsBoardPassOf W.value self.now pass.old }
        ensures own { IsBoardPassOf W.value self.now pass.new }
        ensures same { OnlySeesMore pass.old pass.new }
        ensures others { GoesOnFrom pass.old pass.new.seen }
        ensures found { IfOk result (λ found. found ≡ found_in (tree_seen W.value self.now.lock.the_ground pass.new.seen) request.now.ask) }
        // A request that names nothing is answered, and without a turn.
        ensures unnamed { names_any request.now.ask ≡ false → IsOk result × (pass.new ≡ pass.old) }
        ensures in_time { OnOk result (IsInTime pass.old pass.new) }
        ensures fails { IfErr result (LookFails (names_any request.now.ask) pass.old pass.new) }
    {
        pass.look(rt, &self.shared, request)
    }

    /// Enters a request as the next entry of the journal, with the pass's number, as the tree does it. It waits for a turn.
    /// No work runs, and no memory is taken.
    ///
    /// # Errors
    ///
    /// `Worn` exactly where 4,611,686,018,427,387,904 turns were drawn before. Nothing is entered then.
    pub fn enter<R: Threads + Wait + Sync>(
        &self,
        rt: &R,
        pass: &mut BoardPass<W>,
        ready: Ready<W>,
    ) -> Result<Outcome<W>, Worn>
        requires own { IsBoardPassOf W.value self.now pass.old }
        // What was found is what the tree of the pass's view holds. A look through the pass gives that.
        requires held { Holds (tree_seen W.value self.now.lock.the_ground pass.old.seen) ready.request.ask ready.found }
        requires bad { is_bad ready.request.ask ≡ true → is_refused ready ≡ false }
        ensures own { IsBoardPassOf W.value self.now pass.new }
        ensures same { OnlySeesMore pass.old pass.new }
        ensures entered { IfOk result (EntersAfter W.value self.now.lock.the_ground pass.old pass.new ready) }
        ensures in_time { OnOk result (pass.new.found < MAX_TURNS) }
        ensures worn { IfErr result (λ worn. IsWorn worn.turns pass.old pass.new) }
    {
        enter_in_turn(rt, &self.shared, &mut pass.pass, ready)
    }

    /// Tells what the pass has seen: the note holds a copy of its view, which stays as it was. Takes no memory.
    pub fn tell(&self, pass: &mut BoardPass<W>) -> Note<BoardTree<W>>
        requires own { IsBoardPassOf W.value self.now pass.old }
        ensures own { IsBoardPassOf W.value self.now pass.new }
        ensures pass { pass.new ≡ record pass.old { told = pass.old.told + 1 } }
        ensures note { IsBoardNoteOf W.value self.now result }
        ensures seen { result.seen ≡ pass.old.seen }
        ensures found { result.found ≡ pass.old.found }
    {
        self.shared.tell(&mut pass.pass)
    }

    /// Takes a note in. The pass has then seen the longer of its view and the note's. Takes no memory.
    pub fn learn(&self, pass: &mut BoardPass<W>, note: Note<BoardTree<W>>)
        requires own { IsBoardPassOf W.value self.now pass.old }
        requires note { IsBoardNoteOf W.value self.now note }
        ensures own { IsBoardPassOf W.value self.now pass.new }
        ensures pass { pass.new ≡ record pass.old { seen = longer pass.old.seen note.seen; learnt = pass.old.learnt + 1; found = max pass.old.found note.found } }
        // one of the two views is a beginning of the other
        ensures either { DifferByOthers pass_of pass.old.seen (pass.old.number ∷ pass.old.took) note.seen [] }
        // so what was told is a beginning of what is seen now, and what is new to the pass is by others
        ensures told { ExtendsByOthers pass_of note.seen pass.new.seen [] }
        ensures others { GoesOnFrom pass.old pass.new.seen }
    {
        self.shared.learn(&mut pass.pass, note);
    }

    /// Ends the board, and gives the tree back, with pass 0. All passes have to be handed in, in any order, and to have
    /// learnt as many notes as they told. Takes no memory.
    pub fn close(self, mut passes: Vec<BoardPass<W>>) -> (Tree<W>, BoardPass<W>)
        requires own { All (IsBoardPassOf W.value self) passes.items }
        requires numbers { (n : ℕ) → n < self.passes → Contains (numbers_of passes.items) n }
        requires notes { NotesAreLearnt passes.items }
        ensures book { result.0.book ≡ self.lock.the_ground.book }
        ensures entries { result.0.entries ≡ self.lock.the_ground.entries }
        ensures journal { IsClosedJournal self passes.items result.0.journal }
        ensures last { IsLastPass self passes.items result.0.journal result.1 }
    {
        let Board { shared, passes: _ } = self;
        let BoardPass {
            mut pass,
            mut cache,
        } = take_root(&mut passes);
        join_all(&shared, &mut pass, passes);
        let (kept, pass) = shared.close(pass);
        cache.clear();
        (kept.tree, BoardPass { pass, cache })
    }
}
