//! The tree's calls at a turn of the lock.

ghost use Rattle.std.specs.Prelude.{◌≡◌, ◌<◌, ◌≤◌, ◌∷◌, IfOk, OnOk, IfErr, IsOk, true, false};
ghost use Rattle.repl_json.specs.Names.{names_any};
ghost use Rattle.state_tree.specs.Server.{found_in, IsLegal};
ghost use Rattle.state_tree.specs.TreeModel.{Holds};
ghost use Rattle.state_tree.specs.Enters.{Enters, tree_of};
ghost use Rattle.state_tree.specs.Prepared.{is_refused};
ghost use Rattle.state_tree.specs.Again.{is_bad};
ghost use Rattle.turn_lock.specs.Meanings.{MAX_TURNS, IsPassOf};
ghost use Rattle.shared_board.specs.Calls.{GoesOnFrom, OnlySeesMore, IsWorn, LookFails, tree_seen, EntersAfter};

use crate::board_tree::BoardTree;
use repl_json::Request;
use state_tree::{Found, Outcome, Ready, Work};
use std::alloc::AllocError;
use std::sync::Wait;
use std::thread::Threads;
use turn_lock::{Pass, Shared, Worn};

/// Why a look at a board failed.
#[derive(Debug, Clone, Copy, PartialEq, Eq, Drop)]
pub enum LookFault {
    /// The look needed a turn, and the board has had all its turns. `turns` is the pass's found number.
    Worn { turns: u64 },
    /// There was no memory for a handle of what the request names.
    Memory,
}

/// Looks a request up in the tree that the turn finds.
pub fn look_in_turn<W: Work, R: Threads + Wait + Sync>(
    rt: &R,
    shared: &Shared<BoardTree<W>>,
    pass: &mut Pass<BoardTree<W>>,
    request: &Request,
) -> Result<Found<W::Env, W::State>, LookFault>
    requires own { IsPassOf shared.now pass.old }
    ensures same { OnlySeesMore pass.old pass.new }
    ensures others { GoesOnFrom pass.old pass.new.seen }
    // the journal is legal at a turn; a look or an entry without one leaves the view as it was
    ensures legal { IsLegal W.value shared.now.the_ground.book pass.old.seen → IsLegal W.value shared.now.the_ground.book pass.new.seen }
    ensures found { IfOk result (λ found. found ≡ found_in (tree_seen W.value shared.now.the_ground pass.new.seen) request.now.ask) }
    ensures in_time { OnOk result (pass.new.found < MAX_TURNS) }
    ensures fails { IfErr result (LookFails (names_any request.now.ask) pass.old pass.new) }
{
    let looked = shared.turn(
        rt,
        pass,
        |kept: &mut BoardTree<W>| -> Result<Found<W::Env, W::State>, AllocError>
            ensures same { kept.new ≡ kept.old }
            ensures found { IfOk result (λ found. found ≡ found_in (tree_of W.value kept.old.tree) request.entry.now.ask) }
            ensures unnamed { names_any request.entry.now.ask ≡ false → IsOk result }
            ensures legal { IsLegal W.value kept.new.tree.book kept.new.tree.journal }
        { kept.look(request) },
    );
    match looked {
        Ok(Ok(found)) => Ok(found),
        Ok(Err(_)) => Err(LookFault::Memory),
        Err(worn) => Err(LookFault::Worn { turns: worn.turns }),
    }
}

/// Enters a request into the tree that the turn finds.
pub fn enter_in_turn<W: Work, R: Threads + Wait + Sync>(
    rt: &R,
    shared: &Shared<BoardTree<W>>,
    pass: &mut Pass<BoardTree<W>>,
    ready: Ready<W>,
) -> Result<Outcome<W>, Worn>
    requires own { IsPassOf shared.now pass.old }
    requires held { Holds (tree_seen W.value shared.now.the_ground pass.old.seen) ready.request.ask ready.found }
    requires bad { is_bad ready.request.ask ≡ true → is_refused ready ≡ false }
    ensures same { OnlySeesMore pass.old pass.new }
    // the journal is legal at a turn; a look or an entry without one leaves the view as it was
    ensures legal { IsLegal W.value shared.now.the_ground.book pass.old.seen → IsLegal W.value shared.now.the_ground.book pass.new.seen }
    ensures entered { IfOk result (EntersAfter W.value shared.now.the_ground pass.old pass.new ready) }
    ensures in_time { OnOk result (pass.new.found < MAX_TURNS) }
    ensures worn { IfErr result (λ worn. IsWorn worn.turns pass.old pass.new) }
{
    let number = pass.number();
    let outcome = shared.turn(
        rt,
        pass,
        move |kept: &mut BoardTree<W>| -> Outcome<W>
            requires held { Holds (tree_of W.value kept.old.tree) ready.request.ask ready.found }
            requires bad { is_bad ready.request.ask ≡ true → is_refused ready ≡ false }
            ensures entered { Enters W.value kept.old.tree kept.new.tree number ready result }
            ensures legal { IsLegal W.value kept.new.tree.book kept.new.tree.journal }
        { kept.enter(number, ready) },
    )?;
    Ok(outcome)
}
