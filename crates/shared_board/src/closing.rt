//! The passes of a board that is closed.

ghost use Rattle.std.specs.Prelude.{◌≡◌, ◌<◌, [], length, All, Contains, HoldsAt};
ghost use Rattle.turn_lock.specs.Meanings.{IsPassOf};
ghost use Rattle.shared_board.specs.Closing.{numbers_of, IsWithout, TakesBack};

use crate::board_pass::BoardPass;
use crate::board_tree::BoardTree;
use state_tree::Work;
use turn_lock::{Pass, Shared};

/// Where pass 0 stands.
fn place_of_root<W: Work>(passes: &[BoardPass<W>]) -> usize
    requires { Contains (numbers_of passes.now) 0 }
    ensures place { result < length passes.now }
    ensures root { HoldsAt (λ pass. pass.number ≡ 0) passes.now result }
{
    let mut place = 0;
    while passes[place].number() != 0 {
        place += 1;
    }
    place
}

/// Takes pass 0 out of the list.
pub fn take_root<W: Work>(passes: &mut Vec<BoardPass<W>>) -> BoardPass<W>
    requires { Contains (numbers_of passes.old.items) 0 }
    ensures root { result.number ≡ 0 }
    ensures taken { IsWithout passes.old.items passes.new.items result }
{
    let place = place_of_root(passes);
    passes.remove(place)
}

/// Takes all passes back, with their numbers and their counts of notes.
pub fn join_all<W: Work>(
    shared: &Shared<BoardTree<W>>,
    root: &mut Pass<BoardTree<W>>,
    mut passes: Vec<BoardPass<W>>,
)
    requires own { IsPassOf shared.now root.old × (root.old.took ≡ []) × (root.old.number ≡ 0) }
    requires others { All (λ pass. IsPassOf shared.now pass × (pass.took ≡ [])) passes.items }
    ensures { TakesBack passes.items root.old root.new }
{
    while let Some(pass) = passes.pop() {
        let BoardPass { pass, cache: _ } = pass;
        shared.join(root, pass);
    }
}
