//! The passes of a new board.

ghost use Rattle.std.specs.Prelude.{◌≡◌, ◌≤◌, length, IfOk};
ghost use Rattle.turn_lock.specs.Meanings.{first_pass};
ghost use Rattle.shared_board.specs.Opening.{AreSplit};

use crate::board_pass::BoardPass;
use crate::board_tree::BoardTree;
use state_tree::Work;
use std::alloc::{AllocError, Global};
use turn_lock::Shared;

/// Pass 0 and the passes that are split off it, so many together. Pass i stands at place i.
///
/// # Errors
///
/// Want of memory alone.
pub fn split_passes<W: Work>(
    alloc: Global,
    shared: &Shared<BoardTree<W>>,
    first: BoardPass<W>,
    count: u32,
) -> Result<Vec<BoardPass<W>>, AllocError>
    requires first { first ≡ first_pass shared.now }
    requires count { (1 ≤ count) × (count ≤ 64) }
    ensures count { IfOk result (λ all. length all.items ≡ count) }
    ensures split { IfOk result (λ all. AreSplit shared.now count all.items) }
{
    let mut all = Vec::with_capacity(alloc, count as usize)?;
    all.push_reserved(first);
    for number in 1..count {
        let pass = all[0].split(alloc, shared, number)?;
        all.push_reserved(pass);
    }
    Ok(all)
}
