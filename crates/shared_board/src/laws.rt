//! The law of looking again. Nothing here is called at run time.

ghost use Rattle.shared_board.specs.Laws.{AgainIsFound};

use state_tree::Work;

/// The id of an `Again` is found by the next look: it is found in each tree whose journal goes on from there.
pub fn again_is_found<W: Work>()
    ensures { AgainIsFound W.value }
{}
