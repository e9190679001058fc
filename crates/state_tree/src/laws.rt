//! The laws of the tree that the layers above use. Nothing here is called at run time.

ghost use Rattle.state_tree.specs.Replies.{RepliesAreShown};
ghost use Rattle.state_tree.specs.Laws.{LooksHold, FoundStays, LookedUpIsEntered, GivenUpIsEntered};

use crate::work::Work;

/// What a look finds is what the tree holds, so it may be entered.
pub fn looks_hold<W: Work>()
    ensures { LooksHold W.Env W.State }
{}

/// Made ids keep their values: what was found in a tree is held in each tree whose journal goes on from there.
pub fn found_stays<W: Work>()
    ensures { FoundStays W.value }
{}

/// A request that was looked up in this very tree is entered, unless the journal is full.
pub fn looked_up_is_entered<W: Work>()
    ensures { LookedUpIsEntered W.Env W.State }
{}

/// A request that was given up is entered, unless the journal is full.
pub fn given_up_is_entered<W: Work>()
    ensures { GivenUpIsEntered W.Env W.State }
{}

/// Each reply is one line. It is the memory line of its number exactly where its entry says `Memory`.
pub fn replies_are_shown<W: Work>()
    ensures { RepliesAreShown W.value }
{}
