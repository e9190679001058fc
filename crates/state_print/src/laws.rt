//! Laws of printed states. Nothing here is called at run time.

ghost use Rattle.state_print.specs.Laws.{EachGoalIsShown, SolvedIsShown, TheoremIsUnfolded, ShownStatesAreReplies};

/// A legal state shows each of its active goals.
#[tactic(auto, using(crate::proofs::Shown::each_goal_is_shown))]
pub fn each_goal_is_shown()
    ensures { EachGoalIsShown }
{}

/// A state is shown as solved exactly where no goal is open.
#[tactic(auto, using(crate::proofs::Shown::solved_is_shown))]
pub fn solved_is_shown()
    ensures { SolvedIsShown }
{}

/// The theorem of a legal state prints as it stands, since no metavariable in it is left to be unfolded.
pub fn theorem_is_unfolded()
    ensures { TheoremIsUnfolded }
{}

/// The replies that show a state are lines, and none is the memory line.
pub fn shown_states_are_replies()
    ensures { ShownStatesAreReplies }
{}
