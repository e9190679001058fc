ghost use Rattle.continue_resume.specs.Laws.{RootsAreDecided, SharedGoalsAreDecided, ContinuingIsLegal, ResumingIsLegal};

/// The test of roots decides whether two states have the same items, names of parameters included, and the same theorem.
pub fn roots_are_decided()
    ensures { RootsAreDecided }
{}

/// The test of shared goals decides which goals two states share.
pub fn shared_goals_are_decided()
    ensures { SharedGoalsAreDecided }
{}

/// A state that goes on with another one is legal, with the items and the metavariables that it had.
pub fn continuing_is_legal()
    ensures { ContinuingIsLegal }
{}

/// A state with dormant goals made active is legal, with the items and the metavariables that it had.
pub fn resuming_is_legal()
    ensures { ResumingIsLegal }
{}
