ghost use Rattle.coupling.specs.Laws.{NeedIsDecided, CouplingIsDecided, CouplingIsSymmetric, DormantGoalsCount};

/// The list of needed goals decides what a goal needs.
pub fn need_is_decided()
    ensures { NeedIsDecided }
{}

/// The list of coupled goals decides which goals an open goal is coupled with.
pub fn coupling_is_decided()
    ensures { CouplingIsDecided }
{}

/// An open goal is coupled with each open goal that is coupled with it.
pub fn coupling_is_symmetric()
    ensures { CouplingIsSymmetric }
{}

/// A dormant goal that needs a common goal is among the coupled ones too.
pub fn dormant_goals_count()
    ensures { DormantGoalsCount }
{}
