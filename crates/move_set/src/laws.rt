//! The laws of moves. Each function is a law, stated by its contract; none is called at run time.

ghost use Rattle.move_set.specs.Laws.{MovingIsLegal, MovingKeeps, MovingHasFootprint, IndependentGoalsStay, UncoupledGoalsStay, OtherGoalsStay, MovesHaveFuelLaw, ApplyingUnfolds};

/// A move in a legal state makes a legal state.
#[tactic(auto, using(crate::proofs::States::moving_is_legal))]
pub fn moving_is_legal()
    ensures { MovingIsLegal }
{}

/// A move in a legal state leaves the items, and each declaration and value.
#[tactic(auto, using(crate::proofs::States::moving_keeps))]
pub fn moving_keeps()
    ensures { MovingKeeps }
{}

/// A move assigns open metavariables among its goal and the goal's dependencies, and what it declared itself, and no other metavariable.
/// An open goal that needs none of these has the context and the type that it had, also with assigned metavariables unfolded.
/// So does every other open goal that is not coupled with it, and each other open goal where it is independent, as `coupling` has these words.
pub fn moving_has_footprint()
    ensures assigned { MovingHasFootprint }
    ensures independent { IndependentGoalsStay }
    ensures uncoupled { UncoupledGoalsStay }
    ensures others { OtherGoalsStay }
{}

/// A move's answer with some units tells its answer with every other number of units. Applying a term is a turn and then the same.
pub fn moves_have_fuel_law()
    ensures fuel { MovesHaveFuelLaw }
    ensures unfolds { ApplyingUnfolds }
{}
