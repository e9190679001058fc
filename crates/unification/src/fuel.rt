//! Laws of the units of fuel that unification spends.

ghost use Rattle.unification.specs.Laws.{
  UnificationHasFuelLaw,
  SettlingHasFuelLaw,
  UnificationUnfolds,
  SolvingUnfolds,
};

/// The fuel law of unification: an answer with n units that used u comes with each number of units of at least u, which leaves u
/// fewer, and fewer than u are too few.
pub fn unification_has_fuel_law()
    ensures { UnificationHasFuelLaw }
{}

/// The fuel law of settling, in the same words.
pub fn settling_has_fuel_law()
    ensures { SettlingHasFuelLaw }
{}

/// Unification is a step over the unification of others: the bound on its levels makes no difference.
pub fn unification_unfolds()
    ensures { UnificationUnfolds }
{}

/// Solving is a step over the solving in metavariables that are pruned: the bound on its rounds makes no difference.
pub fn solving_unfolds()
    ensures { SolvingUnfolds }
{}
