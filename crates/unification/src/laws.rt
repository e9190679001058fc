//! The laws of soundness and of the footprint of unification.

ghost use Rattle.unification.specs.Laws.{
  UnifyingIsSound,
  SettlingIsSound,
  UnifyingHasFootprint,
  SettlingHasFootprint,
};

/// Terms that are unified in legal metavariables are βδ-equal in legal ones, by steps in the environment cut to the dependencies of
/// the two terms; each declaration and value stays.
pub fn unifying_is_sound()
    ensures { UnifyingIsSound }
{}

/// A metavariable that is settled in legal metavariables has the value in legal ones; each declaration and value stays.
pub fn settling_is_sound()
    ensures { SettlingIsSound }
{}

/// Unification assigns only metavariables without a value that one of the two terms depends on. What it declares lies over entries of
/// their contexts, and what it declares or assigns speaks of such and of new metavariables alone.
#[tactic(auto, using(crate::proofs::Footprint::unifying_has_footprint))]
pub fn unifying_has_footprint()
    ensures { UnifyingHasFootprint }
{}

/// Settling assigns only metavariables without a value that its metavariable or the value depends on, the metavariable itself among them.
/// What it declares lies over entries of their contexts, and what it declares or assigns speaks of such and of new metavariables alone.
#[tactic(auto, using(crate::proofs::Footprint::settling_has_footprint))]
pub fn settling_has_footprint()
    ensures { SettlingHasFootprint }
{}
