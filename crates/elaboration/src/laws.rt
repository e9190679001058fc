//! The laws of elaboration. Each function is a law, stated by its contract; none is called at run time.

ghost use Rattle.elaboration.specs.Laws.{ElaborationHasFuelLaw, SynthesisIsSound, CheckingIsSound, CheckingTypesIsSound};
ghost use Rattle.elaboration.specs.Order.{HolesAreNumberedInTextOrder};

/// The fuel law of elaboration, in both directions and as a type: an answer with n units that used u comes with each number of units of
/// at least u, which leaves u fewer, and fewer than u are too few.
pub fn elaboration_has_fuel_law()
    ensures { ElaborationHasFuelLaw }
{}

/// What is elaborated by itself, in a context that is legal in its own cut: legal metavariables in which each declaration and value
/// stays and of which only dependencies of the context have got values, a scoped term with a scoped type, and new holes.
#[tactic(auto, using(crate::proofs::Sound::synthesis_is_sound))]
pub fn synthesis_is_sound()
    ensures { SynthesisIsSound }
{}

/// The same of what is checked against a scoped term, of whose dependencies too some may have got values.
#[tactic(auto, using(crate::proofs::Sound::checking_is_sound))]
pub fn checking_is_sound()
    ensures { CheckingIsSound }
{}

/// The same of what is checked as a type.
#[tactic(auto, using(crate::proofs::Sound::checking_types_is_sound))]
pub fn checking_types_is_sound()
    ensures { CheckingTypesIsSound }
{}

/// The holes of a text have one metavariable each, whose numbers ascend in text order, from any metavariables on and in any context: what
/// is elaborated lists the `?`, and the `_` with their places, with these numbers.
pub fn holes_are_numbered_in_text_order()
    ensures { HolesAreNumberedInTextOrder }
{}
