//! The laws of goal commands. Each function is a law, stated by its contract; none is called at run time.

ghost use Rattle.command_set.specs.Theorems.{StatesProve, PrintedProofsAreProofs};

/// In every history over a legal book each state is legal, and of the theorem that the text of its `goal.start` is.
#[tactic(auto, using(crate::proofs::Proved::states_prove))]
pub fn states_prove()
    ensures { StatesProve }
{}

/// Each reply that prints a state as solved shows a proof of that theorem: a text that reads as a closed term without metavariables, which
/// the rules derive to have the theorem's type in the state's environment alone.
pub fn printed_proofs_are_proofs()
    ensures { PrintedProofsAreProofs }
{}
