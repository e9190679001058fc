ghost use Rattle.std.specs.Prelude.{◌≡◌, ◌↔◌, ℕ, true, List as Listed};
ghost use Rattle.ld_trees.specs.Term.{Term};
ghost use Rattle.ld_terms.specs.declared.globals.Decl.{Decl};
ghost use Rattle.meta_context.specs.Declaring.{IsOpen};
ghost use Rattle.meta_context.specs.Stored.{metas_of};
ghost use Rattle.goal_state.specs.State.{is_open, plain_metas, rules_metas};
ghost use Rattle.goal_state.specs.Laws.{StartingIsLegal, SolvedIsProved};

/// A state that is started in a legal environment is legal.
pub fn starting_is_legal()
    ensures { StartingIsLegal }
{}

/// The value of a legal state that is solved has the type of metavariable 0 in the environment alone, is closed, and has no
/// metavariable.
pub fn solved_is_proved()
    ensures { SolvedIsProved }
{}

/// Stored metavariables and the plain ones that they mean have the same open goals, and are the same metavariable context.
#[tactic(auto, using(crate::proofs::Means::metas_again, crate::proofs::Means::open_again))]
pub fn stored_states_mean_the_same<H>()
    ensures goals { (means : H → Term) (ds : Listed (Decl H)) (m : ℕ) → is_open (plain_metas means ds) m ≡ is_open ds m }
    ensures metas { (means : H → Term) (ds : Listed (Decl H)) → rules_metas (plain_metas means ds) ≡ metas_of means ds }
{}

/// A metavariable passes the test of open goals exactly where it is declared and has no value.
pub fn open_goals_are_decided<H>()
    ensures { (ds : Listed (Decl H)) (m : ℕ) → (is_open ds m ≡ true) ↔ IsOpen ds m }
{}
