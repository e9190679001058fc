ghost use Rattle.std.specs.Prelude.{◌≡◌, [], ◌∷◌};
ghost use Rattle.ld_trees.specs.Term.{Star, Pi};
ghost use Rattle.ld_rules.specs.Examples.{identity, identity_type};
ghost use Rattle.conversion.specs.Runs.{Gave, OutOfFuel, Refused, NotType};
ghost use Rattle.goal_state.specs.State.{open_goals, dormant, root_value, root_type, IsSolved};
ghost use Rattle.goal_state.specs.Starting.{TooDeep, Inferred, started, first_state};
ghost use Rattle.goal_state.specs.Examples.{deep, halved, proved};

/// Worked examples of states, which the checker computes.
pub fn states_compute()
    // (A : *) -> A -> A has its sort after five units
    ensures begins { started [] identity_type 5 ≡ Inferred (Gave (first_state [] identity_type) 0) }
    ensures too_few { started [] identity_type 4 ≡ Inferred OutOfFuel }
    ensures refused { started [] identity 9 ≡ Inferred (Refused (NotType 0 identity) 4) }
    ensures deepest { started [] (deep 4095) 0 ≡ Inferred OutOfFuel }
    ensures too_deep { started [] (deep 4096) 0 ≡ TooDeep 0 }
    ensures one_goal { open_goals (first_state [] identity_type) ≡ 0 ∷ [] }
    ensures none_dormant { dormant (first_state [] identity_type) ≡ [] }
    // metavariable 0 has a value, 1 is dormant and 2 is active
    ensures still_open { open_goals halved ≡ 1 ∷ 2 ∷ [] }
    ensures left_out { dormant halved ≡ 1 ∷ [] }
    ensures unsolved { ¬ IsSolved halved }
    // ?0 := fun (A : *) => ?1[A], and in A : * the value ?1 := fun (x : A) => x
    ensures solved { IsSolved proved }
    ensures value { root_value proved ≡ identity }
    ensures theorem { root_type proved ≡ identity_type }
{}
