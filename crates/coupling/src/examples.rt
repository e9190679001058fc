ghost use Rattle.std.specs.Prelude.{◌≡◌, [], ◌∷◌};
ghost use Rattle.goal_state.specs.State.{dormant};
ghost use Rattle.coupling.specs.Coupling.{needs, coupled, IsIndependent};
ghost use Rattle.coupling.specs.Examples.{between, by_c, one_active, by_a_value};

/// Worked examples of goals, which the checker computes.
pub fn goals_compute()
    // ?1 : N(), ?2 : le(a(), ?1[]) and ?3 : le(?1[], b())
    ensures itself { needs between 1 ≡ 1 ∷ [] }
    ensures by_type { needs between 2 ≡ 1 ∷ 2 ∷ [] }
    ensures by_other_type { needs between 3 ≡ 1 ∷ 3 ∷ [] }
    ensures first { coupled between 1 ≡ 2 ∷ 3 ∷ [] }
    ensures second { coupled between 2 ≡ 1 ∷ 3 ∷ [] }
    ensures third { coupled between 3 ≡ 1 ∷ 2 ∷ [] }
    // with c() for ?1 the goal ?3 stands alone
    ensures alone { needs by_c 3 ≡ 3 ∷ [] }
    ensures independent { IsIndependent by_c 3 }
    // ?1 and ?3 are dormant, and are coupled with ?2 all the same
    ensures dormant { dormant one_active ≡ 1 ∷ 3 ∷ [] }
    ensures counted { coupled one_active.metas 2 ≡ 1 ∷ 3 ∷ [] }
    // ?2 : le(?0[], b()) needs ?1, which is the value of ?0
    ensures by_value { needs by_a_value 2 ≡ 1 ∷ 2 ∷ [] }
    ensures through { coupled by_a_value 1 ≡ 2 ∷ [] }
    ensures apart { IsIndependent by_a_value 3 }
{}
