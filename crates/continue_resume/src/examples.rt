ghost use Rattle.std.specs.Prelude.{◌≡◌, [], ◌∷◌, codes};
ghost use Rattle.continue_resume.specs.Continuing.{TargetHasGoals, RootDiffers, Continues, continued};
ghost use Rattle.continue_resume.specs.Resuming.{GoalUndeclared, GoalAssigned, Resumes, resumed};
ghost use Rattle.continue_resume.specs.Examples.{branch, target, target_with_goal, other_theorem, target_over, branch_over};

/// Worked examples of states, which the checker computes.
pub fn states_compute()
    // of the branch's goals 1, 2 and 3 the target has assigned the first two
    ensures third { continued target branch ≡ Continues target_with_goal }
    ensures has_goals { continued branch target ≡ TargetHasGoals 3 }
    // a target with goals is refused before the roots are compared
    ensures first_refusal { continued other_theorem branch ≡ TargetHasGoals 1 }
    ensures theorem { continued target other_theorem ≡ RootDiffers }
    ensures items { continued target (branch_over (codes "x")) ≡ RootDiffers }
    ensures parameter { continued (target_over (codes "x")) (branch_over (codes "y")) ≡ RootDiffers }
    ensures dormant { resumed target (3 ∷ []) ≡ Resumes target_with_goal }
    ensures once { resumed target (3 ∷ 3 ∷ []) ≡ Resumes target_with_goal }
    ensures active { resumed target_with_goal (3 ∷ []) ≡ Resumes target_with_goal }
    ensures assigned { resumed target (1 ∷ []) ≡ GoalAssigned 1 }
    ensures undeclared { resumed target (9 ∷ []) ≡ GoalUndeclared 9 }
    ensures first_listed { resumed target (3 ∷ 9 ∷ 1 ∷ []) ≡ GoalUndeclared 9 }
    ensures nothing { resumed target [] ≡ Resumes target }
{}
