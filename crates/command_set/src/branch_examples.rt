//! Worked replies of `goal.continue` and `goal.resume`, which the checker computes. Nothing here is called at run time.

ghost use Rattle.std.specs.Prelude.{◌≡◌, codes, [], ◌∷◌};
ghost use Rattle.continue_resume.specs.Examples.{branch, target, target_with_goal, other_theorem};
ghost use Rattle.state_print.specs.Examples.{body};
ghost use Rattle.state_tree.specs.Value.{Says, MakesState};
ghost use Rattle.command_set.specs.Branches.{continue_with, resume_with};
ghost use Rattle.command_set.specs.Examples.{reply};

/// A proof of le(a(), b()) by transitivity: a branch with three goals, and a target in which two of them have values and the third,
/// |- ?3 : le(c(), b()), is dormant.
fn branches_compute()
    ensures continues { continue_with target branch ≡ MakesState target_with_goal (body (codes "{\"dormant\":[],\"goals\":[{\"coupled\":[],\"goal\":3,\"target\":\"le(c(), b())\",\"vars\":[]}],\"seq\":") (codes ",\"solved\":false,\"stateId\":") (codes "}")) }
    ensures has_goals { continue_with branch target ≡ Says (reply (codes "{\"count\":3,\"error\":\"targetHasGoals\",\"seq\":") (codes "}")) }
    ensures other_root { continue_with target other_theorem ≡ Says (reply (codes "{\"error\":\"rootDiffers\",\"seq\":") (codes "}")) }
    // A goal that is listed twice becomes active once.
    ensures resumes { resume_with target (3 ∷ 3 ∷ []) ≡ MakesState target_with_goal (body (codes "{\"dormant\":[],\"goals\":[{\"coupled\":[],\"goal\":3,\"target\":\"le(c(), b())\",\"vars\":[]}],\"seq\":") (codes ",\"solved\":false,\"stateId\":") (codes "}")) }
    ensures nothing { resume_with target [] ≡ MakesState target (body (codes "{\"dormant\":[3],\"goals\":[],\"seq\":") (codes ",\"solved\":false,\"stateId\":") (codes "}")) }
    // The first number that is refused is the answer.
    ensures assigned { resume_with target (3 ∷ 1 ∷ 9 ∷ []) ≡ Says (reply (codes "{\"error\":\"goalAssigned\",\"goal\":1,\"seq\":") (codes "}")) }
    ensures undeclared { resume_with target (9 ∷ 1 ∷ []) ≡ Says (reply (codes "{\"error\":\"goalUndeclared\",\"goal\":9,\"seq\":") (codes "}")) }
{}
