//! Worked examples of moves, which the checker computes. Nothing here is called at run time.

ghost use Rattle.std.specs.Prelude.{◌≡◌, true, false, codes, [], ◌∷◌};
ghost use Rattle.ld_trees.specs.Term.{Star, Var, App, Lam, Pi};
ghost use Rattle.unification.specs.Steps.{Gave, Refused, OutOfFuel};
ghost use Rattle.unification.specs.Refusals.{Mismatch, NotPattern, Cycle};
ghost use Rattle.elaboration.specs.Refusals.{Unify, UnknownName};
ghost use Rattle.move_set.specs.Refusals.{Syntax, NoGoal, NameTaken, Unsolved, Elab};
ghost use Rattle.move_set.specs.Moves.{moved};
ghost use Rattle.move_set.specs.Examples.{
  started,
  with_A,
  with_x,
  solved_by,
  of_order,
  with_middle,
  with_lower,
  with_lower_alone,
  with_both,
  refuted,
  with_argument,
  a_number,
  made,
  for_each,
  pruned,
};

/// A proof of `(A : *) -> A -> A` by `intro A`, `intro x` and `exact x`, and refusals on the way.
pub fn moves_compute()
    ensures intro { moved started 0 (codes "intro A") 100000 true ≡ Gave with_A 99992 }
    ensures again { moved with_A 0 (codes "intro x") 100000 true ≡ Gave with_x 99993 }
    ensures exact { moved with_x 0 (codes "exact x") 100000 true ≡ Gave (solved_by (Var 0)) 99998 }
    ensures taken { moved with_A 0 (codes "intro A") 100000 true ≡ Refused (NameTaken (codes "A")) 100000 }
    ensures misfit { moved with_A 0 (codes "exact A") 100000 true ≡ Refused (Elab (Unify (Mismatch 1 Star (Pi (Var 0) (Var 1))))) 99998 }
    ensures too_few { moved started 0 (codes "intro A") 7 true ≡ OutOfFuel }
    ensures syntax { moved started 1 (codes "intro") 0 true ≡ Refused (Syntax 5) 0 }
    ensures no_goal { moved started 1 (codes "exact _") 0 true ≡ Refused (NoGoal 1 1) 0 }
    ensures asked { moved started 0 (codes "exact ?") 0 true ≡ Refused (Unsolved 6) 0 }
    ensures unknown { moved started 0 (codes "exact y") 9 true ≡ Refused (Elab (UnknownName 6 (codes "y"))) 8 }
    // a term with redexes stands as it was written
    ensures written { moved with_x 0 (codes "exact ((fun (B : *) => fun (y : B) => y) A x)") 100000 true ≡ Gave (solved_by (App (App (Lam Star (Lam (Var 0) (Var 0))) (Var 1)) (Var 0))) 99980 }
{}

/// Terms with holes.
pub fn holes_compute()
    // the `?` are goals, and the first one gets its value from the second one's
    ensures refine { moved of_order 0 (codes "refine trans(a(), ?, b(), ?, ?)") 100000 true ≡ Gave with_middle 99981 }
    ensures eight { moved with_middle 1 (codes "exact ac()") 8 true ≡ Gave with_lower 0 }
    ensures seven { moved with_middle 1 (codes "exact ac()") 7 true ≡ OutOfFuel }
    ensures alone { moved with_middle 1 (codes "exact ac()") 8 false ≡ Gave with_lower_alone 0 }
    ensures last { moved with_lower 0 (codes "exact cb()") 100000 true ≡ Gave with_both 99992 }
    // a `_` that finds no value
    ensures unsolved { moved a_number 0 (codes "refine mk(_, ?, ?)") 100000 true ≡ Refused (Unsolved 10) 99983 }
    // a cycle by way of a type
    ensures types { moved a_number 0 (codes "refine mk(?, ?, ?)") 100000 true ≡ Gave made 99983 }
    ensures cycle { moved made 2 (codes "exact refl(_)") 100000 true ≡ Refused (Elab (Unify (Cycle 1))) 99988 }
    // a metavariable that is applied
    ensures no_pattern { moved of_order 0 (codes "exact app(_, a())") 100000 true ≡ Refused (Elab (Unify (NotPattern 1))) 99993 }
    // an argument that is found out by `apply`
    ensures apply { moved refuted 0 (codes "apply h") 100000 true ≡ Gave with_argument 99983 }
    // what pruning declares is a goal
    ensures prune { moved for_each 0 (codes "exact refl(s(_))") 100000 true ≡ Gave pruned 99972 }
{}
