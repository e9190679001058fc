//! Worked examples of unification, which the checker computes. Nothing here is called at run time.

ghost use Rattle.std.specs.Prelude.{◌≡◌, [], ◌∷◌};
ghost use Rattle.ld_trees.specs.Term.{Star, Var, App, Pi, Meta, none, ◌▹◌};
ghost use Rattle.unification.specs.Steps.{Gave, Refused, OutOfFuel};
ghost use Rattle.unification.specs.Refusals.{Mismatch, NotPattern, Scope, Cycle};
ghost use Rattle.unification.specs.Unification.{unify};
ghost use Rattle.unification.specs.Examples.{book, N, z, s, eq, K, K2, bare, at, solved, goal, one, two, over_x, kind_over_x, equal_to, function, predicate, typed_by, type_holds_x, x_alone, two_entries, one_kept, entry_holds_x, z_at_y, neither_kept, before, pruned};

/// Unification of small terms, with its units.
pub fn unification_computes()
    // equal trees cost nothing
    ensures equal { unify book one 0 (s (bare 0)) (s (bare 0)) 0 ≡ Gave one 0 }
    // ?0[] is z()
    ensures pattern { unify book one 0 (bare 0) z 2 ≡ Gave (solved [] N z ∷ []) 0 }
    ensures pattern_short { unify book one 0 (bare 0) z 1 ≡ OutOfFuel }
    ensures pattern_right { unify book one 0 z (bare 0) 2 ≡ Gave (solved [] N z ∷ []) 0 }
    // under x and y, ?0[x] is s(x), and under y bound fun (y : N()) => eq(y, x)
    ensures entry { unify book over_x 2 (at 0 (Var 1)) (s (Var 1)) 3 ≡ Gave (solved x_alone N (s (Var 0)) ∷ []) 0 }
    ensures under_binder { unify book kind_over_x 2 (at 0 (Var 1)) (equal_to 2) 6 ≡ Gave (solved x_alone (Pi N Star) (equal_to 1) ∷ []) 0 }
    ensures scope { unify book over_x 2 (at 0 (Var 1)) (s (Var 0)) 9 ≡ Refused (Scope 0 1) 8 }
    // of two patterns the greater number is solved
    ensures greater { unify book two 0 (bare 0) (bare 1) 2 ≡ Gave (goal [] N ∷ solved [] N (bare 0) ∷ []) 0 }
    ensures greater_left { unify book two 0 (bare 1) (bare 0) 2 ≡ Gave (goal [] N ∷ solved [] N (bare 0) ∷ []) 0 }
    // further arguments, and arguments that aren't distinct variables
    ensures not_pattern { unify book function 0 (App (bare 0) z) z 9 ≡ Refused (NotPattern 0) 8 }
    // ?0[] z() and N(): that ?0 may be fun (x : N()) => N() doesn't make it so
    ensures not_constant { unify book predicate 0 (App (bare 0) z) N 9 ≡ Refused (NotPattern 0) 8 }
    ensures not_pattern_right { unify book over_x 0 z (at 0 z) 9 ≡ Refused (NotPattern 0) 8 }
    ensures twice { unify book two_entries 1 (Meta 1 (none ▹ Var 0 ▹ Var 0)) z 9 ≡ Refused (NotPattern 1) 8 }
    ensures numbers_differ { unify book function 0 (bare 0) (App (bare 0) z) 9 ≡ Refused (Mismatch 0 (bare 0) (App (bare 0) z)) 8 }
    // s(?1[]) holds no ?0, but the type of ?1 does
    ensures cycle { unify book typed_by 0 (bare 0) (s (bare 1)) 9 ≡ Refused (Cycle 0) 4 }
    // K(z()) is N()
    ensures mismatch { unify book [] 3 (K z) (eq z z) 9 ≡ Refused (Mismatch 3 N (eq z z)) 7 }
    // equal defined constants: their arguments first; where these differ, the assignments are given up and the units spent
    ensures constants { unify book one 0 (K (bare 0)) (K z) 3 ≡ Gave (solved [] N z ∷ []) 0 }
    ensures given_up { unify book one 0 (K2 (bare 0) z) (K2 z (s z)) 6 ≡ Gave one 0 }
    ensures given_up_short { unify book one 0 (K2 (bare 0) z) (K2 z (s z)) 5 ≡ OutOfFuel }
{}

/// Pruning, with its units and the new metavariable's context, names and type.
pub fn pruning_computes()
    ensures pruned { unify book before 1 (eq (s (at 4 (Var 0))) (s (at 4 (Var 0)))) (eq (bare 1) (bare 1)) 11 ≡ Gave pruned 0 }
    ensures pruned_short { unify book before 1 (eq (s (at 4 (Var 0))) (s (at 4 (Var 0)))) (eq (bare 1) (bare 1)) 10 ≡ OutOfFuel }
    ensures kept { unify book two_entries 2 (at 0 (Var 0)) (s (Meta 1 (none ▹ Var 1 ▹ Var 0))) 9 ≡ Gave one_kept 0 }
    ensures kept_short { unify book two_entries 2 (at 0 (Var 0)) (s (Meta 1 (none ▹ Var 1 ▹ Var 0))) 8 ≡ OutOfFuel }
    // p's argument is good, but its type holds x, whose argument isn't
    ensures entry_holds { unify book entry_holds_x 2 (at 0 (Var 1)) (s (Meta 1 (none ▹ z_at_y ▹ Var 1))) 6 ≡ Gave neither_kept 0 }
    ensures entry_holds_short { unify book entry_holds_x 2 (at 0 (Var 1)) (s (Meta 1 (none ▹ z_at_y ▹ Var 1))) 5 ≡ OutOfFuel }
    ensures type_holds { unify book type_holds_x 1 (bare 0) (s (at 1 (Var 0))) 9 ≡ Refused (Scope 0 0) 8 }
    ensures itself { unify book over_x 2 (at 0 (Var 0)) (s (at 0 (Var 1))) 9 ≡ Refused (Scope 0 0) 8 }
{}
