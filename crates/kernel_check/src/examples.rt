ghost use Rattle.std.specs.Prelude.{◌≡◌, []};
ghost use Rattle.ld_trees.specs.Term.{star, Star, Square, Var, App, Lam, Pi, Const, none, ◌▹◌};
ghost use Rattle.ld_rules.specs.Examples.{falsum, not_name, not_of, negation_book, identity, identity_type};
ghost use Rattle.conversion.specs.Runs.{Gave, Refused, OutOfFuel, NotType, NotFunction, Mismatch};
ghost use Rattle.kernel_check.specs.Inference.{infer, infer_sort};
ghost use Rattle.kernel_check.specs.Examples.{applied_negation, applied_negation_type};

/// Worked examples of inference, which the checker computes.
pub fn inference_computes()
    // fun (A : *) => fun (x : A) => x
    ensures enough { infer [] none identity 5 ≡ Gave identity_type 0 }
    ensures too_few { infer [] none identity 4 ≡ OutOfFuel }
    ensures many { infer [] none identity 100000 ≡ Gave identity_type 99995 }
    // ((A : *) -> A) -> (A : *) -> A
    ensures products { infer [] none (Pi (Pi Star (Var 0)) (Pi Star (Var 0))) 7 ≡ Gave Star 0 }
    ensures products_short { infer [] none (Pi (Pi Star (Var 0)) (Pi Star (Var 0))) 6 ≡ OutOfFuel }
    // (fun (A : *) => A) *
    ensures mismatch { infer [] none (App (Lam Star (Var 0)) Star) 100 ≡ Refused (Mismatch 0 Square Star) 94 }
    // * *
    ensures not_function { infer [] none (App Star Star) 100 ≡ Refused (NotFunction 0 Star Square) 98 }
    // fun (x : *) => *
    ensures not_type { infer [] none (Lam Star Star) 100 ≡ Refused (NotType 1 Square) 97 }
    ensures entry { infer [] (none ▹ Star ▹ Var 0) (Var 0) 1 ≡ Gave (Var 1) 0 }
    // not(falsum()), and not with no argument
    ensures constant { infer negation_book none (not_of falsum) 2 ≡ Gave Star 0 }
    ensures wrong_count { infer negation_book none (Const not_name none) 9 ≡ Refused (NotType 0 (Const not_name none)) 8 }
    // fun (A : *) => fun (f : not(A) -> *) => fun (h : not((fun (B : *) => B) A)) => f h
    ensures equal_constants { infer negation_book none applied_negation 20 ≡ Gave applied_negation_type 0 }
    ensures equal_constants_short { infer negation_book none applied_negation 19 ≡ OutOfFuel }
    ensures sort { infer_sort [] (none ▹ Star) (Var 0) 1 ≡ Gave star 0 }
    ensures no_sort { infer_sort [] (none ▹ Star ▹ Var 0) (Var 0) 1 ≡ Refused (NotType 2 (Var 0)) 0 }
{}
