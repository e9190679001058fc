//! Worked examples of elaboration, which the checker computes. Nothing here is called at run time.

ghost use Rattle.std.specs.Prelude.{◌≡◌, [], ◌∷◌, codes};
ghost use Rattle.ld_terms.specs.Names.{level_name};
ghost use Rattle.ld_trees.specs.Term.{Star, Square, Var, App, Lam, Pi, Const, Meta, none, ◌▹◌};
ghost use Rattle.unification.specs.Steps.{Gave, Refused, OutOfFuel};
ghost use Rattle.unification.specs.Refusals.{Mismatch, NotPattern, Cycle};
ghost use Rattle.elaboration.specs.Refusals.{Unify, UnknownName, WrongCount, NoExpected, NotFunction, NotType};
ghost use Rattle.elaboration.specs.Elaboration.{synth, check, check_type};
ghost use Rattle.elaboration.specs.Order.{Asked, Wild, holes_of, asked_among, wild_among, AreInTextOrder};
ghost use Rattle.elaboration.specs.Examples.{
  N,
  a,
  b,
  c,
  z,
  s,
  K,
  le,
  eq,
  refl_of,
  falsum,
  not_of,
  entry,
  order_book,
  cycle_book,
  negation_book,
  open_in,
  valued,
  with_A,
  with_x,
  with_h,
  with_y,
  given,
  star,
  wild,
  asked,
  named,
  level,
  call,
  function,
  arrow,
  product,
  applied,
};

/// Worked examples of texts that are elaborated.
pub fn elaboration_computes()
    // `?` and `_` against A, in A : *, x : A
    ensures hole { check [] [] with_x (asked 0) (Var 1) 2 ≡ Gave (given (open_in with_x (Var 1) ∷ []) (0 ∷ []) [] (Meta 0 (none ▹ Var 1 ▹ Var 0)) (Var 1)) 0 }
    ensures noted { check [] [] with_x (wild 3) (Var 1) 2 ≡ Gave (given (open_in with_x (Var 1) ∷ []) [] ((0, 3) ∷ []) (Meta 0 (none ▹ Var 1 ▹ Var 0)) (Var 1)) 0 }
    ensures too_few { check [] [] with_x (asked 0) (Var 1) 1 ≡ OutOfFuel }
    // `?` as a type
    ensures type_hole { check_type [] [] [] (asked 0) 2 ≡ Gave (given (open_in [] Star ∷ []) (0 ∷ []) [] (Meta 0 none) Star) 0 }
    // `trans(a(), ?, b(), ?, ?)` against `le(a(), b())`, which is metavariable 0
    ensures goals { check order_book (open_in [] (le a b) ∷ []) [] (call 0 (codes "trans") (call 6 (codes "a") [] ∷ asked 11 ∷ call 14 (codes "b") [] ∷ asked 19 ∷ asked 22 ∷ [])) (le a b) 13
        ≡ Gave (given (open_in [] (le a b) ∷ open_in [] N ∷ open_in [] (le a (Meta 1 none)) ∷ open_in [] (le (Meta 1 none) b) ∷ []) (1 ∷ 2 ∷ 3 ∷ []) []
        (Const (codes "trans") (none ▹ a ▹ Meta 1 none ▹ b ▹ Meta 2 none ▹ Meta 3 none)) (le a b)) 0 }
    ensures goals_too_few { check order_book (open_in [] (le a b) ∷ []) [] (call 0 (codes "trans") (call 6 (codes "a") [] ∷ asked 11 ∷ call 14 (codes "b") [] ∷ asked 19 ∷ asked 22 ∷ [])) (le a b) 12 ≡ OutOfFuel }
    // `ac()` against `le(a(), ?1[])`, of which metavariable 1 gets the value `c()`
    ensures solved { check order_book (open_in [] (le a b) ∷ open_in [] N ∷ []) [] (call 0 (codes "ac") []) (le a (Meta 1 none)) 4
        ≡ Gave (given (open_in [] (le a b) ∷ valued [] N c ∷ []) [] [] (Const (codes "ac") none) (le a (Meta 1 none))) 0 }
    ensures solved_too_few { check order_book (open_in [] (le a b) ∷ open_in [] N ∷ []) [] (call 0 (codes "ac") []) (le a (Meta 1 none)) 3 ≡ OutOfFuel }
    // `trans(_, ?, _, ?, ?)` against `le(a(), b())`: the holes in text order with places, two of them solved
    ensures holes { check order_book [] [] (call 0 (codes "trans") (wild 6 ∷ asked 9 ∷ wild 12 ∷ asked 15 ∷ asked 18 ∷ [])) (le a b) 20
        ≡ Gave (given (valued [] N a ∷ open_in [] N ∷ valued [] N b ∷ open_in [] (le (Meta 0 none) (Meta 1 none)) ∷ open_in [] (le (Meta 1 none) (Meta 2 none)) ∷ []) (1 ∷ 3 ∷ 4 ∷ []) ((0, 6) ∷ (2, 12) ∷ [])
        (Const (codes "trans") (none ▹ Meta 0 none ▹ Meta 1 none ▹ Meta 2 none ▹ Meta 3 none ▹ Meta 4 none)) (le a b)) 0 }
    // `refl(_)` against `eq(z(), z())`
    ensures argument_found { check cycle_book [] [] (call 0 (codes "refl") (wild 5 ∷ [])) (eq z z) 8 ≡ Gave (given (valued [] N z ∷ []) [] ((0, 5) ∷ []) (refl_of (Meta 0 none)) (eq z z)) 0 }
    // `refl(?)` by itself
    ensures argument_asked { synth cycle_book [] [] (call 0 (codes "refl") (asked 5 ∷ [])) 3 ≡ Gave (given (open_in [] N ∷ []) (0 ∷ []) [] (refl_of (Meta 0 none)) (eq (Meta 0 none) (Meta 0 none))) 0 }
    // `fun (x : A) => x` against A -> A and by itself, in A : *
    ensures abstraction { check [] [] with_A (function 0 (codes "x") (named 9 (codes "A")) (named 15 (codes "x"))) (Pi (Var 0) (Var 1)) 100000 ≡ Gave (given [] [] [] (Lam (Var 0) (Var 0)) (Pi (Var 0) (Var 1))) 99996 }
    ensures alone { synth [] [] with_A (function 0 (codes "x") (named 9 (codes "A")) (named 15 (codes "x"))) 4 ≡ Gave (given [] [] [] (Lam (Var 0) (Var 0)) (Pi (Var 0) (Var 1))) 0 }
    ensures alone_too_few { synth [] [] with_A (function 0 (codes "x") (named 9 (codes "A")) (named 15 (codes "x"))) 3 ≡ OutOfFuel }
    // `fun (x : _) => x` against A -> A, in A : *
    ensures domain_found { check [] [] with_A (function 0 (codes "x") (wild 9) (named 15 (codes "x"))) (Pi (Var 0) (Var 1)) 10 ≡ Gave (given (valued with_A Star (Var 0) ∷ []) [] ((0, 9) ∷ []) (Lam (Meta 0 (none ▹ Var 0)) (Var 0)) (Pi (Var 0) (Var 1))) 0 }
    // `fun (x : A) => h` against `not(A)`, in A : *, h : falsum()
    ensures unfolded { check negation_book [] with_h (function 0 (codes "x") (named 9 (codes "A")) (named 15 (codes "h"))) (not_of (Var 1)) 5 ≡ Gave (given [] [] [] (Lam (Var 1) (Var 1)) (not_of (Var 1))) 0 }
    // `(A : *) -> A -> A`
    ensures typed { check_type [] [] [] (product 0 (codes "A") (star 5) (arrow 11 (named 11 (codes "A")) (named 16 (codes "A")))) 7 ≡ Gave (given [] [] [] (Pi Star (Pi (Var 0) (Var 1))) Star) 0 }
    // `%1` in A : *, x : A
    ensures by_level { synth [] [] with_x (level 0 1) 1 ≡ Gave (given [] [] [] (Var 0) (Var 1)) 0 }
    // `(fun (B : *) => fun (y : B) => y) A x` in A : *, x : A
    ensures two_arguments { synth [] [] with_x (applied 1 (function 1 (codes "B") (star 10) (function 16 (codes "y") (named 25 (codes "B")) (named 31 (codes "y")))) (named 34 (codes "A") ∷ named 36 (codes "x") ∷ [])) 11
        ≡ Gave (given [] [] [] (App (App (Lam Star (Lam (Var 0) (Var 0))) (Var 1)) (Var 0)) (Var 1)) 0 }
{}

/// Worked examples of the holes of texts and of their numbers.
pub fn holes_compute()
    // `trans(_, ?, _, ?, ?)`, of which the outcome against `le(a(), b())` is among the examples above
    ensures holes { holes_of (call 0 (codes "trans") (wild 6 ∷ asked 9 ∷ wild 12 ∷ asked 15 ∷ asked 18 ∷ [])) ≡ Wild 6 ∷ Asked 9 ∷ Wild 12 ∷ Asked 15 ∷ Asked 18 ∷ [] }
    ensures goals { asked_among (Wild 6 ∷ Asked 9 ∷ Wild 12 ∷ Asked 15 ∷ Asked 18 ∷ []) (0 ∷ 1 ∷ 2 ∷ 3 ∷ 4 ∷ []) ≡ 1 ∷ 3 ∷ 4 ∷ [] }
    ensures places { wild_among (Wild 6 ∷ Asked 9 ∷ Wild 12 ∷ Asked 15 ∷ Asked 18 ∷ []) (0 ∷ 1 ∷ 2 ∷ 3 ∷ 4 ∷ []) ≡ (0, 6) ∷ (2, 12) ∷ [] }
    // `(fun (x : _) => x) ?`: the holes of the head come before those of the arguments
    ensures head { holes_of (applied 1 (function 1 (codes "x") (wild 10) (named 16 (codes "x"))) (asked 19 ∷ [])) ≡ Wild 10 ∷ Asked 19 ∷ [] }
    ensures head_first { synth [] [] [] (applied 1 (function 1 (codes "x") (wild 10) (named 16 (codes "x"))) (asked 19 ∷ [])) 8
        ≡ Gave (given (open_in [] Star ∷ open_in [] (Meta 0 none) ∷ []) (1 ∷ []) ((0, 10) ∷ []) (App (Lam (Meta 0 none) (Var 0)) (Meta 1 none)) (Meta 0 none)) 0 }
    // `fun (x : (y : N()) -> eq(s(_), z())) => ?` against `(N() -> eq(?0[], z())) -> N()`: where the domains are unified, metavariable 2 is declared
    ensures gap { check cycle_book (open_in [] N ∷ []) [] (function 0 (codes "x") (product 9 (codes "y") (call 14 (codes "N") []) (call 22 (codes "eq") (call 25 (codes "s") (wild 27 ∷ []) ∷ call 31 (codes "z") [] ∷ []))) (asked 40)) (Pi (Pi N (eq (Meta 0 none) z)) N) 26
        ≡ Gave (given (valued [] N (s (Meta 2 none)) ∷ valued (entry (codes "y") N ∷ []) N (Meta 2 none) ∷ open_in [] N ∷ open_in (entry (codes "x") (Pi N (eq (s (Meta 1 (none ▹ Var 0))) z)) ∷ []) N ∷ []) (3 ∷ []) ((1, 27) ∷ [])
        (Lam (Pi N (eq (s (Meta 1 (none ▹ Var 0))) z)) (Meta 3 (none ▹ Var 0))) (Pi (Pi N (eq (Meta 0 none) z)) N)) 0 }
    // `le(?, ?)`: numbers from right to left are in no text order
    ensures not_from_the_right { AreInTextOrder [] (call 0 (codes "le") (asked 3 ∷ asked 6 ∷ [])) (given (open_in [] N ∷ open_in [] N ∷ []) (1 ∷ 0 ∷ []) [] (le (Meta 1 none) (Meta 0 none)) Star) → ⊥ }
{}

/// Worked examples of texts that are refused.
pub fn elaboration_refuses()
    ensures unknown { synth [] [] [] (named 0 (codes "y")) 1 ≡ Refused (UnknownName 0 (codes "y")) 0 }
    ensures unknown_constant { synth order_book [] [] (call 4 (codes "d") []) 9 ≡ Refused (UnknownName 4 (codes "d")) 8 }
    // `(A : *) -> A -> %1`: a level name means an entry of the context of the whole text
    ensures unknown_level { synth [] [] [] (product 0 (codes "A") (star 5) (arrow 11 (named 11 (codes "A")) (level 16 1))) 7 ≡ Refused (UnknownName 16 (level_name 1)) 0 }
    ensures count { synth order_book [] [] (call 0 (codes "le") (call 3 (codes "a") [] ∷ [])) 1 ≡ Refused (WrongCount 0 (codes "le") 1 2) 0 }
    ensures no_type { synth [] [] [] (asked 0) 1 ≡ Refused (NoExpected 0) 0 }
    ensures no_type_wild { synth [] [] [] (wild 7) 1 ≡ Refused (NoExpected 7) 0 }
    // `* *`
    ensures no_function { synth [] [] [] (applied 0 (star 0) (star 2 ∷ [])) 2 ≡ Refused (NotFunction 0 Star Square) 0 }
    // `y y` in y : K(z()): the type as it was found, not its weak head form
    ensures no_function_unfolded { synth cycle_book [] with_y (applied 0 (named 0 (codes "y")) (named 2 (codes "y") ∷ [])) 3 ≡ Refused (NotFunction 1 (Var 0) (K z)) 0 }
    // x : A as a type
    ensures no_sort { check_type [] [] with_x (named 0 (codes "x")) 1 ≡ Refused (NotType 2 (Var 0)) 0 }
    // `fun (x : *) => *`
    ensures upper_body { synth [] [] [] (function 0 (codes "x") (star 9) (star 15)) 4 ≡ Refused (NotType 1 Square) 0 }
    // `A` against A -> A, in A : *
    ensures misfit { check [] [] with_A (named 0 (codes "A")) (Pi (Var 0) (Var 1)) 2 ≡ Refused (Unify (Mismatch 1 Star (Pi (Var 0) (Var 1)))) 0 }
    // `fun (x : le(a(), b())) => x` against N() -> N()
    ensures other_domain { check order_book [] [] (function 0 (codes "x") (call 9 (codes "le") (call 12 (codes "a") [] ∷ call 17 (codes "b") [] ∷ [])) (named 26 (codes "x"))) (Pi N N) 5 ≡ Refused (Unify (Mismatch 0 (le a b) N)) 0 }
    // `fun (x : A) => x` against `*`, in A : *
    ensures no_product { check [] [] with_A (function 0 (codes "x") (named 9 (codes "A")) (named 15 (codes "x"))) Star 5 ≡ Refused (Unify (Mismatch 1 (Pi (Var 0) (Var 1)) Star)) 0 }
    // `fun (x : A) => h` against `not(h)`: the domain is unified with that of the unfolded type
    ensures other_unfolded { check negation_book [] with_h (function 0 (codes "x") (named 9 (codes "A")) (named 15 (codes "h"))) (not_of (Var 0)) 4 ≡ Refused (Unify (Mismatch 2 (Var 1) (Var 0))) 0 }
    // `(fun (A : *) => A) *`
    ensures other_argument { synth [] [] [] (applied 1 (function 1 (codes "A") (star 10) (named 16 (codes "A"))) (star 19 ∷ [])) 7 ≡ Refused (Unify (Mismatch 0 Square Star)) 0 }
    // `app(_, a())` against `le(a(), b())`, which is metavariable 0
    ensures no_pattern { check order_book (open_in [] (le a b) ∷ []) [] (call 0 (codes "app") (wild 4 ∷ call 7 (codes "a") [] ∷ [])) (le a b) 7 ≡ Refused (Unify (NotPattern 1)) 0 }
    // `refl(_)` against `eq(?1[], s(?2[]))`, where the type of metavariable 2 is `K(?1[])`
    ensures cycle { check cycle_book (open_in [] N ∷ open_in [] N ∷ open_in [] (K (Meta 1 none)) ∷ open_in [] (eq (Meta 1 none) (s (Meta 2 none))) ∷ []) [] (call 0 (codes "refl") (wild 5 ∷ [])) (eq (Meta 1 none) (s (Meta 2 none))) 12
        ≡ Refused (Unify (Cycle 1)) 0 }
{}
