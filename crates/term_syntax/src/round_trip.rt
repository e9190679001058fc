//! The laws of printing and scoping, with worked examples.

ghost use Rattle.std.specs.Prelude.{◌≡◌, [], ◌∷◌, codes, None, Some, Ok, Err};
ghost use Rattle.std.specs.Str.{bytes_eq};
ghost use Rattle.std.specs.Bool.{if◌then◌else◌};
ghost use Rattle.ld_trees.specs.Term.{Star, Square, Var, App, Lam, Pi, Const, Meta, none, ◌▹◌};
ghost use Rattle.term_syntax.specs.declared.scope_fault.ScopeFault.TheVariants.{UnknownName, WrongCount, Unsolved};
ghost use Rattle.term_syntax.specs.declared.surface.Label.TheVariants as label;
ghost use Rattle.term_syntax.specs.declared.surface.Shape.TheVariants as shape;
ghost use Rattle.term_syntax.specs.Grammar.{node};
ghost use Rattle.term_syntax.specs.Scoping.{scope};
ghost use Rattle.term_syntax.specs.Printing.{text};
ghost use Rattle.term_syntax.specs.ReadsBack.{PrintedIsRead, ScopedIsReadable, PrintedIsAscii};

/// What is printed is read again: the text of a term without `□` and metavariables, whose constants are known, is in the grammar, as a
/// tree whose names resolve to the term.
pub fn printed_is_read()
    ensures { PrintedIsRead }
{}

/// What scoping gives has only variables that are bound or stand for an entry of the context, and only known constants with the right
/// number of arguments; so it is printed and read back.
#[tactic(auto, using(crate::proofs::ScopedTerms::scoped_is_readable))]
pub fn scoped_is_readable()
    ensures { ScopedIsReadable }
{}

/// A printed text is ASCII.
pub fn printed_is_ascii()
    ensures { PrintedIsAscii }
{}

/// Worked examples of printed texts, which the checker computes.
pub fn printed_examples_compute()
    ensures abstractions { text [] 0 (Lam Star (Lam (Var 0) (Var 0))) ≡ codes "fun (%0 : *) => fun (%1 : %0) => %1" }
    ensures arrows { text [] 0 (Pi Star (Pi (Var 0) (Var 1))) ≡ codes "(%0 : *) -> %0 -> %0" }
    ensures named { text (codes "A" ∷ []) 1 (Pi (Var 0) (Var 1)) ≡ codes "A -> A" }
    ensures unnamed { text (codes "%0" ∷ []) 1 (Pi (Var 0) (Var 1)) ≡ codes "%0 -> %0" }
    ensures hidden { text (codes "A" ∷ codes "A" ∷ []) 2 (App (Var 1) (Var 0)) ≡ codes "%0 A" }
    ensures constants { text [] 0 (Lam Star (Lam (Const (codes "not") (none ▹ Var 0)) (Lam (Var 1) (App (Var 1) (Var 0))))) ≡ codes "fun (%0 : *) => fun (%1 : not(%0)) => fun (%2 : %0) => %1 %2" }
    ensures metavariables { text [] 0 (Const (codes "eq") (none ▹ Meta 1 none ▹ Const (codes "s") (none ▹ Meta 2 none))) ≡ codes "eq(?1[], s(?2[]))" }
    ensures product { text [] 0 (Pi (Const (codes "N") none) Star) ≡ codes "N() -> *" }
    ensures application { text (codes "F" ∷ codes "x" ∷ []) 2 (App (Var 1) (Var 0)) ≡ codes "F x" }
    ensures to_the_left { text (codes "A" ∷ []) 1 (Pi (Pi (Var 0) (Const (codes "falsum") none)) (Const (codes "falsum") none)) ≡ codes "(A -> falsum()) -> falsum()" }
    ensures sort_of_kinds { text [] 0 Square ≡ codes "#" }
    // An abstraction stands in parentheses as the head of an application, and an application as an argument.
    ensures redex { text (codes "%0" ∷ codes "%1" ∷ []) 2 (App (App (Lam Star (Lam (Var 0) (Var 0))) (Var 1)) (Var 0)) ≡ codes "(fun (%2 : *) => fun (%3 : %2) => %3) %0 %1" }
    ensures argument { text (codes "f" ∷ codes "g" ∷ codes "x" ∷ []) 3 (App (Var 2) (App (Var 1) (Var 0))) ≡ codes "f (g x)" }
{}

/// Worked examples of resolved names, which the checker computes.
pub fn scoped_examples_compute()
    ensures unknown { scope (λ _. None) [] (node 0 (shape.Named (label.Plain (codes "y")))) [] ≡ Err (UnknownName 0 (codes "y")) }
    ensures wrong_count { scope (λ a. if bytes_eq a (codes "le") then Some 2 else Some 0) [] (node 0 (shape.Const (codes "le") (node 3 (shape.Const (codes "a") []) ∷ []))) [] ≡ Err (WrongCount 0 (codes "le") 1 2) }
    ensures innermost { scope (λ _. None) (codes "x" ∷ []) (node 0 (shape.Lam (label.Plain (codes "x")) (node 9 (shape.Named (label.Plain (codes "x")))) (node 15 (shape.Named (label.Plain (codes "x")))))) [] ≡ Ok (Lam (Var 0) (Var 0)) }
    // `%1` is the entry of level 1, also below a binder of another name.
    ensures level { scope (λ _. None) (codes "A" ∷ codes "B" ∷ codes "C" ∷ []) (node 0 (shape.Named (label.Level 1))) (Some (label.Plain (codes "x")) ∷ []) ≡ Ok (Var 2) }
    ensures no_such_level { scope (λ _. None) (codes "A" ∷ []) (node 0 (shape.Named (label.Level 1))) [] ≡ Err (UnknownName 0 (codes "%1")) }
    // `(%5 : A) -> %5`: the label is bound in the text, whatever its level is.
    ensures label_bound { scope (λ _. None) (codes "A" ∷ []) (node 0 (shape.Pi (Some (label.Level 5)) (node 6 (shape.Named (label.Plain (codes "A")))) (node 12 (shape.Named (label.Level 5))))) [] ≡ Ok (Pi (Var 0) (Var 0)) }
    ensures last_of_equals { scope (λ _. None) (codes "x" ∷ codes "y" ∷ codes "x" ∷ codes "z" ∷ []) (node 0 (shape.Named (label.Plain (codes "x")))) [] ≡ Ok (Var 1) }
    // The name stands below the arrow, which is a binder without a name.
    ensures below_an_arrow { scope (λ _. None) (codes "A" ∷ []) (node 0 (shape.Pi None (node 0 (shape.Named (label.Plain (codes "A")))) (node 5 (shape.Named (label.Plain (codes "A")))))) [] ≡ Ok (Pi (Var 0) (Var 1)) }
    // An unknown constant comes before a wrong count, and that before the faults of its arguments.
    ensures unknown_constant { scope (λ _. None) [] (node 0 (shape.Const (codes "a") (node 2 (shape.Named (label.Plain (codes "y"))) ∷ []))) [] ≡ Err (UnknownName 0 (codes "a")) }
    ensures count_first { scope (λ _. Some 0) [] (node 0 (shape.Const (codes "a") (node 2 (shape.Named (label.Plain (codes "y"))) ∷ []))) [] ≡ Err (WrongCount 0 (codes "a") 1 0) }
    ensures argument_last { scope (λ _. Some 1) [] (node 0 (shape.Const (codes "a") (node 2 (shape.Named (label.Plain (codes "y"))) ∷ []))) [] ≡ Err (UnknownName 2 (codes "y")) }
    ensures hole { scope (λ _. None) [] (node 0 (shape.App (node 0 shape.Star) (node 2 shape.Wild ∷ []))) [] ≡ Err (Unsolved 2) }
{}
