//! The laws of the refused place. Each function is a law, stated by its contract; none is called at run time.

ghost use Rattle.refusal_places.specs.Places.{BeforeContinues, RefusedAtTheFirst, EndsEarly, RefusedAtTheFirstFrom, Begins, IsTooDeep};
ghost use Rattle.term_syntax.specs.declared.surface.Surface.{Surface};
ghost use Rattle.term_syntax.specs.Lex.{Lexeme, lexemes};
ghost use Rattle.term_syntax.specs.Reading.{read};
ghost use Rattle.term_syntax.specs.Grammar.{IsTerm};
ghost use Rattle.term_syntax.specs.Laws.{shown};
ghost use Rattle.std.specs.Prelude.{◌≡◌, ℕ, Err, List, [], ◌++◌, codes, take};

/// Where a text is refused, the tokens before the place begin a text of the grammar, unless the limit of nesting is the cause.
#[tactic(auto, using(crate::proofs::Refused::before_continues))]
pub fn before_continues()
    ensures { BeforeContinues }
{}

/// A text is refused at the first token with which none goes on.
#[tactic(auto, using(crate::proofs::Refused::refused_at_the_first))]
pub fn refused_at_the_first()
    ensures { RefusedAtTheFirst }
{}

/// A text that is refused at its end begins a text of the grammar, unless the limit is the cause, and is none.
#[tactic(auto, using(crate::proofs::Refused::ends_early))]
pub fn ends_early()
    ensures { EndsEarly }
{}

/// The same from a place of a text on.
#[tactic(auto, using(crate::proofs::Refused::refused_at_the_first_from))]
pub fn refused_at_the_first_from()
    ensures { RefusedAtTheFirstFrom }
{}

/// What is before the refused place of small texts, which the checker computes.
pub fn places_compute()
    // `(A -> ` goes on with `*)`.
    ensures ends_early { Begins 3 (lexemes 0 (codes "(A -> ")) }
    // `* )` is refused at the `)`, and `*` is a text itself.
    ensures closed_twice { (shown (read (codes "* )")) ≡ Err 2) × Begins 1 (take 1 (lexemes 0 (codes "* )"))) }
    // `fun (x(` is refused at the second `(`, and `fun (x` goes on with `: *) => *` where the x is a plain name.
    ensures call_for_a_name { (shown (read (codes "fun (x(")) ≡ Err 6) × Begins 2 (take 3 (lexemes 0 (codes "fun (x("))) }
    // The x as it stands in that text, a name that `(` follows, begins nothing.
    ensures only_as_a_plain_name { (d : ℕ) (others : List Lexeme) (t : Surface) → IsTerm d (take 3 (lexemes 0 (codes "fun (x(")) ++ others) t [] → ⊥ }
    // Where one term alone is allowed, none stands inside `(`, nor behind `fun`.
    ensures too_deep { IsTooDeep 1 (lexemes 0 (codes "(")) }
    ensures too_deep_behind_fun { IsTooDeep 1 (lexemes 0 (codes "fun")) }
{}
