//! The laws of the grammar and of its reading, and worked rows. Each function is a law, stated by its contract; none is called at run time.

ghost use Rattle.std.specs.Prelude.{◌≡◌, Ok, Err, [], ◌∷◌, codes};
ghost use Rattle.term_syntax.specs.Grammar.{node};
ghost use Rattle.term_syntax.specs.declared.surface.Label.TheVariants as label;
ghost use Rattle.term_syntax.specs.declared.surface.Shape.TheVariants as shape;
ghost use Rattle.move_text.specs.declared.moves.Move.TheVariants as m;
ghost use Rattle.move_text.specs.Reading.{read};
ghost use Rattle.move_text.specs.Laws.{MovesAreUnique, NothingContinues, shown};

/// A text is at most one move.
#[tactic(auto, using(crate::proofs::Texts::moves_are_unique))]
pub fn moves_are_unique()
    ensures { MovesAreUnique }
{}

/// Where a text is refused at a token, no text of the grammar begins with the tokens before it and goes on with it.
#[tactic(auto, using(crate::proofs::Refusals::nothing_continues))]
pub fn nothing_continues()
    ensures { NothingContinues }
{}

/// The moves of small texts, which the checker computes.
pub fn moves_compute()
    ensures intro { shown (read (codes "  intro A ")) ≡ Ok (m.Intro (codes "A")) }
    // Places count from the start of the whole text.
    ensures apply { shown (read (codes "apply f x")) ≡ Ok
        (m.Apply (node 6 (shape.App (node 6 (shape.Named (label.Plain (codes "f"))))
        (node 8 (shape.Named (label.Plain (codes "x"))) ∷ [])))) }
    // The first word is no constant.
    ensures exact { shown (read (codes "exact(x)")) ≡ Ok (m.Exact (node 6 (shape.Named (label.Plain (codes "x"))))) }
    ensures refine { shown (read (codes "refine g(?)")) ≡ Ok (m.Refine (node 7 (shape.Const (codes "g") (node 9 shape.Asked ∷ [])))) }
    ensures have { shown (read (codes "have y : A")) ≡ Ok (m.Have (codes "y") (node 9 (shape.Named (label.Plain (codes "A"))))) }
    ensures assumption { shown (read (codes "assumption")) ≡ Ok m.Assumption }
    ensures change { shown (read (codes "change *")) ≡ Ok (m.Change (node 7 shape.Star)) }
    ensures unfold { shown (read (codes "unfold not")) ≡ Ok (m.Unfold (codes "not")) }
{}

/// Refusals of small texts with their places, which the checker computes.
pub fn refusals_compute()
    ensures ends_early { shown (read (codes "intro")) ≡ Err 5 }
    ensures unknown_word { shown (read (codes "nope x")) ≡ Err 0 }
    // A name is fine there, and the `(` directly behind it isn't.
    ensures call_for_a_name { shown (read (codes "intro x(")) ≡ Err 7 }
    ensures level_for_a_name { shown (read (codes "intro %0")) ≡ Err 6 }
    ensures no_colon { shown (read (codes "have y A")) ≡ Err 7 }
    ensures more_behind { shown (read (codes "assumption x")) ≡ Err 11 }
    ensures in_the_term { shown (read (codes "exact (x")) ≡ Err 8 }
    ensures nothing { shown (read (codes " ")) ≡ Err 1 }
{}
