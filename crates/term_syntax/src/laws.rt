//! The laws of the grammar and of its reading. Each function is a law, stated by its contract; none is called at run time.

ghost use Rattle.term_syntax.specs.Laws.{ReadingIsSound, ReadingIsComplete, TreesAreUnique, NothingContinues, shown};
ghost use Rattle.term_syntax.specs.Reading.{read};
ghost use Rattle.term_syntax.specs.Grammar.{node};
ghost use Rattle.term_syntax.specs.declared.surface.Label.TheVariants as label;
ghost use Rattle.term_syntax.specs.declared.surface.Shape.TheVariants as shape;
ghost use Rattle.std.specs.Prelude.{◌≡◌, Ok, Err, [], ◌∷◌, codes};
ghost use Rattle.std.specs.List.{repeat};

/// What is read is in the grammar.
#[tactic(auto, using(crate::proofs::Texts::reading_is_sound))]
pub fn reading_is_sound()
    ensures { ReadingIsSound }
{}

/// Whatever is in the grammar is read.
#[tactic(auto, using(crate::proofs::Texts::reading_is_complete))]
pub fn reading_is_complete()
    ensures { ReadingIsComplete }
{}

/// A text has at most one tree.
#[tactic(auto, using(crate::proofs::Texts::trees_are_unique))]
pub fn trees_are_unique()
    ensures { TreesAreUnique }
{}

/// Where a text is refused at a token, no text of the grammar begins with the tokens before it and goes on with it.
#[tactic(auto, using(crate::proofs::Refusals::nothing_continues))]
pub fn nothing_continues()
    ensures { NothingContinues }
{}

/// Trees of small texts, which the checker computes.
pub fn trees_compute()
    ensures identity { shown (read (codes "fun (A : *) => fun (x : A) => x")) ≡ Ok
        (node 0 (shape.Lam (label.Plain (codes "A")) (node 9 shape.Star)
        (node 15 (shape.Lam (label.Plain (codes "x")) (node 24 (shape.Named (label.Plain (codes "A"))))
        (node 30 (shape.Named (label.Plain (codes "x")))))))) }
    // Application groups to the left; parentheses add no node, and a place stands inside them.
    ensures application { shown (read (codes "((f) x) y")) ≡ Ok
        (node 0 (shape.App
        (node 1 (shape.App (node 2 (shape.Named (label.Plain (codes "f")))) (node 5 (shape.Named (label.Plain (codes "x"))) ∷ [])))
        (node 8 (shape.Named (label.Plain (codes "y"))) ∷ []))) }
    // A constant's parenthesis follows its name directly.
    ensures constants { shown (read (codes "a( ) b (?)")) ≡ Ok
        (node 0 (shape.App (node 0 (shape.Const (codes "a") []))
        (node 5 (shape.Named (label.Plain (codes "b"))) ∷ node 8 shape.Asked ∷ []))) }
{}

/// Refusals of small texts with their places, which the checker computes.
pub fn refusals_compute()
    ensures ends_early { shown (read (codes "(A -> ")) ≡ Err 6 }
    ensures bad_byte { shown (read (codes "* & *")) ≡ Err 2 }
    // `%0` is a level name, and the next byte begins no token.
    ensures leading_zero { shown (read (codes "%07")) ≡ Err 2 }
    ensures leading_zero_of_many { shown (read (codes "%0123456789")) ≡ Err 2 }
    ensures long_level { shown (read (codes "%1234567890")) ≡ Err 0 }
    ensures no_digit { shown (read (codes "* %")) ≡ Err 2 }
    // A name is fine in a binder, and the `(` directly behind it isn't.
    ensures call_for_a_name { shown (read (codes "fun (x( : *) => x")) ≡ Err 6 }
    // Where a term inside 512 others would begin, the text ends too early.
    ensures too_deep { shown (read (repeat 512 (codes "("))) ≡ Err 512 }
{}
