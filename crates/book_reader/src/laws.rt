//! The laws of the grammar of books and of its reading. Each function is a law, stated by its contract; none is called at run time.

ghost use Rattle.book_reader.specs.Laws.{ItemsAreUnique, NothingContinues};

/// A text is a book in at most one way.
#[tactic(auto, using(crate::proofs::Texts::items_are_unique))]
pub fn items_are_unique()
    ensures { ItemsAreUnique }
{}

/// Where a text is refused at a token, no book begins with the tokens before it and goes on with it.
#[tactic(auto, using(crate::proofs::Refusals::nothing_continues))]
pub fn nothing_continues()
    ensures { NothingContinues }
{}
