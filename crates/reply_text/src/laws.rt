//! Laws of the names that replies show terms with. Nothing here is called at run time.

ghost use Rattle.reply_text.specs.Laws.{LevelNamesFit, ShownNamesFit};

/// The level names of fewer than 999,999,000 entries are names of a context of so many entries.
pub fn level_names_fit()
    ensures { LevelNamesFit }
{}

/// What the variables of a context print as in the whole of it are names of a context with as many entries.
pub fn shown_names_fit()
    ensures { ShownNamesFit }
{}
